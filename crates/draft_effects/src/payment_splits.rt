//! A payment that is split into several in a turn's draft (ERTP's split and splitMany): it goes whole
//! to the hand, and each part from there to a payment of its own, empty ones too. Its one contract: it
//! makes of a draft's rights what its movements make together in the world; where memory is wanted
//! midway, the draft can be undone as before.

ghost use Rattle.std.specs.Prelude.{◌≡◌, List, OnOk, Option, IfOk};
ghost use Rattle.draft_reads.specs.Views.{CanGoBack, HasNow, rights_in, seats_in, staging_in};
ghost use Rattle.draft_reads.specs.world_state.Shapes.{IsSplit};
ghost use Rattle.draft_reads.specs.vault.Combinations.{IsLive, brand_at, value_at};
ghost use Rattle.draft_reads.specs.proposals.declared.allocations.Share.{Share};
ghost use Rattle.draft_reads.specs.vault_model.Lists.{taken};
ghost use Rattle.draft_reads.specs.vault_model.Tables.{hand_plus};
ghost use Rattle.draft_reads.specs.rights_model.declared.Holder.TheVariants.{Payment};
ghost use Rattle.draft_effects.specs.HandStore.{IsStoring, StoresAll};
ghost use Rattle.draft_reads.specs.vault.Drafts.{IsClean, hand_now};
ghost use Rattle.draft_reads.specs.vault.Asked.{IsPaymentOf};
ghost use Rattle.draft_reads.specs.world_state.Good.{CanMoveTogether};
ghost use Rattle.draft_reads.specs.world_state.Rights.{moved_together};

use crate::stored_parts::{put_parts, store_part};
use draft_reads::amount_math_lib::Value;
use draft_reads::payment_reads::payment_amount;
use draft_reads::rights_model_lib::{Holder, Movement};
use draft_reads::vault_lib::draft::Draft;
use std::alloc::AllocError;

/// Splits a live payment into the next payments, one for each movement, which together move all that it has.
/// On an error some may have been made, and the draft is to be undone.
pub fn split(draft: &mut Draft, moves: &[Movement]) -> Result<(), AllocError>
    requires clean { IsClean draft.old }
    requires shape { IsSplit moves.now }
    requires can { (staging : List (Option (List Share)))
        × CanMoveTogether (rights_in draft.old) (seats_in draft.old) staging moves.now }
    ensures ok { OnOk result (HasNow draft.new (moved_together (rights_in draft.old) moves.now)
        (seats_in draft.old) (staging_in draft.old)) }
    ensures back { CanGoBack draft.old draft.new }
{
    draft.valid();
    draft.count_anew();
    let Some(first) = moves.first() else {
        unreachable!();
    };
    let Holder::Payment(payment) = &first.from else {
        unreachable!();
    };
    store_payment(draft, *payment)?;
    put_parts(draft, moves)
}

/// Takes a live payment whole into the hand's own store. On an error all is as before.
pub fn store_payment(draft: &mut Draft, payment: u32) -> Result<(), AllocError>
    requires stores { StoresAll draft.old }
    requires live { IsLive draft.old.now (brand_at draft.old.now payment) payment }
    ensures ok { OnOk result (IsStoring draft.old draft.new
        (taken draft.old.now (Payment payment) (brand_at draft.old.now payment)
        (value_at draft.old.now payment))
        (hand_plus (hand_now draft.old) (brand_at draft.old.now payment)
        (value_at draft.old.now payment).content)) }
    ensures back { CanGoBack draft.old draft.new }
{
    let value = payment_value(draft, payment)?;
    store_part(draft, &Holder::Payment(payment), &value)
}

/// A copy of what a live payment has.
fn payment_value(draft: &Draft, payment: u32) -> Result<Value, AllocError>
    requires { IsPaymentOf draft.now.now payment (value_at draft.now.now payment) }
    ensures { IfOk result (λ value. value ≡ value_at draft.now.now payment) }
{
    let Some(held) = payment_amount(draft, payment) else {
        unreachable!();
    };
    held.copy()
}
