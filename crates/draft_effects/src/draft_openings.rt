//! What a turn's draft opens with nothing in it: purses, payments of nothing, brands, seats. Its one
//! contract: each call makes of the draft's rights what the world's effect of that name makes of them,
//! or the draft can be undone as before.

ghost use Rattle.std.specs.Prelude.{◌≡◌, ◌≤◌, ◌<◌, ◌+◌, ◌++◌, ◌∷◌, [], None, length, IfOk, OnOk};
ghost use Rattle.draft_reads.specs.Views.{CanGoBack, HasNow, rights_in, seats_in, staging_in};
ghost use Rattle.draft_reads.specs.ertp_mint.BrandSupply.{new_supply};
ghost use Rattle.draft_reads.specs.ertp_mint.Stocks.{empty_amount, most_made};
ghost use Rattle.draft_reads.specs.proposals.Slots.{FitsSeat};
ghost use Rattle.draft_reads.specs.vault.Drafts.{IsClean};
ghost use Rattle.draft_reads.specs.world_state.Good.{open_slots};
ghost use Rattle.draft_reads.specs.vault_model.Tables.{no_hand};
ghost use Rattle.draft_reads.specs.world_state.Rights.{CanMoveAll, kind_at, moved_together, with_payment};
ghost use Rattle.draft_reads.specs.world_state.Rights.{with_purse, with_slots, with_supply};
ghost use Rattle.draft_reads.specs.world_state.Worlds.{empty_slots, new_seat, of_own};

use crate::movements::halves::{issue, put};
use crate::movements::move_rights;
use draft_reads::amount_math_lib::{Kind, Value};
use draft_reads::holders_lib::purses::OpenFault;
use draft_reads::proposals_lib::allocations::Allocation;
use draft_reads::proposals_lib::offers::{Exit, Proposal};
use draft_reads::rights_model_lib::{Holder, Movement};
use draft_reads::seats_lib::OpenFault as SeatFault;
use draft_reads::vault_lib::draft::Draft;
use std::alloc::{AllocError, Global};

/// Opens a purse of a brand that was made, of its kind, with nothing, and answers its number.
pub fn open_purse(draft: &mut Draft, brand: u16, kind: Kind) -> Result<u32, AllocError>
    requires clean { IsClean draft.old }
    requires made { brand < length (rights_in draft.old).out }
    requires kind { kind_at (rights_in draft.old).out brand ≡ kind }
    requires few { length (rights_in draft.old).purses < most_made }
    ensures ok { OnOk result (HasNow draft.new
        (with_purse (rights_in draft.old) (empty_amount brand kind))
        (seats_in draft.old) (staging_in draft.old)) }
    ensures number { IfOk result (λ purse. purse ≡ length (rights_in draft.old).purses) }
    ensures back { CanGoBack draft.old draft.new }
{
    draft.valid();
    match draft.open_purse(brand, kind) {
        Ok(purse) => Ok(purse),
        Err(OpenFault::NoMemory) => Err(AllocError),
        Err(OpenFault::Limit) => unreachable!(),
    }
}

/// Makes the next payment, of nothing of a brand that was made, and answers its number.
pub fn empty_payment(draft: &mut Draft, brand: u16, kind: Kind) -> Result<u32, AllocError>
    requires clean { IsClean draft.old }
    requires made { brand < length (rights_in draft.old).out }
    requires kind { kind_at (rights_in draft.old).out brand ≡ kind }
    requires room { length (rights_in draft.old).payments
        + open_slots (seats_in draft.old) (rights_in draft.old).slots < most_made }
    ensures ok { OnOk result (HasNow draft.new
        (with_payment (rights_in draft.old) (empty_amount brand kind))
        (seats_in draft.old) (staging_in draft.old)) }
    ensures number { IfOk result (λ payment. payment ≡ length (rights_in draft.old).payments) }
    ensures back { CanGoBack draft.old draft.new }
{
    draft.valid();
    draft.count_anew();
    let payment = draft.payments().made();
    let _minted = draft.supply().minted(brand);
    let _fits = draft.supply().kind(brand);
    let parcel = issue(draft, brand, Value::empty(kind))?;
    put(draft, &Holder::Payment(payment), parcel)?;
    Ok(payment)
}

/// Issues what a movement moves, as the next payment.
pub fn issue_payment(draft: &mut Draft, movement: &Movement) -> Result<(), AllocError>
    requires clean { IsClean draft.old }
    requires from { movement.now.from ≡ Holder.Outside }
    requires to { movement.now.to ≡ Holder.Payment (length (rights_in draft.old).payments) }
    requires can { CanMoveAll (rights_in draft.old) no_hand (movement.now ∷ []) }
    requires room { length (rights_in draft.old).payments
        + open_slots (seats_in draft.old) (rights_in draft.old).slots < most_made }
    ensures ok { OnOk result (HasNow draft.new
        (moved_together (rights_in draft.old) (movement.now ∷ []))
        (seats_in draft.old) (staging_in draft.old)) }
    ensures back { CanGoBack draft.old draft.new }
{
    draft.valid();
    move_rights(draft, movement)
}

/// Takes in a brand, with the next number, of which nothing was issued.
pub fn add_brand(draft: &mut Draft, kind: Kind) -> Result<(), AllocError>
    requires clean { IsClean draft.old }
    ensures ok { OnOk result (HasNow draft.new (with_supply (rights_in draft.old) (new_supply kind))
        (seats_in draft.old) (staging_in draft.old)) }
    ensures back { CanGoBack draft.old draft.new }
{
    draft.valid();
    draft.add_brand(kind)
}

/// Opens a seat of an instance, with a slot for each share of a proposal and nothing in them, and answers its
/// number.
pub fn open_seat(draft: &mut Draft, instance: u32, proposal: Proposal) -> Result<u32, AllocError>
    requires clean { IsClean draft.old }
    requires fits { FitsSeat proposal }
    requires seats { length (seats_in draft.old) < most_made }
    requires room { length (rights_in draft.old).payments
        + open_slots (seats_in draft.old) (rights_in draft.old).slots
        + length (empty_slots proposal) ≤ most_made }
    ensures ok { OnOk result (HasNow draft.new
        (with_slots (rights_in draft.old) (empty_slots proposal))
        (seats_in draft.old ++ new_seat instance proposal ∷ [])
        (staging_in draft.old ++ None ∷ [])) }
    ensures number { IfOk result (λ seat. seat ≡ length (seats_in draft.old)) }
    ensures back { CanGoBack draft.old draft.new }
{
    draft.valid();
    draft.seats().staged_are_open();
    match draft.open_seat(instance, proposal) {
        Ok(seat) => return Ok(seat),
        Err((_, fault)) => return Err(want_of_memory(fault)),
    }
}

/// The want of memory, for which alone no seat is opened.
fn want_of_memory(_fault: SeatFault) -> AllocError
    requires { _fault ≡ SeatFault.NoMemory }
{
    AllocError
}

/// Opens a seat of an instance without slots, with an exit rule, and answers its number.
pub fn empty_seat(
    draft: &mut Draft,
    alloc: Global,
    instance: u32,
    rule: Exit,
) -> Result<u32, AllocError>
    requires clean { IsClean draft.old }
    requires seats { length (seats_in draft.old) < most_made }
    ensures ok { OnOk result (HasNow draft.new (with_slots (rights_in draft.old) [])
        (seats_in draft.old ++ new_seat instance (of_own rule) ∷ [])
        (staging_in draft.old ++ None ∷ [])) }
    ensures number { IfOk result (λ seat. seat ≡ length (seats_in draft.old)) }
    ensures back { CanGoBack draft.old draft.new }
{
    draft.valid();
    let _made = draft.payments().made();
    let proposal = Proposal {
        give: Allocation::new(alloc),
        want: Allocation::new(alloc),
        exit: rule,
    };
    open_seat(draft, instance, proposal)
}
