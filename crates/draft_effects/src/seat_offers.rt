//! Offers in a turn's draft. Its one contract: a seat is opened with a slot for each share of its
//! proposal, its invitation is burned, and its payments are escrowed, as the world's effect of an offer
//! makes of rights and seats; or the draft can be undone as before.

ghost use Rattle.std.specs.Prelude.{◌≡◌, ◌<◌, ◌++◌, ◌∷◌, [], None, length, IfOk, OnOk};
ghost use Rattle.draft_effects.specs.Steps.{CanMoveEach, IsAfter};
ghost use Rattle.draft_reads.specs.Views.{CanGoBack, HasNow, rights_in, seats_in, staging_in};
ghost use Rattle.draft_reads.specs.ertp_mint.Stocks.{most_made};
ghost use Rattle.draft_reads.specs.proposals.Slots.{FitsSeat};
ghost use Rattle.draft_effects.specs.Offers.{CanEscrow, rights_opened, seats_opened};
ghost use Rattle.draft_reads.specs.world_laws.Views.{all_by_hand};
ghost use Rattle.draft_reads.specs.vault.Drafts.{DraftState, IsClean};
ghost use Rattle.draft_reads.specs.world_state.Good.{CanOffer};
ghost use Rattle.draft_reads.specs.world_state.Rights.{moved_together};
ghost use Rattle.draft_reads.specs.world_state.Worlds.{Offering, State, burn_and_escrows, offered_by};

use crate::draft_openings::open_seat;
use crate::movements::{move_each, move_rights};
use draft_reads::proposals_lib::offers::Proposal;
use draft_reads::rights_model_lib::Movement;
use draft_reads::vault_lib::draft::Draft;
use std::alloc::AllocError;

/// Opens a seat of an instance for a proposal, burns the payment of its invitation, and escrows its payments
/// in the seat's slots. It answers the seat's number.
pub fn offer(
    draft: &mut Draft,
    instance: u32,
    proposal: Proposal,
    burn: &Movement,
    escrows: &[Movement],
) -> Result<u32, AllocError>
    requires clean { IsClean draft.old }
    requires fits { FitsSeat proposal }
    requires seats { length (seats_in draft.old) < most_made }
    requires can { CanEscrow draft.old instance proposal (burn.now ∷ escrows.now) }
    ensures ok { OnOk result (HasNow draft.new
        (moved_together (rights_opened draft.old proposal) (burn.now ∷ escrows.now))
        (seats_opened draft.old instance proposal)
        (staging_in draft.old ++ None ∷ [])) }
    ensures number { IfOk result (λ seat. seat ≡ length (seats_in draft.old)) }
    ensures back { CanGoBack draft.old draft.new }
{
    let seat = open_seat(draft, instance, proposal)?;
    draft.valid();
    escrow(draft, burn, escrows)?;
    Ok(seat)
}

/// Burns the payment of an invitation, and escrows payments.
fn escrow(draft: &mut Draft, burn: &Movement, escrows: &[Movement]) -> Result<(), AllocError>
    requires clean { IsClean draft.old }
    requires can { CanMoveEach draft.old.now (burn.now ∷ escrows.now) }
    ensures ok { OnOk result (IsAfter draft.old draft.new
        (all_by_hand draft.old.now (burn.now ∷ escrows.now))) }
    ensures back { CanGoBack draft.old draft.new }
{
    move_rights(draft, burn)?;
    move_each(draft, escrows)
}

/// An offer that can be made in the world can be made in a draft of it: its movements stand alone.
pub fn an_offer_can_be_escrowed()
    ensures { (draft : DraftState) (w : State) (o : Offering)
        → rights_in draft ≡ w.rights → seats_in draft ≡ w.seats → CanOffer w o
        → CanEscrow draft (offered_by w o).instance o.proposal (burn_and_escrows o) }
{}
