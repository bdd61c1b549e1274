//! Effects on brands, seats and invitations, carried out on the world of a turn: on rights, and on what
//! is kept beside them. Its one contract: each makes of the world what the world's effect of that name
//! makes of it; whatever a call answers, the turn can be undone.

mod invitation_moves;

ghost use Rattle.std.specs.Prelude.{◌≡◌, IfOk, OnOk, length};
ghost use Rattle.register_effects.specs.registers.Makers.{maker_view};
ghost use Rattle.register_effects.specs.call_outcomes.Views.{offering_view, seats_view};
ghost use Rattle.register_effects.specs.draft_reads.Views.{CanGoBack, seats_in};
ghost use Rattle.register_effects.specs.host_world.Worlds.{IsUndoable, world_now, world_of};
ghost use Rattle.world_laws.specs.turn_stores.Details.{details_view};
ghost use Rattle.world_effects.specs.DraftOffers.{HasOffered, IsOffering};
ghost use Rattle.world_laws.specs.turn_records.Views.{cause_view};
ghost use Rattle.register_effects.specs.vault.Drafts.{IsClean};
ghost use Rattle.world_effects.specs.CarriedEffects.{IsCarried, IsInTurn};
ghost use Rattle.world_laws.specs.world_state.Good.{CanInvite, CanOffer, CanOpenSeat, IsGoodEffect};
ghost use Rattle.world_laws.specs.world_state.Worlds as worlds;
ghost use Rattle.world_laws.specs.world_state.Worlds.{IsOpen, State, seat_at};

use crate::seat_effects::invitation_moves::invitation_move;
use draft_effects::draft_openings::{add_brand, empty_seat, issue_payment};
use draft_effects::seat_exits::{PaidOut, leave};
use draft_effects::seat_offers::offer;
use register_effects::beside_seats as beside;
use register_effects::call_outcomes_lib::effects::{Offering, SeatsEffect};
use register_effects::host_world_lib::World;
use register_effects::registers_lib::brand_makers::Maker;
use register_effects::vault_lib::draft::Draft;
use std::alloc::{AllocError, Global};
use world_laws::brands_lib::Brand;
use world_laws::proposals_lib::offers::Exit;
use world_laws::turn_records_lib::events::Cause;
use world_laws::turn_stores_lib::invitations::Details;

/// A brand is made, by whom.
fn new_brand(world: &mut World, brand: Brand, maker: Maker) -> Result<(), AllocError>
    requires { IsInTurn world.old }
    ensures ok { OnOk result (IsCarried world.old world.new
        (worlds.new_brand brand (maker_view maker))) }
    ensures back { IsUndoable world.old world.new }
{
    add_brand(&mut world.draft, brand.kind)?;
    beside::new_brand(&mut world.registers, brand, maker)
}

/// The seat of an offer is opened in a draft, its invitation is burned, and its payments are escrowed. It answers
/// the seat's number.
fn offer_in_draft(
    draft: &mut Draft,
    alloc: Global,
    instance: u32,
    offering: &Offering,
) -> Result<u32, AllocError>
    requires clean { IsClean draft.old }
    requires can { (w : State) × IsOffering w draft.old instance (offering_view offering.now) }
    ensures ok { OnOk result (HasOffered draft.old draft.new instance (offering_view offering.now)) }
    ensures number { IfOk result (λ seat. seat ≡ length (seats_in draft.old)) }
    ensures back { CanGoBack draft.old draft.new }
{
    draft.valid();
    let proposal = offering.proposal.copy(alloc)?;
    offer(draft, instance, proposal, &offering.burn, &offering.escrows)
}

/// An offer opens a seat.
fn make_offer(world: &mut World, alloc: Global, offering: Offering) -> Result<(), AllocError>
    requires turn { IsInTurn world.old }
    requires can { CanOffer (world_of world.old) (offering_view offering) }
    ensures ok { OnOk result (IsCarried world.old world.new
        (worlds.offer (offering_view offering))) }
    ensures back { IsUndoable world.old world.new }
{
    let invitations = &world.registers.invitations;
    let instance = invitations.details(offering.invitation).instance;
    let seat = offer_in_draft(&mut world.draft, alloc, instance, &offering)?;
    beside::offer(&mut world.registers, alloc, seat, instance, offering)
}

/// An instance opens a seat of its own.
fn open_own(world: &mut World, alloc: Global, instance: u32, rule: Exit) -> Result<(), AllocError>
    requires turn { IsInTurn world.old }
    requires can { CanOpenSeat (world_of world.old) instance rule }
    ensures ok { OnOk result (IsCarried world.old world.new (worlds.empty_seat instance rule)) }
    ensures back { IsUndoable world.old world.new }
{
    let seat = empty_seat(&mut world.draft, alloc, instance, rule)?;
    beside::empty_seat(&mut world.registers, alloc, seat, instance, rule)
}

/// A seat is left, and paid out.
fn leave_seat(world: &mut World, alloc: Global, seat: u32, cause: Cause) -> Result<(), AllocError>
    requires turn { IsInTurn world.old }
    requires can { IsOpen (seat_at (world_of world.old).seats seat) }
    ensures ok { OnOk result (IsCarried world.old world.new
        (worlds.exit seat (cause_view cause))) }
    ensures back { IsUndoable world.old world.new }
{
    let PaidOut { payouts, moves } = leave(&mut world.draft, alloc, seat)?;
    beside::exit(&mut world.registers, alloc, seat, cause, payouts, moves)
}

/// An invitation is made, and the next payment is one of it.
fn make_invitation(world: &mut World, alloc: Global, details: Details) -> Result<(), AllocError>
    requires turn { IsInTurn world.old }
    requires can { CanInvite (world_of world.old) (details_view details) }
    ensures ok { OnOk result (IsCarried world.old world.new
        (worlds.invite (details_view details))) }
    ensures back { IsUndoable world.old world.new }
{
    let invitation = world.registers.invitations.made();
    let payment = world.draft.payments().made();
    let movement = invitation_move(alloc, invitation, payment)?;
    issue_payment(&mut world.draft, &movement)?;
    beside::invite(&mut world.registers, details, movement)
}

/// An effect on brands, seats and invitations.
pub fn carry_seats(world: &mut World, alloc: Global, effect: SeatsEffect) -> Result<(), AllocError>
    requires turn { IsInTurn world.old }
    requires can { IsGoodEffect (world_of world.old) (seats_view effect) }
    ensures ok { OnOk result (IsCarried world.old world.new (seats_view effect)) }
    ensures back { IsUndoable world.old world.new }
{
    match effect {
        SeatsEffect::NewBrand(brand, maker) => new_brand(world, brand, maker),
        SeatsEffect::Offer(offering) => make_offer(world, alloc, offering),
        SeatsEffect::EmptySeat(instance, rule) => open_own(world, alloc, instance, rule),
        SeatsEffect::Exit(seat, cause) => leave_seat(world, alloc, seat, cause),
        SeatsEffect::Invite(details) => make_invitation(world, alloc, details),
    }
}
