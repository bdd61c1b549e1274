//! Shares that a call gives for a seat.

ghost use Rattle.std.specs.Prelude.{◌≡◌, ◌<◌, ◌≤◌, IfOk, length};
ghost use Rattle.rules.specs.States.{allocation_of, seat_of};
ghost use Rattle.host_world.specs.Worlds.{world_of};
ghost use Rattle.host_data.specs.View.{trees};
ghost use Rattle.rules.specs.proposals.OfferSafety.{MeetSlots};
ghost use Rattle.refusals.specs.Outcomes.{Gives};
ghost use Rattle.contract_reads.specs.Calls.{AreOfKinds, FitSlots, IsSeatCall};
ghost use Rattle.rules.specs.Given.{is_misfit, issuers_of, shares_at};
ghost use Rattle.rules.specs.Zmint.{is_not_of};
ghost use Rattle.rules.specs.Zseat.{misfits_staged, shares_now};

use crate::misfits::{Foreign, ForeignStaged, NotOf};
use crate::shares::shares_at;
use host_data::data::Data;
use host_world::World;
use host_world::draft_reads_lib::seat_reads::seat_instance;
use refusals::stops::Stop;
use rules::proposals_lib::allocations::Share;
use std::alloc::Global;

/// Shares at a place, of brands that an instance keeps, each of the brand of its slot (Zoe).
pub fn shares_for(
    alloc: Global,
    world: &World,
    instance: u32,
    seat: u32,
    slots: &[Share],
    place: u32,
    args: &[Data],
) -> Result<Vec<Share>, Stop>
    requires place { 1 ≤ place }
    requires hosted { instance < length (world_of world.now).tables.instances }
    requires call { IsSeatCall (world_of world.now) seat (trees args.now) }
    requires slots { slots.now ≡ allocation_of (world_of world.now) seat }
    ensures gives { Gives (λ shares. shares.items) result
        (shares_at (is_misfit (issuers_of (world_of world.now) instance) slots.now) place (trees args.now)) }
    ensures fit { IfOk result (λ shares. FitSlots slots.now shares.items) }
    ensures want { IfOk result (λ shares.
        MeetSlots shares.items (seat_of (world_of world.now) seat).proposal.want) }
    ensures give { IfOk result (λ shares.
        MeetSlots shares.items (seat_of (world_of world.now) seat).proposal.give) }
    ensures kinds { IfOk result (λ shares. AreOfKinds (world_of world.now) shares.items) }
{
    let issuers = world.registers.instances.issuers(instance).issuers();
    shares_at(alloc, &Foreign { issuers, slots }, place, args)
}

/// Shares at the first place, of brands that the seat's instance keeps, each of the brand of its slot and of what is
/// staged (Zoe).
pub fn staged_shares(
    alloc: Global,
    world: &World,
    seat: u32,
    slots: &[Share],
    staged: &[Share],
    args: &[Data],
) -> Result<Vec<Share>, Stop>
    requires call { IsSeatCall (world_of world.now) seat (trees args.now) }
    requires slots { slots.now ≡ allocation_of (world_of world.now) seat }
    requires staged { staged.now ≡ shares_now (world_of world.now) seat }
    ensures gives { Gives (λ shares. shares.items) result
        (shares_at (misfits_staged (world_of world.now) seat) 1 (trees args.now)) }
    ensures fit { IfOk result (λ shares. FitSlots staged.now shares.items) }
{
    let instance = seat_instance(&world.draft, seat);
    let issuers = world.registers.instances.issuers(instance).issuers();
    let foreign = Foreign { issuers, slots };
    shares_at(alloc, &ForeignStaged { foreign, staged }, 1, args)
}

/// Shares at the first place, of a mint's brand, as the slots of their keywords (Zoe).
pub fn shares_of_mint(
    alloc: Global,
    world: &World,
    brand: u16,
    seat: u32,
    slots: &[Share],
    args: &[Data],
) -> Result<Vec<Share>, Stop>
    requires call { IsSeatCall (world_of world.now) seat (trees args.now) }
    requires slots { slots.now ≡ allocation_of (world_of world.now) seat }
    ensures gives { Gives (λ shares. shares.items) result
        (shares_at (is_not_of brand slots.now) 1 (trees args.now)) }
    ensures fit { IfOk result (λ shares. FitSlots slots.now shares.items) }
{
    let _ = &world.draft;
    shares_at(alloc, &NotOf { brand, slots }, 1, args)
}
