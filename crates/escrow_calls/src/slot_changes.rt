//! What calls that change the slots of a seat read first: the seat, and the shares that they give.

ghost use Rattle.std.specs.Prelude.{◌≡◌, ◌<◌, IfOk, length};
ghost use Rattle.contract_reads.specs.Calls.{AreOfKinds};
ghost use Rattle.contract_reads.specs.Known.{AreKnown};
ghost use Rattle.ertp_calls.specs.host_world.Worlds.{world_of};
ghost use Rattle.escrow_calls.specs.SlotChanges.{IsOfSeat, mint_seat_and_shares, seat_and_shares};
ghost use Rattle.host_data.specs.View.{trees};
ghost use Rattle.refusals.specs.Outcomes.{Gives};
ghost use Rattle.rules.specs.Zmint.{minting};
ghost use Rattle.rules.specs.world_state.Good.{IsGoodWorld};

use contract_reads::contract_words::allocations::current_allocation;
use contract_reads::contract_words::own_seats::own_seat;
use contract_reads::seat_changes::shares::{shares_for, shares_of_mint};
use ertp_calls::host_world_lib::World;
use ertp_calls::registers_lib::brand_makers::Maker;
use ertp_calls::world_reads_lib::words::runs;
use host_data::data::Data;
use refusals::stops::Stop;
use rules::proposals_lib::allocations::{Allocation, Share};
use std::alloc::Global;

/// A change that is asked of a seat's slots.
pub(crate) struct SlotChange {
    pub seat: u32,
    /// What the slots have now.
    pub slots: Allocation,
    /// What the call gives to them, or takes from them.
    pub shares: Vec<Share>,
}

impl Drop for SlotChange {
    fn drop(self) {
        let SlotChange {
            seat: _,
            slots: _,
            shares: _,
        } = self;
    }
}

/// What a deposit or a withdrawal is asked for, where the instance runs: an open seat of the instance's own at the
/// first place, and shares at the second, of brands that it keeps: else `Closed`, then `WrongObject` 1, `WrongInstance`,
/// `SeatExited` of the seat, then what `shares_for` refuses of the shares (Zoe).
#[tactic(auto, unfolding(crate::specs::SlotChanges::seat_and_shares, refusals::specs::Outcomes::bind))]
pub(crate) fn slot_change(
    alloc: Global,
    world: &World,
    instance: u32,
    args: &[Data],
) -> Result<SlotChange, Stop>
    requires good { IsGoodWorld (world_of world.now) }
    requires hosted { instance < length (world_of world.now).tables.instances }
    requires known { AreKnown (world_of world.now) (trees args.now) }
    ensures gives { Gives (λ change. (change.seat, change.shares.items)) result
        (seat_and_shares (world_of world.now) instance (trees args.now)) }
    ensures seat { IfOk result (λ change.
        IsOfSeat (world_of world.now) change.seat change.slots change.shares.items) }
    ensures kinds { IfOk result (λ change. AreOfKinds (world_of world.now) change.shares.items) }
{
    runs(world, instance)?;
    let seat = own_seat(world, instance, 1, args)?;
    let slots = current_allocation(world, seat)?;
    let shares = shares_for(alloc, world, instance, seat, slots.shares(), 2, args)?;
    Ok(SlotChange {
        seat,
        slots,
        shares,
    })
}

/// The instance that made a brand, and has its mint.
#[tactic(auto, using(crate::proofs::MakersCounted::makers_counted))]
fn instance_of_mint(world: &World, brand: u16) -> u32
    requires { brand < length (world_of world.now).makers }
    ensures { result ≡ minting (world_of world.now) brand }
{
    match world.registers.makers.maker(brand) {
        Maker::Instance(instance) => instance,
        Maker::Host => 0,
        Maker::Kit => 0,
    }
}

/// What a mint's call is asked for, where the mint's instance runs: an open seat of that instance at the second place,
/// and shares at the first, of the mint's brand: else `Closed`, then `WrongObject` 2, `WrongInstance`, `SeatExited` of
/// the seat, then what `shares_of_mint` refuses of the shares (Zoe).
#[tactic(auto, unfolding(crate::specs::SlotChanges::mint_seat_and_shares, refusals::specs::Outcomes::bind))]
pub(crate) fn slot_change_of_mint(
    alloc: Global,
    world: &World,
    brand: u16,
    args: &[Data],
) -> Result<SlotChange, Stop>
    requires good { IsGoodWorld (world_of world.now) }
    requires made { brand < length (world_of world.now).makers }
    requires hosted { minting (world_of world.now) brand
        < length (world_of world.now).tables.instances }
    requires known { AreKnown (world_of world.now) (trees args.now) }
    ensures gives { Gives (λ change. (change.seat, change.shares.items)) result
        (mint_seat_and_shares (world_of world.now) brand (trees args.now)) }
    ensures seat { IfOk result (λ change.
        IsOfSeat (world_of world.now) change.seat change.slots change.shares.items) }
{
    let instance = instance_of_mint(world, brand);
    runs(world, instance)?;
    let seat = own_seat(world, instance, 2, args)?;
    let slots = current_allocation(world, seat)?;
    let shares = shares_of_mint(alloc, world, brand, seat, slots.shares(), args)?;
    Ok(SlotChange {
        seat,
        slots,
        shares,
    })
}
