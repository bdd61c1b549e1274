//! What transfers come to between their seats.

ghost use Rattle.std.specs.Prelude.{◌≡◌, ◌<◌, IfOk, Ok, Some, length};
ghost use Rattle.rules.specs.call_arguments.Arguments.{object_in};
ghost use Rattle.host_data.specs.Amounts.{read_all};
ghost use Rattle.world_reads.specs.host_world.Worlds.{world_of};
ghost use Rattle.host_data.specs.declared.data.ObjKind.TheVariants as kinds;
ghost use Rattle.rearrange.specs.TestedPlans.{can_take_part, transfer_changes};
ghost use Rattle.rearrange.specs.Transfers.{transfers_plan};
ghost use Rattle.rearrange_calls.specs.TransferStates.{AreStatesFor};
ghost use Rattle.rearrange_calls.specs.Passed.{ArePassed};
ghost use Rattle.refusals.specs.Outcomes.{Gives};
ghost use Rattle.rules.specs.Given.{issuers_of};
ghost use Rattle.rules.specs.Rearranging.{seat_trees, transfers_in};
ghost use Rattle.share_transfers.specs.Views.{parts_views, transfer_views};
ghost use Rattle.rearrange_calls.specs.Steps.{AreFromData, changed};
ghost use Rattle.rules.specs.world_state.Good.{IsGoodWorld};

use rearrange::seat_states::SeatStates;
use refusals::stops::Stop;
use rules::brands_lib::issuer_record::Issuer;
use rules::proposals_lib::plans::Plan;
use share_transfers::given_transfers::transfers_at;
use share_transfers::parts::GivenParts;
use share_transfers::transfers::plan_transfers;
use share_transfers::values::ShareTransfer;
use std::alloc::Global;
use world_reads::draft_reads_lib::seat_reads::seats_made;
use world_reads::host_world_lib::World;

/// The brands that an instance keeps, by keyword.
fn issuers_of(world: &World, instance: u32) -> &[Issuer]
    requires { instance < length (world_of world.now).tables.instances }
    ensures { result.now ≡ issuers_of (world_of world.now) instance }
{
    world.registers.instances.issuers(instance).issuers()
}

/// The transfers that parts stand for: `BadArgs` 1, `BadKeyword`, `WrongBrand`, `BadValue` (Zoe; the order is our own).
fn transfers_in(
    alloc: Global,
    world: &World,
    instance: u32,
    states: &SeatStates,
    seats: &[u32],
    list: &[GivenParts],
) -> Result<Vec<ShareTransfer>, Stop>
    requires hosted { instance < length (world_of world.now).tables.instances }
    requires source { AreFromData (world_of world.now) (parts_views list.now) }
    requires named { read_all (object_in kinds.Zseat) (seat_trees (parts_views list.now))
        ≡ Some seats.now }
    requires states { AreStatesFor (world_of world.now) seats.now states.now }
    requires part { can_take_part instance states.now seats.now ≡ Ok tt }
    ensures { Gives (λ list. transfer_views list.items) result
        (transfers_in (world_of world.now) instance (parts_views list.now)) }
{
    let _ = seats;
    transfers_at(alloc, issuers_of(world, instance), states, list)
}

/// What the transfers come to between their seats, which can take part: the plan, or the first test that it fails.
#[tactic(auto, unfolding(crate::specs::Steps::changed, refusals::specs::Outcomes::bind))]
pub fn changes(
    alloc: Global,
    world: &World,
    instance: u32,
    states: &SeatStates,
    seats: &[u32],
    list: &[GivenParts],
) -> Result<Plan, Stop>
    requires good { IsGoodWorld (world_of world.now) }
    requires hosted { instance < length (world_of world.now).tables.instances }
    requires source { AreFromData (world_of world.now) (parts_views list.now) }
    requires named { read_all (object_in kinds.Zseat) (seat_trees (parts_views list.now))
        ≡ Some seats.now }
    requires states { AreStatesFor (world_of world.now) seats.now states.now }
    requires part { can_take_part instance states.now seats.now ≡ Ok tt }
    ensures gives { Gives (λ plan. plan) result
        (changed (world_of world.now) instance seats.now (parts_views list.now)) }
    ensures passed { IfOk result ArePassed }
{
    let _made = seats_made(&world.draft);
    let list = transfers_in(alloc, world, instance, states, seats, list)?;
    plan_transfers(alloc, states, list.as_slice())
}
