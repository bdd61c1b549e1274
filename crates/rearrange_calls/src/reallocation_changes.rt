//! What listed seats come to that take over what is staged of them.

ghost use Rattle.std.specs.Prelude.{◌≡◌, ◌<◌, ◌≤◌, ◌^◌, All, IfOk, length};
ghost use Rattle.world_reads.specs.host_world.Worlds.{world_of};
ghost use Rattle.rearrange.specs.TestedPlans.{staged_changes};
ghost use Rattle.rules.specs.proposals.Shares.{most_shares};
ghost use Rattle.rearrange.specs.Staged.{IsOfOneBrand, staged_plan};
ghost use Rattle.rearrange_calls.specs.Passed.{ArePassed};
ghost use Rattle.refusals.specs.Outcomes.{Gives};
ghost use Rattle.rules.specs.States.{all_states};
ghost use Rattle.rules.specs.world_state.Good.{IsGoodWorld};

use crate::reallocation_states::{all_once, states};
use rearrange::plan_refusals::plan_told;
use rearrange::seat_states::SeatStates;
use rearrange::staged::plan_staged;
use refusals::stops::Stop;
use rules::proposals_lib::plans::Plan;
use std::alloc::Global;
use world_reads::host_world_lib::World;

/// The plan by which each listed seat takes over its staging, or the first test that it fails (Zoe).
#[tactic(auto, using(rearrange::proofs::TestedChanges::staged_passes, rearrange::proofs::TestedChanges::staged_fails))]
fn staged_changes(
    alloc: Global,
    instance: u32,
    states: &SeatStates,
    seats: &[u32],
) -> Result<Plan, Stop>
    requires { All IsOfOneBrand states.now }
    ensures gives { Gives (λ plan. plan) result (staged_changes instance states.now seats.now) }
    ensures plan { IfOk result (λ plan. plan ≡ staged_plan states.now seats.now) }
    ensures small { IfOk result (λ plan. All (λ t. length t.after ≤ most_shares) plan) }
{
    match plan_staged(alloc, instance, states, seats) {
        Ok(plan) => Ok(plan),
        Err(fault) => Err(plan_told(fault)),
    }
}

/// The same from the world: it is planned from the listed seats, and from those of which something is staged.
#[tactic(auto, using(crate::proofs::PassingReallocations::states_agree, crate::proofs::PassingReallocations::states_enough, crate::proofs::PassingReallocations::plan_passed))]
pub fn changes(alloc: Global, world: &World, instance: u32, seats: &[u32]) -> Result<Plan, Stop>
    requires good { IsGoodWorld (world_of world.now) }
    requires made { All (λ n. n < length (world_of world.now).seats) seats.now }
    requires few { length seats.now < 2 ^ 32 }
    ensures gives { Gives (λ plan. plan) result
        (staged_changes instance (all_states (world_of world.now)) seats.now) }
    ensures passed { IfOk result ArePassed }
{
    let once = all_once(alloc, world, seats)?;
    let states = states(alloc, world, once.as_slice())?;
    staged_changes(alloc, instance, &states, seats)
}
