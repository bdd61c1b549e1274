//! What is staged once shares are added or taken.

ghost use Rattle.std.specs.Prelude.{◌≡◌, ◌≤◌, [], ◌∷◌, IfOk, Ok, OnOk, List, length};
ghost use Rattle.rules.specs.proposals.Gains.{with_gains};
ghost use Rattle.rules.specs.proposals.Losses.{with_losses};
ghost use Rattle.user_seat_calls.specs.call_outcomes.Lists.{IsEachShaped};
ghost use Rattle.user_seat_calls.specs.call_outcomes.CallOutcomes.{GivesOutcome, outcome_view};
ghost use Rattle.rules.specs.Records.{allocation_tree};
ghost use Rattle.host_data.specs.View.{tree};
ghost use Rattle.rules.specs.rearrange.Slots.{can_give, can_take};
ghost use Rattle.rules.specs.proposals.Shares.{AreApart, AreShares, most_shares};
ghost use Rattle.rules.specs.proposals.declared.allocations.Share.{Share as ShareView};
ghost use Rattle.refusals.specs.Outcomes.{Gives};
ghost use Rattle.contract_reads.specs.Calls.{FitSlots};
ghost use Rattle.zseat_calls.specs.StagingParts.{can_add, staged_less, staged_more};
ghost use Rattle.rules.specs.Zseat.{are_few};
ghost use Rattle.rules.specs.world_state.Worlds.{stage};

use contract_reads::seat_changes::counts::slots_after;
use contract_reads::seat_changes::losses::slots_less;
use host_data::data::Data;
use refusals::amount_math_lib::PutFault;
use refusals::codes::NumberCode;
use refusals::stops::Stop;
use rules::proposals_lib::allocations::{Allocation, Share};
use rules::proposals_lib::gains::with_gains;
use rules::rearrange_lib::slot_checks::{check_gains, check_losses};
use std::alloc::{AllocError, Global};
use user_seat_calls::call_outcomes_lib::effects::{Effect, RightsEffect};
use user_seat_calls::call_outcomes_lib::outcomes::CallOutcome;
use user_seat_calls::world_reads_lib::record_data::allocation_data;

/// The most shares that may be staged (own).
const MOST_SHARES: usize = 64;

/// That so many shares may be staged: else `Limit` (own).
#[tactic(auto, unfolding(rules::specs::Zseat::are_few, refusals::specs::Outcomes::need))]
fn check_few(many: usize) -> Result<(), Stop>
    ensures gives { (shares : List ShareView) → length shares ≡ many → Gives (λ _. tt) result (are_few shares) }
    ensures few { OnOk result (many ≤ most_shares) }
{
    if many > MOST_SHARES {
        Err(Stop::numbered(NumberCode::Limit, MOST_SHARES as u32))
    } else {
        Ok(())
    }
}

/// That shares can be added to what is staged: else `Overlap`, `TooMuch`, then `Limit` (Zoe).
#[tactic(auto, unfolding(crate::specs::StagingParts::can_add, refusals::specs::Outcomes::bind))]
fn check_more(now: &[Share], shares: &[Share]) -> Result<(), Stop>
    requires { FitSlots now.now shares.now }
    ensures gives { Gives (λ _. tt) result (can_add now.now shares.now) }
    ensures can { OnOk result (can_give now.now shares.now ≡ Ok tt) }
    ensures few { OnOk result (length (with_gains now.now shares.now) ≤ most_shares) }
{
    check_gains(now, shares)?;
    check_few(slots_after(now, shares))
}

/// Shares with others more, which can be added.
fn shares_with_gains(
    alloc: Global,
    now: &[Share],
    gains: &Allocation,
) -> Result<Vec<Share>, AllocError>
    requires now { AreShares now.now }
    requires fit { FitSlots now.now gains.now }
    requires gives { can_give now.now gains.now ≡ Ok tt }
    ensures after { IfOk result (λ after. after.items ≡ with_gains now.now gains.now) }
    ensures apart { IfOk result (λ after. AreApart after.items) }
{
    match with_gains(alloc, now, gains) {
        Ok(after) => Ok(after),
        Err(PutFault::NoMemory) => Err(AllocError),
        Err(PutFault::Overlap(_)) => unreachable!(),
        Err(PutFault::TooMuch(_)) => unreachable!(),
    }
}

/// What is staged with shares more that can be added.
fn with_more(alloc: Global, now: &[Share], gains: &Allocation) -> Result<Allocation, AllocError>
    requires now { AreShares now.now }
    requires fit { FitSlots now.now gains.now }
    requires gives { can_give now.now gains.now ≡ Ok tt }
    requires few { length (with_gains now.now gains.now) ≤ most_shares }
    ensures { IfOk result (λ after. after ≡ with_gains now.now gains.now) }
{
    let after = shares_with_gains(alloc, now, gains)?;
    Allocation::from_shares(alloc, after)
}

/// What is staged with shares more that can be added.
#[tactic(auto, using(crate::proofs::Few::shares_few))]
fn allocation_with_gains(
    alloc: Global,
    now: &[Share],
    shares: Vec<Share>,
) -> Result<Allocation, AllocError>
    requires now { AreShares now.now }
    requires fit { FitSlots now.now shares.items }
    requires gives { can_give now.now shares.items ≡ Ok tt }
    requires few { length (with_gains now.now shares.items) ≤ most_shares }
    ensures { IfOk result (λ after. after ≡ with_gains now.now shares.items) }
{
    let gains = Allocation::from_shares(alloc, shares)?;
    with_more(alloc, now, &gains)
}

/// What is staged less shares that it has.
fn allocation_without(
    alloc: Global,
    now: &[Share],
    shares: &[Share],
) -> Result<Allocation, AllocError>
    requires now { AreShares now.now }
    requires fit { FitSlots now.now shares.now }
    requires taken { can_take now.now shares.now ≡ Ok tt }
    requires few { length (with_losses now.now shares.now) ≤ most_shares }
    ensures { IfOk result (λ after. after ≡ with_losses now.now shares.now) }
{
    let after = slots_less(alloc, now, shares)?;
    Allocation::from_shares(alloc, after)
}

/// Shares are staged of a seat.
fn stage_plan(
    alloc: Global,
    answer: Data,
    seat: u32,
    shares: Allocation,
) -> Result<CallOutcome, AllocError>
    ensures plan { IfOk result (λ plan. outcome_view plan ≡ (tree answer, stage seat shares ∷ [])) }
    ensures shaped { IfOk result (λ plan. IsEachShaped plan.effects) }
{
    let stage = Effect::Rights(RightsEffect::Stage(seat, shares));
    CallOutcome::with_effect(alloc, answer, stage)
}

/// What is staged with shares more, which the call answers.
fn plan_more(
    alloc: Global,
    seat: u32,
    now: &[Share],
    shares: Vec<Share>,
) -> Result<CallOutcome, AllocError>
    requires now { AreShares now.now }
    requires fit { FitSlots now.now shares.items }
    requires gives { can_give now.now shares.items ≡ Ok tt }
    requires few { length (with_gains now.now shares.items) ≤ most_shares }
    ensures plan { IfOk result (λ plan. outcome_view plan
        ≡ (allocation_tree shares.items, stage seat (with_gains now.now shares.items) ∷ [])) }
    ensures shaped { IfOk result (λ plan. IsEachShaped plan.effects) }
{
    let answer = allocation_data(alloc, shares.as_slice())?;
    let after = allocation_with_gains(alloc, now, shares)?;
    stage_plan(alloc, answer, seat, after)
}

/// What is staged less shares, which the call answers.
fn plan_less(
    alloc: Global,
    seat: u32,
    now: &[Share],
    shares: &[Share],
) -> Result<CallOutcome, AllocError>
    requires now { AreShares now.now }
    requires fit { FitSlots now.now shares.now }
    requires taken { can_take now.now shares.now ≡ Ok tt }
    requires few { length (with_losses now.now shares.now) ≤ most_shares }
    ensures plan { IfOk result (λ plan. outcome_view plan
        ≡ (allocation_tree shares.now, stage seat (with_losses now.now shares.now) ∷ [])) }
    ensures shaped { IfOk result (λ plan. IsEachShaped plan.effects) }
{
    let answer = allocation_data(alloc, shares)?;
    let after = allocation_without(alloc, now, shares)?;
    stage_plan(alloc, answer, seat, after)
}

/// Shares are added to what is staged: else `Overlap`, `TooMuch`, then `Limit` (Zoe).
#[tactic(auto, unfolding(crate::specs::StagingParts::staged_more, refusals::specs::Outcomes::bind))]
pub fn stage_more(
    alloc: Global,
    seat: u32,
    now: &[Share],
    shares: Vec<Share>,
) -> Result<CallOutcome, Stop>
    requires now { AreShares now.now }
    requires fit { FitSlots now.now shares.items }
    ensures { GivesOutcome (staged_more seat now.now shares.items) result }
{
    check_more(now, shares.as_slice())?;
    Ok(plan_more(alloc, seat, now, shares)?)
}

/// Shares are taken from what is staged: else `NotEnough`, then `Limit` (Zoe).
#[tactic(auto, unfolding(crate::specs::StagingParts::staged_less, refusals::specs::Outcomes::bind))]
pub fn stage_less(
    alloc: Global,
    seat: u32,
    now: &[Share],
    shares: &[Share],
) -> Result<CallOutcome, Stop>
    requires now { AreShares now.now }
    requires fit { FitSlots now.now shares.now }
    ensures { GivesOutcome (staged_less seat now.now shares.now) result }
{
    check_losses(now, shares)?;
    check_few(slots_after(now, shares))?;
    Ok(plan_less(alloc, seat, now, shares)?)
}
