//! Seats of an instance's own, as it and its users name them (Zoe's seat kit).

ghost use Rattle.std.specs.Prelude.{◌≡◌, ◌<◌, ◌+◌, ◌∷◌, [], IfOk, Ok, length, nat_le};
ghost use Rattle.escrow_calls.specs.call_outcomes.CallOutcomes.{GivesOutcome};
ghost use Rattle.rules.specs.ertp_mint.Stocks.{most_made};
ghost use Rattle.escrow_calls.specs.host_world.Worlds.{world_of};
ghost use Rattle.host_data.specs.View.{tree, trees};
ghost use Rattle.refusals.specs.Codes.{limit};
ghost use Rattle.refusals.specs.Outcomes.{Gives, need};
ghost use Rattle.rules.specs.Zcf.{make_empty_seat_kit, seat_kit};
ghost use Rattle.rules.specs.world_state.Worlds.{empty_seat, promises_made};
ghost use Rattle.zcf_calls.specs.Requests.{next_seat};

use escrow_calls::call_outcomes_lib::effects::{Effect, SeatsEffect};
use escrow_calls::call_outcomes_lib::outcomes::CallOutcome;
use escrow_calls::draft_reads_lib::seat_reads::seats_made;
use escrow_calls::host_world_lib::World;
use escrow_calls::world_reads_lib::record_data::put;
use escrow_calls::world_reads_lib::words::{next_of, runs};
use host_data::data::{Data, ObjKind};
use host_data::values::object_data;
use refusals::codes::NumberCode;
use refusals::stops::Stop;
use rules::call_arguments_lib::exit_arguments::exit;
use rules::call_arguments_lib::places::argument;
use rules::proposals_lib::offers::Exit;
use std::alloc::{AllocError, Global};

/// That so many promises can be made yet: else `Limit`.
#[tactic(auto, unfolding(refusals::specs::Outcomes::need))]
fn check_promises(world: &World) -> Result<(), Stop>
    ensures { Gives (λ _. tt) result
        (need (nat_le (promises_made (world_of world.now) + 2) most_made) (limit most_made)) }
{
    if world.registers.promises.made() > u32::MAX - 2 {
        Err(Stop::numbered(NumberCode::Limit, u32::MAX))
    } else {
        Ok(())
    }
}

/// A seat as its user and as its contract name it (Zoe's seat kit).
fn seat_kit(alloc: Global, seat: u32) -> Result<Data, AllocError>
    ensures { IfOk result (λ made. tree made ≡ seat_kit seat) }
{
    let mut fields = Vec::new(alloc);
    put(
        alloc,
        &mut fields,
        "userSeat",
        object_data(ObjKind::Seat, seat),
    )?;
    put(
        alloc,
        &mut fields,
        "zcfSeat",
        object_data(ObjKind::Zseat, seat),
    )?;
    Ok(Data::Record(fields))
}

/// A seat of the instance's own is opened.
fn seat_plan(alloc: Global, instance: u32, rule: Exit, seat: u32) -> Result<CallOutcome, Stop>
    ensures { GivesOutcome (Ok (seat_kit seat, empty_seat instance rule ∷ [])) result }
{
    let kit = seat_kit(alloc, seat)?;
    let open = Effect::Seats(SeatsEffect::EmptySeat(instance, rule));
    Ok(CallOutcome::with_effect(alloc, kit, open)?)
}

/// The number of the seat that can be opened next: else `Limit`.
#[tactic(auto, unfolding(crate::specs::Requests::next_seat, refusals::specs::Outcomes::bind))]
fn next_seat(world: &World) -> Result<u32, Stop>
    ensures { Gives (λ seat. seat) result (next_seat (world_of world.now)) }
{
    let seat = next_of(seats_made(&world.draft), u32::MAX)?;
    check_promises(world)?;
    Ok(seat)
}

/// zcf.makeEmptySeatKit(exit) (Zoe).
#[tactic(auto, unfolding(rules::specs::Zcf::make_empty_seat_kit, crate::specs::Requests::next_seat, refusals::specs::Outcomes::bind))]
pub fn make_empty_seat_kit(
    alloc: Global,
    world: &World,
    instance: u32,
    args: &[Data],
) -> Result<CallOutcome, Stop>
    requires { instance < length (world_of world.now).tables.instances }
    ensures { GivesOutcome (make_empty_seat_kit (world_of world.now) instance (trees args.now)) result }
{
    runs(world, instance)?;
    let rule = exit(argument(args, 1))?;
    let seat = next_seat(world)?;
    seat_plan(alloc, instance, rule, seat)
}
