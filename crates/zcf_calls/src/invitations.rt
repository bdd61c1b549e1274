//! Invitations that an instance makes.

ghost use Rattle.std.specs.Prelude.{◌≡◌, ◌<◌, ◌∷◌, [], IfOk, Ok, length};
ghost use Rattle.host_data.specs.Amounts.{seen};
ghost use Rattle.host_data.specs.Values.{object_tree};
ghost use Rattle.escrow_calls.specs.call_outcomes.CallOutcomes.{GivesOutcome};
ghost use Rattle.rules.specs.Zcf.{make_invitation};
ghost use Rattle.escrow_calls.specs.host_world.Worlds.{world_of};
ghost use Rattle.rules.specs.turn_stores.Details.{details_view};
ghost use Rattle.host_data.specs.View.{trees};
ghost use Rattle.host_data.specs.declared.data.ObjKind.TheVariants as kinds;
ghost use Rattle.refusals.specs.Outcomes.{Gives};
ghost use Rattle.rules.specs.world_state.Worlds.{invite};
ghost use Rattle.zcf_calls.specs.Requests.{handler_and_description, next_invitation};

use escrow_calls::call_outcomes_lib::effects::{Effect, SeatsEffect};
use escrow_calls::call_outcomes_lib::outcomes::CallOutcome;
use escrow_calls::host_world_lib::World;
use escrow_calls::world_reads_lib::words::{next_of, next_payment, runs};
use host_data::data::{Data, ObjKind};
use host_data::values::object_data;
use refusals::host_text_lib::text::Text;
use refusals::stops::Stop;
use rules::call_arguments_lib::places::{argument, copy_of, function_at, text_at};
use rules::turn_stores_lib::invitations::Details;
use std::alloc::{AllocError, Global};

/// The number of an invitation that can be made next: else `Limit`.
#[tactic(auto, unfolding(crate::specs::Requests::next_invitation, refusals::specs::Outcomes::bind))]
fn next_invitation(world: &World) -> Result<u32, Stop>
    ensures { Gives (λ payment. payment) result (next_invitation (world_of world.now)) }
{
    next_of(world.registers.invitations.made(), u32::MAX)?;
    next_payment(world)
}

/// What is kept of an invitation.
fn details(
    alloc: Global,
    instance: u32,
    installation: u32,
    handler: &Text,
    description: &Text,
    held: Option<&Data>,
) -> Result<Details, AllocError>
    ensures { IfOk result (λ made. details_view made ≡ record {
      instance = instance;
      installation = installation;
      description = description.now;
      handler = handler.now;
      held = seen held.entry;
    }) }
{
    let description = description.copy(alloc)?;
    let handler = handler.copy(alloc)?;
    let held = copy_of(alloc, held)?;
    Ok(Details {
        instance,
        installation,
        description,
        handler,
        held,
    })
}

/// An invitation is made, which is a payment.
fn invitation_plan(
    alloc: Global,
    instance: u32,
    installation: u32,
    handler: &Text,
    description: &Text,
    held: Option<&Data>,
    payment: u32,
) -> Result<CallOutcome, Stop>
    ensures { GivesOutcome (Ok (
      object_tree kinds.Payment payment,
      invite (record {
        instance = instance;
        installation = installation;
        description = description.now;
        handler = handler.now;
        held = seen held.entry;
      }) ∷ [],
    )) result }
{
    let details = details(alloc, instance, installation, handler, description, held)?;
    let invite = Effect::Seats(SeatsEffect::Invite(details));
    let payment = object_data(ObjKind::Payment, payment);
    Ok(CallOutcome::with_effect(alloc, payment, invite)?)
}

/// The handler and the description that an invitation is asked with.
#[tactic(auto, unfolding(crate::specs::Requests::handler_and_description, refusals::specs::Outcomes::bind))]
fn handler_and_description(args: &[Data]) -> Result<(&Text, &Text), Stop>
    ensures { Gives (λ (handler, description). (handler.now, description.now)) result
        (handler_and_description (trees args.now)) }
{
    let handler = function_at(1, args)?;
    Ok((handler, text_at(1, 256, 2, args)?))
}

/// zcf.makeInvitation(handler, description, data) (Zoe).
#[tactic(auto, unfolding(rules::specs::Zcf::make_invitation, crate::specs::Requests::handler_and_description, crate::specs::Requests::next_invitation, refusals::specs::Outcomes::bind))]
pub fn make_invitation(
    alloc: Global,
    world: &World,
    instance: u32,
    args: &[Data],
) -> Result<CallOutcome, Stop>
    requires { instance < length (world_of world.now).tables.instances }
    ensures { GivesOutcome (make_invitation (world_of world.now) instance (trees args.now)) result }
{
    runs(world, instance)?;
    let (handler, description) = handler_and_description(args)?;
    let payment = next_invitation(world)?;
    let installation = world.registers.instances.installation(instance);
    let held = argument(args, 3);
    invitation_plan(
        alloc,
        instance,
        installation,
        handler,
        description,
        held,
        payment,
    )
}
