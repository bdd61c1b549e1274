//! An installation, made of the text of a contract (Zoe; the text is of our own language).

ghost use Rattle.contract_texts.specs.Reader.{reader};
ghost use Rattle.ertp_calls.specs.call_outcomes.CallOutcomes.{GivesOutcome};
ghost use Rattle.ertp_calls.specs.host_world.Worlds.{world_of};
ghost use Rattle.host_data.specs.Tree.{text_of};
ghost use Rattle.host_data.specs.View.{trees};
ghost use Rattle.refusals.specs.Codes.{bad_args};
ghost use Rattle.refusals.specs.Outcomes.{Gives, wanted};
ghost use Rattle.rules.specs.Zoe.{install};
ghost use Rattle.rules.specs.call_arguments.Arguments.{arg};

use brands::host_text_lib::text::Text;
use contract_texts::texts::read_text;
use ertp_calls::call_outcomes_lib::effects::{Effect, InstancesEffect};
use ertp_calls::call_outcomes_lib::outcomes::CallOutcome;
use ertp_calls::host_world_lib::World;
use ertp_calls::world_reads_lib::words::next_of;
use host_data::data::{Data, ObjKind};
use host_data::values::object_data;
use refusals::codes::NumberCode;
use refusals::stops::Stop;
use rules::call_arguments_lib::places::argument;
use std::alloc::Global;

/// The text that is the first argument: else `BadArgs` 1.
#[tactic(auto, unfolding(refusals::specs::Outcomes::wanted))]
fn text_at_first(args: &[Data]) -> Result<&Text, Stop>
    ensures { Gives (λ text. text.now) result (wanted (text_of (arg 1 (trees args.now))) (bad_args 1)) }
{
    let Some(given) = argument(args, 1) else {
        return Err(Stop::numbered(NumberCode::BadArgs, 1));
    };
    match given.text() {
        Some(text) => Ok(text),
        None => Err(Stop::numbered(NumberCode::BadArgs, 1)),
    }
}

/// `zoe.install(text)` (Zoe; the text is of our own language).
#[tactic(auto, unfolding(rules::specs::Zoe::install, refusals::specs::Outcomes::bind))]
pub fn install(alloc: Global, world: &World, args: &[Data]) -> Result<CallOutcome, Stop>
    ensures { GivesOutcome (install reader (world_of world.now) (trees args.now)) result }
{
    let text = text_at_first(args)?;
    let module = read_text(alloc, text.as_str().as_bytes())?;
    let installation = next_of(world.registers.instances.installations(), u32::MAX)?;
    let answer = object_data(ObjKind::Installation, installation);
    let installs = Effect::Instances(InstancesEffect::Install(module));
    Ok(CallOutcome::with_effect(alloc, answer, installs)?)
}
