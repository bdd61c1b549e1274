//! When an offer may be left, as a call is given it (Zoe). Its one contract: the rule that is read, or
//! `BadExit`, is as its definition says.

ghost use Rattle.std.specs.Prelude.{◌≡◌, IfErr};
ghost use Rattle.refusals.specs.host_data.View.{tree};
ghost use Rattle.refusals.specs.host_data.Amounts.{seen};
ghost use Rattle.refusals.specs.Outcomes.{Gives};
ghost use Rattle.call_arguments.specs.Arguments.{IsRefusal};
ghost use Rattle.call_arguments.specs.Exits.{deadline_in, exit, exit_in, rule_named, time_in, time_of, timer_of};

use crate::places::object_in;
use proposals::offers::Exit;
use refusals::codes::BareCode;
use refusals::host_data_lib::data::{Data, ObjKind};
use refusals::stops::Stop;

/// The latest time of a timer.
const LATEST: i128 = (1 << 63) - 1;

/// A time, from 0 to 2^63 - 1.
fn time_in(given: &Data) -> Option<u64>
    ensures { result ≡ time_in (tree given.now) }
{
    let time = given.number()?;
    if 0 <= time && time <= LATEST {
        Some(time as u64)
    } else {
        None
    }
}

/// The timer that a record has.
fn timer_of(given: &Data) -> Option<u32>
    ensures { result ≡ timer_of (tree given.now) }
{
    object_in(ObjKind::Timer, given.field("timer")?)
}

/// The time that a record has as its deadline.
fn time_of(given: &Data) -> Option<u64>
    ensures { result ≡ time_of (tree given.now) }
{
    time_in(given.field("deadline")?)
}

/// A record of exactly a timer and a deadline.
#[tactic(auto, unfolding(crate::specs::Exits::deadline_in))]
fn deadline_in(given: &Data) -> Option<Exit>
    ensures { result ≡ deadline_in (tree given.now) }
{
    if given.field_count() != Some(2) {
        return None;
    }
    let _timer = timer_of(given)?;
    Some(Exit::AfterDeadline(time_of(given)?))
}

/// The rule of a name.
fn rule_named(name: &str, rule: &Data) -> Option<Exit>
    ensures { result ≡ rule_named name.now (tree rule.now) }
{
    match name {
        "onDemand" if rule.is_null() => Some(Exit::OnDemand),
        "waived" if rule.is_null() => Some(Exit::Waived),
        "afterDeadline" => deadline_in(rule),
        _ => None,
    }
}

/// The rule that data is.
#[tactic(auto, unfolding(crate::specs::Exits::exit_in))]
fn exit_in(given: Option<&Data>) -> Option<Exit>
    ensures { result ≡ exit_in (seen given.entry) }
{
    let Some(given) = given else {
        return Some(Exit::OnDemand);
    };
    if given.is_null() {
        return Some(Exit::OnDemand);
    }
    let Some([(name, rule)]) = given.fields() else {
        return None;
    };
    rule_named(name.as_str(), rule)
}

/// When an offer may be left: `{onDemand: null}`, for which null stands too, `{waived: null}` or
/// `{afterDeadline: {timer, deadline}}` with the host's timer and a time from 0 to 2^63 - 1. Any other is
/// `BadExit` (Zoe). It takes no memory.
#[tactic(auto, unfolding(crate::specs::Exits::exit, refusals::specs::Outcomes::wanted))]
pub fn exit(given: Option<&Data>) -> Result<Exit, Stop>
    ensures gives { Gives (λ rule. rule) result (exit (seen given.entry)) }
    ensures told { IfErr result IsRefusal }
{
    match exit_in(given) {
        Some(rule) => Ok(rule),
        None => Err(Stop::bare(BareCode::BadExit)),
    }
}
