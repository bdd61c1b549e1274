//! What stands at a path of a party's: a label, then steps to fields and to places of arrays (our own).
//! Each promise on the way, and at the end, is followed to what it was fulfilled with (eventual send).

ghost use Rattle.std.specs.Prelude.{◌≡◌, ◌<◌, ◌∷◌, Err, IfOk, IfSome, IsSome, None, Ok, length, option_map};
ghost use Rattle.promise_store.specs.host_data.View.{tree, trees};
ghost use Rattle.promise_store.specs.Views.{now_of};
ghost use Rattle.actors.specs.Paths.{followed, found, fulfilled, item_at, part_at, part_met, stands, stands_at, states_in, steps_behind, steps_of, stood, walked};
ghost use Rattle.actors.specs.declared.paths.ResolveFault.TheVariants.{UnknownName};
ghost use Rattle.actors.specs.declared.paths.Stands.TheVariants.{Service};
ghost use Rattle.actors.specs.Turns.{parties_of};

use crate::{Parties, service};
use brands::host_text_lib::label::Label;
use brands::host_text_lib::number::read_number;
use brands::host_text_lib::text::Text;
use promise_store::host_data_lib::data::{Data, Obj, ObjKind};
use promise_store::{Promises, Settlement, State};
use std::alloc::{AllocError, Global};

/// Why nothing stands at a path.
#[derive(Clone, Copy, PartialEq, Eq)]
pub enum ResolveFault {
    /// The label isn't bound, or a step isn't there.
    UnknownName,
    /// A promise that was met is pending, or follows another.
    Pending,
    /// A promise that was met is broken: the one of this number, which was named there.
    Broken(u32),
}

/// What stands at a path.
#[derive(Clone, Copy)]
pub enum Stands<'a> {
    /// An object that each party has from the start.
    Service(Obj),
    /// What a label is bound to, or what a promise was fulfilled with, or a part of it.
    Data(&'a Data),
}

impl Stands<'_> {
    /// A copy of it.
    pub fn copy(&self, alloc: Global) -> Result<Data, AllocError>
        ensures { IfOk result (λ copy. tree copy ≡ stands self.now) }
    {
        match self {
            Stands::Service(object) => Ok(Data::Object(*object)),
            Stands::Data(there) => there.copy(alloc),
        }
    }
}

impl Parties {
    /// What stands at a path of the party's, the path's form being a label and then steps `.field` or
    /// `.index`. It takes no memory.
    pub fn resolve<'a, R: Drop>(
        &'a self,
        party: &Label,
        path: &Text,
        promises: &'a Promises<R>,
    ) -> Result<Stands<'a>, ResolveFault>
        ensures { stood result ≡ stands_at (states_in (now_of promises.now)) (parties_of self.now).now party.now path.now }
    {
        let (label, steps) = first_step(path.as_str());
        if let Some(object) = service(label) {
            return at_service(object, steps);
        }
        let Some(whole) = self.bound(party, label) else {
            return Err(ResolveFault::UnknownName);
        };
        let part = walk(promises, whole, steps)?;
        Ok(Stands::Data(part))
    }
}

/// What stands at the end of the steps from an object that each party has from the start, which has no
/// parts.
fn at_service<'a>(object: Obj, steps: Option<&str>) -> Result<Stands<'a>, ResolveFault>
    ensures none { steps.entry ≡ None → result ≡ Ok (Service object) }
    ensures some { IsSome steps.entry → result ≡ Err UnknownName }
{
    match steps {
        None => Ok(Stands::Service(object)),
        Some(_) => Err(ResolveFault::UnknownName),
    }
}

/// What stands before the first dot of a path, and what stands behind it.
fn first_step(path: &str) -> (&str, Option<&str>)
    ensures steps { steps_of path.now ≡ result.0.now ∷ steps_behind result.1 }
    ensures shorter { IfSome result.1 (λ behind. length behind.now < length path.now) }
{
    match path.split_once('.') {
        Some((step, behind)) => (step, Some(behind)),
        None => (path, None),
    }
}

/// What stands at the end of the steps.
fn walk<'a, R: Drop>(
    promises: &'a Promises<R>,
    whole: &'a Data,
    steps: Option<&str>,
) -> Result<&'a Data, ResolveFault>
    ensures { found result ≡ walked (states_in (now_of promises.now)) (tree whole.now) (steps_behind steps.entry) }
{
    let mut part = whole;
    let mut left = steps;
    while let Some(path) = left {
        let (step, behind) = first_step(path);
        part = next_part(promises, part, step)?;
        left = behind;
    }
    follow(promises, part)
}

/// The part that a step names of what is met.
fn next_part<'a, R: Drop>(
    promises: &'a Promises<R>,
    whole: &'a Data,
    step: &str,
) -> Result<&'a Data, ResolveFault>
    ensures { found result ≡ part_met (states_in (now_of promises.now)) (tree whole.now) step.now }
{
    let met = follow(promises, whole)?;
    match part_at(met, step) {
        Some(part) => Ok(part),
        None => Err(ResolveFault::UnknownName),
    }
}

/// The data, or what the promise that it is was fulfilled with.
fn follow<'a, R: Drop>(promises: &'a Promises<R>, whole: &'a Data) -> Result<&'a Data, ResolveFault>
    ensures { found result ≡ followed (states_in (now_of promises.now)) (tree whole.now) }
{
    match whole {
        Data::Object(object) if object.kind == ObjKind::Promise => fulfilled(
            promises,
            object.number,
        ),
        _ => Ok(whole),
    }
}

/// What the promise of that number was fulfilled with. One that wasn't made is pending.
fn fulfilled<R: Drop>(promises: &Promises<R>, number: u32) -> Result<&Data, ResolveFault>
    ensures { found result ≡ fulfilled number (states_in (now_of promises.now) number) }
{
    if promises.made() <= number {
        return Err(ResolveFault::Pending);
    }
    match promises.state(number) {
        State::Settled(Settlement::Ok(given)) => Ok(given),
        State::Settled(Settlement::Broken(_)) => Err(ResolveFault::Broken(number)),
        State::Pending => Err(ResolveFault::Pending),
        State::Follows(_) => Err(ResolveFault::Pending),
    }
}

/// The field of a record, or the part of an array, that a step names.
fn part_at<'a>(whole: &'a Data, step: &str) -> Option<&'a Data>
    ensures { option_map (λ part. tree part.now) result ≡ part_at (tree whole.now) step.now }
{
    match whole.items() {
        Some(items) => item_at(items, step),
        None => whole.field(step),
    }
}

/// The part of an array at the place that a step writes.
fn item_at<'a>(items: &'a [Data], step: &str) -> Option<&'a Data>
    ensures { option_map (λ item. tree item.now) result ≡ item_at (trees items.now) step.now }
{
    let place = read_number(step.as_bytes())?;
    let place = usize::try_from(place).ok()?;
    items.get(place)
}
