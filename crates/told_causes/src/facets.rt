//! The facets that Far calls answered, each with the instance of the turn in which it was answered first.

ghost use Rattle.std.specs.Prelude.{◌≡◌, ◌<◌, ℕ, ◌++◌, ◌∷◌, [], codes, IfSome, IsNone, OnOk};
ghost use Rattle.std.specs.BTreeMap.{get};
ghost use Rattle.std.specs.Option.{option_map};
ghost use Rattle.std.specs.Ordering.{nat_cmp};
ghost use Rattle.std.specs.Str.{bytes_eq};
ghost use Rattle.serde_json.specs.View.{view};
ghost use Rattle.row_records.specs.Views.{answer_view, call_view, kind_view, turn_view};
ghost use Rattle.row_records.specs.fair_rows.ExitCauses as spec;
ghost use Rattle.row_records.specs.fair_rows.ExitCauses.{Owners, facets_made, instance_of, name, owner_in};
ghost use Rattle.row_records.specs.journal_rows.Row.{IsTurnRow};
ghost use Rattle.row_records.specs.turn_rows.Form.{HasCallForm, IsNumbered, objects_end};
ghost use Rattle.row_records.specs.turn_rows.Turns.{called};
ghost use Rattle.told_causes.specs.ToldFacets.{IsAdded, IsFacetOf, TellsOwners, by_instance, data_answered, facet_name, is_number, object_in, owner_name};

use row_forms::names::{OBJECTS_END, number_after};
use row_records::rows::{Answer, CallRow, Kind, TurnRow};
use row_records::turn_records_lib::events::How;
use serde_json::Value;
use std::alloc::{AllocError, Global};
use std::collections::BTreeMap;

/// The number of the object that has this name, where the word is its.
pub fn number_in(word: &str, object: &str) -> Option<u32>
    ensures some { IfSome result (λ n. object.now ≡ name word.now n) }
    ensures none { IsNone result → ¬ IsNumbered word.now objects_end object.now }
    ensures tests { (n : ℕ) → n < objects_end → bytes_eq object.now (name word.now n) ≡ is_number result n }
{
    match number_after(word, OBJECTS_END, object) {
        Some(number) => Some(number as u32),
        None => None,
    }
}

/// Whether the call makes a facet.
fn is_far(call: &CallRow) -> bool
    ensures { result ≡ spec.is_far (call_view call.now).how }
{
    match call.how {
        How::Far => true,
        How::Call | How::Send | How::When => false,
    }
}

/// The data that was answered.
fn answered(answer: &Answer) -> Option<&Value>
    ensures { option_map (λ value. view value.now) result ≡ data_answered (answer_view answer.now) }
{
    match answer {
        Answer::Given(value) => Some(value),
        Answer::Refused(_, _) | Answer::Threw(_) | Answer::Spent(_) => None,
    }
}

/// The name of the object that a call answered.
fn object_answered(call: &CallRow) -> Option<&str>
    ensures { option_map (λ name. name.now) result ≡ object_in (call_view call.now).answer }
{
    answered(&call.answer)?.get("@")?.as_str()
}

/// The facet that a Far call answered.
fn facet_answered(call: &CallRow) -> Option<u32>
    requires form { HasCallForm (call_view call.now) }
    ensures { IsFacetOf (call_view call.now) result }
{
    if !is_far(call) {
        return None;
    }
    match object_answered(call) {
        Some(object) => number_in("facet", object),
        None => None,
    }
}

/// Whether the turn is of a kind that runs a function of an instance by itself.
fn is_by_instance(kind: Kind) -> bool
    ensures { result ≡ by_instance (kind_view kind) }
{
    match kind {
        Kind::Start | Kind::Handler | Kind::Wake | Kind::Notify => true,
        Kind::Service
        | Kind::Facet
        | Kind::Deadline
        | Kind::Tick
        | Kind::Give
        | Kind::Bad
        | Kind::Message => false,
    }
}

/// Facets, each with an instance or none.
#[derive(Drop)]
pub struct Facets {
    pub(crate) owners: BTreeMap<u32, Option<u32>>,
}

impl Facets {
    /// No facets.
    pub fn new(alloc: Global) -> Facets
        ensures { TellsOwners result [] }
    {
        Facets {
            owners: BTreeMap::new(alloc),
        }
    }

    /// What is kept of the facet.
    fn kept(&self, facet: u32) -> Option<Option<u32>>
        ensures { result ≡ get nat_cmp self.now.owners facet }
    {
        self.owners.get(&facet).copied()
    }

    /// The instance of the turn in which the facet was answered first, if it had one.
    pub fn owner(&self, facet: u32) -> Option<u32>
        ensures { (os : Owners) → TellsOwners self.now os → owner_name result ≡ owner_in (facet_name facet) os }
    {
        match self.kept(facet) {
            Some(owner) => owner,
            None => None,
        }
    }

    /// The instance of the facet that is called.
    fn called_instance(&self, row: &TurnRow) -> Option<u32>
        requires form { IsNumbered (codes "facet") objects_end (turn_view row.now).on }
        ensures { (os : Owners) → TellsOwners self.now os → owner_name result ≡ owner_in (turn_view row.now).on os }
    {
        match number_in("facet", row.on.as_str()) {
            Some(facet) => self.owner(facet),
            None => None,
        }
    }

    /// The instance of a turn.
    pub fn instance_of(&self, row: &TurnRow) -> Option<u32>
        requires form { IsTurnRow (turn_view row.now) }
        ensures { (os : Owners) → TellsOwners self.now os → owner_name result ≡ instance_of os (kind_view row.now.kind) (turn_view row.now) }
    {
        if is_by_instance(row.kind) {
            return number_in("instance", row.by.as_str());
        }
        match row.kind {
            Kind::Facet => self.called_instance(row),
            _ => None,
        }
    }

    /// The facet has the instance, where nothing is kept of it.
    fn add(&mut self, facet: u32, instance: Option<u32>) -> Result<(), AllocError>
        ensures { OnOk result (IsAdded self.old self.new facet instance) }
    {
        if self.kept(facet).is_some() {
            return Ok(());
        }
        match self.owners.insert(facet, instance) {
            Ok(_) => Ok(()),
            Err(_) => Err(AllocError),
        }
    }

    /// A call was read, in a turn of the instance.
    pub fn called(&mut self, call: &CallRow, instance: Option<u32>) -> Result<(), AllocError>
        requires form { HasCallForm (call_view call.now) }
        ensures { OnOk result ((os : Owners) → TellsOwners self.old os → TellsOwners self.new (os ++ facets_made (owner_name instance) (called (call_view call.now) ∷ []))) }
    {
        match facet_answered(call) {
            Some(facet) => self.add(facet, instance),
            None => Ok(()),
        }
    }
}
