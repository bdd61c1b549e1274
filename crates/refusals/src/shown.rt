//! Refusals as data.

ghost use Rattle.std.specs.Prelude.{◌≡◌, ◌≤◌, ◌++◌, ◌∷◌, [], pos, IfOk, OnOk, codes};
ghost use Rattle.host_data.specs.Tree.{Ordered, nesting, text};
ghost use Rattle.host_data.specs.View.{named_trees, tree, trees};
ghost use Rattle.host_data.specs.Nodes.{EachNode};
ghost use Rattle.refusals.specs.Codes.{number, refusal_tree, shown_by, shown_trees, words, worth};
ghost use Rattle.refusals.specs.Plain.{IsPlain};

use crate::codes::{Refusal, Unkept};
use host_data::amount_math_lib::Value;
use host_data::data::Data;
use host_data::host_text_lib::text::Text;
use host_data::values::{put, two, value_data};
use std::alloc::{AllocError, Global};

impl Refusal {
    /// The record `{code, shown}`. It holds no object and no function, its fields stand in byte order, and
    /// it nests four deep at most.
    pub fn data(&self, alloc: Global) -> Result<Data, AllocError>
        ensures table { IfOk result (λ made. tree made ≡ refusal_tree self.now) }
        ensures plain { IfOk result (λ made. EachNode IsPlain 0 (tree made)) }
        ensures ordered { IfOk result (λ made. Ordered (tree made)) }
        ensures nests { IfOk result (λ made. nesting (tree made) ≤ 4) }
    {
        self.record_of(alloc)
    }

    #[tactic(auto, unfolding(crate::specs::Codes::refusal_tree))]
    fn record_of(&self, alloc: Global) -> Result<Data, AllocError>
        ensures { IfOk result (λ made. tree made ≡ refusal_tree self.now) }
    {
        let mut fields = code_field(alloc, self.code())?;
        put(alloc, &mut fields, "shown", Data::Array(self.shown(alloc)?))?;
        Ok(Data::Record(fields))
    }

    /// What it shows, in order.
    fn shown(&self, alloc: Global) -> Result<Vec<Data>, AllocError>
        ensures { IfOk result (λ made. trees made.items ≡ shown_trees (shown_by self.now)) }
    {
        match self {
            Refusal::Bare(_) => Ok(Vec::new(alloc)),
            Refusal::Numbered(_, shown) => one_number(alloc, *shown),
            Refusal::Worded(_, shown) => one_text(alloc, shown.as_str()),
            Refusal::Overlap(key) => one_text(alloc, key.as_str()),
            Refusal::NotEnough(short) => two_values(alloc, &short.held, &short.asked),
            Refusal::TooMuch(sum, bound) => two_numbers(alloc, *sum, *bound),
            Refusal::WrongAmount(values) => two_values(alloc, &values.held, &values.named),
            Refusal::NotConserved(unkept) => unkept_shown(alloc, unkept),
            Refusal::Backwards(now, given) => times(alloc, *now, *given),
            Refusal::TextRefused(place, reason) => number_and_text(alloc, *place, reason.as_str()),
        }
    }
}

/// A record's first field, with the name of a code.
fn code_field(alloc: Global, code: &str) -> Result<Vec<(Text, Data)>, AllocError>
    ensures { IfOk result (λ made. named_trees made.items ≡ (codes "code", text code.now) ∷ []) }
{
    let mut fields = Vec::new(alloc);
    put(
        alloc,
        &mut fields,
        "code",
        Data::Text(Text::from_str(alloc, code)?),
    )?;
    Ok(fields)
}

fn text_data(alloc: Global, shown: &str) -> Result<Data, AllocError>
    ensures { IfOk result (λ made. tree made ∷ [] ≡ shown_trees (words shown.now ∷ [])) }
{
    Ok(Data::Text(Text::from_str(alloc, shown)?))
}

fn one(alloc: Global, shown: Data) -> Result<Vec<Data>, AllocError>
    ensures { IfOk result (λ made. trees made.items ≡ tree shown ∷ []) }
{
    let mut made = Vec::with_capacity(alloc, 1)?;
    made.push_reserved(shown);
    Ok(made)
}

fn one_text(alloc: Global, shown: &str) -> Result<Vec<Data>, AllocError>
    ensures { IfOk result (λ made. trees made.items ≡ shown_trees (words shown.now ∷ [])) }
{
    one(alloc, text_data(alloc, shown)?)
}

fn one_number(alloc: Global, shown: u32) -> Result<Vec<Data>, AllocError>
    ensures { IfOk result (λ made. trees made.items ≡ shown_trees (number (pos shown) ∷ [])) }
{
    one(alloc, Data::Number(i128::from(shown)))
}

fn two_numbers(alloc: Global, first: i128, second: i128) -> Result<Vec<Data>, AllocError>
    ensures { IfOk result (λ made. trees made.items ≡ shown_trees (number first ∷ number second ∷ [])) }
{
    two(alloc, Data::Number(first), Data::Number(second))
}

fn number_and_text(alloc: Global, shown: u32, text: &str) -> Result<Vec<Data>, AllocError>
    ensures { IfOk result (λ made. trees made.items ≡ shown_trees (number (pos shown) ∷ words text.now ∷ [])) }
{
    two(
        alloc,
        Data::Number(i128::from(shown)),
        text_data(alloc, text)?,
    )
}

fn two_values(alloc: Global, first: &Value, second: &Value) -> Result<Vec<Data>, AllocError>
    ensures { IfOk result (λ made. trees made.items ≡ shown_trees (worth first.now ∷ worth second.now ∷ [])) }
{
    two(alloc, value_data(alloc, first)?, value_data(alloc, second)?)
}

fn times(alloc: Global, now: u64, given: u64) -> Result<Vec<Data>, AllocError>
    ensures { IfOk result (λ made. trees made.items ≡ shown_trees (number (pos now) ∷ number (pos given) ∷ [])) }
{
    two_numbers(alloc, i128::from(now), i128::from(given))
}

/// Puts a number behind what is shown already.
fn put_number(made: &mut Vec<Data>, shown: i128) -> Result<(), AllocError>
    ensures { OnOk result (trees made.new.items ≡ trees made.old.items ++ shown_trees (number shown ∷ [])) }
{
    made.push(Data::Number(shown))?;
    Ok(())
}

fn unkept_shown(alloc: Global, unkept: &Unkept) -> Result<Vec<Data>, AllocError>
    ensures { IfOk result (λ made. trees made.items ≡ shown_trees (shown_by (Refusal.NotConserved unkept.now))) }
{
    let mut made = number_and_text(alloc, u32::from(unkept.brand), unkept.element.as_str())?;
    put_number(&mut made, unkept.before)?;
    put_number(&mut made, unkept.after)?;
    Ok(made)
}
