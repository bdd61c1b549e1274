//! Copies of refusals.

ghost use Rattle.std.specs.Prelude.{◌≡◌, IfOk};

use crate::codes::{Mismatch, Refusal, TextCode, Unkept};
use host_data::amount_math_lib::Key;
use host_data::amount_math_lib::shortfall::Shortfall;
use host_data::host_text_lib::text::Text;
use std::alloc::{AllocError, Global};

impl Refusal {
    /// A copy. Texts and the keys of values take memory.
    pub fn copy(&self, alloc: Global) -> Result<Refusal, AllocError>
        ensures { IfOk result (λ copy. copy ≡ self.now) }
    {
        match self {
            Refusal::Bare(code) => Ok(Refusal::Bare(*code)),
            Refusal::Numbered(code, shown) => Ok(Refusal::Numbered(*code, *shown)),
            Refusal::Worded(code, shown) => worded(alloc, *code, shown),
            Refusal::Overlap(key) => overlap(key),
            Refusal::NotEnough(short) => not_enough(short),
            Refusal::TooMuch(sum, bound) => Ok(Refusal::TooMuch(*sum, *bound)),
            Refusal::WrongAmount(values) => wrong_amount(values),
            Refusal::NotConserved(unkept) => not_conserved(unkept),
            Refusal::Backwards(now, given) => Ok(Refusal::Backwards(*now, *given)),
            Refusal::TextRefused(place, reason) => text_refused(alloc, *place, reason),
        }
    }
}

fn worded(alloc: Global, code: TextCode, shown: &Text) -> Result<Refusal, AllocError>
    ensures { IfOk result (λ copy. copy ≡ Refusal.Worded code shown.now) }
{
    Ok(Refusal::Worded(code, shown.copy(alloc)?))
}

fn overlap(key: &Key) -> Result<Refusal, AllocError>
    ensures { IfOk result (λ copy. copy ≡ Refusal.Overlap key.now) }
{
    Ok(Refusal::Overlap(key.copy()?))
}

fn not_enough(short: &Shortfall) -> Result<Refusal, AllocError>
    ensures { IfOk result (λ copy. copy ≡ Refusal.NotEnough short.now) }
{
    let held = short.held.copy()?;
    let asked = short.asked.copy()?;
    Ok(Refusal::NotEnough(Shortfall { held, asked }))
}

fn wrong_amount(values: &Mismatch) -> Result<Refusal, AllocError>
    ensures { IfOk result (λ copy. copy ≡ Refusal.WrongAmount values.now) }
{
    let held = values.held.copy()?;
    let named = values.named.copy()?;
    Ok(Refusal::WrongAmount(Mismatch { held, named }))
}

fn not_conserved(unkept: &Unkept) -> Result<Refusal, AllocError>
    ensures { IfOk result (λ copy. copy ≡ Refusal.NotConserved unkept.now) }
{
    let element = unkept.element.copy()?;
    Ok(Refusal::NotConserved(Unkept {
        brand: unkept.brand,
        element,
        before: unkept.before,
        after: unkept.after,
    }))
}

fn text_refused(alloc: Global, place: u32, reason: &Text) -> Result<Refusal, AllocError>
    ensures { IfOk result (λ copy. copy ≡ Refusal.TextRefused place reason.now) }
{
    Ok(Refusal::TextRefused(place, reason.copy(alloc)?))
}
