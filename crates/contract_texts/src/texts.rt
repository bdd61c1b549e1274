//! A contract's text read for a call.
ghost use Rattle.contract_texts.specs.Reader.{reader, shown_refusal, told};
ghost use Rattle.rules.specs.refusals.Outcomes.{Gives, Refuses};
ghost use Rattle.rules.specs.refusals.declared.codes.Refusal.{Refusal};
ghost use Rattle.rules.specs.Zoe.{module_in};

use jessie_reader::reader::read_module;
use rules::jessie_grammar_lib::jessie_texts::refusal::{ReadError, TextRefusal};
use rules::jessie_grammar_lib::syntax::Module;
use rules::refusals_lib::stops::{Stop, text_refused};
use std::alloc::Global;

/// The place that a refusal shows.
const LAST_PLACE: usize = 65_536;

/// A refusal of a text, as a rule refuses it.
fn stop_of(alloc: Global, refusal: TextRefusal) -> Stop
    ensures { let shown = shown_refusal refusal in
        Refuses result (Refusal.TextRefused shown.0 shown.1) }
{
    let place = refusal.place.min(LAST_PLACE) as u32;
    text_refused(alloc, place, refusal.kind_name())
}

/// The module that a text is, or the refusal of the text.
#[tactic(auto, unfolding(crate::specs::Reader::reader))]
pub fn read_text(alloc: Global, bytes: &[u8]) -> Result<Module, Stop>
    ensures { Gives (λ m. m) result (module_in (reader bytes.now)) }
{
    match read_module(alloc, bytes) {
        Ok(read) => Ok(read),
        Err(ReadError::NoMemory) => Err(Stop::NoMemory),
        Err(ReadError::Refused(refusal)) => Err(stop_of(alloc, refusal)),
    }
}
