//! Records that a call is given, of which null is the empty one.

ghost use Rattle.call_arguments.specs.Arguments.{arg};
ghost use Rattle.refusals.specs.Codes.{bad_args};
ghost use Rattle.refusals.specs.Outcomes.{Gives, wanted};
ghost use Rattle.refusals.specs.host_data.Amounts.{seen};
ghost use Rattle.refusals.specs.host_data.View.{named_trees, trees};
ghost use Rattle.refusals.specs.host_text.Words.{is_keyword};
ghost use Rattle.rules.specs.Words.{record_in};
ghost use Rattle.std.specs.Prelude.{◌≡◌, ◌≤◌, IfOk, option_map, true};

use call_arguments::places::argument;
use refusals::codes::NumberCode;
use refusals::host_data_lib::data::Data;
use refusals::host_text_lib::keyword::{Keyword, KeywordFault};
use refusals::host_text_lib::text::Text;
use refusals::stops::Stop;
use std::alloc::{AllocError, Global};

/// The fields of the record that data is, each with its name; null, or none there, is the empty one.
pub fn record_in(given: Option<&Data>) -> Option<&[(Text, Data)]>
    ensures { option_map (λ fields. named_trees fields.now) result ≡ record_in (seen given.entry) }
{
    let Some(given) = given else {
        return Some(&[]);
    };
    if given.is_null() {
        return Some(&[]);
    }
    given.fields()
}

/// The fields of the record at a place: else `BadArgs` with the place.
#[tactic(auto, unfolding(refusals::specs::Outcomes::wanted))]
pub fn record_at(place: u32, args: &[Data]) -> Result<&[(Text, Data)], Stop>
    requires { 1 ≤ place }
    ensures { Gives (λ fields. named_trees fields.now) result
        (wanted (record_in (arg place (trees args.now))) (bad_args place)) }
{
    match record_in(argument(args, place)) {
        Some(fields) => Ok(fields),
        None => Err(Stop::numbered(NumberCode::BadArgs, place)),
    }
}

/// A keyword of a text that is one.
pub fn keyword_of(alloc: Global, text: &Text) -> Result<Keyword, AllocError>
    requires { is_keyword text.now ≡ true }
    ensures { IfOk result (λ keyword. keyword ≡ text.now) }
{
    match Keyword::read(alloc, text.as_str().as_bytes()) {
        Ok(keyword) => Ok(keyword),
        Err(KeywordFault::NoMemory) => Err(AllocError),
        Err(KeywordFault::BadKeyword) => unreachable!(),
    }
}
