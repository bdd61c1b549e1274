//! What the types of refusals give: all that a refusal shows is printable.

ghost use Rattle.std.specs.Prelude.{pos};
ghost use Rattle.turn_records.specs.Printable.{IsPrintable};
ghost use Rattle.turn_records.specs.refusals.Codes.{number, shown_by, shown_tree, shown_trees, words, worth};
ghost use Rattle.turn_records.specs.Tellable.{ArePrintable};

use crate::turn_form::amounts::value_has_types;
use crate::turn_form::data::{is_text, number_has_range};
use turn_records::refusals_lib::codes::{Refusal, Unkept};
use turn_rows::amount_math_lib::{Key, Value};
use turn_rows::host_text_lib::text::Text;

fn number_is_printable(shown: &u32)
    ensures { IsPrintable (shown_tree (number (pos shown.now))) }
{
    number_has_range(shown);
}

fn wide_is_printable(shown: &i128)
    ensures { IsPrintable (shown_tree (number shown.now)) }
{
    let _shown = *shown;
}

fn time_is_printable(shown: &u64)
    ensures { IsPrintable (shown_tree (number (pos shown.now))) }
{
    let _shown = *shown;
}

fn text_is_printable(shown: &Text)
    ensures { IsPrintable (shown_tree (words shown.now)) }
{
    is_text(shown);
}

fn key_is_printable(shown: &Key)
    ensures { IsPrintable (shown_tree (words shown.now)) }
{
    let _text = shown.as_str();
}

fn value_is_printable(shown: &Value)
    ensures { IsPrintable (shown_tree (worth shown.now)) }
{
    value_has_types(shown);
}

fn unkept_is_printable(unkept: &Unkept)
    ensures { ArePrintable (shown_trees (shown_by (Refusal.NotConserved unkept.now))) }
{
    let _brand = unkept.brand;
    key_is_printable(&unkept.element);
    wide_is_printable(&unkept.before);
    wide_is_printable(&unkept.after);
}

pub fn shown_is_printable(refusal: &Refusal)
    ensures { ArePrintable (shown_trees (shown_by refusal.now)) }
{
    match refusal {
        Refusal::Bare(_) => {}
        Refusal::Numbered(_, shown) => number_is_printable(shown),
        Refusal::Worded(_, shown) => text_is_printable(shown),
        Refusal::Overlap(key) => key_is_printable(key),
        Refusal::NotEnough(short) => {
            value_is_printable(&short.held);
            value_is_printable(&short.asked);
        }
        Refusal::TooMuch(sum, bound) => {
            wide_is_printable(sum);
            wide_is_printable(bound);
        }
        Refusal::WrongAmount(values) => {
            value_is_printable(&values.held);
            value_is_printable(&values.named);
        }
        Refusal::NotConserved(unkept) => unkept_is_printable(unkept),
        Refusal::Backwards(now, given) => {
            time_is_printable(now);
            time_is_printable(given);
        }
        Refusal::TextRefused(place, reason) => {
            number_is_printable(place);
            text_is_printable(reason);
        }
    }
}
