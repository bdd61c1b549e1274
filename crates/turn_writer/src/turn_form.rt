//! Turns are printed in form. Its one contract: what the types of a turn's record give, and what is
//! said of its data and its kind (specs/Printing.antt), are all that is needed for its rows to have
//! their form (`is_in_form`). Of what refusals show, of texts and of the widths of numbers nothing is
//! left to be said.

ghost use Rattle.turn_rows.specs.Form.{IsInForm};
ghost use Rattle.turn_records.specs.Printed.{printed};
ghost use Rattle.turn_records.specs.Views.{turn_view};
ghost use Rattle.turn_writer.specs.Printing.{CanPrint};
ghost use Rattle.turn_writer.specs.Typed.{HasTypes};
ghost use Rattle.turn_rows.specs.Editions.{written};

mod amounts;
mod data;
mod deliveries;
mod events;
pub mod laws;
mod shown;

use amounts::sums_have_types;
use deliveries::{answer_has_types, delivery_has_types, reading_has_types};
use events::events_have_types;
use turn_records::turns::TurnRecord;

fn has_types(turn: &TurnRecord)
    ensures { HasTypes (turn_view turn.now) }
{
    let _number = turn.number;
    delivery_has_types(&turn.delivery);
    reading_has_types(&turn.reading);
    answer_has_types(&turn.answer);
    events_have_types(turn.events.as_slice());
    sums_have_types(turn.sums.as_slice());
}

/// A turn whose data nests and is named as journals can print it, and which has what its kind may have, is
/// printed in form. It changes nothing, and looks at each node of the data once: what it states is proved of
/// the types.
pub fn is_in_form(turn: &TurnRecord)
    ensures { CanPrint (turn_view turn.now) → IsInForm written (printed (turn_view turn.now)) }
{
    has_types(turn);
}
