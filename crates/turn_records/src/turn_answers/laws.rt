//! Laws of the ends of turns. The body is empty: what it states is proved of the definitions.

ghost use Rattle.turn_records.specs.Deliveries.{Delivery, Reading};
ghost use Rattle.turn_records.specs.Events.{Answer};
ghost use Rattle.turn_records.specs.Ends.{AllStand, CanEnd, FitsKind};

/// An answer with which the turn of a delivery can end is one that the printed turn of its kind may have, and
/// what can be told of such a turn may stand in it.
pub fn ends_are_answers_of_their_kind()
    ensures answers { (d : Delivery) (r : Reading) (a : Answer) → CanEnd d r a → FitsKind d r a }
    ensures events { (d : Delivery) (r : Reading) (a : Answer) → AllStand d r a }
{}
