//! Laws of fair turns. The bodies are empty: what they state is proved of the definitions.

ghost use Rattle.std.specs.Prelude.{◌≡◌, List, []};
ghost use Rattle.turn_rows.specs.amount_math.Content.{Content};
ghost use Rattle.turn_rows.specs.amount_math.ValueView.{IsValue};
ghost use Rattle.turn_rows.specs.amount_math.declared.Kind.{Kind};
ghost use Rattle.turn_rows.specs.Turns.{Event, Turn};
ghost use Rattle.turn_rows.specs.declared.editions.Edition.{Edition};
ghost use Rattle.fair_rows.specs.Acts.{ActsShowRows, ExitIsAct, OfferIsAct, Place, SinglesAreActs};
ghost use Rattle.fair_rows.specs.ExitCauses.{Owners};
ghost use Rattle.fair_rows.specs.Steps.{StepsAreFair, StepsAreStrict, TurnsStayFair, TurnsStayStrict};
ghost use Rattle.fair_rows.specs.Strict.{AreStrict};
ghost use Rattle.fair_rows.specs.Turns.{AreFair};
ghost use Rattle.fair_rows.specs.Values.{content_of, value_of};

/// No turns are fair, and strict.
pub fn no_turns_are_fair()
    ensures fair { (e : Edition) → AreFair e [] }
    ensures strict { AreStrict [] }
{}

/// Where a step shows of its world what it must, its turn is fair after whatever leaves that world, and
/// leaves the next: so for every fair list of turns that leaves the world, the list with this turn is
/// fair, and leaves the next one.
pub fn turns_stay_fair()
    ensures steps { StepsAreFair }
    ensures turns { TurnsStayFair }
{}

/// Such a turn keeps to all that a host keeps to beyond fairness, and so do the turns with it where those
/// before it do.
pub fn turns_stay_strict()
    ensures steps { StepsAreStrict }
    ensures turns { TurnsStayStrict }
{}

/// A value of its kind is told whole by how it is printed.
pub fn values_are_told()
    ensures { (kind : Kind) (c : Content) → IsValue kind c → content_of (value_of kind c) ≡ c }
{}

/// Acts of a host, each with rows that are in place wherever its world is what the rows before tell, show
/// what a step has to show of its rows. Leaving a seat, opening one by an offer, and acts of one row are
/// such acts, stated of the host's table, seats and number of payments alone.
pub fn acts_are_in_place()
    ensures acts { ActsShowRows }
    ensures exit { ExitIsAct }
    ensures offer { OfferIsAct }
    ensures singles { (owners : Owners) (t : Turn) (here : List Event) (w : Place) → SinglesAreActs owners t here w }
{}
