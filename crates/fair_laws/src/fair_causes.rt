//! Laws of causes. The bodies are empty: what they state is proved of the definitions.

ghost use Rattle.std.specs.Prelude.{◌≡◌, ℕ, List, [], Some};
ghost use Rattle.delivery_laws.specs.rules.Traces.{departures_by, departures_in};
ghost use Rattle.fair_rows.specs.ExitCauses.{Owners, cause_by_row};
ghost use Rattle.delivery_laws.specs.turn_records.Events.{Call};
ghost use Rattle.fair_rows.specs.turn_rows.Causes.{Cause};
ghost use Rattle.fair_rows.specs.turn_rows.Turns.{Turn};
ghost use Rattle.fair_laws.specs.Owed.{AreUncalled, HasCause, HaveCauses, Owes, ShowsNothing, Tells, answered};
ghost use Rattle.delivery_laws.specs.world_state.Good.{AreGood};
ghost use Rattle.delivery_laws.specs.host_data.Tree.{Tree};
ghost use Rattle.delivery_laws.specs.host_data.declared.data.Obj.{Obj};
ghost use Rattle.delivery_laws.specs.world_state.Worlds.{Effect, IsOpen, State, after, after_all, exit, note_call, seat_at};

/// Where just the departures of the effects are shown, each seat that they leave is left for the first cause
/// that the turn's rows show; behind them nothing that is shown is still to be done.
pub fn departures_have_causes()
    ensures causes { (owners : Owners) (t : Turn) (w : State) (es : List Effect) → AreGood w es
        → AreUncalled es → Owes w (departures_in es) → HaveCauses owners t w es }
    ensures done { (w : State) (es : List Effect) → AreGood w es → AreUncalled es
        → Owes w (departures_in es) → Owes (after_all w es) [] }
{}

/// A turn begins with nothing that is to be done. Where nothing is, a call that is answered shows the causes of
/// just the seats that its target and its method leave, and any other row of a call shows none.
pub fn calls_show_departures()
    ensures start { (w : State) → w.log ≡ [] → Owes w [] }
    ensures others { (w : State) (c : Call) → ShowsNothing c.how c.answer → Owes w []
        → Owes (after w (note_call c)) [] }
    ensures shown { (w : State) (o : Obj) (m : List ℕ) (args : List Tree) (answer : Tree) → Tells w o m
        → Owes w [] → Owes (after w (note_call (answered o m args answer))) (departures_by w o m) }
{}

/// Where nothing is to be done that calls show, an open seat is left for the cause that the turn's own row shows.
pub fn rows_of_turns_show_causes()
    ensures shown { (owners : Owners) (t : Turn) (w : State) (s : ℕ) (cause : Cause) → IsOpen (seat_at w.seats s)
        → Owes w [] → cause_by_row t.kind t.answer owners t (seat_at w.seats s).instance s ≡ Some cause
        → HasCause owners t w (exit s cause) }
{}
