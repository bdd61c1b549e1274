//! The laws. The bodies are empty: what they state is proved of the definitions.

ghost use Rattle.std.specs.Prelude.{◌≡◌, ℕ, List, [], Option, Result, IfOk};
ghost use Rattle.rules.specs.Obligations.{IsGoodOutcome, IsRule};
ghost use Rattle.rules.specs.Traces.{departures_by, openings_by};
ghost use Rattle.world_laws.specs.host_data.Tree.{Tree};
ghost use Rattle.world_laws.specs.host_data.declared.data.Obj.{Obj};
ghost use Rattle.world_laws.specs.refusals.Outcomes.{reading};
ghost use Rattle.world_laws.specs.refusals.declared.codes.Refusal.{Refusal};
ghost use Rattle.world_laws.specs.turn_records.Deliveries.{Delivery};
ghost use Rattle.world_laws.specs.world_state.Good.{IsGoodWorld};
ghost use Rattle.world_laws.specs.world_state.Known.{IsFormed};
ghost use Rattle.world_laws.specs.world_state.Worlds.{Effect, State, after_all, in_front};

/// What a rule has its effects do keeps the world good.
pub fn rules_keep_the_world_good()
    ensures kept { (w : State) (caller : Option ℕ) (o : Obj) (m : List ℕ) (args : List Tree)
        (answer : Tree) (effects : List Effect) →
        IsRule w caller o m args answer effects → IsGoodWorld w
        → IsGoodWorld (after_all w effects) }
{}

/// With the delivery that the turn is about in front it stays good too: no rule settles what the delivery settles.
pub fn rules_keep_the_turns_delivery()
    ensures kept { (w : State) (d : Delivery) (caller : Option ℕ) (o : Obj) (m : List ℕ)
        (args : List Tree) (answer : Tree) (effects : List Effect) →
        IsRule w caller o m args answer effects → IsGoodWorld (in_front d w) →
        IsGoodWorld (in_front d (after_all w effects)) }
{}

/// A rule that only reads owes an answer that its caller may hold, and nothing else.
pub fn rules_that_read_owe_their_answer()
    ensures reads { (w : State) (caller : Option ℕ) (o : Obj) (m : List ℕ) (args : List Tree)
        (r : Result Tree Refusal) → departures_by w o m ≡ [] → openings_by o m ≡ 0 →
        IfOk r (IsFormed w caller) → IsGoodOutcome w caller o m args (reading r) }
{}
