//! The laws. The bodies are empty: what they state is proved of the definitions.

ghost use Rattle.std.specs.Prelude.{IfOk, IfSome, ◌≡◌, ◌<◌, ℕ, List, length};
ghost use Rattle.delivery_laws.specs.Hosts.{IsGoodHost};
ghost use Rattle.delivery_laws.specs.Told.{with_log};
ghost use Rattle.delivery_laws.specs.Works.{Evaluates, IsCallWork, IsOut, IsRun, LabelIsFree};
ghost use Rattle.delivery_turns.specs.Endings.{ending};
ghost use Rattle.delivery_turns.specs.Functions.{run};
ghost use Rattle.delivery_turns.specs.Hosts.{HostState, step_of};
ghost use Rattle.delivery_turns.specs.Messages.{value_at};
ghost use Rattle.delivery_turns.specs.Turns.{delivery_turn};
ghost use Rattle.rule_laws.specs.jessie_semantics.Keeping.{CallHas};
ghost use Rattle.rule_laws.specs.jessie_semantics.Play.{Call, Play};
ghost use Rattle.delivery_turns.specs.rules.Zoe.{ReadsModules, TextReader};
ghost use Rattle.delivery_turns.specs.turn_records.Deliveries.{Delivery};
ghost use Rattle.delivery_turns.specs.turn_records.Events.{Answer, Event};
ghost use Rattle.delivery_turns.specs.world_state.Good.{AreGood, IsGoodWorld};
ghost use Rattle.delivery_turns.specs.world_state.Known.{IsHanded, IsKnownTo};
ghost use Rattle.delivery_turns.specs.world_state.Worlds.{Effect, State, after_all, in_front};

/// What was told in the turn changes nothing of what effects need and do.
pub fn what_was_told_changes_nothing()
    ensures good { (log : List Event) (w : State) (es : List Effect) → AreGood w es
        → AreGood (with_log log w) es }
    ensures after { (log : List Event) (w : State) (es : List Effect)
        → let there = after_all (with_log log w) es in there ≡ with_log there.log (after_all w es) }
{}

/// What the host does for a call of an instance's function is good, and what it answers the
/// instance may know.
pub fn calls_of_the_host_are_good()
    ensures good { (w : State) (i : ℕ) (c : Call)
        → IsGoodWorld w → i < length w.tables.instances → CallHas (IsKnownTo w i) c
        → IsCallWork w i c }
{}

/// How a turn ends is good, where its answer can be handed out and the label that is wanted for it
/// is free.
pub fn ends_of_turns_are_good()
    ensures good { (w : State) (d : Delivery) (a : Answer) → IsGoodWorld (in_front d w) → IsOut w a
        → LabelIsFree w d a → AreGood w (ending d a w) }
{}

/// What the function of an instance comes to is good.
pub fn runs_are_good()
    ensures good { (start : State) (i n : ℕ) (p : Play)
        → i < length start.tables.instances → Evaluates start i n p → IsGoodWorld start
        → IsRun start i n (run start i p) }
{}

/// What stands at a path can be handed out.
pub fn messages_are_of_what_can_be_handed_out()
    ensures value { (w : State) (party path : List ℕ) → IsGoodWorld w
        → IfOk (value_at w party path) (IsHanded w) }
{}

/// What a delivery comes to has good effects, each after those before it, where the world with the
/// delivery in front is good and what is read of texts are modules that can be installed.
pub fn deliveries_have_good_effects()
    ensures good { (read : TextReader) (meter : ℕ) (w : State) (d : Delivery)
        → ReadsModules read → IsGoodWorld (in_front d w)
        → AreGood w (delivery_turn read meter w d).effects }
{}

/// A step keeps a host good, where what is read of texts are modules that can be installed.
pub fn steps_keep_hosts_good()
    ensures step { (read : TextReader) (s : HostState)
        → ReadsModules read → IsGoodHost s
        → IfSome (step_of read s) (λ step. IsGoodHost step.next) }
{}
