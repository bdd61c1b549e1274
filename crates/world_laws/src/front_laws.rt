//! Laws of what is in front. The bodies are empty: what they state is proved of the definitions.

ghost use Rattle.std.specs.Prelude.{◌≡◌, ◌∷◌, ℕ, List, Option};
ghost use Rattle.world_state.specs.promise_store.States.{SettlementView};
ghost use Rattle.world_state.specs.turn_records.Deliveries.{Delivery};
ghost use Rattle.world_state.specs.turn_records.Events.{Event};
ghost use Rattle.world_state.specs.Promises.{PromiseBook, following, resolving, settling};
ghost use Rattle.world_state.specs.Worlds.{Effect, State, after, after_all, in_front};
ghost use Rattle.world_laws.specs.Fronts.{with_front};

/// Settling, following and resolving only append to what waits: what is in front stays there.
pub fn settling_leaves_the_front()
    ensures settling { (d : Delivery) (p : ℕ) (v : SettlementView) (b : PromiseBook)
        (waiting : List Delivery) (log : List Event)
        → settling p v b (d ∷ waiting) log ≡ with_front d (settling p v b waiting log) }
    ensures following { (d : Delivery) (s : Option SettlementView) (p q : ℕ) (b : PromiseBook)
        (waiting : List Delivery) (log : List Event)
        → following s p q b (d ∷ waiting) log ≡ with_front d (following s p q b waiting log) }
    ensures resolving { (d : Delivery) (p : ℕ) (v : SettlementView) (b : PromiseBook)
        (waiting : List Delivery) (log : List Event)
        → resolving p v b (d ∷ waiting) log ≡ with_front d (resolving p v b waiting log) }
{}

/// What effects make of a world with a delivery in front is what they make of the world, with that delivery in
/// front.
pub fn effects_leave_the_front()
    ensures one { (d : Delivery) (w : State) (e : Effect)
        → after (in_front d w) e ≡ in_front d (after w e) }
    ensures all { (d : Delivery) (w : State) (es : List Effect)
        → after_all (in_front d w) es ≡ in_front d (after_all w es) }
{}
