//! The laws of the world: good effects keep rights in balance, open seats covered, promises told and owed once. The
//! bodies are empty: what they state is proved of the definitions.

ghost use Rattle.std.specs.Prelude.{◌≡◌, ◌<◌, ℕ, true, Option, Some};
ghost use Rattle.std.specs.Prelude.{List, ◌∷◌, length};
ghost use Rattle.std.specs.List.{AllByRecursion};
ghost use Rattle.world_state.specs.host_data.Nodes.{EachNode};
ghost use Rattle.world_state.specs.turn_records.Printable.{IsPrintable};
ghost use Rattle.world_state.specs.host_text.Words.{is_field_name};
ghost use Rattle.world_state.specs.host_data.Tree.{Tree};
ghost use Rattle.world_state.specs.promise_store.States.{SettlementView};
ghost use Rattle.world_state.specs.proposals.OfferSafety.{MeetSlots};
ghost use Rattle.world_state.specs.proposals.declared.allocations.Share.{Share};
ghost use Rattle.world_state.specs.turn_records.Deliveries.{Delivery, promise_of};
ghost use Rattle.world_laws.specs.First.{first_world};
ghost use Rattle.world_laws.specs.Turns.{Agree, allocation_at, amounts_at};
ghost use Rattle.world_state.specs.Good.{AreGood, IsDue, IsGoodEffect, IsGoodWorld, IsInHand};
ghost use Rattle.world_state.specs.Good.{LeavesAnswer};
ghost use Rattle.world_state.specs.Known.{Grows, HasFunction, HasWidth, IsFormed};
ghost use Rattle.world_state.specs.Promises.{settlement_at};
ghost use Rattle.world_state.specs.Worlds.{Effect, State, after, after_all, behind, in_front};
ghost use Rattle.world_state.specs.Worlds.{promises_made, seat_at};

/// Whatever an effect does, what was made stays what it is: brands and who made them, whose a
/// seat is and what it was opened for, the installation of an instance, invitations, facets, and
/// how many there are of all else. What is settled stays so, and so does what was left and what
/// is spent.
pub fn what_was_made_stays()
    ensures grows { (w : State) (e : Effect) → Grows w (after w e) }
{}

/// A good effect keeps the world good, and so do effects of which each is good after those before
/// it.
pub fn good_effects_keep_the_world_good()
    ensures one { (w : State) (e : Effect)
        → IsGoodEffect w e → IsGoodWorld w → IsGoodWorld (after w e) }
    ensures all { (w : State) (es : List Effect)
        → AreGood w es → IsGoodWorld w → IsGoodWorld (after_all w es) }
{}

/// The world of a new host is good.
pub fn a_new_world_is_good()
    ensures good { IsGoodWorld first_world }
{}

/// Through good effects what a seat had when it was left stays what it is, and what a promise was
/// settled with.
pub fn what_was_left_or_settled_stays()
    ensures left { (w : State) (e : Effect) (s : ℕ) (shares : List Share)
        → IsGoodEffect w e → s < length w.seats
        → (seat_at w.seats s).last ≡ Some shares → (seat_at (after w e).seats s).last ≡ Some shares }
    ensures settled { (w : State) (e : Effect) (p : ℕ) (v : SettlementView)
        → IsGoodEffect w e → IsGoodWorld w → p < promises_made w
        → settlement_at w.promises.settled p ≡ Some v
        → settlement_at (after w e).promises.settled p ≡ Some v }
{}

/// A turn works on the world behind its delivery. Where the world with the delivery in front is
/// good, so is the one behind it, the delivery is due in it, and the promise that it settles is
/// the turn's alone.
pub fn a_turn_has_its_delivery()
    ensures begins { (w : State) (d : Delivery) (ds : List Delivery) → w.waiting ≡ d ∷ ds
        → w ≡ in_front d (behind w) }
    ensures behind { (w : State) (d : Delivery) → IsGoodWorld (in_front d w) → IsGoodWorld w }
    ensures due { (w : State) (d : Delivery) → IsGoodWorld (in_front d w) → IsDue w d }
    ensures own { (w : State) (d : Delivery) (p : ℕ) → IsGoodWorld (in_front d w)
        → promise_of d ≡ Some p → IsInHand w p }
{}

/// Good effects keep the world with the turn's delivery in front good, but those that resolve its
/// promise.
pub fn good_effects_keep_the_turns_delivery()
    ensures one { (w : State) (d : Delivery) (e : Effect) → IsGoodEffect w e → LeavesAnswer d e
        → IsGoodWorld (in_front d w) → IsGoodWorld (in_front d (after w e)) }
    ensures all { (w : State) (d : Delivery) (es : List Effect)
        → AreGood w es → AllByRecursion (LeavesAnswer d) es
        → IsGoodWorld (in_front d w) → IsGoodWorld (in_front d (after_all w es)) }
{}

/// All amounts that are known of a seat are, under one keyword, of one brand and kind: what it
/// has or had, what is staged of it, what it wants and what it gave. So changes of its slots can
/// be planned.
pub fn amounts_of_a_seat_agree()
    ensures agree { (w : State) (s : ℕ)
        → IsGoodWorld w → s < length w.seats → Agree (amounts_at w s) }
    ensures want { (w : State) (s : ℕ) → IsGoodWorld w → s < length w.seats
        → MeetSlots (allocation_at w s) (seat_at w.seats s).proposal.want }
    ensures give { (w : State) (s : ℕ) → IsGoodWorld w → s < length w.seats
        → MeetSlots (allocation_at w s) (seat_at w.seats s).proposal.give }
{}

/// What the world holds can be printed: functions have names of their form, and data that is
/// formed, and as wide as its types let it be, has the form of printed data.
pub fn what_is_held_is_printable()
    ensures function { (w : State) (i : ℕ) (f : List ℕ)
        → IsGoodWorld w → HasFunction w.tables i f → is_field_name f ≡ true }
    ensures tree { (w : State) (holder : Option ℕ) (t : Tree)
        → IsGoodWorld w → IsFormed w holder t → EachNode HasWidth 0 t → IsPrintable t }
{}
