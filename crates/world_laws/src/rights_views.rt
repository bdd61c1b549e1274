//! The laws. The bodies are empty: what they state is proved of the definitions.

ghost use Rattle.std.specs.Prelude.{◌≡◌, ◌<◌, ◌++◌, ℕ, List, [], ◌∷◌, length};
ghost use Rattle.world_state.specs.amount_math.ValueView.{ValueView};
ghost use Rattle.world_state.specs.amount_math.declared.Kind.{Kind as AmountKind};
ghost use Rattle.world_state.specs.ertp_mint.BrandSupply.{new_supply};
ghost use Rattle.world_state.specs.ertp_mint.Stocks.{empty_amount};
ghost use Rattle.world_state.specs.proposals.Shares.{AreApart};
ghost use Rattle.world_state.specs.proposals.declared.offers.Proposal.{Proposal};
ghost use Rattle.world_state.specs.vault_model.Flows.{Part, gathered};
ghost use Rattle.world_state.specs.vault_model.Lists.{CanTake, amount_of, taken};
ghost use Rattle.world_state.specs.vault_model.Lists.{Lists, with_closed_seat, with_new_brand};
ghost use Rattle.world_state.specs.vault_model.Lists.{with_new_purse, with_new_seat};
ghost use Rattle.world_state.specs.rights_model.declared.Holder.{Holder};
ghost use Rattle.world_state.specs.rights_model.declared.Holder.TheVariants.{Outside, Payment};
ghost use Rattle.world_state.specs.rights_model.declared.Movement.{Movement};
ghost use Rattle.world_state.specs.rights_model.Table.{movement};
ghost use Rattle.world_laws.specs.Combinations.{CanTakeAll, combined_by_hand};
ghost use Rattle.world_laws.specs.Views.{CanAllByHand, CanByHand, all_by_hand, by_hand};
ghost use Rattle.world_laws.specs.Views.{MayPut, put_to};
ghost use Rattle.world_laws.specs.Views.{rights_of, seats_of};
ghost use Rattle.world_state.specs.Rights as world;
ghost use Rattle.world_state.specs.Rights.{spent_from};
ghost use Rattle.world_state.specs.Rights.{moved_together, slots_at, with_payment, with_purse};
ghost use Rattle.world_state.specs.Rights.{with_slots, with_supply};
ghost use Rattle.world_state.specs.Worlds.{empty_slots, new_seat, payout_moves, rights_left};
ghost use Rattle.world_state.specs.Worlds.{seats_left};

/// What a draft opens is in the world what the effects open: an empty purse, a brand of which
/// nothing was issued, a seat with slots of nothing. A payment of nothing is issued.
pub fn what_is_opened_is_in_the_world()
    ensures purse { (s : Lists) (b : ℕ) (kind : AmountKind)
        → rights_of (with_new_purse s b kind) ≡ with_purse (rights_of s) (empty_amount b kind) }
    ensures brand { (s : Lists) (kind : AmountKind)
        → rights_of (with_new_brand s kind) ≡ with_supply (rights_of s) (new_supply kind) }
    ensures slots { (s : Lists) (instance : ℕ) (proposal : Proposal)
        → rights_of (with_new_seat s instance proposal)
        ≡ with_slots (rights_of s) (empty_slots proposal) }
    ensures seat { (s : Lists) (instance : ℕ) (proposal : Proposal)
        → seats_of (with_new_seat s instance proposal)
        ≡ seats_of s ++ new_seat instance proposal ∷ [] }
    ensures payment { (s : Lists) (b : ℕ) (kind : AmountKind)
        → let a = empty_amount b kind in
        rights_of (by_hand s (movement b Outside (Payment (length s.payments)) a.value))
        ≡ with_payment (rights_of s) a }
{}

/// A seat that is closed keeps what its slots have, as one that is left, and nothing moves yet.
pub fn what_is_closed_is_left()
    ensures rights { (s : Lists) (n : ℕ) → rights_of (with_closed_seat s n) ≡ rights_of s }
    ensures seats { (s : Lists) (n : ℕ) → n < length s.seats
        → seats_of (with_closed_seat s n)
        ≡ seats_left (seats_of s) n (slots_at (rights_of s).slots n) }
{}

/// What a draft takes of a holder is taken in the world, and a payment is then spent; what it puts
/// to a holder is given, and a slot that wasn't there stands last, as in `rows_more`.
pub fn what_is_taken_and_put_is_so_in_the_world()
    ensures take { (s : Lists) (from : Holder) (b : ℕ) (w : ValueView) → CanTake s from b w
        → let r = world.taken (rights_of s) from b w in
        rights_of (taken s from b w) ≡ record r { payments = spent_from from r.payments } }
    ensures put { (s : Lists) (to : Holder) (b : ℕ) (w : ValueView) → MayPut s to
        → rights_of (put_to s to (amount_of b w)) ≡ world.given (rights_of s) to b w }
{}

/// Movements that a draft makes by way of the hand, one after another, make of the world's rights
/// what the movements make together: payments that were taken from are spent, and a slot that
/// wasn't there stands last.
pub fn what_goes_by_the_hand_moves_together()
    ensures one { (s : Lists) (m : Movement) → CanByHand s m
        → rights_of (by_hand s m) ≡ moved_together (rights_of s) (m ∷ []) }
    ensures all { (s : Lists) (ms : List Movement) → CanAllByHand s ms
        → rights_of (all_by_hand s ms) ≡ moved_together (rights_of s) ms }
{}

/// A seat that is closed, and of which each slot in slot order goes whole to the next payment, is
/// one that is left.
pub fn a_closed_seat_that_is_paid_out_is_left()
    ensures rights { (s : Lists) (n : ℕ) → n < length s.seats
        → let slots = slots_at (rights_of s).slots n in
        let out = payout_moves n (length s.payments) slots in
        AreApart slots
        → rights_of (all_by_hand (with_closed_seat s n) out) ≡ rights_left (rights_of s) n }
{}

/// Parts that are all taken to the hand, and put from there as one value to the next payment, make
/// what the movements from each part's holder to that payment make together.
pub fn what_is_combined_moves_together()
    ensures payment { (s : Lists) (b : ℕ) (part : Part) (parts : List Part)
        → CanTakeAll s b (part ∷ parts)
        → rights_of (combined_by_hand s b part parts)
        ≡ moved_together (rights_of s)
        (gathered b (Payment (length s.payments)) (part ∷ parts)) }
{}
