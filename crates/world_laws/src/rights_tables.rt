//! Laws of the table of rights. The bodies are empty: what they state is proved of the definitions.

ghost use Rattle.std.specs.Prelude.{◌≡◌, ◌<◌, ℕ, List, length, map};
ghost use Rattle.std.specs.List.{AllByRecursion};
ghost use Rattle.world_state.specs.amount_math.Content.{nothing};
ghost use Rattle.world_state.specs.amount_math.declared.Amount.{Amount};
ghost use Rattle.world_state.specs.ertp_mint.BrandSupply.{BrandSupply};
ghost use Rattle.world_state.specs.proposals.Shares.{AreApart};
ghost use Rattle.world_state.specs.proposals.Slots.{emptied};
ghost use Rattle.world_state.specs.proposals.declared.allocations.Share.{Share};
ghost use Rattle.world_state.specs.vault_model.Tables.{no_hand};
ghost use Rattle.world_state.specs.rights_model.Table as table;
ghost use Rattle.world_state.specs.rights_model.Table.{Table, table_after};
ghost use Rattle.world_state.specs.rights_model.declared.Movement.{Movement};
ghost use Rattle.world_laws.specs.Tables.{Agrees, table_of};
ghost use Rattle.world_state.specs.Good.{AreSharesOf, AreSharesValued, HasNothing};
ghost use Rattle.world_state.specs.Rights.{CanMoveAll, Rights, all_moved, moved_together, slots_at};
ghost use Rattle.world_state.specs.Rights.{with_payment, with_purse, with_slots, with_supply};
ghost use Rattle.world_state.specs.Worlds.{payout_moves, rights_left};

/// The table of rights has what purses, payments and slots have, and nothing else; and it is the one that has.
pub fn tables_have_what_is_held()
    ensures agrees { (r : Rights) → Agrees r no_hand (table_of r) }
    ensures one { (r : Rights) (t : Table) → Agrees r no_hand t → table_of r ≡ t }
{}

/// A purse, a payment or a seat that is opened with nothing, and a new brand, leave the table as it was.
pub fn openings_move_nothing()
    ensures purse { (r : Rights) (a : Amount) → a.value.content ≡ nothing
        → table_of (with_purse r a) ≡ table_of r }
    ensures payment { (r : Rights) (a : Amount) → a.value.content ≡ nothing
        → table_of (with_payment r a) ≡ table_of r }
    ensures brand { (r : Rights) (s : BrandSupply) → table_of (with_supply r s) ≡ table_of r }
    ensures seat { (r : Rights) (shares : List Share)
        → table_of (with_slots r (map emptied shares)) ≡ table_of r }
{}

/// A seat that is left is its slots paid out, each whole to a payment of its own, one after another.
pub fn a_left_seat_is_paid_out()
    ensures rights { (r : Rights) (n : ℕ) → n < length r.slots → AreApart (slots_at r.slots n)
        → all_moved r (payout_moves n (length r.payments) (slots_at r.slots n)) ≡ rights_left r n }
    ensures can { (r : Rights) (n : ℕ) → n < length r.slots → AreApart (slots_at r.slots n)
        → AreSharesOf r.out (slots_at r.slots n) → AreSharesValued (slots_at r.slots n)
        → CanMoveAll r no_hand (payout_moves n (length r.payments) (slots_at r.slots n)) }
    ensures table { (r : Rights) (n : ℕ) → n < length r.slots → AreApart (slots_at r.slots n)
        → AreSharesOf r.out (slots_at r.slots n) → AreSharesValued (slots_at r.slots n)
        → table_of (rights_left r n)
        ≡ table_after (table_of r) (payout_moves n (length r.payments) (slots_at r.slots n)) }
{}

/// Movements that can be made of rights together can be made of their table, and what they make of the rights
/// they make of the table.
pub fn tables_follow_movements()
    ensures can { (r : Rights) (ms : List Movement) → CanMoveAll r no_hand ms
        → table.CanMoveAll (table_of r) ms }
    ensures after { (r : Rights) (ms : List Movement) → CanMoveAll r no_hand ms
        → AllByRecursion (λ (m : Movement). HasNothing (all_moved r ms).payments m.from) ms
        → table_of (moved_together r ms) ≡ table_after (table_of r) ms }
{}
