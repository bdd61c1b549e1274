//! Laws of the lists and of movements made together. Their bodies are empty: what they state is proved of
//! the definitions.

ghost use Rattle.std.specs.Prelude.{◌≡◌, ◌<◌, ℕ, List, length};
ghost use Rattle.rights_model.specs.amount_math.Content.{Contains};
ghost use Rattle.rights_model.specs.amount_math.declared.Kind.{Kind as AmountKind};
ghost use Rattle.rights_model.specs.Table as table;
ghost use Rattle.rights_model.specs.Table.{CanMoveAll, Table, holds, table_after};
ghost use Rattle.vault_model.specs.Flows.{AreInside, IsApart, Part, SameFlows, combined, content_of, gathered, split_up, spread};
ghost use Rattle.vault_model.specs.Lists.{CanGive, CanTake, Lists, back, moved, taken, with_closed_seat, with_new_seat, with_new_slot, with_reopened_seat, without_last_seat, without_last_slot_of};
ghost use Rattle.proposals.specs.declared.offers.Proposal.{Proposal};
ghost use Rattle.vault_model.specs.Openings.{HasOpenSeat};
ghost use Rattle.vault_model.specs.Tables.{IsSound, no_hand, table_of};

use rights_model::{Holder, Movement};

/// Lists of movements that can be made and have the same flows make the same table.
pub fn same_flows_make_one_table(written: &[Movement], done: &[Movement])
    ghost before: { Table }
    requires written { CanMoveAll before written.now }
    requires done { CanMoveAll before done.now }
    requires same { SameFlows written.now done.now }
    ensures { table_after before written.now ≡ table_after before done.now }
{}

/// What a movement's halves make of the lists, worked backwards, is as it was before.
pub fn steps_are_undone(step: &Movement)
    ghost lists: { Lists }
    requires takes { CanTake lists step.now.from step.now.brand step.now.value }
    requires gives { CanGive (taken lists step.now.from step.now.brand step.now.value) step.now.to step.now.brand step.now.value }
    ensures { back (moved lists step.now) step.now ≡ lists }
{}

/// The table of the lists follows a movement between holders: what it makes of the lists, it makes of the
/// table.
pub fn table_follows(step: &Movement)
    ghost lists: { Lists }
    requires takes { CanTake lists step.now.from step.now.brand step.now.value }
    requires gives { CanGive (taken lists step.now.from step.now.brand step.now.value) step.now.to step.now.brand step.now.value }
    ensures { table_of (moved lists step.now) ≡ table.moved (table_of lists) step.now }
{}

/// All that is held stays what is out, whatever moves between holders.
pub fn balance_is_kept(step: &Movement)
    ghost lists: { Lists }
    requires takes { CanTake lists step.now.from step.now.brand step.now.value }
    requires gives { CanGive (taken lists step.now.from step.now.brand step.now.value) step.now.to step.now.brand step.now.value }
    requires balanced { IsSound lists no_hand }
    ensures { IsSound (moved lists step.now) no_hand }
{}

/// A seat that is opened, a further slot of one, and a seat that is closed, worked backwards, leave the lists
/// as they were. What a close owes no longer is owed again.
pub fn openings_are_undone()
    ensures seat { (lists : Lists) (instance : ℕ) (proposal : Proposal)
        → without_last_seat (with_new_seat lists instance proposal) ≡ lists }
    ensures slot { (lists : Lists) (n : ℕ) (keyword : List ℕ) (b : ℕ) (kind : AmountKind)
        → n < length lists.seats
        → without_last_slot_of n (with_new_slot lists n keyword b kind) ≡ lists }
    ensures closed { (lists : Lists) (n : ℕ) → HasOpenSeat lists n
        → with_reopened_seat n (with_closed_seat lists n) ≡ lists }
{}

/// They leave who holds what as it was.
pub fn openings_move_nothing()
    ensures seat { (lists : Lists) (instance : ℕ) (proposal : Proposal)
        → table_of (with_new_seat lists instance proposal) ≡ table_of lists }
    ensures slot { (lists : Lists) (n : ℕ) (keyword : List ℕ) (b : ℕ) (kind : AmountKind)
        → n < length lists.seats
        → table_of (with_new_slot lists n keyword b kind) ≡ table_of lists }
    ensures closed { (lists : Lists) (n : ℕ) → table_of (with_closed_seat lists n) ≡ table_of lists }
{}

/// And all that is held stays what is out, and a payment is owed for each slot of an open seat.
pub fn openings_keep_the_balance()
    ensures seat { (lists : Lists) (instance : ℕ) (proposal : Proposal) → IsSound lists no_hand
        → IsSound (with_new_seat lists instance proposal) no_hand }
    ensures slot { (lists : Lists) (n : ℕ) (keyword : List ℕ) (b : ℕ) (kind : AmountKind)
        → HasOpenSeat lists n → IsSound (with_new_slot lists n keyword b kind) no_hand }
    ensures closed { (lists : Lists) (n : ℕ) → HasOpenSeat lists n
        → IsSound (with_closed_seat lists n) no_hand }
{}

/// A combination that is written part by part makes the table that is made where its parts are gathered in
/// the hand, and all of them are put at once; and where the one can be made, so can the other.
pub fn combination_goes_by_the_hand()
    ensures can { (before : Table) (b : ℕ) (kind : AmountKind) (to : Holder) (parts : List Part) → AreInside parts → IsApart to parts → IsApart Holder.Hand parts
        → CanMoveAll before (gathered b to parts) → CanMoveAll before (combined b kind to parts) }
    ensures table { (before : Table) (b : ℕ) (kind : AmountKind) (to : Holder) (parts : List Part) → AreInside parts → IsApart to parts → IsApart Holder.Hand parts
        → CanMoveAll before (gathered b to parts) → table_after before (gathered b to parts) ≡ table_after before (combined b kind to parts) }
{}

/// A split that is written part by part makes the table that is made where all of it is taken in the hand at
/// once, and its parts are put from there; which can be made where the holder has them all.
pub fn split_goes_by_the_hand()
    ensures can { (before : Table) (b : ℕ) (kind : AmountKind) (from : Holder) (parts : List Part) → IsApart Holder.Hand parts
        → Contains (holds before from b) (content_of parts) → CanMoveAll before (split_up b kind from parts) }
    ensures table { (before : Table) (b : ℕ) (kind : AmountKind) (from : Holder) (parts : List Part) → IsApart Holder.Hand parts
        → Contains (holds before from b) (content_of parts) → CanMoveAll before (spread b from parts)
        → table_after before (spread b from parts) ≡ table_after before (split_up b kind from parts) }
{}
