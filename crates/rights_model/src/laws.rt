//! Laws of movements. Their bodies are empty: what they state is proved of the definitions.

ghost use Rattle.std.specs.Prelude.{◌≡◌, ◌≢◌, ℕ, ◌+◌, List};
ghost use Rattle.amount_math.specs.declared.Kind.{Kind as AmountKind};
ghost use Rattle.amount_math.specs.Content.{count, nothing};
ghost use Rattle.amount_math.specs.ValueView.{Fits};
ghost use Rattle.rights_model.specs.Table.{Table, no_holdings, holds, movement, moved, table_after, CanMove, CanMoveAll};
ghost use Rattle.rights_model.specs.Supply.{is_inside, minted, burned, supply, total_of, Balanced};

use crate::{Holder, Movement};

/// Whatever movements are made from the empty table, each where it is defined: once the hand is
/// empty, and where no supply passes its brand's bound, the table is balanced.
pub fn movements_balance(movements: &[Movement])
    ghost kind_of: { ℕ → AmountKind }
    requires defined { CanMoveAll no_holdings movements.now }
    requires hand_empty { (b : ℕ) → holds (table_after no_holdings movements.now) Holder.Hand b ≡ nothing }
    requires bounded { (b : ℕ) → Fits (kind_of b) (supply movements.now b) }
    ensures { Balanced (table_after no_holdings movements.now) kind_of (supply movements.now) }
{}

/// Nothing is made but from Outside, and nothing is lost but to Outside.
pub fn movements_conserve(movements: &[Movement])
    ghost before: { Table }
    requires { CanMoveAll before movements.now }
    ensures { (b : ℕ) (k : List ℕ) → let after = table_after before movements.now in
        total_of is_inside after b k + count (burned movements.now b) k
        ≡ total_of is_inside before b k + count (minted movements.now b) k }
{}

/// What goes to the hand and on from it goes there by one movement.
pub fn hand_is_passed(step: &Movement)
    ghost before: { Table }
    ensures { let to_hand = movement step.now.brand step.now.from Holder.Hand step.now.value in
        let on = movement step.now.brand Holder.Hand step.now.to step.now.value in
        moved (moved before to_hand) on ≡ moved before step.now }
{}

/// A movement inside the table is undone by the one back.
pub fn movement_back(step: &Movement)
    ghost before: { Table }
    requires defined { CanMove before step.now }
    requires inside { step.now.to ≢ Holder.Outside }
    ensures { moved (moved before step.now) (movement step.now.brand step.now.to step.now.from step.now.value) ≡ before }
{}
