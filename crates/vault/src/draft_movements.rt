//! Movements that are made together in a turn's draft. Its one contract: the definitions of specs/, and
//! the laws that its functions state of them: what is done by way of the hand makes the table of what
//! is written, and where the hand stays, a draft can be undone. The bodies are empty: what they state
//! is proved of the definitions.

ghost use Rattle.std.specs.Prelude.{◌≡◌, ◌≢◌, ℕ, List};
ghost use Rattle.vault_model.specs.amount_math.declared.Kind.{Kind as AmountKind};
ghost use Rattle.vault.specs.Together.{HandHoldsGiven, HandStays, after_all};
ghost use Rattle.vault_model.specs.Flows.{AreInside, IsApart, Part, combined, gathered, split_up, spread};
ghost use Rattle.vault_model.specs.rights_model.Table.{CanMoveAll, table_after};
ghost use Rattle.vault.specs.Drafts.{DraftState, HandGoes, IsValid, table_now};

use vault_model::rights_model_lib::{Holder, Movement};

/// The table of a draft follows movements that are made in their turn, which could be made.
pub fn the_table_follows_movements(moves: &[Movement])
    ghost before: { DraftState }
    ensures table { table_now (after_all before moves.now) ≡ table_after (table_now before) moves.now }
    ensures can { IsValid (after_all before moves.now) → CanMoveAll (table_now before) moves.now }
{}

/// A combination that was done by way of the hand makes the table of what is written of it: each part, by
/// itself, goes from its holder to the one.
pub fn a_combination_is_what_is_written()
    ensures { (before : DraftState) (b : ℕ) (kind : AmountKind)
        → (to : Holder) (parts : List Part)
        → AreInside parts → IsApart to parts → IsApart Holder.Hand parts
        → IsValid (after_all before (combined b kind to parts))
        → table_now (after_all before (combined b kind to parts))
        ≡ table_after (table_now before) (gathered b to parts) }
{}

/// And so does a split: each part, by itself, goes from the one to its holder.
pub fn a_split_is_what_is_written()
    ensures { (before : DraftState) (b : ℕ) (kind : AmountKind)
        → (from : Holder) (parts : List Part)
        → from ≢ Holder.Outside → IsApart from parts → IsApart Holder.Hand parts
        → IsValid (after_all before (split_up b kind from parts))
        → table_now (after_all before (split_up b kind from parts))
        ≡ table_after (table_now before) (spread b from parts) }
{}

/// Both leave the hand, less what was given up, as it was, and what was kept.
pub fn the_hand_stays()
    ensures combined { (before : DraftState) (b : ℕ) (kind : AmountKind)
        → (to : Holder) (parts : List Part)
        → IsApart Holder.Hand parts → to ≢ Holder.Hand → HandHoldsGiven before
        → HandStays before (after_all before (combined b kind to parts)) }
    ensures split { (before : DraftState) (b : ℕ) (kind : AmountKind)
        → (from : Holder) (parts : List Part)
        → IsApart Holder.Hand parts → from ≢ Holder.Hand → HandHoldsGiven before
        → HandStays before (after_all before (split_up b kind from parts)) }
{}

/// Where the hand, less what was given up, stays as it was, a draft can be undone if it could before, and
/// what was given up is in the hand if it was.
pub fn what_stays_can_be_undone()
    ensures undone { (old new : DraftState) → HandStays old new → HandGoes old → HandGoes new }
    ensures holds { (old new : DraftState) → HandStays old new → HandHoldsGiven old
        → HandHoldsGiven new }
{}
