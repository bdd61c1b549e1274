//! What rows tell of rights, as far as further rows need it: what each holder has, the totals, what is out of each
//! brand, kinds, and payments.

ghost use Rattle.std.specs.Prelude.{◌≡◌, ◌↔◌, ◌+◌, ◌<◌, ◌^◌, ◌++◌, ℕ, List, IfOk, IsTrue, OnOk, false, map, slice_get};
ghost use Rattle.std.specs.List.{AllByRecursion};
ghost use Rattle.row_records.specs.Views.{amount_view, move_view, open_view, value_view};
ghost use Rattle.row_records.specs.amount_math.Content.{Contains, count};
ghost use Rattle.row_records.specs.amount_math.Counted.{counted as size};
ghost use Rattle.row_records.specs.amount_math.declared.Kind.{Kind};
ghost use Rattle.row_records.specs.fair_rows.Amounts.{IsPrinted};
ghost use Rattle.row_records.specs.fair_rows.Movements.{movement_of, names};
ghost use Rattle.row_records.specs.fair_rows.Rows.{InTurn, after_event};
ghost use Rattle.row_records.specs.fair_rows.SoFar.{SoFar, nothing_so_far, with_row};
ghost use Rattle.row_records.specs.fair_rows.Turns.{IsBalanced, after_turn_row, sums_due};
ghost use Rattle.row_records.specs.fair_rows.Values.{HaveKinds, IsValueOf, Named, content_of};
ghost use Rattle.row_records.specs.rights_model.Table.{holds, moved as table_moved};
ghost use Rattle.row_records.specs.turn_rows.Form.{HasAmountForm, HasEventForm, HasValueForm};
ghost use Rattle.row_records.specs.turn_rows.Turns.{Turn, moved, opened};
ghost use Rattle.row_records.specs.turn_rows.declared.editions.Edition.{Edition as Editions};
ghost use Rattle.told_rights.specs.Rights.{AreEmptied, CanGive, HaveSameRights, IsMintable, IsPassed, IsThere, MayMove, TellsKinds, TellsRights, named_amounts, with_issue, with_retired};
ghost use Rattle.told_rights.specs.Supplies.{IsBounded, out_of};

use crate::brand_kinds::BrandKinds;
use crate::contents::Contents;
use crate::payments::Payments;
use crate::places::Places;
use crate::sizes::size_of_value;
use crate::sums::Sums;
use crate::supplies::Supplies;
use row_records::rows::{KeywordAmount, MoveRow, OpenRow, PrintedValue};
use row_records::turn_rows_lib::editions::Edition;
use row_records::turn_rows_lib::rights_model_lib::{Holder, Sum};
use std::alloc::{AllocError, Global};

/// The most of a brand that may ever be minted.
const MOST_MINTED: u128 = (1 << 126) - 1;

/// What is kept of rights.
#[derive(Drop)]
pub struct Rights {
    pub alloc: Global,
    pub edition: Edition,
    pub places: Places,
    pub supplies: Supplies,
    pub kinds: BrandKinds,
    pub sums: Sums,
    pub payments: Payments,
}

/// The value of a movement leaves the one holder and comes to the other.
fn carry(places: &mut Places, alloc: Global, row: &MoveRow) -> Result<(), AllocError>
    requires form { (e : Editions) × HasValueForm e (value_view row.now.value) }
    requires room { CanGive places.old (move_view row.now) }
    ensures { OnOk result (places.new ≡ table_moved places.old (movement_of (move_view row.now))) }
{
    places.take(alloc, &row.from, row.brand, &row.value)?;
    places.give(alloc, &row.to, row.brand, &row.value)
}

/// What a movement from Outside issues.
fn issue(supplies: &mut Supplies, alloc: Global, row: &MoveRow) -> Result<(), AllocError>
    requires form { (e : Editions) × HasValueForm e (value_view row.now.value) }
    requires room { (k : List ℕ) → count (out_of supplies.old row.now.brand) k + count (content_of (value_view row.now.value)) k < 2 ^ 128 }
    ensures edition { supplies.new.edition ≡ supplies.old.edition }
    ensures out { OnOk result ((b : ℕ) → out_of supplies.new b ≡ with_issue (move_view row.now) b (out_of supplies.old b)) }
    ensures bounded { OnOk result ((b : ℕ) (kind : Kind) → (b ≡ row.now.brand → IsValueOf kind (value_view row.now.value)) → IsBounded b kind supplies.old → IsBounded b kind supplies.new) }
{
    match &row.from {
        Holder::Outside => supplies.issue(alloc, row.brand, &row.value),
        _ => Ok(()),
    }
}

/// What a movement to Outside retires.
fn retire(supplies: &mut Supplies, alloc: Global, row: &MoveRow) -> Result<(), AllocError>
    requires form { (e : Editions) × HasValueForm e (value_view row.now.value) }
    ensures edition { supplies.new.edition ≡ supplies.old.edition }
    ensures out { OnOk result ((b : ℕ) → out_of supplies.new b ≡ with_retired (move_view row.now) b (out_of supplies.old b)) }
    ensures bounded { OnOk result ((b : ℕ) (kind : Kind) → (b ≡ row.now.brand → IsValueOf kind (value_view row.now.value)) → IsBounded b kind supplies.old → IsBounded b kind supplies.new) }
{
    match &row.to {
        Holder::Outside => supplies.retire(alloc, row.brand, &row.value),
        _ => Ok(()),
    }
}

/// What a movement makes of what is out of its brand.
fn supply(supplies: &mut Supplies, alloc: Global, row: &MoveRow) -> Result<(), AllocError>
    requires form { (e : Editions) × HasValueForm e (value_view row.now.value) }
    requires room { (k : List ℕ) → count (out_of supplies.old row.now.brand) k + count (content_of (value_view row.now.value)) k < 2 ^ 128 }
    ensures edition { supplies.new.edition ≡ supplies.old.edition }
    ensures out { OnOk result ((b : ℕ) → out_of supplies.new b ≡ with_retired (move_view row.now) b (with_issue (move_view row.now) b (out_of supplies.old b))) }
    ensures bounded { OnOk result ((b : ℕ) (kind : Kind) → (b ≡ row.now.brand → IsValueOf kind (value_view row.now.value)) → IsBounded b kind supplies.old → IsBounded b kind supplies.new) }
{
    issue(supplies, alloc, row)?;
    retire(supplies, alloc, row)
}

/// Sees the values of amounts, each of its brand; whether all fit.
fn see(kinds: &mut BrandKinds, amounts: &[KeywordAmount]) -> Result<bool, AllocError>
    requires form { (e : Editions) × AllByRecursion (HasAmountForm e) (map amount_view amounts.now) }
    ensures fits { IfOk result (λ fits. (before : List Named) → TellsKinds kinds.old before → IsTrue fits ↔ HaveKinds (before ++ named_amounts (map amount_view amounts.now))) }
    ensures told { IfOk result (λ fits. IsTrue fits → (before : List Named) → TellsKinds kinds.old before → TellsKinds kinds.new (before ++ named_amounts (map amount_view amounts.now))) }
{
    for amount in amounts {
        if !kinds.add(amount.brand, &amount.value)? {
            return Ok(false);
        }
    }
    Ok(true)
}

impl Rights {
    /// Nothing was told yet.
    pub fn new(alloc: Global, edition: Edition) -> Rights
        ensures edition { result.edition ≡ edition }
        ensures told { (t : Turn) → TellsRights result (after_turn_row nothing_so_far t) }
    {
        let places = Places::new(alloc);
        let supplies = Supplies::new(alloc, edition);
        let kinds = BrandKinds::new(alloc);
        let sums = Sums::new(alloc);
        let payments = Payments::new(alloc);
        Rights {
            alloc,
            edition,
            places,
            supplies,
            kinds,
            sums,
            payments,
        }
    }

    /// A turn begins, behind what its turn row finds told.
    pub fn begin_turn(&mut self) -> Result<(), AllocError>
        ensures edition { self.new.edition ≡ self.old.edition }
        ensures told { OnOk result ((i : InTurn) (s : SoFar) (t : Turn) → TellsRights self.old i → HaveSameRights i.now s → TellsRights self.new (after_turn_row s t)) }
    {
        self.sums.clear_brands();
        self.payments.spend_taken()?;
        Ok(())
    }

    /// Whether of a movement's brand no more is minted with it than may be.
    fn may_mint(&self, row: &MoveRow) -> bool
        requires form { (e : Editions) × HasValueForm e (value_view row.now.value) }
        ensures { IsTrue result ↔ IsMintable self.now (move_view row.now) }
    {
        let minted = self.sums.sum(row.brand).minted;
        let more = match &row.from {
            Holder::Outside => size_of_value(&row.value),
            _ => 0,
        };
        minted <= MOST_MINTED && more <= MOST_MINTED - minted
    }

    /// Whether a movement's value is where it comes from.
    fn is_there(&self, row: &MoveRow) -> Result<bool, AllocError>
        ensures { (e : Editions) → HasValueForm e (value_view row.now.value) → IfOk result (λ there. IsTrue there ↔ IsThere self.now (move_view row.now)) }
    {
        match &row.from {
            Holder::Outside => Ok(true),
            from => self
                .places
                .contains(self.alloc, from, row.brand, &row.value),
        }
    }

    /// Whether a movement passes all tests but that its value is where it comes from.
    fn passes(&self, row: &MoveRow) -> bool
        requires form { (e : Editions) × HasEventForm e (moved (move_view row.now)) }
        ensures { IsTrue result ↔ IsPassed self.now (move_view row.now) }
    {
        let live = self.payments.is_live(&row.from) && self.payments.is_live(&row.to);
        live && self.kinds.fits(row.brand, &row.value) && self.may_mint(row)
    }

    /// Whether a movement can be made here, whatever it is for: it is defined, no more of its brand was ever minted
    /// than may be, it names no payment that a turn before took from, and its value is of its brand's kind.
    pub fn may_move(&self, row: &MoveRow) -> Result<bool, AllocError>
        requires form { (e : Editions) × HasEventForm e (moved (move_view row.now)) }
        ensures { IfOk result (λ may. (i : InTurn) → TellsRights self.now i → IsTrue may ↔ MayMove i (move_view row.now)) }
    {
        if self.passes(row) {
            self.is_there(row)
        } else {
            Ok(false)
        }
    }

    /// A movement is made.
    pub fn moved(&mut self, row: &MoveRow) -> Result<(), AllocError>
        requires form { (e : Editions) × HasEventForm e (moved (move_view row.now)) }
        requires may { (i : InTurn) × TellsRights self.old i × MayMove i (move_view row.now) }
        ensures edition { self.new.edition ≡ self.old.edition }
        ensures told { OnOk result ((i : InTurn) → TellsRights self.old i → MayMove i (move_view row.now) → TellsRights self.new (after_event i (moved (move_view row.now)))) }
    {
        let alloc = self.alloc;
        let count = size_of_value(&row.value);
        carry(&mut self.places, alloc, row)?;
        supply(&mut self.supplies, alloc, row)?;
        self.sums.moved(row.brand, &row.from, &row.to, count)?;
        self.kinds.add(row.brand, &row.value)?;
        self.payments.moved(&row.from, &row.to)?;
        Ok(())
    }

    /// Whether a holder has the value of the brand.
    pub fn has(&self, holder: &Holder, brand: u16, value: &PrintedValue) -> Result<bool, AllocError>
        ensures { (e : Editions) → HasValueForm e (value_view value.now) → IfOk result (λ has. (i : InTurn) → TellsRights self.now i → IsTrue has ↔ Contains (holds i.now.table holder.now brand) (content_of (value_view value.now))) }
    {
        self.places.contains(self.alloc, holder, brand, value)
    }

    /// Whether the value is all that a holder has of the brand, which a value in form prints.
    pub fn is_all(
        &self,
        holder: &Holder,
        brand: u16,
        value: &PrintedValue,
    ) -> Result<bool, AllocError>
        ensures all { (e : Editions) → HasValueForm e (value_view value.now) → IfOk result (λ is. (i : InTurn) → TellsRights self.now i → IsTrue is ↔ (holds i.now.table holder.now brand ≡ content_of (value_view value.now))) }
        ensures printed { (e : Editions) → HasValueForm e (value_view value.now) → IfOk result (λ is. (i : InTurn) → TellsRights self.now i → IsTrue is ↔ IsPrinted (holds i.now.table holder.now brand) (value_view value.now)) }
    {
        self.places.is_all(self.alloc, holder, brand, value)
    }

    /// What a holder has of the brand.
    pub fn contents(&self, holder: &Holder, brand: u16) -> Result<Contents, AllocError>
        ensures { IfOk result (λ c. (i : InTurn) → TellsRights self.now i → c ≡ holds i.now.table holder.now brand) }
    {
        self.places.contents(self.alloc, holder, brand)
    }

    /// Whether no movement has named the payment.
    pub fn is_new(&self, payment: u32) -> bool
        ensures { (i : InTurn) → TellsRights self.now i → IsTrue result ↔ (names payment i.now.moves ≡ false) }
    {
        self.payments.is_new(payment)
    }

    /// A seat is opened with these amounts: whether each is of its brand's kind. Where one isn't, nothing is said of
    /// what is kept.
    pub fn opened(&mut self, row: &OpenRow) -> Result<bool, AllocError>
        requires form { (e : Editions) × HasEventForm e (opened (open_view row.now)) }
        ensures edition { self.new.edition ≡ self.old.edition }
        ensures fits { IfOk result (λ fits. (i : InTurn) → TellsRights self.old i → IsTrue fits ↔ HaveKinds (with_row i.now (opened (open_view row.now))).amounts) }
        ensures told { IfOk result (λ fits. IsTrue fits → (i : InTurn) → TellsRights self.old i → TellsRights self.new (after_event i (opened (open_view row.now)))) }
    {
        let given = see(&mut self.kinds, &row.give)?;
        if !given {
            return Ok(false);
        }
        let wanted = see(&mut self.kinds, &row.want)?;
        Ok(wanted)
    }

    /// Whether the turn may end as far as rights go: each brand balances, and payments that were taken from are empty.
    pub fn may_end(&self) -> bool
        ensures { (i : InTurn) → TellsRights self.now i → IsTrue result ↔ (IsBalanced self.now.edition i.now × AreEmptied i) }
    {
        self.places.is_hand_empty()
            && self.supplies.are_within()
            && self.payments.are_emptied(&self.places)
    }

    /// The sum that is due behind so many that were told.
    pub fn due_sum(&self, told: usize) -> Option<Sum>
        ensures { (i : InTurn) → TellsRights self.now i → result ≡ slice_get (sums_due i) told }
    {
        self.sums.due(told)
    }
}
