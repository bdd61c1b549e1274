//! What rows tell of seats, as far as further rows need it: how each was opened, its slots, what these had when it
//! exited and why it did, the movements that are due, and which seats the turn may have left uncovered.

ghost use Rattle.std.specs.Prelude.{◌≡◌, ◌≢◌, ◌↔◌, ◌++◌, ◌∷◌, ℕ, List, [], None, Some, IfOk, IsTrue, OnOk, map, option_map, slice_get, slice_set};
ghost use Rattle.std.specs.Option.{option_copied};
ghost use Rattle.row_records.specs.Views.{exit_view, move_view, open_view, payout_view, turn_view, value_view};
ghost use Rattle.row_records.specs.turn_records.Views.{cause_view};
ghost use Rattle.row_records.specs.fair_rows.Amounts.{IsOfExit, moved_at_exit};
ghost use Rattle.row_records.specs.fair_rows.Rows.{FollowsKit, InTurn, IsInPlace, IsOpenSlot, after_event, is_offer};
ghost use Rattle.row_records.specs.fair_rows.Seats.{IsOpen, Seat as Told};
ghost use Rattle.row_records.specs.fair_rows.SoFar.{SoFar, nothing_so_far};
ghost use Rattle.row_records.specs.fair_rows.Turns.{HasFirstCause, after_turn_row};
ghost use Rattle.row_records.specs.rights_model.declared.Holder.TheVariants.{Slot};
ghost use Rattle.row_records.specs.turn_rows.Form.{HasEventForm, HasValueForm};
ghost use Rattle.row_records.specs.turn_rows.Turns.{exited, moved, opened};
ghost use Rattle.row_records.specs.turn_rows.declared.editions.Edition.{Edition as Editions};
ghost use Rattle.told_rights.specs.Rights.{TellsRights};
ghost use Rattle.told_seats.specs.SeatSteps.{Adds, AreNamed, AreNew, ArePaid, EachBecomes, Expects, HasPayouts, IsSafeAt, Leaves, MayName, Names, NamesSlot};
ghost use Rattle.told_seats.specs.SlotViews.{IsLastOf, slots_view};
ghost use Rattle.told_seats.specs.ToldSeats.{AreSafe, TellsEach, TellsSeats, TellsSeatsBefore, causes_of};

use crate::covered::is_covered_by;
use crate::dues::{Due, contents_of, escrows_due, is_due_move, payment_under, payouts_due};
use crate::printed::is_nothing;
use crate::slots::{SlotName, add_slot, brand_under, content_under, new_slots};
use row_records::host_text_lib::keyword::Keyword;
use row_records::rows::{
    Answer, ExitRow, KeywordAmount, Kind, MoveRow, OpenRow, PrintedValue, TurnRow,
};
use row_records::turn_records_lib::events::{Cause, Payout};
use row_records::turn_rows_lib::rights_model_lib::Holder;
use std::alloc::{AllocError, Global};
use std::collections::{BTreeSet, VecDeque};
use told_rights::contents::Contents;
use told_rights::rights::Rights;

/// What an open seat gives and wants.
#[derive(Drop)]
pub struct Promised {
    pub give: Vec<KeywordAmount>,
    pub want: Vec<KeywordAmount>,
}

/// A seat is open, or it exited with these contents of its slots, for this cause.
pub enum Stage {
    Open(Promised),
    Exited(Vec<Contents>, Cause),
}

impl Drop for Stage {
    fn drop(self) {
        match self {
            Stage::Open(_) => {}
            Stage::Exited(_, _) => {}
        }
    }
}

#[derive(Drop)]
pub struct Seat {
    pub instance: u32,
    pub slots: Vec<SlotName>,
    pub stage: Stage,
}

/// What is kept of seats.
#[derive(Drop)]
pub struct Seats {
    pub alloc: Global,
    /// By number.
    pub seats: Vec<Seat>,
    /// The seats that the turn opened, and those of which a movement of it named a slot.
    pub touched: BTreeSet<u32>,
    pub due: VecDeque<Due>,
    /// The turn is an offer that was answered.
    pub offer: bool,
}

/// Whether a turn is an offer that was answered.
fn is_offer(row: &TurnRow) -> bool
    ensures { result ≡ is_offer (turn_view row.now) }
{
    match (row.kind, &row.answer) {
        (Kind::Service, Answer::Given(_)) => {
            row.on.as_str() == "zoe" && row.method.as_str() == "offer"
        }
        _ => false,
    }
}

/// Whether a seat gives and wants nothing.
fn is_empty(row: &OpenRow) -> bool
    ensures { IsTrue result ↔ (row.now.give.items ≡ []) × (row.now.want.items ≡ []) }
{
    row.give.is_empty() && row.want.is_empty()
}

/// A slot of the seat is named.
fn name_slot(
    alloc: Global,
    seat: &mut Seat,
    number: u32,
    keyword: &Keyword,
    brand: u16,
) -> Result<(), AllocError>
    ensures { OnOk result (NamesSlot (Slot number keyword.now) brand number seat.old seat.new) }
{
    add_slot(alloc, &mut seat.slots, keyword, brand)
}

/// A slot of the seat of a number is named, where there is one.
fn name_at(
    alloc: Global,
    seats: &mut Vec<Seat>,
    number: u32,
    keyword: &Keyword,
    brand: u16,
) -> Result<(), AllocError>
    ensures { OnOk result (EachBecomes (NamesSlot (Slot number keyword.now) brand) seats.old.items seats.new.items) }
{
    match seats.get_mut(number as usize) {
        Some(seat) => name_slot(alloc, seat, number, keyword, brand),
        None => Ok(()),
    }
}

/// The seat of a number comes to a stage, where there is one.
fn set_stage(seats: &mut Vec<Seat>, number: u32, stage: Stage)
    ensures { EachBecomes (Leaves number stage) seats.old.items seats.new.items }
{
    if let Some(seat) = seats.get_mut(number as usize) {
        seat.stage = stage;
    }
}

/// Whether a payment stands for each slot.
fn are_named(slots: &[SlotName], payouts: &[Payout]) -> bool
    ensures { IsTrue result ↔ AreNamed (map payout_view payouts.now) (slots_view slots.now) }
{
    for slot in slots {
        match payment_under(payouts, &slot.keyword) {
            Some(_) => {}
            None => return false,
        }
    }
    true
}

/// Whether no movement has named the payments.
fn are_new(rights: &Rights, payouts: &[Payout]) -> bool
    ensures { (i : InTurn) → TellsRights rights.now i → IsTrue result ↔ AreNew i.now.moves (map payout_view payouts.now) }
{
    for payout in payouts {
        if !rights.is_new(payout.payment) {
            return false;
        }
    }
    true
}

/// Whether a new payment stands for each slot.
fn are_paid(rights: &Rights, slots: &[SlotName], payouts: &[Payout]) -> bool
    ensures { (i : InTurn) → TellsRights rights.now i → IsTrue result ↔ ArePaid i.now.moves (map payout_view payouts.now) (slots_view slots.now) }
{
    if payouts.len() != slots.len() {
        return false;
    }
    if !are_named(slots, payouts) {
        return false;
    }
    are_new(rights, payouts)
}

impl Seats {
    /// Nothing was told yet.
    pub fn new(alloc: Global) -> Seats
        ensures told { TellsSeatsBefore result nothing_so_far }
        ensures causes { causes_of result ≡ [] }
    {
        Seats {
            alloc,
            seats: Vec::new(alloc),
            touched: BTreeSet::new(alloc),
            due: VecDeque::new(alloc),
            offer: false,
        }
    }

    /// A turn begins.
    pub fn begin_turn(&mut self, row: &TurnRow)
        ensures told { (s : SoFar) → TellsSeatsBefore self.old s → TellsSeats self.new (after_turn_row s (turn_view row.now)) }
        ensures causes { causes_of self.new ≡ causes_of self.old }
    {
        self.touched.clear();
        self.offer = is_offer(row);
    }

    /// Whether a movement is due.
    pub fn is_due(&self) -> bool
        ensures { (i : InTurn) → TellsSeats self.now i → IsTrue result ↔ (i.due ≢ []) }
    {
        !self.due.is_empty()
    }

    /// The seat of a number, if there is one.
    fn seat(&self, number: u32) -> Option<&Seat>
        ensures { option_copied result ≡ slice_get self.now.seats.items number }
    {
        self.seats.get(number as usize)
    }

    /// The movement that is due next.
    fn next_due(&self) -> Option<&Due>
        ensures { option_copied result ≡ slice_get self.now.due.items 0 }
    {
        self.due.front()
    }

    // ---- openings

    /// Whether a seat may be opened here; `follows` says whether a kit's call row stands right before.
    pub fn may_open(&self, row: &OpenRow, follows: bool) -> bool
        ensures { (e : Editions) → HasEventForm e (opened (open_view row.now)) → (i : InTurn) → TellsSeats self.now i → (IsTrue follows ↔ FollowsKit i.here) → IsTrue result ↔ IsInPlace i.due i (opened (open_view row.now)) }
    {
        if self.is_due() {
            return false;
        }
        if row.seat as usize != self.seats.len() {
            return false;
        }
        if follows { is_empty(row) } else { self.offer }
    }

    /// What is due after an open row.
    fn expect(&mut self, row: &OpenRow) -> Result<(), AllocError>
        ensures { OnOk result (Expects (open_view row.now) self.old self.new) }
    {
        if self.offer {
            self.due = escrows_due(self.alloc, row.seat, row.give.as_slice())?;
        }
        Ok(())
    }

    /// A seat more.
    fn add(&mut self, row: OpenRow) -> Result<(), AllocError>
        ensures { OnOk result (Adds row self.old self.new) }
    {
        let slots = new_slots(self.alloc, row.give.as_slice(), row.want.as_slice())?;
        let OpenRow {
            seat: _,
            instance,
            give,
            want,
            exit: _,
        } = row;
        let stage = Stage::Open(Promised { give, want });
        match self.seats.push(Seat {
            instance,
            slots,
            stage,
        }) {
            Ok(()) => Ok(()),
            Err(_) => Err(AllocError),
        }
    }

    /// A seat is opened.
    pub fn opened(&mut self, row: OpenRow) -> Result<(), AllocError>
        ensures told { OnOk result ((e : Editions) → HasEventForm e (opened (open_view row)) → (i : InTurn) → TellsSeats self.old i → IsInPlace i.due i (opened (open_view row)) → TellsSeats self.new (after_event i (opened (open_view row)))) }
        ensures causes { OnOk result (causes_of self.new ≡ causes_of self.old ++ None ∷ []) }
    {
        self.expect(&row)?;
        self.touched.insert(row.seat)?;
        self.add(row)
    }

    // ---- movements

    /// Whether the keyword may be a slot of the seat in the brand: it is open, and the slot is of no other brand.
    fn is_open_slot(&self, seat: u32, keyword: &Keyword, brand: u16) -> bool
        ensures { (seats : List Told) → TellsEach self.now.seats.items seats → IsTrue result ↔ IsOpenSlot seats seat keyword.now brand }
    {
        let Some(seat) = self.seat(seat) else {
            return false;
        };
        match &seat.stage {
            Stage::Open(_) => match brand_under(seat.slots.as_slice(), keyword) {
                Some(found) => found == brand,
                None => true,
            },
            Stage::Exited(_, _) => false,
        }
    }

    /// Whether a movement may name the holder.
    fn may_name(&self, holder: &Holder, brand: u16) -> bool
        ensures { (seats : List Told) → TellsEach self.now.seats.items seats → IsTrue result ↔ MayName seats holder.now brand }
    {
        match holder {
            Holder::Slot(seat, keyword) => self.is_open_slot(*seat, keyword, brand),
            _ => true,
        }
    }

    /// Whether a movement is the one that is due; where none is, whether it names slots of open seats alone, in their
    /// brands.
    pub fn may_move(&self, rights: &Rights, row: &MoveRow) -> bool
        ensures { (e : Editions) → HasEventForm e (moved (move_view row.now)) → (i : InTurn) → TellsSeats self.now i → TellsRights rights.now i → IsTrue result ↔ IsInPlace i.due i (moved (move_view row.now)) }
    {
        match self.next_due() {
            Some(due) => is_due_move(rights, due, row),
            None => self.may_name(&row.from, row.brand) && self.may_name(&row.to, row.brand),
        }
    }

    /// A movement names the holder.
    fn name(&mut self, holder: &Holder, brand: u16) -> Result<(), AllocError>
        ensures { OnOk result (Names holder.now brand self.old self.new) }
    {
        match holder {
            Holder::Slot(number, keyword) => {
                self.touched.insert(*number)?;
                name_at(self.alloc, &mut self.seats, *number, keyword, brand)
            }
            _ => Ok(()),
        }
    }

    /// A movement is made.
    pub fn moved(&mut self, row: &MoveRow) -> Result<(), AllocError>
        ensures told { OnOk result ((i : InTurn) → TellsSeats self.old i → TellsSeats self.new (after_event i (moved (move_view row.now)))) }
        ensures causes { OnOk result (causes_of self.new ≡ causes_of self.old) }
    {
        self.due.pop_front();
        self.name(&row.from, row.brand)?;
        self.name(&row.to, row.brand)
    }

    // ---- exits and safety

    /// Whether the seat is open, and a new payment stands for each of its slots.
    fn are_payouts(&self, rights: &Rights, row: &ExitRow) -> bool
        ensures { (i : InTurn) → TellsEach self.now.seats.items i.now.seats → TellsRights rights.now i → IsTrue result ↔ HasPayouts i (exit_view row.now) }
    {
        let Some(seat) = self.seat(row.seat) else {
            return false;
        };
        match &seat.stage {
            Stage::Open(_) => are_paid(rights, seat.slots.as_slice(), row.payouts.as_slice()),
            Stage::Exited(_, _) => false,
        }
    }

    /// Whether a seat is covered if it is open.
    fn is_safe(&self, rights: &Rights, number: u32) -> Result<bool, AllocError>
        ensures { IfOk result (λ is. (i : InTurn) → TellsEach self.now.seats.items i.now.seats → TellsRights rights.now i → IsTrue is ↔ IsSafeAt i.now.seats i.now.table number) }
    {
        let Some(seat) = self.seat(number) else {
            return Ok(true);
        };
        match &seat.stage {
            Stage::Open(promised) => is_covered_by(self.alloc, rights, number, promised),
            Stage::Exited(_, _) => Ok(true),
        }
    }

    /// Whether a seat may exit here; `caused` says, of an open seat, whether what the rows so far show first is the
    /// row's cause.
    pub fn may_exit(&self, rights: &Rights, row: &ExitRow, caused: bool) -> Result<bool, AllocError>
        ensures { IfOk result (λ may. (i : InTurn) → TellsSeats self.now i → TellsRights rights.now i → (IsOpen i.now.seats row.now.seat → IsTrue caused ↔ HasFirstCause i.now.seats i.before.owners i.row i.here (exit_view row.now)) → IsTrue may ↔ IsInPlace i.due i (exited (exit_view row.now))) }
    {
        if self.is_due() {
            return Ok(false);
        }
        if !self.are_payouts(rights, row) {
            return Ok(false);
        }
        if !caused {
            return Ok(false);
        }
        self.is_safe(rights, row.seat)
    }

    /// A seat exits.
    pub fn exited(&mut self, rights: &Rights, row: &ExitRow) -> Result<(), AllocError>
        ensures told { OnOk result ((i : InTurn) → TellsSeats self.old i → TellsRights rights.now i → IsInPlace i.due i (exited (exit_view row.now)) → TellsSeats self.new (after_event i (exited (exit_view row.now)))) }
        ensures causes { OnOk result (causes_of self.new ≡ slice_set (causes_of self.old) row.now.seat (Some (cause_view row.now.cause))) }
    {
        let Some(seat) = self.seat(row.seat) else {
            return Ok(());
        };
        let contents = contents_of(self.alloc, rights, row.seat, seat.slots.as_slice())?;
        self.due = payouts_due(self.alloc, rights, row, seat.slots.as_slice())?;
        set_stage(
            &mut self.seats,
            row.seat,
            Stage::Exited(contents, row.cause),
        );
        Ok(())
    }

    /// Whether every open seat is covered.
    pub fn are_safe(&self, rights: &Rights) -> Result<bool, AllocError>
        ensures { IfOk result (λ are. (i : InTurn) → TellsSeats self.now i → TellsRights rights.now i → IsTrue are ↔ AreSafe i.now.seats i.now.table) }
    {
        for number in &self.touched {
            if !self.is_safe(rights, *number)? {
                return Ok(false);
            }
        }
        Ok(true)
    }

    // ---- what is read of seats

    /// The instance of a seat, if there is one of the number.
    pub fn instance(&self, number: u32) -> Option<u32>
        ensures { (seats : List Told) → TellsEach self.now.seats.items seats → result ≡ option_map (λ (s : Told). s.opening.instance) (slice_get seats number) }
    {
        match self.seat(number) {
            Some(seat) => Some(seat.instance),
            None => None,
        }
    }

    /// What a seat had in the slot of a keyword and a brand when it exited, if there was such a slot.
    fn last_of(&self, number: u32, keyword: &str, brand: u16) -> Option<&Contents>
        ensures { (seats : List Told) → TellsEach self.now.seats.items seats → IsLastOf result (moved_at_exit seats number keyword.now brand) }
    {
        let Some(seat) = self.seat(number) else {
            return None;
        };
        match &seat.stage {
            Stage::Open(_) => None,
            Stage::Exited(contents, _) => {
                content_under(seat.slots.as_slice(), contents.as_slice(), keyword, brand)
            }
        }
    }

    /// Whether a value is what the exit of a seat moved from the slot of a keyword, in the brand: it is nothing where
    /// there was no such slot.
    pub fn is_of_exit(&self, number: u32, keyword: &str, brand: u16, value: &PrintedValue) -> bool
        ensures { (e : Editions) → HasValueForm e (value_view value.now) → (seats : List Told) → TellsEach self.now.seats.items seats → IsTrue result ↔ IsOfExit seats number keyword.now brand (value_view value.now) }
    {
        match self.last_of(number, keyword, brand) {
            Some(contents) => contents.is(value),
            None => is_nothing(value),
        }
    }
}
