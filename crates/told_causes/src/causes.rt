//! Why seats exit, as the rows of a turn show it: what is kept of it, so that each exit's first cause is known.

ghost use Rattle.std.specs.Prelude.{◌≡◌, ◌↔◌, ◌<◌, ℕ, ◌&&◌, codes, length, IfSome, IsNone, IsTrue, OnOk};
ghost use Rattle.std.specs.Str.{bytes_eq};
ghost use Rattle.serde_json.specs.Data.{Data};
ghost use Rattle.row_records.specs.Views.{answer_view, call_view, exit_view, kind_view, open_view, turn_view};
ghost use Rattle.row_records.specs.fair_rows.ExitCauses.{Owners, cause_by_row, instance_of, is_call, is_ok, name};
ghost use Rattle.row_records.specs.fair_rows.Rows.{InTurn, after_event, is_offer as is_offer_turn};
ghost use Rattle.row_records.specs.fair_rows.Seats.{IsOpen};
ghost use Rattle.row_records.specs.fair_rows.SoFar.{SoFar, nothing_so_far};
ghost use Rattle.row_records.specs.fair_rows.Turns.{HasFirstCause, after_turn_row};
ghost use Rattle.row_records.specs.journal_rows.Reading.{told_after};
ghost use Rattle.row_records.specs.journal_rows.Row.{IsTurnRow};
ghost use Rattle.row_records.specs.turn_rows.Form.{HasCallForm, HasOpeningForm, IsNumbered, objects_end};
ghost use Rattle.row_records.specs.turn_rows.Turns.{Event, ok, threw, called, exited, opened};
ghost use Rattle.row_records.specs.turn_rows.declared.editions.Edition.{Edition};
ghost use Rattle.told_causes.specs.ToldCauses.{AreCaused, IsKitCall, IsNoDeed, IsShownBy, TellsCauses, TellsCausesBefore, shown_of};
ghost use Rattle.told_causes.specs.ToldFacets.{is_number, owner_name};

use crate::facets::{Facets, number_in};
use crate::standings::{Shows, Standings, is_same};
use row_records::rows::{Answer, CallRow, ExitRow, Kind, OpenRow, TurnRow};
use row_records::turn_records_lib::events::{Cause, How};
use std::alloc::{AllocError, Global};

/// Whether it is a call of an object that was answered.
fn is_answered(call: &CallRow) -> bool
    ensures { result ≡ (is_call (call_view call.now).how && is_ok (call_view call.now).answer) }
{
    let How::Call = call.how else {
        return false;
    };
    match &call.answer {
        Answer::Given(_) => true,
        Answer::Refused(_, _) | Answer::Threw(_) | Answer::Spent(_) => false,
    }
}

/// Whether the call names the method.
fn is_method(call: &CallRow, method: &str) -> bool
    ensures { result ≡ bytes_eq (call_view call.now).method method.now }
{
    call.method.as_str() == method
}

/// The number of the object on which the call is, where the word is its.
fn number_called(word: &str, call: &CallRow) -> Option<u32>
    ensures some { IfSome result (λ n. (call_view call.now).on ≡ name word.now n) }
    ensures none { IsNone result → ¬ IsNumbered word.now objects_end (call_view call.now).on }
    ensures tests { (n : ℕ) → n < objects_end → bytes_eq (call_view call.now).on (name word.now n) ≡ is_number result n }
{
    number_in(word, call.on.as_str())
}

/// What a call shows.
fn shown_by_call(call: &CallRow) -> Shows
    ensures { IsShownBy result (call_view call.now) }
{
    if !is_answered(call) {
        return Shows::Nothing;
    }
    if is_method(call, "exit") {
        return Shows::of_seat(number_called("zseat", call), Cause::Exit);
    }
    if is_method(call, "fail") {
        return Shows::of_seat(number_called("zseat", call), Cause::Fail);
    }
    let shuts = is_method(call, "shutdown");
    let fails = is_method(call, "shutdownWithFailure");
    if shuts || fails {
        return Shows::of_instance(number_called("zcf", call), Cause::Halted);
    }
    Shows::Nothing
}

/// Whether it is an answered call of makeEmptySeatKit.
fn is_kit_call(call: &CallRow) -> bool
    requires form { HasCallForm (call_view call.now) }
    ensures { IsTrue result ↔ IsKitCall (call_view call.now) }
{
    if !is_answered(call) {
        return false;
    }
    if !is_method(call, "makeEmptySeatKit") {
        return false;
    }
    number_called("zcf", call).is_some()
}

/// The number of the object on which the turn is, where the word is its.
fn number_on(word: &str, row: &TurnRow) -> Option<u32>
    ensures { (n : ℕ) → n < objects_end → bytes_eq (turn_view row.now).on (name word.now n) ≡ is_number result n }
{
    number_in(word, row.on.as_str())
}

/// Whether the turn is a request that a seat exits.
fn is_request(row: &TurnRow) -> bool
    ensures { result ≡ bytes_eq (turn_view row.now).method (codes "tryExit") }
{
    row.method.as_str() == "tryExit"
}

/// What a turn row shows that was answered.
fn shown_by_answer(row: &TurnRow) -> Shows
    ensures { (os : Owners) (d : Data) → (row.now.kind ≡ Kind.Deadline → ⊥) → answer_view row.now.answer ≡ ok d → (m n : ℕ) → n < objects_end → shown_of result m n ≡ cause_by_row (kind_view row.now.kind) (ok d) os (turn_view row.now) m n }
{
    match row.kind {
        Kind::Service => {
            if is_request(row) {
                Shows::of_seat(number_on("seat", row), Cause::Asked)
            } else {
                Shows::Nothing
            }
        }
        _ => Shows::Nothing,
    }
}

/// What a turn row shows that threw.
fn shown_by_throw(row: &TurnRow, instance: Option<u32>) -> Shows
    ensures { (os : Owners) (d : Data) → (row.now.kind ≡ Kind.Deadline → ⊥) → owner_name instance ≡ instance_of os (kind_view row.now.kind) (turn_view row.now) → (m n : ℕ) → m < objects_end → n < objects_end → shown_of result m n ≡ cause_by_row (kind_view row.now.kind) (threw d) os (turn_view row.now) m n }
{
    match row.kind {
        Kind::Handler => Shows::of_seat(number_on("zseat", row), Cause::Threw),
        Kind::Start => Shows::of_instance(instance, Cause::Halted),
        _ => Shows::Nothing,
    }
}

/// What a turn row shows, of a turn of the instance.
fn shown_by_row(row: &TurnRow, instance: Option<u32>) -> Shows
    ensures { (os : Owners) → owner_name instance ≡ instance_of os (kind_view row.now.kind) (turn_view row.now) → (m n : ℕ) → m < objects_end → n < objects_end → shown_of result m n ≡ cause_by_row (kind_view row.now.kind) (answer_view row.now.answer) os (turn_view row.now) m n }
{
    if let Kind::Deadline = row.kind {
        return Shows::of_seat(number_on("seat", row), Cause::Deadline);
    }
    match &row.answer {
        Answer::Given(_) => shown_by_answer(row),
        Answer::Refused(_, _) => Shows::Nothing,
        Answer::Threw(_) => shown_by_throw(row, instance),
        Answer::Spent(_) => Shows::of_instance(instance, Cause::Spent),
    }
}

/// Whether a turn is an offer that was answered.
fn is_offer(row: &TurnRow) -> bool
    ensures { result ≡ is_offer_turn (turn_view row.now) }
{
    let Kind::Service = row.kind else {
        return false;
    };
    let Answer::Given(_) = &row.answer else {
        return false;
    };
    row.on.as_str() == "zoe" && row.method.as_str() == "offer"
}

/// What is kept of why seats exit.
#[derive(Drop)]
pub struct Causes {
    pub(crate) standings: Standings,
    pub(crate) facets: Facets,
    /// The instance of the turn, and what its row shows.
    pub(crate) instance: Option<u32>,
    pub(crate) shows: Shows,
    /// The turn is an offer that was answered.
    pub is_offer: bool,
    /// The last row is an answered call of makeEmptySeatKit.
    pub follows_kit: bool,
}

impl Causes {
    /// No seats.
    pub fn new(alloc: Global) -> Causes
        ensures { TellsCausesBefore result nothing_so_far }
    {
        Causes {
            standings: Standings::new(alloc),
            facets: Facets::new(alloc),
            instance: None,
            shows: Shows::Nothing,
            is_offer: false,
            follows_kit: false,
        }
    }

    /// A turn begins.
    pub fn begin_turn(&mut self, row: &TurnRow)
        requires form { IsTurnRow (turn_view row.now) }
        ensures { (s : SoFar) → TellsCausesBefore self.old s → TellsCauses self.new (after_turn_row s (turn_view row.now)) }
    {
        let instance = self.facets.instance_of(row);
        self.shows = shown_by_row(row, instance);
        self.instance = instance;
        self.is_offer = is_offer(row);
        self.follows_kit = false;
        self.standings.begin_turn();
    }

    /// A call row.
    pub fn called(&mut self, call: &CallRow) -> Result<(), AllocError>
        requires form { HasCallForm (call_view call.now) }
        ensures { OnOk result ((i : InTurn) → TellsCauses self.old i → TellsCauses self.new (after_event i (called (call_view call.now)))) }
    {
        self.follows_kit = is_kit_call(call);
        self.facets.called(call, self.instance)?;
        match shown_by_call(call) {
            Shows::Nothing => Ok(()),
            Shows::OfSeat(seat, cause) => self.standings.show(seat, cause),
            Shows::OfInstance(instance, cause) => self.standings.halt(instance, cause),
        }
    }

    /// An open row of the next seat.
    pub fn opened(&mut self, row: &OpenRow) -> Result<(), AllocError>
        requires form { (e : Edition) × HasOpeningForm e (open_view row.now) }
        ensures { OnOk result ((i : InTurn) → TellsCauses self.old i → row.now.seat ≡ length i.now.seats → TellsCauses self.new (after_event i (opened (open_view row.now)))) }
    {
        self.follows_kit = false;
        self.standings.opened(row.seat, row.instance)
    }

    /// A movement or a settlement.
    pub fn passed(&mut self)
        ensures { (i : InTurn) (e : Event) → IsNoDeed e → TellsCauses self.old i → TellsCauses self.new (after_event i e) }
    {
        self.follows_kit = false;
    }

    /// Whether an exit row of an open seat has the first cause that the rows so far show.
    pub fn is_first_cause(&self, row: &ExitRow) -> bool
        ensures { (i : InTurn) → TellsCauses self.now i → IsOpen i.now.seats row.now.seat → IsTrue result ↔ HasFirstCause i.now.seats i.before.owners i.row i.here (exit_view row.now) }
    {
        match self.standings.first_cause(row.seat, self.shows) {
            Some(cause) => is_same(cause, row.cause),
            None => false,
        }
    }

    /// An exit row of an open seat, with the first cause that the rows so far show.
    pub fn exited(&mut self, row: &ExitRow) -> Result<(), AllocError>
        ensures { OnOk result ((i : InTurn) → TellsCauses self.old i → IsOpen i.now.seats row.now.seat → HasFirstCause i.now.seats i.before.owners i.row i.here (exit_view row.now) → TellsCauses self.new (after_event i (exited (exit_view row.now)))) }
    {
        self.follows_kit = false;
        self.standings.exited(row.seat, row.cause)
    }

    /// Whether no cause was shown for an open seat, and each seat that exited in the turn did so for the first cause.
    pub fn may_end(&self) -> bool
        ensures decides { (i : InTurn) → TellsCauses self.now i → IsTrue result ↔ AreCaused i }
        ensures told { IsTrue result → (i : InTurn) → TellsCauses self.now i → TellsCausesBefore self.now (told_after i) }
    {
        self.standings.may_end(self.shows)
    }
}
