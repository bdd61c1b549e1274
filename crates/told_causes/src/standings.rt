//! How the seats of a turn stand: which wait, open and with no cause shown, and what was shown of the others.

ghost use Rattle.std.specs.Prelude.{◌≡◌, ◌↔◌, ◌<◌, ℕ, [], Some, None, true, false, length, IfNone, IfSome, IsTrue, OnOk};
ghost use Rattle.std.specs.BTreeSet as set;
ghost use Rattle.std.specs.List.{slice_get};
ghost use Rattle.std.specs.Option.{option_map};
ghost use Rattle.row_records.specs.fair_rows.ExitCauses.{cause_if, first_cause};
ghost use Rattle.row_records.specs.fair_rows.Rows.{InTurn, after_event};
ghost use Rattle.row_records.specs.fair_rows.Seats.{IsOpen};
ghost use Rattle.row_records.specs.fair_rows.SoFar.{SoFar};
ghost use Rattle.row_records.specs.fair_rows.Turns.{HasFirstCause, after_turn_row};
ghost use Rattle.row_records.specs.turn_records.Views.{cause_view};
ghost use Rattle.row_records.specs.turn_rows.Turns.{Call, Opening, SeatExit, Turn, called, exited, opened};
ghost use Rattle.told_causes.specs.ToldCauses.{AreCaused, IsShownBy, IsShownByRow, TellsStandings, TellsStandingsBefore, shown_of, shown_own, standing_at, waits};
ghost use Rattle.told_causes.specs.ToldFacets.{is_number};
ghost use Rattle.told_causes.specs.StandingSteps.{AreSettled, IsListed, IsPut, IsSettled, IsStopped, IsUnlisted, ShowsWaiting, shown_in, waits_own};

use row_records::turn_records_lib::events::Cause;
use std::alloc::{AllocError, Global};
use std::collections::{BTreeMap, BTreeSet};

/// Whether both are one cause.
pub fn is_same(cause: Cause, other: Cause) -> bool
    ensures { IsTrue result ↔ (cause ≡ other) }
{
    match cause {
        Cause::Asked => matches!(other, Cause::Asked),
        Cause::Deadline => matches!(other, Cause::Deadline),
        Cause::Exit => matches!(other, Cause::Exit),
        Cause::Fail => matches!(other, Cause::Fail),
        Cause::Threw => matches!(other, Cause::Threw),
        Cause::Halted => matches!(other, Cause::Halted),
        Cause::Spent => matches!(other, Cause::Spent),
    }
}

/// What a row shows: a cause for a seat, or one for all seats of an instance.
#[derive(Clone, Copy)]
pub enum Shows {
    Nothing,
    OfSeat(u32, Cause),
    OfInstance(u32, Cause),
}

impl Shows {
    pub(crate) fn of_seat(seat: Option<u32>, cause: Cause) -> Shows
        ensures own { (n : ℕ) → shown_own result n ≡ cause_if (is_number seat n) (cause_view cause) }
        ensures all { (instance n : ℕ) → shown_of result instance n ≡ cause_if (is_number seat n) (cause_view cause) }
    {
        match seat {
            Some(seat) => Shows::OfSeat(seat, cause),
            None => Shows::Nothing,
        }
    }

    pub(crate) fn of_instance(instance: Option<u32>, cause: Cause) -> Shows
        ensures own { (n : ℕ) → shown_own result n ≡ None }
        ensures all { (m n : ℕ) → shown_of result m n ≡ cause_if (is_number instance m) (cause_view cause) }
    {
        match instance {
            Some(instance) => Shows::OfInstance(instance, cause),
            None => Shows::Nothing,
        }
    }

    /// The cause that is shown for a seat of an instance.
    fn of(self, instance: u32, seat: u32) -> Option<Cause>
        ensures { option_map cause_view result ≡ shown_of self instance seat }
    {
        match self {
            Shows::OfSeat(shown, cause) if shown == seat => Some(cause),
            Shows::OfInstance(shown, cause) if shown == instance => Some(cause),
            _ => None,
        }
    }
}

/// What a turn has shown of a seat: the first cause that calls showed, and that of its exit row.
#[derive(Clone, Copy)]
pub struct Standing {
    pub shown: Option<Cause>,
    pub left: Option<Cause>,
}

impl Standing {
    /// The seat has exited, and if calls showed a cause then for that one.
    fn is_settled(self) -> bool
        ensures { IsTrue result ↔ IsSettled self }
    {
        match (self.left, self.shown) {
            (Some(left), Some(shown)) => is_same(left, shown),
            (Some(_), None) => true,
            (None, _) => false,
        }
    }
}

/// How the seats of a turn stand.
#[derive(Drop)]
pub struct Standings {
    /// The instance of each seat.
    pub(crate) instances: Vec<u32>,
    /// Open seats, each behind its instance, for which no call of the turn has shown a cause.
    pub(crate) waiting: BTreeSet<(u32, u32)>,
    /// Seats that were open in the turn and don't wait.
    pub(crate) standings: BTreeMap<u32, Standing>,
}

impl Standings {
    /// No seats.
    pub fn new(alloc: Global) -> Standings
        ensures { TellsStandingsBefore result [] }
    {
        Standings {
            instances: Vec::new(alloc),
            waiting: BTreeSet::new(alloc),
            standings: BTreeMap::new(alloc),
        }
    }

    /// A turn begins.
    pub fn begin_turn(&mut self)
        ensures { (s : SoFar) (t : Turn) → TellsStandingsBefore self.old s.seats → TellsStandings self.new (after_turn_row s t) }
    {
        self.standings.clear();
    }

    /// This stands for the seat from now on.
    fn put(&mut self, seat: u32, standing: Standing) -> Result<(), AllocError>
        ensures { OnOk result (IsPut self.old self.new seat standing) }
    {
        match self.standings.insert(seat, standing) {
            Ok(_) => Ok(()),
            Err(_) => Err(AllocError),
        }
    }

    /// The instance of the seat, where it was opened.
    fn instance(&self, seat: u32) -> Option<u32>
        ensures { result ≡ slice_get self.now.instances.items seat }
    {
        self.instances.get(seat as usize).copied()
    }

    /// Whether the seat waits.
    fn is_waiting(&self, seat: u32) -> bool
        ensures { result ≡ waits_own self.now seat }
    {
        match self.instance(seat) {
            Some(instance) => self.waiting.contains(&(instance, seat)),
            None => false,
        }
    }

    /// The seat of the instance waits no longer, and whether it did.
    fn unlist(&mut self, instance: u32, seat: u32) -> bool
        ensures off { IsUnlisted self.old self.new instance seat }
        ensures was { result ≡ waits self.old instance seat }
        ensures fewer { IsTrue result → set.btree_set_len self.new.waiting < set.btree_set_len self.old.waiting }
    {
        self.waiting.remove(&(instance, seat))
    }

    /// The seat waits no longer, and whether it did.
    fn stop_waiting(&mut self, seat: u32) -> bool
        ensures { IsStopped self.old self.new seat result }
    {
        match self.instance(seat) {
            Some(instance) => self.unlist(instance, seat),
            None => false,
        }
    }

    /// A call on the seat showed a cause.
    pub fn show(&mut self, seat: u32, cause: Cause) -> Result<(), AllocError>
        ensures { OnOk result ((i : InTurn) (c : Call) → IsShownBy (Shows.OfSeat seat cause) c → TellsStandings self.old i → TellsStandings self.new (after_event i (called c))) }
    {
        let shown = Some(cause);
        let Some(standing) = self.standing(seat) else {
            if !self.stop_waiting(seat) {
                return Ok(());
            }
            return self.put(seat, Standing { shown, left: None });
        };
        let left = standing.left;
        match standing.shown {
            Some(_) => Ok(()),
            None => self.put(seat, Standing { shown, left }),
        }
    }

    /// The first seat of the instance that waits.
    fn first_waiting(&self, instance: u32) -> Option<u32>
        ensures some { IfSome result (λ n. waits self.now instance n ≡ true) }
        ensures none { IfNone result ((n : ℕ) → waits self.now instance n ≡ false) }
    {
        match self.waiting.range((instance, 0)..).next() {
            None => None,
            Some(first) => {
                let (found, seat) = *first;
                if found == instance { Some(seat) } else { None }
            }
        }
    }

    /// A call halted the instance.
    pub fn halt(&mut self, instance: u32, cause: Cause) -> Result<(), AllocError>
        ensures { OnOk result ((i : InTurn) (c : Call) → IsShownBy (Shows.OfInstance instance cause) c → TellsStandings self.old i → TellsStandings self.new (after_event i (called c))) }
    {
        let standing = Standing {
            shown: Some(cause),
            left: None,
        };
        while let Some(seat) = self.first_waiting(instance) {
            self.unlist(instance, seat);
            self.put(seat, standing)?;
        }
        Ok(())
    }

    /// The seat of the instance waits.
    fn list(&mut self, instance: u32, seat: u32) -> Result<(), AllocError>
        ensures listed { OnOk result (IsListed self.old self.new instance seat) }
        ensures instances { self.new.instances ≡ self.old.instances }
    {
        match self.waiting.insert((instance, seat)) {
            Ok(_) => Ok(()),
            Err(_) => Err(AllocError),
        }
    }

    /// The next seat is opened.
    pub fn opened(&mut self, seat: u32, instance: u32) -> Result<(), AllocError>
        ensures { OnOk result ((i : InTurn) (o : Opening) → o.seat ≡ seat → o.instance ≡ instance → seat ≡ length i.now.seats → TellsStandings self.old i → TellsStandings self.new (after_event i (opened o))) }
    {
        self.list(instance, seat)?;
        self.instances.push(instance)?;
        Ok(())
    }

    /// What stands for the seat.
    fn standing(&self, seat: u32) -> Option<Standing>
        ensures { result ≡ standing_at self.now seat }
    {
        self.standings.get(&seat).copied()
    }

    /// The first cause that calls of the turn showed of a seat that doesn't wait.
    fn shown(&self, seat: u32) -> Option<Cause>
        ensures { result ≡ shown_in (standing_at self.now seat) }
    {
        match self.standing(seat) {
            Some(standing) => standing.shown,
            None => None,
        }
    }

    /// The first cause that the rows so far show for an open seat, where the turn row shows this.
    pub fn first_cause(&self, seat: u32, shows: Shows) -> Option<Cause>
        ensures { (i : InTurn) → TellsStandings self.now i → IsShownByRow shows i → (is_open : IsOpen i.now.seats seat) → option_map cause_view result ≡ first_cause i.before.owners i.row i.here is_open.seat.opening.instance seat }
    {
        if let Some(cause) = self.shown(seat) {
            return Some(cause);
        }
        match self.instance(seat) {
            Some(instance) => shows.of(instance, seat),
            None => None,
        }
    }

    /// An open seat exits for the first cause.
    pub fn exited(&mut self, seat: u32, cause: Cause) -> Result<(), AllocError>
        ensures { OnOk result ((i : InTurn) (x : SeatExit) → x.seat ≡ seat → x.cause ≡ cause_view cause → IsOpen i.now.seats seat → HasFirstCause i.now.seats i.before.owners i.row i.here x → TellsStandings self.old i → TellsStandings self.new (after_event i (exited x))) }
    {
        let shown = self.shown(seat);
        self.stop_waiting(seat);
        self.put(
            seat,
            Standing {
                shown,
                left: Some(cause),
            },
        )
    }

    /// Whether the seats that don't wait have exited, each for the first cause.
    fn are_settled(&self) -> bool
        ensures { IsTrue result ↔ AreSettled self.now }
    {
        for standing in self.standings.values() {
            if !standing.is_settled() {
                return false;
            }
        }
        true
    }

    /// Whether the turn row, where it shows this, shows a cause for a seat that waits.
    fn shows_waiting(&self, shows: Shows) -> bool
        ensures { IsTrue result ↔ ShowsWaiting self.now shows }
    {
        match shows {
            Shows::Nothing => false,
            Shows::OfSeat(seat, _) => self.is_waiting(seat),
            Shows::OfInstance(instance, _) => self.first_waiting(instance).is_some(),
        }
    }

    /// Whether no cause was shown for an open seat, and each seat that exited in the turn did so for the first
    /// cause, where the turn row shows this.
    pub fn may_end(&self, shows: Shows) -> bool
        ensures decides { (i : InTurn) → TellsStandings self.now i → IsShownByRow shows i → IsTrue result ↔ AreCaused i }
        ensures told { IsTrue result → (i : InTurn) → TellsStandings self.now i → TellsStandingsBefore self.now i.now.seats }
    {
        self.are_settled() && !self.shows_waiting(shows)
    }
}
