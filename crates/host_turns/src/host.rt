//! The host between its calls.

ghost use Rattle.std.specs.Prelude.{◌≡◌, ◌≤◌, IfOk, IfSome, IsSomeAnd, List, OnErr, OnOk, length};
ghost use Rattle.run_laws.specs.fair_laws.Turns.{StaysFair, StaysStrict};
ghost use Rattle.run_laws.specs.fair_rows.SoFar.{nothing_so_far};
ghost use Rattle.run_laws.specs.fair_rows.Steps.{Leaves, so_far_after};
ghost use Rattle.run_laws.specs.fair_rows.Strict.{AreStrict};
ghost use Rattle.run_laws.specs.fair_rows.Turns.{AreFair};
ghost use Rattle.run_laws.specs.fair_laws.Views.{world_of};
ghost use Rattle.run_laws.specs.Runs.{first_host, left_in, most_meter};
ghost use Rattle.host_turns.specs.HostStates.{IsArrived, IsRested, world_kept};
ghost use Rattle.host_turns.specs.LineSteps.{IsTaken};
ghost use Rattle.host_turns.specs.HostSteps.{IsStep, IsSubmitted};
ghost use Rattle.run_laws.specs.message_lines.FormTables.{line_view};
ghost use Rattle.run_laws.specs.licence_laws.Steps.{IsCalledFor, IsLicensed, IsSpentByName};
ghost use Rattle.run_laws.specs.licence_laws.TakenBack.{SpentIsTakenBack};
ghost use Rattle.front_turns.specs.turn_records.Views.{delivery_view, turn_view};
ghost use Rattle.front_turns.specs.turn_rows.Editions.{written};
ghost use Rattle.front_turns.specs.turn_rows.Turns.{Turn};
ghost use Rattle.front_turns.specs.world_state.Good.{IsLine};

use crate::steps::{StepFault, Submitted};
use crate::turns::run_turn;
use front_turns::contract_powers_lib::planner::Planner;
use front_turns::host_world_lib::Ledger;
use front_turns::turn_records_lib::deliveries::Delivery;
use front_turns::turn_records_lib::turns::TurnRecord;
use run_laws::message_lines_lib::messages::{Line, read_line};
use std::alloc::{AllocError, Global};
use std::marker::{Model, PhantomData};

/// The most turns that a host runs.
const MOST_TURNS: u32 = 4_000_000_000;

/// An escrow host, over the plans of all methods. Contracts see what it keeps, of which `host_of` gives its state
/// (specs/HostStates.antt).
#[derive(Drop)]
pub struct Host<P: Planner> {
    /// The most that a function may cost.
    meter: u32,
    /// It is away within a step alone.
    world: Option<Ledger>,
    /// How many turns were run.
    turns: u32,
    planner: PhantomData<P>,
}

impl<P: Planner> Model for Host<P> {
    ghost use Rattle.host_turns.specs.HostStates.{HostParts, IsKept, coded_parts};

    ghost Value = { HostParts };

    ghost coded = { coded_parts };

    ghost view = { λ h. record { meter = h.meter; world = h.world; turns = h.turns } };

    ghost invariant = { λ h. IsKept (record { meter = h.meter; world = h.world; turns = h.turns }) };
}

/// How many deliveries wait.
fn waiting_in(world: &Option<Ledger>) -> u64
    requires { IsSomeAnd world.now IsRested }
    ensures { result ≡ length (world_kept world.now).waiting }
{
    match world {
        Some(kept) => kept.registers.queue.len() as u64,
        None => unreachable!(),
    }
}

/// A line's delivery waits behind all others.
fn arrive(world: &mut Option<Ledger>, delivery: Delivery) -> Result<(), AllocError>
    requires { IsSomeAnd world.old IsRested }
    ensures ok { OnOk result (IsArrived (delivery_view delivery) world.old world.new) }
    ensures err { OnErr result (world_kept world.new ≡ world_kept world.old) }
    ensures rests { IsSomeAnd world.new IsRested }
{
    match world {
        Some(kept) => kept.arrive(delivery),
        None => unreachable!(),
    }
}

/// What a line means is taken: its delivery waits, if it has one.
fn take_line(world: &mut Option<Ledger>, line: Line) -> Result<Submitted, AllocError>
    requires { IsSomeAnd world.old IsRested }
    ensures taken { IsTaken world.old world.new (line_view line) result }
    ensures rests { IsSomeAnd world.new IsRested }
{
    match line {
        Line::Blank => Ok(Submitted::Blank),
        Line::Run(most) => Ok(Submitted::Run(most)),
        Line::Delivered(delivery) => {
            arrive(world, delivery)?;
            Ok(Submitted::Queued)
        }
    }
}

impl<P: Planner> Host<P> {
    ghost use Rattle.host_turns.specs.HostStates.{host_of};

    /// A new host, which has the brand of invitations and no right. Functions of contracts run under the
    /// meter, which is at most 10,000,000 (our own).
    pub fn new(alloc: Global, meter: u32) -> Result<Host<P>, AllocError>
        requires { meter ≤ most_meter }
        ensures { IfOk result (λ host. host_of host ≡ first_host meter) }
    {
        let world = Ledger::new(alloc)?;
        Ok(Host {
            meter,
            world: Some(world),
            turns: 0,
            planner: PhantomData,
        })
    }

    /// The delivery that a line means, if it means one, waits. A bad line means one too, which is refused
    /// when its turn comes. A run line is answered, and left to the caller.
    pub fn submit(&mut self, alloc: Global, line: &[u8]) -> Result<Submitted, AllocError>
        ensures { IsSubmitted (host_of self.old) (host_of self.new) line.now result }
    {
        let line = read_line(alloc, line)?;
        take_line(&mut self.world, line)
    }

    /// How many deliveries wait.
    pub fn waiting(&self) -> u64
        ensures { result ≡ left_in (host_of self.now) }
    {
        waiting_in(&self.world)
    }

    /// How many turns were run.
    pub fn turns(&self) -> u32
        ensures { result ≡ (host_of self.now).turns }
    {
        self.turns
    }

    /// The turn of the delivery in front, or `None` exactly where none waits. Where turn 4,000,000,000
    /// was run and a delivery is left, and for want of memory, nothing happened. Where turns are fair and
    /// leave the host's world, with this one they are fair too, and leave the host's world then; so it is
    /// with what this host keeps to beyond fairness. More of a brand is out after it, and less is in a purse or
    /// in a payment, only where the turn's rows show the call that asks for it and names it. A contract's
    /// function names only what it was handed, and each movement is by right. Where it spends its meter, all
    /// that it did is taken back: its instance halts, and its open seats are left with what they had before.
    pub fn next_turn(&mut self, alloc: Global) -> Result<Option<TurnRecord>, StepFault>
        ensures step { IsStep (host_of self.old) (host_of self.new) result }
        ensures fair { (ts : List Turn) → AreFair written ts
            → Leaves (so_far_after ts nothing_so_far) (world_of (host_of self.old))
            → IfOk result (λ made. IfSome made (λ turn. StaysFair ts (record {
              next = host_of self.new;
              turn = turn_view turn;
            }))) }
        ensures strict { (ts : List Turn) → AreStrict ts
            → Leaves (so_far_after ts nothing_so_far) (world_of (host_of self.old))
            → IfOk result (λ made. IfSome made (λ turn. StaysStrict ts (record {
              next = host_of self.new;
              turn = turn_view turn;
            }))) }
        ensures called_for { IfOk result (λ made. IfSome made (λ turn.
            IsCalledFor (host_of self.old) (record { next = host_of self.new; turn = turn_view turn }))) }
        ensures spent_by_name { IfOk result (λ made. IfSome made (λ turn.
            IsSpentByName (host_of self.old) (record { next = host_of self.new; turn = turn_view turn }))) }
        ensures licensed { IfOk result (λ made. IfSome made (λ turn.
            IsLicensed (host_of self.old) (record { next = host_of self.new; turn = turn_view turn }))) }
        ensures spent { IfOk result (λ made. IfSome made (λ turn.
            SpentIsTakenBack (host_of self.old)
            (record { next = host_of self.new; turn = turn_view turn }))) }
    {
        if waiting_in(&self.world) == 0 {
            return Ok(None);
        }
        if self.turns >= MOST_TURNS {
            return Err(StepFault::TurnLimit);
        }
        match run_turn::<P>(alloc, &mut self.world, self.meter, self.turns) {
            Some(turn) => {
                self.turns += 1;
                Ok(Some(turn))
            }
            None => Err(StepFault::NoMemory),
        }
    }
}
