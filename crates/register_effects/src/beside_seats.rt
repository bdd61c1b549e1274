//! What is kept beside rights of brands, seats and invitations.

ghost use Rattle.std.specs.Prelude.{◌≡◌, ◌<◌, ◌+◌, ◌++◌, ◌∷◌, [], None, length, map, IfOk, OnOk};
ghost use Rattle.world_laws.specs.turn_stores.Details.{details_at, details_view};
ghost use Rattle.world_laws.specs.turn_stores.InvitationTurns.{invitations_of};
ghost use Rattle.world_reads.specs.registers.Makers.{maker_view};
ghost use Rattle.world_laws.specs.actors.SeatPromises.{pair_at};
ghost use Rattle.world_laws.specs.host_data.Tree.{fields, null};
ghost use Rattle.world_laws.specs.host_data.View.{fields_of, named_trees, tree};
ghost use Rattle.register_effects.specs.StoreEffects.{AreMade, IsAfterWhere, IsPaid, call_of, promises_in, queued};
ghost use Rattle.register_effects.specs.StoreEffects.{waited, with_null_promise, with_settled_pair};
ghost use Rattle.world_reads.specs.call_outcomes.Views.{offering_view};
ghost use Rattle.world_reads.specs.registers.Stores.{registers_at_start, registers_now};
ghost use Rattle.world_laws.specs.promise_store.States.{ok, settlement_view};
ghost use Rattle.world_laws.specs.turn_records.Logs.{log_of};
ghost use Rattle.world_laws.specs.turn_records.Views.{cause_view, delivery_view, event_view, payout_views};
ghost use Rattle.world_laws.specs.turn_records.Deliveries as deliveries;
ghost use Rattle.world_laws.specs.turn_records.Events as events;
ghost use Rattle.world_laws.specs.world_state.Promises.{IsPending, with_promise};
ghost use Rattle.world_laws.specs.world_state.Worlds as worlds;
ghost use Rattle.world_laws.specs.world_state.Worlds.{invitation_move, object_tree, of_own};
ghost use Rattle.world_laws.specs.world_state.Worlds.{payout_fields, placed_field};

use std::alloc::{AllocError, Global};
use world_laws::actors_lib::instance_store::seat_promises::SeatPair;
use world_laws::brands_lib::Brand;
use world_laws::host_data_lib::data::{Data, Obj, ObjKind};
use world_laws::host_text_lib::text::Text;
use world_laws::promise_store_lib::Settlement;
use world_laws::proposals_lib::allocations::Allocation;
use world_laws::proposals_lib::offers::{Exit, Proposal};
use world_laws::rights_model_lib::Movement;
use world_laws::turn_records_lib::deliveries::{Delivery, Offer};
use world_laws::turn_records_lib::events::{Cause, Event, Leaving, Opening, Payout};
use world_laws::turn_records_lib::log::Log;
use world_laws::turn_stores_lib::invitations::{Details, Invitations};
use world_reads::call_outcomes_lib::effects::Offering;
use world_reads::record_data::place;
use world_reads::registers_lib::Registers;
use world_reads::registers_lib::brand_makers::Maker;
use world_reads::registers_lib::promise_table::waiting::queue_delivery;
use world_reads::registers_lib::time_effects::{Timed, deliver_at};

// ---- brands and invitations

/// A brand is made, by whom.
pub fn new_brand(stores: &mut Registers, brand: Brand, maker: Maker) -> Result<(), AllocError>
    ensures ok { OnOk result (IsAfterWhere (λ w. Unit {0}) stores.old stores.new
        (worlds.new_brand brand (maker_view maker))) }
    ensures start { registers_at_start stores.new ≡ registers_at_start stores.old }
{
    let Brand { name, kind } = brand;
    match stores.brands.add(name, kind) {
        Ok(_) => stores.makers.add(maker),
        Err(back) => {
            drop(back);
            Err(AllocError)
        }
    }
}

/// The details of an invitation are kept, and the movement that makes a payment of it is told.
pub fn invite(
    stores: &mut Registers,
    details: Details,
    movement: Movement,
) -> Result<(), AllocError>
    ensures ok { OnOk result (IsAfterWhere
        (λ w. movement ≡ invitation_move w) stores.old stores.new
        (worlds.invite (details_view details))) }
    ensures start { registers_at_start stores.new ≡ registers_at_start stores.old }
{
    keep_details(&mut stores.invitations, details)?;
    log_move(&mut stores.log, movement)
}

/// The details of the next invitation are kept.
fn keep_details(invitations: &mut Invitations, details: Details) -> Result<(), AllocError>
    ensures ok { OnOk result (invitations_of invitations.new ≡ record (invitations_of invitations.old) {
      now = (invitations_of invitations.old).now ++ details_view details ∷ [];
    }) }
    ensures start { (invitations_of invitations.new).start ≡ (invitations_of invitations.old).start }
{
    match invitations.add(details) {
        Ok(_) => Ok(()),
        Err(back) => {
            drop(back);
            Err(AllocError)
        }
    }
}

// ---- the log

/// What happened is told, last.
fn log_event(log: &mut Log, event: Event) -> Result<(), AllocError>
    ensures { OnOk result (log_of log.new ≡ log_of log.old ++ event_view event ∷ []) }
{
    log.push(event)?;
    Ok(())
}

/// A movement is told.
fn log_move(log: &mut Log, movement: Movement) -> Result<(), AllocError>
    ensures { OnOk result (log_of log.new ≡ log_of log.old ++ events.moved movement ∷ []) }
{
    log_event(log, Event::Moved(movement))
}

/// Movements are told, in order.
pub fn log_moves(log: &mut Log, moves: Vec<Movement>) -> Result<(), AllocError>
    ensures { OnOk result (log_of log.new ≡ log_of log.old ++ map events.moved moves.items) }
{
    for movement in moves {
        log_move(log, movement)?;
    }
    Ok(())
}

/// The opening of a seat is told.
fn log_opening(
    log: &mut Log,
    seat: u32,
    instance: u32,
    proposal: Proposal,
) -> Result<(), AllocError>
    ensures { OnOk result (log_of log.new ≡ log_of log.old ++ events.opened (record {
      seat = seat;
      instance = instance;
      proposal = proposal;
    }) ∷ []) }
{
    let opening = Opening {
        seat,
        instance,
        proposal,
    };
    log_event(log, Event::Opened(opening))
}

// ---- what a new seat has

/// The next seat gets the two next promises, both pending.
fn open_pair(stores: &mut Registers) -> Result<SeatPair, AllocError>
    ensures ok { IfOk result (λ pair. registers_now stores.new ≡ record (registers_now stores.old) {
      promises = with_promise None (with_promise None (registers_now stores.old).promises);
      pairs = (registers_now stores.old).pairs ++ pair ∷ [];
    }) }
    ensures results { IfOk result (λ pair. pair.«result» ≡ length (registers_now stores.old).promises.settled) }
    ensures payouts { IfOk result (λ pair. pair.payouts ≡ length (registers_now stores.old).promises.settled + 1) }
    ensures start { registers_at_start stores.new ≡ registers_at_start stores.old }
{
    let Ok(result) = stores.promises.make() else {
        return Err(AllocError);
    };
    let Ok(payouts) = stores.promises.make() else {
        return Err(AllocError);
    };
    let pair = SeatPair { result, payouts };
    match stores.pairs.add(pair) {
        Ok(_) => Ok(pair),
        Err(_) => Err(AllocError),
    }
}

/// The deadline of an exit rule waits for a seat.
fn keep_deadline(stores: &mut Registers, rule: Exit, seat: u32) -> Result<(), AllocError>
    ensures ok { OnOk result (registers_now stores.new ≡ waited rule seat (registers_now stores.old)) }
    ensures start { registers_at_start stores.new ≡ registers_at_start stores.old }
{
    match rule {
        Exit::AfterDeadline(time) => deliver_at(
            &mut stores.timer,
            &mut stores.queue,
            time,
            Timed::Deadline(seat),
        ),
        _ => Ok(()),
    }
}

// ---- offers

/// The function that an invitation's offers are handed to, and what was put by for it.
fn handler_of(alloc: Global, details: &Details) -> Result<(Text, Data), AllocError>
    ensures handler { IfOk result (λ (handler, _). handler ≡ (details_view details.now).handler) }
    ensures held { IfOk result (λ (_, held). tree held ≡ (details_view details.now).held) }
{
    let handler = details.handler.copy(alloc)?;
    let held = details.held.copy(alloc)?;
    Ok((handler, held))
}

/// What goes to the handler of an invitation that was made.
fn handler_call(
    stores: &Registers,
    alloc: Global,
    seat: u32,
    promise: u32,
    invitation: u32,
    arguments: Data,
) -> Result<Delivery, AllocError>
    requires { invitation < length (registers_now stores.now).invitations }
    ensures { IfOk result (λ made. delivery_view made ≡ deliveries.offer (record {
      instance = (details_at (registers_now stores.now).invitations invitation).instance;
      seat = seat;
      function = (details_at (registers_now stores.now).invitations invitation).handler;
      offer_arguments = tree arguments;
      held = (details_at (registers_now stores.now).invitations invitation).held;
      promise = promise;
    })) }
{
    let details = stores.invitations.details(invitation);
    let (function, held) = handler_of(alloc, details)?;
    Ok(Delivery::Offer(Offer {
        instance: details.instance,
        seat,
        function,
        offer_arguments: arguments,
        held,
        promise,
    }))
}

/// The handler of an invitation is to be called, for the next promise.
fn queue_handler(
    stores: &mut Registers,
    alloc: Global,
    seat: u32,
    invitation: u32,
    arguments: Data,
) -> Result<(), AllocError>
    requires { invitation < length (registers_now stores.old).invitations }
    ensures ok { OnOk result (registers_now stores.new ≡ record (registers_now stores.old) {
      waiting = (registers_now stores.old).waiting
          ++ call_of (registers_now stores.old) seat invitation (tree arguments) ∷ [];
    }) }
    ensures start { registers_at_start stores.new ≡ registers_at_start stores.old }
{
    let promise = stores.promises.made();
    let call = handler_call(stores, alloc, seat, promise, invitation, arguments)?;
    queue_delivery(&mut stores.queue, call)
}

/// A seat that an offer opened gets its promises, its handler is to be called, and its deadline waits.
fn queue_offer(
    stores: &mut Registers,
    alloc: Global,
    seat: u32,
    invitation: u32,
    rule: Exit,
    arguments: Data,
) -> Result<(), AllocError>
    requires { invitation < length (registers_now stores.old).invitations }
    ensures ok { OnOk result (registers_now stores.new
        ≡ queued (registers_now stores.old) seat invitation rule (tree arguments)) }
    ensures start { registers_at_start stores.new ≡ registers_at_start stores.old }
{
    queue_handler(stores, alloc, seat, invitation, arguments)?;
    let _pair = open_pair(stores)?;
    keep_deadline(stores, rule, seat)
}

/// What an offer does that touches no rights, once its seat is open.
pub fn offer(
    stores: &mut Registers,
    alloc: Global,
    seat: u32,
    instance: u32,
    offering: Offering,
) -> Result<(), AllocError>
    requires invited { offering.invitation < length (registers_now stores.old).invitations }
    requires instance { instance
        ≡ (details_at (registers_now stores.old).invitations offering.invitation).instance }
    ensures ok { OnOk result (IsAfterWhere (λ w. length w.seats ≡ seat) stores.old stores.new
        (worlds.offer (offering_view offering))) }
    ensures start { registers_at_start stores.new ≡ registers_at_start stores.old }
{
    let Offering {
        invitation,
        proposal,
        burn,
        escrows,
        arguments,
    } = offering;
    let rule = proposal.exit;
    log_offer(&mut stores.log, seat, instance, proposal, burn, escrows)?;
    queue_offer(stores, alloc, seat, invitation, rule, arguments)
}

/// A movement is told, and then others.
fn log_moves_after(log: &mut Log, first: Movement, others: Vec<Movement>) -> Result<(), AllocError>
    ensures { OnOk result (log_of log.new ≡ log_of log.old ++ map events.moved (first ∷ others.items)) }
{
    log_move(log, first)?;
    log_moves(log, others)
}

/// The opening of a seat is told, and then the movements of its offer.
fn log_offer(
    log: &mut Log,
    seat: u32,
    instance: u32,
    proposal: Proposal,
    burn: Movement,
    escrows: Vec<Movement>,
) -> Result<(), AllocError>
    ensures { OnOk result (log_of log.new ≡ log_of log.old ++ events.opened (record {
      seat = seat;
      instance = instance;
      proposal = proposal;
    })
        ∷ map events.moved (burn ∷ escrows.items)) }
{
    log_opening(log, seat, instance, proposal)?;
    log_moves_after(log, burn, escrows)
}

// ---- seats of an instance's own

/// What a promise is settled with that null is answered for.
fn null_settlement() -> Settlement
    ensures { settlement_view result ≡ ok null }
{
    Settlement::Ok(Data::Null)
}

/// The next promise is made, settled with null, and told. It answers its number.
fn null_promise(stores: &mut Registers) -> Result<u32, AllocError>
    requires { AreMade (registers_now stores.old).promises }
    ensures ok { OnOk result (registers_now stores.new ≡ with_null_promise (registers_now stores.old)) }
    ensures number { IfOk result (λ number. number ≡ promises_in (registers_now stores.old)) }
    ensures start { registers_at_start stores.new ≡ registers_at_start stores.old }
{
    let Ok(promise) = stores.promises.make() else {
        return Err(AllocError);
    };
    let null = null_settlement();
    match stores
        .promises
        .settle(promise, null, &mut stores.queue, &mut stores.log)
    {
        Ok(()) => Ok(promise),
        Err(fault) => Err(fault),
    }
}

/// The next seat gets the two next promises: that of its result is settled with null, and told.
fn open_settled_pair(stores: &mut Registers) -> Result<(), AllocError>
    requires { AreMade (registers_now stores.old).promises }
    ensures ok { OnOk result (registers_now stores.new ≡ with_settled_pair (registers_now stores.old)) }
    ensures start { registers_at_start stores.new ≡ registers_at_start stores.old }
{
    let result = null_promise(stores)?;
    let Ok(payouts) = stores.promises.make() else {
        return Err(AllocError);
    };
    match stores.pairs.add(SeatPair { result, payouts }) {
        Ok(_) => Ok(()),
        Err(_) => Err(AllocError),
    }
}

/// What a seat of an instance's own is opened for.
fn own_proposal(alloc: Global, rule: Exit) -> Proposal
    ensures { result ≡ of_own rule }
{
    Proposal {
        give: Allocation::new(alloc),
        want: Allocation::new(alloc),
        exit: rule,
    }
}

/// What an instance's opening of a seat of its own does that touches no rights, once the seat is open.
pub fn empty_seat(
    stores: &mut Registers,
    alloc: Global,
    seat: u32,
    instance: u32,
    rule: Exit,
) -> Result<(), AllocError>
    requires { AreMade (registers_now stores.old).promises }
    ensures ok { OnOk result (IsAfterWhere (λ w. length w.seats ≡ seat) stores.old stores.new
        (worlds.empty_seat instance rule)) }
    ensures start { registers_at_start stores.new ≡ registers_at_start stores.old }
{
    let proposal = own_proposal(alloc, rule);
    log_opening(&mut stores.log, seat, instance, proposal)?;
    open_settled_pair(stores)?;
    keep_deadline(stores, rule, seat)
}

// ---- exits

/// The record from keyword to payment, in byte order of keywords.
fn payments_data(alloc: Global, payouts: &[Payout]) -> Result<Data, AllocError>
    ensures { IfOk result (λ made. tree made ≡ fields (payout_fields (payout_views payouts.now))) }
{
    Ok(Data::Record(payment_fields(alloc, payouts)?))
}

fn payment_fields(alloc: Global, payouts: &[Payout]) -> Result<Vec<(Text, Data)>, AllocError>
    ensures { IfOk result (λ made. fields_of (named_trees made.items)
        ≡ payout_fields (payout_views payouts.now)) }
{
    let mut fields = Vec::new(alloc);
    let mut left = payouts.len();
    while left > 0 {
        left -= 1;
        place_payout(alloc, &mut fields, &payouts[left])?;
    }
    Ok(fields)
}

/// Puts the payment of a slot under its keyword.
fn place_payout(
    alloc: Global,
    fields: &mut Vec<(Text, Data)>,
    payout: &Payout,
) -> Result<(), AllocError>
    ensures { OnOk result (fields_of (named_trees fields.new.items)
        ≡ placed_field payout.now.keyword (object_tree ObjKind.Payment payout.now.payment)
        (fields_of (named_trees fields.old.items))) }
{
    let payment = Obj {
        kind: ObjKind::Payment,
        number: payout.payment,
    };
    place(
        alloc,
        fields,
        payout.keyword.as_str(),
        Data::Object(payment),
    )
}

/// What leaving a seat does that touches no rights, once it is paid out: it is told, and the promise of its
/// payouts is settled.
pub fn exit(
    stores: &mut Registers,
    alloc: Global,
    seat: u32,
    cause: Cause,
    payouts: Vec<Payout>,
    moves: Vec<Movement>,
) -> Result<(), AllocError>
    requires paired { seat < length (registers_now stores.old).pairs }
    requires pending { IsPending (registers_now stores.old).promises
        (pair_at (registers_now stores.old).pairs seat).payouts }
    ensures ok { OnOk result (IsAfterWhere (λ w. IsPaid w seat (payout_views payouts.items) moves.items)
        stores.old stores.new (worlds.exit seat (cause_view cause))) }
    ensures start { registers_at_start stores.new ≡ registers_at_start stores.old }
{
    let record = told_payouts(&mut stores.log, alloc, seat, cause, payouts, moves)?;
    let promise = stores.pairs.of(seat).payouts;
    stores.promises.settle(
        promise,
        Settlement::Ok(record),
        &mut stores.queue,
        &mut stores.log,
    )
}

/// That a seat is left is told, and then the movements that pay it out. It answers the record of its payments.
fn told_payouts(
    log: &mut Log,
    alloc: Global,
    seat: u32,
    cause: Cause,
    payouts: Vec<Payout>,
    moves: Vec<Movement>,
) -> Result<Data, AllocError>
    ensures told { OnOk result (log_of log.new ≡ log_of log.old ++ events.exited (record {
      seat = seat;
      cause = cause_view cause;
      payouts = payout_views payouts.items;
    })
        ∷ map events.moved moves.items) }
    ensures record { IfOk result (λ made. tree made ≡ fields (payout_fields (payout_views payouts.items))) }
{
    let record = payments_data(alloc, &payouts)?;
    log_exit(log, seat, cause, payouts, moves)?;
    Ok(record)
}

/// That a seat is left is told, and then the movements that pay it out.
fn log_exit(
    log: &mut Log,
    seat: u32,
    cause: Cause,
    payouts: Vec<Payout>,
    moves: Vec<Movement>,
) -> Result<(), AllocError>
    ensures { OnOk result (log_of log.new ≡ log_of log.old ++ events.exited (record {
      seat = seat;
      cause = cause_view cause;
      payouts = payout_views payouts.items;
    })
        ∷ map events.moved moves.items) }
{
    let leaving = Leaving {
        seat,
        cause,
        payouts,
    };
    log_event(log, Event::Exited(leaving))?;
    log_moves(log, moves)
}
