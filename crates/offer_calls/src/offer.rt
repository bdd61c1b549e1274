//! An offer (Zoe): the invitation is burned, and what is given goes from payments to the slots of a new seat.

ghost use Rattle.refusals.specs.host_data.declared.data.ObjKind.TheVariants as kinds;
ghost use Rattle.rules.specs.world_state.Worlds as worlds;
ghost use Rattle.call_arguments.specs.Arguments.{arg};
ghost use Rattle.ertp_calls.specs.call_outcomes.Lists.{IsEachShaped};
ghost use Rattle.ertp_calls.specs.call_outcomes.CallOutcomes.{GivesOutcome, outcome_view};
ghost use Rattle.ertp_calls.specs.call_outcomes.Views.{offering_view};
ghost use Rattle.ertp_calls.specs.host_world.Worlds.{world_of};
ghost use Rattle.ertp_calls.specs.world_reads.Handed.{AreHanded};
ghost use Rattle.offer_calls.specs.OfferSteps.{opened, paid_for};
ghost use Rattle.offer_calls.specs.Views.{invited_view, proposed_view};
ghost use Rattle.refusals.specs.Codes.{bad_args};
ghost use Rattle.refusals.specs.Outcomes.{Fails, Gives, wanted};
ghost use Rattle.refusals.specs.host_data.Amounts.{seen};
ghost use Rattle.refusals.specs.host_data.Values.{object_tree};
ghost use Rattle.refusals.specs.host_data.View.{named_trees, tree, trees};
ghost use Rattle.rules.specs.GivenPayments.{escrows_of, held_by, is_live_in};
ghost use Rattle.rules.specs.Zoe.{has_room, offer, offering};
ghost use Rattle.rules.specs.Words.{record_in};
ghost use Rattle.rules.specs.proposals.Shares.{AreApart, AreShares, most_shares};
ghost use Rattle.rules.specs.rights_model.Table.{movement};
ghost use Rattle.rules.specs.rights_model.declared.Holder.TheVariants.{Outside, Payment, Slot};
ghost use Rattle.rules.specs.world_state.Good.{IsGoodWorld};
ghost use Rattle.rules.specs.world_state.Rights.{kind_at};
ghost use Rattle.std.specs.Prelude.{◌≡◌, ◌<◌, ◌≤◌, ◌+◌, ◌++◌, ◌∷◌, [], All, IfErr, IfOk, Ok, OnOk, length, true};

use crate::invitation::{Invited, read_invitation};
use crate::payments::{read_payments, value_of};
use crate::proposal::{Proposed, read_proposal};
use call_arguments::places::{argument, copy_of};
use ertp_calls::call_outcomes_lib::effects::{Effect, Offering, SeatsEffect};
use ertp_calls::call_outcomes_lib::outcomes::CallOutcome;
use ertp_calls::draft_reads_lib::payment_reads::payments_left;
use ertp_calls::draft_reads_lib::seat_reads::seats_made;
use ertp_calls::host_world_lib::World;
use refusals::codes::NumberCode;
use refusals::host_data_lib::data::{Data, ObjKind};
use refusals::host_data_lib::values::object_data;
use refusals::stops::Stop;
use rules::proposals_lib::allocations::{Allocation, Share};
use rules::proposals_lib::offers::{Exit, Proposal};
use rules::rights_model_lib::{Holder, Movement};
use std::alloc::{AllocError, Global};

/// The most shares of a proposal.
const MOST_SHARES: usize = 64;

/// That a seat can be opened for so many keywords, as far as the limits go: else `Limit` (own).
#[tactic(auto, unfolding(rules::specs::Zoe::has_room, refusals::specs::Outcomes::bind, refusals::specs::Outcomes::need))]
fn check_room(world: &World, read: &Proposed) -> Result<(), Stop>
    ensures gives { Gives (λ _. tt) result
        (has_room (world_of world.now) (proposed_view read.now).proposal) }
    ensures few { OnOk result
        (length read.now.give.items + length read.now.want.items ≤ most_shares) }
{
    let keywords = read.give.len().saturating_add(read.want.len());
    if keywords > MOST_SHARES {
        return Err(Stop::numbered(NumberCode::Limit, MOST_SHARES as u32));
    }
    if (payments_left(&world.draft) as usize) < keywords {
        return Err(Stop::numbered(NumberCode::Limit, u32::MAX));
    }
    if seats_made(&world.draft) == u32::MAX {
        return Err(Stop::numbered(NumberCode::Limit, u32::MAX));
    }
    if world.registers.promises.made() > u32::MAX - 2 {
        return Err(Stop::numbered(NumberCode::Limit, u32::MAX));
    }
    Ok(())
}

/// A payment goes whole to the slot of its share.
fn escrow_of(alloc: Global, seat: u32, share: &Share, payment: u32) -> Result<Movement, AllocError>
    ensures { IfOk result (λ m. m ≡ movement share.now.amount.brand (Payment payment)
        (Slot seat share.now.keyword) share.now.amount.value) }
{
    let keyword = share.keyword.copy(alloc)?;
    let value = share.amount.value.copy()?;
    Ok(Movement {
        brand: share.amount.brand,
        from: Holder::Payment(payment),
        to: Holder::Slot(seat, keyword),
        value,
    })
}

/// Puts the movement of a payment last.
fn push_escrow(
    alloc: Global,
    escrows: &mut Vec<Movement>,
    seat: u32,
    share: &Share,
    payment: u32,
) -> Result<(), AllocError>
    ensures { OnOk result (escrows.new.items ≡ escrows.old.items
        ++ movement share.now.amount.brand (Payment payment)
        (Slot seat share.now.keyword) share.now.amount.value ∷ []) }
{
    let escrow = escrow_of(alloc, seat, share, payment)?;
    escrows.push(escrow)?;
    Ok(())
}

/// Each payment goes whole to the slot of its share.
fn escrows_of(
    alloc: Global,
    seat: u32,
    give: &[Share],
    payments: &[u32],
) -> Result<Vec<Movement>, AllocError>
    ensures { IfOk result (λ ms. ms.items ≡ escrows_of seat give.now payments.now) }
{
    let mut escrows = Vec::new(alloc);
    for (share, payment) in give.iter().zip(payments) {
        push_escrow(alloc, &mut escrows, seat, share, *payment)?;
    }
    Ok(escrows)
}

/// The proposal of shares that can stand in one.
fn proposal_of(
    alloc: Global,
    give: Vec<Share>,
    want: Vec<Share>,
    exit: Exit,
) -> Result<Proposal, AllocError>
    requires give { AreShares give.items }
    requires want { AreShares want.items }
    ensures { IfOk result (λ p. p ≡ record { give = give.items; want = want.items; exit = exit }) }
{
    let give = Allocation::from_shares(alloc, give)?;
    let want = Allocation::from_shares(alloc, want)?;
    Ok(Proposal { give, want, exit })
}

/// The invitation's payment goes outside, whole.
fn burn_of(world: &World, payment: u32) -> Result<Movement, AllocError>
    requires good { IsGoodWorld (world_of world.now) }
    requires made { payment < length (world_of world.now).rights.payments }
    requires live { is_live_in (world_of world.now) payment ≡ true }
    ensures { IfOk result (λ burn. burn
        ≡ movement 0 (Payment payment) Outside (held_by (world_of world.now) payment)) }
{
    let value = value_of(world, payment)?;
    Ok(Movement {
        brand: 0,
        from: Holder::Payment(payment),
        to: Holder::Outside,
        value,
    })
}

/// The burning of the invitation, and what goes to its handler.
fn burn_and_arguments(
    alloc: Global,
    world: &World,
    payment: u32,
    arguments: Option<&Data>,
) -> Result<(Movement, Data), AllocError>
    requires good { IsGoodWorld (world_of world.now) }
    requires made { payment < length (world_of world.now).rights.payments }
    requires live { is_live_in (world_of world.now) payment ≡ true }
    ensures burn { IfOk result (λ (burn, _). burn
        ≡ movement 0 (Payment payment) Outside (held_by (world_of world.now) payment)) }
    ensures arguments { IfOk result (λ (_, given). tree given ≡ seen arguments.entry) }
{
    let given = copy_of(alloc, arguments)?;
    let burn = burn_of(world, payment)?;
    Ok((burn, given))
}

/// What is offered, but for the invitation and what goes with it.
fn proposal_and_escrows(
    alloc: Global,
    seat: u32,
    proposal: Proposal,
    payments: &[u32],
) -> Result<(Proposal, Vec<Movement>), AllocError>
    ensures proposal { IfOk result (λ (kept, _). kept ≡ proposal) }
    ensures escrows { IfOk result (λ (_, ms).
        ms.items ≡ escrows_of seat proposal.give payments.now) }
{
    let escrows = escrows_of(alloc, seat, proposal.give.shares(), payments)?;
    Ok((proposal, escrows))
}

/// What is offered.
fn make_offering(
    alloc: Global,
    world: &World,
    by: Invited,
    proposal: Proposal,
    payments: &[u32],
    arguments: Option<&Data>,
) -> Result<Offering, AllocError>
    requires good { IsGoodWorld (world_of world.now) }
    requires made { by.payment < length (world_of world.now).rights.payments }
    requires live { is_live_in (world_of world.now) by.payment ≡ true }
    ensures { IfOk result (λ o. offering_view o ≡ offering (world_of world.now) (invited_view by)
        proposal payments.now (seen arguments.entry)) }
{
    let seat = seats_made(&world.draft);
    let (proposal, escrows) = proposal_and_escrows(alloc, seat, proposal, payments)?;
    let (burn, arguments) = burn_and_arguments(alloc, world, by.payment, arguments)?;
    Ok(Offering {
        invitation: by.invitation,
        proposal,
        burn,
        escrows,
        arguments,
    })
}

/// The outcome of an offer, which answers the seat that it opens.
fn offer_plan(
    alloc: Global,
    world: &World,
    by: Invited,
    proposal: Proposal,
    payments: &[u32],
    arguments: Option<&Data>,
) -> Result<CallOutcome, AllocError>
    requires good { IsGoodWorld (world_of world.now) }
    requires made { by.payment < length (world_of world.now).rights.payments }
    requires live { is_live_in (world_of world.now) by.payment ≡ true }
    ensures plan { IfOk result (λ plan. outcome_view plan ≡ (
      object_tree kinds.Seat (length (world_of world.now).seats),
      worlds.offer (offering (world_of world.now) (invited_view by)
          proposal payments.now (seen arguments.entry)) ∷ [],
    )) }
    ensures shaped { IfOk result (λ plan. IsEachShaped plan.effects) }
{
    let offered = make_offering(alloc, world, by, proposal, payments, arguments)?;
    let answer = object_data(ObjKind::Seat, seats_made(&world.draft));
    let offers = Effect::Seats(SeatsEffect::Offer(offered));
    CallOutcome::with_effect(alloc, answer, offers)
}

/// The proposal that was read, where a seat can be opened for it, as far as the limits go: else `Limit` (own).
#[tactic(auto, using(crate::proofs::ReadShares::give_shares, crate::proofs::ReadShares::want_shares))]
fn proposal_with_room(alloc: Global, world: &World, read: Proposed) -> Result<Proposal, Stop>
    requires give { AreApart read.give.items }
    requires want { AreApart read.want.items }
    ensures room { OnOk result
        (has_room (world_of world.now) (proposed_view read.entry).proposal ≡ Ok tt) }
    ensures same { IfOk result (λ p. p ≡ (proposed_view read.entry).proposal) }
    ensures fails { IfErr result (λ stop.
        Fails stop (has_room (world_of world.now) (proposed_view read.entry).proposal)) }
{
    check_room(world, &read)?;
    Ok(proposal_of(alloc, read.give, read.want, read.exit)?)
}

/// The outcome of an offer once all that it gives was read and tested, if there is room for its seat.
#[tactic(auto, unfolding(crate::specs::OfferSteps::opened, refusals::specs::Outcomes::bind))]
fn open_seat(
    alloc: Global,
    world: &World,
    by: Invited,
    read: Proposed,
    payments: &[u32],
    arguments: Option<&Data>,
) -> Result<CallOutcome, Stop>
    requires good { IsGoodWorld (world_of world.now) }
    requires made { by.payment < length (world_of world.now).rights.payments }
    requires live { is_live_in (world_of world.now) by.payment ≡ true }
    requires give { AreApart read.give.items }
    requires want { AreApart read.want.items }
    ensures { GivesOutcome (opened (world_of world.now) (invited_view by)
        (proposed_view read.entry).proposal payments.now (seen arguments.entry)) result }
{
    let proposal = proposal_with_room(alloc, world, read)?;
    Ok(offer_plan(alloc, world, by, proposal, payments, arguments)?)
}

/// The outcome of an offer of which the invitation and the proposal were read: its payments are read and tested.
#[tactic(auto, unfolding(crate::specs::OfferSteps::paid_for, refusals::specs::Outcomes::bind))]
fn pay_and_open(
    alloc: Global,
    world: &World,
    by: Invited,
    read: Proposed,
    args: &[Data],
) -> Result<CallOutcome, Stop>
    requires good { IsGoodWorld (world_of world.now) }
    requires handed { AreHanded (world_of world.now) (trees args.now) }
    requires made { by.payment < length (world_of world.now).rights.payments }
    requires live { is_live_in (world_of world.now) by.payment ≡ true }
    requires give { AreApart read.give.items }
    requires want { AreApart read.want.items }
    requires given { wanted (record_in (arg 3 (trees args.now))) (bad_args 3)
        ≡ Ok (named_trees read.payments.now) }
    requires kinds { All (λ r. r.amount.value.kind
        ≡ kind_at (world_of world.now).rights.out r.amount.brand) read.give.items }
    ensures { GivesOutcome (paid_for (world_of world.now) (invited_view by) (proposed_view read.entry)
        (trees args.now)) result }
{
    let payments = read_payments(
        alloc,
        world,
        by.payment,
        read.give.as_slice(),
        args,
        read.payments,
    )?;
    let given = argument(args, 4);
    open_seat(alloc, world, by, read, payments.as_slice(), given)
}

/// `zoe.offer(invitation, proposal, payments, offerArgs)` (Zoe).
#[tactic(auto, using(crate::proofs::ReadShares::give_kinds, crate::proofs::ReadShares::give_apart, crate::proofs::ReadShares::want_apart, crate::proofs::ReadShares::payments_read), unfolding(rules::specs::Zoe::offer, crate::specs::OfferSteps::paid_for, crate::specs::OfferSteps::opened, refusals::specs::Outcomes::bind))]
pub fn offer(alloc: Global, world: &World, args: &[Data]) -> Result<CallOutcome, Stop>
    requires good { IsGoodWorld (world_of world.now) }
    requires handed { AreHanded (world_of world.now) (trees args.now) }
    ensures { GivesOutcome (offer (world_of world.now) (trees args.now)) result }
{
    let by = read_invitation(world, args)?;
    let issuers = world.registers.instances.issuers(by.instance).issuers();
    let read = read_proposal(alloc, issuers, argument(args, 2), argument(args, 3))?;
    pay_and_open(alloc, world, by, read, args)
}
