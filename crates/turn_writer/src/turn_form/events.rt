//! What the types of events give.

ghost use Rattle.std.specs.List.{AllByRecursion};
ghost use Rattle.turn_records.specs.Tellable.{IsTellableExit, IsTellablePayout};
ghost use Rattle.turn_records.specs.Views.{call_view, event_view, event_views, leaving_view, opening_view, payout_view, payout_views};
ghost use Rattle.turn_writer.specs.Typed.{HasCallTypes, HasEventTypes, HasOpeningTypes, HasTargetType};

use crate::turn_form::amounts::{keyword_has_form, movement_has_types, shares_have_types};
use crate::turn_form::data::{is_text, items_have_types, number_has_range, settlement_has_types};
use crate::turn_form::deliveries::answer_has_types;
use turn_records::events::{Call, Event, Leaving, Opening, Payout};
use turn_records::host_data_lib::data::Obj;

fn target_has_type(on: &Option<Obj>)
    ensures { HasTargetType on.now }
{
    if let Some(object) = on {
        number_has_range(&object.number);
    }
}

fn call_has_types(call: &Call)
    ensures { HasCallTypes (call_view call.now) }
{
    target_has_type(&call.on);
    is_text(&call.method);
    items_have_types(call.arguments.as_slice());
    answer_has_types(&call.answer);
}

fn opening_has_types(opening: &Opening)
    ensures { HasOpeningTypes (opening_view opening.now) }
{
    let (_seat, _instance) = (opening.seat, opening.instance);
    shares_have_types(opening.proposal.give.shares());
    shares_have_types(opening.proposal.want.shares());
}

fn payout_has_types(payout: &Payout)
    ensures { IsTellablePayout (payout_view payout.now) }
{
    keyword_has_form(&payout.keyword);
    let _payment = payout.payment;
}

fn payouts_have_types(payouts: &[Payout])
    ensures { AllByRecursion IsTellablePayout (payout_views payouts.now) }
{
    for payout in payouts {
        payout_has_types(payout);
    }
}

fn leaving_has_types(leaving: &Leaving)
    ensures { IsTellableExit (leaving_view leaving.now) }
{
    let _seat = leaving.seat;
    payouts_have_types(leaving.payouts.as_slice());
}

fn event_has_types(event: &Event)
    ensures { HasEventTypes (event_view event.now) }
{
    match event {
        Event::Called(call) => call_has_types(call),
        Event::Opened(opening) => opening_has_types(opening),
        Event::Moved(movement) => movement_has_types(movement),
        Event::Exited(leaving) => leaving_has_types(leaving),
        Event::Settled(promise, settlement) => {
            number_has_range(promise);
            settlement_has_types(settlement);
        }
    }
}

pub fn events_have_types(events: &[Event])
    ensures { AllByRecursion HasEventTypes (event_views events.now) }
{
    for event in events {
        event_has_types(event);
    }
}
