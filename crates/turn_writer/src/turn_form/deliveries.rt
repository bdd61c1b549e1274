//! What the types of deliveries and answers give.

ghost use Rattle.std.specs.Str.{IsUtf8};
ghost use Rattle.turn_records.specs.Views.{answer_view, delivery_view, reading_view};
ghost use Rattle.turn_writer.specs.Typed.{HasAnswerTypes, HasDeliveryTypes, HasReadingTypes, IsLabel};

use crate::turn_form::data::{
    data_has_types, is_text, items_have_types, number_has_range, settlement_has_types,
};
use crate::turn_form::shown::shown_is_printable;
use turn_records::deliveries::{Delivery, Reading};
use turn_records::events::Answer;
use turn_rows::host_text_lib::label::Label;

fn label_has_form(label: &Label)
    ensures form { IsLabel label.now }
    ensures text { IsUtf8 label.now }
{
    let _text = label.as_str();
}

pub fn delivery_has_types(delivery: &Delivery)
    ensures { HasDeliveryTypes (delivery_view delivery.now) }
{
    match delivery {
        Delivery::Call(call) => {
            label_has_form(&call.by);
            is_text(&call.method);
        }
        Delivery::Give(gift) => {
            label_has_form(&gift.by);
            label_has_form(&gift.to);
            label_has_form(&gift.label);
        }
        Delivery::Tick(_) => {}
        Delivery::Bad(_) => {}
        Delivery::Send(send) => {
            let _instance = send.instance;
            is_text(&send.method);
        }
        Delivery::Start(start) => number_has_range(&start.instance),
        Delivery::Offer(offer) => {
            let (_instance, _seat) = (offer.instance, offer.seat);
            data_has_types(&offer.offer_arguments);
        }
        Delivery::Wake(wakeup) => number_has_range(&wakeup.instance),
        Delivery::Notify(notice) => {
            let (_instance, _promise) = (notice.instance, notice.promise);
        }
        Delivery::Deadline(seat) => number_has_range(seat),
    }
}

pub fn reading_has_types(reading: &Reading)
    ensures { HasReadingTypes (reading_view reading.now) }
{
    match reading {
        Reading::Target(object, arguments) => {
            number_has_range(&object.number);
            items_have_types(arguments.as_slice());
        }
        Reading::Gift(gift) => data_has_types(gift),
        Reading::Settlement(settlement) => settlement_has_types(settlement),
        _ => {}
    }
}

pub fn answer_has_types(answer: &Answer)
    ensures { HasAnswerTypes (answer_view answer.now) }
{
    match answer {
        Answer::Given(given) => data_has_types(given),
        Answer::Refused(refusal) => shown_is_printable(refusal),
        Answer::Threw(thrown) => data_has_types(thrown),
        Answer::Spent(meter) => {
            let _meter = *meter;
        }
    }
}
