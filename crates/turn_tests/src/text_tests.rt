use std::alloc::Global;
use turn_writer::host_data_lib::data::Data;
use turn_writer::promise_store_lib::Settlement;
use turn_writer::refusals_lib::codes::Refusal;
use turn_writer::turn_records_lib::deliveries::{Delivery, Reading, Start};
use turn_writer::turn_records_lib::events::{Answer, Event};
use turn_writer::turn_records_lib::log::Log;
use turn_writer::turn_records_lib::turn_answers::records::{Delivered, turn_of};
use turn_writer::turn_records_lib::turn_answers::settlements::settlement_of;
use turn_writer::turn_records_lib::turns::TurnRecord;
use turn_writer::turn_rows_lib::editions::Edition;
use turn_writer::{write_close, write_turn};

/// Whether the text of a turn that comes after so many others is the expected one.
fn is_written(
    alloc: Global,
    edition: Edition,
    before: u32,
    turn: &TurnRecord,
    expected: &str,
) -> bool {
    match write_turn(alloc, edition, before, turn) {
        Ok(text) => text.as_str() == expected,
        Err(_) => false,
    }
}

/// The record of a turn in which nothing happened.
fn quiet_turn(alloc: Global, number: u32, delivery: Delivery, answer: Answer) -> TurnRecord {
    let mut log = Log::new(alloc);
    let delivered = Delivered {
        delivery,
        reading: Reading::Nothing,
    };
    turn_of(alloc, number, delivered, answer, &mut log, Vec::new(alloc))
}

#[test]
fn a_tick_that_goes_back_is_told(rt: HostRuntime) {
    let refused = Answer::Refused(Refusal::Backwards(5, 3));
    let turn = quiet_turn(rt.alloc(), 2, Delivery::Tick(3), refused);
    let expected =
        "{\"answer\":{\"refused\":{\"code\":\"Backwards\",\"shown\":[5,3]}},\"args\":[3],\"by\":\"\",\"do\":\"\",\"kind\":\"tick\",\"n\":2,\"on\":\"timer\",\"row\":\"turn\"}\n";
    let holds = is_written(rt.alloc(), Edition::Second, 1, &turn, expected);
    drop(turn);
    assert!(rt; holds);
}

#[test]
fn the_first_turn_has_the_version_row_before_it(rt: HostRuntime) {
    let turn = quiet_turn(rt.alloc(), 1, Delivery::Tick(3), Answer::Given(Data::Null));
    let rows =
        "{\"answer\":{\"ok\":null},\"args\":[3],\"by\":\"\",\"do\":\"\",\"kind\":\"tick\",\"n\":1,\"on\":\"timer\",\"row\":\"turn\"}\n";
    let begun =
        "{\"row\":\"version\",\"version\":2}\n{\"answer\":{\"ok\":null},\"args\":[3],\"by\":\"\",\"do\":\"\",\"kind\":\"tick\",\"n\":1,\"on\":\"timer\",\"row\":\"turn\"}\n";
    let first = is_written(rt.alloc(), Edition::First, 0, &turn, rows);
    let second = is_written(rt.alloc(), Edition::Second, 0, &turn, begun);
    drop(turn);
    assert!(rt; first && second);
}

/// Logs that promise 0 was settled.
fn log_settled(log: &mut Log, settlement: Settlement) -> bool {
    let pushed = log.push(Event::Settled(0, settlement));
    let is_logged = pushed.is_ok();
    drop(pushed);
    is_logged
}

/// The start of instance 0, whose promise is promise 0.
fn first_start() -> Delivery {
    Delivery::Start(Start {
        instance: 0,
        private_arguments: Data::Null,
        promise: 0,
    })
}

/// Logs that promise 0 was settled with what a spent meter of 1 brings.
fn log_spent(alloc: Global, log: &mut Log) -> bool {
    let start = first_start();
    let made = settlement_of(alloc, &start, &Answer::Spent(1));
    drop(start);
    match made {
        Ok(settlement) => log_settled(log, settlement),
        Err(_) => false,
    }
}

/// The fifth turn, the start of an instance that spends its meter of 1.
fn spent_turn(alloc: Global, log: &mut Log) -> TurnRecord {
    let delivered = Delivered {
        delivery: first_start(),
        reading: Reading::Nothing,
    };
    turn_of(alloc, 5, delivered, Answer::Spent(1), log, Vec::new(alloc))
}

/// Whether that turn is written so, with what the log has.
fn is_spent_written(alloc: Global, log: &mut Log) -> bool {
    let turn = spent_turn(alloc, log);
    let expected =
        "{\"answer\":{\"spent\":1},\"args\":[],\"by\":\"instance0\",\"do\":\"start\",\"kind\":\"start\",\"n\":5,\"on\":\"instance0\",\"row\":\"turn\"}\n{\"promise\":0,\"row\":\"settle\",\"to\":{\"broken\":{\"code\":\"Spent\",\"shown\":[1]}}}\n";
    let holds = is_written(alloc, Edition::Second, 4, &turn, expected);
    drop(turn);
    holds
}

#[test]
fn a_start_that_spends_its_meter_breaks_its_promise(rt: HostRuntime) {
    let mut log = Log::new(rt.alloc());
    let logged = log_spent(rt.alloc(), &mut log);
    let written = is_spent_written(rt.alloc(), &mut log);
    let holds = logged && written && log.events().is_empty();
    drop(log);
    assert!(rt; holds);
}

/// Whether the close row after so many turns, with what stands before it, is the expected text.
fn is_closed(alloc: Global, edition: Edition, turns: u32, expected: &str) -> bool {
    match write_close(alloc, edition, 6, turns) {
        Ok(text) => text.as_str() == expected,
        Err(_) => false,
    }
}

#[test]
fn what_is_left_is_told_last(rt: HostRuntime) {
    let alone = "{\"left\":6,\"row\":\"close\",\"turns\":0}\n";
    let begun = "{\"row\":\"version\",\"version\":2}\n{\"left\":6,\"row\":\"close\",\"turns\":0}\n";
    let later = "{\"left\":6,\"row\":\"close\",\"turns\":2}\n";
    let first = is_closed(rt.alloc(), Edition::First, 0, alone);
    let second = is_closed(rt.alloc(), Edition::Second, 0, begun);
    let after = is_closed(rt.alloc(), Edition::Second, 2, later);
    assert!(rt; first && second && after);
}
