ghost use Rattle.std.specs.Prelude.{◌≡◌, ◌<◌, IsTrue};
ghost use Rattle.actors.specs.promise_store.States.{is_final, pending, settlement_view};
ghost use Rattle.actors.specs.promise_store.Turns.{state_at};
ghost use Rattle.actors.specs.promise_store.Views.{links_now, now_of};

use actors::host_data_lib::data::Data;
use actors::promise_store_lib::{Consequence, FollowFault, Promises, Settlement, State};

#[derive(Clone, Copy)]
enum Step {
    Make,
    /// The first follows the second.
    Follow(u32, u32),
    When(u32),
    /// A promise is fulfilled with a number, or broken with it.
    Settle(u32, i128),
    Break(u32, i128),
    Forget,
    Back,
}

/// What a step answers.
#[derive(Clone, Copy)]
enum Answer {
    /// The number of the promise that was made.
    Made(u32),
    Events(&'static [Consequence]),
    Cycle(u32),
}

fn is_pending(promises: &Promises<u32>, promise: u32) -> bool
    ensures made { IsTrue result → promise < (links_now promises.now).made }
    ensures is_pending { IsTrue result → state_at (now_of promises.now) promise ≡ pending }
{
    promise < promises.made() && matches!(promises.state(promise), State::Pending)
}

/// Whether these are the events.
fn are(events: &[Consequence], expected: &[Consequence]) -> bool {
    events.len() == expected.len() && events.iter().zip(expected).all(|(a, b)| *a == *b)
}

fn fulfilled_with(number: i128) -> Settlement
    ensures { IsTrue (is_final (settlement_view result)) }
{
    Settlement::Ok(Data::Number(number))
}

fn broken_with(number: i128) -> Settlement
    ensures { IsTrue (is_final (settlement_view result)) }
{
    Settlement::Broken(Data::Number(number))
}

/// Fulfils a promise with a number, and answers whether these are the events.
fn fulfils(
    promises: &mut Promises<u32>,
    promise: u32,
    number: i128,
    expected: &[Consequence],
) -> bool {
    if !is_pending(promises, promise) {
        return false;
    }
    match promises.settle(promise, fulfilled_with(number)) {
        Ok(events) => are(events.as_slice(), expected),
        Err(_) => false,
    }
}

/// Breaks a promise with a number, and answers whether these are the events.
fn breaks(
    promises: &mut Promises<u32>,
    promise: u32,
    number: i128,
    expected: &[Consequence],
) -> bool {
    if !is_pending(promises, promise) {
        return false;
    }
    match promises.settle(promise, broken_with(number)) {
        Ok(events) => are(events.as_slice(), expected),
        Err(_) => false,
    }
}

fn follows(promises: &mut Promises<u32>, promise: u32, target: u32, answer: Answer) -> bool {
    if !is_pending(promises, promise) || target >= promises.made() {
        return false;
    }
    match (promises.follow(promise, target), answer) {
        (Ok(events), Answer::Events(expected)) => are(events.as_slice(), expected),
        (Err(FollowFault::PromiseCycle(shown)), Answer::Cycle(number)) => shown == number,
        _ => false,
    }
}

/// A request's entry is ten more than the promise that it asks for.
fn asks(promises: &mut Promises<u32>, promise: u32, expected: &[Consequence]) -> bool {
    if promise >= promises.made() {
        return false;
    }
    match (promises.when(promise, promise.saturating_add(10)), expected) {
        (Ok(None), []) => true,
        (Ok(Some(event)), [only]) => event == *only,
        _ => false,
    }
}

/// Takes a step, and answers whether it says what is expected.
fn says(promises: &mut Promises<u32>, step: Step, answer: Answer) -> bool {
    match (step, answer) {
        (Step::Make, Answer::Made(number)) => promises.make() == Ok(number),
        (Step::Follow(promise, target), _) => follows(promises, promise, target, answer),
        (Step::When(promise), Answer::Events(expected)) => asks(promises, promise, expected),
        (Step::Settle(promise, number), Answer::Events(expected)) => {
            fulfils(promises, promise, number, expected)
        }
        (Step::Break(promise, number), Answer::Events(expected)) => {
            breaks(promises, promise, number, expected)
        }
        (Step::Forget, _) => {
            promises.forget();
            true
        }
        (Step::Back, _) => {
            promises.back();
            true
        }
        _ => false,
    }
}

const NONE: Answer = Answer::Events(&[]);

/// A chain of three, with requests for each; two that follow one, of which the first is followed too; a
/// request for, and a following of, what is settled; one that would follow itself, at once and through
/// another; and going back.
const STEPS: &[(Step, Answer)] = &[
    (Step::Make, Answer::Made(0)),
    (Step::Make, Answer::Made(1)),
    (Step::Make, Answer::Made(2)),
    (Step::Follow(2, 1), NONE),
    (Step::Follow(1, 0), NONE),
    (Step::When(0), NONE),
    (Step::When(1), NONE),
    (Step::When(2), NONE),
    (Step::When(0), NONE),
    (Step::Forget, NONE),
    (
        Step::Settle(0, 7),
        Answer::Events(&[
            Consequence::Settled(0),
            Consequence::Settled(1),
            Consequence::Settled(2),
            Consequence::Notified {
                promise: 2,
                request: 2,
            },
            Consequence::Notified {
                promise: 1,
                request: 1,
            },
            Consequence::Notified {
                promise: 0,
                request: 0,
            },
            Consequence::Notified {
                promise: 0,
                request: 3,
            },
        ]),
    ),
    (Step::Back, NONE),
    (Step::Make, Answer::Made(3)),
    (Step::Make, Answer::Made(4)),
    (Step::Follow(3, 0), NONE),
    (Step::Follow(4, 1), NONE),
    (
        Step::Settle(0, 8),
        Answer::Events(&[
            Consequence::Settled(0),
            Consequence::Settled(1),
            Consequence::Settled(2),
            Consequence::Notified {
                promise: 2,
                request: 2,
            },
            Consequence::Settled(4),
            Consequence::Notified {
                promise: 1,
                request: 1,
            },
            Consequence::Settled(3),
            Consequence::Notified {
                promise: 0,
                request: 0,
            },
            Consequence::Notified {
                promise: 0,
                request: 3,
            },
        ]),
    ),
    (Step::Forget, NONE),
    (
        Step::When(2),
        Answer::Events(&[Consequence::Notified {
            promise: 2,
            request: 4,
        }]),
    ),
    (Step::Make, Answer::Made(5)),
    (Step::Make, Answer::Made(6)),
    (Step::Follow(6, 5), NONE),
    (Step::When(6), NONE),
    (
        Step::Follow(5, 4),
        Answer::Events(&[
            Consequence::Settled(5),
            Consequence::Settled(6),
            Consequence::Notified {
                promise: 6,
                request: 5,
            },
        ]),
    ),
    (Step::Make, Answer::Made(7)),
    (Step::Follow(7, 7), Answer::Cycle(7)),
    (Step::Make, Answer::Made(8)),
    (Step::Follow(7, 8), NONE),
    (Step::Follow(8, 7), Answer::Cycle(8)),
    (
        Step::Break(8, 9),
        Answer::Events(&[Consequence::Settled(8), Consequence::Settled(7)]),
    ),
    (Step::Back, NONE),
    (Step::Make, Answer::Made(5)),
    (
        Step::When(4),
        Answer::Events(&[Consequence::Notified {
            promise: 4,
            request: 4,
        }]),
    ),
    (Step::Follow(5, 5), Answer::Cycle(5)),
    (Step::When(5), NONE),
    (
        Step::Break(5, 1),
        Answer::Events(&[
            Consequence::Settled(5),
            Consequence::Notified {
                promise: 5,
                request: 5,
            },
        ]),
    ),
    (Step::Forget, NONE),
];

fn say(promises: &mut Promises<u32>, steps: &[(Step, Answer)]) -> bool {
    for (step, answer) in steps {
        if !says(promises, *step, *answer) {
            return false;
        }
    }
    true
}

#[test]
fn promises_settle_in_order(rt: HostRuntime) {
    let mut promises = Promises::new(rt.alloc());
    let said = say(&mut promises, STEPS);
    drop(promises);
    assert!(rt; said);
}

/// The number that a promise was fulfilled with.
fn fulfilled(promises: &Promises<u32>, promise: u32) -> Option<i128> {
    if promise >= promises.made() {
        return None;
    }
    match promises.state(promise) {
        State::Settled(Settlement::Ok(data)) => data.number(),
        _ => None,
    }
}

fn are_fulfilled(promises: &Promises<u32>, many: u32, number: i128) -> bool {
    for promise in 0..many {
        if fulfilled(promises, promise) != Some(number) {
            return false;
        }
    }
    true
}

#[test]
fn followers_share_what_their_leader_was_settled_with(rt: HostRuntime) {
    let mut promises = Promises::new(rt.alloc());
    let said = say(&mut promises, &STEPS[..18]);
    let fulfilled = are_fulfilled(&promises, 5, 8);
    let is_pending = is_pending(&promises, 5);
    drop(promises);
    assert!(rt; said && fulfilled && !is_pending);
}
