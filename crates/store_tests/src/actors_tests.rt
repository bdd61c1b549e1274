ghost use Rattle.std.specs.Prelude.{◌≡◌, ◌<◌, IsTrue};
ghost use Rattle.actors.specs.promise_store.States.{is_final, pending, settlement_view};
ghost use Rattle.actors.specs.promise_store.Turns.{state_at};
ghost use Rattle.actors.specs.promise_store.Views.{links_now, now_of};

use actors::host_data_lib::data::{Data, Obj, ObjKind};
use actors::leaving::leaves;
use actors::paths::{ResolveFault, Stands};
use actors::promise_store_lib::{Promises, Settlement, State};
use actors::{BindFault, Parties};
use escrow::host_text_lib::label::Label;
use escrow::host_text_lib::text::Text;
use std::alloc::Global;
use std::process::Abort;

fn label(rt: &impl Abort, alloc: Global, text: &str) -> Label {
    match Label::read(alloc, text.as_bytes()) {
        Ok(label) => label,
        Err(_) => panic!(rt; "a label, and memory"),
    }
}

fn text(rt: &impl Abort, alloc: Global, text: &str) -> Text {
    match Text::from_str(alloc, text) {
        Ok(text) => text,
        Err(_) => panic!(rt; "memory for a text"),
    }
}

/// Binds a label of alice, and answers why it isn't bound.
fn bind(
    rt: &impl Abort,
    alloc: Global,
    parties: &mut Parties,
    name: &str,
    value: Data,
) -> Option<BindFault> {
    let party = label(rt, alloc, "alice");
    let name = label(rt, alloc, name);
    match parties.bind(&party, &name, value) {
        Ok(()) => None,
        Err(refused) => {
            let fault = refused.1;
            drop(refused);
            Some(fault)
        }
    }
}

fn is_bound(rt: &impl Abort, alloc: Global, parties: &Parties, name: &str) -> bool {
    let party = label(rt, alloc, "alice");
    let name = label(rt, alloc, name);
    parties.is_bound(&party, &name)
}

#[derive(Clone, Copy)]
enum Step {
    /// Binds a label of alice to a number.
    Bind(&'static str, i128),
    Forget,
    Back,
}

/// Takes a step, and answers whether it was taken.
fn take(rt: &impl Abort, alloc: Global, parties: &mut Parties, step: Step) -> bool {
    match step {
        Step::Bind(name, number) => {
            return bind(rt, alloc, parties, name, Data::Number(number)).is_none();
        }
        Step::Forget => parties.forget(),
        Step::Back => parties.back(),
    }
    true
}

/// Steps, whether each is taken, and whether `a` and `b` are bound after it.
const STEPS: &[(Step, bool, bool, bool)] = &[
    (Step::Bind("ertp", 1), false, false, false),
    (Step::Bind("a", 1), true, true, false),
    (Step::Bind("a", 2), false, true, false),
    (Step::Forget, true, true, false),
    (Step::Bind("b", 1), true, true, true),
    (Step::Back, true, true, false),
    (Step::Bind("b", 2), true, true, true),
    (Step::Forget, true, true, true),
    (Step::Back, true, true, true),
];

/// Whether a step is taken or not, and what is bound after it.
fn goes(rt: &impl Abort, alloc: Global, parties: &mut Parties, step: Step) -> (bool, bool, bool) {
    let taken = take(rt, alloc, parties, step);
    let a = is_bound(rt, alloc, parties, "a");
    let b = is_bound(rt, alloc, parties, "b");
    (taken, a, b)
}

#[test]
fn labels_are_kept_or_undone(rt: HostRuntime) {
    let mut parties = Parties::new(rt.alloc());
    for (step, taken, a, b) in STEPS {
        let went = goes(&rt, rt.alloc(), &mut parties, *step);
        assert!(rt; went == (*taken, *a, *b));
    }
}

fn push(rt: &impl Abort, items: &mut Vec<Data>, item: Data) {
    if let Err(failed) = items.push(item) {
        drop(failed);
        panic!(rt; "memory for an item");
    }
}

fn promise(number: u32) -> Data {
    let kind = ObjKind::Promise;
    Data::Object(Obj { kind, number })
}

/// The record `{x: 6}`.
fn record(rt: &impl Abort, alloc: Global) -> Data {
    let name = text(rt, alloc, "x");
    let mut fields = Vec::new(alloc);
    if let Err(failed) = fields.push((name, Data::Number(6))) {
        drop(failed);
        panic!(rt; "memory for a field");
    }
    Data::Record(fields)
}

/// Three promises and 5.
fn list(rt: &impl Abort, alloc: Global) -> Data {
    let mut items = Vec::new(alloc);
    for number in 0..3 {
        push(rt, &mut items, promise(number));
    }
    push(rt, &mut items, Data::Number(5));
    Data::Array(items)
}

/// Alice has a list and a record.
fn alice(rt: &impl Abort, alloc: Global) -> Parties {
    let mut parties = Parties::new(alloc);
    assert!(rt; bind(rt, alloc, &mut parties, "list", list(rt, alloc)).is_none());
    assert!(rt; bind(rt, alloc, &mut parties, "fields", record(rt, alloc)).is_none());
    parties
}

/// Whether it ends a promise: no other promise would have to be followed.
fn is_final(settlement: &Settlement) -> bool
    ensures { result ≡ is_final (settlement_view settlement.now) }
{
    match settlement {
        Settlement::Ok(Data::Object(object)) => !matches!(object.kind, ObjKind::Promise),
        _ => true,
    }
}

fn can_settle(promises: &Promises<u32>, number: u32, settlement: &Settlement) -> bool
    ensures made { IsTrue result → number < (links_now promises.now).made }
    ensures is_pending { IsTrue result → state_at (now_of promises.now) number ≡ pending }
    ensures is_final { IsTrue result → IsTrue (is_final (settlement_view settlement.now)) }
{
    number < promises.made()
        && is_final(settlement)
        && matches!(promises.state(number), State::Pending)
}

/// Settles a promise that is pending.
fn settle(promises: &mut Promises<u32>, number: u32, settlement: Settlement) -> bool {
    if !can_settle(promises, number, &settlement) {
        return false;
    }
    promises.settle(number, settlement).is_ok()
}

/// A promise that is settled with a record, one that is pending, and a broken one.
fn three_promises(rt: &impl Abort, alloc: Global) -> Promises<u32> {
    let mut promises = Promises::new(alloc);
    for number in 0..3 {
        assert!(rt; promises.make() == Ok(number));
    }
    assert!(rt; settle(&mut promises, 0, Settlement::Ok(record(rt, alloc))));
    assert!(rt; settle(&mut promises, 2, Settlement::Broken(Data::Null)));
    promises
}

#[derive(Clone, Copy, PartialEq)]
enum Answer {
    Number(i128),
    Object,
    Other,
    Fault(ResolveFault),
}

fn answer_of(there: &Data) -> Answer {
    match there {
        Data::Number(number) => Answer::Number(*number),
        Data::Object(_) => Answer::Object,
        _ => Answer::Other,
    }
}

fn answer_of_copy(rt: &impl Abort, alloc: Global, there: Stands<'_>) -> Answer {
    match there.copy(alloc) {
        Ok(copy) => {
            let answer = answer_of(&copy);
            drop(copy);
            answer
        }
        Err(_) => panic!(rt; "memory for a copy"),
    }
}

/// Paths of alice, and what stands there.
const PATHS: &[(&str, Answer)] = &[
    ("ertp", Answer::Object),
    ("ertp.x", Answer::Fault(ResolveFault::UnknownName)),
    ("nobody", Answer::Fault(ResolveFault::UnknownName)),
    ("fields.x", Answer::Number(6)),
    ("fields.y", Answer::Fault(ResolveFault::UnknownName)),
    ("list.3", Answer::Number(5)),
    ("list.4", Answer::Fault(ResolveFault::UnknownName)),
    ("list.0", Answer::Other),
    ("list.0.x", Answer::Number(6)),
    ("list.1", Answer::Fault(ResolveFault::Pending)),
    ("list.2.x", Answer::Fault(ResolveFault::Broken(2))),
];

fn resolved(
    rt: &impl Abort,
    alloc: Global,
    parties: &Parties,
    promises: &Promises<u32>,
    path: &str,
) -> Answer {
    let party = label(rt, alloc, "alice");
    let path = text(rt, alloc, path);
    match parties.resolve(&party, &path, promises) {
        Ok(there) => answer_of_copy(rt, alloc, there),
        Err(fault) => Answer::Fault(fault),
    }
}

fn are_resolved(
    rt: &impl Abort,
    alloc: Global,
    parties: &Parties,
    promises: &Promises<u32>,
) -> bool {
    for (path, wanted) in PATHS {
        if resolved(rt, alloc, parties, promises, path) != *wanted {
            return false;
        }
    }
    true
}

#[test]
fn paths_follow_promises(rt: HostRuntime) {
    let parties = alice(&rt, rt.alloc());
    let promises = three_promises(&rt, rt.alloc());
    let resolved = are_resolved(&rt, rt.alloc(), &parties, &promises);
    drop(promises);
    drop(parties);
    assert!(rt; resolved);
}

#[test]
fn what_is_local_stays(rt: HostRuntime) {
    let kind = ObjKind::Zseat;
    let seat = Data::Object(Obj { kind, number: 0 });
    assert!(rt; leaves(&seat).is_err() && leaves(&promise(0)).is_ok());
}
