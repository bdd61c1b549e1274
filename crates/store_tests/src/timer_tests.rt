use actors::turn_stores_lib::timer::Timer;

#[derive(Clone, Copy)]
enum Step {
    SetTo(u64),
    WakeAt(u64, u32),
    TakeDue,
    Forget,
    Back,
}

/// Takes a step, and answers whether it was taken.
fn take(timer: &mut Timer<u32>, step: Step) -> bool {
    match step {
        Step::SetTo(time) => return timer.set_to(time).is_ok(),
        Step::WakeAt(time, entry) => return timer.wake_at(time, entry).is_ok(),
        Step::TakeDue => return timer.take_due(),
        Step::Forget => timer.forget(),
        Step::Back => timer.back(),
    }
    true
}

/// The first entry that is due, or 0.
fn due(timer: &Timer<u32>) -> u32 {
    match timer.due() {
        Some(entry) => *entry,
        None => 0,
    }
}

/// Steps, whether each is taken, what the timer is set to after it, and what is due.
const STEPS: &[(Step, bool, u64, u32)] = &[
    (Step::TakeDue, false, 0, 0),
    (Step::WakeAt(5, 1), true, 0, 0),
    (Step::WakeAt(3, 2), true, 0, 0),
    (Step::WakeAt(5, 3), true, 0, 0),
    (Step::SetTo(4), true, 4, 2),
    (Step::Forget, true, 4, 2),
    (Step::SetTo(3), false, 4, 2),
    (Step::SetTo(4), true, 4, 2),
    (Step::TakeDue, true, 4, 0),
    (Step::SetTo(6), true, 6, 1),
    // One whose time has come is due at once, in the order of times.
    (Step::WakeAt(2, 4), true, 6, 4),
    (Step::WakeAt(6, 5), true, 6, 4),
    (Step::TakeDue, true, 6, 1),
    (Step::TakeDue, true, 6, 3),
    (Step::TakeDue, true, 6, 5),
    (Step::TakeDue, true, 6, 0),
    (Step::Back, true, 4, 2),
    (Step::TakeDue, true, 4, 0),
    (Step::SetTo(5), true, 5, 1),
    (Step::TakeDue, true, 5, 3),
];

#[test]
fn entries_are_due_by_time_and_then_by_order(rt: HostRuntime) {
    let mut timer = Timer::new(rt.alloc());
    for (step, taken, time, first) in STEPS {
        let was_taken = take(&mut timer, *step);
        let holds = timer.now() == *time && due(&timer) == *first;
        assert!(rt; was_taken == *taken && holds);
    }
}
