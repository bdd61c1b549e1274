use actors::turn_stores_lib::turn_queue::TurnQueue;

#[derive(Clone, Copy)]
enum Step {
    Push(u32),
    Pop,
    Forget,
    Back,
}

/// Takes a step, and answers whether it was taken. What is in front is popped after a forget alone.
fn take(queue: &mut TurnQueue<u32>, step: Step) -> bool {
    match step {
        Step::Push(entry) => return queue.push(entry).is_ok(),
        Step::Pop => {
            queue.forget();
            return queue.pop().is_some();
        }
        Step::Forget => queue.forget(),
        Step::Back => queue.back(),
    }
    true
}

/// What is in front, or 0.
fn front(queue: &TurnQueue<u32>) -> u32 {
    match queue.front() {
        Some(entry) => *entry,
        None => 0,
    }
}

/// Steps, whether each is taken, what is in front after it, and how many wait.
const STEPS: &[(Step, bool, u32, usize)] = &[
    (Step::Back, true, 0, 0),
    (Step::Pop, false, 0, 0),
    (Step::Push(1), true, 1, 1),
    (Step::Push(2), true, 1, 2),
    (Step::Forget, true, 1, 2),
    (Step::Push(3), true, 1, 3),
    (Step::Back, true, 1, 2),
    (Step::Push(4), true, 1, 3),
    (Step::Pop, true, 2, 2),
    (Step::Pop, true, 4, 1),
    (Step::Push(5), true, 4, 2),
    (Step::Back, true, 4, 1),
];

#[test]
fn first_in_is_first_out_and_appends_are_cut_off(rt: HostRuntime) {
    let mut queue = TurnQueue::new(rt.alloc());
    for (step, taken, in_front, waiting) in STEPS {
        let was_taken = take(&mut queue, *step);
        let holds = front(&queue) == *in_front && queue.len() == *waiting;
        assert!(rt; was_taken == *taken && holds);
    }
}
