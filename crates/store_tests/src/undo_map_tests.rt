use actors::turn_stores_lib::undo_map::UndoMap;

#[derive(Clone, Copy)]
enum Step {
    Put(u32, u32),
    TakeOut(u32),
    Forget,
    Back,
}

/// Takes a step, and answers whether it was taken: a put, or the taking out of a key that was there.
fn take(map: &mut UndoMap<u32, u32>, step: Step) -> bool {
    match step {
        Step::Put(key, value) => return map.put(key, value).is_ok(),
        Step::TakeOut(key) => return map.take_out(key),
        Step::Forget => map.forget(),
        Step::Back => map.back(),
    }
    true
}

/// The value of a key, or 0.
fn at(map: &UndoMap<u32, u32>, key: u32) -> u32 {
    match map.get(key) {
        Some(value) => *value,
        None => 0,
    }
}

/// Steps, whether each is taken, and the values of the keys 1, 2 and 3 after it.
const STEPS: &[(Step, bool, u32, u32, u32)] = &[
    (Step::Back, true, 0, 0, 0),
    (Step::Put(1, 10), true, 10, 0, 0),
    (Step::Put(3, 30), true, 10, 0, 30),
    (Step::Forget, true, 10, 0, 30),
    (Step::Put(2, 20), true, 10, 20, 30),
    (Step::Put(1, 11), true, 11, 20, 30),
    (Step::TakeOut(3), true, 11, 20, 0),
    (Step::TakeOut(3), false, 11, 20, 0),
    (Step::Put(1, 12), true, 12, 20, 0),
    (Step::Back, true, 10, 0, 30),
    (Step::TakeOut(1), true, 0, 0, 30),
    (Step::Put(1, 13), true, 13, 0, 30),
    (Step::TakeOut(3), true, 13, 0, 0),
    (Step::Forget, true, 13, 0, 0),
    (Step::Put(3, 33), true, 13, 0, 33),
    (Step::Back, true, 13, 0, 0),
];

#[test]
fn a_turns_changes_are_undone_or_kept(rt: HostRuntime) {
    let mut map = UndoMap::new(rt.alloc());
    for (step, taken, one, two, three) in STEPS {
        let was_taken = take(&mut map, *step);
        let holds = at(&map, 1) == *one && at(&map, 2) == *two && at(&map, 3) == *three;
        assert!(rt; was_taken == *taken && holds);
    }
}

/// The first key from one on, or 0.
fn from(map: &UndoMap<u32, u32>, key: u32) -> u32 {
    map.next(key).unwrap_or(0)
}

#[test]
fn keys_come_in_order(rt: HostRuntime) {
    let mut map = UndoMap::new(rt.alloc());
    for step in &[
        Step::Put(7, 1),
        Step::Put(2, 1),
        Step::Put(5, 1),
        Step::TakeOut(5),
    ] {
        take(&mut map, *step);
    }
    assert!(rt;
        from(&map, 0) == 2 && from(&map, 2) == 2 && from(&map, 3) == 7 && from(&map, 8) == 0
    );
}
