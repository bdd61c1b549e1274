//! Seats of instance 1 that take over their staging (Zoe's reallocate).

ghost use Rattle.std.specs.Prelude.{All};
ghost use Rattle.seat_tests.specs.Brands.{HasBrands};

use crate::parts::{FULL, Given, OPEN, Said, Shares, states, told};
use rearrange::seat_states::SeatStates;
use rearrange::staged::plan_staged;
use std::alloc::Global;
use std::process::Abort;

/// Seats, those that are listed, and what comes of it.
#[derive(Clone, Copy)]
struct Case {
    seats: &'static [Given],
    listed: &'static [u32],
    after: &'static [(u32, Shares)],
    said: Said,
}

/// What is told of the plan of a case.
fn plan(alloc: Global, states: &SeatStates, case: &Case) -> Said
    requires { All HasBrands states.now }
{
    told(plan_staged(alloc, 1, states, case.listed), case.after)
}

fn reallocated(rt: &impl Abort, alloc: Global, case: &Case) -> Said {
    let states = states(rt, alloc, case.seats);
    plan(alloc, &states, case)
}

/// Gave Asset 3, wants Price 7 and is to have it.
const ALICE: Given = Given {
    seat: 0,
    give: &[("Asset", 3)],
    want: &[("Price", 7)],
    slots: &[("Asset", 3), ("Price", 0)],
    staged: Some(&[("Asset", 0), ("Price", 7)]),
    ..OPEN
};

/// Gave Price 7, wants Asset 3 and is to have it.
const BOB: Given = Given {
    seat: 1,
    give: &[("Price", 7)],
    want: &[("Asset", 3)],
    slots: &[("Price", 7), ("Asset", 0)],
    staged: Some(&[("Price", 0), ("Asset", 3)]),
    ..OPEN
};

const UNSTAGED: Given = Given {
    seat: 2,
    slots: &[("X", 4)],
    ..OPEN
};

const EXITED: Given = Given {
    seat: 3,
    is_open: false,
    ..OPEN
};

const FOREIGN: Given = Given {
    seat: 4,
    instance: 2,
    ..OPEN
};

const PLANNED: &[Case] = &[
    Case {
        seats: &[ALICE, BOB],
        listed: &[1, 0],
        after: &[
            (1, &[("Price", 0), ("Asset", 3)]),
            (0, &[("Asset", 0), ("Price", 7)]),
        ],
        said: Said::Planned,
    },
    // A seat without staging has what it has.
    Case {
        seats: &[ALICE, BOB, UNSTAGED],
        listed: &[0, 1, 2],
        after: &[
            (0, &[("Asset", 0), ("Price", 7)]),
            (1, &[("Price", 0), ("Asset", 3)]),
            (2, &[("X", 4)]),
        ],
        said: Said::Planned,
    },
];

/// The seats are tested in this order, before any amount, each test over all of them.
const SEATS: &[Case] = &[
    Case {
        seats: &[ALICE, BOB, FOREIGN],
        listed: &[4],
        after: &[],
        said: Said::WrongInstance(4),
    },
    Case {
        seats: &[ALICE, BOB],
        listed: &[0],
        after: &[],
        said: Said::OneSeat,
    },
    Case {
        seats: &[ALICE, BOB, EXITED],
        listed: &[3, 1, 1, 0, 0],
        after: &[],
        said: Said::RepeatedSeat(0),
    },
    Case {
        seats: &[ALICE, BOB, EXITED],
        listed: &[0, 3],
        after: &[],
        said: Said::SeatExited(3),
    },
    Case {
        seats: &[ALICE, BOB, UNSTAGED],
        listed: &[0, 2],
        after: &[],
        said: Said::StagedLeftOut(1),
    },
];

const REFUSED: &[Case] = &[
    // As much is to be there as before, but of another brand.
    Case {
        seats: &[
            Given {
                staged: Some(&[("Asset", 4), ("Price", 3)]),
                ..BOB
            },
            UNSTAGED,
        ],
        listed: &[1, 2],
        after: &[],
        said: Said::NotConserved(1, 0, 4),
    },
    // All of the Price, but not all of the Asset.
    Case {
        seats: &[
            ALICE,
            Given {
                slots: &[("Price", 7), ("Asset", 1)],
                staged: Some(&[("Price", 0), ("Asset", 2)]),
                ..BOB
            },
            Given {
                staged: Some(&[("Asset", 2), ("X", 4)]),
                ..UNSTAGED
            },
        ],
        listed: &[0, 1, 2],
        after: &[],
        said: Said::NotOfferSafe(1),
    },
    Case {
        seats: &[
            Given {
                staged: Some(&[("X", 3)]),
                ..UNSTAGED
            },
            Given {
                staged: Some(&[("Zoe", 1)]),
                ..FULL
            },
        ],
        listed: &[5, 2],
        after: &[],
        said: Said::Limit,
    },
];

#[test]
fn staged_seats_are_planned(rt: HostRuntime) {
    for case in PLANNED {
        assert!(rt; reallocated(&rt, rt.alloc(), case) == case.said);
    }
}

#[test]
fn listed_seats_are_open_ones_of_the_instance_and_all_that_are_staged(rt: HostRuntime) {
    for case in SEATS {
        assert!(rt; reallocated(&rt, rt.alloc(), case) == case.said);
    }
}

#[test]
fn what_is_staged_is_conserved_and_offer_safe(rt: HostRuntime) {
    for case in REFUSED {
        assert!(rt; reallocated(&rt, rt.alloc(), case) == case.said);
    }
}
