//! The seats that transfers name, which are to be open ones of instance 1 (Zoe's atomicRearrange).

use crate::parts::{Given, OPEN, Said, of_seats, states};
use rearrange::seats::transfers_refusal;
use std::alloc::Global;
use std::process::Abort;

/// Seats, those that transfers name, and what is told of these.
#[derive(Clone, Copy)]
struct Case {
    seats: &'static [Given],
    named: &'static [u32],
    said: Said,
}

fn said(rt: &impl Abort, alloc: Global, case: &Case) -> Said {
    let states = states(rt, alloc, case.seats);
    match transfers_refusal(1, &states, case.named) {
        Some(fault) => of_seats(fault),
        None => Said::Planned,
    }
}

const EXITED: Given = Given {
    seat: 3,
    is_open: false,
    ..OPEN
};

const FOREIGN: Given = Given {
    seat: 4,
    instance: 2,
    is_open: false,
    ..OPEN
};

const OTHER: Given = Given { seat: 1, ..OPEN };

/// The seats are tested for their instance first.
const CASES: &[Case] = &[
    Case {
        seats: &[EXITED, FOREIGN],
        named: &[3, 4],
        said: Said::WrongInstance(4),
    },
    Case {
        seats: &[OPEN, OTHER, EXITED],
        named: &[0, 1, 1, 3],
        said: Said::SeatExited(3),
    },
    Case {
        seats: &[OPEN, OTHER, FOREIGN],
        named: &[0, 1, 1, 0],
        said: Said::Planned,
    },
];

#[test]
fn the_seats_of_transfers_are_open_ones_of_the_instance(rt: HostRuntime) {
    for case in CASES {
        assert!(rt; said(&rt, rt.alloc(), case) == case.said);
    }
}
