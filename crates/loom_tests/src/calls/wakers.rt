//! Wakers of futures, and places for them.
use crate::calls::run::{Kind, Row, make};
use loom::Op;
use loom::future::{AtomicWaker, BlockOn, Waker};
use std::process::Abort;

/// The calls of these tables, by their numbers there.
pub fn call(number: usize) -> Op<u64, ()> {
    let (block_on, waker) = (BlockOn { number: 1 }, Waker { number: 1 });
    let (later, its_waker) = (BlockOn { number: 2 }, Waker { number: 2 });
    let place = AtomicWaker { number: 0 };
    match number {
        0 => BlockOn::new(),
        1 => waker.clone(),
        2 => waker.wake(),
        3 => block_on.wait(),
        4 => waker.wake_by_ref(),
        5 => waker.drop(),
        6 => block_on.finish(),
        7 => AtomicWaker::new(),
        8 => its_waker.clone(),
        9 => place.register(its_waker),
        10 => place.register_by_ref(&its_waker),
        11 => place.take_waker(),
        12 => place.wake(),
        13 => later.wait(),
        14 => place.drop(),
        15 => its_waker.drop(),
        _ => later.finish(),
    }
}

// Main wakes itself by each call and waits each time, drops a waker, finishes, and finds that no waker is left.
static WAKE_AND_WAIT: [Row; 10] = [
    (
        0,
        "BlockOn::new",
        "Reply(0, BlockOn(1)); Waker { number: 1 }; BlockOn { number: 1 }; Waker { number: 1 }",
    ),
    (1, "waker.clone", "Reply(0, Done)"),
    (2, "waker.wake", "Reply(0, Done)"),
    (3, "block_on.wait", "Reply(0, Done)"),
    (4, "waker.wake_by_ref", "Reply(0, Done)"),
    (3, "block_on.wait", "Reply(0, Done)"),
    (1, "waker.clone", "Reply(0, Done)"),
    (5, "waker.drop", "Reply(0, Done)"),
    (6, "block_on.finish", "Reply(0, Done)"),
    (1, "waker.clone", "Misuse"),
];

// Main registers a waker by each call, takes one out, wakes by another, waits for that, and drops the place with the third one
// in it.
static REGISTER_AND_TAKE: [Row; 18] = [
    (
        7,
        "AtomicWaker::new",
        "Reply(0, AtomicWaker(0)); AtomicWaker { number: 0 }",
    ),
    (
        0,
        "BlockOn::new",
        "Reply(0, BlockOn(2)); Waker { number: 2 }; BlockOn { number: 2 }; Waker { number: 2 }",
    ),
    (8, "its_waker.clone", "Reply(0, Done)"),
    (9, "place.register", "Reply(0, Done)"),
    (10, "place.register_by_ref", "Reply(0, Done)"),
    (
        11,
        "place.take_waker",
        "Reply(0, Waker(2)); Waker { number: 2 }",
    ),
    (11, "place.take_waker", "Reply(0, NoWaker)"),
    (9, "place.register", "Reply(0, Done)"),
    (12, "place.wake", "Reply(0, Done)"),
    (12, "place.wake", "Reply(0, Done)"),
    (13, "later.wait", "Reply(0, Done)"),
    (10, "place.register_by_ref", "Reply(0, Done)"),
    (14, "place.drop", "Reply(0, Waker(2)); Waker { number: 2 }"),
    (14, "place.drop", "Reply(0, NoWaker)"),
    (15, "its_waker.drop", "Reply(0, Done)"),
    (16, "later.finish", "Reply(0, Done)"),
    (12, "place.wake", "Reply(0, Done)"),
    (9, "place.register", "Misuse"),
];

/// Makes these calls.
pub fn make_all(rt: &(impl Abort + AllocGlobal)) {
    make::<u64, _>(rt, Kind::Wakers, &WAKE_AND_WAIT);
    make::<u64, _>(rt, Kind::Wakers, &REGISTER_AND_TAKE);
}
