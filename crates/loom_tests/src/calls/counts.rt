//! Counted references and tracked values.
use crate::calls::run::{Kind, Row, make};
use loom::Op;
use loom::alloc::Track;
use loom::sync::Arc;
use std::process::Abort;

/// The calls of these tables, by their numbers there.
pub fn call(number: usize) -> Op<u64, ()> {
    let (arc, other) = (Arc { number: 0 }, Arc { number: 1 });
    let (tracked, other_tracked) = (Track { number: 0 }, Track { number: 1 });
    match number {
        0 => Arc::new(1),
        1 => Arc::new(9),
        2 => other.drop(),
        3 => arc.clone(),
        4 => arc.strong_count(),
        5 => arc.get(),
        6 => arc.get_mut(),
        7 => arc.try_unwrap(),
        8 => arc.drop(),
        9 => arc.put(2),
        10 => Track::new(1),
        11 => tracked.get_ref(),
        12 => tracked.get_mut(),
        13 => tracked.put(2),
        14 => tracked.into_inner(),
        15 => Track::new(9),
        16 => other_tracked.drop(),
        _ => other_tracked.get_ref(),
    }
}

// Main has two references to one value, asks for the value while it has both, and again once it has one, changes it, takes it
// out, and finds that it is no more.
static COUNT_REFERENCES: [Row; 13] = [
    (0, "Arc::new", "Reply(0, Arc(0)); Arc { number: 0 }"),
    (1, "Arc::new", "Reply(0, Arc(1)); Arc { number: 1 }"),
    (2, "other.drop", "Reply(0, Data(9))"),
    (3, "arc.clone", "Reply(0, Done)"),
    (4, "arc.strong_count", "Reply(0, Value(2)); 2; Read(2)"),
    (5, "arc.get", "Reply(0, Data(1))"),
    (6, "arc.get_mut", "Reply(0, Shared)"),
    (7, "arc.try_unwrap", "Reply(0, Shared)"),
    (8, "arc.drop", "Reply(0, Done)"),
    (6, "arc.get_mut", "Reply(0, Data(1))"),
    (9, "arc.put", "Reply(0, Done)"),
    (7, "arc.try_unwrap", "Reply(0, Data(2))"),
    (5, "arc.get", "Misuse"),
];

// Main changes a tracked value, and takes it out. It lets another one go, and finds that it is no more.
static TRACK: [Row; 8] = [
    (10, "Track::new", "Reply(0, Track(0)); Track { number: 0 }"),
    (11, "tracked.get_ref", "Reply(0, Data(1))"),
    (12, "tracked.get_mut", "Reply(0, Data(1))"),
    (13, "tracked.put", "Reply(0, Done)"),
    (14, "tracked.into_inner", "Reply(0, Data(2))"),
    (15, "Track::new", "Reply(0, Track(1)); Track { number: 1 }"),
    (16, "other_tracked.drop", "Reply(0, Data(9))"),
    (17, "other_tracked.get_ref", "Misuse"),
];

/// Makes these calls.
pub fn make_all(rt: &(impl Abort + AllocGlobal)) {
    make::<u64, _>(rt, Kind::Counts, &COUNT_REFERENCES);
    make::<u64, _>(rt, Kind::Counts, &TRACK);
}
