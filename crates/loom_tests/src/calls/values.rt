//! Values that threads have for themselves, values that are made once a run, and the exploring switches.
use crate::calls::run::{Kind, Row, make};
use loom::lazy_static::{self, Lazy};
use loom::thread::{self, LocalKey};
use loom::{Op, explore, skip_branch, stop_exploring};
use std::process::Abort;

/// The calls of these tables, by their numbers there.
pub fn call(number: usize) -> Op<u64, ()> {
    let key = LocalKey::new(3);
    let lazy = Lazy::new(4);
    match number {
        0 => key.with(),
        1 => key.try_with(),
        2 => key.init(5),
        3 => key.put(6),
        4 => thread::finish(7),
        5 => thread::exit(),
        6 => lazy.get(),
        7 => lazy.init(5),
        8 => lazy.init(6),
        9 => lazy_static::yield_now(),
        10 => stop_exploring(),
        11 => explore(),
        _ => skip_branch(),
    }
}

// Main makes a value of its own, changes it, has it back when it exits, and finds that it is gone.
static USE_LOCAL: [Row; 9] = [
    (0, "key.with", "Reply(0, Absent)"),
    (1, "key.try_with", "Reply(0, Absent)"),
    (2, "key.init", "Reply(0, Data(5))"),
    (1, "key.try_with", "Reply(0, Data(5))"),
    (3, "key.put", "Reply(0, Data(5))"),
    (4, "thread::finish", "Reply(0, Lazies([]))"),
    (
        5,
        "thread::exit",
        "Reply(0, Locals([Keyed { key: 3, value: 6 }]))",
    ),
    (1, "key.try_with", "Reply(0, AccessError); AccessError"),
    (0, "key.with", "LocalGone"),
];

// Main makes a value twice, and has the first one back when it finishes.
static USE_LAZY: [Row; 7] = [
    (6, "lazy.get", "Reply(0, Absent)"),
    (7, "lazy.init", "Reply(0, Data(5))"),
    (8, "lazy.init", "Reply(0, Stood(5, 6))"),
    (9, "lazy_static::yield_now", "Reply(0, Done)"),
    (6, "lazy.get", "Reply(0, Data(5))"),
    (
        4,
        "thread::finish",
        "Reply(0, Lazies([Lazy { key: 4, value: 5, stamp: 0 }]))",
    ),
    (6, "lazy.get", "LazyShutdown"),
];

// Main turns the search off and on, and off for the run, after which it can't be turned.
static SWITCH: [Row; 5] = [
    (10, "stop_exploring", "Reply(0, Done)"),
    (11, "explore", "Reply(0, Done)"),
    (12, "skip_branch", "Reply(0, Done)"),
    (11, "explore", "Reply(0, Done)"),
    (10, "stop_exploring", "Reply(0, Done)"),
];

/// Makes these calls.
pub fn make_all(rt: &(impl Abort + AllocGlobal)) {
    make::<u64, _>(rt, Kind::Values, &USE_LOCAL);
    make::<u64, _>(rt, Kind::Values, &USE_LAZY);
    make::<u64, _>(rt, Kind::Values, &SWITCH);
}
