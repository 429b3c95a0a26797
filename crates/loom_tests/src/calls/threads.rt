//! Threads: their names, and those that wait.
use crate::calls::run::{Kind, Row, make};
use loom::sync::atomic::spin_loop_hint;
use loom::thread::{self, Builder, ThreadId};
use loom::{Op, hint};
use std::process::Abort;

/// The calls of these tables, by their numbers there.
pub fn call(number: usize) -> Op<u64, ()> {
    let main = thread::Thread {
        id: ThreadId(0),
        name: None,
    };
    match number {
        0 => thread::current(),
        1 => Builder::new().name("foobar").spawn(()),
        2 => thread::yield_now(),
        3 => main.unpark(),
        4 => thread::park(),
        5 => thread::spawn(()),
        6 => hint::spin_loop(),
        7 => spin_loop_hint(),
        _ => hint::unreachable_unchecked(),
    }
}

// Main asks which thread it is, and so does a child with a name.
static FIND_NAMES: [Row; 4] = [
    (
        0,
        "thread::current",
        "Reply(0, Thread(0, None)); ThreadId(0); None",
    ),
    (
        1,
        "Builder::spawn",
        "Reply(0, Spawned(1, Some(Name { text: \"foobar\" }), 0)); ThreadId(1); Some(\"foobar\")",
    ),
    (2, "thread::yield_now", "Start(1)"),
    (
        0,
        "thread::current",
        "Reply(1, Thread(1, Some(Name { text: \"foobar\" }))); ThreadId(1); Some(\"foobar\")",
    ),
];

// Main takes a token, and then parks; the other thread starts and unparks it, and both threads yield.
static PARK_TWICE: [Row; 8] = [
    (3, "main.unpark", "Reply(0, Done)"),
    (4, "thread::park", "Reply(0, Done)"),
    (
        5,
        "thread::spawn",
        "Reply(0, Spawned(1, None, 0)); ThreadId(1); None",
    ),
    (4, "thread::park", "Start(1)"),
    (3, "main.unpark", "Reply(1, Done)"),
    // The other thread yields, and main was told that it isn't parked any more.
    (6, "hint::spin_loop", "Reply(0, Done)"),
    (7, "spin_loop_hint", "Reply(1, Done)"),
    (8, "hint::unreachable_unchecked", "Unreachable"),
];

/// Makes these calls.
pub fn make_all(rt: &(impl Abort + AllocGlobal)) {
    make::<u64, _>(rt, Kind::Threads, &FIND_NAMES);
    make::<u64, _>(rt, Kind::Threads, &PARK_TWICE);
}
