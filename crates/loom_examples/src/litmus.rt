//! Litmus tests as scripts: small programs whose results tell memory models apart. Main is the first thread of each. It joins the others, and
//! its result shows in digits what the threads have read, one behind another, and then what the atomics hold. Only what the test asks about is
//! shown.
use crate::scripts::step::{END, EXIT, Step, Value};
use loom_objects::operation::{AtomicOp, CellOp, Exchange, Request, ThreadOp};
use loom_views::rt::num::Numbers;
use loom_views::rt::num::change::Change::{Add, Swap};
use std::sync::atomic::Ordering::{AcqRel, Acquire, Relaxed, Release, SeqCst};

/// A litmus test.
#[derive(Clone, Copy)]
pub struct Litmus {
    /// How the literature calls it.
    pub name: &'static str,
    /// The steps of its threads.
    pub steps: &'static [Step],
}

// Slots of atomics, of the one by which main puts results together, of a cell, and of threads.
const X: usize = 0;

const Y: usize = 1;

const Z: usize = 2;

const RESULT: usize = 3;

const CELL: usize = 4;

const ONE: usize = 5;

const TWO: usize = 6;

const THREE: usize = 7;

// The register to which nothing is read, and the one of what is put together.
const NOTHING: usize = 2;

const TOGETHER: usize = 3;

// An atomic that holds 0.
macro_rules! make {
    ($atomic:expr) => {
        Step::Do($atomic, Request::Atomic(AtomicOp::New(Numbers::U64, 0)))
    };
}

macro_rules! store {
    ($atomic:expr, $number:expr, $order:expr) => {
        Step::Do(
            0,
            Request::Atomic(AtomicOp::Store($atomic, $number, $order)),
        )
    };
}

macro_rules! load {
    ($register:expr, $atomic:expr, $order:expr) => {
        Step::Do($register, Request::Atomic(AtomicOp::Load($atomic, $order)))
    };
}

macro_rules! update {
    ($register:expr, $atomic:expr, $change:expr, $order:expr) => {
        Step::Do(
            $register,
            Request::Atomic(AtomicOp::Update($atomic, $change, $order)),
        )
    };
}

macro_rules! fence {
    ($order:expr) => {
        Step::Do(0, Request::Fence($order))
    };
}

macro_rules! join {
    ($register:expr, $thread:expr) => {
        Step::Do(
            $register,
            Request::Thread(ThreadOp::Join($thread as u8, $thread)),
        )
    };
}

macro_rules! finish {
    ($value:expr) => {
        Step::Do(0, Request::Thread(ThreadOp::Finish($value)))
    };
}

// Each thread stores to both atomics, one after another.
macro_rules! two_and_two_writes {
    ($order:expr) => {
        &[
            make!(X),
            make!(Y),
            Step::SpawnAt(ONE, "one"),
            store!(X, 1, $order),
            store!(Y, 2, $order),
            join!(0, ONE),
            load!(0, X, Relaxed),
            load!(1, Y, Relaxed),
            finish!(Value::Both(0, 1)),
            EXIT,
            END,
            Step::Label("one"),
            store!(Y, 1, $order),
            store!(X, 2, $order),
            finish!(Value::Plain(0)),
            EXIT,
            END,
        ]
    };
}

// Each thread loads from one atomic, and then stores to the next.
const THREE_LOAD_BUFFERING: &[Step] = &[
    make!(X),
    make!(Y),
    make!(Z),
    make!(RESULT),
    Step::SpawnAt(ONE, "one"),
    Step::SpawnAt(TWO, "two"),
    load!(0, X, Relaxed),
    store!(Y, 1, Relaxed),
    join!(1, ONE),
    Step::Store(RESULT, Value::Both(0, 1), Relaxed),
    load!(TOGETHER, RESULT, Relaxed),
    join!(0, TWO),
    finish!(Value::Both(TOGETHER, 0)),
    EXIT,
    END,
    Step::Label("one"),
    load!(0, Y, Relaxed),
    store!(Z, 1, Relaxed),
    finish!(Value::Held(0)),
    EXIT,
    END,
    Step::Label("two"),
    load!(0, Z, Relaxed),
    store!(X, 1, Relaxed),
    finish!(Value::Held(0)),
    EXIT,
    END,
];

const ZERO_TO_ONE: Exchange = Exchange {
    expected: 0,
    new: 1,
    success: Relaxed,
    failure: Relaxed,
};

const ZERO_TO_TWO: Exchange = Exchange {
    new: 2,
    ..ZERO_TO_ONE
};

// Both threads expect 0. What an exchange found where it failed is in the last register.
const EXCHANGES: &[Step] = &[
    make!(X),
    Step::SpawnAt(ONE, "one"),
    Step::Do(
        0,
        Request::Atomic(AtomicOp::CompareExchange(X, ZERO_TO_ONE)),
    ),
    join!(0, ONE),
    finish!(Value::Both(3, 0)),
    EXIT,
    END,
    Step::Label("one"),
    Step::Do(
        0,
        Request::Atomic(AtomicOp::CompareExchange(X, ZERO_TO_TWO)),
    ),
    finish!(Value::Held(3)),
    EXIT,
    END,
];

// A thread loads twice what another stores twice.
const READ_READ: &[Step] = &[
    make!(X),
    Step::SpawnAt(ONE, "one"),
    store!(X, 1, Relaxed),
    store!(X, 2, Relaxed),
    join!(0, ONE),
    finish!(Value::Held(0)),
    EXIT,
    END,
    Step::Label("one"),
    load!(0, X, Relaxed),
    load!(1, X, Relaxed),
    finish!(Value::Both(0, 1)),
    EXIT,
    END,
];

// Two threads load twice what two others store.
const TWO_READ_READ: &[Step] = &[
    make!(X),
    make!(RESULT),
    Step::SpawnAt(ONE, "one"),
    Step::SpawnAt(TWO, "reads"),
    Step::SpawnAt(THREE, "reads"),
    store!(X, 1, Relaxed),
    join!(0, ONE),
    join!(0, TWO),
    Step::Store(RESULT, Value::Both(0, NOTHING), Relaxed),
    load!(TOGETHER, RESULT, Relaxed),
    join!(0, THREE),
    finish!(Value::Both(TOGETHER, 0)),
    EXIT,
    END,
    Step::Label("one"),
    store!(X, 2, Relaxed),
    finish!(Value::Plain(0)),
    EXIT,
    END,
    Step::Label("reads"),
    load!(0, X, Relaxed),
    load!(1, X, Relaxed),
    finish!(Value::Both(0, 1)),
    EXIT,
    END,
];

// A load before a store, and another thread's store.
const READ_WRITE: &[Step] = &[
    make!(X),
    Step::SpawnAt(ONE, "one"),
    load!(0, X, Relaxed),
    store!(X, 1, Relaxed),
    join!(1, ONE),
    load!(1, X, Relaxed),
    finish!(Value::Both(0, 1)),
    EXIT,
    END,
    Step::Label("one"),
    store!(X, 2, Relaxed),
    finish!(Value::Plain(0)),
    EXIT,
    END,
];

// A single thread stores twice.
const WRITE_WRITE: &[Step] = &[
    make!(X),
    store!(X, 1, Relaxed),
    store!(X, 2, Relaxed),
    load!(0, X, Relaxed),
    finish!(Value::Held(0)),
    EXIT,
    END,
];

// Each thread stores, and writes a cell unless it sees the other's store behind a fence.
const DEKKER: &[Step] = &[
    make!(X),
    make!(Y),
    Step::Do(CELL, Request::Cell(CellOp::New(Value::Plain(0)))),
    Step::SpawnAt(ONE, "one"),
    store!(X, 1, Relaxed),
    fence!(SeqCst),
    load!(0, Y, Relaxed),
    Step::UnlessTo(0, 0, "seen"),
    Step::Do(1, Request::Cell(CellOp::Replace(CELL, Value::Plain(1)))),
    Step::Label("seen"),
    join!(1, ONE),
    finish!(Value::Both(0, 1)),
    EXIT,
    END,
    Step::Label("one"),
    store!(Y, 1, Relaxed),
    fence!(SeqCst),
    load!(0, X, Relaxed),
    Step::UnlessTo(0, 0, "also seen"),
    Step::Do(1, Request::Cell(CellOp::Replace(CELL, Value::Plain(2)))),
    Step::Label("also seen"),
    finish!(Value::Held(0)),
    EXIT,
    END,
];

// Two threads store to an atomic each, and two load both, in one order and in the other.
macro_rules! independent_reads {
    ($order:expr) => {
        &[
            make!(X),
            make!(Y),
            make!(RESULT),
            Step::SpawnAt(ONE, "one"),
            Step::SpawnAt(TWO, "two"),
            Step::SpawnAt(THREE, "three"),
            store!(X, 1, $order),
            join!(0, ONE),
            join!(0, TWO),
            Step::Store(RESULT, Value::Both(0, NOTHING), Relaxed),
            load!(TOGETHER, RESULT, Relaxed),
            join!(0, THREE),
            finish!(Value::Both(TOGETHER, 0)),
            EXIT,
            END,
            Step::Label("one"),
            store!(Y, 1, $order),
            finish!(Value::Plain(0)),
            EXIT,
            END,
            Step::Label("two"),
            load!(0, X, $order),
            load!(1, Y, $order),
            finish!(Value::Both(0, 1)),
            EXIT,
            END,
            Step::Label("three"),
            load!(0, Y, $order),
            load!(1, X, $order),
            finish!(Value::Both(0, 1)),
            EXIT,
            END,
        ]
    };
}

// Main's two stores, and a message that a second thread hands on to a third.
const HANDED_ON: &[Step] = &[
    make!(X),
    make!(Y),
    make!(Z),
    make!(RESULT),
    Step::SpawnAt(ONE, "one"),
    Step::SpawnAt(TWO, "two"),
    store!(X, 1, Relaxed),
    store!(Y, 1, Relaxed),
    join!(0, ONE),
    Step::Store(RESULT, Value::Both(0, NOTHING), Relaxed),
    load!(TOGETHER, RESULT, Relaxed),
    join!(0, TWO),
    finish!(Value::Both(TOGETHER, 0)),
    EXIT,
    END,
    Step::Label("one"),
    load!(0, Y, Relaxed),
    store!(Z, 1, Relaxed),
    finish!(Value::Held(0)),
    EXIT,
    END,
    Step::Label("two"),
    load!(0, Z, Relaxed),
    load!(1, X, Relaxed),
    finish!(Value::Both(0, 1)),
    EXIT,
    END,
];

// Each thread loads from the atomic to which the other one stores afterwards.
const LOAD_BUFFERING: &[Step] = &[
    make!(X),
    make!(Y),
    Step::SpawnAt(ONE, "one"),
    load!(0, X, Relaxed),
    store!(Y, 1, Relaxed),
    join!(1, ONE),
    finish!(Value::Both(0, 1)),
    EXIT,
    END,
    Step::Label("one"),
    load!(0, Y, Relaxed),
    store!(X, 1, Relaxed),
    finish!(Value::Held(0)),
    EXIT,
    END,
];

// A message whose data is a cell. Nothing orders both accesses.
const CELL_PASSING: &[Step] = &[
    make!(Y),
    Step::Do(CELL, Request::Cell(CellOp::New(Value::Plain(0)))),
    Step::SpawnAt(ONE, "one"),
    Step::Do(0, Request::Cell(CellOp::Replace(CELL, Value::Plain(1)))),
    store!(Y, 1, Relaxed),
    join!(0, ONE),
    finish!(Value::Held(0)),
    EXIT,
    END,
    Step::Label("one"),
    load!(0, Y, Relaxed),
    Step::UnlessTo(0, 1, "unread"),
    Step::Do(1, Request::Cell(CellOp::Get(CELL))),
    finish!(Value::Both(0, 1)),
    EXIT,
    END,
    Step::Label("unread"),
    finish!(Value::Plain(9)),
    EXIT,
    END,
];

// A message: its data is stored first, and loaded last.
macro_rules! message_passing {
    ($first:expr, $second:expr, $seen:expr, $loaded:expr) => {
        &[
            make!(X),
            make!(Y),
            Step::SpawnAt(ONE, "one"),
            store!(X, 1, $first),
            store!(Y, 1, $second),
            join!(0, ONE),
            finish!(Value::Held(0)),
            EXIT,
            END,
            Step::Label("one"),
            load!(0, Y, $seen),
            load!(1, X, $loaded),
            finish!(Value::Both(0, 1)),
            EXIT,
            END,
        ]
    };
}

// A message behind a fence.
macro_rules! fenced_message_passing {
    ($seen:expr) => {
        &[
            make!(X),
            make!(Y),
            Step::SpawnAt(ONE, "one"),
            store!(X, 1, Relaxed),
            fence!(Release),
            store!(Y, 1, Relaxed),
            join!(0, ONE),
            finish!(Value::Held(0)),
            EXIT,
            END,
            Step::Label("one"),
            load!(0, Y, $seen),
            load!(1, X, Relaxed),
            finish!(Value::Both(0, 1)),
            EXIT,
            END,
        ]
    };
}

// Both threads store to one atomic, and a fence stands between the two accesses of each.
const FENCED_WRITES: &[Step] = &[
    make!(X),
    make!(Y),
    Step::SpawnAt(ONE, "one"),
    store!(X, 1, Relaxed),
    fence!(SeqCst),
    store!(Y, 1, Relaxed),
    join!(0, ONE),
    load!(1, Y, Relaxed),
    finish!(Value::Both(0, 1)),
    EXIT,
    END,
    Step::Label("one"),
    store!(Y, 2, Relaxed),
    fence!(SeqCst),
    load!(0, X, Relaxed),
    finish!(Value::Held(0)),
    EXIT,
    END,
];

// Both threads change one atomic, and what both found is shown.
macro_rules! two_updates {
    ($change:expr, $order:expr) => {
        &[
            make!(X),
            Step::SpawnAt(ONE, "one"),
            update!(0, X, $change, $order),
            join!(1, ONE),
            finish!(Value::Both(0, 1)),
            EXIT,
            END,
            Step::Label("one"),
            update!(0, X, $change, $order),
            finish!(Value::Held(0)),
            EXIT,
            END,
        ]
    };
}

// Both threads add to one atomic, and the sum is shown.
const SUM: &[Step] = &[
    make!(X),
    Step::SpawnAt(ONE, "one"),
    update!(0, X, Add(1), Relaxed),
    join!(0, ONE),
    load!(0, X, Relaxed),
    finish!(Value::Held(0)),
    EXIT,
    END,
    Step::Label("one"),
    update!(0, X, Add(1), Relaxed),
    finish!(Value::Plain(0)),
    EXIT,
    END,
];

// A thread sees main's store before another's, which doesn't see it.
const WRITE_READ_CAUSALITY_TWICE: &[Step] = &[
    make!(X),
    make!(Y),
    Step::SpawnAt(ONE, "one"),
    Step::SpawnAt(TWO, "two"),
    store!(X, 1, Relaxed),
    join!(0, ONE),
    join!(1, TWO),
    finish!(Value::Both(0, 1)),
    EXIT,
    END,
    Step::Label("one"),
    load!(0, X, Relaxed),
    load!(1, Y, Relaxed),
    finish!(Value::Both(0, 1)),
    EXIT,
    END,
    Step::Label("two"),
    store!(Y, 1, Relaxed),
    load!(0, X, Relaxed),
    finish!(Value::Held(0)),
    EXIT,
    END,
];

// A thread sees the second store, and overwrites the first one.
const OVERWRITES: &[Step] = &[
    make!(X),
    make!(Y),
    Step::SpawnAt(ONE, "one"),
    store!(X, 2, Relaxed),
    store!(Y, 1, Relaxed),
    join!(0, ONE),
    load!(1, X, Relaxed),
    finish!(Value::Both(0, 1)),
    EXIT,
    END,
    Step::Label("one"),
    load!(0, Y, Relaxed),
    store!(X, 1, Relaxed),
    finish!(Value::Held(0)),
    EXIT,
    END,
];

// Each thread stores, and loads from the atomic to which the other one stores.
macro_rules! store_buffering {
    ($store:expr, $load:expr) => {
        &[
            make!(X),
            make!(Y),
            Step::SpawnAt(ONE, "one"),
            store!(X, 1, $store),
            load!(0, Y, $load),
            join!(1, ONE),
            finish!(Value::Both(0, 1)),
            EXIT,
            END,
            Step::Label("one"),
            store!(Y, 1, $store),
            load!(0, X, $load),
            finish!(Value::Held(0)),
            EXIT,
            END,
        ]
    };
}

// Store buffering with a fence between store and load: a `SeqCst` one in main, an `AcqRel` one in the other thread.
const FENCED_STORE_BUFFERING: &[Step] = &[
    make!(X),
    make!(Y),
    Step::SpawnAt(ONE, "one"),
    store!(X, 1, Relaxed),
    fence!(SeqCst),
    load!(0, Y, Relaxed),
    join!(1, ONE),
    finish!(Value::Both(0, 1)),
    EXIT,
    END,
    Step::Label("one"),
    store!(Y, 1, Relaxed),
    fence!(AcqRel),
    load!(0, X, Relaxed),
    finish!(Value::Held(0)),
    EXIT,
    END,
];

// A thread that sees main's store releases a store of its own, which a third one acquires.
const WRITE_READ_CAUSALITY: &[Step] = &[
    make!(X),
    make!(Y),
    make!(RESULT),
    Step::SpawnAt(ONE, "one"),
    Step::SpawnAt(TWO, "two"),
    store!(X, 1, Relaxed),
    join!(0, ONE),
    Step::Store(RESULT, Value::Both(0, NOTHING), Relaxed),
    load!(TOGETHER, RESULT, Relaxed),
    join!(0, TWO),
    finish!(Value::Both(TOGETHER, 0)),
    EXIT,
    END,
    Step::Label("one"),
    load!(0, X, Relaxed),
    store!(Y, 1, Release),
    finish!(Value::Held(0)),
    EXIT,
    END,
    Step::Label("two"),
    load!(0, Y, Acquire),
    load!(1, X, Relaxed),
    finish!(Value::Both(0, 1)),
    EXIT,
    END,
];

// A store beside a read-modify-write.
const STORE_BETWEEN: &[Step] = &[
    make!(X),
    Step::SpawnAt(ONE, "one"),
    update!(0, X, Add(1), Relaxed),
    join!(1, ONE),
    load!(1, X, Relaxed),
    finish!(Value::Both(0, 1)),
    EXIT,
    END,
    Step::Label("one"),
    store!(X, 5, Relaxed),
    finish!(Value::Plain(0)),
    EXIT,
    END,
];

macro_rules! test {
    ($name:expr, $steps:expr) => {
        Litmus {
            name: $name,
            steps: $steps,
        }
    };
}

/// The tests, in the order of their names.
pub const TESTS: &[Litmus] = &[
    test!("2+2W", two_and_two_writes!(Relaxed)),
    test!("2+2W+rel", two_and_two_writes!(Release)),
    test!("3.LB", THREE_LOAD_BUFFERING),
    test!("CAS-none-wins", EXCHANGES),
    test!("CoRR", READ_READ),
    test!("CoRR2", TWO_READ_READ),
    test!("CoRW2", READ_WRITE),
    test!("CoWW", WRITE_WRITE),
    test!("Dekker+scfences", DEKKER),
    test!("IRIW", independent_reads!(Relaxed)),
    test!("IRIW+sc", independent_reads!(SeqCst)),
    test!("ISA2+rlx", HANDED_ON),
    test!("LB", LOAD_BUFFERING),
    test!("MP+na+rlx+rlx", CELL_PASSING),
    test!(
        "MP+rel+rlx",
        message_passing!(Relaxed, Release, Relaxed, Relaxed)
    ),
    test!("MP+relfence+acq", fenced_message_passing!(Acquire)),
    test!("MP+relfence+rlx", fenced_message_passing!(Relaxed)),
    test!("MP+sc+sc", message_passing!(SeqCst, SeqCst, SeqCst, SeqCst)),
    test!("R+scfences", FENCED_WRITES),
    test!("RMW-atomicity", two_updates!(Add(1), Relaxed)),
    test!("RMW-sum", SUM),
    test!("RWC", WRITE_READ_CAUSALITY_TWICE),
    test!("S", OVERWRITES),
    test!("SB", store_buffering!(Relaxed, Relaxed)),
    test!("SB+rel+acq", store_buffering!(Release, Acquire)),
    test!("SB+scfence+acqrelfence", FENCED_STORE_BUFFERING),
    test!("WRC+rlx+rel+acq", WRITE_READ_CAUSALITY),
    test!("XCHG-lock", two_updates!(Swap(1), Acquire)),
    test!("store-between-rmw", STORE_BETWEEN),
];
