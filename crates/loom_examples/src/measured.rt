//! What is measured: bodies with names, their scripts, and how each is checked; and the body of many runs.
ghost use Rattle.std.specs.Prelude.{◌≡◌, map, IfOk, option_copied};
ghost use Rattle.loom_examples.specs.Measured.Body as body;
ghost use Rattle.loom_examples.specs.Measured.Body.{named};
ghost use Rattle.loom_examples.specs.Measured.Table as table;
ghost use Rattle.loom_examples.specs.Measured.Table.{body_of};

use crate::measured;
use crate::rows::settings::Settings;
use crate::rows::tables::atomics::{ACQ_REL, THREE_ADDS};
use crate::rows::tables::first::TWO_MUTEXES_DEADLOCK;
use crate::rows::tables::joined;
use crate::rows::{Checked, DEFAULTS, LONG_RUNS, ONE_PREEMPTION, Row, WHOLE, all_rows, row_of};
use crate::scripts::step::{END, EXIT, Step, Value, YIELD};
use loom_objects::operation::{AtomicOp, CondvarOp, MutexOp, Request, RwLockOp, ThreadOp};
use loom_views::rt::num::Numbers;
use std::alloc::{AllocError, Global};
use std::sync::atomic::Ordering;

/// A body with a name, and how it is checked.
#[derive(Clone, Copy)]
pub struct Measured {
    /// The word that means the body.
    pub name: &'static str,
    /// The steps of its threads.
    pub steps: &'static [Step],
    /// How it is checked.
    pub settings: Settings,
    /// How many checks are made, one after another.
    pub checks: u64,
}

/// The thread finishes with 0.
pub const FINISH: Step = Step::Do(0, Request::Thread(ThreadOp::Finish(Value::Plain(0))));

// A store to the atomic that a thread has for itself.
const STORE_MAIN: Step = Step::Do(0, Request::Atomic(AtomicOp::Store(0, 1, Ordering::Relaxed)));

const STORE_FIRST: Step = Step::Do(0, Request::Atomic(AtomicOp::Store(1, 1, Ordering::Relaxed)));

const STORE_SECOND: Step = Step::Do(0, Request::Atomic(AtomicOp::Store(2, 1, Ordering::Relaxed)));

/// Three threads store to an atomic each: main five times, and the others three times. Main joins them.
const STORES_APART: &[Step] = &[
    Step::Do(0, Request::Atomic(AtomicOp::New(Numbers::U64, 0))),
    Step::Do(1, Request::Atomic(AtomicOp::New(Numbers::U64, 0))),
    Step::Do(2, Request::Atomic(AtomicOp::New(Numbers::U64, 0))),
    Step::SpawnAt(3, "first"),
    Step::SpawnAt(4, "second"),
    STORE_MAIN,
    STORE_MAIN,
    STORE_MAIN,
    STORE_MAIN,
    STORE_MAIN,
    Step::Do(0, Request::Thread(ThreadOp::Join(3, 3))),
    Step::Do(0, Request::Thread(ThreadOp::Join(4, 4))),
    Step::JumpTo("finish"),
    Step::Label("first"),
    STORE_FIRST,
    STORE_FIRST,
    STORE_FIRST,
    Step::JumpTo("finish"),
    Step::Label("second"),
    STORE_SECOND,
    STORE_SECOND,
    STORE_SECOND,
    Step::Label("finish"),
    FINISH,
    EXIT,
    END,
];

const APART: Measured = Measured {
    name: "stores_apart",
    steps: STORES_APART,
    settings: WHOLE,
    checks: 1,
};

static MANY: [Measured; 2] = [
    APART,
    Measured {
        name: "stores_apart reduced",
        settings: DEFAULTS,
        ..APART
    },
];

/// The body of many runs, by a search that isn't reduced and by one that is.
pub fn many() -> &'static [Measured]
    ensures { map named result.now ≡ body.many }
{
    &MANY
}

/// Two threads store to an atomic each, and load from the other's.
const STORE_BUFFERING: &[Step] = &[
    Step::Do(0, Request::Atomic(AtomicOp::New(Numbers::U64, 0))),
    Step::Do(1, Request::Atomic(AtomicOp::New(Numbers::U64, 0))),
    Step::SpawnAt(2, "child"),
    Step::Do(0, Request::Atomic(AtomicOp::Store(1, 1, Ordering::Relaxed))),
    Step::Do(1, Request::Atomic(AtomicOp::Load(0, Ordering::Relaxed))),
    Step::Do(0, Request::Thread(ThreadOp::Join(2, 2))),
    Step::Do(0, Request::Thread(ThreadOp::Finish(Value::Both(0, 1)))),
    Step::JumpTo("exit"),
    Step::Label("child"),
    Step::Do(0, Request::Atomic(AtomicOp::Store(0, 1, Ordering::Relaxed))),
    Step::Do(0, Request::Atomic(AtomicOp::Load(1, Ordering::Relaxed))),
    Step::Do(0, Request::Thread(ThreadOp::Finish(Value::Held(0)))),
    Step::Label("exit"),
    EXIT,
    END,
];

/// Three threads, of which each loads twice from the next one's atomic, and then stores twice to its own.
const THREE_THREADS: &[Step] = &[
    Step::Do(0, Request::Atomic(AtomicOp::New(Numbers::U64, 0))),
    Step::Do(1, Request::Atomic(AtomicOp::New(Numbers::U64, 0))),
    Step::Do(2, Request::Atomic(AtomicOp::New(Numbers::U64, 0))),
    Step::SpawnAt(3, "first"),
    Step::SpawnAt(4, "second"),
    Step::Do(0, Request::Atomic(AtomicOp::Load(1, Ordering::Relaxed))),
    Step::Do(1, Request::Atomic(AtomicOp::Load(1, Ordering::Relaxed))),
    Step::Do(0, Request::Atomic(AtomicOp::Store(0, 1, Ordering::Relaxed))),
    Step::Do(0, Request::Atomic(AtomicOp::Store(0, 2, Ordering::Relaxed))),
    Step::JumpTo("finish"),
    Step::Label("first"),
    Step::Do(0, Request::Atomic(AtomicOp::Load(2, Ordering::Relaxed))),
    Step::Do(1, Request::Atomic(AtomicOp::Load(2, Ordering::Relaxed))),
    Step::Do(0, Request::Atomic(AtomicOp::Store(1, 1, Ordering::Relaxed))),
    Step::Do(0, Request::Atomic(AtomicOp::Store(1, 2, Ordering::Relaxed))),
    Step::JumpTo("finish"),
    Step::Label("second"),
    Step::Do(0, Request::Atomic(AtomicOp::Load(0, Ordering::Relaxed))),
    Step::Do(1, Request::Atomic(AtomicOp::Load(0, Ordering::Relaxed))),
    Step::Do(0, Request::Atomic(AtomicOp::Store(2, 1, Ordering::Relaxed))),
    Step::Do(0, Request::Atomic(AtomicOp::Store(2, 2, Ordering::Relaxed))),
    Step::Label("finish"),
    FINISH,
    EXIT,
    END,
];

/// Two threads lock two mutexes in the same order, beside a main that joins them.
const LOCKS_IN_TURN: &[Step] = &[
    Step::Do(0, Request::Mutex(MutexOp::New(Value::Plain(0)))),
    Step::Do(1, Request::Mutex(MutexOp::New(Value::Plain(0)))),
    Step::SpawnAt(2, "child"),
    Step::SpawnAt(3, "child"),
    Step::Do(0, Request::Thread(ThreadOp::Join(2, 2))),
    Step::Do(0, Request::Thread(ThreadOp::Join(3, 3))),
    FINISH,
    EXIT,
    END,
    Step::Label("child"),
    Step::Do(0, Request::Mutex(MutexOp::Lock(0))),
    Step::Do(0, Request::Mutex(MutexOp::Lock(1))),
    Step::Do(0, Request::Mutex(MutexOp::Release(1, Value::Plain(0)))),
    Step::Do(0, Request::Mutex(MutexOp::Release(0, Value::Plain(0)))),
    FINISH,
    EXIT,
    END,
];

/// Two threads add to what a lock holds, one after the other, beside a main that reads it. Main joins them.
const WRITERS_BESIDE_A_READER: &[Step] = &[
    Step::Do(0, Request::RwLock(RwLockOp::New(Value::Plain(0)))),
    Step::SpawnAt(1, "child"),
    Step::SpawnAt(2, "child"),
    Step::Do(0, Request::RwLock(RwLockOp::Read(0))),
    Step::Do(0, Request::RwLock(RwLockOp::ReadRelease(0))),
    Step::Do(0, Request::Thread(ThreadOp::Join(1, 1))),
    Step::Do(0, Request::Thread(ThreadOp::Join(2, 2))),
    FINISH,
    EXIT,
    END,
    Step::Label("child"),
    Step::Do(0, Request::RwLock(RwLockOp::Write(0))),
    Step::Do(
        1,
        Request::RwLock(RwLockOp::WriteRelease(0, Value::Next(0))),
    ),
    FINISH,
    EXIT,
    END,
];

/// A thread leaves 1 in a mutex and notifies. Main waits for that unless the 1 is there, and joins the thread.
const WAIT_AND_NOTIFY: &[Step] = &[
    Step::Do(0, Request::Mutex(MutexOp::New(Value::Plain(0)))),
    Step::Do(1, Request::Condvar(CondvarOp::New)),
    Step::SpawnAt(2, "child"),
    Step::Do(0, Request::Mutex(MutexOp::Lock(0))),
    Step::UnlessTo(0, 0, "release"),
    Step::Do(0, Request::Condvar(CondvarOp::Wait(1, 0, Value::Plain(0)))),
    Step::Label("release"),
    Step::Do(1, Request::Mutex(MutexOp::Release(0, Value::Held(0)))),
    Step::Do(1, Request::Thread(ThreadOp::Join(2, 2))),
    FINISH,
    EXIT,
    END,
    Step::Label("child"),
    Step::Do(0, Request::Mutex(MutexOp::Lock(0))),
    Step::Do(0, Request::Mutex(MutexOp::Release(0, Value::Plain(1)))),
    Step::Do(0, Request::Condvar(CondvarOp::NotifyOne(1))),
    FINISH,
    EXIT,
    END,
];

/// One thread stores 1 into an atomic and loads it, and so on up to 500.
const LONG_LINE: &[Step] = &[
    Step::Do(0, Request::Atomic(AtomicOp::New(Numbers::U64, 0))),
    Step::Label("again"),
    Step::Store(0, Value::Next(0), Ordering::Relaxed),
    Step::Do(0, Request::Atomic(AtomicOp::Load(0, Ordering::Relaxed))),
    Step::UnlessTo(0, 500, "again"),
    FINISH,
    EXIT,
    END,
];

/// One thread stores 1 into an atomic and loads it, and so on up to 5,000.
const LONG_LINE_10000: &[Step] = &[
    Step::Do(0, Request::Atomic(AtomicOp::New(Numbers::U64, 0))),
    Step::Label("again"),
    Step::Store(0, Value::Next(0), Ordering::Relaxed),
    Step::Do(0, Request::Atomic(AtomicOp::Load(0, Ordering::Relaxed))),
    Step::UnlessTo(0, 5000, "again"),
    FINISH,
    EXIT,
    END,
];

/// Main locks a mutex 1,001 times, beside a thread that waits for it since the first time. It counts that in the mutex.
const LONG_TURN: &[Step] = &[
    Step::Do(0, Request::Mutex(MutexOp::New(Value::Plain(0)))),
    Step::Do(0, Request::Mutex(MutexOp::Lock(0))),
    Step::SpawnAt(1, "child"),
    YIELD,
    Step::Do(0, Request::Mutex(MutexOp::Release(0, Value::Next(0)))),
    Step::Label("again"),
    Step::Do(0, Request::Mutex(MutexOp::Lock(0))),
    Step::Do(0, Request::Mutex(MutexOp::Release(0, Value::Next(0)))),
    Step::UnlessTo(0, 1000, "again"),
    Step::Label("finish"),
    FINISH,
    EXIT,
    END,
    Step::Label("child"),
    Step::Do(0, Request::Mutex(MutexOp::Lock(0))),
    Step::Do(0, Request::Mutex(MutexOp::Release(0, Value::Held(0)))),
    Step::JumpTo("finish"),
];

/// A search that isn't reduced, of runs with one preemption at most.
const WHOLE_1: Settings = Settings {
    preemption_bound: Some(1),
    ..WHOLE
};

/// A search that isn't reduced, of runs with two preemptions at most.
const WHOLE_2: Settings = Settings {
    preemption_bound: Some(2),
    ..WHOLE
};

/// A reduced search of runs with two preemptions at most.
const REDUCED_2: Settings = Settings {
    preemption_bound: Some(2),
    ..DEFAULTS
};

/// The defaults without a preemption, but a run may have 100,000 nodes.
const LONG_RUNS_0: Settings = Settings {
    preemption_bound: Some(0),
    ..LONG_RUNS
};

/// The defaults with one preemption at most, but a run may have 100,000 nodes.
const LONG_RUNS_1: Settings = Settings {
    preemption_bound: Some(1),
    ..LONG_RUNS
};

// A body that is checked so often, with these settings.
macro_rules! measured {
    ($name:expr, $steps:expr, $checks:expr, $settings:expr) => {
        Measured {
            name: $name,
            steps: $steps,
            settings: $settings,
            checks: $checks,
        }
    };
}

// A body by six searches: not reduced and reduced, without a bound and with the bounds 1 and 2.
macro_rules! six {
    ($name:literal, $steps:expr, $checks:expr) => {
        [
            measured!($name, $steps, $checks, WHOLE),
            measured!(concat!($name, " bound 1"), $steps, $checks, WHOLE_1),
            measured!(concat!($name, " bound 2"), $steps, $checks, WHOLE_2),
            measured!(concat!($name, " reduced"), $steps, $checks, DEFAULTS),
            measured!(concat!($name, " reduced bound 1"), $steps, $checks, ONE_PREEMPTION),
            measured!(concat!($name, " reduced bound 2"), $steps, $checks, REDUCED_2),
        ]
    };
}

// Those whose check is short are checked many times. A body's name alone means the search that isn't reduced, but for the long ones.

static STORE_BUFFERINGS: [Measured; 6] = six!("store_buffering", STORE_BUFFERING, 1000);

// Stores and loads.
fn store_bufferings() -> &'static [Measured]
    ensures { map named result.now ≡ table.store_bufferings }
{
    &STORE_BUFFERINGS
}

static LOCKS_IN_TURNS: [Measured; 6] = six!("locks_in_turn", LOCKS_IN_TURN, 1000);

// Locks in the same order.
fn locks_in_turns() -> &'static [Measured]
    ensures { map named result.now ≡ table.locks_in_turns }
{
    &LOCKS_IN_TURNS
}

static WRITERS: [Measured; 6] = six!("writers_beside_a_reader", WRITERS_BESIDE_A_READER, 100);

// A read-write lock.
fn writers() -> &'static [Measured]
    ensures { map named result.now ≡ table.writers }
{
    &WRITERS
}

static WAITS: [Measured; 6] = six!("wait_and_notify", WAIT_AND_NOTIFY, 1000);

// A condition variable.
fn waits() -> &'static [Measured]
    ensures { map named result.now ≡ table.waits }
{
    &WAITS
}

static THREES: [Measured; 6] = six!("three_threads", THREE_THREADS, 1);

// Three threads over atomics.
fn threes() -> &'static [Measured]
    ensures { map named result.now ≡ table.threes }
{
    &THREES
}

static ADDS: [Measured; 6] = six!("three_adds", THREE_ADDS, 1);

// Three threads that add to one atomic.
fn adds() -> &'static [Measured]
    ensures { map named result.now ≡ table.adds }
{
    &ADDS
}

static CROSSWISE: [Measured; 6] = six!("locks_crosswise", TWO_MUTEXES_DEADLOCK, 1000);

// A deadlock.
fn crosswise() -> &'static [Measured]
    ensures { map named result.now ≡ table.crosswise }
{
    &CROSSWISE
}

static FLAGS: [Measured; 6] = six!("acq_rel", ACQ_REL, 1);

// Threads that wait for flags.
fn flags() -> &'static [Measured]
    ensures { map named result.now ≡ table.flags }
{
    &FLAGS
}

static LONG: [Measured; 5] = [
    measured!("long_line", LONG_LINE, 10_000, LONG_RUNS),
    measured!("long_line_10000", LONG_LINE_10000, 1000, LONG_RUNS),
    measured!("long_turn reduced", LONG_TURN, 1, LONG_RUNS),
    measured!("long_turn reduced bound 0", LONG_TURN, 1000, LONG_RUNS_0),
    measured!("long_turn reduced bound 1", LONG_TURN, 1, LONG_RUNS_1),
];

// Long runs.
fn long() -> &'static [Measured]
    ensures { map named result.now ≡ table.long }
{
    &LONG
}

/// The bodies that are measured.
pub fn all_bodies(alloc: Global) -> Result<Vec<Measured>, AllocError>
    ensures { IfOk result (λ bodies. map named bodies.items ≡ table.all) }
{
    joined(
        alloc,
        &[
            store_bufferings(),
            locks_in_turns(),
            writers(),
            waits(),
            threes(),
            adds(),
            crosswise(),
            flags(),
            measured::many(),
            long(),
        ],
    )
}

/// The first of the bodies that has this name.
pub fn body_of<'a>(bodies: &'a [Measured], name: &str) -> Option<&'a Measured>
    ensures { option_copied result ≡ body_of bodies.now name.now }
{
    bodies.iter().find(|body| body.name == name)
}

/// The row of this name, or the body that is measured under it, as a row.
pub(crate) fn row_or_body(alloc: Global, name: &str) -> Result<Option<Row>, AllocError> {
    let rows = all_rows(alloc)?;
    if let Some(row) = row_of(rows.as_slice(), name) {
        return Ok(Some(*row));
    }
    let bodies = all_bodies(alloc)?;
    match body_of(bodies.as_slice(), name) {
        Some(body) => Ok(Some(Row {
            name: body.name,
            checked: Checked::Script(body.steps),
            settings: body.settings,
        })),
        None => Ok(None),
    }
}
