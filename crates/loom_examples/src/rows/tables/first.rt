//! The scripts of the rows.

ghost use Rattle.std.specs.Prelude.{◌≡◌, map};
ghost use Rattle.loom_examples.specs.Rows.Meanings.{named};
ghost use Rattle.loom_examples.specs.Rows.Table.{buffering_rows, failing_rows, load_rows, ordering_rows};

use crate::row;
pub use crate::rows::tables::few_threads::{FINISH_ONLY, LOCK_BESIDE, MUTEX_FOREVER, SPAWN_ONLY};
use crate::rows::{Row, WHOLE};
use crate::scripts::step::{END, EXIT, FAIL, Step, Value};
use loom_objects::operation::{AtomicOp, MutexOp, Request, ThreadOp};
use loom_views::rt::num::Numbers;
use std::sync::atomic::Ordering::{Acquire, Relaxed, Release};

/// Main's assertion fails.
pub const FAIL_AT_ONCE: &[Step] = &[FAIL];

/// One thread locks a mutex and then another, a second thread the other and then the one. Main joins them.
pub const TWO_MUTEXES_DEADLOCK: &[Step] = &[
    Step::Do(0, Request::Mutex(MutexOp::New(Value::Plain(0)))),
    Step::Do(1, Request::Mutex(MutexOp::New(Value::Plain(0)))),
    Step::SpawnAt(2, "first"),
    Step::SpawnAt(3, "second"),
    Step::Do(0, Request::Thread(ThreadOp::Join(2, 2))),
    Step::Do(1, Request::Thread(ThreadOp::Join(3, 3))),
    Step::Do(0, Request::Thread(ThreadOp::Finish(Value::Plain(0)))),
    EXIT,
    END,
    Step::Label("first"),
    Step::Do(0, Request::Mutex(MutexOp::Lock(0))),
    Step::Do(0, Request::Mutex(MutexOp::Lock(1))),
    Step::Do(0, Request::Mutex(MutexOp::Release(1, Value::Plain(0)))),
    Step::Do(0, Request::Mutex(MutexOp::Release(0, Value::Plain(0)))),
    Step::Do(0, Request::Thread(ThreadOp::Finish(Value::Plain(1)))),
    EXIT,
    END,
    Step::Label("second"),
    Step::Do(0, Request::Mutex(MutexOp::Lock(1))),
    Step::Do(0, Request::Mutex(MutexOp::Lock(0))),
    Step::Do(0, Request::Mutex(MutexOp::Release(0, Value::Plain(0)))),
    Step::Do(0, Request::Mutex(MutexOp::Release(1, Value::Plain(0)))),
    Step::Do(0, Request::Thread(ThreadOp::Finish(Value::Plain(2)))),
    EXIT,
    END,
];

/// Main loads from an atomic beside a thread that stores 1 into it, and finishes with what it loaded.
pub const LOAD_BESIDE: &[Step] = &[
    Step::Do(0, Request::Atomic(AtomicOp::New(Numbers::U64, 0))),
    Step::SpawnAt(1, "child"),
    Step::Do(0, Request::Atomic(AtomicOp::Load(0, Relaxed))),
    Step::Do(0, Request::Thread(ThreadOp::Finish(Value::Held(0)))),
    EXIT,
    END,
    Step::Label("child"),
    Step::Do(0, Request::Atomic(AtomicOp::Store(0, 1, Relaxed))),
    Step::Do(0, Request::Thread(ThreadOp::Finish(Value::Plain(0)))),
    EXIT,
    END,
];

/// Main stores 1 to 7 into an atomic, loads from it, and finishes with what it loaded.
pub const STORE_SEVEN: &[Step] = &[
    Step::Do(0, Request::Atomic(AtomicOp::New(Numbers::U64, 0))),
    Step::Do(0, Request::Atomic(AtomicOp::Store(0, 1, Relaxed))),
    Step::Do(0, Request::Atomic(AtomicOp::Store(0, 2, Relaxed))),
    Step::Do(0, Request::Atomic(AtomicOp::Store(0, 3, Relaxed))),
    Step::Do(0, Request::Atomic(AtomicOp::Store(0, 4, Relaxed))),
    Step::Do(0, Request::Atomic(AtomicOp::Store(0, 5, Relaxed))),
    Step::Do(0, Request::Atomic(AtomicOp::Store(0, 6, Relaxed))),
    Step::Do(0, Request::Atomic(AtomicOp::Store(0, 7, Relaxed))),
    Step::Do(0, Request::Atomic(AtomicOp::Load(0, Relaxed))),
    Step::Do(0, Request::Thread(ThreadOp::Finish(Value::Held(0)))),
    EXIT,
    END,
];

/// Two threads store 1, each into an atomic of its own, and then load from the other's. Main is one of them, and finishes
/// with ten times what the other thread loaded and what it loaded itself (loom's `tests/litmus.rs`).
pub const STORE_BUFFERING: &[Step] = &[
    Step::Do(0, Request::Atomic(AtomicOp::New(Numbers::U64, 0))),
    Step::Do(1, Request::Atomic(AtomicOp::New(Numbers::U64, 0))),
    Step::SpawnAt(2, "child"),
    Step::Do(0, Request::Atomic(AtomicOp::Store(1, 1, Relaxed))),
    Step::Do(1, Request::Atomic(AtomicOp::Load(0, Relaxed))),
    Step::Do(0, Request::Thread(ThreadOp::Join(2, 2))),
    Step::Do(0, Request::Thread(ThreadOp::Finish(Value::Both(0, 1)))),
    EXIT,
    END,
    Step::Label("child"),
    Step::Do(0, Request::Atomic(AtomicOp::Store(0, 1, Relaxed))),
    Step::Do(0, Request::Atomic(AtomicOp::Load(1, Relaxed))),
    Step::Do(0, Request::Thread(ThreadOp::Finish(Value::Held(0)))),
    EXIT,
    END,
];

/// Main loads from one atomic and stores 1 into another, beside a thread that stores into the one what it loads from the
/// other. Main finishes with what it loaded (loom's `tests/litmus.rs`).
pub const LOAD_BUFFERING: &[Step] = &[
    Step::Do(0, Request::Atomic(AtomicOp::New(Numbers::U64, 0))),
    Step::Do(1, Request::Atomic(AtomicOp::New(Numbers::U64, 0))),
    Step::SpawnAt(2, "child"),
    Step::Do(0, Request::Atomic(AtomicOp::Load(0, Relaxed))),
    Step::Do(0, Request::Atomic(AtomicOp::Store(1, 1, Relaxed))),
    Step::Do(1, Request::Thread(ThreadOp::Join(2, 2))),
    Step::Do(0, Request::Thread(ThreadOp::Finish(Value::Held(0)))),
    EXIT,
    END,
    Step::Label("child"),
    Step::Do(0, Request::Atomic(AtomicOp::Load(1, Relaxed))),
    Step::Store(0, Value::Held(0), Relaxed),
    Step::Do(0, Request::Thread(ThreadOp::Finish(Value::Plain(0)))),
    EXIT,
    END,
];

/// A thread stores 1 into one atomic and releases it by a second. Where main acquires that, it asserts that it loads the 1
/// (loom's `tests/atomic_relaxed.rs`).
pub const CHECK_ORDERING_VALID: &[Step] = &[
    Step::Do(0, Request::Atomic(AtomicOp::New(Numbers::U64, 0))),
    Step::Do(1, Request::Atomic(AtomicOp::New(Numbers::U64, 0))),
    Step::SpawnAt(2, "child"),
    Step::Do(0, Request::Atomic(AtomicOp::Load(1, Acquire))),
    Step::UnlessTo(0, 1, "finish"),
    Step::Do(1, Request::Atomic(AtomicOp::Load(0, Relaxed))),
    Step::UnlessTo(1, 1, "wrong"),
    Step::Label("finish"),
    Step::Do(0, Request::Thread(ThreadOp::Finish(Value::Both(0, 1)))),
    EXIT,
    END,
    Step::Label("wrong"),
    FAIL,
    Step::Label("child"),
    Step::Do(0, Request::Atomic(AtomicOp::Store(0, 1, Relaxed))),
    Step::Do(0, Request::Atomic(AtomicOp::Store(1, 1, Release))),
    Step::Do(0, Request::Thread(ThreadOp::Finish(Value::Plain(0)))),
    EXIT,
    END,
];

/// The one before, but main doesn't acquire (loom's `tests/atomic_relaxed.rs`).
pub const CHECK_ORDERING_INVALID_1: &[Step] = &[
    Step::Do(0, Request::Atomic(AtomicOp::New(Numbers::U64, 0))),
    Step::Do(1, Request::Atomic(AtomicOp::New(Numbers::U64, 0))),
    Step::SpawnAt(2, "child"),
    Step::Do(0, Request::Atomic(AtomicOp::Load(1, Relaxed))),
    Step::UnlessTo(0, 1, "finish"),
    Step::Do(1, Request::Atomic(AtomicOp::Load(0, Relaxed))),
    Step::UnlessTo(1, 1, "wrong"),
    Step::Label("finish"),
    Step::Do(0, Request::Thread(ThreadOp::Finish(Value::Both(0, 1)))),
    EXIT,
    END,
    Step::Label("wrong"),
    FAIL,
    Step::Label("child"),
    Step::Do(0, Request::Atomic(AtomicOp::Store(0, 1, Relaxed))),
    Step::Do(0, Request::Atomic(AtomicOp::Store(1, 1, Release))),
    Step::Do(0, Request::Thread(ThreadOp::Finish(Value::Plain(0)))),
    EXIT,
    END,
];

/// Two threads each store one more than they load. Main joins them, and asserts that 2 is loaded then (loom's
/// `tests/smoke.rs`).
pub const CHECKS_FAIL: &[Step] = &[
    Step::Do(0, Request::Atomic(AtomicOp::New(Numbers::U64, 0))),
    Step::SpawnAt(1, "child"),
    Step::SpawnAt(2, "child"),
    Step::Do(1, Request::Thread(ThreadOp::Join(1, 1))),
    Step::Do(2, Request::Thread(ThreadOp::Join(2, 2))),
    Step::Do(0, Request::Atomic(AtomicOp::Load(0, Relaxed))),
    Step::UnlessTo(0, 2, "wrong"),
    Step::Do(0, Request::Thread(ThreadOp::Finish(Value::Held(0)))),
    EXIT,
    END,
    Step::Label("wrong"),
    FAIL,
    Step::Label("child"),
    Step::Do(0, Request::Atomic(AtomicOp::Load(0, Acquire))),
    Step::Store(0, Value::Next(0), Release),
    Step::Do(0, Request::Thread(ThreadOp::Finish(Value::Plain(0)))),
    EXIT,
    END,
];

static FAILING: [Row; 2] = [
    row!("fail_at_once", FAIL_AT_ONCE),
    row!("two_mutexes_deadlock", TWO_MUTEXES_DEADLOCK),
];

/// The rows of an assertion that fails, and of a deadlock.
pub fn failing() -> &'static [Row]
    ensures { map named result.now ≡ failing_rows }
{
    &FAILING
}

static LOADS: [Row; 3] = [
    row!("load_beside", LOAD_BESIDE, WHOLE),
    row!("load_beside_reduced", LOAD_BESIDE),
    row!("store_seven", STORE_SEVEN),
];

/// The rows of loads from one atomic.
pub fn loads() -> &'static [Row]
    ensures { map named result.now ≡ load_rows }
{
    &LOADS
}

static BUFFERING: [Row; 2] = [
    row!("store_buffering", STORE_BUFFERING),
    row!("load_buffering", LOAD_BUFFERING),
];

/// The rows of two threads that store and load crosswise.
pub fn buffering() -> &'static [Row]
    ensures { map named result.now ≡ buffering_rows }
{
    &BUFFERING
}

static ORDERINGS: [Row; 3] = [
    row!("check_ordering_valid", CHECK_ORDERING_VALID),
    row!("check_ordering_invalid_1", CHECK_ORDERING_INVALID_1),
    row!("checks_fail", CHECKS_FAIL),
];

/// The rows of what a load that acquires has to see.
pub fn orderings() -> &'static [Row]
    ensures { map named result.now ≡ ordering_rows }
{
    &ORDERINGS
}
