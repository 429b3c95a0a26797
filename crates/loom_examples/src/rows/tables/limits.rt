//! The scripts of the rows about misuse, and about runs that reach a limit.
ghost use Rattle.std.specs.Prelude.{◌≡◌, map};
ghost use Rattle.loom_examples.specs.Rows.Meanings.{named};
ghost use Rattle.loom_examples.specs.Rows.Table.{limit_rows};

use crate::row;
use crate::rows::{LONG_RUNS, Row, THREE_NODES};
use crate::scripts::step::{END, EXIT, Step, Value, YIELD};
use loom_objects::operation::{AtomicOp, LocalOp, MutexOp, Request, ThreadOp};
use loom_views::rt::num::Numbers;
use std::sync::atomic::Ordering::{Relaxed, Release};

const FINISH: Step = Step::Do(0, Request::Thread(ThreadOp::Finish(Value::Plain(7))));

/// Main yields without end.
pub const SPIN_ALONE: &[Step] = &[Step::Label("again"), YIELD, Step::JumpTo("again")];

/// Main makes 65,534 fences, which is as often as a thread may use objects. It counts that in a mutex that nobody locks.
pub const FENCES: &[Step] = &[
    Step::Do(0, Request::Mutex(MutexOp::New(Value::Plain(0)))),
    Step::Label("again"),
    Step::Do(0, Request::Fence(Release)),
    Step::Do(0, Request::Mutex(MutexOp::GetMut(0))),
    Step::Do(0, Request::Mutex(MutexOp::Put(0, Value::Next(0)))),
    Step::UnlessTo(0, 65_533, "again"),
    FINISH,
    EXIT,
    END,
];

/// The one before, with one more.
pub const TOO_MANY_FENCES: &[Step] = &[
    Step::Do(0, Request::Mutex(MutexOp::New(Value::Plain(0)))),
    Step::Label("again"),
    Step::Do(0, Request::Fence(Release)),
    Step::Do(0, Request::Mutex(MutexOp::GetMut(0))),
    Step::Do(0, Request::Mutex(MutexOp::Put(0, Value::Next(0)))),
    Step::UnlessTo(0, 65_534, "again"),
    FINISH,
    EXIT,
    END,
];

/// Main stores 40,000 times into an atomic beside a thread that does it 25,535 times, which with the first value is once more
/// than an atomic may be stored into. Each counts that in a mutex of its own.
pub const MANY_STORES: &[Step] = &[
    Step::Do(0, Request::Atomic(AtomicOp::New(Numbers::U64, 0))),
    Step::Do(1, Request::Mutex(MutexOp::New(Value::Plain(0)))),
    Step::SpawnAt(2, "child"),
    Step::Label("main again"),
    Step::Do(0, Request::Atomic(AtomicOp::Store(0, 1, Relaxed))),
    Step::Do(0, Request::Mutex(MutexOp::GetMut(1))),
    Step::Do(0, Request::Mutex(MutexOp::Put(1, Value::Next(0)))),
    Step::UnlessTo(0, 39_999, "main again"),
    FINISH,
    EXIT,
    END,
    Step::Label("child"),
    Step::Do(1, Request::Mutex(MutexOp::New(Value::Plain(0)))),
    Step::Label("again"),
    Step::Do(0, Request::Atomic(AtomicOp::Store(0, 2, Relaxed))),
    Step::Do(0, Request::Mutex(MutexOp::GetMut(1))),
    Step::Do(0, Request::Mutex(MutexOp::Put(1, Value::Next(0)))),
    Step::UnlessTo(0, 25_534, "again"),
    FINISH,
    EXIT,
    END,
];

/// `MANY_STORES`, with one less. It is no row: its check has more runs than can be made, and the first of them ends.
pub const MOST_STORES: &[Step] = &[
    Step::Do(0, Request::Atomic(AtomicOp::New(Numbers::U64, 0))),
    Step::Do(1, Request::Mutex(MutexOp::New(Value::Plain(0)))),
    Step::SpawnAt(2, "child"),
    Step::Label("main again"),
    Step::Do(0, Request::Atomic(AtomicOp::Store(0, 1, Relaxed))),
    Step::Do(0, Request::Mutex(MutexOp::GetMut(1))),
    Step::Do(0, Request::Mutex(MutexOp::Put(1, Value::Next(0)))),
    Step::UnlessTo(0, 39_999, "main again"),
    FINISH,
    EXIT,
    END,
    Step::Label("child"),
    Step::Do(1, Request::Mutex(MutexOp::New(Value::Plain(0)))),
    Step::Label("again"),
    Step::Do(0, Request::Atomic(AtomicOp::Store(0, 2, Relaxed))),
    Step::Do(0, Request::Mutex(MutexOp::GetMut(1))),
    Step::Do(0, Request::Mutex(MutexOp::Put(1, Value::Next(0)))),
    Step::UnlessTo(0, 25_533, "again"),
    FINISH,
    EXIT,
    END,
];

/// Main finishes twice.
pub const FINISH_TWICE: &[Step] = &[FINISH, FINISH];

/// Main exits before it finishes.
pub const EXIT_FIRST: &[Step] = &[EXIT];

/// Main changes a value of its own that it never made.
pub const PUT_ABSENT: &[Step] = &[Step::Do(0, Request::Local(LocalOp::Put(1, Value::Plain(5))))];

/// Main locks a mutex, which a thread locks and releases, and ends without a release.
pub const GUARD_LEFT: &[Step] = &[
    Step::Do(0, Request::Mutex(MutexOp::New(Value::Plain(0)))),
    Step::SpawnAt(1, "child"),
    Step::Do(0, Request::Mutex(MutexOp::Lock(0))),
    FINISH,
    EXIT,
    END,
    Step::Label("child"),
    Step::Do(0, Request::Mutex(MutexOp::Lock(0))),
    Step::Do(0, Request::Mutex(MutexOp::Release(0, Value::Plain(0)))),
    FINISH,
    EXIT,
    END,
];

static LIMIT_ROWS: [Row; 8] = [
    row!("spin_alone", SPIN_ALONE, THREE_NODES),
    row!("fences", FENCES),
    row!("too_many_fences", TOO_MANY_FENCES),
    row!("many_stores", MANY_STORES, LONG_RUNS),
    row!("finish_twice", FINISH_TWICE),
    row!("exit_first", EXIT_FIRST),
    row!("put_absent", PUT_ABSENT),
    row!("guard_left", GUARD_LEFT),
];

/// The rows of these scripts.
pub fn rows() -> &'static [Row]
    ensures { map named result.now ≡ limit_rows }
{
    &LIMIT_ROWS
}
