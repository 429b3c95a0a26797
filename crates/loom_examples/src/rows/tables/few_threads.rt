//! The first scripts, of one thread or two, and a mutex, and the table of their rows.
ghost use Rattle.std.specs.Prelude.{◌≡◌, map};
ghost use Rattle.loom_examples.specs.Rows.FewThreads.{few_thread_rows};
ghost use Rattle.loom_examples.specs.Rows.Meanings.{named};

use crate::row;
use crate::rows::{Row, TEN_STEPS, TWO_RUNS, WHOLE};
use crate::scripts::step::{END, EXIT, Step, Value};
use loom_objects::operation::{MutexOp, Request, ThreadOp};

/// Main finishes, exits and ends.
pub const FINISH_ONLY: &[Step] = &[
    Step::Do(0, Request::Thread(ThreadOp::Finish(Value::Plain(7)))),
    EXIT,
    END,
];

/// Main spawns a thread, which does nothing but end.
pub const SPAWN_ONLY: &[Step] = &[
    Step::SpawnAt(0, "child"),
    Step::Do(0, Request::Thread(ThreadOp::Finish(Value::Plain(7)))),
    EXIT,
    END,
    Step::Label("child"),
    Step::Do(0, Request::Thread(ThreadOp::Finish(Value::Plain(3)))),
    EXIT,
    END,
];

/// Main locks a mutex beside a thread that does nothing but end.
pub const LOCK_BESIDE: &[Step] = &[
    Step::Do(0, Request::Mutex(MutexOp::New(Value::Plain(0)))),
    Step::SpawnAt(1, "child"),
    Step::Do(0, Request::Mutex(MutexOp::Lock(0))),
    Step::Do(0, Request::Mutex(MutexOp::Release(0, Value::Plain(0)))),
    Step::Do(0, Request::Thread(ThreadOp::Finish(Value::Plain(7)))),
    EXIT,
    END,
    Step::Label("child"),
    Step::Do(0, Request::Thread(ThreadOp::Finish(Value::Plain(3)))),
    EXIT,
    END,
];

/// Main makes mutexes without end.
pub const MUTEX_FOREVER: &[Step] = &[
    Step::Label("again"),
    Step::Do(0, Request::Mutex(MutexOp::New(Value::Plain(0)))),
    Step::JumpTo("again"),
];

static FEW_THREADS: [Row; 6] = [
    row!("finish_only", FINISH_ONLY),
    row!("spawn_only", SPAWN_ONLY),
    row!("lock_beside", LOCK_BESIDE, WHOLE),
    row!("lock_beside_reduced", LOCK_BESIDE),
    row!("lock_beside_two", LOCK_BESIDE, TWO_RUNS),
    row!("mutex_forever", MUTEX_FOREVER, TEN_STEPS),
];

/// The rows of these scripts.
pub fn rows() -> &'static [Row]
    ensures { map named result.now ≡ few_thread_rows }
{
    &FEW_THREADS
}
