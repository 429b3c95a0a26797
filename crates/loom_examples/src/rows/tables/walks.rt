//! The scripts of the rows for walks: one schedule in very many fails. A plain check of one stops after two runs.
ghost use Rattle.std.specs.Prelude.{◌≡◌, map};
ghost use Rattle.loom_examples.specs.Rows.Meanings.{named};
ghost use Rattle.loom_examples.specs.Rows.Table.{walk_rows};

use crate::row;
use crate::rows::{Row, TWO_RUNS};
use crate::scripts::step::{END, EXIT, FAIL, Step, Value};
use loom_objects::operation::{AtomicOp, Request, ThreadOp};
use loom_views::rt::num::Numbers;
use std::sync::atomic::Ordering::Relaxed;

const FINISH: Step = Step::Do(0, Request::Thread(ThreadOp::Finish(Value::Plain(7))));

const LOAD: Step = Step::Do(0, Request::Atomic(AtomicOp::Load(0, Relaxed)));

const COUNT: Step = Step::Store(0, Value::Next(0), Relaxed);

/// Three threads, of which each loads twice from the next one's atomic, and then stores 1 and 2 to its own. Both children load 1 and then
/// 2 in few runs, and then main's assertion fails.
pub const THREE_PLANTED: &[Step] = &[
    Step::Do(0, Request::Atomic(AtomicOp::New(Numbers::U64, 0))),
    Step::Do(1, Request::Atomic(AtomicOp::New(Numbers::U64, 0))),
    Step::Do(2, Request::Atomic(AtomicOp::New(Numbers::U64, 0))),
    Step::SpawnAt(3, "first"),
    Step::SpawnAt(4, "second"),
    Step::Do(0, Request::Atomic(AtomicOp::Load(1, Relaxed))),
    Step::Do(1, Request::Atomic(AtomicOp::Load(1, Relaxed))),
    Step::Do(0, Request::Atomic(AtomicOp::Store(0, 1, Relaxed))),
    Step::Do(0, Request::Atomic(AtomicOp::Store(0, 2, Relaxed))),
    Step::Do(0, Request::Thread(ThreadOp::Join(3, 3))),
    Step::UnlessTo(0, 12, "finish"),
    Step::Do(1, Request::Thread(ThreadOp::Join(4, 4))),
    Step::UnlessTo(1, 12, "finish"),
    FAIL,
    Step::Label("finish"),
    FINISH,
    EXIT,
    END,
    Step::Label("first"),
    Step::Do(0, Request::Atomic(AtomicOp::Load(2, Relaxed))),
    Step::Do(1, Request::Atomic(AtomicOp::Load(2, Relaxed))),
    Step::Do(0, Request::Atomic(AtomicOp::Store(1, 1, Relaxed))),
    Step::Do(0, Request::Atomic(AtomicOp::Store(1, 2, Relaxed))),
    Step::JumpTo("both"),
    Step::Label("second"),
    Step::Do(0, Request::Atomic(AtomicOp::Load(0, Relaxed))),
    Step::Do(1, Request::Atomic(AtomicOp::Load(0, Relaxed))),
    Step::Do(0, Request::Atomic(AtomicOp::Store(2, 1, Relaxed))),
    Step::Do(0, Request::Atomic(AtomicOp::Store(2, 2, Relaxed))),
    Step::Label("both"),
    Step::Do(0, Request::Thread(ThreadOp::Finish(Value::Both(0, 1)))),
    EXIT,
    END,
];

/// Four threads count in one atomic, six times each, by a load and a store. Main joins them. Where nearly all of that is lost its
/// assertion fails. There are more runs than any search makes.
pub const FIVE_COUNTING: &[Step] = &[
    Step::Do(0, Request::Atomic(AtomicOp::New(Numbers::U64, 0))),
    Step::SpawnAt(1, "worker"),
    Step::SpawnAt(2, "worker"),
    Step::SpawnAt(3, "worker"),
    Step::SpawnAt(4, "worker"),
    Step::Do(1, Request::Thread(ThreadOp::Join(1, 1))),
    Step::Do(1, Request::Thread(ThreadOp::Join(2, 2))),
    Step::Do(1, Request::Thread(ThreadOp::Join(3, 3))),
    Step::Do(1, Request::Thread(ThreadOp::Join(4, 4))),
    LOAD,
    Step::UnlessTo(0, 2, "finish"),
    FAIL,
    Step::Label("finish"),
    FINISH,
    EXIT,
    END,
    Step::Label("worker"),
    LOAD,
    COUNT,
    LOAD,
    COUNT,
    LOAD,
    COUNT,
    LOAD,
    COUNT,
    LOAD,
    COUNT,
    LOAD,
    COUNT,
    FINISH,
    EXIT,
    END,
];

static WALK_ROWS: [Row; 2] = [
    row!("three_planted", THREE_PLANTED, TWO_RUNS),
    row!("five_counting", FIVE_COUNTING, TWO_RUNS),
];

/// The rows of these scripts.
pub fn rows() -> &'static [Row]
    ensures { map named result.now ≡ walk_rows }
{
    &WALK_ROWS
}
