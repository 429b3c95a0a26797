//! The scripts of the rows about wakers of futures, and places for them.
ghost use Rattle.std.specs.Prelude.{◌≡◌, map};
ghost use Rattle.loom_examples.specs.Rows.Meanings.{named};
ghost use Rattle.loom_examples.specs.Rows.Table.{waker_rows};

use crate::row;
use crate::rows::Row;
use crate::scripts::step::{END, EXIT, FAIL, Step, Value};
use loom_objects::operation::{AtomicOp, AtomicWakerOp, Request, ThreadOp, WakerOp};
use loom_views::rt::num::Numbers;
use std::sync::atomic::Ordering::{Acquire, Release};

const FINISH: Step = Step::Do(0, Request::Thread(ThreadOp::Finish(Value::Plain(7))));

/// A future is ready at its first poll.
pub const READY_AT_ONCE: &[Step] = &[
    Step::Do(0, Request::Waker(WakerOp::New)),
    Step::Do(0, Request::Waker(WakerOp::Finish(0))),
    FINISH,
    EXIT,
    END,
];

/// `spurious_poll`, but a clone of the waker is left.
pub const WAKER_LEAK: &[Step] = &[
    Step::Do(0, Request::Waker(WakerOp::New)),
    Step::Do(0, Request::Waker(WakerOp::Clone(0))),
    Step::Do(0, Request::Waker(WakerOp::Finish(0))),
    FINISH,
    EXIT,
    END,
];

/// Main registers a clone of the waker in a place, and wakes by the place.
pub const WAKER_ROUND: &[Step] = &[
    Step::Do(0, Request::AtomicWaker(AtomicWakerOp::New)),
    Step::Do(1, Request::Waker(WakerOp::New)),
    Step::Do(0, Request::Waker(WakerOp::Clone(1))),
    Step::Do(0, Request::AtomicWaker(AtomicWakerOp::Register(0, 1))),
    Step::Do(0, Request::AtomicWaker(AtomicWakerOp::Wake(0))),
    Step::Do(0, Request::Waker(WakerOp::Finish(1))),
    FINISH,
    EXIT,
    END,
];

/// Main polls until it finds a gate open. At the first poll it makes a thread that opens the gate and wakes main. Main
/// finishes with the number of its polls, and asserts that they are three at most (loom's `tests/futures.rs`).
pub const SPURIOUS_POLL: &[Step] = &[
    Step::Do(0, Request::Atomic(AtomicOp::New(Numbers::Bool, 0))),
    Step::Do(1, Request::Waker(WakerOp::New)),
    Step::Do(0, Request::Waker(WakerOp::Clone(1))),
    Step::SpawnAt(2, "child"),
    Step::Do(0, Request::Atomic(AtomicOp::Load(0, Acquire))),
    Step::UnlessTo(0, 1, "main wait"),
    Step::Do(0, Request::Waker(WakerOp::Finish(1))),
    Step::Do(0, Request::Thread(ThreadOp::Finish(Value::Plain(1)))),
    Step::JumpTo("exit"),
    Step::Label("main wait"),
    Step::Do(0, Request::Waker(WakerOp::Wait(1))),
    Step::Do(0, Request::Atomic(AtomicOp::Load(0, Acquire))),
    Step::UnlessTo(0, 1, "wait"),
    Step::Do(0, Request::Waker(WakerOp::Finish(1))),
    Step::Do(0, Request::Thread(ThreadOp::Finish(Value::Plain(2)))),
    Step::JumpTo("exit"),
    Step::Label("wait"),
    Step::Do(0, Request::Waker(WakerOp::Wait(1))),
    Step::Do(0, Request::Atomic(AtomicOp::Load(0, Acquire))),
    Step::UnlessTo(0, 1, "wrong"),
    Step::Do(0, Request::Waker(WakerOp::Finish(1))),
    Step::Do(0, Request::Thread(ThreadOp::Finish(Value::Plain(3)))),
    Step::Label("exit"),
    EXIT,
    END,
    Step::Label("wrong"),
    FAIL,
    Step::Label("child"),
    Step::Do(0, Request::Atomic(AtomicOp::Store(0, 1, Release))),
    Step::Do(0, Request::Waker(WakerOp::Wake(1))),
    FINISH,
    Step::JumpTo("exit"),
];

/// Main waits for a future, whose only waker a thread has taken by a wake when the wait takes effect.
pub const WAIT_TAKEN: &[Step] = &[
    Step::Do(0, Request::Waker(WakerOp::New)),
    Step::SpawnAt(1, "child"),
    Step::Do(0, Request::Waker(WakerOp::Wait(0))),
    Step::Label("finish"),
    FINISH,
    EXIT,
    END,
    Step::Label("child"),
    Step::Do(0, Request::Waker(WakerOp::Wake(0))),
    Step::JumpTo("finish"),
];

/// Main registers a waker in a place, drops it, and wakes by the place.
pub const WAKE_DROPPED: &[Step] = &[
    Step::Do(0, Request::Waker(WakerOp::New)),
    Step::Do(1, Request::AtomicWaker(AtomicWakerOp::New)),
    Step::Do(0, Request::AtomicWaker(AtomicWakerOp::Register(1, 0))),
    Step::Do(0, Request::Waker(WakerOp::Drop(0))),
    Step::Do(0, Request::AtomicWaker(AtomicWakerOp::Wake(1))),
    FINISH,
    EXIT,
    END,
];

static WAKER_ROWS: [Row; 6] = [
    row!("ready_at_once", READY_AT_ONCE),
    row!("waker_leak", WAKER_LEAK),
    row!("waker_round", WAKER_ROUND),
    row!("wait_taken", WAIT_TAKEN),
    row!("wake_dropped", WAKE_DROPPED),
    row!("spurious_poll", SPURIOUS_POLL),
];

/// The rows of these scripts.
pub fn rows() -> &'static [Row]
    ensures { map named result.now ≡ waker_rows }
{
    &WAKER_ROWS
}
