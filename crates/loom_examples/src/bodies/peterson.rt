//! Peterson's lock for two threads, as a script. Each raises its flag, lets the other one go first, and enters where the other's
//! flag is down or it is let go first itself. Both add one to the number in a cell.
use crate::named;
use crate::scripts::step::Step::{self, Do, JumpTo, Label, Labelled, SpawnAt, UnlessTo};
use crate::scripts::step::{END, EXIT, FAIL, Value, YIELD};
use loom::sync::atomic::Ordering::{AcqRel, Acquire, Relaxed, Release, SeqCst};
use loom_objects::operation::{AtomicOp, CellOp, Request, ThreadOp};
use loom_views::rt::num::Numbers;

const NEW: AtomicOp = AtomicOp::New(Numbers::U64, 0);

const READ: Step = Do(1, Request::Cell(CellOp::Write(3)));

const ADD_ONE: Step = Do(1, Request::Cell(CellOp::WriteEnd(3, Value::Next(1))));

const FINISH: Step = Do(0, Request::Thread(ThreadOp::Finish(Value::Plain(0))));

// Slots 0 and 1 have the flags, of main and of the other thread, slot 2 whom the turn belongs to, and slot 3 the cell.
macro_rules! peterson {
    ($fence:expr) => {
        &[
            Labelled(0, Request::Atomic(NEW), named!(b"main's flag")),
            Labelled(1, Request::Atomic(NEW), named!(b"other flag")),
            Labelled(2, Request::Atomic(NEW), named!(b"turn")),
            Labelled(3, Request::Cell(CellOp::New(Value::Plain(0))), named!(b"count")),
            SpawnAt(4, "other"),
            Do(0, Request::Atomic(AtomicOp::Store(0, 1, Relaxed))),
            Do(0, Request::Fence($fence)),
            Do(0, Request::Atomic(AtomicOp::Store(2, 1, Relaxed))),
            Do(0, Request::Fence($fence)),
            Label("main looks"),
            Do(0, Request::Atomic(AtomicOp::Load(1, Acquire))),
            UnlessTo(0, 1, "main enters"),
            Do(0, Request::Atomic(AtomicOp::Load(2, Acquire))),
            UnlessTo(0, 1, "main enters"),
            YIELD,
            JumpTo("main looks"),
            Label("main enters"),
            READ,
            ADD_ONE,
            Do(0, Request::Atomic(AtomicOp::Store(0, 0, Release))),
            Do(0, Request::Thread(ThreadOp::Join(4, 4))),
            Do(1, Request::Cell(CellOp::Get(3))),
            UnlessTo(1, 2, "lost"),
            FINISH,
            EXIT,
            END,
            Label("lost"),
            FAIL,
            Label("other"),
            Do(0, Request::Atomic(AtomicOp::Store(1, 1, Relaxed))),
            Do(0, Request::Fence($fence)),
            Do(0, Request::Atomic(AtomicOp::Store(2, 0, Relaxed))),
            Do(0, Request::Fence($fence)),
            Label("other looks"),
            Do(0, Request::Atomic(AtomicOp::Load(0, Acquire))),
            UnlessTo(0, 1, "other enters"),
            Do(0, Request::Atomic(AtomicOp::Load(2, Acquire))),
            UnlessTo(0, 0, "other enters"),
            YIELD,
            JumpTo("other looks"),
            Label("other enters"),
            READ,
            ADD_ONE,
            Do(0, Request::Atomic(AtomicOp::Store(1, 0, Release))),
            FINISH,
            EXIT,
            END,
        ]
    };
}

/// By sequentially consistent fences.
pub const RIGHT: &[Step] = peterson!(SeqCst);

/// By weaker fences: both threads may find the other's flag down, and enter.
pub const WRONG: &[Step] = peterson!(AcqRel);
