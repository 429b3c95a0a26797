//! A ring of two cells for one producer and one consumer, as a script: one atomic counts the items that were put in, and one those
//! that were taken out. A thread puts 11, 12 and 13 in. Main takes them out, and asserts which they are.
use crate::named;
use crate::scripts::step::Step::{self, Do, JumpTo, Label, Labelled, SpawnAt, UnlessTo};
use crate::scripts::step::{END, EXIT, FAIL, Value, YIELD};
use loom::sync::atomic::Ordering::{Acquire, Relaxed, Release};
use loom_objects::operation::{AtomicOp, CellOp, Request, ThreadOp};
use loom_views::rt::num::Numbers;

const NEW: AtomicOp = AtomicOp::New(Numbers::U64, 0);

const LOOK: Step = Do(0, Request::Atomic(AtomicOp::Load(1, Acquire)));

const FINISH: Step = Do(0, Request::Thread(ThreadOp::Finish(Value::Plain(0))));

// Slot 0 has how many were taken out, slot 1 how many were put in, and slots 2 and 3 the cells.
macro_rules! ring {
    ($publish:expr) => {
        &[
            Labelled(0, Request::Atomic(NEW), named!(b"taken out")),
            Labelled(1, Request::Atomic(NEW), named!(b"put in")),
            Labelled(2, Request::Cell(CellOp::New(Value::Plain(0))), named!(b"cell 0")),
            Labelled(3, Request::Cell(CellOp::New(Value::Plain(0))), named!(b"cell 1")),
            SpawnAt(4, "producer"),
            Label("wait for 11"),
            LOOK,
            UnlessTo(0, 0, "take 11"),
            YIELD,
            JumpTo("wait for 11"),
            Label("take 11"),
            Do(1, Request::Cell(CellOp::Get(2))),
            UnlessTo(1, 11, "wrong"),
            Do(0, Request::Atomic(AtomicOp::Store(0, 1, Release))),
            Label("wait for 12"),
            LOOK,
            UnlessTo(0, 1, "take 12"),
            YIELD,
            JumpTo("wait for 12"),
            Label("take 12"),
            Do(1, Request::Cell(CellOp::Get(3))),
            UnlessTo(1, 12, "wrong"),
            Do(0, Request::Atomic(AtomicOp::Store(0, 2, Release))),
            Label("wait for 13"),
            LOOK,
            UnlessTo(0, 2, "take 13"),
            YIELD,
            JumpTo("wait for 13"),
            Label("take 13"),
            Do(1, Request::Cell(CellOp::Get(2))),
            UnlessTo(1, 13, "wrong"),
            FINISH,
            EXIT,
            END,
            Label("wrong"),
            FAIL,
            Label("producer"),
            Do(0, Request::Cell(CellOp::Replace(2, Value::Plain(11)))),
            Do(0, Request::Atomic(AtomicOp::Store(1, 1, $publish))),
            Do(0, Request::Cell(CellOp::Replace(3, Value::Plain(12)))),
            Do(0, Request::Atomic(AtomicOp::Store(1, 2, $publish))),
            Label("wait for room"),
            Do(0, Request::Atomic(AtomicOp::Load(0, Acquire))),
            UnlessTo(0, 0, "put 13"),
            YIELD,
            JumpTo("wait for room"),
            Label("put 13"),
            Do(0, Request::Cell(CellOp::Replace(2, Value::Plain(13)))),
            Do(0, Request::Atomic(AtomicOp::Store(1, 3, $publish))),
            FINISH,
            EXIT,
            END,
        ]
    };
}

/// The producer releases what it has put in.
pub const RIGHT: &[Step] = ring!(Release);

/// It doesn't: main may know of the count, and not of the item.
pub const WRONG: &[Step] = ring!(Relaxed);
