//! Bodies that race, and whose cells are open.
use loom::sync::atomic::Ordering::{self, Relaxed, Release};
use loom_examples::scripts::step::{END, EXIT, Step, Value, YIELD};
use loom_objects::label::Label;
use loom_objects::location::Location;
use loom_objects::operation::{AtomicOp, CellOp, Exchange, Request, ThreadOp};
use loom_objects::text_literal;
use loom_views::rt::num::Numbers;
use loom_views::rt::num::change::Change;

const FLAG: Label = Label {
    name: Some(text_literal!(b"flag")),
    location: None,
};

const COUNT: Label = Label {
    name: Some(text_literal!(b"count")),
    location: None,
};

const AT_WRITE: Label = Label {
    name: None,
    location: Some(Location {
        file: text_literal!(b"spin.rs"),
        line: 87,
    }),
};

const FINISH: Step = Step::Do(0, Request::Thread(ThreadOp::Finish(Value::Plain(0))));

const NEW_CELL: Step = Step::Labelled(1, Request::Cell(CellOp::New(Value::Plain(0))), COUNT);

const TO_TRUE: Exchange = Exchange {
    expected: 0,
    new: 1,
    success: Relaxed,
    failure: Relaxed,
};

const TAKE: Step = Step::Do(0, Request::Atomic(AtomicOp::CompareExchange(0, TO_TRUE)));

const WRITE: Step = Step::Labelled(0, Request::Cell(CellOp::Write(1)), AT_WRITE);

const WRITE_END: Step = Step::Do(0, Request::Cell(CellOp::WriteEnd(1, Value::Next(0))));

const FREE: Step = Step::Do(0, Request::Atomic(AtomicOp::Store(0, 0, Relaxed)));

/// Two threads take a spin lock whose orderings are all relaxed, and write a cell.
pub const SPIN: &[Step] = &[
    Step::Labelled(0, Request::Atomic(AtomicOp::New(Numbers::Bool, 0)), FLAG),
    NEW_CELL,
    Step::SpawnAt(2, "child"),
    TAKE,
    WRITE,
    WRITE_END,
    FREE,
    Step::Do(0, Request::Thread(ThreadOp::Join(2, 2))),
    Step::Label("child"),
    TAKE,
    WRITE,
    WRITE_END,
    FREE,
    FINISH,
    EXIT,
    END,
];

/// A thread that is spawned writes a cell beside main, and nothing orders the two.
pub const BESIDE: &[Step] = &[
    NEW_CELL,
    Step::SpawnAt(0, "child"),
    WRITE,
    WRITE_END,
    Step::Label("child"),
    Step::Do(0, Request::Cell(CellOp::Read(1))),
    Step::Do(0, Request::Cell(CellOp::ReadEnd(1))),
    FINISH,
    EXIT,
    END,
];

const ADD: Request<Value, usize> = Request::Atomic(AtomicOp::Update(
    0,
    Change::Add(1),
    Ordering::Acquire,
));

/// The store that the child reads was made without a release.
pub const UNRELEASED: &[Step] = &[
    Step::Labelled(0, Request::Atomic(AtomicOp::New(Numbers::I32, 0)), FLAG),
    NEW_CELL,
    Step::SpawnAt(2, "child"),
    WRITE,
    WRITE_END,
    Step::Do(0, Request::Atomic(AtomicOp::Store(0, 0xffff_ffff, Relaxed))),
    YIELD,
    Step::Label("child"),
    Step::Do(0, ADD),
    Step::Do(0, Request::Cell(CellOp::Get(1))),
];

/// The child reads a cell that main has open.
pub const OPEN: &[Step] = &[
    NEW_CELL,
    Step::SpawnAt(2, "child"),
    WRITE,
    YIELD,
    Step::Label("child"),
    Step::Do(0, Request::Cell(CellOp::Read(1))),
];

/// An atomic is mutated beside a store to it.
pub const MUTATED: &[Step] = &[
    Step::Labelled(0, Request::Atomic(AtomicOp::New(Numbers::U8, 7)), FLAG),
    Step::SpawnAt(2, "child"),
    Step::Do(0, Request::Atomic(AtomicOp::WithMut(0))),
    Step::Do(0, Request::Atomic(AtomicOp::WithMutEnd(0, 9))),
    YIELD,
    Step::Label("child"),
    Step::Do(0, Request::Atomic(AtomicOp::Store(0, 300, Release))),
];

/// Two threads read and write a cell that main wrote before it spawned them. Both know of main's write, and neither of the other.
pub const THREE: &[Step] = &[
    NEW_CELL,
    WRITE,
    WRITE_END,
    Step::SpawnAt(2, "first"),
    Step::SpawnAt(3, "second"),
    YIELD,
    Step::Label("first"),
    Step::Do(0, Request::Cell(CellOp::Get(1))),
    YIELD,
    Step::Label("second"),
    WRITE,
];
