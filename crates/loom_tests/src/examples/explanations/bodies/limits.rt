//! Bodies that pass a limit.
use loom::sync::atomic::Ordering::{Relaxed, Release};
use loom_examples::scripts::step::{END, EXIT, Step, Value};
use loom_objects::label::Label;
use loom_objects::operation::{AtomicOp, Exchange, MutexOp, Request, ThreadOp};
use loom_objects::text_literal;
use loom_views::rt::num::Numbers;
use loom_views::rt::num::change::Change::Add;

const FINISH: Step = Step::Do(0, Request::Thread(ThreadOp::Finish(Value::Plain(0))));

const HITS: Label = Label {
    name: Some(text_literal!(b"hits")),
    location: None,
};

/// Main spawns three threads.
pub const THREE_SPAWNED: &[Step] = &[
    Step::SpawnAt(0, "child"),
    Step::SpawnAt(0, "child"),
    Step::SpawnAt(0, "child"),
    Step::Label("child"),
    FINISH,
];

/// Main makes fences without end.
pub const FENCES: &[Step] = &[
    Step::Label("again"),
    Step::Do(0, Request::Fence(Release)),
    Step::JumpTo("again"),
];

/// Main stores 40,000 times into an atomic, and then a thread does without end.
pub const STORES: &[Step] = &[
    Step::Labelled(0, Request::Atomic(AtomicOp::New(Numbers::U64, 0)), HITS),
    Step::Do(1, Request::Mutex(MutexOp::New(Value::Plain(0)))),
    Step::SpawnAt(2, "child"),
    Step::Label("again"),
    Step::Do(0, Request::Atomic(AtomicOp::Store(0, 1, Relaxed))),
    Step::Do(0, Request::Mutex(MutexOp::GetMut(1))),
    Step::Do(0, Request::Mutex(MutexOp::Put(1, Value::Next(0)))),
    Step::UnlessTo(0, 39_999, "again"),
    Step::Do(0, Request::Thread(ThreadOp::Join(2, 2))),
    Step::Label("child"),
    Step::Do(0, Request::Atomic(AtomicOp::Store(0, 2, Relaxed))),
    Step::JumpTo("child"),
];

const TWO_BY_TWO: Exchange = Exchange {
    expected: 2,
    new: 2,
    success: Relaxed,
    failure: Relaxed,
};

/// Three threads whose stores and loads lead to two stores with equal places in loom's modification order.
pub const ORDERS_EQUAL: &[Step] = &[
    Step::Labelled(0, Request::Atomic(AtomicOp::New(Numbers::U64, 0)), HITS),
    Step::SpawnAt(1, "first"),
    Step::Do(0, Request::Atomic(AtomicOp::Store(0, 3, Relaxed))),
    Step::SpawnAt(2, "second"),
    Step::Do(0, Request::Atomic(AtomicOp::Load(0, Relaxed))),
    FINISH,
    EXIT,
    END,
    Step::Label("first"),
    Step::Do(0, Request::Atomic(AtomicOp::Store(0, 0, Relaxed))),
    Step::Do(0, Request::Atomic(AtomicOp::Store(0, 0, Relaxed))),
    Step::Do(0, Request::Atomic(AtomicOp::Update(0, Add(1), Relaxed))),
    Step::JumpTo("finish"),
    Step::Label("second"),
    Step::Do(0, Request::Atomic(AtomicOp::Load(0, Relaxed))),
    Step::Do(0, Request::Atomic(AtomicOp::CompareExchange(0, TWO_BY_TWO))),
    Step::Label("finish"),
    FINISH,
    EXIT,
    END,
];
