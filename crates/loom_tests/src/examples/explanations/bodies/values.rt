//! Bodies that use values of their own, and values that are made once a run, wrongly.
use loom_examples::scripts::step::{END, EXIT, Step, Value, YIELD};
use loom_objects::operation::{LazyOp, LocalOp, Request, ThreadOp};

const FINISH: Step = Step::Do(0, Request::Thread(ThreadOp::Finish(Value::Plain(0))));

/// The child uses a value that main has given back.
pub const AFTER_MAIN: &[Step] = &[
    Step::Do(0, Request::Lazy(LazyOp::Init(3, Value::Plain(7)))),
    Step::SpawnAt(1, "child"),
    FINISH,
    EXIT,
    END,
    Step::Label("child"),
    YIELD,
    Step::Do(0, Request::Lazy(LazyOp::Get(3))),
];

/// Main uses a value of its own after it gave it back.
pub const AFTER_EXIT: &[Step] = &[
    Step::Do(0, Request::Local(LocalOp::Init(2, Value::Plain(7)))),
    FINISH,
    EXIT,
    Step::Do(0, Request::Local(LocalOp::With(2))),
];

/// Main makes a value of its own twice.
pub const MADE_TWICE: &[Step] = &[
    Step::Do(0, Request::Local(LocalOp::With(2))),
    Step::Do(0, Request::Local(LocalOp::Init(2, Value::Plain(7)))),
    Step::Do(0, Request::Local(LocalOp::Init(2, Value::Plain(8)))),
];
