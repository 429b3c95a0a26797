//! The scripts of the rows about values that threads have for themselves, and values that are made once a run.
ghost use Rattle.std.specs.Prelude.{◌≡◌, map};
ghost use Rattle.loom_examples.specs.Rows.Meanings.{named};
ghost use Rattle.loom_examples.specs.Rows.Table.{value_rows};

use crate::row;
use crate::rows::Row;
use crate::scripts::step::{END, EXIT, FAIL, Step, Value};
use loom_objects::operation::{LazyOp, LocalOp, Request, ThreadOp};

const FINISH: Step = Step::Do(0, Request::Thread(ThreadOp::Finish(Value::Plain(7))));

/// Main asserts that a value isn't made yet, that it is 5 once it is made so, and that it is given back with its key.
pub const LAZY_ONCE: &[Step] = &[
    Step::Do(0, Request::Lazy(LazyOp::Get(1))),
    Step::UnlessTo(3, 1, "wrong"),
    Step::Do(0, Request::Lazy(LazyOp::Init(1, Value::Plain(5)))),
    Step::UnlessTo(0, 5, "wrong"),
    Step::Do(1, Request::Lazy(LazyOp::Get(1))),
    Step::UnlessTo(1, 5, "wrong"),
    Step::Do(2, Request::Thread(ThreadOp::Finish(Value::Held(1)))),
    Step::UnlessTo(2, 115, "wrong"),
    EXIT,
    END,
    Step::Label("wrong"),
    FAIL,
];

/// A thread that main doesn't join asks for a value that is made once (loom's `tests/atomic.rs`).
pub const LAZY_LATE: &[Step] = &[
    Step::SpawnAt(0, "child"),
    FINISH,
    EXIT,
    END,
    Step::Label("child"),
    Step::Do(0, Request::Lazy(LazyOp::Get(1))),
    FINISH,
    EXIT,
    END,
];

/// Main makes two values of one key.
pub const LOCAL_TWICE: &[Step] = &[
    Step::Do(0, Request::Local(LocalOp::Init(1, Value::Plain(5)))),
    Step::Do(0, Request::Local(LocalOp::Init(1, Value::Plain(6)))),
];

/// Main asks for a value that it gave back.
pub const LOCAL_GONE: &[Step] = &[
    Step::Do(0, Request::Local(LocalOp::Init(1, Value::Plain(5)))),
    FINISH,
    EXIT,
    Step::Do(0, Request::Local(LocalOp::With(1))),
];

/// The one before by the call that may fail, and main asserts that it does.
pub const LOCAL_ACCESS_ERROR: &[Step] = &[
    Step::Do(0, Request::Local(LocalOp::Init(1, Value::Plain(5)))),
    FINISH,
    EXIT,
    Step::Do(0, Request::Local(LocalOp::TryWith(1))),
    Step::UnlessTo(3, 2, "wrong"),
    END,
    Step::Label("wrong"),
    FAIL,
];

/// Main makes a value of key 2 and then one of key 1, and asserts that it has them back in this order.
pub const LOCAL_ORDER: &[Step] = &[
    Step::Do(0, Request::Local(LocalOp::Init(2, Value::Plain(5)))),
    Step::Do(0, Request::Local(LocalOp::Init(1, Value::Plain(6)))),
    FINISH,
    EXIT,
    Step::UnlessTo(0, 12_516, "wrong"),
    END,
    Step::Label("wrong"),
    FAIL,
];

static VALUE_ROWS: [Row; 6] = [
    row!("lazy_once", LAZY_ONCE),
    row!("lazy_late", LAZY_LATE),
    row!("local_twice", LOCAL_TWICE),
    row!("local_gone", LOCAL_GONE),
    row!("local_access_error", LOCAL_ACCESS_ERROR),
    row!("local_order", LOCAL_ORDER),
];

/// The rows of these scripts.
pub fn rows() -> &'static [Row]
    ensures { map named result.now ≡ value_rows }
{
    &VALUE_ROWS
}
