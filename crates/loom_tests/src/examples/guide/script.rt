//! A script of one's own, as docs/GUIDE.md begins it.
use loom::model::Builder;
use loom::sync::atomic::Ordering::{Acquire, Relaxed, Release};
use loom_examples::scripts::script::Script;
use loom_examples::scripts::step::{END, EXIT, FAIL, Step, Value};
use loom_objects::operation::{AtomicOp, Request, ThreadOp};
use loom_views::rt::num::Numbers;
use std::test::Fail;

/// A thread stores 1 into one atomic and releases it by a second. Where main acquires that, it asserts that it loads the 1
/// (loom's `tests/atomic_relaxed.rs`).
const CHECK_ORDERING_VALID: &[Step] = &[
    Step::Do(0, Request::Atomic(AtomicOp::New(Numbers::U64, 0))),
    Step::Do(1, Request::Atomic(AtomicOp::New(Numbers::U64, 0))),
    Step::SpawnAt(2, "child"),
    Step::Do(0, Request::Atomic(AtomicOp::Load(1, Acquire))),
    Step::UnlessTo(0, 1, "finish"),
    Step::Do(1, Request::Atomic(AtomicOp::Load(0, Relaxed))),
    Step::UnlessTo(1, 1, "wrong"),
    Step::Label("finish"),
    Step::Do(0, Request::Thread(ThreadOp::Finish(Value::Both(0, 1)))),
    EXIT,
    END,
    Step::Label("wrong"),
    FAIL,
    Step::Label("child"),
    Step::Do(0, Request::Atomic(AtomicOp::Store(0, 1, Relaxed))),
    Step::Do(0, Request::Atomic(AtomicOp::Store(1, 1, Release))),
    Step::Do(0, Request::Thread(ThreadOp::Finish(Value::Plain(0)))),
    EXIT,
    END,
];

#[test]
fn what_is_released_is_seen(rt: HostRuntime) -> Result<(), Fail> {
    let script = Script::new(rt.alloc(), CHECK_ORDERING_VALID)?;
    let report = Builder::new().check(&rt, rt.alloc(), &script)?;
    assert!(rt; report.is_complete(), "{report}");
    Ok(())
}
