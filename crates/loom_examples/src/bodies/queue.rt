//! A queue with room for one item, by a mutex and a condition variable, as a script. The mutex holds how many items there are.
//! One thread puts two items in, another one puts one, and main takes all three out.
use crate::named;
use crate::scripts::step::Step::{self, Do, IfTo, Label, Labelled, SpawnAt, UnlessTo};
use crate::scripts::step::{END, EXIT, Value};
use loom_objects::operation::{CondvarOp, MutexOp, Request, ThreadOp};

const LOCK: Step = Do(0, Request::Mutex(MutexOp::Lock(0)));

const FILL: Step = Do(0, Request::Mutex(MutexOp::Release(0, Value::Plain(1))));

const EMPTY: Step = Do(0, Request::Mutex(MutexOp::Release(0, Value::Plain(0))));

const SLEEP_FULL: Step = Do(0, Request::Condvar(CondvarOp::Wait(1, 0, Value::Plain(1))));

const SLEEP_EMPTY: Step = Do(0, Request::Condvar(CondvarOp::Wait(1, 0, Value::Plain(0))));

const FINISH: Step = Do(0, Request::Thread(ThreadOp::Finish(Value::Plain(0))));

// The queue, where a thread notifies others so.
macro_rules! queue {
    ($notify:expr) => {
        &[
            Labelled(0, Request::Mutex(MutexOp::New(Value::Plain(0))), named!(b"items")),
            Labelled(1, Request::Condvar(CondvarOp::New), named!(b"changed")),
            SpawnAt(2, "put two"),
            SpawnAt(3, "put one"),
            LOCK,
            UnlessTo(0, 0, "take first"),
            Label("wait for first"),
            SLEEP_EMPTY,
            IfTo(0, 0, "wait for first"),
            Label("take first"),
            EMPTY,
            Do(0, Request::Condvar($notify)),
            LOCK,
            UnlessTo(0, 0, "take second"),
            Label("wait for second"),
            SLEEP_EMPTY,
            IfTo(0, 0, "wait for second"),
            Label("take second"),
            EMPTY,
            Do(0, Request::Condvar($notify)),
            LOCK,
            UnlessTo(0, 0, "take third"),
            Label("wait for third"),
            SLEEP_EMPTY,
            IfTo(0, 0, "wait for third"),
            Label("take third"),
            EMPTY,
            Do(0, Request::Condvar($notify)),
            FINISH,
            EXIT,
            END,
            Label("put two"),
            LOCK,
            UnlessTo(0, 1, "fill"),
            Label("wait for room"),
            SLEEP_FULL,
            IfTo(0, 1, "wait for room"),
            Label("fill"),
            FILL,
            Do(0, Request::Condvar($notify)),
            Label("put one"),
            LOCK,
            UnlessTo(0, 1, "fill last"),
            Label("wait for last room"),
            SLEEP_FULL,
            IfTo(0, 1, "wait for last room"),
            Label("fill last"),
            FILL,
            Do(0, Request::Condvar($notify)),
            FINISH,
            EXIT,
            END,
        ]
    };
}

/// All that sleep are notified after each change.
pub const RIGHT: &[Step] = queue!(CondvarOp::NotifyAll(1));

/// The one that has slept longest is notified, which may be one that can't go on. Then all sleep.
pub const WRONG: &[Step] = queue!(CondvarOp::NotifyOne(1));
