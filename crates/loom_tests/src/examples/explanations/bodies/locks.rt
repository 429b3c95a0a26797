//! Bodies that come to a deadlock, or leave something.
use loom::sync::atomic::Ordering::{Acquire, Relaxed, Release};
use loom_examples::scripts::step::{END, EXIT, Step, Value, YIELD};
use loom_objects::label::Label;
use loom_objects::operation::{
    ArcOp, AtomicOp, ChannelOp, CondvarOp, Exchange, MutexOp, Name, NotifyOp, Request, RwLockOp,
    ThreadOp, TrackOp, WakerOp,
};
use loom_objects::text_literal;
use loom_views::rt::num::Numbers;

macro_rules! named {
    ($name:literal) => {
        Label {
            name: Some(text_literal!($name)),
            location: None,
        }
    };
}

const FINISH: Step = Step::Do(0, Request::Thread(ThreadOp::Finish(Value::Plain(0))));

/// Two threads take two mutexes in opposite orders.
pub const CROSSED: &[Step] = &[
    Step::Labelled(
        0,
        Request::Mutex(MutexOp::New(Value::Plain(0))),
        named!(b"left"),
    ),
    Step::Labelled(
        1,
        Request::Mutex(MutexOp::New(Value::Plain(0))),
        named!(b"right"),
    ),
    Step::SpawnAt(2, "child"),
    Step::Do(0, Request::Mutex(MutexOp::Lock(0))),
    Step::Do(0, Request::Mutex(MutexOp::Lock(1))),
    Step::Do(0, Request::Thread(ThreadOp::Join(2, 2))),
    Step::Label("child"),
    Step::Do(0, Request::Mutex(MutexOp::Lock(1))),
    Step::Do(0, Request::Mutex(MutexOp::Lock(0))),
];

/// A thread locks a mutex that it holds.
pub const TWICE: &[Step] = &[
    Step::Do(0, Request::Mutex(MutexOp::New(Value::Plain(0)))),
    Step::Do(0, Request::Mutex(MutexOp::Lock(0))),
    Step::Do(0, Request::Mutex(MutexOp::Lock(0))),
];

/// Three threads wait on one condition variable; one is notified, and ends.
pub const ASLEEP: &[Step] = &[
    Step::Labelled(
        0,
        Request::Mutex(MutexOp::New(Value::Plain(0))),
        named!(b"queue"),
    ),
    Step::Labelled(1, Request::Condvar(CondvarOp::New), named!(b"not empty")),
    Step::Do(
        2,
        Request::Thread(ThreadOp::Spawn(
            9,
            Some(Name {
                text: text_literal!(b"first"),
            }),
        )),
    ),
    Step::Do(
        3,
        Request::Thread(ThreadOp::Spawn(
            9,
            Some(Name {
                text: text_literal!(b"second"),
            }),
        )),
    ),
    Step::Do(0, Request::Condvar(CondvarOp::NotifyOne(1))),
    Step::Do(0, Request::Thread(ThreadOp::Join(2, 2))),
    FINISH,
    EXIT,
    END,
    Step::Do(0, Request::Mutex(MutexOp::Lock(0))),
    Step::Do(0, Request::Condvar(CondvarOp::Wait(1, 0, Value::Held(0)))),
    Step::Do(0, Request::Mutex(MutexOp::Release(0, Value::Held(0)))),
    FINISH,
    EXIT,
    END,
];

/// Of each thing that is waited for one: a lock to read, a lock to write, a message, a token and a notification.
pub const ALL_WAIT: &[Step] = &[
    Step::Labelled(
        0,
        Request::RwLock(RwLockOp::New(Value::Plain(0))),
        named!(b"table"),
    ),
    Step::Do(1, Request::Channel(ChannelOp::New)),
    Step::Do(2, Request::Notify(NotifyOp::New)),
    Step::Do(3, Request::RwLock(RwLockOp::New(Value::Plain(0)))),
    Step::Do(0, Request::RwLock(RwLockOp::Read(0))),
    Step::Do(0, Request::RwLock(RwLockOp::Write(3))),
    Step::SpawnAt(4, "first"),
    Step::SpawnAt(4, "second"),
    Step::SpawnAt(4, "third"),
    Step::SpawnAt(4, "fourth"),
    Step::Do(0, Request::Channel(ChannelOp::Recv(1))),
    Step::Label("first"),
    Step::Do(0, Request::RwLock(RwLockOp::Write(0))),
    Step::Label("second"),
    Step::Do(0, Request::RwLock(RwLockOp::Read(3))),
    Step::Label("third"),
    Step::Do(0, Request::Thread(ThreadOp::Park)),
    Step::Label("fourth"),
    Step::Do(0, Request::Notify(NotifyOp::Wait(2))),
];

const TO_ONE: Exchange = Exchange {
    expected: 0,
    new: 1,
    success: Acquire,
    failure: Relaxed,
};

/// Main and the child each read a number and store one more, and main asserts that it is 2 then.
pub const LOST_UPDATE: &[Step] = &[
    Step::Labelled(
        0,
        Request::Atomic(AtomicOp::New(Numbers::U64, 0)),
        named!(b"count"),
    ),
    Step::SpawnAt(1, "child"),
    Step::Do(0, Request::Atomic(AtomicOp::Load(0, Acquire))),
    Step::Store(0, Value::Next(0), Release),
    Step::Do(0, Request::Thread(ThreadOp::Join(1, 1))),
    Step::Do(0, Request::Atomic(AtomicOp::Load(0, Acquire))),
    Step::UnlessTo(0, 2, "fail"),
    FINISH,
    Step::Label("child"),
    Step::Do(0, Request::Atomic(AtomicOp::Load(0, Acquire))),
    Step::Store(0, Value::Next(0), Release),
    FINISH,
    EXIT,
    END,
    Step::Label("fail"),
    Step::Labelled(0, Request::Fail, named!(b"the count is 2")),
];

/// The child spins, without a yield, on a lock that main keeps.
pub const SPINS: &[Step] = &[
    Step::Labelled(
        0,
        Request::Atomic(AtomicOp::New(Numbers::Bool, 1)),
        named!(b"locked"),
    ),
    Step::SpawnAt(1, "child"),
    Step::Do(0, Request::Thread(ThreadOp::Join(1, 1))),
    Step::Label("child"),
    Step::Do(0, Request::Atomic(AtomicOp::CompareExchange(0, TO_ONE))),
    Step::JumpTo("child"),
];

/// The one before, with a yield in each turn.
pub const SPINS_AND_YIELDS: &[Step] = &[
    Step::Labelled(
        0,
        Request::Atomic(AtomicOp::New(Numbers::Bool, 1)),
        named!(b"locked"),
    ),
    Step::SpawnAt(1, "child"),
    Step::Do(0, Request::Thread(ThreadOp::Join(1, 1))),
    Step::Label("child"),
    Step::Do(0, Request::Atomic(AtomicOp::CompareExchange(0, TO_ONE))),
    YIELD,
    Step::JumpTo("child"),
];

/// A clone of a counted reference isn't dropped.
pub const ARC_LEFT: &[Step] = &[
    Step::Labelled(
        0,
        Request::Arc(ArcOp::New(Value::Plain(5))),
        named!(b"shared"),
    ),
    Step::Do(0, Request::Arc(ArcOp::Clone(0))),
    Step::Do(0, Request::Arc(ArcOp::Drop(0))),
    FINISH,
    EXIT,
    END,
];

/// A clone of a waker isn't dropped.
pub const WAKER_LEFT: &[Step] = &[
    Step::Do(0, Request::Waker(WakerOp::New)),
    Step::Do(0, Request::Waker(WakerOp::Clone(0))),
    Step::Do(0, Request::Waker(WakerOp::Finish(0))),
    FINISH,
    EXIT,
    END,
];

/// A tracked value isn't given back.
pub const TRACK_LEFT: &[Step] = &[
    Step::Labelled(
        0,
        Request::Track(TrackOp::New(Value::Plain(5))),
        named!(b"buffer"),
    ),
    Step::Do(0, Request::Track(TrackOp::GetRef(0))),
    FINISH,
    EXIT,
    END,
];

/// Of two messages one is received.
pub const MESSAGE_LEFT: &[Step] = &[
    Step::Do(0, Request::Channel(ChannelOp::New)),
    Step::Do(0, Request::Channel(ChannelOp::Send(0, Value::Plain(5)))),
    Step::Do(0, Request::Channel(ChannelOp::Send(0, Value::Plain(6)))),
    Step::Do(0, Request::Channel(ChannelOp::Recv(0))),
    FINISH,
    EXIT,
    END,
];
