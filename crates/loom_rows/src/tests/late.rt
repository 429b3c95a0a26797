//! Bodies in which a thread misuses an object, while another thread that asked for something of it hasn't been chosen yet: what
//! an operation names is tested again when it takes effect.
use super::finding::replays;
use crate::tests::asserting::{holds, script};
use loom::sync::atomic::Ordering::Relaxed;
use loom::{Choices, FailureKind};
use loom_examples::rows::settings::Builds;
use loom_examples::rows::{Checked, DEFAULTS, Row};
use loom_examples::scripts::step::{END, EXIT, Step, Value, YIELD};
use loom_objects::operation::{
    ArcOp, AtomicOp, AtomicWakerOp, ChannelOp, CondvarOp, Exchange, MutexOp, Request, RwLockOp,
    ThreadOp, WakerOp,
};
use loom_plain::run::Ending;
use loom_plain::search::Found;
use loom_views::rt::num::Numbers;
use loom_views::rt::num::change::Change::Add;
use std::process::Abort;

const FINISH: Step = Step::Do(0, Request::Thread(ThreadOp::Finish(Value::Plain(7))));

// Main takes the first steps, spawns a thread and yields. The thread takes the second steps; and main the third ones.
macro_rules! late {
    ($made:expr $(, $more:expr)*; $asked:expr $(, $then:expr)*; $misused:expr $(, $last:expr)*) => {
        &[
            $made,
            $($more,)*
            Step::SpawnAt(1, "child"),
            YIELD,
            $misused,
            $($last,)*
            Step::Label("finish"),
            FINISH,
            EXIT,
            END,
            Step::Label("child"),
            $asked,
            $($then,)*
            Step::JumpTo("finish"),
        ]
    };
}

macro_rules! on {
    ($kind:ident, $op:expr) => {
        Step::Do(0, Request::$kind($op))
    };
}

const MUTEX: Step = on!(Mutex, MutexOp::New(Value::Plain(1)));

const LOCK: Step = on!(Mutex, MutexOp::Lock(0));

const MUTEX_TAKEN: Step = on!(Mutex, MutexOp::IntoInner(0));

const RWLOCK: Step = on!(RwLock, RwLockOp::New(Value::Plain(1)));

const READ: Step = on!(RwLock, RwLockOp::Read(0));

const WRITE: Step = on!(RwLock, RwLockOp::Write(0));

const RWLOCK_TAKEN: Step = on!(RwLock, RwLockOp::IntoInner(0));

static LOCKS: [(Row, &str); 13] = [
    (row!("lock", late!(MUTEX; LOCK; MUTEX_TAKEN)), "t1 t0 t1"),
    (
        row!(
            "try_lock",
            late!(MUTEX; on!(Mutex, MutexOp::TryLock(0)); MUTEX_TAKEN)
        ),
        "t1 t0 t1",
    ),
    (
        row!(
            "lock of what is out",
            late!(MUTEX; LOCK; on!(Mutex, MutexOp::GetMut(0)))
        ),
        "t1 t0 t1",
    ),
    (
        row!(
            "try_lock of what is out",
            late!(MUTEX; on!(Mutex, MutexOp::TryLock(0)); on!(Mutex, MutexOp::GetMut(0)))
        ),
        "t1 t0 t1",
    ),
    // The thread has fallen asleep, and is to take the mutex again.
    (
        row!(
            "lock after a wait",
            late!(
                MUTEX,
                Step::Do(2, Request::Condvar(CondvarOp::New));
                LOCK,
                on!(Condvar, CondvarOp::Wait(2, 0, Value::Plain(1)));
                on!(Condvar, CondvarOp::NotifyOne(2)),
                MUTEX_TAKEN
            )
        ),
        "t1 t1 t1 t0 t0 t1 t1",
    ),
    (row!("read", late!(RWLOCK; READ; RWLOCK_TAKEN)), "t1 t0 t1"),
    (
        row!(
            "try_read",
            late!(RWLOCK; on!(RwLock, RwLockOp::TryRead(0)); RWLOCK_TAKEN)
        ),
        "t1 t0 t1",
    ),
    (
        row!(
            "read of what is out",
            late!(RWLOCK; READ; on!(RwLock, RwLockOp::GetMut(0)))
        ),
        "t1 t0 t1",
    ),
    (
        row!(
            "try_read of what is out",
            late!(RWLOCK; on!(RwLock, RwLockOp::TryRead(0)); on!(RwLock, RwLockOp::GetMut(0)))
        ),
        "t1 t0 t1",
    ),
    (
        row!("write", late!(RWLOCK; WRITE; RWLOCK_TAKEN)),
        "t1 t0 t1",
    ),
    (
        row!(
            "try_write",
            late!(RWLOCK; on!(RwLock, RwLockOp::TryWrite(0)); RWLOCK_TAKEN)
        ),
        "t1 t0 t1",
    ),
    (
        row!(
            "write of what is out",
            late!(RWLOCK; WRITE; on!(RwLock, RwLockOp::GetMut(0)))
        ),
        "t1 t0 t1",
    ),
    (
        row!(
            "try_write of what is out",
            late!(RWLOCK; on!(RwLock, RwLockOp::TryWrite(0)); on!(RwLock, RwLockOp::GetMut(0)))
        ),
        "t1 t0 t1",
    ),
];

const ATOMIC: Step = on!(Atomic, AtomicOp::New(Numbers::U64, 0));

const ATOMIC_TAKEN: Step = on!(Atomic, AtomicOp::IntoInner(0));

const EXCHANGE: Exchange = Exchange {
    expected: 0,
    new: 1,
    success: Relaxed,
    failure: Relaxed,
};

static ATOMICS: [(Row, &str); 5] = [
    (
        row!(
            "load",
            late!(ATOMIC; on!(Atomic, AtomicOp::Load(0, Relaxed)); ATOMIC_TAKEN)
        ),
        "t1 t0 t1",
    ),
    (
        row!(
            "store",
            late!(ATOMIC; on!(Atomic, AtomicOp::Store(0, 1, Relaxed)); ATOMIC_TAKEN)
        ),
        "t1 t0 t1",
    ),
    (
        row!(
            "update",
            late!(ATOMIC; on!(Atomic, AtomicOp::Update(0, Add(1), Relaxed)); ATOMIC_TAKEN)
        ),
        "t1 t0 t1",
    ),
    (
        row!(
            "compare_exchange",
            late!(ATOMIC; on!(Atomic, AtomicOp::CompareExchange(0, EXCHANGE)); ATOMIC_TAKEN)
        ),
        "t1 t0 t1",
    ),
    (
        row!(
            "compare_and_swap",
            late!(ATOMIC; on!(Atomic, AtomicOp::CompareAndSwap(0, 0, 1, Relaxed)); ATOMIC_TAKEN)
        ),
        "t1 t0 t1",
    ),
];

const CHANNEL: Step = on!(Channel, ChannelOp::New);

const SEND: Step = on!(Channel, ChannelOp::Send(0, Value::Plain(1)));

const DROP_SENDER: Step = on!(Channel, ChannelOp::DropSender(0));

const DROP_RECEIVER: Step = on!(Channel, ChannelOp::DropReceiver(0));

const TRY_RECV: Step = on!(Channel, ChannelOp::TryRecv(0));

static CHANNELS: [(Row, &str); 4] = [
    (row!("send", late!(CHANNEL; SEND; DROP_SENDER)), "t1 t0 t1"),
    (
        row!(
            "recv",
            late!(CHANNEL, DROP_SENDER; on!(Channel, ChannelOp::Recv(0)); DROP_RECEIVER)
        ),
        "t1 t0 t1",
    ),
    // The receiver that is dropped takes the message.
    (
        row!(
            "try_recv",
            late!(CHANNEL, SEND, DROP_SENDER; TRY_RECV; DROP_RECEIVER)
        ),
        "t0 t1 t0 t0 t1",
    ),
    (
        row!(
            "drop of a receiver",
            late!(CHANNEL, SEND, DROP_SENDER; DROP_RECEIVER; DROP_RECEIVER)
        ),
        "t0 t1 t0 t0 t1",
    ),
];

const ARC: Step = on!(Arc, ArcOp::New(Value::Plain(1)));

const DROP_ARC: Step = on!(Arc, ArcOp::Drop(0));

const TRY_UNWRAP: Step = on!(Arc, ArcOp::TryUnwrap(0));

const GET_MUT: Step = on!(Arc, ArcOp::GetMut(0));

static COUNTS: [(Row, &str); 11] = [
    (
        row!("clone", late!(ARC; on!(Arc, ArcOp::Clone(0)); DROP_ARC)),
        "t1 t0 t0 t1",
    ),
    (row!("drop", late!(ARC; DROP_ARC; DROP_ARC)), "t1 t0 t0 t1"),
    (
        row!("get_mut", late!(ARC; GET_MUT; DROP_ARC)),
        "t1 t0 t0 t1",
    ),
    (
        row!(
            "strong_count",
            late!(ARC; on!(Arc, ArcOp::StrongCount(0)); DROP_ARC)
        ),
        "t1 t0 t0 t1",
    ),
    (
        row!(
            "clone of what is out",
            late!(ARC; on!(Arc, ArcOp::Clone(0)); GET_MUT)
        ),
        "t1 t0 t0 t1",
    ),
    (
        row!("drop of what is out", late!(ARC; DROP_ARC; GET_MUT)),
        "t1 t0 t0 t1",
    ),
    (
        row!("get_mut of what is out", late!(ARC; GET_MUT; GET_MUT)),
        "t1 t0 t0 t1",
    ),
    (
        row!(
            "strong_count of what is out",
            late!(ARC; on!(Arc, ArcOp::StrongCount(0)); GET_MUT)
        ),
        "t1 t0 t0 t1",
    ),
    (
        row!("try_unwrap of what is out", late!(ARC; TRY_UNWRAP; GET_MUT)),
        "t1 t0 t0 t1",
    ),
    (
        row!("try_unwrap", late!(ARC; TRY_UNWRAP; DROP_ARC)),
        "t1 t0 t0 t1",
    ),
    // The thread had the one reference when it asked first.
    (
        row!(
            "try_unwrap in two",
            late!(ARC; TRY_UNWRAP; on!(Arc, ArcOp::Clone(0)))
        ),
        "t1 t1 t0 t0 t1",
    ),
];

const BLOCK_ON: Step = on!(Waker, WakerOp::New);

const WAKE: Step = on!(Waker, WakerOp::Wake(0));

const WAIT: Step = on!(Waker, WakerOp::Wait(0));

const DROP_WAKER: Step = on!(Waker, WakerOp::Drop(0));

const PLACE: Step = Step::Do(2, Request::AtomicWaker(AtomicWakerOp::New));

const REGISTER: Step = on!(AtomicWaker, AtomicWakerOp::Register(2, 0));

static WAKERS: [(Row, &str); 10] = [
    (
        row!("wait", late!(BLOCK_ON; WAIT; WAKE)),
        "t1 s0 t0 t0 t0 t1",
    ),
    (
        row!("wait that ends early", late!(BLOCK_ON; WAIT; DROP_WAKER)),
        "t1 s1 t0 t0 t1",
    ),
    (
        row!(
            "finish",
            late!(BLOCK_ON; on!(Waker, WakerOp::Finish(0)); DROP_WAKER)
        ),
        "t1 t0 t0 t1",
    ),
    (
        row!(
            "clone of a waker",
            late!(BLOCK_ON; on!(Waker, WakerOp::Clone(0)); DROP_WAKER)
        ),
        "t1 t0 t0 t1",
    ),
    (
        row!("drop of a waker", late!(BLOCK_ON; DROP_WAKER; DROP_WAKER)),
        "t1 t0 t0 t1",
    ),
    (
        row!("wake", late!(BLOCK_ON; WAKE; DROP_WAKER)),
        "t1 t0 t0 t1",
    ),
    (
        row!(
            "wake_by_ref",
            late!(BLOCK_ON; on!(Waker, WakerOp::WakeByRef(0)); DROP_WAKER)
        ),
        "t1 t0 t0 t1",
    ),
    (
        row!("register", late!(BLOCK_ON, PLACE; REGISTER; DROP_WAKER)),
        "t1 t0 t0 t1",
    ),
    (
        row!(
            "register_by_ref",
            late!(
                BLOCK_ON, PLACE;
                on!(AtomicWaker, AtomicWakerOp::RegisterByRef(2, 0));
                DROP_WAKER
            )
        ),
        "t1 t0 t0 t1",
    ),
    // The thread has taken the waker out of its place.
    (
        row!(
            "wake by a place",
            late!(BLOCK_ON, PLACE, REGISTER; on!(AtomicWaker, AtomicWakerOp::Wake(2)); DROP_WAKER)
        ),
        "t0 t1 t1 t0 t0 t1",
    ),
];

/// The bodies, each with the choices of a run that fails by misuse.
pub fn tables() -> [&'static [(Row, &'static str)]; 5] {
    [&LOCKS, &ATOMICS, &CHANNELS, &COUNTS, &WAKERS]
}

#[test]
fn what_is_named_is_tested_again(rt: HostRuntime) {
    for table in &tables() {
        each_is_misuse(&rt, *table);
    }
}

// Each body fails by misuse, behind its choices.
fn each_is_misuse(rt: &(impl Abort + AllocGlobal), table: &'static [(Row, &'static str)]) {
    for (row, choices) in table {
        holds(rt, is_misuse(rt, row, *choices), row.name);
    }
}

// Whether the run of the body by these choices fails by misuse, behind all of them.
fn is_misuse(rt: &(impl Abort + AllocGlobal), row: &Row, choices: &str) -> bool {
    let choices = Choices::parse(rt.alloc(), choices).expect(rt, "no choices");
    let choices = choices
        .as_slice()
        .to_vec(rt.alloc())
        .expect(rt, "no memory");
    let ending = Ending::Failed(FailureKind::Misuse);
    match row.checked {
        Checked::Script(steps) => {
            let body = script(rt, steps);
            let run = Found { choices, ending };
            replays(rt.alloc(), &DEFAULTS.builder(), &body, &run)
        }
        Checked::Updater(_, _) => false,
    }
}
