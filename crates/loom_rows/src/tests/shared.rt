//! Bodies that aren't rows, in which threads meet at channels, at wakers and their places, and at values, and bodies that
//! explore in parts.
use loom::sync::atomic::Ordering::Relaxed;
use loom_examples::rows::{Checked, DEFAULTS, Row};
use loom_examples::scripts::step::{END, EXIT, Step, Value, YIELD};
use loom_objects::operation::{
    AtomicOp, AtomicWakerOp, CellOp, ChannelOp, ExploreOp, LazyOp, LocalOp, MutexOp, NotifyOp,
    Request, ThreadOp, WakerOp,
};
use loom_views::rt::num::Numbers;

const CHANNEL: Step = Step::Do(0, Request::Channel(ChannelOp::New));

const SEND: Step = Step::Do(0, Request::Channel(ChannelOp::Send(0, Value::Plain(1))));

const SEND_2: Step = Step::Do(0, Request::Channel(ChannelOp::Send(0, Value::Plain(2))));

const RECV: Step = Step::Do(0, Request::Channel(ChannelOp::Recv(0)));

const TRY_RECV: Step = Step::Do(0, Request::Channel(ChannelOp::TryRecv(0)));

const DROP_SENDER: Step = Step::Do(0, Request::Channel(ChannelOp::DropSender(0)));

const DROP_RECEIVER: Step = Step::Do(0, Request::Channel(ChannelOp::DropReceiver(0)));

const PLACE: Step = Step::Do(0, Request::AtomicWaker(AtomicWakerOp::New));

const BLOCK_ON: Step = Step::Do(1, Request::Waker(WakerOp::New));

const CLONE: Step = Step::Do(0, Request::Waker(WakerOp::Clone(1)));

const REGISTER: Step = Step::Do(0, Request::AtomicWaker(AtomicWakerOp::Register(0, 1)));

const DROP_LEFT: Step = Step::Do(3, Request::AtomicWaker(AtomicWakerOp::Drop(0)));

const WAKER_DROP: Step = Step::Do(0, Request::Waker(WakerOp::Drop(1)));

const LAST_DROP: Step = Step::Do(0, Request::Waker(WakerOp::Drop(3)));

const CELL: Step = Step::Do(4, Request::Cell(CellOp::New(Value::Plain(0))));

const GET: Step = Step::Do(0, Request::Cell(CellOp::Get(4)));

const REPLACE: Step = Step::Do(0, Request::Cell(CellOp::Replace(4, Value::Plain(3))));

const JOIN: Step = Step::Do(1, Request::Thread(ThreadOp::Join(2, 2)));

// The first number that the thread got, and the second one.
const FINISH: Step = Step::Do(0, Request::Thread(ThreadOp::Finish(Value::Both(0, 1))));

// What the thread didn't get.
const FINISH_INSTEAD: Step = Step::Do(0, Request::Thread(ThreadOp::Finish(Value::Held(3))));

const FINISH_PLAIN: Step = Step::Do(0, Request::Thread(ThreadOp::Finish(Value::Plain(7))));

const MUTEX: Step = Step::Do(0, Request::Mutex(MutexOp::New(Value::Plain(0))));

const LOCK: Step = Step::Do(0, Request::Mutex(MutexOp::Lock(0)));

const RELEASE: Step = Step::Do(0, Request::Mutex(MutexOp::Release(0, Value::Plain(0))));

const ATOMIC: Step = Step::Do(0, Request::Atomic(AtomicOp::New(Numbers::U64, 0)));

const STORE: Step = Step::Do(0, Request::Atomic(AtomicOp::Store(0, 1, Relaxed)));

const LOAD: Step = Step::Do(0, Request::Atomic(AtomicOp::Load(0, Relaxed)));

const EXPLORE: Step = Step::Do(0, Request::Explore(ExploreOp::Explore));

const STOP: Step = Step::Do(0, Request::Explore(ExploreOp::StopExploring));

const SKIP: Step = Step::Do(0, Request::Explore(ExploreOp::SkipBranch));

// Main drops the receiver beside a thread that sends twice.
const DROP_BESIDE_SENDS: &[Step] = &[
    CHANNEL,
    Step::SpawnAt(2, "child"),
    YIELD,
    DROP_RECEIVER,
    JOIN,
    FINISH,
    EXIT,
    END,
    Step::Label("child"),
    SEND,
    SEND_2,
    DROP_SENDER,
    FINISH_INSTEAD,
    EXIT,
    END,
];

// A thread takes the one message that main is about to take without waiting. Main, which is the one sender, is blocked then.
const TRY_BESIDE_RECV: &[Step] = &[
    CHANNEL,
    SEND,
    Step::SpawnAt(2, "child"),
    TRY_RECV,
    DROP_SENDER,
    JOIN,
    FINISH,
    EXIT,
    END,
    Step::Label("child"),
    RECV,
    FINISH,
    EXIT,
    END,
];

// Main drops a receiver with two messages, of which a thread takes one. The sender is dropped before.
const DRAIN_BESIDE_RECV: &[Step] = &[
    CHANNEL,
    SEND,
    SEND_2,
    DROP_SENDER,
    Step::SpawnAt(2, "child"),
    YIELD,
    DROP_RECEIVER,
    FINISH,
    EXIT,
    END,
    Step::Label("child"),
    RECV,
    FINISH,
    EXIT,
    END,
];

// A thread writes a cell and sends. Main receives, and reads the cell.
const READ_BEHIND_RECV: &[Step] = &[
    CHANNEL,
    CELL,
    Step::SpawnAt(2, "child"),
    RECV,
    GET,
    FINISH,
    EXIT,
    END,
    Step::Label("child"),
    REPLACE,
    SEND,
    DROP_SENDER,
    FINISH,
    EXIT,
    END,
];

// The one before, but the thread has sent another message before, which doesn't tell of the write.
const READ_TOO_EARLY: &[Step] = &[
    CHANNEL,
    CELL,
    Step::SpawnAt(2, "child"),
    RECV,
    GET,
    RECV,
    FINISH,
    EXIT,
    END,
    Step::Label("child"),
    SEND,
    REPLACE,
    SEND_2,
    FINISH,
    EXIT,
    END,
];

// Main waits for a message beside a thread that drops the last of two senders.
const RECV_BESIDE_DROPS: &[Step] = &[
    CHANNEL,
    Step::SpawnAt(2, "child"),
    RECV,
    JOIN,
    FINISH_INSTEAD,
    EXIT,
    END,
    Step::Label("child"),
    Step::Do(0, Request::Channel(ChannelOp::CloneSender(0))),
    DROP_SENDER,
    YIELD,
    DROP_SENDER,
    FINISH,
    EXIT,
    END,
];

// Two threads register wakers in a place that has one. What is left there is dropped.
const REGISTER_TWICE: &[Step] = &[
    PLACE,
    BLOCK_ON,
    CLONE,
    CLONE,
    REGISTER,
    Step::SpawnAt(2, "child"),
    Step::Do(0, Request::AtomicWaker(AtomicWakerOp::RegisterByRef(0, 1))),
    JOIN,
    DROP_LEFT,
    LAST_DROP,
    FINISH_PLAIN,
    EXIT,
    END,
    Step::Label("child"),
    REGISTER,
    WAKER_DROP,
    FINISH,
    EXIT,
    END,
];

// Main registers a waker in a place, from which a thread wakes, and takes out what is left.
const WAKE_BESIDE_REGISTER: &[Step] = &[
    PLACE,
    BLOCK_ON,
    CLONE,
    Step::SpawnAt(2, "child"),
    REGISTER,
    JOIN,
    Step::Do(3, Request::AtomicWaker(AtomicWakerOp::TakeWaker(0))),
    Step::UnlessTo(3, 0, "waker drop"),
    LAST_DROP,
    Step::Label("waker drop"),
    WAKER_DROP,
    FINISH_INSTEAD,
    Step::JumpTo("exit"),
    Step::Label("child"),
    Step::Do(0, Request::AtomicWaker(AtomicWakerOp::Wake(0))),
    FINISH,
    Step::Label("exit"),
    EXIT,
    END,
];

// Main waits beside a thread that wakes by a lent waker, and then drops its own.
const WAIT_BESIDE_WAKE: &[Step] = &[
    PLACE,
    BLOCK_ON,
    CLONE,
    Step::SpawnAt(2, "child"),
    Step::Do(0, Request::Waker(WakerOp::Wait(1))),
    Step::Do(0, Request::Waker(WakerOp::Finish(1))),
    FINISH,
    Step::JumpTo("exit"),
    Step::Label("child"),
    Step::Do(0, Request::Waker(WakerOp::WakeByRef(1))),
    WAKER_DROP,
    FINISH,
    Step::Label("exit"),
    EXIT,
    END,
];

// A thread writes a cell and drops a waker. Main drops the other one, and reads the cell, which is a race unless that was the
// last.
const READ_BEHIND_DROPS: &[Step] = &[
    BLOCK_ON,
    CLONE,
    CELL,
    Step::SpawnAt(2, "child"),
    YIELD,
    WAKER_DROP,
    GET,
    FINISH,
    EXIT,
    END,
    Step::Label("child"),
    REPLACE,
    WAKER_DROP,
    FINISH,
    EXIT,
    END,
];

// Two threads make a value that is made once. Main reads what the other thread has written before, if that made it.
const LAZY_BESIDE: &[Step] = &[
    MUTEX,
    CELL,
    Step::SpawnAt(2, "child"),
    LOCK,
    RELEASE,
    Step::Do(0, Request::Lazy(LazyOp::Init(1, Value::Plain(5)))),
    Step::UnlessTo(0, 65, "join"),
    GET,
    Step::Label("join"),
    JOIN,
    FINISH,
    EXIT,
    END,
    Step::Label("child"),
    LOCK,
    RELEASE,
    REPLACE,
    Step::Do(0, Request::Lazy(LazyOp::Get(1))),
    Step::Do(0, Request::Lazy(LazyOp::Init(1, Value::Plain(6)))),
    FINISH,
    EXIT,
    END,
];

// Two threads have values of their own, by the same key.
const LOCALS_BESIDE: &[Step] = &[
    Step::Do(0, Request::Local(LocalOp::Init(1, Value::Plain(4)))),
    Step::SpawnAt(2, "child"),
    JOIN,
    Step::Do(0, Request::Local(LocalOp::With(1))),
    FINISH,
    Step::Do(1, Request::Thread(ThreadOp::Exit)),
    END,
    Step::Label("child"),
    Step::Do(0, Request::Local(LocalOp::TryWith(1))),
    Step::Do(0, Request::Local(LocalOp::Init(1, Value::Plain(6)))),
    Step::Do(1, Request::Local(LocalOp::Put(1, Value::Plain(8)))),
    FINISH,
    EXIT,
    Step::Do(0, Request::Local(LocalOp::Init(2, Value::Plain(9)))),
    Step::Do(0, Request::Local(LocalOp::TryWith(1))),
    END,
];

// Main locks three times beside a thread that locks, and doesn't explore at the second time.
const STOP_BETWEEN: &[Step] = &[
    MUTEX,
    Step::SpawnAt(2, "child"),
    LOCK,
    RELEASE,
    STOP,
    LOCK,
    RELEASE,
    EXPLORE,
    LOCK,
    RELEASE,
    Step::Label("finish"),
    FINISH,
    EXIT,
    END,
    Step::Label("child"),
    LOCK,
    RELEASE,
    Step::JumpTo("finish"),
];

// Main loads beside a thread that stores and then skips the branch, after which no switch changes anything.
const SKIP_BESIDE: &[Step] = &[
    ATOMIC,
    Step::SpawnAt(2, "child"),
    LOAD,
    LOAD,
    Step::Label("finish"),
    FINISH,
    EXIT,
    END,
    Step::Label("child"),
    STORE,
    SKIP,
    EXPLORE,
    STORE,
    Step::JumpTo("finish"),
];

// Main waits for a notification without exploring, beside a thread that notifies, and then waits again.
const WAIT_WITHOUT: &[Step] = &[
    Step::Do(0, Request::Notify(NotifyOp::New)),
    Step::SpawnAt(2, "child"),
    STOP,
    WAIT,
    EXPLORE,
    NOTIFY,
    WAIT,
    Step::Label("finish"),
    FINISH,
    EXIT,
    END,
    Step::Label("child"),
    NOTIFY,
    Step::JumpTo("finish"),
];

const WAIT: Step = Step::Do(0, Request::Notify(NotifyOp::Wait(0)));

const NOTIFY: Step = Step::Do(0, Request::Notify(NotifyOp::Notify(0)));

static CHANNEL_ROWS: [Row; 6] = [
    row!("drop beside sends", DROP_BESIDE_SENDS),
    row!("try beside receive", TRY_BESIDE_RECV),
    row!("drain beside receive", DRAIN_BESIDE_RECV),
    row!("read behind receive", READ_BEHIND_RECV),
    row!("read too early", READ_TOO_EARLY),
    row!("receive beside drops", RECV_BESIDE_DROPS),
];

static WAKER_ROWS: [Row; 4] = [
    row!("register twice", REGISTER_TWICE),
    row!("wake beside register", WAKE_BESIDE_REGISTER),
    row!("wait beside wake", WAIT_BESIDE_WAKE),
    row!("read behind drops", READ_BEHIND_DROPS),
];

static VALUE_ROWS: [Row; 5] = [
    row!("lazy beside", LAZY_BESIDE),
    row!("locals beside", LOCALS_BESIDE),
    row!("stop between", STOP_BETWEEN),
    row!("skip beside", SKIP_BESIDE),
    row!("wait without", WAIT_WITHOUT),
];

/// Bodies with channels, with their names.
pub fn channel_rows() -> &'static [Row] {
    &CHANNEL_ROWS
}

/// Bodies with wakers and counts.
pub fn waker_rows() -> &'static [Row] {
    &WAKER_ROWS
}

/// Bodies with values of their own, and with the switches of the search.
pub fn value_rows() -> &'static [Row] {
    &VALUE_ROWS
}
