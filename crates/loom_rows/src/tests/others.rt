//! Bodies of other tests that aren't rows: runs as large as they may be, and misuse.
use loom::sync::atomic::Ordering::Relaxed;
use loom_examples::rows::tables::limits::MOST_STORES;
use loom_examples::rows::{Checked, DEFAULTS, Row};
use loom_examples::scripts::step::{END, EXIT, FAIL, Step, Value};
use loom_objects::operation::{
    ArcOp, AtomicOp, CellOp, ChannelOp, LazyOp, LocalOp, MutexOp, NotifyOp, Request, RwLockOp,
    ThreadOp, TrackOp,
};
use loom_views::rt::num::Numbers;
use loom_views::rt::num::change::Change::Add;

const FINISH: Step = Step::Do(0, Request::Thread(ThreadOp::Finish(Value::Plain(7))));

// Main and three threads each spawn the next thread. The first three of these join it, so the last thread runs beside the
// ends of the others alone.
const FIVE_THREADS: &[Step] = &[
    Step::SpawnAt(0, "first"),
    Step::Do(0, Request::Thread(ThreadOp::Join(0, 0))),
    FINISH,
    EXIT,
    END,
    Step::Label("first"),
    Step::SpawnAt(0, "second"),
    Step::Do(0, Request::Thread(ThreadOp::Join(0, 0))),
    FINISH,
    EXIT,
    END,
    Step::Label("second"),
    Step::SpawnAt(0, "third"),
    Step::Do(0, Request::Thread(ThreadOp::Join(0, 0))),
    FINISH,
    EXIT,
    END,
    Step::Label("third"),
    Step::SpawnAt(0, "fourth"),
    FINISH,
    EXIT,
    END,
    Step::Label("fourth"),
    FINISH,
    EXIT,
    END,
];

// Main takes three guards for reading of a lock, and ends them.
const READ_THREE_TIMES: &[Step] = &[
    Step::Do(0, Request::RwLock(RwLockOp::New(Value::Plain(1)))),
    Step::Do(0, Request::RwLock(RwLockOp::Read(0))),
    Step::Do(0, Request::RwLock(RwLockOp::Read(0))),
    Step::Do(1, Request::RwLock(RwLockOp::Read(0))),
    Step::Do(0, Request::RwLock(RwLockOp::ReadRelease(0))),
    Step::Do(0, Request::RwLock(RwLockOp::ReadRelease(0))),
    Step::Do(0, Request::RwLock(RwLockOp::ReadRelease(0))),
    Step::Do(0, Request::Thread(ThreadOp::Finish(Value::Held(1)))),
    EXIT,
    END,
];

/// Main adds 1 to a number 498 times, which is 996 nodes. Then it notifies its own notifier and waits on it, which is three
/// nodes, and the last node is that it has ended.
pub const THOUSAND_NODES: &[Step] = &[
    Step::Do(0, Request::Atomic(AtomicOp::New(Numbers::U64, 0))),
    Step::Do(1, Request::Notify(NotifyOp::New)),
    Step::Label("again"),
    Step::Do(0, Request::Atomic(AtomicOp::Update(0, Add(1), Relaxed))),
    Step::UnlessTo(0, 497, "again"),
    Step::Do(1, Request::Notify(NotifyOp::Notify(1))),
    Step::Do(1, Request::Notify(NotifyOp::Wait(1))),
    Step::Do(0, Request::Thread(ThreadOp::Finish(Value::Held(0)))),
    EXIT,
    END,
];

// Main adds 1 to a number 499 times, which is 998 nodes. The last node that a run may have is then a load.
const LOAD_LAST: &[Step] = &[
    Step::Do(0, Request::Atomic(AtomicOp::New(Numbers::U64, 0))),
    Step::Label("again"),
    Step::Do(0, Request::Atomic(AtomicOp::Update(0, Add(1), Relaxed))),
    Step::UnlessTo(0, 498, "again"),
    Step::Do(0, Request::Atomic(AtomicOp::Load(0, Relaxed))),
    FINISH,
    EXIT,
    END,
];

// Main adds 1 as often, and notifies its own notifier. The last node that a run may have is then whether its wait wakes early.
const WAKE_LAST: &[Step] = &[
    Step::Do(0, Request::Atomic(AtomicOp::New(Numbers::U64, 0))),
    Step::Do(1, Request::Notify(NotifyOp::New)),
    Step::Label("again"),
    Step::Do(0, Request::Atomic(AtomicOp::Update(0, Add(1), Relaxed))),
    Step::UnlessTo(0, 498, "again"),
    Step::Do(1, Request::Notify(NotifyOp::Notify(1))),
    Step::Do(1, Request::Notify(NotifyOp::Wait(1))),
    FINISH,
    EXIT,
    END,
];

// The last of five threads makes what a thread can make, reads it, and lets it go. Main joins it, and finishes with its result.
const FIFTH_THREAD: &[Step] = &[
    Step::SpawnAt(0, "finish"),
    Step::SpawnAt(0, "finish"),
    Step::SpawnAt(0, "finish"),
    Step::SpawnAt(0, "fifth"),
    Step::Do(0, Request::Thread(ThreadOp::Join(0, 0))),
    Step::Do(0, Request::Thread(ThreadOp::Finish(Value::Held(0)))),
    EXIT,
    END,
    Step::Label("fifth"),
    Step::Do(0, Request::Mutex(MutexOp::New(FIVE))),
    Step::Do(0, Request::Mutex(MutexOp::Lock(0))),
    Step::Do(0, Request::Mutex(MutexOp::Release(0, FIVE))),
    Step::Do(0, Request::RwLock(RwLockOp::New(FIVE))),
    Step::Do(0, Request::RwLock(RwLockOp::Read(0))),
    Step::Do(0, Request::RwLock(RwLockOp::TryRead(0))),
    Step::Do(0, Request::RwLock(RwLockOp::ReadRelease(0))),
    Step::Do(0, Request::RwLock(RwLockOp::ReadRelease(0))),
    Step::Do(0, Request::Cell(CellOp::New(FIVE))),
    Step::Do(0, Request::Cell(CellOp::Read(0))),
    Step::Do(0, Request::Cell(CellOp::Deref(0))),
    Step::Do(0, Request::Cell(CellOp::ReadEnd(0))),
    Step::Do(0, Request::Cell(CellOp::Get(0))),
    Step::Do(0, Request::Arc(ArcOp::New(FIVE))),
    Step::Do(0, Request::Arc(ArcOp::Get(0))),
    Step::Do(0, Request::Arc(ArcOp::Drop(0))),
    Step::Do(0, Request::Track(TrackOp::New(FIVE))),
    Step::Do(0, Request::Track(TrackOp::GetRef(0))),
    Step::Do(0, Request::Track(TrackOp::Drop(0))),
    Step::Do(0, Request::Channel(ChannelOp::New)),
    Step::Do(0, Request::Channel(ChannelOp::Send(0, FIVE))),
    Step::Do(0, Request::Channel(ChannelOp::DropReceiver(0))),
    Step::Do(0, Request::Atomic(AtomicOp::New(Numbers::U64, 5))),
    Step::Do(0, Request::Atomic(AtomicOp::Update(0, Add(1), Relaxed))),
    Step::Do(0, Request::Local(LocalOp::Init(1, FIVE))),
    Step::Do(0, Request::Local(LocalOp::With(1))),
    Step::Do(0, Request::Lazy(LazyOp::Init(1, FIVE))),
    Step::Do(0, Request::Lazy(LazyOp::Get(1))),
    Step::Do(0, Request::Lazy(LazyOp::Init(1, FIVE))),
    Step::Label("finish"),
    FINISH,
    EXIT,
    END,
];

const FIVE: Value = Value::Plain(5);

// Main spawns five threads, which is one too many.
const FIVE_SPAWNS: &[Step] = &[
    Step::Do(0, Request::Thread(ThreadOp::Spawn(5, None))),
    Step::Do(0, Request::Thread(ThreadOp::Spawn(5, None))),
    Step::Do(0, Request::Thread(ThreadOp::Spawn(5, None))),
    Step::Do(0, Request::Thread(ThreadOp::Spawn(5, None))),
    Step::Do(0, Request::Thread(ThreadOp::Spawn(5, None))),
];

// Main joins a thread twice.
const JOIN_TWICE: &[Step] = &[
    Step::SpawnAt(0, "child"),
    Step::Do(0, Request::Thread(ThreadOp::Join(0, 0))),
    Step::Do(0, Request::Thread(ThreadOp::Join(0, 0))),
    Step::Do(0, Request::Thread(ThreadOp::Finish(Value::Plain(7)))),
    EXIT,
    END,
    Step::Label("child"),
    Step::Do(0, Request::Thread(ThreadOp::Finish(Value::Plain(3)))),
    EXIT,
    END,
];

// Main exchanges the data of two cells, the second of which a thread writes.
const SWAP_BESIDE_A_WRITE: &[Step] = &[
    Step::Do(0, Request::Cell(CellOp::New(Value::Plain(1)))),
    Step::Do(1, Request::Cell(CellOp::New(Value::Plain(2)))),
    Step::SpawnAt(2, "child"),
    Step::Do(0, Request::Cell(CellOp::Swap(0, 1))),
    Step::Do(0, Request::Thread(ThreadOp::Join(2, 2))),
    Step::Do(0, Request::Thread(ThreadOp::Finish(Value::Plain(0)))),
    EXIT,
    END,
    Step::Label("child"),
    Step::Do(0, Request::Cell(CellOp::Replace(1, Value::Plain(5)))),
    Step::Do(0, Request::Thread(ThreadOp::Finish(Value::Plain(0)))),
    EXIT,
    END,
];

// Main exchanges the data of a cell and itself, which a thread writes, and finishes with what the cell holds then.
const SWAP_WITH_ITSELF: &[Step] = &[
    Step::Do(0, Request::Cell(CellOp::New(Value::Plain(7)))),
    Step::SpawnAt(1, "child"),
    Step::Do(0, Request::Cell(CellOp::Swap(0, 0))),
    Step::Do(0, Request::Thread(ThreadOp::Join(1, 1))),
    Step::Do(1, Request::Cell(CellOp::Get(0))),
    Step::Do(0, Request::Thread(ThreadOp::Finish(Value::Held(1)))),
    EXIT,
    END,
    Step::Label("child"),
    Step::Do(0, Request::Cell(CellOp::Replace(0, Value::Plain(8)))),
    Step::Do(0, Request::Thread(ThreadOp::Finish(Value::Plain(0)))),
    EXIT,
    END,
];

// Main and a thread each ask for the one message of a channel that has no sender any more. Main finishes with 1 where it has
// none, and else with 3.
const ONE_MESSAGE_FOR_TWO: &[Step] = &[
    Step::Do(0, Request::Channel(ChannelOp::New)),
    Step::Do(0, Request::Channel(ChannelOp::Send(0, Value::Plain(5)))),
    Step::Do(1, Request::Channel(ChannelOp::DropSender(0))),
    Step::SpawnAt(1, "child"),
    Step::Do(0, Request::Channel(ChannelOp::TryRecv(0))),
    Step::UnlessTo(3, 2, "finish"),
    Step::Do(0, Request::Thread(ThreadOp::Finish(Value::Plain(1)))),
    Step::Label("exit"),
    EXIT,
    END,
    Step::Label("child"),
    Step::Do(0, Request::Channel(ChannelOp::TryRecv(0))),
    Step::Do(0, Request::Thread(ThreadOp::Finish(Value::Plain(0)))),
    Step::JumpTo("exit"),
    Step::Label("finish"),
    Step::Do(0, Request::Thread(ThreadOp::Finish(Value::Plain(3)))),
    Step::JumpTo("exit"),
];

const FAIL_AFTER_A_LOCK: &[Step] = &[
    Step::Do(0, Request::Mutex(MutexOp::New(Value::Plain(0)))),
    Step::Do(0, Request::Mutex(MutexOp::Lock(0))),
    FAIL,
];

static ROWS: [Row; 6] = [
    row!("five threads", FIVE_THREADS),
    row!("three guards", READ_THREE_TIMES),
    row!("five spawns", FIVE_SPAWNS),
    row!("joined twice", JOIN_TWICE),
    row!("swap beside a write", SWAP_BESIDE_A_WRITE),
    row!("swap with itself", SWAP_WITH_ITSELF),
];

/// The bodies with their names.
pub fn rows() -> &'static [Row] {
    &ROWS
}

static LARGE_ROWS: [Row; 7] = [
    row!("a thousand nodes", THOUSAND_NODES),
    row!("a load last", LOAD_LAST),
    row!("a wait last", WAKE_LAST),
    row!("fifth thread", FIFTH_THREAD),
    row!("one message for two", ONE_MESSAGE_FOR_TWO),
    row!("fail after a lock", FAIL_AFTER_A_LOCK),
    row!("most stores", MOST_STORES),
];

/// Those that are not compared with the plain program.
pub fn large_rows() -> &'static [Row] {
    &LARGE_ROWS
}
