//! Bodies that aren't rows, for what rows leave out: main is the one thread, and mostly spawns the other.
use loom::sync::atomic::Ordering::{AcqRel, Acquire, Relaxed, Release, SeqCst};
use loom_examples::rows::{Checked, DEFAULTS, Row};
use loom_examples::scripts::step::{END, EXIT, Step, Value, YIELD};
use loom_objects::operation::{
    ArcOp, AtomicOp, CellOp, CondvarOp, Exchange, MutexOp, NotifyOp, Request, RwLockOp, ThreadOp,
    TrackOp,
};
use loom_views::rt::num::Numbers;
use loom_views::rt::num::change::Change::Add;

const FINISH: Step = Step::Do(0, Request::Thread(ThreadOp::Finish(Value::Held(0))));

const NEW: Step = Step::Do(0, Request::Atomic(AtomicOp::New(Numbers::U64, 0)));

const NEW_CELL: Step = Step::Do(1, Request::Cell(CellOp::New(Value::Plain(0))));

const GET: Step = Step::Do(0, Request::Cell(CellOp::Get(1)));

const REPLACE: Step = Step::Do(0, Request::Cell(CellOp::Replace(1, Value::Plain(3))));

/// A thread writes a cell and hands it on by fences: main reads it where it loads the flag, behind a fence.
const FENCES_HAND_ON: &[Step] = &[
    NEW,
    NEW_CELL,
    Step::SpawnAt(2, "child"),
    Step::Do(0, Request::Atomic(AtomicOp::Load(0, Relaxed))),
    Step::UnlessTo(0, 1, "finish"),
    Step::Do(0, Request::Fence(Acquire)),
    GET,
    Step::Label("finish"),
    FINISH,
    EXIT,
    END,
    Step::Label("child"),
    REPLACE,
    Step::Do(0, Request::Fence(Release)),
    Step::Do(0, Request::Atomic(AtomicOp::Store(0, 1, Relaxed))),
    Step::JumpTo("finish"),
];

/// A thread writes a cell and releases a number, to which main adds. Main reads the cell where it acquires the sum.
const UPDATES_PASS_ON: &[Step] = &[
    NEW,
    NEW_CELL,
    Step::SpawnAt(2, "child"),
    Step::Do(1, Request::Atomic(AtomicOp::Update(0, Add(1), Relaxed))),
    Step::Do(0, Request::Atomic(AtomicOp::Load(0, Acquire))),
    Step::UnlessTo(0, 2, "finish"),
    GET,
    Step::Label("finish"),
    FINISH,
    EXIT,
    END,
    Step::Label("child"),
    REPLACE,
    Step::Do(0, Request::Atomic(AtomicOp::Store(0, 1, Release))),
    Step::JumpTo("finish"),
];

/// A thread writes a cell and releases a number. Main finds the number by an exchange that fails and acquires, and reads the
/// cell.
const FAILING_ACQUIRES: &[Step] = &[
    NEW,
    NEW_CELL,
    Step::SpawnAt(2, "child"),
    Step::Do(0, Request::Atomic(AtomicOp::CompareExchange(0, FIVE))),
    Step::UnlessTo(3, 1, "finish"),
    GET,
    Step::Label("finish"),
    FINISH,
    EXIT,
    END,
    Step::Label("child"),
    REPLACE,
    Step::Do(0, Request::Atomic(AtomicOp::Store(0, 1, Release))),
    Step::JumpTo("finish"),
];

const FIVE: Exchange = Exchange {
    expected: 5,
    new: 6,
    success: Relaxed,
    failure: Acquire,
};

/// Main yields between two loads, beside two stores.
const YIELD_BETWEEN_LOADS: &[Step] = &[
    NEW,
    Step::SpawnAt(1, "child"),
    Step::Do(1, Request::Atomic(AtomicOp::Load(0, Relaxed))),
    YIELD,
    Step::Do(0, Request::Atomic(AtomicOp::Load(0, Relaxed))),
    Step::Label("finish"),
    FINISH,
    EXIT,
    END,
    Step::Label("child"),
    Step::Do(0, Request::Atomic(AtomicOp::Store(0, 1, Relaxed))),
    Step::Do(0, Request::Atomic(AtomicOp::Store(0, 2, Relaxed))),
    Step::JumpTo("finish"),
];

/// Two threads each store and load, all sequentially consistent.
const SEQ_CST_BUFFERING: &[Step] = &[
    NEW,
    Step::Do(1, Request::Atomic(AtomicOp::New(Numbers::U64, 0))),
    Step::SpawnAt(2, "child"),
    Step::Do(0, Request::Atomic(AtomicOp::Store(1, 1, SeqCst))),
    Step::Do(1, Request::Atomic(AtomicOp::Load(0, SeqCst))),
    Step::Do(0, Request::Thread(ThreadOp::Join(2, 2))),
    Step::Do(0, Request::Thread(ThreadOp::Finish(Value::Both(0, 1)))),
    Step::Label("finish"),
    FINISH,
    EXIT,
    END,
    Step::Label("child"),
    Step::Do(0, Request::Atomic(AtomicOp::Store(0, 1, SeqCst))),
    Step::Do(0, Request::Atomic(AtomicOp::Load(1, SeqCst))),
    Step::JumpTo("finish"),
];

/// Main loads twice beside a thread that stores eight times, so that slots are used again.
const STORES_WRAP: &[Step] = &[
    NEW,
    Step::SpawnAt(1, "child"),
    Step::Do(0, Request::Atomic(AtomicOp::Load(0, Relaxed))),
    Step::Label("finish"),
    FINISH,
    EXIT,
    END,
    Step::Label("child"),
    Step::Do(0, Request::Atomic(AtomicOp::Store(0, 1, Relaxed))),
    Step::Do(0, Request::Atomic(AtomicOp::Store(0, 2, Relaxed))),
    Step::Do(0, Request::Atomic(AtomicOp::Store(0, 3, Relaxed))),
    Step::Do(0, Request::Atomic(AtomicOp::Store(0, 4, Relaxed))),
    Step::Do(0, Request::Atomic(AtomicOp::Store(0, 5, Relaxed))),
    Step::Do(0, Request::Atomic(AtomicOp::Store(0, 6, Relaxed))),
    Step::Do(0, Request::Atomic(AtomicOp::Store(0, 7, Relaxed))),
    Step::Do(0, Request::Atomic(AtomicOp::Store(0, 8, Relaxed))),
    Step::JumpTo("finish"),
];

/// Two threads swap where they find 0. Main joins the other, opens a mutation and ends it, and takes the atomic apart.
const SWAPS_THEN_MUTATION: &[Step] = &[
    NEW,
    Step::SpawnAt(1, "child"),
    Step::Do(
        1,
        Request::Atomic(AtomicOp::CompareAndSwap(0, 0, 1, AcqRel)),
    ),
    Step::Do(1, Request::Thread(ThreadOp::Join(1, 1))),
    Step::Do(1, Request::Atomic(AtomicOp::WithMut(0))),
    Step::Do(0, Request::Atomic(AtomicOp::WithMutEnd(0, 9))),
    Step::Do(0, Request::Atomic(AtomicOp::IntoInner(0))),
    Step::Label("finish"),
    FINISH,
    EXIT,
    END,
    Step::Label("child"),
    Step::Do(
        0,
        Request::Atomic(AtomicOp::CompareAndSwap(0, 0, 2, Relaxed)),
    ),
    Step::JumpTo("finish"),
];

/// Main tries a mutex that the other thread locks, and takes it apart in the end.
const TRIES_LOCK: &[Step] = &[
    Step::Do(0, Request::Mutex(MutexOp::New(Value::Plain(0)))),
    Step::SpawnAt(1, "child"),
    Step::Do(0, Request::Mutex(MutexOp::TryLock(0))),
    Step::UnlessTo(3, 0, "join"),
    Step::Do(0, Request::Mutex(MutexOp::Release(0, Value::Next(0)))),
    Step::Label("join"),
    Step::Do(1, Request::Thread(ThreadOp::Join(1, 1))),
    Step::Do(0, Request::Mutex(MutexOp::GetMut(0))),
    Step::Do(0, Request::Mutex(MutexOp::Put(0, Value::Held(0)))),
    Step::Label("finish"),
    FINISH,
    EXIT,
    END,
    Step::Label("child"),
    Step::Do(0, Request::Mutex(MutexOp::Lock(0))),
    Step::Do(0, Request::Mutex(MutexOp::Release(0, Value::Next(0)))),
    Step::JumpTo("finish"),
];

/// Main reads a lock that the other thread tries to write, and takes the lock apart in the end.
const TRIES_WRITE: &[Step] = &[
    Step::Do(0, Request::RwLock(RwLockOp::New(Value::Plain(0)))),
    Step::SpawnAt(1, "child"),
    Step::Do(0, Request::RwLock(RwLockOp::Read(0))),
    YIELD,
    Step::Do(0, Request::RwLock(RwLockOp::ReadRelease(0))),
    Step::Do(1, Request::Thread(ThreadOp::Join(1, 1))),
    Step::Do(0, Request::RwLock(RwLockOp::IntoInner(0))),
    Step::Label("finish"),
    FINISH,
    EXIT,
    END,
    Step::Label("child"),
    Step::Do(0, Request::RwLock(RwLockOp::TryWrite(0))),
    Step::UnlessTo(3, 0, "finish"),
    Step::Do(
        0,
        Request::RwLock(RwLockOp::WriteRelease(0, Value::Plain(4))),
    ),
    Step::JumpTo("finish"),
];

/// Main writes a lock that the other thread tries to read.
const TRIES_READ: &[Step] = &[
    Step::Do(0, Request::RwLock(RwLockOp::New(Value::Plain(0)))),
    Step::SpawnAt(1, "child"),
    Step::Do(0, Request::RwLock(RwLockOp::Write(0))),
    YIELD,
    Step::Do(
        0,
        Request::RwLock(RwLockOp::WriteRelease(0, Value::Plain(5))),
    ),
    Step::Label("finish"),
    FINISH,
    EXIT,
    END,
    Step::Label("child"),
    Step::Do(0, Request::RwLock(RwLockOp::TryRead(0))),
    Step::UnlessTo(3, 0, "finish"),
    Step::Do(0, Request::RwLock(RwLockOp::ReadRelease(0))),
    Step::JumpTo("finish"),
];

/// Main waits for a notification with a time, by which a thread hands over a cell that it wrote under the mutex.
const WAITS_WITH_TIME: &[Step] = &[
    Step::Do(0, Request::Mutex(MutexOp::New(Value::Plain(0)))),
    NEW_CELL,
    Step::Do(2, Request::Condvar(CondvarOp::New)),
    Step::Do(0, Request::Mutex(MutexOp::Lock(0))),
    Step::SpawnAt(3, "child"),
    Step::Do(
        0,
        Request::Condvar(CondvarOp::WaitTimeout(2, 0, Value::Plain(1))),
    ),
    GET,
    Step::Do(1, Request::Mutex(MutexOp::Release(0, Value::Plain(0)))),
    Step::Label("finish"),
    FINISH,
    EXIT,
    END,
    Step::Label("child"),
    Step::Do(0, Request::Mutex(MutexOp::Lock(0))),
    REPLACE,
    Step::Do(0, Request::Mutex(MutexOp::Release(0, Value::Plain(0)))),
    Step::Do(0, Request::Condvar(CondvarOp::NotifyAll(2))),
    Step::JumpTo("finish"),
];

/// Main waits on a notifier, by which a thread hands over a cell. Where it wakes without a notification it is a race.
const NOTIFIER_HANDS_ON: &[Step] = &[
    Step::Do(0, Request::Notify(NotifyOp::New)),
    NEW_CELL,
    Step::SpawnAt(2, "child"),
    Step::Do(0, Request::Notify(NotifyOp::Wait(0))),
    GET,
    Step::Label("finish"),
    FINISH,
    EXIT,
    END,
    Step::Label("child"),
    REPLACE,
    Step::Do(0, Request::Notify(NotifyOp::Notify(0))),
    Step::JumpTo("finish"),
];

/// Main waits on a notifier beside a thread that notifies it.
const WAKES_EARLY: &[Step] = &[
    Step::Do(0, Request::Notify(NotifyOp::New)),
    Step::SpawnAt(1, "child"),
    Step::Do(0, Request::Notify(NotifyOp::Wait(0))),
    Step::Label("finish"),
    FINISH,
    EXIT,
    END,
    Step::Label("child"),
    Step::Do(0, Request::Notify(NotifyOp::Notify(0))),
    Step::JumpTo("finish"),
];

/// Two threads share a counted reference. Main takes the value apart if it is alone, and else out for a moment, and drops it.
const SHARED_COUNT: &[Step] = &[
    Step::Do(0, Request::Arc(ArcOp::New(Value::Plain(8)))),
    Step::Do(0, Request::Arc(ArcOp::Clone(0))),
    Step::SpawnAt(1, "child"),
    Step::Do(0, Request::Arc(ArcOp::TryUnwrap(0))),
    Step::UnlessTo(3, 1, "finish"),
    Step::Do(1, Request::Arc(ArcOp::GetMut(0))),
    Step::UnlessTo(1, 8, "drop"),
    Step::Do(0, Request::Arc(ArcOp::Put(0, Value::Plain(6)))),
    Step::Label("drop"),
    Step::Do(0, Request::Arc(ArcOp::Drop(0))),
    Step::Label("finish"),
    FINISH,
    EXIT,
    END,
    Step::Label("child"),
    Step::Do(0, Request::Arc(ArcOp::Drop(0))),
    Step::JumpTo("finish"),
];

/// Main looks at a tracked value and takes it out and back, before it gives the value back.
const TRACKED: &[Step] = &[
    Step::Do(0, Request::Track(TrackOp::New(Value::Plain(2)))),
    Step::Do(0, Request::Track(TrackOp::GetRef(0))),
    Step::Do(0, Request::Track(TrackOp::GetMut(0))),
    Step::Do(0, Request::Track(TrackOp::Put(0, Value::Next(0)))),
    Step::Do(0, Request::Track(TrackOp::IntoInner(0))),
    FINISH,
    EXIT,
    END,
];

static ATOMIC_ROWS: [Row; 4] = [
    row!("fences hand on", FENCES_HAND_ON),
    row!("updates pass on", UPDATES_PASS_ON),
    row!("failing acquires", FAILING_ACQUIRES),
    row!("yield between loads", YIELD_BETWEEN_LOADS),
];

static STORE_ROWS: [Row; 3] = [
    row!("seq cst buffering", SEQ_CST_BUFFERING),
    row!("stores wrap", STORES_WRAP),
    row!("swaps then mutation", SWAPS_THEN_MUTATION),
];

static LOCK_ROWS: [Row; 4] = [
    row!("tries lock", TRIES_LOCK),
    row!("tries write", TRIES_WRITE),
    row!("tries read", TRIES_READ),
    row!("waits with time", WAITS_WITH_TIME),
];

static OTHER_ROWS: [Row; 4] = [
    row!("notifier hands on", NOTIFIER_HANDS_ON),
    row!("wakes early", WAKES_EARLY),
    row!("shared count", SHARED_COUNT),
    row!("tracked", TRACKED),
];

/// Bodies with fences and atomics, with their names.
pub fn atomic_rows() -> &'static [Row] {
    &ATOMIC_ROWS
}

/// Bodies with many stores, or that swap.
pub fn store_rows() -> &'static [Row] {
    &STORE_ROWS
}

/// Bodies with locks and condition variables.
pub fn lock_rows() -> &'static [Row] {
    &LOCK_ROWS
}

/// Bodies with notifiers, counts and tracked values.
pub fn other_rows() -> &'static [Row] {
    &OTHER_ROWS
}
