//! Scripts that between them make every operation: with memory enough none fails for want of it.
use super::finding::{Case, Shows};
use loom::sync::atomic::Ordering::{AcqRel, Release, SeqCst};
use loom::text_literal;
use loom_examples::rows::{Checked, DEFAULTS, Row};
use loom_examples::scripts::step::{END, EXIT, PARK, Step, Value, YIELD};
use loom_objects::operation::{
    ArcOp, AtomicOp, AtomicWakerOp, CellOp, ChannelOp, CondvarOp, Exchange, ExploreOp, LazyOp,
    LocalOp, MutexOp, Name, NotifyOp, Request, RwLockOp, ThreadOp, TrackOp, WakerOp,
};
use loom_views::rt::num::Numbers;
use loom_views::rt::num::change::Change::{Add, And, Max, Min, Nand, Or, Sub, Swap, Xor};

const FINISH: Step = Step::Do(0, Request::Thread(ThreadOp::Finish(Value::Plain(7))));

const CHILD: Option<Name> = Some(Name {
    text: text_literal!(b"child"),
});

const FIVE: Value = Value::Plain(5);

const SAME: Exchange = Exchange {
    expected: 1,
    new: 2,
    success: SeqCst,
    failure: SeqCst,
};

macro_rules! atomic {
    ($op:expr) => {
        Step::Do(0, Request::Atomic($op))
    };
}

macro_rules! update {
    ($change:expr) => {
        atomic!(AtomicOp::Update(0, $change, AcqRel))
    };
}

const ATOMICS: &[Step] = &[
    Step::Do(0, Request::Atomic(AtomicOp::New(Numbers::U8, 1))),
    Step::Do(0, Request::Fence(SeqCst)),
    Step::Do(0, Request::Atomic(AtomicOp::Load(0, SeqCst))),
    Step::Do(0, Request::Atomic(AtomicOp::Store(0, 1, Release))),
    Step::Do(0, Request::Atomic(AtomicOp::CompareExchange(0, SAME))),
    Step::Do(
        0,
        Request::Atomic(AtomicOp::CompareAndSwap(0, 2, 1, AcqRel)),
    ),
    update!(Swap(1)),
    update!(Add(1)),
    update!(Sub(1)),
    update!(And(1)),
    update!(Nand(1)),
    update!(Or(1)),
    update!(Xor(1)),
    update!(Max(1)),
    update!(Min(1)),
    atomic!(AtomicOp::WithMut(0)),
    atomic!(AtomicOp::WithMutEnd(0, 1)),
    atomic!(AtomicOp::UnsyncLoad(0)),
    atomic!(AtomicOp::IntoInner(0)),
    FINISH,
    EXIT,
    END,
];

const CELLS: &[Step] = &[
    Step::Do(0, Request::Cell(CellOp::New(FIVE))),
    Step::Do(1, Request::Cell(CellOp::New(FIVE))),
    Step::Do(0, Request::Cell(CellOp::Read(0))),
    Step::Do(0, Request::Cell(CellOp::Deref(0))),
    Step::Do(0, Request::Cell(CellOp::ReadEnd(0))),
    Step::Do(0, Request::Cell(CellOp::Write(0))),
    Step::Do(0, Request::Cell(CellOp::WriteEnd(0, FIVE))),
    Step::Do(0, Request::Cell(CellOp::Get(0))),
    Step::Do(0, Request::Cell(CellOp::Replace(0, FIVE))),
    Step::Do(0, Request::Cell(CellOp::Swap(0, 1))),
    Step::Do(0, Request::Cell(CellOp::IntoInner(0))),
    FINISH,
    EXIT,
    END,
];

const COUNTS: &[Step] = &[
    Step::Do(0, Request::Arc(ArcOp::New(FIVE))),
    Step::Do(0, Request::Arc(ArcOp::Clone(0))),
    Step::Do(0, Request::Arc(ArcOp::StrongCount(0))),
    Step::Do(0, Request::Arc(ArcOp::Drop(0))),
    Step::Do(0, Request::Arc(ArcOp::Get(0))),
    Step::Do(0, Request::Arc(ArcOp::GetMut(0))),
    Step::Do(0, Request::Arc(ArcOp::Put(0, FIVE))),
    Step::Do(0, Request::Arc(ArcOp::TryUnwrap(0))),
    Step::Do(1, Request::Track(TrackOp::New(FIVE))),
    Step::Do(0, Request::Track(TrackOp::GetRef(1))),
    Step::Do(0, Request::Track(TrackOp::GetMut(1))),
    Step::Do(0, Request::Track(TrackOp::Put(1, FIVE))),
    Step::Do(0, Request::Track(TrackOp::IntoInner(1))),
    Step::Do(1, Request::Track(TrackOp::New(FIVE))),
    Step::Do(0, Request::Track(TrackOp::Drop(1))),
    FINISH,
    EXIT,
    END,
];

const LOCKS: &[Step] = &[
    Step::Do(0, Request::Mutex(MutexOp::New(FIVE))),
    Step::Do(0, Request::Mutex(MutexOp::Lock(0))),
    Step::Do(0, Request::Mutex(MutexOp::TryLock(0))),
    Step::Do(0, Request::Mutex(MutexOp::Release(0, FIVE))),
    Step::Do(0, Request::Mutex(MutexOp::GetMut(0))),
    Step::Do(0, Request::Mutex(MutexOp::Put(0, FIVE))),
    Step::Do(0, Request::Mutex(MutexOp::IntoInner(0))),
    Step::Do(1, Request::RwLock(RwLockOp::New(FIVE))),
    Step::Do(0, Request::RwLock(RwLockOp::Read(1))),
    Step::Do(0, Request::RwLock(RwLockOp::TryRead(1))),
    Step::Do(0, Request::RwLock(RwLockOp::ReadRelease(1))),
    Step::Do(0, Request::RwLock(RwLockOp::ReadRelease(1))),
    Step::Do(0, Request::RwLock(RwLockOp::Write(1))),
    Step::Do(0, Request::RwLock(RwLockOp::TryWrite(1))),
    Step::Do(0, Request::RwLock(RwLockOp::WriteRelease(1, FIVE))),
    Step::Do(0, Request::RwLock(RwLockOp::GetMut(1))),
    Step::Do(0, Request::RwLock(RwLockOp::Put(1, FIVE))),
    Step::Do(0, Request::RwLock(RwLockOp::IntoInner(1))),
    FINISH,
    EXIT,
    END,
];

const WAITS: &[Step] = &[
    Step::Do(0, Request::Mutex(MutexOp::New(FIVE))),
    Step::Do(1, Request::Condvar(CondvarOp::New)),
    Step::Do(0, Request::Mutex(MutexOp::Lock(0))),
    Step::SpawnAt(2, "first"),
    Step::Do(0, Request::Condvar(CondvarOp::Wait(1, 0, FIVE))),
    Step::SpawnAt(3, "second"),
    Step::Do(0, Request::Condvar(CondvarOp::WaitTimeout(1, 0, FIVE))),
    Step::Do(0, Request::Mutex(MutexOp::Release(0, FIVE))),
    Step::Do(4, Request::Notify(NotifyOp::New)),
    Step::Do(0, Request::Notify(NotifyOp::Notify(4))),
    Step::Do(0, Request::Notify(NotifyOp::Wait(4))),
    Step::Label("finish"),
    FINISH,
    EXIT,
    END,
    Step::Label("first"),
    Step::Do(0, Request::Mutex(MutexOp::Lock(0))),
    Step::Do(0, Request::Mutex(MutexOp::Release(0, FIVE))),
    Step::Do(0, Request::Condvar(CondvarOp::NotifyOne(1))),
    Step::JumpTo("finish"),
    Step::Label("second"),
    Step::Do(0, Request::Mutex(MutexOp::Lock(0))),
    Step::Do(0, Request::Mutex(MutexOp::Release(0, FIVE))),
    Step::Do(0, Request::Condvar(CondvarOp::NotifyAll(1))),
    Step::JumpTo("finish"),
];

const CHANNELS: &[Step] = &[
    Step::Do(0, Request::Channel(ChannelOp::New)),
    Step::Do(0, Request::Channel(ChannelOp::CloneSender(0))),
    Step::Do(0, Request::Channel(ChannelOp::Send(0, FIVE))),
    Step::Do(0, Request::Channel(ChannelOp::Send(0, FIVE))),
    Step::Do(0, Request::Channel(ChannelOp::Recv(0))),
    Step::Do(0, Request::Channel(ChannelOp::TryRecv(0))),
    Step::Do(0, Request::Channel(ChannelOp::DropSender(0))),
    Step::Do(0, Request::Channel(ChannelOp::DropSender(0))),
    Step::Do(0, Request::Channel(ChannelOp::DropReceiver(0))),
    FINISH,
    EXIT,
    END,
];

const WAKERS: &[Step] = &[
    Step::Do(0, Request::AtomicWaker(AtomicWakerOp::New)),
    Step::Do(1, Request::Waker(WakerOp::New)),
    Step::Do(0, Request::Waker(WakerOp::Clone(1))),
    Step::Do(0, Request::AtomicWaker(AtomicWakerOp::Register(0, 1))),
    Step::Do(0, Request::AtomicWaker(AtomicWakerOp::RegisterByRef(0, 1))),
    Step::Do(2, Request::AtomicWaker(AtomicWakerOp::TakeWaker(0))),
    Step::Do(0, Request::Waker(WakerOp::Drop(2))),
    Step::Do(0, Request::AtomicWaker(AtomicWakerOp::RegisterByRef(0, 1))),
    Step::Do(0, Request::AtomicWaker(AtomicWakerOp::Wake(0))),
    Step::Do(0, Request::Waker(WakerOp::WakeByRef(1))),
    Step::Do(0, Request::Waker(WakerOp::Clone(1))),
    Step::Do(0, Request::Waker(WakerOp::Wake(1))),
    Step::Do(0, Request::Waker(WakerOp::Wait(1))),
    Step::Do(2, Request::AtomicWaker(AtomicWakerOp::Drop(0))),
    Step::Do(0, Request::Waker(WakerOp::Finish(1))),
    FINISH,
    EXIT,
    END,
];

const VALUES: &[Step] = &[
    Step::Do(0, Request::Local(LocalOp::Init(1, FIVE))),
    Step::Do(0, Request::Local(LocalOp::With(1))),
    Step::Do(0, Request::Local(LocalOp::TryWith(1))),
    Step::Do(0, Request::Local(LocalOp::Put(1, FIVE))),
    Step::Do(0, Request::Lazy(LazyOp::Get(1))),
    Step::Do(0, Request::Lazy(LazyOp::Init(1, FIVE))),
    Step::Do(0, Request::Explore(ExploreOp::StopExploring)),
    Step::Do(0, Request::Explore(ExploreOp::Explore)),
    Step::Do(0, Request::Explore(ExploreOp::SkipBranch)),
    FINISH,
    EXIT,
    END,
];

const THREADS: &[Step] = &[
    Step::Do(0, Request::Thread(ThreadOp::Current)),
    Step::Do(0, Request::Thread(ThreadOp::Unpark(0))),
    PARK,
    Step::Do(1, Request::Thread(ThreadOp::Spawn(6, CHILD))),
    Step::Do(0, Request::Thread(ThreadOp::Join(1, 1))),
    YIELD,
    FINISH,
    EXIT,
    END,
];

static OBJECT_ROWS: [Row; 4] = [
    row!("atomics", ATOMICS),
    row!("cells", CELLS),
    row!("counts", COUNTS),
    row!("locks", LOCKS),
];

static OTHER_ROWS: [Row; 5] = [
    row!("waits", WAITS),
    row!("channels", CHANNELS),
    row!("wakers", WAKERS),
    row!("values", VALUES),
    row!("threads", THREADS),
];

/// The scripts of atomics, cells, counts and locks, with their names.
pub fn object_rows() -> &'static [Row] {
    &OBJECT_ROWS
}

/// The other scripts.
pub fn other_rows() -> &'static [Row] {
    &OTHER_ROWS
}

/// The rows of these.
pub static CASES: [Case; 11] = [
    results!("atomics", DEFAULTS, "complete; 7"),
    results!("cells", DEFAULTS, "complete; 7"),
    results!("counts", DEFAULTS, "complete; 7"),
    results!("locks", DEFAULTS, "complete; 7"),
    results!("waits", DEFAULTS, "complete; 7"),
    results!("channels", DEFAULTS, "complete; 7"),
    results!("wakers", DEFAULTS, "complete; 7"),
    results!("values", DEFAULTS, "complete; 7"),
    results!("threads", DEFAULTS, "complete; 7"),
    case!("fail_at_once", DEFAULTS, 0, "failed 1 0"),
    case!("unreachable", DEFAULTS, 0, "failed 15 0"),
];
