//! Operations over slots, as a thread hands them over: by the numbers that its slots keep, and by what values stand for.
ghost use Rattle.std.specs.Prelude.{◌≡◌, IfOk, Ok};
ghost use Rattle.loom_examples.specs.Scripts.Operations.{atomic_op, cell_op, arc_op, track_op, mutex_op, rwlock_op, condvar_op, notify_op, channel_op, waker_op, place_op, local_op, lazy_op};
ghost use Rattle.loom_objects.specs.declared.operation.Request.TheVariants.{Thread};
ghost use Rattle.loom_examples.specs.Scripts.Script.{request};

use crate::scripts::script::Script;
use crate::scripts::state::State;
use crate::scripts::step::Value;
use loom_objects::operation::{
    ArcOp, AtomicOp, AtomicWakerOp, CellOp, ChannelOp, CondvarOp, LazyOp, LocalOp, MutexOp,
    NotifyOp, Request, RwLockOp, ThreadOp, TrackOp, WakerOp,
};
use std::alloc::AllocError;

// Answers the operation that is made of the object in the slot and of the rest, if there is an object.
macro_rules! on {
    ($state:expr, $slot:expr, $kind:ident::$variant:ident $(, $rest:expr)*) => {
        if let Some(number) = $state.object($slot) {
            return Some($kind::$variant(number $(, $rest)*));
        }
    };
}

impl State {
    /// The operation of an atomic. Without a handle in the slot there is none; so it is with the others.
    pub(crate) fn atomic_op(&self, op: AtomicOp) -> Option<AtomicOp>
        ensures { result ≡ atomic_op self.now op }
    {
        match op {
            AtomicOp::New(numbers, number) => return Some(AtomicOp::New(numbers, number)),
            AtomicOp::Load(slot, order) => on!(self, slot, AtomicOp::Load, order),
            AtomicOp::Store(slot, number, order) => on!(self, slot, AtomicOp::Store, number, order),
            AtomicOp::Update(slot, change, order) => on!(
                self,
                slot,
                AtomicOp::Update,
                change,
                order
            ),
            AtomicOp::CompareExchange(slot, exchange) => on!(
                self,
                slot,
                AtomicOp::CompareExchange,
                exchange
            ),
            AtomicOp::CompareAndSwap(slot, expected, new, order) => on!(
                self,
                slot,
                AtomicOp::CompareAndSwap,
                expected,
                new,
                order
            ),
            AtomicOp::UnsyncLoad(slot) => on!(self, slot, AtomicOp::UnsyncLoad),
            AtomicOp::IntoInner(slot) => on!(self, slot, AtomicOp::IntoInner),
            AtomicOp::WithMut(slot) => on!(self, slot, AtomicOp::WithMut),
            AtomicOp::WithMutEnd(slot, number) => on!(self, slot, AtomicOp::WithMutEnd, number),
        }
        None
    }

    /// The operation of a cell.
    pub(crate) fn cell_op(&self, op: &CellOp<Value>) -> Option<CellOp<u64>>
        ensures { result ≡ cell_op self.now op.now }
    {
        match op {
            CellOp::New(value) => return Some(CellOp::New(self.number_of(*value))),
            CellOp::Read(slot) => on!(self, *slot, CellOp::Read),
            CellOp::ReadEnd(slot) => on!(self, *slot, CellOp::ReadEnd),
            CellOp::Deref(slot) => on!(self, *slot, CellOp::Deref),
            CellOp::Write(slot) => on!(self, *slot, CellOp::Write),
            CellOp::WriteEnd(slot, value) => on!(
                self,
                *slot,
                CellOp::WriteEnd,
                self.number_of(*value)
            ),
            CellOp::IntoInner(slot) => on!(self, *slot, CellOp::IntoInner),
            CellOp::Get(slot) => on!(self, *slot, CellOp::Get),
            CellOp::Replace(slot, value) => on!(
                self,
                *slot,
                CellOp::Replace,
                self.number_of(*value)
            ),
            CellOp::Swap(one, other) => {
                if let (Some(one), Some(other)) = (self.object(*one), self.object(*other)) {
                    return Some(CellOp::Swap(one, other));
                }
            }
        }
        None
    }

    /// The operation of a counted reference.
    pub(crate) fn arc_op(&self, op: &ArcOp<Value>) -> Option<ArcOp<u64>>
        ensures { result ≡ arc_op self.now op.now }
    {
        match op {
            ArcOp::New(value) => return Some(ArcOp::New(self.number_of(*value))),
            ArcOp::Clone(slot) => on!(self, *slot, ArcOp::Clone),
            ArcOp::Drop(slot) => on!(self, *slot, ArcOp::Drop),
            ArcOp::Get(slot) => on!(self, *slot, ArcOp::Get),
            ArcOp::GetMut(slot) => on!(self, *slot, ArcOp::GetMut),
            ArcOp::Put(slot, value) => on!(self, *slot, ArcOp::Put, self.number_of(*value)),
            ArcOp::TryUnwrap(slot) => on!(self, *slot, ArcOp::TryUnwrap),
            ArcOp::StrongCount(slot) => on!(self, *slot, ArcOp::StrongCount),
        }
        None
    }

    /// The operation of a tracked value.
    pub(crate) fn track_op(&self, op: &TrackOp<Value>) -> Option<TrackOp<u64>>
        ensures { result ≡ track_op self.now op.now }
    {
        match op {
            TrackOp::New(value) => return Some(TrackOp::New(self.number_of(*value))),
            TrackOp::GetRef(slot) => on!(self, *slot, TrackOp::GetRef),
            TrackOp::GetMut(slot) => on!(self, *slot, TrackOp::GetMut),
            TrackOp::Put(slot, value) => on!(self, *slot, TrackOp::Put, self.number_of(*value)),
            TrackOp::IntoInner(slot) => on!(self, *slot, TrackOp::IntoInner),
            TrackOp::Drop(slot) => on!(self, *slot, TrackOp::Drop),
        }
        None
    }

    /// The operation of a mutex.
    pub(crate) fn mutex_op(&self, op: &MutexOp<Value>) -> Option<MutexOp<u64>>
        ensures { result ≡ mutex_op self.now op.now }
    {
        match op {
            MutexOp::New(value) => return Some(MutexOp::New(self.number_of(*value))),
            MutexOp::Lock(slot) => on!(self, *slot, MutexOp::Lock),
            MutexOp::TryLock(slot) => on!(self, *slot, MutexOp::TryLock),
            MutexOp::Release(slot, value) => on!(
                self,
                *slot,
                MutexOp::Release,
                self.number_of(*value)
            ),
            MutexOp::GetMut(slot) => on!(self, *slot, MutexOp::GetMut),
            MutexOp::Put(slot, value) => on!(self, *slot, MutexOp::Put, self.number_of(*value)),
            MutexOp::IntoInner(slot) => on!(self, *slot, MutexOp::IntoInner),
        }
        None
    }

    /// The operation of a read-write lock.
    pub(crate) fn rwlock_op(&self, op: &RwLockOp<Value>) -> Option<RwLockOp<u64>>
        ensures { result ≡ rwlock_op self.now op.now }
    {
        match op {
            RwLockOp::New(value) => return Some(RwLockOp::New(self.number_of(*value))),
            RwLockOp::Read(slot) => on!(self, *slot, RwLockOp::Read),
            RwLockOp::TryRead(slot) => on!(self, *slot, RwLockOp::TryRead),
            RwLockOp::ReadRelease(slot) => on!(self, *slot, RwLockOp::ReadRelease),
            RwLockOp::Write(slot) => on!(self, *slot, RwLockOp::Write),
            RwLockOp::TryWrite(slot) => on!(self, *slot, RwLockOp::TryWrite),
            RwLockOp::WriteRelease(slot, value) => on!(
                self,
                *slot,
                RwLockOp::WriteRelease,
                self.number_of(*value)
            ),
            RwLockOp::GetMut(slot) => on!(self, *slot, RwLockOp::GetMut),
            RwLockOp::Put(slot, value) => on!(self, *slot, RwLockOp::Put, self.number_of(*value)),
            RwLockOp::IntoInner(slot) => on!(self, *slot, RwLockOp::IntoInner),
        }
        None
    }

    /// The operation of a condition variable.
    pub(crate) fn condvar_op(&self, op: &CondvarOp<Value>) -> Option<CondvarOp<u64>>
        ensures { result ≡ condvar_op self.now op.now }
    {
        match op {
            CondvarOp::New => return Some(CondvarOp::New),
            CondvarOp::Wait(slot, mutex, value) => {
                if let (Some(slot), Some(mutex)) = (self.object(*slot), self.object(*mutex)) {
                    return Some(CondvarOp::Wait(slot, mutex, self.number_of(*value)));
                }
            }
            CondvarOp::WaitTimeout(slot, mutex, value) => {
                if let (Some(slot), Some(mutex)) = (self.object(*slot), self.object(*mutex)) {
                    return Some(CondvarOp::WaitTimeout(slot, mutex, self.number_of(*value)));
                }
            }
            CondvarOp::NotifyOne(slot) => on!(self, *slot, CondvarOp::NotifyOne),
            CondvarOp::NotifyAll(slot) => on!(self, *slot, CondvarOp::NotifyAll),
        }
        None
    }

    /// The operation of a notifier.
    pub(crate) fn notify_op(&self, op: NotifyOp) -> Option<NotifyOp>
        ensures { result ≡ notify_op self.now op }
    {
        match op {
            NotifyOp::New => return Some(NotifyOp::New),
            NotifyOp::Notify(slot) => on!(self, slot, NotifyOp::Notify),
            NotifyOp::Wait(slot) => on!(self, slot, NotifyOp::Wait),
        }
        None
    }

    /// The operation of a channel.
    pub(crate) fn channel_op(&self, op: &ChannelOp<Value>) -> Option<ChannelOp<u64>>
        ensures { result ≡ channel_op self.now op.now }
    {
        match op {
            ChannelOp::New => return Some(ChannelOp::New),
            ChannelOp::Send(slot, value) => on!(
                self,
                *slot,
                ChannelOp::Send,
                self.number_of(*value)
            ),
            ChannelOp::Recv(slot) => on!(self, *slot, ChannelOp::Recv),
            ChannelOp::TryRecv(slot) => on!(self, *slot, ChannelOp::TryRecv),
            ChannelOp::CloneSender(slot) => on!(self, *slot, ChannelOp::CloneSender),
            ChannelOp::DropSender(slot) => on!(self, *slot, ChannelOp::DropSender),
            ChannelOp::DropReceiver(slot) => on!(self, *slot, ChannelOp::DropReceiver),
        }
        None
    }

    /// The operation of a future's notifier, or of its wakers.
    pub(crate) fn waker_op(&self, op: WakerOp) -> Option<WakerOp>
        ensures { result ≡ waker_op self.now op }
    {
        match op {
            WakerOp::New => return Some(WakerOp::New),
            WakerOp::Wait(slot) => on!(self, slot, WakerOp::Wait),
            WakerOp::Finish(slot) => on!(self, slot, WakerOp::Finish),
            WakerOp::Clone(slot) => on!(self, slot, WakerOp::Clone),
            WakerOp::Wake(slot) => on!(self, slot, WakerOp::Wake),
            WakerOp::WakeByRef(slot) => on!(self, slot, WakerOp::WakeByRef),
            WakerOp::Drop(slot) => on!(self, slot, WakerOp::Drop),
        }
        None
    }

    /// The operation of a place for a waker.
    pub(crate) fn place_op(&self, op: AtomicWakerOp) -> Option<AtomicWakerOp>
        ensures { result ≡ place_op self.now op }
    {
        match op {
            AtomicWakerOp::New => return Some(AtomicWakerOp::New),
            AtomicWakerOp::Register(slot, waker) => {
                if let (Some(slot), Some(waker)) = (self.object(slot), self.object(waker)) {
                    return Some(AtomicWakerOp::Register(slot, waker));
                }
            }
            AtomicWakerOp::RegisterByRef(slot, waker) => {
                if let (Some(slot), Some(waker)) = (self.object(slot), self.object(waker)) {
                    return Some(AtomicWakerOp::RegisterByRef(slot, waker));
                }
            }
            AtomicWakerOp::Wake(slot) => on!(self, slot, AtomicWakerOp::Wake),
            AtomicWakerOp::TakeWaker(slot) => on!(self, slot, AtomicWakerOp::TakeWaker),
            AtomicWakerOp::Drop(slot) => on!(self, slot, AtomicWakerOp::Drop),
        }
        None
    }

    /// The operation of a thread's own values. A step has the key itself; so it is with values that are made once.
    pub(crate) fn local_op(&self, op: &LocalOp<Value>) -> LocalOp<u64>
        ensures { result ≡ local_op self.now op.now }
    {
        match op {
            LocalOp::With(key) => LocalOp::With(*key),
            LocalOp::TryWith(key) => LocalOp::TryWith(*key),
            LocalOp::Init(key, value) => LocalOp::Init(*key, self.number_of(*value)),
            LocalOp::Put(key, value) => LocalOp::Put(*key, self.number_of(*value)),
        }
    }

    /// The operation of values that are made once a run.
    pub(crate) fn lazy_op(&self, op: &LazyOp<Value>) -> LazyOp<u64>
        ensures { result ≡ lazy_op self.now op.now }
    {
        match op {
            LazyOp::Get(key) => LazyOp::Get(*key),
            LazyOp::Init(key, value) => LazyOp::Init(*key, self.number_of(*value)),
        }
    }
}

impl Script {
    /// The operation of threads, or a failure where a slot keeps no such handle. It is refused only where a thread more finds no
    /// memory.
    pub(crate) fn thread_request(
        &self,
        op: &ThreadOp<Value, usize>,
    ) -> Result<Request<u64, Script>, AllocError>
        ensures { IfOk result (λ made. made ≡ request self.now (Thread op.now)) }
    {
        let state = self.state();
        match op {
            ThreadOp::Spawn(at, name) => return made(ThreadOp::Spawn(self.child(*at)?, *name)),
            ThreadOp::Join(slot, again) => {
                if let (Some(thread), Some(notifier)) = (
                    state.thread(*slot),
                    state.notifier(*again),
                ) {
                    return made(ThreadOp::Join(thread, notifier));
                }
            }
            ThreadOp::Current => return made(ThreadOp::Current),
            ThreadOp::Park => return made(ThreadOp::Park),
            ThreadOp::Unpark(slot) => {
                if let Some(thread) = state.thread(*slot) {
                    return made(ThreadOp::Unpark(thread));
                }
            }
            ThreadOp::Yield => return made(ThreadOp::Yield),
            ThreadOp::Finish(value) => return made(ThreadOp::Finish(state.number_of(*value))),
            ThreadOp::Exit => return made(ThreadOp::Exit),
            ThreadOp::End => return made(ThreadOp::End),
        }
        Ok(Request::Fail)
    }
}

/// The operation of threads as an answer: each goes out by itself.
fn made(op: ThreadOp<u64, Script>) -> Result<Request<u64, Script>, AllocError>
    ensures { result ≡ Ok (Thread op) }
{
    Ok(Request::Thread(op))
}
