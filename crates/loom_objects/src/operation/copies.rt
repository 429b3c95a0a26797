//! Copies of operations that have data, and of lists of data: with the data, and bare, where `()` stands in the place of each value.
ghost use Rattle.std.specs.Prelude.{◌≡◌, IfOk, map};
ghost use Rattle.loom_objects.specs.Operation.Bare.{bare_arc, bare_cell, bare_channel, bare_condvar, bare_lazy, bare_lazy_value, bare_local, bare_local_value, bare_mutex, bare_rwlock, bare_thread, bare_track, nothing};

use crate::data::Data;
use crate::operation::{
    ArcOp, CellOp, ChannelOp, CondvarOp, Keyed, Lazy, LazyOp, LocalOp, MutexOp, RwLockOp, ThreadOp,
    TrackOp,
};
use loom_views::sequence::Sequence;
use std::alloc::{AllocError, Global};
use std::collections::LinkedList;

/// A copy of an operation of a cell.
pub(crate) fn copy_cell<D: Data>(op: &CellOp<D>) -> Result<CellOp<D>, AllocError>
    ensures { IfOk result (λ copy. copy ≡ op.now) }
{
    Ok(match op {
        CellOp::New(value) => CellOp::New(value.try_clone()?),
        CellOp::Read(number) => CellOp::Read(*number),
        CellOp::ReadEnd(number) => CellOp::ReadEnd(*number),
        CellOp::Deref(number) => CellOp::Deref(*number),
        CellOp::Write(number) => CellOp::Write(*number),
        CellOp::WriteEnd(number, value) => CellOp::WriteEnd(*number, value.try_clone()?),
        CellOp::IntoInner(number) => CellOp::IntoInner(*number),
        CellOp::Get(number) => CellOp::Get(*number),
        CellOp::Replace(number, value) => CellOp::Replace(*number, value.try_clone()?),
        CellOp::Swap(number, other) => CellOp::Swap(*number, *other),
    })
}

/// A copy of an operation of a counted reference.
pub(crate) fn copy_arc<D: Data>(op: &ArcOp<D>) -> Result<ArcOp<D>, AllocError>
    ensures { IfOk result (λ copy. copy ≡ op.now) }
{
    Ok(match op {
        ArcOp::New(value) => ArcOp::New(value.try_clone()?),
        ArcOp::Clone(number) => ArcOp::Clone(*number),
        ArcOp::Drop(number) => ArcOp::Drop(*number),
        ArcOp::Get(number) => ArcOp::Get(*number),
        ArcOp::GetMut(number) => ArcOp::GetMut(*number),
        ArcOp::Put(number, value) => ArcOp::Put(*number, value.try_clone()?),
        ArcOp::TryUnwrap(number) => ArcOp::TryUnwrap(*number),
        ArcOp::StrongCount(number) => ArcOp::StrongCount(*number),
    })
}

/// A copy of an operation of a tracked value.
pub(crate) fn copy_track<D: Data>(op: &TrackOp<D>) -> Result<TrackOp<D>, AllocError>
    ensures { IfOk result (λ copy. copy ≡ op.now) }
{
    Ok(match op {
        TrackOp::New(value) => TrackOp::New(value.try_clone()?),
        TrackOp::GetRef(number) => TrackOp::GetRef(*number),
        TrackOp::GetMut(number) => TrackOp::GetMut(*number),
        TrackOp::Put(number, value) => TrackOp::Put(*number, value.try_clone()?),
        TrackOp::IntoInner(number) => TrackOp::IntoInner(*number),
        TrackOp::Drop(number) => TrackOp::Drop(*number),
    })
}

/// A copy of an operation of a mutex.
pub(crate) fn copy_mutex<D: Data>(op: &MutexOp<D>) -> Result<MutexOp<D>, AllocError>
    ensures { IfOk result (λ copy. copy ≡ op.now) }
{
    Ok(match op {
        MutexOp::New(value) => MutexOp::New(value.try_clone()?),
        MutexOp::Lock(number) => MutexOp::Lock(*number),
        MutexOp::TryLock(number) => MutexOp::TryLock(*number),
        MutexOp::Release(number, value) => MutexOp::Release(*number, value.try_clone()?),
        MutexOp::GetMut(number) => MutexOp::GetMut(*number),
        MutexOp::Put(number, value) => MutexOp::Put(*number, value.try_clone()?),
        MutexOp::IntoInner(number) => MutexOp::IntoInner(*number),
    })
}

/// A copy of an operation of a read-write lock.
pub(crate) fn copy_rwlock<D: Data>(op: &RwLockOp<D>) -> Result<RwLockOp<D>, AllocError>
    ensures { IfOk result (λ copy. copy ≡ op.now) }
{
    Ok(match op {
        RwLockOp::New(value) => RwLockOp::New(value.try_clone()?),
        RwLockOp::Read(number) => RwLockOp::Read(*number),
        RwLockOp::TryRead(number) => RwLockOp::TryRead(*number),
        RwLockOp::ReadRelease(number) => RwLockOp::ReadRelease(*number),
        RwLockOp::Write(number) => RwLockOp::Write(*number),
        RwLockOp::TryWrite(number) => RwLockOp::TryWrite(*number),
        RwLockOp::WriteRelease(number, value) => RwLockOp::WriteRelease(
            *number,
            value.try_clone()?,
        ),
        RwLockOp::GetMut(number) => RwLockOp::GetMut(*number),
        RwLockOp::Put(number, value) => RwLockOp::Put(*number, value.try_clone()?),
        RwLockOp::IntoInner(number) => RwLockOp::IntoInner(*number),
    })
}

/// A copy of an operation of a condition variable.
pub(crate) fn copy_condvar<D: Data>(op: &CondvarOp<D>) -> Result<CondvarOp<D>, AllocError>
    ensures { IfOk result (λ copy. copy ≡ op.now) }
{
    Ok(match op {
        CondvarOp::New => CondvarOp::New,
        CondvarOp::Wait(number, other, value) => CondvarOp::Wait(
            *number,
            *other,
            value.try_clone()?,
        ),
        CondvarOp::WaitTimeout(number, other, value) => CondvarOp::WaitTimeout(
            *number,
            *other,
            value.try_clone()?,
        ),
        CondvarOp::NotifyOne(number) => CondvarOp::NotifyOne(*number),
        CondvarOp::NotifyAll(number) => CondvarOp::NotifyAll(*number),
    })
}

/// A copy of an operation of a channel.
pub(crate) fn copy_channel<D: Data>(op: &ChannelOp<D>) -> Result<ChannelOp<D>, AllocError>
    ensures { IfOk result (λ copy. copy ≡ op.now) }
{
    Ok(match op {
        ChannelOp::New => ChannelOp::New,
        ChannelOp::Send(number, value) => ChannelOp::Send(*number, value.try_clone()?),
        ChannelOp::Recv(number) => ChannelOp::Recv(*number),
        ChannelOp::TryRecv(number) => ChannelOp::TryRecv(*number),
        ChannelOp::CloneSender(number) => ChannelOp::CloneSender(*number),
        ChannelOp::DropSender(number) => ChannelOp::DropSender(*number),
        ChannelOp::DropReceiver(number) => ChannelOp::DropReceiver(*number),
    })
}

/// A copy of an operation of a thread's own value.
pub(crate) fn copy_local<D: Data>(op: &LocalOp<D>) -> Result<LocalOp<D>, AllocError>
    ensures { IfOk result (λ copy. copy ≡ op.now) }
{
    Ok(match op {
        LocalOp::With(number) => LocalOp::With(*number),
        LocalOp::TryWith(number) => LocalOp::TryWith(*number),
        LocalOp::Init(number, value) => LocalOp::Init(*number, value.try_clone()?),
        LocalOp::Put(number, value) => LocalOp::Put(*number, value.try_clone()?),
    })
}

/// A copy of an operation of a value that is made once.
pub(crate) fn copy_lazy<D: Data>(op: &LazyOp<D>) -> Result<LazyOp<D>, AllocError>
    ensures { IfOk result (λ copy. copy ≡ op.now) }
{
    Ok(match op {
        LazyOp::Get(number) => LazyOp::Get(*number),
        LazyOp::Init(number, value) => LazyOp::Init(*number, value.try_clone()?),
    })
}

/// A copy of an operation of a thread.
pub(crate) fn copy_thread<D: Data>(op: &ThreadOp<D, ()>) -> Result<ThreadOp<D, ()>, AllocError>
    ensures { IfOk result (λ copy. copy ≡ op.now) }
{
    Ok(match op {
        ThreadOp::Spawn(_, name) => ThreadOp::Spawn((), *name),
        ThreadOp::Join(thread, notifier) => ThreadOp::Join(*thread, *notifier),
        ThreadOp::Current => ThreadOp::Current,
        ThreadOp::Park => ThreadOp::Park,
        ThreadOp::Unpark(thread) => ThreadOp::Unpark(*thread),
        ThreadOp::Yield => ThreadOp::Yield,
        ThreadOp::Finish(value) => ThreadOp::Finish(value.try_clone()?),
        ThreadOp::Exit => ThreadOp::Exit,
        ThreadOp::End => ThreadOp::End,
    })
}

/// A copy of the messages.
pub(crate) fn copy_messages<D: Data>(
    alloc: Global,
    messages: &LinkedList<D>,
) -> Result<LinkedList<D>, AllocError>
    ensures { IfOk result (λ copy. copy ≡ messages.now) }
{
    let mut made = LinkedList::new(alloc);
    let mut rest = messages.iter();
    while let Some(message) = rest.next() {
        let copy = message.try_clone()?;
        if made.push_back(copy).is_err() {
            return Err(AllocError);
        }
    }
    Ok(made)
}

/// A copy of a value with its key.
fn copy_keyed<D: Data>(keyed: &Keyed<D>) -> Result<Keyed<D>, AllocError>
    ensures { IfOk result (λ copy. copy ≡ keyed.now) }
{
    let value = keyed.value.try_clone()?;
    Ok(Keyed {
        key: keyed.key,
        value,
    })
}

/// A copy of a thread's own values.
pub(crate) fn copy_locals<D: Data>(
    alloc: Global,
    locals: &Sequence<Keyed<D>>,
) -> Result<Sequence<Keyed<D>>, AllocError>
    ensures { IfOk result (λ copy. copy ≡ locals.now) }
{
    let all = locals.as_slice();
    let mut made = Vec::new(alloc);
    for item in all {
        made.push(copy_keyed(item)?)?;
    }
    Ok(Sequence::from_vec(made))
}

/// A copy of a value that is made once.
fn copy_lazy_value<D: Data>(lazy: &Lazy<D>) -> Result<Lazy<D>, AllocError>
    ensures { IfOk result (λ copy. copy ≡ lazy.now) }
{
    let value = lazy.value.try_clone()?;
    Ok(Lazy {
        key: lazy.key,
        value,
        stamp: lazy.stamp,
    })
}

/// A copy of the values that were made once.
pub(crate) fn copy_lazies<D: Data>(
    alloc: Global,
    lazies: &Sequence<Lazy<D>>,
) -> Result<Sequence<Lazy<D>>, AllocError>
    ensures { IfOk result (λ copy. copy ≡ lazies.now) }
{
    let all = lazies.as_slice();
    let mut made = Vec::new(alloc);
    for item in all {
        made.push(copy_lazy_value(item)?)?;
    }
    Ok(Sequence::from_vec(made))
}

pub(crate) fn bare_cell<D>(op: &CellOp<D>) -> CellOp<()>
    ensures { result ≡ bare_cell op.now }
{
    match op {
        CellOp::New(_) => CellOp::New(()),
        CellOp::Read(cell) => CellOp::Read(*cell),
        CellOp::ReadEnd(cell) => CellOp::ReadEnd(*cell),
        CellOp::Deref(cell) => CellOp::Deref(*cell),
        CellOp::Write(cell) => CellOp::Write(*cell),
        CellOp::WriteEnd(cell, _) => CellOp::WriteEnd(*cell, ()),
        CellOp::IntoInner(cell) => CellOp::IntoInner(*cell),
        CellOp::Get(cell) => CellOp::Get(*cell),
        CellOp::Replace(cell, _) => CellOp::Replace(*cell, ()),
        CellOp::Swap(cell, other) => CellOp::Swap(*cell, *other),
    }
}

pub(crate) fn bare_arc<D>(op: &ArcOp<D>) -> ArcOp<()>
    ensures { result ≡ bare_arc op.now }
{
    match op {
        ArcOp::New(_) => ArcOp::New(()),
        ArcOp::Clone(arc) => ArcOp::Clone(*arc),
        ArcOp::Drop(arc) => ArcOp::Drop(*arc),
        ArcOp::Get(arc) => ArcOp::Get(*arc),
        ArcOp::GetMut(arc) => ArcOp::GetMut(*arc),
        ArcOp::Put(arc, _) => ArcOp::Put(*arc, ()),
        ArcOp::TryUnwrap(arc) => ArcOp::TryUnwrap(*arc),
        ArcOp::StrongCount(arc) => ArcOp::StrongCount(*arc),
    }
}

pub(crate) fn bare_track<D>(op: &TrackOp<D>) -> TrackOp<()>
    ensures { result ≡ bare_track op.now }
{
    match op {
        TrackOp::New(_) => TrackOp::New(()),
        TrackOp::GetRef(track) => TrackOp::GetRef(*track),
        TrackOp::GetMut(track) => TrackOp::GetMut(*track),
        TrackOp::Put(track, _) => TrackOp::Put(*track, ()),
        TrackOp::IntoInner(track) => TrackOp::IntoInner(*track),
        TrackOp::Drop(track) => TrackOp::Drop(*track),
    }
}

pub(crate) fn bare_mutex<D>(op: &MutexOp<D>) -> MutexOp<()>
    ensures { result ≡ bare_mutex op.now }
{
    match op {
        MutexOp::New(_) => MutexOp::New(()),
        MutexOp::Lock(mutex) => MutexOp::Lock(*mutex),
        MutexOp::TryLock(mutex) => MutexOp::TryLock(*mutex),
        MutexOp::Release(mutex, _) => MutexOp::Release(*mutex, ()),
        MutexOp::GetMut(mutex) => MutexOp::GetMut(*mutex),
        MutexOp::Put(mutex, _) => MutexOp::Put(*mutex, ()),
        MutexOp::IntoInner(mutex) => MutexOp::IntoInner(*mutex),
    }
}

pub(crate) fn bare_rwlock<D>(op: &RwLockOp<D>) -> RwLockOp<()>
    ensures { result ≡ bare_rwlock op.now }
{
    match op {
        RwLockOp::New(_) => RwLockOp::New(()),
        RwLockOp::Read(lock) => RwLockOp::Read(*lock),
        RwLockOp::TryRead(lock) => RwLockOp::TryRead(*lock),
        RwLockOp::ReadRelease(lock) => RwLockOp::ReadRelease(*lock),
        RwLockOp::Write(lock) => RwLockOp::Write(*lock),
        RwLockOp::TryWrite(lock) => RwLockOp::TryWrite(*lock),
        RwLockOp::WriteRelease(lock, _) => RwLockOp::WriteRelease(*lock, ()),
        RwLockOp::GetMut(lock) => RwLockOp::GetMut(*lock),
        RwLockOp::Put(lock, _) => RwLockOp::Put(*lock, ()),
        RwLockOp::IntoInner(lock) => RwLockOp::IntoInner(*lock),
    }
}

pub(crate) fn bare_condvar<D>(op: &CondvarOp<D>) -> CondvarOp<()>
    ensures { result ≡ bare_condvar op.now }
{
    match op {
        CondvarOp::New => CondvarOp::New,
        CondvarOp::Wait(condvar, mutex, _) => CondvarOp::Wait(*condvar, *mutex, ()),
        CondvarOp::WaitTimeout(condvar, mutex, _) => CondvarOp::WaitTimeout(*condvar, *mutex, ()),
        CondvarOp::NotifyOne(condvar) => CondvarOp::NotifyOne(*condvar),
        CondvarOp::NotifyAll(condvar) => CondvarOp::NotifyAll(*condvar),
    }
}

pub(crate) fn bare_channel<D>(op: &ChannelOp<D>) -> ChannelOp<()>
    ensures { result ≡ bare_channel op.now }
{
    match op {
        ChannelOp::New => ChannelOp::New,
        ChannelOp::Send(channel, _) => ChannelOp::Send(*channel, ()),
        ChannelOp::Recv(channel) => ChannelOp::Recv(*channel),
        ChannelOp::TryRecv(channel) => ChannelOp::TryRecv(*channel),
        ChannelOp::CloneSender(channel) => ChannelOp::CloneSender(*channel),
        ChannelOp::DropSender(channel) => ChannelOp::DropSender(*channel),
        ChannelOp::DropReceiver(channel) => ChannelOp::DropReceiver(*channel),
    }
}

pub(crate) fn bare_local<D>(op: &LocalOp<D>) -> LocalOp<()>
    ensures { result ≡ bare_local op.now }
{
    match op {
        LocalOp::With(key) => LocalOp::With(*key),
        LocalOp::TryWith(key) => LocalOp::TryWith(*key),
        LocalOp::Init(key, _) => LocalOp::Init(*key, ()),
        LocalOp::Put(key, _) => LocalOp::Put(*key, ()),
    }
}

pub(crate) fn bare_lazy<D>(op: &LazyOp<D>) -> LazyOp<()>
    ensures { result ≡ bare_lazy op.now }
{
    match op {
        LazyOp::Get(key) => LazyOp::Get(*key),
        LazyOp::Init(key, _) => LazyOp::Init(*key, ()),
    }
}

pub(crate) fn bare_thread<D, S>(op: &ThreadOp<D, S>) -> ThreadOp<(), ()>
    ensures { result ≡ bare_thread op.now }
{
    match op {
        ThreadOp::Spawn(_, name) => ThreadOp::Spawn((), *name),
        ThreadOp::Join(thread, notifier) => ThreadOp::Join(*thread, *notifier),
        ThreadOp::Current => ThreadOp::Current,
        ThreadOp::Park => ThreadOp::Park,
        ThreadOp::Unpark(thread) => ThreadOp::Unpark(*thread),
        ThreadOp::Yield => ThreadOp::Yield,
        ThreadOp::Finish(_) => ThreadOp::Finish(()),
        ThreadOp::Exit => ThreadOp::Exit,
        ThreadOp::End => ThreadOp::End,
    }
}

pub(crate) fn bare_messages<D>(
    alloc: Global,
    messages: &LinkedList<D>,
) -> Result<LinkedList<()>, AllocError>
    ensures { IfOk result (λ told. told ≡ map nothing messages.now) }
{
    let mut told = LinkedList::new(alloc);
    for _place in 0..messages.len() {
        told.push_back(())?;
    }
    Ok(told)
}

pub(crate) fn bare_locals<D>(
    alloc: Global,
    locals: &Sequence<Keyed<D>>,
) -> Result<Sequence<Keyed<()>>, AllocError>
    ensures { IfOk result (λ told. told ≡ map bare_local_value locals.now) }
{
    let mut told = Vec::new(alloc);
    for local in locals.as_slice() {
        told.push(Keyed {
            key: local.key,
            value: (),
        })?;
    }
    Ok(Sequence::from_vec(told))
}

pub(crate) fn bare_lazies<D>(
    alloc: Global,
    lazies: &Sequence<Lazy<D>>,
) -> Result<Sequence<Lazy<()>>, AllocError>
    ensures { IfOk result (λ told. told ≡ map bare_lazy_value lazies.now) }
{
    let mut told = Vec::new(alloc);
    for lazy in lazies.as_slice() {
        told.push(Lazy {
            key: lazy.key,
            value: (),
            stamp: lazy.stamp,
        })?;
    }
    Ok(Sequence::from_vec(told))
}
