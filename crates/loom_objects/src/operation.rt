//! Operations, as threads ask for them: a request, with the label that its author gave it; and the replies. They are copied
//! with their data, and bare, without it.
mod copies;

ghost use Rattle.std.specs.Prelude.{◌≡◌, false, IfOk};
ghost use Rattle.loom_objects.specs.Operation.Accessed.{accessed};
ghost use Rattle.loom_objects.specs.Operation.Plain.{plain, plain_thread, started, started_thread};
ghost use Rattle.loom_objects.specs.Operation.Bare.{bare_op, bare_reply, bare_request, holds_list};
ghost use Rattle.loom_objects.specs.Operation.Relabelled as labels;
ghost use Rattle.loom_objects.specs.Operation.Labelled.{bare};
ghost use Rattle.loom_objects.specs.Text.{first_text};

use crate::data::Data;
use crate::label::{Label, named, placed};
use crate::location::Location;
use crate::operation::copies::{
    bare_arc, bare_cell, bare_channel, bare_condvar, bare_lazies, bare_lazy, bare_local,
    bare_locals, bare_messages, bare_mutex, bare_rwlock, bare_thread, bare_track, copy_arc,
    copy_cell, copy_channel, copy_condvar, copy_lazies, copy_lazy, copy_local, copy_locals,
    copy_messages, copy_mutex, copy_rwlock, copy_thread, copy_track,
};
use crate::text::Text;
use loom_views::rt::num::Numbers;
use loom_views::rt::num::change::Change;
use loom_views::sequence::Sequence;
use std::alloc::{AllocError, Global};
use std::collections::LinkedList;
use std::sync::atomic::Ordering;

/// The pattern of a reply that says what was made.
#[macro_export]
macro_rules! made {
    () => {
        $crate::operation::Reply::Atomic(_)
            | $crate::operation::Reply::Cell(_)
            | $crate::operation::Reply::Arc(_)
            | $crate::operation::Reply::Track(_)
            | $crate::operation::Reply::Mutex(_)
            | $crate::operation::Reply::RwLock(_)
            | $crate::operation::Reply::Condvar(_)
            | $crate::operation::Reply::Notify(_)
            | $crate::operation::Reply::Channel(_)
            | $crate::operation::Reply::BlockOn(_)
            | $crate::operation::Reply::AtomicWaker(_)
            | $crate::operation::Reply::Spawned(..)
    };
}

// The reply with this in the place of each value. It holds no list.
macro_rules! with_data {
    ($reply:expr, $value:ident => $data:expr) => {
        match $reply {
            Reply::Start => Reply::Start,
            Reply::Done => Reply::Done,
            Reply::Atomic(atomic) => Reply::Atomic(*atomic),
            Reply::Value(value) => Reply::Value(*value),
            Reply::Exchanged(answer) => Reply::Exchanged(*answer),
            Reply::Data($value) => Reply::Data($data),
            Reply::Cell(cell) => Reply::Cell(*cell),
            Reply::Reading(cell, $value) => Reply::Reading(*cell, $data),
            Reply::Writing(cell, $value) => Reply::Writing(*cell, $data),
            Reply::Arc(arc) => Reply::Arc(*arc),
            Reply::Shared => Reply::Shared,
            Reply::Track(track) => Reply::Track(*track),
            Reply::Mutex(mutex) => Reply::Mutex(*mutex),
            Reply::Locked(mutex, $value) => Reply::Locked(*mutex, $data),
            Reply::Waited(mutex, $value, timed_out) => Reply::Waited(*mutex, $data, *timed_out),
            Reply::WouldBlock => Reply::WouldBlock,
            Reply::RwLock(lock) => Reply::RwLock(*lock),
            Reply::ReadLocked(lock, $value) => Reply::ReadLocked(*lock, $data),
            Reply::WriteLocked(lock, $value) => Reply::WriteLocked(*lock, $data),
            Reply::Condvar(condvar) => Reply::Condvar(*condvar),
            Reply::Notify(notifier) => Reply::Notify(*notifier),
            Reply::Channel(channel) => Reply::Channel(*channel),
            Reply::Empty => Reply::Empty,
            Reply::RecvError => Reply::RecvError,
            Reply::Disconnected => Reply::Disconnected,
            Reply::SendError($value) => Reply::SendError($data),
            Reply::BlockOn(waker) => Reply::BlockOn(*waker),
            Reply::Waker(waker) => Reply::Waker(*waker),
            Reply::NoWaker => Reply::NoWaker,
            Reply::AtomicWaker(place) => Reply::AtomicWaker(*place),
            Reply::Absent => Reply::Absent,
            Reply::AccessError => Reply::AccessError,
            Reply::Stood($value, other) => {
                let stood = $data;
                let $value = other;
                Reply::Stood(stood, $data)
            }
            Reply::Thread(thread, name) => Reply::Thread(*thread, *name),
            Reply::Spawned(thread, name, notifier) => Reply::Spawned(*thread, *name, *notifier),
            Reply::Messages(_) | Reply::Locals(_) | Reply::Lazies(_) => unreachable!(),
        }
    };
}

/// A request with its label.
#[derive(Debug, Drop)]
pub struct Labelled<R> {
    /// What is asked for.
    pub request: R,
    /// What its author calls it, and where. It changes nothing that the operation does (own).
    pub label: Option<Label>,
}

/// A thread's name.
#[derive(Clone, Copy, Debug, PartialEq, Eq)]
pub struct Name {
    /// What is kept of it: all of it, or its first characters that fit.
    pub text: Text,
}

/// One operation: what a thread does next, and how its body's author calls that.
pub type Op<D, S> = Labelled<Request<D, S>>;

/// What a thread asks for of an object, of a thread or of the run. `D` is the data type, `S` what a spawn starts. Objects are named
/// by their numbers, in order of creation.
#[derive(Debug, PartialEq, Eq, Drop)]
pub enum Request<D, S> {
    Atomic(AtomicOp),
    /// A fence.
    Fence(Ordering),
    Cell(CellOp<D>),
    Arc(ArcOp<D>),
    Track(TrackOp<D>),
    Mutex(MutexOp<D>),
    RwLock(RwLockOp<D>),
    Condvar(CondvarOp<D>),
    Notify(NotifyOp),
    Channel(ChannelOp<D>),
    Waker(WakerOp),
    AtomicWaker(AtomicWakerOp),
    Local(LocalOp<D>),
    Lazy(LazyOp<D>),
    Explore(ExploreOp),
    Thread(ThreadOp<D, S>),
    /// The body's own assertion failed.
    Fail,
    /// Code was reached that is never to be.
    Unreachable,
}

/// The operations of an atomic, whose values are the `u64` that stands for them. A value is cast to the type of what the
/// atomic holds before it is stored or compared.
#[derive(Clone, Copy, Debug, PartialEq, Eq)]
pub enum AtomicOp {
    /// The type of what it holds, and its first value.
    New(Numbers, u64),
    Load(usize, Ordering),
    Store(usize, u64, Ordering),
    /// A read-modify-write, with what it makes of the value that it reads.
    Update(usize, Change, Ordering),
    CompareExchange(usize, Exchange),
    /// The value that is expected, and the new one. It answers the value that it reads.
    CompareAndSwap(usize, u64, u64, Ordering),
    /// A load that doesn't synchronize.
    UnsyncLoad(usize),
    /// A load that doesn't synchronize, after which the atomic is no more.
    IntoInner(usize),
    /// Opens a mutation, which other threads' accesses may not meet.
    WithMut(usize),
    /// Ends the mutation, with the value that it leaves.
    WithMutEnd(usize, u64),
}

/// What a compare-exchange stores, and where.
#[derive(Clone, Copy, Debug, PartialEq, Eq)]
pub struct Exchange {
    /// The value that is expected.
    pub expected: u64,
    /// The value that takes its place.
    pub new: u64,
    /// The ordering where it does.
    pub success: Ordering,
    /// The ordering where another value is read.
    pub failure: Ordering,
}

/// The operations of a cell.
#[derive(Debug, PartialEq, Eq, Drop)]
pub enum CellOp<D> {
    New(D),
    /// Begins to read, and answers a copy of the data.
    Read(usize),
    /// Ends a read.
    ReadEnd(usize),
    /// Another copy of the data, in a read that is open.
    Deref(usize),
    /// Begins to write, and answers the data.
    Write(usize),
    /// Ends the write, with the data that goes back.
    WriteEnd(usize, D),
    /// Answers the data, after which the cell is no more.
    IntoInner(usize),
    /// A read that begins and ends.
    Get(usize),
    /// A write that begins and ends, and answers the data that was there.
    Replace(usize, D),
    /// Exchanges the data of two cells.
    Swap(usize, usize),
}

/// The operations of a counted reference.
#[derive(Debug, PartialEq, Eq, Drop)]
pub enum ArcOp<D> {
    New(D),
    /// One reference more.
    Clone(usize),
    /// One reference fewer; the last one answers the value.
    Drop(usize),
    /// A copy of the value.
    Get(usize),
    /// Answers the value, if there is one reference alone.
    GetMut(usize),
    /// The value that goes back after that.
    Put(usize, D),
    /// Drops the reference and answers the value, if there is one reference alone.
    TryUnwrap(usize),
    /// How many references there are.
    StrongCount(usize),
}

/// The operations of a tracked value.
#[derive(Debug, PartialEq, Eq, Drop)]
pub enum TrackOp<D> {
    New(D),
    /// A copy of the value.
    GetRef(usize),
    /// Answers the value.
    GetMut(usize),
    /// The value that goes back after that.
    Put(usize, D),
    /// Answers the value, which isn't tracked any more.
    IntoInner(usize),
    /// The value is dropped, and isn't tracked any more.
    Drop(usize),
}

/// The operations of a mutex.
#[derive(Debug, PartialEq, Eq, Drop)]
pub enum MutexOp<D> {
    New(D),
    Lock(usize),
    /// A lock that doesn't wait.
    TryLock(usize),
    /// The mutex, and the data that goes back into it.
    Release(usize, D),
    /// Answers the data, while nobody holds the mutex.
    GetMut(usize),
    /// The data that goes back after that.
    Put(usize, D),
    /// Answers the data, after which the mutex is no more.
    IntoInner(usize),
}

/// The operations of a read-write lock.
#[derive(Debug, PartialEq, Eq, Drop)]
pub enum RwLockOp<D> {
    New(D),
    /// A thread more reads.
    Read(usize),
    /// A thread more reads, unless another one writes: it doesn't wait.
    TryRead(usize),
    /// A guard of the thread for reading ends.
    ReadRelease(usize),
    /// The thread alone writes.
    Write(usize),
    /// The thread alone writes, unless another one holds the lock: it doesn't wait.
    TryWrite(usize),
    /// The thread writes no more: the lock, and the data that goes back into it.
    WriteRelease(usize, D),
    /// Answers the data, while nobody holds the lock.
    GetMut(usize),
    /// The data that goes back after that.
    Put(usize, D),
    /// Answers the data, after which the lock is no more.
    IntoInner(usize),
}

/// The operations of a condition variable.
#[derive(Debug, PartialEq, Eq, Drop)]
pub enum CondvarOp<D> {
    New,
    /// The condition variable, the mutex that the thread holds, and the data that goes back into it.
    Wait(usize, usize, D),
    /// A wait by the call that has a time; no time runs out.
    WaitTimeout(usize, usize, D),
    NotifyOne(usize),
    NotifyAll(usize),
}

/// The operations of a notifier.
#[derive(Clone, Copy, Debug, PartialEq, Eq)]
pub enum NotifyOp {
    New,
    Notify(usize),
    Wait(usize),
}

/// The operations of a channel.
#[derive(Debug, PartialEq, Eq, Drop)]
pub enum ChannelOp<D> {
    /// A channel, with one sender and its receiver.
    New,
    /// A sender sends the message.
    Send(usize, D),
    /// The receiver waits for a message.
    Recv(usize),
    /// The receiver takes a message, if there is one: it doesn't wait.
    TryRecv(usize),
    /// One sender more.
    CloneSender(usize),
    /// One sender fewer.
    DropSender(usize),
    /// The receiver takes the messages that are left, and is no more.
    DropReceiver(usize),
}

/// The operations of a future's notifier and of its wakers, which are named by the number of their count.
#[derive(Clone, Copy, Debug, PartialEq, Eq)]
pub enum WakerOp {
    /// A notifier for a future, with one waker.
    New,
    /// Waits for the notifier.
    Wait(usize),
    /// The future's own waker is dropped.
    Finish(usize),
    /// One waker more.
    Clone(usize),
    /// Notifies, and drops the waker.
    Wake(usize),
    /// Notifies.
    WakeByRef(usize),
    /// One waker fewer.
    Drop(usize),
}

/// The operations of a place for a waker.
#[derive(Clone, Copy, Debug, PartialEq, Eq)]
pub enum AtomicWakerOp {
    New,
    /// The waker takes the place, where nobody else is about to; else it wakes.
    Register(usize, usize),
    /// A clone of the waker takes the place, where nobody else is about to; else it wakes.
    RegisterByRef(usize, usize),
    /// Takes the waker out, and wakes by it.
    Wake(usize),
    /// Takes the waker out.
    TakeWaker(usize),
    /// Answers the waker that is left.
    Drop(usize),
}

/// The operations of a thread's own values, which are named by keys.
#[derive(Debug, PartialEq, Eq, Drop)]
pub enum LocalOp<D> {
    /// A copy of the value, if there is one.
    With(usize),
    /// A copy of the value, if there is one. It may have been given back.
    TryWith(usize),
    /// The first value of the key.
    Init(usize, D),
    /// Another value takes the place of the one that is there.
    Put(usize, D),
}

/// The operations of values that are made once a run, which are named by keys.
#[derive(Debug, PartialEq, Eq, Drop)]
pub enum LazyOp<D> {
    /// A copy of the value, if there is one.
    Get(usize),
    /// The value, unless there is one.
    Init(usize, D),
}

/// Whether the search goes on to other options at the nodes that come.
#[derive(Clone, Copy, Debug, PartialEq, Eq)]
pub enum ExploreOp {
    /// It does from now on.
    Explore,
    /// It doesn't from now on.
    StopExploring,
    /// It doesn't up to the run's end.
    SkipBranch,
}

/// A value with its key.
#[derive(Debug, PartialEq, Eq, Drop)]
pub struct Keyed<D> {
    /// The number that the body names it by.
    pub key: usize,
    /// The value.
    pub value: D,
}

/// A value that was made once in a run.
#[derive(Debug, PartialEq, Eq, Drop)]
pub struct Lazy<D> {
    /// The number that the body names it by.
    pub key: usize,
    /// The value.
    pub value: D,
    /// The number of the point that its maker has released to.
    pub stamp: usize,
}

/// A message of a channel.
#[derive(Debug, Drop)]
pub struct Message<D> {
    /// What was sent, in a list of its own, so that it can go behind others without memory.
    pub value: LinkedList<D>,
    /// The number of the point that its sender has released to.
    pub stamp: usize,
}

/// The operations of threads.
#[derive(Debug, PartialEq, Eq, Drop)]
pub enum ThreadOp<D, S> {
    /// What it runs, and its name.
    Spawn(S, Option<Name>),
    /// A thread, and its notifier.
    Join(u8, usize),
    /// Answers which thread it is.
    Current,
    /// Waits for a token.
    Park,
    /// Gives a thread a token.
    Unpark(u8),
    /// Lets other threads go on first.
    Yield,
    /// The thread's result.
    Finish(D),
    /// The thread gives its own values back.
    Exit,
    /// The thread's last operation.
    End,
}

/// What an operation answers.
#[derive(Debug, Drop)]
pub enum Reply<D> {
    /// The first reply of every thread.
    Start,
    Done,
    /// A new atomic.
    Atomic(usize),
    /// What an atomic holds.
    Value(u64),
    /// What a compare-exchange has read: Ok where it has exchanged it, and else Err.
    Exchanged(Result<u64, u64>),
    /// The result of a thread that was joined, or what an object holds.
    Data(D),
    /// A new cell.
    Cell(usize),
    /// A cell that the thread reads from now on, and a copy of its data.
    Reading(usize, D),
    /// A cell that the thread writes from now on, and its data.
    Writing(usize, D),
    /// A new counted reference.
    Arc(usize),
    /// Others share the counted reference, so its value stays.
    Shared,
    /// A new tracked value.
    Track(usize),
    /// A new mutex.
    Mutex(usize),
    /// A mutex that the thread holds now, and its data.
    Locked(usize, D),
    /// A mutex that the thread holds again after a wait with a time, its data, and whether the time ran out.
    Waited(usize, D, bool),
    /// The lock is held, and wasn't waited for.
    WouldBlock,
    /// A new read-write lock.
    RwLock(usize),
    /// A lock that the thread reads now, and a copy of its data.
    ReadLocked(usize, D),
    /// A lock that the thread writes now, and its data.
    WriteLocked(usize, D),
    /// A new condition variable.
    Condvar(usize),
    /// A new notifier.
    Notify(usize),
    /// A new channel.
    Channel(usize),
    /// The channel has no message now.
    Empty,
    /// The channel has no message, and no sender is left.
    RecvError,
    /// The channel has no message and no sender is left, where the thread didn't wait.
    Disconnected,
    /// The channel has no receiver any more: the message is given back.
    SendError(D),
    /// The messages that a receiver has left, the one that was sent first first.
    Messages(LinkedList<D>),
    /// A new notifier for a future, by the number of its wakers' count.
    BlockOn(usize),
    /// A waker that was taken out of its place.
    Waker(usize),
    /// There is no waker in the place.
    NoWaker,
    /// A new place for a waker.
    AtomicWaker(usize),
    /// The key has no value yet.
    Absent,
    /// The key's value was given back.
    AccessError,
    /// A copy of the value that was made before, and the one that wasn't needed.
    Stood(D, D),
    /// The thread's own values, in the order made.
    Locals(Sequence<Keyed<D>>),
    /// The values that were made once in the run, in the order made.
    Lazies(Sequence<Lazy<D>>),
    /// The thread itself, and its name.
    Thread(u8, Option<Name>),
    /// A new thread, its name, and the notifier that it notifies when it finishes.
    Spawned(u8, Option<Name>, usize),
}

/// Whose turn it is now, or how the run ended.
#[derive(Debug, Drop)]
pub enum Turn<D> {
    /// The thread has its turn, with the reply to its last operation.
    Reply(u8, Reply<D>),
    /// The thread has its turn, and starts.
    Start(u8),
    /// The run is over, with main's result.
    Ended(D),
}

impl<D: Drop> Request<D, ()> {
    /// Drops the request, with all that it holds (own).
    pub fn let_go(self) {}
}

impl<D: Drop> Reply<D> {
    /// Drops the reply, with all that it holds (own).
    pub fn let_go(self) {}
}

impl<R> Labelled<R> {
    /// An operation without a label (own).
    pub fn new(request: R) -> Labelled<R>
        ensures { result ≡ bare request }
    {
        Labelled {
            request,
            label: None,
        }
    }

    /// The operation, at a place in the source. A name that it was given stays.
    pub fn at(self, location: Location) -> Labelled<R>
        ensures { result ≡ labels.placed location self }
    {
        Labelled {
            request: self.request,
            label: placed(self.label, location),
        }
    }

    /// The operation, with a name for what it makes, of which 24 bytes are kept. A place that it was given stays (own).
    pub fn named(self, name: &str) -> Labelled<R>
        ensures { result ≡ labels.named (first_text name.now) self }
    {
        Labelled {
            request: self.request,
            label: named(self.label, Text::first(name)),
        }
    }
}

impl<D, S> Labelled<Request<D, S>> {
    /// What the machine is asked for, without the label, and apart from it what a spawn starts.
    // Inlined: each case moves no more than it holds.
    #[inline(always)]
    pub fn split(self) -> (Request<D, ()>, Option<S>)
        ensures plain { result.0 ≡ plain self }
        ensures started { result.1 ≡ started self }
    {
        let request = match self.request {
            Request::Atomic(op) => Request::Atomic(op),
            Request::Fence(order) => Request::Fence(order),
            Request::Cell(op) => Request::Cell(op),
            Request::Arc(op) => Request::Arc(op),
            Request::Track(op) => Request::Track(op),
            Request::Mutex(op) => Request::Mutex(op),
            Request::RwLock(op) => Request::RwLock(op),
            Request::Condvar(op) => Request::Condvar(op),
            Request::Notify(op) => Request::Notify(op),
            Request::Channel(op) => Request::Channel(op),
            Request::Waker(op) => Request::Waker(op),
            Request::AtomicWaker(op) => Request::AtomicWaker(op),
            Request::Local(op) => Request::Local(op),
            Request::Lazy(op) => Request::Lazy(op),
            Request::Explore(op) => Request::Explore(op),
            Request::Fail => Request::Fail,
            Request::Unreachable => Request::Unreachable,
            Request::Thread(op) => {
                let (op, body) = op.split();
                return (Request::Thread(op), body);
            }
        };
        (request, None)
    }
}

impl AtomicOp {
    /// The number of the atomic that it is an operation of; a new one has none yet.
    pub fn atomic(self) -> Option<usize>
        ensures { result ≡ accessed self }
    {
        match self {
            AtomicOp::New(..) => None,
            AtomicOp::Load(number, _)
            | AtomicOp::Store(number, ..)
            | AtomicOp::Update(number, ..)
            | AtomicOp::CompareExchange(number, _)
            | AtomicOp::CompareAndSwap(number, ..)
            | AtomicOp::UnsyncLoad(number)
            | AtomicOp::IntoInner(number)
            | AtomicOp::WithMut(number)
            | AtomicOp::WithMutEnd(number, _) => Some(number),
        }
    }
}

impl<D, S> ThreadOp<D, S> {
    #[inline(always)]
    fn split(self) -> (ThreadOp<D, ()>, Option<S>)
        ensures plain { result.0 ≡ plain_thread self }
        ensures started { result.1 ≡ started_thread self }
    {
        match self {
            ThreadOp::Spawn(body, name) => (ThreadOp::Spawn((), name), Some(body)),
            ThreadOp::Join(thread, notifier) => (ThreadOp::Join(thread, notifier), None),
            ThreadOp::Current => (ThreadOp::Current, None),
            ThreadOp::Park => (ThreadOp::Park, None),
            ThreadOp::Unpark(thread) => (ThreadOp::Unpark(thread), None),
            ThreadOp::Yield => (ThreadOp::Yield, None),
            ThreadOp::Finish(value) => (ThreadOp::Finish(value), None),
            ThreadOp::Exit => (ThreadOp::Exit, None),
            ThreadOp::End => (ThreadOp::End, None),
        }
    }
}

/// A copy of the operation. It fails only where a growth is refused (own).
pub fn copy_request<D: Data>(op: &Request<D, ()>) -> Result<Request<D, ()>, AllocError>
    ensures { IfOk result (λ copy. copy ≡ op.now) }
{
    Ok(match op {
        Request::Atomic(op) => Request::Atomic(*op),
        Request::Fence(order) => Request::Fence(*order),
        Request::Cell(op) => Request::Cell(copy_cell(op)?),
        Request::Arc(op) => Request::Arc(copy_arc(op)?),
        Request::Track(op) => Request::Track(copy_track(op)?),
        Request::Mutex(op) => Request::Mutex(copy_mutex(op)?),
        Request::RwLock(op) => Request::RwLock(copy_rwlock(op)?),
        Request::Condvar(op) => Request::Condvar(copy_condvar(op)?),
        Request::Notify(op) => Request::Notify(*op),
        Request::Channel(op) => Request::Channel(copy_channel(op)?),
        Request::Waker(op) => Request::Waker(*op),
        Request::AtomicWaker(op) => Request::AtomicWaker(*op),
        Request::Local(op) => Request::Local(copy_local(op)?),
        Request::Lazy(op) => Request::Lazy(copy_lazy(op)?),
        Request::Explore(op) => Request::Explore(*op),
        Request::Thread(op) => Request::Thread(copy_thread(op)?),
        Request::Fail => Request::Fail,
        Request::Unreachable => Request::Unreachable,
    })
}

/// A copy of the reply. It fails only where a growth is refused (own).
pub fn copy_reply<D: Data>(alloc: Global, reply: &Reply<D>) -> Result<Reply<D>, AllocError>
    ensures { IfOk result (λ copy. copy ≡ reply.now) }
{
    match reply {
        Reply::Messages(messages) => Ok(Reply::Messages(copy_messages(alloc, messages)?)),
        Reply::Locals(locals) => Ok(Reply::Locals(copy_locals(alloc, locals)?)),
        Reply::Lazies(lazies) => Ok(Reply::Lazies(copy_lazies(alloc, lazies)?)),
        _ => copy_single(reply),
    }
}

/// A copy of the reply, where it holds no list.
fn copy_single<D: Data>(reply: &Reply<D>) -> Result<Reply<D>, AllocError>
    requires { holds_list reply.now ≡ false }
    ensures { IfOk result (λ copy. copy ≡ reply.now) }
{
    Ok(with_data!(reply, value => value.try_clone()?))
}

/// The operation, without its data and what a spawn starts.
pub fn bare_op<D, S>(op: &Op<D, S>) -> Op<(), ()>
    ensures { result ≡ bare_op op.now }
{
    Labelled {
        request: bare_request(&op.request),
        label: op.label,
    }
}

/// The request, without its data and what a spawn starts (own).
pub fn bare_request<D, S>(request: &Request<D, S>) -> Request<(), ()>
    ensures { result ≡ bare_request request.now }
{
    match request {
        Request::Atomic(op) => Request::Atomic(*op),
        Request::Fence(order) => Request::Fence(*order),
        Request::Cell(op) => Request::Cell(bare_cell(op)),
        Request::Arc(op) => Request::Arc(bare_arc(op)),
        Request::Track(op) => Request::Track(bare_track(op)),
        Request::Mutex(op) => Request::Mutex(bare_mutex(op)),
        Request::RwLock(op) => Request::RwLock(bare_rwlock(op)),
        Request::Condvar(op) => Request::Condvar(bare_condvar(op)),
        Request::Notify(op) => Request::Notify(*op),
        Request::Channel(op) => Request::Channel(bare_channel(op)),
        Request::Waker(op) => Request::Waker(*op),
        Request::AtomicWaker(op) => Request::AtomicWaker(*op),
        Request::Local(op) => Request::Local(bare_local(op)),
        Request::Lazy(op) => Request::Lazy(bare_lazy(op)),
        Request::Explore(op) => Request::Explore(*op),
        Request::Thread(op) => Request::Thread(bare_thread(op)),
        Request::Fail => Request::Fail,
        Request::Unreachable => Request::Unreachable,
    }
}

/// The reply, without its data. A list has as many `()`; an error only where memory for one is refused.
pub fn bare_reply<D>(alloc: Global, reply: &Reply<D>) -> Result<Reply<()>, AllocError>
    ensures { IfOk result (λ told. told ≡ bare_reply reply.now) }
{
    match reply {
        Reply::Messages(messages) => Ok(Reply::Messages(bare_messages(alloc, messages)?)),
        Reply::Locals(locals) => Ok(Reply::Locals(bare_locals(alloc, locals)?)),
        Reply::Lazies(lazies) => Ok(Reply::Lazies(bare_lazies(alloc, lazies)?)),
        _ => Ok(bare_single(reply)),
    }
}

/// The reply, without its data, where it holds no list.
fn bare_single<D>(reply: &Reply<D>) -> Reply<()>
    requires { holds_list reply.now ≡ false }
    ensures { result ≡ bare_reply reply.now }
{
    with_data!(reply, _value => ())
}
