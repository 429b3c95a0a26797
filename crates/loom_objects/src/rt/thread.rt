//! Threads: their states, and what each has pending (loom's `rt/thread.rs`).
pub mod life;
pub mod park;

ghost use Rattle.std.specs.Prelude.{◌≡◌, IfOk, IsTrue};
ghost use Rattle.loom_objects.specs.World.{main_thread};

use crate::data::Data;
pub use crate::operation::Name;
use crate::operation::{AtomicOp, Keyed, Message};
use crate::rt::kept::{
    Kept, are_data_equal, are_equal, are_messages_equal, copied_all, copied_data, copied_messages,
    copied_value,
};
pub use crate::rt::schedule::Ability;
use loom_views::is_kind;
use loom_views::same::Same;
use loom_views::sequence::Sequence;
use std::alloc::{AllocError, Global};
use std::collections::LinkedList;

/// Whether a thread may be chosen (loom's `rt/thread.rs`).
#[derive(Clone, Copy)]
pub enum State {
    Runnable,
    /// Its pending operation waits for an object.
    Blocked,
    /// It waits for a token.
    Parked,
    /// It waits for a notification of a condition variable.
    Sleeping,
    /// It has yielded, until another thread is chosen.
    Yielding,
    Ended,
}

/// How far a thread's end has come: `finish`, `exit` and `end` come once each, in this order.
#[derive(Clone, Copy)]
pub enum Phase {
    Working,
    Finished,
    Exited,
    Over,
}

/// What a thread does with a counted reference when it is chosen.
#[derive(Clone, Copy)]
pub enum Counting {
    /// It makes one reference more.
    Clone,
    /// It drops a reference.
    Drop,
    /// It takes the value out, if there is one reference alone.
    GetMut,
    /// It drops the one reference that there is, and has the value.
    Unwrap,
    /// It reads how many references there are.
    StrongCount,
}

/// Which call it was that takes a mutex.
#[derive(Clone, Copy)]
pub enum Locking {
    /// `lock`, or the end of a wait on a condition variable.
    Untimed,
    /// The end of a wait that has a time.
    Timed,
}

/// How a thread takes a read-write lock when it is chosen.
#[derive(Clone, Copy)]
pub enum Claim {
    Read,
    /// To read, without waiting.
    TryRead,
    Write,
    /// To write, without waiting.
    TryWrite,
}

/// How many of a condition variable's waiters a thread wakes when it is chosen.
#[derive(Clone, Copy)]
pub enum Waking {
    One,
    All,
}

/// How a thread takes a message out of a channel when it is chosen.
#[derive(Clone, Copy)]
pub enum Receiving {
    /// `recv`.
    Recv,
    /// `try_recv`.
    TryRecv,
}

/// What a thread does with a waker that it has taken out of its place.
#[derive(Clone, Copy)]
pub enum Taking {
    /// It has the waker.
    Answer,
    /// It wakes by it, and drops it.
    Wake,
}

/// What follows once a waker was dropped.
#[derive(Clone, Copy)]
pub enum AfterDrop {
    /// The thread is answered.
    Done,
    /// The thread yields.
    Yield,
    /// The place for a waker of this number is given free.
    Free(usize),
}

/// What follows once a waker has notified.
#[derive(Clone, Copy)]
pub enum AfterWake {
    /// The thread is answered.
    Done,
    /// The waker is dropped, and then this follows.
    Drop(AfterDrop),
}

/// What a thread does when it is chosen.
#[derive(Drop)]
pub enum Task<D> {
    /// It begins.
    Start,
    /// Its body goes on: it has no operation pending.
    Body,
    /// It makes this access to an atomic.
    Access(AtomicOp),
    /// It goes on: it has yielded or was parked.
    Continue,
    /// It takes the mutex of this number.
    Lock(Locking, usize),
    /// It takes the mutex of this number if nobody holds it.
    TryLock(usize),
    /// It takes the read-write lock of this number.
    Claim(Claim, usize),
    /// It waits on the condition variable of this number, and releases the mutex of that one with this data.
    Wait(Locking, usize, usize, D),
    /// It was woken by a condition variable, and is to take the mutex of this number again.
    Relock(Locking, usize),
    /// It wakes waiters of the condition variable of this number.
    Wake(Waking, usize),
    /// It notifies the notifier of this number.
    Notify(usize),
    /// It was notified by the notifier of this number.
    Await(usize),
    /// It has woken without a notification of the notifier of this number.
    Rouse(usize),
    /// It does this with the counted reference of this number.
    Count(Counting, usize),
    /// It is to find whether it has the one reference alone of this number.
    TryUnwrap(usize),
    /// It has the result of this thread, whose notifier has this number.
    Join(u8, usize),
    /// It notifies its notifier, and keeps its result.
    Finish(usize, D),
    /// It sends the one message of the list to the channel of this number.
    Send(usize, LinkedList<Message<D>>),
    /// It takes a message out of the channel of this number.
    Receive(Receiving, usize),
    /// It takes out what is left in the channel of this number, as its receiver is dropped; it has taken these so far.
    Drain(usize, LinkedList<D>),
    /// It notifies the notifier of the first number, by a waker of the count of the second one.
    WakeBy(usize, usize, AfterWake),
    /// It makes one waker more, of the count of this number; and then registers it at the place for a waker of that one, if any.
    CloneWaker(usize, Option<usize>),
    /// It drops a waker, of the count of this number.
    DropWaker(usize, AfterDrop),
    /// It registers at the place of the first number a waker of the count of the second one.
    Register(usize, usize),
    /// It takes the waker out of the place of this number.
    TakeWaker(Taking, usize),
}

/// A thread of a run.
#[derive(Drop)]
pub struct Thread<D> {
    /// Whether it may be chosen.
    pub state: State,
    /// How far its end has come.
    pub phase: Phase,
    /// What it does when it is chosen.
    pub task: Task<D>,
    /// The number of its notifier, for a thread that was spawned; main has none.
    pub notifier: Option<usize>,
    /// What it finished with, until that is taken out.
    pub result: Option<D>,
    /// Whether it has a token, by which it isn't parked.
    pub has_token: bool,
    /// Its name, if it was given one.
    pub name: Option<Name>,
    /// The keys that have or had a value of its own.
    pub keys: Sequence<usize>,
    /// Its own values, in the order made, until they are given back.
    pub locals: Sequence<Keyed<D>>,
}

impl<D> Thread<D> {
    /// Main, about to hand over its first operation.
    pub(crate) fn main(alloc: Global) -> Thread<D>
        ensures { result ≡ main_thread }
    {
        Thread {
            state: State::Runnable,
            phase: Phase::Working,
            task: Task::Body,
            notifier: None,
            result: None,
            has_token: false,
            name: None,
            keys: Sequence::new(alloc),
            locals: Sequence::new(alloc),
        }
    }
}

impl<D: Drop> Thread<D> {
    /// It is main, about to hand over its first operation. The room for its values stays.
    pub(crate) fn restart(&mut self)
        ensures { self.new ≡ main_thread }
    {
        self.state = State::Runnable;
        self.phase = Phase::Working;
        self.task = Task::Body;
        self.notifier = None;
        self.result = None;
        self.has_token = false;
        self.name = None;
        self.keys.clear();
        self.locals.clear();
    }
}

// Whether the task is of this kind, and what it is made of passes the test.
macro_rules! is_task {
    ($value:expr, $kind:ident($($part:ident),*) => $test:expr) => {
        is_kind!($value, Task::$kind($($part),*) => $test)
    };
}

impl<D: Data + Same> Kept for Thread<D> {
    fn copied(&self, alloc: Global) -> Result<Thread<D>, AllocError> {
        Ok(Thread {
            state: self.state,
            phase: self.phase,
            task: copied_task(alloc, &self.task)?,
            notifier: self.notifier,
            result: copied_value(&self.result)?,
            has_token: self.has_token,
            name: self.name,
            keys: copied_all(alloc, self.keys.as_slice())?,
            locals: copied_all(alloc, self.locals.as_slice())?,
        })
    }

    fn is_equal(&self, other: &Thread<D>) -> bool {
        is_state_equal(self.state, other.state)
            && is_phase_equal(self.phase, other.phase)
            && self.has_token == other.has_token
            && self.notifier.is_same(&other.notifier)
            && is_name_equal(&self.name, &other.name)
            && is_task_equal(&self.task, &other.task)
            && self.result.is_same(&other.result)
            && are_equal(self.keys.as_slice(), other.keys.as_slice())
            && are_equal(self.locals.as_slice(), other.locals.as_slice())
    }
}

fn is_name_equal(one: &Option<Name>, other: &Option<Name>) -> bool
    ensures { IsTrue result → one.now ≡ other.now }
{
    one == other
}

/// A copy of what a thread has pending. An error where memory is refused.
fn copied_task<D: Data + Same>(alloc: Global, task: &Task<D>) -> Result<Task<D>, AllocError>
    ensures { IfOk result (λ copy. copy ≡ task.now) }
{
    Ok(match task {
        Task::Start => Task::Start,
        Task::Body => Task::Body,
        Task::Access(access) => Task::Access(*access),
        Task::Continue => Task::Continue,
        Task::Lock(locking, number) => Task::Lock(*locking, *number),
        Task::TryLock(number) => Task::TryLock(*number),
        Task::Claim(claim, number) => Task::Claim(*claim, *number),
        Task::Wait(locking, condvar, mutex, data) => {
            Task::Wait(*locking, *condvar, *mutex, data.try_clone()?)
        }
        Task::Relock(locking, number) => Task::Relock(*locking, *number),
        Task::Wake(waking, number) => Task::Wake(*waking, *number),
        Task::Notify(number) => Task::Notify(*number),
        Task::Await(number) => Task::Await(*number),
        Task::Rouse(number) => Task::Rouse(*number),
        Task::Count(counting, number) => Task::Count(*counting, *number),
        Task::TryUnwrap(number) => Task::TryUnwrap(*number),
        Task::Join(thread, number) => Task::Join(*thread, *number),
        Task::Finish(number, result) => Task::Finish(*number, result.try_clone()?),
        Task::Send(number, sent) => Task::Send(*number, copied_messages(alloc, sent)?),
        Task::Receive(receiving, number) => Task::Receive(*receiving, *number),
        Task::Drain(number, taken) => Task::Drain(*number, copied_data(alloc, taken)?),
        Task::WakeBy(notifier, count, after) => Task::WakeBy(*notifier, *count, *after),
        Task::CloneWaker(count, place) => Task::CloneWaker(*count, *place),
        Task::DropWaker(count, after) => Task::DropWaker(*count, *after),
        Task::Register(place, count) => Task::Register(*place, *count),
        Task::TakeWaker(taking, place) => Task::TakeWaker(*taking, *place),
    })
}

/// Whether two threads have the same pending.
fn is_task_equal<D: Data + Same>(one: &Task<D>, other: &Task<D>) -> bool
    ensures { IsTrue result → one.now ≡ other.now }
{
    match one {
        Task::Start => matches!(other, Task::Start),
        Task::Body => matches!(other, Task::Body),
        Task::Access(a) => is_task!(other, Access(x) => is_access_equal(a, x)),
        Task::Continue => matches!(other, Task::Continue),
        Task::Lock(a, b) => is_task!(other, Lock(x, y) => is_locking_equal(*a, *x) && *b == *y),
        Task::TryLock(a) => is_task!(other, TryLock(x) => *a == *x),
        Task::Claim(a, b) => is_task!(other, Claim(x, y) => is_claim_equal(*a, *x) && *b == *y),
        Task::Wait(a, b, c, d) =>
            is_task!(other, Wait(x, y, z, w) => is_locking_equal(*a, *x) && *b == *y && *c == *z && d.is_same(w)),
        Task::Relock(a, b) => is_task!(other, Relock(x, y) => is_locking_equal(*a, *x) && *b == *y),
        Task::Wake(a, b) => is_task!(other, Wake(x, y) => is_waking_equal(*a, *x) && *b == *y),
        Task::Notify(a) => is_task!(other, Notify(x) => *a == *x),
        Task::Await(a) => is_task!(other, Await(x) => *a == *x),
        Task::Rouse(a) => is_task!(other, Rouse(x) => *a == *x),
        Task::Count(a, b) => is_task!(other, Count(x, y) => is_counting_equal(*a, *x) && *b == *y),
        Task::TryUnwrap(a) => is_task!(other, TryUnwrap(x) => *a == *x),
        Task::Join(a, b) => is_task!(other, Join(x, y) => *a == *x && *b == *y),
        Task::Finish(a, b) => is_task!(other, Finish(x, y) => *a == *x && b.is_same(y)),
        Task::Send(a, b) => is_task!(other, Send(x, y) => *a == *x && are_messages_equal(b, y)),
        Task::Receive(a, b) =>
            is_task!(other, Receive(x, y) => is_receiving_equal(*a, *x) && *b == *y),
        Task::Drain(a, b) => is_task!(other, Drain(x, y) => *a == *x && are_data_equal(b, y)),
        Task::WakeBy(a, b, c) =>
            is_task!(other, WakeBy(x, y, z) => *a == *x && *b == *y && is_after_wake_equal(*c, *z)),
        Task::CloneWaker(a, b) => is_task!(other, CloneWaker(x, y) => *a == *x && b.is_same(y)),
        Task::DropWaker(a, b) =>
            is_task!(other, DropWaker(x, y) => *a == *x && is_after_drop_equal(*b, *y)),
        Task::Register(a, b) => is_task!(other, Register(x, y) => *a == *x && *b == *y),
        Task::TakeWaker(a, b) =>
            is_task!(other, TakeWaker(x, y) => is_taking_equal(*a, *x) && *b == *y),
    }
}

fn is_access_equal(one: &AtomicOp, other: &AtomicOp) -> bool
    ensures { IsTrue result → one.now ≡ other.now }
{
    one == other
}

fn is_state_equal(one: State, other: State) -> bool
    ensures { IsTrue result → one ≡ other }
{
    match one {
        State::Runnable => matches!(other, State::Runnable),
        State::Blocked => matches!(other, State::Blocked),
        State::Parked => matches!(other, State::Parked),
        State::Sleeping => matches!(other, State::Sleeping),
        State::Yielding => matches!(other, State::Yielding),
        State::Ended => matches!(other, State::Ended),
    }
}

fn is_phase_equal(one: Phase, other: Phase) -> bool
    ensures { IsTrue result → one ≡ other }
{
    match one {
        Phase::Working => matches!(other, Phase::Working),
        Phase::Finished => matches!(other, Phase::Finished),
        Phase::Exited => matches!(other, Phase::Exited),
        Phase::Over => matches!(other, Phase::Over),
    }
}

fn is_counting_equal(one: Counting, other: Counting) -> bool
    ensures { IsTrue result → one ≡ other }
{
    match one {
        Counting::Clone => matches!(other, Counting::Clone),
        Counting::Drop => matches!(other, Counting::Drop),
        Counting::GetMut => matches!(other, Counting::GetMut),
        Counting::Unwrap => matches!(other, Counting::Unwrap),
        Counting::StrongCount => matches!(other, Counting::StrongCount),
    }
}

fn is_locking_equal(one: Locking, other: Locking) -> bool
    ensures { IsTrue result → one ≡ other }
{
    match one {
        Locking::Untimed => matches!(other, Locking::Untimed),
        Locking::Timed => matches!(other, Locking::Timed),
    }
}

fn is_claim_equal(one: Claim, other: Claim) -> bool
    ensures { IsTrue result → one ≡ other }
{
    match one {
        Claim::Read => matches!(other, Claim::Read),
        Claim::TryRead => matches!(other, Claim::TryRead),
        Claim::Write => matches!(other, Claim::Write),
        Claim::TryWrite => matches!(other, Claim::TryWrite),
    }
}

fn is_waking_equal(one: Waking, other: Waking) -> bool
    ensures { IsTrue result → one ≡ other }
{
    match one {
        Waking::One => matches!(other, Waking::One),
        Waking::All => matches!(other, Waking::All),
    }
}

fn is_receiving_equal(one: Receiving, other: Receiving) -> bool
    ensures { IsTrue result → one ≡ other }
{
    match one {
        Receiving::Recv => matches!(other, Receiving::Recv),
        Receiving::TryRecv => matches!(other, Receiving::TryRecv),
    }
}

fn is_taking_equal(one: Taking, other: Taking) -> bool
    ensures { IsTrue result → one ≡ other }
{
    match one {
        Taking::Answer => matches!(other, Taking::Answer),
        Taking::Wake => matches!(other, Taking::Wake),
    }
}

fn is_after_drop_equal(one: AfterDrop, other: AfterDrop) -> bool
    ensures { IsTrue result → one ≡ other }
{
    match one {
        AfterDrop::Done => matches!(other, AfterDrop::Done),
        AfterDrop::Yield => matches!(other, AfterDrop::Yield),
        AfterDrop::Free(a) => is_kind!(other, AfterDrop::Free(x) => a == x),
    }
}

fn is_after_wake_equal(one: AfterWake, other: AfterWake) -> bool
    ensures { IsTrue result → one ≡ other }
{
    match one {
        AfterWake::Done => matches!(other, AfterWake::Done),
        AfterWake::Drop(a) => { is_kind!(other, AfterWake::Drop(x) => is_after_drop_equal(a, x)) }
    }
}
