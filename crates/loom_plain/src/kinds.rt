//! The kinds of objects, the steps of threads, and which function is behind each operation and each step: all that a kind has
//! outside of its own file.
use crate::atomics::Update;
use crate::channels::Receiving;
use crate::counts::Counting;
use crate::halt::NextReply;
use crate::locks::Claim;
use crate::machine::Machine;
use crate::state::Object;
use crate::wakers::AfterDrop;
use loom_objects::operation::{Reply, Request};
use loom_views::rt::failure::FailureKind;
use std::sync::atomic::Ordering;

/// What an object is.
#[derive(Clone, Copy, PartialEq, Eq)]
pub enum Kind {
    Atomic,
    Cell,
    Arc,
    Track,
    Mutex,
    RwLock,
    Condvar,
    Notify,
    /// A notifier on which a thread's join alone waits.
    End,
    Channel,
    /// The wakers of a future, counted.
    Waker,
    /// A place for a waker, with its lock.
    AtomicWaker,
    /// In place of an object that isn't there.
    Nothing,
}

/// What a thread does when it is chosen.
#[derive(Clone, Copy)]
pub enum Step {
    Nothing,
    /// It begins.
    Start,
    /// It goes on, and the reply says no more.
    Continue,
    /// It loads from an atomic, and may store.
    Update(Update),
    /// It stores a value to an atomic.
    Store(u64, Ordering),
    Count(Counting),
    Claim(Claim),
    /// It falls asleep on the condition variable and releases this mutex, with this value. How it takes that again.
    Sleep(usize, u64, Claim),
    /// It was woken, and is to take the mutex again.
    Awake(Claim),
    /// It wakes so many threads that wait on the condition variable, as far as there are any.
    WakeUp(u8),
    /// It notifies the notifier, which may be its own.
    Notify,
    /// It has waited on the notifier, which may be that of a future with these wakers. Whether it wakes by a notification.
    Await(Option<usize>, bool),
    /// The thread that it joins, whose notifier it is on.
    Join(u8),
    Send(u64),
    Receive(Receiving),
    /// It notifies the notifier by the waker, which it may drop then.
    Wake(usize, Option<AfterDrop>),
    /// It makes a waker more, which may be for this place.
    CloneWaker(Option<usize>),
    DropWaker(AfterDrop),
    /// The waker that the place is to take.
    Register(usize),
    /// Whether it wakes by the waker that it takes out.
    TakeWaker(bool),
}

impl Object {
    /// What is left of it that has to be given back.
    pub fn leak(&self) -> Option<FailureKind> {
        match self.kind {
            Kind::Arc | Kind::Waker if self.is_whole => Some(FailureKind::LeakArc),
            Kind::Track if self.is_whole => Some(FailureKind::LeakTrack),
            Kind::Channel if !self.messages.is_empty() => Some(FailureKind::LeakMessages),
            Kind::Arc | Kind::Waker | Kind::Track | Kind::Channel => None,
            Kind::Atomic
            | Kind::Cell
            | Kind::Mutex
            | Kind::RwLock
            | Kind::Condvar
            | Kind::Notify
            | Kind::End
            | Kind::AtomicWaker
            | Kind::Nothing => None,
        }
    }
}

impl Machine {
    /// The active thread hands the operation over. There is no reply where it is at a branch point then.
    pub fn begins(&mut self, request: Request<u64, ()>) -> NextReply {
        match request {
            Request::Atomic(op) => self.atomic_begins(op),
            Request::Fence(order) => self.fence(order),
            Request::Cell(op) => self.cell_begins(op),
            Request::Arc(op) => self.arc_begins(op),
            Request::Track(op) => self.track_begins(op),
            Request::Mutex(op) => self.mutex_begins(op),
            Request::RwLock(op) => self.rwlock_begins(op),
            Request::Condvar(op) => self.condvar_begins(op),
            Request::Notify(op) => self.notify_begins(op),
            Request::Channel(op) => self.channel_begins(op),
            Request::Waker(op) => self.waker_begins(op),
            Request::AtomicWaker(op) => self.atomic_waker_begins(op),
            Request::Local(op) => self.local_begins(op),
            Request::Lazy(op) => self.lazy_begins(op),
            Request::Explore(op) => self.switches(op),
            Request::Thread(op) => self.thread_begins(op),
            Request::Fail => {
                self.check(false, FailureKind::Assertion);
                None
            }
            Request::Unreachable => {
                self.check(false, FailureKind::Unreachable);
                None
            }
        }
    }

    /// What the chosen thread has pending takes effect. There is no reply where it is at another branch point.
    pub fn takes_effect(&mut self) -> NextReply {
        let me = self.me();
        let (number, step) = (me.pending.number, me.pending.step);
        me.pending.action = None;
        me.pending.step = Step::Nothing;
        match step {
            Step::Nothing => {
                self.expect(false);
                None
            }
            Step::Start => Some(Reply::Start),
            Step::Continue => Some(Reply::Done),
            Step::Update(update) => self.updates(number, update),
            Step::Store(value, order) => self.stores(number, value, order),
            Step::Count(counting) => self.counts(number, counting),
            Step::Claim(claim) => self.claims(number, claim),
            Step::Sleep(mutex, value, claim) => self.sleeps(number, mutex, value, claim),
            Step::Awake(claim) => self.awakes(number, claim),
            Step::WakeUp(most) => self.wakes_up(number, most),
            Step::Notify => {
                self.notifies(number);
                Some(Reply::Done)
            }
            Step::Await(future, is_notified) => self.awaits(number, future, is_notified),
            Step::Join(thread) => self.joins(number, thread),
            Step::Send(value) => self.sends(number, value),
            Step::Receive(receiving) => self.receives(number, receiving),
            Step::Wake(waker, after) => self.wakes_by(number, waker, after),
            Step::CloneWaker(place) => self.clones_waker(number, place),
            Step::DropWaker(after) => self.drops_waker(number, after),
            Step::Register(waker) => self.registers(number, waker),
            Step::TakeWaker(wakes) => self.takes_waker(number, wakes),
        }
    }
}
