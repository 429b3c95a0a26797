//! What threads and objects are.
use crate::dependence::Action;
use crate::kinds::{Kind, Step};
use loom_objects::operation::Name;
use loom_views::rt::MAX_THREADS;
use loom_views::rt::num::Numbers;
use std::alloc::Global;
use std::collections::LinkedList;

/// What a thread waits for.
#[derive(Clone, Copy)]
pub enum State {
    Runnable,
    Blocked,
    Parked,
    Sleeping,
    Yielding,
    Ended,
}

/// How near a thread is to its end.
#[derive(Clone, Copy, PartialEq, Eq)]
pub enum Phase {
    Working,
    Finished,
    Exited,
    Over,
}

/// What a thread does when it is chosen, and to which object.
#[derive(Clone, Copy)]
pub struct Pending {
    /// The object's number, if there is one.
    pub number: usize,
    /// What it does to the object, as far as others depend on it.
    pub action: Option<Action>,
    /// What it does then.
    pub step: Step,
}

/// A thread's own value.
#[derive(Clone, Copy)]
pub struct Local {
    /// The key under which it is found.
    pub key: usize,
    /// Nothing once it was given back.
    pub value: Option<u64>,
}

/// A thread of the run.
#[derive(Drop)]
pub struct Thread {
    /// What it waits for.
    pub state: State,
    /// How near it is to its end.
    pub phase: Phase,
    /// What it does when it is chosen.
    pub pending: Pending,
    /// The point that it is at.
    pub present: usize,
    /// The point that its last release fence left.
    pub released: usize,
    /// The last point that raised it, or 0.
    pub raised: usize,
    /// How many points have raised it.
    pub versions: usize,
    /// At its last yield, the last point that had raised it, or 0.
    pub yielded: Option<usize>,
    /// How often it has yielded.
    pub yields: u64,
    /// Whether it was unparked while it wasn't parked, and hasn't parked since.
    pub has_token: bool,
    /// What main finished with, or what a thread will hand to who joins it.
    pub value: Option<u64>,
    /// Its own notifier; main has none.
    pub notifier: Option<usize>,
    /// Whether a thread joins it, or has joined it.
    pub is_joined: bool,
    /// Its name, if it was given one.
    pub name: Option<Name>,
    /// In the order made.
    pub locals: Vec<Local>,
    /// The messages that it has taken of a receiver that it drops.
    pub taken: LinkedList<u64>,
    /// How many accesses it has made.
    pub accesses: usize,
    /// The point of its last access, among those of accesses. Main begins with a point of its own, a thread with its parent's.
    pub last: usize,
}

/// One store of an atomic.
#[derive(Clone, Copy)]
pub struct Store {
    /// Its place among all stores of the atomic; the initial one has 0.
    pub number: usize,
    /// The number that was stored.
    pub value: u64,
    /// The point of its place in the modification order.
    pub order: usize,
    /// The point that is acquired with it.
    pub sync: usize,
    /// Whether it is sequentially consistent.
    pub is_seq_cst: bool,
    /// Of each thread that has touched it: the last point that had raised the thread at its first touch, or 0.
    pub touches: [Option<usize>; MAX_THREADS],
}

/// What kind of access to an atomic or a cell was made.
#[derive(Clone, Copy)]
pub enum Access {
    /// Also a read of a cell.
    Load,
    Store,
    UnsyncLoad,
    /// Also a write of a cell.
    Mutation,
}

/// An access, and the point that its thread was at.
#[derive(Clone, Copy)]
pub struct Accessed {
    /// What kind of access it is.
    pub access: Access,
    /// The point that its thread was at.
    pub point: usize,
}

/// A message, and the point that is acquired with it.
#[derive(Clone, Copy)]
pub struct Message {
    /// What was sent.
    pub value: u64,
    /// The point that is acquired with it.
    pub point: usize,
}

/// An object. What another kind has doesn't count.
#[derive(Drop)]
pub struct Object {
    /// What it is.
    pub kind: Kind,
    /// Whether it may be used.
    pub is_whole: bool,
    /// What a cell, a counted reference, a tracked value or a lock holds.
    pub value: Option<u64>,
    /// The thread that has it alone: that has a mutation or a write open, holds a lock, or is inside a wait on a notifier.
    pub holder: Option<u8>,
    /// The thread that has the value out without holding.
    pub lent: Option<u8>,
    /// How many reads of a cell or a lock each thread has open.
    pub readers: [u64; MAX_THREADS],
    /// How many references, senders or wakers there are.
    pub count: u64,
    /// The point that is acquired with it.
    pub point: usize,
    /// What an atomic holds.
    pub numbers: Numbers,
    /// All accesses to an atomic or a cell.
    pub accesses: Vec<Accessed>,
    /// All stores ever made to an atomic, the initial one first.
    pub stores: Vec<Store>,
    /// The threads that wait on a condition variable, the first one first.
    pub waiters: LinkedList<u8>,
    /// Whether the notifier has a notification that no thread has taken.
    pub is_notified: bool,
    /// Whether a thread has woken from the notifier without a notification.
    pub has_woken: bool,
    /// Whether the channel's receiver is left.
    pub has_receiver: bool,
    /// The message that was sent first first.
    pub messages: LinkedList<Message>,
    /// The notifier of wakers.
    pub notifier: usize,
    /// The waker in an atomic waker.
    pub waker: Option<usize>,
}

impl Thread {
    /// A thread in this state, which begins at this point, by which it was raised, unless that is 0.
    pub fn new(alloc: Global, state: State, begins: usize) -> Thread {
        Thread {
            state,
            phase: Phase::Working,
            pending: Pending {
                number: 0,
                action: None,
                step: Step::Start,
            },
            present: begins,
            released: 0,
            raised: begins,
            versions: 0,
            yielded: None,
            yields: 0,
            has_token: false,
            value: None,
            notifier: None,
            is_joined: false,
            name: None,
            locals: Vec::new(alloc),
            taken: LinkedList::new(alloc),
            accesses: 0,
            last: 0,
        }
    }
}

impl Object {
    /// An object that nobody has used.
    pub fn new(alloc: Global, kind: Kind, value: Option<u64>) -> Object {
        Object {
            kind,
            is_whole: true,
            value,
            holder: None,
            lent: None,
            readers: [0; MAX_THREADS],
            count: 1,
            point: 0,
            numbers: Numbers::Bool,
            accesses: Vec::new(alloc),
            stores: Vec::new(alloc),
            waiters: LinkedList::new(alloc),
            is_notified: false,
            has_woken: false,
            has_receiver: true,
            messages: LinkedList::new(alloc),
            notifier: 0,
            waker: None,
        }
    }
}
