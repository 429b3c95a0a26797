//! What the threads do that main starts, all by one type of job: each type is checked, and built, with all of the runner once more.
use crate::closures::finding::Counter;
use crate::closures::forms::{self, Signals, Timed};
use crate::closures::forms_in_children::{self, Change, Form};
use crate::closures::forms_of_values::{self, Gate};
use crate::closures::{changes, turns};
use loom::runner::{Handle, Job, Pool, Stop};
use loom::sync::Mutex;
use loom::sync::atomic::{AtomicU64, AtomicUsize};
use loom::thread::JoinHandle;
use std::sync::{Arc, Wait};
use std::thread::Threads;

/// What a thread does.
#[derive(Clone, Copy)]
pub(super) enum Task {
    /// Counts that it has started.
    Start,
    /// Locks one mutex and then the other, and counts where a call after a stop was answered by a stop.
    LockBoth(Mutex, Mutex),
    /// Locks the mutex, and releases it.
    PassThrough(Mutex),
    /// Waits for 1, stores 2, and waits for 3.
    Pong(AtomicUsize),
    /// Counts that it has started, and adds 1.
    Add(AtomicU64),
    /// Counts that it has started, and adds 2.
    AddTwo(AtomicU64),
    /// Updates the number.
    Update(AtomicU64),
    /// Gives each signal.
    Signal(Signals),
    /// Changes the data that another thread waits for with a time.
    Change(Timed),
    /// Has values that are named by keys.
    Values,
    /// Opens the gate.
    Open(Gate),
    /// What a form does.
    Form(Form),
    /// Waits for the change.
    AwaitChange(Change),
    /// Makes the change.
    MakeChange(Change),
}

/// A thread that main starts.
#[derive(Drop)]
pub(super) struct Child {
    task: Task,
    counter: Counter,
}

impl<R: Wait> Job<u64, R> for Child {
    fn run(self, handle: &mut Handle<u64, R>) -> Result<u64, Stop> {
        let counter = &self.counter;
        match self.task {
            Task::Start => Ok(turns::count_start(counter)),
            Task::LockBoth(outer, inner) => turns::lock_to_stop(handle, &outer, &inner, counter),
            Task::PassThrough(mutex) => turns::pass_through(handle, &mutex),
            Task::Pong(ball) => turns::pong(handle, &ball, counter),
            Task::Add(number) => turns::add_one(handle, &number, counter),
            Task::AddTwo(number) => changes::add_two(handle, &number, counter),
            Task::Update(number) => forms::update_once(handle, &number),
            Task::Signal(signals) => forms::give_signals(handle, &signals),
            Task::Change(timed) => forms::change_in_time(handle, &timed),
            Task::Values => forms_of_values::use_values(handle, 5),
            Task::Open(gate) => forms_of_values::open_gate(handle, &gate),
            Task::Form(form) => form.play(handle),
            Task::AwaitChange(change) => forms_in_children::await_change(handle, &change),
            Task::MakeChange(change) => forms_in_children::make_change(handle, &change),
        }
    }
}

/// Starts a thread of the pool, which counts together with the others.
pub(super) fn start_on<R: Threads + Wait + Clone + Send + 'static>(
    pool: &mut Pool<u64, Child>,
    handle: &mut Handle<u64, R>,
    task: Task,
    counter: &Counter,
) -> Result<JoinHandle, Stop> {
    let counter = handle.allocated(Arc::try_clone(counter))?;
    handle.spawn_on(pool, Child { task, counter })
}

/// Starts a thread, which counts together with the others.
pub(super) fn start<R: Threads + Wait + Clone + Send + 'static>(
    handle: &mut Handle<u64, R>,
    task: Task,
    counter: &Counter,
) -> Result<JoinHandle, Stop> {
    let counter = handle.allocated(Arc::try_clone(counter))?;
    handle.spawn_job(Child { task, counter })
}
