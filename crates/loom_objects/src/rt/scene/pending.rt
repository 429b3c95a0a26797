//! Which threads are blocked and woken, by what they have pending.
ghost use Rattle.std.specs.Prelude.{◌≡◌, map};
ghost use Rattle.loom_objects.specs.Scene.Stage.{Does};
ghost use Rattle.loom_objects.specs.Rules.Moves as moves;
ghost use Rattle.loom_objects.specs.Rules.Moves.{pending_with, target as target_of, is_number, received_from, receiving_with, written, writing_with};

use crate::rt::scene::Scene;
use crate::rt::thread::{Claim, Phase, State, Task, Thread};
use loom_views::rt::failure::FailureKind;
use loom_views::sequence::Sequence;

/// Whether the thread is pending on the object of this number.
fn is_pending_on<D>(task: &Task<D>, number: usize) -> bool
    ensures { result ≡ is_number (target_of task.now) number }
{
    match task.used() {
        Some(used) => used.object == number,
        None => false,
    }
}

/// The thread gets the state if it is pending on the object.
fn give_state<D>(thread: &mut Thread<D>, number: usize, state: State)
    ensures { thread.new ≡ pending_with number state thread.old }
{
    if is_pending_on(&thread.task, number) {
        thread.state = state;
    }
}

/// Each thread that is pending on the object gets the state.
fn give_pending<D>(threads: &mut Sequence<Thread<D>>, number: usize, state: State)
    ensures { threads.new ≡ map (pending_with number state) threads.old }
{
    for i in 0..threads.len() {
        give_state(threads.at_mut(i), number, state);
    }
}

/// Whether the thread is about to take the read-write lock of this number for writing.
fn is_writing<D>(task: &Task<D>, number: usize) -> bool
    ensures { result ≡ is_number (written task.now) number }
{
    match task {
        Task::Claim(Claim::Write | Claim::TryWrite, target) => *target == number,
        _ => false,
    }
}

/// Whether the thread is about to receive from the channel of this number.
fn is_receiving<D>(task: &Task<D>, number: usize) -> bool
    ensures { result ≡ is_number (received_from task.now) number }
{
    match task {
        Task::Receive(_, target) | Task::Drain(target, _) => *target == number,
        _ => false,
    }
}

/// The thread can't go on if it is about to receive from the channel.
fn block_receiver<D>(thread: &mut Thread<D>, number: usize)
    ensures { thread.new ≡ receiving_with number State.Blocked thread.old }
{
    if is_receiving(&thread.task, number) {
        thread.state = State::Blocked;
    }
}

/// Each thread that is about to receive from the channel can't go on.
fn block_receiving<D>(threads: &mut Sequence<Thread<D>>, number: usize)
    ensures { threads.new ≡ map (receiving_with number State.Blocked) threads.old }
{
    for i in 0..threads.len() {
        block_receiver(threads.at_mut(i), number);
    }
}

/// The thread can't go on if it is about to write the lock.
fn block_writer<D>(thread: &mut Thread<D>, number: usize)
    ensures { thread.new ≡ writing_with number State.Blocked thread.old }
{
    if is_writing(&thread.task, number) {
        thread.state = State::Blocked;
    }
}

/// Each thread that is about to write the lock can't go on.
fn block_writing<D>(threads: &mut Sequence<Thread<D>>, number: usize)
    ensures { threads.new ≡ map (writing_with number State.Blocked) threads.old }
{
    for i in 0..threads.len() {
        block_writer(threads.at_mut(i), number);
    }
}

/// The thread can go on if it is parked, and has a token unless it has ended.
fn give_token<D>(thread: &mut Thread<D>)
    ensures { thread.new ≡ moves.unparked thread.old }
{
    match thread.state {
        State::Parked => thread.state = State::Runnable,
        State::Ended => {}
        State::Runnable | State::Blocked | State::Sleeping | State::Yielding => {
            thread.has_token = true;
        }
    }
}

impl<D: Drop> Scene<D> {
    /// The active thread rests in this state, and then has this pending.
    pub fn rest(&mut self, state: State, task: Task<D>)
        ensures { self.new ≡ record self.old { threads = moves.with_thread (moves.resting state task) self.old.active self.old.threads } }
    {
        let thread = self.threads.at_mut(self.active as usize);
        thread.state = state;
        thread.task = task;
    }

    /// The active thread is in the yield state and has this pending. `TooManySteps` where it has yielded 2^64 - 1 times.
    pub fn yield_by(&mut self, task: Task<D>) -> Result<(), FailureKind>
        ensures { Does (moves.yields task) self.old result self.new }
    {
        let active = self.active as usize;
        let thread = self.threads.at_mut(active);
        thread.state = State::Yielding;
        thread.task = task;
        if self.yields[active] == u64::MAX {
            return Err(FailureKind::TooManySteps);
        }
        self.yields[active] += 1;
        self.views.mark_yield(active);
        Ok(())
    }

    /// The end of the active thread has come so far.
    pub fn set_phase(&mut self, phase: Phase)
        ensures { self.new ≡ record self.old { threads = moves.with_thread (moves.at_phase phase) self.old.active self.old.threads } }
    {
        self.threads.at_mut(self.active as usize).phase = phase;
    }

    /// The active thread is in this state.
    pub fn set_state(&mut self, state: State)
        ensures { self.new ≡ record self.old { threads = moves.with_thread (moves.in_state state) self.old.active self.old.threads } }
    {
        self.threads.at_mut(self.active as usize).state = state;
    }

    /// The active thread has this result.
    pub fn set_result(&mut self, value: D)
        ensures { self.new ≡ record self.old { threads = moves.with_thread (moves.having value) self.old.active self.old.threads } }
    {
        self.threads.at_mut(self.active as usize).result = Some(value);
    }

    /// The active thread has a token, or none.
    pub fn set_token(&mut self, has_token: bool)
        ensures { self.new ≡ record self.old { threads = moves.with_thread (moves.with_token has_token) self.old.active self.old.threads } }
    {
        self.threads.at_mut(self.active as usize).has_token = has_token;
    }

    /// The thread of this number can go on if it is parked, and has a token unless it has ended. Misuse where there is none.
    pub fn unpark(&mut self, thread: u8) -> Result<(), FailureKind>
        ensures { Does (moves.unparks thread) self.old result self.new }
    {
        if thread as usize >= self.threads.len() {
            return Err(FailureKind::Misuse);
        }
        give_token(self.threads.at_mut(thread as usize));
        Ok(())
    }

    /// The result of the thread of this number. Misuse where there is none; then nothing changes.
    pub fn take_result(&mut self, thread: u8) -> Result<D, FailureKind>
        ensures { Does (moves.takes_result thread) self.old result self.new }
    {
        if thread as usize >= self.threads.len() {
            return Err(FailureKind::Misuse);
        }
        let thread = self.threads.at_mut(thread as usize);
        thread.result.take().ok_or(FailureKind::Misuse)
    }

    /// The thread of this number, if there is one, can go on.
    pub fn run_on(&mut self, thread: u8)
        ensures { self.new ≡ record self.old { threads = moves.with_thread moves.running thread self.old.threads } }
    {
        if (thread as usize) < self.threads.len() {
            self.threads.at_mut(thread as usize).state = State::Runnable;
        }
    }

    /// Who is pending to write the lock can't go on.
    pub fn block_writers(&mut self, number: usize)
        ensures { self.new ≡ record self.old { threads = map (moves.writing_with number State.Blocked) self.old.threads } }
    {
        block_writing(&mut self.threads, number);
    }

    /// Who is pending to receive from the channel can't go on.
    pub fn block_receivers(&mut self, number: usize)
        ensures { self.new ≡ record self.old { threads = map (moves.receiving_with number State.Blocked) self.old.threads } }
    {
        block_receiving(&mut self.threads, number);
    }

    /// Who is pending on the object can't go on.
    pub fn block_pending(&mut self, number: usize)
        ensures { self.new ≡ record self.old { threads = map (moves.pending_with number State.Blocked) self.old.threads } }
    {
        give_pending(&mut self.threads, number, State::Blocked);
    }

    /// Who is pending on the object can go on.
    pub fn wake_pending(&mut self, number: usize)
        ensures { self.new ≡ record self.old { threads = map (moves.pending_with number State.Runnable) self.old.threads } }
    {
        give_pending(&mut self.threads, number, State::Runnable);
    }
}
