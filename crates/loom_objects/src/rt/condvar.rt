//! Condition variables: who sleeps on them, and what the operations of `Condvar` do (loom's `rt/condvar.rs`).
ghost use Rattle.std.specs.Borrow.{sem};
ghost use Rattle.loom_objects.specs.Scene.Lends.{lends_in_scene, lends_kind};
ghost use Rattle.loom_objects.specs.Scene.Lookup.{now_of, shown_of};
ghost use Rattle.loom_objects.specs.Scene.Lookup as lookup;
ghost use Rattle.loom_objects.specs.contracts.rt.condvar.Condvar as condvar_row;
ghost use Rattle.std.specs.Prelude.{false, ◌≡◌, ◌++◌, ◌∷◌, [], nat_lt, length, true, IfOk, Ok, OnErr};
ghost use Rattle.loom_objects.specs.Rules.Condvar.{woken_by, left_by};
ghost use Rattle.loom_objects.specs.Rules.Moves.{resting, with_thread};
ghost use Rattle.loom_objects.specs.Rules.Condvar as rules;
ghost use Rattle.loom_objects.specs.Scene.Lookup.{mutex_at};
ghost use Rattle.loom_objects.specs.Scene.Stage.{Does, DoesIfOk};

use crate::operation::{CondvarOp, Reply};
use crate::rt::kept::Kept;
use crate::rt::mutex::set_free;
use crate::rt::object::{Object, of_kind};
use crate::rt::run::{Entry, Passed};
use crate::rt::scene::Scene;
use crate::rt::thread::{Locking, State, Task, Waking};
use arrayvec::ArrayVec;
use loom_views::rt::MAX_THREADS;
use loom_views::rt::failure::FailureKind;
use loom_views::same::are_same;
use std::alloc::{AllocError, Global};
use std::mem;

/// A condition variable (loom's `rt/condvar.rs`).
#[derive(Drop)]
pub struct Condvar {
    /// The threads that wait on it, the one that came first first.
    pub waiters: ArrayVec<u8, MAX_THREADS>,
}

impl Condvar {
    /// The thread waits on it, after all others. False where as many wait as there may be threads; then nothing changes.
    pub fn enter(&mut self, thread: u8) -> bool
        ensures result { result ≡ nat_lt (length self.old.waiters.items) 5 }
        ensures entered { result ≡ true → self.new ≡ record { waiters = record { items = self.old.waiters.items ++ thread ∷ [] } } }
        ensures same { result ≡ false → self.new ≡ self.old }
    {
        self.waiters.try_push(thread).is_ok()
    }

    /// The first waiter, or all of them, leave. Answers those, in order.
    pub fn leave(&mut self, waking: Waking) -> ArrayVec<u8, MAX_THREADS>
        ensures woken { result.items ≡ woken_by waking self.old.waiters.items }
        ensures left { self.new ≡ record { waiters = record { items = left_by waking self.old.waiters.items } } }
    {
        let mut woken = ArrayVec::new();
        match waking {
            Waking::One => {
                if let Some(first) = self.waiters.pop_at(0) {
                    woken.push(first);
                }
                woken
            }
            Waking::All => mem::replace(&mut self.waiters, woken),
        }
    }
}

impl<D> Object<D> {
    /// The condition variable that it is, to change. Misuse where it is none.
    fn as_condvar_mut(&mut self) -> Result<&mut Condvar, FailureKind>
        ensures* writes_back { sem 𝓛 (lends_kind D.row (condvar_row.the_row) Object.Condvar self.entry result) }
        ensures value { now_of result ≡ lookup.condvar_in self.old }
    {
        of_kind!(self, Condvar(condvar))
    }
}

impl<D: Drop> Scene<D> {
    /// The condition variable of this number, to read. Misuse where there is none.
    pub fn condvar(&self, number: usize) -> Result<&Condvar, FailureKind>
        ensures { shown_of result ≡ lookup.condvar_at number self.now.objects }
    {
        of_kind!(self.object(number)?, Condvar(condvar))
    }

    /// The condition variable of this number, to change. Misuse where there is none.
    #[tactic(auto, using(crate::proofs::Scene::Finding::object_kept))]
    pub fn condvar_mut(&mut self, number: usize) -> Result<&mut Condvar, FailureKind>
        ensures* writes_back { sem 𝓛 (lends_in_scene D.row (condvar_row.the_row) Object.Condvar self.entry number result) }
        ensures value { now_of result ≡ lookup.condvar_at number self.old.objects }
    {
        self.object_mut(number)?.as_condvar_mut()
    }
}

/// The active thread sleeps, and takes the mutex again once it is woken.
pub fn sleep<D: Drop>(scene: &mut Scene<D>, locking: Locking, mutex: usize)
    ensures { scene.new ≡ record scene.old { threads = with_thread (resting State.Sleeping (Task.Relock locking mutex)) scene.old.active scene.old.threads } }
{
    scene.rest(State::Sleeping, Task::Relock(locking, mutex));
}

/// What an operation on a condition variable does up to its branch point, or all of it. The outer error only where memory is
/// refused.
pub fn condvar_begins<D: Drop>(
    scene: &mut Scene<D>,
    op: CondvarOp<D>,
) -> Result<Result<Entry<D>, FailureKind>, AllocError>
    ensures does { IfOk result (λ answer. Does (rules.condvar_begins op) scene.old answer scene.new) }
    ensures growth { OnErr result (rules.needs_memory op ≡ true) }
{
    let begun = match op {
        CondvarOp::New => Ok(condvar_new(scene)?),
        CondvarOp::Wait(number, mutex, value) => {
            condvar_wait_begins(scene, Locking::Untimed, number, mutex, value)
        }
        CondvarOp::WaitTimeout(number, mutex, value) => {
            condvar_wait_begins(scene, Locking::Timed, number, mutex, value)
        }
        CondvarOp::NotifyOne(number) => wake_begins(scene, Waking::One, number),
        CondvarOp::NotifyAll(number) => wake_begins(scene, Waking::All, number),
    };
    Ok(begun)
}

fn condvar_new<D: Drop>(scene: &mut Scene<D>) -> Result<Entry<D>, AllocError>
    ensures { DoesIfOk rules.condvar_new scene.old result scene.new }
{
    let condvar = Condvar {
        waiters: ArrayVec::new(),
    };
    let number = scene.add(Object::Condvar(condvar))?;
    Ok(Entry::Answered(Reply::Condvar(number)))
}

/// A thread that holds the mutex reaches a branch point.
fn condvar_wait_begins<D: Drop>(
    scene: &mut Scene<D>,
    locking: Locking,
    number: usize,
    mutex: usize,
    value: D,
) -> Result<Entry<D>, FailureKind>
    ensures { Does (rules.wait_begins locking number mutex value) scene.old result scene.new }
{
    scene.condvar(number)?;
    let held = scene.mutex(mutex)?;
    if held.holder != Some(scene.active()) {
        return Err(FailureKind::Misuse);
    }
    scene.pend(Task::Wait(locking, number, mutex, value), false);
    Ok(Entry::AtBranch)
}

fn wake_begins<D: Drop>(
    scene: &mut Scene<D>,
    waking: Waking,
    number: usize,
) -> Result<Entry<D>, FailureKind>
    ensures { Does (rules.wake_begins waking number) scene.old result scene.new }
{
    scene.condvar(number)?;
    scene.pend(Task::Wake(waking, number), false);
    Ok(Entry::AtBranch)
}

/// The second stage: the active thread was woken, and waits for the mutex as one that locks it.
pub fn relock<D: Drop>(scene: &mut Scene<D>, locking: Locking, mutex: usize) -> Passed<D>
    ensures { Does (rules.relocks locking mutex) scene.old (Ok result) scene.new }
{
    let is_held = is_locked(scene, mutex);
    scene.pend(Task::Lock(locking, mutex), is_held);
    Passed::AtBranch
}

/// The first waiter, or all of them, leave the condition variable and are woken, in order.
pub fn wake<D: Drop>(
    scene: &mut Scene<D>,
    waking: Waking,
    number: usize,
) -> Result<Reply<D>, FailureKind>
    ensures { Does (rules.wakes waking number) scene.old result scene.new }
{
    let condvar = scene.condvar_mut(number)?;
    let woken = condvar.leave(waking);
    rouse_all(scene, woken.as_slice());
    Ok(Reply::Done)
}

/// Whether a thread holds the mutex of this number.
fn is_locked<D: Drop>(scene: &Scene<D>, number: usize) -> bool
    ensures { result ≡ rules.is_locked (mutex_at number scene.now.objects) }
{
    match scene.mutex(number) {
        Ok(mutex) => mutex.holder.is_some(),
        Err(_) => false,
    }
}

/// The thread takes in the active thread's view, and can go on.
fn rouse<D: Drop>(scene: &mut Scene<D>, thread: u8)
    ensures { Does (rules.rouse thread) scene.old (Ok tt) scene.new }
{
    scene.run_on(thread);
    scene.join_view(thread);
}

/// These threads, one after the other.
fn rouse_all<D: Drop>(scene: &mut Scene<D>, threads: &[u8])
    ensures { Does (rules.rouse_all threads.now) scene.old (Ok tt) scene.new }
{
    for i in 0..threads.len() {
        rouse(scene, threads[i]);
    }
}

/// The first stage of a wait: the active thread is the last waiter, gives the mutex free, and sleeps.
pub fn fall_asleep<D: Drop>(
    scene: &mut Scene<D>,
    locking: Locking,
    number: usize,
    mutex: usize,
    value: D,
) -> Result<Passed<D>, FailureKind>
    ensures { Does (rules.falls_asleep locking number mutex value) scene.old result scene.new }
{
    let active = scene.active();
    let condvar = scene.condvar_mut(number)?;
    if !condvar.enter(active) {
        return Err(FailureKind::Misuse);
    }
    set_free(scene, mutex, value)?;
    sleep(scene, locking, mutex);
    Ok(Passed::AtBranch)
}

impl Kept for Condvar {
    fn copied(&self, _alloc: Global) -> Result<Condvar, AllocError> {
        copied_condvar(self)
    }

    fn is_equal(&self, other: &Condvar) -> bool {
        are_same(self.waiters.as_slice(), other.waiters.as_slice())
    }
}

fn copied_condvar(condvar: &Condvar) -> Result<Condvar, AllocError>
    ensures { IfOk result (λ copy. copy ≡ condvar.now) }
{
    let mut copy = Condvar {
        waiters: ArrayVec::new(),
    };
    for waiter in condvar.waiters.as_slice() {
        if !copy.enter(*waiter) {
            return Err(AllocError);
        }
    }
    Ok(copy)
}
