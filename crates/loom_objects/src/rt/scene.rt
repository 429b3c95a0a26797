//! The scene of a run: its threads, its objects and their views, found by number.
pub mod offers;
pub mod pending;
pub mod uses;
pub mod values;
pub mod views;

ghost use Rattle.std.specs.Prelude.{ℕ, ◌≡◌, ◌++◌, ◌∷◌, [], ◌<◌, ◌≤◌, Some, IfOk, OnOk, length, map, slice_get, option_map};
ghost use Rattle.std.specs.Borrow.{sem};
ghost use Rattle.loom_objects.specs.Scene.Lookup.{now_of, shown_of};
ghost use Rattle.loom_objects.specs.Scene.Lookup as lookup;
ghost use Rattle.loom_objects.specs.Rules.Moves as moves;
ghost use Rattle.loom_objects.specs.Schedule.Offers.{runs_again};
ghost use Rattle.loom_objects.specs.Schedule.Offers as schedule;
ghost use Rattle.loom_objects.specs.Scene.Stage.{world_of, Does};
ghost use Rattle.loom_objects.specs.Scene.Lends.{lends_in_scene};
ghost use Rattle.loom_objects.specs.World.{MAX_THREADS, main_thread, opening};
ghost use Rattle.loom_objects.specs.contracts.rt.object.Object as object_row;
ghost use Rattle.loom_views.specs.Views.{Points, ShowsViews, opening as first_points};

use crate::data::Data;
use crate::operation::{Lazy, Reply, Turn};
use crate::rt::kept::{copied_all, copy_all};
use crate::rt::object::Object;
use crate::rt::run::{Passed, Resumed};
use crate::rt::schedule::{Yields, no_yields};
use crate::rt::thread::{State, Task, Thread};
use loom_views::rt::failure::FailureKind;
use loom_views::rt::views::Views;
use loom_views::same::Same;
use loom_views::sequence::Sequence;
use std::alloc::{AllocError, Global};
use std::marker::Model;
use std::mem;

/// The threads, the objects and the views of a run, and whose turn it is. Each effect works on a scene.
#[derive(Drop)]
pub struct Scene<D> {
    // main first, in order of creation
    pub(crate) threads: Sequence<Thread<D>>,
    // in order of creation
    pub(crate) objects: Sequence<Object<D>>,
    // of the threads, and of each object by its number
    pub(crate) views: Views,
    // that were made once, in the order made
    pub(crate) lazies: Sequence<Lazy<D>>,
    // the thread whose turn it is
    pub(crate) active: u8,
    // how often each thread has yielded
    pub(crate) yields: Yields,
    // those that have ended counted
    pub(crate) max_threads: usize,
    // what lists are made by
    pub(crate) alloc: Global,
}

impl<D> Model for Scene<D> {
    ghost use Rattle.std.specs.Prelude.{◌<◌, ◌≤◌, length};
    ghost use Rattle.loom_objects.specs.Scene.Stage.{Stage};
    ghost use Rattle.loom_objects.specs.World.{MAX_THREADS};

    ghost Value = { Stage D };

    ghost view = { λ s. record { threads = s.threads; objects = s.objects; views = s.views; lazies = s.lazies; active = s.active; yields = s.yields; max_threads = s.max_threads } };

    ghost invariant = { λ s. (s.active < length s.threads) × (length s.threads ≤ s.max_threads) × (s.max_threads ≤ MAX_THREADS) };
}

impl<D: Drop> Scene<D> {
    /// The scene in which main is about to hand over its first operation.
    pub fn new(alloc: Global, max_threads: usize) -> Result<Scene<D>, AllocError>
        requires some { 1 ≤ max_threads }
        requires few { max_threads ≤ MAX_THREADS }
        ensures opens { IfOk result (λ scene. (points : Points) → (left : ℕ) → world_of points left scene ≡ record (opening max_threads left) { points = points }) }
        ensures views { IfOk result (λ scene. ShowsViews first_points scene.views) }
    {
        let mut threads = Sequence::new(alloc);
        threads.push(Thread::main(alloc))?;
        Ok(Scene {
            threads,
            objects: Sequence::new(alloc),
            views: Views::new(alloc),
            lazies: Sequence::new(alloc),
            active: 0,
            yields: no_yields(),
            max_threads,
            alloc,
        })
    }

    /// The scene of another run, in which main is about to hand over its first operation. It takes no memory, and the room for
    /// threads and objects stays (own).
    pub fn restart(&mut self, max_threads: usize)
        requires some { 1 ≤ max_threads }
        requires few { max_threads ≤ MAX_THREADS }
        ensures opens { (points : Points) → (left : ℕ) → world_of points left self.new ≡ record (opening max_threads left) { points = points } }
        ensures views { ShowsViews first_points self.new.views }
    {
        only_main(&mut self.threads);
        self.objects.clear();
        self.views.restart();
        self.lazies.clear();
        self.active = 0;
        self.yields = no_yields();
        self.max_threads = max_threads;
    }

    /// What lists are made by.
    pub fn alloc(&self) -> Global {
        self.alloc
    }

    /// The thread whose turn it is.
    pub fn active(&self) -> u8
        ensures { result ≡ self.now.active }
    {
        self.active
    }

    /// How many objects there are.
    pub fn object_count(&self) -> usize
        ensures { result ≡ length self.now.objects }
    {
        self.objects.len()
    }

    /// The object of this number, to read. Misuse where there is none.
    pub fn object(&self, number: usize) -> Result<&Object<D>, FailureKind>
        ensures { shown_of result ≡ lookup.object_at number self.now.objects }
    {
        if number >= self.objects.len() {
            return Err(FailureKind::Misuse);
        }
        Ok(self.objects.at(number))
    }

    /// The object of this number, to change. Misuse where there is none.
    pub fn object_mut(&mut self, number: usize) -> Result<&mut Object<D>, FailureKind>
        ensures* writes_back { sem 𝓛 (lends_in_scene D.row (object_row.the_row D.row) (λ object. object) self.entry number result) }
        ensures value { now_of result ≡ lookup.object_at number self.old.objects }
    {
        if number >= self.objects.len() {
            return Err(FailureKind::Misuse);
        }
        Ok(self.objects.at_mut(number))
    }

    /// The thread whose turn it is, to read.
    pub fn active_thread(&self) -> &Thread<D>
        ensures { slice_get self.now.threads self.now.active ≡ Some result.now }
    {
        self.threads.at(self.active as usize)
    }

    /// The thread of this number, to read. Misuse where there is none.
    pub fn thread(&self, thread: u8) -> Result<&Thread<D>, FailureKind>
        ensures { shown_of result ≡ moves.a_thread thread self.now.threads }
    {
        if thread as usize >= self.threads.len() {
            return Err(FailureKind::Misuse);
        }
        Ok(self.threads.at(thread as usize))
    }

    /// The threads, main first, to read (own).
    pub fn threads(&self) -> &Sequence<Thread<D>>
        ensures { result.now ≡ self.now.threads }
    {
        &self.threads
    }

    /// The objects in order of creation, to read (own).
    pub fn objects(&self) -> &Sequence<Object<D>>
        ensures { result.now ≡ self.now.objects }
    {
        &self.objects
    }

    /// The views of the threads, and of each object by its number, to read (own).
    pub fn views(&self) -> &Views
        ensures { result.now ≡ self.now.views }
    {
        &self.views
    }

    /// The values that were made once, in the order made, to read (own).
    pub fn lazies(&self) -> &Sequence<Lazy<D>>
        ensures { result.now ≡ self.now.lazies }
    {
        &self.lazies
    }

    /// How often each of five threads has yielded (own).
    pub fn yields(&self) -> &Yields
        ensures { result.now ≡ self.now.yields }
    {
        &self.yields
    }

    /// How many threads there are, those that have ended counted.
    pub fn thread_count(&self) -> usize
        ensures count { result ≡ length self.now.threads }
        ensures few { result ≤ self.now.max_threads }
        ensures bound { self.now.max_threads ≤ MAX_THREADS }
    {
        self.threads.len()
    }

    /// How many threads there may be.
    pub fn max_threads(&self) -> usize
        ensures { result ≡ self.now.max_threads }
    {
        self.max_threads
    }

    /// A thread more.
    pub fn add_thread(&mut self, thread: Thread<D>) -> Result<(), AllocError>
        requires { length self.old.threads < self.old.max_threads }
        ensures { OnOk result (self.new ≡ record self.old { threads = self.old.threads ++ thread ∷ [] }) }
    {
        self.threads.push(thread)
    }

    /// The active thread has this pending, and can't go on while it is blocked.
    pub fn pend(&mut self, task: Task<D>, is_blocked: bool)
        ensures { self.new ≡ record self.old { threads = moves.with_thread (moves.pending task is_blocked) self.old.active self.old.threads } }
    {
        let thread = self.threads.at_mut(self.active as usize);
        thread.pend(task, is_blocked);
    }

    /// The thread of this number is chosen: it is active, and each other one that has yielded can go on again. It has nothing
    /// pending any more; answers what it had. Misuse where there is no such thread.
    pub fn choose(&mut self, thread: u8) -> Result<Task<D>, FailureKind>
        ensures does { Does (schedule.chooses thread) self.old result self.new }
        ensures had { IfOk result (λ task. option_map (λ chosen. chosen.task) (slice_get self.old.threads thread) ≡ Some task) }
    {
        if thread as usize >= self.threads.len() {
            return Err(FailureKind::Misuse);
        }
        self.active = thread;
        let state = self.threads.at(thread as usize).state;
        run_all_again(&mut self.threads);
        let chosen = self.threads.at_mut(thread as usize);
        chosen.state = state;
        Ok(mem::replace(&mut chosen.task, Task::Body))
    }

    /// The active thread has this reply to its operation.
    pub fn reply(&self, reply: Reply<D>) -> Resumed<D>
        ensures { result ≡ Resumed.Passed (Passed.Turn (Turn.Reply self.now.active reply)) }
    {
        Resumed::Passed(Passed::Turn(Turn::Reply(self.active, reply)))
    }
}

impl<D: Data + Same> Scene<D> {
    /// A copy. An error where memory is refused (own).
    pub fn try_clone(&self) -> Result<Scene<D>, AllocError>
        ensures { IfOk result (λ copy. copy ≡ self.now) }
    {
        Ok(Scene {
            threads: copied_all(self.alloc, self.threads.as_slice())?,
            objects: copied_all(self.alloc, self.objects.as_slice())?,
            views: self.views.try_clone(self.alloc)?,
            lazies: copied_all(self.alloc, self.lazies.as_slice())?,
            active: self.active,
            yields: self.yields,
            max_threads: self.max_threads,
            alloc: self.alloc,
        })
    }

    /// It becomes a copy of another one, in the room that it has. An error where memory is refused (own).
    pub fn copy_from(&mut self, other: &Scene<D>) -> Result<(), AllocError>
        ensures { IfOk result (λ _. self.new ≡ other.now) }
    {
        let threads = copied_all(self.alloc, other.threads.as_slice())?;
        copy_all(self.alloc, other.objects.as_slice(), &mut self.objects)?;
        copy_all(self.alloc, other.lazies.as_slice(), &mut self.lazies)?;
        self.views.copy_from(&other.views)?;
        self.threads = threads;
        self.active = other.active;
        self.yields = other.yields;
        self.max_threads = other.max_threads;
        Ok(())
    }
}

impl<D: Drop> Thread<D> {
    /// The thread has this pending, and can't go on while it is blocked.
    fn pend(&mut self, task: Task<D>, is_blocked: bool)
        ensures { self.new ≡ moves.pending task is_blocked self.old }
    {
        if is_blocked {
            self.state = State::Blocked;
        }
        self.task = task;
    }
}

/// Leaves main alone, which is about to hand over its first operation.
fn only_main<D: Drop>(threads: &mut Sequence<Thread<D>>)
    requires { 0 < length threads.old }
    ensures { threads.new ≡ main_thread ∷ [] }
{
    threads.keep_first();
    threads.at_mut(0).restart();
}

/// A thread that has yielded can go on again.
fn run_again<D>(thread: &mut Thread<D>)
    ensures { thread.new ≡ runs_again thread.old }
{
    if matches!(thread.state, State::Yielding) {
        thread.state = State::Runnable;
    }
}

/// Each thread that has yielded can go on again.
fn run_all_again<D>(threads: &mut Sequence<Thread<D>>)
    ensures { threads.new ≡ map runs_again threads.old }
{
    for i in 0..threads.len() {
        run_again(threads.at_mut(i));
    }
}
