//! The state of a run, and what comes of an operation at its beginning and once its thread was chosen.
ghost use Rattle.std.specs.Prelude.{◌≡◌, ◌≤◌, IfOk};
ghost use Rattle.loom_objects.specs.Scene.Shown.{Shows};
ghost use Rattle.loom_objects.specs.World.{MAX_THREADS, opening};

use crate::data::Data;
use crate::operation::{AtomicOp, ExploreOp, Reply, Turn};
use crate::rt::scene::Scene;
use loom_views::rt::MAX_ATOMIC_HISTORY;
use std::alloc::{AllocError, Global};

/// What comes of an operation when it is handed over.
#[derive(Drop)]
pub enum Entry<D> {
    /// It is answered at once: it has no branch point.
    Answered(Reply<D>),
    /// Its thread is at a branch point, where a schedule says who goes on.
    AtBranch,
    /// Its thread is to wait on the notifier of this number, and whether it wakes without a notification is to be chosen.
    Spurious(usize),
    /// Whether the search explores from now on is to be switched.
    Explores(ExploreOp),
}

/// An access that reads, whose thread was chosen and has raised its version.
#[derive(Clone, Copy, Debug)]
pub struct Loading {
    /// The access.
    pub access: AtomicOp,
    /// Which slots of the atomic's stores may be read.
    pub readable: [bool; MAX_ATOMIC_HISTORY],
}

/// What comes of an operation once it has taken effect.
#[derive(Drop)]
pub enum Passed<D> {
    /// A thread has its turn, or the run is over.
    Turn(Turn<D>),
    /// Its thread is at another branch point.
    AtBranch,
}

/// What comes of a thread that is chosen.
#[derive(Drop)]
pub enum Resumed<D> {
    /// What it had pending has taken effect.
    Passed(Passed<D>),
    /// It reads from an atomic, and which store it reads is to be chosen.
    Load(Loading),
}

/// The state of a run (loom's `rt/execution.rs`).
#[derive(Drop)]
pub struct RunState<D> {
    /// Its threads, objects and views, and whose turn it is.
    pub scene: Scene<D>,
    /// How many operations may still be handed over.
    pub steps_left: usize,
}

impl<D: Drop> RunState<D> {
    /// A run in which main is about to hand over its first operation.
    pub fn new(
        alloc: Global,
        max_threads: usize,
        max_steps: usize,
    ) -> Result<RunState<D>, AllocError>
        requires some { 1 ≤ max_threads }
        requires few { max_threads ≤ MAX_THREADS }
        ensures opens { IfOk result (Shows (opening max_threads max_steps)) }
        ensures limit { IfOk result (λ run. run.steps_left ≡ max_steps) }
    {
        Ok(RunState {
            scene: Scene::new(alloc, max_threads)?,
            steps_left: max_steps,
        })
    }

    /// A run once more, in which main is about to hand over its first operation. It takes no memory.
    pub fn restart(&mut self, max_threads: usize, max_steps: usize)
        requires some { 1 ≤ max_threads }
        requires few { max_threads ≤ MAX_THREADS }
        ensures opens { Shows (opening max_threads max_steps) self.new }
        ensures limit { self.new.steps_left ≡ max_steps }
    {
        self.scene.restart(max_threads);
        self.steps_left = max_steps;
    }
}

/// Answers a copy of the value.
pub fn copied<D: Data>(value: &D) -> Result<Entry<D>, AllocError>
    ensures { IfOk result (λ entry. entry ≡ Entry.Answered (Reply.Data value.now)) }
{
    Ok(Entry::Answered(Reply::Data(value.try_clone()?)))
}
