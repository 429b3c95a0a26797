//! How one stage of an operation that takes several ends: by its reply, or at the branch point of the next stage.
ghost use Rattle.std.specs.Prelude.{Ok, false, ◌≡◌};
ghost use Rattle.loom_objects.specs.Scene.Stage.{Does};
ghost use Rattle.loom_objects.specs.Rules.Waker as rules;
ghost use Rattle.loom_objects.specs.Stages.Memory as memory;

use crate::operation::{Reply, Turn};
use crate::rt::run::Passed;
use crate::rt::scene::Scene;
use crate::rt::thread::Task;
use loom_views::rt::failure::FailureKind;
use std::alloc::AllocError;

/// The active thread has this reply to its operation.
pub fn answered<D: Drop>(scene: &Scene<D>, reply: Reply<D>) -> Passed<D>
    ensures { Does (rules.answered reply) scene.now (Ok result) scene.now }
{
    Passed::Turn(Turn::Reply(scene.active(), reply))
}

/// The active thread reaches another branch point, where this is pending.
pub fn pend_next<D: Drop>(scene: &mut Scene<D>, task: Task<D>) -> Passed<D>
    ensures { Does (rules.pends_next task false) scene.old (Ok result) scene.new }
{
    scene.pend(task, false);
    Passed::AtBranch
}

/// An answer that lacks the memory for a copy is none, and a failure is one.
pub(crate) fn memory_outside<A>(
    given: Result<Result<A, AllocError>, FailureKind>,
) -> Result<Result<A, FailureKind>, AllocError>
    ensures { result ≡ memory.memory_outside given }
{
    match given {
        Ok(Ok(answer)) => Ok(Ok(answer)),
        Ok(Err(refused)) => Err(refused),
        Err(kind) => Ok(Err(kind)),
    }
}
