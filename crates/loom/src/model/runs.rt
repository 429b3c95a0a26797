//! What makes the runs of a check, each along its path.
ghost use Rattle.std.specs.Prelude.{Bool, IfOk, Result};
ghost use Rattle.loom_engine.specs.Path.Route.{IsAtStart, IsSameSearch, Route};
ghost use Rattle.loom_objects.specs.declared.failure.Failure.{Failure};

use loom_engine::rt::path::Path;
use loom_objects::failure::Failure;
use std::alloc::AllocError;

/// Makes runs, each along a path from its start. A run ends with a value, or fails.
pub trait RunMaker<D> {
    /// What a run needs room for. The next one uses it again.
    type Room;

    /// Whether runs may be made.
    ghost may_run: { Self → Type 0 };

    /// Whether a run begins to explore.
    ghost begins_exploring: { Self → Bool };

    /// What a run does: the path before it, how it ends, and the path after it.
    ghost comes: { Self → Route → Result D Failure → Route → Type 0 };

    /// It fails only where a growth is refused.
    fn run(&self, room: &mut Self::Room, path: &mut Path) -> Result<Result<D, Failure>, AllocError>
        requires may { may_run self.now }
        requires starts { IsAtStart (begins_exploring self.now) path.old }
        ensures along { IfOk result (λ ending. comes self.now path.old ending path.new) }
        ensures same { IsSameSearch path.old path.new };
}
