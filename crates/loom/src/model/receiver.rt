//! Who is given the runs of a check: a visitor, for which the choices of each are listed, or nobody.
ghost use Rattle.std.specs.Prelude.{List, OnOk};
ghost use Rattle.loom_engine.specs.Path.Route.{chosen};
ghost use Rattle.loom_objects.specs.declared.choice.Choice.{Choice};

use crate::model::visitor::Visitor;
use loom_engine::rt::path::Path;
use std::alloc::{AllocError, Global};

/// The choices of each run are listed, for a visitor that looks at them.
pub struct Listed;

/// No choices are listed, since nobody takes them.
pub struct Unlisted;

/// Is given each run that ended without a failure, with the path that has made it. The choices are listed or not.
pub trait Receiver<D, Choices> {
    /// What a call does: the receiver before it, the run's choices, main's result, and the receiver after it.
    ghost receives: { Self → List Choice → D → Self → Type 0 };

    /// It fails only where a growth is refused, which ends the check.
    fn receive(&mut self, alloc: Global, path: &Path, value: D) -> Result<(), AllocError>
        ensures { OnOk result (receives self.old (chosen path.now) value self.new) };
}

impl<D: Drop, V: Visitor<D>> Receiver<D, Listed> for V {
    ghost receives = { V.takes };

    fn receive(&mut self, alloc: Global, path: &Path, value: D) -> Result<(), AllocError> {
        self.run_along(alloc, path, value)
    }
}

/// Nobody is given the runs.
#[derive(Drop)]
pub struct NoReceiver;

impl<D: Drop> Receiver<D, Unlisted> for NoReceiver {
    ghost receives = { λ old choices value new. Unit {0} };

    fn receive(&mut self, _alloc: Global, _path: &Path, _value: D) -> Result<(), AllocError> {
        Ok(())
    }
}
