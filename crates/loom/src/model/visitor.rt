//! Who is given the runs of a check.
ghost use Rattle.std.specs.Prelude.{List, OnOk};
ghost use Rattle.loom_engine.specs.Path.Route.{chosen};
ghost use Rattle.loom_objects.specs.declared.choice.Choice.{Choice};

use loom_engine::rt::path::Path;
use loom_objects::choice::Choice;
use std::alloc::{AllocError, Global};

/// Is given each run that ended without a failure, one after another.
pub trait Visitor<D> {
    /// What a call does: the visitor before it, the run's choices, main's result, and the visitor after it.
    ghost takes: { Self → List Choice → D → Self → Type 0 };

    /// It fails only where a growth is refused, which ends the check.
    fn run(&mut self, choices: &[Choice], value: D) -> Result<(), AllocError>
        ensures { OnOk result (takes self.old choices.now value self.new) };

    /// `run` of the run that was made along this path. Its choices are listed for that, which takes time and memory: a visitor that
    /// doesn't look at them can have a method of its own here. It fails only where a growth is refused.
    fn run_along(&mut self, alloc: Global, path: &Path, value: D) -> Result<(), AllocError>
    where
        D: Drop,
        ensures { OnOk result (takes self.old (chosen path.now) value self.new) }
    {
        let choices = path.choices(alloc)?;
        self.run(choices.as_slice(), value)
    }
}
