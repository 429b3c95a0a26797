//! How a run of a closure ended, and the path of the run after it.
ghost use Rattle.loom.specs.Runner.Chains.{GoesTo};

use loom_engine::rt::path::Path;
use loom_objects::choice::Choice;
use loom_objects::failure::Failure;

/// How a run ended (own).
#[derive(Drop)]
pub enum RunEnd {
    /// It failed, under these choices.
    Failed(Failure, Vec<Choice>),
    /// It ended with main's result. The next run begins with this path, if there is one.
    Ended(Option<Path>),
}

/// The path of the next run, if there is one, after the run that has left this path (own).
pub fn next_path(mut path: Path) -> Option<Path>
    ensures { GoesTo path result }
{
    if path.step() { Some(path) } else { None }
}
