//! The switch that `explore`, `stop_exploring` and `skip_branch` turn.
ghost use Rattle.std.specs.Prelude.{◌≡◌};
ghost use Rattle.loom_objects.specs.Exploring as rules;

use crate::operation::ExploreOp;
use loom_views::rt::failure::FailureKind;

/// Whether the search goes on to other options at the nodes that come (loom's `rt/path.rs`).
#[derive(Clone, Copy, Debug, PartialEq, Eq)]
pub enum Exploring {
    /// It does.
    On,
    /// It doesn't.
    Off,
    /// It doesn't, up to the run's end.
    Skipping,
}

impl Exploring {
    /// As a run begins: on, or off where the body is to switch it on.
    pub fn new(is_on: bool) -> Exploring
        ensures { result ≡ rules.initially is_on }
    {
        if is_on { Exploring::On } else { Exploring::Off }
    }

    /// Whether the search explores.
    pub fn is_on(self) -> bool
        ensures { result ≡ rules.is_on self }
    {
        matches!(self, Exploring::On)
    }

    /// What it is after a switch. `ExploreSwitch` where that would change nothing, unless the rest of the run is skipped.
    pub fn switched(self, op: ExploreOp) -> Result<Exploring, FailureKind>
        ensures { result ≡ rules.switched op self }
    {
        match (op, self) {
            (ExploreOp::SkipBranch, _) => Ok(Exploring::Skipping),
            (ExploreOp::Explore | ExploreOp::StopExploring, Exploring::Skipping) => {
                Ok(Exploring::Skipping)
            }
            (ExploreOp::Explore, Exploring::Off) => Ok(Exploring::On),
            (ExploreOp::StopExploring, Exploring::On) => Ok(Exploring::Off),
            (ExploreOp::Explore, Exploring::On) | (ExploreOp::StopExploring, Exploring::Off) => {
                Err(FailureKind::ExploreSwitch)
            }
        }
    }
}
