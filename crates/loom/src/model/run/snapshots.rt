//! A run is kept at a branch point, so that those after it along paths that begin as its own go on from there (own).
ghost use Rattle.std.specs.Prelude.{IfOk};
ghost use Rattle.loom.specs.Model.CoverSnapshots.{MayKeepOne};

use loom_engine::rt::execution::Execution;
use loom_engine::rt::path::Path;
use loom_engine::rt::snapshots::Snapshots;
use loom_objects::body::Body;
use loom_objects::rt::schedule::{Ability, Offers};
use loom_views::rt::MAX_THREADS;
use loom_views::same::Same;
use std::alloc::AllocError;

/// Keeps the run as it is, if any are to be kept and something is left to try there, or at once after it.
pub(crate) fn keep<B: Body>(
    execution: &Execution<B::Data>,
    bodies: &[B],
    snapshots: &mut Snapshots<B::Data, B>,
    path: &Path,
) -> Result<(), AllocError>
where
    B::Data: Same,
    ensures { IfOk result (λ _. MayKeepOne execution.now bodies.now path.now snapshots.old snapshots.new) }
{
    if !snapshots.are_allowed() {
        return Ok(());
    }
    let is_left = path.is_left_here()
        || (path.tries_each_here() && has_choice(&execution.scene().offers()));
    if !is_left {
        return Ok(());
    }
    snapshots.keep(execution, bodies, path)?;
    Ok(())
}

/// Whether more than one thread can go on.
fn has_choice(offers: &Offers) -> bool {
    let mut is_one = false;
    for thread in 0..MAX_THREADS {
        if matches!(offers.abilities[thread], Ability::Able) {
            if is_one {
                return true;
            }
            is_one = true;
        }
    }
    false
}
