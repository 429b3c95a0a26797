//! A round of a check: one run, and the step of its path to the next one.
ghost use Rattle.std.specs.Prelude.{IfOk};
ghost use Rattle.loom_engine.specs.Path.Route.{IsAtStart};
ghost use Rattle.loom.specs.Model.Rounds.{ComesTo};

use crate::model::receiver::Receiver;
use crate::model::runs::RunMaker;
use loom_engine::rt::path::Path;
use loom_objects::choice::Choice;
use loom_objects::failure::Failure;
use std::alloc::{AllocError, Global};

/// How a round of a check went.
#[derive(Drop)]
pub enum Round {
    /// The run ended, and there is another.
    Next,
    /// The run ended, and it was the last one.
    Last,
    /// The run failed, under these choices.
    Failed(Failure, Vec<Choice>),
}

/// One run along the path, which the receiver is given, and the step to the next one.
pub fn run_and_step<D: Drop, Choices, M, R>(
    alloc: Global,
    runs: &M,
    room: &mut M::Room,
    receiver: &mut R,
    path: &mut Path,
) -> Result<Round, AllocError>
where
    M: RunMaker<D>,
    R: Receiver<D, Choices>,
    requires may { M.may_run runs.now }
    requires starts { IsAtStart (M.begins_exploring runs.now) path.old }
    ensures { IfOk result (λ round. ComesTo (M.comes runs.now) R.receives path.old receiver.old round path.new receiver.new) }
{
    match runs.run(room, path)? {
        Err(failure) => Ok(Round::Failed(failure, path.choices(alloc)?)),
        Ok(value) => {
            receiver.receive(alloc, path, value)?;
            if path.step() {
                Ok(Round::Next)
            } else {
                Ok(Round::Last)
            }
        }
    }
}
