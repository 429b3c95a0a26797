//! One operation of the machine, and how it ends.
ghost use Rattle.std.specs.Prelude.{Err, IfErr, IfOk};
ghost use Rattle.loom_objects.specs.declared.failure.Stop.TheVariants.{Memory};
ghost use Rattle.loom.specs.Runner.Events.{answered};

use crate::runner::exact::Exact;
use crate::runner::history::submit::Submit;
use loom_objects::failure::{Failure, Stop as Halt};
use loom_objects::operation::{Request, Turn};
use std::alloc::AllocError;

/// Hands the operation to the machine. Answers the next turn, or why the run fails; an error only where a growth is refused (own).
pub fn take_turn<D: Exact, M: Submit<D>>(
    machine: &mut M,
    op: Request<D, ()>,
) -> Result<Result<Turn<D>, Failure>, AllocError>
    requires { M.goes_on machine.old }
    ensures happens { IfOk result (λ outcome. M.happens machine.old op (answered outcome) machine.new) }
    ensures refused { IfErr result (λ e. M.happens machine.old op (Err Memory) machine.new) }
{
    match machine.submit(op) {
        Ok(turn) => Ok(Ok(turn)),
        Err(Halt::Failure(failure)) => Ok(Err(failure)),
        Err(Halt::Memory) => Err(AllocError),
    }
}
