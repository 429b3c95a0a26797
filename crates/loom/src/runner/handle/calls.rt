//! Which operations a closure hands over by a call, by which its work ends, and what its handle keeps of an answer.
ghost use Rattle.std.specs.Prelude.{◌≡◌, IfErr, IfOk, None, Some};
ghost use Rattle.loom.specs.Runner.Calls.{is_reserved, is_reserved_of_thread, last_of};

use crate::runner::exact::Exact;
use crate::runner::stop::Stop;
use loom_objects::operation::{Reply, Request, ThreadOp, copy_reply};
use std::alloc::Global;

/// Whether it is an operation that no closure hands over by `call`: a spawn, and each of a thread's end. In place of these the
/// call hands over `fail` (own).
pub fn is_reserved<D>(op: &Request<D, ()>) -> bool
    ensures { result ≡ is_reserved op.now }
{
    match op {
        Request::Thread(op) => is_reserved_of_thread(op),
        _ => false,
    }
}

fn is_reserved_of_thread<D>(op: &ThreadOp<D, ()>) -> bool
    ensures { result ≡ is_reserved_of_thread op.now }
{
    match op {
        ThreadOp::Spawn(..) | ThreadOp::Finish(_) | ThreadOp::Exit | ThreadOp::End => true,
        ThreadOp::Join(..)
        | ThreadOp::Current
        | ThreadOp::Park
        | ThreadOp::Unpark(_)
        | ThreadOp::Yield => false,
    }
}

/// The operation by which a thread's work ends once its closure has answered: `finish` with the result. None for a stop, for
/// which it is `fail` (own).
pub fn last_of<D: Drop>(answer: Result<D, Stop>) -> Option<Request<D, ()>>
    ensures { result ≡ last_of answer }
{
    match answer {
        Ok(value) => Some(Request::Thread(ThreadOp::Finish(value))),
        Err(_) => None,
    }
}

/// What is kept of an answer, and what the closure is answered: a copy of the reply, and the reply. A reply that can't be copied
/// counts as a stop (own).
pub fn keep<D: Exact>(
    alloc: Global,
    answer: Result<Reply<D>, Stop>,
) -> (Option<Reply<D>>, Result<Reply<D>, Stop>)
    ensures answered { IfOk result.1 (λ reply. result.0 ≡ Some reply) }
    ensures stopped { IfErr result.1 (λ stop. result.0 ≡ None) }
{
    match answer {
        Ok(reply) => match copy_reply(alloc, &reply) {
            Ok(copy) => (Some(copy), Ok(reply)),
            Err(_) => {
                reply.let_go();
                (None, Err(Stop::Memory))
            }
        },
        Err(stop) => (None, Err(stop)),
    }
}
