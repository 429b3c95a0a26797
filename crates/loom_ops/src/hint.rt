//! Hints to the processor, of which a run makes operations.
ghost use Rattle.std.specs.Prelude.{◌≡◌};
ghost use Rattle.loom_ops.specs.Thread.{yielding};
ghost use Rattle.loom_objects.specs.Operation.Labelled.{bare};

use crate::thread;
use loom_objects::operation::{Op, Request};

/// The thread yields, as by `thread::yield_now` (loom's `hint.rs`).
pub fn spin_loop<D, S>() -> Op<D, S>
    ensures { result ≡ yielding }
{
    thread::yield_now()
}

/// Code was reached that is never to be, which ends the run as `Unreachable` (loom's `hint.rs`).
pub fn unreachable_unchecked<D, S>() -> Op<D, S>
    ensures { result ≡ bare Request.Unreachable }
{
    Op::new(Request::Unreachable)
}
