//! A question of a closure, and what its reply holds.
ghost use Rattle.std.specs.Prelude.{◌≡◌, IfOk, IfErr, OnOk, true};
ghost use Rattle.loom.specs.Runner.Asking.{Tells, Stops};
ghost use Rattle.loom.specs.Runner.Handle.{all_answered};

use crate::runner::exact::Exact;
use crate::runner::handle::Handle;
use crate::runner::stop::Stop;
use loom_objects::operation::Request;
pub use loom_ops::answers::answer::{Answer, Joined, Loaded, Tried};
use std::sync::Wait;

impl<D: Exact + 'static, R: Wait> Handle<D, R> {
    /// Hands over an operation, and answers what its reply holds (own). A reply that holds something else fails the run as an
    /// assertion.
    pub fn ask<A: Answer<D>>(&mut self, request: Request<D, ()>) -> Result<A, Stop>
        ensures live { OnOk result (all_answered self.old.told ≡ true) }
        ensures thread { self.new.thread ≡ self.old.thread }
        ensures tells { IfOk result (Tells A.held request self.old.told self.new.told) }
        ensures stopped { IfErr result (Stops A.held request self.old.told self.new) }
    {
        let reply = self.call(request)?;
        match A::from_reply(reply) {
            Some(answer) => Ok(answer),
            None => Err(self.fail()),
        }
    }
}
