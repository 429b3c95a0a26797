//! What the code of a thread is, as the machine sees it: it is given a reply, and answers its next operation.
ghost use Rattle.std.specs.Prelude.{◌≡◌, IfOk, IsTrue};
ghost use Rattle.loom_objects.specs.Operation.Labelled.{Op};
ghost use Rattle.loom_objects.specs.Operation.Switching.{NeverSwitches};
ghost use Rattle.loom_objects.specs.declared.operation.Reply.{Reply};

use crate::data::Data;
use crate::operation::{Op, Reply};
use std::alloc::AllocError;

/// The code of a model's threads, main's and those that are spawned: it is given the reply to its last operation, and
/// answers the next one. The first reply of every thread is `Reply::Start`.
pub trait Body: Drop {
    type Data: Data;

    /// What it means: from a state and a reply, the next state and operation.
    ghost next: { Self → Reply Self.Data → Self × Op Self.Data Self };

    /// The next operation. It fails only where a growth is refused.
    fn resume(&mut self, reply: Reply<Self::Data>) -> Result<Op<Self::Data, Self>, AllocError>
        ensures { IfOk result (λ op. (self.new, op) ≡ next self.old reply) };

    /// A body in the same state. It fails only where a growth is refused.
    fn try_clone(&self) -> Result<Self, AllocError>
        ensures { IfOk result (λ copy. copy ≡ self.now) };

    /// Goes over to the state of another body. It fails only where a growth is refused. A body that needs memory may use again what
    /// it has; without a definition of its own it is let go for a copy of the other (own).
    fn restart(&mut self, start: &Self) -> Result<(), AllocError>
        ensures { IfOk result (λ _. self.new ≡ start.now) }
    {
        *self = start.try_clone()?;
        Ok(())
    }

    /// Whether it is known that neither it nor what it starts ever switches whether the search explores. Then a search that remembers states
    /// tells fewer of them apart. Without a definition of its own it isn't known (own).
    fn never_switches(&self) -> bool
        ensures { IsTrue result → NeverSwitches next self.now }
    {
        false
    }
}
