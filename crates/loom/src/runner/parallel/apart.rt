//! Bodies of which each worker has one of its own.
ghost use Rattle.std.specs.Prelude.{◌≡◌, IfOk};

use std::alloc::AllocError;

/// A body that can be copied so that threads which run the copies don't wait for one another (own).
pub trait Apart: Sized {
    /// A body in the same state that shares nothing with this one. It fails only where a growth is refused.
    fn apart(&self) -> Result<Self, AllocError>
        ensures { IfOk result (λ copy. copy ≡ self.now) };
}
