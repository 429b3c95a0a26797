//! The type of what objects hold and threads result in.
ghost use Rattle.std.specs.Prelude.{◌≡◌, IfOk};

use std::alloc::AllocError;

/// What objects hold and threads answer: values that the machine hands out and takes back, and never looks into.
pub trait Data: Drop {
    /// A copy of the value. An error where memory is refused.
    fn try_clone(&self) -> Result<Self, AllocError>
        ensures { IfOk result (λ copy. copy ≡ self.now) };
}

impl Data for () {
    fn try_clone(&self) -> Result<(), AllocError> {
        Ok(())
    }
}

impl Data for bool {
    fn try_clone(&self) -> Result<bool, AllocError> {
        Ok(*self)
    }
}

impl Data for u64 {
    fn try_clone(&self) -> Result<u64, AllocError> {
        Ok(*self)
    }
}

impl Data for usize {
    fn try_clone(&self) -> Result<usize, AllocError> {
        Ok(*self)
    }
}
