//! Who is given the runs of several parts.
ghost use Rattle.std.specs.Prelude.{IfOk, OnOk};

use crate::runner::defaults::NoVisitor;
use std::alloc::AllocError;

/// Makes a visitor for each part that is worked on, and joins it when the part is given back (own).
pub trait Visitors<V> {
    /// Whether a visitor was given no run.
    ghost is_new: { V → Type 0 };

    /// What it is to join one: before, the visitor, and after.
    ghost joins: { Self → V → Self → Type 0 };

    /// A visitor that was given no run. It fails only where a growth is refused.
    fn make(&self) -> Result<V, AllocError>
        ensures { IfOk result is_new };

    /// Joins a visitor that was given runs of a part. It fails only where a growth is refused.
    fn join(&mut self, visitor: V) -> Result<(), AllocError>
        ensures { OnOk result (joins self.old visitor self.new) };
}

/// No visitor of a part looks at its runs.
impl Visitors<NoVisitor> for NoVisitor {
    ghost is_new = { λ visitor. Unit {0} };

    ghost joins = { λ old visitor new. Unit {0} };

    fn make(&self) -> Result<NoVisitor, AllocError> {
        Ok(NoVisitor)
    }

    fn join(&mut self, _visitor: NoVisitor) -> Result<(), AllocError> {
        Ok(())
    }
}
