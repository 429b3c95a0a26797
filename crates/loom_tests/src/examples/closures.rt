//! Checks of closures: those of the examples and of the guide, and what is shown of a check, in a log or behind it.

mod bodies;
mod explained;
mod guide;
mod logs;
mod printed;
mod resumed;
mod rows;
mod shared;
mod texts;

use crate::closures::holds;
use loom::runner::exact::Exact;
use loom_objects::data::Data;
use std::alloc::{AllocError, Global};

/// What the closures' objects hold, and what their threads come to.
#[derive(Clone, Copy, Debug, PartialEq, Eq)]
struct Count(u64);

impl Data for Count {
    fn try_clone(&self) -> Result<Count, AllocError> {
        Ok(*self)
    }
}

impl Exact for Count {
    ghost use Rattle.std.proofs.Common.{rules};

    ghost same = { λ x y e. Prim.search rules };

    fn shown(&self, alloc: Global) -> Result<Option<String>, AllocError> {
        Ok(Some(format!(in alloc; "{} counted,\nand more than fits", self.0)?))
    }
}

/// A copy of a value of one's own type is that value.
#[test]
fn own_data_is_copied(rt: HostRuntime) {
    holds(&rt, matches!(Count(3).try_clone(), Ok(Count(3))));
}
