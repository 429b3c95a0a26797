//! Data of closures: two values of it can be compared, and those that are equal are the same value.
ghost use Rattle.std.specs.Prelude.{◌≡◌, ◌↔◌, IsTrue, true};

use loom_explain::values::{Displayed, Show};
use loom_objects::data::Data;
use std::alloc::{AllocError, Global};

/// Data that closures on real threads may hold (own). Two values that are equal are the same value.
pub trait Exact: Data + Eq + Send {
    /// The value as explanations show it; by default they don't. Numbers and `bool` are shown as they are printed. An error where
    /// memory is refused.
    fn shown(&self, _alloc: Global) -> Result<Option<String>, AllocError> {
        Ok(None)
    }

    ghost same: { (x y : Self) → Self.PartialEq.eq x y ≡ true → x ≡ y };
}

/// Data are shown as their type says (own).
#[derive(Clone, Copy, Debug)]
pub(crate) struct ByType;

impl<D: Exact> Show<D> for ByType {
    fn show(&self, alloc: Global, value: &D) -> Result<Option<String>, AllocError> {
        value.shown(alloc)
    }
}

impl Exact for () {
    ghost use Rattle.std.proofs.Common.{rules};

    ghost same = { λ x y e. Prim.search rules };
}

impl Exact for bool {
    ghost use Rattle.std.proofs.Common.{rules};

    ghost same = { λ x y e. Prim.search rules };

    fn shown(&self, alloc: Global) -> Result<Option<String>, AllocError> {
        Displayed.show(alloc, self)
    }
}

impl Exact for u64 {
    ghost use Rattle.std.proofs.Common.{rules};

    ghost same = { λ x y e. Prim.search rules };

    fn shown(&self, alloc: Global) -> Result<Option<String>, AllocError> {
        Displayed.show(alloc, self)
    }
}

impl Exact for usize {
    ghost use Rattle.std.proofs.Common.{rules};

    ghost same = { λ x y e. Prim.search rules };

    fn shown(&self, alloc: Global) -> Result<Option<String>, AllocError> {
        Displayed.show(alloc, self)
    }
}

/// Whether the two are the same value (own).
pub fn is_same_value<D: Exact>(one: &D, other: &D) -> bool
    ensures { IsTrue result ↔ (one.now ≡ other.now) }
{
    one == other
}
