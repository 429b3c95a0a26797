//! What cells hold and threads result in: numbers.
ghost use Rattle.std.specs.Prelude.{◌≡◌, ◌∷◌, [], IfOk};

use loom_objects::data::Data;
use loom_views::same::Same;
use std::alloc::{AllocError, Global};
use std::marker::Model;

/// Some numbers, each the 32 bits of an `int`: one of a cell, none of a mutex, and as the result of a thread what its registers
/// hold (own).
#[derive(Drop)]
pub struct Values {
    pub(crate) numbers: Vec<u32>,
}

impl Model for Values {
    ghost use Rattle.std.specs.Prelude.{ℕ, List};

    ghost Value = { List ℕ };

    ghost view = { λ values. values.numbers.items };
}

impl Values {
    /// No number.
    pub(crate) fn none(alloc: Global) -> Values
        ensures { result ≡ [] }
    {
        Values {
            numbers: Vec::new(alloc),
        }
    }

    /// This number alone. It fails only where a growth is refused.
    pub(crate) fn one(alloc: Global, number: u32) -> Result<Values, AllocError>
        ensures { IfOk result (λ values. values ≡ number ∷ []) }
    {
        Values::of(alloc, &[number])
    }

    /// These numbers. It fails only where a growth is refused.
    pub(crate) fn of(alloc: Global, numbers: &[u32]) -> Result<Values, AllocError>
        ensures { IfOk result (λ values. values ≡ numbers.now) }
    {
        let numbers = Vec::from_slice(alloc, numbers)?;
        Ok(Values { numbers })
    }

    /// The numbers.
    pub fn as_slice(&self) -> &[u32]
        ensures { result.now ≡ self.now }
    {
        self.numbers.as_slice()
    }
}

impl Data for Values {
    fn try_clone(&self) -> Result<Values, AllocError>
        ensures { IfOk result (λ copy. copy ≡ self.now) }
    {
        Values::of(*Vec::allocator(&self.numbers), self.numbers.as_slice())
    }
}

impl Same for Values {
    fn is_same(&self, other: &Values) -> bool {
        self.numbers.as_slice() == other.numbers.as_slice()
    }
}
