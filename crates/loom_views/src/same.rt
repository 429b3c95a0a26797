//! Whether two values are the same one.
ghost use Rattle.std.specs.Prelude.{◌≡◌, IsTrue};

/// Whether the value is of this kind, and what it is made of passes the test, as in `is_kind!(other, Some(x) => one == x)` (own).
#[macro_export]
macro_rules! is_kind {
    ($value:expr, $kind:pat => $test:expr) => {
        match $value {
            $kind => $test,
            _ => false,
        }
    };
}

/// Values that can be compared (own).
pub trait Same {
    /// Whether it is the same value (own).
    fn is_same(&self, other: &Self) -> bool
        ensures { IsTrue result → self.now ≡ other.now };
}

impl Same for () {
    fn is_same(&self, _other: &()) -> bool {
        true
    }
}

impl Same for bool {
    fn is_same(&self, other: &bool) -> bool {
        *self == *other
    }
}

impl Same for u8 {
    fn is_same(&self, other: &u8) -> bool {
        *self == *other
    }
}

impl Same for u16 {
    fn is_same(&self, other: &u16) -> bool {
        *self == *other
    }
}

impl Same for u64 {
    fn is_same(&self, other: &u64) -> bool {
        *self == *other
    }
}

impl Same for usize {
    fn is_same(&self, other: &usize) -> bool {
        *self == *other
    }
}

impl<T: Same> Same for Option<T> {
    fn is_same(&self, other: &Option<T>) -> bool {
        match (self, other) {
            (Some(one), Some(two)) => one.is_same(two),
            (None, None) => true,
            (Some(_), None) | (None, Some(_)) => false,
        }
    }
}

/// Whether two lists have the same values, in the same order (own).
pub fn are_same<T: Same>(one: &[T], other: &[T]) -> bool
    ensures { IsTrue result → one.now ≡ other.now }
{
    let mut rest = one;
    let mut left = other;
    while let Some((first, tail)) = rest.split_first() {
        let Some((second, others)) = left.split_first() else {
            return false;
        };
        if !first.is_same(second) {
            return false;
        }
        rest = tail;
        left = others;
    }
    left.is_empty()
}
