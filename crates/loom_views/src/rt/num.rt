//! The integers and `bool` as the `u64` in which an atomic keeps them. No call here takes memory.
pub mod change;

ghost use Rattle.std.specs.Prelude.{◌≡◌, ℕ, if◌then◌else◌, ◌==◌, not, ◌^◌, ◌%◌, ◌<◌, FitsSigned};
ghost use Rattle.std.specs.Int.{cast_signed, cast_unsigned, w8, w16, w32, w64};
ghost use Rattle.loom_views.specs.declared.rt.num.Numbers.{Numbers};
ghost use Rattle.loom_views.specs.Numbers.{bool_trip, unsigned_trip, same_trip, trip8, trip16, trip32, trip64};

/// The types of what atomics hold; `usize` and `isize` have 64 bits (own; loom's atomics are generic).
#[derive(Clone, Copy, Debug, PartialEq, Eq)]
pub enum Numbers {
    Bool,
    U8,
    U16,
    U32,
    U64,
    I8,
    I16,
    I32,
    I64,
}

/// A number, or a truth value, that a `u64` stands for: `from_u64(into_u64(x))` is `x`, by the law `round_trip` (loom's
/// `rt/num.rs`).
pub trait Numeric: Copy {
    /// The `u64` that stands for a value.
    ghost number: { Self → ℕ };

    /// The value that a `u64` stands for.
    ghost value: { ℕ → Self };

    /// Which type it is.
    ghost kind: { Numbers };

    /// The value is within the bounds of its type.
    ghost in_bounds: { Self → Type 0 };

    /// The `u64` that stands for the value, which is the value itself, or its two's complement in 64 bits; 1 and 0 stand for
    /// true and false (loom's `rt/num.rs`).
    fn into_u64(self) -> u64
        ensures { result ≡ number self };

    /// The value that a `u64` stands for, by its lowest bits where the type is narrower; all but 0 stands for true (loom's
    /// `rt/num.rs`).
    fn from_u64(src: u64) -> Self
        ensures { result ≡ value src };

    /// Which type it is (own).
    fn numbers() -> Numbers
        ensures { result ≡ kind };

    /// A value is what the number that stands for it stands for.
    ghost round_trip: { (x : Self) → in_bounds x → value (number x) ≡ x };
}

impl Numeric for u8 {
    ghost number = { λ x. x };

    ghost value = { λ n. n % 2 ^ 8 };

    ghost kind = { Numbers.U8 };

    ghost in_bounds = { λ x. x < 2 ^ 8 };

    ghost round_trip = { λ x h. unsigned_trip x 8 h };

    fn numbers() -> Numbers {
        Numbers::U8
    }

    fn into_u64(self) -> u64 {
        u16::from(self).into_u64()
    }

    fn from_u64(src: u64) -> u8 {
        (src % 256) as u8
    }
}

impl Numeric for u16 {
    ghost number = { λ x. x };

    ghost value = { λ n. n % 2 ^ 16 };

    ghost kind = { Numbers.U16 };

    ghost in_bounds = { λ x. x < 2 ^ 16 };

    ghost round_trip = { λ x h. unsigned_trip x 16 h };

    fn numbers() -> Numbers {
        Numbers::U16
    }

    fn into_u64(self) -> u64 {
        u32::from(self).into_u64()
    }

    fn from_u64(src: u64) -> u16 {
        (src % 65536) as u16
    }
}

impl Numeric for u32 {
    ghost number = { λ x. x };

    ghost value = { λ n. n % 2 ^ 32 };

    ghost kind = { Numbers.U32 };

    ghost in_bounds = { λ x. x < 2 ^ 32 };

    ghost round_trip = { λ x h. unsigned_trip x 32 h };

    fn numbers() -> Numbers {
        Numbers::U32
    }

    fn into_u64(self) -> u64 {
        u64::from(self)
    }

    fn from_u64(src: u64) -> u32 {
        (src % 4294967296) as u32
    }
}

impl Numeric for u64 {
    ghost number = { λ x. x };

    ghost value = { λ n. n };

    ghost kind = { Numbers.U64 };

    ghost in_bounds = { λ x. x < 2 ^ 64 };

    ghost round_trip = { λ x h. same_trip x };

    fn numbers() -> Numbers {
        Numbers::U64
    }

    fn into_u64(self) -> u64 {
        self
    }

    fn from_u64(src: u64) -> u64 {
        src
    }
}

impl Numeric for usize {
    ghost number = { λ x. x };

    ghost value = { λ n. n };

    ghost kind = { Numbers.U64 };

    ghost in_bounds = { λ x. x < 2 ^ 64 };

    ghost round_trip = { λ x h. same_trip x };

    fn numbers() -> Numbers {
        Numbers::U64
    }

    fn into_u64(self) -> u64 {
        self as u64
    }

    fn from_u64(src: u64) -> usize {
        src as usize
    }
}

impl Numeric for i8 {
    ghost number = { λ x. cast_unsigned w64 x };

    ghost value = { λ n. cast_signed w8 (n % 2 ^ 8) };

    ghost kind = { Numbers.I8 };

    ghost in_bounds = { FitsSigned w8 };

    ghost round_trip = { trip8 };

    fn numbers() -> Numbers {
        Numbers::I8
    }

    fn into_u64(self) -> u64 {
        i16::from(self).into_u64()
    }

    fn from_u64(src: u64) -> i8 {
        ((src % 256) as u8).cast_signed()
    }
}

impl Numeric for i16 {
    ghost number = { λ x. cast_unsigned w64 x };

    ghost value = { λ n. cast_signed w16 (n % 2 ^ 16) };

    ghost kind = { Numbers.I16 };

    ghost in_bounds = { FitsSigned w16 };

    ghost round_trip = { trip16 };

    fn numbers() -> Numbers {
        Numbers::I16
    }

    fn into_u64(self) -> u64 {
        i32::from(self).into_u64()
    }

    fn from_u64(src: u64) -> i16 {
        ((src % 65536) as u16).cast_signed()
    }
}

impl Numeric for i32 {
    ghost number = { λ x. cast_unsigned w64 x };

    ghost value = { λ n. cast_signed w32 (n % 2 ^ 32) };

    ghost kind = { Numbers.I32 };

    ghost in_bounds = { FitsSigned w32 };

    ghost round_trip = { trip32 };

    fn numbers() -> Numbers {
        Numbers::I32
    }

    fn into_u64(self) -> u64 {
        i64::from(self).cast_unsigned()
    }

    fn from_u64(src: u64) -> i32 {
        ((src % 4294967296) as u32).cast_signed()
    }
}

impl Numeric for i64 {
    ghost number = { λ x. cast_unsigned w64 x };

    ghost value = { λ n. cast_signed w64 n };

    ghost kind = { Numbers.I64 };

    ghost in_bounds = { FitsSigned w64 };

    ghost round_trip = { trip64 };

    fn numbers() -> Numbers {
        Numbers::I64
    }

    fn into_u64(self) -> u64 {
        self.cast_unsigned()
    }

    fn from_u64(src: u64) -> i64 {
        src.cast_signed()
    }
}

impl Numeric for isize {
    ghost number = { λ x. cast_unsigned w64 x };

    ghost value = { λ n. cast_signed w64 n };

    ghost kind = { Numbers.I64 };

    ghost in_bounds = { FitsSigned w64 };

    ghost round_trip = { trip64 };

    fn numbers() -> Numbers {
        Numbers::I64
    }

    fn into_u64(self) -> u64 {
        self.cast_unsigned() as u64
    }

    fn from_u64(src: u64) -> isize {
        (src as usize).cast_signed()
    }
}

impl Numeric for bool {
    ghost number = { λ x. if x then 1 else 0 };

    ghost value = { λ n. not (n == 0) };

    ghost kind = { Numbers.Bool };

    ghost in_bounds = { λ _. Unit {0} };

    ghost round_trip = { λ x h. bool_trip x };

    fn numbers() -> Numbers {
        Numbers::Bool
    }

    fn into_u64(self) -> u64 {
        if self { 1 } else { 0 }
    }

    fn from_u64(src: u64) -> bool {
        src != 0
    }
}
