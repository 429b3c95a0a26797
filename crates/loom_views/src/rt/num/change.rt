//! What a read-modify-write makes of the number that it reads. No call here takes memory.

ghost use Rattle.std.specs.Prelude.{◌≡◌};
ghost use Rattle.loom_views.specs.Changes.{fit, complement, is_less, larger, smaller, changed};

use crate::rt::num::{Numbers, Numeric};

/// What a read-modify-write makes of the number that it reads, with a number of its own, which is cast to the type first
/// (loom's `sync/atomic/int.rs`).
#[derive(Clone, Copy, Debug, PartialEq, Eq)]
pub enum Change {
    /// The other number.
    Swap(u64),
    /// The sum, by the lowest bits of the type.
    Add(u64),
    /// The difference, by the lowest bits of the type.
    Sub(u64),
    And(u64),
    /// The bits of the type that are not in both.
    Nand(u64),
    Or(u64),
    Xor(u64),
    /// The larger one, by the order of the type.
    Max(u64),
    /// The smaller one, by the order of the type.
    Min(u64),
}

impl Numbers {
    /// 64 bits cast to the type, and back to 64 bits: a signed type extends its sign, and all but 0 is true (loom's
    /// `rt/num.rs`).
    pub fn fit(self, bits: u64) -> u64
        ensures { result ≡ fit self bits }
    {
        match self {
            Numbers::Bool => bool::from_u64(bits).into_u64(),
            Numbers::U8 => u8::from_u64(bits).into_u64(),
            Numbers::U16 => u16::from_u64(bits).into_u64(),
            Numbers::U32 => u32::from_u64(bits).into_u64(),
            Numbers::U64 => bits,
            Numbers::I8 => i8::from_u64(bits).into_u64(),
            Numbers::I16 => i16::from_u64(bits).into_u64(),
            Numbers::I32 => i32::from_u64(bits).into_u64(),
            Numbers::I64 => bits,
        }
    }

    /// The bits of the type that are not in it.
    fn complement(self, number: u64) -> u64
        ensures { result ≡ complement self number }
    {
        match self {
            Numbers::Bool => u64::from(number == 0),
            _ => self.fit(!number),
        }
    }

    /// Whether the one is below the other in the order of the type.
    fn is_less(self, one: u64, other: u64) -> bool
        ensures { result ≡ is_less self one other }
    {
        match self {
            Numbers::I8 | Numbers::I16 | Numbers::I32 | Numbers::I64 => one.cast_signed()
                < other.cast_signed(),
            _ => one < other,
        }
    }

    /// The larger one of the two, by the order of the type.
    fn larger(self, one: u64, other: u64) -> u64
        ensures { result ≡ larger self one other }
    {
        if self.is_less(one, other) { other } else { one }
    }

    /// The smaller one of the two, by the order of the type.
    fn smaller(self, one: u64, other: u64) -> u64
        ensures { result ≡ smaller self one other }
    {
        if self.is_less(other, one) { other } else { one }
    }
}

impl Change {
    /// The number that takes the place of the one that was read (loom's `sync/atomic/int.rs`).
    pub fn apply(self, numbers: Numbers, read: u64) -> u64
        ensures { result ≡ changed numbers self read }
    {
        match self {
            Change::Swap(number) => numbers.fit(number),
            Change::Add(number) => numbers.fit(read.wrapping_add(numbers.fit(number))),
            Change::Sub(number) => numbers.fit(read.wrapping_sub(numbers.fit(number))),
            Change::And(number) => numbers.fit(read & numbers.fit(number)),
            Change::Nand(number) => numbers.complement(read & numbers.fit(number)),
            Change::Or(number) => numbers.fit(read | numbers.fit(number)),
            Change::Xor(number) => numbers.fit(read ^ numbers.fit(number)),
            Change::Max(number) => numbers.larger(read, numbers.fit(number)),
            Change::Min(number) => numbers.smaller(read, numbers.fit(number)),
        }
    }
}
