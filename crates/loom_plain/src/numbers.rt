//! What the numbers of atomics are, as 64 bits.
use loom_views::rt::num::Numbers;
use loom_views::rt::num::change::Change;

// Whether the type has negative numbers.
fn is_signed(numbers: Numbers) -> bool {
    matches!(
        numbers,
        Numbers::I8 | Numbers::I16 | Numbers::I32 | Numbers::I64
    )
}

// Ones in the lowest bits, as many as the type has.
fn ones(numbers: Numbers) -> u64 {
    match numbers {
        Numbers::Bool => 1,
        Numbers::U8 | Numbers::I8 => 0xff,
        Numbers::U16 | Numbers::I16 => 0xffff,
        Numbers::U32 | Numbers::I32 => 0xffff_ffff,
        Numbers::U64 | Numbers::I64 => u64::MAX,
    }
}

/// The bits as a number of the type: the lowest ones, with the sign above them; of truth values whether there is any.
pub fn cast(numbers: Numbers, bits: u64) -> u64 {
    let ones = ones(numbers);
    let low = bits & ones;
    let sign = ones ^ (ones / 2);
    if numbers == Numbers::Bool {
        u64::from(bits != 0)
    } else if is_signed(numbers) && low & sign != 0 {
        low | !ones
    } else {
        low
    }
}

// The larger of two numbers of the type, and the smaller one.
fn ordered(numbers: Numbers, one: u64, other: u64) -> (u64, u64) {
    let half = 1u64 << 63;
    let is_larger = if is_signed(numbers) {
        (one ^ half) > (other ^ half)
    } else {
        one > other
    };
    if is_larger {
        (one, other)
    } else {
        (other, one)
    }
}

/// What a read-modify-write makes of the number that it reads.
pub fn changed(numbers: Numbers, change: Change, old: u64) -> u64 {
    let made = match change {
        Change::Swap(new) => new,
        Change::Add(by) => old.wrapping_add(by),
        Change::Sub(by) => old.wrapping_sub(by),
        Change::And(with) => old & cast(numbers, with),
        Change::Nand(with) => (old & cast(numbers, with)) ^ ones(numbers),
        Change::Or(with) => old | cast(numbers, with),
        Change::Xor(with) => old ^ cast(numbers, with),
        Change::Max(with) => ordered(numbers, old, cast(numbers, with)).0,
        Change::Min(with) => ordered(numbers, old, cast(numbers, with)).1,
    };
    cast(numbers, made)
}
