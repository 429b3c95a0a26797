//! What C's operators make of two numbers. A number is the 32 bits of an `int`, as a `u32`.
ghost use Rattle.std.specs.Prelude.{◌≡◌};
ghost use Rattle.loom_text.specs.Run.Operators.{applied, is_less, is_negative, negated, quotient, remainder, shifted_left, shifted_right, size, truth};

/// An operator between two numbers. Sums, differences and products have the lowest 32 bits, and a comparison gives 1 or 0 (own).
#[derive(Clone, Copy, PartialEq, Eq)]
pub enum Operator {
    Add,
    Sub,
    Mul,
    /// The quotient, rounded towards 0. By 0 it is 0.
    Div,
    /// What the division leaves, with the sign of the first. By 0 it is the first.
    Rem,
    BitAnd,
    BitOr,
    BitXor,
    /// To the left by the lowest five bits of the second.
    Shl,
    /// To the right by the lowest five bits of the second, with copies of the sign.
    Shr,
    Eq,
    Ne,
    Lt,
    Le,
}

/// The lowest number that is negative as an `int`.
pub const SIGN: u32 = 0x8000_0000;

impl Operator {
    /// What the operator makes of two numbers (C's rules; what C leaves open wraps).
    pub fn apply(self, one: u32, other: u32) -> u32
        ensures { result ≡ applied self one other }
    {
        match self {
            Operator::Add => one.wrapping_add(other),
            Operator::Sub => one.wrapping_sub(other),
            Operator::Mul => one.wrapping_mul(other),
            Operator::Div => quotient(one, other),
            Operator::Rem => remainder(one, other),
            Operator::BitAnd => one & other,
            Operator::BitOr => one | other,
            Operator::BitXor => one ^ other,
            Operator::Shl => shifted_left(one, other),
            Operator::Shr => shifted_right(one, other),
            Operator::Eq => truth(one == other),
            Operator::Ne => truth(one != other),
            Operator::Lt => truth(is_less(one, other)),
            Operator::Le => truth(!is_less(other, one)),
        }
    }
}

// A truth value as a number.
fn truth(holds: bool) -> u32
    ensures { result ≡ truth holds }
{
    if holds { 1 } else { 0 }
}

// Whether the number is below 0.
fn is_negative(number: u32) -> bool
    ensures { result ≡ is_negative number }
{
    number >= SIGN
}

/// Whether the one number is below the other (own).
pub fn is_less(one: u32, other: u32) -> bool
    ensures { result ≡ is_less one other }
{
    if is_negative(one) == is_negative(other) {
        one < other
    } else {
        is_negative(one)
    }
}

// 0 less the number.
fn negated(number: u32) -> u32
    ensures { result ≡ negated number }
{
    0u32.wrapping_sub(number)
}

// The number without its sign.
fn size(number: u32) -> u32
    ensures { result ≡ size number }
{
    if is_negative(number) {
        negated(number)
    } else {
        number
    }
}

// The quotient, rounded towards 0.
fn quotient(one: u32, other: u32) -> u32
    ensures { result ≡ quotient one other }
{
    let divisor = size(other);
    if divisor == 0 {
        return 0;
    }
    let whole = size(one) / divisor;
    if is_negative(one) == is_negative(other) {
        whole
    } else {
        negated(whole)
    }
}

// What the division leaves, with the sign of the first.
fn remainder(one: u32, other: u32) -> u32
    ensures { result ≡ remainder one other }
{
    let divisor = size(other);
    if divisor == 0 {
        return one;
    }
    let rest = size(one) % divisor;
    if is_negative(one) {
        negated(rest)
    } else {
        rest
    }
}

// The number with its bits moved to the left.
fn shifted_left(number: u32, by: u32) -> u32
    ensures { result ≡ shifted_left number by }
{
    number << (by % 32)
}

// The number with its bits moved to the right, and copies of the sign before them.
fn shifted_right(number: u32, by: u32) -> u32
    ensures { result ≡ shifted_right number by }
{
    if is_negative(number) {
        u32::MAX - ((u32::MAX - number) >> (by % 32))
    } else {
        number >> (by % 32)
    }
}
