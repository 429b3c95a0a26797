//! A word of 128 bits as eight lanes of 16 bits, of which a version vector gives one to each thread (own). Only this file knows
//! which bits a lane is.

ghost use Rattle.std.specs.Prelude.{◌≡◌, ◌≢◌, ◌↔◌, ◌∷◌, [], ℕ, ◌+◌, ◌<◌, ◌≤◌, IsTrue, MatchOption, max, if◌then◌else◌};
ghost use Rattle.loom_views.specs.Lanes.{lane, lanes_in, word_of, AreLarger, IsFirstLarger};

use std::simd::{u16x8, u64x2};

/// The number in a lane (own).
pub fn get(word: u128, thread: usize) -> u16
    requires { thread < 8 }
    ensures { result ≡ lane word thread }
{
    lanes(word).to_array()[thread]
}

/// The word with another number in a lane. Nothing else in it has changed (own).
pub fn set(word: u128, thread: usize, count: u16) -> u128
    requires { thread < 8 }
    ensures set { lane result thread ≡ count }
    ensures others { (t : ℕ) → t ≢ thread → lane result t ≡ lane word t }
{
    // Chosen lane by lane: an array that is written at one place would have to be in memory.
    let places = u16x8::from_array([0, 1, 2, 3, 4, 5, 6, 7]);
    let is_there = places.simd_eq(u16x8::splat(thread as u16));
    word_of(is_there.select(u16x8::splat(count), lanes(word)))
}

/// The word with one more in a lane whose number is below 65,535. Nothing else in it has changed (own).
pub fn raised(word: u128, thread: usize) -> u128
    requires within { thread < 8 }
    requires below { lane word thread < 65535 }
    ensures raised { lane result thread ≡ lane word thread + 1 }
    ensures others { (t : ℕ) → t ≢ thread → lane result t ≡ lane word t }
{
    // Added lane by lane: the other lanes have nothing added.
    let places = u16x8::from_array([0, 1, 2, 3, 4, 5, 6, 7]);
    let is_there = places.simd_eq(u16x8::splat(thread as u16));
    word_of(lanes(word) + is_there.select(u16x8::splat(1), u16x8::splat(0)))
}

/// The word with these numbers in the lanes of the threads, and zero in the others (own).
pub fn of(zeroth: u16, first: u16, second: u16, third: u16, fourth: u16) -> u128
    ensures { result ≡ word_of (zeroth ∷ first ∷ second ∷ third ∷ fourth ∷ []) }
{
    word_of(u16x8::from_array([zeroth, first, second, third, fourth, 0, 0, 0]))
}

/// The word with the larger number of each lane (own).
pub fn larger(word: u128, other: u128) -> u128
    ensures { (t : ℕ) → lane result t ≡ max (lane word t) (lane other t) }
{
    let own = lanes(word);
    let others = lanes(other);
    word_of(own.simd_max(others))
}

/// The word with the larger number of each lane, if that holds, or else the word as it is (own).
// Without a branch: whether it holds can often not be foretold.
pub fn larger_if(word: u128, other: u128, holds: bool) -> u128
    ensures { (t : ℕ) → lane result t ≡ (if holds then max (lane word t) (lane other t) else lane word t) }
{
    let own = lanes(word);
    let others = lanes(other);
    let kept = u16x8::splat(all_or_none(holds));
    word_of(own.simd_max(others & kept))
}

/// A lane's bits, all of them set if that holds, or else none.
fn all_or_none(holds: bool) -> u16
    ensures { result ≡ (if holds then 65535 else 0) }
{
    if holds { u16::MAX } else { 0 }
}

/// The lowest lane of which the other word has the larger number, and none exactly if there is no such lane (own).
pub fn first_larger(word: u128, other: u128) -> Option<usize>
    ensures { MatchOption result ((t : ℕ) → lane other t ≤ lane word t) (IsFirstLarger word other) }
{
    let own = lanes(word);
    let others = lanes(other);
    // A bit for each lane.
    let ahead = own.simd_lt(others).to_bitmask();
    if ahead == 0 {
        None
    } else {
        Some(ahead.trailing_zeros() as usize)
    }
}

/// Whether the other word has the larger number in each lane (own).
pub fn are_larger(word: u128, other: u128) -> bool
    ensures { IsTrue result ↔ AreLarger word other }
{
    let own = lanes(word);
    let others = lanes(other);
    // A bit for each lane.
    own.simd_lt(others).to_bitmask() == 255
}

/// The lanes of a word.
fn lanes(word: u128) -> u16x8
    ensures { result ≡ lanes_in word }
{
    let low = (word % 0x1_0000_0000_0000_0000) as u64;
    let high = (word >> 64) as u64;
    u16x8::from_le_bytes(u64x2::from_array([low, high]).to_le_bytes())
}

/// The word of some lanes.
fn word_of(lanes: u16x8) -> u128
    ensures { result ≡ word_of lanes }
{
    let [low, high] = u64x2::from_le_bytes(lanes.to_le_bytes()).to_array();
    u128::from(high) * 0x1_0000_0000_0000_0000 + u128::from(low)
}
