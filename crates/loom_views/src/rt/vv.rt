//! Version vectors: how often each thread has raised its version, as far as a view reaches. They are plain values; no call
//! here takes memory.

ghost use Rattle.std.specs.Prelude.{◌≡◌, ◌≢◌, ◌∷◌, [], ℕ, ◌+◌, ◌<◌, ◌≤◌, ◌↔◌, false, IsTrue, IfSome, slice_index, MatchOption, if◌then◌else◌};
ghost use Rattle.loom_views.specs.InOrder.{PairsVectors, Ranked};
ghost use Rattle.std.specs.Bool.{OnTrue, OnFalse};
ghost use Rattle.loom_views.specs.Lanes.{IsLaidOut, word_digest};
ghost use Rattle.loom_views.specs.Limits.{highest_version};
ghost use Rattle.loom_views.specs.Versions.{IsCounted, zeros, join, within, raised_at, versions_cmp, versions_eq, IsFirstAhead, IsLeastUpperBound};
ghost use Rattle.loom_views.specs.VersionOrder.{versions_partial_equiv, versions_equiv, versions_order};

use crate::rt::MAX_THREADS;
use crate::rt::ranks::Ranks;
use crate::same::Same;
use std::cmp::Ordering;
use std::marker::Model;

pub mod lanes;

/// The most raises of one thread that a vector counts: 65,534 (own; loom's count overflows).
pub const MAX_VERSION: u16 = 65_534;

/// How often each thread has raised its version, as far as a view reaches: a count for each thread, none of them above
/// `MAX_VERSION` (loom's `rt/vv.rs`). It is one word, with a lane of 16 bits for each thread (own).
#[derive(Clone, Copy)]
pub struct VersionVec {
    word: u128,
}

impl Model for VersionVec {
    ghost use Rattle.std.specs.Prelude.{ℕ, List, ◌<◌, ◌^◌};
    ghost use Rattle.std.proofs.Common.{ap};
    ghost use Rattle.loom_views.specs.Lanes.{counts_in, word_of, word_of-counts_in};
    ghost use Rattle.loom_views.specs.Versions.{IsCounted};
    ghost use Rattle.loom_views.specs.declared.rt.vv.VersionVec.TheInside.{Inside};

    ghost Value = { List ℕ };

    ghost view = { λ v. counts_in v.word };

    ghost invariant = { λ v. IsCounted (counts_in v.word) × (v.word < 2 ^ 80) };

    ghost inverse = { λ vs. record { word = word_of vs } };

    ghost inverse_ok = { λ a h. ap (λ (w : ℕ). record { word = w }) (word_of-counts_in a.word h.1) };
}

impl VersionVec {
    /// No version raised (loom's `rt/vv.rs`).
    pub fn new() -> VersionVec
        ensures { result ≡ zeros }
    {
        VersionVec { word: 0 }
    }

    /// The counts in the order of the threads, none above `MAX_VERSION` (loom's `rt/vv.rs`).
    pub fn versions(&self) -> [u16; MAX_THREADS]
        ensures value { result ≡ self.now }
        ensures counted { IsCounted result }
    {
        let word = self.word;
        [
            lanes::get(word, 0),
            lanes::get(word, 1),
            lanes::get(word, 2),
            lanes::get(word, 3),
            lanes::get(word, 4),
        ]
    }

    /// The word: thread t's count in the bits 16 t to 16 t + 15, and zero in the bits 80 to 127 (own).
    pub fn word(&self) -> u128
        ensures laid_out { IsLaidOut self.now result }
        ensures counted { IsCounted self.now }
    {
        self.word
    }

    /// A thread's count, at most `MAX_VERSION` (loom's `rt/vv.rs`, where it is an index).
    pub fn version(&self, thread: usize) -> u16
        requires { thread < 5 }
        ensures value { result ≡ slice_index self.now thread }
        ensures counted { result ≤ highest_version }
    {
        lanes::get(self.word, thread)
    }

    /// Raises a thread's version by one. At `MAX_VERSION` it answers false instead, and changes nothing (loom's `rt/vv.rs`;
    /// the limit is own).
    pub fn inc(&mut self, thread: usize) -> bool
        requires { thread < 5 }
        ensures raised { OnTrue result (self.new ≡ raised_at self.old thread) }
        ensures full { (result ≡ false) ↔ (slice_index self.old thread ≡ highest_version) }
        ensures unchanged { OnFalse result (self.new ≡ self.old) }
        ensures counted { slice_index self.old thread ≤ highest_version }
    {
        if lanes::get(self.word, thread) < MAX_VERSION {
            self.word = lanes::raised(self.word, thread);
            true
        } else {
            false
        }
    }

    /// Takes the larger count of each thread, which is the least vector above both (loom's `rt/vv.rs`).
    pub fn join(&mut self, other: &VersionVec)
        ensures joined { self.new ≡ join self.old other.now }
        ensures bound { IsLeastUpperBound self.old other.now self.new }
    {
        self.word = lanes::larger(self.word, other.word);
    }

    /// `join`, if that holds (own).
    pub fn join_if(&mut self, other: &VersionVec, holds: bool)
        ensures { self.new ≡ (if holds then join self.old other.now else self.old) }
    {
        self.word = lanes::larger_if(self.word, other.word, holds);
    }

    /// The lowest thread whose count is larger in the other vector, and none exactly if the other one is inside this one
    /// (loom's `rt/vv.rs`).
    pub fn ahead(&self, other: &VersionVec) -> Option<usize>
        ensures { MatchOption result (IsTrue (within other.now self.now)) (IsFirstAhead self.now other.now) }
    {
        lanes::first_larger(self.word, other.word)
    }

    /// Whether it is seen by a digest of 64 bits that the two have other counts (own).
    pub fn differs(&self, other: &VersionVec) -> bool
        ensures { IsTrue result → versions_eq self.now other.now ≡ false }
    {
        word_digest(self.word) != word_digest(other.word)
    }

    /// Whether no count here is above the other vector's (own; loom writes `<=`).
    pub fn is_within(&self, other: &VersionVec) -> bool
        ensures test { result ≡ within self.now other.now }
        ensures componentwise { IsTrue result ↔ ((t : ℕ) → t < 5 → slice_index self.now t ≤ slice_index other.now t) }
    {
        other.ahead(self).is_none()
    }
}

impl VersionVec {
    /// The vector of these counts.
    fn of(zeroth: u16, first: u16, second: u16, third: u16, fourth: u16) -> VersionVec
        requires counted { IsCounted (zeroth ∷ first ∷ second ∷ third ∷ fourth ∷ []) }
        ensures { result ≡ zeroth ∷ first ∷ second ∷ third ∷ fourth ∷ [] }
    {
        VersionVec {
            word: lanes::of(zeroth, first, second, third, fourth),
        }
    }

    /// The ranks of its counts, if each has one (own).
    pub fn ranked(&self, ranks: &Ranks) -> Option<VersionVec>
        ensures { IfSome result (λ ranked. PairsVectors (Ranked ranks.now) self.now ranked) }
    {
        if self.word == 0 {
            ranks.zeros();
            return Some(*self);
        }
        let zeroth = ranks.rank(0, self.version(0))?;
        let first = ranks.rank(1, self.version(1))?;
        let second = ranks.rank(2, self.version(2))?;
        let third = ranks.rank(3, self.version(3))?;
        let fourth = ranks.rank(4, self.version(4))?;
        Some(VersionVec::of(zeroth, first, second, third, fourth))
    }
}

impl VersionVec {
    /// A number that depends on the counts alone (own).
    pub fn digest(&self) -> u64 {
        word_digest(self.word)
    }
}

/// A number that depends on a word alone (own).
pub fn word_digest(word: u128) -> u64
    ensures { result ≡ word_digest word }
{
    let low = (word % 0x1_0000_0000_0000_0000) as u64;
    let high = (word >> 64) as u64;
    low ^ high.wrapping_mul(0xD6E8_FEB8_6659_FD93)
}

/// A number that depends on two (own).
pub fn mixed(one: u64, other: u64) -> u64 {
    (one ^ (one >> 29))
        .wrapping_mul(0x9E37_79B9_7F4A_7C15)
        .wrapping_add(other)
}

/// Two vectors are equal where each is inside the other, which is where they have the same counts: law
/// `crate::laws::equal_vectors_are_same` (loom's `rt/vv.rs`).
impl PartialEq for VersionVec {
    ghost eq = { versions_eq };

    ghost laws = { versions_partial_equiv };

    fn eq(&self, other: &VersionVec) -> bool {
        self.is_within(other) && other.is_within(self)
    }
}

impl Eq for VersionVec {
    ghost laws = { versions_equiv };
}

/// The order of each count, which is a partial order: two vectors of which neither is inside the other aren't compared
/// (loom's `rt/vv.rs`).
impl PartialOrd for VersionVec {
    ghost partial_cmp = { versions_cmp };

    ghost laws = { versions_order };

    fn partial_cmp(&self, other: &VersionVec) -> Option<Ordering> {
        match (self.is_within(other), other.is_within(self)) {
            (true, true) => Some(Ordering::Equal),
            (true, false) => Some(Ordering::Less),
            (false, true) => Some(Ordering::Greater),
            (false, false) => None,
        }
    }
}

impl Same for VersionVec {
    fn is_same(&self, other: &VersionVec) -> bool {
        self.word == other.word
    }
}
