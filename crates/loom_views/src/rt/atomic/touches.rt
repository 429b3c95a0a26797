//! The version of each thread when it first touched a store, as one word (own).

ghost use Rattle.std.specs.Prelude.{◌≡◌, ◌≢◌, ◌<◌, ◌≤◌, ℕ, IfSome, None, Some, slice_index_or, slice_set};
ghost use Rattle.loom_views.specs.Atomic.Ring.{is_touch_in};
ghost use Rattle.loom_views.specs.Atomic.Touches.{untouched};
ghost use Rattle.loom_views.specs.InOrder.{PairsTouches, Ranked};
ghost use Rattle.loom_views.specs.Limits.{highest_version};

use crate::rt::MAX_THREADS;
use crate::rt::ranks::{Ranks, Standing};
use crate::rt::vv::{VersionVec, lanes, word_digest};
use crate::same::Same;
use std::marker::Model;

// in the lane of a thread that hasn't touched the store, and in those of no thread: more than any version
const UNTOUCHED: u16 = u16::MAX;

/// For each thread its version at its first touch, if there was one: a lane of 16 bits for each (own).
#[derive(Clone, Copy)]
pub struct Touches {
    word: u128,
}

impl Model for Touches {
    ghost use Rattle.std.specs.Prelude.{ℕ, List, Option};
    ghost use Rattle.std.proofs.Common.{ap};
    ghost use Rattle.loom_views.specs.Atomic.Touches.{touches_in, word_of, IsPadded, word_of-touches_in};

    ghost Value = { List (Option ℕ) };

    ghost view = { λ t. touches_in t.word };

    ghost invariant = { λ t. IsPadded t.word };

    ghost inverse = { λ ts. record { word = word_of ts } };

    ghost inverse_ok = { λ a h. ap (λ (w : ℕ). record { word = w }) (word_of-touches_in a.word h) };
}

impl Touches {
    /// No thread has touched the store (own).
    pub fn new() -> Touches
        ensures { result ≡ untouched }
    {
        Touches { word: u128::MAX }
    }

    /// The thread's version at its first touch, if there was one (own).
    pub fn at(&self, thread: usize) -> Option<u16>
        requires { thread < 5 }
        ensures { result ≡ slice_index_or self.now thread None }
    {
        let version = lanes::get(self.word, thread);
        if version == UNTOUCHED {
            None
        } else {
            Some(version)
        }
    }

    /// The thread's first touch is at this version (own).
    pub fn set(&mut self, thread: usize, version: u16)
        requires thread_in { thread < 5 }
        requires counted { version ≤ highest_version }
        ensures { self.new ≡ slice_set self.old thread (Some version) }
    {
        self.word = lanes::set(self.word, thread, version);
    }

    /// Whether a touch is in this view (own).
    pub fn is_one_in(&self, view: &VersionVec) -> bool
        ensures { result ≡ is_touch_in self.now view.now }
    {
        !lanes::are_larger(view.word(), self.word)
    }
}

impl Same for Touches {
    fn is_same(&self, other: &Touches) -> bool {
        self.word == other.word
    }
}

impl Touches {
    /// Another first touch of the thread, or none.
    fn put(&mut self, thread: usize, version: Option<u16>)
        requires thread_in { thread < 5 }
        requires counted { IfSome version (λ count. count ≤ highest_version) }
        ensures put { slice_index_or self.new thread None ≡ version }
        ensures others { (t : ℕ) → t < 5 → t ≢ thread → slice_index_or self.new t None ≡ slice_index_or self.old t None }
    {
        self.word = lanes::set(self.word, thread, version.unwrap_or(UNTOUCHED));
    }

    /// A number that depends on them alone (own).
    pub fn digest(&self) -> u64 {
        word_digest(self.word)
    }

    /// Adds their counts (own).
    pub fn stand(&self, standing: &mut Standing) {
        if self.word == u128::MAX {
            return;
        }
        for thread in 0..MAX_THREADS {
            standing.add_optional(thread, self.at(thread));
        }
    }

    /// First touches by ranks, if each count has one (own).
    pub fn ranked(&self, ranks: &Ranks) -> Option<Touches>
        ensures { IfSome result (λ ranked. PairsTouches (Ranked ranks.now) self.now ranked) }
    {
        if self.word == u128::MAX {
            return Some(*self);
        }
        let mut ranked = *self;
        for thread in 0..MAX_THREADS {
            if let Some(version) = self.at(thread) {
                let rank = ranks.rank(thread, version)?;
                ranked.put(thread, Some(rank));
            }
        }
        Some(ranked)
    }
}
