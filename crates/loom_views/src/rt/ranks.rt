//! The counts of views by their ranks: of each thread's counts that are somewhere in them, how many others are below. Rules see no
//! more of counts than their order, so views that are the same by their ranks are the same to them (own).

ghost use Rattle.std.specs.Prelude.{ℕ, ◌≡◌, ◌∷◌, [], ◌++◌, ◌<◌, ◌≤◌, IfOk, IfSome, IsTrue, OnOk, Some, map, replicate, slice_get};
ghost use Rattle.loom_views.specs.InOrder.{AreBelow, AreRising, IsRising, PairsCounts, Ranked, rank_of};
ghost use Rattle.loom_views.specs.Limits.{highest_version};

use crate::rt::MAX_THREADS;
use crate::rt::vv::{MAX_VERSION, VersionVec};
use crate::sequence::Sequence;
use std::alloc::{AllocError, Global};
use std::marker::Model;

// counts below this have ranks
const RANKED: usize = 512;

// so many counts a word has bits for; the ranks of the first ones take no memory
const BITS: usize = 64;

// of each thread so many words for the counts behind the first ones
const WORDS: usize = 7;

const ALL_WORDS: usize = 35;

// what stands for no rank: a number above all ranks
const NO_RANK: u16 = u16::MAX;

/// Which counts of each thread stand somewhere in some views, of those below 512 (own).
#[derive(Drop)]
pub struct Standing {
    // of each thread a bit for each of the first counts
    first: [u64; MAX_THREADS],
    // those behind them, of one thread behind those of the thread before it
    further: [u64; ALL_WORDS],
    // none of them stands from here on
    end: usize,
}

impl Standing {
    /// The count 0 of each thread, which stands wherever nothing has come (own).
    pub fn new() -> Standing {
        Standing {
            first: [1; MAX_THREADS],
            further: [0; ALL_WORDS],
            end: BITS,
        }
    }

    /// Adds a count of a thread (own).
    pub fn add(&mut self, thread: usize, count: u16) {
        let place = usize::from(count);
        if thread >= MAX_THREADS {
            return;
        }
        if place < BITS {
            self.first[thread] |= 1 << place;
            return;
        }
        self.add_further(thread, place);
    }

    /// Adds one behind the first ones.
    fn add_further(&mut self, thread: usize, place: usize) {
        if thread >= MAX_THREADS || place < BITS || place >= RANKED {
            return;
        }
        self.further[thread * WORDS + place / BITS - 1] |= 1 << (place % BITS);
        if self.end <= place {
            self.end = place + 1;
        }
    }

    /// Adds one that there may be (own).
    pub fn add_optional(&mut self, thread: usize, count: Option<u16>) {
        if let Some(count) = count {
            self.add(thread, count);
        }
    }

    /// Adds each count of a vector (own).
    pub fn add_all(&mut self, view: &VersionVec) {
        if view.word() == 0 {
            return;
        }
        let counts = view.versions();
        let [main, first, second, third, fourth] = counts;
        if usize::from(main | first | second | third | fourth) >= BITS {
            self.add_each(&counts);
            return;
        }
        self.first[0] |= 1 << (usize::from(main) % BITS);
        self.first[1] |= 1 << (usize::from(first) % BITS);
        self.first[2] |= 1 << (usize::from(second) % BITS);
        self.first[3] |= 1 << (usize::from(third) % BITS);
        self.first[4] |= 1 << (usize::from(fourth) % BITS);
    }

    /// Adds a count of each thread.
    fn add_each(&mut self, counts: &[u16; MAX_THREADS]) {
        for thread in 0..MAX_THREADS {
            self.add(thread, counts[thread]);
        }
    }

    /// Whether a count of a thread stands, one behind the first ones.
    fn stands(&self, thread: usize, count: usize) -> bool {
        if thread >= MAX_THREADS || count < BITS || count >= RANKED {
            return false;
        }
        (self.further[thread * WORDS + count / BITS - 1] >> (count % BITS)) % 2 == 1
    }

    /// The ranks of these counts. An error where memory is refused (own).
    pub fn ranks(&self, alloc: Global) -> Result<Option<Ranks>, AllocError>
        ensures { IfOk result (λ found. IfSome found (λ ranks. IsRising (Ranked ranks))) }
    {
        let threads = [
            self.ranks_of(alloc, 0)?,
            self.ranks_of(alloc, 1)?,
            self.ranks_of(alloc, 2)?,
            self.ranks_of(alloc, 3)?,
            self.ranks_of(alloc, 4)?,
        ];
        if !have_zeros(&threads) {
            return Ok(None);
        }
        Ok(Some(Ranks { threads }))
    }

    /// The ranks of a thread's counts: each that stands has one. An error where memory is refused.
    fn ranks_of(&self, alloc: Global, thread: usize) -> Result<ThreadRanks, AllocError>
        requires { thread < 5 }
        ensures { IfOk result (λ ranks. AreRising ranks) }
    {
        let mut first = [NO_RANK; BITS];
        let next = rank_first(self.first[thread], &mut first);
        let mut ranks = ThreadRanks::new(alloc, first);
        self.rank_further(thread, next, &mut ranks)?;
        Ok(ranks)
    }

    /// Ranks from this one on for the thread's counts behind the first ones. An error where memory is refused.
    fn rank_further(
        &self,
        thread: usize,
        next: u16,
        ranks: &mut ThreadRanks,
    ) -> Result<(), AllocError>
        requires rising { AreRising ranks.old }
        requires below { AreBelow next ranks.old }
        ensures { OnOk result (AreRising ranks.new) }
    {
        let mut rank = next;
        for count in BITS..self.end {
            if self.stands(thread, count) && rank < MAX_VERSION {
                ranks.push(Some(rank))?;
                rank += 1;
            } else {
                ranks.push(None)?;
            }
        }
        Ok(())
    }
}

/// Ranks those of the first counts that stand, which these bits say, where none has a rank. How many they are.
fn rank_first(stands: u64, ranks: &mut [u16; BITS]) -> u16
    requires none { ranks.old ≡ replicate 64 65535 }
    ensures rising { AreRising (map rank_of ranks.new) }
    ensures below { AreBelow result (map rank_of ranks.new) }
{
    let mut next = 0u16;
    let mut count = next_standing(stands, 0);
    while count < BITS {
        ranks[count] = next;
        next += 1;
        count = next_standing(stands, count + 1);
    }
    next
}

/// From this count on the first of those that these bits say, or one that they don't speak of.
fn next_standing(stands: u64, count: usize) -> usize
    ensures { count ≤ result }
{
    if count >= BITS {
        return count;
    }
    count + (stands >> count).trailing_zeros() as usize
}

/// The ranks of a thread's counts. A contract sees the list of them.
#[derive(Drop)]
struct ThreadRanks {
    // those of the first counts
    first: [u16; BITS],
    // those of the counts behind them
    further: Sequence<Option<u16>>,
}

impl Model for ThreadRanks {
    ghost use Rattle.std.specs.Prelude.{ℕ, ◌≡◌, ◌++◌, List, Option, length, map};
    ghost use Rattle.loom_views.specs.InOrder.{rank_of};

    ghost Value = { List (Option ℕ) };

    ghost view = { λ r. map rank_of r.first ++ r.further };

    ghost invariant = { λ r. length r.first ≡ 64 };
}

impl ThreadRanks {
    /// Those of the first counts alone.
    fn new(alloc: Global, first: [u16; BITS]) -> ThreadRanks
        ensures { result ≡ map rank_of first }
    {
        ThreadRanks {
            first,
            further: Sequence::new(alloc),
        }
    }

    /// That of one count more. An error where memory is refused.
    fn push(&mut self, rank: Option<u16>) -> Result<(), AllocError>
        ensures { OnOk result (self.new ≡ self.old ++ rank ∷ []) }
    {
        self.further.push(rank)
    }

    /// That of a count, if it has one.
    fn at(&self, count: usize) -> Option<u16>
        ensures ranked { IfSome result (λ rank. slice_get self.now count ≡ Some (Some rank)) }
        ensures most { IfSome result (λ rank. rank ≤ highest_version) }
    {
        if count < BITS {
            let rank = self.first[count];
            if rank > MAX_VERSION {
                return None;
            }
            return Some(rank);
        }
        let place = count - BITS;
        if place >= self.further.len() {
            return None;
        }
        match *self.further.at(place) {
            Some(rank) if rank <= MAX_VERSION => Some(rank),
            _ => None,
        }
    }
}

/// The rank of a thread's count there, if it has one.
fn rank_in(threads: &[ThreadRanks; MAX_THREADS], thread: usize, count: u16) -> Option<u16>
    ensures ranked { IfSome result (λ rank. Ranked threads.now thread count rank) }
    ensures most { IfSome result (λ rank. rank ≤ highest_version) }
{
    if thread >= MAX_THREADS {
        return None;
    }
    threads[thread].at(usize::from(count))
}

/// Whether the count 0 of each thread has the rank 0 there.
fn have_zeros(threads: &[ThreadRanks; MAX_THREADS]) -> bool
    ensures { IsTrue result → (t : ℕ) → t < 5 → Ranked threads.now t 0 0 }
{
    for thread in 0..MAX_THREADS {
        if rank_in(threads, thread, 0) != Some(0) {
            return false;
        }
    }
    true
}

/// For each thread, the ranks of its counts. The count 0 has the rank 0 (own).
#[derive(Drop)]
pub struct Ranks {
    threads: [ThreadRanks; MAX_THREADS],
}

impl Model for Ranks {
    ghost use Rattle.std.specs.Prelude.{ℕ, ◌<◌, List, Option};
    ghost use Rattle.loom_views.specs.InOrder.{Ranked};

    ghost Value = { List (List (Option ℕ)) };

    ghost view = { λ r. r.threads };

    ghost invariant = { λ r. (t : ℕ) → t < 5 → Ranked r.threads t 0 0 };
}

impl Ranks {
    /// The rank of a thread's count, if it has one (own).
    pub fn rank(&self, thread: usize, count: u16) -> Option<u16>
        ensures ranked { IfSome result (λ rank. Ranked self.now thread count rank) }
        ensures most { IfSome result (λ rank. rank ≤ highest_version) }
    {
        rank_in(&self.threads, thread, count)
    }

    /// The rank of a count that there may be: none of none (own).
    pub fn rank_optional(&self, thread: usize, count: Option<u16>) -> Option<Option<u16>>
        ensures ranked { IfSome result (λ rank. PairsCounts (Ranked self.now) thread count rank) }
        ensures most { IfSome result (λ rank. IfSome rank (λ ranked. ranked ≤ highest_version)) }
    {
        match count {
            Some(count) => Some(Some(self.rank(thread, count)?)),
            None => Some(None),
        }
    }

    /// The rank of the count 0 is 0 (own).
    pub fn zeros(&self)
        ensures { (t : ℕ) → t < 5 → Ranked self.now t 0 0 }
    {
        let _ = &self.threads;
    }
}
