//! Draws the choices of a walk's runs (own).
ghost use Rattle.std.specs.Prelude.{◌<◌};

use crate::model::walk::Walk;
use loom_engine::rt::path::drawing::Chooser;
use loom_objects::rt::schedule::{Ability, Offers};
use loom_views::rt::{MAX_ATOMIC_HISTORY, MAX_THREADS};
use rand::RngExt;
use rand_core::{Rng, SeedableRng};
use rand_xoshiro::Xoshiro256PlusPlus;

/// So many runs one after another are a leg of a walk. The choices of each leg are drawn from numbers of its own, so that it can be made
/// without those before it.
pub(crate) const LEG_RUNS: u64 = 1000;

/// Draws choices: loads and spurious wake-ups evenly, and threads evenly or by priorities.
#[derive(Clone, Drop)]
pub(crate) struct Drawer {
    rng: Xoshiro256PlusPlus,
    // of the next leg
    next: Xoshiro256PlusPlus,
    // how many runs of this leg are left
    left: u64,
    // of threads that aren't drawn evenly
    priorities: Option<Priorities>,
}

/// A thread that hasn't sunk has a priority of this or more.
const AFLOAT: u64 = 1 << 63;

/// The priorities of threads, and how often they are still to change in this run.
#[derive(Clone, Copy)]
struct Priorities {
    of: [u64; MAX_THREADS],
    // the priority of the thread that has sunk last
    lowest: u64,
    changes_left: u64,
    // how many schedules the run has passed, and the most that a run of the leg before it has
    passed: u64,
    most: u64,
    // how often they change in each run
    changes: u64,
}

impl Drawer {
    /// Before the first leg of the walk.
    pub(crate) fn new(walk: Walk) -> Drawer {
        match walk {
            Walk::Random { seed, .. } => Drawer::at(seed, None),
            Walk::Priorities { seed, depth, .. } => {
                let changes = u64::from(depth).saturating_sub(1);
                Drawer::at(seed, Some(Priorities::new(changes)))
            }
        }
    }

    /// Before the first leg of this seed.
    fn at(seed: u64, priorities: Option<Priorities>) -> Drawer {
        Drawer {
            rng: Xoshiro256PlusPlus::seed_from_u64(seed),
            next: Xoshiro256PlusPlus::seed_from_u64(seed),
            left: 0,
            priorities,
        }
    }

    /// One that begins with the next leg. This one goes on behind that leg.
    pub(crate) fn hand_out(&mut self) -> Drawer {
        let leg = Drawer {
            rng: same_state(&self.next),
            next: same_state(&self.next),
            left: 0,
            priorities: self.priorities,
        };
        self.next.jump();
        self.left = 0;
        leg
    }

    /// Before the first run of the next leg. Each leg has 2^128 numbers.
    fn begin_leg(&mut self) {
        self.rng = same_state(&self.next);
        self.next.jump();
        self.left = LEG_RUNS;
        if let Some(priorities) = &mut self.priorities {
            *priorities = Priorities::new(priorities.changes);
        }
    }

    /// A number below this one.
    #[inline(always)]
    fn below(&mut self, count: usize) -> usize
        requires { 0 < count }
        ensures { result < count }
    {
        let word = self.rng.next_u64();
        ((u128::from(word) * count as u128) >> 64) as usize
    }

    /// Before another run.
    pub(crate) fn begin(&mut self) {
        if self.left == 0 {
            self.begin_leg();
        }
        self.left = self.left.saturating_sub(1);
        if let Some(priorities) = &mut self.priorities {
            priorities.begin(&mut self.rng);
        }
    }
}

/// Another generator that gives the same numbers.
fn same_state(rng: &Xoshiro256PlusPlus) -> Xoshiro256PlusPlus {
    Xoshiro256PlusPlus::from_seed(rng.state())
}

impl Chooser for Drawer {
    #[inline(always)]
    fn thread(&mut self, offers: &Offers) -> Option<u8> {
        if let Some(priorities) = &mut self.priorities {
            return priorities.thread(&mut self.rng, &offers.abilities);
        }
        let able = Options::able(&offers.abilities);
        let count = able.count();
        if count > 1 {
            Some(able.at(self.below(count)))
        } else {
            offers.default
        }
    }

    #[inline(always)]
    fn slot(&mut self, readable: &[bool; MAX_ATOMIC_HISTORY]) -> u8 {
        let slots = Options::readable(readable);
        let count = slots.count();
        if count > 1 {
            slots.at(self.below(count))
        } else {
            slots.at(0)
        }
    }

    fn is_spurious(&mut self) -> bool {
        self.below(2) == 1
    }
}

/// Those among which one is drawn: the threads that can go on, or the slots that may be read. How many of them there are up to each
/// number, that one included.
#[derive(Clone, Copy)]
struct Options {
    counts: [usize; MAX_ATOMIC_HISTORY],
}

impl Options {
    /// The threads that can go on.
    #[inline(always)]
    fn able(abilities: &[Ability; MAX_THREADS]) -> Options {
        let mut counts = [0; MAX_ATOMIC_HISTORY];
        let mut count = 0usize;
        'threads: for thread in 0..MAX_ATOMIC_HISTORY {
            count += usize::from(thread < MAX_THREADS && abilities[thread] == Ability::Able);
            counts[thread] = count;
        }
        Options { counts }
    }

    /// The slots that may be read.
    #[inline(always)]
    fn readable(readable: &[bool; MAX_ATOMIC_HISTORY]) -> Options {
        let mut counts = [0; MAX_ATOMIC_HISTORY];
        let mut count = 0usize;
        'slots: for slot in 0..MAX_ATOMIC_HISTORY {
            count += usize::from(readable[slot]);
            counts[slot] = count;
        }
        Options { counts }
    }

    /// How many there are.
    #[inline(always)]
    fn count(&self) -> usize {
        self.counts[MAX_ATOMIC_HISTORY - 1]
    }

    /// The option at a place.
    // Each number is looked at: what is drawn can't be foretold, and would be waited for where it is looked up.
    #[inline(always)]
    fn at(&self, place: usize) -> u8 {
        let mut option = 0u8;
        'numbers: for number in 0..MAX_ATOMIC_HISTORY {
            option += u8::from(self.counts[number] <= place);
        }
        option
    }
}

impl Priorities {
    /// Before the first run of a leg: they are to change so often in each.
    fn new(changes: u64) -> Priorities {
        Priorities {
            of: [AFLOAT; MAX_THREADS],
            lowest: AFLOAT,
            changes_left: changes,
            passed: 0,
            most: 0,
            changes,
        }
    }

    /// Before another run they are drawn anew.
    fn begin<R: Rng>(&mut self, rng: &mut R) {
        self.lowest = AFLOAT;
        self.changes_left = self.changes;
        self.most = self.most.max(self.passed);
        self.passed = 0;
        for place in 0..MAX_THREADS {
            self.of[place] = rng.next_u64() | AFLOAT;
        }
    }

    /// The thread that goes on at the next schedule.
    fn thread<R: Rng>(&mut self, rng: &mut R, abilities: &[Ability; MAX_THREADS]) -> Option<u8> {
        self.sink_yielding(abilities);
        let first = self.highest(abilities)?;
        let still = self.most.saturating_sub(self.passed);
        self.passed = self.passed.saturating_add(1);
        if still == 0 || rng.random_range(0..still) >= self.changes_left {
            return Some(first);
        }
        self.changes_left -= 1;
        self.sink(first as usize);
        self.highest(abilities)
    }

    /// Each thread that has yielded sinks.
    fn sink_yielding(&mut self, abilities: &[Ability; MAX_THREADS]) {
        for place in 0..MAX_THREADS {
            if abilities[place] == Ability::Yielding {
                self.sink(place);
            }
        }
    }

    /// The thread sinks below all others.
    fn sink(&mut self, place: usize) {
        self.lowest = self.lowest.saturating_sub(1);
        if let Some(priority) = self.of.get_mut(place) {
            *priority = self.lowest;
        }
    }

    /// Of the threads that can go on the one with the highest priority, the first one on a tie.
    fn highest(&self, abilities: &[Ability; MAX_THREADS]) -> Option<u8> {
        let mut best = None;
        let mut highest = 0u64;
        for place in 0..MAX_THREADS {
            let priority = self.of[place];
            if abilities[place] == Ability::Able && (best.is_none() || priority > highest) {
                best = Some(place as u8);
                highest = priority;
            }
        }
        best
    }
}
