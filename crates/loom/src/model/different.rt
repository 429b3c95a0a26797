//! How many of a walk's runs differ, by hashes of their choices (own).
ghost use Rattle.std.specs.Prelude.{◌≡◌, [], IfSome};
ghost use Rattle.loom_engine.specs.Path.Route.{chosen};
ghost use Rattle.loom.specs.Model.Different.{Adds, AllDifferentLaw, IsCount, Notes, code_of, hash_of, step};

use loom_engine::rt::path::Path;
use loom_objects::choice::Choice;
use std::alloc::Global;
use std::collections::HashSet;
use std::marker::Model;

/// So many different runs of a walk the programs tell apart at most (own).
pub const MOST_DIFFERENT: usize = 1_000_000;

/// The hashes of the runs that came, as long as their number is to be given.
#[derive(Drop)]
pub(crate) struct Different {
    hashes: HashSet<u64>,
    // so many are told apart at most
    most: usize,
    // whether no number is given: it isn't asked for, there were more, or memory for them was refused
    is_left_out: bool,
}

impl Model for Different {
    ghost use Rattle.loom.specs.Model.Different.{Counted};

    ghost Value = { Counted };

    ghost view = { λ d. record { hashes = d.hashes.keys; is_left_out = d.is_left_out } };
}

impl Different {
    /// Before any run. So many are told apart at most, if their number is asked for.
    pub(crate) fn new(alloc: Global, most: Option<usize>) -> Different
        ensures { result.hashes ≡ [] }
    {
        Different {
            hashes: HashSet::new(alloc),
            most: most.unwrap_or(0),
            is_left_out: most.is_none(),
        }
    }

    /// The run along this path came. Nothing is computed of it where no number is to be given.
    pub(crate) fn note_run(&mut self, path: &Path)
        ensures { Notes (hash_of (chosen path.now)) self.old self.new }
    {
        if self.is_left_out {
            return;
        }
        self.note(hash_along(path));
    }

    /// A run came whose choices have this hash. Where there are too many, or memory for it is refused, their number is left out.
    pub(crate) fn note(&mut self, hash: u64)
        ensures { Notes hash self.old self.new }
    {
        if self.hashes.len() >= self.most && !self.hashes.contains(&hash) {
            self.is_left_out = true;
            return;
        }
        match self.hashes.insert(hash) {
            Ok(_) => {}
            Err(_) => self.is_left_out = true,
        }
    }

    /// The runs of another count came.
    pub(crate) fn join(&mut self, other: Different)
        ensures { Adds other self.old self.new }
    {
        if self.is_left_out || other.is_left_out {
            self.is_left_out = true;
            return;
        }
        'hashes: for hash in other.hashes.iter() {
            self.note(*hash);
        }
    }

    /// How many runs differ, if that is known: so many at least, since two with one hash count once.
    pub(crate) fn count(&self) -> Option<u64>
        ensures { IfSome result (IsCount self.now) }
    {
        if self.is_left_out {
            return None;
        }
        Some(self.hashes.len() as u64)
    }
}

/// A hash of the choices of the run that has come along the path.
fn hash_along(path: &Path) -> u64
    ensures { result ≡ hash_of (chosen path.now) }
{
    let mut hash = 0u64;
    'choices: for place in 0..path.position() {
        hash = step(hash, path.choice(place));
    }
    hash
}

/// A hash of the choices.
pub(crate) fn hash_of(choices: &[Choice]) -> u64
    ensures { result ≡ hash_of choices.now }
{
    let mut hash = 0u64;
    let mut rest = choices;
    while let Some((first, tail)) = rest.split_first() {
        hash = step(hash, *first);
        rest = tail;
    }
    hash
}

/// The hash with one more choice.
fn step(hash: u64, choice: Choice) -> u64
    ensures { result ≡ step hash choice }
{
    hash.wrapping_mul(6_364_136_223_846_793_005)
        .wrapping_add(code_of(choice))
}

/// A number of the choice.
fn code_of(choice: Choice) -> u64
    ensures { result ≡ code_of choice }
{
    match choice {
        Choice::Thread(None) => 1,
        Choice::Thread(Some(thread)) => 2 + u64::from(thread),
        Choice::Load(slot) => 300 + u64::from(slot),
        Choice::Spurious(false) => 600,
        Choice::Spurious(true) => 601,
    }
}

/// Where no two runs that differ have the same hash, those that are counted are all that there are.
pub fn all_are_counted()
    ensures { AllDifferentLaw }
{}
