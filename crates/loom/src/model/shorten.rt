//! A run that fails as another one does, but is shorter (own).
ghost use Rattle.std.specs.Prelude.{◌≡◌, ◌≤◌, ◌⊎◌, Err, IfOk, IfErr, IfSome, IsTrue, None, false};
ghost use Rattle.loom_engine.specs.Path.Route.{chosen};
ghost use Rattle.loom_engine.specs.Runs.Body.{runs as runs_of};
ghost use Rattle.loom_engine.specs.Trees.Meeting.{whole_search};
ghost use Rattle.loom.specs.Model.Settings.{explores, tested};
ghost use Rattle.loom.specs.Model.Shorter.{FailsSo, IsBetter, ReplaysTo, Shortens};
ghost use Rattle.loom.specs.Model.Walking.{EndsDrawn};

use crate::model::builder::Builder;
use crate::model::error::CheckError;
use crate::model::follower::Follower;
use crate::model::run::{Ending, Room};
use loom_engine::rt::path::Path;
use loom_objects::body::Body;
use loom_objects::choice::Choice;
use loom_objects::failure::Failure;
use loom_views::rt::failure::FailureKind;
use std::alloc::{AllocError, Global};

/// A run that fails, and how many runs were made to find it (own).
#[derive(Debug, PartialEq, Eq, Drop)]
pub struct Shortened {
    /// Why it fails.
    pub failure: Failure,
    /// The choices that lead there.
    pub choices: Vec<Choice>,
    /// How many runs were made.
    pub runs: u64,
}

/// The shortest failing run so far.
#[derive(Drop)]
struct Shortest {
    choices: Vec<Choice>,
    preemptions: u32,
}

/// A run by a change.
#[derive(Drop)]
struct Tried<D> {
    ending: Ending<D>,
    // the number behind that of the change
    next: usize,
}

/// The shorter one of two runs.
#[derive(Drop)]
struct Better {
    shortest: Shortest,
    is_new: bool,
}

impl Builder {
    /// Looks for a run that fails by the same kind as the run by these choices, but has fewer preemptions, or as many and fewer choices.
    /// Switches from one thread to another are put off or made earlier one after another, and what isn't needed is left out, as long as
    /// that shortens the run, or until so many runs were made, with the given one. It answers the shortest that was found, which may be
    /// the given one, or `None` where that one doesn't fail. Errors are those of `replay` (own).
    pub fn shorten<B: Body>(
        &self,
        alloc: Global,
        body: &B,
        choices: &[Choice],
        most_runs: u64,
    ) -> Result<Option<Shortened>, CheckError>
        ensures shortens { IfOk result (Shortens self.now (runs_of B.next (explores self.now) self.now.max_threads self.now.max_steps body.now) choices.now) }
        ensures refused { IfErr (tested self.now) (λ e. result ≡ Err e) }
        ensures errors { IfErr result (λ e. (e ≡ CheckError.Memory) ⊎ (tested self.now ≡ Err e)) }
    {
        self.test()?;
        let explores = !self.expect_explicit_explore;
        let mut path = Path::following(alloc, explores, self.max_branches as u32, choices)?;
        match self.run_once(alloc, body, &mut path)? {
            Ending::Ended(_) => Ok(None),
            Ending::Failed(failure) => {
                let given = Shortest {
                    choices: choices.to_vec(alloc)?,
                    preemptions: path.preemptions(),
                };
                let found = self.shorten_given(alloc, body, given, failure.kind, most_runs)?;
                Ok(Some(found))
            }
        }
    }

    /// What is found from this run on, which fails so, in a room of its own.
    fn shorten_given<B: Body>(
        &self,
        alloc: Global,
        body: &B,
        given: Shortest,
        kind: FailureKind,
        most_runs: u64,
    ) -> Result<Shortened, AllocError>
        requires some { 1 ≤ self.now.max_threads }
        requires few { self.now.max_threads ≤ 5 }
        requires branches { self.now.max_branches ≤ 1000000 }
        requires fails { ReplaysTo self.now.max_branches (runs_of B.next (explores self.now) self.now.max_threads self.now.max_steps body.now) given.choices.items kind }
        ensures kind { IfOk result (λ found. found.failure.kind ≡ kind) }
        ensures placed { IfOk result (λ found. self.now.location ≡ false → found.failure.location ≡ None) }
        ensures fails { IfOk result (λ found. ReplaysTo self.now.max_branches (runs_of B.next (explores self.now) self.now.max_threads self.now.max_steps body.now) found.choices.items kind) }
    {
        let mut room = Room::new(alloc, self.limits())?;
        let answer = self.shorten_from(alloc, &mut room, body, given, kind, most_runs);
        room.leave();
        let (shortest, runs) = answer?;
        Ok(Shortened {
            failure: self.placed(alloc, body, kind, &shortest.choices)?,
            choices: shortest.choices,
            runs,
        })
    }

    /// The shortest run that fails so which is found from this one on, and how many runs were made with the first one.
    fn shorten_from<B: Body>(
        &self,
        alloc: Global,
        room: &mut Room<B>,
        body: &B,
        given: Shortest,
        kind: FailureKind,
        most_runs: u64,
    ) -> Result<(Shortest, u64), AllocError>
        requires some { 1 ≤ self.now.max_threads }
        requires few { self.now.max_threads ≤ 5 }
        requires branches { self.now.max_branches ≤ 1000000 }
        requires fails { ReplaysTo self.now.max_branches (runs_of B.next (explores self.now) self.now.max_threads self.now.max_steps body.now) given.choices.items kind }
        ensures fails { IfOk result (λ found. ReplaysTo self.now.max_branches (runs_of B.next (explores self.now) self.now.max_threads self.now.max_steps body.now) found.0.choices.items kind) }
    {
        let mut path = Path::new(alloc, self.drawn_search());
        let mut shortest = given;
        let mut number = 0;
        'runs: for runs in 1..most_runs {
            let found = self.try_change(alloc, room, body, &mut path, &shortest, number)?;
            let Some(tried) = found else {
                return Ok((shortest, runs));
            };
            let better = better_of(alloc, shortest, &path, &tried.ending, kind)?;
            shortest = better.shortest;
            number = if better.is_new { 0 } else { tried.next };
        }
        Ok((shortest, most_runs))
    }

    /// Makes the run by the change of this number or the next one that makes a difference. None where no change is left.
    fn try_change<B: Body>(
        &self,
        alloc: Global,
        room: &mut Room<B>,
        body: &B,
        path: &mut Path,
        shortest: &Shortest,
        number: usize,
    ) -> Result<Option<Tried<B::Data>>, AllocError>
        requires some { 1 ≤ self.now.max_threads }
        requires few { self.now.max_threads ≤ 5 }
        requires search { path.old.search ≡ whole_search self.now.max_branches }
        requires explores { path.old.explores ≡ explores self.now }
        ensures drawn { IfOk result (λ tried. IfSome tried (λ t. EndsDrawn self.now.max_branches (runs_of B.next (explores self.now) self.now.max_threads self.now.max_steps body.now) (chosen path.new) t.ending)) }
        ensures search { path.new.search ≡ whole_search self.now.max_branches }
        ensures explores { path.new.explores ≡ explores self.now }
    {
        match Follower::next(alloc, &shortest.choices, number)? {
            None => Ok(None),
            Some((mut follower, next)) => {
                let ending = self.draw(room, body, path, &mut follower)?;
                Ok(Some(Tried { ending, next }))
            }
        }
    }
}

impl Shortest {
    /// Whether it has more preemptions than the run along this path, or as many and more choices.
    fn is_longer_than(&self, path: &Path) -> bool {
        (path.preemptions(), path.position()) < (self.preemptions, self.choices.len())
    }
}

/// The shortest run so far, or the one along this path, where that ended so that it failed by this kind, and is shorter.
fn better_of<D>(
    alloc: Global,
    shortest: Shortest,
    path: &Path,
    ending: &Ending<D>,
    kind: FailureKind,
) -> Result<Better, AllocError>
    ensures { IfOk result (λ better. IsBetter kind ending.now (chosen path.now) shortest.choices.items better.shortest.choices.items) }
{
    if fails_so(ending, kind) && shortest.is_longer_than(path) {
        return Ok(Better {
            shortest: Shortest {
                choices: path.choices(alloc)?,
                preemptions: path.preemptions(),
            },
            is_new: true,
        });
    }
    Ok(Better {
        shortest,
        is_new: false,
    })
}

/// Whether a run that ended so failed by this kind.
fn fails_so<D>(ending: &Ending<D>, kind: FailureKind) -> bool
    ensures { IsTrue result → FailsSo kind ending.now }
{
    match ending {
        Ending::Failed(failure) => failure.kind == kind,
        Ending::Ended(_) => false,
    }
}
