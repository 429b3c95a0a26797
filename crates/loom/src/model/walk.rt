//! Walks: so many runs of a body, whose choices are drawn, for where no search would end (own).
ghost use Rattle.std.specs.Prelude.{◌≡◌, ◌≤◌, ◌<◌, ◌-◌, ◌^◌, ◌⊎◌, [], Err, IfOk, IfErr, IsTrue, None, false};
ghost use Rattle.loom_engine.specs.Path.Route.{chosen, settings};
ghost use Rattle.loom_engine.specs.Runs.Body.{runs as runs_of};
ghost use Rattle.loom_engine.specs.Trees.Meeting.{whole_search};
ghost use Rattle.loom.specs.Model.Check.{HasLasted};
ghost use Rattle.loom.specs.Model.Settings.{explores, tested};
ghost use Rattle.loom.specs.Model.Walking.{EndsDrawn, TakesRun, Walks, WalksNoEqualOrders, WalksNoting, asked_runs, is_cut};

use crate::model::builder::Builder;
use crate::model::clock::Clock;
use crate::model::different::Different;
use crate::model::drawer::Drawer;
use crate::model::error::CheckError;
use crate::model::limits::log_runs;
use crate::model::paths::path_search;
use crate::model::report::{CutChoices, RunCount, TELLS};
use crate::model::run::drawing::draw_run;
use crate::model::run::{Ending, Room};
use crate::model::visitor::Visitor;
use log::Log;
use loom_engine::rt::path::drawing::Chooser;
use loom_engine::rt::path::{Path, Search};
use loom_objects::body::Body;
use loom_objects::choice::Choice;
use loom_objects::failure::Failure;
use loom_views::rt::failure::FailureKind;
use std::alloc::{AllocError, Global};
use std::fmt;

/// How the runs of a walk are drawn, and how many there are (own). A seed gives the same runs on every machine. They come in legs of a
/// thousand, each with numbers of its own. How often each choice is drawn isn't promised.
#[derive(Clone, Copy, Debug, PartialEq, Eq)]
pub enum Walk {
    /// Each choice is drawn evenly among its options.
    Random { seed: u64, runs: u64 },
    /// Threads have priorities that are drawn for each run: of those that can go on the highest does. `depth - 1` times in a run, at
    /// schedules that are drawn among as many as a run of the leg so far has had, the thread that would go on sinks below all
    /// others. A thread that yields sinks too. Loads and spurious wake-ups are drawn evenly.
    Priorities { seed: u64, runs: u64, depth: u32 },
}

/// What a walk found. `runs` counts the runs that ended without a failure, and `cut` those that were cut by their length: they reached
/// `max_branches` or `max_steps`. `different` says how many of `runs` differ in their choices: so many at least, since two with the same
/// hash count once. It is left out where `max_different` doesn't ask for it, more differ than that, or memory is refused (own).
#[derive(Debug, PartialEq, Eq, Drop)]
pub enum Walked {
    /// None failed.
    Made {
        runs: u64,
        cut: u64,
        different: Option<u64>,
    },
    /// After these a run failed, under these choices.
    Failed {
        runs: u64,
        cut: u64,
        failure: Failure,
        choices: Vec<Choice>,
    },
}

impl Walk {
    /// How many runs it makes at most.
    pub fn runs(self) -> u64
        ensures { result ≡ asked_runs self }
    {
        match self {
            Walk::Random { runs, .. } | Walk::Priorities { runs, .. } => runs,
        }
    }

    /// The walk with so many runs.
    pub(crate) fn of_runs(self, runs: u64) -> Walk
        ensures { asked_runs result ≡ runs }
    {
        match self {
            Walk::Random { seed, .. } => Walk::Random { seed, runs },
            Walk::Priorities { seed, depth, .. } => Walk::Priorities { seed, runs, depth },
        }
    }
}

impl Walked {
    /// How many runs were begun: the last one is the one that failed, if one did.
    pub(crate) fn begun(&self) -> u64 {
        match self {
            Walked::Made { runs, cut, .. } => runs.saturating_add(*cut),
            Walked::Failed { runs, cut, .. } => runs.saturating_add(*cut).saturating_add(1),
        }
    }
}

/// How a walk ended, after how many runs. Of a failure what a `Report` says of one.
impl fmt::Display for Walked {
    fn fmt<W: fmt::Write>(&self, f: &mut fmt::Formatter<W>) -> fmt::Result {
        match self {
            Walked::Made {
                runs,
                cut,
                different,
            } => {
                let runs = RunCount(*runs);
                write!(
                    f,
                    "walked: {runs}, none failed; {cut} were cut by their length"
                )?;
                match different {
                    Some(count) => write!(f, "; at least {count} runs are different"),
                    None => Ok(()),
                }
            }
            Walked::Failed {
                failure,
                choices,
                ..
            } => {
                let number = self.begun();
                let choices = CutChoices(choices.as_slice());
                write!(
                    f,
                    "failed in run {number}: {failure}\nreplay: {choices}\n{TELLS}"
                )
            }
        }
    }
}

/// What became of a run of a walk.
#[derive(Drop)]
pub(crate) enum Taken {
    /// It was given to the visitor, or it is counted as one that was cut.
    On,
    /// It failed so, under these choices.
    Failed(FailureKind, Vec<Choice>),
}

/// A run ended so, whose choices are those of the path. The visitor is given it, or it is counted where it was cut by its length.
fn take_run<D: Drop, V: Visitor<D>>(
    alloc: Global,
    path: &Path,
    ending: Ending<D>,
    visitor: &mut V,
    cut: &mut u64,
    different: &mut Different,
) -> Result<Taken, AllocError>
    requires { cut.old < 2 ^ 64 - 1 }
    ensures { IfOk result (TakesRun V.takes visitor.old visitor.new different.old different.new (chosen path.now) ending cut.old cut.new) }
{
    match ending {
        Ending::Ended(value) => {
            different.note_run(path);
            visitor.run_along(alloc, path, value)?;
            Ok(Taken::On)
        }
        Ending::Failed(failure) if is_cut(failure.kind) => {
            *cut += 1;
            Ok(Taken::On)
        }
        Ending::Failed(failure) => Ok(Taken::Failed(failure.kind, path.choices(alloc)?)),
    }
}

/// Whether a run that fails so was cut by its length.
pub(crate) fn is_cut(kind: FailureKind) -> bool
    ensures { result ≡ is_cut kind }
{
    matches!(
        kind,
        FailureKind::TooManyBranches | FailureKind::TooManySteps
    )
}

impl Builder {
    /// Makes so many runs of the body whose choices are drawn, until one fails or the walk's time is up, and gives each that ended
    /// without a failure to the visitor. A run that is cut by its length is no failure: it is counted, and the visitor isn't given
    /// it. Nothing says that runs differ, and none is left out because it was made before.
    ///
    /// Where the run explores each choice is drawn, and elsewhere it is the default. `max_duration` is the walk's time, and the clock is
    /// asked once before each run, where that is set. `max_different` asks how many runs differ. Of the other limits and of the search's
    /// settings nothing is used. The log hears of a run's number before each whose number is a multiple of `checkpoint_interval`, and how
    /// many were made.
    ///
    /// A setting out of range is refused before any run, the first one first. Besides, only `Memory` comes, where a growth was refused
    /// (own).
    pub fn walk<B: Body, V: Visitor<B::Data>, C: Clock, L: Log>(
        &self,
        alloc: Global,
        body: &B,
        walk: Walk,
        visitor: &mut V,
        clock: &mut C,
        log: &L,
    ) -> Result<Walked, CheckError>
        ensures walks { IfOk result (Walks V.takes visitor.old visitor.new self.now (runs_of B.next (explores self.now) self.now.max_threads self.now.max_steps body.now) walk (C.answered clock.new)) }
        ensures orders { IfOk result WalksNoEqualOrders }
        ensures refused { IfErr (tested self.now) (λ e. (result ≡ Err e) × (visitor.new ≡ visitor.old)) }
        ensures errors { IfErr result (λ e. (e ≡ CheckError.Memory) ⊎ (tested self.now ≡ Err e)) }
    {
        self.test()?;
        let mut drawer = Drawer::new(walk);
        let mut different = Different::new(alloc, self.max_different);
        let walked = self.walk_by(
            alloc,
            body,
            walk,
            &mut drawer,
            &mut different,
            visitor,
            clock,
            log,
        )?;
        Ok(walked)
    }

    /// The runs of a walk, whose choices this draws. The settings were tested, and no run has come yet.
    pub(crate) fn walk_by<B: Body, V: Visitor<B::Data>, C: Clock, L: Log>(
        &self,
        alloc: Global,
        body: &B,
        walk: Walk,
        drawer: &mut Drawer,
        different: &mut Different,
        visitor: &mut V,
        clock: &mut C,
        log: &L,
    ) -> Result<Walked, AllocError>
        requires some { 1 ≤ self.now.max_threads }
        requires few { self.now.max_threads ≤ 5 }
        requires branches { self.now.max_branches ≤ 1000000 }
        requires interval { 0 < self.now.checkpoint_interval }
        requires new { different.old.hashes ≡ [] }
        ensures { IfOk result (WalksNoting V.takes visitor.old visitor.new self.now (runs_of B.next (explores self.now) self.now.max_threads self.now.max_steps body.now) different.new walk (C.answered clock.new)) }
    {
        let mut room = Room::new(alloc, self.limits())?;
        let answer = self.make_walk(
            alloc, &mut room, drawer, different, body, walk, visitor, clock, log,
        );
        room.leave();
        answer
    }

    /// They are made in this room.
    fn make_walk<B: Body, V: Visitor<B::Data>, C: Clock, L: Log>(
        &self,
        alloc: Global,
        room: &mut Room<B>,
        drawer: &mut Drawer,
        different: &mut Different,
        body: &B,
        walk: Walk,
        visitor: &mut V,
        clock: &mut C,
        log: &L,
    ) -> Result<Walked, AllocError>
        requires some { 1 ≤ self.now.max_threads }
        requires few { self.now.max_threads ≤ 5 }
        requires branches { self.now.max_branches ≤ 1000000 }
        requires interval { 0 < self.now.checkpoint_interval }
        requires new { different.old.hashes ≡ [] }
        ensures { IfOk result (WalksNoting V.takes visitor.old visitor.new self.now (runs_of B.next (explores self.now) self.now.max_threads self.now.max_steps body.now) different.new walk (C.answered clock.new)) }
    {
        let mut path = Path::new(alloc, self.drawn_search());
        let asked = walk.runs();
        let mut cut = 0u64;
        'walking: for number in 0..asked {
            let runs = number - cut;
            if self.is_up(clock) {
                let told = different.count();
                return Ok(Walked::Made {
                    runs,
                    cut,
                    different: told,
                });
            }
            self.log_run(log, number);
            drawer.begin();
            let ending = self.draw(room, body, &mut path, drawer)?;
            match take_run(alloc, &path, ending, visitor, &mut cut, different)? {
                Taken::On => {}
                Taken::Failed(kind, choices) => {
                    return Ok(Walked::Failed {
                        runs,
                        cut,
                        failure: self.placed(alloc, body, kind, &choices)?,
                        choices,
                    });
                }
            }
        }
        log_runs(log, "completed in ", asked, " iterations");
        Ok(Walked::Made {
            runs: asked - cut,
            cut,
            different: different.count(),
        })
    }

    /// Whether the time of a walk is up. The clock is asked where a duration is set.
    pub(crate) fn is_up<C: Clock>(&self, clock: &mut C) -> bool
        ensures { IsTrue result → HasLasted (C.answered clock.new) self.now.max_duration }
    {
        match self.max_duration {
            Some(longest) => clock.elapsed() >= longest,
            None => false,
        }
    }

    /// The log hears of the run after so many, if its number is a multiple of the interval.
    pub(crate) fn log_run<L: Log>(&self, log: &L, runs: u64)
        requires before { runs < 2 ^ 64 - 1 }
        requires interval { 0 < self.now.checkpoint_interval }
    {
        if (runs + 1) % self.checkpoint_interval as u64 == 0 {
            log_runs(log, "iteration ", runs + 1, "");
        }
    }

    /// The search along the path of a run whose choices are drawn: each option might be tried, and none is marked.
    pub(crate) fn drawn_search(&self) -> Search
        requires { self.now.max_branches ≤ 1000000 }
        ensures settings { settings result ≡ whole_search self.now.max_branches }
        ensures explores { result.explores ≡ explores self.now }
    {
        path_search(false, None, self.max_branches, self.expect_explicit_explore)
    }

    /// One run whose choices are drawn, along the path from its beginning.
    pub(crate) fn draw<B: Body, C: Chooser>(
        &self,
        room: &mut Room<B>,
        body: &B,
        path: &mut Path,
        chooser: &mut C,
    ) -> Result<Ending<B::Data>, AllocError>
        requires some { 1 ≤ self.now.max_threads }
        requires few { self.now.max_threads ≤ 5 }
        requires search { path.old.search ≡ whole_search self.now.max_branches }
        requires explores { path.old.explores ≡ explores self.now }
        ensures drawn { IfOk result (EndsDrawn self.now.max_branches (runs_of B.next (explores self.now) self.now.max_threads self.now.max_steps body.now) (chosen path.new)) }
        ensures search { path.new.search ≡ whole_search self.now.max_branches }
        ensures explores { path.new.explores ≡ explores self.now }
    {
        path.restart();
        draw_run(room, self.limits(), body, path, chooser)
    }

    /// The failure of this kind of the run by these choices, with its place, if places are asked for.
    pub(crate) fn placed<B: Body>(
        &self,
        alloc: Global,
        body: &B,
        kind: FailureKind,
        choices: &[Choice],
    ) -> Result<Failure, AllocError>
        requires some { 1 ≤ self.now.max_threads }
        requires few { self.now.max_threads ≤ 5 }
        requires branches { self.now.max_branches ≤ 1000000 }
        ensures kind { IfOk result (λ failure. failure.kind ≡ kind) }
        ensures placed { IfOk result (λ failure. self.now.location ≡ false → failure.location ≡ None) }
    {
        let nowhere = Failure {
            kind,
            location: None,
        };
        if !self.location {
            return Ok(nowhere);
        }
        let explores = !self.expect_explicit_explore;
        let mut path = Path::following(alloc, explores, self.max_branches as u32, choices)?;
        match self.run_once(alloc, body, &mut path)? {
            Ending::Failed(again) => Ok(nowhere.at(again.location)),
            Ending::Ended(_) => Ok(nowhere),
        }
    }
}
