//! Checks of a body by several threads of the host at once (own): each works on a part of the search for a while and gives it back.
pub mod apart;
pub mod covering;
pub(crate) mod progress;
pub(crate) mod round;
pub mod texts;
pub(crate) mod turn_clock;
pub mod visitors;
pub mod walking;

ghost use Rattle.std.specs.Prelude.{◌≡◌, ◌≤◌, [], Err, IfErr, IfOk, IfSome};
ghost use Rattle.loom_engine.specs.Path.Route.{settings};
ghost use Rattle.loom_engine.specs.Parts.Keeping.{IsAt};
ghost use Rattle.loom_engine.specs.Runs.Body.{runs as runs_of};
ghost use Rattle.loom_engine.specs.Walk.Machine.{Machine};
ghost use Rattle.loom.specs.Model.Settings.{explores, search_of, tested};
ghost use Rattle.loom.specs.Runner.Parallel.{Finds};

use crate::model::Limit;
use crate::model::builder::Builder;
use crate::model::clock::Clock;
use crate::model::error::CheckError;
use crate::model::limits::{log_runs, most_runs};
use crate::model::parts::Slice;
use crate::model::paths::path_search;
use crate::model::progress::per_cent;
use crate::model::visitor::Visitor;
use crate::runner::parallel::apart::Apart;
use crate::runner::parallel::progress::share_done;
use crate::runner::parallel::round::{Lost, cut_up, make_turn};
use crate::runner::parallel::visitors::Visitors;
use log::{Log, info, target_or};
use loom_engine::rt::parts::Parts;
use loom_engine::rt::path::Search;
use loom_objects::body::Body;
use loom_objects::choice::Choice;
use loom_objects::failure::Failure;
use std::alloc::Global;
use std::rt::Clock as HostTime;
use std::sync::Wait;
use std::thread::Threads;
use std::time::Duration;

/// How a search is shared out (own).
#[derive(Clone, Copy, Debug)]
pub struct Workers {
    /// How many parts are worked on at a time. Zero counts as one.
    pub count: usize,
    /// How long each of them is worked on at a time, by a clock that begins then. Where its time is limited that is less once nothing is
    /// left of one of them, and where there are fewer parts than workers.
    pub slice: Slice,
}

// How long a worker works on a part at a time, unless it is said.
const SLICE_MILLIS: u64 = 200;

impl Workers {
    /// So many workers, each of which works on a part for 200 milliseconds at a time (own).
    pub fn new(count: usize) -> Workers
        ensures { result.count ≡ count }
    {
        Workers {
            count,
            slice: Slice {
                runs: u64::MAX,
                until: Some(Duration::from_millis(SLICE_MILLIS)),
            },
        }
    }
}

/// What a check by several workers found. `runs` counts the runs that ended without a failure (own).
#[derive(Debug, PartialEq, Eq, Drop)]
pub enum Found {
    /// No part is left, and no run failed.
    Complete {
        runs: u64,
    },
    /// A limit was reached. What is left is in the list.
    Stopped {
        runs: u64,
        limit: Limit,
    },
    /// A run failed, under these choices. The list still has the part that it belongs to as it was before this turn, and what was
    /// made of that in it isn't counted.
    Failed {
        runs: u64,
        failure: Failure,
        choices: Vec<Choice>,
    },
}

impl Builder {
    /// The search of a check from its beginning, as a list of one part (own). A setting out of range is refused.
    pub fn parts(&self, alloc: Global) -> Result<Parts, CheckError>
        ensures begins { IfOk result (λ parts. (m : Machine) → IsAt m [] parts) }
        ensures refused { IfErr (tested self.now) (λ e. result ≡ Err e) }
    {
        self.test()?;
        Ok(Parts::new(alloc, self.search_settings())?)
    }

    /// The search of a check.
    pub(crate) fn search_settings(&self) -> Search
        requires branches { self.now.max_branches ≤ 1000000 }
        requires bound { IfSome self.now.preemption_bound (λ bound. bound ≤ 255) }
        ensures settings { settings result ≡ search_of self.now }
        ensures explores { result.explores ≡ explores self.now }
    {
        path_search(
            self.reduce,
            self.preemption_bound,
            self.max_branches,
            self.expect_explicit_explore,
        )
    }
}

/// Makes the runs that are left of a search until no part of it is left, a run fails or a limit is reached (own). In each turn the first
/// parts of the list are worked on, each by a thread of the host; then they are given back, and parts are cut while there are fewer
/// than three for each worker. A failure ends the check after its turn: of several it is the one that comes first in the order of
/// the walk. Each part that is worked on has a visitor of its own.
///
/// The clock is asked before each turn, where a duration is set. The log hears how many runs were made, of how many parts are left, and
/// an estimate of the share done, once in so many runs as are between two checkpoints. No file is read or saved: the list is what there is to be kept.
///
/// Each thread makes runs of a body of its own, which it copies from this one, so that has to be `Sync`, and its data `Send`. Visitors go
/// to the threads and come back.
///
/// A setting out of range is refused before any run, and so is a part of a search with other settings. Besides, an error comes only
/// where a growth was refused. After an error the list is of no use.
pub fn check_parallel<
    R: Threads + Wait + HostTime + Sync,
    B: Body + Apart + Sync,
    V: Visitor<B::Data> + Send + Drop,
    G: Visitors<V>,
    C: Clock,
    L: Log,
>(
    rt: &R,
    alloc: Global,
    builder: &Builder,
    body: &B,
    workers: Workers,
    parts: &mut Parts,
    visitors: &mut G,
    clock: &mut C,
    log: &L,
) -> Result<Found, CheckError>
where
    B::Data: Send,
    ensures finds { IfOk result (Finds V.takes G.is_new G.joins builder.now (runs_of B.next (explores builder.now) builder.now.max_threads builder.now.max_steps body.now) (C.answered clock.new) parts.old parts.new visitors.old visitors.new) }
    ensures refused { IfErr (tested builder.now) (λ e. (result ≡ Err e) × (visitors.new ≡ visitors.old) × (parts.new ≡ parts.old)) }
{
    builder.test()?;
    let mut runs = 0;
    let mut told = 0;
    'turns: for _ in rt.forever() {
        if parts.is_over() {
            log_runs(log, "completed in ", runs, " iterations");
            return Ok(Found::Complete { runs });
        }
        if let Some(limit) = builder.reached(runs, clock) {
            return Ok(Found::Stopped { runs, limit });
        }
        let room = most_runs(builder.max_permutations) - runs;
        let sharing = workers.within(room);
        let turn = make_turn(rt, alloc, builder, body, sharing, parts, visitors)?;
        runs += turn.runs;
        if let Some(lost) = turn.lost {
            let Lost {
                part: _,
                failure,
                choices,
            } = lost;
            return Ok(Found::Failed {
                runs,
                failure,
                choices,
            });
        }
        cut_up(alloc, parts, sharing.count)?;
        let every = builder.checkpoint_interval;
        told = tell(log, every, runs, told, parts, sharing.count);
    }
    unreachable!()
}

/// Tells the log how far the check has come, where so many runs were made since it was told last. Answers when that was.
pub(crate) fn tell<L: Log>(
    log: &L,
    every: usize,
    runs: u64,
    told: u64,
    parts: &Parts,
    workers: usize,
) -> u64 {
    if runs.saturating_sub(told) < every as u64 {
        return told;
    }
    let left = parts.len();
    let share = per_cent(share_done(parts));
    info!(log; target: target_or(log, "loom::search"), "{} iterations, {} parts left, {} workers, about {}% done", runs, left, workers, share);
    runs
}
