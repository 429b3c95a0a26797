//! Checks of a body, and replays.
pub mod among;
pub mod beginning;
pub mod builder;
pub mod clock;
pub mod cover;
pub mod different;
pub(crate) mod drawer;
pub mod env;
pub mod error;
pub(crate) mod follower;
pub mod limits;
pub mod listener;
pub mod parts;
pub mod paths;
pub(crate) mod progress;
pub mod receiver;
pub mod report;
pub mod rising;
pub mod rounds;
pub mod run;
pub mod runs;
pub mod saving;
pub mod search;
pub mod shorten;
pub mod visitor;
pub mod walk;

ghost use Rattle.std.specs.Prelude.{◌≡◌, ◌≢◌, ◌⊎◌, None, Err, IfOk, IfErr, OnErr, true};
ghost use Rattle.loom_engine.specs.Runs.Body.{runs as runs_of};
ghost use Rattle.loom.specs.Model.Fresh.{Replays};
ghost use Rattle.loom.specs.Model.Check.{MeetsNoEqualOrders, Reports, ReportsAlone, ReportsUnheard, gives_file};
ghost use Rattle.loom.specs.Model.Replayed.{ReplaysNoEqualOrders};
ghost use Rattle.loom.specs.Model.Refusals.{CountsFaults, IsNoReport, StillHolds};
ghost use Rattle.loom.specs.Model.Settings.{defaults, explores, tested};

use crate::checkpoint::files::HostFiles;
use crate::checkpoint::store::CheckpointStore;
pub use crate::model::builder::Builder;
use crate::model::clock::{Clock, NoClock};
use crate::model::error::CheckError;
use crate::model::receiver::{Listed, NoReceiver, Unlisted};
pub use crate::model::report::Report;
use crate::model::run::Ending;
pub use crate::model::shorten::Shortened;
use crate::model::visitor::Visitor;
pub use crate::model::walk::{Walk, Walked};
use log::Log;
use loom_engine::rt::path::Path;
use loom_objects::body::Body;
use loom_objects::choice::Choice;
use loom_objects::failure::Failure;
use std::alloc::Global;
use std::rt::Files;

/// Which limit stopped a check.
#[derive(Clone, Copy, Debug, PartialEq, Eq)]
pub enum Limit {
    /// The number of runs.
    Permutations,
    /// The time.
    Duration,
}

/// One run that follows given choices: how it ended, and the choices that it made.
#[derive(Drop)]
pub enum Replay<D> {
    Ended {
        choices: Vec<Choice>,
        value: D,
    },
    Failed {
        failure: Failure,
        choices: Vec<Choice>,
    },
}

impl Builder {
    /// A check in which nobody is given the runs. It begins with the path in the `checkpoint_file`, if one is set, and saves its
    /// checkpoints there: it is `check_among` with the files of the host. It has no clock: only a `max_duration` of zero stops it.
    /// Errors are those of `check_with`.
    pub fn check<R: Files, B: Body>(
        &self,
        rt: &R,
        alloc: Global,
        body: &B,
    ) -> Result<Report, CheckError>
        ensures reports { IfOk result (ReportsAlone self.now (runs_of B.next (explores self.now) self.now.max_threads self.now.max_steps body.now)) }
        ensures orders { IfOk result MeetsNoEqualOrders }
        ensures refused { IfErr (tested self.now) (λ e. result ≡ Err e) }
        ensures errors { IfErr result (IsNoReport self.now (gives_file self.now.checkpoint_file) (Unit {0})) }
        ensures no_store { self.now.checkpoint_file ≡ None → result ≢ Err CheckError.Store }
    {
        let (answer, _) = self.check_among(alloc, body, HostFiles::new(rt));
        answer
    }

    /// A check in which nobody is given the runs, with this store, as one `FileStore`; without a clock and a log. Errors are those
    /// of `check_with` (own).
    pub fn check_alone<B: Body, S: CheckpointStore>(
        &self,
        alloc: Global,
        body: &B,
        store: &mut S,
    ) -> Result<Report, CheckError>
        ensures reports { IfOk result (ReportsUnheard self.now (runs_of B.next (explores self.now) self.now.max_threads self.now.max_steps body.now) (S.gives store.old) (S.holds store.new)) }
        ensures orders { IfOk result MeetsNoEqualOrders }
        ensures refused { IfErr (tested self.now) (λ e. result ≡ Err e) }
        ensures errors { IfErr result (IsNoReport self.now (S.gives store.old) (Unit {0})) }
        ensures left { OnErr result (StillHolds self.now (runs_of B.next (explores self.now) self.now.max_threads self.now.max_steps body.now) (S.gives store.old) (S.holds store.old) (S.holds store.new)) }
        ensures faults { CountsFaults result (S.fault_count store.old) (S.fault_count store.new) }
    {
        let log = None::<HostRuntime>;
        self.search::<B, Unlisted, NoReceiver, NoClock, S, Option<HostRuntime>>(
            alloc,
            body,
            &mut NoReceiver,
            &mut NoClock,
            store,
            &log,
        )
    }

    /// Makes one run of the body after another, until nothing is left that the search tries, a run fails or a limit is reached,
    /// and gives each that ended without a failure to the visitor. It begins with the path that the store holds, if there is
    /// one, and saves its path before each run whose number is a multiple of the interval, and where it stops. The clock is asked
    /// once before each run, where a duration is set. `None` is no store and no log.
    ///
    /// A setting out of range is refused before any run, the first one first, and then a text that is no path of this check.
    /// Besides, an error comes only where the store met a fault or a growth was refused, in the check, the body, the visitor or
    /// the store. After an error only visitor, clock, store and log have moved, and the store holds what it held, or a text of a
    /// path that the check has reached.
    pub fn check_with<B: Body, V: Visitor<B::Data>, C: Clock, S: CheckpointStore, L: Log>(
        &self,
        alloc: Global,
        body: &B,
        visitor: &mut V,
        clock: &mut C,
        store: &mut S,
        log: &L,
    ) -> Result<Report, CheckError>
        ensures reports { IfOk result (Reports V.takes visitor.old visitor.new self.now (runs_of B.next (explores self.now) self.now.max_threads self.now.max_steps body.now) (S.gives store.old) (S.holds store.new) (C.answered clock.new)) }
        ensures orders { IfOk result MeetsNoEqualOrders }
        ensures refused { IfErr (tested self.now) (λ e. (result ≡ Err e) × (visitor.new ≡ visitor.old)) }
        ensures errors { IfErr result (IsNoReport self.now (S.gives store.old) (visitor.new ≡ visitor.old)) }
        ensures left { OnErr result (StillHolds self.now (runs_of B.next (explores self.now) self.now.max_threads self.now.max_steps body.now) (S.gives store.old) (S.holds store.old) (S.holds store.new)) }
        ensures faults { CountsFaults result (S.fault_count store.old) (S.fault_count store.new) }
    {
        self.search::<B, Listed, V, C, S, L>(alloc, body, visitor, clock, store, log)
    }

    /// One run, which follows these choices and then takes defaults. A choice that is no option where it comes, or that is
    /// left over at the run's end, ends it as `NotDeterministic` with the choices that it followed. Errors are those of
    /// `check_with`.
    pub fn replay<B: Body>(
        &self,
        alloc: Global,
        body: &B,
        choices: &[Choice],
    ) -> Result<Replay<B::Data>, CheckError>
        ensures replays { IfOk result (Replays self.now.max_branches (runs_of B.next (explores self.now) self.now.max_threads self.now.max_steps body.now) choices.now) }
        ensures orders { IfOk result ReplaysNoEqualOrders }
        ensures refused { IfErr (tested self.now) (λ e. result ≡ Err e) }
        ensures errors { IfErr result (λ e. (e ≡ CheckError.Memory) ⊎ (tested self.now ≡ Err e)) }
    {
        self.test()?;
        let explores = !self.expect_explicit_explore;
        let mut path = Path::following(alloc, explores, self.max_branches as u32, choices)?;
        let ending = self.run_once(alloc, body, &mut path)?;
        let choices = path.choices(alloc)?;
        match ending {
            Ending::Failed(failure) => Ok(Replay::Failed { failure, choices }),
            Ending::Ended(value) => Ok(Replay::Ended { choices, value }),
        }
    }
}

/// A check with the defaults (loom's `model`).
pub fn model<R: Files, B: Body>(rt: &R, alloc: Global, body: &B) -> Result<Report, CheckError>
    ensures reports { IfOk result (ReportsAlone defaults (runs_of B.next true 5 1000000 body.now)) }
    ensures orders { IfOk result MeetsNoEqualOrders }
    ensures errors { IfErr result (λ e. e ≡ CheckError.Memory) }
{
    Builder::new().check(rt, alloc, body)
}
