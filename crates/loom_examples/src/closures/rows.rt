//! The rows of the program that are closures: their names, how each is checked, and what is printed of it.
ghost use Rattle.std.specs.Prelude.{◌≡◌, ◌⊎◌, IfOk};
ghost use Rattle.loom.specs.declared.model.report.Report.{Report};
ghost use Rattle.loom_examples.specs.Rows.Line.{PrintedOf};

use crate::closures::ring::through_ring;
use crate::closures::scenes::{self, Kept};
use crate::closures::stack::through_stack;
use crate::rows::line::{self, ShownReport};
use crate::rows::tasks::UP_TO;
use crate::rows::tell_error;
use log::Log;
use loom::checkpoint::file::file_store;
use loom::explain::Explanation;
use loom::model::builder::Builder;
use loom::model::cover::Covered;
use loom::model::parts::{Slice, Worked};
use loom::model::rising::Risen;
use loom::model::{Replay, Report, Shortened, Walk, Walked};
use loom::runner::{
    Found, Handle, Host, NoVisitor, Pool, RunnerError, Stop, Workers, check_parallel_recorded,
    check_part_recorded, check_rising, check_with, cover_recorded, explain, replay, shorten, walk,
};
use loom::{Choice, Clock, HostClock};
use loom_engine::rt::parts::{Part, Parts};
use loom_ops::sync::atomic::Ordering::{Relaxed, Release};
use std::alloc::{AllocError, Global};
use std::io::{self, Write};
use std::rt::{Clock as HostTime, Files};
use std::sync::Wait;
use std::thread::Threads;

/// A row of closures.
#[derive(Clone, Copy)]
pub enum ClosureRow {
    /// Two threads lock two mutexes in opposite order.
    TwoMutexesDeadlock,
    /// Two threads add to one number.
    FetchAddAtomic,
    /// Three threads add to one number, twice each.
    ThreeAdds,
    /// Main locks a mutex beside a thread that does nothing.
    LockBeside,
    /// Two threads wait for each other by turns.
    PingPong,
    /// Main ends without a release.
    GuardLeft,
    /// Main goes on after it was given a stop.
    Deaf,
    /// Main stops, and wasn't given a stop.
    Stops,
    /// Main does something else in its second run.
    Changes,
    /// Two threads store to an atomic each, and load from the other's.
    StoreBuffering,
    /// Three items through a ring of two cells, of which the count is stored by `Relaxed`, where it takes `Release`.
    RelaxedRing,
    /// Three threads put a node each on Treiber's stack, and take one off.
    TreiberStack,
    /// Two threads load a number, and store one more.
    BuggyConcurrentInc,
}

/// All rows.
pub const ROWS: [ClosureRow; 13] = [
    ClosureRow::TwoMutexesDeadlock,
    ClosureRow::FetchAddAtomic,
    ClosureRow::ThreeAdds,
    ClosureRow::LockBeside,
    ClosureRow::PingPong,
    ClosureRow::GuardLeft,
    ClosureRow::Deaf,
    ClosureRow::Stops,
    ClosureRow::Changes,
    ClosureRow::StoreBuffering,
    ClosureRow::RelaxedRing,
    ClosureRow::TreiberStack,
    ClosureRow::BuggyConcurrentInc,
];

impl ClosureRow {
    /// The word that means the row.
    pub fn name(self) -> &'static str {
        match self {
            ClosureRow::TwoMutexesDeadlock => "two_mutexes_deadlock_closures",
            ClosureRow::FetchAddAtomic => "fetch_add_atomic_closures",
            ClosureRow::ThreeAdds => "three_adds_closures",
            ClosureRow::LockBeside => "lock_beside_closures",
            ClosureRow::PingPong => "runner_ping_pong",
            ClosureRow::GuardLeft => "guard_left_closures",
            ClosureRow::Deaf => "closure_deaf",
            ClosureRow::Stops => "closure_stops",
            ClosureRow::Changes => "closure_changes",
            ClosureRow::StoreBuffering => "store_buffering_closures",
            ClosureRow::RelaxedRing => "relaxed_ring_closures",
            ClosureRow::TreiberStack => "treiber_stack_closures",
            ClosureRow::BuggyConcurrentInc => "buggy_concurrent_inc_closures",
        }
    }

    /// The row that the words mean, and the file that they name: the first of one or two words is the name of the row, and the
    /// second that of its checkpoint file.
    pub fn meant_by<'a>(words: &[&'a str]) -> Option<(ClosureRow, Option<&'a str>)> {
        match words {
            [name] => Some((named(*name)?, None)),
            [name, file] => Some((named(*name)?, Some(*file))),
            _ => None,
        }
    }

    /// The settings of the row's check.
    pub fn builder(self) -> Builder {
        self.builder_over(Builder::new())
    }

    /// The row's own settings, in place of those of this builder.
    pub fn builder_over(self, mut builder: Builder) -> Builder {
        match self {
            ClosureRow::TwoMutexesDeadlock
            | ClosureRow::FetchAddAtomic
            | ClosureRow::GuardLeft
            | ClosureRow::Deaf
            | ClosureRow::Stops
            | ClosureRow::StoreBuffering
            | ClosureRow::RelaxedRing
            | ClosureRow::BuggyConcurrentInc => {}
            ClosureRow::LockBeside | ClosureRow::Changes => builder.reduce = false,
            ClosureRow::PingPong => builder.max_branches = 200,
            ClosureRow::ThreeAdds => builder.preemption_bound = Some(1),
            ClosureRow::TreiberStack => builder.preemption_bound = Some(0),
        }
        builder
    }

    /// The row's own settings, in place of those of this builder, and the checkpoint file of this name, if one is given.
    pub fn builder_with(
        self,
        alloc: Global,
        builder: Builder,
        file: Option<&str>,
    ) -> Result<Builder, AllocError> {
        let mut builder = self.builder_over(builder);
        if let Some(file) = file {
            builder.checkpoint_file(alloc, file)?;
        }
        Ok(builder)
    }

    /// What a check of the row finds, by these settings and the host's clock. It goes on from the checkpoint file, and keeps its
    /// checkpoints there, if one is set.
    pub fn check_by<R: HostTime + Files + Threads + Wait + Clone + Send + 'static>(
        self,
        rt: &R,
        alloc: Global,
        builder: &Builder,
    ) -> Result<Report, RunnerError> {
        self.check_counted(rt, alloc, builder, false, &mut 0)
    }

    /// What that check finds. Where this says so, the threads of rows that can do so are kept over its runs. It adds to the count how often
    /// it calls main.
    pub fn check_counted<R: HostTime + Files + Threads + Wait + Clone + Send + 'static>(
        self,
        rt: &R,
        alloc: Global,
        builder: &Builder,
        keeps: bool,
        calls: &mut u64,
    ) -> Result<Report, RunnerError> {
        let mut kept = if keeps { Some(Pool::new(alloc)) } else { None };
        let mut called = 0u64;
        let main = |handle: &mut Handle<u64, R>| {
            called = called.wrapping_add(1);
            self.run_on(&mut kept, handle, called == 1)
        };
        let mut clock = HostClock::start(rt);
        let mut store = file_store(rt, alloc, &builder.checkpoint_file);
        let log = None::<HostRuntime>;
        let found = check_with(
            rt,
            alloc,
            builder,
            main,
            &mut NoVisitor,
            &mut clock,
            &mut store,
            &log,
        );
        *calls = calls.wrapping_add(called);
        if let Some(pool) = kept {
            pool.end(rt);
        }
        found
    }

    /// What checks of the row with rising bounds on preemptions find, by these settings.
    pub fn check_rising<R: Threads + Wait + Clone + Send + 'static>(
        self,
        rt: &R,
        alloc: Global,
        builder: &Builder,
    ) -> Result<Risen, RunnerError> {
        let mut is_first = true;
        let main = |handle: &mut Handle<u64, R>| self.run_next(handle, &mut is_first);
        check_rising(rt, alloc, builder, main, UP_TO)
    }

    /// What a check of the row finds that remembers states, at most so many, by these settings, the host's clock and the checkpoint file.
    pub fn cover<R: HostTime + Files + Threads + Wait + Clone + Send + 'static>(
        self,
        rt: &R,
        alloc: Global,
        builder: &Builder,
        most_states: usize,
    ) -> Result<Covered, RunnerError> {
        let mut is_first = true;
        let main = |handle: &mut Handle<u64, R>| self.run_next(handle, &mut is_first);
        let mut clock = HostClock::start(rt);
        let mut store = file_store(rt, alloc, &builder.checkpoint_file);
        let log = None::<HostRuntime>;
        cover_recorded(
            rt,
            alloc,
            builder,
            main,
            &mut NoVisitor,
            &mut clock,
            &mut store,
            most_states,
            &log,
        )
    }

    /// What several workers find of the row, by these settings, from this list of parts on.
    pub(crate) fn check_parallel<R: Host + HostTime + Sync, C: Clock>(
        self,
        rt: &R,
        alloc: Global,
        builder: &Builder,
        workers: Workers,
        parts: &mut Parts,
        clock: &mut C,
    ) -> Result<Found, RunnerError> {
        let mut is_first = true;
        let main = |handle: &mut Handle<u64, R>| self.run_next(handle, &mut is_first);
        let log = None::<HostRuntime>;
        check_parallel_recorded(
            rt,
            alloc,
            builder,
            main,
            workers,
            parts,
            &mut NoVisitor,
            clock,
            &log,
        )
    }

    /// Makes runs of a part of the row's search, by these settings, and gives the outcome.
    pub(crate) fn check_part<R: Host, C: Clock>(
        self,
        rt: &R,
        alloc: Global,
        builder: &Builder,
        part: &mut Part,
        slice: Slice,
        clock: &mut C,
    ) -> Result<Worked, RunnerError> {
        let mut is_first = true;
        let main = |handle: &mut Handle<u64, R>| self.run_next(handle, &mut is_first);
        let log = None::<HostRuntime>;
        check_part_recorded(
            rt,
            alloc,
            builder,
            main,
            part,
            slice,
            &mut NoVisitor,
            clock,
            &log,
        )
    }

    /// What a walk through runs of the row finds, by these settings and the host's clock.
    pub fn walk<
        R: HostTime + Threads + Wait + Clone + Send + 'static,
        L: Log + Clone + Send + 'static,
    >(
        self,
        rt: &R,
        alloc: Global,
        builder: &Builder,
        drawn: Walk,
        log: &L,
    ) -> Result<Walked, RunnerError> {
        let mut is_first = true;
        let main = |handle: &mut Handle<u64, R>| self.run_next(handle, &mut is_first);
        let mut clock = HostClock::start(rt);
        walk(
            rt,
            alloc,
            builder,
            drawn,
            main,
            &mut NoVisitor,
            &mut clock,
            log,
        )
    }

    /// One run of the row, by these choices and then by defaults.
    pub fn replay<R: Threads + Wait + Clone + Send + 'static>(
        self,
        rt: &R,
        alloc: Global,
        builder: &Builder,
        choices: &[Choice],
    ) -> Result<Replay<u64>, RunnerError> {
        let main = |handle: &mut Handle<u64, R>| self.run(handle, true);
        replay(rt, alloc, builder, choices, main)
    }

    /// A shorter run of the row that fails as the one by these choices does, found in at most so many runs. None where that doesn't fail.
    pub fn shorten<R: Threads + Wait + Clone + Send + 'static>(
        self,
        rt: &R,
        alloc: Global,
        builder: &Builder,
        choices: &[Choice],
        most_runs: u64,
    ) -> Result<Option<Shortened>, RunnerError> {
        let main = |handle: &mut Handle<u64, R>| self.run(handle, true);
        shorten(rt, alloc, builder, choices, most_runs, main)
    }

    /// What happened in that run.
    pub fn explain<R: Threads + Wait + Clone + Send + 'static>(
        self,
        rt: &R,
        alloc: Global,
        builder: &Builder,
        choices: &[Choice],
    ) -> Result<Explanation, RunnerError> {
        let main = |handle: &mut Handle<u64, R>| self.run(handle, true);
        explain(rt, alloc, builder, choices, main)
    }

    /// What main does in the next run, which is the first one where this says so. It isn't any more afterwards.
    fn run_next<R: Threads + Wait + Clone + Send + 'static>(
        self,
        handle: &mut Handle<u64, R>,
        is_first: &mut bool,
    ) -> Result<u64, Stop> {
        let was_first = *is_first;
        *is_first = false;
        self.run(handle, was_first)
    }

    /// What main does in a run: the first run, or a later one. Three rows start their threads on those that are kept, if any are.
    fn run_on<R: Threads + Wait + Clone + Send + 'static>(
        self,
        kept: &mut Kept,
        handle: &mut Handle<u64, R>,
        is_first: bool,
    ) -> Result<u64, Stop> {
        match self {
            ClosureRow::TwoMutexesDeadlock => scenes::two_mutexes_on(kept, handle),
            ClosureRow::ThreeAdds => scenes::three_adds(kept, handle),
            ClosureRow::StoreBuffering => scenes::store_buffering_on(kept, handle),
            _ => self.run(handle, is_first),
        }
    }

    /// What main does in a run: the first run, or a later one.
    fn run<R: Threads + Wait + Clone + Send + 'static>(
        self,
        handle: &mut Handle<u64, R>,
        is_first: bool,
    ) -> Result<u64, Stop> {
        match self {
            ClosureRow::TwoMutexesDeadlock => scenes::two_mutexes(handle),
            ClosureRow::FetchAddAtomic => scenes::two_adds(handle),
            ClosureRow::ThreeAdds => scenes::three_adds(&mut None, handle),
            ClosureRow::LockBeside => scenes::lock_beside(handle),
            ClosureRow::PingPong => scenes::ping_pong(handle),
            ClosureRow::GuardLeft => scenes::guard_left(handle),
            ClosureRow::Deaf => scenes::deaf(handle),
            ClosureRow::Stops => Err(Stop::Refused),
            ClosureRow::Changes if is_first => scenes::lock_beside(handle),
            ClosureRow::Changes => Ok(7),
            ClosureRow::StoreBuffering => scenes::store_buffering(handle),
            ClosureRow::RelaxedRing => through_ring(handle, Relaxed),
            ClosureRow::TreiberStack => through_stack(handle, Release),
            ClosureRow::BuggyConcurrentInc => scenes::buggy_concurrent_inc(handle),
        }
    }
}

/// The row of this name.
pub fn named(name: &str) -> Option<ClosureRow> {
    for row in ROWS {
        if row.name() == name {
            return Some(row);
        }
    }
    None
}

/// Checks the row with this checkpoint file, if one is given, and the settings of this builder where the row has none of its own. It
/// prints the line of the report, and answers its status. Where there is no report, it prints which error came, and why, and the status
/// is 2.
pub fn run_row<
    R: AllocGlobal + HostTime + Files + Threads + Wait + Clone + Send + 'static,
    O: Write,
    E: Write,
>(
    rt: &R,
    row: ClosureRow,
    builder: Builder,
    file: Option<&str>,
    out: &mut O,
    err: &mut E,
) -> io::Result<u8>
    ensures { IfOk result (λ status. (status ≡ 2) ⊎ ((report : Report) × PrintedOf report (O.contents out.old) (O.contents out.new) status)) }
{
    let builder = row.builder_with(rt.alloc(), builder, file)?;
    match row.check_by(rt, rt.alloc(), &builder) {
        Ok(report) => {
            let shown = ShownReport(&report);
            writeln!(out, "{shown}")?;
            Ok(line::status_of(&report))
        }
        Err(error) => refuse_run(err, &builder, error),
    }
}

/// Prints which error came, and why.
pub(crate) fn refuse_run<E: Write>(
    err: &mut E,
    builder: &Builder,
    error: RunnerError,
) -> io::Result<u8>
    ensures { IfOk result (λ status. status ≡ 2) }
{
    let number = error.number();
    writeln!(err, "error {number}")?;
    match &error {
        RunnerError::Settings(why) => tell_error(err, builder, *why)?,
        _ => writeln!(err, "{error}")?,
    }
    Ok(2)
}
