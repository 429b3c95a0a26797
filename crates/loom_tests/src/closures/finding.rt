//! Checks of the mains of these tests, all by one closure.
use crate::closures::forms_in_children::{self, Form};
use crate::closures::{carried, changes, ends, forms, forms_of_values, holds, turns};
use loom::model::Report;
use loom::model::builder::Builder;
use loom::model::cover::{Covered, MOST_STATES};
use loom::model::parts::{Slice, Worked};
use loom::model::visitor::Visitor;
use loom::runner::{
    Found as Came, Handle, Host, RunnerError, Stop, Visitors, Workers, check,
    check_parallel_recorded, check_part_recorded, check_recorded, cover_recorded,
};
use loom::{Choice, FailureKind, MemoryStore, NoClock};
use std::alloc::{AllocError, Global};
use std::process::Abort;
use std::rt::Clock;
use std::sync::Arc;
use std::sync::atomic::{AtomicU64, Ordering};
use std::test::Fail;

/// What the closures of all threads count together.
pub(super) type Counter = Arc<AtomicU64, Global>;

/// What main does in the runs of a check.
#[derive(Clone, Copy)]
pub(super) enum Main {
    /// Each read-modify-write of a number.
    Updates,
    /// Mutexes and read-write locks.
    Locks,
    /// Cells and counted references.
    Data,
    /// A channel with two senders.
    Messages,
    /// A channel without a sender.
    NoMessages,
    /// One thread waits for another.
    Waits,
    /// Two threads update one number.
    TwoUpdates,
    /// One thread waits for another with a time.
    WaitsWithTime,
    /// Tracked values.
    Tracks,
    /// A tracked value that is left.
    TrackLeft,
    /// Values that are named by keys, in two threads.
    Values,
    /// Wakers, by one thread.
    Wakers,
    /// A future, which another thread wakes.
    Future,
    /// Main reaches what is never to be.
    Unreachable,
    /// A thread reaches what is never to be.
    UnreachableInChild,
    /// Main does what a form does.
    Form(Form),
    /// A thread does what a form does.
    FormInChild(Form),
    /// Main waits for a change of data.
    WaitsWhile,
    /// A thread waits for a change of data.
    ChildWaitsWhile,
    /// Two threads lock two mutexes in opposite order.
    TwoMutexes,
    /// Two threads add to one number.
    TwoAdds,
    /// Main locks a mutex beside a thread that does nothing.
    LockBeside,
    /// Two threads wait for each other by turns.
    PingPong,
    /// Main ends without a release.
    GuardLeft,
    /// Main goes on after it was given a stop.
    Deaf,
    /// Main stops, and wasn't given a stop.
    Stops,
    /// Main says that it found no memory.
    Starves,
    /// Main does something else in its second run.
    Changes,
    /// Main loads more from its second run on.
    LoadsMore,
    /// A thread adds more from the third run on.
    ChildAddsMore,
    /// Main passes over many stops.
    Swallows,
    /// Main does what it does in a test of loom's.
    Carried(carried::Scene),
    /// Main does nothing.
    Nothing,
}

impl Main {
    /// What main does where it is called for the time of this number, from 1.
    fn run<R: Host>(
        self,
        handle: &mut Handle<u64, R>,
        counter: &Counter,
        call: u64,
    ) -> Result<u64, Stop> {
        match self {
            Main::Updates => forms::updates(handle),
            Main::Locks => forms::locks(handle),
            Main::Data => forms::data(handle),
            Main::Messages => forms::messages(handle),
            Main::NoMessages => forms::no_messages(handle),
            Main::Waits => forms::waits(handle, counter),
            Main::TwoUpdates => forms::two_updates(handle, counter),
            Main::WaitsWithTime => forms::waits_with_time(handle, counter),
            Main::Tracks => forms_of_values::tracks(handle),
            Main::TrackLeft => forms_of_values::track_left(handle),
            Main::Values => forms_of_values::values(handle, counter),
            Main::Wakers => forms_of_values::wakers(handle),
            Main::Future => forms_of_values::future(handle, counter),
            Main::Unreachable => Form::Unreachable.play(handle),
            Main::UnreachableInChild => {
                forms_in_children::in_child(handle, Form::Unreachable, counter)
            }
            Main::Form(form) => form.play(handle),
            Main::FormInChild(form) => forms_in_children::in_child(handle, form, counter),
            Main::WaitsWhile => forms_in_children::main_waits(handle, counter),
            Main::ChildWaitsWhile => forms_in_children::child_waits(handle, counter),
            Main::TwoMutexes => turns::two_mutexes(handle, counter),
            Main::TwoAdds => turns::two_adds(handle, counter),
            Main::LockBeside => turns::counted_lock_beside(handle, counter),
            Main::PingPong => turns::ping_pong(handle, counter),
            Main::GuardLeft => ends::guard_left(handle, counter),
            Main::Deaf => ends::pass_over_stops(handle, counter),
            Main::Stops => Err(Stop::Refused),
            Main::Starves => Err(Stop::Memory),
            Main::Changes if call == 1 => turns::lock_beside(handle, counter),
            Main::Changes => Ok(7),
            Main::LoadsMore => changes::load_more(handle, counter, call),
            Main::ChildAddsMore => changes::child_adds_more(handle, counter, call),
            Main::Swallows => changes::swallow_stops(handle, counter),
            Main::Carried(scene) => scene.play(handle),
            Main::Nothing => Ok(0),
        }
    }
}

/// A run that the visitor was given.
#[derive(PartialEq, Eq, Drop)]
pub(super) struct Run {
    choices: Vec<Choice>,
    value: u64,
}

impl Run {
    /// Whether the run ended with this value, by these choices.
    pub(super) fn is(&self, value: u64, choices: &[Choice]) -> bool {
        self.value == value && self.choices.as_slice() == choices
    }
}

/// Keeps each run that it is given.
#[derive(Drop)]
struct Keeper {
    alloc: Global,
    runs: Vec<Run>,
}

impl Visitor<u64> for Keeper {
    ghost takes = { λ old choices value new. Unit {0} };

    fn run(&mut self, choices: &[Choice], value: u64) -> Result<(), AllocError> {
        let choices = choices.to_vec(self.alloc)?;
        self.runs.push(Run { choices, value })?;
        Ok(())
    }
}

/// Keeps what the keepers of parts have kept.
impl Visitors<Keeper> for Keeper {
    ghost is_new = { λ keeper. Unit {0} };

    ghost joins = { λ old keeper new. Unit {0} };

    fn make(&self) -> Result<Keeper, AllocError> {
        Ok(Keeper {
            alloc: self.alloc,
            runs: Vec::new(self.alloc),
        })
    }

    fn join(&mut self, keeper: Keeper) -> Result<(), AllocError> {
        for run in keeper.runs {
            self.runs.push(run)?;
        }
        Ok(())
    }
}

/// A part is worked on for a run at a time.
const ONE_RUN: Slice = Slice {
    runs: 1,
    until: None,
};

/// Two workers.
const TWO: Workers = Workers {
    count: 2,
    slice: ONE_RUN,
};

/// What a check has found.
#[derive(Drop)]
pub(super) struct Found {
    pub(super) report: Result<Report, RunnerError>,
    /// The runs that the visitor was given.
    pub(super) runs: Vec<Run>,
    /// What the closures have counted.
    counted: u64,
    /// How often main was called.
    calls: u64,
}

impl Found {
    /// Whether the check made so many runs, and is complete.
    pub(super) fn completes(&self, count: u64) -> bool {
        matches!(&self.report, Ok(Report::Complete { runs }) if *runs == count)
    }

    /// Whether the check found this failure after so many runs, under these choices.
    fn fails(&self, kind: FailureKind, count: u64, list: &[Choice]) -> bool {
        match &self.report {
            Ok(
                Report::Failed {
                    runs,
                    failure,
                    choices,
                },
            ) => failure.kind == kind && *runs == count && choices.as_slice() == list,
            _ => false,
        }
    }

    /// Whether the check ended since this thread has changed in this run, by this text.
    fn changes(&self, run: u64, thread: u8, text: &str) -> bool {
        match &self.report {
            Err(RunnerError::Changed(change)) => change.run == run
                && change.thread == thread
                && change.text.as_str() == text,
            _ => false,
        }
    }

    /// Whether main was called so often, and so much was counted.
    pub(super) fn counts(&self, calls: u64, counted: u64) -> bool {
        self.calls == calls && self.counted == counted
    }

    /// Whether main ended with this value in some run.
    pub(super) fn has_value(&self, value: u64) -> bool {
        for run in &self.runs {
            if run.value == value {
                return true;
            }
        }
        false
    }

    /// Whether a run failed by this kind.
    pub(super) fn fails_by(&self, kind: FailureKind) -> bool {
        match &self.report {
            Ok(Report::Failed { failure, .. }) => failure.kind == kind,
            _ => false,
        }
    }

    /// Whether the checks were given the same runs, in whatever order, and this one has called main more seldom.
    pub(super) fn has_the_runs_with_fewer_calls(&self, other: &Found) -> bool {
        for run in &other.runs {
            if !self.runs.contains(run) {
                return false;
            }
        }
        self.runs.len() == other.runs.len() && self.calls < other.calls
    }

    /// Whether the checks have the same report and were given the same runs.
    pub(super) fn is_like(&self, other: &Found) -> bool {
        self.report == other.report && self.runs.as_slice() == other.runs.as_slice()
    }

    /// Whether this one has called main more seldom besides.
    pub(super) fn is_like_with_fewer_calls(&self, other: &Found) -> bool {
        self.is_like(other) && self.calls < other.calls
    }

    /// Whether the check has found this.
    pub(super) fn comes_to(&self, wanted: Wanted) -> bool {
        match wanted {
            Wanted::Complete(count) => self.completes(count),
            Wanted::Fails(kind, count, list) => self.fails(kind, count, list),
            Wanted::Changes(run, thread, text) => self.changes(run, thread, text),
            Wanted::NoSettings => matches!(&self.report, Err(RunnerError::Settings(_))),
            Wanted::NoMemory => matches!(&self.report, Err(RunnerError::Memory)),
        }
    }
}

/// What a check is to find.
#[derive(Clone, Copy)]
pub(super) enum Wanted<'a> {
    /// It is complete, after so many runs.
    Complete(u64),
    /// It finds this failure after so many runs, under these choices.
    Fails(FailureKind, u64, &'a [Choice]),
    /// In this run this thread has changed, by this text.
    Changes(u64, u8, &'a str),
    /// Its settings are refused.
    NoSettings,
    /// It ends for want of memory.
    NoMemory,
}

/// A check of main by these settings.
pub(super) fn find<R: Host>(rt: &R, builder: &Builder, main: Main) -> Result<Found, AllocError> {
    let alloc: Global = rt.alloc();
    let counter = Arc::new(alloc, AtomicU64::new(0))?;
    let mut keeper = Keeper {
        alloc,
        runs: Vec::new(alloc),
    };
    let mut calls = 0u64;
    let report = check(
        rt,
        alloc,
        builder,
        |handle: &mut Handle<u64, R>| {
            calls = calls.wrapping_add(1);
            main.run(handle, &counter, calls)
        },
        &mut keeper,
    );
    let Keeper { alloc: _, runs } = keeper;
    Ok(Found {
        report,
        runs,
        counted: counter.load(Ordering::SeqCst),
        calls,
    })
}

/// A check of main by these settings that records what main's closures answer.
pub(super) fn find_recorded<R: Host>(
    rt: &R,
    builder: &Builder,
    main: Main,
) -> Result<Found, AllocError> {
    let alloc: Global = rt.alloc();
    let counter = Arc::new(alloc, AtomicU64::new(0))?;
    let mut keeper = Keeper {
        alloc,
        runs: Vec::new(alloc),
    };
    let mut calls = 0u64;
    let report = check_recorded(
        rt,
        alloc,
        builder,
        |handle: &mut Handle<u64, R>| {
            calls = calls.wrapping_add(1);
            main.run(handle, &counter, calls)
        },
        &mut keeper,
        &mut NoClock,
        &mut None::<MemoryStore>,
        &None::<HostRuntime>,
    );
    let Keeper { alloc: _, runs } = keeper;
    Ok(Found {
        report,
        runs,
        counted: counter.load(Ordering::SeqCst),
        calls,
    })
}

/// A check of main by these settings that remembers states. Of what it found this is what other checks find too.
pub(super) fn find_covered<R: Host>(
    rt: &R,
    builder: &Builder,
    main: Main,
) -> Result<Found, AllocError> {
    let alloc: Global = rt.alloc();
    let counter = Arc::new(alloc, AtomicU64::new(0))?;
    let mut keeper = Keeper {
        alloc,
        runs: Vec::new(alloc),
    };
    let mut calls = 0u64;
    let covered = cover_recorded(
        rt,
        alloc,
        builder,
        |handle: &mut Handle<u64, R>| {
            calls = calls.wrapping_add(1);
            main.run(handle, &counter, calls)
        },
        &mut keeper,
        &mut NoClock,
        &mut None::<MemoryStore>,
        MOST_STATES,
        &None::<HostRuntime>,
    );
    let Keeper { alloc: _, runs } = keeper;
    Ok(Found {
        report: reported(covered),
        runs,
        counted: counter.load(Ordering::SeqCst),
        calls,
    })
}

/// A check of main by these settings by two workers, who make a run at a time of what main's closures answer.
pub(super) fn find_by_workers<R: Host + Clock + Sync>(
    rt: &R,
    builder: &Builder,
    main: Main,
) -> Result<Found, AllocError> {
    let alloc: Global = rt.alloc();
    let counter = Arc::new(alloc, AtomicU64::new(0))?;
    let mut keeper = Keeper {
        alloc,
        runs: Vec::new(alloc),
    };
    let mut calls = 0u64;
    let came = match builder.parts(alloc) {
        Ok(mut parts) => check_parallel_recorded(
            rt,
            alloc,
            builder,
            |handle: &mut Handle<u64, R>| {
                calls = calls.wrapping_add(1);
                main.run(handle, &counter, calls)
            },
            TWO,
            &mut parts,
            &mut keeper,
            &mut NoClock,
            &None::<HostRuntime>,
        ),
        Err(error) => Err(RunnerError::from(error)),
    };
    let Keeper { alloc: _, runs } = keeper;
    Ok(Found {
        report: come_to(came),
        runs,
        counted: counter.load(Ordering::SeqCst),
        calls,
    })
}

/// What several workers found, as a report. None of these tests has a limit.
fn come_to(came: Result<Came, RunnerError>) -> Result<Report, RunnerError> {
    match came? {
        Came::Complete { runs } => Ok(Report::Complete { runs }),
        Came::Failed {
            runs,
            failure,
            choices,
        } => Ok(Report::Failed {
            runs,
            failure,
            choices,
        }),
        Came::Stopped { .. } => Err(RunnerError::NotSettled),
    }
}

/// A check of main by these settings as one part, on which it works a run at a time. What main's closures answer is recorded anew for each.
pub(super) fn find_in_slices<R: Host>(
    rt: &R,
    builder: &Builder,
    main: Main,
) -> Result<Found, AllocError> {
    let alloc: Global = rt.alloc();
    let counter = Arc::new(alloc, AtomicU64::new(0))?;
    let mut keeper = Keeper {
        alloc,
        runs: Vec::new(alloc),
    };
    let mut calls = 0u64;
    let report = work_in_slices(rt, builder, main, &counter, &mut calls, &mut keeper);
    let Keeper { alloc: _, runs } = keeper;
    Ok(Found {
        report,
        runs,
        counted: counter.load(Ordering::SeqCst),
        calls,
    })
}

/// Works on the whole search as one part, a run at a time, of which there are a thousand at most.
fn work_in_slices<R: Host>(
    rt: &R,
    builder: &Builder,
    main: Main,
    counter: &Counter,
    calls: &mut u64,
    keeper: &mut Keeper,
) -> Result<Report, RunnerError> {
    let parts = builder.parts(rt.alloc())?;
    let Some(mut part) = parts.take(rt.alloc(), 0)? else {
        return Err(RunnerError::NotSettled);
    };
    for _ in 0..1000 {
        if part.is_done {
            return Ok(Report::Complete { runs: part.runs });
        }
        let worked = check_part_recorded(
            rt,
            rt.alloc(),
            builder,
            |handle: &mut Handle<u64, R>| {
                *calls = calls.wrapping_add(1);
                main.run(handle, counter, *calls)
            },
            &mut part,
            ONE_RUN,
            keeper,
            &mut NoClock,
            &None::<HostRuntime>,
        )?;
        if let Worked::Failed {
            runs: _,
            failure,
            choices,
        } = worked
        {
            return Ok(Report::Failed {
                runs: part.runs,
                failure,
                choices,
            });
        }
    }
    Err(RunnerError::NotSettled)
}

/// What such a check found, as a report. None of these tests has a livelock or a limit.
fn reported(covered: Result<Covered, RunnerError>) -> Result<Report, RunnerError> {
    match covered? {
        Covered::Complete { runs, .. } => Ok(Report::Complete { runs }),
        Covered::Failed {
            runs,
            failure,
            choices,
            ..
        } => Ok(Report::Failed {
            runs,
            failure,
            choices,
        }),
        Covered::Livelock { .. } | Covered::Stopped { .. } => Err(RunnerError::NotSettled),
    }
}

/// A check of main by the defaults is complete, the visitor is given each run, one at least, and so much is counted in each.
pub(super) fn passes<R: Abort + Host>(rt: &R, main: Main, counted: u64) -> Result<(), Fail> {
    let found = find(rt, &Builder::new(), main)?;
    let runs = found.runs.len() as u64;
    holds(rt, runs > 0 && found.completes(runs));
    holds(rt, found.counted == runs.saturating_mul(counted));
    Ok(())
}

/// A check of main by these settings finds this, calls main so often, and so much is counted.
pub(super) fn comes_to<R: Abort + Host>(
    rt: &R,
    builder: &Builder,
    main: Main,
    wanted: Wanted,
    calls: u64,
    counted: u64,
) -> Result<(), Fail> {
    let found = find(rt, builder, main)?;
    holds(rt, found.comes_to(wanted));
    holds(rt, found.counts(calls, counted));
    Ok(())
}
