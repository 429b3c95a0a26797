//! What the program makes runs of in parts: the body of a row, or a row of closures.
ghost use Rattle.std.specs.Prelude.{◌≡◌, IfOk};

use crate::bodies::updates::Updater;
use crate::closures::rows::{ClosureRow, refuse_run};
use crate::closures::tasks;
use crate::rows::options::RowAsked;
use crate::rows::tasks::explain_report;
use crate::rows::{Checked, refuse_check};
use crate::scripts::script::Script;
use loom::model::builder::Builder;
use loom::model::error::CheckError;
use loom::model::parts::{Slice, Worked};
use loom::model::{Replay, Report};
use loom::runner::{Apart, Found, Host, NoVisitor, RunnerError, Workers, check_parallel};
use loom::{Body, Choice, Clock};
use loom_engine::rt::parts::{Part, Parts};
use std::alloc::{AllocError, Global};
use std::io::{self, Write};
use std::rt::Clock as HostTime;

/// What has runs of which parts are made.
#[derive(Drop)]
pub(crate) enum Parted {
    /// The body that runs a script.
    Script(Script),
    /// The body that updates its atomic.
    Updater(Updater),
    /// A row of closures.
    Closures(ClosureRow),
}

impl Parted {
    /// The body of a row.
    pub(crate) fn of(alloc: Global, checked: Checked) -> Result<Parted, AllocError> {
        match checked {
            Checked::Script(steps) => Ok(Parted::Script(Script::new(alloc, steps)?)),
            Checked::Updater(one, other) => Ok(Parted::Updater(Updater::main(one, other))),
        }
    }

    /// What several workers find, by this builder, from this list of parts on.
    pub(crate) fn find<R: Host + HostTime + Sync, C: Clock>(
        &self,
        rt: &R,
        builder: &Builder,
        workers: Workers,
        parts: &mut Parts,
        clock: &mut C,
    ) -> Result<Found, RunnerError> {
        match self {
            Parted::Script(script) => find_of_body(rt, builder, script, workers, parts, clock),
            Parted::Updater(updater) => find_of_body(rt, builder, updater, workers, parts, clock),
            Parted::Closures(row) => {
                row.check_parallel(rt, rt.alloc(), builder, workers, parts, clock)
            }
        }
    }

    /// Makes runs of a part of the search, by this builder, and gives the outcome.
    pub(crate) fn work_on<R: Host, C: Clock>(
        &self,
        rt: &R,
        builder: &Builder,
        part: &mut Part,
        slice: Slice,
        clock: &mut C,
    ) -> Result<Worked, RunnerError> {
        let alloc = rt.alloc();
        match self {
            Parted::Script(script) => {
                Ok(builder.check_part(alloc, script, part, slice, &mut NoVisitor, clock)?)
            }
            Parted::Updater(updater) => {
                Ok(builder.check_part(alloc, updater, part, slice, &mut NoVisitor, clock)?)
            }
            Parted::Closures(row) => row.check_part(rt, alloc, builder, part, slice, clock),
        }
    }

    /// One run, by these choices and then by defaults.
    pub(crate) fn replay<R: Host>(
        &self,
        rt: &R,
        builder: &Builder,
        choices: &[Choice],
    ) -> Result<Replay<u64>, RunnerError> {
        let alloc = rt.alloc();
        match self {
            Parted::Script(script) => Ok(builder.replay(alloc, script, choices)?),
            Parted::Updater(updater) => Ok(builder.replay(alloc, updater, choices)?),
            Parted::Closures(row) => row.replay(rt, alloc, builder, choices),
        }
    }

    /// Explains the report, where a run failed and that is asked for.
    pub(crate) fn explain_report<R: Host, O: Write>(
        &self,
        rt: &R,
        builder: &Builder,
        report: &Report,
        asked: RowAsked,
        out: &mut O,
    ) -> io::Result<()> {
        match self {
            Parted::Script(script) => {
                explain_report(rt, builder, script, report, asked.explains, out)
            }
            Parted::Updater(updater) => {
                explain_report(rt, builder, updater, report, asked.explains, out)
            }
            Parted::Closures(row) => tasks::explain_report(rt, *row, builder, report, asked, out),
        }
    }

    /// Prints which error came, and why: of a body the error of its check, and of closures that of theirs.
    pub(crate) fn refuse<E: Write>(
        &self,
        err: &mut E,
        builder: &Builder,
        error: RunnerError,
    ) -> io::Result<u8>
        ensures { IfOk result (λ status. status ≡ 2) }
    {
        match self {
            Parted::Script(_) | Parted::Updater(_) => refuse_body(err, builder, error),
            Parted::Closures(_) => refuse_run(err, builder, error),
        }
    }
}

/// Prints which error of a body's check came, and why.
pub(crate) fn refuse_body<E: Write>(
    err: &mut E,
    builder: &Builder,
    error: RunnerError,
) -> io::Result<u8>
    ensures { IfOk result (λ status. status ≡ 2) }
{
    match error {
        RunnerError::Settings(why) => refuse_check(err, builder, why),
        RunnerError::Memory => refuse_check(err, builder, CheckError::Memory),
        error => refuse_run(err, builder, error),
    }
}

// What several workers find of a body.
fn find_of_body<R: Host + HostTime + Sync, B: Body<Data = u64> + Apart + Sync, C: Clock>(
    rt: &R,
    builder: &Builder,
    body: &B,
    workers: Workers,
    parts: &mut Parts,
    clock: &mut C,
) -> Result<Found, RunnerError> {
    Ok(check_parallel(
        rt,
        rt.alloc(),
        builder,
        body,
        workers,
        parts,
        &mut NoVisitor,
        clock,
        &None::<HostRuntime>,
    )?)
}
