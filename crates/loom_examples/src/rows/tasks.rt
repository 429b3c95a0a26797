//! What the program does with a row besides a check: a check with rising bounds, one run by given choices, and an explanation of
//! a failure.
ghost use Rattle.std.specs.Prelude.{◌≡◌, ◌⊎◌, Some, IfOk, OnOk, false, option_copied};
ghost use Rattle.loom_engine.specs.Runs.Body.{runs as runs_of};
ghost use Rattle.loom.specs.Model.Settings.{explores};
ghost use Rattle.loom_examples.specs.Rows.Tasks.{PrintedBy, PrintedChanged, PrintedReplay, PrintedRisen, PrintedTask, replay_status, replay_text, risen_text, tree_of};

use crate::bodies::updates::Updater;
use crate::rows::changes::Changes;
use crate::rows::line::{self, ShownReport, SpacedChoices};
use crate::rows::settings::Builds;
use crate::rows::{Checked, Row, print_report, refuse_check};
use crate::scripts::script::Script;
use loom::model::builder::Builder;
use loom::model::rising::Risen;
use loom::model::{Replay, Report};
use loom::{Body, Choice};
use std::fmt;
use std::io::{self, Write};
use std::rt::Files;

/// Up to this bound on preemptions a check with rising bounds goes.
pub const UP_TO: usize = 3;

/// What is done with a row.
#[derive(Clone, Copy)]
pub enum Task<'a> {
    /// It is checked.
    Check,
    /// It is checked with a bound of 0 preemptions, of 1, and so on, up to the first failure.
    Rise,
    /// One run is made, by these choices and then by defaults.
    Replay(&'a [Choice]),
}

/// What a check with rising bounds found: the last bound, and the report.
#[derive(Clone, Copy)]
pub struct ShownRisen<'a>(pub &'a Risen);

/// How a run by given choices ended, where it failed the failure's number, and the run's choices.
#[derive(Clone, Copy)]
pub struct ShownReplay<'a>(pub &'a Replay<u64>);

impl fmt::Display for ShownRisen<'_> {
    ghost output = { λ shown. Some (risen_text shown.0.now) };

    fn fmt<W: fmt::Write>(&self, f: &mut fmt::Formatter<W>) -> fmt::Result {
        let bound = self.0.bound;
        let report = ShownReport(&self.0.report);
        write!(f, "bound {bound} {report}")
    }
}

impl fmt::Display for ShownReplay<'_> {
    ghost output = { λ shown. Some (replay_text shown.0.now) };

    fn fmt<W: fmt::Write>(&self, f: &mut fmt::Formatter<W>) -> fmt::Result {
        match self.0 {
            Replay::Ended { choices, .. } => {
                let choices = SpacedChoices(choices.as_slice());
                write!(f, "ended{choices}")
            }
            Replay::Failed { failure, choices } => {
                let kind = failure.kind.number();
                let choices = SpacedChoices(choices.as_slice());
                write!(f, "failed {kind}{choices}")
            }
        }
    }
}

/// Does this with the row and this checkpoint file, if there is one, prints what comes of it, and answers the exit status. Where
/// a run failed and that is asked for, its explanation follows the line.
pub fn do_task<R: AllocGlobal + Files, O: Write, E: Write>(
    rt: &R,
    row: &Row,
    task: Task,
    explains: bool,
    file: Option<&str>,
    out: &mut O,
    err: &mut E,
) -> io::Result<u8>
    ensures { IfOk result (λ status. (status ≡ 2) ⊎ PrintedTask task.entry explains row.now.checked row.now.settings (option_copied file.entry) (O.contents out.old) (O.contents out.new) status) }
{
    let builder = row.settings.builder_with(rt.alloc(), file)?;
    with_builder(rt, &builder, row.checked, task, explains, out, err)
}

/// `do_task` with a builder in which these settings take the place of the row's own.
pub fn do_changed<R: AllocGlobal + Files, O: Write, E: Write>(
    rt: &R,
    row: &Row,
    changes: Changes,
    task: Task,
    explains: bool,
    file: Option<&str>,
    out: &mut O,
    err: &mut E,
) -> io::Result<u8>
    ensures { IfOk result (λ status. (status ≡ 2) ⊎ PrintedChanged changes task.entry explains row.now.checked row.now.settings (option_copied file.entry) (O.contents out.old) (O.contents out.new) status) }
{
    let builder = changes.change(row.settings.builder_with(rt.alloc(), file)?);
    with_builder(rt, &builder, row.checked, task, explains, out, err)
}

/// Does this with what is checked, by this builder.
fn with_builder<R: AllocGlobal + Files, O: Write, E: Write>(
    rt: &R,
    builder: &Builder,
    checked: Checked,
    task: Task,
    explains: bool,
    out: &mut O,
    err: &mut E,
) -> io::Result<u8>
    ensures { IfOk result (λ status. (status ≡ 2) ⊎ PrintedBy task.entry explains builder.now (tree_of checked builder.now) (O.contents out.old) (O.contents out.new) status) }
{
    match checked {
        Checked::Script(steps) => {
            let script = Script::new(rt.alloc(), steps)?;
            with_body(rt, builder, &script, task, explains, out, err)
        }
        Checked::Updater(one, other) => {
            let updater = Updater::main(one, other);
            with_body(rt, builder, &updater, task, explains, out, err)
        }
    }
}

fn with_body<R: AllocGlobal + Files, B: Body<Data = u64>, O: Write, E: Write>(
    rt: &R,
    builder: &Builder,
    body: &B,
    task: Task,
    explains: bool,
    out: &mut O,
    err: &mut E,
) -> io::Result<u8>
    ensures { IfOk result (λ status. (status ≡ 2) ⊎ PrintedBy task.entry explains builder.now (runs_of B.next (explores builder.now) builder.now.max_threads builder.now.max_steps body.now) (O.contents out.old) (O.contents out.new) status) }
{
    match task {
        Task::Check => do_check(rt, builder, body, explains, out, err),
        Task::Rise => do_rise(rt, builder, body, explains, out, err),
        Task::Replay(choices) => do_replay(rt, builder, body, choices, explains, out, err),
    }
}

fn do_check<R: AllocGlobal + Files, B: Body<Data = u64>, O: Write, E: Write>(
    rt: &R,
    builder: &Builder,
    body: &B,
    explains: bool,
    out: &mut O,
    err: &mut E,
) -> io::Result<u8>
    ensures { IfOk result (λ status. (status ≡ 2) ⊎ PrintedBy Task.Check explains builder.now (runs_of B.next (explores builder.now) builder.now.max_threads builder.now.max_steps body.now) (O.contents out.old) (O.contents out.new) status) }
{
    match builder.check(rt, rt.alloc(), body) {
        Ok(report) => {
            let status = print_report(out, &report)?;
            explain_report(rt, builder, body, &report, explains, out)?;
            Ok(status)
        }
        Err(error) => refuse_check(err, builder, error),
    }
}

fn do_rise<R: AllocGlobal + Files, B: Body<Data = u64>, O: Write, E: Write>(
    rt: &R,
    builder: &Builder,
    body: &B,
    explains: bool,
    out: &mut O,
    err: &mut E,
) -> io::Result<u8>
    ensures { IfOk result (λ status. (status ≡ 2) ⊎ PrintedBy Task.Rise explains builder.now (runs_of B.next (explores builder.now) builder.now.max_threads builder.now.max_steps body.now) (O.contents out.old) (O.contents out.new) status) }
{
    match builder.check_rising(rt.alloc(), body, UP_TO) {
        Ok(risen) => {
            let status = print_risen(out, &risen)?;
            explain_report(rt, builder, body, &risen.report, explains, out)?;
            Ok(status)
        }
        Err(error) => refuse_check(err, builder, error),
    }
}

fn do_replay<R: AllocGlobal + Files, B: Body<Data = u64>, O: Write, E: Write>(
    rt: &R,
    builder: &Builder,
    body: &B,
    choices: &[Choice],
    explains: bool,
    out: &mut O,
    err: &mut E,
) -> io::Result<u8>
    ensures { IfOk result (λ status. (status ≡ 2) ⊎ PrintedBy (Task.Replay choices.entry) explains builder.now (runs_of B.next (explores builder.now) builder.now.max_threads builder.now.max_steps body.now) (O.contents out.old) (O.contents out.new) status) }
{
    match builder.replay(rt.alloc(), body, choices) {
        Ok(replay) => {
            let status = print_replay(out, &replay)?;
            explain_replay(rt, builder, body, &replay, explains, out)?;
            Ok(status)
        }
        Err(error) => refuse_check(err, builder, error),
    }
}

/// Prints the line, and answers the exit status.
pub(crate) fn print_risen<W: Write>(out: &mut W, risen: &Risen) -> io::Result<u8>
    ensures { IfOk result (λ status. PrintedRisen risen.now (W.contents out.old) (W.contents out.new) status) }
{
    let shown = ShownRisen(risen);
    writeln!(out, "{shown}")?;
    Ok(line::status_of(&risen.report))
}

/// Prints the line, and answers the exit status.
pub(crate) fn print_replay<W: Write>(out: &mut W, replay: &Replay<u64>) -> io::Result<u8>
    ensures { IfOk result (λ status. PrintedReplay replay.now (W.contents out.old) (W.contents out.new) status) }
{
    let shown = ShownReplay(replay);
    writeln!(out, "{shown}")?;
    Ok(status_of_replay(replay))
}

fn status_of_replay(replay: &Replay<u64>) -> u8
    ensures { result ≡ replay_status replay.now }
{
    match replay {
        Replay::Ended { .. } => 0,
        Replay::Failed { .. } => 1,
    }
}

/// Explains the report, where a run failed and that is asked for.
pub(crate) fn explain_report<R: AllocGlobal, B: Body<Data = u64>, O: Write>(
    rt: &R,
    builder: &Builder,
    body: &B,
    report: &Report,
    explains: bool,
    out: &mut O,
) -> io::Result<()>
    ensures { OnOk result (explains ≡ false → O.contents out.new ≡ O.contents out.old) }
{
    if explains && let Report::Failed { choices, .. } = report {
        tell_failure(rt, builder, body, choices.as_slice(), out)?;
    }
    Ok(())
}

/// Explains the run by given choices, where it failed and that is asked for.
fn explain_replay<R: AllocGlobal, B: Body<Data = u64>, O: Write>(
    rt: &R,
    builder: &Builder,
    body: &B,
    replay: &Replay<u64>,
    explains: bool,
    out: &mut O,
) -> io::Result<()>
    ensures { OnOk result (explains ≡ false → O.contents out.new ≡ O.contents out.old) }
{
    if explains && let Replay::Failed { choices, .. } = replay {
        tell_failure(rt, builder, body, choices.as_slice(), out)?;
    }
    Ok(())
}

/// Explains the failing run with these choices.
fn tell_failure<R: AllocGlobal, B: Body<Data = u64>, O: Write>(
    rt: &R,
    builder: &Builder,
    body: &B,
    choices: &[Choice],
    out: &mut O,
) -> io::Result<()> {
    match builder.explain(rt.alloc(), body, choices) {
        Ok(explanation) => write!(out, "{explanation}"),
        Err(error) => writeln!(out, "{error}"),
    }
}
