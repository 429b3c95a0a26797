//! What the program prints of a row as one JSON object.

use crate::bodies::updates::Updater;
use crate::rows::changes::Changes;
use crate::rows::cover::covered_by;
use crate::rows::settings::Builds;
use crate::rows::tasks::{Task, UP_TO};
use crate::rows::{Checked, Row, refuse_check, timed};
use crate::scripts::script::Script;
use loom::model::builder::Builder;
use loom::model::cover::Covered;
use loom::model::error::CheckError;
use loom::model::{Replay, Report};
use loom::{Body, Choice, ShownChoices};
use loom_objects::failure::Failure;
use serde_json::{Value, json};
use std::alloc::{AllocError, Global};
use std::io::{self, Write};
use std::rt::{Clock, Files};

/// What is printed, and the exit status.
#[derive(Drop)]
pub(crate) struct Answer {
    object: Value,
    status: u8,
}

/// Why there is no answer.
#[derive(Drop)]
enum NoAnswer {
    /// There is no report.
    Check(CheckError),
    /// A growth was refused.
    Memory,
}

impl From<CheckError> for NoAnswer {
    fn from(error: CheckError) -> NoAnswer {
        NoAnswer::Check(error)
    }
}

impl From<AllocError> for NoAnswer {
    fn from(_error: AllocError) -> NoAnswer {
        NoAnswer::Memory
    }
}

/// Does this with the row, with these settings in place of its own, and prints the report as one JSON object. Answers the exit
/// status.
pub fn do_task<R: AllocGlobal + Clock + Files, O: Write, E: Write>(
    rt: &R,
    row: &Row,
    changes: Changes,
    task: Task,
    file: Option<&str>,
    out: &mut O,
    err: &mut E,
) -> io::Result<u8> {
    let builder = changes.change(row.settings.builder_with(rt.alloc(), file)?);
    match make_answer(rt, &builder, row, task) {
        Ok(answer) => print_answer(rt.alloc(), &answer, out),
        Err(NoAnswer::Check(error)) => refuse_check(err, &builder, error),
        Err(NoAnswer::Memory) => Ok(2),
    }
}

/// Covers the row, with at most so many states, with these settings in place of its own and with this checkpoint file, if there is one,
/// and prints what that found as one JSON object. Answers the exit status.
pub(crate) fn cover_row<R: AllocGlobal + Clock + Files, O: Write, E: Write>(
    rt: &R,
    row: &Row,
    changes: Changes,
    most_states: usize,
    file: Option<&str>,
    out: &mut O,
    err: &mut E,
) -> io::Result<u8> {
    let builder = changes.change(row.settings.builder_with(rt.alloc(), file)?);
    match cover_answer(rt, &builder, row, most_states) {
        Ok(answer) => print_answer(rt.alloc(), &answer, out),
        Err(NoAnswer::Check(error)) => refuse_check(err, &builder, error),
        Err(NoAnswer::Memory) => Ok(2),
    }
}

fn cover_answer<R: AllocGlobal + Clock + Files>(
    rt: &R,
    builder: &Builder,
    row: &Row,
    most_states: usize,
) -> Result<Answer, NoAnswer> {
    let covered = match row.checked {
        Checked::Script(steps) => {
            let script = Script::new(rt.alloc(), steps)?;
            covered_by(rt, builder, &script, most_states)?
        }
        Checked::Updater(one, other) => {
            covered_by(rt, builder, &Updater::main(one, other), most_states)?
        }
    };
    Ok(of_covered(rt.alloc(), row.name, &covered)?)
}

/// Prints the object, and answers the exit status.
pub(crate) fn print_answer<O: Write>(
    alloc: Global,
    answer: &Answer,
    out: &mut O,
) -> io::Result<u8> {
    let text = answer.object.to_string(alloc)?;
    writeln!(out, "{text}")?;
    Ok(answer.status)
}

fn make_answer<R: AllocGlobal + Clock + Files>(
    rt: &R,
    builder: &Builder,
    row: &Row,
    task: Task,
) -> Result<Answer, NoAnswer> {
    match row.checked {
        Checked::Script(steps) => {
            let script = Script::new(rt.alloc(), steps)?;
            of_body(rt, builder, row.name, &script, task)
        }
        Checked::Updater(one, other) => {
            of_body(rt, builder, row.name, &Updater::main(one, other), task)
        }
    }
}

fn of_body<R: AllocGlobal + Clock + Files, B: Body<Data = u64>>(
    rt: &R,
    builder: &Builder,
    name: &str,
    body: &B,
    task: Task,
) -> Result<Answer, NoAnswer> {
    let alloc = rt.alloc();
    match task {
        Task::Check => {
            let report = timed::check(rt, builder, body)?;
            Ok(of_report(alloc, name, None, &report)?)
        }
        Task::Rise => {
            let risen = builder.check_rising(alloc, body, UP_TO)?;
            Ok(of_report(alloc, name, Some(risen.bound), &risen.report)?)
        }
        Task::Replay(choices) => {
            let replay = builder.replay(alloc, body, choices)?;
            Ok(of_replay(alloc, name, &replay)?)
        }
    }
}

/// The object of a report, with the last bound where bounds rose.
pub(crate) fn of_report(
    alloc: Global,
    name: &str,
    bound: Option<usize>,
    report: &Report,
) -> Result<Answer, AllocError> {
    let (result, runs) = match report {
        Report::Complete { runs } => ("complete", *runs),
        Report::Stopped { runs, .. } => ("stopped", *runs),
        Report::Failed { runs, .. } => ("failed", *runs),
    };
    let mut object = json!(in alloc; { "row": name, "result": result, "runs": runs })?;
    if let Some(bound) = bound {
        put(alloc, &mut object, "bound", json!(in alloc; bound)?)?;
    }
    match report {
        Report::Complete { .. } => Ok(Answer { object, status: 0 }),
        Report::Stopped { limit, .. } => {
            let limit = format!(in alloc; "{limit}")?;
            put(alloc, &mut object, "limit", json!(in alloc; limit)?)?;
            Ok(Answer { object, status: 0 })
        }
        Report::Failed {
            failure,
            choices,
            ..
        } => {
            put_failure(alloc, &mut object, failure)?;
            put_choices(alloc, &mut object, choices.as_slice())?;
            Ok(Answer { object, status: 1 })
        }
    }
}

/// The object of what a check found that remembers states.
pub(crate) fn of_covered(
    alloc: Global,
    name: &str,
    covered: &Covered,
) -> Result<Answer, AllocError> {
    let (result, runs, met, states) = counts_of(covered);
    let mut object = json!(in alloc; {
        "row": name,
        "result": result,
        "runs": runs,
        "met": met,
        "states": states
    })?;
    match covered {
        Covered::Complete { .. } => Ok(Answer { object, status: 0 }),
        Covered::Livelock { choices, .. } => {
            put_choices(alloc, &mut object, choices.as_slice())?;
            Ok(Answer { object, status: 1 })
        }
        Covered::Stopped { limit, .. } => {
            let limit = format!(in alloc; "{limit}")?;
            put(alloc, &mut object, "limit", json!(in alloc; limit)?)?;
            Ok(Answer { object, status: 0 })
        }
        Covered::Failed {
            failure,
            choices,
            ..
        } => {
            put_failure(alloc, &mut object, failure)?;
            put_choices(alloc, &mut object, choices.as_slice())?;
            Ok(Answer { object, status: 1 })
        }
    }
}

/// In a word the outcome of a check that remembers states, and how many runs ended, how many were given up, and how many states were noted.
fn counts_of(covered: &Covered) -> (&'static str, u64, u64, usize) {
    match covered {
        Covered::Complete { runs, met, states } => ("complete", *runs, *met, *states),
        Covered::Livelock {
            runs,
            met,
            states,
            ..
        } => ("livelock", *runs, *met, *states),
        Covered::Stopped {
            runs,
            met,
            states,
            ..
        } => ("stopped", *runs, *met, *states),
        Covered::Failed {
            runs,
            met,
            states,
            ..
        } => ("failed", *runs, *met, *states),
    }
}

/// The object of a run by given choices.
pub(crate) fn of_replay(
    alloc: Global,
    name: &str,
    replay: &Replay<u64>,
) -> Result<Answer, AllocError> {
    match replay {
        Replay::Ended { choices, value } => {
            let mut object = json!(in alloc; { "row": name, "result": "ended", "value": *value })?;
            put_choices(alloc, &mut object, choices.as_slice())?;
            Ok(Answer { object, status: 0 })
        }
        Replay::Failed { failure, choices } => {
            let mut object = json!(in alloc; { "row": name, "result": "failed" })?;
            put_failure(alloc, &mut object, failure)?;
            put_choices(alloc, &mut object, choices.as_slice())?;
            Ok(Answer { object, status: 1 })
        }
    }
}

fn put_failure(alloc: Global, object: &mut Value, failure: &Failure) -> Result<(), AllocError> {
    let number = failure.kind.number();
    let text = format!(in alloc; "{failure}")?;
    put(alloc, object, "failure", json!(in alloc; number)?)?;
    put(alloc, object, "cause", json!(in alloc; text)?)
}

fn put_choices(alloc: Global, object: &mut Value, choices: &[Choice]) -> Result<(), AllocError> {
    let shown = ShownChoices(choices);
    let text = format!(in alloc; "{shown}")?;
    put(alloc, object, "choices", json!(in alloc; text)?)
}

// Puts a member behind the others.
fn put(alloc: Global, object: &mut Value, name: &str, value: Value) -> Result<(), AllocError> {
    if let Some(members) = object.as_object_mut() {
        members.insert(String::from_str(alloc, name)?, value)?;
    }
    Ok(())
}
