//! What the program does with a row of closures by its options: a check by other settings, with rising bounds, by several workers or
//! one that remembers states, a walk, one run by given choices, a shorter failure, an explanation of a failure, and a JSON object.
use crate::closures::rows::{ClosureRow, refuse_run};
use crate::rows::drawing::Drawing;
use crate::rows::found::{Found, failing_choices};
use crate::rows::jobs;
use crate::rows::options::RowAsked;
use crate::rows::parted::Parted;
use crate::rows::shares::ONE_COVERS;
use crate::rows::tasks::Task;
use crate::rows::walks::{ONE_WALKS, SHORTENING_RUNS, failing_in, print_shortened, print_walked};
use crate::rows::words::{refuse, refuse_choices};
use log::Log;
use loom::model::builder::Builder;
use loom::model::different::MOST_DIFFERENT;
use loom::model::{Report, Walk};
use loom::runner::{Host, RunnerError};
use loom::{Choice, Choices};
use std::io::{self, Write};
use std::rt::{Clock, Files};
use std::sync::Wait;
use std::thread::Threads;

const NO_SNAPSHOTS: &str = "error: '--snapshots' isn't for rows of closures";

/// Does what is asked of a row of closures, by the settings of this builder where neither the words nor the row name others. Prints what
/// comes of it, and answers the exit status. The log hears of a walk.
pub fn run_asked<R: Host + Clock + Sync, L: Log + Clone + Send + 'static, O: Write, E: Write>(
    rt: &R,
    log: &L,
    row: ClosureRow,
    builder: Builder,
    asked: RowAsked,
    out: &mut O,
    err: &mut E,
) -> io::Result<u8> {
    if let Some(cause) = refusal(&asked) {
        return refuse(err, cause);
    }
    let builder = row.builder_with(rt.alloc(), builder, asked.file)?;
    let mut builder = asked.changes.change(builder);
    builder.recorded = asked.records;
    builder.max_different = Some(MOST_DIFFERENT);
    if let Some(walk) = asked.walk {
        return walk_through(rt, log, row, &builder, walk, asked, out, err);
    }
    if let Some(most_states) = asked.covers {
        return cover_through(rt, row, &builder, most_states, asked, out, err);
    }
    if let Some(jobs) = asked.jobs {
        let parted = Parted::Closures(row);
        return jobs::check(rt, &builder, &parted, jobs, asked, out, err);
    }
    let Some(text) = asked.replay else {
        let task = if asked.rises { Task::Rise } else { Task::Check };
        return do_task(rt, row, &builder, task, asked, out, err);
    };
    match Choices::parse(rt.alloc(), text) {
        Ok(choices) => {
            let task = Task::Replay(choices.as_slice());
            do_task(rt, row, &builder, task, asked, out, err)
        }
        Err(error) => refuse_choices(rt.alloc(), text, error, err),
    }
}

// Why what is asked for isn't done with a row of closures, if it isn't.
fn refusal(asked: &RowAsked) -> Option<&'static str> {
    if asked.share.is_some() {
        Some("error: only the program shares a check out")
    } else if asked.covers.is_some() && asked.jobs.is_some() {
        Some(ONE_COVERS)
    } else if asked.walk.is_some() && asked.jobs.is_some() {
        Some(ONE_WALKS)
    } else if asked.changes.snapshots.is_some() {
        Some(NO_SNAPSHOTS)
    } else {
        None
    }
}

/// Walks through runs of the row, by this builder, prints what comes of it, and answers the exit status.
fn walk_through<
    R: AllocGlobal + Clock + Files + Threads + Wait + Clone + Send + 'static,
    L: Log + Clone + Send + 'static,
    O: Write,
    E: Write,
>(
    rt: &R,
    log: &L,
    row: ClosureRow,
    builder: &Builder,
    walk: Walk,
    asked: RowAsked,
    out: &mut O,
    err: &mut E,
) -> io::Result<u8> {
    match row.walk(rt, rt.alloc(), builder, walk, log) {
        Ok(walked) => {
            let status = print_walked(&walked, out)?;
            if let Some(choices) = failing_in(&walked) {
                tell(rt, row, builder, choices, asked, out)?;
            }
            Ok(status)
        }
        Err(error) => refuse_run(err, builder, error),
    }
}

/// Covers the row, by this builder and with at most so many states, prints what comes of it, and answers the exit status.
fn cover_through<
    R: AllocGlobal + Clock + Files + Threads + Wait + Clone + Send + 'static,
    O: Write,
    E: Write,
>(
    rt: &R,
    row: ClosureRow,
    builder: &Builder,
    most_states: usize,
    asked: RowAsked,
    out: &mut O,
    err: &mut E,
) -> io::Result<u8> {
    match row.cover(rt, rt.alloc(), builder, most_states) {
        Ok(covered) => {
            let found = Found::Covered(covered);
            print_found(rt, row, builder, &found, asked, out)
        }
        Err(error) => refuse_run(err, builder, error),
    }
}

/// Does this with the row, by this builder, prints what comes of it, and answers the exit status.
fn do_task<
    R: AllocGlobal + Clock + Files + Threads + Wait + Clone + Send + 'static,
    O: Write,
    E: Write,
>(
    rt: &R,
    row: ClosureRow,
    builder: &Builder,
    task: Task,
    asked: RowAsked,
    out: &mut O,
    err: &mut E,
) -> io::Result<u8> {
    match find(rt, row, builder, task) {
        Ok(found) => print_found(rt, row, builder, &found, asked, out),
        Err(error) => refuse_run(err, builder, error),
    }
}

/// What comes of this.
fn find<R: AllocGlobal + Clock + Files + Threads + Wait + Clone + Send + 'static>(
    rt: &R,
    row: ClosureRow,
    builder: &Builder,
    task: Task,
) -> Result<Found, RunnerError> {
    let alloc = rt.alloc();
    Ok(match task {
        Task::Check => Found::Report(row.check_by(rt, alloc, builder)?),
        Task::Rise => Found::Risen(row.check_rising(rt, alloc, builder)?),
        Task::Replay(choices) => Found::Replay(row.replay(rt, alloc, builder, choices)?),
    })
}

/// Prints what came of it as is asked for, and answers the exit status.
fn print_found<R: AllocGlobal + Files + Threads + Wait + Clone + Send + 'static, O: Write>(
    rt: &R,
    row: ClosureRow,
    builder: &Builder,
    found: &Found,
    asked: RowAsked,
    out: &mut O,
) -> io::Result<u8> {
    if asked.json {
        return found.print_object(rt.alloc(), row.name(), out);
    }
    let status = found.print(out)?;
    if let Some(choices) = found.failing() {
        tell(rt, row, builder, choices, asked, out)?;
    }
    Ok(status)
}

/// Shortens the failing run with these choices, and explains and draws it, as is asked for.
fn tell<R: AllocGlobal + Files + Threads + Wait + Clone + Send + 'static, O: Write>(
    rt: &R,
    row: ClosureRow,
    builder: &Builder,
    choices: &[Choice],
    asked: RowAsked,
    out: &mut O,
) -> io::Result<()> {
    if !asked.shortens {
        return explain(rt, row, builder, choices, asked, out);
    }
    match row.shorten(rt, rt.alloc(), builder, choices, SHORTENING_RUNS) {
        Ok(Some(shortened)) => {
            print_shortened(out, &shortened)?;
            explain(rt, row, builder, &shortened.choices, asked, out)
        }
        Ok(None) => Ok(()),
        Err(error) => writeln!(out, "{error}"),
    }
}

/// Explains the report, where a run failed and that is asked for.
pub(crate) fn explain_report<R: Host, O: Write>(
    rt: &R,
    row: ClosureRow,
    builder: &Builder,
    report: &Report,
    asked: RowAsked,
    out: &mut O,
) -> io::Result<()> {
    match failing_choices(report) {
        Some(choices) => explain(rt, row, builder, choices, asked, out),
        None => Ok(()),
    }
}

fn explain<R: AllocGlobal + Files + Threads + Wait + Clone + Send + 'static, O: Write>(
    rt: &R,
    row: ClosureRow,
    builder: &Builder,
    choices: &[Choice],
    asked: RowAsked,
    out: &mut O,
) -> io::Result<()> {
    if asked.explains {
        tell_failure(rt, row, builder, choices, asked.drawing, out)
    } else {
        Ok(())
    }
}

/// Explains the failing run with these choices, and draws it where that is asked for.
fn tell_failure<R: AllocGlobal + Files + Threads + Wait + Clone + Send + 'static, O: Write>(
    rt: &R,
    row: ClosureRow,
    builder: &Builder,
    choices: &[Choice],
    drawing: Drawing,
    out: &mut O,
) -> io::Result<()> {
    match row.explain(rt, rt.alloc(), builder, choices) {
        Ok(explanation) => {
            write!(out, "{explanation}")?;
            drawing.draw(rt, rt.alloc(), &explanation)
        }
        Err(error) => writeln!(out, "{error}"),
    }
}
