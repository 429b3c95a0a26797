//! Walks of a row, and shorter failures: what is looked for where no search ends.
use crate::bodies::updates::Updater;
use crate::rows::drawing::{find, tell_failure};
use crate::rows::found::Found;
use crate::rows::line::SpacedChoices;
use crate::rows::options::RowAsked;
use crate::rows::settings::Builds;
use crate::rows::tasks::Task;
use crate::rows::{Checked, Row, refuse_check};
use crate::scripts::script::Script;
use log::Log;
use loom::model::builder::Builder;
use loom::model::different::MOST_DIFFERENT;
use loom::model::error::CheckError;
use loom::model::{Shortened, Walk, Walked};
use loom::runner::NoVisitor;
use loom::{Body, Choice, HostClock};
use std::io::{self, Write};
use std::rt::{Clock, Files};

/// So many runs are made at most to shorten a failure.
pub const SHORTENING_RUNS: u64 = 10_000;

/// Why several workers don't walk through a row of closures.
pub(crate) const ONE_WALKS: &str = "error: one worker walks through a row of closures";

/// What came of a row.
#[derive(Drop)]
enum Looked {
    /// Of a walk.
    Walked(Walked),
    /// Of something else.
    Found(Found),
}

impl Looked {
    /// The choices of the run that failed, if one did.
    fn failing(&self) -> Option<&[Choice]> {
        match self {
            Looked::Walked(walked) => failing_in(walked),
            Looked::Found(found) => found.failing(),
        }
    }

    /// Prints its line, and answers the exit status.
    fn print<O: Write>(&self, out: &mut O) -> io::Result<u8> {
        match self {
            Looked::Walked(walked) => print_walked(walked, out),
            Looked::Found(found) => found.print(out),
        }
    }
}

/// The choices of the run that failed in a walk, if one did.
pub(crate) fn failing_in(walked: &Walked) -> Option<&[Choice]> {
    match walked {
        Walked::Failed { choices, .. } => Some(choices.as_slice()),
        Walked::Made { .. } => None,
    }
}

/// Prints the line of a walk, and answers the exit status.
pub(crate) fn print_walked<O: Write>(walked: &Walked, out: &mut O) -> io::Result<u8> {
    match walked {
        Walked::Made {
            runs,
            cut,
            different,
        } => {
            match different {
                Some(count) => writeln!(out, "walked {runs} {cut} different {count}")?,
                None => writeln!(out, "walked {runs} {cut}")?,
            }
            Ok(0)
        }
        Walked::Failed {
            runs,
            cut,
            failure,
            choices,
        } => {
            let kind = failure.kind.number();
            let choices = SpacedChoices(choices.as_slice());
            writeln!(out, "failed {kind} {runs} {cut}{choices}")?;
            Ok(1)
        }
    }
}

/// Walks through runs of the row, or does what else is asked for with it, and prints the line. Where a run failed it is shortened,
/// explained and drawn as is asked for. Answers the exit status.
pub(crate) fn look_at_row<R: AllocGlobal + Clock + Files, L: Log, O: Write, E: Write>(
    rt: &R,
    log: &L,
    row: &Row,
    task: Task,
    asked: RowAsked,
    out: &mut O,
    err: &mut E,
) -> io::Result<u8> {
    let settings = row.settings.builder_with(rt.alloc(), asked.file)?;
    let mut builder = asked.changes.change(settings);
    builder.max_different = Some(MOST_DIFFERENT);
    match row.checked {
        Checked::Script(steps) => {
            let script = Script::new(rt.alloc(), steps)?;
            look_at_body(rt, log, &builder, &script, task, asked, out, err)
        }
        Checked::Updater(one, other) => {
            let updater = Updater::main(one, other);
            look_at_body(rt, log, &builder, &updater, task, asked, out, err)
        }
    }
}

fn look_at_body<R: AllocGlobal + Clock + Files, L: Log, B: Body<Data = u64>, O: Write, E: Write>(
    rt: &R,
    log: &L,
    builder: &Builder,
    body: &B,
    task: Task,
    asked: RowAsked,
    out: &mut O,
    err: &mut E,
) -> io::Result<u8> {
    match look(rt, log, builder, body, task, asked.walk) {
        Ok(looked) => {
            let status = looked.print(out)?;
            if let Some(choices) = looked.failing() {
                tell(rt, builder, body, choices, asked, out)?;
            }
            Ok(status)
        }
        Err(error) => refuse_check(err, builder, error),
    }
}

/// What comes of the walk, or of the task where there is none.
fn look<R: AllocGlobal + Clock + Files, L: Log, B: Body<Data = u64>>(
    rt: &R,
    log: &L,
    builder: &Builder,
    body: &B,
    task: Task,
    walk: Option<Walk>,
) -> Result<Looked, CheckError> {
    match walk {
        Some(walk) => {
            let mut clock = HostClock::start(rt);
            let walked = builder.walk(rt.alloc(), body, walk, &mut NoVisitor, &mut clock, log)?;
            Ok(Looked::Walked(walked))
        }
        None => Ok(Looked::Found(find(rt, builder, body, task)?)),
    }
}

/// Shortens the failing run with these choices, and explains and draws it, as is asked for.
pub(crate) fn tell<R: AllocGlobal + Files, B: Body<Data = u64>, O: Write>(
    rt: &R,
    builder: &Builder,
    body: &B,
    choices: &[Choice],
    asked: RowAsked,
    out: &mut O,
) -> io::Result<()> {
    if !asked.shortens {
        return explain(rt, builder, body, choices, asked, out);
    }
    match builder.shorten(rt.alloc(), body, choices, SHORTENING_RUNS) {
        Ok(Some(shortened)) => {
            print_shortened(out, &shortened)?;
            explain(rt, builder, body, &shortened.choices, asked, out)
        }
        Ok(None) => Ok(()),
        Err(error) => writeln!(out, "{error}"),
    }
}

/// How it fails, in how many runs it was found, and its choices.
pub(crate) fn print_shortened<O: Write>(out: &mut O, shortened: &Shortened) -> io::Result<()> {
    let kind = shortened.failure.kind.number();
    let runs = shortened.runs;
    let choices = SpacedChoices(shortened.choices.as_slice());
    writeln!(out, "shorter {kind} {runs}{choices}")
}

fn explain<R: AllocGlobal + Files, B: Body<Data = u64>, O: Write>(
    rt: &R,
    builder: &Builder,
    body: &B,
    choices: &[Choice],
    asked: RowAsked,
    out: &mut O,
) -> io::Result<()> {
    if asked.explains {
        tell_failure(rt, builder, body, choices, asked.drawing, out)
    } else {
        Ok(())
    }
}
