//! A failure that is explained, and drawn into files.
use crate::bodies::updates::Updater;
use crate::rows::changes::Changes;
use crate::rows::found::Found;
use crate::rows::settings::Builds;
use crate::rows::tasks::{Task, UP_TO};
use crate::rows::{Checked, Row, refuse_check, timed};
use crate::scripts::script::Script;
use loom::explain::Explanation;
use loom::model::builder::Builder;
use loom::model::error::CheckError;
use loom::{Body, Choice};
use std::alloc::Global;
use std::fs::File;
use std::io::{self, Write};
use std::rt::{Clock, Files};

/// The files that a failure is drawn into.
#[derive(Clone, Copy)]
pub struct Drawing<'a> {
    /// As SVG.
    pub svg: Option<&'a str>,
    /// As a diagram of Mermaid.
    pub mermaid: Option<&'a str>,
}

impl Drawing<'_> {
    /// Whether there is a file to draw into.
    pub(crate) fn is_asked(self) -> bool {
        self.svg.is_some() || self.mermaid.is_some()
    }

    /// Draws into the files. An error where a file or memory fails.
    pub(crate) fn draw<R: Files>(
        self,
        rt: &R,
        alloc: Global,
        explanation: &Explanation,
    ) -> io::Result<()> {
        if let Some(path) = self.svg {
            write_file(rt, path, explanation.to_svg(alloc)?.as_str())?;
        }
        if let Some(path) = self.mermaid {
            write_file(rt, path, explanation.to_mermaid(alloc)?.as_str())?;
        }
        Ok(())
    }
}

fn write_file<R: Files>(rt: &R, path: &str, text: &str) -> io::Result<()> {
    File::create(rt, path)?.write_all(text.as_bytes())
}

/// Does this with the row, with these settings in place of its own, and prints the line. Where a run failed it is explained behind
/// the line, and drawn. Answers the exit status.
pub(crate) fn draw_row<R: AllocGlobal + Clock + Files, O: Write, E: Write>(
    rt: &R,
    row: &Row,
    changes: Changes,
    task: Task,
    drawing: Drawing,
    file: Option<&str>,
    out: &mut O,
    err: &mut E,
) -> io::Result<u8> {
    let builder = changes.change(row.settings.builder_with(rt.alloc(), file)?);
    match row.checked {
        Checked::Script(steps) => {
            let script = Script::new(rt.alloc(), steps)?;
            draw_body(rt, &builder, &script, task, drawing, out, err)
        }
        Checked::Updater(one, other) => {
            let updater = Updater::main(one, other);
            draw_body(rt, &builder, &updater, task, drawing, out, err)
        }
    }
}

fn draw_body<R: AllocGlobal + Clock + Files, B: Body<Data = u64>, O: Write, E: Write>(
    rt: &R,
    builder: &Builder,
    body: &B,
    task: Task,
    drawing: Drawing,
    out: &mut O,
    err: &mut E,
) -> io::Result<u8> {
    match find(rt, builder, body, task) {
        Ok(found) => {
            let status = found.print(out)?;
            if let Some(choices) = found.failing() {
                tell_failure(rt, builder, body, choices, drawing, out)?;
            }
            Ok(status)
        }
        Err(error) => refuse_check(err, builder, error),
    }
}

/// What comes of this.
pub(crate) fn find<R: AllocGlobal + Clock + Files, B: Body<Data = u64>>(
    rt: &R,
    builder: &Builder,
    body: &B,
    task: Task,
) -> Result<Found, CheckError> {
    let alloc = rt.alloc();
    Ok(match task {
        Task::Check => Found::Report(timed::check(rt, builder, body)?),
        Task::Rise => Found::Risen(builder.check_rising(alloc, body, UP_TO)?),
        Task::Replay(choices) => Found::Replay(builder.replay(alloc, body, choices)?),
    })
}

/// Explains the failing run with these choices, and draws it.
pub(crate) fn tell_failure<R: AllocGlobal + Files, B: Body<Data = u64>, O: Write>(
    rt: &R,
    builder: &Builder,
    body: &B,
    choices: &[Choice],
    drawing: Drawing,
    out: &mut O,
) -> io::Result<()> {
    match builder.explain(rt.alloc(), body, choices) {
        Ok(explanation) => {
            write!(out, "{explanation}")?;
            drawing.draw(rt, rt.alloc(), &explanation)
        }
        Err(error) => writeln!(out, "{error}"),
    }
}
