//! Checks of rows that remember states, and what the program prints of them.
ghost use Rattle.std.specs.Prelude.{◌≡◌, ◌⊎◌, Some, IfOk, OnOk, false, option_copied};
ghost use Rattle.loom_examples.specs.Rows.Line.{PrintedCovered, covered_status, covered_text};
ghost use Rattle.loom_examples.specs.Rows.Tasks.{CoversBody, PrintedCover, PrintedCoverOf, PrintedCovering};

use crate::bodies::updates::Updater;
use crate::rows::changes::Changes;
use crate::rows::line::SpacedChoices;
use crate::rows::options::RowAsked;
use crate::rows::settings::Builds;
use crate::rows::walks::tell;
use crate::rows::{Checked, Row, refuse_check};
use crate::scripts::script::Script;
use loom::checkpoint::file::file_store;
use loom::model::builder::Builder;
use loom::model::cover::Covered;
use loom::model::error::CheckError;
use loom::runner::NoVisitor;
use loom::{Body, HostClock};
use loom_views::same::Same;
use std::fmt;
use std::io::{self, Write};
use std::rt::{Clock, Files};

/// What a check found that remembers states: how it ended, how many runs ended, how many were given up where a state was met, and
/// how many states were noted. Where a run failed, the line of a report, and where some never end, the choices that lead there.
#[derive(Clone, Copy)]
pub struct ShownCovered<'a>(pub &'a Covered);

impl fmt::Display for ShownCovered<'_> {
    ghost output = { λ shown. Some (covered_text shown.0.now) };

    fn fmt<W: fmt::Write>(&self, f: &mut fmt::Formatter<W>) -> fmt::Result {
        match self.0 {
            Covered::Complete { runs, met, states } => {
                write!(f, "complete {runs} met {met} states {states}")
            }
            Covered::Livelock { choices, .. } => {
                let choices = SpacedChoices(choices.as_slice());
                write!(f, "livelock{choices}")
            }
            Covered::Stopped {
                runs,
                met,
                states,
                ..
            } => write!(f, "stopped {runs} met {met} states {states}"),
            Covered::Failed {
                runs,
                failure,
                choices,
                ..
            } => {
                let kind = failure.kind.number();
                let choices = SpacedChoices(choices.as_slice());
                write!(f, "failed {kind} {runs}{choices}")
            }
        }
    }
}

/// The exit status: whether a run failed, or some never end.
pub fn status_of(covered: &Covered) -> u8
    ensures { result ≡ covered_status covered.now }
{
    match covered {
        Covered::Complete { .. } | Covered::Stopped { .. } => 0,
        Covered::Failed { .. } | Covered::Livelock { .. } => 1,
    }
}

/// Covers the row by the host's clock, with at most so many states, with these settings in place of its own and with this checkpoint
/// file, if there is one. Prints the line, and where a run failed and failures are told, what is asked for of that. Answers the exit
/// status.
pub(crate) fn cover_row<R: AllocGlobal + Clock + Files, O: Write, E: Write>(
    rt: &R,
    row: &Row,
    changes: Changes,
    most_states: usize,
    file: Option<&str>,
    tells: bool,
    asked: RowAsked,
    out: &mut O,
    err: &mut E,
) -> io::Result<u8>
    ensures { IfOk result (λ status. (status ≡ 2) ⊎ PrintedCoverOf changes tells row.now.checked row.now.settings (option_copied file.entry) (O.contents out.old) (O.contents out.new) status) }
{
    let builder = changes.change(row.settings.builder_with(rt.alloc(), file)?);
    cover_checked(
        rt,
        &builder,
        row.checked,
        most_states,
        tells,
        asked,
        out,
        err,
    )
}

/// Covers what is checked, by this builder.
fn cover_checked<R: AllocGlobal + Clock + Files, O: Write, E: Write>(
    rt: &R,
    builder: &Builder,
    checked: Checked,
    most_states: usize,
    tells: bool,
    asked: RowAsked,
    out: &mut O,
    err: &mut E,
) -> io::Result<u8>
    ensures { IfOk result (λ status. (status ≡ 2) ⊎ PrintedCover tells checked builder.now (O.contents out.old) (O.contents out.new) status) }
{
    match checked {
        Checked::Script(steps) => {
            let script = Script::new(rt.alloc(), steps)?;
            cover_body(rt, builder, &script, most_states, tells, asked, out, err)
        }
        Checked::Updater(one, other) => {
            let updater = Updater::main(one, other);
            cover_body(rt, builder, &updater, most_states, tells, asked, out, err)
        }
    }
}

fn cover_body<R: AllocGlobal + Clock + Files, B: Body<Data = u64> + Same, O: Write, E: Write>(
    rt: &R,
    builder: &Builder,
    body: &B,
    most_states: usize,
    tells: bool,
    asked: RowAsked,
    out: &mut O,
    err: &mut E,
) -> io::Result<u8>
    ensures { IfOk result (λ status. (status ≡ 2) ⊎ PrintedCovering tells builder.now B.next body.now (O.contents out.old) (O.contents out.new) status) }
{
    match covered_by(rt, builder, body, most_states) {
        Ok(covered) => {
            let status = print_covered(out, &covered)?;
            tell_covered(rt, builder, body, &covered, tells, asked, out)?;
            Ok(status)
        }
        Err(error) => refuse_check(err, builder, error),
    }
}

/// Covers the body by this builder, with the checkpoint file that it names, and by the host's clock, with at most so many states.
pub(crate) fn covered_by<R: AllocGlobal + Clock + Files, B: Body<Data = u64> + Same>(
    rt: &R,
    builder: &Builder,
    body: &B,
    most_states: usize,
) -> Result<Covered, CheckError>
    ensures { IfOk result (CoversBody builder.now B.next body.now) }
{
    let mut clock = HostClock::start(rt);
    let mut store = file_store(rt, rt.alloc(), &builder.checkpoint_file);
    let log = None::<HostRuntime>;
    builder.cover_with(
        rt.alloc(),
        body,
        &mut NoVisitor,
        &mut clock,
        &mut store,
        most_states,
        &log,
    )
}

/// Prints the line, and answers the exit status.
pub(crate) fn print_covered<W: Write>(out: &mut W, covered: &Covered) -> io::Result<u8>
    ensures { IfOk result (λ status. PrintedCovered covered.now (W.contents out.old) (W.contents out.new) status) }
{
    let shown = ShownCovered(covered);
    writeln!(out, "{shown}")?;
    Ok(status_of(covered))
}

/// Where a run failed and failures are told, it is shortened, explained and drawn as is asked for.
pub(crate) fn tell_covered<R: AllocGlobal + Files, B: Body<Data = u64>, O: Write>(
    rt: &R,
    builder: &Builder,
    body: &B,
    covered: &Covered,
    tells: bool,
    asked: RowAsked,
    out: &mut O,
) -> io::Result<()>
    ensures { OnOk result (tells ≡ false → O.contents out.new ≡ O.contents out.old) }
{
    if tells && let Covered::Failed { choices, .. } = covered {
        tell(rt, builder, body, choices.as_slice(), asked, out)?;
    }
    Ok(())
}
