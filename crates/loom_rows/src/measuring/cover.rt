//! How long checks take that remember states, and how much memory.
ghost use Rattle.std.specs.Prelude.{◌≡◌, ◌⊎◌, IfOk, IfSome, map};
ghost use Rattle.loom.specs.Model.Covered.{CoveringAlone};
ghost use Rattle.loom_examples.specs.Rows.Builder.{builder_of};
ghost use Rattle.loom_examples.specs.Scripts.Running.{started};
ghost use Rattle.loom_examples.specs.Scripts.Script.{next_of};
ghost use Rattle.loom_examples.specs.Scripts.Written.{written};
ghost use Rattle.loom_rows.specs.Measures.{PrintedCover, cover_words};

use crate::measuring::per_second;
use loom::model::builder::Builder;
use loom::model::cover::Covered;
use loom_examples::measured::{Measured, body_of};
use loom_examples::rows::cover::{ShownCovered, status_of};
use loom_examples::rows::settings::Builds;
use loom_examples::scripts::script::Script;
use std::fs;
use std::io::{self, Write};
use std::rt::{Clock, Files};
use std::time::{Duration, Instant};

/// The name of the body that is meant, where it is to be covered, and whether with snapshots: that stands before ` cover` or
/// ` cover snapshots`.
pub(crate) fn covered_name(name: &str) -> Option<(&str, bool)> {
    match name.split_once(" cover") {
        Some((body, "")) => Some((body, false)),
        Some((body, " snapshots")) => Some((body, true)),
        _ => None,
    }
}

/// What stands behind the name, where the body is covered with snapshots or without.
fn cover_words(snapshots: bool) -> &'static str
    ensures { result.now ≡ cover_words snapshots }
{
    if snapshots {
        " cover snapshots"
    } else {
        " cover"
    }
}

/// Covers the body of this name, with snapshots or without, as often as it says, and prints what the last check finds, and on standard error how long all of them
/// took, and how much memory the process has had at most, where the host tells. Answers the exit status: 2 where the name means no
/// body and where memory is refused, and 1 where a run fails or none ends.
pub(crate) fn measure_cover<R: AllocGlobal + Clock + Files, O: Write, E: Write>(
    rt: &R,
    bodies: &[Measured],
    name: &str,
    snapshots: bool,
    out: &mut O,
    err: &mut E,
) -> io::Result<u8>
    ensures { IfOk result (λ status. (status ≡ 2) ⊎ PrintedCover bodies.now name.now snapshots (O.contents out.old) (O.contents out.new) status) }
{
    let Some(body) = body_of(bodies, name) else {
        writeln!(err, "{name}: nothing of this name is measured")?;
        return Ok(2);
    };
    let start = Instant::now(rt)?;
    let covered = cover_often(rt, body, snapshots);
    let taken = start.elapsed(rt)?;
    let words = cover_words(snapshots);
    let Some(covered) = covered else {
        writeln!(err, "{name}{words}: no report")?;
        return Ok(2);
    };
    let shown = ShownCovered(&covered);
    writeln!(out, "{name}{words} {shown}")?;
    print_cost(rt, err, body, words, &covered, taken)?;
    Ok(status_of(&covered))
}

/// What the last check found, once all checks were made; None where memory is refused, or none is to be made.
fn cover_often<R: AllocGlobal>(rt: &R, body: &Measured, snapshots: bool) -> Option<Covered>
    ensures { IfSome result (CoveringAlone (record (builder_of body.now.settings) { snapshots = snapshots }) next_of (started (map written body.now.steps.now))) }
{
    let alloc = rt.alloc();
    let script = Script::new(alloc, body.steps).ok()?;
    let builder = Builder {
        snapshots,
        ..body.settings.builder()
    };
    let mut found = None;
    for _ in 0..body.checks {
        found = Some(builder.cover(alloc, &script).ok()?);
    }
    found
}

/// Prints how many checks were made, how long they took, how many runs a second that is of those that ended and those that were given
/// up, and the memory.
fn print_cost<R: AllocGlobal + Files, W: Write>(
    rt: &R,
    err: &mut W,
    body: &Measured,
    words: &str,
    covered: &Covered,
    taken: Duration,
) -> io::Result<()> {
    let (Covered::Complete { runs, met, .. }
    | Covered::Livelock { runs, met, .. }
    | Covered::Stopped { runs, met, .. }
    | Covered::Failed { runs, met, .. }) = covered;
    let Measured { name, checks, .. } = *body;
    let begun = u128::from(*runs) + u128::from(*met);
    let speed = per_second(begun.saturating_mul(u128::from(checks)), taken);
    let millis = taken.as_millis();
    write!(
        err,
        "{name}{words}: {checks} checks, {millis} ms, {speed} runs per second"
    )?;
    match most_memory(rt) {
        Some(kilobytes) => writeln!(err, ", {kilobytes} KB at most"),
        None => writeln!(err),
    }
}

/// How many kilobytes of memory the process has had at most, as Linux tells.
fn most_memory<R: AllocGlobal + Files>(rt: &R) -> Option<u64> {
    let status = fs::read_to_string(rt, "/proc/self/status").ok()?;
    let (_, behind) = status.as_str().split_once("VmHWM:")?;
    let (number, _) = behind.split_once(" kB")?;
    number.trim().parse().ok()
}
