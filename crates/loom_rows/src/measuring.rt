//! Measures checks: prints what each finds, and on standard error how long it took. `loom_examples::measured` lists what is measured, by
//! name, with its settings. It checks these bodies by `loom::model`, and those of `closures` by `loom::runner`. docs/BENCHMARKS.md has
//! what it found.
ghost use Rattle.std.specs.Prelude.{◌≡◌, ◌⊎◌, ◌-◌, ◌*◌, ◌/◌, ◌^◌, IfOk, IfSome, map, min, max};
ghost use Rattle.std.specs.Duration.{as_nanos};
ghost use Rattle.loom_examples.specs.Rows.Builder.{builder_of};
ghost use Rattle.loom_examples.specs.Rows.Printed.{ReportsScript};
ghost use Rattle.loom_examples.specs.Scripts.Written.{written};
ghost use Rattle.loom_rows.specs.Measures.{PrintedBody, PrintedLine, PrintedNamed};

mod closures;
mod cover;

use crate::measuring::closures::{Closures, closures_of};
use crate::measuring::cover::{covered_name, measure_cover};
use loom::model::Report;
use loom_examples::measured::{Measured, all_bodies, body_of};
use loom_examples::rows::line::{self, ShownReport};
use loom_examples::rows::settings::Builds;
use loom_examples::scripts::script::Script;
use std::io::{self, Write};
use std::rt::{Clock, Files};
use std::sync::Wait;
use std::thread::Threads;
use std::time::{Duration, Instant};

/// What is checked where no word names a body: what takes seconds.
static QUICK: [&str; 31] = [
    "store_buffering",
    "store_buffering bound 1",
    "store_buffering bound 2",
    "store_buffering reduced",
    "store_buffering reduced bound 1",
    "store_buffering reduced bound 2",
    "locks_in_turn",
    "locks_in_turn bound 1",
    "locks_in_turn bound 2",
    "locks_in_turn reduced",
    "locks_in_turn reduced bound 1",
    "locks_in_turn reduced bound 2",
    "writers_beside_a_reader",
    "writers_beside_a_reader bound 1",
    "writers_beside_a_reader bound 2",
    "writers_beside_a_reader reduced",
    "writers_beside_a_reader reduced bound 1",
    "writers_beside_a_reader reduced bound 2",
    "three_adds",
    "three_adds bound 1",
    "three_adds bound 2",
    "three_adds reduced",
    "three_adds reduced bound 1",
    "three_adds reduced bound 2",
    "three_threads reduced",
    "three_threads cover",
    "three_threads cover snapshots",
    "stores_apart",
    "store_buffering closures",
    "store_buffering closures kept",
    "store_buffering closures recorded",
];

/// Measures what has these names or, where there are none, what takes seconds. Answers the highest of the exit statuses.
pub(crate) fn measure_all<
    R: AllocGlobal + Clock + Files + Threads + Wait + Clone + Send + 'static,
    O: Write,
    E: Write,
>(rt: &R, names: &[&str], out: &mut O, err: &mut E) -> u8 {
    let names: &[&str] = if names.is_empty() { &QUICK } else { names };
    let mut status = 0;
    for name in names {
        let measured = match closures_of(*name) {
            Some(closures) => measure_closures(rt, closures, out, err),
            None => measure_body(rt, *name, out, err),
        };
        status = status.max(measured.unwrap_or(2));
    }
    status
}

/// Checks the closures as often as they say, and prints what `measure` does, how often main was called in the last check, and how many
/// threads a call starts. Answers the exit status: 2 where there is no report, and 1 where a run fails.
fn measure_closures<
    R: AllocGlobal + Clock + Files + Threads + Wait + Clone + Send + 'static,
    O: Write,
    E: Write,
>(rt: &R, closures: &Closures, out: &mut O, err: &mut E) -> io::Result<u8> {
    let name = closures.name;
    let mut calls = 0u64;
    let start = Instant::now(rt)?;
    let report = check_closures(rt, closures, &mut calls);
    let taken = start.elapsed(rt)?;
    let Some(report) = report else {
        writeln!(err, "{name}: no report")?;
        return Ok(2);
    };
    let status = print_line(out, name, &report)?;
    print_speed(err, name, closures.checks, &report, taken)?;
    let threads = closures.threads;
    writeln!(
        err,
        "{name}: {calls} calls of main in a check, each starts {threads} threads"
    )?;
    Ok(status)
}

/// The report of the last check, once all checks were made, and how often that one called main.
fn check_closures<R: AllocGlobal + Clock + Files + Threads + Wait + Clone + Send + 'static>(
    rt: &R,
    closures: &Closures,
    calls: &mut u64,
) -> Option<Report> {
    let mut builder = closures.settings.builder();
    builder.recorded = closures.records;
    let row = closures.row;
    let mut found = None;
    for _ in 0..closures.checks {
        *calls = 0;
        found = Some(
            row.check_counted(rt, rt.alloc(), &builder, closures.keeps, calls)
                .ok()?,
        );
    }
    found
}

/// Covers the body of this name, if `cover` or `cover snapshots` stands behind it, or checks it, and answers the exit status.
fn measure_body<R: AllocGlobal + Clock + Files, O: Write, E: Write>(
    rt: &R,
    name: &str,
    out: &mut O,
    err: &mut E,
) -> io::Result<u8> {
    match covered_name(name) {
        Some((body, snapshots)) => {
            let bodies = all_bodies(rt.alloc())?;
            measure_cover(rt, bodies.as_slice(), body, snapshots, out, err)
        }
        None => measure_named(rt, name, out, err),
    }
}

/// Checks the body that the name means by the program's table, prints what `measure` does, and answers its exit status. It is 2
/// too where memory for the table is refused.
fn measure_named<R: AllocGlobal + Clock + Files, O: Write, E: Write>(
    rt: &R,
    name: &str,
    out: &mut O,
    err: &mut E,
) -> io::Result<u8>
    ensures { IfOk result (λ status. (status ≡ 2) ⊎ PrintedNamed name.now (O.contents out.old) (O.contents out.new) status) }
{
    match all_bodies(rt.alloc()) {
        Ok(bodies) => measure(rt, bodies.as_slice(), name, out, err),
        Err(_) => Ok(2),
    }
}

/// Checks the body of this name as often as it says, and prints what the last check finds, and on standard error how long all
/// of them took. Answers the exit status: 2 where the name means no body and where memory is refused, and 1 where a run fails.
fn measure<R: AllocGlobal + Clock + Files, O: Write, E: Write>(
    rt: &R,
    bodies: &[Measured],
    name: &str,
    out: &mut O,
    err: &mut E,
) -> io::Result<u8>
    ensures { IfOk result (λ status. (status ≡ 2) ⊎ PrintedBody bodies.now name.now (O.contents out.old) (O.contents out.new) status) }
{
    let Some(body) = body_of(bodies, name) else {
        writeln!(err, "{name}: nothing of this name is measured")?;
        return Ok(2);
    };
    let start = Instant::now(rt)?;
    let report = check_often(rt, body);
    let taken = start.elapsed(rt)?;
    let Some(report) = report else {
        writeln!(err, "{name}: no report")?;
        return Ok(2);
    };
    let status = print_line(out, name, &report)?;
    print_speed(err, body.name, body.checks, &report, taken)?;
    Ok(status)
}

/// The report of the last check, once all checks were made; None where memory is refused, or none is to be made.
fn check_often<R: AllocGlobal + Files>(rt: &R, body: &Measured) -> Option<Report>
    ensures { IfSome result (ReportsScript (map written body.now.steps.now) (builder_of body.now.settings)) }
{
    let alloc = rt.alloc();
    let script = Script::new(alloc, body.steps).ok()?;
    let builder = body.settings.builder();
    let mut found = None;
    for _ in 0..body.checks {
        found = Some(builder.check(rt, alloc, &script).ok()?);
    }
    found
}

/// Prints the name and the report, and answers the report's exit status.
fn print_line<W: Write>(out: &mut W, name: &str, report: &Report) -> io::Result<u8>
    ensures { IfOk result (λ status. PrintedLine name.now report.now (W.contents out.old) (W.contents out.new) status) }
{
    let shown = ShownReport(report);
    writeln!(out, "{name} {shown}")?;
    Ok(line::status_of(report))
}

/// Prints how many checks were made, how long they took, and how many runs a second that is.
fn print_speed<W: Write>(
    err: &mut W,
    name: &str,
    checks: u64,
    report: &Report,
    taken: Duration,
) -> io::Result<()> {
    let runs = match report {
        Report::Complete { runs } | Report::Stopped { runs, .. } | Report::Failed { runs, .. } =>
            *runs,
    };
    let speed = per_second(u128::from(runs) * u128::from(checks), taken);
    let millis = taken.as_millis();
    writeln!(
        err,
        "{name}: {checks} checks, {millis} ms, {speed} runs per second"
    )
}

/// How many runs a second holds, if these took so long; of less than a millisecond, as if it were one.
fn per_second(runs: u128, taken: Duration) -> u128
    ensures { let millis = as_nanos taken / 1_000_000 in result ≡ min (runs * 1000) (2 ^ 128 - 1) / max millis 1 }
{
    runs.saturating_mul(1000) / taken.as_millis().max(1)
}
