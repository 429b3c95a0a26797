//! What the program does with a row by several workers: it checks it, or covers it, and keeps the list of parts in the checkpoint file; or it
//! walks through it.
pub(crate) mod covering;
pub mod walking;

use crate::measured::row_or_body;
use crate::rows::jobs::covering::cover;
use crate::rows::options::RowAsked;
use crate::rows::parted::Parted;
use crate::rows::settings::Builds;
use crate::rows::words::refuse_name;
use crate::rows::{all_rows, print_report};
use loom::checkpoint::file::file_store;
use loom::model::builder::Builder;
use loom::model::error::CheckError;
use loom::model::{Limit, Report};
use loom::runner::{Found, Host, RunnerError, Workers};
use loom::{CheckpointStore, Clock, HostClock};
use loom_engine::rt::parts::Parts;
use std::alloc::Global;
use std::io::{self, Write};
use std::rt::Clock as HostTime;
use std::thread::{self, Threads};
use std::time::Duration;

// The list of parts is saved so often at most.
const SAVE_MILLIS: u64 = 1000;

/// Checks the row by so many workers, or covers it, prints the line of the report, with the explanation of a failure below it if that is
/// asked for, and answers the exit status. Zero workers are as many as the host has processors.
pub fn check_row<R: Host + HostTime + Sync, O: Write, E: Write>(
    rt: &R,
    asked: RowAsked,
    jobs: usize,
    out: &mut O,
    err: &mut E,
) -> io::Result<u8> {
    let Some(row) = row_or_body(rt.alloc(), asked.name)? else {
        let rows = all_rows(rt.alloc())?;
        return refuse_name(rt.alloc(), rows.as_slice(), asked.name, err);
    };
    let builder = asked
        .changes
        .change(row.settings.builder_with(rt.alloc(), asked.file)?);
    let parted = Parted::of(rt.alloc(), row.checked)?;
    match asked.covers {
        Some(most_states) => cover(rt, &builder, &parted, jobs, most_states, asked, out, err),
        None => check(rt, &builder, &parted, jobs, asked, out, err),
    }
}

/// Checks this by so many workers, by this builder, prints what `check_row` does, and answers the exit status.
pub(crate) fn check<R: Host + HostTime + Sync, O: Write, E: Write>(
    rt: &R,
    builder: &Builder,
    parted: &Parted,
    jobs: usize,
    asked: RowAsked,
    out: &mut O,
    err: &mut E,
) -> io::Result<u8> {
    match find(rt, builder, parted, workers(rt, jobs)) {
        Ok(report) => {
            let status = print_report(out, &report)?;
            parted.explain_report(rt, builder, &report, asked, out)?;
            Ok(status)
        }
        Err(error) => parted.refuse(err, builder, error),
    }
}

// So many workers, or as many as there are processors.
pub(crate) fn workers<R: Threads>(rt: &R, jobs: usize) -> usize {
    if jobs > 0 {
        return jobs;
    }
    match thread::available_parallelism(rt) {
        Ok(count) => count.get(),
        Err(_) => 1,
    }
}

// The report of what has ended behind these runs. If nothing has, how many runs there are now, and which limit was reached.
fn ended(found: Found, before: u64) -> Result<Report, (u64, Limit)> {
    match found {
        Found::Complete { runs } => Ok(Report::Complete {
            runs: before.saturating_add(runs),
        }),
        Found::Failed {
            runs,
            failure,
            choices,
        } => Ok(Report::Failed {
            runs: before.saturating_add(runs),
            failure,
            choices,
        }),
        Found::Stopped { runs, limit } => Err((before.saturating_add(runs), limit)),
    }
}

// What the check finds. It begins with the checkpoint file, if there is one, and saves the list of parts there from time to time: once
// as many runs as the interval were made since it was saved.
fn find<R: Host + HostTime + Sync>(
    rt: &R,
    builder: &Builder,
    parted: &Parted,
    count: usize,
) -> Result<Report, RunnerError> {
    let mut store = file_store(rt, rt.alloc(), &builder.checkpoint_file);
    let mut parts = begin(rt.alloc(), builder, &mut store)?;
    let mut clock = HostClock::start(rt);
    let mut runs = 0u64;
    let mut saved = 0u64;
    for _ in rt.forever() {
        let stage = stage(builder, runs, clock.elapsed());
        let workers = Workers::new(count);
        let found = parted.find(rt, &stage, workers, &mut parts, &mut clock)?;
        let (now, limit) = match ended(found, runs) {
            Ok(report) => return Ok(report),
            Err(stopped) => stopped,
        };
        runs = now;
        let is_over = limit == Limit::Permutations || is_late(builder, clock.elapsed());
        if !is_over && runs.saturating_sub(saved) < builder.checkpoint_interval as u64 {
            continue;
        }
        let checkpoint = parts.to_text(rt.alloc())?;
        store.save(checkpoint.as_str())?;
        saved = runs;
        if is_over {
            return Ok(Report::Stopped {
                runs,
                limit,
                checkpoint,
            });
        }
    }
    unreachable!()
}

// The list of parts that the store holds, or that of a check from its beginning.
fn begin<S: CheckpointStore>(
    alloc: Global,
    builder: &Builder,
    store: &mut S,
) -> Result<Parts, CheckError> {
    match store.load(alloc)? {
        Some(text) => builder.parts_from(alloc, text.as_slice()),
        None => builder.parts(alloc),
    }
}

// The check up to the next time that its list may be saved, after so many runs and so much time.
pub(crate) fn stage(builder: &Builder, runs: u64, time: Duration) -> Builder {
    let left = most_runs(builder).saturating_sub(runs);
    let next = builder
        .checkpoint_file
        .as_ref()
        .and_then(|_| time.checked_add(Duration::from_millis(SAVE_MILLIS)));
    let until = match (builder.max_duration, next) {
        (Some(longest), Some(next)) => Some(longest.min(next)),
        (longest, next) => longest.or(next),
    };
    Builder {
        max_permutations: Some(left as usize),
        max_duration: until,
        checkpoint_file: None,
        ..*builder
    }
}

// Whether the check goes on no longer after so much time.
pub(crate) fn is_late(builder: &Builder, time: Duration) -> bool {
    match builder.max_duration {
        Some(longest) => time >= longest,
        None => false,
    }
}

// How many runs the check makes at most.
fn most_runs(builder: &Builder) -> u64 {
    match builder.max_permutations {
        Some(most) => most as u64,
        None => u64::MAX,
    }
}
