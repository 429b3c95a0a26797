//! What the program does with a row that several workers cover.
use crate::rows::cover::{print_covered, tell_covered};
use crate::rows::jobs::{is_late, stage, workers};
use crate::rows::options::RowAsked;
use crate::rows::parted::Parted;
use crate::rows::refuse_check;
use crate::rows::shares::ONE_COVERS;
use crate::rows::words::refuse;
use loom::checkpoint::file::file_store;
use loom::model::Limit;
use loom::model::builder::Builder;
use loom::model::cover::Covered;
use loom::model::cover::part_texts::parts_to_text;
use loom::model::error::CheckError;
use loom::model::parts::Slice;
use loom::runner::{Apart, Host, NoVisitor, Workers, cover_parallel};
use loom::{Body, CheckpointStore, Clock, HostClock};
use loom_engine::rt::parts::Parts;
use loom_engine::rt::states::States;
use loom_views::same::Same;
use std::alloc::Global;
use std::io::{self, Write};
use std::rt::Clock as HostTime;
use std::time::Duration;

// Each part is worked on for so long at a time at most: what a worker has noted the others read from the next turn on.
const SLICE_MILLIS: u64 = 20;

/// Covers this by so many workers, with at most so many states, prints the line, and where a run failed what is asked for of that. Answers
/// the exit status. A row of closures is refused.
pub(crate) fn cover<R: Host + HostTime + Sync, O: Write, E: Write>(
    rt: &R,
    builder: &Builder,
    parted: &Parted,
    jobs: usize,
    most_states: usize,
    asked: RowAsked,
    out: &mut O,
    err: &mut E,
) -> io::Result<u8> {
    let count = workers(rt, jobs);
    match parted {
        Parted::Script(script) => {
            cover_body(rt, builder, script, count, most_states, asked, out, err)
        }
        Parted::Updater(updater) => {
            cover_body(rt, builder, updater, count, most_states, asked, out, err)
        }
        Parted::Closures(_) => refuse(err, ONE_COVERS),
    }
}

// So of a body.
fn cover_body<
    R: Host + HostTime + Sync,
    B: Body<Data = u64> + Same + Apart + Send + Sync,
    O: Write,
    E: Write,
>(
    rt: &R,
    builder: &Builder,
    body: &B,
    count: usize,
    most_states: usize,
    asked: RowAsked,
    out: &mut O,
    err: &mut E,
) -> io::Result<u8> {
    match find(rt, builder, body, count, most_states) {
        Ok(covered) => {
            let status = print_covered(out, &covered)?;
            tell_covered(rt, builder, body, &covered, asked.explains, asked, out)?;
            Ok(status)
        }
        Err(error) => refuse_check(err, builder, error),
    }
}

// How far a covering check has come: its parts, what it has noted, and how many runs ended and were given up.
#[derive(Drop)]
struct Covering<D, B> {
    parts: Parts,
    states: States<D, B>,
    runs: u64,
    met: u64,
}

// What the check finds. It begins with the checkpoint file, if there is one, and saves the list of parts there from time to time: once
// as many runs as the interval were begun since it was saved.
fn find<R: Host + HostTime + Sync, B: Body<Data = u64> + Same + Apart + Send + Sync>(
    rt: &R,
    builder: &Builder,
    body: &B,
    count: usize,
    most_states: usize,
) -> Result<Covered, CheckError> {
    let mut store = file_store(rt, rt.alloc(), &builder.checkpoint_file);
    let mut covering = Covering {
        parts: begin(rt.alloc(), builder, &mut store)?,
        states: States::new(rt.alloc(), most_states, body.never_switches())?,
        runs: 0,
        met: 0,
    };
    let mut clock = HostClock::start(rt);
    let mut saved = 0u64;
    for _ in rt.forever() {
        let stage = stage(builder, covering.begun(), clock.elapsed());
        let found = find_in(rt, &stage, body, count, &mut covering, &mut clock)?;
        let limit = match covering.add(found) {
            Ok(covered) => return Ok(covered),
            Err(limit) => limit,
        };
        let is_over = limit == Limit::Permutations || is_late(builder, clock.elapsed());
        let unsaved = covering.begun().saturating_sub(saved);
        if !is_over && unsaved < builder.checkpoint_interval as u64 {
            continue;
        }
        let checkpoint = parts_to_text(rt.alloc(), &covering.parts, covering.met)?;
        store.save(checkpoint.as_str())?;
        saved = covering.begun();
        if is_over {
            return Ok(covering.stopped(limit));
        }
    }
    unreachable!()
}

// The list of parts that the store holds, or that of a check from its beginning.
fn begin<S: CheckpointStore>(
    alloc: Global,
    builder: &Builder,
    store: &mut S,
) -> Result<Parts, CheckError> {
    match store.load(alloc)? {
        Some(text) => {
            let (parts, _) = builder.cover_parts_from(alloc, text.as_slice())?;
            Ok(parts)
        }
        None => builder.cover_parts(alloc),
    }
}

// What a stage of the check finds.
fn find_in<R: Host + HostTime + Sync, B: Body<Data = u64> + Same + Apart + Send + Sync, C: Clock>(
    rt: &R,
    stage: &Builder,
    body: &B,
    count: usize,
    covering: &mut Covering<u64, B>,
    clock: &mut C,
) -> Result<Covered, CheckError> {
    let slice = Slice {
        runs: u64::MAX,
        until: Some(Duration::from_millis(SLICE_MILLIS)),
    };
    cover_parallel(
        rt,
        rt.alloc(),
        stage,
        body,
        Workers { count, slice },
        &mut covering.states,
        &mut covering.parts,
        &mut NoVisitor,
        clock,
        &None::<HostRuntime>,
    )
}

impl<B: Body<Data = u64> + Same> Covering<u64, B> {
    // How many runs were begun.
    fn begun(&self) -> u64 {
        self.runs.saturating_add(self.met)
    }

    // It was stopped by this limit.
    fn stopped(&self, limit: Limit) -> Covered {
        Covered::Stopped {
            runs: self.runs,
            met: self.met,
            states: self.states.len(),
            limit,
        }
    }

    // Adds what a stage found. Answers what the check has found with that, or which limit stopped the stage.
    fn add(&mut self, found: Covered) -> Result<Covered, Limit> {
        self.count(&found);
        let (runs, met) = (self.runs, self.met);
        match found {
            Covered::Complete { states, .. } => Ok(Covered::Complete { runs, met, states }),
            Covered::Livelock {
                states,
                choices,
                ..
            } => Ok(Covered::Livelock {
                runs,
                met,
                states,
                choices,
            }),
            Covered::Failed {
                states,
                failure,
                choices,
                ..
            } => Ok(Covered::Failed {
                runs,
                met,
                states,
                failure,
                choices,
            }),
            Covered::Stopped { limit, .. } => Err(limit),
        }
    }

    // The runs that a stage made are counted, those that ended and those that were given up.
    fn count(&mut self, found: &Covered) {
        let (runs, met) = match found {
            Covered::Complete { runs, met, .. }
            | Covered::Livelock { runs, met, .. }
            | Covered::Failed { runs, met, .. }
            | Covered::Stopped { runs, met, .. } => (*runs, *met),
        };
        self.runs = self.runs.saturating_add(runs);
        self.met = self.met.saturating_add(met);
    }
}
