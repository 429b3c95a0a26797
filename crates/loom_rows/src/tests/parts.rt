//! A search that is cut into parts makes the runs that one check makes, each once.
use super::checking::{Keeper, found_by, is_run};
use super::finding::replays;
use super::rows::compared_rows;
use crate::tests::asserting::{same, script};
use loom::model::builder::Builder;
use loom::model::error::CheckError;
use loom::model::parts::{Slice, Worked};
use loom::{Body, NoClock};
use loom_engine::rt::parts::{Part, Parts};
use loom_examples::bodies::updates::Updater;
use loom_examples::rows::settings::{Builds, Settings};
use loom_examples::rows::{Checked, Row};
use loom_plain::run::Ending;
use loom_plain::search::Found;
use loom_tests::page::Page;
use std::alloc::{AllocError, Global};
use std::process::Abort;

/// Each part is worked on for one run.
pub(super) const ONE_RUN: Slice = Slice {
    runs: 1,
    until: None,
};

/// A body is compared if its check makes so many runs at most. Each round makes one at least.
pub(super) const MOST: usize = 400;

/// What comes of the comparison.
pub(super) const COMPARED: &str =
    "not compared: orders_equal\nnot compared: three_adds\nnot compared: acq_rel\nnot compared: three_planted\nnot compared: five_counting\nthe same set: 210";

// How a search in parts ended.
#[derive(Drop)]
enum Came {
    /// Nothing was left.
    ToItsEnd,
    /// This run failed.
    ToAFailure(Found),
}

// The first parts, so many at most.
fn take(alloc: Global, parts: &Parts, workers: usize) -> Result<Vec<Part>, AllocError> {
    let mut taken = Vec::new(alloc);
    for number in 0..workers {
        if let Some(part) = parts.take(alloc, number)? {
            taken.push(part)?;
        }
    }
    Ok(taken)
}

// Makes a run of each of these parts, up to one that fails, which is the answer.
fn work_on<B: Body<Data = u64>>(
    alloc: Global,
    builder: &Builder,
    body: &B,
    taken: &mut Vec<Part>,
    keeper: &mut Keeper,
) -> Result<Option<Found>, CheckError> {
    for part in taken.iter_mut() {
        match builder.check_part(alloc, body, part, ONE_RUN, keeper, &mut NoClock)? {
            Worked::Made { .. } => {}
            Worked::Failed {
                runs: _,
                failure,
                choices,
            } => {
                let ending = Ending::Failed(failure.kind);
                return Ok(Some(Found { choices, ending }));
            }
        }
    }
    Ok(None)
}

fn give_back(alloc: Global, parts: &mut Parts, taken: Vec<Part>) -> Result<(), AllocError> {
    for part in taken {
        parts.give_back(alloc, part)?;
    }
    Ok(())
}

fn cut(alloc: Global, parts: &mut Parts, times: usize) -> Result<(), AllocError> {
    for _ in 0..times {
        parts.cut(alloc, 0)?;
    }
    Ok(())
}

/// Each of the first parts is worked on, so many at most, and given back; then each is cut. Answers the run that failed, if one did.
pub(super) fn make_round<B: Body<Data = u64>>(
    alloc: Global,
    builder: &Builder,
    body: &B,
    workers: usize,
    parts: &mut Parts,
    keeper: &mut Keeper,
) -> Result<Option<Found>, CheckError> {
    let mut taken = take(alloc, parts, workers)?;
    let failed = work_on(alloc, builder, body, &mut taken, keeper)?;
    if failed.is_none() {
        give_back(alloc, parts, taken)?;
        cut(alloc, parts, workers)?;
    }
    Ok(failed)
}

fn make_rounds<B: Body<Data = u64>>(
    alloc: Global,
    builder: &Builder,
    body: &B,
    workers: usize,
    parts: &mut Parts,
    keeper: &mut Keeper,
) -> Result<Option<Came>, CheckError> {
    for _ in 0..MOST {
        if parts.is_over() {
            return Ok(Some(Came::ToItsEnd));
        }
        if let Some(run) = make_round(alloc, builder, body, workers, parts, keeper)? {
            return Ok(Some(Came::ToAFailure(run)));
        }
    }
    Ok(None)
}

fn times(runs: &[Found], run: &Found) -> usize {
    let mut times = 0usize;
    for other in runs {
        if is_run(other, run.choices.as_slice(), run.ending) {
            times = times.saturating_add(1);
        }
    }
    times
}

// Whether these are runs of the others, each once.
pub(super) fn are_of(runs: &[Found], others: &[Found]) -> bool {
    for run in runs {
        if times(runs, run) != 1 || times(others, run) != 1 {
            return false;
        }
    }
    true
}

pub(super) fn is_failing(run: Option<&Found>) -> bool {
    match run {
        Some(run) => matches!(run.ending, Ending::Failed(_)),
        None => false,
    }
}

// Whether a search by so many workers makes these runs, or fails as they do, with choices that fail so again.
fn makes<B: Body<Data = u64>>(
    alloc: Global,
    builder: &Builder,
    body: &B,
    workers: usize,
    runs: &[Found],
) -> bool {
    let Ok(mut parts) = builder.parts(alloc) else {
        return false;
    };
    let mut keeper = Keeper::new(alloc);
    match &make_rounds(alloc, builder, body, workers, &mut parts, &mut keeper) {
        Ok(Some(Came::ToItsEnd)) => {
            are_of(keeper.found.as_slice(), runs) && keeper.found.len() == runs.len()
        }
        Ok(Some(Came::ToAFailure(run))) => {
            is_failing(runs.last()) && replays(alloc, builder, body, run)
        }
        Ok(None) | Err(_) => false,
    }
}

// Whether searches by one, two and seven workers are as a check. None where the check makes too many runs.
fn are_as_check<B: Body<Data = u64>>(alloc: Global, settings: Settings, body: &B) -> Option<bool> {
    let limited = Settings {
        max_permutations: Some(MOST),
        ..settings
    };
    let whole = found_by(alloc, limited, body);
    if !whole.is_counted {
        return None;
    }
    let unlimited = Settings {
        max_permutations: None,
        ..settings
    };
    let builder = unlimited.builder();
    let runs = whole.found.as_slice();
    Some(
        makes(alloc, &builder, body, 1, runs)
            && makes(alloc, &builder, body, 2, runs)
            && makes(alloc, &builder, body, 7, runs),
    )
}

fn is_row_as_check(rt: &(impl Abort + AllocGlobal), row: &Row) -> Option<bool> {
    match row.checked {
        Checked::Script(steps) => are_as_check(rt.alloc(), row.settings, &script(rt, steps)),
        Checked::Updater(one, other) => {
            are_as_check(rt.alloc(), row.settings, &Updater::main(one, other))
        }
    }
}

#[test]
fn parts_make_the_runs_of_a_check(rt: HostRuntime) {
    let rows = compared_rows(&rt);
    let mut page = Page::new(rt.alloc());
    let mut compared = 0u64;
    for row in &rows {
        match is_row_as_check(&rt, row) {
            Some(true) => compared = compared.saturating_add(1),
            Some(false) => page.put("another set: ", &row.name),
            None => page.put("not compared: ", &row.name),
        }
    }
    page.add_number("the same set: ", compared);
    same(&rt, page.text.as_str(), COMPARED, "all bodies");
}
