//! A check by several workers makes the runs that one check makes, each once.
use super::checking::{Keeper, found_by};
use super::finding::replays;
use super::parts::{COMPARED, MOST, ONE_RUN, are_of, is_failing};
use super::rows::compared_rows;
use crate::tests::asserting::{same, script};
use loom::model::builder::Builder;
use loom::model::error::CheckError;
use loom::runner::{Apart, Found as Came, Visitors, Workers, check_parallel};
use loom::{Body, NoClock};
use loom_examples::bodies::updates::Updater;
use loom_examples::rows::settings::{Builds, Settings};
use loom_examples::rows::{Checked, Row};
use loom_plain::run::Ending;
use loom_plain::search::Found;
use loom_tests::page::Page;
use std::alloc::{AllocError, Global};
use std::process::Abort;
use std::rt::Clock;
use std::sync::Wait;
use std::thread::Threads;

/// Keeps what the visitors of parts were given.
#[derive(Drop)]
pub(super) struct Keepers {
    alloc: Global,
    pub(super) found: Vec<Found>,
}

impl Keepers {
    /// None was given any run yet.
    pub(super) fn new(alloc: Global) -> Keepers {
        Keepers {
            alloc,
            found: Vec::new(alloc),
        }
    }
}

impl Visitors<Keeper> for Keepers {
    ghost is_new = { λ keeper. Unit {0} };

    ghost joins = { λ old keeper new. Unit {0} };

    fn make(&self) -> Result<Keeper, AllocError> {
        Ok(Keeper::new(self.alloc))
    }

    fn join(&mut self, keeper: Keeper) -> Result<(), AllocError> {
        for run in keeper.found {
            self.found.push(run)?;
        }
        Ok(())
    }
}

// What so many workers find, each of which makes one run at a time.
fn find<R: Threads + Wait + Clock + Sync, B: Body<Data = u64> + Apart + Sync>(
    rt: &R,
    alloc: Global,
    builder: &Builder,
    body: &B,
    count: usize,
    keepers: &mut Keepers,
) -> Result<Came, CheckError> {
    let workers = Workers {
        count,
        slice: ONE_RUN,
    };
    let mut parts = builder.parts(alloc)?;
    let log = None::<HostRuntime>;
    check_parallel(
        rt,
        alloc,
        builder,
        body,
        workers,
        &mut parts,
        keepers,
        &mut NoClock,
        &log,
    )
}

// Whether so many workers make these runs, or fail as they do, with choices that fail so again.
fn make<R: Threads + Wait + Clock + Sync, B: Body<Data = u64> + Apart + Sync>(
    rt: &R,
    alloc: Global,
    builder: &Builder,
    body: &B,
    count: usize,
    runs: &[Found],
) -> bool {
    let mut keepers = Keepers::new(alloc);
    match find(rt, alloc, builder, body, count, &mut keepers) {
        Ok(Came::Complete { .. }) => {
            are_of(keepers.found.as_slice(), runs) && keepers.found.len() == runs.len()
        }
        Ok(
            Came::Failed {
                runs: _,
                failure,
                choices,
            },
        ) => {
            let ending = Ending::Failed(failure.kind);
            let run = Found { choices, ending };
            is_failing(runs.last()) && replays(alloc, builder, body, &run)
        }
        Ok(Came::Stopped { .. }) | Err(_) => false,
    }
}

// Whether one, two and seven workers do as a check. None where it makes too many runs.
fn are_as_check<R: Threads + Wait + Clock + Sync, B: Body<Data = u64> + Apart + Sync>(
    rt: &R,
    alloc: Global,
    settings: Settings,
    body: &B,
) -> Option<bool> {
    let limited = Settings {
        max_permutations: Some(MOST),
        ..settings
    };
    let whole = found_by(alloc, limited, body);
    if !whole.is_counted {
        return None;
    }
    let unlimited = Settings {
        max_permutations: None,
        ..settings
    };
    let builder = unlimited.builder();
    let runs = whole.found.as_slice();
    Some(
        make(rt, alloc, &builder, body, 1, runs)
            && make(rt, alloc, &builder, body, 2, runs)
            && make(rt, alloc, &builder, body, 7, runs),
    )
}

fn is_row_as_check<R: Abort + AllocGlobal + Threads + Wait + Clock + Sync>(
    rt: &R,
    row: &Row,
) -> Option<bool> {
    match row.checked {
        Checked::Script(steps) => are_as_check(rt, rt.alloc(), row.settings, &script(rt, steps)),
        Checked::Updater(one, other) => {
            are_as_check(rt, rt.alloc(), row.settings, &Updater::main(one, other))
        }
    }
}

#[test]
fn workers_make_the_runs_of_a_check(rt: HostRuntime) {
    let rows = compared_rows(&rt);
    let mut page = Page::new(rt.alloc());
    let mut compared = 0u64;
    for row in &rows {
        match is_row_as_check(&rt, row) {
            Some(true) => compared = compared.saturating_add(1),
            Some(false) => page.put("another set: ", &row.name),
            None => page.put("not compared: ", &row.name),
        }
    }
    page.add_number("the same set: ", compared);
    same(&rt, page.text.as_str(), COMPARED, "all bodies");
}
