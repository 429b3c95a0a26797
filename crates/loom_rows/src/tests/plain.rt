//! What a check finds is what the plain program finds.
use super::checking::{found_by, is_run};
use super::rows::program_rows;
use super::{bodies, late, others, searches, shared};
use crate::tests::asserting::holds;
use loom::Body;
use loom_examples::bodies::guide::Counter;
use loom_examples::bodies::updates::Updater;
use loom_examples::rows::settings::Settings;
use loom_examples::rows::{Checked, DEFAULTS, Row, row_of};
use loom_examples::scripts::script::Script;
use loom_plain::halt::Halt;
use loom_plain::run::{Ending, Settings as PlainSettings};
use loom_plain::search::{Found, least_set, runs_in_order};
use std::alloc::Global;
use std::process::Abort;

// Whether a search is reduced, and its bound on preemptions.
type Search = (bool, Option<usize>);

// Each search: reduced and not, without a bound on preemptions and with the bounds 0, 1 and 2.
const EACH: &[Search] = &[
    (true, None),
    (false, None),
    (true, Some(0)),
    (false, Some(0)),
    (true, Some(1)),
    (false, Some(1)),
    (true, Some(2)),
    (false, Some(2)),
];

// Of the rows with more than 300 runs, the searches that have at most 300.
const REDUCED_OR_BOUNDED: &[Search] = &[
    (true, None),
    (true, Some(0)),
    (false, Some(0)),
    (true, Some(1)),
    (false, Some(1)),
    (true, Some(2)),
    (false, Some(2)),
];

const BOUNDED: &[Search] = &[
    (true, Some(0)),
    (false, Some(0)),
    (true, Some(1)),
    (false, Some(1)),
    (true, Some(2)),
    (false, Some(2)),
];

const UP_TO_TWO: &[Search] = &[
    (true, Some(0)),
    (false, Some(0)),
    (true, Some(1)),
    (false, Some(1)),
    (true, Some(2)),
];

const WITHOUT_PREEMPTION: &[Search] = &[(true, Some(0)), (false, Some(0))];

static LARGE_BODIES: [(&str, &[Search]); 5] = [
    ("rwlock_writer_and_readers", REDUCED_OR_BOUNDED),
    ("notify_all", REDUCED_OR_BOUNDED),
    ("orders_equal", UP_TO_TWO),
    ("three_adds", BOUNDED),
    ("acq_rel", WITHOUT_PREEMPTION),
];

// The rows with more than 300 runs, and those with more than 60,000 accesses or fences.
static LARGE: [&str; 15] = [
    "rwlock_writer_and_readers",
    "notify_all",
    "orders_equal",
    "three_adds",
    "acq_rel",
    "spinners",
    "spinners_forever",
    "fences_then_relaxed",
    "many_locks",
    "too_many_locks",
    "fences",
    "too_many_fences",
    "many_stores",
    "three_planted",
    "five_counting",
];

// How many runs a body may have here, and one more.
const MOST: usize = 301;

// The runs that the plain program makes.
fn plain_runs<B: Body<Data = u64>>(
    alloc: Global,
    settings: Settings,
    body: &B,
) -> Result<Vec<Found>, Halt> {
    let plain = PlainSettings {
        max_threads: settings.max_threads,
        max_branches: settings.max_branches,
        max_steps: settings.max_steps,
        reduce: settings.reduce,
        bound: settings.preemption_bound,
        expect_explicit_explore: settings.expect_explicit_explore,
    };
    if settings.reduce {
        least_set(alloc, plain, body, MOST)
    } else {
        runs_in_order(alloc, plain, body, MOST)
    }
}

fn is_same(one: &Found, other: &Found) -> bool {
    is_run(one, other.choices.as_slice(), other.ending)
}

// Whether these are the same runs in the same order.
fn are_in_order(plain: &[Found], found: &[Found]) -> bool {
    for (one, other) in plain.iter().zip(found) {
        if !is_same(one, other) {
            return false;
        }
    }
    plain.len() == found.len()
}

fn times(runs: &[Found], run: &Found) -> usize {
    let mut times = 0usize;
    for other in runs {
        if is_same(run, other) {
            times = times.saturating_add(1);
        }
    }
    times
}

// These runs are of the set that the plain program has found, each once: all of it, or one that fails as the last one.
fn are_of_set(plain: &[Found], found: &[Found]) -> bool {
    for run in found {
        if times(plain, run) != 1 || times(found, run) != 1 {
            return false;
        }
    }
    plain.len() == found.len() || is_failing(found.last())
}

fn is_failing(run: Option<&Found>) -> bool {
    match run {
        Some(run) => matches!(run.ending, Ending::Failed(_)),
        None => false,
    }
}

fn are_same(reduce: bool, plain: &[Found], found: &[Found]) -> bool {
    if reduce {
        are_of_set(plain, found)
    } else {
        are_in_order(plain, found)
    }
}

// Whether a check that isn't reduced finds what the plain program does, in the same order. One that is makes runs of the least
// set.
fn is_as_plain<B: Body<Data = u64>>(alloc: Global, settings: Settings, body: &B) -> bool {
    let keeper = found_by(alloc, settings, body);
    match &plain_runs(alloc, settings, body) {
        Ok(plain) => {
            let found = keeper.found.as_slice();
            keeper.is_counted && are_same(settings.reduce, plain.as_slice(), found)
        }
        Err(_) => false,
    }
}

// Whether each of these searches, none of which is limited, finds what the plain program does.
fn are_as_plain<B: Body<Data = u64>>(
    alloc: Global,
    settings: Settings,
    body: &B,
    searches: &[Search],
) -> bool {
    for (reduce, bound) in searches {
        let settings = Settings {
            max_permutations: None,
            reduce: *reduce,
            preemption_bound: *bound,
            ..settings
        };
        if !is_as_plain(alloc, settings, body) {
            return false;
        }
    }
    true
}

fn is_row_as_plain(alloc: Global, row: &Row, searches: &[Search]) -> bool {
    match row.checked {
        Checked::Script(steps) => match &Script::new(alloc, steps) {
            Ok(script) => are_as_plain(alloc, row.settings, script, searches),
            Err(_) => false,
        },
        Checked::Updater(one, other) => {
            let updater = Updater::main(one, other);
            are_as_plain(alloc, row.settings, &updater, searches)
        }
    }
}

fn compare_rows(rt: &(impl Abort + AllocGlobal), rows: &[Row]) {
    for row in rows {
        if !LARGE.contains(&row.name) {
            holds(rt, is_row_as_plain(rt.alloc(), row, EACH), row.name);
        }
    }
}

fn compare_large(rt: &(impl Abort + AllocGlobal), rows: &[Row]) {
    for (name, searches) in &LARGE_BODIES {
        let is_so = match row_of(rows, *name) {
            Some(row) => is_row_as_plain(rt.alloc(), row, *searches),
            None => false,
        };
        holds(rt, is_so, *name);
    }
}

// Whether the checks of a counter find what the plain program does.
fn is_counter_as_plain(alloc: Global, fewer_than: u64) -> bool {
    are_as_plain(alloc, DEFAULTS, &Counter::main(fewer_than), EACH)
}

#[test]
fn rows_are_what_the_plain_program_finds(rt: HostRuntime) {
    compare_rows(&rt, program_rows(&rt).as_slice());
    holds(&rt, is_counter_as_plain(rt.alloc(), 2), "counter");
    holds(&rt, is_counter_as_plain(rt.alloc(), 1), "first counter");
}

#[test]
fn large_rows_are_what_the_plain_program_finds(rt: HostRuntime) {
    compare_large(&rt, program_rows(&rt).as_slice());
}

#[test]
fn bodies_of_tests_are_what_the_plain_program_finds(rt: HostRuntime) {
    compare_rows(&rt, others::rows());
    compare_rows(&rt, bodies::atomic_rows());
    compare_rows(&rt, bodies::store_rows());
    compare_rows(&rt, bodies::lock_rows());
    compare_rows(&rt, bodies::other_rows());
    compare_rows(&rt, searches::rows());
    compare_rows(&rt, shared::channel_rows());
    compare_rows(&rt, shared::waker_rows());
    compare_rows(&rt, shared::value_rows());
}

#[test]
fn late_misuse_is_what_the_plain_program_finds(rt: HostRuntime) {
    for table in &late::tables() {
        compare_late(&rt, *table);
    }
}

fn compare_late(rt: &(impl Abort + AllocGlobal), table: &'static [(Row, &'static str)]) {
    for (row, _) in table {
        holds(rt, is_row_as_plain(rt.alloc(), row, EACH), row.name);
    }
}
