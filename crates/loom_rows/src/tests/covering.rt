//! Checks that remember states find main's results in all runs of the bodies, and their failures replay.
use super::checking::{Keeper, found_by};
use super::finding::{put_values, replays};
use super::rows::program_rows;
use crate::tests::asserting::{holds, same, script};
use loom::model::Report;
use loom::model::builder::Builder;
use loom::model::cover::Covered;
use loom::model::error::CheckError;
use loom::{Body, Choice, FailureKind, MemoryStore, NoClock};
use loom_examples::bodies::guide::Counter;
use loom_examples::bodies::spin::Spin;
use loom_examples::bodies::updates::Updater;
use loom_examples::measured::{Measured, all_bodies, body_of};
use loom_examples::rows::cover::ShownCovered;
use loom_examples::rows::settings::{Builds, Settings};
use loom_examples::rows::{Checked, Row, WHOLE, row_of};
use loom_examples::scripts::step::{END, EXIT, Step, Value};
use loom_objects::operation::{AtomicOp, MutexOp, Request, ThreadOp};
use loom_plain::run::Ending;
use loom_plain::search::Found;
use loom_tests::page::Page;
use loom_views::rt::num::Numbers;
use loom_views::same::Same;
use std::alloc::Global;
use std::process::Abort;
use std::sync::atomic::Ordering;

// How many runs a whole search may have where it is compared in parts.
pub(super) const MOST: usize = 1000;

// More runs than a whole search has that is compared.
const MOST_OF_A_ROW: usize = 25_000;

// Rows whose whole search has more. Runs of the one may be as long as one likes.
const TOO_LARGE: [&str; 2] = ["acq_rel", "five_counting"];

// Rows whose runs are so long that few of their states are remembered here, or none.
const LONG: [&str; 2] = ["many_locks", "too_many_locks"];

// How many states are remembered. Some of these searches meet more, and then find the same.
const MOST_REMEMBERED: usize = 64;

// More states than a search of another row meets.
const ALL_REMEMBERED: usize = 3_000;

// Whether both have the same values, in any order and number.
pub(super) fn are_values_same(alloc: Global, one: &[Found], other: &[Found]) -> bool {
    let mut first = Page::new(alloc);
    let mut second = Page::new(alloc);
    put_values(alloc, &mut first, one);
    put_values(alloc, &mut second, other);
    first.text.as_str() == second.text.as_str()
}

// Whether a run is made by these choices that fails so.
pub(super) fn is_replayed<B: Body<Data = u64>>(
    alloc: Global,
    settings: Settings,
    body: &B,
    kind: FailureKind,
    choices: &[Choice],
) -> bool {
    match choices.to_vec(alloc) {
        Ok(choices) => {
            let run = Found {
                choices,
                ending: Ending::Failed(kind),
            };
            replays(alloc, &settings.builder(), body, &run)
        }
        Err(_) => false,
    }
}

pub(super) fn is_failing(found: &[Found]) -> bool {
    match found.last() {
        Some(run) => matches!(run.ending, Ending::Failed(_)),
        None => false,
    }
}

// Whether the last run was longer than a run may be. A search that remembers states may say more of it.
pub(super) fn is_cut(found: &[Found]) -> bool {
    let Some(run) = found.last() else {
        return false;
    };
    match run.ending {
        Ending::Failed(kind) => matches!(
            kind,
            FailureKind::TooManyBranches
                | FailureKind::TooManySteps
                | FailureKind::TooManyVersions
                | FailureKind::TooManyStores
        ),
        Ending::Ended(_) => false,
    }
}

// Whether a check that remembers so many states says what the whole search does, which made these runs.
fn is_as_whole<B: Body<Data = u64> + Same>(
    alloc: Global,
    settings: Settings,
    body: &B,
    found: &[Found],
    most_states: usize,
) -> bool {
    let mut ended = Keeper::new(alloc);
    let builder = settings.builder();
    let mut store = None::<MemoryStore>;
    let log = None::<HostRuntime>;
    let covered = builder.cover_with(
        alloc,
        body,
        &mut ended,
        &mut NoClock,
        &mut store,
        most_states,
        &log,
    );
    match covered {
        Ok(Covered::Complete { .. }) => {
            is_cut(found)
                || !is_failing(found) && are_values_same(alloc, found, ended.found.as_slice())
        }
        Ok(Covered::Livelock { .. }) => is_cut(found),
        Ok(
            Covered::Failed {
                failure,
                choices,
                ..
            },
        ) => {
            is_failing(found)
                && is_replayed(alloc, settings, body, failure.kind, choices.as_slice())
        }
        Ok(Covered::Stopped { .. }) | Err(_) => false,
    }
}

// The runs of the whole search, if they aren't too many.
fn whole_of<B: Body<Data = u64>>(alloc: Global, settings: Settings, body: &B) -> Keeper {
    let whole = Settings {
        reduce: false,
        preemption_bound: None,
        max_permutations: Some(MOST_OF_A_ROW),
        ..settings
    };
    found_by(alloc, whole, body)
}

// Whether they are too many.
fn is_too_large<B: Body<Data = u64>>(alloc: Global, settings: Settings, body: &B) -> bool {
    let keeper = whole_of(alloc, settings, body);
    !keeper.is_counted
}

// Whether a check that remembers few states says what the whole search does, and one that remembers so many.
fn is_covered<B: Body<Data = u64> + Same>(
    alloc: Global,
    settings: Settings,
    body: &B,
    most_states: usize,
) -> bool {
    let unlimited = Settings {
        reduce: false,
        preemption_bound: None,
        max_permutations: None,
        ..settings
    };
    let keeper = whole_of(alloc, settings, body);
    let found = keeper.found.as_slice();
    keeper.is_counted
        && is_as_whole(alloc, unlimited, body, found, MOST_REMEMBERED)
        && is_as_whole(alloc, unlimited, body, found, most_states)
}

// Whether the row's body is covered so, or has too many runs where that is known.
fn is_row_covered<B: Body<Data = u64> + Same>(alloc: Global, row: &Row, body: &B) -> bool {
    if TOO_LARGE.contains(&row.name) {
        is_too_large(alloc, row.settings, body)
    } else if LONG.contains(&row.name) {
        is_covered(alloc, row.settings, body, 0)
    } else {
        is_covered(alloc, row.settings, body, ALL_REMEMBERED)
    }
}

fn cover_row(rt: &(impl Abort + AllocGlobal), row: &Row) {
    let is_so = match row.checked {
        Checked::Script(steps) => is_row_covered(rt.alloc(), row, &script(rt, steps)),
        Checked::Updater(one, other) => {
            is_row_covered(rt.alloc(), row, &Updater::main(one, other))
        }
    };
    holds(rt, is_so, row.name);
}

#[test]
fn covered_rows_are_as_their_whole_searches_say(rt: HostRuntime) {
    let rows = program_rows(&rt);
    for row in rows.as_slice() {
        cover_row(&rt, row);
    }
}

// After how many runs a check is stopped whose text another one goes on with.
const RUNS_IN_A_PART: usize = 3;

// Whether checks that are stopped after so many runs, each of which goes on with the text of the one before, come together to what the
// whole search does.
fn is_covered_in_parts<B: Body<Data = u64> + Same>(alloc: Global, body: &B) -> bool {
    let keeper = found_by(alloc, WHOLE, body);
    let mut builder = WHOLE.builder();
    builder.max_permutations = Some(RUNS_IN_A_PART);
    let mut ended = Keeper::new(alloc);
    let mut store = MemoryStore::new(alloc);
    let log = None::<HostRuntime>;
    for _ in 0..MOST {
        let covered = builder.cover_with(
            alloc,
            body,
            &mut ended,
            &mut NoClock,
            &mut store,
            MOST_REMEMBERED,
            &log,
        );
        match covered {
            Ok(Covered::Stopped { .. }) => {}
            Ok(Covered::Complete { .. }) => {
                return are_values_same(alloc, keeper.found.as_slice(), ended.found.as_slice());
            }
            Ok(Covered::Failed { .. } | Covered::Livelock { .. }) | Err(_) => return false,
        }
    }
    false
}

#[test]
fn stopped_covers_go_on(rt: HostRuntime) {
    let alloc = rt.alloc();
    let bodies = all_bodies(alloc).expect(&rt, "no memory for the bodies");
    for name in &["store_buffering", "writers_beside_a_reader"] {
        if let Some(measured) = body_of(bodies.as_slice(), *name) {
            let body = script(&rt, measured.steps);
            holds(&rt, is_covered_in_parts(alloc, &body), *name);
        }
    }
    holds(
        &rt,
        is_covered_in_parts(alloc, &Counter::main(2)),
        "counter",
    );
}

// What a check says with this store, where it is stopped after one run.
fn first_of_check(alloc: Global, store: &mut MemoryStore) -> Result<Report, CheckError> {
    let mut builder = WHOLE.builder();
    builder.max_permutations = Some(1);
    let mut keeper = Keeper::new(alloc);
    let log = None::<HostRuntime>;
    builder.check_with(
        alloc,
        &Counter::main(2),
        &mut keeper,
        &mut NoClock,
        store,
        &log,
    )
}

// And one that remembers states.
fn first_of_cover(alloc: Global, store: &mut MemoryStore) -> Result<Covered, CheckError> {
    let mut builder = WHOLE.builder();
    builder.max_permutations = Some(1);
    let mut keeper = Keeper::new(alloc);
    let log = None::<HostRuntime>;
    builder.cover_with(
        alloc,
        &Counter::main(2),
        &mut keeper,
        &mut NoClock,
        store,
        MOST_REMEMBERED,
        &log,
    )
}

// Whether the store holds a text with these bytes in it.
fn has_text(store: &MemoryStore, part: &str) -> bool {
    match &store.text {
        Some(text) => match str::from_utf8(text.as_slice()) {
            Ok(text) => text.contains(part),
            Err(_) => false,
        },
        None => false,
    }
}

#[test]
fn checks_and_covers_refuse_each_others_texts(rt: HostRuntime) {
    let alloc = rt.alloc();
    let mut store = MemoryStore::new(alloc);
    let covered = first_of_cover(alloc, &mut store);
    holds(
        &rt,
        matches!(covered, Ok(Covered::Stopped { .. })) && has_text(&store, "\"search\":\"cover\""),
        "the text of a check that remembers states",
    );
    let refused = first_of_check(alloc, &mut store);
    holds(
        &rt,
        matches!(refused, Err(CheckError::WrongShape)),
        "a check",
    );
    let mut store = MemoryStore::new(alloc);
    let checked = first_of_check(alloc, &mut store);
    let refused = first_of_cover(alloc, &mut store);
    holds(
        &rt,
        matches!(checked, Ok(Report::Stopped { .. }))
            && matches!(refused, Err(CheckError::WrongShape)),
        "a check that remembers states",
    );
}

#[test]
fn other_bodies_are_covered(rt: HostRuntime) {
    holds(
        &rt,
        is_covered(rt.alloc(), WHOLE, &Counter::main(2), ALL_REMEMBERED),
        "counter",
    );
    holds(
        &rt,
        is_covered(rt.alloc(), WHOLE, &Counter::main(1), ALL_REMEMBERED),
        "first counter",
    );
    holds(
        &rt,
        is_covered(
            rt.alloc(),
            WHOLE,
            &Spin::main(Ordering::Relaxed),
            ALL_REMEMBERED,
        ),
        "spin",
    );
}

// What the program prints of the script where it is covered.
fn line_of(rt: &(impl Abort + AllocGlobal), builder: &Builder, steps: &'static [Step]) -> Page {
    let mut page = Page::new(rt.alloc());
    if let Ok(covered) = builder.cover(rt.alloc(), &script(rt, steps)) {
        page.add_shown(&ShownCovered(&covered));
    }
    page
}

// Bodies that are measured, and what the program prints where they are covered.
static COUNTS: [(&str, &str); 5] = [
    ("three_threads", "complete 91 met 2625 states 2249"),
    ("three_adds", "complete 90 met 649 states 1333"),
    ("writers_beside_a_reader", "complete 6 met 51 states 88"),
    ("store_buffering", "complete 4 met 14 states 32"),
    ("locks_in_turn", "complete 2 met 18 states 38"),
];

// What the program prints of the body that is measured, where it is covered with snapshots or without.
fn line_of_body(rt: &(impl Abort + AllocGlobal), body: &Measured, snapshots: bool) -> Page {
    let builder = Builder {
        snapshots,
        ..body.settings.builder()
    };
    line_of(rt, &builder, body.steps)
}

fn so_many_are_met(rt: &(impl Abort + AllocGlobal), snapshots: bool) {
    let bodies = all_bodies(rt.alloc()).expect(rt, "no memory for the bodies");
    for (name, text) in &COUNTS {
        let line = match body_of(bodies.as_slice(), *name) {
            Some(body) => line_of_body(rt, body, snapshots),
            None => Page::new(rt.alloc()),
        };
        same(rt, line.text.as_str(), *text, *name);
    }
}

#[test]
fn so_many_states_are_met(rt: HostRuntime) {
    so_many_are_met(&rt, false);
    so_many_are_met(&rt, true);
}

// Rows whose other searches fail by the length of their runs.
static SPINNING: [(&str, &str); 3] = [
    ("acq_rel", "complete 36 met 2885 states 2062"),
    ("spinners", "complete 2 met 41 states 34"),
    ("spinners_forever", "livelock"),
];

fn line_of_row(rt: &(impl Abort + AllocGlobal), row: &Row) -> Page {
    match row.checked {
        Checked::Script(steps) => line_of(rt, &row.settings.builder(), steps),
        Checked::Updater(..) => Page::new(rt.alloc()),
    }
}

#[test]
fn who_spins_comes_back(rt: HostRuntime) {
    let rows = program_rows(&rt);
    for (name, text) in &SPINNING {
        let line = match row_of(rows.as_slice(), *name) {
            Some(row) => line_of_row(&rt, row),
            None => Page::new(rt.alloc()),
        };
        same(&rt, line.text.as_str(), *text, *name);
    }
}

const FINISH: Step = Step::Do(0, Request::Thread(ThreadOp::Finish(Value::Plain(7))));

// Main holds a mutex, which it lets go unless it reads what a thread stores. The thread then tries for the mutex until it has it.
const TRYING: &[Step] = &[
    Step::Do(0, Request::Mutex(MutexOp::New(Value::Plain(0)))),
    Step::Do(0, Request::Mutex(MutexOp::Lock(0))),
    Step::Do(1, Request::Atomic(AtomicOp::New(Numbers::U64, 0))),
    Step::SpawnAt(2, "child"),
    Step::Do(1, Request::Atomic(AtomicOp::Load(1, Ordering::Relaxed))),
    Step::IfTo(1, 1, "keeps"),
    Step::Do(0, Request::Mutex(MutexOp::Release(0, Value::Plain(0)))),
    Step::Label("keeps"),
    Step::Do(2, Request::Thread(ThreadOp::Join(2, 2))),
    FINISH,
    EXIT,
    END,
    Step::Label("child"),
    Step::Do(1, Request::Atomic(AtomicOp::Store(1, 1, Ordering::Relaxed))),
    Step::Label("again"),
    Step::Do(0, Request::Mutex(MutexOp::TryLock(0))),
    Step::IfTo(3, 1, "again"),
    Step::Do(0, Request::Mutex(MutexOp::Release(0, Value::Plain(0)))),
    FINISH,
    EXIT,
    END,
];

#[test]
fn who_tries_for_ever_is_in_a_livelock(rt: HostRuntime) {
    let line = line_of(&rt, &WHOLE.builder(), TRYING);
    same(&rt, line.text.as_str(), "livelock t0 t1 t1 t1", "trying");
}
