//! What a check finds, as a text.
use super::checking::{found_by, is_run};
use super::rows::rows_of;
use crate::tests::asserting::{same, script};
use loom::model::Replay;
use loom::model::builder::Builder;
use loom::model::error::CheckError;
use loom::{Body, Choice, FailureKind};
use loom_examples::bodies::updates::Updater;
use loom_examples::rows::line::SpacedChoices;
use loom_examples::rows::settings::{Builds, Settings};
use loom_examples::rows::{Checked, Row, row_of};
use loom_plain::run::Ending;
use loom_plain::search::Found;
use loom_tests::page::Page;
use std::alloc::Global;
use std::process::Abort;

/// What is shown of what a check finds.
#[derive(Clone, Copy)]
pub enum Shows {
    /// How it ended, and the choices and the value of each of the first runs, so many at most.
    First(usize),
    /// The values of all runs, each once.
    Values,
}

/// A body by its name, how it is checked, and what the check finds.
pub struct Case {
    /// The body's name.
    pub name: &'static str,
    /// How it is checked.
    pub settings: &'static Settings,
    /// What the text says of the check.
    pub shows: Shows,
    /// What it is to find.
    pub text: &'static str,
}

/// A check of each of these bodies finds what its text says. Its runs replay, unless their values alone are shown.
pub fn find(rt: &(impl Abort + AllocGlobal), cases: &'static [Case]) {
    find_in(rt, rows_of(rt).as_slice(), cases);
}

fn find_in(rt: &(impl Abort + AllocGlobal), rows: &[Row], cases: &'static [Case]) {
    for case in cases {
        find_case(rt, rows, case);
    }
}

fn find_case(rt: &(impl Abort + AllocGlobal), rows: &[Row], case: &'static Case) {
    let mut page = Page::new(rt.alloc());
    put_case(rt, rows, case, &mut page);
    same(rt, page.text.as_str(), case.text, case.name);
}

fn put_case(rt: &(impl Abort + AllocGlobal), rows: &[Row], case: &Case, page: &mut Page) {
    if let Some(row) = row_of(rows, case.name) {
        match row.checked {
            Checked::Script(steps) => {
                let body = script(rt, steps);
                put_found(rt.alloc(), *case.settings, &body, case.shows, page);
            }
            Checked::Updater(one, other) => {
                let body = Updater::main(one, other);
                put_found(rt.alloc(), *case.settings, &body, case.shows, page);
            }
        }
    }
}

/// Puts on the page what a check of the body finds, and whether a run isn't made again by its choices.
pub fn put_found<B: Body<Data = u64>>(
    alloc: Global,
    settings: Settings,
    body: &B,
    shows: Shows,
    page: &mut Page,
) {
    let keeper = found_by(alloc, settings, body);
    // What no test wants.
    if !keeper.is_counted {
        page.add("another number of runs: ");
    }
    put_runs(alloc, keeper.found.as_slice(), shows, page);
    put_replays(alloc, settings, body, keeper.found.as_slice(), shows, page);
}

fn put_runs(alloc: Global, found: &[Found], shows: Shows, page: &mut Page) {
    match shows {
        Shows::First(most) => {
            put_end(page, found, true);
            put_first(page, found, most);
        }
        Shows::Values => {
            put_end(page, found, false);
            put_values(alloc, page, found);
        }
    }
}

fn put_first(page: &mut Page, found: &[Found], most: usize) {
    for place in 0..most {
        if let Some(run) = found.get(place) {
            put_run(page, run);
        }
    }
}

// The run that fails is shown by how the check ended.
fn put_run(page: &mut Page, run: &Found) {
    if let Ending::Ended(value) = run.ending {
        page.add(";");
        put_choices(page, run.choices.as_slice());
        page.add_number(" = ", value);
    }
}

// More choices than so many are shown by their number.
const MANY: usize = 99;

fn put_choices(page: &mut Page, choices: &[Choice]) {
    if choices.len() > MANY {
        page.add_number(" ", choices.len() as u64);
        page.add(" choices");
    } else {
        page.add_shown(&SpacedChoices(choices));
    }
}

/// Puts the values of the runs on the page, each once, in order.
pub fn put_values(alloc: Global, page: &mut Page, found: &[Found]) {
    let mut values = Vec::new(alloc);
    for run in found {
        add_value(&mut values, run);
    }
    put_list(page, values.as_slice());
}

// Where memory is refused the value is missing.
fn add_value(values: &mut Vec<u64>, run: &Found) {
    if let Ending::Ended(value) = run.ending
        && let Err(place) = values.as_slice().binary_search(&value)
    {
        let _ = values.insert(place, value);
    }
}

fn put_list(page: &mut Page, values: &[u64]) {
    for value in values {
        page.add_number("; ", *value);
    }
}

// How the check ended, as the program prints it. The number of runs may be left out.
fn put_end(page: &mut Page, found: &[Found], is_counted: bool) {
    let many = found.len() as u64;
    if let Some(run) = found.last()
        && let Ending::Failed(kind) = run.ending
    {
        put_failure(page, kind, many, run.choices.as_slice());
    } else {
        put_complete(page, many, is_counted);
    }
}

fn put_complete(page: &mut Page, many: u64, is_counted: bool) {
    page.add("complete");
    if is_counted {
        page.add_number(" ", many);
    }
}

// The last of so many runs failed.
fn put_failure(page: &mut Page, kind: FailureKind, many: u64, choices: &[Choice]) {
    page.add_number("failed ", u64::from(kind.number()));
    page.add_number(" ", many.saturating_sub(1));
    put_choices(page, choices);
}

// What no test wants, where one of these runs isn't made again by its choices. Values alone aren't made again.
fn put_replays<B: Body<Data = u64>>(
    alloc: Global,
    settings: Settings,
    body: &B,
    found: &[Found],
    shows: Shows,
    page: &mut Page,
) {
    let are_made = match shows {
        Shows::First(_) => replays_each(alloc, settings, body, found),
        Shows::Values => true,
    };
    if !are_made {
        page.add("; no run again");
    }
}

// Whether each of these runs is made again by its choices.
fn replays_each<B: Body<Data = u64>>(
    alloc: Global,
    settings: Settings,
    body: &B,
    found: &[Found],
) -> bool {
    let reduced = Settings {
        reduce: true,
        ..settings
    };
    are_replays(alloc, &reduced.builder(), body, found)
}

fn are_replays<B: Body<Data = u64>>(
    alloc: Global,
    builder: &Builder,
    body: &B,
    found: &[Found],
) -> bool {
    for run in found {
        if !replays(alloc, builder, body, run) {
            return false;
        }
    }
    true
}

/// Whether the run is made again by its choices.
pub fn replays<B: Body<Data = u64>>(
    alloc: Global,
    builder: &Builder,
    body: &B,
    run: &Found,
) -> bool {
    let replay = builder.replay(alloc, body, run.choices.as_slice());
    is_replay(&replay, run)
}

// This is how the run ended, and what it chose.
fn is_replay(replay: &Result<Replay<u64>, CheckError>, run: &Found) -> bool {
    match replay {
        Ok(Replay::Ended { choices, value }) => {
            is_run(run, choices.as_slice(), Ending::Ended(*value))
        }
        Ok(Replay::Failed { failure, choices }) => {
            is_run(run, choices.as_slice(), Ending::Failed(failure.kind))
        }
        Err(_) => false,
    }
}
