//! The text of each body's run, whole, and its picture.
mod bodies;
mod pictures;
pub mod texts;

use crate::asserting::same;
use crate::examples::explanations::bodies::limits::{FENCES, ORDERS_EQUAL, STORES, THREE_SPAWNED};
use crate::examples::explanations::bodies::locks::{
    ALL_WAIT, ARC_LEFT, ASLEEP, CROSSED, LOST_UPDATE, MESSAGE_LEFT, SPINS, SPINS_AND_YIELDS,
    TRACK_LEFT, TWICE, WAKER_LEFT,
};
use crate::examples::explanations::bodies::misuses::{
    APART, ENDS_FIRST, FENCE, RELEASED_BY_MAIN, STOPPED_TWICE, TWO_WAIT, UNREACHABLE,
};
use crate::examples::explanations::bodies::races::{
    BESIDE, MUTATED, OPEN, SPIN, THREE, UNRELEASED,
};
use crate::examples::explanations::bodies::values::{AFTER_EXIT, AFTER_MAIN, MADE_TWICE};
use crate::examples::script;
use crate::page::Page;
use loom::Choice;
use loom::choices::Choices;
use loom::explain::Displayed;
use loom::model::builder::Builder;
use loom_examples::scripts::script::Script;
use loom_examples::scripts::step::Step;
use std::alloc::Global;
use std::process::Abort;

/// The limits that a builder sets.
struct Limits {
    threads: usize,
    branches: usize,
    steps: usize,
}

/// A body, the choices that its run follows, and the run's explanation.
struct Row {
    name: &'static str,
    steps: &'static [Step],
    choices: &'static str,
    text: &'static str,
    // where they aren't the defaults
    limits: Option<Limits>,
}

// A row, whose text stands in the file of this name.
macro_rules! row {
    ($name:ident, $steps:expr, $choices:literal) => {
        row!($name, $steps, $choices, None)
    };
    ($name:ident, $steps:expr, $choices:literal, $limits:expr) => {
        Row {
            name: stringify!($name),
            steps: $steps,
            choices: $choices,
            text: texts::$name::TEXT,
            limits: $limits,
        }
    };
}

// The limits of a builder by default.
const LIMITS: Limits = Limits {
    threads: 5,
    branches: 1000,
    steps: 1_000_000,
};

static RACES: [Row; 3] = [
    row!(race, SPIN, "t0 l0 t0 t1 t1 l2"),
    row!(race_beside, BESIDE, ""),
    row!(race_unreleased, UNRELEASED, "t0 t1 t1 l1"),
];

// The names in one table of all would be too many for a static.
static MORE_RACES: [Row; 2] = [row!(race_mutated, MUTATED, ""), row!(race_three, THREE, "")];

static WAITS: [Row; 5] = [
    row!(deadlock, CROSSED, "t0 t1 t1"),
    row!(deadlock_twice, TWICE, ""),
    row!(deadlock_asleep, ASLEEP, "t1 t1 t1 t2 t2 t2"),
    row!(deadlock_all, ALL_WAIT, ""),
    row!(second_waiter, TWO_WAIT, ""),
];

static LEAKS: [Row; 4] = [
    row!(leak_arc, ARC_LEFT, ""),
    row!(leak_waker, WAKER_LEFT, ""),
    row!(leak_track, TRACK_LEFT, ""),
    row!(leak_messages, MESSAGE_LEFT, ""),
];

static MISUSES: [Row; 5] = [
    row!(misuse, RELEASED_BY_MAIN, "t1 t1 t0"),
    row!(misuse_apart, APART, ""),
    row!(misuse_end, ENDS_FIRST, ""),
    row!(open_access, OPEN, ""),
    row!(unreachable, UNREACHABLE, ""),
];

static VALUES: [Row; 5] = [
    row!(relaxed_fence, FENCE, ""),
    row!(explore_switch, STOPPED_TWICE, ""),
    row!(lazy_shutdown, AFTER_MAIN, ""),
    row!(local_gone, AFTER_EXIT, ""),
    row!(key_taken, MADE_TWICE, ""),
];

static CHOICES: [Row; 3] = [
    row!(assertion, LOST_UPDATE, "t0 l0 t1 t1 l0 t1 t1 t0"),
    row!(
        orders_equal,
        ORDERS_EQUAL,
        "t0 t1 t1 t1 t0 l2 t1 l2 t1 t2 t2 l3 t2"
    ),
    row!(not_deterministic, CROSSED, "t0 t1 l3"),
];

static AT_LIMITS: [Row; 3] = [
    row!(
        too_many_threads,
        THREE_SPAWNED,
        "",
        Some(Limits {
            threads: 2,
            ..LIMITS
        })
    ),
    row!(
        too_many_branches,
        SPINS,
        "",
        Some(Limits {
            threads: 2,
            branches: 40,
            ..LIMITS
        })
    ),
    row!(
        too_many_steps,
        SPINS_AND_YIELDS,
        "",
        Some(Limits {
            steps: 30,
            ..LIMITS
        })
    ),
];

// These two take long.
static MANY_FENCES: [Row; 1] = [row!(too_many_versions, FENCES, "")];

static MANY_STORES: [Row; 1] = [row!(
    too_many_stores,
    STORES,
    "",
    Some(Limits {
        branches: 100_000,
        ..LIMITS
    })
)];

// Where a run has more than 65,535 choices, its text is kept up to them.
fn is_told(row: &Row, text: &str) -> bool {
    text == row.text || row.name == "too_many_stores" && text.starts_with(row.text)
}

// The builder by which the row's run is made.
fn builder_of(row: &Row) -> Builder {
    let mut builder = Builder::new();
    if let Some(limits) = &row.limits {
        builder.max_threads = limits.threads;
        builder.max_branches = limits.branches;
        builder.max_steps = limits.steps;
    }
    builder
}

// Puts on the page the explanation of the row's run that follows its choices.
fn put_told(rt: &(impl Abort + AllocGlobal), row: &'static Row, page: &mut Page) {
    let body = script(rt, row.steps);
    let choices = Choices::parse(rt.alloc(), row.choices).expect(rt, "no choices");
    put_explanation(
        rt.alloc(),
        &builder_of(row),
        &body,
        choices.as_slice(),
        page,
    );
}

fn put_explanation(
    alloc: Global,
    builder: &Builder,
    body: &Script,
    choices: &[Choice],
    page: &mut Page,
) {
    if let Ok(explanation) = &builder.explain(alloc, body, choices) {
        page.add_shown(explanation);
    }
}

/// What a body's objects hold stands in its text where that is asked for.
#[test]
fn data_are_shown(rt: HostRuntime) {
    let body = script(&rt, MESSAGE_LEFT);
    let told = Builder::new().explain_with(rt.alloc(), &body, &[], &Displayed);
    let mut page = Page::new(rt.alloc());
    if let Ok(explanation) = &told {
        page.add_shown(explanation);
    }
    same(
        &rt,
        page.text.as_str(),
        texts::messages_shown::TEXT,
        "a body with its data",
    );
}

// The row has its text.
fn tells(rt: &(impl Abort + AllocGlobal), row: &'static Row) {
    let mut page = Page::new(rt.alloc());
    put_told(rt, row, &mut page);
    compare(rt, row, page.text.as_str());
}

fn compare(rt: &impl Abort, row: &Row, text: &str) {
    if !is_told(row, text) {
        same(rt, text, row.text, row.name);
    }
}

fn tells_each(rt: &(impl Abort + AllocGlobal), rows: &'static [Row]) {
    for row in rows {
        tells(rt, row);
    }
}

#[test]
fn races_waits_and_leaks_have_their_texts(rt: HostRuntime) {
    tells_each(&rt, &RACES);
    tells_each(&rt, &MORE_RACES);
    tells_each(&rt, &WAITS);
    tells_each(&rt, &LEAKS);
}

#[test]
fn other_failures_have_their_texts(rt: HostRuntime) {
    tells_each(&rt, &MISUSES);
    tells_each(&rt, &VALUES);
    tells_each(&rt, &CHOICES);
    tells_each(&rt, &AT_LIMITS);
}

#[test]
fn as_many_fences_have_their_text(rt: HostRuntime) {
    tells_each(&rt, &MANY_FENCES);
}

#[test]
fn as_many_stores_have_their_text(rt: HostRuntime) {
    tells_each(&rt, &MANY_STORES);
}
