//! What an environment says of a check, and which settings are refused.
use super::{Case, DEFAULT_CASE};
use crate::tests::asserting::same;
use loom::model::builder::Builder;
use loom::model::env::Env;
use loom::model::error::CheckError;
use loom_examples::rows::DEFAULTS;
use loom_examples::rows::settings::Settings;
use loom_tests::page::Page;
use std::alloc::Global;
use std::process::Abort;

// The text, where the variable is the one that is set.
fn text_at(alloc: Global, place: usize, set: usize, text: &str) -> Option<String> {
    if place == set {
        String::from_str(alloc, text).ok()
    } else {
        None
    }
}

// An environment in which one variable has this text.
fn environment(alloc: Global, set: usize, text: &str) -> Env {
    Env {
        max_branches: text_at(alloc, 0, set, text),
        max_permutations: text_at(alloc, 1, set, text),
        max_duration: text_at(alloc, 2, set, text),
        max_preemptions: text_at(alloc, 3, set, text),
        checkpoint_file: text_at(alloc, 4, set, text),
        checkpoint_interval: text_at(alloc, 5, set, text),
        location: text_at(alloc, 6, set, text),
        log: text_at(alloc, 7, set, text),
    }
}

fn put_read(alloc: Global, set: usize, text: &str, page: &mut Page) {
    let read = Builder::from_env(environment(alloc, set, text));
    put_builder(&read, page);
}

fn put_builder(read: &Result<Builder, CheckError>, page: &mut Page) {
    match read {
        Ok(builder) => page.put_debug(builder),
        Err(error) => page.put("error ", &error.number()),
    }
}

// Where this variable has this text, these are the settings, or the error.
fn reads(rt: &(impl Abort + AllocGlobal), set: usize, text: &str, wanted: &str) {
    let mut page = Page::new(rt.alloc());
    put_read(rt.alloc(), set, text, &mut page);
    same(rt, page.text.as_str(), wanted, text);
}

// The variables that should be numbers, and texts that are none.
static NUMBERS: [usize; 5] = [0, 1, 2, 3, 5];

static NO_NUMBERS: [&str; 6] = ["abc", "", "-5", "+", "5 ", "18446744073709551616"];

fn is_no_number(rt: &(impl Abort + AllocGlobal), set: usize) {
    for text in &NO_NUMBERS {
        reads(rt, set, *text, "error 6\n");
    }
}

fn other_texts_are_no_numbers(rt: &(impl Abort + AllocGlobal)) {
    for set in &NUMBERS {
        is_no_number(rt, *set);
    }
}

// The settings where no variable is set.
const SETTINGS: &str =
    "Builder { max_threads: 5, max_branches: 1000, max_steps: 1000000, max_permutations: None, max_duration: None, max_different: None, reduce: true, preemption_bound: None, checkpoint_file: None, checkpoint_interval: 20000, expect_explicit_explore: false, snapshots: false, location: false, log: false, recorded: false }\n";

// Which variable is set, to which text, and which part of the settings reads how then. There is no variable 8.
static VARIABLES: [(usize, &str, &str, &str); 13] = [
    (0, "5", "max_branches: 1000", "max_branches: 5"),
    (
        1,
        "5",
        "max_permutations: None",
        "max_permutations: Some(5)",
    ),
    (2, "5", "max_duration: None", "max_duration: Some(5s)"),
    (
        3,
        "5",
        "preemption_bound: None",
        "preemption_bound: Some(5)",
    ),
    (
        4,
        "5",
        "checkpoint_file: None",
        "checkpoint_file: Some(\"5\")",
    ),
    (
        5,
        "5",
        "checkpoint_interval: 20000",
        "checkpoint_interval: 5",
    ),
    (6, "5", "location: false", "location: true"),
    (7, "5", "log: false", "log: true"),
    (8, "5", "log: false", "log: false"),
    (0, "+5", "max_branches: 1000", "max_branches: 5"),
    (0, "0", "max_branches: 1000", "max_branches: 0"),
    (0, "005", "max_branches: 1000", "max_branches: 5"),
    (
        0,
        "18446744073709551615",
        "max_branches: 1000",
        "max_branches: 18446744073709551615",
    ),
];

// Where this variable has this text, this part of the settings reads so.
fn sets(rt: &(impl Abort + AllocGlobal), set: usize, text: &str, part: &str, other: &str) {
    let wanted = Page::changed(rt.alloc(), SETTINGS, part, other);
    reads(rt, set, text, wanted.text.as_str());
}

fn each_variable_sets_one_setting(rt: &(impl Abort + AllocGlobal)) {
    for (set, text, part, other) in &VARIABLES {
        sets(rt, *set, *text, *part, *other);
    }
}

#[test]
fn an_environment_is_read(rt: HostRuntime) {
    other_texts_are_no_numbers(&rt);
    each_variable_sets_one_setting(&rt);
}

// The first setting out of range is refused.
pub(super) static RANGES: [Case; 4] = [
    Case {
        settings: Settings {
            max_threads: 0,
            ..DEFAULTS
        },
        interval: 0,
        gives: "error 1\n",
        ..DEFAULT_CASE
    },
    Case {
        settings: Settings {
            max_branches: 0,
            ..DEFAULTS
        },
        interval: 0,
        gives: "error 2\n",
        ..DEFAULT_CASE
    },
    Case {
        interval: 0,
        gives: "error 4\n",
        ..DEFAULT_CASE
    },
    Case {
        interval: 1,
        gives: " t0 t1 t1 t-\ncomplete 1\nsaves another text\n",
        ..DEFAULT_CASE
    },
];
