//! A check with a file, beside which lies another one: the file that is named is read and written, and it alone.
use super::{ONE_NODE, TWO_NODES, lock_beside, put_found};
use crate::tests::asserting::{holds, same, script};
use loom::model::Report;
use loom::model::error::CheckError;
use loom_examples::rows::WHOLE;
use loom_examples::rows::settings::{Builds, Settings};
use loom_examples::rows::tables::first::TWO_MUTEXES_DEADLOCK;
use loom_examples::scripts::step::Step;
use loom_tests::page::Page;
use std::fs;
use std::process::Abort;
use std::rt::Files;

const FILE: &str = "loom_tests_named.json";

const OTHER: &str = "loom_tests_other.json";

const ONE_RUN: Settings = Settings {
    max_permutations: Some(1),
    ..WHOLE
};

// What a check of one run finds that has this file.
fn check_one(
    rt: &(impl Abort + AllocGlobal + Files),
    steps: &'static [Step],
    name: &str,
) -> Result<Report, CheckError> {
    let mut builder = ONE_RUN.builder();
    let named = builder.checkpoint_file(rt.alloc(), name);
    holds(rt, named.is_ok(), "no memory for a file's name");
    builder.check(rt, rt.alloc(), &script(rt, steps))
}

// The text of the file. One that is missing or can't be read has the empty text.
fn text_of(rt: &(impl AllocGlobal + Files), name: &str) -> String {
    match fs::read_to_string(rt, name) {
        Ok(text) => text,
        Err(_) => String::new(rt.alloc()),
    }
}

// The check of lock_beside with this file makes its next run, and leaves this text in it.
fn makes_a_run(rt: &(impl Abort + AllocGlobal + Files), name: &str, text: &str) {
    let mut page = Page::new(rt.alloc());
    put_found(&check_one(rt, lock_beside(), name), &mut page);
    holds(
        rt,
        page.text.as_str().starts_with("stopped 1\n"),
        "a check is stopped",
    );
    same(rt, text_of(rt, name).as_str(), text, "the file");
}

// The other file has still this text.
fn has_still(rt: &(impl Abort + AllocGlobal + Files), name: &str, text: &str) {
    same(rt, text_of(rt, name).as_str(), text, "the other file");
}

fn remove(rt: &impl Files) {
    for name in [FILE, OTHER] {
        let _ = fs::remove_file(rt, name);
    }
}

// The other file has the path of another row, with which no check of this one goes on.
fn named_file_changes(rt: &(impl Abort + AllocGlobal + Files)) {
    let found = check_one(rt, TWO_MUTEXES_DEADLOCK, OTHER);
    holds(rt, found.is_ok(), "the other row is checked");
    let other = text_of(rt, OTHER);
    makes_a_run(rt, FILE, ONE_NODE);
    has_still(rt, OTHER, other.as_str());
    makes_a_run(rt, FILE, TWO_NODES);
    has_still(rt, OTHER, other.as_str());
    let found = check_one(rt, TWO_MUTEXES_DEADLOCK, OTHER);
    holds(rt, found.is_ok(), "the other row is checked further");
    let is_other = text_of(rt, OTHER).as_str() != other.as_str();
    holds(rt, is_other, "the other file goes on");
    has_still(rt, FILE, TWO_NODES);
}

#[test]
fn the_named_file_is_read_and_written(rt: HostRuntime) {
    remove(&rt);
    named_file_changes(&rt);
    let beside = fs::read_to_string(&rt, "loom_tests_named.json.new");
    holds(&rt, beside.is_err(), "nothing is left beside the file");
    remove(&rt);
}
