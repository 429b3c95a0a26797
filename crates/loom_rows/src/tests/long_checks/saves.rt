//! What a check saves, and how it goes on with that.
use super::{
    Case, DEFAULT_CASE, NO_NODES, ONE_NODE, Shelf, TWO_NODES, WHOLE_CASE, check, gives, lock_beside,
};
use crate::tests::asserting::holds;
use crate::tests::others::THOUSAND_NODES;
use loom_examples::rows::WHOLE;
use loom_examples::rows::settings::{Builds, Settings};
use loom_examples::rows::tables::first::TWO_MUTEXES_DEADLOCK;
use loom_examples::scripts::step::Step;
use loom_tests::page::Page;
use std::process::Abort;

pub(super) static EACH: [Case; 1] = [Case {
    interval: 1,
    gives: " t0 t1 t1 t-\n t1 t1 t0 t-\n t1 t0 t1 t-\ncomplete 3\nsaves no nodes\nsaves one node\nsaves two nodes\n",
    ..WHOLE_CASE
}];

// How the body with two mutexes is checked, with each run saved, and what a check gives that begins with its last text.
static LAST: Case = Case {
    interval: 1,
    gives: "failed 2 0 t1 t1 t2 t2 t-\nsaves another text\n",
    ..DEFAULT_CASE
};

fn two_mutexes() -> &'static [Step] {
    TWO_MUTEXES_DEADLOCK
}

const SAVED: &str =
    "failed 2 3 t1 t1 t2 t2 t-\nsaves another text\nsaves another text\nsaves another text\nsaves another text\n";

fn saves_before(rt: &(impl Abort + AllocGlobal), shelf: &mut Shelf) {
    let mut page = Page::new(rt.alloc());
    check(rt, &LAST.builder(), two_mutexes(), &mut page, shelf);
    let is_so = page.text.as_str().ends_with(SAVED);
    holds(rt, is_so, "each run is saved");
}

fn goes_on_and_fails(rt: &(impl Abort + AllocGlobal), shelf: &mut Shelf) {
    shelf.saved.text.clear();
    gives(rt, &LAST.builder(), two_mutexes(), shelf, LAST.gives);
}

fn a_failing_run_is_saved_before(rt: &(impl Abort + AllocGlobal)) {
    let mut shelf = Shelf::new(rt.alloc(), 0);
    saves_before(rt, &mut shelf);
    goes_on_and_fails(rt, &mut shelf);
}

// How many runs each leg makes, what it gives, and what the store holds then.
static LEGS: [(Option<usize>, &str, &str); 4] = [
    (
        Some(0),
        "stopped 0\nby max_permutations\nat no nodes\nsaves no nodes\n",
        NO_NODES,
    ),
    (
        Some(1),
        " t0 t1 t1 t-\nstopped 1\nby max_permutations\nat one node\nsaves one node\n",
        ONE_NODE,
    ),
    (
        Some(1),
        " t1 t1 t0 t-\nstopped 1\nby max_permutations\nat two nodes\nsaves two nodes\n",
        TWO_NODES,
    ),
    (None, " t1 t0 t1 t-\ncomplete 1\n", TWO_NODES),
];

// A check with this store, which makes so many runs at most, gives this.
fn leg(
    rt: &(impl Abort + AllocGlobal),
    max_permutations: Option<usize>,
    shelf: &mut Shelf,
    text: &str,
) {
    let settings = Settings {
        max_permutations,
        ..WHOLE
    };
    shelf.saved.text.clear();
    gives(rt, &settings.builder(), lock_beside(), shelf, text);
}

fn goes_on(rt: &(impl Abort + AllocGlobal), shelf: &mut Shelf) {
    for (max_permutations, text, held) in &LEGS {
        leg(rt, *max_permutations, shelf, *text);
        holds(rt, shelf.held() == held.as_bytes(), *text);
    }
}

fn a_check_goes_on_where_it_stopped(rt: &(impl Abort + AllocGlobal)) {
    let mut shelf = Shelf::new(rt.alloc(), 0);
    goes_on(rt, &mut shelf);
}

// A check of runs of a thousand nodes with this store, which makes so many at most, ends so.
fn long_leg(
    rt: &(impl Abort + AllocGlobal),
    max_permutations: Option<usize>,
    shelf: &mut Shelf,
    end: &str,
) {
    let settings = Settings {
        max_permutations,
        ..WHOLE
    };
    let mut page = Page::new(rt.alloc());
    shelf.saved.text.clear();
    check(rt, &settings.builder(), THOUSAND_NODES, &mut page, shelf);
    holds(rt, page.text.as_str().ends_with(end), end);
}

// Of two runs, the first one's path is saved up to its last node that has something left, which is the 998th, and read again.
fn a_long_path_goes_on(rt: &(impl Abort + AllocGlobal)) {
    let mut shelf = Shelf::new(rt.alloc(), 0);
    long_leg(rt, Some(1), &mut shelf, "saves another text\n");
    long_leg(rt, None, &mut shelf, " t-\ncomplete 1\n");
}

#[test]
fn checks_go_on_with_what_was_saved(rt: HostRuntime) {
    a_failing_run_is_saved_before(&rt);
    a_check_goes_on_where_it_stopped(&rt);
}

#[test]
fn a_long_path_is_saved(rt: HostRuntime) {
    a_long_path_goes_on(&rt);
}
