//! What checks of the measured bodies find.
use super::limits::check_alone;
use crate::tests::asserting::same;
use loom_examples::measured::{Measured, all_bodies, body_of};
use loom_examples::rows::settings::Builds;
use loom_tests::page::Page;
use std::process::Abort;
use std::rt::Files;

// Those that the program measures where no word names one, and what a check of each finds.
static FOUND: [(&str, &str); 26] = [
    ("store_buffering", "complete 48\n"),
    ("store_buffering bound 1", "complete 8\n"),
    ("store_buffering bound 2", "complete 26\n"),
    ("store_buffering reduced", "complete 30\n"),
    ("store_buffering reduced bound 1", "complete 8\n"),
    ("store_buffering reduced bound 2", "complete 22\n"),
    ("locks_in_turn", "complete 66\n"),
    ("locks_in_turn bound 1", "complete 9\n"),
    ("locks_in_turn bound 2", "complete 21\n"),
    ("locks_in_turn reduced", "complete 12\n"),
    ("locks_in_turn reduced bound 1", "complete 5\n"),
    ("locks_in_turn reduced bound 2", "complete 12\n"),
    ("writers_beside_a_reader", "complete 224\n"),
    ("writers_beside_a_reader bound 1", "complete 11\n"),
    ("writers_beside_a_reader bound 2", "complete 37\n"),
    ("writers_beside_a_reader reduced", "complete 94\n"),
    ("writers_beside_a_reader reduced bound 1", "complete 8\n"),
    ("writers_beside_a_reader reduced bound 2", "complete 28\n"),
    ("three_adds", "complete 4950\n"),
    ("three_adds bound 1", "complete 16\n"),
    ("three_adds bound 2", "complete 84\n"),
    ("three_adds reduced", "complete 1981\n"),
    ("three_adds reduced bound 1", "complete 12\n"),
    ("three_adds reduced bound 2", "complete 68\n"),
    ("three_threads reduced", "complete 8663\n"),
    ("stores_apart", "complete 1100736\n"),
];

// A check of the body of this name finds this.
fn finds(rt: &(impl Abort + AllocGlobal + Files), bodies: &[Measured], name: &str, line: &str) {
    let mut page = Page::new(rt.alloc());
    if let Some(body) = body_of(bodies, name) {
        check_alone(rt, &body.settings.builder(), body.steps, &mut page);
    }
    same(rt, page.text.as_str(), line, name);
}

#[test]
fn measured_bodies_make_these_runs(rt: HostRuntime) {
    let bodies = all_bodies(rt.alloc()).expect(&rt, "no memory for the bodies");
    for (name, line) in &FOUND {
        finds(&rt, bodies.as_slice(), *name, *line);
    }
}
