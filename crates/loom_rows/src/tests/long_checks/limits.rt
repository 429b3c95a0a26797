//! Limits of runs and of time.
use super::{Case, WHOLE_CASE, lock_beside, put_found};
use crate::tests::asserting::{same, script};
use loom::model::builder::Builder;
use loom_examples::rows::settings::Builds;
use loom_examples::rows::{TWO_RUNS, WHOLE};
use loom_examples::scripts::step::Step;
use loom_tests::page::Page;
use std::process::Abort;
use std::rt::Files;
use std::time::Duration;

// The count of runs is tested before the time.
pub(super) static LIMITS: [Case; 3] = [
    Case {
        settings: TWO_RUNS,
        gives: " t0 t1 t1 t-\n t1 t1 t0 t-\nstopped 2\nby max_permutations\nat two nodes\nsaves two nodes\n",
        ..WHOLE_CASE
    },
    Case {
        max_seconds: Some(1),
        gives: " t0 t1 t1 t-\n t1 t1 t0 t-\nstopped 2\nby max_duration\nat two nodes\nasked 3\nsaves two nodes\n",
        ..WHOLE_CASE
    },
    Case {
        settings: TWO_RUNS,
        max_seconds: Some(1),
        gives: " t0 t1 t1 t-\n t1 t1 t0 t-\nstopped 2\nby max_permutations\nat two nodes\nasked 2\nsaves two nodes\n",
        ..WHOLE_CASE
    },
];

// Puts on the page what a check finds that nobody is given.
pub(super) fn check_alone(
    rt: &(impl Abort + AllocGlobal + Files),
    builder: &Builder,
    steps: &'static [Step],
    page: &mut Page,
) {
    let body = script(rt, steps);
    let found = builder.check(rt, rt.alloc(), &body);
    put_found(&found, page);
}

// A check of lock_beside that may take so long gives this.
fn takes(rt: &(impl Abort + AllocGlobal + Files), nanos: u64, text: &str) {
    let mut builder = WHOLE.builder();
    builder.max_duration = Some(Duration::from_nanos(nanos));
    let mut page = Page::new(rt.alloc());
    check_alone(rt, &builder, lock_beside(), &mut page);
    same(rt, page.text.as_str(), text, "a check without a clock");
}

// How long a check may take that has no clock, in nanoseconds, and what it finds.
static LONGEST: [(u64, &str); 2] = [
    (0, "stopped 0\nby max_duration\nat no nodes\n"),
    (1, "complete 3\n"),
];

#[test]
fn a_check_has_no_clock(rt: HostRuntime) {
    for (nanos, text) in &LONGEST {
        takes(&rt, *nanos, *text);
    }
}

// No run may be made, and no time may pass.
#[test]
fn the_count_is_the_reason_where_both_limits_are_reached(rt: HostRuntime) {
    let mut builder = WHOLE.builder();
    builder.max_permutations = Some(0);
    builder.max_duration = Some(Duration::ZERO);
    let mut page = Page::new(rt.alloc());
    check_alone(&rt, &builder, lock_beside(), &mut page);
    let text = "stopped 0\nby max_permutations\nat no nodes\n";
    same(&rt, page.text.as_str(), text, "a check with two limits");
}
