//! The first body of docs/GUIDE.md.
use super::finding::{Shows, put_found};
use crate::tests::asserting::{holds, same};
use loom::model::Report;
use loom_examples::bodies::guide::Counter;
use loom_examples::rows::WHOLE;
use loom_examples::rows::settings::Builds;
use loom_tests::page::Page;

#[test]
fn no_thread_is_counted_third(rt: HostRuntime) {
    let report = WHOLE.builder().check(&rt, rt.alloc(), &Counter::main(2));
    let is_complete = matches!(&report, Ok(Report::Complete { runs: 4 }));
    holds(&rt, is_complete, "counter");
}

// Its second run fails, by an assertion of the body, and is made again by its choices.
#[test]
fn main_is_not_always_first(rt: HostRuntime) {
    let mut page = Page::new(rt.alloc());
    let body = Counter::main(1);
    put_found(rt.alloc(), WHOLE, &body, Shows::First(0), &mut page);
    let text = "failed 1 1 t1 t1 t1 t0";
    same(&rt, page.text.as_str(), text, "first counter");
}
