//! Several workers find of a litmus test what one check finds.
use crate::tests::reading::texts::TEXTS;
use loom::model::builder::Builder;
use loom::model::clock::NoClock;
use loom::model::error::CheckError;
use loom::model::parts::Slice;
use loom::runner::{Host, Workers};
use loom_text::read::read;
use loom_text::run::answer::{Answer, Found};
use loom_text::run::check::{Outcome, check};
use loom_text::run::counting::Unheard;
use loom_text::run::layout::Layout;
use loom_text::run::parallel::check_by;
use loom_text::run::program::assemble;
use loom_text::run::thread::TestThread;
use loom_text::test::Test;
use std::process::Abort;
use std::rt::Clock;

// Three workers, of whom each makes seven runs at a time.
const THREE: Workers = Workers {
    count: 3,
    slice: Slice {
        runs: 7,
        until: None,
    },
};

// What a search of all runs finds of the text, by these workers or by one: its answer. Where the text is no test, or memory is refused,
// it is nothing.
fn answer<R: Host + Clock + Sync>(rt: &R, text: &str, workers: Option<Workers>) -> String {
    let mut whole = String::new(rt.alloc());
    if let Ok(test) = read(rt.alloc(), text.as_bytes()) {
        put_answer(rt, &test, workers, &mut whole);
    }
    whole
}

fn put_answer<R: Host + Clock + Sync>(
    rt: &R,
    test: &Test,
    workers: Option<Workers>,
    whole: &mut String,
) {
    let alloc = rt.alloc();
    if let Ok(layout) = Layout::of(alloc, test)
        && let Ok(program) = assemble(alloc, test, &layout, "test.litmus")
        && let Ok(main) = TestThread::main(alloc, program)
        && let Ok(outcome) = find(rt, test, &layout, &main, workers)
    {
        let found = Found::Whole(outcome);
        let answer = Answer {
            test,
            layout: &layout,
            found: &found,
        };
        if let Ok(text) = format!(in alloc; "{answer}") {
            *whole = text;
        }
    }
}

fn find<R: Host + Clock + Sync>(
    rt: &R,
    test: &Test,
    layout: &Layout,
    main: &TestThread,
    workers: Option<Workers>,
) -> Result<Outcome, CheckError> {
    let alloc = rt.alloc();
    let builder = Builder {
        reduce: false,
        ..Builder::new()
    };
    let mut clock = NoClock;
    let mut unheard = Unheard;
    match workers {
        Some(workers) => check_by(
            rt,
            alloc,
            &builder,
            test,
            layout,
            main,
            workers,
            &mut clock,
            &mut unheard,
        ),
        None => check(
            alloc,
            &builder,
            test,
            layout,
            main,
            &mut clock,
            &mut unheard,
        ),
    }
}

// Three workers find of the test of this name what one check does. Of two failures it may be another one that they come to first.
fn is_shared<R: Abort + Host + Clock + Sync>(rt: &R, name: &str, text: &str) {
    let alone = answer(rt, text, None);
    let shared = answer(rt, text, Some(THREE));
    let flag = "\nFlag race\n";
    let is_same = if alone.contains(flag) {
        shared.contains(flag)
    } else {
        !alone.is_empty() && shared.as_str() == alone.as_str()
    };
    assert!(rt; is_same, "{name}: {alone}{shared}");
}

#[test]
fn workers_find_what_one_check_does(rt: HostRuntime) {
    for (name, text) in &TEXTS {
        if !text.contains("\nP2 ") {
            is_shared(&rt, name, text);
        }
    }
}
