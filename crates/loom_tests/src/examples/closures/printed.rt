//! What is printed for people: a report of many choices, and why there is no report.
use crate::asserting::same;
use crate::page::Page;
use loom::model::Report;
use loom::runner::RunnerError;
use loom::{Choice, Failure, FailureKind};
use std::alloc::{AllocError, Global};
use std::test::Fail;

/// So many choices, of threads 0 to 4 in turn.
fn in_turn(alloc: Global, count: u8) -> Result<Vec<Choice>, AllocError> {
    let mut choices = Vec::new(alloc);
    for place in 0..count {
        choices.push(Choice::Thread(Some(place % 5)))?;
    }
    Ok(choices)
}

/// Of more than 60 choices thirty stand at each end.
#[test]
fn many_choices_are_cut(rt: HostRuntime) -> Result<(), Fail> {
    let report = Report::Failed {
        runs: 3,
        failure: Failure {
            kind: FailureKind::Deadlock,
            location: None,
        },
        choices: in_turn(rt.alloc(), 62)?,
    };
    let mut page = Page::new(rt.alloc());
    page.put("", &report);
    let mut wanted = Page::new(rt.alloc());
    wanted.add(
        "failed in run 4: no thread can run, and some have not ended: see what each of these waits for, and who was to let it go on\nreplay: ",
    );
    wanted.add_often("t0 t1 t2 t3 t4 ", 6);
    wanted.add(".. (2 choices) ..");
    wanted.add_often(" t2 t3 t4 t0 t1", 6);
    wanted.add(
        "\nto see what happened: `Builder::explain`, or `runner::explain` for closures, with these choices\n",
    );
    same(
        &rt,
        page.text.as_str(),
        wanted.text.as_str(),
        "a report of many choices",
    );
    Ok(())
}

const ERRORS: &str =
    "the host refused to start a thread: make fewer at a time, or raise its limit\nwhat the closures were told is not the history of the run: this is a fault of the runner, so please report it\nout of memory: set a lower `max_branches` or `max_steps`, or make the closure smaller\n";

/// An error says what was wrong, and what to do.
#[test]
fn errors_say_what_to_do(rt: HostRuntime) {
    let mut page = Page::new(rt.alloc());
    page.put("", &RunnerError::Refused);
    page.put("", &RunnerError::NotSettled);
    page.put("", &RunnerError::Memory);
    same(&rt, page.text.as_str(), ERRORS, "why there is no report");
}
