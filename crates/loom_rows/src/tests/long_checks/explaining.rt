//! Explanations of runs that follow given choices.
use super::lock_beside;
use crate::tests::asserting::{same, script};
use loom::Choice;
use loom::model::error::CheckError;
use loom_examples::rows::DEFAULTS;
use loom_examples::rows::settings::{Builds, Settings};
use loom_examples::scripts::script::Script;
use loom_examples::scripts::step::{FAIL, Step};
use loom_explain::explanation::Explanation;
use loom_objects::operation::{Request, ThreadOp};
use loom_tests::page::Page;
use std::alloc::Global;
use std::process::Abort;

// Main waits for a thread, which fails.
const CHILD_FAILS: &[Step] = &[
    Step::SpawnAt(0, "child"),
    Step::Do(0, Request::Thread(ThreadOp::Join(0, 0))),
    Step::Label("child"),
    FAIL,
];

// Puts on the page the events, the run's end, its choices, and what could be chosen at each.
fn put_told(told: &Explanation, page: &mut Page) {
    page.put_debug(&told.events);
    page.put_debug(&told.end);
    page.put_debug(&told.choices);
    page.put_debug(&told.options);
}

// Puts the events of the run that follows the choices, or the error.
fn put_run(alloc: Global, settings: Settings, body: &Script, choices: &[Choice], page: &mut Page) {
    let told = settings.builder().explain(alloc, body, choices);
    put_answer(&told, page);
}

fn put_answer(told: &Result<Explanation, CheckError>, page: &mut Page) {
    match told {
        Ok(told) => put_told(told, page),
        Err(error) => page.put_debug(error),
    }
}

// This is the explanation of the run of the script that follows the choices.
fn tells(
    rt: &(impl Abort + AllocGlobal),
    settings: Settings,
    steps: &'static [Step],
    choices: &[Choice],
    text: &str,
) {
    let mut page = Page::new(rt.alloc());
    put_run(rt.alloc(), settings, &script(rt, steps), choices, &mut page);
    same(rt, page.text.as_str(), text, "a run that is told");
}

const FAILS: &str =
    "[Event { thread: 0, told: Start, op: Labelled { request: Thread(Spawn((), None)), label: None }, choices_before: 0 }, Event { thread: 0, told: Spawned(1, None, 0), op: Labelled { request: Thread(Join(1, 0)), label: None }, choices_before: 0 }, Event { thread: 1, told: Start, op: Labelled { request: Fail, label: None }, choices_before: 1 }]
Failed(Failure { kind: Assertion, location: None })
[Thread(Some(1))]
[Threads([1])]
";

// Thread 1 ends before main locks.
const ENDS: &str =
    "[Event { thread: 0, told: Start, op: Labelled { request: Mutex(New(())), label: None }, choices_before: 0 }, Event { thread: 0, told: Mutex(0), op: Labelled { request: Thread(Spawn((), None)), label: None }, choices_before: 0 }, Event { thread: 0, told: Spawned(1, None, 1), op: Labelled { request: Mutex(Lock(0)), label: None }, choices_before: 0 }, Event { thread: 1, told: Start, op: Labelled { request: Thread(Finish(())), label: None }, choices_before: 1 }, Event { thread: 1, told: Done, op: Labelled { request: Thread(Exit), label: None }, choices_before: 2 }, Event { thread: 1, told: Locals([]), op: Labelled { request: Thread(End), label: None }, choices_before: 2 }, Event { thread: 0, told: Locked(0, ()), op: Labelled { request: Mutex(Release(0, ())), label: None }, choices_before: 3 }, Event { thread: 0, told: Done, op: Labelled { request: Thread(Finish(())), label: None }, choices_before: 3 }, Event { thread: 0, told: Lazies([]), op: Labelled { request: Thread(Exit), label: None }, choices_before: 3 }, Event { thread: 0, told: Locals([]), op: Labelled { request: Thread(End), label: None }, choices_before: 3 }]
Ended
[Thread(Some(1)), Thread(Some(1)), Thread(Some(0)), Thread(None)]
[Threads([0, 1]), Threads([0, 1]), Threads([0]), Threads([])]
";

const NO_THREADS: Settings = Settings {
    max_threads: 0,
    ..DEFAULTS
};

#[test]
fn runs_are_told(rt: HostRuntime) {
    // A run that fails is explained up to its last operation.
    tells(&rt, DEFAULTS, CHILD_FAILS, &[], FAILS);
    // The given choices are followed.
    let choices = [Choice::Thread(Some(1))];
    tells(&rt, DEFAULTS, lock_beside(), &choices, ENDS);
    // Settings are refused.
    tells(&rt, NO_THREADS, lock_beside(), &[], "MaxThreads(0)\n");
}
