//! Checks with rising bounds on preemptions, and reports as texts.
use super::lock_beside;
use super::places::put_replay;
use crate::tests::asserting::{same, script};
use loom::model::builder::Builder;
use loom::model::error::CheckError;
use loom::model::rising::Risen;
use loom::sync::atomic::Ordering::Relaxed;
use loom::{Choices, ChoicesError};
use loom_examples::rows::settings::{Builds, Settings};
use loom_examples::rows::{DEFAULTS, TWO_RUNS, WHOLE};
use loom_examples::scripts::script::Script;
use loom_examples::scripts::step::{END, EXIT, FAIL, Step, Value};
use loom_objects::operation::{AtomicOp, ChannelOp, Request, ThreadOp};
use loom_tests::page::Page;
use loom_views::rt::num::Numbers;
use std::alloc::Global;
use std::process::Abort;

// Main loads, and then waits for a thread that sends. Another one fails where it asks for the message before that.
const ASKS_EARLY: &[Step] = &[
    Step::Do(0, Request::Channel(ChannelOp::New)),
    Step::Do(3, Request::Atomic(AtomicOp::New(Numbers::U64, 0))),
    Step::SpawnAt(1, "first"),
    Step::SpawnAt(2, "second"),
    Step::Do(0, Request::Atomic(AtomicOp::Load(3, Relaxed))),
    Step::Do(0, Request::Thread(ThreadOp::Join(1, 1))),
    Step::Do(0, Request::Thread(ThreadOp::Finish(Value::Plain(7)))),
    EXIT,
    END,
    Step::Label("first"),
    Step::Do(0, Request::Channel(ChannelOp::Send(0, Value::Plain(5)))),
    Step::Do(0, Request::Thread(ThreadOp::Finish(Value::Plain(0)))),
    EXIT,
    END,
    Step::Label("second"),
    Step::Do(0, Request::Channel(ChannelOp::TryRecv(0))),
    Step::UnlessTo(3, 1, "finish"),
    FAIL,
    Step::Label("finish"),
    Step::Do(0, Request::Thread(ThreadOp::Finish(Value::Plain(0)))),
    EXIT,
    END,
];

fn asks_early() -> &'static [Step] {
    ASKS_EARLY
}

// Puts on the page at which bound it ended, and the report, or the error.
fn put_risen(risen: &Result<Risen, CheckError>, page: &mut Page) {
    match risen {
        Ok(risen) => {
            page.put("bound ", &risen.bound);
            page.put("", &risen.report);
        }
        Err(error) => page.put_debug(error),
    }
}

fn put_check(alloc: Global, settings: Settings, body: &Script, up_to: usize, page: &mut Page) {
    let risen = settings.builder().check_rising(alloc, body, up_to);
    put_risen(&risen, page);
}

// A check of the script with bounds that rise up to this one gives this.
fn rises(
    rt: &(impl Abort + AllocGlobal),
    settings: Settings,
    steps: &'static [Step],
    up_to: usize,
    text: &str,
) {
    let mut page = Page::new(rt.alloc());
    put_check(rt.alloc(), settings, &script(rt, steps), up_to, &mut page);
    same(rt, page.text.as_str(), text, "a check that rises");
}

// Before the failing run are the default run, three in which thread 2 goes on once thread 1 has ended, and one in which it does
// when thread 1 has sent.
const FAILS: &str =
    "bound 1\nfailed in run 6: an assertion of the body failed: replay its choices to see how the run came there\nreplay: t0 l0 t1 t2\nto see what happened: `Builder::explain`, or `runner::explain` for closures, with these choices\n";

// Up to which bound it is checked, and what that gives.
static FAILING: [(usize, &str); 3] = [
    (0, "bound 0\ncomplete: 1 run, none failed\n"),
    (1, FAILS),
    (2, FAILS),
];

fn rises_up_to_a_failure(rt: &(impl Abort + AllocGlobal)) {
    for (up_to, text) in &FAILING {
        rises(rt, WHOLE, asks_early(), *up_to, *text);
    }
}

const NO_THREADS: Settings = Settings {
    max_threads: 0,
    ..DEFAULTS
};

// How lock_beside is checked, up to which bound, and what that gives.
static BOUNDS: [(Settings, usize, &str); 7] = [
    (WHOLE, 0, "bound 0\ncomplete: 1 run, none failed\n"),
    (WHOLE, 1, "bound 1\ncomplete: 2 runs, none failed\n"),
    (WHOLE, 2, "bound 2\ncomplete: 3 runs, none failed\n"),
    (WHOLE, 255, "bound 255\ncomplete: 3 runs, none failed\n"),
    (
        TWO_RUNS,
        9,
        "bound 2\nstopped: `max_permutations` was reached after 2 runs\n",
    ),
    (DEFAULTS, 256, "PreemptionBound(256)\n"),
    (NO_THREADS, 256, "MaxThreads(0)\n"),
];

fn rises_while_checks_are_complete(rt: &(impl Abort + AllocGlobal)) {
    for (settings, up_to, text) in &BOUNDS {
        rises(rt, *settings, lock_beside(), *up_to, *text);
    }
}

// Puts on the page why the run of the script fails that follows the choices in this text.
fn put_replay_of(
    rt: &(impl Abort + AllocGlobal),
    steps: &'static [Step],
    text: &str,
    page: &mut Page,
) {
    let body = script(rt, steps);
    let choices = Choices::parse(rt.alloc(), text).expect(rt, "no choices");
    put_replay(rt.alloc(), &Builder::new(), &body, choices.as_slice(), page);
}

// The choices in the report.
fn choices_of(report: &str) -> &str {
    match report.split_once("replay: ") {
        Some((_, choices)) => first_line(choices),
        None => "",
    }
}

fn first_line(text: &str) -> &str {
    match text.split_once("\n") {
        Some((line, _)) => line,
        None => text,
    }
}

// The failure replays by its text.
fn replays(rt: &(impl Abort + AllocGlobal)) {
    let mut page = Page::new(rt.alloc());
    put_replay_of(rt, asks_early(), choices_of(FAILS), &mut page);
    let failed =
        "an assertion of the body failed: replay its choices to see how the run came there\n";
    same(rt, page.text.as_str(), failed, "a replay");
}

fn put_choices(choices: &Result<Choices, ChoicesError>, page: &mut Page) {
    match choices {
        Ok(choices) => page.put("", choices),
        Err(error) => page.put_debug(error),
    }
}

// The text is read as choices that are written so, or refused by this error.
fn is_read(rt: &(impl Abort + AllocGlobal), text: &str, again: &str) {
    let mut page = Page::new(rt.alloc());
    let choices = Choices::parse(rt.alloc(), text);
    put_choices(&choices, &mut page);
    same(rt, page.text.as_str(), again, text);
}

static TEXTS: [(&str, &str); 16] = [
    ("", "\n"),
    (" \t\n", "\n"),
    ("t0", "t0\n"),
    ("  t0 t-\n l1\ts0 s1\r\n", "t0 t- l1 s0 s1\n"),
    ("t4 l6", "t4 l6\n"),
    ("t", "NotAChoice(1)\n"),
    ("t0t1", "NotAChoice(1)\n"),
    ("t0 t12", "NotAChoice(2)\n"),
    ("t9 l0", "NotAChoice(1)\n"),
    ("t4 t5", "NotAChoice(2)\n"),
    ("l6 l7", "NotAChoice(2)\n"),
    ("t0 s2", "NotAChoice(2)\n"),
    ("t0 l- t1", "NotAChoice(2)\n"),
    ("T0", "NotAChoice(1)\n"),
    ("t0 t1 x", "NotAChoice(3)\n"),
    ("t0,t1", "NotAChoice(1)\n"),
];

fn texts_are_read(rt: &(impl Abort + AllocGlobal)) {
    for (text, again) in &TEXTS {
        is_read(rt, *text, *again);
    }
}

#[test]
fn the_bound_rises_and_choices_are_read(rt: HostRuntime) {
    rises_up_to_a_failure(&rt);
    rises_while_checks_are_complete(&rt);
    replays(&rt);
    texts_are_read(&rt);
}
