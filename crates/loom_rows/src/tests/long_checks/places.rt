//! A failure has the place of its operation where it is asked for.
use crate::tests::asserting::{same, script};
use loom::model::builder::Builder;
use loom::model::error::CheckError;
use loom::model::{Replay, Report};
use loom::{Choice, Label, Location, text_literal};
use loom_examples::scripts::script::Script;
use loom_examples::scripts::step::{Step, Value};
use loom_objects::operation::{MutexOp, Request, ThreadOp};
use loom_tests::page::Page;
use std::alloc::Global;
use std::process::Abort;
use std::rt::Files;

const LINE_3: Label = Label {
    name: Some(text_literal!(b"list")),
    location: Some(Location {
        file: text_literal!(b"body.rs"),
        line: 3,
    }),
};

const LINE_5: Label = Label {
    name: None,
    location: Some(Location {
        file: text_literal!(b"body.rs"),
        line: 5,
    }),
};

const LINE_7: Label = Label {
    name: None,
    location: Some(Location {
        file: text_literal!(b"body.rs"),
        line: 7,
    }),
};

// Main releases a mutex that nobody has locked.
const RELEASE_UNLOCKED: &[Step] = &[
    Step::Labelled(0, Request::Mutex(MutexOp::New(Value::Plain(0))), LINE_3),
    Step::Labelled(
        0,
        Request::Mutex(MutexOp::Release(0, Value::Plain(0))),
        LINE_7,
    ),
];

// The one before, but the release has no place.
const RELEASE_NOWHERE: &[Step] = &[
    Step::Labelled(0, Request::Mutex(MutexOp::New(Value::Plain(0))), LINE_3),
    Step::Do(0, Request::Mutex(MutexOp::Release(0, Value::Plain(0)))),
];

// A thread fails, once main has waited for it.
const CHILD_FAILS: &[Step] = &[
    Step::Labelled(0, Request::Thread(ThreadOp::Spawn(2, None)), LINE_3),
    Step::Labelled(0, Request::Thread(ThreadOp::Join(0, 0)), LINE_3),
    Step::Labelled(0, Request::Fail, LINE_5),
];

// Puts on the page why the run fails that follows these choices.
pub(super) fn put_replay(
    alloc: Global,
    builder: &Builder,
    body: &Script,
    choices: &[Choice],
    page: &mut Page,
) {
    let replay = builder.replay(alloc, body, choices);
    put_failure(&replay, page);
}

fn put_failure(replay: &Result<Replay<u64>, CheckError>, page: &mut Page) {
    if let Ok(Replay::Failed { failure, .. }) = replay {
        page.put("", failure);
    }
}

// Puts on the page why the check fails, and why the replay of its choices does.
fn put_failures(
    rt: &(impl AllocGlobal + Files),
    builder: &Builder,
    body: &Script,
    page: &mut Page,
) {
    let found = builder.check(rt, rt.alloc(), body);
    put_both(rt.alloc(), builder, body, &found, page);
}

fn put_both(
    alloc: Global,
    builder: &Builder,
    body: &Script,
    found: &Result<Report, CheckError>,
    page: &mut Page,
) {
    if let Ok(
        Report::Failed {
            failure,
            choices,
            ..
        },
    ) = found
    {
        page.put("", failure);
        put_replay(alloc, builder, body, choices.as_slice(), page);
    }
}

// The text, as the check and the replay give it.
macro_rules! twice {
    ($text:literal) => {
        concat!($text, "\n", $text, "\n")
    };
}

const MISUSED: &str = twice!(
    "an operation was misused: its object isn't there or was taken out, or its thread may not do this to it now"
);

const FAILED: &str = twice!(
    "an assertion of the body failed: replay its choices to see how the run came there"
);

const MISUSED_AT_7: &str = twice!(
    "body.rs:7: an operation was misused: its object isn't there or was taken out, or its thread may not do this to it now"
);

const FAILED_AT_5: &str = twice!(
    "body.rs:5: an assertion of the body failed: replay its choices to see how the run came there"
);

fn builder_of(location: bool) -> Builder {
    let mut builder = Builder::new();
    builder.location = location;
    builder
}

// A check of the body that asks for places or doesn't fails by this text, and so does the replay.
fn fails(
    rt: &(impl Abort + AllocGlobal + Files),
    location: bool,
    steps: &'static [Step],
    text: &str,
) {
    let mut page = Page::new(rt.alloc());
    put_failures(rt, &builder_of(location), &script(rt, steps), &mut page);
    same(rt, page.text.as_str(), text, "a failure");
}

// The steps fail with these texts, where places are asked for, and where they aren't.
fn fail_both(
    rt: &(impl Abort + AllocGlobal + Files),
    steps: &'static [Step],
    placed: &str,
    bare: &str,
) {
    fails(rt, true, steps, placed);
    fails(rt, false, steps, bare);
}

// A constant of labelled steps is large, so each is named by one function alone.
fn release_unlocked() -> &'static [Step] {
    RELEASE_UNLOCKED
}

fn release_nowhere() -> &'static [Step] {
    RELEASE_NOWHERE
}

fn child_fails() -> &'static [Step] {
    CHILD_FAILS
}

#[test]
fn a_failure_has_its_place(rt: HostRuntime) {
    fail_both(&rt, release_unlocked(), MISUSED_AT_7, MISUSED);
    fail_both(&rt, release_nowhere(), MISUSED, MISUSED);
    fail_both(&rt, child_fails(), FAILED_AT_5, FAILED);
}
