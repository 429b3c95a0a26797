//! What is printed of rows that aren't checked as they are.
use super::printed::long_line;
use super::rows::rows_of;
use crate::tests::asserting::holds;
use crate::tests::pens::{Pen, Printed, is_printed};
use loom::Choice;
use loom_examples::rows::settings::Settings;
use loom_examples::rows::tasks::{Task, do_task};
use loom_examples::rows::{DEFAULTS, LONG_RUNS, Row, row_of};
use std::process::Abort;
use std::rt::Files;

// Two settings are out of range besides the one that is named first.
const REFUSED: Settings = Settings {
    preemption_bound: Some(256),
    max_steps: 0,
    ..DEFAULTS
};

// Settings that are refused, and what is printed on standard error: the error, and why.
static SETTINGS: [(Settings, &str); 6] = [
    (
        Settings {
            max_threads: 0,
            ..REFUSED
        },
        "error 1\n`max_threads` is 0: set it to 1 to 5, which counts main\n",
    ),
    (
        Settings {
            max_threads: 6,
            ..REFUSED
        },
        "error 1\n`max_threads` is 6: set it to 1 to 5, which counts main\n",
    ),
    (
        Settings {
            max_branches: 0,
            ..REFUSED
        },
        "error 2\n`max_branches` is 0: set it to 1 to 1000000\n",
    ),
    (
        Settings {
            max_branches: 1_000_001,
            ..REFUSED
        },
        "error 2\n`max_branches` is 1000001: set it to 1 to 1000000\n",
    ),
    (
        REFUSED,
        "error 3\n`preemption_bound` is 256: set it to 0 to 255, or set none\n",
    ),
    (
        Settings {
            max_steps: 0,
            ..DEFAULTS
        },
        "error 5\n`max_steps` is 0: set it to 1 or more, as 1000000\n",
    ),
];

const LONG_AND_WHOLE: Settings = Settings {
    reduce: false,
    ..LONG_RUNS
};

// What is done with the row of this name, by these settings, prints this.
fn does(
    rt: &(impl Abort + AllocGlobal + Files),
    name: &str,
    settings: Settings,
    task: Task,
    printed: &Printed,
) {
    let rows = rows_of(rt);
    let is_so = match row_of(rows.as_slice(), name) {
        Some(found) => prints(rt, &Row { settings, ..*found }, task, printed),
        None => false,
    };
    holds(rt, is_so, name);
}

fn prints(rt: &(impl AllocGlobal + Files), row: &Row, task: Task, printed: &Printed) -> bool {
    let mut out = Pen::new(rt.alloc());
    let mut err = Pen::new(rt.alloc());
    match do_task(rt, row, task, false, None, &mut out, &mut err) {
        Ok(status) => is_printed(&out, &err, status, printed),
        Err(_) => false,
    }
}

// The settings are refused by these lines.
fn refuses(rt: &(impl Abort + AllocGlobal + Files), settings: Settings, lines: &str) {
    let printed = Printed {
        out: "",
        goes_on: false,
        err: lines,
        status: 2,
    };
    does(rt, "lock_beside", settings, Task::Check, &printed);
}

fn settings_are_refused(rt: &(impl Abort + AllocGlobal + Files)) {
    for (settings, line) in &SETTINGS {
        refuses(rt, *settings, *line);
    }
}

// This prints the line alone, with this status.
fn ends(
    rt: &(impl Abort + AllocGlobal + Files),
    name: &str,
    settings: Settings,
    task: Task,
    line: &str,
    status: u8,
) {
    let printed = Printed {
        out: line,
        goes_on: false,
        err: "",
        status,
    };
    does(rt, name, settings, task, &printed);
}

// A failure that is replayed by these choices keeps its kind.
fn fails_again(rt: &(impl Abort + AllocGlobal + Files), choices: &[Choice]) {
    let task = Task::Replay(choices);
    ends(rt, "fail after a lock", DEFAULTS, task, "failed 1 t0\n", 1);
}

#[test]
fn settings_are_refused_and_a_failure_keeps_its_kind(rt: HostRuntime) {
    settings_are_refused(&rt);
    fails_again(&rt, &[Choice::Thread(Some(0))]);
    fails_again(&rt, &[]);
}

fn accesses_are_counted(rt: &(impl Abort + AllocGlobal + Files)) {
    let line = long_line(rt.alloc(), "failed 10 0", 65_535, 0, "\n");
    let text = line.text.as_str();
    ends(rt, "too_many_locks", LONG_AND_WHOLE, Task::Check, text, 1);
}

fn as_many_stores_as_may_be(rt: &(impl Abort + AllocGlobal + Files)) {
    let line = long_line(rt.alloc(), "ended", 40_000, 25_536, " t-\n");
    let task = Task::Replay(&[]);
    ends(rt, "most stores", LONG_RUNS, task, line.text.as_str(), 0);
}

#[test]
fn runs_are_as_long_as_may_be(rt: HostRuntime) {
    accesses_are_counted(&rt);
    as_many_stores_as_may_be(&rt);
}
