//! What the program prints of the rows that are closures.
use crate::closures::holds;
use crate::examples::closures::texts;
use loom::model::builder::Builder;
use loom::runner::Host;
use loom_examples::closures::rows::{ClosureRow, ROWS, named, run_row};
use loom_examples::closures::tasks::run_asked;
use loom_examples::rows::options::{Asked, read};
use std::io;
use std::process::Abort;
use std::rt::{Clock, Files};
use std::sync::Wait;
use std::test::Fail;
use std::thread::Threads;

/// Each row's line and status.
static LINES: [(&str, &str, u8); 13] = [
    (
        "two_mutexes_deadlock_closures",
        "failed 2 3 t1 t1 t2 t2 t-\n",
        1,
    ),
    ("fetch_add_atomic_closures", "complete 4\n", 0),
    ("three_adds_closures", "complete 12\n", 0),
    ("lock_beside_closures", "complete 3\n", 0),
    ("runner_ping_pong", "complete 1\n", 0),
    ("guard_left_closures", "failed 2 0 t0 t1 t-\n", 1),
    ("closure_deaf", "failed 1 0\n", 1),
    ("closure_stops", "failed 1 0\n", 1),
    ("closure_changes", "failed 20 1\n", 1),
    ("store_buffering_closures", "complete 30\n", 0),
    (
        "relaxed_ring_closures",
        "failed 3 0 t0 l0 t1 t1 t1 t1 l0 t0 t0 l1\n",
        1,
    ),
    ("treiber_stack_closures", "complete 13\n", 0),
    (
        "buggy_concurrent_inc_closures",
        "failed 1 0 t1 t1 l0 t1 t1 t0 t2 t2 l0 t2 t2 t0 t0 l1\n",
        1,
    ),
];

/// Whether the row prints this line and nothing besides, and has this status.
fn is_printed<R: AllocGlobal + Clock + Files + Threads + Wait + Clone + Send + 'static>(
    rt: &R,
    row: ClosureRow,
    file: Option<&str>,
    line: &str,
    status: u8,
) -> io::Result<bool> {
    let mut out = Vec::new(rt.alloc());
    let mut err = Vec::new(rt.alloc());
    let answer = run_row(rt, row, Builder::new(), file, &mut out, &mut err)?;
    Ok(answer == status && out.as_slice() == line.as_bytes() && err.is_empty())
}

/// The row of this name prints this line and nothing besides, and has this status.
fn prints<R: Abort + AllocGlobal + Clock + Files + Threads + Wait + Clone + Send + 'static>(
    rt: &R,
    name: &str,
    line: &str,
    status: u8,
) -> Result<(), Fail> {
    let Some((row, file)) = ClosureRow::meant_by(&[name]) else {
        panic!(rt; "no row {name}");
    };
    let is_printed = is_printed(rt, row, file, line, status)?;
    assert!(rt; is_printed, "{name}");
    Ok(())
}

/// Each row once.
fn print_all<R: Abort + AllocGlobal + Clock + Files + Threads + Wait + Clone + Send + 'static>(
    rt: &R,
) -> Result<(), Fail> {
    for (name, line, status) in &LINES {
        prints(rt, *name, *line, *status)?;
    }
    Ok(())
}

/// Each row a hundred times: threads of the host take turns in one order, however the host lets them go on.
#[test]
fn rows_print_the_same_a_hundred_times(rt: HostRuntime) -> Result<(), Fail> {
    holds(&rt, ROWS.len() == LINES.len());
    for _ in 0..100 {
        print_all(&rt)?;
    }
    Ok(())
}

/// The second of two words is the checkpoint file.
#[test]
fn words_that_mean_a_row(rt: HostRuntime) {
    let two = ClosureRow::meant_by(&["lock_beside_closures", "file"]);
    holds(
        &rt,
        matches!(two, Some((ClosureRow::LockBeside, Some("file")))),
    );
    let three = ClosureRow::meant_by(&["lock_beside_closures", "file", "more"]);
    holds(&rt, three.is_none());
    holds(&rt, ClosureRow::meant_by(&["lock_beside"]).is_none());
    holds(&rt, ClosureRow::meant_by(&[]).is_none());
}

/// What is printed where the first word behind `--replay` is no choice.
const NO_THREAD: &str =
    "usage: loom_rows NAME [FILE]\nerror: invalid value 't9 l0' for '--replay <CHOICES>': word 1 is no choice: a choice is `t0` to `t4` or `t-`, `l0` to `l6`, `s0` or `s1`, with a space between two\n\nFor the options try '--help', and for the names '--list'.\n";

const NO_SPLIT: &str =
    "usage: loom_rows NAME [FILE]\nerror: only the program shares a check out\n\nFor the options try '--help', and for the names '--list'.\n";

const ONE_COVERS: &str =
    "usage: loom_rows NAME [FILE]\nerror: one worker covers a row of closures\n\nFor the options try '--help', and for the names '--list'.\n";

const ONE_WALKS: &str =
    "usage: loom_rows NAME [FILE]\nerror: one worker walks through a row of closures\n\nFor the options try '--help', and for the names '--list'.\n";

const NO_SNAPSHOTS: &str =
    "usage: loom_rows NAME [FILE]\nerror: '--snapshots' isn't for rows of closures\n\nFor the options try '--help', and for the names '--list'.\n";

/// What words with options ask for, what is printed of it on standard output and on standard error, and the status. It is what is printed
/// of any other row.
struct Said {
    words: &'static [&'static str],
    out: &'static str,
    err: &'static str,
    status: u8,
}

static SAID: [Said; 28] = [
    Said {
        words: &["--explain", "relaxed_ring_closures"],
        out: texts::relaxed_ring_closures::TEXT,
        err: "",
        status: 1,
    },
    Said {
        words: &["--replay", "t9 l0", "lock_beside_closures"],
        out: "",
        err: NO_THREAD,
        status: 2,
    },
    Said {
        words: &["--shorten", "lock_beside_closures"],
        out: "complete 3\n",
        err: "",
        status: 0,
    },
    Said {
        words: &["--jobs", "2", "lock_beside_closures"],
        out: "complete 3\n",
        err: "",
        status: 0,
    },
    Said {
        words: &["--jobs", "3", "store_buffering_closures"],
        out: "complete 30\n",
        err: "",
        status: 0,
    },
    Said {
        words: &["--jobs", "2", "guard_left_closures"],
        out: "failed 2 0 t0 t1 t-\n",
        err: "",
        status: 1,
    },
    Said {
        words: &["--split", "parts", "4", "lock_beside_closures"],
        out: "",
        err: NO_SPLIT,
        status: 2,
    },
    Said {
        words: &["--rising", "two_mutexes_deadlock_closures"],
        out: "bound 1 failed 2 2 t1 t1 t2 t2 t-\n",
        err: "",
        status: 1,
    },
    Said {
        words: &["--recorded", "store_buffering_closures"],
        out: "complete 30\n",
        err: "",
        status: 0,
    },
    Said {
        words: &["--recorded", "--rising", "two_mutexes_deadlock_closures"],
        out: "bound 1 failed 2 2 t1 t1 t2 t2 t-\n",
        err: "",
        status: 1,
    },
    Said {
        words: &["--rising", "lock_beside_closures"],
        out: "bound 3 complete 3\n",
        err: "",
        status: 0,
    },
    Said {
        words: &["--cover", "lock_beside_closures"],
        out: "complete 1 met 2 states 6\n",
        err: "",
        status: 0,
    },
    Said {
        words: &["--cover", "store_buffering_closures"],
        out: "complete 4 met 14 states 32\n",
        err: "",
        status: 0,
    },
    Said {
        words: &["--cover", "two_mutexes_deadlock_closures"],
        out: "failed 2 1 t1 t1 t2 t2 t-\n",
        err: "",
        status: 1,
    },
    Said {
        words: &["--cover", "fetch_add_atomic_closures"],
        out: "complete 2 met 2 states 13\n",
        err: "",
        status: 0,
    },
    Said {
        words: &["--cover", "three_adds_closures"],
        out: "complete 90 met 649 states 1333\n",
        err: "",
        status: 0,
    },
    Said {
        words: &["--cover", "runner_ping_pong"],
        out: "complete 1 met 0 states 0\n",
        err: "",
        status: 0,
    },
    Said {
        words: &["--cover", "guard_left_closures"],
        out: "failed 2 0 t0 t1 t-\n",
        err: "",
        status: 1,
    },
    Said {
        words: &["--cover", "relaxed_ring_closures"],
        out: "failed 3 0 t0 l0 t1 t1 t1 t1 l0 t0 t0 l1\n",
        err: "",
        status: 1,
    },
    Said {
        words: &["--cover", "buggy_concurrent_inc_closures"],
        out: "failed 1 0 t1 t1 l0 t1 t1 t0 t2 t2 l0 t2 t2 t0 t0 l1\n",
        err: "",
        status: 1,
    },
    Said {
        words: &["--cover", "--jobs", "2", "lock_beside_closures"],
        out: "",
        err: ONE_COVERS,
        status: 2,
    },
    Said {
        words: &["--cover", "--snapshots", "lock_beside_closures"],
        out: "",
        err: NO_SNAPSHOTS,
        status: 2,
    },
    Said {
        words: &["--json", "lock_beside_closures"],
        out: "{\"result\":\"complete\",\"row\":\"lock_beside_closures\",\"runs\":3}\n",
        err: "",
        status: 0,
    },
    Said {
        words: &["--json", "--rising", "two_mutexes_deadlock_closures"],
        out: "{\"bound\":1,\"cause\":\"no thread can run, and some have not ended: see what each of these waits for, and who was to let it go on\",\"choices\":\"t1 t1 t2 t2 t-\",\"failure\":2,\"result\":\"failed\",\"row\":\"two_mutexes_deadlock_closures\",\"runs\":2}\n",
        err: "",
        status: 1,
    },
    Said {
        words: &[
            "--json",
            "--replay",
            "t1 t1 t2 t2 t-",
            "two_mutexes_deadlock_closures",
        ],
        out: "{\"cause\":\"no thread can run, and some have not ended: see what each of these waits for, and who was to let it go on\",\"choices\":\"t1 t1 t2 t2 t-\",\"failure\":2,\"result\":\"failed\",\"row\":\"two_mutexes_deadlock_closures\"}\n",
        err: "",
        status: 1,
    },
    Said {
        words: &["--walk", "1", "100", "store_buffering_closures"],
        out: "walked 100 0 different 37\n",
        err: "",
        status: 0,
    },
    Said {
        words: &[
            "--walk",
            "1",
            "100",
            "--jobs",
            "2",
            "store_buffering_closures",
        ],
        out: "",
        err: ONE_WALKS,
        status: 2,
    },
    Said {
        words: &["--walk", "1", "100", "--walk-depth", "3", "closure_stops"],
        out: "failed 1 0 0\n",
        err: "",
        status: 1,
    },
];

/// Whether the words come to that.
fn is_said<R: Host + Clock + Sync>(rt: &R, said: &Said) -> io::Result<bool> {
    let mut out = Vec::new(rt.alloc());
    let mut err = Vec::new(rt.alloc());
    let status = match read(rt.alloc(), said.words) {
        Ok(Asked::Row(asked)) if let Some(row) = named(asked.name) => {
            let log = None::<HostRuntime>;
            run_asked(rt, &log, row, Builder::new(), asked, &mut out, &mut err)?
        }
        _ => return Ok(false),
    };
    Ok(
        status == said.status
            && out.as_slice() == said.out.as_bytes()
            && err.as_slice() == said.err.as_bytes(),
    )
}

/// A row of closures takes the options that any other row takes, but `--cover` and `--walk` beside `--jobs`. By `--cover` it prints what the body of the
/// same name does.
#[test]
fn rows_take_all_options(rt: HostRuntime) -> Result<(), Fail> {
    for said in &SAID {
        let is_said = is_said(&rt, said)?;
        assert!(rt; is_said, "{}", said.out);
    }
    Ok(())
}
