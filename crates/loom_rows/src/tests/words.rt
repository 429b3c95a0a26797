//! What the program does with words.
use crate::tests::asserting::holds;
use crate::tests::pens::{Pen, Printed, is_printed};
use loom_examples::rows::words::run_words;
use std::process::Abort;
use std::rt::{Clock, Files};

// Words of the program, and what they print.
struct Said {
    words: &'static [&'static str],
    printed: Printed<'static>,
}

// What is printed on standard output, on standard error, and the status.
macro_rules! said {
    ($words:expr, $out:expr, $err:expr, $status:expr) => {
        Said {
            words: $words,
            printed: Printed {
                out: $out,
                goes_on: false,
                err: $err,
                status: $status,
            },
        }
    };
}

// What standard output begins with, and the status.
macro_rules! begins {
    ($words:expr, $out:expr, $status:expr) => {
        Said {
            words: $words,
            printed: Printed {
                out: $out,
                goes_on: true,
                err: "",
                status: $status,
            },
        }
    };
}

// What is printed on standard error where the words are wrong.
macro_rules! usage {
    ($cause:expr) => {
        concat!(
            "usage: loom_rows NAME [FILE]\nerror: ",
            $cause,
            "\n\nFor the options try '--help', and for the names '--list'.\n"
        )
    };
}

const NO_NAME: &str = usage!("the following required arguments were not provided:\n  <NAME>");

const NO_SUCH_ROW: &str = usage!(
    "no row is called 'lock_besides'\n\n  tip: the nearest name is 'lock_beside'"
);

const REFUSED: &str = usage!(
    "invalid value 'x' for '--replay <CHOICES>': word 1 is no choice: a choice is `t0` to `t4` or `t-`, `l0` to `l6`, `s0` or `s1`, with a space between two"
);

const NO_THREAD: &str = usage!(
    "invalid value 't9 l0' for '--replay <CHOICES>': word 1 is no choice: a choice is `t0` to `t4` or `t-`, `l0` to `l6`, `s0` or `s1`, with a space between two"
);

const NO_SLOT: &str = usage!(
    "invalid value 't4 l7' for '--replay <CHOICES>': word 2 is no choice: a choice is `t0` to `t4` or `t-`, `l0` to `l6`, `s0` or `s1`, with a space between two"
);

static WORDS: [Said; 11] = [
    // Few preemptions come first.
    said!(
        &["--rising", "two_mutexes_deadlock"],
        "bound 1 failed 2 2 t1 t1 t2 t2 t-\n",
        "",
        1
    ),
    said!(&["--rising", "lock_beside"], "bound 3 complete 3\n", "", 0),
    // A failure is explained behind its line.
    said!(&["--explain", "lock_beside"], "complete 3\n", "", 0),
    begins!(
        &["--explain", "two_mutexes_deadlock"],
        "failed 2 3 t1 t1 t2 t2 t-\n",
        1
    ),
    said!(&["--replay", "x", "finish_only"], "", REFUSED, 2),
    said!(&["--replay", "t9 l0", "lock_beside"], "", NO_THREAD, 2),
    said!(&["--replay=t4 l7", "lock_beside"], "", NO_SLOT, 2),
    begins!(&["--help"], "Checks the body that is called NAME", 0),
    begins!(&["-h"], "Checks the body that is called NAME", 0),
    said!(&["--", "lock_beside"], "complete 3\n", "", 0),
    begins!(&["--list"], "finish_only\nspawn_only\nlock_beside\n", 0),
];

// Wrong words, and why they are refused.
static WRONG: [Said; 17] = [
    said!(&[], "", NO_NAME, 2),
    said!(&["lock_besides"], "", NO_SUCH_ROW, 2),
    said!(&[""], "", usage!("no row is called ''"), 2),
    said!(&["-"], "", usage!("no row is called '-'"), 2),
    said!(
        &["no_such_row", "lock_beside", "lock_beside"],
        "",
        usage!("unexpected argument 'lock_beside' found"),
        2
    ),
    said!(&["--rising"], "", NO_NAME, 2),
    said!(&["--rising", "lock_besides"], "", NO_SUCH_ROW, 2),
    said!(
        &["--rising", "lock_beside", "file"],
        "",
        usage!("the argument '--rising' cannot be used with '[FILE]'"),
        2
    ),
    said!(
        &["--xyz", "lock_beside"],
        "",
        usage!(
            "unexpected argument '--xyz' found\n\n  tip: to pass '--xyz' as a value, use '-- --xyz'"
        ),
        2
    ),
    said!(
        &["--no-reduc", "lock_beside"],
        "",
        usage!(
            "unexpected argument '--no-reduc' found\n\n  tip: a similar argument exists: '--no-reduce'"
        ),
        2
    ),
    said!(
        &["lock_beside", "--jsn"],
        "",
        usage!("unexpected argument '--jsn' found\n\n  tip: a similar argument exists: '--json'"),
        2
    ),
    said!(
        &["--explain", "--help"],
        "",
        usage!(
            "the argument '--help' cannot be used with one or more of the other specified arguments"
        ),
        2
    ),
    said!(
        &["--max-steps", "x", "lock_beside"],
        "",
        usage!("invalid value 'x' for '--max-steps <N>': invalid digit found in string"),
        2
    ),
    said!(
        &["--json", "--explain", "lock_beside"],
        "",
        usage!("the argument '--json' cannot be used with '--explain'"),
        2
    ),
    said!(
        &["--list", "lock_beside"],
        "",
        usage!(
            "the argument '--list' cannot be used with one or more of the other specified arguments"
        ),
        2
    ),
    said!(
        &["--recorded", "lock_beside"],
        "",
        usage!("'--recorded' is for rows of closures"),
        2
    ),
    said!(
        &["--json", "two_mutexes_deadlock_closures"],
        "",
        usage!(
            "'two_mutexes_deadlock_closures' is a row of closures, which doesn't take these words"
        ),
        2
    ),
];

// A setting of the command line takes the place of the row's own.
static SETTINGS: [Said; 11] = [
    said!(
        &["--no-reduce", "lock_beside_reduced"],
        "complete 3\n",
        "",
        0
    ),
    said!(&["lock_beside", "--reduce"], "complete 1\n", "", 0),
    said!(
        &["--preemption-bound", "1", "store_buffering"],
        "complete 8\n",
        "",
        0
    ),
    said!(
        &["--max-branches", "3", "lock_beside"],
        "failed 9 0 t0 t1 t1\n",
        "",
        1
    ),
    said!(
        &["--max-permutations=2", "lock_beside"],
        "stopped 2\n",
        "",
        0
    ),
    said!(
        &["--max-threads", "1", "lock_beside"],
        "failed 8 0\n",
        "",
        1
    ),
    said!(&["--max-steps", "2", "lock_beside"], "failed 12 0\n", "", 1),
    said!(
        &["--checkpoint-interval", "0", "lock_beside"],
        "",
        "error 4\n`checkpoint_interval` is 0: set it to 1 or more, as 20000\n",
        2
    ),
    said!(
        &["--max-duration", "0", "lock_beside"],
        "stopped 0\n",
        "",
        0
    ),
    said!(
        &["--max-duration", "1000", "two_mutexes_deadlock"],
        "failed 2 3 t1 t1 t2 t2 t-\n",
        "",
        1
    ),
    said!(
        &["--explicit-explore", "lock_beside"],
        "complete 1\n",
        "",
        0
    ),
];

// A report as one JSON object.
static OBJECTS: [Said; 4] = [
    said!(
        &["--json", "lock_beside"],
        "{\"result\":\"complete\",\"row\":\"lock_beside\",\"runs\":3}\n",
        "",
        0
    ),
    said!(
        &["--json", "lock_beside_two"],
        "{\"limit\":\"max_permutations\",\"result\":\"stopped\",\"row\":\"lock_beside_two\",\"runs\":2}\n",
        "",
        0
    ),
    said!(
        &["--json", "--rising", "two_mutexes_deadlock"],
        "{\"bound\":1,\"cause\":\"no thread can run, and some have not ended: see what each of these waits for, and who was to let it go on\",\"choices\":\"t1 t1 t2 t2 t-\",\"failure\":2,\"result\":\"failed\",\"row\":\"two_mutexes_deadlock\",\"runs\":2}\n",
        "",
        1
    ),
    said!(
        &["--json", "--replay", "", "finish_only"],
        "{\"choices\":\"t-\",\"result\":\"ended\",\"row\":\"finish_only\",\"value\":7}\n",
        "",
        0
    ),
];

// Checks that remember states, of which none begins here, and words that don't go with them.
static COVERED: [Said; 8] = [
    said!(
        &["--cover", "--max-duration", "0", "lock_beside"],
        "stopped 0 met 0 states 0\n",
        "",
        0
    ),
    said!(
        &["--cover", "--json", "--max-duration", "0", "lock_beside"],
        "{\"limit\":\"max_duration\",\"met\":0,\"result\":\"stopped\",\"row\":\"lock_beside\",\"runs\":0,\"states\":0}\n",
        "",
        0
    ),
    said!(
        &["--states", "3", "lock_beside"],
        "",
        usage!("the following required arguments were not provided:\n  --cover"),
        2
    ),
    said!(
        &[
            "--cover",
            "--snapshots",
            "--max-duration",
            "0",
            "lock_beside"
        ],
        "stopped 0 met 0 states 0\n",
        "",
        0
    ),
    said!(
        &["--snapshots", "lock_beside"],
        "",
        usage!("the following required arguments were not provided:\n  --cover"),
        2
    ),
    said!(
        &["--cover", "--snapshots", "--jobs", "2", "lock_beside"],
        "",
        usage!("the argument '--snapshots' cannot be used with '--jobs <N>'"),
        2
    ),
    said!(
        &[
            "--cover",
            "--snapshots",
            "--split",
            "parts",
            "2",
            "lock_beside"
        ],
        "",
        usage!("the argument '--snapshots' cannot be used with '--split <DIR> <N>'"),
        2
    ),
    said!(
        &["--cover", "two_mutexes_deadlock_closures"],
        "",
        usage!(
            "'two_mutexes_deadlock_closures' is a row of closures, which doesn't take these words"
        ),
        2
    ),
];

// Choices are replayed. Where no run makes one, or it is left over at the end, the run fails behind those before it.
static REPLAYS: [Said; 8] = [
    said!(
        &["--replay", "t1 t1 t2 t2 t-", "two_mutexes_deadlock"],
        "failed 2 t1 t1 t2 t2 t-\n",
        "",
        1
    ),
    said!(&["--replay", "", "finish_only"], "ended t-\n", "", 0),
    said!(
        &["--replay", "t1 t1 t1", "lock_beside_reduced"],
        "failed 20 t1 t1\n",
        "",
        1
    ),
    said!(
        &["--replay", "t1 t2", "lock_beside_reduced"],
        "failed 20 t1\n",
        "",
        1
    ),
    said!(
        &["--replay", "l0", "lock_beside_reduced"],
        "failed 20\n",
        "",
        1
    ),
    said!(
        &["--replay", "t0 t1 t1 t- t-", "lock_beside_reduced"],
        "failed 20 t0 t1 t1 t-\n",
        "",
        1
    ),
    // No thread adds to the number that another one has added to. It adds to the sum.
    said!(
        &["--replay", "t1 t1 t1 l1 t1 t0 t0 l1 t0 l1 t0 t-", "two_rmw"],
        "failed 20 t1 t1 t1 l1 t1 t0 t0 l1 t0\n",
        "",
        1
    ),
    said!(
        &[
            "--json",
            "--replay",
            "t1 t1 t1 l1 t1 t0 t0 l1 t0 l2 t0 t-",
            "two_rmw"
        ],
        "{\"choices\":\"t1 t1 t1 l1 t1 t0 t0 l1 t0 l2 t0 t-\",\"result\":\"ended\",\"row\":\"two_rmw\",\"value\":21}\n",
        "",
        0
    ),
];

// What tests call the words: the last one, which mostly names a row.
fn name_of<'a>(words: &[&'a str]) -> &'a str {
    match words {
        [.., last] => *last,
        [] => "no word",
    }
}

/// The words print this.
pub fn says(rt: &(impl Abort + AllocGlobal + Clock + Files), words: &[&str], printed: &Printed) {
    let mut out = Pen::new(rt.alloc());
    let mut err = Pen::new(rt.alloc());
    let status = run_words(rt, words, &mut out, &mut err);
    let is_so = is_printed(&out, &err, status, printed);
    holds(rt, is_so, name_of(words));
}

fn say(rt: &(impl Abort + AllocGlobal + Clock + Files), table: &'static [Said]) {
    for said in table {
        says(rt, said.words, &said.printed);
    }
}

#[test]
fn words_print_these_texts(rt: HostRuntime) {
    say(&rt, &WORDS);
    say(&rt, &REPLAYS);
}

#[test]
fn wrong_words_are_refused_with_the_nearest_name(rt: HostRuntime) {
    say(&rt, &WRONG);
}

#[test]
fn options_set_what_they_name(rt: HostRuntime) {
    say(&rt, &SETTINGS);
    say(&rt, &OBJECTS);
    say(&rt, &COVERED);
}
