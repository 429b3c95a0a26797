//! The program with a checkpoint file.
use super::TWO_NODES;
use crate::tests::asserting::holds;
use crate::tests::pens::{Pen, Printed, is_printed};
use crate::tests::rows::program_rows;
use crate::tests::words::says;
use loom_examples::rows::{self, Row};
use std::process::Abort;
use std::rt::Files;
use std::{fs, io};

const FILE: &str = "loom_tests.json";

// The words after the program's name, what it prints, what it writes on standard error, and its status.
static CALLS: [Call; 9] = [
    (&["lock_beside_two", FILE], "stopped 2\n", "", 0),
    (&["lock_beside_reduced", FILE], "", OTHER_SETTINGS, 2),
    (&["stop_exploring", FILE], "failed 20 0\n", "", 1),
    (&["stop_exploring_twice", FILE], "failed 19 0\n", "", 1),
    (&["lock_beside_two", FILE], "complete 1\n", "", 0),
    (&["lock_beside", FILE], "complete 1\n", "", 0),
    (
        &["lock_beside_two", FILE, FILE],
        "",
        "usage: loom_rows NAME [FILE]\nerror: unexpected argument 'loom_tests.json' found\n\nFor the options try '--help', and for the names '--list'.\n",
        2,
    ),
    (
        &["lock_beside_two", "."],
        "",
        "error 13\n.: the checkpoint could not be read or saved: see that its file may be read and written, and that the disk has room\n",
        2,
    ),
    (
        &["lock_beside_two", "no_such_folder/file"],
        "",
        "error 13\nno_such_folder/file: the checkpoint could not be read or saved: see that its file may be read and written, and that the disk has room\n",
        2,
    ),
];

// The file, what is wrong with it, and that it is as it was.
const OTHER_SETTINGS: &str =
    "error 10\nloom_tests.json: the checkpoint was written with another `reduce`: go on with the same one, or delete it and begin anew. No run was made, and the file is as it was.\n";

type Call = (&'static [&'static str], &'static str, &'static str, u8);

// Whether the words print this line, or write this error, and give this status.
fn prints(rt: &(impl AllocGlobal + Files), rows: &[Row], call: &'static Call) -> bool {
    let (words, line, error, status) = call;
    let mut out = Pen::new(rt.alloc());
    let mut err = Pen::new(rt.alloc());
    let answer = rows::run_row(rt, rows, *words, &mut out, &mut err);
    let printed = Printed {
        out: *line,
        goes_on: false,
        err: *error,
        status: *status,
    };
    is_printed(&out, &err, answer, &printed)
}

// Whether the file has the text of two nodes: only a stop is saved, and here each is after the second run.
fn is_saved(rt: &(impl AllocGlobal + Files)) -> bool {
    let text = fs::read_to_string(rt, FILE);
    has_two_nodes(&text)
}

fn has_two_nodes(text: &io::Result<String>) -> bool {
    match text {
        Ok(text) => text.as_str() == TWO_NODES,
        Err(_) => false,
    }
}

// Whether the file was there, which isn't any more.
fn is_removed(rt: &impl Files, file: &str) -> bool {
    fs::remove_file(rt, file).is_ok()
}

fn calls_print(rt: &(impl Abort + AllocGlobal + Files), rows: &[Row]) {
    for call in &CALLS {
        holds(rt, prints(rt, rows, call), call.1);
        holds(rt, is_saved(rt), "the file has two nodes");
    }
}

#[test]
fn the_program_goes_on(rt: HostRuntime) {
    is_removed(&rt, FILE);
    calls_print(&rt, program_rows(&rt).as_slice());
    holds(&rt, is_removed(&rt, FILE), "the file is there");
}

const COVERED: &str = "loom_covered.json";

// A check that remembers states goes on from a file, with snapshots or without. A plain check refuses it.
static COVERS: [Call; 4] = [
    (
        &["--cover", "--max-permutations", "1", "lock_beside", COVERED],
        "stopped 1 met 0 states 4\n",
        "",
        0,
    ),
    (&["lock_beside", COVERED], "", OTHER_SEARCH, 2),
    (
        &["--cover", "--snapshots", "lock_beside", COVERED],
        "complete 1 met 1 states 4\n",
        "",
        0,
    ),
    (
        &["--cover", "lock_beside", COVERED],
        "complete 1 met 1 states 4\n",
        "",
        0,
    ),
];

const OTHER_SEARCH: &str =
    "error 8\nloom_covered.json: the checkpoint is JSON, but no path of a check: go on with a list of parts by several workers, name another file, or delete it and begin anew. No run was made, and the file is as it was.\n";

#[test]
fn covering_goes_on(rt: HostRuntime) {
    is_removed(&rt, COVERED);
    for (words, line, error, status) in &COVERS {
        let printed = Printed {
            out: *line,
            goes_on: false,
            err: *error,
            status: *status,
        };
        says(&rt, *words, &printed);
    }
    holds(&rt, is_removed(&rt, COVERED), "the file is there");
}
