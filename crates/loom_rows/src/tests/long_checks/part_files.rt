//! The program's checks in parts: by several workers, with the list of parts in their file, and in a folder of files, one for each part.
use crate::tests::asserting::{holds, same};
use crate::tests::pens::Pen;
use loom::runner::Host;
use loom_examples::rows::options::{Asked, RowAsked, read};
use loom_examples::rows::words::run_asked;
use loom_examples::rows::{jobs, shares};
use loom_tests::page::Page;
use std::fs::{self, File};
use std::io;
use std::process::Abort;
use std::rt::{Clock, Files};

/// What the program runs in, here a test.
trait Process: Abort + Host + Files<File = File> + Clock + Sync {}

impl<R: Abort + Host + Files<File = File> + Clock + Sync> Process for R {}

// Words, and what is printed of them: on standard output, on standard error, and the status.
type Call = (&'static [&'static str], &'static str);

// What the program does with a row, alone or shared out.
fn run(rt: &impl Process, asked: RowAsked, out: &mut Pen, err: &mut Pen) -> io::Result<u8> {
    if let Some(share) = asked.share {
        return shares::do_share(rt, share, asked, out, err);
    }
    match asked.jobs {
        Some(count) => jobs::check_row(rt, asked, count, out, err),
        None => run_asked(rt, &None::<HostRuntime>, asked, out, err),
    }
}

fn written(pen: &Pen) -> &str {
    str::from_utf8(pen.text.as_slice()).unwrap_or("no text")
}

fn answer(rt: &impl Process, words: &[&str]) -> Page {
    let mut out = Pen::new(rt.alloc());
    let mut err = Pen::new(rt.alloc());
    let status = match read(rt.alloc(), words) {
        Ok(Asked::Row(asked)) => run(rt, asked, &mut out, &mut err).unwrap_or(2),
        Ok(Asked::List | Asked::Tour | Asked::Measure(_)) | Err(_) => 2,
    };
    let mut page = Page::of(rt.alloc(), &[written(&out), written(&err)]);
    page.add_number("status ", u64::from(status));
    page
}

fn prints(rt: &impl Process, words: &[&str], text: &str) {
    let page = answer(rt, words);
    same(rt, page.text.as_str(), text, "the program");
}

const FILE: &str = "loom_tests_jobs.json";

const REFUSED: &str =
    "error 8\nloom_tests_jobs.json: the checkpoint is JSON, but no path of a check: go on with a list of parts by several workers, name another file, or delete it and begin anew. No run was made, and the file is as it was.\nstatus 2";

// A list is kept in the file. A plain check refuses it, and workers go on with it.
static LISTED: [Call; 3] = [
    (
        &[
            "--jobs",
            "1",
            "--max-permutations",
            "1",
            "lock_beside",
            FILE,
        ],
        "stopped 1\nstatus 0",
    ),
    (&["lock_beside", FILE], REFUSED),
    (
        &["--jobs", "1", "lock_beside", FILE],
        "complete 2\nstatus 0",
    ),
];

// A plain check's file is as good as a list. Without a file workers find what a plain check does.
static PLAIN: [Call; 4] = [
    (&["lock_beside_two", FILE], "stopped 2\nstatus 0"),
    (
        &["--jobs", "1", "lock_beside", FILE],
        "complete 1\nstatus 0",
    ),
    (&["--jobs", "2", "store_buffering"], "complete 30\nstatus 0"),
    (&["store_buffering"], "complete 30\nstatus 0"),
];

fn calls_print(rt: &impl Process, calls: &[Call]) {
    for (words, text) in calls {
        prints(rt, *words, *text);
    }
}

#[test]
fn workers_go_on_with_a_file(rt: HostRuntime) {
    let _ = fs::remove_file(&rt, FILE);
    calls_print(&rt, &LISTED);
    holds(&rt, fs::remove_file(&rt, FILE).is_ok(), "a list is kept");
    calls_print(&rt, &PLAIN);
    holds(&rt, fs::remove_file(&rt, FILE).is_ok(), "a path is kept");
    let page = answer(&rt, &["--cover", "--jobs", "2", "store_buffering"]);
    holds(&rt, is_covered(&page), "workers cover");
}

const FOLDER: &str = "loom_tests_parts";

// The words that split a check, those of the plain one, and what that finds.
struct Split {
    words: &'static [&'static str],
    plain: &'static [&'static str],
    finds: &'static str,
}

static SPLITS: [Split; 2] = [
    Split {
        words: &["--split", FOLDER, "4", "store_buffering"],
        plain: &["store_buffering"],
        finds: "complete 30\nstatus 0",
    },
    Split {
        words: &["--split", FOLDER, "4", "--no-reduce", "store_buffering"],
        plain: &["--no-reduce", "store_buffering"],
        finds: "complete 48\nstatus 0",
    },
];

// So many rounds are enough, of which each works on all parts.
const ROUNDS: u32 = 50;

// What is printed where another process has the part, or gathers.
macro_rules! refused {
    ($cause:expr) => {
        concat!(
            "usage: loom_rows NAME [FILE]\nerror: ",
            $cause,
            "\n\nFor the options try '--help', and for the names '--list'.\nstatus 2"
        )
    };
}

// The numbers of the open parts, each in a line.
fn open_parts(rt: &impl Process) -> String {
    match fs::read_to_string(rt, "loom_tests_parts/open") {
        Ok(text) => text,
        Err(_) => String::new(rt.alloc()),
    }
}

// Works on the part for so many seconds, and one run at least. What is printed of that.
fn work_on(rt: &impl Process, number: &str, seconds: &str) -> Page {
    let part = Page::of(rt.alloc(), &[FOLDER, "/", number]);
    let words = ["--max-duration", seconds, "--part", part.text.as_str()];
    answer(rt, &words)
}

// Makes a run of the first part, and all of the others.
fn work_on_each(rt: &impl Process, numbers: &str) {
    let mut is_first = true;
    for number in numbers.lines() {
        let page = if is_first {
            work_on(rt, number, "0")
        } else {
            work_on(rt, number, "1000")
        };
        let is_so = page.text.as_str().ends_with(" left\nstatus 0");
        holds(rt, is_so, "a part is worked on");
        is_first = false;
    }
}

// Where another process has the first part, it isn't worked on.
fn is_worked_on_alone(rt: &impl Process, numbers: &str) {
    let number = numbers.lines().next().unwrap_or("0");
    let part = Page::of(rt.alloc(), &[FOLDER, "/", number]);
    let lock = Page::of(rt.alloc(), &[FOLDER, "/", number, ".lock"]);
    let file = File::create(rt, lock.text.as_str()).expect(rt, "no file");
    holds(rt, file.try_lock().is_ok(), "the part is free");
    let text = refused!("another process works on this part");
    prints(rt, &["--part", part.text.as_str()], text);
}

fn is_gathered_alone(rt: &impl Process) {
    let file = File::create(rt, "loom_tests_parts/gather.lock").expect(rt, "no file");
    holds(rt, file.try_lock().is_ok(), "nobody gathers");
    let text = refused!("another process gathers here");
    prints(rt, &["--gather", FOLDER], text);
}

// What is printed when no part is left, or nothing after so many rounds.
fn gather_all(rt: &impl Process) -> Page {
    for _ in 0..ROUNDS {
        work_on_each(rt, open_parts(rt).as_str());
        let page = answer(rt, &["--gather", FOLDER]);
        if page.text.as_str().ends_with("status 0") {
            return page;
        }
    }
    Page::new(rt.alloc())
}

fn finds_as_a_plain_check(rt: &impl Process, split: &Split) {
    let page = answer(rt, split.words);
    let is_open = page.text.as_str().ends_with(" parts open\nstatus 3");
    holds(rt, is_open, "a check is split");
    is_worked_on_alone(rt, open_parts(rt).as_str());
    is_gathered_alone(rt);
    let page = gather_all(rt);
    same(rt, page.text.as_str(), split.finds, "the parts");
    prints(rt, split.plain, split.finds);
}

// How many runs are given up isn't the same for each way to go about it.
fn is_covered(page: &Page) -> bool {
    let text = page.text.as_str();
    text.starts_with("complete ") && text.ends_with("\nstatus 0")
}

fn covers_by_parts(rt: &impl Process) {
    let words = ["--split", FOLDER, "4", "--cover", "store_buffering"];
    prints(rt, &words, "4 parts open\nstatus 3");
    holds(rt, is_covered(&gather_all(rt)), "the parts cover");
    let is_removed = fs::remove_dir_all(rt, FOLDER).is_ok();
    holds(rt, is_removed, "the folder of a covering check is there");
}

// How many parts have a run that fails.
fn failing_parts(rt: &impl Process, numbers: &str) -> u64 {
    let mut failing = 0u64;
    for number in numbers.lines() {
        let page = work_on(rt, number, "1000");
        if page.text.as_str().starts_with("failed 2 ") {
            failing = failing.saturating_add(1);
        }
    }
    failing
}

// Where a run of a part failed, the check ends so.
fn fails_as_a_plain_check(rt: &impl Process) {
    let words = ["--split", FOLDER, "2", "two_mutexes_deadlock"];
    prints(rt, &words, "2 parts open\nstatus 3");
    let failing = failing_parts(rt, open_parts(rt).as_str());
    holds(rt, failing > 0, "a part fails");
    let text = "failed 2 1 t1 t1 t2 t2 t-\nstatus 1";
    prints(rt, &["--gather", FOLDER], text);
}

#[test]
fn parts_that_are_files_find_what_a_plain_check_does(rt: HostRuntime) {
    let _ = fs::remove_dir_all(&rt, FOLDER);
    for split in &SPLITS {
        finds_as_a_plain_check(&rt, split);
        let is_removed = fs::remove_dir_all(&rt, FOLDER).is_ok();
        holds(&rt, is_removed, "the folder is there");
    }
    covers_by_parts(&rt);
    fails_as_a_plain_check(&rt);
    let is_removed = fs::remove_dir_all(&rt, FOLDER).is_ok();
    holds(&rt, is_removed, "the folder of a failure is there");
}
