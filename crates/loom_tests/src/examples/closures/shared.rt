//! A check of a row of closures whose parts are files.
use crate::closures::holds;
use loom::runner::Host;
use loom_examples::rows::options::{Asked, read};
use loom_examples::rows::shares::do_share;
use std::fs::{self, File};
use std::io;
use std::rt::{Clock, Files};
use std::test::Fail;

const FOLDER: &str = "loom_tests_shared_closures";

const OPEN: &str = "loom_tests_shared_closures/open";

const LIST: &str = "loom_tests_shared_closures/list";

/// What is done by these words is printed. Answers the status.
fn do_words<R: Host + Clock + Files<File = File>>(
    rt: &R,
    words: &[&str],
    out: &mut Vec<u8>,
) -> io::Result<u8> {
    let mut err = Vec::new(rt.alloc());
    out.clear();
    match read(rt.alloc(), words) {
        Ok(Asked::Row(asked)) if let Some(share) = asked.share => {
            do_share(rt, share, asked, out, &mut err)
        }
        _ => Ok(2),
    }
}

/// Works on each part that is open, and then takes them back. Answers the status.
fn work_and_gather<R: Host + Clock + Files<File = File>>(
    rt: &R,
    out: &mut Vec<u8>,
) -> io::Result<u8> {
    let open = fs::read_to_string(rt, OPEN)?;
    for number in open.lines() {
        let part = format!(in rt.alloc(); "{FOLDER}/{number}")?;
        do_words(rt, &["--part", part.as_str()], out)?;
    }
    do_words(rt, &["--gather", FOLDER], out)
}

/// It is split, its parts are worked on and gathered until none is open, and then all its runs were made.
#[test]
fn a_row_is_shared_out_in_a_folder(rt: HostRuntime) -> Result<(), Fail> {
    let _ = fs::remove_file(&rt, LIST);
    let mut out = Vec::new(rt.alloc());
    let words = ["--split", FOLDER, "3", "store_buffering_closures"];
    holds(&rt, do_words(&rt, &words, &mut out)? == 3);
    for _ in 0..100 {
        if work_and_gather(&rt, &mut out)? != 3 {
            break;
        }
    }
    holds(&rt, out.as_slice() == b"complete 30\n".as_slice());
    Ok(())
}
