//! What the program `loom_litmus` does with the words of its command line.
pub mod json;
pub mod judge;
pub mod options;
pub mod table;

use crate::words::judge::{Job, judge_file};
use crate::words::options::{Asked, Shows, read};
use crate::words::table::TABLE_HEAD;
use clap::Error;
use loom::Choices;
use loom::runner::Host;
use std::io::{self, Write};
use std::rt::Clock;
use std::thread::{self, Threads};

/// Reads the tests that the words name, checks them, and prints the answers. The exit status is 0 where each test holds, 1 where one
/// doesn't, and 2 where the words, a file or a setting is wrong, or where memory or a writer fails (own).
pub fn run_words<R: Host + Clock + Sync, O: Write, E: Write>(
    rt: &R,
    words: &[&str],
    out: &mut O,
    err: &mut E,
) -> u8 {
    match read(rt.alloc(), words) {
        Ok(asked) => run_asked(rt, &asked, out, err).unwrap_or(2),
        Err(error) => help_or_refuse(&error, out, err).unwrap_or(2),
    }
}

// The help that was asked for, or why the words are wrong.
fn help_or_refuse<O: Write, E: Write>(error: &Error, out: &mut O, err: &mut E) -> io::Result<u8> {
    if error.use_stderr() {
        write!(err, "{error}")?;
        return Ok(2);
    }
    write!(out, "{error}")?;
    Ok(0)
}

fn run_asked<R: Host + Clock + Sync, O: Write, E: Write>(
    rt: &R,
    asked: &Asked,
    out: &mut O,
    err: &mut E,
) -> io::Result<u8> {
    if let Some(walk) = asked.walk {
        return run_files(rt, asked, Job::Walk(walk), out, err);
    }
    let Some(text) = asked.replay else {
        let job = match (asked.covers, asked.jobs) {
            (Some(most_states), _) => Job::Cover(most_states),
            (None, Some(count)) => Job::Share(workers(rt, count)),
            (None, None) => Job::Check,
        };
        return run_files(rt, asked, job, out, err);
    };
    match Choices::parse(rt.alloc(), text) {
        Ok(choices) => run_files(rt, asked, Job::Replay(choices.as_slice()), out, err),
        Err(error) => {
            writeln!(
                err,
                "error: invalid value '{text}' for '--replay <CHOICES>': {error}\n\nFor more information, try '--help'."
            )?;
            Ok(2)
        }
    }
}

// So many workers, or as many as there are processors.
fn workers<R: Threads>(rt: &R, count: usize) -> usize {
    if count > 0 {
        return count;
    }
    match thread::available_parallelism(rt) {
        Ok(count) => count.get(),
        Err(_) => 1,
    }
}

// Does this with each file, and answers the highest status.
fn run_files<R: Host + Clock + Sync, O: Write, E: Write>(
    rt: &R,
    asked: &Asked,
    job: Job,
    out: &mut O,
    err: &mut E,
) -> io::Result<u8> {
    if matches!(asked.shows, Shows::Table) {
        writeln!(out, "{TABLE_HEAD}")?;
    }
    let mut status: u8 = 0;
    for file in asked.files.as_slice() {
        let answered = judge_file(rt, asked, job, *file, out, err)?;
        status = status.max(answered);
    }
    Ok(status)
}
