//! The program: it prints what a check of a named row finds, a check with rising bounds, one that remembers states, or a run by
//! given choices, and may keep a checkpoint in a file. The row's name is its first word but for options, and the file the next
//! one, if there is one. The rows, the words and the printed lines are in `loom_examples::rows`, and the rows that are closures
//! in `loom_examples::closures`. A row of closures has the settings of the environment where neither the words nor the row name
//! others, and where its check's parts aren't files. By `--tour` the program takes a first look at a row and at the bodies of
//! `loom_examples`. By `--measure` it checks bodies again and again, and prints how long that took.
#![tactic(auto)]

mod measuring;
#[cfg(test)]
mod tests;
mod tour;

use log::Log;
use loom::model::builder::Builder;
use loom::model::env::EnvError;
use loom::runner::Host;
use loom_examples::closures::rows::{self, ClosureRow, run_row};
use loom_examples::closures::tasks::run_asked;
use loom_examples::rows::jobs::walking::walk_row;
use loom_examples::rows::options::{self, Asked, RowAsked};
use loom_examples::rows::{jobs, shares, words};
use std::env;
use std::fs::File;
use std::io::{self, Write};
use std::process::ExitCode;
use std::rt::{Clock, Env, Files};

fn main(rt: HostRuntime) -> ExitCode {
    let status = run(&rt, &mut rt.stdout(), &mut rt.stderr());
    ExitCode::from(status.unwrap_or(2))
}

fn run<R: Host + Files<File = File> + Clock + Env + Log + Sync, O: Write, E: Write>(
    rt: &R,
    out: &mut O,
    err: &mut E,
) -> io::Result<u8> {
    let words = env::args(rt)?.skip(1).collect::<Vec<_>>(rt.alloc())?;
    let words = words
        .iter()
        .map(|word| word.as_str())
        .collect::<Vec<_>>(rt.alloc())?;
    let words = words.as_slice();
    if let Some((row, file)) = ClosureRow::meant_by(words) {
        return match Builder::from_process(rt) {
            Ok(builder) => run_row(rt, row, builder, file, out, err),
            Err(error) => refuse_environment(err, &error),
        };
    }
    if words::has_option(words)
        && let Some(status) = run_options(rt, words, out, err)?
    {
        return Ok(status);
    }
    Ok(words::run_words(rt, words, out, err))
}

/// Does what no library does by such options. None where they ask for nothing of that.
fn run_options<R: Host + Files<File = File> + Clock + Env + Log + Sync, O: Write, E: Write>(
    rt: &R,
    words: &[&str],
    out: &mut O,
    err: &mut E,
) -> io::Result<Option<u8>> {
    match options::read(rt.alloc(), words) {
        Ok(Asked::Tour) => Ok(Some(take_tour(rt, out, err)?)),
        Ok(Asked::Measure(names)) => Ok(Some(measuring::measure_all(
            rt,
            names.as_slice(),
            out,
            err,
        ))),
        Ok(Asked::Row(asked)) => do_row(rt, asked, out, err),
        Ok(Asked::List) => Ok(None),
        Err(_error) => Ok(None),
    }
}

/// Shares a check out, checks a row of closures or walks through it, or walks through another row with a log. None of any other task.
fn do_row<R: Host + Files<File = File> + Clock + Env + Log + Sync, O: Write, E: Write>(
    rt: &R,
    asked: RowAsked,
    out: &mut O,
    err: &mut E,
) -> io::Result<Option<u8>> {
    if let Some(share) = asked.share {
        return Ok(Some(shares::do_share(rt, share, asked, out, err)?));
    }
    if let Some(row) = rows::named(asked.name) {
        let status = match Builder::from_process(rt) {
            Ok(builder) => run_asked(rt, rt, row, builder, asked, out, err)?,
            Err(error) => refuse_environment(err, &error)?,
        };
        return Ok(Some(status));
    }
    if let Some(walk) = asked.walk {
        return Ok(Some(walk_row(rt, rt, walk, asked, out, err)?));
    }
    if let Some(count) = asked.jobs {
        return Ok(Some(jobs::check_row(rt, asked, count, out, err)?));
    }
    Ok(None)
}

/// A variable of the environment is wrong: why, and status 2.
fn refuse_environment<E: Write>(err: &mut E, error: &EnvError) -> io::Result<u8> {
    writeln!(err, "{error}")?;
    Ok(2)
}

/// Prints the line of a first row, and then what the tour finds.
fn take_tour<R: AllocGlobal + Clock + Files, O: Write, E: Write>(
    rt: &R,
    out: &mut O,
    err: &mut E,
) -> io::Result<u8> {
    let status = words::run_words(rt, &["lock_beside"], out, err);
    match tour::tour(rt, out) {
        Ok(()) => Ok(status),
        Err(error) => {
            writeln!(err, "{error}")?;
            Ok(2)
        }
    }
}
