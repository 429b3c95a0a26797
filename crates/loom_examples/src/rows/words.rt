//! What the program does with the words of its command line.
ghost use Rattle.std.specs.Prelude.{◌≡◌, ◌⊎◌, IfOk, false, map};
ghost use Rattle.std.specs.List.{list_any};
ghost use Rattle.loom_examples.specs.Rows.Printed.{PrintedNamed};
ghost use Rattle.loom_examples.specs.Rows.Words.{is_option};

use crate::closures::rows::ROWS;
use crate::measured::row_or_body;
use crate::rows::cover::cover_row;
use crate::rows::drawing::draw_row;
use crate::rows::options::{Asked, RowAsked, is_option, read};
use crate::rows::tasks::{Task, do_changed};
use crate::rows::walks::look_at_row;
use crate::rows::{self, Row, json, timed};
use clap::Error;
use log::Log;
use loom::{Choices, ChoicesError};
use std::alloc::{AllocError, Global};
use std::io::{self, Write};
use std::rt::{Clock, Files};

// What clap writes behind some causes.
const HINT: &str = "\n\nFor more information, try '--help'.";

const HELP_BESIDE: &str =
    "error: the argument '--help' cannot be used with one or more of the other specified arguments";

/// Does what the words ask for by the table of the program, prints what comes of it, and answers the exit status. Where no word
/// is one of the program's options that is `run_named`, but for a word that begins as an option does, which is refused. The
/// status is 2 where the words mean nothing, and where memory or a writer fails. The tour and the measuring are the program's own.
pub fn run_words<R: AllocGlobal + Clock + Files, O: Write, E: Write>(
    rt: &R,
    words: &[&str],
    out: &mut O,
    err: &mut E,
) -> u8
    ensures { list_any (λ word. is_option word.now) words.now ≡ false → (result ≡ 2) ⊎ PrintedNamed (map (λ word. word.now) words.now) (O.contents out.old) (O.contents out.new) result }
{
    if has_option(words) {
        return run_options(rt, words, out, err).unwrap_or(2);
    }
    match no_option(rt.alloc(), words) {
        Some(error) => refuse_by(rt.alloc(), err, &error).unwrap_or(2),
        None => rows::run_named(rt, words, out, err),
    }
}

/// Whether one of the words is an option.
pub fn has_option(words: &[&str]) -> bool
    ensures { result ≡ list_any (λ word. is_option word.now) words.now }
{
    words.iter().any(|word| is_option(word))
}

// Why a word that begins as an option does, and is none, is wrong.
fn no_option(alloc: Global, words: &[&str]) -> Option<Error> {
    if words.iter().any(|word| word.starts_with('-')) {
        return read(alloc, words).err();
    }
    None
}

fn run_options<R: AllocGlobal + Clock + Files, O: Write, E: Write>(
    rt: &R,
    words: &[&str],
    out: &mut O,
    err: &mut E,
) -> io::Result<u8> {
    match read(rt.alloc(), words) {
        Ok(Asked::List) => list(rt, out),
        Ok(Asked::Row(asked)) => run_alone(rt, asked, out, err),
        Ok(Asked::Tour | Asked::Measure(_)) => refuse(err, "error: this is no row"),
        Err(error) => help_or_refuse(rt.alloc(), words, &error, out, err),
    }
}

// Does what was asked for, unless it is shared out.
fn run_alone<R: AllocGlobal + Clock + Files, O: Write, E: Write>(
    rt: &R,
    asked: RowAsked,
    out: &mut O,
    err: &mut E,
) -> io::Result<u8> {
    if asked.jobs.is_some() || asked.share.is_some() {
        return refuse(err, "error: only the program shares a check out");
    }
    run_asked(rt, &None::<HostRuntime>, asked, out, err)
}

// The help that was asked for, or why the words are wrong.
fn help_or_refuse<O: Write, E: Write>(
    alloc: Global,
    words: &[&str],
    error: &Error,
    out: &mut O,
    err: &mut E,
) -> io::Result<u8> {
    if error.use_stderr() || !asks_for_help(words) {
        return refuse_by(alloc, err, error);
    }
    write!(out, "{error}")?;
    Ok(0)
}

// Whether the words ask for the help. Nothing stands beside that.
fn asks_for_help(words: &[&str]) -> bool {
    match words {
        [word] => *word == "--help" || *word == "-h",
        _ => false,
    }
}

// A line for each row.
fn list<R: AllocGlobal, O: Write>(rt: &R, out: &mut O) -> io::Result<u8> {
    let rows = rows::all_rows(rt.alloc())?;
    for row in rows.as_slice() {
        let name = row.name;
        writeln!(out, "{name}")?;
    }
    list_closures(out)?;
    Ok(0)
}

// A line for each row of closures.
fn list_closures<O: Write>(out: &mut O) -> io::Result<()> {
    for row in ROWS {
        let name = row.name();
        writeln!(out, "{name}")?;
    }
    Ok(())
}

/// Does what is asked of a row, prints what comes of it, and answers the exit status. The log hears of a walk.
pub fn run_asked<R: AllocGlobal + Clock + Files, L: Log, O: Write, E: Write>(
    rt: &R,
    log: &L,
    asked: RowAsked,
    out: &mut O,
    err: &mut E,
) -> io::Result<u8> {
    if asked.records {
        return refuse(err, "error: '--recorded' is for rows of closures");
    }
    let Some(replay) = asked.replay else {
        let task = if asked.rises { Task::Rise } else { Task::Check };
        return run_task(rt, log, task, asked, out, err);
    };
    match Choices::parse(rt.alloc(), replay) {
        Ok(choices) => {
            let task = Task::Replay(choices.as_slice());
            run_task(rt, log, task, asked, out, err)
        }
        Err(error) => refuse_choices(rt.alloc(), replay, error, err),
    }
}

/// What follows `--replay` is no list of choices: the usage, and which word is none.
pub(crate) fn refuse_choices<E: Write>(
    alloc: Global,
    text: &str,
    error: ChoicesError,
    err: &mut E,
) -> io::Result<u8>
    ensures { IfOk result (λ status. status ≡ 2) }
{
    let cause = format!(in alloc;
        "error: invalid value '{text}' for '--replay <CHOICES>': {error}"
    )?;
    refuse(err, cause.as_str())
}

fn run_task<R: AllocGlobal + Clock + Files, L: Log, O: Write, E: Write>(
    rt: &R,
    log: &L,
    task: Task,
    asked: RowAsked,
    out: &mut O,
    err: &mut E,
) -> io::Result<u8> {
    if let Some(most_states) = asked.covers {
        return cover(rt, most_states, asked, out, err);
    }
    let Some(row) = row_or_body(rt.alloc(), asked.name)? else {
        let rows = rows::all_rows(rt.alloc())?;
        return refuse_name(rt.alloc(), rows.as_slice(), asked.name, err);
    };
    let row = &row;
    if asked.walk.is_some() || asked.shortens {
        return look_at_row(rt, log, row, task, asked, out, err);
    }
    let RowAsked {
        changes,
        explains,
        drawing,
        file,
        ..
    } = asked;
    if drawing.is_asked() {
        return draw_row(rt, row, changes, task, drawing, file, out, err);
    }
    if asked.json {
        json::do_task(rt, row, changes, task, file, out, err)
    } else if changes.max_duration.is_some() {
        timed::check_row(rt, row, changes, explains, file, out, err)
    } else {
        do_changed(rt, row, changes, task, explains, file, out, err)
    }
}

/// Covers the row of this name, or the body that is measured under it, with at most so many states, and prints what is asked for of that.
fn cover<R: AllocGlobal + Clock + Files, O: Write, E: Write>(
    rt: &R,
    most_states: usize,
    asked: RowAsked,
    out: &mut O,
    err: &mut E,
) -> io::Result<u8> {
    let Some(row) = row_or_body(rt.alloc(), asked.name)? else {
        let rows = rows::all_rows(rt.alloc())?;
        return refuse_name(rt.alloc(), rows.as_slice(), asked.name, err);
    };
    let RowAsked { changes, file, .. } = asked;
    if asked.json {
        return json::cover_row(rt, &row, changes, most_states, file, out, err);
    }
    let tells = asked.explains || asked.shortens;
    cover_row(rt, &row, changes, most_states, file, tells, asked, out, err)
}

/// The words mean nothing: the usage, the cause with the nearest name or option, and how to ask for all of them.
pub(crate) fn refuse_words<E: Write>(
    alloc: Global,
    rows: &[Row],
    words: &[&str],
    err: &mut E,
) -> io::Result<u8>
    ensures { IfOk result (λ status. status ≡ 2) }
{
    match read(alloc, words) {
        Ok(Asked::Row(asked)) => refuse_name(alloc, rows, asked.name, err),
        Ok(Asked::List | Asked::Tour | Asked::Measure(_)) => refuse(err, ""),
        Err(error) => refuse_by(alloc, err, &error),
    }
}

// No row that takes options, or none at all, has this name.
pub(crate) fn refuse_name<E: Write>(
    alloc: Global,
    rows: &[Row],
    name: &str,
    err: &mut E,
) -> io::Result<u8>
    ensures { IfOk result (λ status. status ≡ 2) }
{
    let nearest = nearest(alloc, rows, name)?;
    let cause = if nearest.is_empty() {
        format!(in alloc; "error: no row is called '{name}'")?
    } else if nearest == name {
        format!(in alloc; "error: '{name}' is a row of closures, which doesn't take these words")?
    } else {
        format!(in alloc;
            "error: no row is called '{name}'\n\n  tip: the nearest name is '{nearest}'"
        )?
    };
    refuse(err, cause.as_str())
}

// The row's name that is reached from this word by the fewest changes of a letter, or nothing, where no name keeps a letter.
fn nearest(alloc: Global, rows: &[Row], word: &str) -> Result<&'static str, AllocError> {
    let mut near = Near {
        name: "",
        changes: usize::MAX,
    };
    for row in rows {
        near = near.or(alloc, row.name, word)?;
    }
    Ok(or_closures(alloc, near, word)?.name)
}

// This name, or that of a row of closures, where one is nearer to the word.
fn or_closures(alloc: Global, name: Near, word: &str) -> Result<Near, AllocError> {
    let mut near = name;
    for row in ROWS {
        near = near.or(alloc, row.name(), word)?;
    }
    Ok(near)
}

// A name, and by how many changes of a letter it is reached from a word.
#[derive(Clone, Copy)]
struct Near {
    name: &'static str,
    changes: usize,
}

impl Near {
    // This name, or the other one, where that is nearer to the word and keeps a letter of it.
    fn or(self, alloc: Global, other: &'static str, word: &str) -> Result<Near, AllocError> {
        let changes = strsim::levenshtein(alloc, other, word)?;
        if changes < self.changes.min(other.len()) {
            return Ok(Near {
                name: other,
                changes,
            });
        }
        Ok(self)
    }
}

// The words are wrong, as clap says. Its text ends with the usage or with a hint, which both are here already. Where it is the
// help, other words stand beside `--help`.
fn refuse_by<E: Write>(alloc: Global, err: &mut E, error: &Error) -> io::Result<u8>
    ensures { IfOk result (λ status. status ≡ 2) }
{
    if !error.use_stderr() {
        return refuse(err, HELP_BESIDE);
    }
    let text = format!(in alloc; "{error}")?;
    refuse(
        err,
        before(before(text.as_str(), "\n\nUsage: "), HINT).trim_end(),
    )
}

// What is before this in the text, or all of it.
fn before<'a>(text: &'a str, other: &str) -> &'a str {
    match text.split_once(other) {
        Some((before, _)) => before,
        None => text,
    }
}

/// Prints the usage, the cause, and where there is more to read.
pub(crate) fn refuse<E: Write>(err: &mut E, cause: &str) -> io::Result<u8>
    ensures { IfOk result (λ status. status ≡ 2) }
{
    writeln!(err, "usage: loom_rows NAME [FILE]")?;
    writeln!(err, "{cause}")?;
    writeln!(
        err,
        "\nFor the options try '--help', and for the names '--list'."
    )?;
    Ok(2)
}
