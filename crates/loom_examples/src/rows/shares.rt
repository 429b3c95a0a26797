//! A check whose parts are files, on which any number of processes work, on one machine or on many. The folder of a check has the file
//! `row`, with the row's name and its settings as words; `list`, with the list of parts and their numbers; for each part that is open
//! `K.part`, and once it was worked on `K.done`, or `K.failed` with a run's choices; and `open`, with a line for each open part's number.
pub(crate) mod folder;
pub(crate) mod kind;
pub(crate) mod listed;
pub(crate) mod shared;

use crate::closures::rows::named;
use crate::measured::row_or_body;
use crate::rows::changes::Changes;
use crate::rows::options::{Asked, RowAsked, Share, read};
use crate::rows::parted::Parted;
use crate::rows::settings::Builds;
use crate::rows::shares::folder::Folder;
use crate::rows::shares::kind::{Kind, part_from, part_text};
use crate::rows::shares::listed::{Listed, Sorted};
use crate::rows::shares::shared::{Made, Shared};
use crate::rows::words::{refuse, refuse_name};
use crate::rows::{all_rows, print_report};
use loom::model::builder::Builder;
use loom::model::error::CheckError;
use loom::model::parts::Slice;
use loom::model::{Replay, Report};
use loom::runner::{Host, RunnerError};
use loom::{Choices, HostClock, NoClock, ShownChoices};
use loom_engine::rt::parts::Part;
use std::alloc::{AllocError, Global};
use std::fs::File;
use std::io::{self, Write};
use std::rt::{Clock as HostTime, Files};
use std::time::Duration;

const NO_FOLDER: &str = "error: the folder could not be written";

/// Why a row of closures is neither covered in parts nor by several workers.
pub(crate) const ONE_COVERS: &str = "error: one worker covers a row of closures";

/// The exit status where parts are open.
const OPEN: u8 = 3;

/// So many runs are made at most before a check is split.
const MOST_RUNS: u64 = 100_000;

/// A run is made, and no further one.
const ONE_RUN: Slice = Slice {
    runs: 1,
    until: None,
};

/// Does this with the parts of a check in a folder, prints what comes of it, and answers the exit status: that of a report, or 3 where
/// parts are open, and 2 where the words mean nothing, and where memory or a file fails.
pub fn do_share<R: Host + HostTime + Files<File = File>, O: Write, E: Write>(
    rt: &R,
    share: Share,
    asked: RowAsked,
    out: &mut O,
    err: &mut E,
) -> io::Result<u8> {
    match share {
        Share::Split(_, 0) => refuse(err, "error: a check is split into one part or more"),
        Share::Split(path, wanted) => split_row(rt, path, wanted, asked, out, err),
        Share::Part(word) => match word.rsplit_once('/') {
            Some((path, number)) => {
                let longest = asked.changes.max_duration;
                work_in(rt, path, number, longest, out, err)
            }
            None => refuse(err, "error: a part is named as 'FOLDER/NUMBER'"),
        },
        Share::Gather(path) => {
            let folder = Folder::new(rt, path);
            let Ok(lock) = folder.lock("gather.lock") else {
                return refuse(err, NO_FOLDER);
            };
            match lock {
                Some(_held) => with_folder(rt, &folder, Step::Gather, None, out, err),
                None => refuse(err, "error: another process gathers here"),
            }
        }
    }
}

// Makes the folder of the check that was asked for, which has none yet, and splits the check.
fn split_row<R: Host + HostTime + Files<File = File>, O: Write, E: Write>(
    rt: &R,
    path: &str,
    wanted: usize,
    asked: RowAsked,
    out: &mut O,
    err: &mut E,
) -> io::Result<u8> {
    let folder = Folder::new(rt, path);
    folder.make()?;
    if folder.read("list").is_ok_and(|text| text.is_some()) {
        return refuse(err, "error: the folder has a check already");
    }
    let text = row_text(rt.alloc(), &asked)?;
    match folder.write("row", text.as_str()) {
        Ok(()) => with_row(rt, &folder, Step::Split(wanted), asked, out, err),
        Err(_) => refuse(err, NO_FOLDER),
    }
}

// Works on the part of this number of a folder, alone and for so long at most.
fn work_in<R: Host + HostTime + Files<File = File>, O: Write, E: Write>(
    rt: &R,
    path: &str,
    number: &str,
    longest: Option<Duration>,
    out: &mut O,
    err: &mut E,
) -> io::Result<u8> {
    let folder = Folder::new(rt, path);
    let lock = format!(in rt.alloc(); "{number}.lock")?;
    let Ok(lock) = folder.lock(lock.as_str()) else {
        return refuse(err, NO_FOLDER);
    };
    match lock {
        Some(_held) => with_folder(rt, &folder, Step::Part(number), longest, out, err),
        None => refuse(err, "error: another process works on this part"),
    }
}

/// What is done in the folder of a check.
#[derive(Clone, Copy)]
enum Step<'a> {
    /// It is split into so many parts at least.
    Split(usize),
    /// The part of this number is worked on.
    Part(&'a str),
    /// What was worked on is taken back.
    Gather,
}

/// What came of it.
#[derive(Drop)]
enum Came {
    /// So many parts are open.
    Open(usize),
    /// A part was worked on: so many runs were made, and nothing is left of it or something is.
    Worked(u64, bool),
    /// What the check found.
    Found(Report),
    /// The check has covered each run of the body: so many runs ended, and so many were given up.
    Covered(u64, u64),
}

// The text of the file `row`: the row's name and each setting, a word in each line.
fn row_text(alloc: Global, asked: &RowAsked) -> Result<String, AllocError> {
    let mut text = String::from_str(alloc, asked.name)?;
    let changes = asked.changes;
    add_number(alloc, &mut text, "max-threads", changes.max_threads)?;
    add_number(alloc, &mut text, "max-branches", changes.max_branches)?;
    add_number(alloc, &mut text, "max-steps", changes.max_steps)?;
    add_number(
        alloc,
        &mut text,
        "preemption-bound",
        changes.preemption_bound,
    )?;
    match changes.reduce {
        Some(true) => text.push_str("\n--reduce")?,
        Some(false) => text.push_str("\n--no-reduce")?,
        None => {}
    }
    if changes.expect_explicit_explore == Some(true) {
        text.push_str("\n--explicit-explore")?;
    }
    if let Some(most_states) = asked.covers {
        text.push_str("\n--cover")?;
        add_number(alloc, &mut text, "states", Some(most_states))?;
    }
    Ok(text)
}

fn add_number(
    alloc: Global,
    text: &mut String,
    name: &str,
    number: Option<usize>,
) -> Result<(), AllocError> {
    if let Some(number) = number {
        let word = format!(in alloc; "\n--{name}={number}")?;
        text.push_str(word.as_str())?;
    }
    Ok(())
}

// Does the step with the row that the folder names.
fn with_folder<R: Host + HostTime + Files<File = File>, O: Write, E: Write>(
    rt: &R,
    folder: &Folder<R>,
    step: Step,
    longest: Option<Duration>,
    out: &mut O,
    err: &mut E,
) -> io::Result<u8> {
    let Ok(Some(text)) = folder.read("row") else {
        return refuse(err, "error: the folder has no check");
    };
    let Ok(text) = str::from_utf8(text.as_slice()) else {
        return refuse(err, "error: the folder has no check");
    };
    let mut words = Vec::new(rt.alloc());
    for word in text.lines() {
        words.push(word)?;
    }
    match read(rt.alloc(), words.as_slice()) {
        Ok(Asked::Row(mut asked)) => {
            asked.changes = Changes {
                max_duration: longest,
                ..asked.changes
            };
            with_row(rt, folder, step, asked, out, err)
        }
        _ => refuse(err, "error: the folder has no check"),
    }
}

// Does the step with the row that was asked for.
fn with_row<R: Host + HostTime + Files<File = File>, O: Write, E: Write>(
    rt: &R,
    folder: &Folder<R>,
    step: Step,
    asked: RowAsked,
    out: &mut O,
    err: &mut E,
) -> io::Result<u8> {
    if let Some(row) = named(asked.name) {
        if asked.covers.is_some() {
            return refuse(err, ONE_COVERS);
        }
        let builder = asked.changes.change(row.builder());
        let shared = Shared::Plain(Parted::Closures(row));
        return do_step(rt, folder, step, &builder, shared, out, err);
    }
    let Some(row) = row_or_body(rt.alloc(), asked.name)? else {
        let rows = all_rows(rt.alloc())?;
        return refuse_name(rt.alloc(), rows.as_slice(), asked.name, err);
    };
    let builder = asked
        .changes
        .change(row.settings.builder_with(rt.alloc(), None)?);
    let shared = Shared::of(rt.alloc(), row.checked, asked.covers)?;
    do_step(rt, folder, step, &builder, shared, out, err)
}

// Does the step, prints what came of it, and answers the exit status.
fn do_step<R: Host + HostTime + Files<File = File>, O: Write, E: Write>(
    rt: &R,
    folder: &Folder<R>,
    step: Step,
    builder: &Builder,
    mut shared: Shared,
    out: &mut O,
    err: &mut E,
) -> io::Result<u8> {
    let kind = shared.kind();
    let came = match step {
        Step::Split(wanted) => split(rt, folder, kind, builder, &mut shared, wanted),
        Step::Part(number) => work_on(rt, folder, kind, builder, &mut shared, number),
        Step::Gather => gather(rt, folder, kind, builder, &shared),
    };
    match came {
        Ok(came) => print_came(&came, out),
        Err(error) => shared.refuse(err, builder, error),
    }
}

// Prints what came of a step, and answers the exit status.
fn print_came<O: Write>(came: &Came, out: &mut O) -> io::Result<u8> {
    match came {
        Came::Open(count) => {
            writeln!(out, "{count} parts open")?;
            Ok(OPEN)
        }
        Came::Worked(runs, is_done) => {
            let left = if *is_done {
                "nothing is left"
            } else {
                "some are left"
            };
            writeln!(out, "{runs} runs, {left}")?;
            Ok(0)
        }
        Came::Found(report) => print_report(out, report),
        Came::Covered(runs, met) => {
            writeln!(out, "complete {runs} met {met}")?;
            Ok(0)
        }
    }
}

// A run at a time is made until there are so many parts.
fn split<R: Host>(
    rt: &R,
    folder: &Folder<R>,
    kind: Kind,
    builder: &Builder,
    shared: &mut Shared,
    wanted: usize,
) -> Result<Came, RunnerError> {
    let alloc = rt.alloc();
    let mut listed = Listed::new(alloc, wanted, kind, kind.parts(alloc, builder)?)?;
    match make_runs(rt, builder, shared, &mut listed)? {
        Some(report) => Ok(Came::Found(report)),
        None => Ok(write_out(alloc, folder, kind, &listed)?),
    }
}

// Makes a run at a time of the first part, until there are as many as are wanted, or none. Answers the report if one fails.
fn make_runs<R: Host>(
    rt: &R,
    builder: &Builder,
    shared: &mut Shared,
    listed: &mut Listed,
) -> Result<Option<Report>, RunnerError> {
    for _ in 0..MOST_RUNS {
        if listed.parts.is_over() || listed.parts.len() >= listed.wanted {
            break;
        }
        let Some(mut part) = listed.parts.take(rt.alloc(), 0)? else {
            continue;
        };
        match shared.work_on(rt, builder, &mut part, ONE_RUN, &mut NoClock)? {
            Made::Made { runs: _, met } => {
                listed.give_up(met);
                listed.take_one_back(rt.alloc(), part)?;
            }
            Made::Failed {
                runs: _,
                failure,
                choices,
            } => {
                return Ok(Some(Report::Failed {
                    runs: listed.parts.runs,
                    failure,
                    choices,
                }));
            }
        }
    }
    Ok(None)
}

// Works on the part of this number until nothing is left of it or the time is over, and writes what came of it.
fn work_on<R: Host + HostTime>(
    rt: &R,
    folder: &Folder<R>,
    kind: Kind,
    builder: &Builder,
    shared: &mut Shared,
    number: &str,
) -> Result<Came, RunnerError> {
    let alloc = rt.alloc();
    if let Some((part, met)) = part_in(alloc, folder, kind, builder, number, "done")? {
        return Ok(Came::Worked(part.runs.saturating_add(met), part.is_done));
    }
    let Some((mut part, _)) = part_in(alloc, folder, kind, builder, number, "part")? else {
        return Err(RunnerError::Settings(CheckError::Store));
    };
    let slice = Slice {
        runs: u64::MAX,
        until: builder.max_duration,
    };
    let mut clock = HostClock::start(rt);
    match shared.work_on(rt, builder, &mut part, slice, &mut clock)? {
        Made::Made { runs, met } => {
            let name = format!(in alloc; "{number}.done")?;
            let text = part_text(alloc, kind, &part, met)?;
            folder.write(name.as_str(), text.as_str())?;
            Ok(Came::Worked(runs.saturating_add(met), part.is_done))
        }
        Made::Failed {
            runs,
            failure,
            choices,
        } => {
            let name = format!(in alloc; "{number}.failed")?;
            let shown = ShownChoices(choices.as_slice());
            let text = format!(in alloc; "{shown}")?;
            folder.write(name.as_str(), text.as_str())?;
            Ok(Came::Found(Report::Failed {
                runs,
                failure,
                choices,
            }))
        }
    }
}

// Takes back what was worked on. Where nothing is left, or a run failed, that is what the check found.
fn gather<R: Host>(
    rt: &R,
    folder: &Folder<R>,
    kind: Kind,
    builder: &Builder,
    shared: &Shared,
) -> Result<Came, RunnerError> {
    let alloc = rt.alloc();
    let Some(text) = folder.read("list")? else {
        return Err(RunnerError::Settings(CheckError::Store));
    };
    let Ok(text) = str::from_utf8(text.as_slice()) else {
        return Err(RunnerError::Settings(CheckError::WrongShape));
    };
    let mut listed = Listed::from_text(alloc, kind, builder, text)?;
    let mut sorted = Sorted::new(alloc);
    match sort(rt, folder, kind, builder, shared, &listed, &mut sorted)? {
        Some(report) => Ok(Came::Found(report)),
        None => Ok(take_back(alloc, folder, kind, &mut listed, sorted)?),
    }
}

// Sorts the parts of the list by whether they came back. Answers the report if a run of one failed.
fn sort<R: Host>(
    rt: &R,
    folder: &Folder<R>,
    kind: Kind,
    builder: &Builder,
    shared: &Shared,
    listed: &Listed,
    sorted: &mut Sorted,
) -> Result<Option<Report>, RunnerError> {
    let alloc = rt.alloc();
    for place in 0..listed.numbers.len().min(listed.parts.list.len()) {
        let number = listed.numbers[place];
        let failed = failure_of(rt, folder, builder, shared, number, listed.parts.runs)?;
        if failed.is_some() {
            return Ok(failed);
        }
        let word = format!(in alloc; "{number}")?;
        let part = part_in(alloc, folder, kind, builder, word.as_str(), "done")?;
        let base = listed.parts.list[place].base.as_slice();
        sorted.add(alloc, number, part, base)?;
    }
    Ok(None)
}

// Takes back the parts that came back, and writes what is left.
fn take_back<R: AllocGlobal + Files>(
    alloc: Global,
    folder: &Folder<R>,
    kind: Kind,
    listed: &mut Listed,
    sorted: Sorted,
) -> Result<Came, CheckError> {
    let Sorted {
        done,
        met,
        back,
        out,
    } = sorted;
    listed.give_up(met);
    listed.take_back(alloc, done, out.as_slice())?;
    let came = write_out(alloc, folder, kind, listed)?;
    remove_each(alloc, folder, back.as_slice())?;
    Ok(came)
}

// What a part's run that failed makes of the check: it is made again by its choices.
fn failure_of<R: Host>(
    rt: &R,
    folder: &Folder<R>,
    builder: &Builder,
    shared: &Shared,
    number: u64,
    runs: u64,
) -> Result<Option<Report>, RunnerError> {
    let alloc = rt.alloc();
    let name = format!(in alloc; "{number}.failed")?;
    let Some(text) = folder.read(name.as_str())? else {
        return Ok(None);
    };
    let Ok(text) = str::from_utf8(text.as_slice()) else {
        return Err(RunnerError::Settings(CheckError::WrongShape));
    };
    let Ok(choices) = Choices::parse(alloc, text) else {
        return Err(RunnerError::Settings(CheckError::WrongShape));
    };
    match shared.replay(rt, builder, choices.as_slice())? {
        Replay::Failed { failure, choices } => Ok(Some(Report::Failed {
            runs,
            failure,
            choices,
        })),
        Replay::Ended { .. } => Err(RunnerError::Settings(CheckError::WrongShape)),
    }
}

// The part of this number in the file that ends so, if there is one, and how many of its runs were given up.
fn part_in<R: AllocGlobal + Files>(
    alloc: Global,
    folder: &Folder<R>,
    kind: Kind,
    builder: &Builder,
    number: &str,
    ending: &str,
) -> Result<Option<(Part, u64)>, CheckError> {
    let name = format!(in alloc; "{number}.{ending}")?;
    match folder.read(name.as_str())? {
        Some(text) => Ok(Some(part_from(alloc, kind, builder, text.as_slice())?)),
        None => Ok(None),
    }
}

// Writes the open parts, then the list, and then which are open: so a list never has a part without its file.
fn write_out<R: AllocGlobal + Files>(
    alloc: Global,
    folder: &Folder<R>,
    kind: Kind,
    listed: &Listed,
) -> Result<Came, CheckError> {
    if listed.parts.is_over() {
        let runs = listed.parts.runs;
        let text = listed.to_text(alloc)?;
        folder.write("list", text.as_str())?;
        folder.write("open", "")?;
        return Ok(match listed.met {
            Some(met) => Came::Covered(runs, met),
            None => Came::Found(Report::Complete { runs }),
        });
    }
    let mut open = String::new(alloc);
    for place in 0..listed.numbers.len().min(listed.parts.list.len()) {
        let number = listed.numbers[place];
        let name = format!(in alloc; "{number}.part")?;
        let text = part_text(alloc, kind, &listed.parts.list[place], 0)?;
        folder.write(name.as_str(), text.as_str())?;
        let line = format!(in alloc; "{number}\n")?;
        open.push_str(line.as_str())?;
    }
    let text = listed.to_text(alloc)?;
    folder.write("list", text.as_str())?;
    folder.write("open", open.as_str())?;
    Ok(Came::Open(listed.parts.len()))
}

// Removes what is known of these parts.
fn remove_each<R: AllocGlobal + Files>(
    alloc: Global,
    folder: &Folder<R>,
    numbers: &[u64],
) -> Result<(), AllocError> {
    for number in numbers {
        let done = format!(in alloc; "{number}.done")?;
        folder.remove(done.as_str());
        let part = format!(in alloc; "{number}.part")?;
        folder.remove(part.as_str());
        let lock = format!(in alloc; "{number}.lock")?;
        folder.remove(lock.as_str());
    }
    Ok(())
}
