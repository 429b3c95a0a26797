//! What is done with one file: its test is read and checked, or run once, and what comes of it is printed.
use crate::error::{ReadError, report};
use crate::read::read;
use crate::run::answer::{Answer, End, Found, ShownNumbers, Sight, flag_of};
use crate::run::check::{Outcome, check, is_whole};
use crate::run::counting::{Counting, Unheard};
use crate::run::cover::cover;
use crate::run::layout::Layout;
use crate::run::parallel::check_by;
use crate::run::program::assemble;
use crate::run::summary::Verdict;
use crate::run::thread::TestThread;
use crate::run::values::Values;
use crate::run::walk::walk;
use crate::test::Test;
use crate::words::json;
use crate::words::options::{Asked, Shows};
use crate::words::table::{Line, TableLine};
use loom::model::builder::Builder;
use loom::model::error::CheckError;
use loom::model::{Replay, Walk, Walked};
use loom::runner::{Host, Workers};
use loom::{Choice, HostClock, ShownChoices};
use std::alloc::Global;
use std::fs::File;
use std::io::{self, Read, Write};
use std::rt::{Clock, Files};

/// What is done with each test.
#[derive(Clone, Copy)]
pub(crate) enum Job<'a> {
    /// It is checked.
    Check,
    /// It is checked by so many workers.
    Share(usize),
    /// Its runs are covered, with at most so many states.
    Cover(usize),
    /// Runs are made that are drawn so.
    Walk(Walk),
    /// One run is made, by these choices and then by defaults.
    Replay(&'a [Choice]),
}

// Above so many runs it is said that there is a way to make fewer.
const MANY_RUNS: u64 = 1_000_000;

/// Does this with the test in the file, prints what comes of it, and answers the exit status: 0 where it holds, 1 where it
/// doesn't, and 2 where the file can't be read, is no test, or can't be checked so.
pub(crate) fn judge_file<R: Host + Clock + Sync, O: Write, E: Write>(
    rt: &R,
    asked: &Asked,
    job: Job,
    file: &str,
    out: &mut O,
    err: &mut E,
) -> io::Result<u8> {
    let alloc = rt.alloc();
    let text = match bytes_of(rt, file) {
        Ok(text) => text,
        Err(error) => {
            writeln!(err, "{file}: {error}")?;
            return Ok(2);
        }
    };
    match read(alloc, text.as_slice()) {
        Ok(test) => judge_test(rt, asked, job, file, &test, out, err),
        Err(ReadError::Wrong(mistake)) => {
            let report = report(alloc, file, text.as_slice(), &mistake)?;
            write!(err, "{report}")?;
            Ok(2)
        }
        Err(ReadError::Memory) => {
            writeln!(err, "{file}: out of memory")?;
            Ok(2)
        }
    }
}

fn bytes_of<R: AllocGlobal + Files>(rt: &R, file: &str) -> io::Result<Vec<u8>> {
    let mut bytes = Vec::new(rt.alloc());
    File::open(rt, file)?.read_to_end(&mut bytes)?;
    Ok(bytes)
}

/// Does this with the test, which is in the file of this name.
pub(crate) fn judge_test<R: Host + Clock + Sync, O: Write, E: Write>(
    rt: &R,
    asked: &Asked,
    job: Job,
    file: &str,
    test: &Test,
    out: &mut O,
    err: &mut E,
) -> io::Result<u8> {
    let alloc = rt.alloc();
    let layout = Layout::of(alloc, test)?;
    let program = assemble(alloc, test, &layout, name_of(file))?;
    let main = TestThread::main(alloc, program)?;
    let answered = match job {
        Job::Check => check_test(rt, asked, None, file, test, &layout, &main, out, err)?,
        Job::Share(count) => {
            let workers = Some(Workers::new(count));
            check_test(rt, asked, workers, file, test, &layout, &main, out, err)?
        }
        Job::Cover(most) => cover_test(rt, asked, most, file, test, &layout, &main, out)?,
        Job::Walk(walk) => walk_test(rt, asked, walk, test, &layout, &main, out)?,
        Job::Replay(choices) => replay_test(alloc, asked, choices, test, &layout, &main, out)?,
    };
    match answered {
        Ok(status) => Ok(status),
        Err(error) => {
            writeln!(err, "{file}: {error}")?;
            Ok(2)
        }
    }
}

// The file's name without its folders: a place has room for a short one.
fn name_of(file: &str) -> &str {
    file.rsplit('/').next().unwrap_or(file)
}

fn check_test<R: Host + Clock + Sync, O: Write, E: Write>(
    rt: &R,
    asked: &Asked,
    workers: Option<Workers>,
    file: &str,
    test: &Test,
    layout: &Layout,
    main: &TestThread,
    out: &mut O,
    err: &mut E,
) -> io::Result<Result<u8, CheckError>> {
    let builder = &asked.builder;
    let is_whole = is_whole(builder);
    let mut warning = Warning {
        file,
        is_whole,
        has_warned: false,
        err,
    };
    let outcome = match find(rt, builder, workers, test, layout, main, &mut warning) {
        Ok(outcome) => outcome,
        Err(error) => return Ok(Err(error)),
    };
    let found = if is_whole {
        Found::Whole(outcome)
    } else {
        Found::Reduced(outcome)
    };
    let answer = Answer {
        test,
        layout,
        found: &found,
    };
    put_answer(rt.alloc(), asked, file, answer, main, out)
}

// What a check finds of the test, by one worker or by several.
fn find<R: Host + Clock + Sync, H: Counting>(
    rt: &R,
    builder: &Builder,
    workers: Option<Workers>,
    test: &Test,
    layout: &Layout,
    main: &TestThread,
    counting: &mut H,
) -> Result<Outcome, CheckError> {
    let alloc = rt.alloc();
    let mut clock = HostClock::start(rt);
    match workers {
        None => check(alloc, builder, test, layout, main, &mut clock, counting),
        Some(workers) => check_by(
            rt, alloc, builder, test, layout, main, workers, &mut clock, counting,
        ),
    }
}

// The exit status: 0 where the test is known to hold.
fn status_of(verdict: Verdict) -> u8 {
    match verdict {
        Verdict::Ok => 0,
        Verdict::No | Verdict::Undecided => 1,
    }
}

// Covers the runs of the test with at most so many states, and prints what was found.
fn cover_test<R: AllocGlobal + Clock, O: Write>(
    rt: &R,
    asked: &Asked,
    most_states: usize,
    file: &str,
    test: &Test,
    layout: &Layout,
    main: &TestThread,
    out: &mut O,
) -> io::Result<Result<u8, CheckError>> {
    let alloc = rt.alloc();
    let mut clock = HostClock::start(rt);
    let covered = cover(
        alloc,
        &asked.builder,
        test,
        layout,
        main,
        &mut clock,
        &mut Unheard,
        most_states,
    );
    let covering = match covered {
        Ok(covering) => covering,
        Err(error) => return Ok(Err(error)),
    };
    let found = Found::Covering(covering);
    let answer = Answer {
        test,
        layout,
        found: &found,
    };
    put_answer(alloc, asked, file, answer, main, out)
}

// Prints the answer, and where a run failed, what happened in it, if that is asked for.
fn put_answer<O: Write>(
    alloc: Global,
    asked: &Asked,
    file: &str,
    answer: Answer,
    main: &TestThread,
    out: &mut O,
) -> io::Result<Result<u8, CheckError>> {
    print_answer(alloc, asked.shows, file, answer, out)?;
    let status = status_of(answer.summary().verdict);
    match answer.end() {
        End::Failed { choices, .. } if asked.explains => {
            Ok(explain(alloc, asked, choices, main, out)?.map(|_| status))
        }
        End::Failed { .. } | End::Complete { .. } | End::Livelock { .. } | End::Stopped { .. } => {
            Ok(Ok(status))
        }
    }
}

// Makes the runs of the walk, and prints what was seen.
fn walk_test<R: AllocGlobal + Clock, O: Write>(
    rt: &R,
    asked: &Asked,
    drawn: Walk,
    test: &Test,
    layout: &Layout,
    main: &TestThread,
    out: &mut O,
) -> io::Result<Result<u8, CheckError>> {
    let alloc = rt.alloc();
    let mut clock = HostClock::start(rt);
    let seen = match walk(alloc, &asked.builder, test, layout, main, drawn, &mut clock) {
        Ok(seen) => seen,
        Err(error) => return Ok(Err(error)),
    };
    let sight = Sight {
        test,
        layout,
        seen: &seen,
    };
    write!(out, "{sight}")?;
    let status = status_of(sight.summary().verdict);
    match &seen.walked {
        Walked::Failed { choices, .. } if asked.explains => {
            Ok(explain(alloc, asked, choices.as_slice(), main, out)?.map(|_| status))
        }
        Walked::Failed { .. } | Walked::Made { .. } => Ok(Ok(status)),
    }
}

fn print_answer<O: Write>(
    alloc: Global,
    shows: Shows,
    file: &str,
    answer: Answer,
    out: &mut O,
) -> io::Result<()> {
    match shows {
        Shows::Whole => write!(out, "{answer}"),
        Shows::Line => {
            let line = Line(answer);
            writeln!(out, "{line}")
        }
        Shows::Table => {
            let line = TableLine(answer);
            writeln!(out, "{line}")
        }
        Shows::Json => {
            let object = json::of_answer(alloc, file, answer)?;
            writeln!(out, "{object}")
        }
    }
}

// Says once of a check of all runs that there are many.
#[derive(Drop)]
struct Warning<'a, E> {
    file: &'a str,
    is_whole: bool,
    has_warned: bool,
    err: &'a mut E,
}

// What can't be written is left out: the check goes on.
impl<E: Write> Counting for Warning<'_, E> {
    fn made(&mut self, runs: u64) {
        if self.is_whole && !self.has_warned && runs > MANY_RUNS {
            self.has_warned = true;
            let file = self.file;
            let _ = writeln!(
                self.err,
                "{file}: warning: more than {MANY_RUNS} runs: '--cover' makes fewer"
            );
        }
    }
}

// Makes the run of these choices, and prints how it ended.
fn replay_test<O: Write>(
    alloc: Global,
    asked: &Asked,
    choices: &[Choice],
    test: &Test,
    layout: &Layout,
    main: &TestThread,
    out: &mut O,
) -> io::Result<Result<u8, CheckError>> {
    let status = match asked.builder.replay(alloc, main, choices) {
        Ok(
            Replay::Ended {
                value,
                choices: _choices,
            },
        ) => {
            print_ended(test, layout, &value, out)?;
            0
        }
        Ok(
            Replay::Failed {
                failure,
                choices: _choices,
            },
        ) => {
            let flag = flag_of(failure.kind);
            writeln!(out, "Flag {flag}")?;
            writeln!(out, "failed: {failure}")?;
            1
        }
        Err(error) => return Ok(Err(error)),
    };
    if asked.explains {
        return Ok(explain(alloc, asked, choices, main, out)?.map(|_| status));
    }
    Ok(Ok(status))
}

fn print_ended<O: Write>(
    test: &Test,
    layout: &Layout,
    value: &Values,
    out: &mut O,
) -> io::Result<()> {
    let numbers = value.as_slice();
    let state = ShownNumbers {
        test,
        terms: layout.terms.as_slice(),
        numbers: &numbers[..layout.shown.min(numbers.len())],
    };
    writeln!(out, "ended: {state}")
}

// Tells what happened in the run of these choices.
fn explain<O: Write>(
    alloc: Global,
    asked: &Asked,
    choices: &[Choice],
    main: &TestThread,
    out: &mut O,
) -> io::Result<Result<(), CheckError>> {
    match asked.builder.explain(alloc, main, choices) {
        Ok(explanation) => {
            write!(out, "{explanation}")?;
            Ok(Ok(()))
        }
        Err(error) => Ok(Err(error)),
    }
}
