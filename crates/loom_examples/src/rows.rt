//! Rows: bodies with names, how each is checked, which row words mean, and what the program prints of one.
ghost use Rattle.std.specs.Prelude.{◌≡◌, map, option_copied, ◌⊎◌, IfOk};
ghost use Rattle.loom_examples.specs.Rows.Words.{file_in, meant_by, row_of};
ghost use Rattle.loom_examples.specs.Rows.Line.{PrintedOf};
ghost use Rattle.loom_examples.specs.Rows.Printed.{PrintedChecked, PrintedNamed, PrintedRow};

pub mod changes;
pub mod cover;
pub mod drawing;
pub(crate) mod found;
pub mod jobs;
pub mod json;
pub mod line;
pub mod options;
pub(crate) mod parted;
pub mod settings;
pub mod shares;
pub mod tables;
pub mod tasks;
pub(crate) mod timed;
pub(crate) mod walks;
pub mod words;

use crate::rows::line::ShownReport;
use crate::rows::settings::Settings;
pub use crate::rows::tables::all_rows;
use crate::rows::tasks::{Task, do_task};
use crate::scripts::step::Step;
use loom::model::Report;
use loom::model::builder::{Builder, DEFAULT_MAX_BRANCHES, DEFAULT_MAX_STEPS};
use loom::model::error::CheckError;
use loom_views::rt::MAX_THREADS;
use std::io::{self, Write};
use std::rt::Files;

/// What a row checks.
#[derive(Clone, Copy)]
pub enum Checked {
    /// The script with these steps; main begins at the first one.
    Script(&'static [Step]),
    /// The thread that updates its atomic, with these two numbers.
    Updater(u64, u64),
}

/// A body with a name, and how it is checked.
#[derive(Clone, Copy)]
pub struct Row {
    /// The word that means the row.
    pub name: &'static str,
    /// What is checked.
    pub checked: Checked,
    /// How it is checked.
    pub settings: Settings,
}

/// The settings that a builder begins with.
pub const DEFAULTS: Settings = Settings {
    max_threads: MAX_THREADS,
    max_branches: DEFAULT_MAX_BRANCHES,
    max_steps: DEFAULT_MAX_STEPS,
    max_permutations: None,
    reduce: true,
    preemption_bound: None,
    expect_explicit_explore: false,
};

/// The defaults, but each schedule tries every thread that can go on.
pub const WHOLE: Settings = Settings {
    reduce: false,
    ..DEFAULTS
};

/// Such a whole search, of two runs at most.
pub const TWO_RUNS: Settings = Settings {
    max_permutations: Some(2),
    ..WHOLE
};

/// The defaults, but the threads of a run hand over ten operations at most.
pub const TEN_STEPS: Settings = Settings {
    max_steps: 10,
    ..DEFAULTS
};

/// The defaults, but a run may have 100,000 nodes.
pub const LONG_RUNS: Settings = Settings {
    max_branches: 100_000,
    ..DEFAULTS
};

/// The defaults, but a run may have three nodes.
pub const THREE_NODES: Settings = Settings {
    max_branches: 3,
    ..DEFAULTS
};

/// The defaults, but a run has one preemption at most.
pub const ONE_PREEMPTION: Settings = Settings {
    preemption_bound: Some(1),
    ..DEFAULTS
};

/// Each schedule tries every thread that can go on, from where a run begins to explore.
pub const EXPLICIT: Settings = Settings {
    expect_explicit_explore: true,
    ..WHOLE
};

// The row of a script, which is checked with the defaults unless settings are given.
#[macro_export]
macro_rules! row {
    ($name:expr, $steps:expr) => {
        $crate::row!($name, $steps, $crate::rows::DEFAULTS)
    };
    ($name:expr, $steps:expr, $settings:expr) => {
        $crate::rows::Row {
            name: $name,
            checked: $crate::rows::Checked::Script($steps),
            settings: $settings,
        }
    };
}

/// The first of the rows that has this name.
pub fn row_of<'a>(rows: &'a [Row], name: &str) -> Option<&'a Row>
    ensures { option_copied result ≡ row_of rows.now name.now }
{
    rows.iter().find(|row| row.name == name)
}

// The file that the words name: the second of two.
fn file_in<'a>(words: &[&'a str]) -> Option<&'a str>
    ensures { option_copied result ≡ file_in (map (λ word. word.now) words.now) }
{
    match words {
        [_, file] => Some(*file),
        _ => None,
    }
}

/// The row that the words mean, and the file that they name: the first of one or two words is the name of a row, and the second
/// that of a file.
pub fn meant<'a, 'b>(rows: &'a [Row], words: &[&'b str]) -> (Option<&'a Row>, Option<&'b str>)
    ensures row { option_copied result.0 ≡ meant_by rows.now (map (λ word. word.now) words.now) }
    ensures file { option_copied result.1 ≡ file_in (map (λ word. word.now) words.now) }
{
    let row = match words {
        [name] | [name, _] => row_of(rows, name),
        _ => None,
    };
    (row, file_in(words))
}

/// Checks what the words mean by the table of the program, prints what the check finds, and answers the exit status. It is 2
/// where the words mean nothing, and where memory or a writer fails.
pub fn run_named<R: AllocGlobal + Files, O: Write, E: Write>(
    rt: &R,
    words: &[&str],
    out: &mut O,
    err: &mut E,
) -> u8
    ensures { (result ≡ 2) ⊎ PrintedNamed (map (λ word. word.now) words.now) (O.contents out.old) (O.contents out.new) result }
{
    match all_rows(rt.alloc()) {
        Ok(rows) => run_row(rt, rows.as_slice(), words, out, err),
        Err(_) => 2,
    }
}

/// Checks the row that the first word means, prints what the check finds, and answers the exit status. The second word names the
/// checkpoint file, if there is one. The status is 2 where the words mean no row, and where memory or a writer fails.
pub fn run_row<R: AllocGlobal + Files, O: Write, E: Write>(
    rt: &R,
    rows: &[Row],
    words: &[&str],
    out: &mut O,
    err: &mut E,
) -> u8
    ensures { (result ≡ 2) ⊎ PrintedRow rows.now (map (λ word. word.now) words.now) (O.contents out.old) (O.contents out.new) result }
{
    check_words(rt, rows, words, out, err).unwrap_or(2)
}

fn check_words<R: AllocGlobal + Files, O: Write, E: Write>(
    rt: &R,
    rows: &[Row],
    words: &[&str],
    out: &mut O,
    err: &mut E,
) -> io::Result<u8>
    ensures { IfOk result (λ status. (status ≡ 2) ⊎ PrintedRow rows.now (map (λ word. word.now) words.now) (O.contents out.old) (O.contents out.new) status) }
{
    let (row, file) = meant(rows, words);
    match row {
        Some(row) => check_row(rt, row, file, out, err),
        None => words::refuse_words(rt.alloc(), rows, words, err),
    }
}

/// Checks the row with this checkpoint file, if there is one, prints what the check finds, and answers the exit status.
pub fn check_row<R: AllocGlobal + Files, O: Write, E: Write>(
    rt: &R,
    row: &Row,
    file: Option<&str>,
    out: &mut O,
    err: &mut E,
) -> io::Result<u8>
    ensures { IfOk result (λ status. (status ≡ 2) ⊎ PrintedChecked row.now.checked row.now.settings (option_copied file.entry) (O.contents out.old) (O.contents out.new) status) }
{
    do_task(rt, row, Task::Check, false, file, out, err)
}

/// There is no report: prints which error came, and below it why, in words. Of a checkpoint these name the file.
pub(crate) fn refuse_check<W: Write>(
    err: &mut W,
    builder: &Builder,
    error: CheckError,
) -> io::Result<u8>
    ensures { IfOk result (λ status. status ≡ 2) }
{
    let number = error.number();
    writeln!(err, "error {number}")?;
    tell_error(err, builder, error)?;
    Ok(2)
}

/// Prints why the error came, and of which file it speaks.
pub(crate) fn tell_error<W: Write>(
    err: &mut W,
    builder: &Builder,
    error: CheckError,
) -> io::Result<()> {
    match &builder.checkpoint_file {
        Some(file) if is_of_text(error) => writeln!(
            err,
            "{file}: {error}. No run was made, and the file is as it was."
        ),
        Some(file) if error == CheckError::Store => writeln!(err, "{file}: {error}"),
        _ => writeln!(err, "{error}"),
    }
}

// Whether the text of a checkpoint is refused, which comes before any run.
fn is_of_text(error: CheckError) -> bool {
    match error {
        CheckError::NotJson
        | CheckError::WrongShape
        | CheckError::WrongVersion(_)
        | CheckError::OtherSettings(_)
        | CheckError::TooManyNodes(_)
        | CheckError::BadNode => true,
        CheckError::MaxThreads(_)
        | CheckError::MaxBranches(_)
        | CheckError::PreemptionBound(_)
        | CheckError::CheckpointInterval
        | CheckError::MaxSteps
        | CheckError::NotANumber(_)
        | CheckError::Store
        | CheckError::Memory => false,
    }
}

/// Prints the line of the report, and answers its status.
pub(crate) fn print_report<W: Write>(out: &mut W, report: &Report) -> io::Result<u8>
    ensures { IfOk result (λ status. PrintedOf report.now (W.contents out.old) (W.contents out.new) status) }
{
    let shown = ShownReport(report);
    writeln!(out, "{shown}")?;
    Ok(line::status_of(report))
}
