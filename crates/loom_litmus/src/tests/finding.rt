//! What a check finds of a litmus test, as a text.
use loom::model::builder::Builder;
use loom::model::clock::NoClock;
use loom::model::cover::{Covered, MOST_STATES};
use loom::model::error::CheckError;
use loom_text::read::read;
use loom_text::run::answer::{Answer, Found};
use loom_text::run::check::{Outcome, check};
use loom_text::run::counting::Unheard;
use loom_text::run::cover::{Covering, cover};
use loom_text::run::layout::Layout;
use loom_text::run::program::assemble;
use loom_text::run::thread::TestThread;
use loom_text::test::Test;
use std::alloc::Global;

/// What a check finds of the text: its states and whether it holds, or the flag of a failure. The search is whole if the test has
/// fewer than three threads, and stops after 20,000 runs if it has more than three. Where the text is no test, or memory is refused,
/// it is nothing.
pub fn found(alloc: Global, text: &str) -> String {
    let mut lines = String::new(alloc);
    if let Ok(test) = read(alloc, text.as_bytes()) {
        put_found(alloc, &test, &mut lines);
    }
    lines
}

fn put_found(alloc: Global, test: &Test, lines: &mut String) {
    if let Ok(layout) = Layout::of(alloc, test)
        && let Ok(program) = assemble(alloc, test, &layout, "test.litmus")
        && let Ok(main) = TestThread::main(alloc, program)
    {
        // Of three threads there are many runs, and of four more than a test has time for.
        let threads = test.threads.len();
        let builder = Builder {
            reduce: threads > 2,
            max_permutations: if threads > 3 { Some(20_000) } else { None },
            max_steps: 10_000,
            ..Builder::new()
        };
        if let Ok(outcome) = check(
            alloc,
            &builder,
            test,
            &layout,
            &main,
            &mut NoClock,
            &mut Unheard,
        ) {
            let found = if builder.reduce {
                Found::Reduced(outcome)
            } else {
                Found::Whole(outcome)
            };
            let answer = Answer {
                test,
                layout: &layout,
                found: &found,
            };
            put_answer(alloc, answer, lines);
        }
    }
}

/// What a check finds of the text that remembers states: its states and whether it holds, or the flag of a failure. Where the text is no
/// test, or memory is refused, it is nothing.
pub fn covered(alloc: Global, text: &str) -> String {
    let mut lines = String::new(alloc);
    if let Ok(test) = read(alloc, text.as_bytes()) {
        put_covered(alloc, &test, &mut lines);
    }
    lines
}

fn put_covered(alloc: Global, test: &Test, lines: &mut String) {
    if let Ok(layout) = Layout::of(alloc, test)
        && let Some(covering) = covering_of(alloc, test, &layout)
    {
        let found = Found::Covering(covering);
        let answer = Answer {
            test,
            layout: &layout,
            found: &found,
        };
        put_answer(alloc, answer, lines);
    }
}

fn covering_of(alloc: Global, test: &Test, layout: &Layout) -> Option<Covering> {
    let program = assemble(alloc, test, layout, "test.litmus").ok()?;
    let main = TestThread::main(alloc, program).ok()?;
    cover(
        alloc,
        &Builder::new(),
        test,
        layout,
        &main,
        &mut NoClock,
        &mut Unheard,
        MOST_STATES,
    )
    .ok()
}

/// How many runs such a check makes of the text: those that end, and those that are given up. Where it isn't complete it is nothing.
pub fn covered_runs(alloc: Global, text: &str) -> Option<(u64, u64)> {
    let test = read(alloc, text.as_bytes()).ok()?;
    let layout = Layout::of(alloc, &test).ok()?;
    match covering_of(alloc, &test, &layout)?.covered {
        Covered::Complete { runs, met, .. } => Some((runs, met)),
        Covered::Livelock { .. } | Covered::Stopped { .. } | Covered::Failed { .. } => None,
    }
}

/// Whether the first run of the test is made, or refused by name.
pub fn is_run(alloc: Global, test: &Test) -> bool {
    let builder = Builder {
        max_permutations: Some(1),
        max_steps: 1_000,
        ..Builder::new()
    };
    if let Ok(layout) = Layout::of(alloc, test)
        && let Ok(program) = assemble(alloc, test, &layout, "test.litmus")
        && let Ok(main) = TestThread::main(alloc, program)
    {
        let mut clock = NoClock;
        let checked = check(
            alloc,
            &builder,
            test,
            &layout,
            &main,
            &mut clock,
            &mut Unheard,
        );
        return is_named(&checked);
    }
    false
}

fn is_named(checked: &Result<Outcome, CheckError>) -> bool {
    match checked {
        Ok(_) => true,
        Err(error) => *error != CheckError::Memory,
    }
}

// The lines that say what was found: of all the states and the answer, and of a failure the flag.
fn put_answer(alloc: Global, answer: Answer, lines: &mut String) {
    if let Ok(whole) = format!(in alloc; "{answer}") {
        put_lines(whole.as_str(), lines);
    }
}

fn put_lines(whole: &str, lines: &mut String) {
    let has_failed = whole.contains("\nFlag ");
    for line in whole.lines() {
        let is_state = line.ends_with(';') || line.starts_with("States ");
        let is_answer = line == "Ok" || line == "No";
        let is_flag = line.starts_with("Flag ");
        if is_flag || (!has_failed && (is_state || is_answer)) {
            if !lines.is_empty() {
                let _ = lines.push_str("\n");
            }
            let _ = lines.push_str(line);
        }
    }
}
