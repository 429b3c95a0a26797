//! What is in the log of a check of closures, while it runs and behind each run.
use crate::asserting::same;
use crate::closures::holds;
use crate::examples::closures::resumed::{is_complete, is_stopped};
use crate::page::Page;
use log::kv::Source;
use log::sink::Lines;
use log::span::Spans;
use log::{Level, Log, Metadata, Record};
use loom::model::builder::Builder;
use loom::model::{Limit, Report};
use loom::runner::{Handle, Host, NoVisitor, RunnerError, Stop, check_with, explain};
use loom::{MemoryStore, NoClock};
use loom_examples::closures::rows::ClosureRow;
use loom_examples::closures::scenes;
use std::alloc::{AllocError, Global};
use std::fmt::Display;
use std::rt::Clock;
use std::sync::{Arc, Mutex, Wait};
use std::test::Fail;
use std::thread;
use std::time::Duration;

/// A log up to a level, whose clones keep their lines in one place.
#[derive(Drop)]
struct Kept<R: Wait> {
    rt: R,
    level: Level,
    lines: Arc<Mutex<Lines>, Global>,
}

impl<R: Wait + Drop> Kept<R> {
    fn new(rt: R, alloc: Global, level: Level) -> Result<Kept<R>, AllocError> {
        let lines = Arc::new(alloc, Mutex::new(Lines::new(alloc)))?;
        Ok(Kept { rt, level, lines })
    }
}

impl<R: Wait> Kept<R> {
    fn hears(&self, level: Level) -> bool {
        self.level.to_level_filter().allows(level)
    }

    /// Whether it was told twice.
    fn is_told_twice(&self) -> bool {
        self.lines.lock(&self.rt).as_slice().len() > 1
    }

    /// Puts its lines on the page.
    fn put(&self, page: &mut Page) {
        for line in self.lines.lock(&self.rt).as_slice() {
            page.put("", line);
        }
    }
}

impl<R: Wait + Clone> Clone for Kept<R> {
    fn clone(&self) -> Result<Kept<R>, AllocError> {
        Ok(Kept {
            rt: self.rt.clone()?,
            level: self.level,
            lines: Arc::try_clone(&self.lines)?,
        })
    }
}

impl<R: Wait> Log for Kept<R> {
    fn enabled(&self, metadata: &Metadata<'_>) -> bool {
        self.hears(metadata.level())
    }

    fn log<D: Display, K: Source, S: Spans>(&self, record: &Record<'_, D, K, S>) {
        if self.hears(record.level()) {
            let _ = self.lines.lock(&self.rt).push(record);
        }
    }

    fn flush(&self) {}

    fn target(&self) -> &str {
        ""
    }
}

/// A clock on which a second passes with each answer.
#[derive(Drop)]
struct Ticking {
    seconds: u64,
}

impl loom::Clock for Ticking {
    ghost answered = { λ clock time. Unit {0} };

    fn elapsed(&mut self) -> Duration {
        self.seconds = self.seconds.saturating_add(1);
        Duration::from_secs(self.seconds)
    }
}

/// Puts on the page what a check of locks beside a thread finds by these settings. It saves before each second run.
fn put_check<R: Host, L: Log + Clone + Send + 'static>(
    rt: &R,
    builder: &Builder,
    log: &L,
    page: &mut Page,
) {
    let main = |handle: &mut Handle<u64, R>| scenes::lock_beside(handle);
    let mut clock = Ticking { seconds: 0 };
    let mut store = MemoryStore::new(rt.alloc());
    let report = check_with(
        rt,
        rt.alloc(),
        builder,
        main,
        &mut NoVisitor,
        &mut clock,
        &mut store,
        log,
    );
    if is_stopped(&report, 1, Limit::Duration) {
        page.add("stopped\n");
    }
    if is_complete(&report, 3) {
        page.add("complete\n");
    }
}

/// A check of locks beside a thread, whose time is over after so many seconds, and which tells its switches or doesn't.
#[derive(Clone, Copy)]
struct Case {
    longest: Option<u64>,
    switches: bool,
    level: Level,
    text: &'static str,
}

const NUMBERS: &str =
    "complete\n[INFO  loom::search] iteration 2\n[INFO  loom::search] about 50% done\n[INFO  loom::search] completed in 3 iterations\n";

const SWITCHES: &str =
    "complete\n[DEBUG loom::progress] thread 1\n[INFO  loom::search] iteration 2\n[INFO  loom::search] about 50% done\n[DEBUG loom::progress] thread 1\n[DEBUG loom::progress] thread 0\n[DEBUG loom::progress] thread 1\n[DEBUG loom::progress] thread 0\n[DEBUG loom::progress] thread 1\n[INFO  loom::search] completed in 3 iterations\n";

static CASES: [Case; 4] = [
    Case {
        longest: None,
        switches: false,
        level: Level::Debug,
        text: NUMBERS,
    },
    Case {
        longest: Some(2),
        switches: false,
        level: Level::Debug,
        text: "stopped\n",
    },
    Case {
        longest: None,
        switches: true,
        level: Level::Info,
        text: NUMBERS,
    },
    Case {
        longest: None,
        switches: true,
        level: Level::Debug,
        text: SWITCHES,
    },
];

/// A check tells its log how far it has come and which threads go on, as that of the body does, and stops when its time is over.
#[test]
fn a_log_is_told_and_a_clock_is_asked(rt: HostRuntime) -> Result<(), Fail> {
    for case in &CASES {
        let mut builder = ClosureRow::LockBeside.builder();
        builder.checkpoint_interval = 2;
        builder.max_duration = case.longest.map(Duration::from_secs);
        builder.log = case.switches;
        let mut page = Page::new(rt.alloc());
        let log = Kept::new(rt, rt.alloc(), case.level)?;
        put_check(&rt, &builder, &log, &mut page);
        log.put(&mut page);
        same(&rt, page.text.as_str(), case.text, "a log of closures");
    }
    Ok(())
}

/// A check of main with this log.
fn check_told<R: Host, F: FnMut(&mut Handle<u64, R>) -> Result<u64, Stop>>(
    rt: &R,
    log: &Kept<R>,
    main: F,
) -> Result<Report, RunnerError>
    requires { F.IsAlwaysCallable main }
{
    check_with(
        rt,
        rt.alloc(),
        &Builder::new(),
        main,
        &mut NoVisitor,
        &mut NoClock,
        &mut None::<MemoryStore>,
        log,
    )
}

/// Main is given a stop, and goes on for two thousand calls.
fn go_on<R: Wait>(handle: &mut Handle<u64, R>) -> Result<u64, Stop> {
    handle.fail();
    for _ in 0..2000 {
        let _ = handle.yield_now();
    }
    Ok(0)
}

/// The log is told once of a thread that goes on after its run has stopped, and then that the run failed.
#[test]
fn a_thread_that_goes_on_is_told_of(rt: HostRuntime) -> Result<(), Fail> {
    let log = Kept::new(rt, rt.alloc(), Level::Warn)?;
    let main = |handle: &mut Handle<u64, HostRuntime>| go_on(handle);
    let report = check_told(&rt, &log, main);
    holds(&rt, matches!(report, Ok(Report::Failed { runs: 0, .. })));
    let mut page = Page::new(rt.alloc());
    log.put(&mut page);
    let text =
        "[WARN  loom::runner] run 1: thread 0 goes on after the run has stopped\n[ERROR loom::runner] failed in run 1: ";
    let is_so = match page.text.as_str().strip_prefix(text) {
        Some(behind) => !behind.contains("goes on after"),
        None => false,
    };
    assert!(rt; is_so, "{}", page.text);
    Ok(())
}

/// The log is told of a run that failed, and what happened in it.
#[test]
fn a_failure_is_told(rt: HostRuntime) -> Result<(), Fail> {
    let log = Kept::new(rt, rt.alloc(), Level::Error)?;
    let main = |handle: &mut Handle<u64, HostRuntime>| scenes::two_mutexes(handle);
    let report = check_told(&rt, &log, main)?;
    let Report::Failed { choices, .. } = &report else {
        panic!(rt; "{report}");
    };
    let again = |handle: &mut Handle<u64, HostRuntime>| scenes::two_mutexes(handle);
    let told = explain(&rt, rt.alloc(), &Builder::new(), choices.as_slice(), again)?;
    let mut page = Page::new(rt.alloc());
    log.put(&mut page);
    let mut wanted = Page::new(rt.alloc());
    wanted.put("[ERROR loom::runner] ", &report);
    wanted.put("", &told);
    same(
        &rt,
        page.text.as_str(),
        wanted.text.as_str(),
        "a failure in a log",
    );
    Ok(())
}

/// Keeps its turn until the log is told twice, for a minute at most.
fn keep_turn<R: Clock + Wait>(rt: &R, log: &Kept<R>) {
    for _ in 0..550 {
        if log.is_told_twice() {
            return;
        }
        thread::sleep(rt, Duration::from_millis(100));
    }
}

/// The log is told which run is made, once in ten seconds, and of a thread that doesn't come back, while it doesn't.
#[test]
fn a_thread_that_holds_the_turn_is_told_of(rt: HostRuntime) -> Result<(), Fail> {
    let log = Kept::new(rt, rt.alloc(), Level::Info)?;
    let main = |handle: &mut Handle<u64, HostRuntime>| {
        let theirs = handle.allocated(log.clone())?;
        let child = handle.spawn(move |_| {
            keep_turn(&rt, &theirs);
            Ok(3)
        })?;
        handle.join(&child)
    };
    let report = check_told(&rt, &log, main);
    holds(&rt, is_complete(&report, 1));
    let mut page = Page::new(rt.alloc());
    log.put(&mut page);
    let text =
        "[INFO  loom::runner] run 1 is made\n[WARN  loom::runner] run 1: thread 1 holds the turn\n[INFO  loom::search] completed in 1 iterations\n";
    same(&rt, page.text.as_str(), text, "a log of closures");
    Ok(())
}
