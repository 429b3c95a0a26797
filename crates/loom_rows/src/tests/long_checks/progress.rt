//! What a log is told.
use super::{lock_beside, put_found};
use crate::tests::asserting::{holds, same, script};
use crate::tests::parts::ONE_RUN;
use log::sink::Memory;
use log::{Level, Log, Logged};
use loom::model::builder::Builder;
use loom::runner::{Found, NoVisitor, Workers, check_parallel};
use loom::{MemoryStore, NoClock};
use loom_examples::rows::settings::Builds;
use loom_examples::rows::tables::first::STORE_BUFFERING;
use loom_examples::rows::{DEFAULTS, WHOLE};
use loom_examples::scripts::script::Script;
use loom_tests::page::Page;
use std::alloc::Global;
use std::process::Abort;
use std::rt::Clock;
use std::sync::Wait;
use std::thread::Threads;

const ITERATIONS: &str =
    "complete 3\n[INFO  loom::search] iteration 2\n[INFO  loom::search] about 50% done\n[INFO  loom::search] completed in 3 iterations\n";

const SWITCHES: &str =
    "complete 3\n[DEBUG loom::progress] thread 1\n[INFO  loom::search] iteration 2\n[INFO  loom::search] about 50% done\n[DEBUG loom::progress] thread 1\n[DEBUG loom::progress] thread 0\n[DEBUG loom::progress] thread 1\n[DEBUG loom::progress] thread 0\n[DEBUG loom::progress] thread 1\n[INFO  loom::search] completed in 3 iterations\n";

// Puts on the page what a check finds, and what a log of this level is told.
fn put_log(rt: HostRuntime, builder: &Builder, level: Level, page: &mut Page) {
    let log = Logged::new(rt, level, Memory::new(rt.alloc()));
    put_check(rt.alloc(), builder, &log, page);
    let (_, sink) = log.into_parts();
    put_lines(sink.into_lines().as_slice(), page);
}

fn put_check(alloc: Global, builder: &Builder, log: &impl Log, page: &mut Page) {
    if let Ok(body) = &Script::new(alloc, lock_beside()) {
        put_report(alloc, builder, body, log, page);
    }
}

fn put_report(alloc: Global, builder: &Builder, body: &Script, log: &impl Log, page: &mut Page) {
    let mut store = None::<MemoryStore>;
    let found = builder.check_with(alloc, body, &mut NoVisitor, &mut NoClock, &mut store, log);
    put_found(&found, page);
}

fn put_lines(lines: &[String], page: &mut Page) {
    for line in lines {
        page.put("", line);
    }
}

// The log's level, whether it is told which thread goes on, and what it is told.
static LOGS: [(Level, bool, &str); 5] = [
    (Level::Info, false, ITERATIONS),
    (Level::Debug, false, ITERATIONS),
    (Level::Info, true, ITERATIONS),
    (Level::Debug, true, SWITCHES),
    (Level::Warn, true, "complete 3\n"),
];

fn is_told(rt: HostRuntime, level: Level, switches: bool, page: &mut Page) {
    let mut builder = WHOLE.builder();
    builder.checkpoint_interval = 2;
    builder.log = switches;
    put_log(rt, &builder, level, page);
}

#[test]
fn a_log_is_told(rt: HostRuntime) {
    for (level, switches, text) in &LOGS {
        let mut page = Page::new(rt.alloc());
        is_told(rt, *level, *switches, &mut page);
        same(&rt, page.text.as_str(), *text, "a log");
    }
}

// Turns of one run and then of two, of which the log hears each tenth run. How many parts are left goes by which ones are cut.
const FIRST_TURNS: &str = "complete 30\n[INFO  loom::search] 11 iterations, ";

const LEFT: &str = " parts left, 2 workers, about ";

const LAST_TURNS: &str = "% done\n[INFO  loom::search] completed in 30 iterations\n";

// Two workers, each of which makes one run in a turn.
const TWO: Workers = Workers {
    count: 2,
    slice: ONE_RUN,
};

// Puts on the page what two workers find, and tells the log of them.
fn put_turns<R: Abort + AllocGlobal + Clock + Threads + Wait + Sync>(
    rt: &R,
    builder: &Builder,
    log: &impl Log,
    page: &mut Page,
) {
    let body = script(rt, STORE_BUFFERING);
    let mut parts = builder.parts(rt.alloc()).expect(rt, "no list");
    let found = check_parallel(
        rt,
        rt.alloc(),
        builder,
        &body,
        TWO,
        &mut parts,
        &mut NoVisitor,
        &mut NoClock,
        log,
    );
    if let Ok(Found::Complete { runs }) = &found {
        page.put("complete ", runs);
    }
}

#[test]
fn a_log_is_told_of_workers(rt: HostRuntime) {
    let mut builder = DEFAULTS.builder();
    builder.checkpoint_interval = 10;
    let mut page = Page::new(rt.alloc());
    let log = Logged::new(rt, Level::Info, Memory::new(rt.alloc()));
    put_turns(&rt, &builder, &log, &mut page);
    let (_, sink) = log.into_parts();
    put_lines(sink.into_lines().as_slice(), &mut page);
    let text = page.text.as_str();
    let is_so = text.starts_with(FIRST_TURNS) && text.contains(LEFT) && text.ends_with(LAST_TURNS);
    holds(&rt, is_so, text);
}
