//! Checks that are limited, saved and gone on with, texts that are changed, what a log is told, and places of failures. Each
//! checks small bodies, with stores and clocks of its own.
mod among;
mod environment;
mod explaining;
mod failing_files;
mod faults;
mod files;
mod folder;
mod limits;
mod measured;
mod mutations;
mod part_files;
mod path_words;
mod places;
mod progress;
mod rising;
mod saves;
mod texts;
mod two_files;

ghost use Rattle.loom.specs.Model.Stores.{Counts};

use crate::tests::asserting::{same, script};
use loom::model::Report;
use loom::model::builder::Builder;
use loom::model::error::CheckError;
use loom::model::visitor::Visitor;
use loom::{CheckpointStore, Choice, Clock, MemoryStore, StoreError};
use loom_examples::rows::line::{ShownReport, SpacedChoices};
use loom_examples::rows::settings::{Builds, Settings};
use loom_examples::rows::tables::few_threads::LOCK_BESIDE;
use loom_examples::rows::{DEFAULTS, WHOLE};
use loom_examples::scripts::script::Script;
use loom_examples::scripts::step::Step;
use loom_tests::page::Page;
use std::alloc::{AllocError, Global};
use std::process::Abort;
use std::time::Duration;

// The text with which a check of two threads goes on after its second run.
const TWO_NODES: &str =
    "{\"exploring\":true,\"nodes\":[{\"exploring\":true,\"first\":0,\"schedule\":[\"Visited\",\"Active\",\"Disabled\",\"Disabled\",\"Disabled\"]},{\"exploring\":true,\"first\":1,\"schedule\":[\"Active\",\"Visited\",\"Disabled\",\"Disabled\",\"Disabled\"]}],\"order\":\"all\",\"preemption_bound\":null,\"reduce\":false,\"version\":2}";

// The text with which such a check goes on after its first run.
const ONE_NODE: &str =
    "{\"exploring\":true,\"nodes\":[{\"exploring\":true,\"first\":0,\"schedule\":[\"Visited\",\"Active\",\"Disabled\",\"Disabled\",\"Disabled\"]}],\"order\":\"all\",\"preemption_bound\":null,\"reduce\":false,\"version\":2}";

// The text with which such a check goes on before any run.
const NO_NODES: &str =
    "{\"exploring\":true,\"nodes\":[],\"order\":\"all\",\"preemption_bound\":null,\"reduce\":false,\"version\":2}";

// What stands before the nodes in such a text, and what stands behind them.
const HEAD: &str = "{\"exploring\":true,\"nodes\":[";

const WHOLE_END: &str =
    "],\"order\":\"all\",\"preemption_bound\":null,\"reduce\":false,\"version\":2}";

static NAMES: [(&str, &str); 3] = [
    (NO_NODES, "no nodes"),
    (ONE_NODE, "one node"),
    (TWO_NODES, "two nodes"),
];

// What tests call the text.
fn name_of(text: &str) -> &'static str {
    for (known, name) in &NAMES {
        if text == *known {
            return *name;
        }
    }
    "another text"
}

// The line of a report, and where a limit was reached which one, and with which text the check goes on.
fn put_report(report: &Report, page: &mut Page) {
    page.put("", &ShownReport(report));
    if let Report::Stopped {
        limit,
        checkpoint,
        ..
    } = report
    {
        page.put("by ", limit);
        page.put("at ", &name_of(checkpoint.as_str()));
    }
}

// Puts what a check found, or the number of the error.
fn put_found(found: &Result<Report, CheckError>, page: &mut Page) {
    match found {
        Ok(report) => put_report(report, page),
        Err(error) => page.put("error ", &error.number()),
    }
}

// A line for each run that it is given.
#[derive(Drop)]
struct Runs {
    page: Page,
}

impl Visitor<u64> for Runs {
    ghost takes = { λ old choices value new. Unit {0} };

    fn run(&mut self, choices: &[Choice], _value: u64) -> Result<(), AllocError> {
        self.page.put("", &SpacedChoices(choices));
        Ok(())
    }
}

// Two seconds have passed from its third answer on, and no time before.
#[derive(Drop)]
struct Slow {
    answers: u64,
}

impl Clock for Slow {
    ghost answered = { λ _ _. Unit {0} };

    fn elapsed(&mut self) -> Duration {
        self.answers = self.answers.saturating_add(1);
        if self.answers > 2 {
            Duration::from_secs(2)
        } else {
            Duration::ZERO
        }
    }
}

// A store in memory, and a page on which stands what was saved. Its call of this number meets a fault; the load is the first one.
#[derive(Drop)]
struct Shelf {
    store: MemoryStore,
    saved: Page,
    calls: u64,
    fails_at: u64,
    faults: u64,
}

impl Shelf {
    fn new(alloc: Global, fails_at: u64) -> Shelf {
        Shelf {
            store: MemoryStore::new(alloc),
            saved: Page::new(alloc),
            calls: 0,
            fails_at,
            faults: 0,
        }
    }

    // One that holds this text.
    fn holding(alloc: Global, text: &[u8]) -> Shelf {
        let mut shelf = Shelf::new(alloc, 0);
        shelf.store.text = Vec::from_slice(alloc, text).ok();
        shelf
    }

    // The text that it holds.
    fn held(&self) -> &[u8] {
        match &self.store.text {
            Some(text) => text.as_slice(),
            None => &[],
        }
    }

    // Counts a call, and a fault where it meets one.
    fn call(&mut self) -> Result<(), StoreError>
        ensures { Counts result self.old.faults self.new.faults }
    {
        self.calls = self.calls.saturating_add(1);
        if self.calls == self.fails_at {
            self.faults = self.faults.saturating_add(1);
            return Err(StoreError::Fault);
        }
        Ok(())
    }
}

impl CheckpointStore for Shelf {
    ghost gives = { λ _ _. Unit {0} };

    ghost holds = { λ _ _. Unit {0} };

    ghost fault_count = { λ shelf. shelf.faults };

    fn load(&mut self, alloc: Global) -> Result<Option<Vec<u8>>, StoreError> {
        self.call()?;
        match self.store.load(alloc) {
            Ok(text) => Ok(text),
            Err(_) => Err(StoreError::Memory),
        }
    }

    fn save(&mut self, text: &str) -> Result<(), StoreError> {
        self.call()?;
        self.saved.put("saves ", &name_of(text));
        match self.store.save(text) {
            Ok(()) => Ok(()),
            Err(_) => Err(StoreError::Memory),
        }
    }

    fn faults(&self) -> u64 {
        self.faults
    }
}

// Puts on the page what a check of the script gives: a line for each run, the line of the report or of the error, how often the
// clock was asked and how many faults the store met, if any, and what was saved.
fn check(
    rt: &(impl Abort + AllocGlobal),
    builder: &Builder,
    steps: &'static [Step],
    page: &mut Page,
    shelf: &mut Shelf,
) {
    let mut clock = Slow { answers: 0 };
    put_check(
        rt.alloc(),
        builder,
        &script(rt, steps),
        page,
        &mut clock,
        shelf,
    );
    put_shelf(page, &clock, shelf);
}

fn put_check(
    alloc: Global,
    builder: &Builder,
    body: &Script,
    page: &mut Page,
    clock: &mut Slow,
    shelf: &mut Shelf,
) {
    let log = None::<HostRuntime>;
    let mut runs = Runs {
        page: Page::new(alloc),
    };
    let found = builder.check_with(alloc, body, &mut runs, clock, shelf, &log);
    page.add(runs.page.text.as_str());
    put_found(&found, page);
}

// How often the clock was asked and how many faults the store met, if any, and what was saved.
fn put_shelf(page: &mut Page, clock: &Slow, shelf: &Shelf) {
    if clock.answers > 0 {
        page.put("asked ", &clock.answers);
    }
    if shelf.faults > 0 {
        page.put("faults ", &shelf.faults);
    }
    page.add(shelf.saved.text.as_str());
}

// A check of the script gives this.
fn gives(
    rt: &(impl Abort + AllocGlobal),
    builder: &Builder,
    steps: &'static [Step],
    shelf: &mut Shelf,
    text: &str,
) {
    let mut page = Page::new(rt.alloc());
    check(rt, builder, steps, &mut page, shelf);
    same(rt, page.text.as_str(), text, "a check");
}

// The steps of the script that most of these checks are of.
fn lock_beside() -> &'static [Step] {
    LOCK_BESIDE
}

// How lock_beside is checked, and what that gives.
struct Case {
    settings: Settings,
    max_seconds: Option<u64>,
    interval: usize,
    fails_at: u64,
    gives: &'static str,
}

const DEFAULT_CASE: Case = Case {
    settings: DEFAULTS,
    max_seconds: None,
    interval: 20_000,
    fails_at: 0,
    gives: "",
};

const WHOLE_CASE: Case = Case {
    settings: WHOLE,
    ..DEFAULT_CASE
};

impl Case {
    fn builder(&self) -> Builder {
        let mut builder = self.settings.builder();
        builder.checkpoint_interval = self.interval;
        if let Some(seconds) = self.max_seconds {
            builder.max_duration = Some(Duration::from_secs(seconds));
        }
        builder
    }
}

// It gives its text, with a store of its own that holds none.
fn case_holds(rt: &(impl Abort + AllocGlobal), case: &Case) {
    let mut shelf = Shelf::new(rt.alloc(), case.fails_at);
    gives(rt, &case.builder(), lock_beside(), &mut shelf, case.gives);
}

fn cases_hold(rt: &(impl Abort + AllocGlobal), cases: &[Case]) {
    for case in cases {
        case_holds(rt, case);
    }
}

#[test]
fn checks_give_what_their_cases_say(rt: HostRuntime) {
    cases_hold(&rt, &limits::LIMITS);
    cases_hold(&rt, &faults::FAULTS);
    cases_hold(&rt, &saves::EACH);
    cases_hold(&rt, &environment::RANGES);
}
