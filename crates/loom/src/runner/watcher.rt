//! What a check of closures tells its log of a run: the threads that go on in it, one that goes on after it has stopped, and one that
//! doesn't come back. Of the last nobody but another thread can tell, so one of the host looks at the run once a second.
mod look;

use crate::runner::exact::Exact;
use crate::runner::shared::Shared;
use crate::runner::watcher::look::{Look, tell_ignored};
use log::{Level, Log, Metadata};
use std::alloc::Global;
use std::sync::{Arc, Mutex, Wait};
use std::thread::{self, JoinHandle, Parker, Threads};
use std::time::Duration;

/// What a check tells its log of each run, and the thread that looks at the run meanwhile (own).
#[derive(Drop)]
pub struct Watcher<D, L> {
    // where something is to be logged
    log: Option<L>,
    // whether each thread that goes on is logged
    switches: bool,
    looking: Option<Looking<D>>,
}

/// The thread that looks, and through what.
#[derive(Drop)]
struct Looking<D> {
    window: Arc<Window<D>, Global>,
    thread: JoinHandle<()>,
}

/// Where a check shows the run that it makes.
#[derive(Drop)]
struct Window<D> {
    shown: Mutex<Shown<D>>,
    parker: Parker,
}

/// What is to be seen.
#[derive(Drop)]
enum Shown<D> {
    /// No run was made yet.
    Nothing,
    /// The run of this number.
    Run(u64, Arc<Shared<D>, Global>),
    /// The check is over.
    Over,
}

impl<D, L> Watcher<D, L> {
    /// Nothing is logged, and nobody looks (own).
    pub(crate) fn none() -> Watcher<D, L> {
        Watcher {
            log: None,
            switches: false,
            looking: None,
        }
    }
}

impl<D: Exact + 'static, L: Log + Clone + Send + 'static> Watcher<D, L> {
    /// Looks from now on, where the log hears warnings, and tells it which threads go on, if that is asked for (own). Where the host refuses
    /// a thread nobody looks.
    pub(crate) fn start<R: Threads + Wait + Clone + Send + 'static>(
        rt: &R,
        alloc: Global,
        switches: bool,
        log: &L,
    ) -> Watcher<D, L> {
        let is_heard = log.enabled(&Metadata::new(Level::Warn, "loom::runner"));
        Watcher {
            log: if is_heard { log.clone().ok() } else { None },
            switches,
            looking: if is_heard {
                Looking::start(rt, alloc, log)
            } else {
                None
            },
        }
    }

    /// This run is made from now on (own).
    pub(crate) fn show<R: Wait>(&self, rt: &R, run: u64, shared: &Arc<Shared<D>, Global>) {
        if let Some(looking) = &self.looking
            && let Ok(again) = Arc::try_clone(shared)
        {
            let mut shown = looking.window.shown.lock(rt);
            *shown = Shown::Run(run, again);
        }
    }

    /// The closure of this run has come back: tells which threads went on, and which of them after the run had stopped (own).
    pub(crate) fn tell<R: Wait>(&self, rt: &R, run: u64, shared: &Shared<D>) {
        let Some(log) = &self.log else {
            return;
        };
        if self.switches {
            shared.turns.lock(rt).log_switches(log);
        }
        let ignored = shared.turns.lock(rt).goes_on();
        tell_ignored(log, run, ignored);
    }

    /// The check is over, and nobody looks any more (own).
    pub(crate) fn end<R: Threads + Wait>(self, rt: &R) {
        let Watcher {
            log: _,
            switches: _,
            looking,
        } = self;
        if let Some(Looking { window, thread }) = looking {
            window.close(rt);
            thread.join(rt);
        }
    }
}

impl<D: Exact + 'static> Looking<D> {
    /// Starts a thread that looks.
    fn start<R: Threads + Wait + Clone + Send + 'static, L: Log + Clone + Send + 'static>(
        rt: &R,
        alloc: Global,
        log: &L,
    ) -> Option<Looking<D>> {
        let window = Window {
            shown: Mutex::new(Shown::Nothing),
            parker: Parker::new(),
        };
        let window = Arc::new(alloc, window).ok()?;
        let (again, log) = (rt.clone().ok()?, log.clone().ok()?);
        let theirs = Arc::try_clone(&window).ok()?;
        let body = move || watch(&again, &*theirs, &log);
        match thread::spawn(rt, body) {
            Ok(thread) => Some(Looking { window, thread }),
            Err(_) => None,
        }
    }
}

impl<D: Exact> Window<D> {
    /// Nothing more is to be seen, and who looks is told so.
    fn close<R: Wait>(&self, rt: &R) {
        let mut shown = self.shown.lock(rt);
        *shown = Shown::Over;
        self.parker.unpark();
    }

    /// What is to be seen now.
    fn see<R: Wait>(&self, rt: &R) -> Shown<D> {
        let shown = self.shown.lock(rt);
        match &*shown {
            Shown::Nothing => Shown::Nothing,
            Shown::Over => Shown::Over,
            Shown::Run(run, shared) => match Arc::try_clone(shared) {
                Ok(again) => Shown::Run(*run, again),
                Err(_) => Shown::Nothing,
            },
        }
    }
}

/// Looks at what is shown once a second, until the check is over.
fn watch<D: Exact, R: Wait, L: Log>(rt: &R, window: &Window<D>, log: &L) {
    let mut last = Look::first();
    for _ in rt.forever() {
        window.parker.park_timeout(rt, Duration::from_secs(1));
        match window.see(rt) {
            Shown::Nothing => {}
            Shown::Run(run, shared) => last = last.look(rt, run, &*shared, log),
            Shown::Over => return,
        }
    }
}
