//! Runs of main as large as they may be, with memory enough: no operation is answered by want of it.
use crate::asserting::holds;
use loom::alloc::Track;
use loom::cell::UnsafeCell;
use loom::future::{AtomicWaker, BlockOn};
use loom::lazy_static::Lazy;
use loom::rt::execution::{Execution, Limits};
use loom::rt::path::{Path, Search};
use loom::sync::atomic::Ordering::Release;
use loom::sync::atomic::{AtomicU64, fence};
use loom::sync::mpsc::{self, Receiver, Sender};
use loom::sync::{Arc, Condvar, Mutex, MutexGuard, Notify, RwLock, RwLockReadGuard};
use loom::thread::{self, LocalKey};
use loom::{FailureKind, Op, Reply, Turn};
use loom_objects::failure::Stop;
use std::alloc::Global;
use std::process::Abort;

// A builder's search, and its limits.
const SEARCH: Search = Search {
    reduce: true,
    bound: None,
    max_branches: 1000,
    explores: true,
};

const LIMITS: Limits = Limits {
    max_threads: 5,
    max_steps: 1_000_000,
};

/// As often as a thread may raise its version.
const VERSIONS: u64 = 65_534;

/// More than a thousand of what has no limit of its own.
const MANY: u64 = 2000;

// Whether the run answers the operation so.
macro_rules! answers {
    ($run:expr, $op:expr, $so:pat $(if $holds:expr)?) => {
        match $run.reply($op) {
            Some(reply) => {
                let is_so = matches!(&reply, $so $(if $holds)?);
                reply.let_go();
                is_so
            }
            None => false,
        }
    };
}

/// A run of main, and the path of its choices.
#[derive(Drop)]
struct Run {
    alloc: Global,
    execution: Execution<u64>,
    path: Path,
}

impl Run {
    fn new(rt: &(impl Abort + AllocGlobal)) -> Run {
        Run {
            alloc: rt.alloc(),
            execution: Execution::new(rt.alloc(), LIMITS).expect(rt, "no memory for a run"),
            path: Path::new(rt.alloc(), SEARCH),
        }
    }

    // What main is answered, if it goes on.
    fn reply(&mut self, op: Op<u64, ()>) -> Option<Reply<u64>> {
        match self.execution.submit(&mut self.path, op.request) {
            Ok(Turn::Reply(_, reply)) => Some(reply),
            Ok(Turn::Start(_) | Turn::Ended(_)) | Err(_) => None,
        }
    }

    fn is_done(&mut self, op: Op<u64, ()>) -> bool {
        answers!(self, op, Reply::Done)
    }

    fn gives(&mut self, op: Op<u64, ()>, value: u64) -> bool {
        answers!(self, op, Reply::Data(given) if *given == value)
    }

    fn is_answered(&mut self, op: Op<u64, ()>) -> bool {
        answers!(self, op, _)
    }

    // Whether the operation fails the run so.
    fn fails(&mut self, op: Op<u64, ()>, kind: FailureKind) -> bool {
        match self.execution.submit(&mut self.path, op.request) {
            Err(Stop::Failure(failure)) => failure.kind == kind,
            Err(Stop::Memory) => false,
            Ok(turn) => goes_on(turn),
        }
    }

    // Whether its path has so many nodes.
    fn has_nodes(&self, nodes: usize) -> bool {
        match self.path.choices(self.alloc) {
            Ok(choices) => choices.len() == nodes,
            Err(_) => false,
        }
    }

    // Whether main ends with this value, by a path of so many nodes.
    fn ends(&mut self, value: u64, nodes: usize) -> bool {
        let is_left = self.is_answered(thread::finish(value)) && self.is_answered(thread::exit());
        let end: Op<u64, ()> = thread::end();
        match self.execution.submit(&mut self.path, end.request) {
            Ok(Turn::Ended(result)) => is_left && result == value && self.has_nodes(nodes),
            Ok(turn) => goes_on(turn),
            Err(_) => false,
        }
    }

    // Drops the run, with all that it holds.
    fn let_go(self) {}
}

// That a run went on is no failure.
fn goes_on(_turn: Turn<u64>) -> bool {
    false
}

// The ends of the numbers that name a value, and those about the thousandth.
const KEYS: [usize; 5] = [0, 999, 1000, usize::MAX - 1, usize::MAX];

#[test]
fn a_local_has_any_key(rt: HostRuntime) {
    let mut run = Run::new(&rt);
    for key in KEYS {
        local_is_used(&rt, &mut run, LocalKey::new(key));
    }
    holds(&rt, run.ends(7, 1), "main ends with its values");
    run.let_go();
}

#[test]
fn a_lazy_value_has_any_key(rt: HostRuntime) {
    let mut run = Run::new(&rt);
    for key in KEYS {
        lazy_is_used(&rt, &mut run, Lazy::new(key));
    }
    holds(&rt, run.ends(7, 1), "main ends with the values");
    run.let_go();
}

fn local_is_used(rt: &impl Abort, run: &mut Run, key: LocalKey) {
    holds(rt, run.gives(key.init(5), 5), "a local is made");
    holds(rt, run.gives(key.with(), 5), "a local is read");
    holds(rt, run.gives(key.put(6), 5), "a local is changed");
    holds(rt, run.gives(key.try_with(), 6), "a local is read again");
}

fn lazy_is_used(rt: &impl Abort, run: &mut Run, key: Lazy) {
    holds(rt, run.gives(key.init(5), 5), "a lazy value is made");
    holds(rt, run.gives(key.get(), 5), "a lazy value is read");
    let stood = answers!(run, key.init(6), Reply::Stood(5, 6));
    holds(rt, stood, "a lazy value stands");
}

#[test]
fn all_locals_are_given_back(rt: HostRuntime) {
    let mut run = Run::new(&rt);
    for number in 0..MANY {
        let key = LocalKey::new(number as usize);
        holds(&rt, run.gives(key.init(number), number), "a local more");
    }
    holds(&rt, run.is_answered(thread::finish(7)), "main finishes");
    let is_back = answers!(run, thread::exit(), reply if are_all_locals(reply));
    holds(&rt, is_back, "the locals");
    run.let_go();
}

#[test]
fn all_lazy_values_are_given_back(rt: HostRuntime) {
    let mut run = Run::new(&rt);
    for number in 0..MANY {
        let key = Lazy::new(number as usize);
        holds(
            &rt,
            run.gives(key.init(number), number),
            "a lazy value more",
        );
    }
    let is_back = answers!(run, thread::finish(7), reply if are_all_lazies(reply));
    holds(&rt, is_back, "the lazy values");
    run.let_go();
}

fn are_all_lazies(reply: &Reply<u64>) -> bool {
    match reply {
        Reply::Lazies(lazies) => {
            let lazies = lazies.as_slice();
            lazies.len() == MANY as usize
                && (0..MANY)
                    .zip(lazies)
                    .all(|(number, lazy)| lazy.value == number)
        }
        _ => false,
    }
}

fn are_all_locals(reply: &Reply<u64>) -> bool {
    match reply {
        Reply::Locals(locals) => {
            let locals = locals.as_slice();
            locals.len() == MANY as usize
                && (0..MANY)
                    .zip(locals)
                    .all(|(number, local)| local.value == number)
        }
        _ => false,
    }
}

// Each message has a node where it is sent, and one where the receiver's drop takes it; the run's end is one more.
const MESSAGES: u64 = 499;

#[test]
fn all_messages_are_given_back(rt: HostRuntime) {
    let mut run = Run::new(&rt);
    let (sender, receiver) = (Sender { number: 0 }, Receiver { number: 0 });
    holds(&rt, run.is_answered(mpsc::channel()), "a channel");
    for number in 0..MESSAGES {
        holds(&rt, run.is_done(sender.send(number)), "a message more");
    }
    let is_back = answers!(run, receiver.drop(), reply if are_all_messages(reply));
    holds(&rt, is_back, "the messages");
    holds(&rt, run.ends(7, 999), "main ends without the receiver");
    run.let_go();
}

fn are_all_messages(reply: &Reply<u64>) -> bool {
    match reply {
        Reply::Messages(left) => {
            left.len() == MESSAGES as usize
                && (0..MESSAGES)
                    .zip(left)
                    .all(|(number, message)| *message == number)
        }
        _ => false,
    }
}

// How many nodes a run may have before that of its end.
const NODES: u64 = 999;

fn guards_are_taken(rt: &impl Abort, run: &mut Run) {
    for _ in 0..NODES {
        let lock = RwLock { number: 0 };
        let is_read = answers!(run, lock.read(), Reply::ReadLocked(0, 3));
        holds(rt, is_read, "a guard more");
    }
}

fn guards_are_released(rt: &impl Abort, run: &mut Run) {
    for _ in 0..NODES {
        let guard = RwLockReadGuard { number: 0 };
        holds(rt, run.is_done(guard.release()), "a guard less");
    }
}

#[test]
fn a_thread_has_a_guard_at_each_node(rt: HostRuntime) {
    let mut run = Run::new(&rt);
    holds(&rt, run.is_answered(RwLock::new(3)), "a lock");
    guards_are_taken(&rt, &mut run);
    guards_are_released(&rt, &mut run);
    holds(&rt, run.ends(7, 1000), "main ends without a guard");
    run.let_go();
}

#[test]
fn a_thread_has_a_read_open_at_each_version(rt: HostRuntime) {
    let mut run = Run::new(&rt);
    let cell = UnsafeCell { number: 0 };
    holds(&rt, run.is_answered(UnsafeCell::new(3)), "a cell");
    for _ in 0..VERSIONS {
        let is_open = answers!(run, cell.get(), Reply::Reading(0, 3));
        holds(&rt, is_open, "a read more");
    }
    let is_last = run.fails(cell.get(), FailureKind::TooManyVersions);
    holds(&rt, is_last, "a read too many");
    run.let_go();
}

#[test]
fn the_last_version_makes_what_others_make(rt: HostRuntime) {
    let mut run = Run::new(&rt);
    for _ in 0..VERSIONS {
        holds(&rt, run.is_done(fence(Release)), "a fence more");
    }
    objects_are_made(&rt, &mut run);
    others_are_made(&rt, &mut run);
    holds(&rt, run.gives(LocalKey::new(1).init(5), 5), "a local");
    holds(&rt, run.gives(Lazy::new(1).init(5), 5), "a lazy value");
    let is_last = run.fails(thread::spawn(()), FailureKind::TooManyVersions);
    holds(&rt, is_last, "a thread too many");
    run.let_go();
}

fn objects_are_made(rt: &impl Abort, run: &mut Run) {
    holds(rt, run.is_answered(AtomicU64::new(0)), "an atomic");
    holds(rt, run.is_answered(UnsafeCell::new(0)), "a cell");
    holds(rt, run.is_answered(Mutex::new(0)), "a mutex");
    holds(rt, run.is_answered(RwLock::new(0)), "a lock");
    holds(rt, run.is_answered(Condvar::new()), "a condition variable");
    holds(rt, run.is_answered(Notify::new()), "a notifier");
}

fn others_are_made(rt: &impl Abort, run: &mut Run) {
    holds(rt, run.is_answered(Arc::new(0)), "a reference");
    holds(rt, run.is_answered(Track::new(0)), "a tracked value");
    holds(rt, run.is_answered(mpsc::channel()), "a channel");
    holds(rt, run.is_answered(BlockOn::new()), "a future");
    holds(
        rt,
        run.is_answered(AtomicWaker::new()),
        "a place for a waker",
    );
}

#[test]
fn a_run_has_many_objects(rt: HostRuntime) {
    let mut run = Run::new(&rt);
    for number in 0..MANY {
        let is_made = answers!(run, Mutex::new(number), Reply::Mutex(at) if *at == number as usize);
        holds(&rt, is_made, "a mutex more");
    }
    let (last, guard) = (Mutex { number: 1999 }, MutexGuard { number: 1999 });
    let is_locked = answers!(run, last.lock(), Reply::Locked(1999, 1999));
    holds(&rt, is_locked, "the last one is locked");
    holds(
        &rt,
        run.is_done(guard.release(1)),
        "the last one is released",
    );
    holds(&rt, run.ends(7, 2), "main ends with its objects");
    run.let_go();
}

#[test]
fn a_count_is_as_high_as_it_was_raised(rt: HostRuntime) {
    let mut run = Run::new(&rt);
    let arc = Arc { number: 0 };
    holds(&rt, run.is_answered(Arc::new(3)), "a reference");
    for _ in 1..NODES {
        holds(&rt, run.is_answered(arc.clone()), "a reference more");
    }
    let is_counted = answers!(run, arc.strong_count(), Reply::Value(count) if *count == NODES);
    holds(&rt, is_counted, "the count");
    run.let_go();
}
