//! What the rows check: main's closure of each, and what its threads do.
use loom::runner::handle::Handle;
use loom::runner::job::Job;
use loom::runner::pool::Pool;
use loom::runner::stop::Stop;
use loom_ops::sync::atomic::Ordering::{Acquire, Relaxed, Release};
use loom_ops::sync::atomic::{AtomicU64, AtomicUsize};
use loom_ops::sync::mutex::Mutex;
use loom_ops::thread::JoinHandle;
use std::sync::Wait;
use std::thread::Threads;

/// What a thread that main starts does.
#[derive(Clone, Copy)]
pub enum Part {
    /// Locks the one, and then the other.
    LockBoth(Mutex, Mutex),
    /// Adds 1 to the number.
    AddOne(AtomicU64),
    /// Adds 1 to the number, and 1 more.
    AddTwice(AtomicU64),
    /// Loads the number, and stores one more.
    LoadAndStore(AtomicU64),
    /// Nothing but end.
    End,
    /// Locks the mutex, and releases it.
    PassThrough(Mutex),
    /// Waits for 1, stores 2, and waits for 3.
    Pong(AtomicUsize),
    /// Stores 1 to the one, and loads from the other.
    StoreAndLoad(AtomicU64, AtomicU64),
}

impl Part {
    fn play<R: Wait>(self, handle: &mut Handle<u64, R>) -> Result<u64, Stop> {
        match self {
            Part::LockBoth(outer, inner) => lock_both(handle, &outer, &inner),
            Part::AddOne(number) => handle.fetch_add(&number, 1, Relaxed),
            Part::AddTwice(number) => add_twice(handle, &number),
            Part::LoadAndStore(number) => load_and_store(handle, &number),
            Part::End => Ok(3),
            Part::PassThrough(mutex) => pass_through(handle, &mutex),
            Part::Pong(ball) => pong(handle, &ball),
            Part::StoreAndLoad(mine, theirs) => store_and_load(handle, &mine, &theirs),
        }
    }
}

impl<R: Wait> Job<u64, R> for Part {
    fn run(self, handle: &mut Handle<u64, R>) -> Result<u64, Stop> {
        self.play(handle)
    }
}

/// The threads that are kept for parts over the runs of a check, if any are.
pub type Kept = Option<Pool<u64, Part>>;

/// Starts a thread that plays this part.
fn start<R: Threads + Wait + Clone + Send + 'static>(
    handle: &mut Handle<u64, R>,
    part: Part,
) -> Result<JoinHandle, Stop> {
    handle.spawn(move |handle| part.play(handle))
}

/// Starts a thread that plays this part, on one that is kept where any are.
fn start_on<R: Threads + Wait + Clone + Send + 'static>(
    kept: &mut Kept,
    handle: &mut Handle<u64, R>,
    part: Part,
) -> Result<JoinHandle, Stop> {
    match kept {
        Some(pool) => handle.spawn_on(pool, part),
        None => start(handle, part),
    }
}

/// One thread locks a mutex and then another, a second thread the other and then the one. Main joins them.
pub fn two_mutexes<R: Threads + Wait + Clone + Send + 'static>(
    handle: &mut Handle<u64, R>,
) -> Result<u64, Stop> {
    two_mutexes_on(&mut None, handle)
}

/// That with threads that are kept, if any are.
pub fn two_mutexes_on<R: Threads + Wait + Clone + Send + 'static>(
    kept: &mut Kept,
    handle: &mut Handle<u64, R>,
) -> Result<u64, Stop> {
    let one = handle.mutex(0)?;
    let other = handle.mutex(0)?;
    let first = start_on(kept, handle, Part::LockBoth(one, other))?;
    let second = start_on(kept, handle, Part::LockBoth(other, one))?;
    handle.join(&first)?;
    handle.join(&second)
}

/// Two threads load a number, and store one more. Main finds that both have counted: the first test of loom's README.
pub fn buggy_concurrent_inc<R: Threads + Wait + Clone + Send + 'static>(
    handle: &mut Handle<u64, R>,
) -> Result<u64, Stop> {
    let num = handle.named("num").atomic(0u64)?;
    let first = start(handle, Part::LoadAndStore(num))?;
    let second = start(handle, Part::LoadAndStore(num))?;
    handle.join(&first)?;
    handle.join(&second)?;
    let total = handle.load(&num, Relaxed)?;
    handle.assert(total == 2)?;
    Ok(total)
}

fn load_and_store<R: Wait>(handle: &mut Handle<u64, R>, number: &AtomicU64) -> Result<u64, Stop> {
    let current = handle.load(number, Acquire)?;
    handle.store(number, current.wrapping_add(1), Release)?;
    Ok(0)
}

/// Holds the one while it locks the other.
pub fn lock_both<R: Wait>(
    handle: &mut Handle<u64, R>,
    outer: &Mutex,
    inner: &Mutex,
) -> Result<u64, Stop> {
    let (outer, x) = handle.lock(outer)?;
    let (inner, y) = handle.lock(inner)?;
    handle.release(inner, y)?;
    handle.release(outer, x)?;
    Ok(1)
}

/// Two threads add 1 to the same number, and what they read before differs.
pub fn two_adds<R: Threads + Wait + Clone + Send + 'static>(
    handle: &mut Handle<u64, R>,
) -> Result<u64, Stop> {
    let number = handle.atomic(0u64)?;
    let child = start(handle, Part::AddOne(number))?;
    let mine = handle.fetch_add(&number, 1, Relaxed)?;
    let theirs = handle.join(&child)?;
    handle.assert(mine != theirs)?;
    Ok(mine)
}

/// Three threads add 1 to the same number, twice each. They are kept, if any are.
pub fn three_adds<R: Threads + Wait + Clone + Send + 'static>(
    kept: &mut Kept,
    handle: &mut Handle<u64, R>,
) -> Result<u64, Stop> {
    let number = handle.atomic(0u64)?;
    let first = start_on(kept, handle, Part::AddTwice(number))?;
    let second = start_on(kept, handle, Part::AddTwice(number))?;
    add_twice(handle, &number)?;
    handle.join(&first)?;
    handle.join(&second)
}

/// Adds 1 to the number, and 1 more.
fn add_twice<R: Wait>(handle: &mut Handle<u64, R>, number: &AtomicU64) -> Result<u64, Stop> {
    handle.fetch_add(number, 1, Relaxed)?;
    handle.fetch_add(number, 1, Relaxed)?;
    Ok(0)
}

/// Main locks a mutex beside a thread that does nothing but end.
pub fn lock_beside<R: Threads + Wait + Clone + Send + 'static>(
    handle: &mut Handle<u64, R>,
) -> Result<u64, Stop> {
    let mutex = handle.mutex(0)?;
    start(handle, Part::End)?;
    pass_through(handle, &mutex)?;
    Ok(7)
}

/// Locks the mutex, and releases it.
pub fn pass_through<R: Wait>(handle: &mut Handle<u64, R>, mutex: &Mutex) -> Result<u64, Stop> {
    let (guard, value) = handle.lock(mutex)?;
    handle.release(guard, value)?;
    Ok(3)
}

/// Main stores 1 and 3, and another thread 2 in between: each waits for what the other stores.
pub fn ping_pong<R: Threads + Wait + Clone + Send + 'static>(
    handle: &mut Handle<u64, R>,
) -> Result<u64, Stop> {
    handle.stop_exploring()?;
    let ball = handle.atomic(0usize)?;
    let child = start(handle, Part::Pong(ball))?;
    ping(handle, &ball)?;
    handle.join(&child)
}

/// Stores 1, waits for 2, and stores 3.
fn ping<R: Wait>(handle: &mut Handle<u64, R>, ball: &AtomicUsize) -> Result<(), Stop> {
    handle.store(ball, 1, Release)?;
    wait_for(handle, ball, 2)?;
    handle.store(ball, 3, Release)
}

/// Waits for 1, stores 2, and waits for 3.
fn pong<R: Wait>(handle: &mut Handle<u64, R>, ball: &AtomicUsize) -> Result<u64, Stop> {
    wait_for(handle, ball, 1)?;
    handle.store(ball, 2, Release)?;
    wait_for(handle, ball, 3)?;
    Ok(0)
}

/// Loads until it reads this, and yields in between.
fn wait_for<R: Wait>(
    handle: &mut Handle<u64, R>,
    ball: &AtomicUsize,
    wanted: usize,
) -> Result<(), Stop> {
    handle.until(|handle| Ok(handle.load(ball, Acquire)? == wanted))
}

/// Main locks a mutex, which a thread locks and releases, and ends without a release.
pub fn guard_left<R: Threads + Wait + Clone + Send + 'static>(
    handle: &mut Handle<u64, R>,
) -> Result<u64, Stop> {
    let mutex = handle.mutex(0)?;
    start(handle, Part::PassThrough(mutex))?;
    handle.lock(&mutex)?;
    Ok(7)
}

/// Main is given a stop, calls once more, and passes over the stop that it is given again.
pub fn deaf<R: Wait>(handle: &mut Handle<u64, R>) -> Result<u64, Stop> {
    handle.fail();
    match handle.yield_now() {
        Ok(()) => Ok(1),
        Err(_) => Ok(0),
    }
}

/// Two threads store to an atomic each, and load from the other's. Main is one of them.
pub fn store_buffering<R: Threads + Wait + Clone + Send + 'static>(
    handle: &mut Handle<u64, R>,
) -> Result<u64, Stop> {
    store_buffering_on(&mut None, handle)
}

/// That with a thread that is kept, if any are.
pub fn store_buffering_on<R: Threads + Wait + Clone + Send + 'static>(
    kept: &mut Kept,
    handle: &mut Handle<u64, R>,
) -> Result<u64, Stop> {
    let x = handle.atomic(0u64)?;
    let y = handle.atomic(0u64)?;
    let child = start_on(kept, handle, Part::StoreAndLoad(x, y))?;
    let mine = store_and_load(handle, &y, &x)?;
    let theirs = handle.join(&child)?;
    Ok(theirs.wrapping_mul(10).wrapping_add(mine))
}

/// Stores 1 to the one, and loads from the other.
fn store_and_load<R: Wait>(
    handle: &mut Handle<u64, R>,
    mine: &AtomicU64,
    theirs: &AtomicU64,
) -> Result<u64, Stop> {
    handle.store(mine, 1, Relaxed)?;
    handle.load(theirs, Relaxed)
}
