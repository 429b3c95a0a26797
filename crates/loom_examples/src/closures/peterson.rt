//! Peterson's lock for two threads. Each raises its flag, lets the other one go first, and enters where the other's flag is down or
//! it is let go first itself. Both add one to the number in a cell.
use loom::runner::handle::Handle;
use loom::runner::stop::Stop;
use loom_ops::cell::UnsafeCell;
use loom_ops::sync::atomic::Ordering::{self, Acquire, Relaxed, Release};
use loom_ops::sync::atomic::{AtomicBool, AtomicU64};
use std::sync::Wait;
use std::thread::Threads;

/// The lock, as one of the two threads knows it.
#[derive(Clone, Copy)]
struct Side {
    /// Its own flag.
    mine: AtomicBool,
    /// The other's flag.
    theirs: AtomicBool,
    /// The number of the other thread.
    other: u64,
    /// Which thread goes first.
    turn: AtomicU64,
    /// What the lock guards.
    count: UnsafeCell,
    /// The ordering of the fences.
    fence: Ordering,
}

/// Main, which adds one beside another thread. With fences of this ordering: `SeqCst` is right, and `AcqRel` wrong, since both threads
/// may find the other's flag down then.
pub fn petersons_lock<R: Threads + Wait + Clone + Send + 'static>(
    handle: &mut Handle<u64, R>,
    fence: Ordering,
) -> Result<u64, Stop> {
    let side = new_lock(handle, fence)?;
    let opposite = Side {
        mine: side.theirs,
        theirs: side.mine,
        other: 0,
        ..side
    };
    let child = handle.spawn(move |handle| add_one(handle, &opposite))?;
    add_one(handle, &side)?;
    handle.join(&child)?;
    let total = handle.with(&side.count, |count| *count)?;
    handle.assert(total == 2)?;
    Ok(0)
}

/// The lock, as main knows it.
fn new_lock<R: Wait>(handle: &mut Handle<u64, R>, fence: Ordering) -> Result<Side, Stop> {
    let mine = handle.atomic(false)?;
    let theirs = handle.atomic(false)?;
    let turn = handle.atomic(0u64)?;
    let count = handle.unsafe_cell(0)?;
    Ok(Side {
        mine,
        theirs,
        other: 1,
        turn,
        count,
        fence,
    })
}

/// Takes the lock, adds one, and frees the lock. The thread may enter where the other's flag is down, or the other one has let it go
/// first.
fn add_one<R: Wait>(handle: &mut Handle<u64, R>, side: &Side) -> Result<u64, Stop> {
    ask_for_lock(handle, side)?;
    handle.until(|handle| {
        let is_raised = handle.load(&side.theirs, Acquire)?;
        Ok(!is_raised || handle.load(&side.turn, Acquire)? != side.other)
    })?;
    handle.with_mut(&side.count, |count| *count = count.wrapping_add(1))?;
    handle.store(&side.mine, false, Release)?;
    Ok(0)
}

/// Raises the flag, and lets the other thread go first.
fn ask_for_lock<R: Wait>(handle: &mut Handle<u64, R>, side: &Side) -> Result<(), Stop> {
    handle.store(&side.mine, true, Relaxed)?;
    handle.fence(side.fence)?;
    handle.store(&side.turn, side.other, Relaxed)?;
    handle.fence(side.fence)
}
