//! A spin lock, and a cell that it guards. Two threads take the lock, and each adds one to the number in the cell.
use loom::runner::handle::Handle;
use loom::runner::stop::Stop;
use loom_ops::cell::UnsafeCell;
use loom_ops::sync::atomic::AtomicBool;
use loom_ops::sync::atomic::Ordering::{self, Acquire, Relaxed};
use std::sync::Wait;
use std::thread::Threads;

/// Main. Both threads free the lock by this ordering: `Release` is right, and `Relaxed` wrong.
pub fn spin_lock<R: Threads + Wait + Clone + Send + 'static>(
    handle: &mut Handle<u64, R>,
    release: Ordering,
) -> Result<u64, Stop> {
    let flag = handle.atomic(false)?;
    let cell = handle.unsafe_cell(0)?;
    handle.spawn(move |handle| add_one(handle, &flag, &cell, release))?;
    add_one(handle, &flag, &cell, release)
}

/// Takes the lock, adds one, and frees the lock.
fn add_one<R: Wait>(
    handle: &mut Handle<u64, R>,
    flag: &AtomicBool,
    cell: &UnsafeCell,
    release: Ordering,
) -> Result<u64, Stop> {
    handle.until(|handle| {
        let exchanged = handle.compare_exchange(flag, false, true, Acquire, Relaxed)?;
        Ok(exchanged.is_ok())
    })?;
    handle.with_mut(cell, |number| *number = number.wrapping_add(1))?;
    handle.store(flag, false, release)?;
    Ok(0)
}
