//! A ring of two cells for one producer and one consumer: one atomic counts the items that were put in, and one those that were
//! taken out. A thread puts 11, 12 and 13 in. Main takes them out, and asserts which they are.
use loom::runner::handle::Handle;
use loom::runner::stop::Stop;
use loom_ops::cell::Cell;
use loom_ops::sync::atomic::AtomicU64;
use loom_ops::sync::atomic::Ordering::{self, Acquire, Release};
use std::sync::Wait;
use std::thread::Threads;

/// The ring, as both threads know it.
#[derive(Clone, Copy)]
struct Ring {
    /// How many items were taken out.
    taken: AtomicU64,
    /// How many were put in.
    put: AtomicU64,
    /// Where the first item and the third one lie.
    even: Cell,
    /// Where the second item lies.
    odd: Cell,
}

/// Main. The producer publishes an item by this ordering: `Release` is right, and `Relaxed` wrong, since main may know of the count
/// then, and not of the item.
pub fn through_ring<R: Threads + Wait + Clone + Send + 'static>(
    handle: &mut Handle<u64, R>,
    publish: Ordering,
) -> Result<u64, Stop> {
    let ring = new_ring(handle)?;
    handle
        .thread("producer")
        .spawn(move |handle| produce(handle, &ring, publish))?;
    consume(handle, &ring)
}

/// A ring without an item.
fn new_ring<R: Wait>(handle: &mut Handle<u64, R>) -> Result<Ring, Stop> {
    let taken = handle.named("taken").atomic(0u64)?;
    let put = handle.named("put").atomic(0u64)?;
    let even = handle.named("even").cell(0)?;
    let odd = handle.named("odd").cell(0)?;
    Ok(Ring {
        taken,
        put,
        even,
        odd,
    })
}

/// Puts three items in. The third one waits for room.
fn produce<R: Wait>(
    handle: &mut Handle<u64, R>,
    ring: &Ring,
    publish: Ordering,
) -> Result<u64, Stop> {
    put(handle, ring, 1, 11, publish)?;
    put(handle, ring, 2, 12, publish)?;
    change_of(handle, &ring.taken, 0)?;
    put(handle, ring, 3, 13, publish)?;
    Ok(0)
}

/// Puts this item in, which makes so many.
fn put<R: Wait>(
    handle: &mut Handle<u64, R>,
    ring: &Ring,
    count: u64,
    item: u64,
    publish: Ordering,
) -> Result<(), Stop> {
    let cell = if count == 2 { &ring.odd } else { &ring.even };
    handle.set(cell, item)?;
    handle.store(&ring.put, count, publish)
}

/// Takes the three items out.
fn consume<R: Wait>(handle: &mut Handle<u64, R>, ring: &Ring) -> Result<u64, Stop> {
    take(handle, ring, 0, &ring.even, 11)?;
    handle.store(&ring.taken, 1, Release)?;
    take(handle, ring, 1, &ring.odd, 12)?;
    handle.store(&ring.taken, 2, Release)?;
    take(handle, ring, 2, &ring.even, 13)?;
    Ok(0)
}

/// Waits until more than so many items were put in, and asserts that the next one is this.
fn take<R: Wait>(
    handle: &mut Handle<u64, R>,
    ring: &Ring,
    taken: u64,
    cell: &Cell,
    wanted: u64,
) -> Result<(), Stop> {
    change_of(handle, &ring.put, taken)?;
    let item = handle.copied(cell)?;
    handle.assert(item == wanted)
}

/// Waits until the atomic holds something other than this.
fn change_of<R: Wait>(
    handle: &mut Handle<u64, R>,
    atomic: &AtomicU64,
    old: u64,
) -> Result<(), Stop> {
    handle.until(|handle| Ok(handle.load(atomic, Acquire)? != old))
}
