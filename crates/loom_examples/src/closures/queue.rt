//! A queue with room for one item, by a mutex and a condition variable. The mutex holds how many items there are. One thread puts two
//! items in, another one puts one, and main takes all three out.
use loom::runner::handle::Handle;
use loom::runner::stop::Stop;
use loom_ops::sync::condvar::Condvar;
use loom_ops::sync::mutex::Mutex;
use std::sync::Wait;
use std::thread::Threads;

/// Whom a thread notifies after a change.
#[derive(Clone, Copy)]
pub enum Notifies {
    /// All that sleep, which is right.
    All,
    /// The one that has slept longest, which may be one that can't go on. Then all sleep.
    One,
}

/// The queue, as each thread knows it.
#[derive(Clone, Copy)]
struct Queue {
    items: Mutex,
    changed: Condvar,
    notifies: Notifies,
}

/// Main, where the threads notify so.
pub fn through_queue<R: Threads + Wait + Clone + Send + 'static>(
    handle: &mut Handle<u64, R>,
    notifies: Notifies,
) -> Result<u64, Stop> {
    let items = handle.mutex(0)?;
    let changed = handle.condvar()?;
    let queue = Queue {
        items,
        changed,
        notifies,
    };
    start_putting(handle, queue, true)?;
    start_putting(handle, queue, false)?;
    take_three(handle, &queue)
}

/// Starts a thread that puts an item in, or two.
fn start_putting<R: Threads + Wait + Clone + Send + 'static>(
    handle: &mut Handle<u64, R>,
    queue: Queue,
    is_double: bool,
) -> Result<(), Stop> {
    handle.spawn(move |handle| {
        if is_double {
            put(handle, &queue)?;
        }
        put(handle, &queue)
    })?;
    Ok(())
}

/// Takes the three items out.
fn take_three<R: Wait>(handle: &mut Handle<u64, R>, queue: &Queue) -> Result<u64, Stop> {
    take(handle, queue)?;
    take(handle, queue)?;
    take(handle, queue)
}

/// Puts an item in, once there is room.
fn put<R: Wait>(handle: &mut Handle<u64, R>, queue: &Queue) -> Result<u64, Stop> {
    turn_to(handle, queue, 1)
}

/// Takes an item out, once there is one.
fn take<R: Wait>(handle: &mut Handle<u64, R>, queue: &Queue) -> Result<u64, Stop> {
    turn_to(handle, queue, 0)
}

/// Waits until the queue holds something other than so many items. Then it holds so many, and waiters are notified.
fn turn_to<R: Wait>(handle: &mut Handle<u64, R>, queue: &Queue, count: u64) -> Result<u64, Stop> {
    let (guard, items) = handle.lock(&queue.items)?;
    let (guard, _) = handle.wait_while(&queue.changed, guard, items, |items| *items == count)?;
    handle.release(guard, count)?;
    match queue.notifies {
        Notifies::All => handle.notify_all(&queue.changed)?,
        Notifies::One => handle.notify_one(&queue.changed)?,
    }
    Ok(0)
}
