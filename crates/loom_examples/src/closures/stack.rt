//! Treiber's stack: an atomic names the node on top, and each node the one below it. A thread puts a node on top by a
//! compare-exchange, and takes one off by one. Main and two threads each put a node on it, and take one off.
use loom::runner::handle::Handle;
use loom::runner::stop::Stop;
use loom_ops::cell::Cell;
use loom_ops::sync::atomic::AtomicU64;
use loom_ops::sync::atomic::Ordering::{self, Acquire, Relaxed};
use std::sync::Wait;
use std::thread::Threads;

/// The stack, as each thread knows it. Its nodes are 1, 2 and 3, and 0 is none.
#[derive(Clone, Copy)]
struct Stack {
    /// The node on top.
    top: AtomicU64,
    /// The node below node 1.
    below_one: Cell,
    /// The node below node 2.
    below_two: Cell,
    /// The node below node 3.
    below_three: Cell,
}

/// Main. A node is put on top by this ordering: `Release` is right, and `Relaxed` wrong, since who takes the node off may not know
/// then what is below it.
pub fn through_stack<R: Threads + Wait + Clone + Send + 'static>(
    handle: &mut Handle<u64, R>,
    publish: Ordering,
) -> Result<u64, Stop> {
    let stack = new_stack(handle)?;
    let first = handle.spawn(move |handle| put_and_take(handle, &stack, 1, publish))?;
    let second = handle.spawn(move |handle| put_and_take(handle, &stack, 2, publish))?;
    let mine = put_and_take(handle, &stack, 3, publish)?;
    let one = handle.join(&first)?;
    let other = handle.join(&second)?;
    handle.assert(mine != one && one != other && other != mine)?;
    Ok(mine)
}

/// A stack without a node.
fn new_stack<R: Wait>(handle: &mut Handle<u64, R>) -> Result<Stack, Stop> {
    let top = handle.named("top").atomic(0u64)?;
    let below_one = handle.cell(0)?;
    let below_two = handle.cell(0)?;
    let below_three = handle.cell(0)?;
    Ok(Stack {
        top,
        below_one,
        below_two,
        below_three,
    })
}

/// Puts this node on the stack, and takes one off.
fn put_and_take<R: Wait>(
    handle: &mut Handle<u64, R>,
    stack: &Stack,
    node: u64,
    publish: Ordering,
) -> Result<u64, Stop> {
    put(handle, stack, node, publish)?;
    take(handle, stack)
}

/// Puts this node on top. A try that fails says which node is on top.
fn put<R: Wait>(
    handle: &mut Handle<u64, R>,
    stack: &Stack,
    node: u64,
    publish: Ordering,
) -> Result<(), Stop> {
    let mut top = handle.load(&stack.top, Relaxed)?;
    handle.until(|handle| {
        handle.set(below(stack, node), top)?;
        let put = handle.compare_exchange(&stack.top, top, node, publish, Relaxed)?;
        if let Err(now) = put {
            top = now;
        }
        Ok(put.is_ok())
    })
}

/// Takes the node on top off, and answers it, or 0 where there is none.
fn take<R: Wait>(handle: &mut Handle<u64, R>, stack: &Stack) -> Result<u64, Stop> {
    let mut top = handle.load(&stack.top, Acquire)?;
    handle.until(|handle| {
        if top == 0 {
            return Ok(true);
        }
        let next = handle.copied(below(stack, top))?;
        let taken = handle.compare_exchange(&stack.top, top, next, Acquire, Acquire)?;
        if let Err(now) = taken {
            top = now;
        }
        Ok(taken.is_ok())
    })?;
    Ok(top)
}

/// Where the node below this one is named.
fn below(stack: &Stack, node: u64) -> &Cell {
    match node {
        1 => &stack.below_one,
        2 => &stack.below_two,
        _ => &stack.below_three,
    }
}
