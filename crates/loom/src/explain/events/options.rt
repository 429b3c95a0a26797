//! What could be chosen at the nodes of a run.
ghost use Rattle.std.specs.Prelude.{◌≡◌, IfOk, length};

use loom_engine::rt::path::node::{Node, Status};
use loom_explain::explanation::Options;
use loom_views::rt::{MAX_ATOMIC_HISTORY, MAX_THREADS};
use std::alloc::{AllocError, Global};

/// What could be chosen at each of these nodes.
pub fn options_at(alloc: Global, nodes: &[Node]) -> Result<Vec<Options>, AllocError>
    ensures { IfOk result (λ options. length options.items ≡ length nodes.now) }
{
    let mut options = Vec::new(alloc);
    for node in nodes {
        options.push(options_of(alloc, node)?)?;
    }
    Ok(options)
}

fn options_of(alloc: Global, node: &Node) -> Result<Options, AllocError> {
    match node {
        Node::Schedule(schedule) => Ok(Options::Threads(able(alloc, &schedule.statuses)?)),
        Node::Load(load) => Ok(Options::Slots(readable(alloc, &load.readable)?)),
        Node::Spurious(_) => Ok(Options::Wakes),
    }
}

/// The threads that could go on.
fn able(alloc: Global, statuses: &[Status; MAX_THREADS]) -> Result<Vec<u8>, AllocError> {
    let mut threads = Vec::new(alloc);
    for (thread, status) in statuses.iter().enumerate() {
        match status {
            Status::Skip | Status::Pending | Status::Active | Status::Visited => {
                threads.push(thread as u8)?;
            }
            Status::Disabled | Status::Yield => {}
        }
    }
    Ok(threads)
}

/// The slots that could be read.
fn readable(alloc: Global, slots: &[bool; MAX_ATOMIC_HISTORY]) -> Result<Vec<u8>, AllocError> {
    let mut readable = Vec::new(alloc);
    for (slot, is_readable) in slots.iter().enumerate() {
        if *is_readable {
            readable.push(slot as u8)?;
        }
    }
    Ok(readable)
}
