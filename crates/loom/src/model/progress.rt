//! What a check logs of a run, and how far it has come.
ghost use Rattle.std.specs.Prelude.{◌≤◌};

use log::{Log, debug, info, target_or};
use loom_engine::rt::path::Path;
use loom_engine::rt::path::node::{Node, Schedule, Status, count_slots};
use loom_objects::choice::Choice;

/// A whole search. A share of it is a number below this.
pub(crate) const WHOLE: u64 = 1_000_000_000_000_000_000;

// The hundredth part of a search.
const PER_CENT: u64 = 10_000_000_000_000_000;

/// The threads that became active in the run that the path has passed, one after another.
pub(crate) fn log_switches<L: Log>(log: &L, path: &Path) {
    let mut active = 0u8;
    for place in 0..path.position() {
        if let Some(node) = path.node(place)
            && let Choice::Thread(Some(thread)) = node.choice()
            && thread != active
        {
            active = thread;
            debug!(log; target: "loom::progress", "thread {}", thread);
        }
    }
}

/// Logs how much of a search is done, in per cent, where it has reached this path. That is estimated from the options along the path:
/// as if as many runs came of one option of a node as of another.
pub(crate) fn log_share<L: Log>(log: &L, path: &Path) {
    let share = per_cent(share_above(path, 0, WHOLE));
    info!(log; target: target_or(log, "loom::search"), "about {}% done", share);
}

/// A share in per cent, rounded down.
pub(crate) fn per_cent(share: u64) -> u64
    ensures { result ≤ 100 }
{
    (share / PER_CENT).min(100)
}

/// Which share is done where a search has reached this path, of the share that its nodes from this place on stand for.
pub(crate) fn share_above(path: &Path, floor: usize, share: u64) -> u64 {
    let mut done = 0u64;
    let mut left = share;
    for place in floor..path.len() {
        if let Some(node) = path.node(place) {
            let (tried, options) = options_at(&node);
            left /= options.max(1);
            done = done.saturating_add(left.saturating_mul(tried));
        }
    }
    done
}

/// How many of the node's options were tried before its choice, and how many it is known to have.
fn options_at(node: &Node) -> (u64, u64) {
    match node {
        Node::Schedule(schedule) => {
            let tried = threads(schedule, Status::Visited);
            (tried, tried + 1 + threads(schedule, Status::Pending))
        }
        Node::Load(load) if load.exploring => {
            (load.position as u64, count_slots(&load.readable) as u64)
        }
        Node::Spurious(spurious) if spurious.exploring => (spurious.answer as u64, 2),
        Node::Load(_) | Node::Spurious(_) => (0, 1),
    }
}

/// How many threads have this status.
fn threads(schedule: &Schedule, status: Status) -> u64
    ensures { result ≤ 5 }
{
    schedule
        .statuses
        .iter()
        .filter(|other| **other == status)
        .count() as u64
}
