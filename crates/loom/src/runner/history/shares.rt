//! Whether told lists are those of a history.
ghost use Rattle.std.specs.Prelude.{◌≡◌, ◌↔◌, IsTrue};
ghost use Rattle.loom.specs.Runner.Events.{AreShares, part, is_listed, is_own, share};

use crate::runner::exact::Exact;
use crate::runner::history::History;
use crate::runner::history::entry::is_entry;
use crate::runner::history::event::{Entry, Event};
use crate::runner::history::told::Told;
use loom_objects::operation::{Request, ThreadOp};

/// Whether the operation is an entry of its thread's list: each is but the thread's last one.
fn is_listed<D>(op: &Request<D, ()>) -> bool
    ensures { result ≡ is_listed op.now }
{
    match op {
        Request::Thread(ThreadOp::End) => false,
        _ => true,
    }
}

/// Whether the event is an operation of the thread, and an entry of its list.
fn is_own_event<D>(event: &Event<D>, thread: u8) -> bool
    ensures { result ≡ is_own thread event.now }
{
    event.by == thread && is_listed(&event.op)
}

/// Whether the entries are the thread's part of the history.
fn is_part<D: Exact>(history: &[Event<D>], thread: u8, entries: &[Entry<D>]) -> bool
    ensures { IsTrue result ↔ (part thread history.now ≡ entries.now) }
{
    let mut rest = history;
    let mut left = entries;
    while let Some((first, tail)) = rest.split_first() {
        if is_own_event(first, thread) {
            let Some((entry, others)) = left.split_first() else {
                return false;
            };
            if !is_entry(entry, &first.op, rest, thread) {
                return false;
            }
            left = others;
        }
        rest = tail;
    }
    left.is_empty()
}

/// Whether the list is that of the thread with this number.
fn is_share<D: Exact>(list: &Told<D>, thread: usize, history: &[Event<D>]) -> bool
    ensures { IsTrue result ↔ (list.now ≡ share thread (part thread history.now)) }
{
    list.thread as usize == thread && is_part(history, list.thread, list.entries.as_slice())
}

/// Whether there is a list for each thread, with its part of the history (own).
pub fn are_shares<D: Exact>(told: &[Told<D>], history: &History<D>) -> bool
    ensures { IsTrue result ↔ AreShares told.now history.now }
{
    if told.len() != history.threads() {
        return false;
    }
    let events = history.events();
    for (k, list) in told.iter().enumerate() {
        if !is_share(list, k, events) {
            return false;
        }
    }
    true
}
