//! Whether an entry of a told list is that of an event: its operation, with the reply to it.
ghost use Rattle.std.specs.Prelude.{◌≡◌, ◌↔◌, IsTrue, MatchOption, None, Some};
ghost use Rattle.loom.specs.Runner.Events.{answer, entry, replied};

use crate::runner::exact::Exact;
use crate::runner::history::event::{Entry, Event};
use crate::runner::same::{is_same_reply, is_same_request};
use loom_objects::failure::Failure;
use loom_objects::operation::{Reply, Request, Turn};

/// The reply to the thread, if the outcome is one (own).
pub fn reply_to<D>(outcome: &Result<Turn<D>, Failure>, thread: u8) -> Option<&Reply<D>>
    ensures { MatchOption result (replied thread outcome.now ≡ None) (λ r. replied thread outcome.now ≡ Some r.now) }
{
    match outcome {
        Ok(Turn::Reply(next, reply)) if *next == thread => Some(reply),
        Ok(Turn::Reply(..)) | Ok(Turn::Start(_)) => None,
        Ok(Turn::Ended(_)) | Err(_) => None,
    }
}

/// The first reply to the thread in the history.
fn answer_to<D>(history: &[Event<D>], thread: u8) -> Option<&Reply<D>>
    ensures { MatchOption result (answer thread history.now ≡ None) (λ r. answer thread history.now ≡ Some r.now) }
{
    let mut rest = history;
    while let Some((first, tail)) = rest.split_first() {
        if let Some(reply) = reply_to(&first.outcome, thread) {
            return Some(reply);
        }
        rest = tail;
    }
    None
}

/// Whether the entry is the operation, with the first reply to the thread in the history (own).
pub fn is_entry<D: Exact>(
    told: &Entry<D>,
    op: &Request<D, ()>,
    history: &[Event<D>],
    thread: u8,
) -> bool
    ensures { IsTrue result ↔ (told.now ≡ entry op.now (answer thread history.now)) }
{
    if !is_same_request(&told.op, op) {
        return false;
    }
    match answer_to(history, thread) {
        Some(reply) => match &told.reply {
            Some(x) => is_same_reply(x, reply),
            None => false,
        },
        None => told.reply.is_none(),
    }
}
