//! The events of a history, as an explanation tells them.
ghost use Rattle.std.specs.Prelude.{◌≡◌, IfOk};
ghost use Rattle.loom.specs.Runner.Explained.{told_by, told_event, told_events};

use crate::runner::exact::{ByType, Exact};
use crate::runner::history::event::Event;
use loom_explain::event::Event as Told;
use loom_explain::values::{Values, text_of_reply, text_of_request};
use loom_objects::failure::Failure;
use loom_objects::operation::{Labelled, Reply, Turn, bare_reply, bare_request};
use std::alloc::{AllocError, Global};

/// The events of a history, each with the reply that its thread got before. Data are `()` (own).
pub fn told_events<D>(alloc: Global, history: &[Event<D>]) -> Result<Vec<Told>, AllocError>
    ensures { IfOk result (λ events. events.items ≡ told_events history.now) }
{
    let mut events = Vec::new(alloc);
    let mut told = Reply::Start;
    let mut rest = history;
    while let Some((first, tail)) = rest.split_first() {
        events.push(told_event(told, first))?;
        told = told_by(alloc, &first.outcome)?;
        rest = tail;
    }
    Ok(events)
}

/// The data of each event of a history as texts, where their type shows them (own).
pub fn told_values<D: Exact>(
    alloc: Global,
    history: &[Event<D>],
) -> Result<Vec<Values>, AllocError> {
    let mut values = Vec::new(alloc);
    let mut told = None;
    for event in history {
        let handed_over = text_of_request(alloc, &ByType, &event.op)?;
        values.push(Values { told, handed_over })?;
        told = match &event.outcome {
            Ok(Turn::Reply(_, reply)) => text_of_reply(alloc, &ByType, reply)?,
            Ok(Turn::Start(_)) | Ok(Turn::Ended(_)) | Err(_) => None,
        };
    }
    Ok(values)
}

/// The thread has handed over the operation after this reply.
fn told_event<D>(told: Reply<()>, event: &Event<D>) -> Told
    ensures { result ≡ told_event told event.now }
{
    Told {
        thread: event.by,
        told,
        op: Labelled {
            request: bare_request(&event.op),
            label: event.label,
        },
        choices_before: event.choices_before,
    }
}

/// The reply to the thread whose turn comes.
fn told_by<D>(alloc: Global, outcome: &Result<Turn<D>, Failure>) -> Result<Reply<()>, AllocError>
    ensures { IfOk result (λ told. told ≡ told_by outcome.now) }
{
    match outcome {
        Ok(Turn::Reply(_, reply)) => bare_reply(alloc, reply),
        Ok(Turn::Start(_)) | Ok(Turn::Ended(_)) | Err(_) => Ok(Reply::Start),
    }
}
