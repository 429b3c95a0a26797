//! What the last event of a run says.
ghost use Rattle.std.specs.Prelude.{◌≡◌, ◌↔◌, IfOk, IsTrue, MatchOption, None, Some};
ghost use Rattle.loom.specs.Runner.Events.{last_event, end_in, ended_by, failed_by, IsReplied, next_turn, reply_in, start_in, starting, turn_in};

use crate::runner::exact::Exact;
use crate::runner::history::entry::reply_to;
use crate::runner::history::event::Event;
use crate::runner::history::{History, MISUSE};
use crate::runner::stop::Stop;
use loom_objects::failure::Failure;
use loom_objects::operation::{Reply, Turn, copy_reply};
use std::alloc::{AllocError, Global};

impl<D> History<D> {
    /// What each further operation is answered, if the last event has ended the run or failed it (own).
    pub fn end(&self) -> Option<Failure>
        ensures { result ≡ end_in self.now }
    {
        end_of(self.events())
    }

    /// Why the run failed, if the last event is a failure (own).
    pub fn failure(&self) -> Option<Failure>
        ensures { result ≡ failed_by (last_event self.now) }
    {
        failure_in(self.events())
    }

    /// Whose turn it is by the last event (own).
    pub fn turn(&self) -> Option<u8>
        ensures { result ≡ turn_in self.now }
    {
        turn_by(self.events())
    }

    /// Whether it is the thread's turn by the last event (own).
    pub fn is_turn_of(&self, thread: u8) -> bool
        ensures { IsTrue result ↔ (turn_in self.now ≡ Some thread) }
    {
        is_turn_in(self.events(), thread)
    }

    /// Whether the thread starts by the last event (own).
    pub fn starts(&self, thread: u8) -> bool
        ensures { IsTrue result ↔ (start_in self.now ≡ Some thread) }
    {
        starts_in(self.events(), thread)
    }
}

impl<D: Exact> History<D> {
    /// Main's result, if the last event has ended the run. It fails only where a growth is refused (own).
    pub fn value(&self) -> Result<Option<D>, AllocError>
        ensures { IfOk result (λ value. value ≡ ended_by (last_event self.now)) }
    {
        value_in(self.events())
    }

    /// A copy of the reply to the thread in the last event, or `MISUSE` where that has none. `Memory` where a growth is refused
    /// (own).
    pub fn reply(&self, alloc: Global, thread: u8) -> Result<Reply<D>, Stop>
        ensures { IsReplied thread self.now result }
    {
        match reply_in(self.events(), thread) {
            Some(reply) => match copy_reply(alloc, reply) {
                Ok(copy) => Ok(copy),
                Err(_) => Err(Stop::Memory),
            },
            None => Err(Stop::Failure(MISUSE)),
        }
    }
}

/// What each further operation is answered, if the last event has ended the run or failed it.
fn end_of<D>(history: &[Event<D>]) -> Option<Failure>
    ensures { result ≡ end_in history.now }
{
    let event = history.last()?;
    match &event.outcome {
        Err(failure) => Some(*failure),
        Ok(Turn::Ended(_)) => Some(MISUSE),
        Ok(Turn::Reply(..)) | Ok(Turn::Start(_)) => None,
    }
}

/// Why the run failed, if the last event is a failure.
fn failure_in<D>(history: &[Event<D>]) -> Option<Failure>
    ensures { result ≡ failed_by (last_event history.now) }
{
    let event = history.last()?;
    match &event.outcome {
        Err(failure) => Some(*failure),
        Ok(_) => None,
    }
}

/// Main's result, if the last event has ended the run.
fn ended_in<D>(history: &[Event<D>]) -> Option<&D>
    ensures { MatchOption result (ended_by (last_event history.now) ≡ None) (λ value. ended_by (last_event history.now) ≡ Some value.now) }
{
    let event = history.last()?;
    match &event.outcome {
        Ok(Turn::Ended(value)) => Some(value),
        Ok(Turn::Reply(..)) => None,
        Ok(Turn::Start(_)) => None,
        Err(_) => None,
    }
}

/// A copy of main's result, if the last event has ended the run. It fails only where a growth is refused.
fn value_in<D: Exact>(history: &[Event<D>]) -> Result<Option<D>, AllocError>
    ensures { IfOk result (λ value. value ≡ ended_by (last_event history.now)) }
{
    let Some(value) = ended_in(history) else {
        return Ok(None);
    };
    Ok(Some(value.try_clone()?))
}

/// Whose turn it is by the last event.
fn turn_by<D>(history: &[Event<D>]) -> Option<u8>
    ensures { result ≡ turn_in history.now }
{
    let event = history.last()?;
    next_of(&event.outcome)
}

/// Whether it is the thread's turn by the last event.
fn is_turn_in<D>(history: &[Event<D>], thread: u8) -> bool
    ensures { IsTrue result ↔ (turn_in history.now ≡ Some thread) }
{
    match history.last() {
        Some(event) => is_turn(&event.outcome, thread),
        None => false,
    }
}

/// Whether the thread starts by the last event.
fn starts_in<D>(history: &[Event<D>], thread: u8) -> bool
    ensures { IsTrue result ↔ (start_in history.now ≡ Some thread) }
{
    match history.last() {
        Some(event) => is_start(&event.outcome, thread),
        None => false,
    }
}

/// The reply to the thread in the last event.
fn reply_in<D>(history: &[Event<D>], thread: u8) -> Option<&Reply<D>>
    ensures { MatchOption result (reply_in thread history.now ≡ None) (λ r. reply_in thread history.now ≡ Some r.now) }
{
    let event = history.last()?;
    reply_to(&event.outcome, thread)
}

/// Whose turn is the next one.
fn next_of<D>(outcome: &Result<Turn<D>, Failure>) -> Option<u8>
    ensures { result ≡ next_turn outcome.now }
{
    match outcome {
        Ok(Turn::Reply(next, _)) => Some(*next),
        Ok(Turn::Start(next)) => Some(*next),
        Ok(Turn::Ended(_)) | Err(_) => None,
    }
}

/// Whether the next turn is the thread's.
fn is_turn<D>(outcome: &Result<Turn<D>, Failure>, thread: u8) -> bool
    ensures { IsTrue result ↔ (next_turn outcome.now ≡ Some thread) }
{
    match outcome {
        Ok(Turn::Reply(next, _)) | Ok(Turn::Start(next)) => *next == thread,
        Ok(Turn::Ended(_)) | Err(_) => false,
    }
}

/// Whether the next turn is the thread's first one.
fn is_start<D>(outcome: &Result<Turn<D>, Failure>, thread: u8) -> bool
    ensures { IsTrue result ↔ (starting outcome.now ≡ Some thread) }
{
    match outcome {
        Ok(Turn::Start(next)) => *next == thread,
        Ok(Turn::Reply(..)) | Ok(Turn::Ended(_)) | Err(_) => false,
    }
}
