//! A run that was made of the closure is put into the recording, event by event.
ghost use Rattle.std.specs.Prelude.{◌≡◌, ◌<◌, length, IfErr, IfOk, IfSome, List, None, OnOk, slice_set, vec_len};
ghost use Rattle.loom_engine.specs.Runs.Body.{with_child};
ghost use Rattle.loom.specs.Runner.Recorded.{Function, IsDone, Word};
ghost use Rattle.loom.specs.Runner.Recording.{AreAt, HandsOver, HasAnswered, IsAsked, IsOfRun, IsTrueOf, told_next};

use crate::runner::error::{Changed, RunnerError};
use crate::runner::exact::Exact;
use crate::runner::history::event::Event;
use crate::runner::history::telling::told_events;
use crate::runner::recorded::recording::Recording;
use crate::runner::same::is_same_request;
use loom_explain::text::changes::recorded_change_text;
use loom_objects::failure::Failure;
use loom_objects::label::location_in;
use loom_objects::operation::{Reply, Request, Turn, bare_request, copy_reply};
use std::alloc::{AllocError, Global};

/// Where many answers are recorded, they are let go, and come again by runs of the closure.
pub(crate) fn make_room<D: Exact>(
    alloc: Global,
    recording: &mut Recording<D>,
) -> Result<(), RunnerError>
    ensures errors { IfErr result IsOfRun }
    ensures stays { (does : Function D) → (words : List (Word D)) → IsTrueOf does words recording.old → OnOk result ((more : List (Word D)) × IsTrueOf does more recording.new) }
{
    if !recording.is_full() {
        return Ok(());
    }
    let Ok(fresh) = Recording::new(alloc) else {
        return Err(RunnerError::Memory);
    };
    *recording = fresh;
    Ok(())
}

/// Records the events of the run of this number. `Changed` where a thread hands over another operation than before, after the same replies,
/// `Memory` where a growth is refused or too many answers are recorded.
pub(crate) fn record_run<D: Exact>(
    alloc: Global,
    recording: &mut Recording<D>,
    number: u64,
    events: &[Event<D>],
) -> Result<(), RunnerError>
    ensures errors { IfErr result IsOfRun }
    ensures recorded { (does : Function D) → (words : List (Word D)) → IsTrueOf does words recording.old → IsDone does events.now → OnOk result ((more : List (Word D)) × IsTrueOf does more recording.new) }
{
    let mut places = Vec::new(alloc);
    let Ok(()) = places.push(0) else {
        return Err(RunnerError::Memory);
    };
    let mut thread = 0u8;
    let mut reply = Reply::Start;
    let mut rest = events;
    while let Some((event, others)) = rest.split_first() {
        let recorded = record_event(alloc, recording, &mut places, thread, &reply, event);
        reply.let_go();
        if let Some(other) = recorded? {
            let before = bare_request(&recording.answer(other).op);
            let place = events.len() - rest.len();
            return Err(changed(alloc, number, before, events, place));
        }
        let Some((next, told)) = next_turn(alloc, &event.outcome)? else {
            return Ok(());
        };
        thread = next;
        reply = told;
        rest = others;
    }
    reply.let_go();
    Ok(())
}

/// Whose turn comes after an event, and the reply to that thread. `Memory` where a copy is refused.
fn next_turn<D: Exact>(
    alloc: Global,
    outcome: &Result<Turn<D>, Failure>,
) -> Result<Option<(u8, Reply<D>)>, RunnerError>
    ensures next { IfOk result (λ next. next ≡ told_next outcome.now) }
    ensures errors { IfErr result IsOfRun }
{
    match outcome {
        Ok(Turn::Reply(next, told)) => match copy_reply(alloc, told) {
            Ok(told) => Ok(Some((*next, told))),
            Err(_) => Err(RunnerError::Memory),
        },
        Ok(Turn::Start(next)) => Ok(Some((*next, Reply::Start))),
        Ok(Turn::Ended(_)) | Err(_) => Ok(None),
    }
}

/// Records that the thread, which gets the reply, hands over the event's operation. Answers the number of an answer that is
/// another one, if it is recorded.
fn record_event<D: Exact>(
    alloc: Global,
    recording: &mut Recording<D>,
    places: &mut Vec<usize>,
    thread: u8,
    reply: &Reply<D>,
    event: &Event<D>,
) -> Result<Option<usize>, RunnerError>
    ensures errors { IfErr result IsOfRun }
    ensures other { IfOk result (λ other. IfSome other (λ number. number < length recording.new.answers)) }
    ensures same { (does : Function D) → (words told : List (Word D)) → IsTrueOf does words recording.old → AreAt words places.old.items told → IsAsked does told thread reply.now event.now.op
        → IfOk result (λ other. other ≡ None → (more : List (Word D)) × IsTrueOf does more recording.new × HandsOver does more told thread reply.now event.now.op places.new.items) }
{
    let Some(place) = places.get(thread as usize) else {
        return Err(RunnerError::NotSettled);
    };
    match record_answer(alloc, recording, *place, reply, event)? {
        Answered::Other(number) => Ok(Some(number)),
        Answered::So(number) => {
            let answer = recording.answer(number);
            match go_on(places, thread, answer.after, answer.child) {
                Ok(()) => Ok(None),
                Err(_) => Err(RunnerError::Memory),
            }
        }
    }
}

/// What is recorded of a reply to a thread at a place.
#[derive(Clone, Copy)]
pub(crate) enum Answered {
    /// That it hands over this operation, by the answer of this number.
    So(usize),
    /// Another operation, by the answer of this number.
    Other(usize),
}

/// Records that a thread at the place, which gets the reply, hands over the event's operation, unless another one is recorded.
fn record_answer<D: Exact>(
    alloc: Global,
    recording: &mut Recording<D>,
    place: usize,
    reply: &Reply<D>,
    event: &Event<D>,
) -> Result<Answered, RunnerError>
    ensures errors { IfErr result IsOfRun }
    ensures answered { IfOk result (HasAnswered recording.old place reply.now event.now.op recording.new) }
{
    let Some(number) = recording.find(place, reply) else {
        let location = location_in(event.label);
        return match recording.push(alloc, place, reply, &event.op, location) {
            Ok(number) => Ok(Answered::So(number)),
            Err(_) => Err(RunnerError::Memory),
        };
    };
    if is_same_request(&recording.answer(number).op, &event.op) {
        Ok(Answered::So(number))
    } else {
        Ok(Answered::Other(number))
    }
}

/// The thread is at this place, and what it has started at that one.
pub(crate) fn go_on(
    places: &mut Vec<usize>,
    thread: u8,
    after: usize,
    child: Option<usize>,
) -> Result<(), AllocError>
    requires { thread < vec_len places.old }
    ensures { OnOk result (places.new.items ≡ with_child (slice_set places.old.items thread after) child) }
{
    places[thread as usize] = after;
    if let Some(child) = child {
        places.push(child)?;
    }
    Ok(())
}

/// The error that the event at this place isn't what was recorded, or that memory for it is refused.
fn changed<D>(
    alloc: Global,
    run: u64,
    before: Request<(), ()>,
    events: &[Event<D>],
    place: usize,
) -> RunnerError
    requires { place < length events.now }
    ensures { IsOfRun result }
{
    match make_change(alloc, run, before, events, place) {
        Ok(change) => RunnerError::Changed(change),
        Err(_) => RunnerError::Memory,
    }
}

fn make_change<D>(
    alloc: Global,
    run: u64,
    before: Request<(), ()>,
    events: &[Event<D>],
    place: usize,
) -> Result<Changed, AllocError>
    requires { place < length events.now }
{
    let event = &events[place];
    let now = bare_request(&event.op);
    let told = told_events(alloc, &events[..place])?;
    let text = recorded_change_text(alloc, run, told.as_slice(), event.by, &before, &now)?;
    Ok(Changed {
        run,
        thread: event.by,
        before,
        now,
        text,
    })
}
