//! What a check keeps of a run for the next one, and where the next one isn't like it: a closure that gets the same replies does the same.
ghost use Rattle.std.specs.Prelude.{◌≡◌, ◌≤◌, ◌<◌, ◌↔◌, ℕ, [], IfErr, IfOk, IsTrue, MatchOption, length, true, false};
ghost use Rattle.loom.specs.Runner.Alike.{Agree, Differ, IsSame, Shares, trace};
ghost use Rattle.loom.specs.Runner.Comparing.{IsChangeAt, IsLike, IsOther, IsParted, IsRefusedOrSays, Passes};

use crate::runner::error::{Changed, RunnerError};
use crate::runner::exact::Exact;
use crate::runner::history::event::Event;
use crate::runner::history::telling::told_events;
use crate::runner::same::is_same_request;
use crate::runner::turns::Turns;
use loom_explain::text::changes::change_text;
use loom_objects::choice::Choice;
use loom_objects::failure::Failure;
use loom_objects::operation::bare_request;
use loom_views::rt::failure::FailureKind;
use std::alloc::{AllocError, Global};
use std::marker::Model;
use std::mem;

/// What is kept of a run: its choices, and its events (own).
#[derive(Drop)]
pub struct LastRun<D> {
    choices: Vec<Choice>,
    events: Vec<Event<D>>,
}

impl<D> Model for LastRun<D> {
    ghost use Rattle.loom.specs.Runner.Alike.{Trace, trace};

    ghost Value = { Trace D };

    ghost view = { λ r. trace r.choices.items r.events.items };
}

impl<D> LastRun<D> {
    /// Before the first run: nothing (own).
    pub fn none(alloc: Global) -> LastRun<D>
        ensures { result ≡ trace [] [] }
    {
        LastRun {
            choices: Vec::new(alloc),
            events: Vec::new(alloc),
        }
    }

    /// Its list of events, for its room, which it has no more (own).
    pub(crate) fn give_room(&mut self, alloc: Global) -> Vec<Event<D>> {
        mem::replace(&mut self.events, Vec::new(alloc))
    }

    /// The run of these choices and events, which ended (own).
    pub fn new(choices: Vec<Choice>, events: Vec<Event<D>>) -> LastRun<D>
        ensures { result ≡ trace choices.items events.items }
    {
        LastRun { choices, events }
    }
}

impl<D: Exact> LastRun<D> {
    /// Whether the run after this one, of this number, of which this is the state at its end and these are the choices, is like it,
    /// as far as both have made the same choices. `Changed` where it isn't, unless it failed as not deterministic, which says so
    /// already. `Memory` where a growth is refused (own).
    pub fn compare(
        &self,
        alloc: Global,
        number: u64,
        choices: &[Choice],
        turns: &Turns<D>,
    ) -> Result<(), RunnerError>
        ensures like { IfOk result (λ _. Passes self.now (trace choices.now turns.now.history)) }
        ensures errors { IfErr result (IsRefusedOrSays self.now (trace choices.now turns.now.history) number) }
    {
        if is_parted(turns.failure()) {
            return Ok(());
        }
        let events = turns.events();
        let before = self.events.as_slice();
        let Some(place) = first_change(self.choices.as_slice(), before, choices, events) else {
            return Ok(());
        };
        match make_change(alloc, number, before, events, place) {
            Ok(change) => Err(RunnerError::Changed(change)),
            Err(_) => Err(RunnerError::Memory),
        }
    }
}

/// Whether the failure is that a run isn't what its path says.
fn is_parted(failure: Option<Failure>) -> bool
    ensures { IsTrue result ↔ IsParted failure }
{
    match failure {
        Some(failure) => matches!(failure.kind, FailureKind::NotDeterministic),
        None => false,
    }
}

/// The number of the first event of a run that isn't the same operation of the same thread as in the run before, though both runs had
/// made the same choices before it. None where there is no such event (own).
pub fn first_change<D: Exact>(
    old_choices: &[Choice],
    old: &[Event<D>],
    choices: &[Choice],
    events: &[Event<D>],
) -> Option<usize>
    ensures { MatchOption result (Agree (trace old_choices.now old.now) (trace choices.now events.now)) (Differ (trace old_choices.now old.now) (trace choices.now events.now)) }
{
    let shared = shared_choices(old_choices, choices);
    let most = old.len().min(events.len());
    for n in 0..most {
        if is_other(&old[n], &events[n], shared) {
            return Some(n);
        }
    }
    None
}

/// How many choices both begin with.
pub(crate) fn shared_choices(one: &[Choice], other: &[Choice]) -> usize
    ensures { (n : ℕ) → (n ≤ result) ↔ Shares n one.now other.now }
{
    let most = one.len().min(other.len());
    for count in 0..most {
        if !is_same_choice(one[count], other[count]) {
            return count;
        }
    }
    most
}

fn is_same_choice(one: Choice, other: Choice) -> bool
    ensures { IsTrue result ↔ (one ≡ other) }
{
    one == other
}

/// Whether the events aren't the same operation of the same thread, though as many choices were made before them, all of which the runs
/// share.
fn is_other<D: Exact>(old: &Event<D>, event: &Event<D>, shared: usize) -> bool
    ensures yes { result ≡ true → IsOther shared old.now event.now }
    ensures no { result ≡ false → IsLike shared old.now event.now }
{
    event.choices_before == old.choices_before
        && old.choices_before <= shared
        && !is_same_event(old, event)
}

/// Whether the events are the same operation of the same thread.
fn is_same_event<D: Exact>(old: &Event<D>, event: &Event<D>) -> bool
    ensures { IsTrue result ↔ IsSame old.now event.now }
{
    event.by == old.by && is_same_request(&event.op, &old.op)
}

/// The change at this event.
fn make_change<D>(
    alloc: Global,
    run: u64,
    old: &[Event<D>],
    events: &[Event<D>],
    place: usize,
) -> Result<Changed, AllocError>
    requires old { place < length old.now }
    requires events { place < length events.now }
    ensures { IfOk result (IsChangeAt run old.now events.now place) }
{
    let event = &events[place];
    let before = bare_request(&old[place].op);
    let now = bare_request(&event.op);
    let told = told_events(alloc, &events[..place])?;
    let text = change_text(alloc, run, told.as_slice(), event.by, &before, &now)?;
    Ok(Changed {
        run,
        thread: event.by,
        before,
        now,
        text,
    })
}
