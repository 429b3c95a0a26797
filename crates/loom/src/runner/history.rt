//! The events of a run so far, and how one more is added.
pub mod adding;
pub mod entry;
pub mod event;
mod last;
pub mod shares;
pub mod submit;
pub mod telling;
pub mod told;

ghost use Rattle.std.specs.Prelude.{◌≡◌, ◌+◌, ◌<◌, ◌==◌, ◌-◌, ◌^◌, ℕ, [], ◌∷◌, if◌then◌else◌, IfOk, IfErr, IfNone, IfSome, OnErr, OnOk, OnSome, length, vec_len, vec_capacity, slice_index};
ghost use Rattle.loom.specs.Runner.Events.{HasStayed, IsAdded, IsCounted, IsNotAdded, made, made_by};

use crate::runner::exact::Exact;
use crate::runner::history::adding::take_turn;
use crate::runner::history::event::Event;
use crate::runner::history::submit::Submit;
use crate::runner::stop::Stop;
use loom_objects::failure::Failure;
use loom_objects::label::Label;
use loom_objects::operation::{Reply, Request, Turn, copy_request};
use loom_views::rt::failure::FailureKind;
use std::alloc::{AllocError, Global};
use std::marker::Model;
use std::mem;

/// What an operation is answered after the end of a run (own).
pub const MISUSE: Failure = Failure {
    kind: FailureKind::Misuse,
    location: None,
};

/// The events of a run so far (own). Contracts see their list.
#[derive(Drop)]
pub struct History<D> {
    events: Vec<Event<D>>,
    // how many operations each thread has handed over
    counts: Vec<usize>,
}

impl<D> Model for History<D> {
    ghost use Rattle.std.specs.Prelude.{List};
    ghost use Rattle.loom.specs.declared.runner.history.event.Event.{Event};
    ghost use Rattle.loom.specs.Runner.Events.{IsCounted};

    ghost Value = { List (Event D) };

    ghost view = { λ h. h.events.items };

    ghost invariant = { λ h. IsCounted h.counts.items h.events.items };
}

impl<D> History<D> {
    /// No event yet, and main alone (own).
    pub fn new(alloc: Global) -> Result<History<D>, AllocError>
        ensures { IfOk result (λ history. history ≡ []) }
    {
        let counts = first_counts(alloc)?;
        Ok(History {
            events: Vec::new(alloc),
            counts,
        })
    }

    /// How many threads there are (own).
    pub fn threads(&self) -> usize
        ensures { result ≡ 1 + made self.now }
    {
        self.counts.len()
    }

    /// The events, the first one first (own).
    pub fn events(&self) -> &[Event<D>]
        ensures { result.now ≡ self.now }
    {
        self.events.as_slice()
    }
}

impl<D: Drop> History<D> {
    /// No event, and main alone, as before a run. What the events needed room for is kept (own). An error where memory is refused, by
    /// which nothing is changed.
    pub(crate) fn restart(&mut self, alloc: Global) -> Result<(), AllocError>
        ensures events { IfOk result (λ _. self.new ≡ []) }
    {
        let counts = first_counts(alloc)?;
        self.events.clear();
        self.counts = counts;
        Ok(())
    }

    /// The events themselves, the first one first. In their place there is none, and what this list has room for is used for those that
    /// come (own). An error where memory is refused, by which nothing is changed.
    pub(crate) fn exchange(
        &mut self,
        alloc: Global,
        mut room: Vec<Event<D>>,
    ) -> Result<Vec<Event<D>>, AllocError>
        ensures events { IfOk result (λ events. events.items ≡ self.old) }
        ensures none { IfOk result (λ _. self.new ≡ []) }
        ensures refused { OnErr result (self.new ≡ self.old) }
    {
        let counts = first_counts(alloc)?;
        room.clear();
        self.counts = counts;
        Ok(mem::replace(&mut self.events, room))
    }

    /// The events themselves, the first one first (own).
    pub fn into_events(self) -> Vec<Event<D>>
        ensures { result.items ≡ self }
    {
        self.events
    }
}

impl<D: Exact> History<D> {
    /// Hands an operation of the thread whose turn it is, with its label, over to the machine: one event more, or it is said why
    /// there is none (own). `Memory` where a growth was refused, the failure `MISUSE` where that thread isn't there.
    pub fn add<M: Submit<D>>(
        &mut self,
        machine: &mut M,
        op: Request<D, ()>,
        label: Option<Label>,
    ) -> Option<Stop>
        requires { M.goes_on machine.old }
        ensures added { IfNone result (IsAdded M.turn M.passed M.happens machine.old op label machine.new self.old self.new) }
        ensures stopped { OnSome result (self.new ≡ self.old) }
        ensures why { IfSome result (IsNotAdded (M.turn machine.old) (1 + made self.old)) }
        ensures stays { OnSome result (HasStayed M.happens machine.old op machine.new) }
    {
        let by = machine.active();
        let choices_before = machine.passed();
        let kept = match prepare(by, &mut self.events, &mut self.counts, &op) {
            Ok(kept) => kept,
            Err(stop) => {
                op.let_go();
                return Some(stop);
            }
        };
        match take_turn(machine, op) {
            Ok(outcome) => {
                count(&mut self.counts, by as usize, &outcome);
                let event = Event {
                    by,
                    op: kept,
                    label,
                    choices_before,
                    outcome,
                };
                self.events.push_reserved(event);
                None
            }
            Err(_) => {
                kept.let_go();
                Some(Stop::Memory)
            }
        }
    }
}

/// Main has handed over no operation.
fn first_counts(alloc: Global) -> Result<Vec<usize>, AllocError>
    ensures { IfOk result (λ counts. counts.items ≡ 0 ∷ []) }
{
    let mut counts = Vec::new(alloc);
    counts.push(0)?;
    Ok(counts)
}

/// Makes room for an event more, and a count more, and copies the operation. The operation is only lent, so that no way out of
/// here drops it.
fn prepare<D: Exact>(
    by: u8,
    history: &mut Vec<Event<D>>,
    counts: &mut Vec<usize>,
    op: &Request<D, ()>,
) -> Result<Request<D, ()>, Stop>
    ensures history { history.new.items ≡ history.old.items }
    ensures counts { counts.new.items ≡ counts.old.items }
    ensures by { OnOk result (by < vec_len counts.new) }
    ensures event { OnOk result (vec_len history.new < vec_capacity history.new) }
    ensures count { OnOk result (vec_len counts.new < vec_capacity counts.new) }
    ensures copy { IfOk result (λ kept. kept ≡ op.now) }
    ensures why { IfErr result (IsNotAdded by (length counts.old.items)) }
{
    if by as usize >= counts.len() {
        return Err(Stop::Failure(MISUSE));
    }
    if history.reserve(1).is_err() {
        return Err(Stop::Memory);
    }
    if counts.reserve(1).is_err() {
        return Err(Stop::Memory);
    }
    match copy_request(op) {
        Ok(kept) => Ok(kept),
        Err(_) => Err(Stop::Memory),
    }
}

/// Counts the operation, and makes a count for a thread that it made.
fn count<D>(counts: &mut Vec<usize>, by: usize, outcome: &Result<Turn<D>, Failure>)
    requires by { by < vec_len counts.old }
    requires room { vec_len counts.old < vec_capacity counts.old }
    requires small { slice_index counts.old.items by < 2 ^ 64 - 1 }
    ensures length { length counts.new.items ≡ length counts.old.items + made_by outcome.now }
    ensures counted { (n : ℕ) → slice_index counts.new.items n ≡ slice_index counts.old.items n + (if by == n then 1 else 0) }
{
    if let Ok(Turn::Reply(_, Reply::Spawned(..))) = outcome {
        counts.push_reserved(0);
    }
    counts[by] += 1;
}
