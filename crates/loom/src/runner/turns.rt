//! The state of a run that its threads share.
ghost use Rattle.std.specs.Prelude.{◌≡◌, ◌↔◌, ◌≤◌, [], IfOk, IfSome, IsTrue, MatchOption, None, OnErr, Some, is_some, true, false};
ghost use Rattle.loom_engine.specs.Path.Drawn.{IsDrawn};
ghost use Rattle.loom_engine.specs.Path.Route.{IsAtStart, chosen};
ghost use Rattle.loom.specs.Runner.Drawn.{AddsBy, LeadsBy, SettlesDrawn};
ghost use Rattle.loom.specs.Runner.Events.{turn_in};
ghost use Rattle.loom.specs.Runner.Histories.{active_at, Answers, IsDecided, IsNotAdded, Settles, Starts, last_event, end_in, ended_by, failed_by, or_else, why_stopped};

pub(crate) mod drawing;
mod ignored;
pub mod laws;
mod moment;

use crate::model::drawer::Drawer;
use crate::model::progress::log_switches;
use crate::runner::exact::Exact;
use crate::runner::history::History;
use crate::runner::history::event::Event;
use crate::runner::history::shares::are_shares;
use crate::runner::history::submit::Submit;
use crate::runner::history::told::Told;
use crate::runner::stop::Stop;
use crate::runner::turns::drawing::Drawing;
use crate::runner::turns::ignored::Ignored;
use crate::runner::turns::moment::Place;
use log::Log;
use loom_engine::rt::execution::{Execution, Limits};
use loom_engine::rt::path::Path;
use loom_objects::choice::Choice;
use loom_objects::failure::Failure;
use loom_objects::label::Label;
use loom_objects::operation::{Reply, Request};
use std::alloc::{AllocError, Global};
use std::marker::Model;
use std::mem;

/// A run so far, and how it came there: what its threads share under one lock (own). Unless a call was refused memory or a
/// thread, the history leads from the run's beginning to the state.
#[derive(Drop)]
pub struct Turns<D> {
    alloc: Global,
    place: Place<D>,
    // where the run began
    began: Path,
    limits: Limits,
    history: History<D>,
    // why the run goes no further, where that is no event of it
    spoiled: Option<Stop>,
    // the stops that threads were answered again
    ignored: Ignored,
}

impl<D> Model for Turns<D> {
    ghost use Rattle.std.specs.Prelude.{◌+◌};
    ghost use Rattle.loom.specs.Runner.Drawn.{KeptBy};
    ghost use Rattle.loom.specs.Runner.Histories.{Log, made};

    ghost Value = { Log D };

    ghost view = { λ t. record { began = t.began; limits = t.limits; history = t.history; threads = 1 + made t.history; spoiled = t.spoiled; now = t.place.moment; drawn = t.place.drawn } };

    ghost invariant = { λ t. KeptBy t.place.drawn t.limits t.began t.history t.spoiled t.place.moment };
}

impl<D: Exact> Turns<D> {
    /// The state before a run along the path, within these limits (own).
    pub fn new(alloc: Global, path: &Path, limits: Limits) -> Result<Turns<D>, AllocError>
        requires some { 1 ≤ limits.max_threads }
        requires few { limits.max_threads ≤ 5 }
        requires starts { IsAtStart path.now.explores path.now }
        ensures began { IfOk result (λ t. t.began ≡ path.now) }
        ensures limits { IfOk result (λ t. t.limits ≡ limits) }
        ensures history { IfOk result (λ t. t.history ≡ []) }
        ensures spoiled { IfOk result (λ t. t.spoiled ≡ None) }
        ensures drawn { IfOk result (λ t. t.drawn ≡ false) }
    {
        Turns::begin(alloc, path, limits, None)
    }

    /// The state before a run whose choices are drawn as it reaches them, within these limits. The path has no node, and no choice that
    /// is given (own).
    pub(crate) fn drawn(
        alloc: Global,
        path: &Path,
        limits: Limits,
        drawing: Drawing,
    ) -> Result<Turns<D>, AllocError>
        requires some { 1 ≤ limits.max_threads }
        requires few { limits.max_threads ≤ 5 }
        requires starts { IsAtStart path.now.explores path.now }
        requires empty { IsDrawn path.now }
        ensures began { IfOk result (λ t. t.began ≡ path.now) }
        ensures limits { IfOk result (λ t. t.limits ≡ limits) }
        ensures history { IfOk result (λ t. t.history ≡ []) }
        ensures spoiled { IfOk result (λ t. t.spoiled ≡ None) }
        ensures drawn { IfOk result (λ t. t.drawn ≡ true) }
    {
        Turns::begin(alloc, path, limits, Some(drawing))
    }

    /// The state before a run, whose choices this draws, if it is there.
    fn begin(
        alloc: Global,
        path: &Path,
        limits: Limits,
        drawing: Option<Drawing>,
    ) -> Result<Turns<D>, AllocError>
        requires some { 1 ≤ limits.max_threads }
        requires few { limits.max_threads ≤ 5 }
        requires starts { IsAtStart path.now.explores path.now }
        requires empty { is_some drawing ≡ true → IsDrawn path.now }
        ensures began { IfOk result (λ t. t.began ≡ path.now) }
        ensures limits { IfOk result (λ t. t.limits ≡ limits) }
        ensures history { IfOk result (λ t. t.history ≡ []) }
        ensures spoiled { IfOk result (λ t. t.spoiled ≡ None) }
        ensures drawn { IfOk result (λ t. t.drawn ≡ is_some drawing) }
    {
        let began = path.try_clone(alloc)?;
        let path = path.try_clone(alloc)?;
        let history = History::new(alloc)?;
        // Last, so that no error drops it.
        let execution = Execution::new(alloc, limits)?;
        Ok(Turns {
            alloc,
            place: Place {
                execution,
                path,
                drawing,
            },
            began,
            limits,
            history,
            spoiled: None,
            ignored: Ignored::new(),
        })
    }

    /// The state before a run along the path, within these limits, in place of the one that it was (own). What that needed room for is
    /// used again. An error where memory is refused, by which the run is spoiled.
    pub(crate) fn restart(&mut self, path: &Path, limits: Limits) -> Result<(), AllocError>
        requires some { 1 ≤ limits.max_threads }
        requires few { limits.max_threads ≤ 5 }
        requires starts { IsAtStart path.now.explores path.now }
        ensures began { IfOk result (λ _. self.new.began ≡ path.now) }
        ensures limits { IfOk result (λ _. self.new.limits ≡ limits) }
        ensures history { IfOk result (λ _. self.new.history ≡ []) }
        ensures spoiled { IfOk result (λ _. self.new.spoiled ≡ None) }
        ensures drawn { IfOk result (λ _. self.new.drawn ≡ false) }
    {
        let began = path.try_clone(self.alloc)?;
        let along = path.try_clone(self.alloc)?;
        self.spoiled = Some(Stop::Memory);
        self.history.restart(self.alloc)?;
        self.place.execution.restart(limits)?;
        self.place.path = along;
        self.place.drawing = None;
        self.began = began;
        self.limits = limits;
        self.ignored = Ignored::new();
        self.spoiled = None;
        Ok(())
    }

    /// Hands over an operation of the thread whose turn it is, with its label: one event more. Once the run is over, or spoiled, it changes
    /// nothing. Where memory is refused, or that thread isn't there, the run is spoiled by that reason (own).
    pub fn submit(&mut self, op: Request<D, ()>, label: Option<Label>)
        ensures began { self.new.began ≡ self.old.began }
        ensures limits { self.new.limits ≡ self.old.limits }
        ensures over { IfSome (end_in self.old.history) (λ failure. self.new ≡ self.old) }
        ensures spoiled { IfSome self.old.spoiled (λ stop. self.new ≡ self.old) }
        ensures adds { self.old.spoiled ≡ None → end_in self.old.history ≡ None → MatchOption self.new.spoiled (AddsBy self.old.drawn self.old op label self.new) (λ stop. self.new.history ≡ self.old.history) }
        ensures why { self.old.spoiled ≡ None → end_in self.old.history ≡ None → IfSome self.new.spoiled (IsNotAdded (active_at self.old.now) self.old.threads) }
        ensures drawn { self.new.drawn ≡ self.old.drawn }
    {
        if self.spoiled.is_some() {
            op.let_go();
            return;
        }
        if self.history.end().is_some() {
            op.let_go();
            return;
        }
        self.spoiled = self.history.add(&mut self.place, op, label);
    }

    /// The run is spoiled, unless it is already (own).
    pub fn give_up(&mut self, stop: Stop)
        ensures history { self.new.history ≡ self.old.history }
        ensures spoiled { self.new.spoiled ≡ or_else self.old.spoiled (Some stop) }
        ensures drawn { self.new.drawn ≡ self.old.drawn }
    {
        if self.spoiled.is_none() {
            self.spoiled = Some(stop);
        }
    }

    /// Why the run goes no further, if it doesn't (own).
    pub fn stopped(&self) -> Option<Stop>
        ensures { result ≡ why_stopped self.now }
    {
        match self.spoiled {
            Some(stop) => Some(stop),
            None => self.history.end().map(Stop::Failure),
        }
    }

    /// Whose turn it is by the last event. None where the run goes no further (own).
    pub fn next(&self) -> Option<u8>
        ensures { MatchOption (why_stopped self.now) (result ≡ turn_in self.now.history) (λ stop. result ≡ None) }
    {
        match self.stopped() {
            Some(_) => None,
            None => self.history.turn(),
        }
    }

    /// Whether the thread has nothing to wait for: its turn has come, or the run goes no further (own).
    pub fn is_decided(&self, thread: u8) -> bool
        ensures { IsTrue result ↔ IsDecided self.now thread }
    {
        self.stopped().is_some() || self.history.is_turn_of(thread)
    }

    /// A copy of the reply to the thread in the last event, or why the run goes no further. Where the event has none it is
    /// `MISUSE`, and `Memory` where a growth is refused (own).
    pub fn reply(&self, thread: u8) -> Result<Reply<D>, Stop>
        ensures { Answers self.now thread result }
    {
        match self.stopped() {
            Some(stop) => Err(stop),
            None => self.history.reply(self.alloc, thread),
        }
    }

    /// Whether the thread may start: it does by the last event, and the run goes on (own).
    pub fn starts(&self, thread: u8) -> bool
        ensures { IsTrue result ↔ Starts self.now thread }
    {
        self.stopped().is_none() && self.history.starts(thread)
    }

    /// Why the run failed, if its last event is a failure (own).
    pub fn failure(&self) -> Option<Failure>
        ensures { result ≡ failed_by (last_event self.now.history) }
    {
        self.history.failure()
    }

    /// Main's result, if the last event has ended the run. It fails only where a growth is refused (own).
    pub fn value(&self) -> Result<Option<D>, AllocError>
        ensures { IfOk result (λ value. value ≡ ended_by (last_event self.now.history)) }
    {
        self.history.value()
    }

    /// Why the run is spoiled, if it is (own).
    pub fn spoiled(&self) -> Option<Stop>
        ensures spoiled { result ≡ self.now.spoiled }
        ensures leads { self.now.spoiled ≡ None → LeadsBy self.now.drawn self.now }
    {
        self.spoiled
    }

    /// The events of the run, the first one first (own).
    pub fn events(&self) -> &[Event<D>]
        ensures { result.now ≡ self.now.history }
    {
        self.history.events()
    }

    /// The path of the run. It goes no further, and has none any more (own).
    pub(crate) fn take_path(&mut self) -> Path
        ensures path { result ≡ self.old.now.route }
        ensures history { self.new.history ≡ self.old.history }
        ensures drawn { self.new.drawn ≡ self.old.drawn }
    {
        let none = Path::new(self.alloc, self.place.path.search());
        self.spoiled = Some(Stop::Refused);
        mem::replace(&mut self.place.path, none)
    }

    /// The events of the run, the first one first. It goes no further, and has none any more, but room for those that come, in this list
    /// (own). An error where memory is refused.
    pub(crate) fn exchange_events(
        &mut self,
        room: Vec<Event<D>>,
    ) -> Result<Vec<Event<D>>, AllocError>
        ensures events { IfOk result (λ events. events.items ≡ self.old.history) }
        ensures drawn { self.new.drawn ≡ self.old.drawn }
    {
        self.spoiled = Some(Stop::Refused);
        self.history.exchange(self.alloc, room)
    }

    /// The events of the run, the first one first. It goes no further, and has none any more (own). An error where memory is refused, by
    /// which nothing is changed.
    pub(crate) fn take_events(&mut self) -> Result<Vec<Event<D>>, AllocError>
        ensures events { IfOk result (λ events. events.items ≡ self.old.history) }
        ensures refused { OnErr result (self.new ≡ self.old) }
        ensures drawn { self.new.drawn ≡ self.old.drawn }
    {
        let none = History::new(self.alloc)?;
        self.spoiled = Some(Stop::Refused);
        let history = mem::replace(&mut self.history, none);
        Ok(history.into_events())
    }

    /// A call of the thread was answered by the same stop as one before it (own).
    pub fn answer_again(&mut self, thread: u8)
        ensures { self.new ≡ self.old }
    {
        self.ignored.count(thread);
    }

    /// A thread that goes on although the run has stopped: a thousand of its calls were answered by the same stop as one before
    /// them. It is reported once (own).
    pub fn goes_on(&mut self) -> Option<u8>
        ensures { self.new ≡ self.old }
    {
        self.ignored.tell()
    }

    /// Whose turn it is (own).
    pub fn turn(&self) -> u8
        ensures { result ≡ active_at self.now.now }
    {
        self.place.active()
    }

    /// Tells the log which threads went on in the run, one after another (own).
    pub(crate) fn log_switches<L: Log>(&self, log: &L) {
        log_switches(log, &self.place.path);
    }

    /// How many preemptions the run has (own).
    pub(crate) fn preemptions(&self) -> u32 {
        self.place.path.preemptions()
    }

    /// The choices of the run. It fails only where a growth is refused (own).
    pub fn choices(&self) -> Result<Vec<Choice>, AllocError>
        ensures { IfOk result (λ list. list.items ≡ chosen self.now.now.route) }
    {
        self.place.path.choices(self.alloc)
    }

    /// A copy of the run's path. It fails only where a growth is refused (own).
    pub fn path(&self) -> Result<Path, AllocError>
        ensures { IfOk result (λ path. path ≡ self.now.now.route) }
    {
        self.place.path.try_clone(self.alloc)
    }

    /// What draws the run's choices, if they are drawn as a walk does. An error only where a growth is refused (own).
    pub(crate) fn drawer(&self) -> Result<Option<Drawer>, AllocError> {
        match &self.place.drawing {
            Some(Drawing::Walk(drawer)) => Ok(Some(drawer.clone()?)),
            Some(Drawing::Change(_)) | None => Ok(None),
        }
    }

    /// Whether the run began with this path and these limits and followed its path, and each thread's operations and replies
    /// are its part of the history (own).
    pub fn settle(&self, began: &Path, limits: Limits, told: &[Told<D>]) -> bool
        ensures { IsTrue result ↔ Settles self.now began.now limits told.now }
    {
        !self.place.is_drawn()
            && is_same_limits(self.limits, limits)
            && self.began == *began
            && are_shares(told, &self.history)
    }

    /// Whether the run began with this path and these limits and drew its choices, and each thread's operations and replies are
    /// its part of the history (own).
    pub fn settle_drawn(&self, began: &Path, limits: Limits, told: &[Told<D>]) -> bool
        ensures { IsTrue result ↔ SettlesDrawn self.now began.now limits told.now }
    {
        self.place.is_drawn()
            && is_same_limits(self.limits, limits)
            && self.began == *began
            && are_shares(told, &self.history)
    }
}

/// Whether the two are the same limits.
fn is_same_limits(one: Limits, other: Limits) -> bool
    ensures { IsTrue result ↔ (one ≡ other) }
{
    one.max_threads == other.max_threads && one.max_steps == other.max_steps
}
