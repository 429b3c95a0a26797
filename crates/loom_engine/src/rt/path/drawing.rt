//! Choices that are drawn as a run meets them (own).
ghost use Rattle.std.specs.Prelude.{◌≡◌, ◌<◌, ℕ, List, [], Option, Some, IfOk, IfSome, slice_get, length, true};
ghost use Rattle.std.specs.List.{Contains};
ghost use Rattle.loom_objects.specs.Exploring.{is_on};
ghost use Rattle.loom_objects.specs.Tree.Asked.{which_thread, whether_spurious};
ghost use Rattle.loom_objects.specs.Tree.Question.{made_of};
ghost use Rattle.loom_objects.specs.Tree.Sound.{AreSoundOffers};
ghost use Rattle.loom_objects.specs.Tree.Stores.{which_store};
ghost use Rattle.loom_engine.specs.Path.Drawn.{Draws, MakesMore};
ghost use Rattle.loom_engine.specs.Path.Nodes.{seen_load, seen_schedule, seen_spurious, IsWellLoad, IsWellSchedule};
ghost use Rattle.loom_engine.specs.Path.Route.{IsSame, at_rest, trail};
ghost use Rattle.loom_engine.specs.Path.Tallies.{Notes};
ghost use Rattle.loom_engine.specs.Trees.Drive.{new_node, passes_of};
ghost use Rattle.loom_engine.specs.Trees.Meeting.{count, every_at};

use crate::rt::path::node::{Load, Node, Schedule, Spurious, Tally};
use crate::rt::path::{Path, making};
use loom_objects::choice::Choice;
use loom_objects::failure::{Stop, failed};
use loom_objects::rt::exploring::Exploring;
use loom_objects::rt::schedule::Offers;
use loom_views::rt::MAX_ATOMIC_HISTORY;
use loom_views::rt::failure::FailureKind;

/// Draws the choices of a run where it explores. What isn't an option there isn't taken, but the default (own).
pub trait Chooser {
    /// Which of the threads that can go on does.
    fn thread(&mut self, offers: &Offers) -> Option<u8>;

    /// Which of the slots that may be read is.
    fn slot(&mut self, readable: &[bool; MAX_ATOMIC_HISTORY]) -> u8;

    /// Whether a thread wakes without a notification.
    fn is_spurious(&mut self) -> bool;
}

impl Path {
    /// Goes back to the beginning, without a node and a choice that is given (own).
    pub fn restart(&mut self)
        ensures { self.new ≡ at_rest self.old.search self.old.explores [] }
    {
        self.nodes.list.truncate(0);
        self.nodes.position = 0;
        self.exploring = Exploring::new(self.search.explores);
        self.tally = Tally::new();
        self.given.clear();
    }

    /// Makes a schedule at the end of the path, at a thread that is drawn, and passes it. `TooManyBranches` where the path may have
    /// no further node. Where it fails the path stays as it was (own).
    pub(crate) fn draw_thread<C: Chooser>(
        &mut self,
        chooser: &mut C,
        offers: &Offers,
    ) -> Result<Option<u8>, Stop>
        requires past { length self.old.nodes ≡ self.old.position }
        requires sound { AreSoundOffers offers.now.default offers.now.abilities }
        ensures says { (places : List (Option ℕ)) → Draws Choice.Thread self.old (which_thread (is_on self.old.exploring) offers.now places) result self.new }
        ensures more { MakesMore self.old self.new }
        ensures within { IfOk result (λ chosen. IfSome chosen (λ thread. thread < 5)) }
        ensures past { length self.new.nodes ≡ self.new.position }
        ensures same { IsSame self.old self.new }
    {
        if self.is_full() {
            return Err(failed(FailureKind::TooManyBranches));
        }
        let (schedule, chosen) = self.drawn_schedule(chooser, offers);
        match self.push(Node::Schedule(schedule)) {
            Ok(()) => {
                self.pass(&schedule, chosen);
                Ok(chosen)
            }
            Err(_) => Err(Stop::Memory),
        }
    }

    /// A new schedule, and the thread that is its choice: the one that is drawn, where the run explores and that one can go on, or
    /// else the default.
    fn drawn_schedule<C: Chooser>(&self, chooser: &mut C, offers: &Offers) -> (Schedule, Option<u8>)
        requires { AreSoundOffers offers.now.default offers.now.abilities }
        ensures made { (places : List (Option ℕ)) → let made = made_of (which_thread (is_on self.now.exploring) offers.now places) in
            Some (seen_schedule result.0) ≡ new_node (every_at self.now.search (passes_of (trail self.now)) made) made (Some (seen_schedule result.0).present) }
        ensures present { Choice.Thread result.1 ≡ (seen_schedule result.0).present }
        ensures rests { IsWellSchedule result.0 }
        ensures noted { Notes self.now.position (passes_of (trail self.now)) result.0 }
        ensures within { IfSome result.1 (λ thread. thread < 5) }
    {
        let exploring = self.is_exploring();
        let every = self.tries_each();
        let drawn = if exploring {
            chooser.thread(offers)
        } else {
            offers.default
        };
        making::schedule_drawn(exploring, offers, every, &self.tally, drawn)
    }

    /// Makes a load at the end of the path, at a slot that is drawn, and passes it. `TooManyBranches` where the path may have no
    /// further node. Where it fails the path stays as it was (own).
    pub(crate) fn draw_load<C: Chooser>(
        &mut self,
        chooser: &mut C,
        readable: &[bool; MAX_ATOMIC_HISTORY],
    ) -> Result<u8, Stop>
        requires past { length self.old.nodes ≡ self.old.position }
        requires some { Contains readable.now true }
        ensures says { Draws Choice.Load self.old (which_store (is_on self.old.exploring) readable.now) result self.new }
        ensures more { MakesMore self.old self.new }
        ensures readable { IfOk result (λ slot. slice_get readable.now slot ≡ Some true) }
        ensures past { length self.new.nodes ≡ self.new.position }
        ensures same { IsSame self.old self.new }
    {
        if self.is_full() {
            return Err(failed(FailureKind::TooManyBranches));
        }
        let (load, slot) = self.drawn_load(chooser, readable);
        match self.push(Node::Load(load)) {
            Ok(()) => {
                self.pass_value();
                Ok(slot)
            }
            Err(_) => Err(Stop::Memory),
        }
    }

    /// A new load, and the slot that is its choice: the one that is drawn, where the run explores and that one may be read, or else
    /// the default.
    fn drawn_load<C: Chooser>(
        &self,
        chooser: &mut C,
        readable: &[bool; MAX_ATOMIC_HISTORY],
    ) -> (Load, u8)
        requires { Contains readable.now true }
        ensures made { Some (seen_load result.0) ≡ new_node true (made_of (which_store (is_on self.now.exploring) readable.now)) (Some (seen_load result.0).present) }
        ensures present { Choice.Load result.1 ≡ (seen_load result.0).present }
        ensures well { IsWellLoad result.0 }
    {
        let exploring = self.is_exploring();
        if exploring {
            return making::load_drawn(exploring, readable, chooser.slot(readable));
        }
        let load = making::load(exploring, readable);
        (load, load.slot())
    }

    /// Makes a spurious wake-up at the end of the path, whose answer is drawn, and passes it. `TooManyBranches` where the path may
    /// have no further node. Where it fails the path stays as it was (own).
    pub(crate) fn draw_spurious<C: Chooser>(&mut self, chooser: &mut C) -> Result<bool, Stop>
        requires past { length self.old.nodes ≡ self.old.position }
        ensures says { Draws Choice.Spurious self.old (whether_spurious (is_on self.old.exploring)) result self.new }
        ensures more { MakesMore self.old self.new }
        ensures past { length self.new.nodes ≡ self.new.position }
        ensures same { IsSame self.old self.new }
    {
        if self.is_full() {
            return Err(failed(FailureKind::TooManyBranches));
        }
        let spurious = self.drawn_spurious(chooser);
        match self.push(Node::Spurious(spurious)) {
            Ok(()) => {
                self.pass_value();
                Ok(spurious.answer)
            }
            Err(_) => Err(Stop::Memory),
        }
    }

    /// A new spurious wake-up: its answer is drawn, where the run explores, and else it is false.
    fn drawn_spurious<C: Chooser>(&self, chooser: &mut C) -> Spurious
        ensures { Some (seen_spurious result) ≡ new_node true (made_of (whether_spurious (is_on self.now.exploring))) (Some (seen_spurious result).present) }
    {
        let exploring = self.is_exploring();
        let answer = exploring && chooser.is_spurious();
        Spurious { exploring, answer }
    }

    /// How many preemptions the run counts so far (own).
    pub fn preemptions(&self) -> u32
        ensures { result ≡ count (passes_of (trail self.now)) }
    {
        self.tally.preemptions
    }
}
