//! The nodes of a path, and the position of the present run among them.
ghost use Rattle.std.specs.Prelude.{◌≡◌, ◌≤◌, ◌<◌, ◌++◌, ◌∷◌, [], ℕ, List, Option, IfOk, IfErr, length, take};
ghost use Rattle.loom_objects.specs.Tree.Asked.{which_thread};
ghost use Rattle.loom_objects.specs.Tree.Question.{made_of};
ghost use Rattle.loom_engine.specs.Path.Nearest.{IsNearest, passes_in};
ghost use Rattle.loom_engine.specs.Path.Nodes.{AreWell};
ghost use Rattle.loom_engine.specs.Path.Tallies.{AreNoted};
ghost use Rattle.loom_engine.specs.Path.Steps.{FindsSchedule, Steps};
ghost use Rattle.loom_engine.specs.Path.Words.{IsFit};

use crate::rt::path::list::NodeList;
use crate::rt::path::node::{Node, Schedule};
use loom_objects::failure::{Stop, failed};
use loom_objects::rt::schedule::Offers;
use loom_views::rt::failure::FailureKind;
use std::alloc::AllocError;

/// The nodes at which runs choose, in order, and how many of them the present run has passed.
#[derive(Drop)]
pub struct Nodes {
    /// The nodes.
    pub list: NodeList,
    /// How many of them the run has passed.
    pub position: usize,
}

impl Nodes {
    /// Makes a node at the end, without passing it. Without memory for it the nodes stay as they were.
    #[inline(always)]
    pub fn push(&mut self, node: &Node) -> Result<(), AllocError>
        requires { IsFit node.now }
        ensures made { IfOk result (λ _. self.new.list ≡ self.old.list ++ node.now ∷ []) }
        ensures same { IfErr result (λ _. self.new.list ≡ self.old.list) }
        ensures position { self.new.position ≡ self.old.position }
    {
        self.list.push(node)?;
        Ok(())
    }

    /// The stored schedule that the run passes next. `NotDeterministic` where another node is there, or another schedule
    /// than these offers make.
    #[inline(always)]
    pub fn stored_schedule(&self, exploring: bool, offers: &Offers) -> Result<Schedule, Stop>
        requires { self.now.position < length self.now.list }
        ensures { (places : List (Option ℕ)) → FindsSchedule self.now.list self.now.position (made_of (which_thread exploring offers.now places)) result }
    {
        let Node::Schedule(schedule) = self.list.get(self.position) else {
            return Err(failed(FailureKind::NotDeterministic));
        };
        if !self.list.meets(self.position, exploring, offers) {
            return Err(failed(FailureKind::NotDeterministic));
        }
        Ok(schedule)
    }
}

/// The deepest node that can go on does, and what follows it is dropped. False if none can.
#[inline(always)]
pub fn step_nodes(nodes: &mut NodeList) -> bool
    requires well { AreWell nodes.old }
    requires noted { AreNoted nodes.old }
    ensures steps { Steps nodes.old result nodes.new }
    ensures well { AreWell nodes.new }
    ensures noted { AreNoted nodes.new }
    ensures fewer { length nodes.new ≤ length nodes.old }
{
    while !nodes.is_empty() {
        let last = nodes.len() - 1;
        if !nodes.is_done(last) {
            let mut node = nodes.get(last);
            if node.advance() {
                nodes.set(last, &node);
                return true;
            }
        }
        nodes.truncate(last);
    }
    false
}

/// The place of the nearest schedule among the first so many nodes that explores, from this place down. One that doesn't explore
/// notes which that is.
pub fn exploring_in(nodes: &NodeList, passed: usize, place: usize) -> Option<usize>
    requires within { passed ≤ length nodes.now }
    requires noted { AreNoted (take passed nodes.now) }
    ensures { IsNearest (passes_in (take passed nodes.now)) place result }
{
    let mut left = passed.min(place.saturating_add(1));
    while left > 0 {
        left -= 1;
        if let Node::Schedule(schedule) = nodes.get(left) {
            if schedule.exploring {
                return Some(left);
            }
            return Some(schedule.nearest? as usize);
        }
    }
    None
}
