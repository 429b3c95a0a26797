//! Where a run stands on its path, so that another one whose path begins so may go on from there (own).
ghost use Rattle.std.specs.Prelude.{◌≡◌, ◌≤◌, length};
ghost use Rattle.loom_engine.specs.Path.Tallies.{IsTally};

use crate::rt::path::Path;
use crate::rt::path::node::Tally;
use loom_objects::rt::exploring::Exploring;

/// Where a run stands on its path: before the node at this position (own).
#[derive(Clone, Copy)]
pub struct Standing {
    /// How many nodes it has passed.
    pub position: usize,
    /// What the next schedule notes of those among them.
    pub tally: Tally,
    /// Whether the run explores at the nodes that come.
    pub exploring: Exploring,
}

impl Path {
    /// Where the run stands (own).
    pub fn standing(&self) -> Standing
        ensures position { result.position ≡ self.now.position }
        ensures exploring { result.exploring ≡ self.now.exploring }
        ensures tally { IsTally self.now.nodes self.now.position result.tally }
    {
        Standing {
            position: self.nodes.position,
            tally: self.tally,
            exploring: self.exploring,
        }
    }

    /// The run goes on from there. The path has begun so since a run stood there (own).
    pub fn stand(&mut self, standing: &Standing)
        requires within { standing.now.position ≤ length self.old.nodes }
        requires tally { IsTally self.old.nodes standing.now.position standing.now.tally }
        ensures { self.new ≡ record self.old { position = standing.now.position; exploring = standing.now.exploring } }
    {
        self.nodes.position = standing.position;
        self.tally = standing.tally;
        self.exploring = standing.exploring;
    }

    /// How many nodes there are (own).
    pub fn node_count(&self) -> usize
        ensures { result ≡ length self.now.nodes }
    {
        self.nodes.list.len()
    }

    /// Whether a node is where the run is, at which something is seen to be left to try (own).
    pub fn is_left_here(&self) -> bool {
        self.nodes.position < self.nodes.list.len() && !self.nodes.list.is_done(self.nodes.position)
    }

    /// Whether something is seen to be left to try at the node at this place, or at one after it (own).
    pub fn is_left_from(&self, place: usize) -> bool {
        for later in place..self.nodes.list.len() {
            if !self.nodes.list.is_done(later) {
                return true;
            }
        }
        false
    }

    /// Whether a schedule that is made where the run stands tries each of its options (own).
    pub fn tries_each_here(&self) -> bool {
        self.nodes.position >= self.nodes.list.len() && self.tries_each()
    }
}
