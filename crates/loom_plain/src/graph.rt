//! Points, each with the points that reach it by edges. A view is what reaches a point.
use crate::halt::Halt;
use crate::memory::push;
use std::alloc::Global;

/// All points of a run. A point is named by its place.
#[derive(Drop)]
pub struct Graph {
    alloc: Global,
    // For each point, of each point up to it whether that reaches it.
    points: Vec<Vec<bool>>,
    /// The points that raise versions.
    pub raising: Vec<usize>,
}

impl Graph {
    /// Without points.
    pub fn new(alloc: Global) -> Graph {
        Graph {
            alloc,
            points: Vec::new(alloc),
            raising: Vec::new(alloc),
        }
    }

    /// A point after these two. What reaches one of them reaches it. Where memory is refused, the run can't be made.
    pub fn add(&mut self, one: usize, other: usize, halt: &mut Option<Halt>) -> usize {
        let place = self.points.len();
        let mut reached = Vec::new(self.alloc);
        for before in 0..place {
            let is_before = self.reaches(before, one) || self.reaches(before, other);
            push(&mut reached, is_before, halt);
        }
        push(&mut reached, true, halt);
        push(&mut self.points, reached, halt);
        place
    }

    /// Whether the one point reaches the other, or is it.
    pub fn reaches(&self, one: usize, other: usize) -> bool {
        match self.points.get(other) {
            Some(reached) => reached.get(one).copied().unwrap_or(false),
            None => false,
        }
    }

    /// Whether the view of the one point is inside that of the other: each raising point that reaches the one reaches the other.
    pub fn is_inside(&self, one: usize, other: usize) -> bool {
        for point in &self.raising {
            if self.reaches(*point, one) && !self.reaches(*point, other) {
                return false;
            }
        }
        true
    }
}
