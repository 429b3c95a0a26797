//! A run's execution and its path: the machine to which its threads hand over their operations.
ghost use Rattle.std.specs.Prelude.{◌≡◌};
ghost use Rattle.loom.specs.Runner.Drawn.{GoesOn, HandedAt};

use crate::runner::exact::Exact;
use crate::runner::history::submit::Submit;
use crate::runner::turns::drawing::Drawing;
use loom_engine::rt::execution::Execution;
use loom_engine::rt::path::Path;
use loom_objects::failure::Stop;
use loom_objects::operation::{Request, Turn};
use std::marker::Model;

/// Where a run is: its execution, and the path that this follows.
#[derive(Drop)]
pub(crate) struct Place<D> {
    pub(crate) execution: Execution<D>,
    pub(crate) path: Path,
    // draws the choices, where they are drawn as the run reaches them
    pub(crate) drawing: Option<Drawing>,
}

impl<D> Model for Place<D> {
    ghost use Rattle.std.specs.Prelude.{is_some};
    ghost use Rattle.loom.specs.Runner.Drawn.{Spot};
    ghost use Rattle.loom.specs.Runner.Histories.{moment};

    ghost Value = { Spot D };

    ghost view = { λ p. record { moment = moment p.execution p.path; drawn = is_some p.drawing } };
}

impl<D> Place<D> {
    /// Whether the run's choices are drawn.
    pub(crate) fn is_drawn(&self) -> bool
        ensures { result ≡ self.now.drawn }
    {
        self.drawing.is_some()
    }
}

impl<D: Exact> Submit<D> for Place<D> {
    ghost use Rattle.loom.specs.Runner.Drawn.{passed_of, turn_of};

    ghost goes_on = { GoesOn };

    ghost turn = { turn_of };

    ghost passed = { passed_of };

    ghost happens = { HandedAt };

    fn active(&self) -> u8 {
        self.execution.active()
    }

    fn passed(&self) -> usize {
        self.path.position()
    }

    fn submit(&mut self, op: Request<D, ()>) -> Result<Turn<D>, Stop>
        requires { GoesOn self.old }
        ensures { HandedAt self.old op result self.new }
    {
        match &mut self.drawing {
            Some(drawing) => self.execution.submit_drawn(&mut self.path, drawing, op),
            None => self.execution.submit(&mut self.path, op),
        }
    }
}
