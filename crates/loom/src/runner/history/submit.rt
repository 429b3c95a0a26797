//! What threads submit their operations to, each in its turn.
ghost use Rattle.std.specs.Prelude.{◌≡◌, ℕ, ⊤, Result};
ghost use Rattle.loom_objects.specs.declared.failure.Stop.{Stop};
ghost use Rattle.loom_objects.specs.declared.operation.Request.{Request};
ghost use Rattle.loom_objects.specs.declared.operation.Turn.{Turn};

use loom_objects::failure::Stop;
use loom_objects::operation::{Request, Turn};

/// A machine to which threads submit operations by turns (own).
pub trait Submit<D> {
    /// Whether it goes on.
    ghost goes_on: { Self → Type 0 };

    /// Whose turn it is.
    ghost turn: { Self → ℕ };

    /// How many choices were made.
    ghost passed: { Self → ℕ };

    /// What an operation does: the machine before it, what it answers, and the machine after it.
    ghost happens: { Self → Request D ⊤ → Result (Turn D) Stop → Self → Type 0 };

    /// Whose turn it is.
    fn active(&self) -> u8
        ensures { result ≡ turn self.now };

    /// How many choices were made.
    fn passed(&self) -> usize
        ensures { result ≡ passed self.now };

    /// One operation, up to the next turn, or the run fails.
    fn submit(&mut self, op: Request<D, ()>) -> Result<Turn<D>, Stop>
        requires { goes_on self.old }
        ensures { happens self.old op result self.new };
}
