//! Who hears the operations of a run while it is made: for each failure's place, for an explanation, or nobody.
ghost use Rattle.std.specs.Prelude.{ℕ, ◌≡◌, ⊤, Bool, All, false, None, OnOk};
ghost use Rattle.loom_objects.specs.Operation.Bare.{bare_op, bare_reply};
ghost use Rattle.loom_objects.specs.Operation.Labelled.{Op};
ghost use Rattle.loom_objects.specs.declared.operation.Reply.{Reply};

use loom_objects::label::location_in;
use loom_objects::location::Location;
use loom_objects::operation::{Op, Reply};
use loom_views::rt::MAX_THREADS;
use std::alloc::AllocError;

/// Hears each event of a run with these data: the reply to a thread, and then what it hands over.
pub trait Listener<D> {
    /// What it does with a reply, of which the data are left out: the listener before it, and after it.
    ghost takes_reply: { Self → Reply ⊤ → Self → Type 0 };

    /// What it does with an operation of this thread, handed over after so many choices.
    ghost takes_op: { Self → ℕ → Op ⊤ ⊤ → ℕ → Self → Type 0 };

    /// Whether it may know where an operation was made.
    ghost knows_locations: { Bool };

    /// A thread gets this reply. It fails only where a growth is refused, which ends the run.
    fn hear_reply(&mut self, reply: &Reply<D>) -> Result<(), AllocError>
        ensures { OnOk result (takes_reply self.old (bare_reply reply.now) self.new) };

    /// The thread hands over this operation, after so many choices. It fails only where a growth is refused, which ends the run.
    fn hear_op<S>(
        &mut self,
        thread: u8,
        op: &Op<D, S>,
        choices_before: usize,
    ) -> Result<(), AllocError>
        ensures { OnOk result (takes_op self.old thread (bare_op op.now) choices_before self.new) };

    /// Where the thread's last operation was made, if it is known.
    fn location(&self, thread: u8) -> Option<Location>
        ensures { knows_locations ≡ false → result ≡ None };
}

/// Nobody hears the run.
// Its calls are inlined, so that nothing of them is left in the loop of a run.
#[derive(Clone, Copy, Debug)]
pub struct NoListener;

impl<D> Listener<D> for NoListener {
    ghost use Rattle.std.specs.Prelude.{false};

    ghost takes_reply = { λ old reply new. Unit {0} };

    ghost takes_op = { λ old thread op choices new. Unit {0} };

    ghost knows_locations = { false };

    #[inline(always)]
    fn hear_reply(&mut self, _reply: &Reply<D>) -> Result<(), AllocError> {
        Ok(())
    }

    #[inline(always)]
    fn hear_op<S>(
        &mut self,
        _thread: u8,
        _op: &Op<D, S>,
        _choices_before: usize,
    ) -> Result<(), AllocError> {
        Ok(())
    }

    #[inline(always)]
    fn location(&self, _thread: u8) -> Option<Location> {
        None
    }
}

/// Keeps where each thread's last operation was made, so that a failure has its place.
#[derive(Clone, Copy, Debug)]
pub struct LastLocations {
    locations: [Option<Location>; MAX_THREADS],
}

impl LastLocations {
    /// Before any operation no place is known.
    pub fn new() -> LastLocations
        ensures { All (λ location. location ≡ None) result.locations }
    {
        LastLocations {
            locations: [None; MAX_THREADS],
        }
    }
}

impl<D> Listener<D> for LastLocations {
    ghost use Rattle.std.specs.Prelude.{true};

    ghost takes_reply = { λ old reply new. Unit {0} };

    ghost takes_op = { λ old thread op choices new. Unit {0} };

    ghost knows_locations = { true };

    fn hear_reply(&mut self, _reply: &Reply<D>) -> Result<(), AllocError> {
        Ok(())
    }

    fn hear_op<S>(
        &mut self,
        thread: u8,
        op: &Op<D, S>,
        _choices_before: usize,
    ) -> Result<(), AllocError> {
        if let Some(location) = self.locations.get_mut(thread as usize) {
            *location = location_in(op.label);
        }
        Ok(())
    }

    fn location(&self, thread: u8) -> Option<Location> {
        *self.locations.get(thread as usize)?
    }
}
