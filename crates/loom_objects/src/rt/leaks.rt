//! Leaks: what may not be left at a run's end (loom's `rt/object.rs`, `check_for_leaks`).
ghost use Rattle.std.specs.Prelude.{◌≡◌};
ghost use Rattle.std.specs.List.{list_all};
ghost use Rattle.loom_objects.specs.Rules.Leaks as leaks;
ghost use Rattle.loom_objects.specs.Rules.Ending as rules;
ghost use Rattle.loom_objects.specs.Scene.Stage.{Does};

use crate::operation::Turn;
use crate::rt::object::Object;
use crate::rt::scene::Scene;
use crate::rt::thread::{State, Thread};
use loom_views::rt::failure::FailureKind;
use loom_views::sequence::Sequence;

/// The first leak, in the order in which the objects were made (own).
pub fn first_leak<D>(objects: &Sequence<Object<D>>) -> Option<FailureKind>
    ensures { result ≡ leaks.first_leak objects.now }
{
    for i in 0..objects.len() {
        if let Some(kind) = objects.at(i).leak() {
            return Some(kind);
        }
    }
    None
}

fn has_ended<D>(thread: &Thread<D>) -> bool
    ensures { result ≡ rules.has_ended thread.now }
{
    matches!(thread.state, State::Ended)
}

impl<D: Drop> Scene<D> {
    /// Whether every thread has ended.
    pub fn all_ended(&self) -> bool
        ensures { result ≡ list_all rules.has_ended self.now.threads }
    {
        self.threads.as_slice().iter().all(has_ended)
    }

    /// The run ends with main's result. The first object that is left, and must not be, is a leak.
    pub fn end(&mut self) -> Result<Turn<D>, FailureKind>
        ensures { Does rules.end_of self.old result self.new }
    {
        if let Some(kind) = first_leak(&self.objects) {
            return Err(kind);
        }
        Ok(Turn::Ended(self.take_result(0)?))
    }
}
