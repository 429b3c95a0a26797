//! Laws of checks that go on where others stopped.
pub mod preemptions;

ghost use Rattle.std.specs.Fn.{CalledAtMut};
ghost use Rattle.loom.specs.Model.Check.{TogetherLaw};
ghost use Rattle.loom.specs.Model.CoverParts.{BeginLaw, ForgetLaw};
ghost use Rattle.loom.specs.Model.Covered.{GoesOnLaw};
ghost use Rattle.loom.specs.Runner.Check.{TogetherLaw as ClosuresLaw};

use crate::model::visitor::Visitor;
use crate::runner::exact::Exact;
use crate::runner::handle::Handle;
use crate::runner::stop::Stop;
use std::sync::Wait;

/// The runs of a check that was stopped and of those that went on, one after another, up to one that is complete, are the
/// reachable runs, each once.
pub fn resumed_checks<D>()
    ensures { TogetherLaw D }
{}

/// A covering check goes on where another one was stopped whose text it reads: so each run is covered by the runs of all, up to one
/// that is complete.
pub fn resumed_covers<D, S>()
    ensures { GoesOnLaw D S }
{}

/// A covering search has reached a list of parts from the beginning by no run (own).
pub fn covering_parts_begin<D, S>()
    ensures { BeginLaw D S }
{}

/// Where what such a search has noted is forgotten, as where its list is read from a text, it has still reached the list (own).
pub fn covering_parts_go_on<D, S>()
    ensures { ForgetLaw D S }
{}

/// The runs of a check of closures that was stopped and of those that went on, one after another: no list of choices comes twice, and
/// where the last one is complete, each alternative that a run calls for was made.
pub fn resumed_closures<
    D: Exact + 'static,
    R: Wait,
    F: FnMut(&mut Handle<D, R>) -> Result<D, Stop>,
    V: Visitor<D>,
>()
    ensures { ClosuresLaw (CalledAtMut F.FnMut) V.takes }
{}
