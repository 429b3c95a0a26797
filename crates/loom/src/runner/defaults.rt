//! The check of a closure by the default settings, and the visitor that looks at no run.
ghost use Rattle.std.specs.Prelude.{◌≡◌, None, IfOk, IfErr};
ghost use Rattle.std.specs.Fn.{CalledAtMut};
ghost use Rattle.loom.specs.Model.Settings.{defaults};
ghost use Rattle.loom.specs.Runner.Check.{ReportsUnsaved};
ghost use Rattle.loom.specs.Runner.Refusals.{GivesUp};

use crate::model::builder::Builder;
use crate::model::report::Report;
use crate::model::visitor::Visitor;
use crate::runner::checks::check_unsaved;
use crate::runner::error::RunnerError;
use crate::runner::exact::Exact;
use crate::runner::handle::Handle;
use crate::runner::stop::Stop;
use loom_engine::rt::path::Path;
use loom_objects::choice::Choice;
use std::alloc::{AllocError, Global};
use std::sync::Wait;
use std::thread::Threads;

/// A visitor that looks at no run (own).
#[derive(Drop)]
pub struct NoVisitor;

impl<D: Drop> Visitor<D> for NoVisitor {
    ghost takes = { λ old choices value new. Unit {0} };

    fn run(&mut self, _choices: &[Choice], _value: D) -> Result<(), AllocError> {
        Ok(())
    }

    fn run_along(&mut self, _alloc: Global, _path: &Path, _value: D) -> Result<(), AllocError> {
        Ok(())
    }
}

/// A check of the closure by the defaults, whose runs no visitor is given (loom's `model`). Its errors are those of `check`, but for
/// `Settings`.
pub fn model<
    D: Exact + 'static,
    R: Threads + Wait + Clone + Send + 'static,
    F: FnMut(&mut Handle<D, R>) -> Result<D, Stop>,
>(rt: &R, alloc: Global, mut closure: F) -> Result<Report, RunnerError>
    requires { F.IsAlwaysCallable closure }
    ensures reports { IfOk result (λ report. (v v' : NoVisitor) × ReportsUnsaved (CalledAtMut F.FnMut) (λ old choices value new. Unit {0}) defaults closure v v' report) }
    ensures errors { IfErr result (λ e. (v v' : NoVisitor) × GivesUp (CalledAtMut F.FnMut) (λ old choices value new. Unit {0}) defaults (λ text. text ≡ None) ⊥ closure v v' e) }
{
    let log = None::<HostRuntime>;
    check_unsaved(
        rt,
        alloc,
        &Builder::new(),
        &mut closure,
        &mut NoVisitor,
        &log,
    )
}
