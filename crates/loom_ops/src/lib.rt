//! The handles of a run, under loom's paths: each method makes an operation, and no handle does more. A body makes its
//! operations by them, and reads a reply by `from_reply`. `sync`, `cell`, `thread`, `future`, `lazy_static`, `alloc` and
//! `hint` are loom's modules. `answers` has what a closure gets of each reply. `loom` hands these modules on, and the bodies of
//! `loom_examples` and `loom_tests` are written with them.
#![tactic(auto)]

ghost use Rattle.std.specs.Prelude.{◌≡◌};
ghost use Rattle.loom_ops.specs.Failing.{unexpected};
ghost use Rattle.loom_objects.specs.Operation.Labelled.{bare};

pub mod alloc;
pub mod answers;
pub mod cell;
pub mod future;
pub mod hint;
pub mod lazy_static;
pub mod sync;
pub mod thread;

use loom_objects::operation::{ExploreOp, Op, Request};

/// The body's own assertion failed, which ends the run (own).
pub fn fail<D, S>() -> Op<D, S>
    ensures { result ≡ bare Request.Fail }
{
    Op::new(Request::Fail)
}

/// The body met a reply that it doesn't know, which ends the run as an assertion that failed. Its label says so (own).
pub fn unexpected_reply<D, S>() -> Op<D, S>
    ensures { result ≡ unexpected }
{
    fail().named("unexpected reply")
}

/// The search tries other choices than the first from now on. Where it does so already that is the failure `ExploreSwitch`;
/// after `skip_branch` nothing changes (loom's `rt/mod.rs`).
pub fn explore<D, S>() -> Op<D, S>
    ensures { result ≡ bare (Request.Explore ExploreOp.Explore) }
{
    Op::new(Request::Explore(ExploreOp::Explore))
}

/// The search makes the first choice alone from now on, up to `explore`. Where it does so already that is the failure
/// `ExploreSwitch`; after `skip_branch` nothing changes (loom's `rt/mod.rs`).
pub fn stop_exploring<D, S>() -> Op<D, S>
    ensures { result ≡ bare (Request.Explore ExploreOp.StopExploring) }
{
    Op::new(Request::Explore(ExploreOp::StopExploring))
}

/// The search makes the first choice alone up to the run's end (loom's `rt/mod.rs`).
pub fn skip_branch<D, S>() -> Op<D, S>
    ensures { result ≡ bare (Request.Explore ExploreOp.SkipBranch) }
{
    Op::new(Request::Explore(ExploreOp::SkipBranch))
}
