//! The right forms are complete, and the wrong ones fail as they should: each finds what the same body finds as a state machine, in as
//! many runs, under the same choices. The ring and the queue are checked with few preemptions, as there.
use loom::FailureKind;
use loom::model::Report;
use loom::model::builder::Builder;
use loom::runner::{Handle, NoVisitor, RunnerError, Stop, check};
use loom_examples::bodies::spin::Spin;
use loom_examples::bodies::{peterson, queue, ring};
use loom_examples::closures::peterson::petersons_lock;
use loom_examples::closures::queue::{Notifies, through_queue};
use loom_examples::closures::ring::through_ring;
use loom_examples::closures::spin::spin_lock;
use loom_examples::scripts::script::Script;
use loom_examples::scripts::step::Step;
use std::process::Abort;
use std::rt::Files;
use std::sync::Wait;
use std::sync::atomic::Ordering::{self, AcqRel, Relaxed, Release, SeqCst};
use std::test::Fail;
use std::thread::Threads;

/// The closures, each with what its forms differ in.
#[derive(Clone, Copy)]
enum Closures {
    Spin(Ordering),
    Petersons(Ordering),
    Ring(Ordering),
    Queue(Notifies),
}

impl Closures {
    /// What main does.
    fn run<R: Threads + Wait + Clone + Send + 'static>(
        self,
        handle: &mut Handle<u64, R>,
    ) -> Result<u64, Stop> {
        match self {
            Closures::Spin(release) => spin_lock(handle, release),
            Closures::Petersons(fence) => petersons_lock(handle, fence),
            Closures::Ring(publish) => through_ring(handle, publish),
            Closures::Queue(notifies) => through_queue(handle, notifies),
        }
    }

    /// What a check finds.
    fn check<R: AllocGlobal + Files + Threads + Wait + Clone + Send + 'static>(
        self,
        rt: &R,
        builder: &Builder,
    ) -> Result<Report, RunnerError> {
        let main = |handle: &mut Handle<u64, R>| self.run(handle);
        check(rt, rt.alloc(), builder, main, &mut NoVisitor)
    }
}

/// Whether the check is complete, or a run failed by this kind.
fn ends_by(report: &Report, kind: Option<FailureKind>) -> bool {
    match report {
        Report::Complete { .. } => kind.is_none(),
        Report::Failed { failure, .. } => kind == Some(failure.kind),
        Report::Stopped { .. } => false,
    }
}

/// The closures' check is complete, or a run of them failed by this kind; and the bodies' check found the same, after as many runs.
fn both_find<R: Abort + AllocGlobal + Files + Threads + Wait + Clone + Send + 'static>(
    rt: &R,
    builder: &Builder,
    closures: Closures,
    bodies: &Report,
    kind: Option<FailureKind>,
) -> Result<(), Fail> {
    let closures = closures.check(rt, builder)?;
    agree(rt, &closures, bodies, kind);
    Ok(())
}

/// Both checks are complete, or found a failure of this kind, and their reports are the same.
fn agree<R: Abort>(rt: &R, closures: &Report, bodies: &Report, kind: Option<FailureKind>) {
    let is_same = closures == bodies;
    assert!(rt;
        ends_by(closures, kind) && is_same,
        "{closures}, and {bodies}"
    );
}

/// The checks of a body, which is a script.
fn finds_as_script<R: Abort + AllocGlobal + Files + Threads + Wait + Clone + Send + 'static>(
    rt: &R,
    builder: &Builder,
    closures: Closures,
    steps: &'static [Step],
    kind: Option<FailureKind>,
) -> Result<(), Fail> {
    let script = Script::new(rt.alloc(), steps)?;
    let bodies = builder.check(rt, rt.alloc(), &script)?;
    both_find(rt, builder, closures, &bodies, kind)
}

/// The checks of a body, which is a spin lock.
fn finds_as_spin<R: Abort + AllocGlobal + Files + Threads + Wait + Clone + Send + 'static>(
    rt: &R,
    release: Ordering,
    kind: Option<FailureKind>,
) -> Result<(), Fail> {
    let builder = Builder::new();
    let bodies = builder.check(rt, rt.alloc(), &Spin::main(release))?;
    both_find(rt, &builder, Closures::Spin(release), &bodies, kind)
}

#[test]
fn a_spin_lock(rt: HostRuntime) -> Result<(), Fail> {
    finds_as_spin(&rt, Release, None)?;
    finds_as_spin(&rt, Relaxed, Some(FailureKind::Race))
}

#[test]
fn petersons(rt: HostRuntime) -> Result<(), Fail> {
    let builder = Builder::new();
    let (right, wrong) = (Closures::Petersons(SeqCst), Closures::Petersons(AcqRel));
    finds_as_script(&rt, &builder, right, peterson::RIGHT, None)?;
    finds_as_script(
        &rt,
        &builder,
        wrong,
        peterson::WRONG,
        Some(FailureKind::Race),
    )
}

#[test]
fn a_ring(rt: HostRuntime) -> Result<(), Fail> {
    let mut builder = Builder::new();
    let wrong = Closures::Ring(Relaxed);
    finds_as_script(&rt, &builder, wrong, ring::WRONG, Some(FailureKind::Race))?;
    // With few preemptions, as in the other tests of a ring.
    builder.preemption_bound = Some(2);
    finds_as_script(&rt, &builder, Closures::Ring(Release), ring::RIGHT, None)
}

#[test]
fn a_queue(rt: HostRuntime) -> Result<(), Fail> {
    let mut builder = Builder::new();
    builder.preemption_bound = Some(1);
    let (right, wrong) = (
        Closures::Queue(Notifies::All),
        Closures::Queue(Notifies::One),
    );
    finds_as_script(&rt, &builder, right, queue::RIGHT, None)?;
    finds_as_script(
        &rt,
        &builder,
        wrong,
        queue::WRONG,
        Some(FailureKind::Deadlock),
    )
}
