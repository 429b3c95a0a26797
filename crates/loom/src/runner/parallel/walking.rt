//! Walks of a body by several threads of the host at once (own). In each turn the next legs of the walk are made, each by a worker of its own,
//! and then they are taken back in their order.
ghost use Rattle.std.specs.Prelude.{◌≡◌, ◌≤◌, ◌<◌, ◌+◌, ◌^◌, ◌⊎◌, [], Err, IfErr, IfOk};
ghost use Rattle.loom_engine.specs.Runs.Body.{runs as runs_of};
ghost use Rattle.loom.specs.Model.Settings.{explores, tested};
ghost use Rattle.loom.specs.Runner.Legs.{AreMade, AreNew, IsMade, IsMadeBy, IsTaken, MakesLeg, TakesBack, Walks, asked_of, made_by, made_of, untimed};

use crate::model::builder::Builder;
use crate::model::clock::{Clock, NoClock};
use crate::model::different::Different;
use crate::model::drawer::{Drawer, LEG_RUNS};
use crate::model::error::CheckError;
use crate::model::limits::log_runs;
use crate::model::visitor::Visitor;
use crate::model::walk::{Walk, Walked};
use crate::runner::parallel::apart::Apart;
use crate::runner::parallel::visitors::Visitors;
use log::Log;
use loom_objects::body::Body;
use std::alloc::{AllocError, Global};
use std::thread::{self, Threads};

/// A leg of a walk that is to be made, as a walk of as many runs, with who draws their choices and the visitor that is given them.
#[derive(Drop)]
pub(crate) struct Leg<V> {
    pub(crate) walk: Walk,
    pub(crate) drawer: Drawer,
    pub(crate) visitor: V,
}

/// A leg that was made, with its visitor, what was noted of its runs, and what came of it.
#[derive(Drop)]
pub(crate) struct LegDone<V> {
    pub(crate) visitor: V,
    pub(crate) different: Different,
    pub(crate) walked: Result<Walked, CheckError>,
}

/// How far a walk has come: how many runs ended without a failure, how many were cut, and what was noted of them.
#[derive(Drop)]
pub(crate) struct Gone {
    pub(crate) runs: u64,
    pub(crate) cut: u64,
    pub(crate) different: Different,
}

/// Makes so many runs of the body whose choices are drawn, until one fails or the walk's time is up, by so many workers at a time (own).
/// Zero workers count as one. What it finds is what `Builder::walk` finds, whatever the number of workers, unless the time is up, or memory
/// for a count of different runs is refused.
///
/// A walk comes in legs of a thousand runs. In each turn every worker makes a leg, with a visitor and a body of its own, which it copies
/// from this one. Then the visitors are joined, in the order of the legs. The first run that fails ends the walk: of the legs behind it
/// nothing is counted, and their visitors aren't joined.
///
/// The clock is asked before each turn, where a duration is set. The log hears what it hears of `Builder::walk`, of the runs of a turn behind
/// it.
///
/// A setting out of range is refused before any run. Besides, only `Memory` comes, where a growth was refused.
pub fn walk_parallel<
    R: Threads + Sync,
    B: Body + Apart + Sync,
    V: Visitor<B::Data> + Send + Drop,
    G: Visitors<V>,
    C: Clock,
    L: Log,
>(
    rt: &R,
    alloc: Global,
    builder: &Builder,
    body: &B,
    workers: usize,
    walk: Walk,
    visitors: &mut G,
    clock: &mut C,
    log: &L,
) -> Result<Walked, CheckError>
where
    B::Data: Send,
    ensures walks { IfOk result (Walks V.takes G.is_new G.joins visitors.old visitors.new builder.now (runs_of B.next (explores builder.now) builder.now.max_threads builder.now.max_steps body.now) walk (C.answered clock.new)) }
    ensures refused { IfErr (tested builder.now) (λ e. (result ≡ Err e) × (visitors.new ≡ visitors.old)) }
    ensures errors { IfErr result (λ e. (e ≡ CheckError.Memory) ⊎ (tested builder.now ≡ Err e)) }
{
    builder.test()?;
    let mut drawer = Drawer::new(walk);
    let mut gone = Gone {
        runs: 0,
        cut: 0,
        different: Different::new(alloc, builder.max_different),
    };
    let asked = walk.runs();
    let workers = workers.max(1);
    'turns: while gone.runs + gone.cut < asked {
        if builder.is_up(clock) {
            return Ok(gone.made());
        }
        let left = asked - (gone.runs + gone.cut);
        let legs = hand_out(alloc, walk, left, &mut drawer, visitors, workers)?;
        let done = make_each(rt, alloc, builder, body, legs)?;
        let failed = take_back::<B::Data, V, G, L>(builder, visitors, done, &mut gone, log)?;
        if let Some(failed) = failed {
            return Ok(failed);
        }
    }
    log_runs(log, "completed in ", asked, " iterations");
    Ok(gone.made())
}

/// The next legs of the walk, so many at most, each with a new visitor. So many runs of it are left.
fn hand_out<V: Drop, G: Visitors<V>>(
    alloc: Global,
    walk: Walk,
    runs: u64,
    drawer: &mut Drawer,
    visitors: &G,
    count: usize,
) -> Result<Vec<Leg<V>>, AllocError>
    requires some { 0 < count }
    requires left { 0 < runs }
    ensures new { IfOk result (λ legs. AreNew G.is_new legs.items) }
    ensures within { IfOk result (λ legs. asked_of legs.items ≤ runs) }
    ensures on { IfOk result (λ legs. 0 < asked_of legs.items) }
{
    let mut legs = Vec::new(alloc);
    let mut left = runs;
    for number in 0..count {
        let is_over = left == 0;
        if is_over {
            return Ok(legs);
        }
        let its = leg_of(left);
        left -= its;
        let visitor = visitors.make()?;
        let leg = Leg {
            walk: walk.of_runs(its),
            drawer: drawer.hand_out(),
            visitor,
        };
        legs.push(leg)?;
    }
    Ok(legs)
}

/// How many runs the next leg has, where so many are left.
fn leg_of(left: u64) -> u64
    requires { 0 < left }
    ensures some { 0 < result }
    ensures within { result ≤ left }
{
    if left < LEG_RUNS { left } else { LEG_RUNS }
}

/// Each leg is made by a thread of the host, where one can be made.
fn make_each<R: Threads + Sync, B: Body + Apart + Sync, V: Visitor<B::Data> + Send + Drop>(
    rt: &R,
    alloc: Global,
    builder: &Builder,
    body: &B,
    legs: Vec<Leg<V>>,
) -> Result<Vec<LegDone<V>>, AllocError>
where
    B::Data: Send,
    ensures { IfOk result (λ done. AreMade V.takes builder.now (runs_of B.next (explores builder.now) builder.now.max_threads builder.now.max_steps body.now) legs.items done.items) }
{
    let make_one = |leg: Leg<V>| -> LegDone<V>
        ensures { IsMadeBy V.takes builder.entry.now (runs_of B.next (explores builder.entry.now) builder.entry.now.max_threads builder.entry.now.max_steps body.entry.now) leg result }
    { make(alloc, builder, body, leg) };
    thread::map_vec(rt, legs, &make_one)
}

/// The runs of a leg are made.
fn make<B: Body + Apart, V: Visitor<B::Data>>(
    alloc: Global,
    builder: &Builder,
    body: &B,
    leg: Leg<V>,
) -> LegDone<V>
    ensures { IsMadeBy V.takes builder.now (runs_of B.next (explores builder.now) builder.now.max_threads builder.now.max_steps body.now) leg result }
{
    let Leg {
        walk,
        drawer,
        mut visitor,
    } = leg;
    let mut different = Different::new(alloc, builder.max_different);
    let walked = walk_apart(
        alloc,
        builder,
        body,
        walk,
        drawer,
        &mut different,
        &mut visitor,
    );
    LegDone {
        visitor,
        different,
        walked,
    }
}

/// They are made with a body of their own. Nothing ends them but a failure.
fn walk_apart<B: Body + Apart, V: Visitor<B::Data>>(
    alloc: Global,
    builder: &Builder,
    body: &B,
    walk: Walk,
    mut drawer: Drawer,
    different: &mut Different,
    visitor: &mut V,
) -> Result<Walked, CheckError>
    requires new { different.old.hashes ≡ [] }
    ensures made { IfOk result (MakesLeg V.takes visitor.old visitor.new builder.now (runs_of B.next (explores builder.now) builder.now.max_threads builder.now.max_steps body.now) different.new walk) }
    ensures errors { IfErr result (λ e. (e ≡ CheckError.Memory) ⊎ (tested builder.now ≡ Err e)) }
{
    builder.test()?;
    let own = body.apart()?;
    let settings = untimed(builder);
    let walked = settings.walk_by(
        alloc,
        &own,
        walk,
        &mut drawer,
        different,
        visitor,
        &mut NoClock,
        &None::<HostRuntime>,
    )?;
    Ok(walked)
}

/// These settings, but without a limit of time, and without a file.
fn untimed(builder: &Builder) -> Builder
    ensures same { result ≡ untimed builder.now }
    ensures threads { result.max_threads ≡ builder.now.max_threads }
    ensures branches { result.max_branches ≡ builder.now.max_branches }
    ensures interval { result.checkpoint_interval ≡ builder.now.checkpoint_interval }
{
    Builder {
        max_threads: builder.max_threads,
        max_branches: builder.max_branches,
        max_steps: builder.max_steps,
        max_permutations: builder.max_permutations,
        max_duration: None,
        max_different: builder.max_different,
        reduce: builder.reduce,
        preemption_bound: builder.preemption_bound,
        checkpoint_file: None,
        checkpoint_interval: builder.checkpoint_interval,
        expect_explicit_explore: builder.expect_explicit_explore,
        snapshots: builder.snapshots,
        location: builder.location,
        log: builder.log,
        recorded: builder.recorded,
    }
}

/// The legs are taken back in their order, up to one of which a run failed, if there is one. The log hears of their runs.
fn take_back<D, V: Visitor<D> + Drop, G: Visitors<V>, L: Log>(
    builder: &Builder,
    visitors: &mut G,
    done: Vec<LegDone<V>>,
    gone: &mut Gone,
    log: &L,
) -> Result<Option<Walked>, AllocError>
    requires fits { gone.old.runs + gone.old.cut + made_of done.items < 2 ^ 64 }
    requires interval { 0 < builder.now.checkpoint_interval }
    ensures { IfOk result (TakesBack V.takes G.is_new G.joins visitors.old visitors.new gone.old gone.new done.items) }
{
    let mut left = done.into_iter();
    'back: while let Some(one) = left.next() {
        let before = gone.runs + gone.cut;
        let failed = take_one(visitors, one, gone)?;
        if let Some(failed) = failed {
            tell(builder, log, before, failed.begun());
            return Ok(Some(failed));
        }
        tell(builder, log, before, gone.runs + gone.cut);
    }
    Ok(None)
}

/// The visitor is joined, and the runs are counted. Where one failed the walk's answer is that.
fn take_one<V: Drop, G: Visitors<V>>(
    visitors: &mut G,
    done: LegDone<V>,
    gone: &mut Gone,
) -> Result<Option<Walked>, AllocError>
    requires fits { gone.old.runs + gone.old.cut + made_by done.walked < 2 ^ 64 }
    ensures { IfOk result (IsTaken G.joins visitors.old visitors.new done gone.old gone.new done.walked) }
{
    let LegDone {
        visitor,
        different,
        walked,
    } = done;
    // The settings were tested: nothing but memory was refused.
    let Ok(walked) = walked else {
        return Err(AllocError);
    };
    visitors.join(visitor)?;
    match walked {
        Walked::Made { runs, cut, .. } => {
            gone.runs += runs;
            gone.cut += cut;
            gone.different.join(different);
            Ok(None)
        }
        Walked::Failed {
            runs,
            cut,
            failure,
            choices,
        } => Ok(Some(Walked::Failed {
            runs: gone.runs + runs,
            cut: gone.cut + cut,
            failure,
            choices,
        })),
    }
}

/// The log hears of the runs behind so many, up to this number.
fn tell<L: Log>(builder: &Builder, log: &L, before: u64, last: u64)
    requires interval { 0 < builder.now.checkpoint_interval }
{
    'runs: for runs in before..last {
        builder.log_run(log, runs);
    }
}

impl Gone {
    /// The report of a walk of which no run failed.
    fn made(&self) -> Walked
        ensures { IsMade self.now result }
    {
        Walked::Made {
            runs: self.runs,
            cut: self.cut,
            different: self.different.count(),
        }
    }
}
