//! Covering checks of a body by several threads of the host at once (own). In each turn the workers read one table of the states that were
//! noted before it, and each notes what is new in a table of its own; after the turn these are added to the first.
ghost use Rattle.std.specs.Prelude.{◌≡◌, ◌≤◌, ◌<◌, ◌*◌, ◌+◌, ◌^◌, ℕ, [], Err, IfErr, IfOk, length, max};
ghost use Rattle.loom.specs.Model.Settings.{tested};
ghost use Rattle.loom.specs.Runner.Covering.{AreAtMost, AreCovered, Finds, HasRoom, IsAtMost, IsCoveredBy, IsTaken, TakesBack, TakesTurn};

use crate::model::builder::Builder;
use crate::model::clock::Clock;
use crate::model::cover::Covered;
use crate::model::cover::part::PartCovered;
use crate::model::error::CheckError;
use crate::model::limits::{log_runs, most_runs};
use crate::model::parts::Slice;
use crate::model::visitor::Visitor;
use crate::runner::parallel::apart::Apart;
use crate::runner::parallel::round::{Job, Lost, cut_up, hand_out, is_first_of};
use crate::runner::parallel::turn_clock::TurnClock;
use crate::runner::parallel::visitors::Visitors;
use crate::runner::parallel::{Workers, tell};
use log::Log;
use loom_engine::rt::parts::{Part, Parts};
use loom_engine::rt::states::States;
use loom_objects::body::Body;
use loom_views::same::Same;
use std::alloc::{AllocError, Global};
use std::rt::Clock as HostTime;
use std::sync::Wait;
use std::sync::atomic::{AtomicBool, Ordering};
use std::thread::{self, Threads};

/// A part that was worked on, with its visitor, what was noted, and what came of it.
#[derive(Drop)]
pub struct PartDone<D, B, V> {
    /// What is left of it.
    pub part: Part,
    /// It was given the runs that ended.
    pub visitor: V,
    /// What was noted.
    pub states: States<D, B>,
    /// How the work went.
    pub worked: Result<PartCovered, CheckError>,
}

/// How a turn went: how many runs ended and how many were given up of the parts that were given back, and a run of another one that
/// failed, if one did.
#[derive(Drop)]
pub struct CoverTurn {
    /// How many runs ended.
    pub runs: u64,
    /// How many were given up.
    pub met: u64,
    /// The run that failed.
    pub lost: Option<Lost>,
}

/// Makes the runs that are left of a covering search until no part of it is left, a run fails or a limit is reached (own), as
/// `check_parallel` does. The states that were noted before are in the table, which is added to: with the parts it is what there is to be
/// kept of the search. Where they are forgotten more runs are made.
///
/// `Complete` says that each run of the body is covered by the runs that were made before and those that the visitors were given. Whether
/// each can end isn't known, so `Livelock` isn't reported. A failing run isn't counted. `max_permutations` counts the runs that were
/// begun.
///
/// Each thread makes runs of a body of its own, which it copies from this one. The states hold bodies and their data, which the threads read.
///
/// A setting out of range is refused before any run, and so is a part of a search with other settings. Besides, an error comes only
/// where a growth was refused. After an error the list and the table are of no use.
pub fn cover_parallel<
    R: Threads + Wait + HostTime + Sync,
    B: Body + Same + Apart + Send + Sync,
    V: Visitor<B::Data> + Send + Drop,
    G: Visitors<V>,
    C: Clock,
    L: Log,
>(
    rt: &R,
    alloc: Global,
    builder: &Builder,
    body: &B,
    workers: Workers,
    states: &mut States<B::Data, B>,
    parts: &mut Parts,
    visitors: &mut G,
    clock: &mut C,
    log: &L,
) -> Result<Covered, CheckError>
where
    B::Data: Same + Send + Sync,
    ensures finds { IfOk result (Finds V.takes G.is_new G.joins builder.now B.next body.now (C.answered clock.new) parts.old parts.new states.old states.new visitors.old visitors.new) }
    ensures refused { IfErr (tested builder.now) (λ e. (result ≡ Err e) × (visitors.new ≡ visitors.old) × (parts.new ≡ parts.old)) }
{
    builder.test()?;
    let (mut runs, mut met, mut told) = (0u64, 0u64, 0);
    'turns: for _ in rt.forever() {
        if parts.is_over() {
            log_runs(log, "completed in ", runs + met, " iterations");
            return Ok(Covered::Complete {
                runs,
                met,
                states: states.len(),
            });
        }
        if let Some(limit) = builder.reached(runs + met, clock) {
            return Ok(Covered::Stopped {
                runs,
                met,
                states: states.len(),
                limit,
            });
        }
        let room = most_runs(builder.max_permutations) - (runs + met);
        let sharing = workers.within(room);
        let turn = make_turn(rt, alloc, builder, body, sharing, states, parts, visitors)?;
        runs += turn.runs;
        met += turn.met;
        if let Some(lost) = turn.lost {
            return Ok(Covered::Failed {
                runs,
                met,
                states: states.len(),
                failure: lost.failure,
                choices: lost.choices,
            });
        }
        cut_up(alloc, parts, sharing.count)?;
        let every = builder.checkpoint_interval;
        told = tell(log, every, runs + met, told, parts, sharing.count);
    }
    unreachable!()
}

/// Each worker works on one of the first parts for a while, and then they are given back, with what was noted.
fn make_turn<
    R: Threads + HostTime + Sync,
    B: Body + Same + Apart + Send + Sync,
    V: Visitor<B::Data> + Send + Drop,
    G: Visitors<V>,
>(
    rt: &R,
    alloc: Global,
    builder: &Builder,
    body: &B,
    workers: Workers,
    states: &mut States<B::Data, B>,
    parts: &mut Parts,
    visitors: &mut G,
) -> Result<CoverTurn, CheckError>
where
    B::Data: Same + Send + Sync,
    requires fits { workers.count * max 1 workers.slice.runs < 2 ^ 64 }
    ensures takes { IfOk result (TakesTurn V.takes G.is_new G.joins builder.now B.next body.now parts.old parts.new states.old states.new visitors.old visitors.new) }
    ensures within { IfOk result (λ turn. turn.runs + turn.met ≤ workers.count * max 1 workers.slice.runs) }
{
    let jobs = hand_out(alloc, parts, visitors, workers.count)?;
    let slice = Slice {
        until: workers.time_with(jobs.len()),
        ..workers.slice
    };
    let done = cover_each(rt, alloc, builder, body, slice, states, jobs)?;
    take_back::<B, V, G>(alloc, states, parts, visitors, done)
}

/// Each part is worked on by a thread of the host, where one can be made.
fn cover_each<
    R: Threads + HostTime + Sync,
    B: Body + Same + Apart + Send + Sync,
    V: Visitor<B::Data> + Send + Drop,
>(
    rt: &R,
    alloc: Global,
    builder: &Builder,
    body: &B,
    slice: Slice,
    known: &States<B::Data, B>,
    jobs: Vec<Job<V>>,
) -> Result<Vec<PartDone<B::Data, B, V>>, AllocError>
where
    B::Data: Same + Send + Sync,
    ensures covered { IfOk result (λ done. AreCovered V.takes builder.now B.next body.now known.now jobs.items done.items) }
    ensures within { IfOk result (λ done. AreAtMost (max 1 slice.runs) done.items) }
    ensures len { IfOk result (λ done. length done.items ≡ length jobs.items) }
{
    let is_over = AtomicBool::new(false);
    let is_over = &is_over;
    thread::map_vec(
        rt,
        jobs,
        &|job| { cover(rt, alloc, builder, body, is_over, slice, known, job) },
    )
}

/// The part is worked on for a while, with a body and a table of its own. The turn is over once nothing is left of it.
fn cover<R: HostTime, B: Body + Same + Apart, V: Visitor<B::Data>>(
    rt: &R,
    alloc: Global,
    builder: &Builder,
    body: &B,
    is_over: &AtomicBool,
    slice: Slice,
    known: &States<B::Data, B>,
    job: Job<V>,
) -> PartDone<B::Data, B, V>
where
    B::Data: Same,
    ensures covered { IsCoveredBy V.takes builder.now B.next body.now known.now job result }
    ensures within { IsAtMost (max 1 slice.runs) result.worked }
{
    let Job {
        mut part,
        mut visitor,
    } = job;
    let mut clock = TurnClock::start(rt, is_over);
    let mut states = known.beside(alloc);
    let worked = match body.apart() {
        Ok(own) => builder.cover_part(
            alloc,
            &own,
            &mut part,
            slice,
            known,
            &mut states,
            &mut visitor,
            &mut clock,
        ),
        Err(refused) => Err(CheckError::from(refused)),
    };
    if part.is_done {
        is_over.store(true, Ordering::SeqCst);
    }
    PartDone {
        part,
        visitor,
        states,
        worked,
    }
}

/// Each part is given back, but those of which a run failed, its visitor is joined, and what was noted is added.
fn take_back<B: Body + Same, V: Visitor<B::Data> + Drop, G: Visitors<V>>(
    alloc: Global,
    states: &mut States<B::Data, B>,
    parts: &mut Parts,
    visitors: &mut G,
    mut done: Vec<PartDone<B::Data, B, V>>,
) -> Result<CoverTurn, CheckError>
where
    B::Data: Same,
    requires fits { (most : ℕ) × AreAtMost most done.items × (length done.items * most < 2 ^ 64) }
    ensures takes { IfOk result (TakesBack V.takes G.is_new G.joins B.next parts.old parts.new states.old states.new visitors.old visitors.new done.items) }
    ensures within { IfOk result (λ turn. (most : ℕ) → AreAtMost most done.items → turn.runs + turn.met ≤ length done.items * most) }
{
    let mut turn = CoverTurn {
        runs: 0,
        met: 0,
        lost: None,
    };
    'back: while let Some(one) = done.pop() {
        take_one(alloc, states, parts, visitors, one, &mut turn)?;
    }
    Ok(turn)
}

/// The part is given back, its visitor joined and what was noted added, but where a run of it failed, or nothing was left of it.
fn take_one<B: Body + Same, V: Drop, G: Visitors<V>>(
    alloc: Global,
    states: &mut States<B::Data, B>,
    parts: &mut Parts,
    visitors: &mut G,
    done: PartDone<B::Data, B, V>,
    turn: &mut CoverTurn,
) -> Result<(), CheckError>
where
    B::Data: Same,
    requires fits { HasRoom (turn.old.runs + turn.old.met) done.worked }
    ensures { IfOk result (λ _. IsTaken G.joins parts.old parts.new states.old states.new visitors.old visitors.new done turn.old turn.new done.worked) }
{
    let PartDone {
        part,
        visitor,
        states: noted,
        worked,
    } = done;
    match worked? {
        PartCovered::Made { runs: 0, met: 0 } => Ok(()),
        PartCovered::Made { runs, met } => {
            visitors.join(visitor)?;
            parts.give_back(alloc, part)?;
            states.join(noted)?;
            turn.runs += runs;
            turn.met += met;
            Ok(())
        }
        PartCovered::Failed {
            failure,
            choices,
            ..
        } => {
            let lost = Lost {
                part,
                failure,
                choices,
            };
            if is_first_of(&lost, &turn.lost) {
                turn.lost = Some(lost);
            }
            Ok(())
        }
    }
}
