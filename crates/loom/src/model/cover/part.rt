//! Checks of a part of a covering search, some runs at a time (own). What was noted before is in a table that several workers may read
//! at once; what is new is noted in another one, which the caller adds to it when the part is given back.
ghost use Rattle.std.specs.Prelude.{◌≡◌, ◌≤◌, ◌⊎◌, [], Err, IfErr, IfOk, OnErr};
ghost use Rattle.loom_engine.specs.Covering.Spread.{IsSpread};
ghost use Rattle.loom_engine.specs.Path.Route.{at_rest, settings};
ghost use Rattle.loom_engine.specs.Trees.Meeting.{whole_search};
ghost use Rattle.loom_engine.specs.Walk.Machine.{Machine};
ghost use Rattle.loom.specs.Model.CoverParts.{Covers, CoversAbove, CountsRuns, GoesOn, IsOtherPart, IsWithin, IsWithinAbove};
ghost use Rattle.loom.specs.Model.Settings.{explores, tested};

use crate::model::builder::Builder;
use crate::model::clock::Clock;
use crate::model::cover::run::{Ending, run};
use crate::model::error::CheckError;
use crate::model::parts::{Slice, leave};
use crate::model::paths::path_search;
use crate::model::run::Room;
use crate::model::visitor::Visitor;
use loom_engine::rt::parts::{Part, Parts};
use loom_engine::rt::path::{Path, Search};
use loom_engine::rt::states::States;
use loom_objects::body::Body;
use loom_objects::choice::Choice;
use loom_objects::failure::Failure;
use loom_views::same::Same;
use std::alloc::Global;

/// How the work on a part of a covering search went. `runs` counts the runs that ended without a failure, and `met` those that were
/// given up where a state was noted (own).
#[derive(Debug, Drop)]
pub enum PartCovered {
    /// None of its runs failed. The part says whether more are left.
    Made {
        runs: u64,
        met: u64,
    },
    /// A run failed, under these choices.
    Failed {
        runs: u64,
        met: u64,
        failure: Failure,
        choices: Vec<Choice>,
    },
}

/// How the runs above a floor went.
#[derive(Drop)]
pub enum Above {
    /// None failed, and more are left or none.
    Made {
        runs: u64,
        met: u64,
        is_done: bool,
    },
    /// One failed, under these choices.
    Failed {
        runs: u64,
        met: u64,
        failure: Failure,
        choices: Vec<Choice>,
    },
}

/// How a run went. Of one that didn't fail it is said whether it was the last one above the floor.
#[derive(Drop)]
pub enum Went {
    /// It ended.
    Ended {
        is_last: bool,
    },
    /// It was given up where its state was noted.
    Met {
        is_last: bool,
    },
    /// It failed, under these choices.
    Failed {
        failure: Failure,
        choices: Vec<Choice>,
    },
}

impl Builder {
    /// The search of a covering check from its beginning, as a list of one part (own). A setting out of range is refused.
    pub fn cover_parts(&self, alloc: Global) -> Result<Parts, CheckError>
        ensures begins { IfOk result (λ parts. (m : Machine) → IsSpread m [] parts) }
        ensures refused { IfErr (tested self.now) (λ e. result ≡ Err e) }
    {
        self.test()?;
        Ok(Parts::new(alloc, self.cover_search())?)
    }

    /// The search of a covering check: it is whole and has no bound, whatever the fields say.
    pub(crate) fn cover_search(&self) -> Search
        requires branches { self.now.max_branches ≤ 1000000 }
        ensures settings { settings result ≡ whole_search self.now.max_branches }
        ensures explores { result.explores ≡ explores self.now }
    {
        path_search(false, None, self.max_branches, self.expect_explicit_explore)
    }

    /// Makes runs of a part of a covering search, until none of it is left, one fails or the slice is used up, and gives each that ended
    /// without a failure to the visitor. A run is given up where it reaches a state that one of the two tables has; any other one is
    /// noted in the second. Both have states of runs of this search alone: of this part or of others. The slice counts the runs that were
    /// begun, the part those that ended. The part then says what is left of it; where a run failed it stays as it was.
    ///
    /// A setting out of range is refused, and then a part of a search with other settings. Besides, an error comes only where a growth
    /// was refused. After an error the part is as it was, and the second table is of no use (own).
    pub fn cover_part<B: Body + Same, V: Visitor<B::Data>, C: Clock>(
        &self,
        alloc: Global,
        body: &B,
        part: &mut Part,
        slice: Slice,
        known: &States<B::Data, B>,
        states: &mut States<B::Data, B>,
        visitor: &mut V,
        clock: &mut C,
    ) -> Result<PartCovered, CheckError>
    where
        B::Data: Same,
        ensures covers { IfOk result (Covers V.takes visitor.old visitor.new self.now B.next body.now known.now states.old states.new part.old part.new) }
        ensures within { IfOk result (IsWithin slice) }
        ensures counts { IfOk result (CountsRuns part.old part.new) }
        ensures same { OnErr result (part.new ≡ part.old) }
        ensures refused { IfErr (tested self.now) (λ e. (result ≡ Err e) × (visitor.new ≡ visitor.old)) }
        ensures errors { IfErr result (λ e. (e ≡ CheckError.Memory) ⊎ (((tested self.now ≡ Err e) ⊎ IsOtherPart self.now part.old.path e) × (visitor.new ≡ visitor.old))) }
    {
        self.test()?;
        let mut path = part.path.taken_up(alloc, self.cover_search())?;
        if part.is_done {
            return Ok(PartCovered::Made { runs: 0, met: 0 });
        }
        let mut room = Room::new(alloc, self.limits())?;
        let floor = part.base.len();
        let above = self.cover_above(
            alloc, body, &mut room, &mut path, floor, slice, known, states, visitor, clock,
        );
        room.leave();
        match above? {
            Above::Made { runs, met, is_done } => {
                leave(part, path, runs, is_done);
                Ok(PartCovered::Made { runs, met })
            }
            Above::Failed {
                runs,
                met,
                failure,
                choices,
            } => Ok(PartCovered::Failed {
                runs,
                met,
                failure,
                choices,
            }),
        }
    }

    /// Makes one run after another along the path, which goes on above this floor, in this room. The settings were tested.
    fn cover_above<B: Body + Same, V: Visitor<B::Data>, C: Clock>(
        &self,
        alloc: Global,
        body: &B,
        room: &mut Room<B>,
        path: &mut Path,
        floor: usize,
        slice: Slice,
        known: &States<B::Data, B>,
        states: &mut States<B::Data, B>,
        visitor: &mut V,
        clock: &mut C,
    ) -> Result<Above, CheckError>
    where
        B::Data: Same,
        requires some { 1 ≤ self.now.max_threads }
        requires few { self.now.max_threads ≤ 5 }
        requires branches { self.now.max_branches ≤ 1000000 }
        requires starts { path.old ≡ at_rest (whole_search self.now.max_branches) (explores self.now) path.old.nodes }
        ensures covers { IfOk result (CoversAbove V.takes visitor.old visitor.new self.now B.next body.now known.now states.old states.new floor path.old path.new) }
        ensures within { IfOk result (IsWithinAbove slice) }
        ensures errors { IfErr result (λ e. e ≡ CheckError.Memory) }
    {
        let (mut runs, mut met) = (0u64, 0u64);
        'slice: loop {
            let went = self.cover_run(alloc, body, room, path, floor, known, states, visitor)?;
            let is_last = match went {
                Went::Ended { is_last } => {
                    runs += 1;
                    is_last
                }
                Went::Met { is_last } => {
                    met += 1;
                    is_last
                }
                Went::Failed { failure, choices } => {
                    return Ok(Above::Failed {
                        runs,
                        met,
                        failure,
                        choices,
                    });
                }
            };
            if is_last {
                let is_done = true;
                return Ok(Above::Made { runs, met, is_done });
            }
            if slice.is_used_up(runs + met, clock) {
                let is_done = false;
                return Ok(Above::Made { runs, met, is_done });
            }
        }
    }

    /// One run along the path, which the visitor is given if it ends, and the step to the next one above this floor. The settings were
    /// tested.
    fn cover_run<B: Body + Same, V: Visitor<B::Data>>(
        &self,
        alloc: Global,
        body: &B,
        room: &mut Room<B>,
        path: &mut Path,
        floor: usize,
        known: &States<B::Data, B>,
        states: &mut States<B::Data, B>,
        visitor: &mut V,
    ) -> Result<Went, CheckError>
    where
        B::Data: Same,
        requires some { 1 ≤ self.now.max_threads }
        requires few { self.now.max_threads ≤ 5 }
        requires branches { self.now.max_branches ≤ 1000000 }
        requires starts { path.old ≡ at_rest (whole_search self.now.max_branches) (explores self.now) path.old.nodes }
        ensures goes { IfOk result (GoesOn V.takes visitor.old visitor.new self.now B.next body.now known.now states.old states.new floor path.old path.new) }
        ensures errors { IfErr result (λ e. e ≡ CheckError.Memory) }
    {
        room.snapshots.clear();
        match run(room, self.limits(), body, path, known, states)? {
            Ending::Ended(value) => {
                visitor.run_along(alloc, path, value)?;
                let is_last = !path.step_above(floor);
                Ok(Went::Ended { is_last })
            }
            Ending::Met(_) => {
                let is_last = !path.step_above(floor);
                Ok(Went::Met { is_last })
            }
            Ending::Failed(failure) => {
                let failing = self.failing(alloc, body, path, failure.kind)?;
                Ok(Went::Failed {
                    failure: failing.failure,
                    choices: failing.choices,
                })
            }
        }
    }
}
