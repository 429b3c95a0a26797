//! What a shared check makes runs of: as a plain check does, or with the states of a body remembered.
ghost use Rattle.std.specs.Prelude.{◌≡◌, IfOk};

use crate::bodies::updates::Updater;
use crate::rows::Checked;
use crate::rows::parted::{Parted, refuse_body};
use crate::rows::shares::kind::Kind;
use crate::scripts::script::Script;
use loom::model::Replay;
use loom::model::builder::Builder;
use loom::model::cover::part::PartCovered;
use loom::model::parts::{Slice, Worked};
use loom::runner::{Host, NoVisitor, RunnerError};
use loom::{Body, Choice, Clock};
use loom_engine::rt::parts::Part;
use loom_engine::rt::states::States;
use loom_objects::failure::Failure;
use loom_views::same::Same;
use std::alloc::{AllocError, Global};
use std::io::{self, Write};

/// The outcome of work on a part.
#[derive(Drop)]
pub(crate) enum Made {
    /// None of its runs failed. So many ended, and so many were given up.
    Made {
        runs: u64,
        met: u64,
    },
    /// A run failed, under these choices.
    Failed {
        runs: u64,
        failure: Failure,
        choices: Vec<Choice>,
    },
}

/// A body, and the states of its runs, which are remembered as long as this lasts.
#[derive(Drop)]
pub(crate) struct Remembering<B> {
    body: B,
    states: States<u64, B>,
}

impl<B: Body<Data = u64> + Same> Remembering<B> {
    // With room for so many states.
    fn new(alloc: Global, body: B, most_states: usize) -> Result<Remembering<B>, AllocError> {
        let states = States::new(alloc, most_states, body.never_switches())?;
        Ok(Remembering { body, states })
    }

    // Makes runs of a part of the covering search.
    fn work_on<R: Host, C: Clock>(
        &mut self,
        rt: &R,
        builder: &Builder,
        part: &mut Part,
        slice: Slice,
        clock: &mut C,
    ) -> Result<Made, RunnerError> {
        let known = States::none(rt.alloc(), self.body.never_switches());
        let covered = builder.cover_part(
            rt.alloc(),
            &self.body,
            part,
            slice,
            &known,
            &mut self.states,
            &mut NoVisitor,
            clock,
        )?;
        Ok(match covered {
            PartCovered::Made { runs, met } => Made::Made { runs, met },
            PartCovered::Failed {
                runs,
                met: _,
                failure,
                choices,
            } => Made::Failed {
                runs,
                failure,
                choices,
            },
        })
    }
}

/// What has runs of which parts are made.
#[derive(Drop)]
pub(crate) enum Shared {
    /// States aren't remembered.
    Plain(Parted),
    /// Those of a script's runs are.
    Script(Remembering<Script>),
    /// Those of the body that updates its atomic are.
    Updater(Remembering<Updater>),
}

impl Shared {
    /// The body of a row, with so many states remembered, where that is asked for.
    pub(crate) fn of(
        alloc: Global,
        checked: Checked,
        covers: Option<usize>,
    ) -> Result<Shared, AllocError> {
        let parted = Parted::of(alloc, checked)?;
        let Some(most_states) = covers else {
            return Ok(Shared::Plain(parted));
        };
        match parted {
            Parted::Script(script) => {
                Ok(Shared::Script(Remembering::new(alloc, script, most_states)?))
            }
            Parted::Updater(updater) => {
                Ok(Shared::Updater(Remembering::new(alloc, updater, most_states)?))
            }
            Parted::Closures(row) => Ok(Shared::Plain(Parted::Closures(row))),
        }
    }

    /// Which kind of check it is.
    pub(crate) fn kind(&self) -> Kind {
        match self {
            Shared::Plain(_) => Kind::Plain,
            Shared::Script(_) | Shared::Updater(_) => Kind::Covering,
        }
    }

    /// Makes runs of a part of the search, by this builder, and gives the outcome.
    pub(crate) fn work_on<R: Host, C: Clock>(
        &mut self,
        rt: &R,
        builder: &Builder,
        part: &mut Part,
        slice: Slice,
        clock: &mut C,
    ) -> Result<Made, RunnerError> {
        match self {
            Shared::Plain(parted) => {
                let worked = parted.work_on(rt, builder, part, slice, clock)?;
                Ok(made_plainly(worked))
            }
            Shared::Script(script) => script.work_on(rt, builder, part, slice, clock),
            Shared::Updater(updater) => updater.work_on(rt, builder, part, slice, clock),
        }
    }

    /// One run, by these choices and then by defaults.
    pub(crate) fn replay<R: Host>(
        &self,
        rt: &R,
        builder: &Builder,
        choices: &[Choice],
    ) -> Result<Replay<u64>, RunnerError> {
        let alloc = rt.alloc();
        match self {
            Shared::Plain(parted) => parted.replay(rt, builder, choices),
            Shared::Script(script) => Ok(builder.replay(alloc, &script.body, choices)?),
            Shared::Updater(updater) => Ok(builder.replay(alloc, &updater.body, choices)?),
        }
    }

    /// Prints which error came, and why: of a body the error of its check, and of closures that of theirs.
    pub(crate) fn refuse<E: Write>(
        &self,
        err: &mut E,
        builder: &Builder,
        error: RunnerError,
    ) -> io::Result<u8>
        ensures { IfOk result (λ status. status ≡ 2) }
    {
        match self {
            Shared::Plain(parted) => parted.refuse(err, builder, error),
            Shared::Script(_) | Shared::Updater(_) => refuse_body(err, builder, error),
        }
    }
}

// The outcome of a part of a plain check: no run of it was given up.
fn made_plainly(worked: Worked) -> Made {
    match worked {
        Worked::Made { runs } => Made::Made { runs, met: 0 },
        Worked::Failed {
            runs,
            failure,
            choices,
        } => Made::Failed {
            runs,
            failure,
            choices,
        },
    }
}
