//! What a check finds, as a list of runs.
use loom::model::Report;
use loom::model::error::CheckError;
use loom::model::visitor::Visitor;
use loom::{Body, Choice, MemoryStore, NoClock};
use loom_examples::rows::settings::{Builds, Settings};
use loom_plain::run::Ending;
use loom_plain::search::Found;
use std::alloc::{AllocError, Global};

/// Keeps each run that it is given.
#[derive(Drop)]
pub struct Keeper {
    alloc: Global,
    /// The runs that end, in the order in which they come, and the one that fails.
    pub found: Vec<Found>,
    /// Whether so many runs ended as the report says, and no limit was reached.
    pub is_counted: bool,
}

impl Visitor<u64> for Keeper {
    ghost takes = { λ old choices value new. Unit {0} };

    fn run(&mut self, choices: &[Choice], value: u64) -> Result<(), AllocError> {
        self.keep(choices, Ending::Ended(value))
    }
}

impl Keeper {
    /// One that was given none yet.
    pub fn new(alloc: Global) -> Keeper {
        Keeper {
            alloc,
            found: Vec::new(alloc),
            is_counted: false,
        }
    }

    fn keep(&mut self, choices: &[Choice], ending: Ending) -> Result<(), AllocError> {
        let choices = choices.to_vec(self.alloc)?;
        self.found.push(Found { choices, ending })?;
        Ok(())
    }

    // Keeps the run that failed, if one did, and whether so many runs ended as the report says.
    fn close(&mut self, found: &Result<Report, CheckError>) {
        let ended = self.found.len() as u64;
        match found {
            Ok(Report::Complete { runs }) => self.is_counted = *runs == ended,
            Ok(
                Report::Failed {
                    runs,
                    failure,
                    choices,
                },
            ) => {
                let kept = self.keep(choices.as_slice(), Ending::Failed(failure.kind));
                self.is_counted = kept.is_ok() && *runs == ended;
            }
            Ok(Report::Stopped { .. }) | Err(_) => {}
        }
    }
}

/// What a check of the body finds that begins with what the store holds.
pub fn report_of<B: Body<Data = u64>>(
    alloc: Global,
    settings: Settings,
    body: &B,
    keeper: &mut Keeper,
    store: &mut Option<MemoryStore>,
) -> Result<Report, CheckError> {
    let log = None::<HostRuntime>;
    settings
        .builder()
        .check_with(alloc, body, keeper, &mut NoClock, store, &log)
}

/// The runs that a check makes.
pub fn found_by<B: Body<Data = u64>>(alloc: Global, settings: Settings, body: &B) -> Keeper {
    let mut keeper = Keeper::new(alloc);
    fill(alloc, settings, body, &mut keeper);
    keeper
}

fn fill<B: Body<Data = u64>>(alloc: Global, settings: Settings, body: &B, keeper: &mut Keeper) {
    let mut store = None;
    let found = report_of(alloc, settings, body, keeper, &mut store);
    keeper.close(&found);
}

/// Whether the run made these choices and ended so.
pub fn is_run(run: &Found, choices: &[Choice], ending: Ending) -> bool {
    run.choices.as_slice() == choices && is_ending(run.ending, ending)
}

fn is_ending(one: Ending, other: Ending) -> bool {
    match (one, other) {
        (Ending::Ended(one), Ending::Ended(other)) => one == other,
        (Ending::Failed(one), Ending::Failed(other)) => one == other,
        (Ending::Ended(_), Ending::Failed(_)) | (Ending::Failed(_), Ending::Ended(_)) => false,
    }
}
