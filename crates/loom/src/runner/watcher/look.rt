//! One look at a run that is being made.
use crate::runner::exact::Exact;
use crate::runner::shared::Shared;
use crate::runner::turns::Turns;
use log::{Log, info, warn};
use std::sync::Wait;

/// A thread that has held the turn for so many looks, a second apart, is logged; and once in so many looks, which run is made.
const MANY: u32 = 10;

/// What was seen of a run.
#[derive(Clone, Copy)]
pub(super) struct Look {
    run: u64,
    events: usize,
    // for how many looks no event has come
    still: u32,
    // for how many looks it wasn't logged which run is made
    untold: u32,
}

impl Look {
    /// Before the first run.
    pub(super) fn first() -> Look {
        Look {
            run: 0,
            events: 0,
            still: 0,
            untold: 0,
        }
    }

    /// Looks once more, and tells of a thread that goes on after the run has stopped, of one that holds the turn for long, and at
    /// times which run is made.
    pub(super) fn look<D: Exact, R: Wait, L: Log>(
        self,
        rt: &R,
        run: u64,
        shared: &Shared<D>,
        log: &L,
    ) -> Look {
        let (ignored, next, thread) = self.see(rt, run, shared);
        tell_ignored(log, run, ignored);
        if next.still == MANY {
            warn!(log; target: "loom::runner", "run {}: thread {} holds the turn", run, thread);
        }
        if next.untold == 0 {
            info!(log; target: "loom::runner", "run {} is made", run);
        }
        next
    }

    /// Which thread goes on after the run has stopped, what is seen of the run, and whose turn it is.
    fn see<D: Exact, R: Wait>(
        self,
        rt: &R,
        run: u64,
        shared: &Shared<D>,
    ) -> (Option<u8>, Look, u8) {
        let mut turns = shared.turns.lock(rt);
        let ignored = turns.goes_on();
        (ignored, self.after(run, &*turns), turns.turn())
    }

    /// What is seen of the run after this look.
    fn after<D: Exact>(self, run: u64, turns: &Turns<D>) -> Look {
        let events = turns.events().len();
        let is_still = turns.stopped().is_none() && self.run == run && self.events == events;
        Look {
            run,
            events,
            still: if is_still {
                self.still.saturating_add(1)
            } else {
                0
            },
            untold: self.untold.saturating_add(1) % MANY,
        }
    }
}

/// Tells of this thread, if there is one.
pub(super) fn tell_ignored<L: Log>(log: &L, run: u64, ignored: Option<u8>) {
    if let Some(thread) = ignored {
        warn!(log; target: "loom::runner", "run {}: thread {} goes on after the run has stopped", run, thread);
    }
}
