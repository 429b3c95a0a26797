//! How long the threads of a run look whether others have gone on, before they sleep (own). It is a guess by the waits so far, and nobody
//! waits for another one here.
use std::sync::atomic::{AtomicU64, Ordering};

/// How often a thread looks. Another one's turn is mostly shorter than that, and far shorter than to sleep and to be woken takes.
const MOST_LOOKS: u64 = 30_000;

/// How often it looks at a wait at which looking is left off.
const FEWEST_LOOKS: u64 = 100;

/// After so many waits in vain, one after another, looking is left off for a while: other work keeps the threads of the run from going on
/// at once, and then it is better to sleep.
const PATIENCE: u64 = 4;

/// For so many waits more, for each of those in vain.
const REST: u64 = 16;

/// For so many at most.
const LONGEST_REST: u64 = 1_024;

/// How long the threads of a run look.
#[derive(Drop)]
pub(crate) struct Looks {
    // how many waits were in vain, one after another, of those at which a thread has looked as often as it may
    vain: AtomicU64,
    // at how many waits that come looking is left off
    rest: AtomicU64,
}

impl Looks {
    /// Before any wait.
    pub(crate) fn new() -> Looks {
        Looks {
            vain: AtomicU64::new(0),
            rest: AtomicU64::new(0),
        }
    }

    /// How often the thread looks that waits now.
    pub(crate) fn next(&self) -> u64 {
        let rest = self.rest.load(Ordering::SeqCst);
        if rest == 0 {
            return MOST_LOOKS;
        }
        self.rest.store(rest - 1, Ordering::SeqCst);
        FEWEST_LOOKS
    }

    /// A thread that was to look so often has done so, which was enough, or in vain.
    pub(crate) fn note(&self, looks: u64, is_enough: bool) {
        if looks < MOST_LOOKS {
            return;
        }
        let before = self.vain.load(Ordering::SeqCst);
        let vain = if is_enough {
            0
        } else {
            before.saturating_add(1)
        };
        // Mostly nothing has changed, and then other threads needn't read it anew.
        if vain != before {
            self.vain.store(vain, Ordering::SeqCst);
            self.rest.store(rest_after(vain), Ordering::SeqCst);
        }
    }
}

/// At how many waits looking is left off, after so many in vain.
fn rest_after(vain: u64) -> u64 {
    if vain < PATIENCE {
        0
    } else {
        vain.saturating_mul(REST).min(LONGEST_REST)
    }
}
