//! The stops that threads were answered again, since they went on after the first one.
use loom_views::rt::MAX_THREADS;

/// After so many a thread is reported.
const MANY: u16 = 1000;

/// How many stops each thread was answered again, and which thread is to be reported.
#[derive(Clone, Copy)]
pub(crate) struct Ignored {
    counts: [u16; MAX_THREADS],
    untold: Option<u8>,
}

impl Ignored {
    /// None yet.
    pub(crate) fn new() -> Ignored {
        Ignored {
            counts: [0; MAX_THREADS],
            untold: None,
        }
    }

    /// The thread was answered one more.
    pub(crate) fn count(&mut self, thread: u8) {
        let place = usize::from(thread);
        if place >= MAX_THREADS {
            return;
        }
        let count = self.counts[place].saturating_add(1);
        self.counts[place] = count;
        if count == MANY {
            self.untold = Some(thread);
        }
    }

    /// The thread that is to be reported, and then no more.
    pub(crate) fn tell(&mut self) -> Option<u8> {
        self.untold.take()
    }
}
