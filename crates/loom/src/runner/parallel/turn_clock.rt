//! The clock by which a worker ends its turn.
use crate::model::clock::{Clock, HostClock};
use std::rt::Clock as HostTime;
use std::sync::atomic::{AtomicBool, Ordering};
use std::time::Duration;

// A turn has so many milliseconds at least, also where nothing is left of one of its parts: threads are made for it.
const LEAST_MILLIS: u64 = 2;

/// The host's clock, from when it was started on. Once nothing is left of one of the turn's parts its time is over: it answers the
/// longest one.
#[derive(Drop)]
pub(crate) struct TurnClock<'a, R> {
    host: HostClock<'a, R>,
    is_over: &'a AtomicBool,
}

impl<'a, R: HostTime> TurnClock<'a, R> {
    /// A clock that starts now. The turn is over when this says so.
    pub(crate) fn start(rt: &'a R, is_over: &'a AtomicBool) -> TurnClock<'a, R> {
        TurnClock {
            host: HostClock::start(rt),
            is_over,
        }
    }
}

impl<R: HostTime> Clock for TurnClock<'_, R> {
    ghost use Rattle.std.specs.Prelude.{⊤};

    ghost answered = { λ _ _. ⊤ };

    fn elapsed(&mut self) -> Duration {
        let elapsed = self.host.elapsed();
        if elapsed >= Duration::from_millis(LEAST_MILLIS) && self.is_over.load(Ordering::SeqCst) {
            return Duration::MAX;
        }
        elapsed
    }
}
