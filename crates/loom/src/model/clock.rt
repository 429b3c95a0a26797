//! The clock by which a check is stopped after some time.
ghost use Rattle.std.specs.declared.time.Duration.{Duration};

use std::rt::Clock as HostTime;
use std::time::{Duration, Instant};

/// Tells how long a check has taken.
pub trait Clock {
    /// What its latest answer may have been. Of a clock that doesn't keep it, that may be anything.
    ghost answered: { Self → Duration → Type 0 };

    /// How much time has passed.
    fn elapsed(&mut self) -> Duration
        ensures { answered self.new result };
}

/// A clock on which no time passes: it always answers zero.
#[derive(Clone, Copy, Debug)]
pub struct NoClock;

impl Clock for NoClock {
    ghost use Rattle.std.specs.Prelude.{◌≡◌};

    ghost answered = { λ _ time. time ≡ record { secs = 0; nanos = 0 } };

    fn elapsed(&mut self) -> Duration {
        Duration::ZERO
    }
}

/// The host's clock, from when it was started on (own). If it fails its time is over: it answers the longest one.
#[derive(Drop)]
pub struct HostClock<'a, R> {
    rt: &'a R,
    start: Option<Instant>,
}

impl<'a, R: HostTime> HostClock<'a, R> {
    /// A clock that starts now.
    pub fn start(rt: &'a R) -> HostClock<'a, R> {
        HostClock {
            rt,
            start: Instant::now(rt).ok(),
        }
    }
}

impl<R: HostTime> Clock for HostClock<'_, R> {
    ghost use Rattle.std.specs.Prelude.{⊤};

    ghost answered = { λ _ _. ⊤ };

    fn elapsed(&mut self) -> Duration {
        match &self.start {
            Some(start) => start.elapsed(self.rt).unwrap_or(Duration::MAX),
            None => Duration::MAX,
        }
    }
}
