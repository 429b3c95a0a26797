//! What a spawned thread does: a closure, or a type of your own.
use crate::runner::closures::ask_once;
use crate::runner::exact::Exact;
use crate::runner::handle::Handle;
use crate::runner::stop::Stop;
use std::sync::Wait;

/// What a spawned thread does (own). One that spawns others is a `Call` of a closure.
pub trait Job<D: Exact + 'static, R: Wait>: Send + Drop {
    /// When it may be run.
    ghost ready: { Self → Type 0 } = { λ _. Unit {0} };

    /// Runs, and answers the thread's result, or the stop that it was given. An answer of a stop that it wasn't given fails the
    /// run as an assertion.
    fn run(self, handle: &mut Handle<D, R>) -> Result<D, Stop>
        requires { ready self };
}

/// A closure that a thread runs (own).
#[derive(Drop)]
pub struct Call<F>(pub F);

impl<D: Exact + 'static, R: Wait, F: FnOnce(&mut Handle<D, R>) -> Result<D, Stop> + Send> Job<D, R>
    for Call<F> {
    ghost ready = { λ c. F.IsAlwaysCallable c.0 };

    fn run(self, handle: &mut Handle<D, R>) -> Result<D, Stop> {
        let Call(f) = self;
        ask_once(f, handle)
    }
}
