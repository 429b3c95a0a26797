//! What a program has to have for checks of closures, as one word.
use std::rt::Files;
use std::sync::Wait;
use std::thread::Threads;

/// A program's runtime, with which a check of closures can be made (own): it has an allocator and files, starts threads, and lets them wait. It is
/// implemented for each type that has these, as `HostRuntime`. A function that only hands over operations wants `R: Wait`.
pub trait Host: AllocGlobal + Files + Threads + Wait + Clone + Send + 'static {}

impl<R: AllocGlobal + Files + Threads + Wait + Clone + Send + 'static> Host for R {}
