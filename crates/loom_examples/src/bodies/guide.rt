//! The first body of docs/GUIDE.md: two threads that count in a mutex.
ghost use Rattle.std.specs.Prelude.{◌≡◌, IfOk};
ghost use Rattle.loom_examples.specs.Bodies.Guide.{next_of, turn, counts, begun};

use loom::sync::{Mutex, MutexGuard};
use loom::thread::{self, Leaving};
use loom::{Body, Op, Reply, fail};
use std::alloc::AllocError;

/// What a thread is about to be told.
#[derive(Clone, Copy, Debug)]
pub enum Awaits {
    /// That main starts.
    Main,
    /// The mutex that main makes.
    TheMutex,
    /// That it starts, or for main, that the other thread was made.
    Counting(Mutex),
    /// That it holds the mutex, and the count that it finds.
    TheLock,
    /// That it no longer holds the mutex, in which it left this count; and then that it finished and exited.
    Leaving(u64, Leaving),
    /// Nothing: it has failed.
    Nothing,
}

/// A thread that counts itself. It asserts that fewer than `fewer_than` were counted before it.
#[derive(Clone, Copy, Debug)]
pub struct Counter {
    /// Before the thread fewer than this many were counted.
    pub fewer_than: u64,
    /// What it is about to be told.
    pub awaits: Awaits,
}

impl Counter {
    /// Main, which asserts that fewer than this many threads were counted before it.
    pub fn main(fewer_than: u64) -> Counter
        ensures { result ≡ begun fewer_than }
    {
        Counter {
            fewer_than,
            awaits: Awaits::Main,
        }
    }

    /// The thread holds the mutex, and found this count in it.
    fn counts(&self, guard: MutexGuard, count: u64) -> (Awaits, Op<u64, Counter>)
        ensures { result ≡ counts self.now.fewer_than guard.number count }
    {
        if count >= self.fewer_than {
            return (Awaits::Nothing, fail());
        }
        let count = count + 1;
        let leaving = Awaits::Leaving(count, Leaving::Finish);
        (leaving, guard.release(count))
    }

    /// What the thread awaits after this reply, and the operation that it hands over.
    fn turn(&self, reply: Reply<u64>) -> (Awaits, Op<u64, Counter>)
        ensures { result ≡ turn self.now.fewer_than self.now.awaits reply }
    {
        match (self.awaits, reply) {
            (Awaits::Main, Reply::Start) => (Awaits::TheMutex, Mutex::new(0)),
            (Awaits::TheMutex, Reply::Mutex(number)) => {
                let mutex = Mutex { number };
                let other = Counter {
                    fewer_than: 2,
                    awaits: Awaits::Counting(mutex),
                };
                (Awaits::Counting(mutex), thread::spawn(other))
            }
            (Awaits::Counting(mutex), _) => (Awaits::TheLock, mutex.lock()),
            (Awaits::TheLock, reply) => match MutexGuard::take(reply) {
                Some((guard, count)) => self.counts(guard, count),
                None => (Awaits::Nothing, fail()),
            },
            (Awaits::Leaving(count, leaving), _) => {
                let (leaving, op) = leaving.next(count);
                (Awaits::Leaving(count, leaving), op)
            }
            _ => (Awaits::Nothing, fail()),
        }
    }
}

impl Body for Counter {
    type Data = u64;

    ghost next = { next_of };

    fn resume(&mut self, reply: Reply<u64>) -> Result<Op<u64, Counter>, AllocError>
        ensures { IfOk result (λ op. (self.new, op) ≡ next_of self.old reply) }
    {
        let (awaits, op) = self.turn(reply);
        self.awaits = awaits;
        Ok(op)
    }

    fn try_clone(&self) -> Result<Counter, AllocError>
        ensures { IfOk result (λ copy. copy ≡ self.now) }
    {
        Ok(*self)
    }
}
