//! A body with two updates of an atomic by a function of its own.
ghost use Rattle.std.specs.Prelude.{◌≡◌, IfOk};
ghost use Rattle.loom_examples.specs.Bodies.Updates.{next_of, turn, after, first_turn, second_turn, begun};

use loom::runner::Apart;
use loom::sync::atomic::{AtomicU64, FetchUpdate, Fetched, Ordering};
use loom::{Body, Op, Reply, fail, thread};
use std::alloc::AllocError;

/// What the thread is about to be told.
#[derive(Clone, Copy)]
pub enum Awaits {
    /// That it starts.
    Main,
    /// The atomic that it makes.
    TheAtomic,
    /// How far its first update is.
    First(FetchUpdate<u64>),
    /// How far its second update is.
    Second(FetchUpdate<u64>),
    /// What the atomic holds after them.
    TheNumber,
    /// That it finished.
    Finished,
    /// That it exited.
    Exited,
    /// Nothing: it has ended.
    Nothing,
}

/// A thread that updates its atomic twice by a function, which gives the other number after the one, and nothing after any
/// other. It asserts that the first update is Ok of the one, and the second Err of the other, and finishes with what it
/// loads then.
#[derive(Clone, Copy)]
pub struct Updater {
    /// What the atomic holds at first.
    pub one: u64,
    /// What takes its place.
    pub other: u64,
    /// What it is about to be told.
    pub awaits: Awaits,
}

impl Updater {
    /// Main, with these two numbers.
    pub fn main(one: u64, other: u64) -> Updater
        ensures { result ≡ begun one other }
    {
        Updater {
            one,
            other,
            awaits: Awaits::Main,
        }
    }

    /// The function by which the atomic is updated.
    fn after(&self, number: u64) -> Option<u64>
        ensures { result ≡ after self.now.one self.now.other number }
    {
        if number == self.one {
            Some(self.other)
        } else {
            None
        }
    }

    /// What comes next, with the first update so far.
    fn first_turn(
        &self,
        update: FetchUpdate<u64>,
        fetched: Option<Fetched<u64>>,
    ) -> (Awaits, Op<u64, Updater>)
        ensures { result ≡ first_turn self.now.one self.now.other update fetched }
    {
        match fetched {
            Some(Fetched::Read(number)) => match self.after(number) {
                Some(new) => (Awaits::First(update), update.exchange(number, new)),
                None => (Awaits::Nothing, fail()),
            },
            Some(Fetched::Replaced(number)) if number == self.one => {
                (Awaits::Second(update), update.begin())
            }
            _ => (Awaits::Nothing, fail()),
        }
    }

    /// What comes next, with the second update so far.
    fn second_turn(
        &self,
        update: FetchUpdate<u64>,
        fetched: Option<Fetched<u64>>,
    ) -> (Awaits, Op<u64, Updater>)
        ensures { result ≡ second_turn self.now.one self.now.other update fetched }
    {
        match fetched {
            Some(Fetched::Read(number)) => match self.after(number) {
                Some(new) => (Awaits::Second(update), update.exchange(number, new)),
                None if number == self.other => {
                    (Awaits::TheNumber, update.atomic.load(Ordering::SeqCst))
                }
                None => (Awaits::Nothing, fail()),
            },
            _ => (Awaits::Nothing, fail()),
        }
    }

    /// What the thread awaits after this reply, and the operation that it hands over.
    fn turn(&self, reply: &Reply<u64>) -> (Awaits, Op<u64, Updater>)
        ensures { result ≡ turn self.now.one self.now.other self.now.awaits reply.now }
    {
        match self.awaits {
            Awaits::Main => (Awaits::TheAtomic, AtomicU64::new(self.one)),
            Awaits::TheAtomic => match AtomicU64::from_reply(reply) {
                Some(atomic) => {
                    let update = atomic.fetch_update(Ordering::SeqCst, Ordering::SeqCst);
                    (Awaits::First(update), update.begin())
                }
                None => (Awaits::Nothing, fail()),
            },
            Awaits::First(update) => self.first_turn(update, FetchUpdate::fetched(reply)),
            Awaits::Second(update) => self.second_turn(update, FetchUpdate::fetched(reply)),
            Awaits::TheNumber => match AtomicU64::value(reply) {
                Some(number) => (Awaits::Finished, thread::finish(number)),
                None => (Awaits::Nothing, fail()),
            },
            Awaits::Finished => (Awaits::Exited, thread::exit()),
            Awaits::Exited => (Awaits::Nothing, thread::end()),
            Awaits::Nothing => (Awaits::Nothing, fail()),
        }
    }
}

impl Body for Updater {
    type Data = u64;

    ghost next = { next_of };

    fn resume(&mut self, reply: Reply<u64>) -> Result<Op<u64, Updater>, AllocError>
        ensures { IfOk result (λ op. (self.new, op) ≡ next_of self.old reply) }
    {
        let (awaits, op) = self.turn(&reply);
        self.awaits = awaits;
        Ok(op)
    }

    fn try_clone(&self) -> Result<Updater, AllocError>
        ensures { IfOk result (λ copy. copy ≡ self.now) }
    {
        Ok(*self)
    }
}

impl Apart for Updater {
    fn apart(&self) -> Result<Updater, AllocError> {
        Ok(*self)
    }
}
