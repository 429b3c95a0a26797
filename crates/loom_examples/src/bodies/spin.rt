//! A spin lock, and a cell that it guards. Two threads take the lock, and each adds one to the number in the cell.
ghost use Rattle.std.specs.Prelude.{◌≡◌, IfOk};
ghost use Rattle.loom_examples.specs.Bodies.Spin.{begun, next_of, turn};

use loom::cell::{MutPtr, UnsafeCell};
use loom::sync::atomic::AtomicBool;
use loom::sync::atomic::Ordering::{self, Acquire, Relaxed};
use loom::thread::{self, Leaving};
use loom::{Body, Op, Reply, fail};
use std::alloc::AllocError;
use std::mem;

/// What a thread is about to be told.
#[derive(Clone, Copy, Debug)]
pub enum Awaits {
    /// That main starts.
    Main,
    /// The flag of the lock.
    TheFlag,
    /// The cell.
    TheCell(AtomicBool),
    /// That it may try to take the lock: it starts, the other thread was made, or others went first.
    Trying(AtomicBool, UnsafeCell),
    /// Whether it has the lock.
    TheLock(AtomicBool, UnsafeCell),
    /// The number in the cell.
    TheNumber(AtomicBool),
    /// That it has written the next number.
    Written(AtomicBool),
    /// That the lock is free, and then that it has finished and exited.
    Leaving(Leaving),
}

/// A thread that takes the lock once.
#[derive(Clone, Copy, Debug)]
pub struct Spin {
    /// How it frees the lock.
    pub release: Ordering,
    /// What it is about to be told.
    pub awaits: Awaits,
}

impl Spin {
    /// Main. Both threads free the lock by this ordering: `Release` is right, and `Relaxed` wrong.
    pub fn main(release: Ordering) -> Spin
        ensures { result ≡ begun release }
    {
        let awaits = Awaits::Main;
        Spin { release, awaits }
    }

    /// What comes after this reply, and the operation that the thread hands over, if it knows the reply. What the reply holds is
    /// taken out of it, so that it is let go at one place.
    fn turn(&self, reply: &mut Reply<u64>) -> Option<(Awaits, Op<u64, Spin>)>
        ensures { result ≡ turn self.now self.now.awaits reply.old }
    {
        let next = match self.awaits {
            Awaits::Main => (Awaits::TheFlag, AtomicBool::new(false)),
            Awaits::TheFlag => {
                let flag = AtomicBool::from_reply(reply)?;
                (Awaits::TheCell(flag), UnsafeCell::new(0))
            }
            Awaits::TheCell(flag) => {
                let awaits = Awaits::Trying(flag, UnsafeCell::from_reply(reply)?);
                (awaits, thread::spawn(Spin { awaits, ..*self }))
            }
            Awaits::Trying(flag, cell) => {
                let exchange = flag.compare_exchange(false, true, Acquire, Relaxed);
                (Awaits::TheLock(flag, cell), exchange)
            }
            Awaits::TheLock(flag, cell) => match AtomicBool::exchanged(reply)? {
                Ok(_) => (Awaits::TheNumber(flag), cell.get_mut()),
                Err(_) => (Awaits::Trying(flag, cell), thread::yield_now()),
            },
            Awaits::TheNumber(flag) => {
                let (pointer, number) = MutPtr::take(mem::replace(reply, Reply::Done))?;
                let next = number.wrapping_add(1);
                (Awaits::Written(flag), pointer.end(next))
            }
            Awaits::Written(flag) => {
                let free = flag.store(false, self.release);
                (Awaits::Leaving(Leaving::Finish), free)
            }
            Awaits::Leaving(leaving) => {
                let (leaving, op) = leaving.next(0);
                (Awaits::Leaving(leaving), op)
            }
        };
        Some(next)
    }
}

impl Body for Spin {
    type Data = u64;

    ghost next = { next_of };

    fn resume(&mut self, mut reply: Reply<u64>) -> Result<Op<u64, Spin>, AllocError>
        ensures { IfOk result (λ op. (self.new, op) ≡ next_of self.old reply) }
    {
        let (awaits, op) = self.turn(&mut reply).unwrap_or((self.awaits, fail()));
        self.awaits = awaits;
        Ok(op)
    }

    fn try_clone(&self) -> Result<Spin, AllocError>
        ensures { IfOk result (λ copy. copy ≡ self.now) }
    {
        Ok(*self)
    }
}
