//! Where a kept thread takes its jobs.
use crate::runner::exact::Exact;
use crate::runner::shared::Shared;
use crate::runner::shared::looks::Looks;
use std::alloc::Global;
use std::hint::spin_loop;
use std::mem;
use std::sync::atomic::{AtomicBool, Ordering};
use std::sync::{Arc, Condvar, Mutex, Wait};

/// A job, and which thread of which run it is.
#[derive(Drop)]
pub(crate) struct Work<D, J> {
    pub(crate) shared: Arc<Shared<D>, Global>,
    pub(crate) thread: u8,
    pub(crate) job: J,
}

/// What is there.
#[derive(Drop)]
enum Next<D, J> {
    /// The thread is free.
    Nothing,
    /// A job that the thread hasn't begun.
    Work(Work<D, J>),
    /// The thread is at a job.
    Taken,
    /// No job comes any more.
    Over,
}

/// Where a kept thread takes its jobs.
#[derive(Drop)]
pub(crate) struct Place<D, J> {
    next: Mutex<Next<D, J>>,
    // whether the thread has something to do, for its looks. What counts is what is in `next`.
    is_shown: AtomicBool,
    looks: Looks,
    changed: Condvar,
}

impl<D: Exact, J: Drop> Place<D, J> {
    /// A place with this job.
    pub(crate) fn new(work: Work<D, J>) -> Place<D, J> {
        Place {
            next: Mutex::new(Next::Work(work)),
            is_shown: AtomicBool::new(true),
            looks: Looks::new(),
            changed: Condvar::new(),
        }
    }

    /// Hands the job over, or gives it back where the thread isn't free.
    pub(crate) fn put<R: Wait>(&self, rt: &R, work: Work<D, J>) -> Option<Work<D, J>> {
        let mut next = self.next.lock(rt);
        if !next.is_nothing() {
            return Some(work);
        }
        *next = Next::Work(work);
        self.is_shown.store(true, Ordering::SeqCst);
        drop(next);
        self.changed.notify_all();
        None
    }

    /// No job comes any more.
    pub(crate) fn close<R: Wait>(&self, rt: &R) {
        let mut next = self.next.lock(rt);
        *next = Next::Over;
        self.is_shown.store(true, Ordering::SeqCst);
        drop(next);
        self.changed.notify_all();
    }

    /// The thread is free from now on, if it was at a job.
    pub(crate) fn let_free<R: Wait>(&self, rt: &R) {
        let mut next = self.next.lock(rt);
        if next.is_taken() {
            *next = Next::Nothing;
        }
    }

    /// Waits for the next job: the thread looks a while, and then it sleeps. None where no job comes any more.
    pub(crate) fn take<R: Wait>(&self, rt: &R) -> Option<Work<D, J>> {
        let looks = self.looks.next();
        let is_enough = self.look(looks);
        self.looks.note(looks, is_enough);
        let next = self.next.lock(rt);
        let mut next = self.changed.wait_while(rt, next, |next| next.is_nothing());
        self.is_shown.store(false, Ordering::SeqCst);
        mem::replace(&mut *next, Next::Taken).into_work()
    }

    /// Looks so often whether there is something to do.
    fn look(&self, looks: u64) -> bool {
        for _ in 0..looks {
            if self.is_shown.load(Ordering::SeqCst) {
                return true;
            }
            spin_loop();
        }
        false
    }
}

impl<D, J> Next<D, J> {
    fn is_nothing(&self) -> bool {
        match self {
            Next::Nothing => true,
            Next::Work(_) | Next::Taken | Next::Over => false,
        }
    }

    fn is_taken(&self) -> bool {
        match self {
            Next::Taken => true,
            Next::Nothing | Next::Work(_) | Next::Over => false,
        }
    }
}

impl<D: Drop, J: Drop> Next<D, J> {
    fn into_work(self) -> Option<Work<D, J>> {
        match self {
            Next::Work(work) => Some(work),
            Next::Nothing | Next::Taken | Next::Over => None,
        }
    }
}
