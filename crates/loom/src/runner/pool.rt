//! Threads of the host that are kept over the runs of a check: each runs one job after another, all of one type. To start a thread takes
//! longer than most of a run.
ghost use Rattle.std.specs.Prelude.{◌≡◌, ◌≤◌, ◌+◌, vec_len};

pub(crate) mod place;

use crate::runner::exact::Exact;
use crate::runner::job::Job;
use crate::runner::pool::place::{Place, Work};
use crate::runner::shared::run_kept;
use crate::runner::stop::Stop;
use std::alloc::Global;
use std::marker::Model;
use std::sync::{Arc, Wait};
use std::thread::{self, JoinHandle, Threads};

/// Threads of the host that are kept, for jobs of this type (own). It is made before a check, main's closure borrows it for
/// `Handle::spawn_on`, and it is ended after the check. Without `end` its threads sleep until the program ends.
#[derive(Drop)]
pub struct Pool<D, J> {
    members: Vec<Member<D, J>>,
}

/// A thread that is kept, and where it takes its jobs.
#[derive(Drop)]
struct Member<D, J> {
    place: Arc<Place<D, J>, Global>,
    thread: JoinHandle<()>,
}

impl<D, J> Model for Pool<D, J> {
    ghost use Rattle.std.specs.Prelude.{ℕ, vec_len};

    ghost Value = { ℕ };

    ghost view = { λ pool. vec_len pool.members };
}

impl<D, J> Pool<D, J> {
    /// No thread yet (own).
    pub fn new(alloc: Global) -> Pool<D, J>
        ensures { result ≡ 0 }
    {
        Pool {
            members: Vec::new(alloc),
        }
    }

    /// How many threads are kept (own): as many as were at a job together, and a few more where jobs start threads by `spawn`.
    pub fn threads(&self) -> usize
        ensures { result ≡ self.now }
    {
        self.members.len()
    }
}

impl<D: Exact + 'static, J: Send + Drop + 'static> Pool<D, J> {
    /// No job comes any more, and the threads end (own). It waits for those that are at a job, so call it after the check.
    pub fn end<R: Threads + Wait>(self, rt: &R) {
        let Pool { members } = self;
        for member in members {
            let Member { place, thread } = member;
            place.close(rt);
            thread.join(rt);
        }
    }

    /// A thread runs the job: one that is free, or a new one. `Memory` or `Refused` where a growth or a thread was refused.
    pub(crate) fn hand_out<R: Threads + Wait + Clone + Send + 'static>(
        &mut self,
        rt: &R,
        alloc: Global,
        work: Work<D, J>,
    ) -> Result<(), Stop>
    where
        J: Job<D, R>,
        requires { (each : J) → J.ready each }
        ensures kept { self.old ≤ self.new }
        ensures one { self.new ≤ self.old + 1 }
    {
        let mut work = work;
        for member in &self.members {
            match member.place.put(rt, work) {
                Some(back) => work = back,
                None => return Ok(()),
            }
        }
        self.start(rt, alloc, work)
    }

    /// A new thread runs the job, and is kept.
    fn start<R: Threads + Wait + Clone + Send + 'static>(
        &mut self,
        rt: &R,
        alloc: Global,
        work: Work<D, J>,
    ) -> Result<(), Stop>
    where
        J: Job<D, R>,
        requires { (each : J) → J.ready each }
        ensures kept { self.old ≤ self.new }
        ensures one { self.new ≤ self.old + 1 }
    {
        if self.members.reserve(1).is_err() {
            return Err(Stop::Memory);
        }
        let Ok(place) = Arc::new(alloc, Place::new(work)) else {
            return Err(Stop::Memory);
        };
        let Ok(theirs) = Arc::try_clone(&place) else {
            return Err(Stop::Memory);
        };
        let Ok(again) = rt.clone() else {
            return Err(Stop::Memory);
        };
        let body = move ||
            requires { (each : J) → J.ready each }
        { serve(&again, alloc, &*theirs) };
        match thread::spawn(rt, body) {
            Ok(thread) => {
                self.members.push_reserved(Member { place, thread });
                Ok(())
            }
            Err(_) => Err(Stop::Refused),
        }
    }
}

/// What a kept thread does: one job after another, until none comes any more.
fn serve<D: Exact + 'static, R: Threads + Wait + Clone + Send + 'static, J: Job<D, R> + 'static>(
    rt: &R,
    alloc: Global,
    place: &Place<D, J>,
)
    requires { (each : J) → J.ready each }
{
    for _ in rt.forever() {
        match place.take(rt) {
            Some(work) => {
                run_kept(rt, alloc, work, place);
                place.let_free(rt);
            }
            None => return,
        }
    }
}
