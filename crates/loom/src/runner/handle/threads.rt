//! Short forms for threads and the search: each makes an operation, and takes its reply apart.
ghost use Rattle.std.specs.Prelude.{◌≡◌, ◌++◌, ◌∷◌, [], IfOk, IfErr, OnOk, Ok, Err, Some, true, false};
ghost use Rattle.std.specs.Fn.{CalledAtMut};
ghost use Rattle.loom.specs.Runner.Asking.{Tells, Stops, Fails, done_in, joined_in};
ghost use Rattle.loom.specs.Runner.Forms.{Holds, StopsTrying};
ghost use Rattle.loom_objects.specs.declared.operation.Request.TheVariants as op;
ghost use Rattle.loom_objects.specs.declared.operation.ThreadOp.TheVariants as thread_op;
ghost use Rattle.loom_objects.specs.declared.operation.ExploreOp.TheVariants as explore_op;
ghost use Rattle.loom_ops.specs.Thread.{thread_handle};
ghost use Rattle.loom_objects.specs.declared.operation.Reply.TheVariants as reply;
ghost use Rattle.loom.specs.Runner.Histories.{entry};
ghost use Rattle.loom.specs.Runner.Handle.{with_open, spawning, ByStop, all_answered};

use crate::runner::closures::{ask_closure, wait_for_ever};
use crate::runner::exact::Exact;
use crate::runner::handle::Handle;
use crate::runner::job::Call;
use crate::runner::stop::Stop;
use loom_ops::answers::answer::Joined;
use loom_ops::hint::{spin_loop, unreachable_unchecked};
use loom_ops::thread::{JoinHandle, Thread, current, park, yield_now};
use loom_ops::{explore, skip_branch, stop_exploring};
use std::alloc::AllocError;
use std::sync::Wait;
use std::thread::Threads;

impl<D: Exact + 'static, R: Wait> Handle<D, R> {
    /// Waits for the thread to finish, and answers its result (loom's `thread.rs`).
    pub fn join(&mut self, child: &JoinHandle) -> Result<D, Stop>
        ensures thread { self.new.thread ≡ self.old.thread }
        ensures tells { IfOk result (λ answer. Tells joined_in (op.Thread (thread_op.Join child.now.thread child.now.notifier)) self.old.told self.new.told (record { 0 = answer })) }
        ensures stopped { IfErr result (Stops joined_in (op.Thread (thread_op.Join child.now.thread child.now.notifier)) self.old.told self.new) }
    {
        let Joined(value) = self.ask(child.join().request)?;
        Ok(value)
    }

    /// Lets other threads that can go on do so first (loom's `thread.rs`).
    pub fn yield_now(&mut self) -> Result<(), Stop>
        ensures thread { self.new.thread ≡ self.old.thread }
        ensures tells { IfOk result (Tells done_in (op.Thread thread_op.Yield) self.old.told self.new.told) }
        ensures stopped { IfErr result (Stops done_in (op.Thread thread_op.Yield) self.old.told self.new) }
    {
        self.ask(yield_now().request)
    }

    /// The thread yields, as by `yield_now` (loom's `hint.rs`).
    pub fn spin_loop(&mut self) -> Result<(), Stop>
        ensures thread { self.new.thread ≡ self.old.thread }
        ensures tells { IfOk result (Tells done_in (op.Thread thread_op.Yield) self.old.told self.new.told) }
        ensures stopped { IfErr result (Stops done_in (op.Thread thread_op.Yield) self.old.told self.new) }
    {
        self.ask(spin_loop().request)
    }

    /// Code was reached that is never to be, which ends the run as `Unreachable` (loom's `hint.rs`).
    pub fn unreachable_unchecked(&mut self) -> Result<(), Stop>
        ensures thread { self.new.thread ≡ self.old.thread }
        ensures tells { IfOk result (Tells done_in (op.Unreachable) self.old.told self.new.told) }
        ensures stopped { IfErr result (Stops done_in (op.Unreachable) self.old.told self.new) }
    {
        self.ask(unreachable_unchecked().request)
    }

    /// Asks the closure again and again, and yields in between, until it answers true or a stop, or the yield does (own; in loom a
    /// loop that yields). A run that goes on so without an end fails by `max_steps` or `max_branches`.
    pub fn until<F: FnMut(&mut Handle<D, R>) -> Result<bool, Stop>>(
        &mut self,
        mut holds: F,
    ) -> Result<(), Stop>
        requires { F.IsAlwaysCallable holds }
        ensures holds { IfOk result (λ done. Holds (CalledAtMut F.FnMut) holds self.old self.new) }
        ensures stopped { IfErr result (StopsTrying (CalledAtMut F.FnMut) holds self.old self.new) }
    {
        for _ in 0..u64::MAX {
            if ask_closure(&mut holds, self)? {
                return Ok(());
            }
            self.yield_now()?;
        }
        wait_for_ever(&self.rt)
    }

    /// Fails the run as an assertion, unless the condition holds (own; in loom `assert!`).
    pub fn assert(&mut self, holds: bool) -> Result<(), Stop>
        ensures thread { self.new.thread ≡ self.old.thread }
        ensures holds { holds ≡ true → (result ≡ Ok tt) × (self.new ≡ self.old) }
        ensures fails { holds ≡ false → Fails self.old.told self.new result }
    {
        if holds { Ok(()) } else { Err(self.fail()) }
    }

    /// What the closure itself has made. Where memory was refused the run stops, and the check answers `Memory` (own).
    pub fn allocated<T: Drop>(&mut self, made: Result<T, AllocError>) -> Result<T, Stop>
        ensures thread { self.new.thread ≡ self.old.thread }
        ensures value { IfOk result (λ value. made ≡ Ok value) }
        ensures made { IfOk made (λ value. (result ≡ Ok value) × (self.new ≡ self.old)) }
        ensures refused { IfErr made (λ error. (result ≡ Err Stop.Memory) × (self.new.starved ≡ true)) }
    {
        match made {
            Ok(value) => Ok(value),
            Err(_) => Err(self.give_up(Stop::Memory)),
        }
    }

    /// The thread itself (loom's `thread.rs`).
    pub fn current(&mut self) -> Result<Thread, Stop>
        ensures thread { self.new.thread ≡ self.old.thread }
        ensures tells { IfOk result (Tells thread_handle (op.Thread thread_op.Current) self.old.told self.new.told) }
        ensures stopped { IfErr result (Stops thread_handle (op.Thread thread_op.Current) self.old.told self.new) }
    {
        self.ask(current().request)
    }

    /// Takes the thread's token; without one the thread waits until it is unparked (loom's `thread.rs`).
    pub fn park(&mut self) -> Result<(), Stop>
        ensures thread { self.new.thread ≡ self.old.thread }
        ensures tells { IfOk result (Tells done_in (op.Thread thread_op.Park) self.old.told self.new.told) }
        ensures stopped { IfErr result (Stops done_in (op.Thread thread_op.Park) self.old.told self.new) }
    {
        self.ask(park().request)
    }

    /// The thread goes on if it is parked, and else has a token (loom's `thread.rs`).
    pub fn unpark(&mut self, thread: &Thread) -> Result<(), Stop>
        ensures thread { self.new.thread ≡ self.old.thread }
        ensures tells { IfOk result (Tells done_in (op.Thread (thread_op.Unpark thread.now.id.0)) self.old.told self.new.told) }
        ensures stopped { IfErr result (Stops done_in (op.Thread (thread_op.Unpark thread.now.id.0)) self.old.told self.new) }
    {
        self.ask(thread.unpark().request)
    }

    /// The search tries other choices than the first from now on (loom's `rt/mod.rs`).
    pub fn explore(&mut self) -> Result<(), Stop>
        ensures thread { self.new.thread ≡ self.old.thread }
        ensures tells { IfOk result (Tells done_in (op.Explore explore_op.Explore) self.old.told self.new.told) }
        ensures stopped { IfErr result (Stops done_in (op.Explore explore_op.Explore) self.old.told self.new) }
    {
        self.ask(explore().request)
    }

    /// The search makes the first choice alone from now on (loom's `rt/mod.rs`).
    pub fn stop_exploring(&mut self) -> Result<(), Stop>
        ensures thread { self.new.thread ≡ self.old.thread }
        ensures tells { IfOk result (Tells done_in (op.Explore explore_op.StopExploring) self.old.told self.new.told) }
        ensures stopped { IfErr result (Stops done_in (op.Explore explore_op.StopExploring) self.old.told self.new) }
    {
        self.ask(stop_exploring().request)
    }

    /// The search makes the first choice alone up to the run's end (loom's `rt/mod.rs`).
    pub fn skip_branch(&mut self) -> Result<(), Stop>
        ensures thread { self.new.thread ≡ self.old.thread }
        ensures tells { IfOk result (Tells done_in (op.Explore explore_op.SkipBranch) self.old.told self.new.told) }
        ensures stopped { IfErr result (Stops done_in (op.Explore explore_op.SkipBranch) self.old.told self.new) }
    {
        self.ask(skip_branch().request)
    }
}

impl<D: Exact + 'static, R: Threads + Wait + Clone + Send + 'static> Handle<D, R> {
    /// Starts a thread that runs the closure, once its turn comes (loom's `thread.rs`).
    pub fn spawn<F: FnOnce(&mut Handle<D, R>) -> Result<D, Stop> + Send + 'static>(
        &mut self,
        closure: F,
    ) -> Result<JoinHandle, Stop>
        requires { F.IsAlwaysCallable closure }
        ensures live { OnOk result (all_answered self.old.told ≡ true) }
        ensures thread { self.new.thread ≡ self.old.thread }
        ensures answered { IfOk result (λ child. self.new.told ≡ self.old.told ++ entry (spawning self.old.name) (Some (reply.Spawned child.thread child.name child.notifier)) ∷ []) }
        ensures stopped { IfErr result (λ stop. ByStop stop (self.new.told ≡ with_open self.old.told (spawning self.old.name)) (self.new.starved ≡ true)) }
    {
        self.spawn_job(Call(closure))
    }
}
