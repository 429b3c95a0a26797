//! Short forms for futures and wakers: each makes an operation, or those that drive a future, and takes the replies apart.
ghost use Rattle.std.specs.Prelude.{◌≡◌, IfOk, IfErr};
ghost use Rattle.std.specs.Fn.{CalledWithState};
ghost use Rattle.loom.specs.Runner.Asking.{Tells, Stops, done_in, taken_in};
ghost use Rattle.loom.specs.Runner.Forms.{Drives, StopsDriving};
ghost use Rattle.loom_objects.specs.declared.operation.Request.TheVariants as op;
ghost use Rattle.loom_objects.specs.declared.operation.WakerOp.TheVariants as waker_op;
ghost use Rattle.loom_objects.specs.declared.operation.AtomicWakerOp.TheVariants as place_op;
ghost use Rattle.loom_ops.specs.Waker.{atomic_waker_handle, block_on_handle};

use crate::runner::closures::{poll_closure, wait_for_ever};
use crate::runner::exact::Exact;
use crate::runner::handle::Handle;
use crate::runner::stop::Stop;
use loom_ops::future::{AtomicWaker, BlockOn, Waker};
use std::sync::Wait;

impl<D: Exact + 'static, R: Wait> Handle<D, R> {
    /// Drives a future to its end: polls it again and again, and waits in between for one of its wakers, until the closure answers a
    /// value or a stop. Each poll is lent the waker, which it must not drop (loom's `block_on` in `future/mod.rs`).
    pub fn block_on<T: Drop, F: FnMut(&mut Handle<D, R>, Waker) -> Result<Option<T>, Stop>>(
        &mut self,
        mut poll: F,
    ) -> Result<T, Stop>
        requires { F.IsAlwaysCallable poll }
        ensures drives { IfOk result (Drives (CalledWithState F.FnMut) poll self.old self.new) }
        ensures stopped { IfErr result (StopsDriving (CalledWithState F.FnMut) poll self.old self.new) }
    {
        let future = self.begin_future()?;
        let waker = future.waker();
        for _ in 0..u64::MAX {
            if let Some(value) = poll_closure(&mut poll, self, waker)? {
                self.finish_future(&future)?;
                return Ok(value);
            }
            self.await_waker(&future)?;
        }
        wait_for_ever(&self.rt)
    }

    /// What drives a future: a notifier, with a count of one waker (loom's `block_on` in `future/mod.rs`).
    pub fn begin_future(&mut self) -> Result<BlockOn, Stop>
        ensures thread { self.new.thread ≡ self.old.thread }
        ensures tells { IfOk result (Tells block_on_handle (op.Waker waker_op.New) self.old.told self.new.told) }
        ensures stopped { IfErr result (Stops block_on_handle (op.Waker waker_op.New) self.old.told self.new) }
    {
        self.ask(BlockOn::new().request)
    }

    /// Waits until a waker of the future notifies, or once in a run without that (loom's `block_on` in `future/mod.rs`).
    pub fn await_waker(&mut self, future: &BlockOn) -> Result<(), Stop>
        ensures thread { self.new.thread ≡ self.old.thread }
        ensures tells { IfOk result (Tells done_in (op.Waker (waker_op.Wait future.now.number)) self.old.told self.new.told) }
        ensures stopped { IfErr result (Stops done_in (op.Waker (waker_op.Wait future.now.number)) self.old.told self.new) }
    {
        self.ask(future.wait().request)
    }

    /// The future is ready: one waker fewer, which is its notifier's own (loom's `block_on` in `future/mod.rs`).
    pub fn finish_future(&mut self, future: &BlockOn) -> Result<(), Stop>
        ensures thread { self.new.thread ≡ self.old.thread }
        ensures tells { IfOk result (Tells done_in (op.Waker (waker_op.Finish future.now.number)) self.old.told self.new.told) }
        ensures stopped { IfErr result (Stops done_in (op.Waker (waker_op.Finish future.now.number)) self.old.told self.new) }
    {
        self.ask(future.finish().request)
    }

    /// One waker more, by the same handle (loom's `future/mod.rs`).
    pub fn clone_waker(&mut self, waker: &Waker) -> Result<Waker, Stop>
        ensures thread { self.new.thread ≡ self.old.thread }
        ensures same { IfOk result (λ other. other ≡ waker.now) }
        ensures tells { IfOk result (λ other. Tells done_in (op.Waker (waker_op.Clone waker.now.number)) self.old.told self.new.told tt) }
        ensures stopped { IfErr result (Stops done_in (op.Waker (waker_op.Clone waker.now.number)) self.old.told self.new) }
    {
        let waker = *waker;
        self.ask::<()>(waker.clone().request)?;
        Ok(waker)
    }

    /// Notifies the thread that waits, or else the next wait, and then there is one waker fewer (loom's `future/mod.rs`).
    pub fn wake(&mut self, waker: Waker) -> Result<(), Stop>
        ensures thread { self.new.thread ≡ self.old.thread }
        ensures tells { IfOk result (Tells done_in (op.Waker (waker_op.Wake waker.number)) self.old.told self.new.told) }
        ensures stopped { IfErr result (Stops done_in (op.Waker (waker_op.Wake waker.number)) self.old.told self.new) }
    {
        self.ask(waker.wake().request)
    }

    /// Notifies the thread that waits, or else the next wait (loom's `future/mod.rs`).
    pub fn wake_by_ref(&mut self, waker: &Waker) -> Result<(), Stop>
        ensures thread { self.new.thread ≡ self.old.thread }
        ensures tells { IfOk result (Tells done_in (op.Waker (waker_op.WakeByRef waker.now.number)) self.old.told self.new.told) }
        ensures stopped { IfErr result (Stops done_in (op.Waker (waker_op.WakeByRef waker.now.number)) self.old.told self.new) }
    {
        self.ask(waker.wake_by_ref().request)
    }

    /// One waker fewer: in loom the drop (loom's `future/mod.rs`).
    pub fn drop_waker(&mut self, waker: Waker) -> Result<(), Stop>
        ensures thread { self.new.thread ≡ self.old.thread }
        ensures tells { IfOk result (Tells done_in (op.Waker (waker_op.Drop waker.number)) self.old.told self.new.told) }
        ensures stopped { IfErr result (Stops done_in (op.Waker (waker_op.Drop waker.number)) self.old.told self.new) }
    {
        self.ask(waker.drop().request)
    }

    /// A new place for a waker: in loom `AtomicWaker::new` (loom's `future/atomic_waker.rs`).
    pub fn atomic_waker(&mut self) -> Result<AtomicWaker, Stop>
        ensures thread { self.new.thread ≡ self.old.thread }
        ensures tells { IfOk result (Tells atomic_waker_handle (op.AtomicWaker place_op.New) self.old.told self.new.told) }
        ensures stopped { IfErr result (Stops atomic_waker_handle (op.AtomicWaker place_op.New) self.old.told self.new) }
    {
        self.ask(AtomicWaker::new().request)
    }

    /// The waker takes the place, and the one that was there is dropped. Where another thread holds the lock, the waker wakes and the thread
    /// yields (loom's `future/atomic_waker.rs`).
    pub fn register(&mut self, place: &AtomicWaker, waker: Waker) -> Result<(), Stop>
        ensures thread { self.new.thread ≡ self.old.thread }
        ensures tells { IfOk result (Tells done_in (op.AtomicWaker (place_op.Register place.now.number waker.number)) self.old.told self.new.told) }
        ensures stopped { IfErr result (Stops done_in (op.AtomicWaker (place_op.Register place.now.number waker.number)) self.old.told self.new) }
    {
        self.ask(place.register(waker).request)
    }

    /// Registers a clone of the waker, which is made first (loom's `future/atomic_waker.rs`).
    pub fn register_by_ref(&mut self, place: &AtomicWaker, waker: &Waker) -> Result<(), Stop>
        ensures thread { self.new.thread ≡ self.old.thread }
        ensures tells { IfOk result (Tells done_in (op.AtomicWaker (place_op.RegisterByRef place.now.number waker.now.number)) self.old.told self.new.told) }
        ensures stopped { IfErr result (Stops done_in (op.AtomicWaker (place_op.RegisterByRef place.now.number waker.now.number)) self.old.told self.new) }
    {
        self.ask(place.register_by_ref(waker).request)
    }

    /// Takes the waker out of the place, if there is one, and wakes by it: in loom `AtomicWaker::wake` (loom's
    /// `future/atomic_waker.rs`).
    pub fn wake_registered(&mut self, place: &AtomicWaker) -> Result<(), Stop>
        ensures thread { self.new.thread ≡ self.old.thread }
        ensures tells { IfOk result (Tells done_in (op.AtomicWaker (place_op.Wake place.now.number)) self.old.told self.new.told) }
        ensures stopped { IfErr result (Stops done_in (op.AtomicWaker (place_op.Wake place.now.number)) self.old.told self.new) }
    {
        self.ask(place.wake().request)
    }

    /// Takes the waker out of the place, if there is one (loom's `future/atomic_waker.rs`).
    pub fn take_waker(&mut self, place: &AtomicWaker) -> Result<Option<Waker>, Stop>
        ensures thread { self.new.thread ≡ self.old.thread }
        ensures tells { IfOk result (Tells taken_in (op.AtomicWaker (place_op.TakeWaker place.now.number)) self.old.told self.new.told) }
        ensures stopped { IfErr result (Stops taken_in (op.AtomicWaker (place_op.TakeWaker place.now.number)) self.old.told self.new) }
    {
        self.ask(place.take_waker().request)
    }

    /// The waker that is left in the place, if there is one: in loom the drop, which drops it too (loom's `future/atomic_waker.rs`).
    pub fn drop_atomic_waker(&mut self, place: AtomicWaker) -> Result<Option<Waker>, Stop>
        ensures thread { self.new.thread ≡ self.old.thread }
        ensures tells { IfOk result (Tells taken_in (op.AtomicWaker (place_op.Drop place.number)) self.old.told self.new.told) }
        ensures stopped { IfErr result (Stops taken_in (op.AtomicWaker (place_op.Drop place.number)) self.old.told self.new) }
    {
        self.ask(place.drop().request)
    }
}
