//! Short forms for condition variables and notifiers: each makes an operation, and takes its reply apart.
ghost use Rattle.std.specs.Prelude.{◌≡◌, IfOk, IfErr};
ghost use Rattle.std.specs.Fn.{CalledAt};
ghost use Rattle.loom.specs.Runner.Asking.{Tells, Stops, done_in, guard_in, waited_in};
ghost use Rattle.loom.specs.Runner.Forms.{Wakes, StopsSleeping};
ghost use Rattle.loom_objects.specs.declared.operation.Request.TheVariants as op;
ghost use Rattle.loom_objects.specs.declared.operation.CondvarOp.TheVariants as condvar_op;
ghost use Rattle.loom_objects.specs.declared.operation.NotifyOp.TheVariants as notifier_op;
ghost use Rattle.loom_ops.specs.Condvar.{condvar_handle};
ghost use Rattle.loom_ops.specs.Notify.{notify_handle};

use crate::runner::closures::wait_for_ever;
use crate::runner::exact::Exact;
use crate::runner::handle::Handle;
use crate::runner::stop::Stop;
use loom_ops::sync::condvar::{Condvar, WaitTimeoutResult};
use loom_ops::sync::mutex::MutexGuard;
use loom_ops::sync::notify::Notify;
use std::sync::Wait;

impl<D: Exact + 'static, R: Wait> Handle<D, R> {
    /// A new condition variable (loom's `sync/condvar.rs`).
    pub fn condvar(&mut self) -> Result<Condvar, Stop>
        ensures thread { self.new.thread ≡ self.old.thread }
        ensures tells { IfOk result (Tells condvar_handle (op.Condvar condvar_op.New) self.old.told self.new.told) }
        ensures stopped { IfErr result (Stops condvar_handle (op.Condvar condvar_op.New) self.old.told self.new) }
    {
        self.ask(Condvar::new().request)
    }

    /// Releases the mutex with this data, sleeps until it is notified, and answers the guard and the data again (loom's `sync/condvar.rs`).
    pub fn wait(
        &mut self,
        condvar: &Condvar,
        guard: MutexGuard,
        value: D,
    ) -> Result<(MutexGuard, D), Stop>
        ensures thread { self.new.thread ≡ self.old.thread }
        ensures tells { IfOk result (Tells guard_in (op.Condvar (condvar_op.Wait condvar.now.number guard.number value)) self.old.told self.new.told) }
        ensures stopped { IfErr result (Stops guard_in (op.Condvar (condvar_op.Wait condvar.now.number guard.number value)) self.old.told self.new) }
    {
        self.ask(condvar.wait(guard, value).request)
    }

    /// Waits as `wait` does, and also answers that the time didn't run out: it never does, as in loom, and so no time is given (loom's
    /// `sync/condvar.rs`).
    pub fn wait_timeout(
        &mut self,
        condvar: &Condvar,
        guard: MutexGuard,
        value: D,
    ) -> Result<((MutexGuard, D), WaitTimeoutResult), Stop>
        ensures thread { self.new.thread ≡ self.old.thread }
        ensures tells { IfOk result (Tells waited_in (op.Condvar (condvar_op.WaitTimeout condvar.now.number guard.number value)) self.old.told self.new.told) }
        ensures stopped { IfErr result (Stops waited_in (op.Condvar (condvar_op.WaitTimeout condvar.now.number guard.number value)) self.old.told self.new) }
    {
        self.ask(condvar.wait_timeout(guard, value).request)
    }

    /// Waits again and again, while the closure says so of the data, up to a stop (std's `Condvar::wait_while`).
    pub fn wait_while<F: FnMut(&D) -> bool>(
        &mut self,
        condvar: &Condvar,
        guard: MutexGuard,
        value: D,
        mut sleeps: F,
    ) -> Result<(MutexGuard, D), Stop>
        requires { F.IsAlwaysCallable sleeps }
        ensures thread { self.new.thread ≡ self.old.thread }
        ensures wakes { IfOk result (Wakes (CalledAt F.FnMut) condvar.now sleeps (guard, value) self.old.told self.new.told) }
        ensures stopped { IfErr result (StopsSleeping (CalledAt F.FnMut) condvar.now sleeps (guard, value) self.old.told self.new) }
    {
        let mut held = (guard, value);
        for _ in 0..u64::MAX {
            if !sleeps(&held.1) {
                return Ok(held);
            }
            let (guard, value) = held;
            held = self.wait(condvar, guard, value)?;
        }
        wait_for_ever(&self.rt)
    }

    /// Wakes the thread that has waited longest, if there is one (loom's `sync/condvar.rs`).
    pub fn notify_one(&mut self, condvar: &Condvar) -> Result<(), Stop>
        ensures thread { self.new.thread ≡ self.old.thread }
        ensures tells { IfOk result (Tells done_in (op.Condvar (condvar_op.NotifyOne condvar.now.number)) self.old.told self.new.told) }
        ensures stopped { IfErr result (Stops done_in (op.Condvar (condvar_op.NotifyOne condvar.now.number)) self.old.told self.new) }
    {
        self.ask(condvar.notify_one().request)
    }

    /// Wakes all threads that wait (loom's `sync/condvar.rs`).
    pub fn notify_all(&mut self, condvar: &Condvar) -> Result<(), Stop>
        ensures thread { self.new.thread ≡ self.old.thread }
        ensures tells { IfOk result (Tells done_in (op.Condvar (condvar_op.NotifyAll condvar.now.number)) self.old.told self.new.told) }
        ensures stopped { IfErr result (Stops done_in (op.Condvar (condvar_op.NotifyAll condvar.now.number)) self.old.told self.new) }
    {
        self.ask(condvar.notify_all().request)
    }

    /// A new notifier: in loom `Notify::new` (loom's `sync/notify.rs`).
    pub fn notifier(&mut self) -> Result<Notify, Stop>
        ensures thread { self.new.thread ≡ self.old.thread }
        ensures tells { IfOk result (Tells notify_handle (op.Notify notifier_op.New) self.old.told self.new.told) }
        ensures stopped { IfErr result (Stops notify_handle (op.Notify notifier_op.New) self.old.told self.new) }
    {
        self.ask(Notify::new().request)
    }

    /// Notifies the thread that waits, or else the next one that will (loom's `sync/notify.rs`).
    pub fn notify(&mut self, notifier: &Notify) -> Result<(), Stop>
        ensures thread { self.new.thread ≡ self.old.thread }
        ensures tells { IfOk result (Tells done_in (op.Notify (notifier_op.Notify notifier.now.number)) self.old.told self.new.told) }
        ensures stopped { IfErr result (Stops done_in (op.Notify (notifier_op.Notify notifier.now.number)) self.old.told self.new) }
    {
        self.ask(notifier.notify().request)
    }

    /// Waits until it is notified, or once in a run without that: in loom `Notify::wait` (loom's `sync/notify.rs`).
    pub fn wait_for(&mut self, notifier: &Notify) -> Result<(), Stop>
        ensures thread { self.new.thread ≡ self.old.thread }
        ensures tells { IfOk result (Tells done_in (op.Notify (notifier_op.Wait notifier.now.number)) self.old.told self.new.told) }
        ensures stopped { IfErr result (Stops done_in (op.Notify (notifier_op.Wait notifier.now.number)) self.old.told self.new) }
    {
        self.ask(notifier.wait().request)
    }
}
