//! Short forms for values that are named by keys, a thread's own and those that are made once a run: each makes an operation, or two
//! where a closure makes the value, and takes the replies apart.
ghost use Rattle.std.specs.Prelude.{◌≡◌, IfOk, IfErr};
ghost use Rattle.std.specs.Fn.{FnOnceReturns};
ghost use Rattle.loom.specs.Runner.Asking.{Tells, Stops, given_in, present_in, standing_in, tried_local_in};
ghost use Rattle.loom.specs.Runner.Forms.{IsHad, StopsHaving};
ghost use Rattle.loom_objects.specs.declared.operation.Request.TheVariants as op;
ghost use Rattle.loom_objects.specs.declared.operation.LocalOp.TheVariants as local_op;
ghost use Rattle.loom_objects.specs.declared.operation.LazyOp.TheVariants as lazy_op;

use crate::runner::exact::Exact;
use crate::runner::handle::Handle;
use crate::runner::stop::Stop;
use loom_ops::answers::cell::Given;
use loom_ops::answers::lazy_static::Standing;
use loom_ops::answers::thread::{Present, TriedLocal};
use loom_ops::lazy_static::Lazy;
use loom_ops::thread::{AccessError, LocalKey};
use std::sync::Wait;

impl<D: Exact + 'static, R: Wait> Handle<D, R> {
    /// A copy of the thread's own value, which the closure makes where there is none (loom's `LocalKey::with`, in `thread.rs`).
    pub fn local<F: FnOnce() -> D>(&mut self, key: &LocalKey, make: F) -> Result<D, Stop>
        requires { F.IsAlwaysCallable make }
        ensures thread { self.new.thread ≡ self.old.thread }
        ensures had { IfOk result (IsHad given_in (λ given. given.0) (op.Local (local_op.With key.now.key)) (λ made. op.Local (local_op.Init key.now.key made)) (FnOnceReturns F.FnOnce make tt) self.old.told self.new.told) }
        ensures stopped { IfErr result (StopsHaving given_in (λ given. given.0) (op.Local (local_op.With key.now.key)) (λ made. op.Local (local_op.Init key.now.key made)) (FnOnceReturns F.FnOnce make tt) self.old.told self.new) }
    {
        if let Some(value) = self.get_local(key)? {
            return Ok(value);
        }
        self.init_local(key, make())
    }

    /// A copy of the thread's own value, if it has one (own).
    pub fn get_local(&mut self, key: &LocalKey) -> Result<Option<D>, Stop>
        ensures thread { self.new.thread ≡ self.old.thread }
        ensures tells { IfOk result (λ answer. Tells present_in (op.Local (local_op.With key.now.key)) self.old.told self.new.told (record { 0 = answer })) }
        ensures stopped { IfErr result (Stops present_in (op.Local (local_op.With key.now.key)) self.old.told self.new) }
    {
        let Present(value) = self.ask(key.with().request)?;
        Ok(value)
    }

    /// A copy of the thread's own value, if it has one, or that it was given back (loom's `LocalKey::try_with`, in `thread.rs`).
    pub fn try_local(&mut self, key: &LocalKey) -> Result<Result<Option<D>, AccessError>, Stop>
        ensures thread { self.new.thread ≡ self.old.thread }
        ensures tells { IfOk result (λ answer. Tells tried_local_in (op.Local (local_op.TryWith key.now.key)) self.old.told self.new.told (record { 0 = answer })) }
        ensures stopped { IfErr result (Stops tried_local_in (op.Local (local_op.TryWith key.now.key)) self.old.told self.new) }
    {
        let TriedLocal(outcome) = self.ask(key.try_with().request)?;
        Ok(outcome)
    }

    /// Gives the thread its own value, and answers a copy of it. Where it has one, or had one, that is the failure `KeyTaken` (own).
    pub fn init_local(&mut self, key: &LocalKey, value: D) -> Result<D, Stop>
        ensures thread { self.new.thread ≡ self.old.thread }
        ensures tells { IfOk result (λ answer. Tells given_in (op.Local (local_op.Init key.now.key value)) self.old.told self.new.told (record { 0 = answer })) }
        ensures stopped { IfErr result (Stops given_in (op.Local (local_op.Init key.now.key value)) self.old.told self.new) }
    {
        let Given(copy) = self.ask(key.init(value).request)?;
        Ok(copy)
    }

    /// Another value takes the place of the thread's own, which is answered. Where it has none that is a misuse (own; in loom a value
    /// that is shared changes by itself).
    pub fn put_local(&mut self, key: &LocalKey, value: D) -> Result<D, Stop>
        ensures thread { self.new.thread ≡ self.old.thread }
        ensures tells { IfOk result (λ answer. Tells given_in (op.Local (local_op.Put key.now.key value)) self.old.told self.new.told (record { 0 = answer })) }
        ensures stopped { IfErr result (Stops given_in (op.Local (local_op.Put key.now.key value)) self.old.told self.new) }
    {
        let Given(before) = self.ask(key.put(value).request)?;
        Ok(before)
    }

    /// A copy of the value that is made once a run, which the closure makes where there is none (loom's `lazy_static.rs`).
    pub fn lazy<F: FnOnce() -> D>(&mut self, lazy: &Lazy, make: F) -> Result<D, Stop>
        requires { F.IsAlwaysCallable make }
        ensures thread { self.new.thread ≡ self.old.thread }
        ensures had { IfOk result (IsHad standing_in (λ standing. standing.value) (op.Lazy (lazy_op.Get lazy.now.key)) (λ made. op.Lazy (lazy_op.Init lazy.now.key made)) (FnOnceReturns F.FnOnce make tt) self.old.told self.new.told) }
        ensures stopped { IfErr result (StopsHaving standing_in (λ standing. standing.value) (op.Lazy (lazy_op.Get lazy.now.key)) (λ made. op.Lazy (lazy_op.Init lazy.now.key made)) (FnOnceReturns F.FnOnce make tt) self.old.told self.new) }
    {
        if let Some(value) = self.get_lazy(lazy)? {
            return Ok(value);
        }
        let Standing {
            value: stands,
            spare: _,
        } = self.init_lazy(lazy, make())?;
        Ok(stands)
    }

    /// A copy of the value, if one was given (own).
    pub fn get_lazy(&mut self, lazy: &Lazy) -> Result<Option<D>, Stop>
        ensures thread { self.new.thread ≡ self.old.thread }
        ensures tells { IfOk result (λ answer. Tells present_in (op.Lazy (lazy_op.Get lazy.now.key)) self.old.told self.new.told (record { 0 = answer })) }
        ensures stopped { IfErr result (Stops present_in (op.Lazy (lazy_op.Get lazy.now.key)) self.old.told self.new) }
    {
        let Present(value) = self.ask(lazy.get().request)?;
        Ok(value)
    }

    /// Gives the value, and answers a copy of the one that stands: the one that was given first (own).
    pub fn init_lazy(&mut self, lazy: &Lazy, value: D) -> Result<Standing<D>, Stop>
        ensures thread { self.new.thread ≡ self.old.thread }
        ensures tells { IfOk result (Tells standing_in (op.Lazy (lazy_op.Init lazy.now.key value)) self.old.told self.new.told) }
        ensures stopped { IfErr result (Stops standing_in (op.Lazy (lazy_op.Init lazy.now.key value)) self.old.told self.new) }
    {
        self.ask(lazy.init(value).request)
    }
}
