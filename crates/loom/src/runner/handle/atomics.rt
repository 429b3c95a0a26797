//! Short forms for atomics: each makes an operation, and takes its reply apart.
ghost use Rattle.std.specs.Prelude.{◌≡◌, IfOk, IfErr};
ghost use Rattle.std.specs.Fn.{Called, FnOnceReturnsAtMut};
ghost use Rattle.loom.specs.Runner.Asking.{Tells, Stops, done_in, exchanged_in, loaded_in, as_loaded};
ghost use Rattle.loom_objects.specs.declared.operation.Request.TheVariants as op;
ghost use Rattle.loom_objects.specs.declared.operation.AtomicOp.TheVariants as atomic_op;
ghost use Rattle.loom_views.specs.declared.rt.num.change.Change.TheVariants as change;
ghost use Rattle.loom.specs.Runner.Forms.{IsGivenBack, StopsWithin, Updates, StopsUpdating, loaded, mutating, mutation_ending};
ghost use Rattle.loom_ops.specs.Atomic.{atomic_handle, exchange, update};

use crate::runner::closures::wait_for_ever;
use crate::runner::exact::Exact;
use crate::runner::handle::Handle;
use crate::runner::stop::Stop;
use loom_ops::answers::answer::Loaded;
use loom_ops::sync::atomic::{Atomic, Integer, Ordering, fence};
use loom_views::rt::num::Numeric;
use std::sync::Wait;

impl<D: Exact + 'static, R: Wait> Handle<D, R> {
    /// A new atomic, which holds this value (loom's `sync/atomic/atomic.rs`).
    pub fn atomic<T: Numeric>(&mut self, value: T) -> Result<Atomic<T>, Stop>
        ensures thread { self.new.thread ≡ self.old.thread }
        ensures tells { IfOk result (Tells atomic_handle (op.Atomic (atomic_op.New T.kind (T.number value))) self.old.told self.new.told) }
        ensures stopped { IfErr result (Stops (atomic_handle {T = T}) (op.Atomic (atomic_op.New T.kind (T.number value))) self.old.told self.new) }
    {
        self.ask(Atomic::new(value).request)
    }

    /// The value of a store that the thread may read (loom's `sync/atomic/atomic.rs`).
    pub fn load<T: Numeric>(&mut self, atomic: &Atomic<T>, order: Ordering) -> Result<T, Stop>
        ensures thread { self.new.thread ≡ self.old.thread }
        ensures tells { IfOk result (λ answer. Tells (loaded_in T.value) (op.Atomic (atomic_op.Load atomic.now.number order)) self.old.told self.new.told (record { 0 = answer })) }
        ensures stopped { IfErr result (Stops (loaded_in T.value) (op.Atomic (atomic_op.Load atomic.now.number order)) self.old.told self.new) }
    {
        let Loaded(value) = self.ask(atomic.load(order).request)?;
        Ok(value)
    }

    /// Stores the value (loom's `sync/atomic/atomic.rs`).
    pub fn store<T: Numeric>(
        &mut self,
        atomic: &Atomic<T>,
        value: T,
        order: Ordering,
    ) -> Result<(), Stop>
        ensures thread { self.new.thread ≡ self.old.thread }
        ensures tells { IfOk result (Tells done_in (op.Atomic (atomic_op.Store atomic.now.number (T.number value) order)) self.old.told self.new.told) }
        ensures stopped { IfErr result (Stops done_in (op.Atomic (atomic_op.Store atomic.now.number (T.number value) order)) self.old.told self.new) }
    {
        self.ask(atomic.store(value, order).request)
    }

    /// Stores the value, and answers the value before (loom's `sync/atomic/atomic.rs`).
    pub fn swap<T: Numeric>(
        &mut self,
        atomic: &Atomic<T>,
        value: T,
        order: Ordering,
    ) -> Result<T, Stop>
        ensures thread { self.new.thread ≡ self.old.thread }
        ensures tells { IfOk result (λ answer. Tells (loaded_in T.value) (op.Atomic (atomic_op.Update atomic.now.number (change.Swap (T.number value)) order)) self.old.told self.new.told (record { 0 = answer })) }
        ensures stopped { IfErr result (Stops (loaded_in T.value) (op.Atomic (atomic_op.Update atomic.now.number (change.Swap (T.number value)) order)) self.old.told self.new) }
    {
        let Loaded(before) = self.ask(atomic.swap(value, order).request)?;
        Ok(before)
    }

    /// Stores the new value where the current one is read. Answers Ok of what was read there, and else Err (loom's `sync/atomic/atomic.rs`).
    pub fn compare_exchange<T: Numeric>(
        &mut self,
        atomic: &Atomic<T>,
        current: T,
        new: T,
        success: Ordering,
        failure: Ordering,
    ) -> Result<Result<T, T>, Stop>
        ensures thread { self.new.thread ≡ self.old.thread }
        ensures tells { IfOk result (λ outcome. Tells (exchanged_in T.value) (exchange atomic.now.number (T.number current) (T.number new) success failure).request self.old.told self.new.told (as_loaded outcome)) }
        ensures stopped { IfErr result (Stops (exchanged_in T.value) (exchange atomic.now.number (T.number current) (T.number new) success failure).request self.old.told self.new) }
    {
        let exchange = atomic.compare_exchange(current, new, success, failure);
        let outcome = self.ask(exchange.request)?;
        Ok(read_by(outcome))
    }

    /// As `compare_exchange`: it fails only where another value is read (loom's `sync/atomic/int.rs` and `bool.rs`).
    pub fn compare_exchange_weak<T: Numeric>(
        &mut self,
        atomic: &Atomic<T>,
        current: T,
        new: T,
        success: Ordering,
        failure: Ordering,
    ) -> Result<Result<T, T>, Stop>
        ensures thread { self.new.thread ≡ self.old.thread }
        ensures tells { IfOk result (λ outcome. Tells (exchanged_in T.value) (exchange atomic.now.number (T.number current) (T.number new) success failure).request self.old.told self.new.told (as_loaded outcome)) }
        ensures stopped { IfErr result (Stops (exchanged_in T.value) (exchange atomic.now.number (T.number current) (T.number new) success failure).request self.old.told self.new) }
    {
        let exchange = atomic.compare_exchange_weak(current, new, success, failure);
        let outcome = self.ask(exchange.request)?;
        Ok(read_by(outcome))
    }

    /// Adds, and answers the value before (loom's `sync/atomic/int.rs`).
    pub fn fetch_add<T: Integer>(
        &mut self,
        atomic: &Atomic<T>,
        value: T,
        order: Ordering,
    ) -> Result<T, Stop>
        ensures thread { self.new.thread ≡ self.old.thread }
        ensures tells { IfOk result (λ answer. Tells (loaded_in T.value) (op.Atomic (atomic_op.Update atomic.now.number (change.Add (T.number value)) order)) self.old.told self.new.told (record { 0 = answer })) }
        ensures stopped { IfErr result (Stops (loaded_in T.value) (op.Atomic (atomic_op.Update atomic.now.number (change.Add (T.number value)) order)) self.old.told self.new) }
    {
        let Loaded(before) = self.ask(atomic.fetch_add(value, order).request)?;
        Ok(before)
    }

    /// Subtracts, and answers the value before (loom's `sync/atomic/int.rs`).
    pub fn fetch_sub<T: Integer>(
        &mut self,
        atomic: &Atomic<T>,
        value: T,
        order: Ordering,
    ) -> Result<T, Stop>
        ensures thread { self.new.thread ≡ self.old.thread }
        ensures tells { IfOk result (λ answer. Tells (loaded_in T.value) (op.Atomic (atomic_op.Update atomic.now.number (change.Sub (T.number value)) order)) self.old.told self.new.told (record { 0 = answer })) }
        ensures stopped { IfErr result (Stops (loaded_in T.value) (op.Atomic (atomic_op.Update atomic.now.number (change.Sub (T.number value)) order)) self.old.told self.new) }
    {
        let Loaded(before) = self.ask(atomic.fetch_sub(value, order).request)?;
        Ok(before)
    }

    /// Keeps the bits that are in both, and answers the value before (loom's `sync/atomic/int.rs` and `bool.rs`).
    pub fn fetch_and<T: Numeric>(
        &mut self,
        atomic: &Atomic<T>,
        value: T,
        order: Ordering,
    ) -> Result<T, Stop>
        ensures thread { self.new.thread ≡ self.old.thread }
        ensures tells { IfOk result (λ answer. Tells (loaded_in T.value) (op.Atomic (atomic_op.Update atomic.now.number (change.And (T.number value)) order)) self.old.told self.new.told (record { 0 = answer })) }
        ensures stopped { IfErr result (Stops (loaded_in T.value) (op.Atomic (atomic_op.Update atomic.now.number (change.And (T.number value)) order)) self.old.told self.new) }
    {
        let Loaded(before) = self.ask(atomic.fetch_and(value, order).request)?;
        Ok(before)
    }

    /// Adds the bits of the other, and answers the value before (loom's `sync/atomic/int.rs` and `bool.rs`).
    pub fn fetch_or<T: Numeric>(
        &mut self,
        atomic: &Atomic<T>,
        value: T,
        order: Ordering,
    ) -> Result<T, Stop>
        ensures thread { self.new.thread ≡ self.old.thread }
        ensures tells { IfOk result (λ answer. Tells (loaded_in T.value) (op.Atomic (atomic_op.Update atomic.now.number (change.Or (T.number value)) order)) self.old.told self.new.told (record { 0 = answer })) }
        ensures stopped { IfErr result (Stops (loaded_in T.value) (op.Atomic (atomic_op.Update atomic.now.number (change.Or (T.number value)) order)) self.old.told self.new) }
    {
        let Loaded(before) = self.ask(atomic.fetch_or(value, order).request)?;
        Ok(before)
    }

    /// Leaves the bits that are in one of the two alone, and answers the value before (loom's `sync/atomic/int.rs` and `bool.rs`).
    pub fn fetch_xor<T: Numeric>(
        &mut self,
        atomic: &Atomic<T>,
        value: T,
        order: Ordering,
    ) -> Result<T, Stop>
        ensures thread { self.new.thread ≡ self.old.thread }
        ensures tells { IfOk result (λ answer. Tells (loaded_in T.value) (op.Atomic (atomic_op.Update atomic.now.number (change.Xor (T.number value)) order)) self.old.told self.new.told (record { 0 = answer })) }
        ensures stopped { IfErr result (Stops (loaded_in T.value) (op.Atomic (atomic_op.Update atomic.now.number (change.Xor (T.number value)) order)) self.old.told self.new) }
    {
        let Loaded(before) = self.ask(atomic.fetch_xor(value, order).request)?;
        Ok(before)
    }

    /// Leaves the bits of the type that are not in both, and answers the value before (loom's `sync/atomic/int.rs` and `bool.rs`).
    pub fn fetch_nand<T: Numeric>(
        &mut self,
        atomic: &Atomic<T>,
        value: T,
        order: Ordering,
    ) -> Result<T, Stop>
        ensures thread { self.new.thread ≡ self.old.thread }
        ensures tells { IfOk result (λ answer. Tells (loaded_in T.value) (op.Atomic (atomic_op.Update atomic.now.number (change.Nand (T.number value)) order)) self.old.told self.new.told (record { 0 = answer })) }
        ensures stopped { IfErr result (Stops (loaded_in T.value) (op.Atomic (atomic_op.Update atomic.now.number (change.Nand (T.number value)) order)) self.old.told self.new) }
    {
        let Loaded(before) = self.ask(atomic.fetch_nand(value, order).request)?;
        Ok(before)
    }

    /// Leaves the larger of the two, and answers the value before (loom's `sync/atomic/int.rs`).
    pub fn fetch_max<T: Integer>(
        &mut self,
        atomic: &Atomic<T>,
        value: T,
        order: Ordering,
    ) -> Result<T, Stop>
        ensures thread { self.new.thread ≡ self.old.thread }
        ensures tells { IfOk result (λ answer. Tells (loaded_in T.value) (op.Atomic (atomic_op.Update atomic.now.number (change.Max (T.number value)) order)) self.old.told self.new.told (record { 0 = answer })) }
        ensures stopped { IfErr result (Stops (loaded_in T.value) (op.Atomic (atomic_op.Update atomic.now.number (change.Max (T.number value)) order)) self.old.told self.new) }
    {
        let Loaded(before) = self.ask(atomic.fetch_max(value, order).request)?;
        Ok(before)
    }

    /// Leaves the smaller of the two, and answers the value before (loom's `sync/atomic/int.rs`).
    pub fn fetch_min<T: Integer>(
        &mut self,
        atomic: &Atomic<T>,
        value: T,
        order: Ordering,
    ) -> Result<T, Stop>
        ensures thread { self.new.thread ≡ self.old.thread }
        ensures tells { IfOk result (λ answer. Tells (loaded_in T.value) (op.Atomic (atomic_op.Update atomic.now.number (change.Min (T.number value)) order)) self.old.told self.new.told (record { 0 = answer })) }
        ensures stopped { IfErr result (Stops (loaded_in T.value) (op.Atomic (atomic_op.Update atomic.now.number (change.Min (T.number value)) order)) self.old.told self.new) }
    {
        let Loaded(before) = self.ask(atomic.fetch_min(value, order).request)?;
        Ok(before)
    }

    /// Stores the new value where the current one is read, and answers the value that was read. Where that is another, its ordering is
    /// `Relaxed` in place of `Release`, and `Acquire` in place of `AcqRel` (loom's `sync/atomic/atomic.rs`).
    pub fn compare_and_swap<T: Numeric>(
        &mut self,
        atomic: &Atomic<T>,
        current: T,
        new: T,
        order: Ordering,
    ) -> Result<T, Stop>
        ensures thread { self.new.thread ≡ self.old.thread }
        ensures tells { IfOk result (λ answer. Tells (loaded_in T.value) (op.Atomic (atomic_op.CompareAndSwap atomic.now.number (T.number current) (T.number new) order)) self.old.told self.new.told (record { 0 = answer })) }
        ensures stopped { IfErr result (Stops (loaded_in T.value) (op.Atomic (atomic_op.CompareAndSwap atomic.now.number (T.number current) (T.number new) order)) self.old.told self.new) }
    {
        let swap = atomic.compare_and_swap(current, new, order);
        let Loaded(read) = self.ask(swap.request)?;
        Ok(read)
    }

    /// The newest value, and nothing is synchronized. Where the thread doesn't know of a store or of a mutation, that is the failure
    /// `Race`, and while a mutation is open, `OpenAccess` (loom's `sync/atomic/atomic.rs`).
    pub fn unsync_load<T: Numeric>(&mut self, atomic: &Atomic<T>) -> Result<T, Stop>
        ensures thread { self.new.thread ≡ self.old.thread }
        ensures tells { IfOk result (λ answer. Tells (loaded_in T.value) (op.Atomic (atomic_op.UnsyncLoad atomic.now.number)) self.old.told self.new.told (record { 0 = answer })) }
        ensures stopped { IfErr result (Stops (loaded_in T.value) (op.Atomic (atomic_op.UnsyncLoad atomic.now.number)) self.old.told self.new) }
    {
        let Loaded(value) = self.ask(atomic.unsync_load().request)?;
        Ok(value)
    }

    /// What the atomic held, as by `unsync_load`, and it is no more: a later operation of it is a misuse (loom's `sync/atomic/int.rs`
    /// and `bool.rs`).
    pub fn into_inner_atomic<T: Numeric>(&mut self, atomic: Atomic<T>) -> Result<T, Stop>
        ensures thread { self.new.thread ≡ self.old.thread }
        ensures tells { IfOk result (λ answer. Tells (loaded_in T.value) (op.Atomic (atomic_op.IntoInner atomic.number)) self.old.told self.new.told (record { 0 = answer })) }
        ensures stopped { IfErr result (Stops (loaded_in T.value) (op.Atomic (atomic_op.IntoInner atomic.number)) self.old.told self.new) }
    {
        let Loaded(value) = self.ask(atomic.into_inner().request)?;
        Ok(value)
    }

    /// Changes the newest value by the closure, while the mutation is open. Where the thread doesn't know of some access, that is the
    /// failure `Race`; an access while it is open is `OpenAccess` (loom's `sync/atomic/int.rs`).
    pub fn with_mut_atomic<T: Integer, A: Drop, F: FnOnce(&mut T) -> A>(
        &mut self,
        atomic: &Atomic<T>,
        change: F,
    ) -> Result<A, Stop>
        requires { F.IsAlwaysCallable change }
        ensures thread { self.new.thread ≡ self.old.thread }
        ensures within { IfOk result (IsGivenBack (loaded_in T.value) loaded (mutating atomic.now) (mutation_ending T.number atomic.now) (FnOnceReturnsAtMut F.FnOnce change) self.old.told self.new.told) }
        ensures stopped { IfErr result (StopsWithin (loaded_in T.value) loaded (mutating atomic.now) (mutation_ending T.number atomic.now) (FnOnceReturnsAtMut F.FnOnce change) self.old.told self.new) }
    {
        let Loaded(mut value) = self.ask::<Loaded<T>>(atomic.with_mut().request)?;
        let answer = change(&mut value);
        self.ask::<()>(atomic.with_mut_end(value).request)?;
        Ok(answer)
    }

    /// Puts what the closure makes of the value in its place, and asks again where another store came between. Answers Ok of the value
    /// that was replaced, or Err of the one of which the closure makes none (loom's `sync/atomic/atomic.rs`).
    pub fn fetch_update<T: Numeric, F: FnMut(T) -> Option<T>>(
        &mut self,
        atomic: &Atomic<T>,
        set_order: Ordering,
        fetch_order: Ordering,
        mut next: F,
    ) -> Result<Result<T, T>, Stop>
        requires { F.IsAlwaysCallable next }
        ensures thread { self.new.thread ≡ self.old.thread }
        ensures updates { IfOk result (Updates T.value T.number (λ f read new g. Called F.FnMut f (read, tt) new g) (update atomic.now set_order fetch_order) next self.old.told self.new.told) }
        ensures stopped { IfErr result (StopsUpdating T.value T.number (λ f read new g. Called F.FnMut f (read, tt) new g) (update atomic.now set_order fetch_order) next self.old.told self.new) }
    {
        let mut read = self.load(atomic, fetch_order)?;
        for _ in 0..u64::MAX {
            let Some(new) = next(read) else {
                return Ok(Err(read));
            };
            match self.compare_exchange(atomic, read, new, set_order, fetch_order)? {
                Ok(before) => return Ok(Ok(before)),
                Err(other) => read = other,
            }
        }
        wait_for_ever(&self.rt)
    }

    /// A fence, by which the thread's accesses before and after it synchronize (loom's `sync/atomic/mod.rs`).
    pub fn fence(&mut self, order: Ordering) -> Result<(), Stop>
        ensures thread { self.new.thread ≡ self.old.thread }
        ensures tells { IfOk result (Tells done_in (op.Fence order) self.old.told self.new.told) }
        ensures stopped { IfErr result (Stops done_in (op.Fence order) self.old.told self.new) }
    {
        self.ask(fence(order).request)
    }
}

/// What the exchange has read.
fn read_by<T>(outcome: Result<Loaded<T>, Loaded<T>>) -> Result<T, T>
    ensures { outcome ≡ as_loaded result }
{
    match outcome {
        Ok(Loaded(value)) => Ok(value),
        Err(Loaded(value)) => Err(value),
    }
}
