//! Short forms for mutexes and read-write locks: each makes an operation, and takes its reply apart.
ghost use Rattle.std.specs.Prelude.{◌≡◌, IfOk, IfErr};
ghost use Rattle.std.specs.Fn.{FnOnceReturnsAt, FnOnceReturnsAtMut};
ghost use Rattle.loom.specs.Runner.Asking.{Tells, Stops, done_in, given_in, guard_in, tried_in, tried_read_in, tried_write_in};
ghost use Rattle.loom.specs.Runner.Forms.{IsGivenBack, StopsWithin, beside, given, locking, releasing};
ghost use Rattle.loom_objects.specs.declared.operation.Request.TheVariants as op;
ghost use Rattle.loom_objects.specs.declared.operation.MutexOp.TheVariants as mutex_op;
ghost use Rattle.loom_objects.specs.declared.operation.RwLockOp.TheVariants as lock_op;
ghost use Rattle.loom_ops.specs.Mutex.{mutex_handle};
ghost use Rattle.loom_ops.specs.RwLock.{rwlock_handle, read_guard_taken, write_guard_taken};

use crate::runner::exact::Exact;
use crate::runner::handle::Handle;
use crate::runner::stop::Stop;
use loom_ops::answers::answer::Tried;
use loom_ops::answers::cell::Given;
use loom_ops::sync::mutex::{Mutex, MutexGuard};
use loom_ops::sync::rwlock::{RwLock, RwLockReadGuard, RwLockWriteGuard};
use std::sync::Wait;

impl<D: Exact + 'static, R: Wait> Handle<D, R> {
    /// A new mutex with this data (loom's `sync/mutex.rs`).
    pub fn mutex(&mut self, value: D) -> Result<Mutex, Stop>
        ensures thread { self.new.thread ≡ self.old.thread }
        ensures tells { IfOk result (Tells mutex_handle (op.Mutex (mutex_op.New value)) self.old.told self.new.told) }
        ensures stopped { IfErr result (Stops mutex_handle (op.Mutex (mutex_op.New value)) self.old.told self.new) }
    {
        self.ask(Mutex::new(value).request)
    }

    /// Waits for the mutex, and answers the guard and the data (loom's `sync/mutex.rs`).
    pub fn lock(&mut self, mutex: &Mutex) -> Result<(MutexGuard, D), Stop>
        ensures thread { self.new.thread ≡ self.old.thread }
        ensures tells { IfOk result (Tells guard_in (op.Mutex (mutex_op.Lock mutex.now.number)) self.old.told self.new.told) }
        ensures stopped { IfErr result (Stops guard_in (op.Mutex (mutex_op.Lock mutex.now.number)) self.old.told self.new) }
    {
        self.ask(mutex.lock().request)
    }

    /// Locks the mutex, unless it is held (loom's `sync/mutex.rs`).
    pub fn try_lock(&mut self, mutex: &Mutex) -> Result<Option<(MutexGuard, D)>, Stop>
        ensures thread { self.new.thread ≡ self.old.thread }
        ensures tells { IfOk result (λ answer. Tells tried_in (op.Mutex (mutex_op.TryLock mutex.now.number)) self.old.told self.new.told (record { 0 = answer })) }
        ensures stopped { IfErr result (Stops tried_in (op.Mutex (mutex_op.TryLock mutex.now.number)) self.old.told self.new) }
    {
        let Tried(locked) = self.ask(mutex.try_lock().request)?;
        Ok(locked)
    }

    /// The mutex is free, and holds this data: in loom the guard's drop (loom's `sync/mutex.rs`).
    pub fn release(&mut self, guard: MutexGuard, value: D) -> Result<(), Stop>
        ensures thread { self.new.thread ≡ self.old.thread }
        ensures tells { IfOk result (Tells done_in (op.Mutex (mutex_op.Release guard.number value)) self.old.told self.new.told) }
        ensures stopped { IfErr result (Stops done_in (op.Mutex (mutex_op.Release guard.number value)) self.old.told self.new) }
    {
        self.ask(guard.release(value).request)
    }

    /// Waits for the mutex, lets the closure change the data, and releases it (own; in loom a guard that is dropped at once).
    pub fn with_lock<T: Drop, F: FnOnce(&mut D) -> T>(
        &mut self,
        mutex: &Mutex,
        change: F,
    ) -> Result<T, Stop>
        requires { F.IsAlwaysCallable change }
        ensures thread { self.new.thread ≡ self.old.thread }
        ensures within { IfOk result (IsGivenBack guard_in beside (locking mutex.now) releasing (FnOnceReturnsAtMut F.FnOnce change) self.old.told self.new.told) }
        ensures stopped { IfErr result (StopsWithin guard_in beside (locking mutex.now) releasing (FnOnceReturnsAtMut F.FnOnce change) self.old.told self.new) }
    {
        let (guard, mut value) = self.lock(mutex)?;
        let answer = change(&mut value);
        self.release(guard, value)?;
        Ok(answer)
    }

    /// Changes the data by the closure, without a lock. While a thread holds the mutex that is a misuse (loom's `sync/mutex.rs`).
    pub fn get_mut_mutex<T: Drop, F: FnOnce(&mut D) -> T>(
        &mut self,
        mutex: &Mutex,
        change: F,
    ) -> Result<T, Stop>
        requires { F.IsAlwaysCallable change }
        ensures thread { self.new.thread ≡ self.old.thread }
        ensures within { IfOk result (IsGivenBack given_in given (op.Mutex (mutex_op.GetMut mutex.now.number)) (λ guard value. op.Mutex (mutex_op.Put mutex.now.number value)) (FnOnceReturnsAtMut F.FnOnce change) self.old.told self.new.told) }
        ensures stopped { IfErr result (StopsWithin given_in given (op.Mutex (mutex_op.GetMut mutex.now.number)) (λ guard value. op.Mutex (mutex_op.Put mutex.now.number value)) (FnOnceReturnsAtMut F.FnOnce change) self.old.told self.new) }
    {
        let Given(mut value) = self.ask(mutex.get_mut().request)?;
        let answer = change(&mut value);
        self.ask::<()>(mutex.put(value).request)?;
        Ok(answer)
    }

    /// What the mutex held, and it is no more: a later operation of it is a misuse, and so is this one while a thread holds the mutex
    /// (loom's `sync/mutex.rs`).
    pub fn into_inner_mutex(&mut self, mutex: Mutex) -> Result<D, Stop>
        ensures thread { self.new.thread ≡ self.old.thread }
        ensures tells { IfOk result (λ answer. Tells given_in (op.Mutex (mutex_op.IntoInner mutex.number)) self.old.told self.new.told (record { 0 = answer })) }
        ensures stopped { IfErr result (Stops given_in (op.Mutex (mutex_op.IntoInner mutex.number)) self.old.told self.new) }
    {
        let Given(value) = self.ask(mutex.into_inner().request)?;
        Ok(value)
    }

    /// A new read-write lock with this data (loom's `sync/rwlock.rs`).
    pub fn rw_lock(&mut self, value: D) -> Result<RwLock, Stop>
        ensures thread { self.new.thread ≡ self.old.thread }
        ensures tells { IfOk result (Tells rwlock_handle (op.RwLock (lock_op.New value)) self.old.told self.new.told) }
        ensures stopped { IfErr result (Stops rwlock_handle (op.RwLock (lock_op.New value)) self.old.told self.new) }
    {
        self.ask(RwLock::new(value).request)
    }

    /// Waits while a thread writes, and answers the guard and a copy of the data (loom's `sync/rwlock.rs`).
    pub fn read(&mut self, lock: &RwLock) -> Result<(RwLockReadGuard, D), Stop>
        ensures thread { self.new.thread ≡ self.old.thread }
        ensures tells { IfOk result (Tells read_guard_taken (op.RwLock (lock_op.Read lock.now.number)) self.old.told self.new.told) }
        ensures stopped { IfErr result (Stops read_guard_taken (op.RwLock (lock_op.Read lock.now.number)) self.old.told self.new) }
    {
        self.ask(lock.read().request)
    }

    /// The thread reads no more by this guard: in loom the guard's drop (loom's `sync/rwlock.rs`).
    pub fn release_read(&mut self, guard: RwLockReadGuard) -> Result<(), Stop>
        ensures thread { self.new.thread ≡ self.old.thread }
        ensures tells { IfOk result (Tells done_in (op.RwLock (lock_op.ReadRelease guard.number)) self.old.told self.new.told) }
        ensures stopped { IfErr result (Stops done_in (op.RwLock (lock_op.ReadRelease guard.number)) self.old.told self.new) }
    {
        self.ask(guard.release().request)
    }

    /// Waits while a thread reads or writes, and answers the guard and the data (loom's `sync/rwlock.rs`).
    pub fn write(&mut self, lock: &RwLock) -> Result<(RwLockWriteGuard, D), Stop>
        ensures thread { self.new.thread ≡ self.old.thread }
        ensures tells { IfOk result (Tells write_guard_taken (op.RwLock (lock_op.Write lock.now.number)) self.old.told self.new.told) }
        ensures stopped { IfErr result (Stops write_guard_taken (op.RwLock (lock_op.Write lock.now.number)) self.old.told self.new) }
    {
        self.ask(lock.write().request)
    }

    /// The lock is free, and holds this data: in loom the guard's drop (loom's `sync/rwlock.rs`).
    pub fn release_write(&mut self, guard: RwLockWriteGuard, value: D) -> Result<(), Stop>
        ensures thread { self.new.thread ≡ self.old.thread }
        ensures tells { IfOk result (Tells done_in (op.RwLock (lock_op.WriteRelease guard.number value)) self.old.told self.new.told) }
        ensures stopped { IfErr result (Stops done_in (op.RwLock (lock_op.WriteRelease guard.number value)) self.old.told self.new) }
    {
        self.ask(guard.release(value).request)
    }
    /// Reads, unless a thread writes (loom's `sync/rwlock.rs`).
    pub fn try_read(&mut self, lock: &RwLock) -> Result<Option<(RwLockReadGuard, D)>, Stop>
        ensures thread { self.new.thread ≡ self.old.thread }
        ensures tells { IfOk result (Tells tried_read_in (op.RwLock (lock_op.TryRead lock.now.number)) self.old.told self.new.told) }
        ensures stopped { IfErr result (Stops tried_read_in (op.RwLock (lock_op.TryRead lock.now.number)) self.old.told self.new) }
    {
        self.ask(lock.try_read().request)
    }

    /// Writes, unless a thread reads or writes (loom's `sync/rwlock.rs`).
    pub fn try_write(&mut self, lock: &RwLock) -> Result<Option<(RwLockWriteGuard, D)>, Stop>
        ensures thread { self.new.thread ≡ self.old.thread }
        ensures tells { IfOk result (Tells tried_write_in (op.RwLock (lock_op.TryWrite lock.now.number)) self.old.told self.new.told) }
        ensures stopped { IfErr result (Stops tried_write_in (op.RwLock (lock_op.TryWrite lock.now.number)) self.old.told self.new) }
    {
        self.ask(lock.try_write().request)
    }

    /// Waits while a thread writes, lets the closure look at a copy of the data, and reads no more (own; in loom a guard that is dropped
    /// at once).
    pub fn with_read<T: Drop, F: FnOnce(&D) -> T>(
        &mut self,
        lock: &RwLock,
        look: F,
    ) -> Result<T, Stop>
        requires { F.IsAlwaysCallable look }
        ensures thread { self.new.thread ≡ self.old.thread }
        ensures within { IfOk result (IsGivenBack read_guard_taken beside (op.RwLock (lock_op.Read lock.now.number)) (λ guard value. op.RwLock (lock_op.ReadRelease guard.number)) (λ found answer left. FnOnceReturnsAt F.FnOnce look found answer) self.old.told self.new.told) }
        ensures stopped { IfErr result (StopsWithin read_guard_taken beside (op.RwLock (lock_op.Read lock.now.number)) (λ guard value. op.RwLock (lock_op.ReadRelease guard.number)) (λ found answer left. FnOnceReturnsAt F.FnOnce look found answer) self.old.told self.new) }
    {
        let (guard, value) = self.read(lock)?;
        let answer = look(&value);
        self.release_read(guard)?;
        Ok(answer)
    }

    /// Waits while a thread reads or writes, lets the closure change the data, and frees the lock (own; in loom a guard that is dropped
    /// at once).
    pub fn with_write<T: Drop, F: FnOnce(&mut D) -> T>(
        &mut self,
        lock: &RwLock,
        change: F,
    ) -> Result<T, Stop>
        requires { F.IsAlwaysCallable change }
        ensures thread { self.new.thread ≡ self.old.thread }
        ensures within { IfOk result (IsGivenBack write_guard_taken beside (op.RwLock (lock_op.Write lock.now.number)) (λ guard value. op.RwLock (lock_op.WriteRelease guard.number value)) (FnOnceReturnsAtMut F.FnOnce change) self.old.told self.new.told) }
        ensures stopped { IfErr result (StopsWithin write_guard_taken beside (op.RwLock (lock_op.Write lock.now.number)) (λ guard value. op.RwLock (lock_op.WriteRelease guard.number value)) (FnOnceReturnsAtMut F.FnOnce change) self.old.told self.new) }
    {
        let (guard, mut value) = self.write(lock)?;
        let answer = change(&mut value);
        self.release_write(guard, value)?;
        Ok(answer)
    }

    /// Changes the data by the closure, without a lock. While a thread reads or writes that is a misuse (loom's `sync/rwlock.rs`).
    pub fn get_mut_rw_lock<T: Drop, F: FnOnce(&mut D) -> T>(
        &mut self,
        lock: &RwLock,
        change: F,
    ) -> Result<T, Stop>
        requires { F.IsAlwaysCallable change }
        ensures thread { self.new.thread ≡ self.old.thread }
        ensures within { IfOk result (IsGivenBack given_in given (op.RwLock (lock_op.GetMut lock.now.number)) (λ guard value. op.RwLock (lock_op.Put lock.now.number value)) (FnOnceReturnsAtMut F.FnOnce change) self.old.told self.new.told) }
        ensures stopped { IfErr result (StopsWithin given_in given (op.RwLock (lock_op.GetMut lock.now.number)) (λ guard value. op.RwLock (lock_op.Put lock.now.number value)) (FnOnceReturnsAtMut F.FnOnce change) self.old.told self.new) }
    {
        let Given(mut value) = self.ask(lock.get_mut().request)?;
        let answer = change(&mut value);
        self.ask::<()>(lock.put(value).request)?;
        Ok(answer)
    }

    /// What the lock held, and it is no more: a later operation of it is a misuse, and so is this one while a thread reads or writes
    /// (loom's `sync/rwlock.rs`).
    pub fn into_inner_rw_lock(&mut self, lock: RwLock) -> Result<D, Stop>
        ensures thread { self.new.thread ≡ self.old.thread }
        ensures tells { IfOk result (λ answer. Tells given_in (op.RwLock (lock_op.IntoInner lock.number)) self.old.told self.new.told (record { 0 = answer })) }
        ensures stopped { IfErr result (Stops given_in (op.RwLock (lock_op.IntoInner lock.number)) self.old.told self.new) }
    {
        let Given(value) = self.ask(lock.into_inner().request)?;
        Ok(value)
    }
}
