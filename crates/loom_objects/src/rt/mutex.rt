//! Mutexes: who holds them, and what the operations of `Mutex` do (loom's `rt/mutex.rs`).
ghost use Rattle.std.specs.Borrow.{sem};
ghost use Rattle.loom_objects.specs.Scene.Lends.{lends_in_scene, lends_kind};
ghost use Rattle.loom_objects.specs.Scene.Lookup.{now_of, shown_of};
ghost use Rattle.loom_objects.specs.Scene.Lookup as lookup;
ghost use Rattle.loom_objects.specs.contracts.rt.mutex.Mutex as mutex_row;
ghost use Rattle.loom_objects.specs.Lent.{handed_out, lent_to, taken_apart};
ghost use Rattle.loom_objects.specs.Rules.Mutex.{free_value};
ghost use Rattle.std.specs.Prelude.{◌≡◌, OnSome, IfNone, Some, IfOk, OnErr, true};
ghost use Rattle.loom_objects.specs.Rules.Mutex as rules;
ghost use Rattle.loom_objects.specs.Scene.Stage.{Does, DoesIfOk};

use crate::data::Data;
use crate::operation::{MutexOp, Reply};
use crate::rt::kept::Kept;
pub use crate::rt::lent::Lent;
use crate::rt::object::{Object, of_kind};
use crate::rt::run::Entry;
use crate::rt::scene::Scene;
use crate::rt::thread::{Locking, Task};
use loom_views::rt::failure::FailureKind;
use loom_views::same::Same;
use std::alloc::{AllocError, Global};

/// A mutex (loom's `rt/mutex.rs`).
#[derive(Drop)]
pub struct Mutex<D> {
    /// The thread that holds it, and has its data.
    pub holder: Option<u8>,
    /// Its data.
    pub content: Lent<D>,
}

impl<D: Drop> Mutex<D> {
    /// The thread holds it from now on, and is given the data. None where it was taken apart, is held or the data is out: then
    /// nothing changes.
    pub fn hold(&mut self, thread: u8) -> Option<D>
        ensures value { result ≡ free_value self.old }
        ensures held { OnSome result (self.new ≡ record self.old { holder = Some thread; content = handed_out self.old.content }) }
        ensures none { IfNone result (self.new ≡ self.old) }
    {
        if self.holder.is_some() {
            return None;
        }
        let value = self.content.take()?;
        self.holder = Some(thread);
        Some(value)
    }

    /// The thread has the data without holding it. None where it was taken apart, is held or the data is out: then nothing
    /// changes.
    pub fn lend(&mut self, thread: u8) -> Option<D>
        ensures value { result ≡ free_value self.old }
        ensures lent { OnSome result (self.new ≡ record self.old { content = lent_to thread self.old.content }) }
        ensures none { IfNone result (self.new ≡ self.old) }
    {
        if self.holder.is_some() {
            return None;
        }
        self.content.lend(thread)
    }

    /// It is taken apart. None where it was before, is held or the data is out: then nothing changes.
    pub fn take_apart(&mut self) -> Option<D>
        ensures value { result ≡ free_value self.old }
        ensures taken { OnSome result (self.new ≡ record self.old { content = taken_apart self.old.content }) }
        ensures none { IfNone result (self.new ≡ self.old) }
    {
        if self.holder.is_some() {
            return None;
        }
        self.content.take_apart()
    }
}

impl<D> Object<D> {
    /// The mutex that it is, to change, unless it was taken apart. Misuse where it is none.
    fn as_mutex_mut(&mut self) -> Result<&mut Mutex<D>, FailureKind>
        ensures* writes_back { sem 𝓛 (lends_kind D.row (mutex_row.the_row D.row) Object.Mutex self.entry result) }
        ensures value { now_of result ≡ lookup.mutex_in self.old }
    {
        of_kind!(self, Mutex(mutex) if !mutex.content.is_taken)
    }
}

impl<D: Drop> Scene<D> {
    /// The mutex of this number, to read. Misuse where there is none, or it was taken apart.
    pub fn mutex(&self, number: usize) -> Result<&Mutex<D>, FailureKind>
        ensures { shown_of result ≡ lookup.mutex_at number self.now.objects }
    {
        of_kind!(self.object(number)?, Mutex(mutex) if !mutex.content.is_taken)
    }

    /// The mutex of this number, to change. Misuse where there is none, or it was taken apart.
    #[tactic(auto, using(crate::proofs::Scene::Finding::object_kept))]
    pub fn mutex_mut(&mut self, number: usize) -> Result<&mut Mutex<D>, FailureKind>
        ensures* writes_back { sem 𝓛 (lends_in_scene D.row (mutex_row.the_row D.row) Object.Mutex self.entry number result) }
        ensures value { now_of result ≡ lookup.mutex_at number self.old.objects }
    {
        self.object_mut(number)?.as_mutex_mut()
    }
}

/// The reply to a thread that holds the mutex from now on: no time of a wait runs out.
fn locked_reply<D>(locking: Locking, number: usize, value: D) -> Reply<D>
    ensures { result ≡ rules.locked_reply locking number value }
{
    match locking {
        Locking::Untimed => Reply::Locked(number, value),
        Locking::Timed => Reply::Waited(number, value, false),
    }
}

/// What an operation on a mutex does up to its branch point, or all of it. The outer error only where memory is refused.
pub fn mutex_begins<D: Drop>(
    scene: &mut Scene<D>,
    op: MutexOp<D>,
) -> Result<Result<Entry<D>, FailureKind>, AllocError>
    ensures does { IfOk result (λ answer. Does (rules.mutex_begins op) scene.old answer scene.new) }
    ensures growth { OnErr result (rules.needs_memory op ≡ true) }
{
    let begun = match op {
        MutexOp::New(value) => Ok(mutex_new(scene, value)?),
        MutexOp::Lock(number) => lock_begins(scene, number),
        MutexOp::TryLock(number) => try_lock_begins(scene, number),
        MutexOp::Release(number, value) => release(scene, number, value),
        MutexOp::GetMut(number) => mutex_get_mut(scene, number),
        MutexOp::Put(number, value) => mutex_put(scene, number, value),
        MutexOp::IntoInner(number) => mutex_into_inner(scene, number),
    };
    Ok(begun)
}

fn mutex_new<D: Drop>(scene: &mut Scene<D>, value: D) -> Result<Entry<D>, AllocError>
    ensures { DoesIfOk (rules.mutex_new value) scene.old result scene.new }
{
    let mutex = Mutex {
        holder: None,
        content: Lent::new(value),
    };
    let number = scene.add(Object::Mutex(mutex))?;
    Ok(Entry::Answered(Reply::Mutex(number)))
}

/// The thread reaches a branch point, and is blocked there while the mutex is held.
fn lock_begins<D: Drop>(scene: &mut Scene<D>, number: usize) -> Result<Entry<D>, FailureKind>
    ensures { Does (rules.lock_begins number) scene.old result scene.new }
{
    let mutex = scene.mutex(number)?;
    let is_held = mutex.holder.is_some();
    scene.pend(Task::Lock(Locking::Untimed, number), is_held);
    Ok(Entry::AtBranch)
}

/// The thread reaches a branch point, at which it is blocked only where another thread comes first.
fn try_lock_begins<D: Drop>(scene: &mut Scene<D>, number: usize) -> Result<Entry<D>, FailureKind>
    ensures { Does (rules.try_lock_begins number) scene.old result scene.new }
{
    scene.mutex(number)?;
    scene.pend(Task::TryLock(number), false);
    Ok(Entry::AtBranch)
}

/// The active thread holds the mutex from now on and acquires, and who is pending on it is blocked.
#[inline(always)]
pub fn lock<D: Drop>(
    scene: &mut Scene<D>,
    locking: Locking,
    number: usize,
) -> Result<Reply<D>, FailureKind>
    ensures { Does (rules.lock locking number) scene.old result scene.new }
{
    let active = scene.active();
    let mutex = scene.mutex_mut(number)?;
    let value = mutex.hold(active).ok_or(FailureKind::Misuse)?;
    scene.acquire(number);
    scene.block_pending(number);
    Ok(locked_reply(locking, number, value))
}

/// The active thread holds the mutex from now on, unless one does already.
pub fn try_lock<D: Drop>(scene: &mut Scene<D>, number: usize) -> Result<Reply<D>, FailureKind>
    ensures { Does (rules.try_lock number) scene.old result scene.new }
{
    let mutex = scene.mutex(number)?;
    if mutex.content.lent.is_some() {
        return Err(FailureKind::Misuse);
    }
    if mutex.holder.is_some() {
        return Ok(Reply::WouldBlock);
    }
    lock(scene, Locking::Untimed, number)
}

/// The active thread releases, the mutex is free and has its data back, and who is pending on it is woken.
#[inline(always)]
pub fn set_free<D: Drop>(scene: &mut Scene<D>, number: usize, value: D) -> Result<(), FailureKind>
    ensures { Does (rules.frees number value) scene.old result scene.new }
{
    let active = scene.active();
    let mutex = scene.mutex_mut(number)?;
    match mutex.holder {
        Some(holder) if holder == active => {}
        _ => return Err(FailureKind::Misuse),
    }
    mutex.holder = None;
    mutex.content.value = Some(value);
    scene.release(number);
    scene.wake_pending(number);
    Ok(())
}

#[inline(always)]
fn release<D: Drop>(scene: &mut Scene<D>, number: usize, value: D) -> Result<Entry<D>, FailureKind>
    ensures { Does (rules.release number value) scene.old result scene.new }
{
    set_free(scene, number, value)?;
    Ok(Entry::Answered(Reply::Done))
}

/// The data of a mutex that nobody holds goes out.
fn mutex_get_mut<D: Drop>(scene: &mut Scene<D>, number: usize) -> Result<Entry<D>, FailureKind>
    ensures { Does (rules.mutex_get_mut number) scene.old result scene.new }
{
    let active = scene.active();
    let mutex = scene.mutex_mut(number)?;
    let value = mutex.lend(active).ok_or(FailureKind::Misuse)?;
    Ok(Entry::Answered(Reply::Data(value)))
}

/// The thread that has the data out puts some back.
fn mutex_put<D: Drop>(
    scene: &mut Scene<D>,
    number: usize,
    value: D,
) -> Result<Entry<D>, FailureKind>
    ensures { Does (rules.mutex_put number value) scene.old result scene.new }
{
    let active = scene.active();
    let mutex = scene.mutex_mut(number)?;
    if !mutex.content.put(active, value) {
        return Err(FailureKind::Misuse);
    }
    Ok(Entry::Answered(Reply::Done))
}

/// The data of a mutex that nobody holds, after which it is taken apart.
fn mutex_into_inner<D: Drop>(scene: &mut Scene<D>, number: usize) -> Result<Entry<D>, FailureKind>
    ensures { Does (rules.mutex_into_inner number) scene.old result scene.new }
{
    let mutex = scene.mutex_mut(number)?;
    let value = mutex.take_apart().ok_or(FailureKind::Misuse)?;
    Ok(Entry::Answered(Reply::Data(value)))
}

impl<D: Data + Same> Kept for Mutex<D> {
    fn copied(&self, alloc: Global) -> Result<Mutex<D>, AllocError> {
        Ok(Mutex {
            holder: self.holder,
            content: self.content.copied(alloc)?,
        })
    }

    fn is_equal(&self, other: &Mutex<D>) -> bool {
        self.holder.is_same(&other.holder) && self.content.is_equal(&other.content)
    }
}
