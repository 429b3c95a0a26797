//! Read-write locks: their readers and their writer, and what the operations of `RwLock` do to them (loom's `rt/rwlock.rs`).
ghost use Rattle.std.specs.Borrow.{sem};
ghost use Rattle.loom_objects.specs.Scene.Lends.{lends_in_scene, lends_kind};
ghost use Rattle.loom_objects.specs.Scene.Lookup.{now_of, shown_of};
ghost use Rattle.loom_objects.specs.Scene.Lookup as lookup;
ghost use Rattle.loom_objects.specs.contracts.rt.rwlock.RwLock as rwlock_row;
ghost use Rattle.std.specs.Prelude.{◌≡◌, OnSome, IfNone, Some, IfOk, OnErr, true};
ghost use Rattle.loom_objects.specs.Lent.{handed_out, lent_to, taken_apart, value_in};
ghost use Rattle.loom_objects.specs.Rules.RwLock as rules;
ghost use Rattle.loom_objects.specs.Scene.Stage.{Does, DoesIfOk};
ghost use Rattle.loom_objects.specs.Stages.LockCopy.{Copies};

use crate::data::Data;
use crate::operation::{Reply, RwLockOp};
use crate::rt::kept::Kept;
pub use crate::rt::lent::Lent;
use crate::rt::object::{Object, of_kind};
use crate::rt::readers::{copied_counts, none_reads, reads_of};
use crate::rt::run::Entry;
use crate::rt::scene::Scene;
use crate::rt::thread::{Claim, Task};
use loom_views::rt::MAX_THREADS;
use loom_views::rt::failure::FailureKind;
use loom_views::same::{Same, are_same};
use std::alloc::{AllocError, Global};

/// A read-write lock (loom's `rt/rwlock.rs`).
#[derive(Drop)]
pub struct RwLock<D> {
    /// Its data.
    pub content: Lent<D>,
    /// How many guards for reading each thread has.
    pub readers: [u64; MAX_THREADS],
    /// The thread that has it for writing, and has its data.
    pub writer: Option<u8>,
}

impl<D: Drop> RwLock<D> {
    /// How many guards for reading the thread has.
    pub fn guards_of(&self, thread: u8) -> u64
        ensures { result ≡ rules.guards_of thread self.now }
    {
        reads_of(&self.readers, thread)
    }

    /// The thread has so many guards for reading now.
    pub fn set_guards(&mut self, thread: u8, count: u64)
        ensures { self.new ≡ rules.with_guards thread count self.old }
    {
        if (thread as usize) < MAX_THREADS {
            self.readers[thread as usize] = count;
        }
    }

    /// A guard of the thread for reading ends. Answers whether no thread has one then; None where this one has none, and then
    /// nothing changes.
    pub fn end_read(&mut self, thread: u8) -> Option<bool>
        ensures result { result ≡ rules.unread_after thread self.old }
        ensures ended { OnSome result (self.new ≡ rules.with_one_fewer thread self.old) }
        ensures none { IfNone result (self.new ≡ self.old) }
    {
        let count = self.guards_of(thread);
        if count == 0 {
            return None;
        }
        self.set_guards(thread, count - 1);
        Some(self.is_unread())
    }

    /// No thread has a guard for reading.
    fn is_unread(&self) -> bool
        ensures { result ≡ rules.is_unread self.now }
    {
        none_reads(&self.readers)
    }

    /// A thread writes or some read.
    fn is_held(&self) -> bool
        ensures { result ≡ rules.is_held self.now }
    {
        self.writer.is_some() || !self.is_unread()
    }

    /// A thread that takes the lock so can't have it now.
    pub fn is_refused(&self, claim: Claim) -> bool
        ensures { result ≡ rules.is_refused claim self.now }
    {
        match claim {
            Claim::Read => self.writer.is_some(),
            Claim::TryRead => self.writer.is_some(),
            Claim::Write => self.is_held(),
            Claim::TryWrite => self.is_held(),
        }
    }

    /// The thread writes from now on, and is given the data. None where that is out: then nothing changes.
    pub fn hold(&mut self, thread: u8) -> Option<D>
        ensures value { result ≡ value_in self.old.content }
        ensures held { OnSome result (self.new ≡ record self.old { writer = Some thread; content = handed_out self.old.content }) }
        ensures none { IfNone result (self.new ≡ self.old) }
    {
        let value = self.content.take()?;
        self.writer = Some(thread);
        Some(value)
    }

    /// The thread has the data without holding it. None where it is held or the data is out: then nothing changes.
    pub fn lend(&mut self, thread: u8) -> Option<D>
        ensures value { result ≡ rules.unlocked_value self.old }
        ensures lent { OnSome result (self.new ≡ record self.old { content = lent_to thread self.old.content }) }
        ensures none { IfNone result (self.new ≡ self.old) }
    {
        if self.is_held() {
            return None;
        }
        self.content.lend(thread)
    }

    /// It is taken apart. None where it is held or the data is out: then nothing changes.
    pub fn take_apart(&mut self) -> Option<D>
        ensures value { result ≡ rules.unlocked_value self.old }
        ensures taken { OnSome result (self.new ≡ record self.old { content = taken_apart self.old.content }) }
        ensures none { IfNone result (self.new ≡ self.old) }
    {
        if self.is_held() {
            return None;
        }
        self.content.take_apart()
    }
}

impl<D> Object<D> {
    /// The read-write lock that it is, to change, unless it was taken apart. Misuse where it is none.
    fn as_rwlock_mut(&mut self) -> Result<&mut RwLock<D>, FailureKind>
        ensures* writes_back { sem 𝓛 (lends_kind D.row (rwlock_row.the_row D.row) Object.RwLock self.entry result) }
        ensures value { now_of result ≡ lookup.rwlock_in self.old }
    {
        of_kind!(self, RwLock(lock) if !lock.content.is_taken)
    }
}

impl<D: Drop> Scene<D> {
    /// The read-write lock of this number, to read. Misuse where there is none, or it was taken apart.
    pub fn rwlock(&self, number: usize) -> Result<&RwLock<D>, FailureKind>
        ensures { shown_of result ≡ lookup.rwlock_at number self.now.objects }
    {
        of_kind!(self.object(number)?, RwLock(lock) if !lock.content.is_taken)
    }

    /// The read-write lock of this number, to change. Misuse where there is none, or it was taken apart.
    #[tactic(auto, using(crate::proofs::Scene::Finding::object_kept))]
    pub fn rwlock_mut(&mut self, number: usize) -> Result<&mut RwLock<D>, FailureKind>
        ensures* writes_back { sem 𝓛 (lends_in_scene D.row (rwlock_row.the_row D.row) Object.RwLock self.entry number result) }
        ensures value { now_of result ≡ lookup.rwlock_at number self.old.objects }
    {
        self.object_mut(number)?.as_rwlock_mut()
    }
}

/// Whether a thread that takes a lock so waits for it.
pub fn waits(claim: Claim) -> bool
    ensures { result ≡ rules.waits claim }
{
    match claim {
        Claim::Read | Claim::Write => true,
        Claim::TryRead | Claim::TryWrite => false,
    }
}

/// A guard of the active thread ends, and it releases. Where none is left, who is pending on the lock is woken.
pub fn read_release<D: Drop>(scene: &mut Scene<D>, number: usize) -> Result<Entry<D>, FailureKind>
    ensures { Does (rules.read_release number) scene.old result scene.new }
{
    let active = scene.active();
    let lock = scene.rwlock_mut(number)?;
    let is_unread = lock.end_read(active).ok_or(FailureKind::Misuse)?;
    scene.release(number);
    if is_unread {
        scene.wake_pending(number);
    }
    Ok(Entry::Answered(Reply::Done))
}

/// Whether a thread that takes a lock so reads.
fn is_reading(claim: Claim) -> bool
    ensures { result ≡ rules.is_reading claim }
{
    match claim {
        Claim::Read | Claim::TryRead => true,
        Claim::Write | Claim::TryWrite => false,
    }
}

/// The reply to a claim of a lock that can't be had now. Who waits isn't chosen then.
fn refuse<D>(claim: Claim) -> Result<Reply<D>, FailureKind>
    ensures { result ≡ rules.refusal claim }
{
    match claim {
        Claim::Read | Claim::Write => Err(FailureKind::Misuse),
        Claim::TryRead | Claim::TryWrite => Ok(Reply::WouldBlock),
    }
}

/// Whether a thread that takes the lock so can't have it now. Misuse while its data is out without a guard.
fn is_refused<D: Drop>(scene: &Scene<D>, claim: Claim, number: usize) -> Result<bool, FailureKind>
    ensures { result ≡ rules.refused_at claim number scene.now.objects }
{
    let lock = scene.rwlock(number)?;
    if lock.content.lent.is_some() {
        return Err(FailureKind::Misuse);
    }
    Ok(lock.is_refused(claim))
}

/// The thread takes the lock so. The outer error only where it gets a copy of the data, and memory for it is refused.
pub fn claim<D: Data>(
    scene: &mut Scene<D>,
    claim: Claim,
    number: usize,
) -> Result<Result<Reply<D>, FailureKind>, AllocError>
    ensures does { IfOk result (λ answer. Does (rules.claims claim number) scene.old answer scene.new) }
    ensures growth { OnErr result (Copies number (rules.claims claim number) scene.old) }
    ensures reads { OnErr result (rules.is_reading claim ≡ true) }
{
    match is_refused(scene, claim, number) {
        Err(kind) => Ok(Err(kind)),
        Ok(true) => Ok(refuse(claim)),
        Ok(false) => {
            if is_reading(claim) {
                read_lock(scene, number)
            } else {
                Ok(write_lock(scene, number))
            }
        }
    }
}

/// The active thread has one guard more, acquires and has a copy, and who is pending to write is blocked. The outer error only
/// where memory for the copy is refused.
fn read_lock<D: Data>(
    scene: &mut Scene<D>,
    number: usize,
) -> Result<Result<Reply<D>, FailureKind>, AllocError>
    ensures does { IfOk result (λ answer. Does (rules.reads_at number) scene.old answer scene.new) }
    ensures growth { OnErr result (Copies number (rules.reads_at number) scene.old) }
{
    let lock = match scene.rwlock(number) {
        Ok(lock) => lock,
        Err(kind) => return Ok(Err(kind)),
    };
    let Some(value) = &lock.content.value else {
        return Ok(Err(FailureKind::Misuse));
    };
    let count = lock.guards_of(scene.active());
    if count == u64::MAX {
        return Ok(Err(FailureKind::TooManySteps));
    }
    let copy = value.try_clone()?;
    Ok(guard(scene, number, count + 1, copy))
}

/// The active thread has so many guards for reading now, acquires and has this copy, and who is pending to write is blocked.
fn guard<D: Drop>(
    scene: &mut Scene<D>,
    number: usize,
    count: u64,
    copy: D,
) -> Result<Reply<D>, FailureKind>
    ensures { Does (rules.guards number count copy) scene.old result scene.new }
{
    let reader = scene.active();
    let lock = scene.rwlock_mut(number)?;
    lock.set_guards(reader, count);
    scene.acquire(number);
    scene.block_writers(number);
    Ok(Reply::ReadLocked(number, copy))
}

/// What an operation on a read-write lock does up to its branch point, or all of it. The outer error only where memory is
/// refused.
pub fn rwlock_begins<D: Drop>(
    scene: &mut Scene<D>,
    op: RwLockOp<D>,
) -> Result<Result<Entry<D>, FailureKind>, AllocError>
    ensures does { IfOk result (λ answer. Does (rules.rwlock_begins op) scene.old answer scene.new) }
    ensures growth { OnErr result (rules.needs_memory op ≡ true) }
{
    let begun = match op {
        RwLockOp::New(value) => Ok(rwlock_new(scene, value)?),
        RwLockOp::Read(number) => claim_begins(scene, Claim::Read, number),
        RwLockOp::TryRead(number) => claim_begins(scene, Claim::TryRead, number),
        RwLockOp::ReadRelease(number) => read_release(scene, number),
        RwLockOp::Write(number) => claim_begins(scene, Claim::Write, number),
        RwLockOp::TryWrite(number) => claim_begins(scene, Claim::TryWrite, number),
        RwLockOp::WriteRelease(number, value) => write_release(scene, number, value),
        RwLockOp::GetMut(number) => rwlock_get_mut(scene, number),
        RwLockOp::Put(number, value) => rwlock_put(scene, number, value),
        RwLockOp::IntoInner(number) => rwlock_into_inner(scene, number),
    };
    Ok(begun)
}

fn rwlock_new<D: Drop>(scene: &mut Scene<D>, value: D) -> Result<Entry<D>, AllocError>
    ensures { DoesIfOk (rules.rwlock_new value) scene.old result scene.new }
{
    let lock = RwLock {
        content: Lent::new(value),
        readers: [0; MAX_THREADS],
        writer: None,
    };
    let number = scene.add(Object::RwLock(lock))?;
    Ok(Entry::Answered(Reply::RwLock(number)))
}

/// The thread reaches a branch point, and is blocked there while it waits for the lock.
fn claim_begins<D: Drop>(
    scene: &mut Scene<D>,
    claim: Claim,
    number: usize,
) -> Result<Entry<D>, FailureKind>
    ensures { Does (rules.claim_begins claim number) scene.old result scene.new }
{
    let lock = scene.rwlock(number)?;
    let is_blocked = waits(claim) && lock.is_refused(claim);
    scene.pend(Task::Claim(claim, number), is_blocked);
    Ok(Entry::AtBranch)
}

/// The active thread writes the lock from now on and acquires, and who is pending on it is blocked.
fn write_lock<D: Drop>(scene: &mut Scene<D>, number: usize) -> Result<Reply<D>, FailureKind>
    ensures { Does (rules.writes_at number) scene.old result scene.new }
{
    let active = scene.active();
    let lock = scene.rwlock_mut(number)?;
    let value = lock.hold(active).ok_or(FailureKind::Misuse)?;
    scene.acquire(number);
    scene.block_pending(number);
    Ok(Reply::WriteLocked(number, value))
}

/// The active thread releases, the lock is free and has its data back, and who is pending on it is woken.
fn write_release<D: Drop>(
    scene: &mut Scene<D>,
    number: usize,
    value: D,
) -> Result<Entry<D>, FailureKind>
    ensures { Does (rules.write_release number value) scene.old result scene.new }
{
    let active = scene.active();
    let lock = scene.rwlock_mut(number)?;
    if lock.writer != Some(active) {
        return Err(FailureKind::Misuse);
    }
    lock.writer = None;
    lock.content.value = Some(value);
    scene.release(number);
    scene.wake_pending(number);
    Ok(Entry::Answered(Reply::Done))
}

/// The data of a lock that nobody holds goes out.
fn rwlock_get_mut<D: Drop>(scene: &mut Scene<D>, number: usize) -> Result<Entry<D>, FailureKind>
    ensures { Does (rules.rwlock_get_mut number) scene.old result scene.new }
{
    let active = scene.active();
    let lock = scene.rwlock_mut(number)?;
    let value = lock.lend(active).ok_or(FailureKind::Misuse)?;
    Ok(Entry::Answered(Reply::Data(value)))
}

/// The thread that has the data out puts some back.
fn rwlock_put<D: Drop>(
    scene: &mut Scene<D>,
    number: usize,
    value: D,
) -> Result<Entry<D>, FailureKind>
    ensures { Does (rules.rwlock_put number value) scene.old result scene.new }
{
    let active = scene.active();
    let lock = scene.rwlock_mut(number)?;
    if !lock.content.put(active, value) {
        return Err(FailureKind::Misuse);
    }
    Ok(Entry::Answered(Reply::Done))
}

/// The data of a lock that nobody holds, after which it is taken apart.
fn rwlock_into_inner<D: Drop>(scene: &mut Scene<D>, number: usize) -> Result<Entry<D>, FailureKind>
    ensures { Does (rules.rwlock_into_inner number) scene.old result scene.new }
{
    let lock = scene.rwlock_mut(number)?;
    let value = lock.take_apart().ok_or(FailureKind::Misuse)?;
    Ok(Entry::Answered(Reply::Data(value)))
}

impl<D: Data + Same> Kept for RwLock<D> {
    fn copied(&self, alloc: Global) -> Result<RwLock<D>, AllocError> {
        Ok(RwLock {
            content: self.content.copied(alloc)?,
            readers: copied_counts(&self.readers),
            writer: self.writer,
        })
    }

    fn is_equal(&self, other: &RwLock<D>) -> bool {
        self.writer.is_same(&other.writer)
            && are_same(self.readers.as_slice(), other.readers.as_slice())
            && self.content.is_equal(&other.content)
    }
}
