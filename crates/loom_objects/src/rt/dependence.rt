//! The last accesses to each object, and what each thread is ordered after (loom's `rt/object.rs`, `rt/execution.rs`).

ghost use Rattle.std.specs.Prelude.{◌≡◌, ◌≢◌, Bool, false, true, ℕ, ◌+◌, ◌<◌, ◌++◌, cond, length, slice_get, slice_index_or, IfOk, IfErr, OnOk, OnErr, Some};
ghost use Rattle.loom_objects.specs.declared.rt.dependence.Action.{Action};
ghost use Rattle.loom_objects.specs.Dependence.Order.{Order, opening, copies, grown, depends_on, unordered_by, unordered, after_use};
ghost use Rattle.loom_objects.specs.Dependence.Shown.{CountsOrder, Keeps, KeepsAs, ShowsOrder, nothing, slot_of, joined_last, copies_of};

use crate::rt::access::{LastAccess, LastAccesses};
use loom_views::rt::MAX_THREADS;
use loom_views::rt::failure::FailureKind;
use loom_views::rt::vv::VersionVec;
use loom_views::sequence::Sequence;
use std::alloc::{AllocError, Global};

/// What an operation does to its object, as far as others depend on it.
#[derive(Clone, Copy, PartialEq, Eq)]
pub enum Action {
    /// It loads from an atomic.
    Read,
    /// It stores to an atomic, or may.
    Change,
    /// It makes one counted reference more.
    Increment,
    /// It drops a counted reference, or tests whether it has the one reference alone.
    Decrement,
    /// It reads how many counted references there are.
    Inspect,
    /// It sends to a channel.
    Send,
    /// It receives from a channel.
    Receive,
    /// It uses a lock, a condition variable, a notifier or a place for a waker.
    Other,
}

/// An object that a pending operation is on, and what the operation does to it.
#[derive(Clone, Copy, PartialEq, Eq)]
pub struct Use {
    /// The number of the object.
    pub object: usize,
    /// What is done to it.
    pub action: Action,
}

/// The last accesses to each object, and what each thread is ordered after (loom's `dpor_vv` of `rt/thread.rs`, and the
/// accesses that its objects keep).
#[derive(Drop)]
pub struct Dependence {
    threads: Sequence<VersionVec>,
    last: Sequence<LastAccesses>,
}

impl Dependence {
    /// Main alone, and no object. An error where memory for main's vector is refused (loom's `rt/execution.rs`).
    pub fn new(alloc: Global) -> Result<Dependence, AllocError>
        ensures { IfOk result (λ dependence. (is_ordered : Bool) → Keeps is_ordered opening dependence) }
    {
        let mut threads = Sequence::new(alloc);
        threads.push(VersionVec::new())?;
        Ok(Dependence {
            threads,
            last: Sequence::new(alloc),
        })
    }

    /// Main alone again, and no object. The room for them stays. An error where memory for main's vector is refused (own).
    pub fn restart(&mut self) -> Result<(), AllocError>
        ensures { IfOk result (λ _. (is_ordered : Bool) → Keeps is_ordered opening self.new) }
    {
        self.threads.clear();
        self.threads.push(VersionVec::new())?;
        self.last.clear();
        Ok(())
    }

    /// A copy. An error where memory is refused (own).
    pub fn try_clone(&self, alloc: Global) -> Result<Dependence, AllocError>
        ensures { IfOk result (λ copy. copy ≡ self.now) }
    {
        Ok(Dependence {
            threads: self.threads.try_clone(alloc)?,
            last: self.last.try_clone(alloc)?,
        })
    }

    /// It becomes a copy of another one, in the room that it has. An error where memory is refused (own).
    pub fn copy_from(&mut self, other: &Dependence) -> Result<(), AllocError>
        ensures { IfOk result (λ _. self.new ≡ other.now) }
    {
        self.threads.copy_from(other.threads.as_slice())?;
        self.last.copy_from(other.last.as_slice())
    }

    /// Of how many threads there are accesses in order (own).
    pub fn thread_count(&self) -> usize
        ensures { result ≡ length self.now.threads }
    {
        self.threads.len()
    }

    /// So many threads more, which begin where the parent is, and so many objects more; the order is kept, or the counts alone. An
    /// error only where some are made and memory for them is refused (loom's `rt/execution.rs` and `rt/object.rs`).
    // Inlined: it is called at each operation, and few make anything.
    #[inline(always)]
    pub fn grow(
        &mut self,
        is_ordered: bool,
        parent: usize,
        threads: usize,
        objects: usize,
    ) -> Result<(), AllocError>
        ensures grown { (o : Order) → Keeps is_ordered o self.old → IfOk result (λ _. Keeps is_ordered (grown parent threads objects o) self.new) }
        ensures growth { IfErr result (λ _. 0 < threads + objects) }
    {
        if threads == 0 && objects == 0 {
            return Ok(());
        }
        if is_ordered {
            self.grow_order(parent, threads, objects)
        } else {
            self.grow_counts(parent, threads)
        }
    }

    /// So many threads more, which begin where the parent is, and so many objects more. An error only where some are made and
    /// memory for them is refused.
    #[inline(always)]
    fn grow_order(
        &mut self,
        parent: usize,
        threads: usize,
        objects: usize,
    ) -> Result<(), AllocError>
        ensures grown { (o : Order) → ShowsOrder o self.old → IfOk result (λ _. ShowsOrder (grown parent threads objects o) self.new) }
        ensures growth { IfErr result (λ _. 0 < threads + objects) }
    {
        self.add_threads(parent, threads)?;
        self.add_objects(objects)
    }

    /// So many threads more, which have made no access, if the parent is there. An error only where some are made and memory for
    /// them is refused.
    #[inline(always)]
    fn grow_counts(&mut self, parent: usize, threads: usize) -> Result<(), AllocError>
        ensures grown { (o : Order) → (objects : ℕ) → CountsOrder o self.old → IfOk result (λ _. CountsOrder (grown parent threads objects o) self.new) }
        ensures growth { IfErr result (λ _. 0 < threads) }
    {
        if threads == 0 {
            return Ok(());
        }
        if parent >= self.threads.len() {
            return Ok(());
        }
        append_copies(&mut self.threads, VersionVec::new(), threads)
    }

    /// So many threads more, which begin where the parent is, if it is there. An error where memory is refused.
    #[inline(always)]
    fn add_threads(&mut self, parent: usize, count: usize) -> Result<(), AllocError>
        ensures added { OnOk result (self.new.threads ≡ self.old.threads ++ copies_of count (slice_get self.old.threads parent)) }
        ensures kept { self.new.last ≡ self.old.last }
        ensures growth { OnErr result (0 < count) }
    {
        if count == 0 {
            return Ok(());
        }
        if parent >= self.threads.len() {
            return Ok(());
        }
        let view = *self.threads.at(parent);
        append_copies(&mut self.threads, view, count)
    }

    /// So many objects more, without accesses. An error where memory is refused.
    #[inline(always)]
    fn add_objects(&mut self, count: usize) -> Result<(), AllocError>
        ensures added { OnOk result (self.new.last ≡ self.old.last ++ copies count nothing) }
        ensures kept { self.new.threads ≡ self.old.threads }
        ensures growth { OnErr result (0 < count) }
    {
        if count == 0 {
            return Ok(());
        }
        append_copies(&mut self.last, LastAccesses::new(), count)
    }

    /// For each thread, by what it is about to do, the place of the last access that this depends on, where the thread isn't
    /// ordered after that access (loom's `schedule` of `rt/execution.rs`).
    #[inline(always)]
    pub fn unordered(&self, uses: &[Option<Use>; MAX_THREADS]) -> [Option<usize>; MAX_THREADS]
        ensures { (o : Order) → ShowsOrder o self.now → result ≡ unordered o uses.now }
    {
        let mut places = [None; MAX_THREADS];
        for thread in 0..MAX_THREADS {
            places[thread] = self.unordered_by(thread, uses[thread]);
        }
        places
    }

    /// For this thread, by what it is about to do, the place of the last access that this depends on, where the thread isn't
    /// ordered after that access.
    #[inline(always)]
    fn unordered_by(&self, thread: usize, used: Option<Use>) -> Option<usize>
        ensures { (o : Order) → ShowsOrder o self.now → result ≡ unordered_by o thread used }
    {
        let used = used?;
        if thread >= self.threads.len() {
            return None;
        }
        let access = self.last_before(used)?;
        if access.view.is_within(self.threads.at(thread)) {
            None
        } else {
            Some(access.place)
        }
    }

    /// A thread is chosen by the schedule at this place, and uses an object: it comes after the last access that this depends
    /// on. The order is kept, or the counts alone. `TooManyVersions` where the thread has done so 65,534 times, `Misuse` where there
    /// is no such thread (loom's `schedule` of `rt/execution.rs`; the limit is own).
    #[inline(always)]
    pub fn record(
        &mut self,
        is_ordered: bool,
        thread: usize,
        used: Use,
        place: usize,
    ) -> Result<(), FailureKind>
        requires { thread < 5 }
        ensures { (o : Order) → Keeps is_ordered o self.old → KeepsAs is_ordered (after_use thread used place o) result self.new }
    {
        if is_ordered {
            self.record_order(thread, used, place)
        } else {
            self.count(thread)
        }
    }

    /// A thread comes after the last access that this use depends on, and raises.
    #[inline(always)]
    fn record_order(&mut self, thread: usize, used: Use, place: usize) -> Result<(), FailureKind>
        requires { thread < 5 }
        ensures { (o : Order) → ShowsOrder o self.old → KeepsAs true (after_use thread used place o) result self.new }
    {
        if thread >= self.threads.len() {
            return Err(FailureKind::Misuse);
        }
        let mut view = joined(*self.threads.at(thread), self.last_before(used));
        if !view.inc(thread) {
            return Err(FailureKind::TooManyVersions);
        }
        *self.threads.at_mut(thread) = view;
        self.note(used, LastAccess { view, place });
        Ok(())
    }

    /// A thread raises.
    #[inline(always)]
    fn count(&mut self, thread: usize) -> Result<(), FailureKind>
        requires { thread < 5 }
        ensures { (o : Order) → (used : Use) → (place : ℕ) → CountsOrder o self.old → KeepsAs false (after_use thread used place o) result self.new }
    {
        if thread >= self.threads.len() {
            return Err(FailureKind::Misuse);
        }
        let mut view = *self.threads.at(thread);
        if !view.inc(thread) {
            return Err(FailureKind::TooManyVersions);
        }
        *self.threads.at_mut(thread) = view;
        Ok(())
    }

    /// The last access that this use depends on, and none to an object that isn't there.
    fn last_before(&self, used: Use) -> Option<LastAccess>
        ensures { result ≡ slot_of used.action (slice_index_or self.now.last used.object nothing) }
    {
        if used.object < self.last.len() {
            self.last.at(used.object).last_before(used.action)
        } else {
            None
        }
    }

    /// The access is the last to its object that it is to be. Nothing happens where there is no such object.
    fn note(&mut self, used: Use, access: LastAccess)
        ensures threads { self.new.threads ≡ self.old.threads }
        ensures objects { length self.new.last ≡ length self.old.last }
        ensures others { (n : ℕ) → n ≢ used.object → slice_index_or self.new.last n nothing ≡ slice_index_or self.old.last n nothing }
        ensures noted { used.object < length self.old.last → (asked : Action) → slot_of asked (slice_index_or self.new.last used.object nothing) ≡
            cond (depends_on asked used.action) (Some access) (slot_of asked (slice_index_or self.old.last used.object nothing)) }
    {
        if used.object < self.last.len() {
            self.last.at_mut(used.object).note(used.action, &access);
        }
    }
}

/// A vector, joined with that of an access.
fn joined(own: VersionVec, access: Option<LastAccess>) -> VersionVec
    ensures { result ≡ joined_last own access }
{
    let mut view = own;
    if let Some(access) = access {
        view.join(&access.view);
    }
    view
}

/// So many values more, all the same. An error where memory is refused.
fn append_copies<T: Copy>(items: &mut Sequence<T>, value: T, count: usize) -> Result<(), AllocError>
    ensures appended { OnOk result (items.new ≡ items.old ++ copies count value) }
    ensures growth { OnErr result (0 < count) }
{
    for _ in 0..count {
        items.push(value)?;
    }
    Ok(())
}
