//! The views of a run: those of its threads, and what each of its objects keeps of them.
//!
//! A thread or an object that isn't there is no error of these calls' own making: a move that only carries views then does
//! nothing, and one that answers something answers `Misuse`. Source: loom's `rt/execution.rs` and `rt/object.rs`, where each
//! thread and each object keeps its own.

pub mod packed;
pub mod places;
pub mod ranked;

ghost use Rattle.std.specs.Prelude.{ℕ, IfSome, ◌≡◌, ◌++◌, ◌∷◌, ◌<◌, ◌≤◌, [], Ok, Err, IfOk, OnErr, OnOk, length, slice_get};
ghost use Rattle.loom_views.specs.declared.rt.failure.FailureKind.TheVariants.{Misuse};
ghost use Rattle.loom_views.specs.declared.rt.views.Kept.TheVariants.{Point};
ghost use Rattle.loom_views.specs.Versions.{zeros};
ghost use Rattle.loom_views.specs.Views.{Points, ShowsViews, MovesAs, LoadsAs, StoresAs, OffersAs, IsSlotKept, opening, points_after_raise, points_after_acquire, points_after_release, points_after_release_fence, points_after_yield, points_with_point, points_with_stamp, points_after_stamp, points_after_stamp_release, points_after_stamp_acquire, points_after_spawn, points_after_join, points_with_atomic, points_after_load, points_after_store, points_after_update_read, points_after_update_write, points_after_update_fail, points_after_unsync_load, points_after_with_mut, points_after_with_mut_end, points_after_acquire_fence, points_after_meet_global, points_after_fence, points_with_cell, points_after_read, points_after_write, readable_slots_of};

use crate::rt::atomic::State;
use crate::rt::atomic::reader::Reader;
use crate::rt::cell::AccessRecords;
use crate::rt::failure::FailureKind;
use crate::rt::ranks::Standing;
use crate::rt::synchronize::{Synchronize, ThreadViews};
use crate::rt::views::places::Places;
use crate::rt::views::ranked::copied;
use crate::rt::vv::VersionVec;
use crate::rt::{MAX_ATOMIC_HISTORY, MAX_THREADS};
use crate::sequence::Sequence;
use std::alloc::{AllocError, Global};
use std::sync::atomic::Ordering;

/// What is kept of an object (own; loom's objects keep it each for itself).
#[derive(Clone, Copy)]
pub enum Kept {
    /// Of one at which threads synchronize: its view.
    Point(Synchronize),
    /// Of an atomic: its last stores.
    Atomic(State),
    /// Of a cell: the views of its accesses.
    Cell(AccessRecords),
}

/// The views of the threads of a run, what each object keeps of views, in the order made, and the global view, at which
/// sequentially consistent fences meet.
#[derive(Drop)]
pub struct Views {
    threads: [ThreadViews; MAX_THREADS],
    count: usize,
    places: Places,
    // of messages and of other values that keep what their maker had released
    stamps: Sequence<Synchronize>,
    global: VersionVec,
}

impl Views {
    /// Main alone, and no object. It takes no memory yet (loom's `rt/execution.rs`).
    pub fn new(alloc: Global) -> Views
        ensures { ShowsViews opening result }
    {
        Views {
            threads: [ThreadViews::new(); MAX_THREADS],
            count: 1,
            places: Places::new(alloc),
            stamps: Sequence::new(alloc),
            global: VersionVec::new(),
        }
    }

    /// A copy. An error where memory is refused (own).
    pub fn try_clone(&self, alloc: Global) -> Result<Views, AllocError>
        ensures { IfOk result (λ copy. copy ≡ self.now) }
    {
        Ok(Views {
            threads: copied(&self.threads),
            count: self.count,
            places: self.places.try_clone(alloc)?,
            stamps: self.stamps.try_clone(alloc)?,
            global: self.global,
        })
    }

    /// They become a copy of others, in the room that they have. An error where memory is refused (own).
    pub fn copy_from(&mut self, other: &Views) -> Result<(), AllocError>
        ensures { IfOk result (λ _. self.new ≡ other.now) }
    {
        self.places.copy_from(&other.places)?;
        self.stamps.copy_from(other.stamps.as_slice())?;
        self.threads = copied(&other.threads);
        self.count = other.count;
        self.global = other.global;
        Ok(())
    }

    /// Main alone again, and no object. It takes no memory, and the room for objects stays (own).
    pub fn restart(&mut self)
        ensures { ShowsViews opening self.new }
    {
        let threads = [ThreadViews::new(); MAX_THREADS];
        self.threads = threads;
        self.count = 1;
        self.places.clear();
        self.stamps.clear();
        self.global = VersionVec::new();
    }

    /// A thread raises its version. `TooManyVersions` where it has raised 65,534 times, `Misuse` where there is no such
    /// thread; then nothing changes (loom's `rt/vv.rs`; the limit is own).
    pub fn raise(&mut self, thread: usize) -> Result<(), FailureKind>
        ensures shown { (p : Points) → ShowsViews p self.old → MovesAs (points_after_raise p thread) result self.new }
        ensures err { OnErr result (self.new ≡ self.old) }
    {
        if thread >= self.count || thread >= MAX_THREADS {
            return Err(FailureKind::Misuse);
        }
        let mut views = self.threads[thread];
        if !views.raise(thread) {
            return Err(FailureKind::TooManyVersions);
        }
        self.threads[thread] = views;
        Ok(())
    }

    /// A thread acquires from an object that threads synchronize at (loom's `rt/synchronize.rs`).
    pub fn acquire(&mut self, thread: usize, place: usize)
        ensures { (p : Points) → ShowsViews p self.old → ShowsViews (points_after_acquire p thread place) self.new }
    {
        if thread >= self.count || thread >= MAX_THREADS || place >= self.places.len() {
            return;
        }
        let mut views = self.threads[thread];
        if let Kept::Point(sync) = self.places.at(place) {
            sync.sync_load(&mut views, Ordering::Acquire);
            self.threads[thread] = views;
        }
    }

    /// A thread releases to an object that threads synchronize at, by an ordering (loom's `rt/synchronize.rs`).
    pub fn release(&mut self, thread: usize, place: usize, order: Ordering)
        ensures { (p : Points) → ShowsViews p self.old → ShowsViews (points_after_release p thread place order) self.new }
    {
        if thread >= self.count || thread >= MAX_THREADS || place >= self.places.len() {
            return;
        }
        let views = self.threads[thread];
        if let Kept::Point(sync) = self.places.at_mut(place) {
            sync.sync_store(&views, order);
        }
    }

    /// One more stamp, which nobody has released to. It answers its number. An error where a growth was refused; then nothing
    /// changes (own; loom's channels keep a copy of their point with each message, and its lazy values a point each).
    pub fn add_stamp(&mut self) -> Result<usize, AllocError>
        ensures number { OnOk result (result ≡ Ok (length self.old.stamps)) }
        ensures shown { (p : Points) → ShowsViews p self.old → OnOk result (ShowsViews (points_with_stamp p) self.new) }
        ensures err { OnErr result (self.new ≡ self.old) }
    {
        let number = self.stamps.len();
        self.stamps.push(Synchronize::new())?;
        Ok(number)
    }

    /// The stamp is a copy of the point of an object that threads synchronize at (loom's `rt/mpsc.rs`).
    pub fn stamp(&mut self, place: usize, stamp: usize)
        ensures { (p : Points) → ShowsViews p self.old → ShowsViews (points_after_stamp p place stamp) self.new }
    {
        if place >= self.places.len() || stamp >= self.stamps.len() {
            return;
        }
        if let Kept::Point(sync) = self.places.at(place) {
            *self.stamps.at_mut(stamp) = *sync;
        }
    }

    /// A thread releases to a stamp, by an ordering (loom's `lazy_static.rs`).
    pub fn release_to_stamp(&mut self, thread: usize, stamp: usize, order: Ordering)
        ensures { (p : Points) → ShowsViews p self.old → ShowsViews (points_after_stamp_release p thread stamp order) self.new }
    {
        if thread >= self.count || thread >= MAX_THREADS || stamp >= self.stamps.len() {
            return;
        }
        let views = self.threads[thread];
        self.stamps.at_mut(stamp).sync_store(&views, order);
    }

    /// A thread acquires from a stamp (loom's `rt/mpsc.rs` and `lazy_static.rs`).
    pub fn acquire_from_stamp(&mut self, thread: usize, stamp: usize)
        ensures { (p : Points) → ShowsViews p self.old → ShowsViews (points_after_stamp_acquire p thread stamp) self.new }
    {
        if thread >= self.count || thread >= MAX_THREADS || stamp >= self.stamps.len() {
            return;
        }
        let mut views = self.threads[thread];
        self.stamps
            .at(stamp)
            .sync_load(&mut views, Ordering::Acquire);
        self.threads[thread] = views;
    }

    /// A thread's release fence: its later stores release what has come to it so far (loom's `rt/atomic.rs`).
    pub fn release_fence(&mut self, thread: usize)
        ensures { (p : Points) → ShowsViews p self.old → ShowsViews (points_after_release_fence p thread) self.new }
    {
        if thread >= self.count || thread >= MAX_THREADS {
            return;
        }
        let mut views = self.threads[thread];
        views.release_fence();
        self.threads[thread] = views;
    }

    /// A thread's acquire fence: through all atomics in the order made, and the kept stores of each from the oldest, it
    /// acquires from each store that it has seen by then (loom's `rt/atomic.rs`).
    pub fn acquire_fence(&mut self, thread: usize)
        ensures { (p : Points) → ShowsViews p self.old → ShowsViews (points_after_acquire_fence p thread) self.new }
    {
        if thread >= self.count || thread >= MAX_THREADS {
            return;
        }
        let mut views = self.threads[thread];
        for place in 0..self.places.len() {
            if let Kept::Atomic(state) = self.places.at(place) {
                state.acquire_fence(&mut views);
            }
        }
        self.threads[thread] = views;
    }

    /// A thread takes in the global view, and then the global view takes in the thread's (loom's `rt/thread.rs`).
    pub fn meet_global(&mut self, thread: usize)
        ensures { (p : Points) → ShowsViews p self.old → ShowsViews (points_after_meet_global p thread) self.new }
    {
        if thread >= self.count || thread >= MAX_THREADS {
            return;
        }
        let mut views = self.threads[thread];
        views.meet(&mut self.global);
        self.threads[thread] = views;
    }

    /// A fence of a thread that has raised its version, by an ordering. A relaxed one does nothing: that there is none such is
    /// for the caller to say (loom's `rt/atomic.rs`).
    pub fn fence(&mut self, thread: usize, order: Ordering)
        ensures { (p : Points) → ShowsViews p self.old → ShowsViews (points_after_fence p thread order) self.new }
    {
        match order {
            Ordering::Relaxed => {}
            Ordering::Acquire => self.acquire_fence(thread),
            Ordering::Release => self.release_fence(thread),
            Ordering::AcqRel => {
                self.acquire_fence(thread);
                self.release_fence(thread);
            }
            Ordering::SeqCst => {
                self.acquire_fence(thread);
                self.release_fence(thread);
                self.meet_global(thread);
            }
        }
    }

    /// A thread yields: its own version is kept as that of its last yield (loom's `rt/thread.rs`).
    pub fn mark_yield(&mut self, thread: usize)
        ensures { (p : Points) → ShowsViews p self.old → ShowsViews (points_after_yield p thread) self.new }
    {
        if thread >= self.count || thread >= MAX_THREADS {
            return;
        }
        let mut views = self.threads[thread];
        views.last_yield = Some(views.present.version(thread));
        self.threads[thread] = views;
    }

    /// Adds an object that threads synchronize at. An error where a growth was refused; then nothing changes (loom's
    /// `rt/synchronize.rs`).
    pub fn add_point(&mut self) -> Result<(), AllocError>
        ensures shown { (p : Points) → ShowsViews p self.old → OnOk result (ShowsViews (points_with_point p) self.new) }
        ensures err { OnErr result (self.new ≡ self.old) }
    {
        self.places.push(Kept::Point(Synchronize::new()))
    }

    /// A thread spawns the next one. Refused in this order, with nothing changed: `Misuse` where there is no such thread,
    /// `TooManyThreads` where there are five, `TooManyVersions` where the thread has raised 65,534 times (loom's
    /// `rt/execution.rs`; the last limit is own).
    pub fn spawn(&mut self, parent: usize) -> Result<(), FailureKind>
        ensures shown { (p : Points) → ShowsViews p self.old → MovesAs (points_after_spawn p parent) result self.new }
        ensures err { OnErr result (self.new ≡ self.old) }
    {
        if parent >= self.count || parent >= MAX_THREADS {
            return Err(FailureKind::Misuse);
        }
        let child = self.count;
        if child >= MAX_THREADS {
            return Err(FailureKind::TooManyThreads);
        }
        let mut views = self.threads[parent];
        let Some(child_views) = views.spawn(parent, child) else {
            return Err(FailureKind::TooManyVersions);
        };
        self.threads[parent] = views;
        self.threads[child] = child_views;
        self.count = child + 1;
        Ok(())
    }

    /// A thread takes in another one's present view, as at a join (loom's `rt/execution.rs`).
    pub fn join_thread(&mut self, thread: usize, other: usize)
        ensures { (p : Points) → ShowsViews p self.old → ShowsViews (points_after_join p thread other) self.new }
    {
        if thread >= self.count || thread >= MAX_THREADS {
            return;
        }
        if other >= self.count || other >= MAX_THREADS {
            return;
        }
        let mut views = self.threads[thread];
        views.acquire(&self.threads[other].present);
        self.threads[thread] = views;
    }

    /// A thread makes an atomic. An error where a growth was refused; then nothing changes (loom's `rt/atomic.rs`).
    #[inline(always)]
    pub fn add_atomic(&mut self, thread: usize, value: u64) -> Result<(), AllocError>
        ensures shown { (p : Points) → ShowsViews p self.old → OnOk result (ShowsViews (points_with_atomic p thread value) self.new) }
        ensures err { OnErr result (self.new ≡ self.old) }
    {
        if thread >= self.count || thread >= MAX_THREADS {
            return Ok(());
        }
        let views = self.threads[thread];
        self.places
            .push(Kept::Atomic(State::new(thread, &views, value)))
    }

    /// The slots of an atomic that a reader may choose, once the thread has raised its version. `OrdersEqual` where two stores
    /// have equal places in the modification order, which no run meets (law `crate::laws::choices_never_meet_equal_orders`),
    /// `Misuse` where there is no such thread or atomic (loom's `rt/atomic.rs`).
    pub fn readable(
        &self,
        thread: usize,
        place: usize,
        reader: Reader,
    ) -> Result<[bool; MAX_ATOMIC_HISTORY], FailureKind>
        ensures { (p : Points) → ShowsViews p self.now → OffersAs (readable_slots_of p thread place reader) result }
    {
        if thread >= self.count || thread >= MAX_THREADS || place >= self.places.len() {
            return Err(FailureKind::Misuse);
        }
        let views = self.threads[thread];
        match self.places.at(place) {
            Kept::Atomic(state) => state.readable(thread, &views, reader),
            _ => Err(FailureKind::Misuse),
        }
    }

    /// A thread, which has raised its version, loads from the store in a slot of an atomic, and answers its value.
    /// `OpenAccess` while a mutation is open, `Race` with one that the thread doesn't know of, `Misuse` where there is no such
    /// thread, atomic or slot; then nothing changes (loom's `rt/atomic.rs`).
    pub fn load(
        &mut self,
        thread: usize,
        place: usize,
        slot: usize,
        order: Ordering,
    ) -> Result<u64, FailureKind>
        ensures shown { (p : Points) → ShowsViews p self.old → IsSlotKept (slice_get p.places place) slot →
            LoadsAs (points_after_load p thread place slot order) result self.new }
        ensures no_slot { 7 ≤ slot → result ≡ Err Misuse }
        ensures err { OnErr result (self.new ≡ self.old) }
    {
        if thread >= self.count || thread >= MAX_THREADS || place >= self.places.len() {
            return Err(FailureKind::Misuse);
        }
        if slot >= MAX_ATOMIC_HISTORY {
            return Err(FailureKind::Misuse);
        }
        let mut views = self.threads[thread];
        match self.places.at_mut(place) {
            Kept::Atomic(state) => {
                let answer = state.load(thread, &mut views, slot, order);
                self.threads[thread] = views;
                answer
            }
            _ => Err(FailureKind::Misuse),
        }
    }

    /// A thread, which has raised its version, stores to an atomic. `OpenAccess` while a mutation is open, `Race` with
    /// one or with a load beside atomics that the thread doesn't know of, `TooManyStores` at the 65,536th, `Misuse` where there
    /// is no such thread or atomic; then nothing changes (loom's `rt/atomic.rs`).
    pub fn store(
        &mut self,
        thread: usize,
        place: usize,
        value: u64,
        order: Ordering,
    ) -> Result<(), FailureKind>
        ensures shown { (p : Points) → ShowsViews p self.old → StoresAs (points_after_store p thread place value order) result self.new }
        ensures err { OnErr result (self.new ≡ self.old) }
    {
        if thread >= self.count || thread >= MAX_THREADS || place >= self.places.len() {
            return Err(FailureKind::Misuse);
        }
        let views = self.threads[thread];
        match self.places.at_mut(place) {
            Kept::Atomic(state) => state.store(thread, &views, value, order),
            _ => Err(FailureKind::Misuse),
        }
    }

    /// A thread, which has raised its version, reads for a read-modify-write from the store in a slot of an atomic, and answers
    /// its value. It fails as a load does (loom's `rt/atomic.rs`).
    pub fn update_read(
        &mut self,
        thread: usize,
        place: usize,
        slot: usize,
    ) -> Result<u64, FailureKind>
        ensures shown { (p : Points) → ShowsViews p self.old → IsSlotKept (slice_get p.places place) slot →
            LoadsAs (points_after_update_read p thread place slot) result self.new }
        ensures no_slot { 7 ≤ slot → result ≡ Err Misuse }
        ensures err { OnErr result (self.new ≡ self.old) }
    {
        if thread >= self.count || thread >= MAX_THREADS || place >= self.places.len() {
            return Err(FailureKind::Misuse);
        }
        if slot >= MAX_ATOMIC_HISTORY {
            return Err(FailureKind::Misuse);
        }
        let views = self.threads[thread];
        match self.places.at_mut(place) {
            Kept::Atomic(state) => state.update_read(thread, &views, slot),
            _ => Err(FailureKind::Misuse),
        }
    }

    /// A thread that has read the store in a slot writes for a read-modify-write that succeeds: the new store goes on
    /// releasing what that store released. It fails as a store does, and with `Misuse` where there is no such slot (loom's
    /// `rt/atomic.rs`).
    pub fn update_write(
        &mut self,
        thread: usize,
        place: usize,
        slot: usize,
        value: u64,
        success: Ordering,
    ) -> Result<(), FailureKind>
        ensures shown { (p : Points) → ShowsViews p self.old → IsSlotKept (slice_get p.places place) slot →
            StoresAs (points_after_update_write p thread place slot value success) result self.new }
        ensures no_slot { 7 ≤ slot → result ≡ Err Misuse }
        ensures err { OnErr result (self.new ≡ self.old) }
    {
        if thread >= self.count || thread >= MAX_THREADS || place >= self.places.len() {
            return Err(FailureKind::Misuse);
        }
        if slot >= MAX_ATOMIC_HISTORY {
            return Err(FailureKind::Misuse);
        }
        let mut views = self.threads[thread];
        match self.places.at_mut(place) {
            Kept::Atomic(state) => {
                let answer = state.update_write(thread, &mut views, slot, value, success);
                self.threads[thread] = views;
                answer
            }
            _ => Err(FailureKind::Misuse),
        }
    }

    /// A thread that has read the store in a slot ends a read-modify-write that fails: a load by the failure ordering (loom's
    /// `rt/atomic.rs`).
    pub fn update_fail(&mut self, thread: usize, place: usize, slot: usize, failure: Ordering)
        ensures { (p : Points) → ShowsViews p self.old → IsSlotKept (slice_get p.places place) slot →
            ShowsViews (points_after_update_fail p thread place slot failure) self.new }
    {
        if thread >= self.count || thread >= MAX_THREADS || place >= self.places.len() {
            return;
        }
        if slot >= MAX_ATOMIC_HISTORY {
            return;
        }
        let mut views = self.threads[thread];
        if let Kept::Atomic(state) = self.places.at(place) {
            state.update_fail(&mut views, slot, failure);
            self.threads[thread] = views;
        }
    }

    /// A thread loads the newest value of an atomic without synchronizing. `OpenAccess` while a mutation is open, `Race` with
    /// a store or a mutation that the thread doesn't know of, `Misuse` where there is no such thread or atomic (loom's
    /// `rt/atomic.rs`).
    pub fn unsync_load(&mut self, thread: usize, place: usize) -> Result<u64, FailureKind>
        ensures shown { (p : Points) → ShowsViews p self.old → LoadsAs (points_after_unsync_load p thread place) result self.new }
        ensures err { OnErr result (self.new ≡ self.old) }
    {
        if thread >= self.count || thread >= MAX_THREADS || place >= self.places.len() {
            return Err(FailureKind::Misuse);
        }
        let views = self.threads[thread];
        match self.places.at_mut(place) {
            Kept::Atomic(state) => state.unsync_load(&views),
            _ => Err(FailureKind::Misuse),
        }
    }

    /// A thread opens a mutation of an atomic, and is answered the newest value. `OpenAccess` while another is open, `Race`
    /// with any access that the thread doesn't know of, `Misuse` where there is no such thread or atomic (loom's
    /// `rt/atomic.rs`).
    pub fn with_mut(&mut self, thread: usize, place: usize) -> Result<u64, FailureKind>
        ensures shown { (p : Points) → ShowsViews p self.old → LoadsAs (points_after_with_mut p thread place) result self.new }
        ensures err { OnErr result (self.new ≡ self.old) }
    {
        if thread >= self.count || thread >= MAX_THREADS || place >= self.places.len() {
            return Err(FailureKind::Misuse);
        }
        let views = self.threads[thread];
        match self.places.at_mut(place) {
            Kept::Atomic(state) => state.with_mut(&views),
            _ => Err(FailureKind::Misuse),
        }
    }

    /// A thread closes a mutation of an atomic, with the value that it leaves. `Race` with any access that the thread
    /// doesn't know of, `Misuse` where there is no such thread or atomic (loom's `rt/atomic.rs`).
    pub fn with_mut_end(
        &mut self,
        thread: usize,
        place: usize,
        value: u64,
    ) -> Result<(), FailureKind>
        ensures shown { (p : Points) → ShowsViews p self.old → StoresAs (points_after_with_mut_end p thread place value) result self.new }
        ensures err { OnErr result (self.new ≡ self.old) }
    {
        if thread >= self.count || thread >= MAX_THREADS || place >= self.places.len() {
            return Err(FailureKind::Misuse);
        }
        let views = self.threads[thread];
        match self.places.at_mut(place) {
            Kept::Atomic(state) => state.with_mut_end(&views, value),
            _ => Err(FailureKind::Misuse),
        }
    }

    /// A thread makes a cell. An error where a growth was refused; then nothing changes (loom's `rt/cell.rs`).
    pub fn add_cell(&mut self, thread: usize) -> Result<(), AllocError>
        ensures shown { (p : Points) → ShowsViews p self.old → OnOk result (ShowsViews (points_with_cell p thread) self.new) }
        ensures err { OnErr result (self.new ≡ self.old) }
    {
        if thread >= self.count || thread >= MAX_THREADS {
            return Ok(());
        }
        let views = self.threads[thread];
        self.places.push(Kept::Cell(AccessRecords::new(&views)))
    }

    /// A thread reads a cell, which is recorded. `Race` with a write that the thread doesn't know of, `Misuse` where there is no
    /// such thread or cell; then nothing changes (loom's `rt/cell.rs`).
    pub fn read(&mut self, thread: usize, place: usize) -> Result<(), FailureKind>
        ensures shown { (p : Points) → ShowsViews p self.old → MovesAs (points_after_read p thread place) result self.new }
        ensures err { OnErr result (self.new ≡ self.old) }
    {
        if thread >= self.count || thread >= MAX_THREADS || place >= self.places.len() {
            return Err(FailureKind::Misuse);
        }
        let views = self.threads[thread];
        match self.places.at_mut(place) {
            Kept::Cell(records) => records.read(&views),
            _ => Err(FailureKind::Misuse),
        }
    }

    /// A thread writes a cell, which is recorded. `Race` with a write or a read that the thread doesn't know of, `Misuse` where
    /// there is no such thread or cell; then nothing changes (loom's `rt/cell.rs`).
    pub fn write(&mut self, thread: usize, place: usize) -> Result<(), FailureKind>
        ensures shown { (p : Points) → ShowsViews p self.old → MovesAs (points_after_write p thread place) result self.new }
        ensures err { OnErr result (self.new ≡ self.old) }
    {
        if thread >= self.count || thread >= MAX_THREADS || place >= self.places.len() {
            return Err(FailureKind::Misuse);
        }
        let views = self.threads[thread];
        match self.places.at_mut(place) {
            Kept::Cell(records) => records.write(&views),
            _ => Err(FailureKind::Misuse),
        }
    }
}

impl Kept {
    /// Adds its counts.
    fn stand(&self, standing: &mut Standing) {
        match self {
            Kept::Point(view) => view.stand(standing),
            Kept::Atomic(state) => state.stand(standing),
            Kept::Cell(records) => records.stand(standing),
        }
    }
}
