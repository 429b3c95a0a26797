//! What the active thread does to the views of a run, and to its threads and objects where these grow.
ghost use Rattle.loom_views.specs.Views.{Points, ShowsViews, MovesAs, LoadsAs, StoresAs, OffersAs, IsSlotKept};
ghost use Rattle.std.specs.Prelude.{◌≡◌, ◌++◌, ◌∷◌, [], ◌≤◌, Ok, Err, OnOk, OnErr, length, slice_get};
ghost use Rattle.std.specs.declared.sync.atomic.Ordering.TheVariants.{AcqRel, Release};
ghost use Rattle.loom_objects.specs.Rules.Moves.{joined_points};
ghost use Rattle.loom_views.specs.Views as table;
ghost use Rattle.loom_views.specs.declared.rt.failure.FailureKind.TheVariants.{Misuse};

use crate::rt::atomic::Atomic;
use crate::rt::cell::Cell;
use crate::rt::object::Object;
use crate::rt::scene::Scene;
use loom_views::rt::MAX_ATOMIC_HISTORY;
use loom_views::rt::atomic::reader::Reader;
use loom_views::rt::failure::FailureKind;
use std::alloc::AllocError;
use std::sync::atomic::Ordering;

impl<D: Drop> Scene<D> {
    /// A new object, at which no thread has synchronized. It answers its number.
    #[inline(always)]
    pub fn add(&mut self, object: Object<D>) -> Result<usize, AllocError>
        ensures number { OnOk result (result ≡ Ok (length self.old.objects)) }
        ensures views { (p : Points) → ShowsViews p self.old.views → OnOk result (ShowsViews (table.points_with_point p) self.new.views) }
        ensures rest { OnOk result (self.new ≡ record self.old { objects = self.old.objects ++ object ∷ []; views = self.new.views }) }
    {
        let number = self.objects.len();
        self.objects.push(object)?;
        self.views.add_point()?;
        Ok(number)
    }

    /// A new atomic with this value, which the active thread stores. It answers its number.
    pub fn add_atomic(&mut self, atomic: Atomic, value: u64) -> Result<usize, AllocError>
        ensures number { OnOk result (result ≡ Ok (length self.old.objects)) }
        ensures views { (p : Points) → ShowsViews p self.old.views → OnOk result (ShowsViews (table.points_with_atomic p self.old.active value) self.new.views) }
        ensures rest { OnOk result (self.new ≡ record self.old { objects = self.old.objects ++ Object.Atomic atomic ∷ []; views = self.new.views }) }
    {
        let number = self.objects.len();
        self.objects.push(Object::Atomic(atomic))?;
        self.views.add_atomic(self.active as usize, value)?;
        Ok(number)
    }

    /// A new cell, which the active thread writes. It answers its number.
    pub fn add_cell(&mut self, cell: Cell<D>) -> Result<usize, AllocError>
        ensures number { OnOk result (result ≡ Ok (length self.old.objects)) }
        ensures views { (p : Points) → ShowsViews p self.old.views → OnOk result (ShowsViews (table.points_with_cell p self.old.active) self.new.views) }
        ensures rest { OnOk result (self.new ≡ record self.old { objects = self.old.objects ++ Object.Cell cell ∷ []; views = self.new.views }) }
    {
        let number = self.objects.len();
        self.objects.push(Object::Cell(cell))?;
        self.views.add_cell(self.active as usize)?;
        Ok(number)
    }

    /// The active thread's view goes to a thread that is about to be made. `TooManyVersions` where the active thread has
    /// raised 65,534 times; then nothing changes.
    pub fn spawn_view(&mut self) -> Result<(), FailureKind>
        ensures shown { (p : Points) → ShowsViews p self.old.views → MovesAs (table.points_after_spawn p self.old.active) result self.new.views }
        ensures rest { self.new ≡ record self.old { views = self.new.views } }
        ensures err { OnErr result (self.new ≡ self.old) }
    {
        self.views.spawn(self.active as usize)
    }

    /// The active thread raises its version. `TooManyVersions` where it has 65,534 times; then nothing changes.
    pub fn raise(&mut self) -> Result<(), FailureKind>
        ensures shown { (p : Points) → ShowsViews p self.old.views → MovesAs (table.points_after_raise p self.old.active) result self.new.views }
        ensures rest { self.new ≡ record self.old { views = self.new.views } }
        ensures err { OnErr result (self.new ≡ self.old) }
    {
        self.views.raise(self.active as usize)
    }

    /// It acquires from the object of this number.
    pub fn acquire(&mut self, number: usize)
        ensures views { (p : Points) → ShowsViews p self.old.views → ShowsViews (table.points_after_acquire p self.old.active number) self.new.views }
        ensures rest { self.new ≡ record self.old { views = self.new.views } }
    {
        self.views.acquire(self.active as usize, number);
    }

    /// It releases to the object of this number.
    pub fn release(&mut self, number: usize)
        ensures views { (p : Points) → ShowsViews p self.old.views → ShowsViews (table.points_after_release p self.old.active number Release) self.new.views }
        ensures rest { self.new ≡ record self.old { views = self.new.views } }
    {
        self.views
            .release(self.active as usize, number, Ordering::Release);
    }

    /// One more stamp, which nobody has released to. It answers its number.
    pub fn add_stamp(&mut self) -> Result<usize, AllocError>
        ensures number { (p : Points) → ShowsViews p self.old.views → OnOk result (result ≡ Ok (length p.stamps)) }
        ensures views { (p : Points) → ShowsViews p self.old.views → OnOk result (ShowsViews (table.points_with_stamp p) self.new.views) }
        ensures rest { OnOk result (self.new ≡ record self.old { views = self.new.views }) }
    {
        self.views.add_stamp()
    }

    /// The stamp is the point of the object of this number, as that is now.
    pub fn stamp(&mut self, number: usize, stamp: usize)
        ensures views { (p : Points) → ShowsViews p self.old.views → ShowsViews (table.points_after_stamp p number stamp) self.new.views }
        ensures rest { self.new ≡ record self.old { views = self.new.views } }
    {
        self.views.stamp(number, stamp);
    }

    /// It releases to the stamp, and takes nothing in.
    pub fn release_to_stamp(&mut self, stamp: usize)
        ensures views { (p : Points) → ShowsViews p self.old.views → ShowsViews (table.points_after_stamp_release p self.old.active stamp AcqRel) self.new.views }
        ensures rest { self.new ≡ record self.old { views = self.new.views } }
    {
        self.views
            .release_to_stamp(self.active as usize, stamp, Ordering::AcqRel);
    }

    /// It acquires from the stamp.
    pub fn acquire_from_stamp(&mut self, stamp: usize)
        ensures views { (p : Points) → ShowsViews p self.old.views → ShowsViews (table.points_after_stamp_acquire p self.old.active stamp) self.new.views }
        ensures rest { self.new ≡ record self.old { views = self.new.views } }
    {
        self.views.acquire_from_stamp(self.active as usize, stamp);
    }

    /// It makes a fence.
    pub fn fence(&mut self, order: Ordering)
        ensures views { (p : Points) → ShowsViews p self.old.views → ShowsViews (table.points_after_fence p self.old.active order) self.new.views }
        ensures rest { self.new ≡ record self.old { views = self.new.views } }
    {
        self.views.fence(self.active as usize, order);
    }

    /// Its version is kept as that of its last yield.
    pub fn mark_yield(&mut self)
        ensures views { (p : Points) → ShowsViews p self.old.views → ShowsViews (table.points_after_yield p self.old.active) self.new.views }
        ensures rest { self.new ≡ record self.old { views = self.new.views } }
    {
        self.views.mark_yield(self.active as usize);
    }

    /// The thread of this number takes in the active thread's view.
    pub fn join_view(&mut self, thread: u8)
        ensures views { (p : Points) → ShowsViews p self.old.views → ShowsViews (table.points_after_join p thread self.old.active) self.new.views }
        ensures rest { self.new ≡ record self.old { views = self.new.views } }
    {
        self.views
            .join_thread(thread as usize, self.active as usize);
    }

    /// Who waits, if any thread does, takes in the active thread's view.
    pub fn join_waiters_view(&mut self, waiter: Option<u8>)
        ensures views { (p : Points) → ShowsViews p self.old.views → ShowsViews (joined_points waiter self.old.active p) self.new.views }
        ensures rest { self.new ≡ record self.old { views = self.new.views } }
    {
        if let Some(waiter) = waiter {
            self.join_view(waiter);
        }
    }

    /// It reads the cell of this number. `Race` with a write that the thread doesn't know of; then nothing changes.
    pub fn read_cell(&mut self, number: usize) -> Result<(), FailureKind>
        ensures shown { (p : Points) → ShowsViews p self.old.views → MovesAs (table.points_after_read p self.old.active number) result self.new.views }
        ensures rest { self.new ≡ record self.old { views = self.new.views } }
        ensures err { OnErr result (self.new ≡ self.old) }
    {
        self.views.read(self.active as usize, number)
    }

    /// It writes the cell of this number. `Race` with a write or a read that the thread doesn't know of; then nothing changes.
    pub fn write_cell(&mut self, number: usize) -> Result<(), FailureKind>
        ensures shown { (p : Points) → ShowsViews p self.old.views → MovesAs (table.points_after_write p self.old.active number) result self.new.views }
        ensures rest { self.new ≡ record self.old { views = self.new.views } }
        ensures err { OnErr result (self.new ≡ self.old) }
    {
        self.views.write(self.active as usize, number)
    }

    /// The slots of the atomic of this number that it may read, once it has raised its version. `OrdersEqual` where two
    /// stores have equal places in the modification order.
    pub fn readable(
        &self,
        number: usize,
        reader: Reader,
    ) -> Result<[bool; MAX_ATOMIC_HISTORY], FailureKind>
        ensures { (p : Points) → ShowsViews p self.now.views → OffersAs (table.readable_slots_of p self.now.active number reader) result }
    {
        self.views.readable(self.active as usize, number, reader)
    }

    /// It loads from the store in a slot of the atomic of this number, and answers its value. `OpenAccess` while a mutation is
    /// open, `Race` with one that the thread doesn't know of; then nothing changes.
    pub fn load(&mut self, number: usize, slot: usize, order: Ordering) -> Result<u64, FailureKind>
        ensures shown { (p : Points) → ShowsViews p self.old.views → IsSlotKept (slice_get p.places number) slot → LoadsAs (table.points_after_load p self.old.active number slot order) result self.new.views }
        ensures no_slot { 7 ≤ slot → result ≡ Err Misuse }
        ensures rest { self.new ≡ record self.old { views = self.new.views } }
        ensures err { OnErr result (self.new ≡ self.old) }
    {
        self.views.load(self.active as usize, number, slot, order)
    }

    /// It stores to the atomic of this number. `OpenAccess` while a mutation is open, `Race` with one or with a load beside
    /// atomics that the thread doesn't know of, `TooManyStores` at the 65,536th; then nothing changes.
    pub fn store(&mut self, number: usize, value: u64, order: Ordering) -> Result<(), FailureKind>
        ensures shown { (p : Points) → ShowsViews p self.old.views → StoresAs (table.points_after_store p self.old.active number value order) result self.new.views }
        ensures rest { self.new ≡ record self.old { views = self.new.views } }
        ensures err { OnErr result (self.new ≡ self.old) }
    {
        self.views.store(self.active as usize, number, value, order)
    }

    /// It reads from the store in a slot, as a read-modify-write begins, and answers its value. It fails as a load does.
    pub fn update_read(&mut self, number: usize, slot: usize) -> Result<u64, FailureKind>
        ensures shown { (p : Points) → ShowsViews p self.old.views → IsSlotKept (slice_get p.places number) slot → LoadsAs (table.points_after_update_read p self.old.active number slot) result self.new.views }
        ensures no_slot { 7 ≤ slot → result ≡ Err Misuse }
        ensures rest { self.new ≡ record self.old { views = self.new.views } }
        ensures err { OnErr result (self.new ≡ self.old) }
    {
        self.views.update_read(self.active as usize, number, slot)
    }

    /// It stores after the one in a slot that it has read, as a read-modify-write that succeeds ends: the new store goes on
    /// releasing what that one released. It fails as a store does.
    pub fn update_write(
        &mut self,
        number: usize,
        slot: usize,
        value: u64,
        order: Ordering,
    ) -> Result<(), FailureKind>
        ensures shown { (p : Points) → ShowsViews p self.old.views → IsSlotKept (slice_get p.places number) slot → StoresAs (table.points_after_update_write p self.old.active number slot value order) result self.new.views }
        ensures no_slot { 7 ≤ slot → result ≡ Err Misuse }
        ensures rest { self.new ≡ record self.old { views = self.new.views } }
        ensures err { OnErr result (self.new ≡ self.old) }
    {
        self.views
            .update_write(self.active as usize, number, slot, value, order)
    }

    /// It ends a read-modify-write that fails: a load by the failure ordering from the slot that it has read.
    pub fn update_fail(&mut self, number: usize, slot: usize, failure: Ordering)
        ensures views { (p : Points) → ShowsViews p self.old.views → IsSlotKept (slice_get p.places number) slot → ShowsViews (table.points_after_update_fail p self.old.active number slot failure) self.new.views }
        ensures rest { self.new ≡ record self.old { views = self.new.views } }
    {
        self.views
            .update_fail(self.active as usize, number, slot, failure);
    }

    /// It loads the newest value of the atomic of this number without synchronizing. `OpenAccess` while a mutation is open,
    /// `Race` with a store or a mutation that the thread doesn't know of; then nothing changes.
    pub fn unsync_load(&mut self, number: usize) -> Result<u64, FailureKind>
        ensures shown { (p : Points) → ShowsViews p self.old.views → LoadsAs (table.points_after_unsync_load p self.old.active number) result self.new.views }
        ensures rest { self.new ≡ record self.old { views = self.new.views } }
        ensures err { OnErr result (self.new ≡ self.old) }
    {
        self.views.unsync_load(self.active as usize, number)
    }

    /// It opens a mutation of the atomic of this number, and is answered the newest value. `OpenAccess` while another is open,
    /// `Race` with any access that the thread doesn't know of; then nothing changes.
    pub fn with_mut(&mut self, number: usize) -> Result<u64, FailureKind>
        ensures shown { (p : Points) → ShowsViews p self.old.views → LoadsAs (table.points_after_with_mut p self.old.active number) result self.new.views }
        ensures rest { self.new ≡ record self.old { views = self.new.views } }
        ensures err { OnErr result (self.new ≡ self.old) }
    {
        self.views.with_mut(self.active as usize, number)
    }

    /// It closes the mutation, with the value that it leaves. `Race` with any access that the thread doesn't know of; then
    /// nothing changes.
    pub fn with_mut_end(&mut self, number: usize, value: u64) -> Result<(), FailureKind>
        ensures shown { (p : Points) → ShowsViews p self.old.views → StoresAs (table.points_after_with_mut_end p self.old.active number value) result self.new.views }
        ensures rest { self.new ≡ record self.old { views = self.new.views } }
        ensures err { OnErr result (self.new ≡ self.old) }
    {
        self.views.with_mut_end(self.active as usize, number, value)
    }
}
