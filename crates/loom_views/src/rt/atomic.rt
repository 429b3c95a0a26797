//! An atomic: its last stores, and the accesses that may race with later ones. They are plain values; no call here takes memory.
//!
//! A public call speaks of every scene that the vectors show: a graph, the thread's points in it, and the atomic's whole
//! history by points. Slots are numbered from 0: the store with number `n` is kept in slot `n` modulo `MAX_ATOMIC_HISTORY`.
//! The thread has raised its version before the call. Where a call fails, the atomic and the thread's views are as before.
mod choosing;
mod joining;
pub mod reader;
pub mod touches;

ghost use Rattle.std.specs.Prelude.{◌≡◌, ℕ, ◌+◌, ◌-◌, ◌<◌, ◌≤◌, ◌++◌, min, IfOk, IsTrue, List, take, replicate, None, slice_index_or, MatchResult, OnErr, Ok, Err, length, IfSome};
ghost use Rattle.loom_views.specs.InOrder.{PairAll, PairsTouches, PairsStores, PairsStates, Ranked};
ghost use Rattle.loom_views.specs.Limits.{highest_version, most_stores};
ghost use Rattle.loom_views.specs.Packed.{empty_store, whole};
ghost use Rattle.loom_views.specs.declared.rt.atomic.Store.{Store};
ghost use Rattle.loom_views.specs.Versions.{join};
ghost use Rattle.loom_views.specs.Atomic.Touches.{untouched};
ghost use Rattle.loom_views.specs.declared.rt.failure.FailureKind.TheVariants.{TooManyStores};
ghost use Rattle.loom_views.specs.Atomic.Ring.{is_touch_in, is_version_before, touch_version, store_at, state_read, state_made, load_tracked, store_tracked, unsync_load_tracked, unsync_mut_tracked, newest_slot, state_blank};
ghost use Rattle.loom_views.specs.Graph.{Graph, IsChained, IsPresent};
ghost use Rattle.loom_views.specs.ThreadViews.{ThreadPoints, ShowsThread};
ghost use Rattle.loom_views.specs.Atomic.Fences.{standing_in, scene_at, after_store, acquire_fence_step};
ghost use Rattle.loom_views.specs.Atomic.History.{in_slot, Scene, load_step, store_step, update_read_step, update_write_step, update_fail_step, unsync_load_step, mutate_step, mutate_end_step, new_step};
ghost use Rattle.loom_views.specs.Atomic.Shown.{ShowsScene, AnswersAs, FinishesAs};

pub use crate::rt::atomic::reader::Reader;
use crate::rt::atomic::touches::Touches;
use crate::rt::failure::FailureKind;
use crate::rt::ranks::{Ranks, Standing};
use crate::rt::synchronize::{Synchronize, ThreadViews};
use crate::rt::vv::{VersionVec, mixed};
use crate::rt::{MAX_ATOMIC_HISTORY, MAX_STORES};
use crate::same::Same;
use crate::sequence::Sequence;
use std::alloc::AllocError;
use std::sync::atomic::Ordering;

/// For each thread, its own version when it first touched a store (loom's `rt/atomic.rs`).
#[derive(Clone, Copy)]
pub struct FirstSeen {
    versions: Touches,
}

/// A store that is kept (loom's `rt/atomic.rs`).
#[derive(Clone, Copy)]
pub struct Store {
    order: VersionVec,
    sync: Synchronize,
    first_seen: FirstSeen,
    value: u64,
    seq_cst: bool,
}

/// What is kept of an atomic: the last `MAX_ATOMIC_HISTORY` stores, the joined views of the accesses of each kind, and how many
/// stores there were, at most `MAX_STORES` (loom's `rt/atomic.rs`).
#[derive(Clone, Copy)]
pub struct State {
    loaded_at: VersionVec,
    stored_at: VersionVec,
    unsync_loaded_at: VersionVec,
    unsync_mut_at: VersionVec,
    is_mutating: bool,
    stores: [Store; MAX_ATOMIC_HISTORY],
    count: u16,
}

impl FirstSeen {
    /// No thread has touched the store.
    fn new() -> FirstSeen
        ensures { result.versions ≡ untouched }
    {
        FirstSeen {
            versions: Touches::new(),
        }
    }

    /// Records the version where the thread hasn't touched the store before.
    fn touch(&mut self, thread: usize, version: u16)
        requires thread_in { thread < 5 }
        requires counted { version ≤ highest_version }
        ensures { self.new.versions ≡ touch_version self.old.versions thread version }
    {
        if self.versions.at(thread).is_none() {
            self.versions.set(thread, version);
        }
    }

    /// Whether a touch is in this view.
    fn is_seen_from(&self, view: &VersionVec) -> bool
        ensures { result ≡ is_touch_in self.now.versions view.now }
    {
        self.versions.is_one_in(view)
    }

    /// Whether the thread touched the store at or before its last yield.
    fn is_before_yield(&self, thread: usize, last_yield: Option<u16>) -> bool
        requires { thread < 5 }
        ensures { result ≡ is_version_before (slice_index_or self.now.versions thread None) last_yield }
    {
        match (self.versions.at(thread), last_yield) {
            (Some(version), Some(at)) => version <= at,
            _ => false,
        }
    }
}

impl State {
    /// How many stores are kept.
    fn kept(&self) -> usize
        ensures { result ≡ min self.now.count 7 }
    {
        usize::from(self.count).min(MAX_ATOMIC_HISTORY)
    }

    /// Whether each slot has a store.
    #[inline(always)]
    fn is_full(&self) -> bool
        ensures { IsTrue result → 7 ≤ self.now.count }
    {
        usize::from(self.count) >= MAX_ATOMIC_HISTORY
    }

    /// Reads the store in a slot. Its order takes in those of the other kept stores that are seen, and the thread touches it. Then
    /// each other kept store whose order contained that order before takes it in as it is now.
    #[inline(always)]
    fn read(&mut self, thread: usize, views: &ThreadViews, slot: usize) -> u64
        requires thread_in { thread < 5 }
        requires slot_in { slot < 7 }
        ensures state { self.new ≡ state_read self.old thread views.now slot }
        ensures value { result ≡ (store_at self.old.stores slot).value }
        ensures sync { (store_at self.new.stores slot).sync ≡ (store_at self.old.stores slot).sync }
    {
        let before = self.stores[slot].order;
        let order = self.with_orders_seen(before, &views.present, Some(slot));
        let version = views.present.version(thread);
        let store = &mut self.stores[slot];
        store.order = order;
        store.first_seen.touch(thread, version);
        let value = store.value;
        self.raise_above(slot, &before, &order);
        value
    }

    /// Makes a store, whose synchronization starts with the given one.
    // Inlined, as `read` is, so that no store is moved from one function to the next.
    #[inline(always)]
    fn push(
        &mut self,
        thread: usize,
        views: &ThreadViews,
        sync: Synchronize,
        value: u64,
        order: Ordering,
    )
        requires thread_in { thread < 5 }
        requires room { self.old.count < most_stores }
        ensures { self.new ≡ state_made self.old thread views.now sync value order }
    {
        let mut sync = sync;
        sync.sync_store(views, order);
        let mut first_seen = FirstSeen::new();
        first_seen.touch(thread, views.present.version(thread));
        let store = Store {
            value,
            order: self.with_orders_seen(views.present, &views.present, None),
            sync,
            first_seen,
            seq_cst: matches!(order, Ordering::SeqCst),
        };
        self.stores[usize::from(self.count) % MAX_ATOMIC_HISTORY] = store;
        self.count += 1;
    }

    /// Makes a store where there is room for another one.
    // Inlined, as what it calls.
    #[inline(always)]
    fn make(
        &mut self,
        thread: usize,
        views: &ThreadViews,
        sync: Synchronize,
        value: u64,
        order: Ordering,
    ) -> Result<(), FailureKind>
        requires { thread < 5 }
        ensures made { MatchResult result (λ _. (self.old.count < most_stores) × (self.new ≡ state_made self.old thread views.now sync value order))
            (λ kind. (self.old.count ≡ most_stores) × (kind ≡ TooManyStores)) }
        ensures err { OnErr result (self.new ≡ self.old) }
    {
        if self.count == MAX_STORES {
            return Err(FailureKind::TooManyStores);
        }
        self.push(thread, views, sync, value, order);
        Ok(())
    }

    /// Tests a load, and records it.
    fn track_load(&mut self, views: &ThreadViews) -> Result<(), FailureKind>
        ensures tested { MatchResult result (λ _. load_tracked self.old views.now ≡ Ok self.new) (λ kind. load_tracked self.old views.now ≡ Err kind) }
        ensures err { OnErr result (self.new ≡ self.old) }
    {
        if self.is_mutating {
            return Err(FailureKind::OpenAccess);
        }
        if !views.is_after(&self.unsync_mut_at) {
            return Err(FailureKind::Race);
        }
        self.loaded_at.join(&views.present);
        Ok(())
    }

    /// Tests a store, which is still to be recorded.
    fn test_store(&self, views: &ThreadViews) -> Result<(), FailureKind>
        ensures { MatchResult result (λ _. store_tracked self.now views.now ≡ Ok (record self.now { stored_at = join self.now.stored_at views.now.present }))
            (λ kind. store_tracked self.now views.now ≡ Err kind) }
    {
        if self.is_mutating {
            return Err(FailureKind::OpenAccess);
        }
        if !views.is_after(&self.unsync_mut_at) || !views.is_after(&self.unsync_loaded_at) {
            return Err(FailureKind::Race);
        }
        Ok(())
    }

    /// Tests a load that doesn't synchronize, and records it.
    fn track_unsync_load(&mut self, views: &ThreadViews) -> Result<(), FailureKind>
        ensures tested { MatchResult result (λ _. unsync_load_tracked self.old views.now ≡ Ok self.new) (λ kind. unsync_load_tracked self.old views.now ≡ Err kind) }
        ensures err { OnErr result (self.new ≡ self.old) }
    {
        if self.is_mutating {
            return Err(FailureKind::OpenAccess);
        }
        if !views.is_after(&self.unsync_mut_at) || !views.is_after(&self.stored_at) {
            return Err(FailureKind::Race);
        }
        self.unsync_loaded_at.join(&views.present);
        Ok(())
    }

    /// Tests a mutation, and records it.
    fn track_unsync_mut(&mut self, views: &ThreadViews) -> Result<(), FailureKind>
        ensures tested { MatchResult result (λ _. unsync_mut_tracked self.old views.now ≡ Ok self.new) (λ kind. unsync_mut_tracked self.old views.now ≡ Err kind) }
        ensures err { OnErr result (self.new ≡ self.old) }
    {
        if self.is_mutating {
            return Err(FailureKind::OpenAccess);
        }
        let loads_inside = views.is_after(&self.loaded_at)
            && views.is_after(&self.unsync_loaded_at);
        let writes_inside = views.is_after(&self.stored_at) && views.is_after(&self.unsync_mut_at);
        if !(loads_inside && writes_inside) {
            return Err(FailureKind::Race);
        }
        self.unsync_mut_at.join(&views.present);
        Ok(())
    }

    /// The slot of the newest store.
    fn newest(&self) -> usize
        ensures slot { result ≡ newest_slot self.now }
        ensures slot_in { result < 7 }
    {
        (usize::from(self.count) + MAX_ATOMIC_HISTORY - 1) % MAX_ATOMIC_HISTORY
    }

    /// Loads from the store in a slot: its value, and its view where the ordering acquires. It is `OpenAccess` while a mutation
    /// is open, and `Race` with a mutation that the thread doesn't know of (loom's `rt/atomic.rs`).
    pub fn load(
        &mut self,
        thread: usize,
        views: &mut ThreadViews,
        slot: usize,
        order: Ordering,
    ) -> Result<u64, FailureKind>
        requires thread_in { thread < 5 }
        requires slot_in { slot < 7 }
        ensures shown { (s : Scene) → ShowsScene thread s views.old self.old → slot < length s.history.stores →
            AnswersAs thread (load_step thread s slot order) result views.new self.new }
        ensures err { OnErr result (self.new ≡ self.old) }
        ensures err_views { OnErr result (views.new ≡ views.old) }
    {
        self.track_load(views)?;
        let value = self.read(thread, views, slot);
        self.stores[slot].sync.sync_load(views, order);
        Ok(value)
    }

    /// Stores a value. It is `OpenAccess` while a mutation is open, `Race` with a mutation or a load that doesn't synchronize
    /// which the thread doesn't know of, and `TooManyStores` after 65,535 stores (loom's `rt/atomic.rs`; the limit is own).
    pub fn store(
        &mut self,
        thread: usize,
        views: &ThreadViews,
        value: u64,
        order: Ordering,
    ) -> Result<(), FailureKind>
        requires { thread < 5 }
        ensures shown { (s : Scene) → ShowsScene thread s views.now self.old → FinishesAs thread (store_step thread s value order) result views.now self.new }
        ensures err { OnErr result (self.new ≡ self.old) }
    {
        self.test_store(views)?;
        self.make(thread, views, Synchronize::new(), value, order)?;
        self.stored_at.join(&views.present);
        Ok(())
    }

    /// Reads for a read-modify-write from the store in a slot. It fails as a load does (loom's `rt/atomic.rs`).
    pub fn update_read(
        &mut self,
        thread: usize,
        views: &ThreadViews,
        slot: usize,
    ) -> Result<u64, FailureKind>
        requires thread_in { thread < 5 }
        requires slot_in { slot < 7 }
        ensures shown { (s : Scene) → ShowsScene thread s views.now self.old → slot < length s.history.stores →
            AnswersAs thread (update_read_step thread s slot) result views.now self.new }
        ensures err { OnErr result (self.new ≡ self.old) }
    {
        self.track_load(views)?;
        Ok(self.read(thread, views, slot))
    }

    /// Writes for a read-modify-write that has read the store in a slot and succeeds: the new store goes on releasing what that
    /// store released. It fails as a store does (loom's `rt/atomic.rs`).
    pub fn update_write(
        &mut self,
        thread: usize,
        views: &mut ThreadViews,
        slot: usize,
        value: u64,
        success: Ordering,
    ) -> Result<(), FailureKind>
        requires thread_in { thread < 5 }
        requires slot_in { slot < 7 }
        ensures shown { (s : Scene) → ShowsScene thread s views.old self.old → slot < length s.history.stores →
            FinishesAs thread (update_write_step thread s slot value success) result views.new self.new }
        ensures err { OnErr result (self.new ≡ self.old) }
        ensures err_views { OnErr result (views.new ≡ views.old) }
    {
        self.test_store(views)?;
        let sync = self.stores[slot].sync;
        let mut loaded = *views;
        sync.sync_load(&mut loaded, success);
        self.make(thread, &loaded, sync, value, success)?;
        self.stored_at.join(&views.present);
        *views = loaded;
        Ok(())
    }

    /// Ends a read-modify-write that has read the store in a slot and fails: a load by the failure ordering (loom's
    /// `rt/atomic.rs`).
    pub fn update_fail(&self, views: &mut ThreadViews, slot: usize, failure: Ordering)
        requires { slot < 7 }
        ensures { (t : ℕ) (s : Scene) → ShowsScene t s views.old self.now → slot < length s.history.stores →
            ShowsScene t (update_fail_step s slot failure) views.new self.now }
    {
        self.stores[slot].sync.sync_fail(views, failure);
    }

    /// Loads the newest value without synchronizing. It is `OpenAccess` while a mutation is open, and `Race` with a store or a
    /// mutation that the thread doesn't know of (loom's `rt/atomic.rs`).
    pub fn unsync_load(&mut self, views: &ThreadViews) -> Result<u64, FailureKind>
        ensures shown { (t : ℕ) (s : Scene) → ShowsScene t s views.now self.old → 0 < length s.history.stores →
            AnswersAs t (unsync_load_step s) result views.now self.new }
        ensures err { OnErr result (self.new ≡ self.old) }
    {
        self.track_unsync_load(views)?;
        Ok(self.stores[self.newest()].value)
    }

    /// Opens a mutation, and gives the newest value. It is `OpenAccess` while another is open, and `Race` with any access that
    /// the thread doesn't know of (loom's `rt/atomic.rs`).
    pub fn with_mut(&mut self, views: &ThreadViews) -> Result<u64, FailureKind>
        ensures shown { (t : ℕ) (s : Scene) → ShowsScene t s views.now self.old → 0 < length s.history.stores →
            AnswersAs t (mutate_step s) result views.now self.new }
        ensures err { OnErr result (self.new ≡ self.old) }
    {
        self.track_unsync_mut(views)?;
        self.is_mutating = true;
        Ok(self.stores[self.newest()].value)
    }

    /// Closes a mutation, with the value that it leaves. It is `Race` with any access that the thread doesn't know of (loom's
    /// `rt/atomic.rs`).
    pub fn with_mut_end(&mut self, views: &ThreadViews, value: u64) -> Result<(), FailureKind>
        ensures shown { (t : ℕ) (s : Scene) → ShowsScene t s views.now self.old → 0 < length s.history.stores →
            FinishesAs t (mutate_end_step s value) result views.now self.new }
        ensures err { OnErr result (self.new ≡ self.old) }
    {
        let newest = self.newest();
        let mut closed = *self;
        closed.is_mutating = false;
        closed.stores[newest].value = value;
        closed.track_unsync_mut(views)?;
        *self = closed;
        Ok(())
    }

    /// A thread acquires from the store in a slot, where it has seen the store.
    fn acquire_seen(&self, views: &mut ThreadViews, slot: usize)
        requires { slot < 7 }
        ensures { (t : ℕ) (s : Scene) → ShowsScene t s views.old self.now → slot < length s.history.stores →
            ShowsScene t (scene_at s (after_store (standing_in s) (in_slot s.history.stores slot))) views.new self.now }
    {
        let store = &self.stores[slot];
        if store.first_seen.is_seen_from(&views.present) {
            store.sync.sync_load(views, Ordering::Acquire);
        }
    }

    /// A thread's acquire fence, as far as this atomic goes: through the kept stores from the oldest, it acquires from each that
    /// it has seen by then (loom's `rt/atomic.rs`).
    pub fn acquire_fence(&self, views: &mut ThreadViews)
        ensures { (t : ℕ) (s : Scene) → ShowsScene t s views.old self.now → ShowsScene t (acquire_fence_step s) views.new self.now }
    {
        let kept = self.kept();
        let oldest = usize::from(self.count) - kept;
        for i in 0..kept {
            self.acquire_seen(views, (oldest + i) % MAX_ATOMIC_HISTORY);
        }
    }

    /// No store yet, and a mutation in this view.
    fn blank(view: VersionVec) -> State
        ensures blank { result ≡ state_blank view result.stores }
        ensures ring { length result.stores ≡ 7 }
    {
        let store = Store {
            value: 0,
            order: VersionVec::new(),
            sync: Synchronize::new(),
            first_seen: FirstSeen::new(),
            seq_cst: false,
        };
        State {
            loaded_at: VersionVec::new(),
            stored_at: VersionVec::new(),
            unsync_loaded_at: VersionVec::new(),
            unsync_mut_at: view,
            is_mutating: false,
            stores: [store; MAX_ATOMIC_HISTORY],
            count: 0,
        }
    }

    /// An atomic that a thread makes with a value, which is its first store (loom's `rt/atomic.rs`).
    #[inline(always)]
    pub fn new(thread: usize, views: &ThreadViews, value: u64) -> State
        requires { thread < 5 }
        ensures { (g : Graph) (p : ThreadPoints) → IsChained g → IsPresent g thread p.present → ShowsThread g thread p views.now →
            ShowsScene thread (new_step thread g p value) views.now result }
    {
        let mut state = State::blank(views.present);
        state.push(thread, views, Synchronize::new(), value, Ordering::Release);
        state
    }
}

impl Same for FirstSeen {
    fn is_same(&self, other: &FirstSeen) -> bool {
        self.versions.is_same(&other.versions)
    }
}

impl Same for Store {
    fn is_same(&self, other: &Store) -> bool {
        self.value == other.value
            && self.seq_cst == other.seq_cst
            && self.order.is_same(&other.order)
            && self.sync.is_same(&other.sync)
            && self.first_seen.is_same(&other.first_seen)
    }
}

impl FirstSeen {
    /// Adds their counts.
    fn stand(&self, standing: &mut Standing) {
        self.versions.stand(standing);
    }

    /// First touches by ranks, if each count has one.
    fn ranked(&self, ranks: &Ranks) -> Option<FirstSeen>
        ensures { IfSome result (λ ranked. PairsTouches (Ranked ranks.now) self.now.versions ranked.versions) }
    {
        Some(FirstSeen {
            versions: self.versions.ranked(ranks)?,
        })
    }
}

impl Store {
    /// Adds its counts.
    fn stand(&self, standing: &mut Standing) {
        standing.add_all(&self.order);
        self.sync.stand(standing);
        self.first_seen.stand(standing);
    }

    /// A number that depends on the store alone (own).
    pub fn digest(&self) -> u64 {
        let views = mixed(self.order.digest(), self.sync.digest());
        mixed(mixed(views, self.first_seen.versions.digest()), self.value)
    }

    /// The store by ranks, if each count has one.
    fn ranked(&self, ranks: &Ranks) -> Option<Store>
        ensures { IfSome result (λ ranked. PairsStores (Ranked ranks.now) self.now ranked) }
    {
        Some(Store {
            value: self.value,
            order: self.order.ranked(ranks)?,
            sync: self.sync.ranked(ranks)?,
            first_seen: self.first_seen.ranked(ranks)?,
            seq_cst: self.seq_cst,
        })
    }
}

/// Puts the stores by ranks behind these. Whether each count had one. An error where memory is refused.
fn push_ranked(
    from: &[Store],
    ranks: &Ranks,
    stores: &mut Sequence<Store>,
) -> Result<bool, AllocError>
    ensures { IfOk result (λ done. IsTrue done → (more : List Store) × (stores.new ≡ stores.old ++ more) × PairAll (Ranked ranks.now) (PairsStores (Ranked ranks.now)) from.now more) }
{
    for store in from {
        let Some(one) = store.ranked(ranks) else {
            return Ok(false);
        };
        stores.push(one)?;
    }
    Ok(true)
}

impl State {
    /// Adds its counts (own).
    pub fn stand(&self, standing: &mut Standing) {
        standing.add_all(&self.loaded_at);
        standing.add_all(&self.stored_at);
        standing.add_all(&self.unsync_loaded_at);
        standing.add_all(&self.unsync_mut_at);
        for place in 0..self.kept() {
            self.stores[place].stand(standing);
        }
    }

    /// What is kept but for the stores, of which so many aren't empty, by ranks, if each count has one.
    #[inline(always)]
    fn ranked_head(&self, kept: usize, ranks: &Ranks) -> Option<Head>
        ensures kept { IfSome result (λ head. head.kept ≡ kept) }
        ensures paired { IfSome result (λ head. (more : List Store) → ((i : ℕ) → i < 7 → PairsStores (Ranked ranks.now) (store_at self.now.stores i) (store_at (whole head more).stores i)) → PairsStates (Ranked ranks.now) self.now (whole head more)) }
    {
        let loaded_at = self.loaded_at.ranked(ranks)?;
        let stored_at = self.stored_at.ranked(ranks)?;
        let unsync_loaded_at = self.unsync_loaded_at.ranked(ranks)?;
        let unsync_mut_at = self.unsync_mut_at.ranked(ranks)?;
        Some(Head {
            loaded_at,
            stored_at,
            unsync_loaded_at,
            unsync_mut_at,
            is_mutating: self.is_mutating,
            count: self.count,
            kept,
        })
    }

    /// `pack` of the atomic by ranks, if each count has one (own).
    #[inline(always)]
    pub fn pack_ranked(
        &self,
        ranks: &Ranks,
        stores: &mut Sequence<Store>,
    ) -> Result<Option<Head>, AllocError>
        ensures { IfOk result (λ found. IfSome found (λ head. (more : List Store) × (stores.new ≡ stores.old ++ more) × (head.kept ≡ length more) × PairsStates (Ranked ranks.now) self.now (whole head more))) }
    {
        ranks.zeros();
        let kept = self.filled();
        let Some(head) = self.ranked_head(kept, ranks) else {
            return Ok(None);
        };
        let is_done = push_ranked(&self.stores.as_slice()[..kept], ranks, stores)?;
        if !is_done {
            return Ok(None);
        }
        Ok(Some(head))
    }

    /// How many stores there are up to the last one that isn't empty, or all.
    fn filled(&self) -> usize
        ensures few { result ≤ 7 }
        ensures counted { length (take result self.now.stores) ≡ result }
        ensures filled { self.now.stores ≡ take result self.now.stores ++ replicate (7 - result) empty_store }
    {
        filled(&self.stores, self.kept())
    }

    /// What is kept but for the stores, of which those that aren't empty are put behind these. An error where memory is refused (own).
    #[inline(always)]
    pub fn pack(&self, stores: &mut Sequence<Store>) -> Result<Head, AllocError>
        ensures { IfOk result (λ head. (more : List Store) × (stores.new ≡ stores.old ++ more) × (head.kept ≡ length more) × (whole head more ≡ self.now)) }
    {
        let kept = self.filled();
        for place in 0..kept {
            stores.push(self.stores[place])?;
        }
        Ok(Head {
            loaded_at: self.loaded_at,
            stored_at: self.stored_at,
            unsync_loaded_at: self.unsync_loaded_at,
            unsync_mut_at: self.unsync_mut_at,
            is_mutating: self.is_mutating,
            count: self.count,
            kept,
        })
    }
}

/// What is kept of an atomic but for its stores, and how many of these there are up to the last one that isn't empty (own).
#[derive(Clone, Copy)]
pub struct Head {
    loaded_at: VersionVec,
    stored_at: VersionVec,
    unsync_loaded_at: VersionVec,
    unsync_mut_at: VersionVec,
    is_mutating: bool,
    count: u16,
    kept: usize,
}

impl Same for Head {
    fn is_same(&self, other: &Head) -> bool {
        self.count == other.count
            && self.kept == other.kept
            && self.is_mutating == other.is_mutating
            && self.loaded_at.is_same(&other.loaded_at)
            && self.stored_at.is_same(&other.stored_at)
            && self.unsync_loaded_at.is_same(&other.unsync_loaded_at)
            && self.unsync_mut_at.is_same(&other.unsync_mut_at)
    }
}

impl Head {
    /// How many stores there are up to the last one that isn't empty (own).
    pub fn kept(&self) -> usize
        ensures { result ≡ self.now.kept }
    {
        self.kept
    }

    /// A number that depends on it alone (own).
    pub fn digest(&self) -> u64 {
        let digest = mixed(self.loaded_at.digest(), self.stored_at.digest());
        mixed(digest, u64::from(self.count))
    }
}

impl Store {
    /// Nothing is stored.
    fn empty() -> Store
        ensures { result ≡ empty_store }
    {
        Store {
            value: 0,
            order: VersionVec::new(),
            sync: Synchronize::new(),
            first_seen: FirstSeen::new(),
            seq_cst: false,
        }
    }
}

/// So many, if no store behind them is kept, or all.
#[tactic(auto, using(crate::proofs::Packed::filled_so, crate::proofs::Packed::filled_all, crate::proofs::Packed::counted_so))]
fn filled(stores: &[Store; MAX_ATOMIC_HISTORY], kept: usize) -> usize
    requires { kept ≤ 7 }
    ensures few { result ≤ 7 }
    ensures counted { length (take result stores.now) ≡ result }
    ensures filled { stores.now ≡ take result stores.now ++ replicate (7 - result) empty_store }
{
    if are_empty(&stores.as_slice()[kept..]) {
        kept
    } else {
        MAX_ATOMIC_HISTORY
    }
}

/// Whether nothing is stored in any of them.
#[tactic(auto, using(crate::proofs::Packed::empty_more))]
fn are_empty(stores: &[Store]) -> bool
    ensures { IsTrue result → stores.now ≡ replicate (length stores.now) empty_store }
{
    let empty = Store::empty();
    let mut rest = stores;
    while let Some((first, tail)) = rest.split_first() {
        if !first.is_same(&empty) {
            return false;
        }
        rest = tail;
    }
    true
}
