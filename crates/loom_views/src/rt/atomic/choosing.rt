//! Which stores of an atomic a reader may choose.

ghost use Rattle.std.specs.Prelude.{◌≡◌, ℕ, ◌<◌, ◌≤◌, ◌==◌, ◌&&◌, ◌||◌, not, IsTrue, slice_index_or, false, MatchResult, length};
ghost use Rattle.std.specs.List.{list_any};
ghost use Rattle.loom_views.specs.Orderings.{is_seq_cst};
ghost use Rattle.loom_views.specs.declared.rt.atomic.Store.{Store};
ghost use Rattle.loom_views.specs.declared.rt.failure.FailureKind.TheVariants.{OrdersEqual};
ghost use Rattle.loom_views.specs.Atomic.Slots.{slots, slot_set, has_equal_order_at, readable_slots};
ghost use Rattle.loom_views.specs.Atomic.Ring.{HaveOtherOrders, is_order_below, is_slot_below, is_below_seen, drops_store, is_touch_in, is_passed, drops_slot, is_same_slot};
ghost use Rattle.loom_views.specs.Atomic.History.{Scene, readable, fails_by_orders};
ghost use Rattle.loom_views.specs.Atomic.Shown.{ShowsScene};

use crate::rt::MAX_ATOMIC_HISTORY;
use crate::rt::atomic::reader::Reader;
use crate::rt::atomic::{State, Store};
use crate::rt::failure::FailureKind;
use crate::rt::synchronize::ThreadViews;
use crate::rt::vv::VersionVec;
use std::sync::atomic::Ordering;

fn is_seq_cst(order: Ordering) -> bool
    ensures { result ≡ is_seq_cst order }
{
    matches!(order, Ordering::SeqCst)
}

/// Whether a store keeps the reader from those below it just where it is seen: the reader is a load that isn't `SeqCst`, of a thread
/// that hasn't yielded.
fn is_by_sight(views: &ThreadViews, reader: Reader) -> bool
    ensures { IsTrue result → (t : ℕ) (i j : Store) → drops_store t views.now reader i j ≡ (is_order_below i j && is_touch_in j.first_seen.versions views.now.present) }
{
    match reader {
        Reader::Load(order) => !is_seq_cst(order) && views.last_yield.is_none(),
        Reader::Update => false,
    }
}

impl Store {
    /// Whether a load is kept from this store by one whose order is above: the thread has seen that one, or it touched this one
    /// no later than its last yield, or all three are `SeqCst`.
    fn is_passed(&self, above: &Store, thread: usize, views: &ThreadViews, order: Ordering) -> bool
        requires { thread < 5 }
        ensures { result ≡ is_passed thread views.now order self.now above.now }
    {
        above.first_seen.is_seen_from(&views.present)
            || self.first_seen.is_before_yield(thread, views.last_yield)
            || matches!(order, Ordering::SeqCst) && self.seq_cst && above.seq_cst
    }
}

impl State {
    /// Whether the store in slot `j` keeps a reader from choosing slot `i`. It is `OrdersEqual` where these are two slots, and
    /// their stores have equal orders.
    fn drops(
        &self,
        thread: usize,
        views: &ThreadViews,
        reader: Reader,
        i: usize,
        j: usize,
    ) -> Result<bool, FailureKind>
        requires thread_in { thread < 5 }
        requires i_in { i < 7 }
        requires j_in { j < 7 }
        ensures { MatchResult result (λ dropped. (dropped ≡ drops_slot self.now thread views.now reader i j) × ((not (i == j) && is_same_slot self.now i j) ≡ false))
            (λ kind. (kind ≡ OrdersEqual) × IsTrue (not (i == j) && is_same_slot self.now i j)) }
    {
        let store = &self.stores[i];
        let other = &self.stores[j];
        if i == j || !store.order.is_within(&other.order) {
            return Ok(false);
        }
        if other.order.is_within(&store.order) {
            return Err(FailureKind::OrdersEqual);
        }
        match reader.load_order() {
            None => Ok(true),
            Some(order) => Ok(store.is_passed(other, thread, views, order)),
        }
    }

    /// Whether a kept store keeps the reader from choosing slot `i`. It is `OrdersEqual` where slot `i` has the order of another
    /// slot, and no slot before that one keeps the reader from it.
    fn is_dropped(
        &self,
        thread: usize,
        views: &ThreadViews,
        reader: Reader,
        i: usize,
    ) -> Result<bool, FailureKind>
        requires thread_in { thread < 5 }
        requires i_in { i < 7 }
        ensures { MatchResult result (λ dropped. (dropped ≡ list_any (drops_slot self.now thread views.now reader i) (slots self.now.count)) × (has_equal_order_at (is_same_slot self.now) (drops_slot self.now thread views.now reader) self.now.count i ≡ false))
            (λ kind. (kind ≡ OrdersEqual) × IsTrue (has_equal_order_at (is_same_slot self.now) (drops_slot self.now thread views.now reader) self.now.count i)) }
    {
        for j in 0..self.kept() {
            if self.drops(thread, views, reader, i, j)? {
                return Ok(true);
            }
        }
        Ok(false)
    }

    /// The set of the slots that the reader may choose: those of the stores that no kept store keeps it from. Where two orders
    /// are equal on the way it is `OrdersEqual`, which by law `crate::laws::choices_never_meet_equal_orders` no run meets. By
    /// law `crate::laws::some_slot_is_readable` there is always a slot (loom's `rt/atomic.rs`).
    pub fn readable(
        &self,
        thread: usize,
        views: &ThreadViews,
        reader: Reader,
    ) -> Result<[bool; MAX_ATOMIC_HISTORY], FailureKind>
        requires { thread < 5 }
        ensures { (s : Scene) → ShowsScene thread s views.now self.now →
            MatchResult result (λ set. (set ≡ slot_set (readable s.graph thread s.thread reader s.history.stores)) × (fails_by_orders s.graph thread s.thread reader s.history.stores ≡ false))
            (λ kind. (kind ≡ OrdersEqual) × IsTrue (fails_by_orders s.graph thread s.thread reader s.history.stores)) }
    {
        if self.goes_by_sight(views, reader) {
            return Ok(self.above_seen(&views.present));
        }
        self.not_dropped(thread, views, reader)
    }

    /// Whether each slot has a store, no two of them have equal orders, and each keeps the reader from those below just where it is
    /// seen.
    #[inline(always)]
    fn goes_by_sight(&self, views: &ThreadViews, reader: Reader) -> bool
        ensures full { IsTrue result → 7 ≤ self.now.count }
        ensures sight { IsTrue result → (t : ℕ) (i j : Store) → drops_store t views.now reader i j ≡ (is_order_below i j && is_touch_in j.first_seen.versions views.now.present) }
        ensures differ { IsTrue result → HaveOtherOrders self.now }
    {
        self.is_full() && is_by_sight(views, reader) && self.orders_differ()
    }

    /// Whether it is seen that no two slots have stores of equal orders.
    fn orders_differ(&self) -> bool
        ensures { IsTrue result → HaveOtherOrders self.now }
    {
        for i in 1..MAX_ATOMIC_HISTORY {
            if !self.differs_below(i) {
                return false;
            }
        }
        true
    }

    /// Whether it is seen that the order of the store in slot `i` differs from those in the slots below.
    #[inline(always)]
    fn differs_below(&self, i: usize) -> bool
        requires { i < 7 }
        ensures { IsTrue result → (j : ℕ) → j < i → is_same_slot self.now i j ≡ false }
    {
        for j in 0..i {
            if !self.stores[i].order.differs(&self.stores[j].order) {
                return false;
            }
        }
        true
    }

    /// The set of the slots that no store above keeps a reader from, where each that is seen in the view does.
    fn above_seen(&self, view: &VersionVec) -> [bool; MAX_ATOMIC_HISTORY]
        requires full { 7 ≤ self.now.count }
        requires differ { HaveOtherOrders self.now }
        ensures { result ≡ slot_set (readable_slots (is_below_seen self.now.stores view.now) self.now.count) }
    {
        let mut set = [true; MAX_ATOMIC_HISTORY];
        for j in 0..MAX_ATOMIC_HISTORY {
            let is_seen = self.stores[j].first_seen.is_seen_from(view);
            self.leave_below(&mut set, j, is_seen);
        }
        set
    }

    /// The slots whose stores are below the one in slot `j` leave the set, if that one is seen.
    // Without a branch: whether it is, and which ones these are, can often not be foretold.
    #[inline(always)]
    fn leave_below(&self, set: &mut [bool; MAX_ATOMIC_HISTORY], j: usize, is_seen: bool)
        requires slot_in { j < 7 }
        requires differ { HaveOtherOrders self.now }
        ensures size { length set.new ≡ 7 }
        ensures left { (i : ℕ) → i < 7 → slice_index_or set.new i false ≡ (slice_index_or set.old i false && (not is_seen || not (is_slot_below self.now.stores i j))) }
    {
        for i in 0..MAX_ATOMIC_HISTORY {
            set[i] &= !is_seen | self.is_left_by(i, j);
        }
    }

    /// Whether the store in slot `i` isn't below the one in slot `j`.
    #[inline(always)]
    fn is_left_by(&self, i: usize, j: usize) -> bool
        requires i_in { i < 7 }
        requires j_in { j < 7 }
        requires differ { HaveOtherOrders self.now }
        ensures { result ≡ not (is_slot_below self.now.stores i j) }
    {
        i == j || !self.stores[i].order.is_within(&self.stores[j].order)
    }

    /// The set that `readable` answers, found by each store against the others.
    fn not_dropped(
        &self,
        thread: usize,
        views: &ThreadViews,
        reader: Reader,
    ) -> Result<[bool; MAX_ATOMIC_HISTORY], FailureKind>
        requires { thread < 5 }
        ensures { (s : Scene) → ShowsScene thread s views.now self.now →
            MatchResult result (λ set. (set ≡ slot_set (readable s.graph thread s.thread reader s.history.stores)) × (fails_by_orders s.graph thread s.thread reader s.history.stores ≡ false))
            (λ kind. (kind ≡ OrdersEqual) × IsTrue (fails_by_orders s.graph thread s.thread reader s.history.stores)) }
    {
        let mut set = [false; MAX_ATOMIC_HISTORY];
        for i in 0..self.kept() {
            let is_dropped = self.is_dropped(thread, views, reader, i)?;
            set[i] = !is_dropped;
        }
        Ok(set)
    }
}
