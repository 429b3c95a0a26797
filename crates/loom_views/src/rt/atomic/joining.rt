//! The orders of the kept stores: those that are seen are joined, and those above one take in what it has become.

ghost use Rattle.std.specs.Prelude.{◌≡◌, ◌<◌};
ghost use Rattle.loom_views.specs.Versions.{join_all};
ghost use Rattle.loom_views.specs.Atomic.Ring.{is_order_seen, orders_seen, is_slot_above, raised_above};

use crate::rt::atomic::State;
use crate::rt::vv::VersionVec;

impl State {
    /// Whether the store in a slot is seen in a view, and the slot isn't left out.
    fn is_order_seen(&self, view: &VersionVec, left_out: Option<usize>, i: usize) -> bool
        requires { i < 7 }
        ensures { result ≡ is_order_seen self.now.stores view.now left_out i }
    {
        left_out != Some(i) && self.stores[i].first_seen.is_seen_from(view)
    }

    /// `is_order_seen`. Both tests are made: what would be skipped can't be foretold.
    #[inline(always)]
    fn sees_order(&self, view: &VersionVec, left_out: Option<usize>, i: usize) -> bool
        requires { i < 7 }
        ensures { result ≡ is_order_seen self.now.stores view.now left_out i }
    {
        (left_out != Some(i)) & self.stores[i].first_seen.is_seen_from(view)
    }

    /// An order with those of the kept stores that are seen in a view, but for a slot that is left out.
    // Few stores are joined by branches, which skip work, and many without: which ones are seen can often not be foretold.
    pub(crate) fn with_orders_seen(
        &self,
        order: VersionVec,
        view: &VersionVec,
        left_out: Option<usize>,
    ) -> VersionVec
        ensures { result ≡ join_all order (orders_seen self.now.stores self.now.count view.now left_out) }
    {
        if self.is_full() {
            self.with_each_seen(order, view, left_out)
        } else {
            self.with_few_seen(order, view, left_out)
        }
    }

    /// `with_orders_seen`, by branches.
    fn with_few_seen(
        &self,
        order: VersionVec,
        view: &VersionVec,
        left_out: Option<usize>,
    ) -> VersionVec
        ensures { result ≡ join_all order (orders_seen self.now.stores self.now.count view.now left_out) }
    {
        let mut joined = order;
        for i in 0..self.kept() {
            if self.is_order_seen(view, left_out, i) {
                joined.join(&self.stores[i].order);
            }
        }
        joined
    }

    /// `with_orders_seen`, without a branch.
    // Inlined where all slots are known to be full, so that the loop is unrolled.
    #[inline(always)]
    fn with_each_seen(
        &self,
        order: VersionVec,
        view: &VersionVec,
        left_out: Option<usize>,
    ) -> VersionVec
        ensures { result ≡ join_all order (orders_seen self.now.stores self.now.count view.now left_out) }
    {
        let mut joined = order;
        for i in 0..self.kept() {
            joined.join_if(&self.stores[i].order, self.sees_order(view, left_out, i));
        }
        joined
    }

    /// Whether the order of the store in slot `i` contains an order, and the slot isn't left out.
    fn is_above(&self, before: &VersionVec, left_out: usize, i: usize) -> bool
        requires { i < 7 }
        ensures { result ≡ is_slot_above before.now self.now.stores left_out i }
    {
        i != left_out && before.is_within(&self.stores[i].order)
    }

    /// `is_above`. Both tests are made, as in `sees_order`.
    #[inline(always)]
    fn lies_above(&self, before: &VersionVec, left_out: usize, i: usize) -> bool
        requires { i < 7 }
        ensures { result ≡ is_slot_above before.now self.now.stores left_out i }
    {
        (i != left_out) & before.is_within(&self.stores[i].order)
    }

    /// Each kept store but the one in a slot takes in an order, where its own contains what that one's order was before.
    // By branches or without, as in `with_orders_seen`.
    pub(crate) fn raise_above(&mut self, slot: usize, before: &VersionVec, order: &VersionVec)
        ensures { self.new ≡ record self.old { stores = raised_above self.old.stores self.old.count slot before.now order.now } }
    {
        if self.is_full() {
            self.raise_each_above(slot, before, order);
        } else {
            self.raise_few_above(slot, before, order);
        }
    }

    /// `raise_above`, by branches.
    fn raise_few_above(&mut self, slot: usize, before: &VersionVec, order: &VersionVec)
        ensures { self.new ≡ record self.old { stores = raised_above self.old.stores self.old.count slot before.now order.now } }
    {
        for i in 0..self.kept() {
            if self.is_above(before, slot, i) {
                self.stores[i].order.join(order);
            }
        }
    }

    /// `raise_above`, without a branch.
    // Inlined as `with_each_seen` is.
    #[inline(always)]
    fn raise_each_above(&mut self, slot: usize, before: &VersionVec, order: &VersionVec)
        ensures { self.new ≡ record self.old { stores = raised_above self.old.stores self.old.count slot before.now order.now } }
    {
        for i in 0..self.kept() {
            let is_above = self.lies_above(before, slot, i);
            self.stores[i].order.join_if(order, is_above);
        }
    }
}
