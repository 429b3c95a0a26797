//! Atomics and fences: which store a load reads, and what a store leaves.
use crate::dependence::Action;
use crate::halt::NextReply;
use crate::kinds::{Kind, Step};
use crate::machine::Machine;
use crate::numbers::{cast, changed};
use crate::state::{Access, Object, Store};
use crate::stores::{Reader, are_orders_equal, is_seen, kept, readable, store_in};
use loom_objects::choice::Choice;
use loom_objects::operation::{AtomicOp, Reply};
use loom_views::rt::failure::FailureKind;
use loom_views::rt::num::Numbers;
use loom_views::rt::num::change::Change;
use loom_views::rt::{MAX_ATOMIC_HISTORY, MAX_THREADS};
use std::sync::atomic::Ordering;

/// What a load or a read-modify-write makes of the number that it reads.
#[derive(Clone, Copy)]
pub enum Becoming {
    /// Nothing: a load.
    Same,
    Changed(Change),
    /// The second number where the first was read, and else nothing.
    Exchanged(u64, u64),
}

/// A load or a read-modify-write.
#[derive(Clone, Copy)]
pub struct Update {
    /// What it makes of the number that it reads.
    pub becoming: Becoming,
    /// The ordering where something is stored.
    pub success: Ordering,
    /// The ordering where nothing is.
    pub failure: Ordering,
    /// The ordering of a load; a read-modify-write has none.
    pub load: Option<Ordering>,
    /// Whether the reply says if something was stored.
    pub is_exchange: bool,
}

// What an access has read.
#[derive(Clone, Copy)]
struct Read {
    value: u64,
    // The point that is acquired with it.
    sync: usize,
}

fn acquires(order: Ordering) -> bool {
    matches!(
        order,
        Ordering::Acquire | Ordering::AcqRel | Ordering::SeqCst
    )
}

fn releases(order: Ordering) -> bool {
    matches!(
        order,
        Ordering::Release | Ordering::AcqRel | Ordering::SeqCst
    )
}

// The ordering by which a compare-and-swap reads another value than it expects.
fn failing(order: Ordering) -> Ordering {
    match order {
        Ordering::Relaxed | Ordering::Release => Ordering::Relaxed,
        Ordering::Acquire | Ordering::AcqRel => Ordering::Acquire,
        Ordering::SeqCst => Ordering::SeqCst,
    }
}

// What is stored, if anything, where this number was read.
fn becomes(numbers: Numbers, becoming: Becoming, read: u64) -> Option<u64> {
    match becoming {
        Becoming::Changed(change) => Some(changed(numbers, change, read)),
        Becoming::Exchanged(expected, new) if cast(numbers, expected) == read => Some(new),
        _ => None,
    }
}

impl Object {
    // The thread's mutation is closed, and leaves this value in the newest store. Whether the thread had one open.
    fn leaves(&mut self, thread: u8, value: u64) -> bool {
        let is_open = self.holder == Some(thread);
        self.holder = None;
        let value = cast(self.numbers, value);
        if let Some(newest) = self.stores.last_mut() {
            newest.value = value;
        }
        is_open
    }
}

impl Machine {
    /// An operation of an atomic is handed over.
    pub fn atomic_begins(&mut self, op: AtomicOp) -> NextReply {
        match op {
            AtomicOp::New(numbers, value) => self.atomic_new(numbers, value),
            AtomicOp::Load(number, order) => {
                self.update_begins(number, Becoming::Same, order, order, false)
            }
            AtomicOp::Store(number, value, order) => {
                let step = Step::Store(value, order);
                self.comes_to(number, Kind::Atomic, Action::Change, step)
            }
            AtomicOp::Update(number, change, order) => {
                self.update_begins(number, Becoming::Changed(change), order, order, false)
            }
            AtomicOp::CompareExchange(number, exchange) => {
                let becoming = Becoming::Exchanged(exchange.expected, exchange.new);
                self.update_begins(number, becoming, exchange.success, exchange.failure, true)
            }
            AtomicOp::CompareAndSwap(number, expected, new, order) => {
                let becoming = Becoming::Exchanged(expected, new);
                self.update_begins(number, becoming, order, failing(order), false)
            }
            AtomicOp::UnsyncLoad(number) => {
                self.replies_newest(number, Access::UnsyncLoad, None, true)
            }
            AtomicOp::IntoInner(number) => {
                self.replies_newest(number, Access::UnsyncLoad, None, false)
            }
            AtomicOp::WithMut(number) => {
                let active = self.active;
                self.replies_newest(number, Access::Mutation, Some(active), true)
            }
            AtomicOp::WithMutEnd(number, value) => self.with_mut_end(number, value),
        }
    }

    // A load or a read-modify-write is handed over.
    fn update_begins(
        &mut self,
        number: usize,
        becoming: Becoming,
        success: Ordering,
        failure: Ordering,
        is_exchange: bool,
    ) -> NextReply {
        let (action, load) = match becoming {
            Becoming::Same => (Action::Read, Some(failure)),
            Becoming::Changed(_) | Becoming::Exchanged(..) => (Action::Change, None),
        };
        let step = Step::Update(Update {
            becoming,
            success,
            failure,
            load,
            is_exchange,
        });
        self.comes_to(number, Kind::Atomic, action, step)
    }

    // An access that doesn't synchronize, which replies the value of the newest store. Which thread has the atomic open
    // afterwards, and whether it may be used.
    fn replies_newest(
        &mut self,
        number: usize,
        access: Access,
        holder: Option<u8>,
        is_whole: bool,
    ) -> NextReply {
        self.object(number, Kind::Atomic);
        self.meets(number, access);
        let atomic = self.at(number);
        atomic.holder = holder;
        atomic.is_whole = is_whole;
        match atomic.stores.last() {
            Some(store) => Some(Reply::Value(store.value)),
            None => {
                self.expect(false);
                None
            }
        }
    }

    // That the atomic was made counts as a mutation. Its first store releases.
    fn atomic_new(&mut self, numbers: Numbers, value: u64) -> NextReply {
        let number = self.makes(Kind::Atomic, None);
        self.at(number).numbers = numbers;
        self.keeps_access(number, Access::Mutation);
        self.makes_store(number, value, Ordering::Release, 0);
        Some(Reply::Atomic(number))
    }

    // The mutation of the active thread ends: it is closed, the newest store has the value, and the tests are made again.
    fn with_mut_end(&mut self, number: usize, value: u64) -> NextReply {
        let active = self.active;
        let is_open = self.object(number, Kind::Atomic).leaves(active, value);
        self.check(is_open, FailureKind::Misuse);
        self.meets(number, Access::Mutation);
        Some(Reply::Done)
    }

    /// The active thread stores.
    pub fn stores(&mut self, number: usize, value: u64, order: Ordering) -> NextReply {
        self.raise();
        self.object(number, Kind::Atomic);
        self.meets(number, Access::Store);
        self.makes_store(number, value, order, 0);
        Some(Reply::Done)
    }

    /// The active thread loads, and stores what is made of the number.
    pub fn updates(&mut self, number: usize, update: Update) -> NextReply {
        self.raise();
        let numbers = self.object(number, Kind::Atomic).numbers;
        let slot = self.chooses_slot(number, update.load);
        self.meets(number, Access::Load);
        let Read { value, sync } = self.reads_store(number, slot);
        let new = becomes(numbers, update.becoming, value);
        match new {
            Some(new) => {
                self.meets(number, Access::Store);
                self.acquires_by(sync, update.success);
                self.makes_store(number, new, update.success, sync);
            }
            None => self.acquires_by(sync, update.failure),
        }
        let is_changed = new.is_some();
        Some(if !update.is_exchange {
            Reply::Value(value)
        } else if is_changed {
            Reply::Exchanged(Ok(value))
        } else {
            Reply::Exchanged(Err(value))
        })
    }

    // Which store is read is chosen, by its slot.
    fn chooses_slot(&mut self, number: usize, load: Option<Ordering>) -> u8 {
        let thread = self.active;
        let me = self.me();
        let reader = Reader {
            thread,
            present: me.present,
            yielded: me.yielded,
            load,
        };
        let stores = self.read(number).stores.as_slice();
        let options = readable(&self.graph, reader, stores);
        let are_equal = are_orders_equal(&self.graph, reader, stores);
        self.check(!are_equal, FailureKind::OrdersEqual);
        match self.choose(options, false) {
            Some(Choice::Load(slot)) => slot,
            _ => {
                self.expect(false);
                0
            }
        }
    }

    // The store in the slot is read: its order comes after those of all kept stores that are seen, and those that contained it
    // come after that, and it is touched.
    fn reads_store(&mut self, number: usize, slot: u8) -> Read {
        let me = self.me();
        let (present, raised) = (me.present, me.raised);
        let stores = self.read(number).stores.as_slice();
        let Some(read) = store_in(stores, usize::from(slot)).copied() else {
            self.expect(false);
            return Read { value: 0, sync: 0 };
        };
        let order = self.seen_order(number, read.order, present);
        self.raises_above(number, read, order);
        let active = self.active;
        if let Some(store) = self.at(number).stores.get_mut(read.number) {
            store.order = order;
            store.touched(active, raised);
        }
        Read {
            value: read.value,
            sync: read.sync,
        }
    }

    // Each other kept store whose order contained that of this one, as it was when it was read, comes after this order.
    fn raises_above(&mut self, number: usize, read: Store, order: usize) {
        for place in 0..MAX_ATOMIC_HISTORY {
            if let Some(above) = self.store_above(number, place, read) {
                let raised = self.point(above.order, order);
                if let Some(store) = self.at(number).stores.get_mut(above.number) {
                    store.order = raised;
                }
            }
        }
    }

    // The kept store at this place, if it is another one and its order contains that of this one.
    fn store_above(&self, number: usize, place: usize, read: Store) -> Option<Store> {
        match kept(self.read(number).stores.as_slice()).get(place) {
            Some(store)
                if store.number != read.number && self.graph.is_inside(read.order, store.order) => {
                Some(*store)
            }
            _ => None,
        }
    }

    // A store more. Its order comes after the active thread's present point and the orders of all kept stores that are seen.
    // The point that is acquired with it comes after this one.
    fn makes_store(&mut self, number: usize, value: u64, order: Ordering, start: usize) {
        let me = self.me();
        let (present, raised) = (me.present, me.raised);
        let atomic = self.at(number);
        let (place, value) = (atomic.stores.len(), cast(atomic.numbers, value));
        self.check(place < 65_535, FailureKind::TooManyStores);
        let mut store = Store {
            number: place,
            value,
            order: self.seen_order(number, present, present),
            sync: self.released_by(start, order),
            is_seq_cst: matches!(order, Ordering::SeqCst),
            touches: [None; MAX_THREADS],
        };
        store.touched(self.active, raised);
        let has_grown = self.at(number).stores.push(store).is_ok();
        self.grows(has_grown);
    }

    // The kept store at this place, if it is seen from the point.
    fn seen_store(&self, number: usize, place: usize, point: usize) -> Option<Store> {
        match kept(self.read(number).stores.as_slice()).get(place) {
            Some(store) if is_seen(&self.graph, store, point) => Some(*store),
            _ => None,
        }
    }

    // A point after this one and the orders of all kept stores that are seen from the other point.
    fn seen_order(&mut self, number: usize, here: usize, point: usize) -> usize {
        let mut order = here;
        for place in 0..MAX_ATOMIC_HISTORY {
            if let Some(store) = self.seen_store(number, place, point) {
                order = self.point(order, store.order);
            }
        }
        order
    }

    // The active thread acquires from the point, by some orderings.
    fn acquires_by(&mut self, point: usize, order: Ordering) {
        if acquires(order) {
            self.acquire(point);
        }
    }

    // The point after this one by which a store passes on what the last release fence left, and by some orderings what the
    // active thread has seen.
    fn released_by(&mut self, point: usize, order: Ordering) -> usize {
        let me = self.me();
        let passed = if releases(order) {
            me.present
        } else {
            me.released
        };
        self.point(point, passed)
    }

    /// A fence.
    pub fn fence(&mut self, order: Ordering) -> NextReply {
        let is_relaxed = matches!(order, Ordering::Relaxed);
        self.check(!is_relaxed, FailureKind::RelaxedFence);
        self.raise();
        if acquires(order) {
            self.acquire_fence();
        }
        if releases(order) {
            let me = self.me();
            me.released = me.present;
        }
        if matches!(order, Ordering::SeqCst) {
            let global = self.rest.global;
            self.acquire(global);
            self.rest.global = self.me().present;
        }
        Some(Reply::Done)
    }

    // Through all atomics in order of creation.
    fn acquire_fence(&mut self) {
        for number in 0..self.objects.len() {
            self.acquire_seen(number);
        }
    }

    // Through the atomic's kept stores, from the oldest: the active thread acquires from each that it sees by then.
    fn acquire_seen(&mut self, number: usize) {
        for place in 0..MAX_ATOMIC_HISTORY {
            let present = self.me().present;
            if let Some(store) = self.seen_store(number, place, present) {
                self.acquire(store.sync);
            }
        }
    }
}
