//! The stores of an atomic: which are seen, which are below others, and which may be read. The last `MAX_ATOMIC_HISTORY` are kept,
//! each in the slot that is the rest of its number by that.
use crate::choices::{MAX_OPTIONS, Options};
use crate::graph::Graph;
use crate::state::Store;
use loom_objects::choice::Choice;
use loom_views::rt::MAX_ATOMIC_HISTORY;
use std::sync::atomic::Ordering;

/// Who looks for a store to read.
#[derive(Clone, Copy)]
pub struct Reader {
    /// The thread that reads.
    pub thread: u8,
    /// The point that the thread is at.
    pub present: usize,
    /// At the thread's last yield, the last point that had raised it, or 0.
    pub yielded: Option<usize>,
    /// The ordering of a load; a read-modify-write has none.
    pub load: Option<Ordering>,
}

/// The stores that are kept, from the oldest.
pub fn kept(stores: &[Store]) -> &[Store] {
    stores
        .get(stores.len().saturating_sub(MAX_ATOMIC_HISTORY)..)
        .unwrap_or(stores)
}

/// The kept store in the slot.
pub fn store_in(stores: &[Store], wanted: usize) -> Option<&Store> {
    let mut kept = kept(stores).iter();
    kept.find(|store| store.number % MAX_ATOMIC_HISTORY == wanted)
}

impl Store {
    /// The thread touches it, once this point has raised the thread, or none where that is 0. Only its first touch is kept.
    pub fn touched(&mut self, thread: u8, raised: usize) {
        if let Some(touch) = self.touches.get_mut(usize::from(thread)) {
            *touch = touch.or(Some(raised));
        }
    }
}

/// Whether the store is seen from the point: a thread's first touch of it reaches the point. One before which nothing has raised
/// its thread reaches all points.
pub fn is_seen(graph: &Graph, store: &Store, point: usize) -> bool {
    for touch in &store.touches {
        if let Some(raised) = *touch
            && (raised == 0 || graph.reaches(raised, point))
        {
            return true;
        }
    }
    false
}

// Whether the reader has touched the store at or before its last yield.
fn is_before_yield(reader: Reader, store: &Store) -> bool {
    match (
        reader.yielded,
        store.touches.get(usize::from(reader.thread)),
    ) {
        (Some(yielded), Some(Some(touch))) => *touch <= yielded,
        _ => false,
    }
}

// Whether the one store drops the other from what may be read: the view of the other's order lies strictly inside that of its own,
// and it is read in its place.
fn drops(graph: &Graph, reader: Reader, one: &Store, other: &Store) -> bool {
    let is_below = graph.is_inside(other.order, one.order);
    if !is_below || graph.is_inside(one.order, other.order) {
        return false;
    }
    match reader.load {
        Some(order) => {
            let are_seq_cst = matches!(order, Ordering::SeqCst)
                && one.is_seq_cst
                && other.is_seq_cst;
            are_seq_cst || is_before_yield(reader, other) || is_seen(graph, one, reader.present)
        }
        None => true,
    }
}

// Whether a kept store in a slot lower than this one drops the store.
fn is_dropped(
    graph: &Graph,
    reader: Reader,
    stores: &[Store],
    store: &Store,
    below: usize,
) -> bool {
    for other in kept(stores) {
        if other.number % MAX_ATOMIC_HISTORY < below && drops(graph, reader, other, store) {
            return true;
        }
    }
    false
}

// Whether another kept store has an order equal to the store's, and no store in a slot lower than that one drops the store.
fn has_equal(graph: &Graph, reader: Reader, stores: &[Store], store: &Store) -> bool {
    for other in kept(stores) {
        if other.number != store.number
            && graph.is_inside(store.order, other.order)
            && graph.is_inside(other.order, store.order)
            && !is_dropped(
                graph,
                reader,
                stores,
                store,
                other.number % MAX_ATOMIC_HISTORY,
            )
        {
            return true;
        }
    }
    false
}

/// Whether the orders of two kept stores are equal, so that it isn't known which may be read.
pub fn are_orders_equal(graph: &Graph, reader: Reader, stores: &[Store]) -> bool {
    for store in kept(stores) {
        if has_equal(graph, reader, stores, store) {
            return true;
        }
    }
    false
}

/// The slots that may be read, in rising order.
pub fn readable(graph: &Graph, reader: Reader, stores: &[Store]) -> Options {
    let mut slots = [None; MAX_OPTIONS];
    for number in 0..MAX_ATOMIC_HISTORY as u8 {
        if let Some(store) = store_in(stores, usize::from(number))
            && !is_dropped(graph, reader, stores, store, MAX_ATOMIC_HISTORY)
            && let Some(option) = slots.get_mut(usize::from(number))
        {
            *option = Some(Choice::Load(number));
        }
    }
    slots
}
