//! Races: the access that one is with, and what is missing between the two.
use crate::text::answers::{cell_touch, touch_of};
use crate::text::names::{article_of, order_name};
use crate::text::objects::{Access, Hold, Manner, Reading};
use crate::text::page::Page;
use crate::text::reasons::Scene;
use crate::text::world::World;
use loom_objects::label::name_in;
use loom_objects::operation::{AtomicOp, CellOp, Request};
use loom_views::rt::MAX_THREADS;
use loom_views::rt::failure::FailureKind;
use std::sync::atomic::Ordering;

/// Which objects an operation accesses, and how: one, and for a swap of two cells another one.
fn targets(request: Option<&Request<(), ()>>) -> Option<(usize, usize, Manner)> {
    if let Some(Request::Atomic(op)) = request {
        return atomic_targets(*op);
    }
    if let Some(Request::Cell(op)) = request {
        return cell_targets(op);
    }
    None
}

fn atomic_targets(op: AtomicOp) -> Option<(usize, usize, Manner)> {
    match (op.atomic(), touch_of(op, false)) {
        (Some(atomic), Some(touch)) => Some((atomic, atomic, touch.manner)),
        _ => None,
    }
}

fn cell_targets(op: &CellOp<()>) -> Option<(usize, usize, Manner)> {
    let targets = match op {
        CellOp::ReadEnd(cell) => (*cell, *cell, Manner::CellRead),
        CellOp::WriteEnd(cell, _) => (*cell, *cell, Manner::CellWrite),
        CellOp::Swap(cell, other) => (*cell, *other, Manner::CellWrite),
        CellOp::New(_)
        | CellOp::Read(_)
        | CellOp::Deref(_)
        | CellOp::Write(_)
        | CellOp::IntoInner(_)
        | CellOp::Get(_)
        | CellOp::Replace(..) => {
            let (cell, manner) = cell_touch(op)?;
            (cell, cell, manner)
        }
    };
    Some(targets)
}

/// The last access of this thread that conflicts with the one that failed.
fn last_of(scene: &Scene<'_>, thread: usize) -> Option<Access> {
    match targets(scene.request) {
        Some((one, other, manner)) if thread != scene.at.thread => {
            last_access(scene.world, thread, (one, other), manner)
        }
        _ => None,
    }
}

/// The last access of the thread to one of the two objects that conflicts with such a one.
fn last_access(
    world: &World,
    thread: usize,
    objects: (usize, usize),
    manner: Manner,
) -> Option<Access> {
    let (one, other) = objects;
    let mut accesses = world.accesses.iter().rev();
    accesses
        .find(|access| {
            (access.object == one || access.object == other)
                && access.at.thread == thread
                && manner.conflicts_with(access.manner)
        })
        .copied()
}

/// The access that a race is with, where one other thread alone has made accesses that conflict: its last one. No views are
/// kept here, so of several threads it isn't known whose access is meant.
pub(crate) fn other_access(scene: &Scene<'_>) -> Option<Access> {
    if !matches!(scene.kind, Some(FailureKind::Race)) {
        return None;
    }
    let mut found = None;
    for thread in 0..MAX_THREADS {
        let last = last_of(scene, thread);
        if found.is_some() && last.is_some() {
            return None;
        }
        found = found.or(last);
    }
    found
}

/// The verb for what accesses an atomic or a cell.
fn verb_of(request: Option<&Request<(), ()>>) -> &'static str {
    if let Some(Request::Atomic(op)) = request {
        return atomic_verb(*op);
    }
    if let Some(Request::Cell(op)) = request {
        return cell_verb(op);
    }
    "accesses"
}

fn atomic_verb(op: AtomicOp) -> &'static str {
    match op {
        AtomicOp::New(..) => "makes",
        AtomicOp::Load(..) => "loads",
        AtomicOp::Store(..) => "stores to",
        AtomicOp::Update(..) => "changes",
        AtomicOp::CompareExchange(..) | AtomicOp::CompareAndSwap(..) => "exchanges",
        AtomicOp::UnsyncLoad(_) => "loads, without synchronizing,",
        AtomicOp::IntoInner(_) => "takes apart",
        AtomicOp::WithMut(_) => "begins to mutate",
        AtomicOp::WithMutEnd(..) => "ends a mutation of",
    }
}

fn cell_verb(op: &CellOp<()>) -> &'static str {
    match op {
        CellOp::New(_) => "makes",
        CellOp::Read(_) => "begins to read",
        CellOp::ReadEnd(_) => "ends a read of",
        CellOp::Deref(_) | CellOp::Get(_) => "reads",
        CellOp::Write(_) => "begins to write",
        CellOp::WriteEnd(..) => "ends a write of",
        CellOp::IntoInner(_) => "takes apart",
        CellOp::Replace(..) => "writes",
        CellOp::Swap(..) => "swaps",
    }
}

/// The thread by whose operation the run failed, and what it does.
fn put_verb(out: &mut Page, scene: &Scene<'_>) {
    out.between("  thread ", scene.at.thread, " ");
    out.words(verb_of(scene.request));
}

/// The number of the object that the operation accesses.
fn target(scene: &Scene<'_>) -> usize {
    match targets(scene.request) {
        Some((object, ..)) => object,
        None => 0,
    }
}

/// Both accesses, and what is missing between them.
pub(crate) fn put_race(out: &mut Page, scene: &Scene<'_>) {
    put_verb(out, scene);
    match scene.other {
        Some(access) => {
            out.thing(" ", scene.world.thing(access.object));
            out.between(" and doesn't know of thread ", access.at.thread, "'s ");
            out.words(access.manner.noun());
            out.between(" of it (event ", access.at.event, ")\n");
            put_missing(out, scene.world, scene.at.thread, access);
        }
        None => {
            out.thing(" ", scene.world.thing(target(scene)));
            out.words(" and doesn't know of one of these at least:\n");
            put_others(out, scene);
        }
    }
}

/// What is missing between the access that failed, which is this thread's, and this one.
fn put_missing(out: &mut Page, world: &World, thread: usize, access: Access) {
    match last_reading(world, thread, access) {
        Some(reading) => put_reading(out, world, reading),
        None => out.put(
            "  nothing orders the two: thread $ has read nothing that thread $ stored after it\n",
            &[thread, access.at.thread],
        ),
    }
}

/// The last access of each other thread that conflicts: one of them at least isn't known.
fn put_others(out: &mut Page, scene: &Scene<'_>) {
    for other in 0..MAX_THREADS {
        if let Some(access) = last_of(scene, other) {
            out.between("    thread ", other, "'s ");
            out.words(access.manner.noun());
            out.thing(" of ", scene.world.thing(access.object));
            out.between(" (event ", access.at.event, ")\n");
        }
    }
}

fn acquires(order: Ordering) -> bool {
    matches!(
        order,
        Ordering::Acquire | Ordering::AcqRel | Ordering::SeqCst
    )
}

fn releases(order: Option<Ordering>) -> bool {
    matches!(
        order,
        Some(Ordering::Release | Ordering::AcqRel | Ordering::SeqCst)
    )
}

/// The last read by which the thread could have learned of the access, had it acquired what the store released.
fn last_reading(world: &World, thread: usize, access: Access) -> Option<&Reading> {
    let mut readings = world.readings.iter().rev();
    readings.find(|reading| reading.at.thread == thread && reading.misses(access))
}

impl Reading {
    /// Whether its thread could have learned of the access by it, had it acquired what the store released.
    fn misses(&self, access: Access) -> bool {
        self.store.at.thread == access.at.thread
            && self.store.at.event > access.at.event
            && !(acquires(self.order) && releases(self.store.order))
    }
}

/// What was read, how, and what it lacks.
fn put_reading(out: &mut Page, world: &World, reading: &Reading) {
    put_store(out, world, reading);
    out.words(article_of(reading.order));
    out.words(order_name(reading.order));
    out.words(" ");
    out.words(reading.noun);
    out.words(if acquires(reading.order) {
        ":\n  the store released nothing\n"
    } else {
        ":\n  nothing was acquired\n"
    });
}

/// Which store was read, and whose it is.
fn put_store(out: &mut Page, world: &World, reading: &Reading) {
    let store = reading.store;
    out.put(
        "  thread $ read store $ of atomic #$ (",
        &[reading.at.thread, store.number, store.atomic],
    );
    if let Some(object) = world.objects.get(store.atomic) {
        if let Some(name) = name_in(object.label) {
            out.named("\"", name, "\", ");
        }
    }
    out.number("thread ", store.at.thread);
    if let Some(order) = store.order {
        out.words(", ");
        out.words(order_name(order));
    }
    out.words(") by ");
}

/// Who has the object open.
fn open_by(scene: &Scene<'_>) -> Option<Hold> {
    let (one, other, _) = targets(scene.request)?;
    last_hold(scene.world, one, other)
}

/// The last hold of one of the two objects.
fn last_hold(world: &World, one: usize, other: usize) -> Option<Hold> {
    let mut holds = world.holds.iter().rev();
    holds
        .find(|hold| hold.object == one || hold.object == other)
        .copied()
}

/// What is open, by whom and since when.
pub(crate) fn put_open_access(out: &mut Page, scene: &Scene<'_>) {
    put_verb(out, scene);
    match open_by(scene) {
        Some(hold) => {
            out.thing(" ", scene.world.thing(hold.object));
            out.put(
                ", which thread $ has open since event $",
                &[hold.at.thread, hold.at.event],
            );
            if let Some(opened) = scene.explanation.event(hold.at.event) {
                out.call(": ", &opened.op.request, scene.world);
            }
            out.words("\n");
        }
        None => out.words(" what is open\n"),
    }
}

/// Two stores whose order isn't known.
pub(crate) fn put_equal_orders(out: &mut Page, scene: &Scene<'_>) {
    out.number("  thread ", scene.at.thread);
    out.thing(" is about to read ", scene.world.thing(target(scene)));
    out.words(
        ": two of its last seven stores have equal places\n  in the modification order, so which of them is later can't be said\n",
    );
}
