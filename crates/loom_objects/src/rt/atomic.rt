//! Atomics: loads, stores, read-modify-writes and fences (loom's `rt/atomic.rs`).
ghost use Rattle.std.specs.Borrow.{sem};
ghost use Rattle.loom_objects.specs.Scene.Lends.{lends_in_scene, lends_kind};
ghost use Rattle.loom_objects.specs.Scene.Lookup.{now_of, shown_of};
ghost use Rattle.loom_objects.specs.Scene.Lookup as lookup;
ghost use Rattle.loom_objects.specs.contracts.rt.atomic.Atomic as atomic_row;
ghost use Rattle.std.specs.Prelude.{◌≡◌, slice_get, IfOk, OnErr, Some, true};
ghost use Rattle.loom_objects.specs.Stages.Reader as parts;
ghost use Rattle.loom_objects.specs.Rules.Atomic as rules;
ghost use Rattle.loom_objects.specs.Scene.Stage.{Does, DoesAt, DoesIfOk, HasSlot, KeepsSlots};
ghost use Rattle.loom_views.specs.Views.{Points, ShowsViews, IsSlotKept, points_after_update_fail};
ghost use Rattle.loom_objects.specs.Operation.Accessed.{accessed};

use crate::operation::{AtomicOp, Exchange, Reply};
use crate::rt::kept::Kept;
use crate::rt::object::{Object, of_kind};
use crate::rt::run::{Entry, Loading, Resumed};
use crate::rt::scene::Scene;
use crate::rt::thread::Task;
use loom_views::rt::atomic::reader::Reader;
use loom_views::rt::failure::FailureKind;
use loom_views::rt::num::Numbers;
use loom_views::rt::num::change::Change;
use loom_views::same::Same;
use std::alloc::{AllocError, Global};
use std::sync::atomic::Ordering;

/// An atomic, whose stores are kept with the views (loom's `rt/atomic.rs`).
#[derive(Clone, Copy)]
pub struct Atomic {
    /// The type of what it holds.
    pub numbers: Numbers,
    /// Whether it was taken apart.
    pub is_taken: bool,
    /// The thread that has a mutation of it open.
    pub opened: Option<u8>,
}

impl<D> Object<D> {
    /// The atomic that it is, to change, unless it was taken apart. Misuse where it is none.
    fn as_atomic_mut(&mut self) -> Result<&mut Atomic, FailureKind>
        ensures* writes_back { sem 𝓛 (lends_kind D.row (atomic_row.the_row) Object.Atomic self.entry result) }
        ensures value { now_of result ≡ lookup.atomic_in self.old }
    {
        of_kind!(self, Atomic(atomic) if !atomic.is_taken)
    }
}

impl<D: Drop> Scene<D> {
    /// The atomic of this number, to read. Misuse where there is none, or it was taken apart.
    pub fn atomic(&self, number: usize) -> Result<&Atomic, FailureKind>
        ensures { shown_of result ≡ lookup.atomic_at number self.now.objects }
    {
        of_kind!(self.object(number)?, Atomic(atomic) if !atomic.is_taken)
    }

    /// The atomic of this number, to change. Misuse where there is none, or it was taken apart.
    #[tactic(auto, using(crate::proofs::Scene::Finding::object_kept))]
    pub fn atomic_mut(&mut self, number: usize) -> Result<&mut Atomic, FailureKind>
        ensures* writes_back { sem 𝓛 (lends_in_scene D.row (atomic_row.the_row) Object.Atomic self.entry number result) }
        ensures value { now_of result ≡ lookup.atomic_at number self.old.objects }
    {
        self.object_mut(number)?.as_atomic_mut()
    }
}

fn is_relaxed(order: Ordering) -> bool
    ensures { result ≡ rules.is_relaxed order }
{
    matches!(order, Ordering::Relaxed)
}

/// The active thread raises its version, and makes a fence.
// Inlined, so that other operations make no room for its answer.
#[inline(always)]
pub fn fence<D: Drop>(scene: &mut Scene<D>, order: Ordering) -> Result<Entry<D>, FailureKind>
    ensures { Does (rules.fence order) scene.old result scene.new }
{
    scene.raise()?;
    if is_relaxed(order) {
        return Err(FailureKind::RelaxedFence);
    }
    scene.fence(order);
    Ok(Entry::Answered(Reply::Done))
}

/// How an access reads that is to choose a store: a load by its ordering, and another one for a read-modify-write.
pub fn reader_of(access: AtomicOp) -> Reader
    ensures { result ≡ parts.reader_of access }
{
    match access {
        AtomicOp::Load(_, order) => Reader::Load(order),
        AtomicOp::New(..)
        | AtomicOp::Store(..)
        | AtomicOp::Update(..)
        | AtomicOp::CompareExchange(..)
        | AtomicOp::CompareAndSwap(..)
        | AtomicOp::UnsyncLoad(_)
        | AtomicOp::IntoInner(_)
        | AtomicOp::WithMut(_)
        | AtomicOp::WithMutEnd(..) => Reader::Update,
    }
}

/// A load of the store in the slot.
pub fn load<D: Drop>(
    scene: &mut Scene<D>,
    number: usize,
    order: Ordering,
    slot: usize,
) -> Result<Reply<D>, FailureKind>
    ensures { DoesAt (AtomicOp.Load number order) slot (rules.loads number order slot) scene.old result scene.new }
{
    let value = scene.load(number, slot, order)?;
    Ok(Reply::Value(value))
}

/// The compare-exchange has read another value: it ends as a load by its failure ordering.
pub fn end_exchange<D: Drop>(scene: &mut Scene<D>, number: usize, slot: usize, exchange: Exchange)
    ensures views { (p : Points) → ShowsViews p scene.old.views → IsSlotKept (slice_get p.places number) slot
        → ShowsViews (points_after_update_fail p scene.old.active number slot exchange.failure) scene.new.views }
    ensures rest { scene.new ≡ record scene.old { views = scene.new.views } }
{
    scene.update_fail(number, slot, exchange.failure);
}

/// The ordering of a `compare_and_swap` that reads another value than the one that is expected.
fn where_not_swapped(order: Ordering) -> Ordering
    ensures { result ≡ rules.where_not_swapped order }
{
    match order {
        Ordering::Relaxed | Ordering::Release => Ordering::Relaxed,
        Ordering::Acquire | Ordering::AcqRel => Ordering::Acquire,
        Ordering::SeqCst => Ordering::SeqCst,
    }
}

/// A `compare_and_swap` is a compare-exchange with that ordering.
fn swap_of(expected: u64, new: u64, order: Ordering) -> Exchange
    ensures { result ≡ rules.swap_of expected new order }
{
    Exchange {
        expected,
        new,
        success: order,
        failure: where_not_swapped(order),
    }
}

/// The value that was read, exchanged or not.
fn either_way(answer: Result<u64, u64>) -> u64
    ensures { result ≡ rules.either_way answer }
{
    match answer {
        Ok(value) | Err(value) => value,
    }
}

/// What an operation on an atomic does up to its branch point, or all of it: `Misuse` where it isn't on an atomic, or on one
/// that was taken apart. An outer error only where memory is refused.
pub fn atomic_begins<D: Drop>(
    scene: &mut Scene<D>,
    op: AtomicOp,
) -> Result<Result<Entry<D>, FailureKind>, AllocError>
    ensures does { IfOk result (λ answer. Does (rules.atomic_begins op) scene.old answer scene.new) }
    ensures growth { OnErr result (rules.needs_memory op ≡ true) }
{
    let begun = match op {
        AtomicOp::New(numbers, value) => Ok(atomic_new(scene, numbers, value)?),
        AtomicOp::UnsyncLoad(number) => unsync_load(scene, number),
        AtomicOp::IntoInner(number) => into_inner(scene, number),
        AtomicOp::WithMut(number) => with_mut(scene, number),
        AtomicOp::WithMutEnd(number, value) => with_mut_end(scene, number, value),
        AtomicOp::Load(..)
        | AtomicOp::Store(..)
        | AtomicOp::Update(..)
        | AtomicOp::CompareExchange(..)
        | AtomicOp::CompareAndSwap(..) => access_begins(scene, op),
    };
    Ok(begun)
}

fn atomic_new<D: Drop>(
    scene: &mut Scene<D>,
    numbers: Numbers,
    value: u64,
) -> Result<Entry<D>, AllocError>
    ensures { DoesIfOk (rules.atomic_new numbers value) scene.old result scene.new }
{
    let atomic = Atomic {
        numbers,
        is_taken: false,
        opened: None,
    };
    let number = scene.add_atomic(atomic, numbers.fit(value))?;
    Ok(Entry::Answered(Reply::Atomic(number)))
}

/// A load that doesn't synchronize.
fn unsync_load<D: Drop>(scene: &mut Scene<D>, number: usize) -> Result<Entry<D>, FailureKind>
    ensures { Does (rules.unsync_load number) scene.old result scene.new }
{
    scene.atomic(number)?;
    let value = scene.unsync_load(number)?;
    Ok(Entry::Answered(Reply::Value(value)))
}

/// A load that doesn't synchronize, after which the atomic is taken apart.
fn into_inner<D: Drop>(scene: &mut Scene<D>, number: usize) -> Result<Entry<D>, FailureKind>
    ensures { Does (rules.into_inner number) scene.old result scene.new }
{
    let atomic = scene.atomic_mut(number)?;
    atomic.is_taken = true;
    let value = scene.unsync_load(number)?;
    Ok(Entry::Answered(Reply::Value(value)))
}

/// The active thread opens a mutation.
fn with_mut<D: Drop>(scene: &mut Scene<D>, number: usize) -> Result<Entry<D>, FailureKind>
    ensures { Does (rules.with_mut number) scene.old result scene.new }
{
    let active = scene.active();
    let atomic = scene.atomic_mut(number)?;
    atomic.opened = Some(active);
    let value = scene.with_mut(number)?;
    Ok(Entry::Answered(Reply::Value(value)))
}

/// Who has opened the mutation ends it, with the value that it leaves.
fn with_mut_end<D: Drop>(
    scene: &mut Scene<D>,
    number: usize,
    value: u64,
) -> Result<Entry<D>, FailureKind>
    ensures { Does (rules.with_mut_end number value) scene.old result scene.new }
{
    let active = scene.active();
    let atomic = scene.atomic_mut(number)?;
    if atomic.opened != Some(active) {
        return Err(FailureKind::Misuse);
    }
    atomic.opened = None;
    let value = atomic.numbers.fit(value);
    scene.with_mut_end(number, value)?;
    Ok(Entry::Answered(Reply::Done))
}

/// The thread reaches a branch point.
fn access_begins<D: Drop>(scene: &mut Scene<D>, access: AtomicOp) -> Result<Entry<D>, FailureKind>
    ensures { Does (rules.access_begins access) scene.old result scene.new }
{
    let number = access.atomic().ok_or(FailureKind::Misuse)?;
    scene.atomic(number)?;
    scene.pend(Task::Access(access), false);
    Ok(Entry::AtBranch)
}

/// The access takes effect; one that reads up to the choice of the store that it reads, of which there is one at least, and
/// each of which is kept.
pub fn access<D: Drop>(scene: &mut Scene<D>, access: AtomicOp) -> Result<Resumed<D>, FailureKind>
    ensures does { Does (rules.accesses access) scene.old result scene.new }
    ensures slot { IfOk result HasSlot }
    ensures kept { (p : Points) → ShowsViews p scene.new.views → IfOk result (KeepsSlots p) }
{
    match access {
        AtomicOp::Store(number, value, order) => {
            let reply = store(scene, number, value, order)?;
            Ok(scene.reply(reply))
        }
        AtomicOp::Load(number, _)
        | AtomicOp::Update(number, ..)
        | AtomicOp::CompareExchange(number, _)
        | AtomicOp::CompareAndSwap(number, ..) => open(scene, number, reader_of(access), access),
        AtomicOp::New(..)
        | AtomicOp::UnsyncLoad(_)
        | AtomicOp::IntoInner(_)
        | AtomicOp::WithMut(_)
        | AtomicOp::WithMutEnd(..) => Err(FailureKind::Misuse),
    }
}

/// The active thread raises its version, and stores.
fn store<D: Drop>(
    scene: &mut Scene<D>,
    number: usize,
    value: u64,
    order: Ordering,
) -> Result<Reply<D>, FailureKind>
    ensures { Does (rules.store number value order) scene.old result scene.new }
{
    scene.raise()?;
    let atomic = scene.atomic(number)?;
    let value = atomic.numbers.fit(value);
    scene.store(number, value, order)?;
    Ok(Reply::Done)
}

/// The active thread raises its version, and it is to be chosen which store the access reads.
fn open<D: Drop>(
    scene: &mut Scene<D>,
    number: usize,
    reader: Reader,
    access: AtomicOp,
) -> Result<Resumed<D>, FailureKind>
    requires { accessed access ≡ Some number }
    ensures does { Does (rules.opens number reader access) scene.old result scene.new }
    ensures slot { IfOk result HasSlot }
    ensures kept { (p : Points) → ShowsViews p scene.new.views → IfOk result (KeepsSlots p) }
{
    scene.raise()?;
    scene.atomic(number)?;
    let readable = scene.readable(number, reader)?;
    if !readable.contains(&true) {
        return Err(FailureKind::Misuse);
    }
    Ok(Resumed::Load(Loading { access, readable }))
}

/// An access goes on by the slot that was chosen, in which a store is kept.
// Inlined, so that its answer isn't moved.
#[inline(always)]
pub fn read<D: Drop>(
    scene: &mut Scene<D>,
    access: AtomicOp,
    slot: usize,
) -> Result<Reply<D>, FailureKind>
    ensures { DoesAt access slot (λ w. rules.reads access w slot) scene.old result scene.new }
{
    match access {
        AtomicOp::Load(number, order) => load(scene, number, order, slot),
        AtomicOp::Update(number, change, order) => update(scene, number, change, order, slot),
        AtomicOp::CompareExchange(number, attempt) => {
            let answer = exchange(scene, number, attempt, slot)?;
            Ok(Reply::Exchanged(answer))
        }
        AtomicOp::CompareAndSwap(number, expected, new, order) => {
            let answer = exchange(scene, number, swap_of(expected, new, order), slot)?;
            Ok(Reply::Value(either_way(answer)))
        }
        AtomicOp::New(..)
        | AtomicOp::Store(..)
        | AtomicOp::UnsyncLoad(_)
        | AtomicOp::IntoInner(_)
        | AtomicOp::WithMut(_)
        | AtomicOp::WithMutEnd(..) => Err(FailureKind::Misuse),
    }
}

/// A read-modify-write of the store in the slot.
fn update<D: Drop>(
    scene: &mut Scene<D>,
    number: usize,
    change: Change,
    order: Ordering,
    slot: usize,
) -> Result<Reply<D>, FailureKind>
    ensures { DoesAt (AtomicOp.Update number change order) slot (rules.updates number change order slot) scene.old result scene.new }
{
    let numbers = scene.atomic(number)?.numbers;
    let read = scene.update_read(number, slot)?;
    let value = numbers.fit(change.apply(numbers, read));
    scene.update_write(number, slot, value, order)?;
    Ok(Reply::Value(read))
}

/// A compare-exchange of the store in the slot: Ok of the value that was read where it was the expected one, and else Err
/// of it.
fn exchange<D: Drop>(
    scene: &mut Scene<D>,
    number: usize,
    exchange: Exchange,
    slot: usize,
) -> Result<Result<u64, u64>, FailureKind>
    ensures { DoesAt (AtomicOp.CompareExchange number exchange) slot (rules.exchanges number exchange slot) scene.old result scene.new }
{
    let numbers = scene.atomic(number)?.numbers;
    let read = scene.update_read(number, slot)?;
    if read != numbers.fit(exchange.expected) {
        end_exchange(scene, number, slot, exchange);
        return Ok(Err(read));
    }
    let new = numbers.fit(exchange.new);
    scene.update_write(number, slot, new, exchange.success)?;
    Ok(Ok(read))
}

impl Kept for Atomic {
    fn copied(&self, _alloc: Global) -> Result<Atomic, AllocError> {
        Ok(*self)
    }

    fn is_equal(&self, other: &Atomic) -> bool {
        self.numbers == other.numbers
            && self.is_taken == other.is_taken
            && self.opened.is_same(&other.opened)
    }
}
