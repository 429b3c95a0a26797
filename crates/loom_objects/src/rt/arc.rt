//! Counted references: their state, and what the operations of `Arc` do to it (loom's `rt/arc.rs`).
ghost use Rattle.std.specs.Borrow.{sem};
ghost use Rattle.loom_objects.specs.Scene.Lends.{lends_in_scene, lends_kind};
ghost use Rattle.loom_objects.specs.Scene.Lookup.{now_of, shown_of};
ghost use Rattle.loom_objects.specs.Scene.Lookup as lookup;
ghost use Rattle.loom_objects.specs.contracts.rt.arc.Arc as arc_row;
ghost use Rattle.std.specs.Prelude.{◌≡◌, ◌+◌, OnOk, OnErr, false, IfOk, true};
ghost use Rattle.loom_objects.specs.Rules.Arc.{is_free, may_grow, sole_value, with_one_fewer, lent_alone};
ghost use Rattle.loom_objects.specs.Rules.Moves.{pending, with_thread};
ghost use Rattle.loom_objects.specs.Stages.Memory.{memory_outside as outside};
ghost use Rattle.loom_objects.specs.Rules.Arc as rules;
ghost use Rattle.loom_objects.specs.Scene.Stage.{Does, DoesIfOk};

use crate::data::Data;
use crate::operation::{ArcOp, Reply, Turn};
use crate::rt::kept::Kept;
pub use crate::rt::lent::Lent;
use crate::rt::object::{Object, of_kind};
use crate::rt::run::{Entry, Passed, copied};
use crate::rt::scene::Scene;
use crate::rt::stages::memory_outside;
use crate::rt::thread::{Counting, Task};
use loom_views::rt::failure::FailureKind;
use loom_views::same::Same;
use std::alloc::{AllocError, Global};

/// A counted reference (loom's `rt/arc.rs`).
#[derive(Drop)]
pub struct Arc<D> {
    /// How many references there are.
    pub count: u64,
    /// Its value, while a reference is left.
    pub content: Lent<D>,
}

impl<D: Drop> Arc<D> {
    /// A reference is left, and no thread has the value out.
    pub fn is_free(&self) -> bool
        ensures { result ≡ is_free self.now }
    {
        self.count > 0 && self.content.lent.is_none()
    }

    /// One reference more.
    pub fn grow(&mut self) -> Result<(), FailureKind>
        ensures result { result ≡ may_grow self.old }
        ensures ok { OnOk result (self.new ≡ record self.old { count = self.old.count + 1 }) }
        ensures err { OnErr result (self.new ≡ self.old) }
    {
        if !self.is_free() {
            return Err(FailureKind::Misuse);
        }
        if self.count == u64::MAX {
            return Err(FailureKind::TooManySteps);
        }
        self.count += 1;
        Ok(())
    }

    /// One reference fewer. The last one gives the value.
    pub fn shrink(&mut self) -> Result<Option<D>, FailureKind>
        ensures result { result ≡ sole_value self.old }
        ensures ok { OnOk result (self.new ≡ with_one_fewer self.old) }
        ensures err { OnErr result (self.new ≡ self.old) }
    {
        if !self.is_free() {
            return Err(FailureKind::Misuse);
        }
        self.count -= 1;
        if self.count > 0 {
            return Ok(None);
        }
        Ok(self.content.take())
    }

    /// The thread has the value, if there is one reference alone.
    pub fn lend(&mut self, thread: u8) -> Result<Option<D>, FailureKind>
        ensures result { result ≡ sole_value self.old }
        ensures ok { OnOk result (self.new ≡ lent_alone thread self.old) }
        ensures err { OnErr result (self.new ≡ self.old) }
    {
        if !self.is_free() {
            return Err(FailureKind::Misuse);
        }
        if self.count > 1 {
            return Ok(None);
        }
        Ok(self.content.lend(thread))
    }
}

impl<D> Object<D> {
    /// The counted reference that it is, to change. Misuse where it is none.
    fn as_arc_mut(&mut self) -> Result<&mut Arc<D>, FailureKind>
        ensures* writes_back { sem 𝓛 (lends_kind D.row (arc_row.the_row D.row) Object.Arc self.entry result) }
        ensures value { now_of result ≡ lookup.arc_in self.old }
    {
        of_kind!(self, Arc(arc))
    }
}

impl<D: Drop> Scene<D> {
    /// The counted reference of this number, to read. Misuse where there is none.
    pub fn arc(&self, number: usize) -> Result<&Arc<D>, FailureKind>
        ensures { shown_of result ≡ lookup.arc_at number self.now.objects }
    {
        of_kind!(self.object(number)?, Arc(arc))
    }

    /// The counted reference of this number, to change. Misuse where there is none.
    #[tactic(auto, using(crate::proofs::Scene::Finding::object_kept))]
    pub fn arc_mut(&mut self, number: usize) -> Result<&mut Arc<D>, FailureKind>
        ensures* writes_back { sem 𝓛 (lends_in_scene D.row (arc_row.the_row D.row) Object.Arc self.entry number result) }
        ensures value { now_of result ≡ lookup.arc_at number self.old.objects }
    {
        self.object_mut(number)?.as_arc_mut()
    }
}

/// The active thread reaches a second branch point, at which it takes the value out.
pub fn pend_unwrap<D: Drop>(scene: &mut Scene<D>, number: usize) -> Passed<D>
    ensures pends { scene.new ≡ record scene.old { threads = with_thread (pending (Task.Count Counting.Unwrap number) false) scene.old.active scene.old.threads } }
    ensures branch { result ≡ Passed.AtBranch }
{
    scene.pend(Task::Count(Counting::Unwrap, number), false);
    Passed::AtBranch
}

/// The value, or that others share it.
fn shared_unless<D>(value: Option<D>) -> Reply<D>
    ensures { result ≡ rules.shared_unless value }
{
    match value {
        None => Reply::Shared,
        Some(value) => Reply::Data(value),
    }
}

/// What an operation on a counted reference does up to its branch point, or all of it. An error only where memory is refused.
pub fn arc_begins<D: Data>(
    scene: &mut Scene<D>,
    op: ArcOp<D>,
) -> Result<Result<Entry<D>, FailureKind>, AllocError>
    ensures does { IfOk result (λ answer. Does (rules.arc_begins op) scene.old answer scene.new) }
    ensures growth { OnErr result (rules.needs_memory op ≡ true) }
{
    match op {
        ArcOp::New(value) => Ok(Ok(arc_new(scene, value)?)),
        ArcOp::Get(number) => memory_outside(arc_get(scene, number)),
        ArcOp::Put(number, value) => Ok(arc_put(scene, number, value)),
        ArcOp::Clone(number) => Ok(count_begins(scene, Counting::Clone, number)),
        ArcOp::Drop(number) => Ok(count_begins(scene, Counting::Drop, number)),
        ArcOp::GetMut(number) => Ok(count_begins(scene, Counting::GetMut, number)),
        ArcOp::StrongCount(number) => Ok(count_begins(scene, Counting::StrongCount, number)),
        ArcOp::TryUnwrap(number) => Ok(unwrap_begins(scene, number)),
    }
}

/// A value with one reference.
fn arc_new<D: Drop>(scene: &mut Scene<D>, value: D) -> Result<Entry<D>, AllocError>
    ensures { DoesIfOk (rules.arc_new value) scene.old result scene.new }
{
    let arc = Arc {
        count: 1,
        content: Lent::new(value),
    };
    let number = scene.add(Object::Arc(arc))?;
    Ok(Entry::Answered(Reply::Arc(number)))
}

/// A copy of the value.
fn arc_get<D: Data>(
    scene: &Scene<D>,
    number: usize,
) -> Result<Result<Entry<D>, AllocError>, FailureKind>
    ensures { IfOk (outside result) (λ answer. Does (rules.arc_get number) scene.now answer scene.now) }
{
    let arc = scene.arc(number)?;
    if !arc.is_free() {
        return Err(FailureKind::Misuse);
    }
    let value = arc.content.value().ok_or(FailureKind::Misuse)?;
    Ok(copied(value))
}

/// The thread that has the value out puts one back.
fn arc_put<D: Drop>(scene: &mut Scene<D>, number: usize, value: D) -> Result<Entry<D>, FailureKind>
    ensures { Does (rules.arc_put number value) scene.old result scene.new }
{
    let active = scene.active();
    let arc = scene.arc_mut(number)?;
    if !arc.content.put(active, value) {
        return Err(FailureKind::Misuse);
    }
    Ok(Entry::Answered(Reply::Done))
}

fn count_begins<D: Drop>(
    scene: &mut Scene<D>,
    todo: Counting,
    number: usize,
) -> Result<Entry<D>, FailureKind>
    ensures { Does (rules.count_begins todo number) scene.old result scene.new }
{
    come_to(scene, Task::Count(todo, number), number)
}

fn unwrap_begins<D: Drop>(scene: &mut Scene<D>, number: usize) -> Result<Entry<D>, FailureKind>
    ensures { Does (rules.unwrap_begins number) scene.old result scene.new }
{
    come_to(scene, Task::TryUnwrap(number), number)
}

/// The thread reaches a branch point, where it is to do this.
fn come_to<D: Drop>(
    scene: &mut Scene<D>,
    todo: Task<D>,
    number: usize,
) -> Result<Entry<D>, FailureKind>
    ensures { Does (rules.comes_to todo number) scene.old result scene.new }
{
    let arc = scene.arc(number)?;
    if arc.count == 0 {
        return Err(FailureKind::Misuse);
    }
    scene.pend(todo, false);
    Ok(Entry::AtBranch)
}

/// What the active thread does with a counted reference takes effect.
pub fn count<D: Drop>(
    scene: &mut Scene<D>,
    todo: Counting,
    number: usize,
) -> Result<Reply<D>, FailureKind>
    ensures { Does (rules.counts todo number) scene.old result scene.new }
{
    match todo {
        Counting::Clone => increment(scene, number),
        Counting::Drop => decrement(scene, number),
        Counting::GetMut => take_out(scene, number),
        Counting::Unwrap => unwrap(scene, number),
        Counting::StrongCount => tell_count(scene, number),
    }
}

/// One reference more.
fn increment<D: Drop>(scene: &mut Scene<D>, number: usize) -> Result<Reply<D>, FailureKind>
    ensures { Does (rules.increments number) scene.old result scene.new }
{
    let arc = scene.arc_mut(number)?;
    arc.grow()?;
    Ok(Reply::Done)
}

/// One reference fewer, to which the thread releases; who drops the last one acquires, and has the value.
fn decrement<D: Drop>(scene: &mut Scene<D>, number: usize) -> Result<Reply<D>, FailureKind>
    ensures { Does (rules.decrements number) scene.old result scene.new }
{
    let arc = scene.arc_mut(number)?;
    let last = arc.shrink()?;
    scene.release(number);
    match last {
        None => Ok(Reply::Done),
        Some(value) => {
            scene.acquire(number);
            Ok(Reply::Data(value))
        }
    }
}

/// The thread acquires, and has the value if nobody shares it.
fn take_out<D: Drop>(scene: &mut Scene<D>, number: usize) -> Result<Reply<D>, FailureKind>
    ensures { Does (rules.takes_out number) scene.old result scene.new }
{
    let active = scene.active();
    let arc = scene.arc_mut(number)?;
    let value = arc.lend(active)?;
    scene.acquire(number);
    Ok(shared_unless(value))
}

/// The thread drops the one reference that there is, and has the value.
fn unwrap<D: Drop>(scene: &mut Scene<D>, number: usize) -> Result<Reply<D>, FailureKind>
    ensures { Does (rules.unwraps number) scene.old result scene.new }
{
    let arc = scene.arc(number)?;
    if arc.count != 1 {
        return Err(FailureKind::Misuse);
    }
    decrement(scene, number)
}

/// The thread acquires, and is answered how many references there are.
fn tell_count<D: Drop>(scene: &mut Scene<D>, number: usize) -> Result<Reply<D>, FailureKind>
    ensures { Does (rules.tells_count number) scene.old result scene.new }
{
    let arc = scene.arc(number)?;
    if !arc.is_free() {
        return Err(FailureKind::Misuse);
    }
    let count = arc.count;
    scene.acquire(number);
    Ok(Reply::Value(count))
}

/// The thread acquires, and reaches a second branch point, if it has the one reference alone.
pub fn try_unwrap<D: Drop>(scene: &mut Scene<D>, number: usize) -> Result<Passed<D>, FailureKind>
    ensures { Does (rules.tries_unwrap number) scene.old result scene.new }
{
    let arc = scene.arc(number)?;
    if !arc.is_free() {
        return Err(FailureKind::Misuse);
    }
    let is_sole = arc.count == 1;
    scene.acquire(number);
    if !is_sole {
        return Ok(Passed::Turn(Turn::Reply(scene.active(), Reply::Shared)));
    }
    Ok(pend_unwrap(scene, number))
}

impl<D: Data + Same> Kept for Arc<D> {
    fn copied(&self, alloc: Global) -> Result<Arc<D>, AllocError> {
        Ok(Arc {
            count: self.count,
            content: self.content.copied(alloc)?,
        })
    }

    fn is_equal(&self, other: &Arc<D>) -> bool {
        self.count == other.count && self.content.is_equal(&other.content)
    }
}
