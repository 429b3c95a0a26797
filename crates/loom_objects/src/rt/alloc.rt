//! Tracked values, which leak where they are left: their state, and what the operations of `Track` do to it (loom's
//! `rt/alloc.rs`).
ghost use Rattle.std.specs.Borrow.{sem};
ghost use Rattle.loom_objects.specs.Scene.Lends.{lends_in_scene, lends_kind};
ghost use Rattle.loom_objects.specs.Scene.Lookup.{now_of, shown_of};
ghost use Rattle.loom_objects.specs.Scene.Lookup as lookup;
ghost use Rattle.loom_objects.specs.contracts.rt.alloc.Track as track_row;
ghost use Rattle.std.specs.Prelude.{◌≡◌, IfOk, OnErr, true};
ghost use Rattle.loom_objects.specs.Stages.Memory.{memory_outside as outside};
ghost use Rattle.loom_objects.specs.Rules.Alloc as rules;
ghost use Rattle.loom_objects.specs.Scene.Stage.{Does, DoesIfOk};

use crate::data::Data;
use crate::operation::{Reply, TrackOp};
use crate::rt::kept::Kept;
pub use crate::rt::lent::Lent;
use crate::rt::object::{Object, of_kind};
use crate::rt::run::{Entry, copied};
use crate::rt::scene::Scene;
use crate::rt::stages::memory_outside;
use loom_views::rt::failure::FailureKind;
use loom_views::same::Same;
use std::alloc::{AllocError, Global};

/// A value that is to be given back before the run ends (loom's `rt/alloc.rs`).
#[derive(Drop)]
pub struct Track<D> {
    /// The value, which is taken apart where it is given back.
    pub content: Lent<D>,
}

impl<D> Object<D> {
    /// The tracked value that it is, to change. Misuse where it is none.
    fn as_track_mut(&mut self) -> Result<&mut Track<D>, FailureKind>
        ensures* writes_back { sem 𝓛 (lends_kind D.row (track_row.the_row D.row) Object.Track self.entry result) }
        ensures value { now_of result ≡ lookup.track_in self.old }
    {
        of_kind!(self, Track(track))
    }
}

impl<D: Drop> Scene<D> {
    /// The tracked value of this number, to read. Misuse where there is none.
    pub fn track(&self, number: usize) -> Result<&Track<D>, FailureKind>
        ensures { shown_of result ≡ lookup.track_at number self.now.objects }
    {
        of_kind!(self.object(number)?, Track(track))
    }

    /// The tracked value of this number, to change. Misuse where there is none.
    #[tactic(auto, using(crate::proofs::Scene::Finding::object_kept))]
    pub fn track_mut(&mut self, number: usize) -> Result<&mut Track<D>, FailureKind>
        ensures* writes_back { sem 𝓛 (lends_in_scene D.row (track_row.the_row D.row) Object.Track self.entry number result) }
        ensures value { now_of result ≡ lookup.track_at number self.old.objects }
    {
        self.object_mut(number)?.as_track_mut()
    }
}

/// What an operation on a tracked value does, which has no branch point. An error only where memory is refused.
pub fn track_begins<D: Data>(
    scene: &mut Scene<D>,
    op: TrackOp<D>,
) -> Result<Result<Entry<D>, FailureKind>, AllocError>
    ensures does { IfOk result (λ answer. Does (rules.track_begins op) scene.old answer scene.new) }
    ensures growth { OnErr result (rules.needs_memory op ≡ true) }
{
    match op {
        TrackOp::New(value) => Ok(Ok(track_new(scene, value)?)),
        TrackOp::GetRef(number) => memory_outside(track_get_ref(scene, number)),
        TrackOp::GetMut(number) => Ok(track_get_mut(scene, number)),
        TrackOp::Put(number, value) => Ok(track_put(scene, number, value)),
        TrackOp::IntoInner(number) => Ok(track_take(scene, number)),
        TrackOp::Drop(number) => Ok(track_take(scene, number)),
    }
}

fn track_new<D: Drop>(scene: &mut Scene<D>, value: D) -> Result<Entry<D>, AllocError>
    ensures { DoesIfOk (rules.track_new value) scene.old result scene.new }
{
    let track = Track {
        content: Lent::new(value),
    };
    let number = scene.add(Object::Track(track))?;
    Ok(Entry::Answered(Reply::Track(number)))
}

/// A copy of the value.
fn track_get_ref<D: Data>(
    scene: &Scene<D>,
    number: usize,
) -> Result<Result<Entry<D>, AllocError>, FailureKind>
    ensures { IfOk (outside result) (λ answer. Does (rules.track_get_ref number) scene.now answer scene.now) }
{
    let track = scene.track(number)?;
    let value = track.content.value().ok_or(FailureKind::Misuse)?;
    Ok(copied(value))
}

/// The value goes out.
fn track_get_mut<D: Drop>(scene: &mut Scene<D>, number: usize) -> Result<Entry<D>, FailureKind>
    ensures { Does (rules.track_get_mut number) scene.old result scene.new }
{
    let active = scene.active();
    let track = scene.track_mut(number)?;
    let value = track.content.lend(active).ok_or(FailureKind::Misuse)?;
    Ok(Entry::Answered(Reply::Data(value)))
}

/// The thread that has the value out puts one back.
fn track_put<D: Drop>(
    scene: &mut Scene<D>,
    number: usize,
    value: D,
) -> Result<Entry<D>, FailureKind>
    ensures { Does (rules.track_put number value) scene.old result scene.new }
{
    let active = scene.active();
    let track = scene.track_mut(number)?;
    if !track.content.put(active, value) {
        return Err(FailureKind::Misuse);
    }
    Ok(Entry::Answered(Reply::Done))
}

/// The value is given back.
fn track_take<D: Drop>(scene: &mut Scene<D>, number: usize) -> Result<Entry<D>, FailureKind>
    ensures { Does (rules.track_take number) scene.old result scene.new }
{
    let track = scene.track_mut(number)?;
    let value = track.content.take_apart().ok_or(FailureKind::Misuse)?;
    Ok(Entry::Answered(Reply::Data(value)))
}

impl<D: Data + Same> Kept for Track<D> {
    fn copied(&self, alloc: Global) -> Result<Track<D>, AllocError> {
        Ok(Track {
            content: self.content.copied(alloc)?,
        })
    }

    fn is_equal(&self, other: &Track<D>) -> bool {
        self.content.is_equal(&other.content)
    }
}
