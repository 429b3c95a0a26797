//! Operations on a thread's own values and on values that are made once a run (loom's `thread_local!` and `lazy_static!`).
ghost use Rattle.std.specs.Prelude.{◌≡◌, IfOk, None, OnErr, true};
ghost use Rattle.loom_objects.specs.Scene.Stage.{Does, DoesIfOk};
ghost use Rattle.loom_objects.specs.Rules.Locals as rules;
ghost use Rattle.loom_objects.specs.Stages.LocalCopy.{ReadsLocal};

use crate::data::Data;
use crate::operation::{LazyOp, LocalOp, Reply};
use crate::rt::run::{Entry, copied};
use crate::rt::scene::Scene;
use loom_views::rt::failure::FailureKind;
use std::alloc::AllocError;

/// What an operation on a value of the active thread's own does. An error of the outer result only where memory is refused (loom's
/// `thread.rs`).
pub fn local_begins<D: Data>(
    scene: &mut Scene<D>,
    op: LocalOp<D>,
) -> Result<Result<Entry<D>, FailureKind>, AllocError>
    ensures does { IfOk result (λ answer. Does (rules.local_begins op) scene.old answer scene.new) }
    ensures growth { OnErr result (rules.local_needs_memory op ≡ true) }
{
    match op {
        LocalOp::With(key) => local_with(scene, key),
        LocalOp::TryWith(key) => local_try_with(scene, key),
        LocalOp::Init(key, value) => local_init(scene, key, value),
        LocalOp::Put(key, value) => Ok(local_put(scene, key, value)),
    }
}

/// A copy of the value, or that there is none yet. None where it was given back.
fn read_local<D: Data>(scene: &Scene<D>, key: usize) -> Result<Option<Entry<D>>, AllocError>
    ensures { IfOk result (λ answer. ReadsLocal key scene.now answer) }
{
    let thread = scene.active_thread();
    match thread.local(key) {
        Some(local) => {
            let answer = copied(&local.value)?;
            Ok(Some(answer))
        }
        None if thread.has_had(key) => Ok(None),
        None => Ok(Some(Entry::Answered(Reply::Absent))),
    }
}

/// A copy of the value. `LocalGone` where it was given back.
fn local_with<D: Data>(
    scene: &Scene<D>,
    key: usize,
) -> Result<Result<Entry<D>, FailureKind>, AllocError>
    ensures { IfOk result (λ answer. Does (rules.local_begins (LocalOp.With key)) scene.now answer scene.now) }
{
    match read_local(scene, key)? {
        Some(entry) => Ok(Ok(entry)),
        None => Ok(Err(FailureKind::LocalGone)),
    }
}

/// A copy of the value, or that it was given back.
fn local_try_with<D: Data>(
    scene: &Scene<D>,
    key: usize,
) -> Result<Result<Entry<D>, FailureKind>, AllocError>
    ensures { IfOk result (λ answer. Does (rules.local_begins (LocalOp.TryWith key)) scene.now answer scene.now) }
{
    match read_local(scene, key)? {
        Some(entry) => Ok(Ok(entry)),
        None => Ok(Ok(Entry::Answered(Reply::AccessError))),
    }
}

/// The first value of the key, of which the thread has a copy. `KeyTaken` where it has or had one.
fn local_init<D: Data>(
    scene: &mut Scene<D>,
    key: usize,
    value: D,
) -> Result<Result<Entry<D>, FailureKind>, AllocError>
    ensures { IfOk result (λ answer. Does (rules.local_init key value) scene.old answer scene.new) }
{
    if scene.active_thread().has_had(key) {
        return Ok(Err(FailureKind::KeyTaken));
    }
    let copy = value.try_clone()?;
    scene.init_local(key, value)?;
    Ok(Ok(Entry::Answered(Reply::Data(copy))))
}

/// Another value takes the place of the one that is there, which comes back. `Misuse` where there is none.
fn local_put<D: Drop>(scene: &mut Scene<D>, key: usize, value: D) -> Result<Entry<D>, FailureKind>
    ensures { Does (rules.local_put key value) scene.old result scene.new }
{
    let value = scene.put_local(key, value).ok_or(FailureKind::Misuse)?;
    Ok(Entry::Answered(Reply::Data(value)))
}

/// What an operation on a value that is made once a run does. An error of the outer result only where memory is refused (loom's
/// `lazy_static.rs`).
pub fn lazy_begins<D: Data>(
    scene: &mut Scene<D>,
    op: LazyOp<D>,
) -> Result<Result<Entry<D>, FailureKind>, AllocError>
    ensures does { IfOk result (λ answer. Does (rules.lazy_begins op) scene.old answer scene.new) }
    ensures growth { OnErr result (rules.lazy_needs_memory op ≡ true) }
{
    match op {
        LazyOp::Get(key) => lazy_get(scene, key),
        LazyOp::Init(key, value) => lazy_init(scene, key, value),
    }
}

/// A copy of the value that was made, once its maker's view was acquired. `LazyShutdown` where main has finished.
fn lazy_get<D: Data>(
    scene: &mut Scene<D>,
    key: usize,
) -> Result<Result<Entry<D>, FailureKind>, AllocError>
    ensures { IfOk result (λ answer. Does (rules.lazy_get key) scene.old answer scene.new) }
{
    if !scene.is_open() {
        return Ok(Err(FailureKind::LazyShutdown));
    }
    match scene.lazy(key) {
        None => Ok(Ok(Entry::Answered(Reply::Absent))),
        Some(lazy) => {
            let stamp = lazy.stamp;
            let answer = copied(&lazy.value)?;
            scene.acquire_from_stamp(stamp);
            Ok(Ok(answer))
        }
    }
}

/// The value, unless one was made before: then that one is copied, and the value comes back. `LazyShutdown` where main has finished.
fn lazy_init<D: Data>(
    scene: &mut Scene<D>,
    key: usize,
    value: D,
) -> Result<Result<Entry<D>, FailureKind>, AllocError>
    ensures { IfOk result (λ answer. Does (rules.lazy_init key value) scene.old answer scene.new) }
{
    if !scene.is_open() {
        return Ok(Err(FailureKind::LazyShutdown));
    }
    match scene.lazy(key) {
        None => {
            let made = make_lazy(scene, key, value)?;
            Ok(Ok(made))
        }
        Some(lazy) => {
            let stamp = lazy.stamp;
            let stood = lazy.value.try_clone()?;
            scene.acquire_from_stamp(stamp);
            Ok(Ok(Entry::Answered(Reply::Stood(stood, value))))
        }
    }
}

/// A value that is new is kept, and its maker releases to its stamp.
fn make_lazy<D: Data>(scene: &mut Scene<D>, key: usize, value: D) -> Result<Entry<D>, AllocError>
    ensures { DoesIfOk (rules.makes_lazy key value None) scene.old result scene.new }
{
    let copy = value.try_clone()?;
    let stamp = scene.add_stamp()?;
    scene.add_lazy(key, value, stamp)?;
    scene.release_to_stamp(stamp);
    Ok(Entry::Answered(Reply::Data(copy)))
}
