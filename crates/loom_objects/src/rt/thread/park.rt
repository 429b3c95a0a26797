//! `park`, `unpark` and `yield_now` (loom's `rt.rs`).
ghost use Rattle.std.specs.Prelude.{Ok};
ghost use Rattle.loom_objects.specs.Scene.Stage.{Does};
ghost use Rattle.loom_objects.specs.Rules.Thread as rules;

use crate::operation::Reply;
use crate::rt::run::Entry;
use crate::rt::scene::Scene;
use crate::rt::thread::{State, Task};
use loom_views::rt::failure::FailureKind;

/// The active thread yields, and reaches a branch point.
pub(crate) fn yield_now<D: Drop>(scene: &mut Scene<D>) -> Result<Entry<D>, FailureKind>
    ensures { Does rules.yield_now scene.old result scene.new }
{
    scene.yield_by(Task::Continue)?;
    Ok(Entry::AtBranch)
}

/// Which thread the active one is, and its name.
pub(crate) fn current<D: Drop>(scene: &Scene<D>) -> Entry<D>
    ensures { Does rules.current scene.now (Ok result) scene.now }
{
    let name = scene.active_thread().name;
    Entry::Answered(Reply::Thread(scene.active(), name))
}

/// The active thread takes its token, or is parked and reaches a branch point.
pub(crate) fn park<D: Drop>(scene: &mut Scene<D>) -> Entry<D>
    ensures { Does rules.park scene.old (Ok result) scene.new }
{
    if scene.active_thread().has_token {
        scene.set_token(false);
        return Entry::Answered(Reply::Done);
    }
    scene.rest(State::Parked, Task::Continue);
    Entry::AtBranch
}

/// A parked thread can go on, and another one has a token. It takes in the active thread's view, unless it is that one.
pub(crate) fn unpark<D: Drop>(scene: &mut Scene<D>, thread: u8) -> Result<Entry<D>, FailureKind>
    ensures { Does (rules.unpark thread) scene.old result scene.new }
{
    scene.unpark(thread)?;
    if thread == scene.active() {
        return Ok(Entry::Answered(Reply::Done));
    }
    scene.join_view(thread);
    Ok(Entry::Answered(Reply::Done))
}
