//! What the pending operation of each thread does to its object (loom's `rt/thread.rs`, `rt/object.rs`).
ghost use Rattle.std.specs.Prelude.{ℕ, ◌≡◌};
ghost use Rattle.loom_objects.specs.Scene.Stage.{world_of};
ghost use Rattle.loom_objects.specs.Rules.Uses as rules;
ghost use Rattle.loom_views.specs.Views.{Points};

use crate::rt::dependence::Use;
use crate::rt::scene::Scene;
use crate::rt::thread::Thread;
use loom_views::rt::MAX_THREADS;
use loom_views::sequence::Sequence;

/// What the pending operation of the thread at this place does to its object; none where there is no such thread.
// Inlined: it is asked of five threads at each schedule of a reduced search.
#[inline(always)]
fn use_at<D>(threads: &Sequence<Thread<D>>, place: usize) -> Option<Use>
    ensures { result ≡ rules.use_at threads.now place }
{
    if place >= threads.len() {
        return None;
    }
    threads.at(place).task.used()
}

impl<D: Drop> Scene<D> {
    /// What the pending operation of each of the five threads does to its object, whatever the thread's state.
    #[inline(always)]
    pub fn uses(&self) -> [Option<Use>; MAX_THREADS]
        ensures { (points : Points) → (left : ℕ) → result ≡ rules.uses (world_of points left self.now) }
    {
        [
            use_at(&self.threads, 0),
            use_at(&self.threads, 1),
            use_at(&self.threads, 2),
            use_at(&self.threads, 3),
            use_at(&self.threads, 4),
        ]
    }
}
