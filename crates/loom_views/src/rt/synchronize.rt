//! The views of a thread, and of an object at which threads synchronize. They are plain values; no call here takes memory.

ghost use Rattle.std.specs.Prelude.{◌≡◌, ℕ, ◌<◌, ◌≤◌, ◌↔◌, ◌⊎◌, false, if◌then◌else◌, None, [], length, slice_index};
ghost use Rattle.std.specs.Option.{IsNone, IfSome};
ghost use Rattle.loom_views.specs.InOrder.{PairsThreads, PairsVectors, Ranked};
ghost use Rattle.loom_views.specs.Limits.{highest_version};
ghost use Rattle.loom_views.specs.Graph.{Graph, IsChained, IsPresent, Shows, raised};
ghost use Rattle.loom_views.specs.ThreadViews.{ThreadPoints, ShowsThread, with_present, graph_after_raise, graph_after_acquire, graph_after_release_fence, graph_after_spawn, child_points, parent_points, graph_after_load, thread_after_load, graph_after_store};
ghost use Rattle.std.specs.Bool.{OnTrue, OnFalse};
ghost use Rattle.loom_views.specs.Versions.{zeros, join, within, raised_at};
ghost use Rattle.loom_views.specs.Orderings.{is_acquire, is_release};

use crate::rt::ranks::{Ranks, Standing};
use crate::rt::vv::{VersionVec, mixed};
use crate::same::Same;
use std::marker::Model;
use std::sync::atomic::Ordering;

/// The views of a thread (loom's `rt/thread.rs`).
#[derive(Clone, Copy)]
pub struct ThreadViews {
    /// What has come to the thread so far (loom's `causality`).
    pub present: VersionVec,
    /// What the thread had at its last release fence (loom's `released`).
    pub released: VersionVec,
    /// Its own version at its last yield (loom's `last_yield`).
    pub last_yield: Option<u16>,
}

impl ThreadViews {
    /// Nothing has come to the thread yet (loom's `rt/thread.rs`).
    pub fn new() -> ThreadViews
        ensures { result ≡ record { present = zeros; released = zeros; last_yield = None } }
    {
        ThreadViews {
            present: VersionVec::new(),
            released: VersionVec::new(),
            last_yield: None,
        }
    }

    /// Raises the thread's own version by one. Where it has raised 65,534 times it answers false instead, and changes nothing
    /// (loom's `rt/vv.rs`; the limit is own).
    pub fn raise(&mut self, thread: usize) -> bool
        requires { thread < 5 }
        ensures raised { OnTrue result (self.new ≡ record self.old { present = raised_at self.old.present thread }) }
        ensures full { (result ≡ false) ↔ (slice_index self.old.present thread ≡ highest_version) }
        ensures unchanged { OnFalse result (self.new ≡ self.old) }
        ensures shown { (g : Graph) (p : ThreadPoints) → IsChained g → ShowsThread g thread p self.old →
            OnTrue result (ShowsThread (graph_after_raise g p thread) thread (with_present g p) self.new) }
        ensures room { (g : Graph) (p : ThreadPoints) → IsPresent g thread p.present → ShowsThread g thread p self.old →
            ((result ≡ false) ↔ (length (raised g thread) ≡ highest_version)) }
        ensures counted { (g : Graph) (p : ThreadPoints) → IsPresent g thread p.present → ShowsThread g thread p self.old →
            length (raised g thread) ≤ highest_version }
    {
        self.present.inc(thread)
    }

    /// Takes in another view: an object's at an acquire, or a thread's at a join (loom's `rt/synchronize.rs`).
    pub fn acquire(&mut self, view: &VersionVec)
        ensures joined { self.new ≡ record self.old { present = join self.old.present view.now } }
        ensures shown { (g : Graph) (t : ℕ) (p : ThreadPoints) (k : ℕ) → IsChained g → ShowsThread g t p self.old → Shows g k view.now →
            ShowsThread (graph_after_acquire g p k) t (with_present g p) self.new }
    {
        self.present.join(view);
    }

    /// Whether the thread knows of all accesses that a vector joins. An access that conflicts with an unknown one is a race
    /// (loom's `rt/atomic.rs`).
    pub fn is_after(&self, accesses: &VersionVec) -> bool
        ensures { result ≡ within accesses.now self.now.present }
    {
        accesses.is_within(&self.present)
    }

    /// Takes in the global view, which then takes in what has come to the thread. What the thread releases stays as it is (loom's
    /// `rt/thread.rs`).
    pub fn meet(&mut self, global: &mut VersionVec)
        ensures joined { self.new ≡ record self.old { present = join self.old.present global.old } }
        ensures met { global.new ≡ join global.old self.new.present }
        ensures shown { (g : Graph) (t : ℕ) (p : ThreadPoints) (k : ℕ) → IsChained g → ShowsThread g t p self.old → Shows g k global.old →
            ShowsThread (graph_after_acquire g p k) t (with_present g p) self.new }
    {
        self.acquire(global);
        global.join(&self.present);
    }

    /// A release fence: what has come to the thread is released by its later stores (loom's `rt/atomic.rs`).
    pub fn release_fence(&mut self)
        ensures joined { self.new ≡ record self.old { released = join self.old.released self.old.present } }
        ensures shown { (g : Graph) (t : ℕ) (p : ThreadPoints) → IsChained g → ShowsThread g t p self.old →
            ShowsThread (graph_after_release_fence g p) t (record p { released = length g }) self.new }
    {
        self.released.join(&self.present);
    }

    /// The views of a child: what has come to the parent, and a raise of the child. Then the parent raises. Where one of the
    /// two counts is 65,534 there is no child, and nothing changes (loom's `rt/execution.rs`; the limit is own).
    pub fn spawn(&mut self, thread: usize, child: usize) -> Option<ThreadViews>
        requires thread_in { thread < 5 }
        requires child_in { child < 5 }
        ensures full { IsNone result ↔ ((slice_index self.old.present child ≡ highest_version) ⊎ (slice_index self.old.present thread ≡ highest_version)) }
        ensures raised { IfSome result (λ views. (views ≡ record { present = raised_at self.old.present child; released = zeros; last_yield = None }) × (self.new ≡ record self.old { present = raised_at self.old.present thread })) }
        ensures unchanged { IsNone result → self.new ≡ self.old }
        ensures room { (g : Graph) (p : ThreadPoints) → raised g child ≡ [] → IsPresent g thread p.present → ShowsThread g thread p self.old →
            (IsNone result ↔ (length (raised g thread) ≡ highest_version)) }
        ensures counted { (g : Graph) (p : ThreadPoints) → raised g child ≡ [] → IsPresent g thread p.present → ShowsThread g thread p self.old →
            length (raised g thread) ≤ highest_version }
        ensures shown { (g : Graph) (p : ThreadPoints) → IsChained g → raised g child ≡ [] → ShowsThread g thread p self.old →
            IfSome result (λ views. ShowsThread (graph_after_spawn g p thread child) child (child_points g) views × ShowsThread (graph_after_spawn g p thread child) thread (parent_points g p) self.new) }
    {
        let mut views = ThreadViews::new();
        views.present = self.present;
        if !views.present.inc(child) || !self.present.inc(thread) {
            return None;
        }
        Some(views)
    }
}

/// Whether loads of this ordering acquire (loom's `rt/synchronize.rs`).
pub fn acquires(order: Ordering) -> bool
    ensures { result ≡ is_acquire order }
{
    matches!(
        order,
        Ordering::Acquire | Ordering::AcqRel | Ordering::SeqCst
    )
}

/// Whether stores of this ordering release (loom's `rt/synchronize.rs`).
pub fn releases(order: Ordering) -> bool
    ensures { result ≡ is_release order }
{
    matches!(
        order,
        Ordering::Release | Ordering::AcqRel | Ordering::SeqCst
    )
}

/// The view of an object that threads synchronize at (loom's `rt/synchronize.rs`).
#[derive(Clone, Copy)]
pub struct Synchronize {
    happens_before: VersionVec,
}

impl Model for Synchronize {
    ghost use Rattle.std.specs.Prelude.{ℕ, List};

    ghost Value = { List ℕ };

    ghost view = { λ s. s.happens_before };

    ghost inverse = { λ vs. record { happens_before = vs } };
}

impl Synchronize {
    /// Nothing was stored yet (loom's `rt/synchronize.rs`).
    pub fn new() -> Synchronize
        ensures { result ≡ zeros }
    {
        Synchronize {
            happens_before: VersionVec::new(),
        }
    }

    /// A load: one that acquires brings the object's view to the thread, and another brings nothing (loom's
    /// `rt/synchronize.rs`).
    pub fn sync_load(&self, views: &mut ThreadViews, order: Ordering)
        ensures joined { views.new ≡ record views.old { present = if is_acquire order then join views.old.present self.now else views.old.present } }
        ensures shown { (g : Graph) (t : ℕ) (p : ThreadPoints) (k : ℕ) → IsChained g → ShowsThread g t p views.old → Shows g k self.now →
            ShowsThread (graph_after_load g p k order) t (thread_after_load g p order) views.new }
    {
        if acquires(order) {
            views.present.join(&self.happens_before);
        }
    }

    /// A read-modify-write that fails: a load by its failure ordering (loom's `rt/atomic.rs`).
    pub fn sync_fail(&self, views: &mut ThreadViews, failure: Ordering)
        ensures { views.new ≡ record views.old { present = if is_acquire failure then join views.old.present self.now else views.old.present } }
    {
        self.sync_load(views, failure);
    }

    /// A store: it brings the thread's released view to the object, and one that releases its present view too (loom's
    /// `rt/synchronize.rs`).
    pub fn sync_store(&mut self, views: &ThreadViews, order: Ordering)
        ensures joined { self.new ≡ (if is_release order then join (join self.old views.now.released) views.now.present
            else join self.old views.now.released) }
        ensures shown { (g : Graph) (t : ℕ) (p : ThreadPoints) (k : ℕ) → IsChained g → ShowsThread g t p views.now → Shows g k self.old →
            Shows (graph_after_store g p k order) (length g) self.new }
    {
        self.happens_before.join(&views.released);
        if releases(order) {
            self.happens_before.join(&views.present);
        }
    }
}

impl Same for ThreadViews {
    fn is_same(&self, other: &ThreadViews) -> bool {
        self.present.is_same(&other.present)
            && self.released.is_same(&other.released)
            && self.last_yield.is_same(&other.last_yield)
    }
}

impl Same for Synchronize {
    fn is_same(&self, other: &Synchronize) -> bool {
        self.happens_before.is_same(&other.happens_before)
    }
}

impl ThreadViews {
    /// Adds its counts (own).
    pub fn stand(&self, thread: usize, standing: &mut Standing) {
        standing.add_all(&self.present);
        standing.add_all(&self.released);
        standing.add_optional(thread, self.last_yield);
    }

    /// The thread's views by ranks, if each count has one (own).
    pub fn ranked(&self, thread: usize, ranks: &Ranks) -> Option<ThreadViews>
        ensures { IfSome result (λ ranked. PairsThreads (Ranked ranks.now) thread self.now ranked) }
    {
        Some(ThreadViews {
            present: self.present.ranked(ranks)?,
            released: self.released.ranked(ranks)?,
            last_yield: ranks.rank_optional(thread, self.last_yield)?,
        })
    }

    /// A number that depends on the views alone (own).
    pub fn digest(&self) -> u64 {
        mixed(self.present.digest(), self.released.digest())
    }
}

impl Synchronize {
    /// Adds its counts (own).
    pub fn stand(&self, standing: &mut Standing) {
        standing.add_all(&self.happens_before);
    }

    /// The view by ranks, if each count has one (own).
    pub fn ranked(&self, ranks: &Ranks) -> Option<Synchronize>
        ensures { IfSome result (λ ranked. PairsVectors (Ranked ranks.now) self.now ranked) }
    {
        Some(Synchronize {
            happens_before: self.happens_before.ranked(ranks)?,
        })
    }

    /// A number that depends on the view alone (own).
    pub fn digest(&self) -> u64 {
        self.happens_before.digest()
    }
}
