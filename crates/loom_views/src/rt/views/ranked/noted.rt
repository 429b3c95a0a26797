//! Views that a search notes, whose parts are kept once each.

ghost use Rattle.std.specs.Prelude.{◌≡◌, IfOk, IsTrue};

use crate::rt::MAX_THREADS;
use crate::rt::synchronize::{Synchronize, ThreadViews};
use crate::rt::views::packed::place::Place;
use crate::rt::views::ranked::RankedViews;
use crate::rt::vv::VersionVec;
use crate::same::{Same, are_same};
use crate::sequence::Sequence;
use crate::shelf::{Shared, Shelf, are_shared};
use std::alloc::{AllocError, Global};
use std::marker::Model;

/// The parts of views, each once (own).
#[derive(Drop)]
pub struct ViewShelf {
    threads: Shelf<ThreadViews>,
    places: Shelf<Place>,
}

impl ViewShelf {
    /// Nothing yet. An error where memory is refused (own).
    pub fn new(alloc: Global) -> Result<ViewShelf, AllocError> {
        Ok(ViewShelf {
            threads: Shelf::new(alloc)?,
            places: Shelf::new(alloc)?,
        })
    }

    /// Nothing, and nothing is found again (own).
    pub fn none(alloc: Global) -> ViewShelf {
        ViewShelf {
            threads: Shelf::none(alloc),
            places: Shelf::none(alloc),
        }
    }
}

/// Views that share each of their parts with others that have the same one (own).
#[derive(Drop)]
pub struct NotedViews {
    threads: [Shared<ThreadViews>; MAX_THREADS],
    count: usize,
    places: Sequence<Shared<Place>>,
    stamps: Sequence<Synchronize>,
    global: VersionVec,
}

impl Model for NotedViews {
    ghost use Rattle.loom_views.specs.declared.rt.views.Views.{Views};

    ghost Value = { Views };

    ghost view = { λ v. record { threads = v.threads; count = v.count; places = v.places; stamps = v.stamps; global = v.global } };
}

impl RankedViews {
    /// These views, whose parts are on the shelf. An error where memory is refused (own).
    pub fn noted(&self, alloc: Global, shelf: &mut ViewShelf) -> Result<NotedViews, AllocError>
        ensures { IfOk result (λ views. views ≡ self.now) }
    {
        Ok(NotedViews {
            threads: shared_threads(alloc, &self.threads, &mut shelf.threads)?,
            count: self.count,
            places: self.places.shared(alloc, &mut shelf.places)?,
            stamps: self.stamps.try_clone(alloc)?,
            global: self.global,
        })
    }

    /// Whether these are the views that were noted (own).
    pub fn are_noted(&self, noted: &NotedViews) -> bool
        ensures { IsTrue result → noted.now ≡ self.now }
    {
        self.count == noted.count
            && noted.global.is_same(&self.global)
            && are_shared(noted.threads.as_slice(), self.threads.as_slice())
            && self.places.are_shared(noted.places.as_slice())
            && are_same(noted.stamps.as_slice(), self.stamps.as_slice())
    }
}

/// The views of threads, on the shelf. An error where memory is refused.
fn shared_threads(
    alloc: Global,
    threads: &[ThreadViews; MAX_THREADS],
    shelf: &mut Shelf<ThreadViews>,
) -> Result<[Shared<ThreadViews>; MAX_THREADS], AllocError>
    ensures { IfOk result (λ shared. shared ≡ threads.now) }
{
    let [main, first, second, third, fourth] = threads;
    Ok([
        shelf.shared(alloc, *main, main.digest())?,
        shelf.shared(alloc, *first, first.digest())?,
        shelf.shared(alloc, *second, second.digest())?,
        shelf.shared(alloc, *third, third.digest())?,
        shelf.shared(alloc, *fourth, fourth.digest())?,
    ])
}
