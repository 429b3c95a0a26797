//! What is kept of each object of a run, in the order made. The places of a run that is over are written over by the next run.

ghost use Rattle.std.specs.Prelude.{◌≡◌, ◌++◌, ◌∷◌, ◌<◌, [], IfOk, OnErr, OnOk, length, slice_get};
ghost use Rattle.std.specs.Borrow.{sem};
ghost use Rattle.loom_views.specs.Places.{lends_place};
ghost use Rattle.loom_views.specs.declared.rt.views.Kept.TheVariants.{Point};

use crate::rt::synchronize::Synchronize;
use crate::rt::views::Kept;
use crate::sequence::Sequence;
use std::alloc::{AllocError, Global};
use std::marker::Model;

/// What is kept of each object. A contract sees the list of it, whatever else is held for the objects of further runs (own).
#[derive(Drop)]
pub struct Places {
    items: Sequence<Kept>,
    // how many of the items are of this run
    count: usize,
}

impl Model for Places {
    ghost use Rattle.std.specs.Prelude.{List, ◌≤◌, length, take};
    ghost use Rattle.loom_views.specs.declared.rt.views.Kept.{Kept};

    ghost Value = { List Kept };

    ghost view = { λ p. take p.count p.items };

    ghost invariant = { λ p. p.count ≤ length p.items };
}

/// This view is kept, in the place of what was kept there.
// Where a point was there, nothing else of it is written.
#[inline(always)]
fn set_point(place: &mut Kept, sync: Synchronize)
    ensures { place.new ≡ Point sync }
{
    match place {
        Kept::Point(before) => *before = sync,
        Kept::Atomic(_) | Kept::Cell(_) => *place = Kept::Point(sync),
    }
}

/// This is kept, in the place of what was kept there.
#[inline(always)]
fn set(place: &mut Kept, kept: Kept)
    ensures { place.new ≡ kept }
{
    match kept {
        Kept::Point(sync) => set_point(place, sync),
        Kept::Atomic(state) => *place = Kept::Atomic(state),
        Kept::Cell(records) => *place = Kept::Cell(records),
    }
}

impl Places {
    /// Of no object (own).
    pub fn new(alloc: Global) -> Places
        ensures { result ≡ [] }
    {
        Places {
            items: Sequence::new(alloc),
            count: 0,
        }
    }

    /// Of how many objects it is (own).
    pub fn len(&self) -> usize
        ensures { result ≡ length self.now }
    {
        self.count
    }

    /// What is kept at a place (own).
    pub fn at(&self, place: usize) -> &Kept
        requires { place < length self.now }
        ensures { slice_get self.now place ≡ Some result.now }
    {
        self.items.at(place)
    }

    /// What is kept at a place, for writing. The others stay as they are (own).
    pub fn at_mut(&mut self, place: usize) -> &mut Kept
        requires { place < length self.old }
        ensures* writes_back { sem 𝓛 (lends_place self.entry place result) }
        ensures value { slice_get self.old place ≡ Some result.now }
    {
        self.items.at_mut(place)
    }

    /// What is kept, in order, to read (own).
    pub fn as_slice(&self) -> &[Kept]
        ensures { result.now ≡ self.now }
    {
        &self.items.as_slice()[..self.count]
    }

    /// Of no object any more. The room stays (own).
    pub fn clear(&mut self)
        ensures { self.new ≡ [] }
    {
        self.count = 0;
    }

    /// One object more, of which this is kept. An error where the growth was refused; then nothing changes (own).
    // Each caller knows the variant, so that it moves just what that holds.
    #[inline(always)]
    pub fn push(&mut self, kept: Kept) -> Result<(), AllocError>
        ensures ok { OnOk result (self.new ≡ self.old ++ kept ∷ []) }
        ensures err { OnErr result (self.new ≡ self.old) }
    {
        if self.count >= self.items.len() {
            match kept {
                Kept::Point(sync) => self.items.push(Kept::Point(sync))?,
                Kept::Atomic(state) => self.items.push(Kept::Atomic(state))?,
                Kept::Cell(records) => self.items.push(Kept::Cell(records))?,
            }
            self.count = self.items.len();
            return Ok(());
        }
        set(self.items.at_mut(self.count), kept);
        self.count += 1;
        Ok(())
    }

    /// They become a copy of others, in the room that they have. An error where memory is refused (own).
    pub fn copy_from(&mut self, other: &Places) -> Result<(), AllocError>
        ensures { IfOk result (λ _. self.new ≡ other.now) }
    {
        self.count = 0;
        self.items.copy_from(other.as_slice())?;
        self.count = self.items.len();
        Ok(())
    }

    /// A copy. An error where memory is refused (own).
    pub fn try_clone(&self, alloc: Global) -> Result<Places, AllocError>
        ensures { IfOk result (λ copy. copy ≡ self.now) }
    {
        let items = Vec::from_slice(alloc, self.as_slice())?;
        Ok(Places {
            count: items.len(),
            items: Sequence::from_vec(items),
        })
    }
}
