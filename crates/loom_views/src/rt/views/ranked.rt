//! Views by the ranks of their counts, as a search keeps them: in little room, and found again by a number.
pub mod noted;

ghost use Rattle.std.specs.Prelude.{ℕ, ◌≡◌, ◌<◌, IfOk, IfSome, slice_get};
ghost use Rattle.loom_views.specs.InOrder.{IsInOrder, PairAll, PairsAt, PairsPlaces, PairsThreads, PairsVectors, PairsViews, Ranked};

use crate::rt::MAX_THREADS;
use crate::rt::ranks::{Ranks, Standing};
use crate::rt::synchronize::{Synchronize, ThreadViews};
use crate::rt::views::packed::PackedPlaces;
use crate::rt::views::{Kept, Views};
use crate::rt::vv::{VersionVec, mixed};
use crate::same::{Same, are_same};
use crate::sequence::Sequence;
use std::alloc::{AllocError, Global};
use std::marker::Model;

/// Views in little room, which aren't changed (own).
#[derive(Drop)]
pub struct RankedViews {
    threads: [ThreadViews; MAX_THREADS],
    count: usize,
    places: PackedPlaces,
    stamps: Sequence<Synchronize>,
    global: VersionVec,
}

impl Model for RankedViews {
    ghost use Rattle.loom_views.specs.declared.rt.views.Views.{Views};

    ghost Value = { Views };

    ghost view = { λ v. record { threads = v.threads; count = v.count; places = v.places; stamps = v.stamps; global = v.global } };
}

impl Same for RankedViews {
    fn is_same(&self, other: &RankedViews) -> bool {
        self.count == other.count
            && self.global.is_same(&other.global)
            && are_same(self.threads.as_slice(), other.threads.as_slice())
            && self.places.is_same(&other.places)
            && are_same(self.stamps.as_slice(), other.stamps.as_slice())
    }
}

impl RankedViews {
    /// Of no object, for their room (own).
    pub fn new(alloc: Global) -> RankedViews {
        RankedViews {
            threads: [ThreadViews::new(); MAX_THREADS],
            count: 0,
            places: PackedPlaces::new(alloc),
            stamps: Sequence::new(alloc),
            global: VersionVec::new(),
        }
    }

    /// A copy. An error where memory is refused (own).
    pub fn try_clone(&self, alloc: Global) -> Result<RankedViews, AllocError>
        ensures { IfOk result (λ copy. copy ≡ self.now) }
    {
        Ok(RankedViews {
            threads: copied(&self.threads),
            count: self.count,
            places: self.places.try_clone(alloc)?,
            stamps: self.stamps.try_clone(alloc)?,
            global: self.global,
        })
    }

    /// A number that depends on the views alone: by it they are found again (own).
    pub fn digest(&self) -> u64 {
        let mut digest = self.global.digest();
        for views in self.threads.as_slice() {
            digest = mixed(digest, views.digest());
        }
        mixed(digest, self.places.digest())
    }
}

impl Views {
    /// Views that rules see the same of: with each count of a thread by its rank among those of the thread that are somewhere
    /// in these. The room of the spare ones is used for them. An error where memory is refused (own).
    #[tactic(auto, using(crate::proofs::Sight::InOrder::in_order_itself))]
    pub fn ranked(&self, alloc: Global, spare: RankedViews) -> Result<RankedViews, AllocError>
        ensures { IfOk result (λ ranked. IsInOrder self.now ranked) }
    {
        let mut standing = Standing::new();
        self.stand(&mut standing);
        let Some(ranks) = standing.ranks(alloc)? else {
            return self.packed(alloc);
        };
        match self.by_ranks(&ranks, spare)? {
            Some(ranked) => Ok(ranked),
            None => self.packed(alloc),
        }
    }

    /// These views in little room, with the counts that they have in place of ranks. An error where memory is refused.
    fn packed(&self, alloc: Global) -> Result<RankedViews, AllocError>
        ensures { IfOk result (λ packed. packed ≡ self.now) }
    {
        Ok(RankedViews {
            threads: copied(&self.threads),
            count: self.count,
            places: packed_places(alloc, self.places.as_slice())?,
            stamps: self.stamps.try_clone(alloc)?,
            global: self.global,
        })
    }

    /// Adds the counts of these views.
    fn stand(&self, standing: &mut Standing) {
        standing.add_all(&self.global);
        for thread in 0..MAX_THREADS {
            self.threads[thread].stand(thread, standing);
        }
        stand_places(self.places.as_slice(), standing);
        stand_stamps(self.stamps.as_slice(), standing);
    }

    /// The views by these ranks, if each count has one, in the room of the spare ones. An error where memory is refused.
    fn by_ranks(&self, ranks: &Ranks, spare: RankedViews) -> Result<Option<RankedViews>, AllocError>
        ensures { IfOk result (λ found. IfSome found (λ ranked. PairsViews (Ranked ranks.now) self.now ranked)) }
    {
        ranks.zeros();
        let (Some(threads), Some(global)) = (
            ranked_threads(&self.threads, ranks),
            self.global.ranked(ranks),
        ) else {
            return Ok(None);
        };
        let RankedViews { places, stamps, .. } = spare;
        let Some(places) = ranked_places(self.places.as_slice(), ranks, places)? else {
            return Ok(None);
        };
        let Some(stamps) = ranked_stamps(self.stamps.as_slice(), ranks, stamps)? else {
            return Ok(None);
        };
        Ok(Some(RankedViews {
            threads,
            count: self.count,
            places,
            stamps,
            global,
        }))
    }
}

/// Adds the counts of what is kept of objects.
fn stand_places(places: &[Kept], standing: &mut Standing) {
    for kept in places {
        kept.stand(standing);
    }
}

/// Adds those of stamps.
fn stand_stamps(stamps: &[Synchronize], standing: &mut Standing) {
    for stamp in stamps {
        stamp.stand(standing);
    }
}

/// The views of threads by ranks, if each count has one.
fn ranked_threads(
    threads: &[ThreadViews; MAX_THREADS],
    ranks: &Ranks,
) -> Option<[ThreadViews; MAX_THREADS]>
    ensures { IfSome result (λ ranked. (t : ℕ) → t < 5 → PairsAt (Ranked ranks.now) (PairsThreads (Ranked ranks.now) t) (slice_get threads.now t) (slice_get ranked t)) }
{
    let [main, first, second, third, fourth] = threads;
    Some([
        main.ranked(0, ranks)?,
        first.ranked(1, ranks)?,
        second.ranked(2, ranks)?,
        third.ranked(3, ranks)?,
        fourth.ranked(4, ranks)?,
    ])
}

/// What is kept of objects, in little room. An error where memory is refused.
fn packed_places(alloc: Global, places: &[Kept]) -> Result<PackedPlaces, AllocError>
    ensures { IfOk result (λ packed. packed ≡ places.now) }
{
    let mut packed = PackedPlaces::new(alloc);
    for kept in places {
        let more = packed.with(*kept)?;
        packed = more;
    }
    Ok(packed)
}

/// What is kept of objects by ranks, if each count has one, in the room of what is spare. An error where memory is refused.
fn ranked_places(
    places: &[Kept],
    ranks: &Ranks,
    spare: PackedPlaces,
) -> Result<Option<PackedPlaces>, AllocError>
    ensures { IfOk result (λ found. IfSome found (λ ranked. PairAll (Ranked ranks.now) (PairsPlaces (Ranked ranks.now)) places.now ranked)) }
{
    let mut ranked = spare.cleared();
    for kept in places {
        let found = ranked.with_ranked(kept, ranks)?;
        let Some(more) = found else {
            return Ok(None);
        };
        ranked = more;
    }
    Ok(Some(ranked))
}

/// So of stamps.
fn ranked_stamps(
    stamps: &[Synchronize],
    ranks: &Ranks,
    spare: Sequence<Synchronize>,
) -> Result<Option<Sequence<Synchronize>>, AllocError>
    ensures { IfOk result (λ found. IfSome found (λ ranked. PairAll (Ranked ranks.now) (PairsVectors (Ranked ranks.now)) stamps.now ranked)) }
{
    let mut ranked = spare;
    ranked.clear();
    for stamp in stamps {
        let Some(one) = stamp.ranked(ranks) else {
            return Ok(None);
        };
        ranked.push(one)?;
    }
    Ok(Some(ranked))
}

/// A copy of the views of threads.
pub(crate) fn copied(threads: &[ThreadViews; MAX_THREADS]) -> [ThreadViews; MAX_THREADS]
    ensures { result ≡ threads.now }
{
    let [main, first, second, third, fourth] = threads;
    [*main, *first, *second, *third, *fourth]
}
