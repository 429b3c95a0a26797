//! What is kept of each object of a run, in little room: of an atomic no stores behind the last one that isn't empty.
pub mod place;

ghost use Rattle.std.specs.Prelude.{◌≡◌, ◌++◌, ◌∷◌, [], IfOk, IfSome, length};
ghost use Rattle.loom_views.specs.InOrder.{PairsPlaces, PairsStates, Ranked};
ghost use Rattle.loom_views.specs.Packed.{all_stores, unpacked};
ghost use Rattle.loom_views.specs.declared.rt.atomic.State.{State as Atomics};
ghost use Rattle.loom_views.specs.declared.rt.views.Kept.TheVariants.{Atomic};

use crate::rt::atomic::{Head, State, Store};
use crate::rt::cell::AccessRecords;
use crate::rt::ranks::Ranks;
use crate::rt::synchronize::Synchronize;
use crate::rt::views::Kept;
use crate::rt::vv::mixed;
use crate::same::{Same, are_same};
use crate::sequence::Sequence;
use std::alloc::{AllocError, Global};
use std::marker::Model;

/// What is kept of an object, but for the stores of an atomic (own).
#[derive(Clone, Copy)]
pub enum Packed {
    /// Of one at which threads synchronize: its view.
    Point(Synchronize),
    /// Of an atomic.
    Atomic(Head),
    /// Of a cell: the views of its accesses.
    Cell(AccessRecords),
}

/// What is kept of each object. A contract sees the list of it (own).
#[derive(Drop)]
pub struct PackedPlaces {
    list: Sequence<Packed>,
    // those of an atomic behind those of the one before it
    stores: Sequence<Store>,
}

impl Model for PackedPlaces {
    ghost use Rattle.std.specs.Prelude.{◌≡◌, List, length};
    ghost use Rattle.loom_views.specs.Packed.{all_stores, unpacked};
    ghost use Rattle.loom_views.specs.declared.rt.views.Kept.{Kept};

    ghost Value = { List Kept };

    ghost view = { λ p. unpacked p.list p.stores };

    ghost invariant = { λ p. all_stores p.list ≡ length p.stores };
}

impl Same for Packed {
    fn is_same(&self, other: &Packed) -> bool {
        match (self, other) {
            (Packed::Point(one), Packed::Point(two)) => one.is_same(two),
            (Packed::Atomic(one), Packed::Atomic(two)) => one.is_same(two),
            (Packed::Cell(one), Packed::Cell(two)) => one.is_same(two),
            (Packed::Point(_) | Packed::Atomic(_) | Packed::Cell(_), _) => false,
        }
    }
}

impl Packed {
    /// A number that depends on it alone.
    fn digest(&self) -> u64 {
        match self {
            Packed::Point(view) => view.digest(),
            Packed::Atomic(head) => head.digest(),
            Packed::Cell(records) => records.digest(),
        }
    }
}

impl Same for PackedPlaces {
    #[tactic(auto, using(crate::proofs::Packed::packed_same))]
    fn is_same(&self, other: &PackedPlaces) -> bool {
        are_same(self.list.as_slice(), other.list.as_slice())
            && are_same(self.stores.as_slice(), other.stores.as_slice())
    }
}

impl PackedPlaces {
    /// Of no object (own).
    pub fn new(alloc: Global) -> PackedPlaces
        ensures { result ≡ [] }
    {
        PackedPlaces {
            list: Sequence::new(alloc),
            stores: Sequence::new(alloc),
        }
    }

    /// Of no object, in the same room (own).
    pub fn cleared(self) -> PackedPlaces
        ensures { result ≡ [] }
    {
        let PackedPlaces {
            mut list,
            mut stores,
        } = self;
        list.clear();
        stores.clear();
        PackedPlaces { list, stores }
    }

    /// With one object more, of which this is kept. An error where memory is refused (own).
    #[inline(always)]
    pub fn with(self, kept: Kept) -> Result<PackedPlaces, AllocError>
        ensures { IfOk result (λ more. more ≡ self ++ kept ∷ []) }
    {
        let PackedPlaces { list, stores } = self;
        match kept {
            Kept::Point(view) => with_other(list, stores, Packed::Point(view)),
            Kept::Cell(records) => with_other(list, stores, Packed::Cell(records)),
            Kept::Atomic(state) => with_atomic(list, stores, &state),
        }
    }

    /// With one object more, of which this is kept by ranks, if each count has one. An error where memory is refused (own).
    #[inline(always)]
    pub fn with_ranked(self, kept: &Kept, ranks: &Ranks) -> Result<Option<PackedPlaces>, AllocError>
        ensures { IfOk result (λ found. IfSome found (λ more. (one : Kept) × PairsPlaces (Ranked ranks.now) kept.now one × (more ≡ self ++ one ∷ []))) }
    {
        let PackedPlaces { list, stores } = self;
        match kept {
            Kept::Point(view) => match view.ranked(ranks) {
                Some(one) => Ok(Some(with_other(list, stores, Packed::Point(one))?)),
                None => Ok(None),
            },
            Kept::Cell(records) => match records.ranked(ranks) {
                Some(one) => Ok(Some(with_other(list, stores, Packed::Cell(one))?)),
                None => Ok(None),
            },
            Kept::Atomic(state) => with_ranked_atomic(list, stores, state, ranks),
        }
    }

    /// A copy. An error where memory is refused (own).
    pub fn try_clone(&self, alloc: Global) -> Result<PackedPlaces, AllocError>
        ensures { IfOk result (λ copy. copy ≡ self.now) }
    {
        Ok(PackedPlaces {
            list: self.list.try_clone(alloc)?,
            stores: self.stores.try_clone(alloc)?,
        })
    }

    /// A number that depends on it alone (own).
    pub fn digest(&self) -> u64 {
        digest_with(digest_of(self.list.as_slice()), self.stores.as_slice())
    }
}

/// A number that depends on what is kept of these objects alone, but for the stores of the atomics.
fn digest_of(list: &[Packed]) -> u64 {
    let mut digest = 0u64;
    for one in list {
        digest = mixed(digest, one.digest());
    }
    digest
}

/// A number that depends on this one and on these stores alone.
pub(crate) fn digest_with(number: u64, stores: &[Store]) -> u64 {
    let mut digest = number;
    for store in stores {
        digest = mixed(digest, store.digest());
    }
    digest
}

/// With one object more, which has no stores.
#[inline(always)]
fn with_other(
    mut list: Sequence<Packed>,
    stores: Sequence<Store>,
    one: Packed,
) -> Result<PackedPlaces, AllocError>
    requires counted { all_stores list ≡ length stores }
    requires none { all_stores (one ∷ []) ≡ 0 }
    ensures { IfOk result (λ more. more ≡ unpacked list stores ++ unpacked (one ∷ []) []) }
{
    list.push(one)?;
    Ok(PackedPlaces { list, stores })
}

/// With an atomic more.
#[inline(always)]
fn with_atomic(
    mut list: Sequence<Packed>,
    mut stores: Sequence<Store>,
    state: &State,
) -> Result<PackedPlaces, AllocError>
    requires counted { all_stores list ≡ length stores }
    ensures { IfOk result (λ more. more ≡ unpacked list stores ++ Atomic state.now ∷ []) }
{
    let head = state.pack(&mut stores)?;
    list.push(Packed::Atomic(head))?;
    Ok(PackedPlaces { list, stores })
}

/// With an atomic more, by ranks, if each count has one.
#[inline(always)]
fn with_ranked_atomic(
    mut list: Sequence<Packed>,
    mut stores: Sequence<Store>,
    state: &State,
    ranks: &Ranks,
) -> Result<Option<PackedPlaces>, AllocError>
    requires counted { all_stores list ≡ length stores }
    ensures { IfOk result (λ found. IfSome found (λ more. (one : Atomics) × PairsStates (Ranked ranks.now) state.now one × (more ≡ unpacked list stores ++ Atomic one ∷ []))) }
{
    let found = state.pack_ranked(ranks, &mut stores)?;
    let Some(head) = found else {
        return Ok(None);
    };
    list.push(Packed::Atomic(head))?;
    Ok(Some(PackedPlaces { list, stores }))
}
