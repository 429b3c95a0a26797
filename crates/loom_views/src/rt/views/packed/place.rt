//! What is kept of single objects, in little room, so that it can be shared.

ghost use Rattle.std.specs.Prelude.{◌≡◌, ◌∷◌, [], IfOk, IfSome, IsTrue};
ghost use Rattle.loom_views.specs.Packed.{all_stores, unpacked_one};

use crate::rt::atomic::Store;
use crate::rt::views::packed::{Packed, PackedPlaces, digest_with};
use crate::same::{Same, are_same};
use crate::sequence::Sequence;
use crate::shelf::{MOST_COMPARED, Shared, Shelf};
use std::alloc::{AllocError, Global};
use std::marker::Model;

/// What is kept of an object: of an atomic no stores behind the last one that isn't empty. A contract sees what is kept (own).
#[derive(Drop)]
pub struct Place {
    one: Packed,
    stores: Sequence<Store>,
}

impl Model for Place {
    ghost use Rattle.loom_views.specs.Packed.{unpacked_one};
    ghost use Rattle.loom_views.specs.declared.rt.views.Kept.{Kept};

    ghost Value = { Kept };

    ghost view = { λ p. unpacked_one p.one p.stores };
}

impl Place {
    /// What is kept of an object that has these stores. An error where memory is refused.
    fn new(alloc: Global, one: Packed, stores: &[Store]) -> Result<Place, AllocError>
        ensures { IfOk result (λ place. place ≡ unpacked_one one stores.now) }
    {
        let stores = Sequence::from_vec(Vec::from_slice(alloc, stores)?);
        Ok(Place { one, stores })
    }

    /// Whether this is kept of an object that has these stores.
    #[tactic(auto, using(crate::proofs::Places::place_same))]
    fn is_of(&self, one: &Packed, stores: &[Store]) -> bool
        ensures { IsTrue result → self.now ≡ unpacked_one one.now stores.now }
    {
        self.one.is_same(one) && are_same(self.stores.as_slice(), stores)
    }
}

impl Packed {
    /// How many stores it has.
    fn stores(&self) -> usize
        ensures { result ≡ all_stores (self.now ∷ []) }
    {
        match self {
            Packed::Atomic(head) => head.kept(),
            Packed::Point(_) | Packed::Cell(_) => 0,
        }
    }
}

impl PackedPlaces {
    /// Each on the shelf. An error where memory is refused (own).
    pub fn shared(
        &self,
        alloc: Global,
        shelf: &mut Shelf<Place>,
    ) -> Result<Sequence<Shared<Place>>, AllocError>
        ensures { IfOk result (λ places. places ≡ self.now) }
    {
        let mut places = Vec::with_capacity(alloc, self.list.len())?;
        let mut rest = self.list.as_slice();
        let mut left = self.stores.as_slice();
        while let Some((one, tail)) = rest.split_first() {
            let (stores, others) = left.split_at(one.stores());
            places.push(shared_place(alloc, shelf, one, stores)?)?;
            rest = tail;
            left = others;
        }
        Ok(Sequence::from_vec(places))
    }

    /// Whether they are these (own).
    pub fn are_shared(&self, places: &[Shared<Place>]) -> bool
        ensures { IsTrue result → self.now ≡ places.now }
    {
        let mut same = places;
        let mut rest = self.list.as_slice();
        let mut left = self.stores.as_slice();
        while let Some((one, tail)) = rest.split_first() {
            let (stores, others) = left.split_at(one.stores());
            let Some((place, more)) = same.split_first() else {
                return false;
            };
            if !place.get().is_of(one, stores) {
                return false;
            }
            same = more;
            rest = tail;
            left = others;
        }
        same.is_empty()
    }
}

/// What is kept of an object that has these stores, on the shelf. An error where memory is refused.
fn shared_place(
    alloc: Global,
    shelf: &mut Shelf<Place>,
    one: &Packed,
    stores: &[Store],
) -> Result<Shared<Place>, AllocError>
    ensures { IfOk result (λ place. place ≡ unpacked_one one.now stores.now) }
{
    let digest = digest_of(one, stores);
    match find_place(shelf, one, stores, digest) {
        Some(place) => place.try_clone(),
        None => shelf.put(alloc, Place::new(alloc, *one, stores)?, digest),
    }
}

/// What is kept of an object that has these stores, if one of this digest is found.
fn find_place<'a>(
    shelf: &'a Shelf<Place>,
    one: &Packed,
    stores: &[Store],
    digest: u64,
) -> Option<&'a Shared<Place>>
    ensures { IfSome result (λ place. place.now ≡ unpacked_one one.now stores.now) }
{
    let mut next = shelf.last(digest);
    for _ in 0..MOST_COMPARED {
        let number = next?;
        let place = shelf.get(number)?;
        if place.get().is_of(one, stores) {
            return Some(place);
        }
        next = shelf.before(number, digest);
    }
    None
}

/// A number that depends on what is kept of an object alone.
fn digest_of(one: &Packed, stores: &[Store]) -> u64 {
    digest_with(one.digest(), stores)
}
