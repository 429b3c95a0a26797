//! Values that are kept once: who has one shares it.
ghost use Rattle.std.specs.Prelude.{◌≡◌, IfOk, IfSome, IsTrue};

use crate::chains::Chains;
use crate::same::Same;
use std::alloc::{AllocError, Global};
use std::marker::Model;
use std::sync::Arc;

/// A value that whoever has it shares. A contract sees the value (own).
#[derive(Drop)]
pub struct Shared<T> {
    value: Arc<T, Global>,
}

impl<T> Model for Shared<T> {
    ghost Value = { T };

    ghost view = { λ s. s.value.value };
}

impl<T> Shared<T> {
    /// The value, to read (own).
    pub fn get(&self) -> &T
        ensures { result.now ≡ self.now }
    {
        self.value.as_ref()
    }

    /// The same value, shared once more. An error where it is shared too often (own).
    pub fn try_clone(&self) -> Result<Shared<T>, AllocError>
        ensures { IfOk result (λ shared. shared ≡ self.now) }
    {
        Ok(Shared {
            value: Arc::try_clone(&self.value)?,
        })
    }
}

/// Values that were put on it, each with a digest by which it is found again (own).
#[derive(Drop)]
pub struct Shelf<T> {
    values: Vec<Shared<T>>,
    chains: Chains,
}

/// With so many values of one digest a value is compared: with those that were put there last. Then it is put there once more.
pub const MOST_COMPARED: usize = 16;

impl<T: Drop> Shelf<T> {
    /// Nothing yet. An error where memory is refused (own).
    pub fn new(alloc: Global) -> Result<Shelf<T>, AllocError> {
        Ok(Shelf {
            values: Vec::new(alloc),
            chains: Chains::new(alloc)?,
        })
    }

    /// Nothing, and nothing is found again (own).
    pub fn none(alloc: Global) -> Shelf<T> {
        Shelf {
            values: Vec::new(alloc),
            chains: Chains::none(alloc),
        }
    }

    /// The value of this number, counted from 0, if there is one (own).
    pub fn get(&self, number: usize) -> Option<&Shared<T>> {
        self.values.get(number)
    }

    /// The number of the last value that has this digest, if there is one (own).
    pub fn last(&self, digest: u64) -> Option<usize> {
        self.chains.last(digest)
    }

    /// The number of the last value before this one that has this digest, which this one has too, if there is one (own).
    pub fn before(&self, number: usize, digest: u64) -> Option<usize> {
        self.chains.before(number, digest)
    }

    /// Puts a value on it that has this digest. An error where memory is refused (own).
    pub fn put(&mut self, alloc: Global, value: T, digest: u64) -> Result<Shared<T>, AllocError>
        ensures { IfOk result (λ shared. shared ≡ value) }
    {
        let value = Arc::new(alloc, value)?;
        let shared = Shared { value };
        self.values.push(shared.try_clone()?)?;
        self.chains.add(digest)?;
        Ok(shared)
    }
}

impl<T: Drop + Same> Shelf<T> {
    /// This value, shared with whom was given the same one with this digest before. An error where memory is refused (own).
    pub fn shared(&mut self, alloc: Global, value: T, digest: u64) -> Result<Shared<T>, AllocError>
        ensures { IfOk result (λ shared. shared ≡ value) }
    {
        match self.find(&value, digest) {
            Some(shared) => shared.try_clone(),
            None => self.put(alloc, value, digest),
        }
    }

    /// A value that is the same, if one of this digest is found (own).
    pub fn find(&self, value: &T, digest: u64) -> Option<&Shared<T>>
        ensures { IfSome result (λ shared. shared.now ≡ value.now) }
    {
        let mut next = self.last(digest);
        for _ in 0..MOST_COMPARED {
            let number = next?;
            let shared = self.get(number)?;
            if shared.get().is_same(value) {
                return Some(shared);
            }
            next = self.before(number, digest);
        }
        None
    }
}

/// Whether two lists have the same values, in the same order (own).
pub fn are_shared<T: Same>(shared: &[Shared<T>], values: &[T]) -> bool
    ensures { IsTrue result → shared.now ≡ values.now }
{
    let mut rest = shared;
    let mut left = values;
    while let Some((first, tail)) = rest.split_first() {
        let Some((second, others)) = left.split_first() else {
            return false;
        };
        if !first.get().is_same(second) {
            return false;
        }
        rest = tail;
        left = others;
    }
    left.is_empty()
}
