//! Values that a remembered state keeps: they can be copied and compared.
ghost use Rattle.std.specs.Prelude.{◌≡◌, IfOk, IsTrue};

use crate::data::Data;
use crate::operation::{Keyed, Lazy, Message};
use loom_views::same::Same;
use loom_views::sequence::Sequence;
use std::alloc::{AllocError, Global};
use std::collections::LinkedList;

/// A value that can be copied and compared (own).
pub trait Kept: Drop {
    /// A copy. An error where memory is refused (own).
    fn copied(&self, alloc: Global) -> Result<Self, AllocError>
        ensures { IfOk result (λ copy. copy ≡ self.now) };

    /// Whether it is the same value (own).
    fn is_equal(&self, other: &Self) -> bool
        ensures { IsTrue result → self.now ≡ other.now };
}

impl Kept for usize {
    fn copied(&self, _alloc: Global) -> Result<usize, AllocError> {
        Ok(*self)
    }

    fn is_equal(&self, other: &usize) -> bool {
        *self == *other
    }
}

impl<D: Data + Same> Kept for Keyed<D> {
    fn copied(&self, _alloc: Global) -> Result<Keyed<D>, AllocError> {
        let value = self.value.try_clone()?;
        Ok(Keyed {
            key: self.key,
            value,
        })
    }

    fn is_equal(&self, other: &Keyed<D>) -> bool {
        self.key == other.key && self.value.is_same(&other.value)
    }
}

impl<D: Data + Same> Kept for Lazy<D> {
    fn copied(&self, _alloc: Global) -> Result<Lazy<D>, AllocError> {
        let value = self.value.try_clone()?;
        Ok(Lazy {
            key: self.key,
            value,
            stamp: self.stamp,
        })
    }

    fn is_equal(&self, other: &Lazy<D>) -> bool {
        self.key == other.key && self.stamp == other.stamp && self.value.is_same(&other.value)
    }
}

impl<D: Data + Same> Kept for Message<D> {
    fn copied(&self, alloc: Global) -> Result<Message<D>, AllocError> {
        let value = copied_data(alloc, &self.value)?;
        Ok(Message {
            value,
            stamp: self.stamp,
        })
    }

    fn is_equal(&self, other: &Message<D>) -> bool {
        self.stamp == other.stamp && are_data_equal(&self.value, &other.value)
    }
}

/// A copy of a value, if there is one. An error where memory is refused.
pub(crate) fn copied_value<D: Data>(value: &Option<D>) -> Result<Option<D>, AllocError>
    ensures { IfOk result (λ copy. copy ≡ value.now) }
{
    match value {
        Some(value) => Ok(Some(value.try_clone()?)),
        None => Ok(None),
    }
}

/// A copy of values in order. An error where memory is refused (own).
pub fn copied_all<T: Kept>(alloc: Global, values: &[T]) -> Result<Sequence<T>, AllocError>
    ensures { IfOk result (λ copy. copy ≡ values.now) }
{
    let mut copy = Vec::with_capacity(alloc, values.len())?;
    for value in values {
        copy.push(value.copied(alloc)?)?;
    }
    Ok(Sequence::from_vec(copy))
}

/// They become copies of values in order, in the room that they have. An error where memory is refused (own).
pub fn copy_all<T: Kept>(
    alloc: Global,
    values: &[T],
    copy: &mut Sequence<T>,
) -> Result<(), AllocError>
    ensures { IfOk result (λ _. copy.new ≡ values.now) }
{
    copy.clear();
    for value in values {
        copy.push(value.copied(alloc)?)?;
    }
    Ok(())
}

/// Whether values are equal, one after another (own).
pub fn are_equal<T: Kept>(one: &[T], other: &[T]) -> bool
    ensures { IsTrue result → one.now ≡ other.now }
{
    let mut rest = one;
    let mut left = other;
    while let Some((first, tail)) = rest.split_first() {
        let Some((second, others)) = left.split_first() else {
            return false;
        };
        if !first.is_equal(second) {
            return false;
        }
        rest = tail;
        left = others;
    }
    left.is_empty()
}

/// A copy of data in order. An error where memory is refused.
pub(crate) fn copied_data<D: Data>(
    alloc: Global,
    held: &LinkedList<D>,
) -> Result<LinkedList<D>, AllocError>
    ensures { IfOk result (λ copy. copy ≡ held.now) }
{
    let mut made = LinkedList::new(alloc);
    let mut rest = held.iter();
    while let Some(value) = rest.next() {
        let copy = value.try_clone()?;
        if made.push_back(copy).is_err() {
            return Err(AllocError);
        }
    }
    Ok(made)
}

/// Whether data are equal, one after another.
pub(crate) fn are_data_equal<D: Same>(one: &LinkedList<D>, other: &LinkedList<D>) -> bool
    ensures { IsTrue result → one.now ≡ other.now }
{
    let mut rest = one.iter();
    let mut left = other.iter();
    while let Some(first) = rest.next() {
        let Some(second) = left.next() else {
            return false;
        };
        if !first.is_same(second) {
            return false;
        }
    }
    left.next().is_none()
}

/// A copy of messages in order. An error where memory is refused.
pub(crate) fn copied_messages<D: Data + Same>(
    alloc: Global,
    messages: &LinkedList<Message<D>>,
) -> Result<LinkedList<Message<D>>, AllocError>
    ensures { IfOk result (λ copy. copy ≡ messages.now) }
{
    let mut made = LinkedList::new(alloc);
    let mut rest = messages.iter();
    while let Some(message) = rest.next() {
        let copy = message.copied(alloc)?;
        if made.push_back(copy).is_err() {
            return Err(AllocError);
        }
    }
    Ok(made)
}

/// Whether messages are equal, one after another.
pub(crate) fn are_messages_equal<D: Data + Same>(
    one: &LinkedList<Message<D>>,
    other: &LinkedList<Message<D>>,
) -> bool
    ensures { IsTrue result → one.now ≡ other.now }
{
    let mut rest = one.iter();
    let mut left = other.iter();
    while let Some(first) = rest.next() {
        let Some(second) = left.next() else {
            return false;
        };
        if !first.is_equal(second) {
            return false;
        }
    }
    left.next().is_none()
}
