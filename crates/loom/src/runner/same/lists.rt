//! Whether the lists that two replies hold are the same: messages, and values by their keys.
ghost use Rattle.std.specs.Prelude.{◌≡◌, ◌↔◌, IsTrue};

use crate::runner::exact::{Exact, is_same_value};
use loom_objects::operation::{Keyed, Lazy};
use std::collections::LinkedList;

/// Whether the two lists are the same.
pub(crate) fn are_same_locals<D: Exact>(one: &[Keyed<D>], other: &[Keyed<D>]) -> bool
    ensures { IsTrue result ↔ (one.now ≡ other.now) }
{
    let mut rest = one;
    let mut left = other;
    while let Some((first, tail)) = rest.split_first() {
        let Some((second, others)) = left.split_first() else {
            return false;
        };
        if first != second {
            return false;
        }
        rest = tail;
        left = others;
    }
    left.is_empty()
}

/// Whether the two lists are the same.
pub(crate) fn are_same_lazies<D: Exact>(one: &[Lazy<D>], other: &[Lazy<D>]) -> bool
    ensures { IsTrue result ↔ (one.now ≡ other.now) }
{
    let mut rest = one;
    let mut left = other;
    while let Some((first, tail)) = rest.split_first() {
        let Some((second, others)) = left.split_first() else {
            return false;
        };
        if first != second {
            return false;
        }
        rest = tail;
        left = others;
    }
    left.is_empty()
}

/// Whether the messages are the same.
pub(crate) fn are_same_messages<D: Exact>(one: &LinkedList<D>, other: &LinkedList<D>) -> bool
    ensures { IsTrue result ↔ (one.now ≡ other.now) }
{
    let mut rest = one.iter();
    let mut left = other.iter();
    while let Some(first) = rest.next() {
        let Some(second) = left.next() else {
            return false;
        };
        if !is_same_value(first, second) {
            return false;
        }
    }
    left.next().is_none()
}
