//! The data of a run's events as texts: what a thread was told, and what it handed over.
use crate::text::answers::data_told;
use crate::text::forms::data_of;
use loom_objects::operation::{Reply, Request};
use std::alloc::{AllocError, Global};
use std::fmt::Display;

/// How data are written in an explanation (own).
pub trait Show<D> {
    /// The text of a value, if it is to be shown. An error where memory is refused.
    fn show(&self, alloc: Global, value: &D) -> Result<Option<String>, AllocError>;
}

/// Data aren't shown (own).
#[derive(Clone, Copy, Debug)]
pub struct Hidden;

impl<D> Show<D> for Hidden {
    fn show(&self, _alloc: Global, _value: &D) -> Result<Option<String>, AllocError> {
        Ok(None)
    }
}

/// Data are shown as they are printed (own).
#[derive(Clone, Copy, Debug)]
pub struct Displayed;

impl<D: Display> Show<D> for Displayed {
    fn show(&self, alloc: Global, value: &D) -> Result<Option<String>, AllocError> {
        Ok(Some(format!(in alloc; "{value}")?))
    }
}

/// The data of an event as texts, where there are some and they are shown (own).
#[derive(Debug, Drop)]
pub struct Values {
    /// Of the reply.
    pub told: Option<String>,
    /// Of the operation.
    pub handed_over: Option<String>,
}

/// The text of the data in a reply, if there are some and they are shown. An error where memory is refused.
pub fn text_of_reply<D, W: Show<D>>(
    alloc: Global,
    show: &W,
    reply: &Reply<D>,
) -> Result<Option<String>, AllocError> {
    match data_told(reply) {
        Some(value) => show.show(alloc, value),
        None => Ok(None),
    }
}

/// The text of the data that an operation hands over, if there are some and they are shown. An error where memory is refused.
pub fn text_of_request<D, S, W: Show<D>>(
    alloc: Global,
    show: &W,
    request: &Request<D, S>,
) -> Result<Option<String>, AllocError> {
    match data_of(request) {
        Some(value) => show.show(alloc, value),
        None => Ok(None),
    }
}
