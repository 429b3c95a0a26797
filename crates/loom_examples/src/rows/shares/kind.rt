//! How the texts of a shared check are written and read: of a plain check, or of one that remembers states.
use loom::model::builder::Builder;
use loom::model::cover::part_texts::part_to_text;
use loom::model::error::CheckError;
use loom_engine::rt::parts::{Part, Parts};
use std::alloc::{AllocError, Global};

/// Which kind of check it is.
#[derive(Clone, Copy)]
pub(crate) enum Kind {
    Plain,
    /// It remembers states.
    Covering,
}

impl Kind {
    /// None was given up yet, of a covering check.
    pub(crate) fn none_met(self) -> Option<u64> {
        match self {
            Kind::Plain => None,
            Kind::Covering => Some(0),
        }
    }

    /// The check from its beginning, as a list of one part.
    pub(crate) fn parts(self, alloc: Global, builder: &Builder) -> Result<Parts, CheckError> {
        match self {
            Kind::Plain => builder.parts(alloc),
            Kind::Covering => builder.cover_parts(alloc),
        }
    }

    /// The list that a text holds, and how many runs were given up, of a covering check.
    pub(crate) fn parts_from(
        self,
        alloc: Global,
        builder: &Builder,
        text: &[u8],
    ) -> Result<(Parts, Option<u64>), CheckError> {
        match self {
            Kind::Plain => Ok((builder.parts_from(alloc, text)?, None)),
            Kind::Covering => {
                let (parts, met) = builder.cover_parts_from(alloc, text)?;
                Ok((parts, Some(met)))
            }
        }
    }
}

/// The text of a part, of which so many runs were given up.
pub(crate) fn part_text(
    alloc: Global,
    kind: Kind,
    part: &Part,
    met: u64,
) -> Result<String, AllocError> {
    match kind {
        Kind::Plain => part.to_text(alloc),
        Kind::Covering => part_to_text(alloc, part, met),
    }
}

/// The part that a text holds, and how many of its runs were given up.
pub(crate) fn part_from(
    alloc: Global,
    kind: Kind,
    builder: &Builder,
    text: &[u8],
) -> Result<(Part, u64), CheckError> {
    match kind {
        Kind::Plain => Ok((builder.part_from(alloc, text)?, 0)),
        Kind::Covering => builder.cover_part_from(alloc, text),
    }
}
