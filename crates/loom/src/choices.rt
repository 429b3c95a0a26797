//! The choices of a run as a text, as `t0 t- l1 s0`: written, and read back. `laws` says that what is written is read back. A
//! choice's own word, and how one is found in a text, are in `loom_objects`. A report shows such a text, and whoever reads it gives
//! it to a replay.
ghost use Rattle.std.specs.Prelude.{◌≡◌, ◌≢◌, Some, None, IfOk, IfErr};
ghost use Rattle.loom.specs.Model.ChoicesRead.{choices_in};
ghost use Rattle.loom.specs.Model.ChoicesText.{choices_text, others_text};
ghost use Rattle.loom.specs.declared.choices.ChoicesError.TheVariants.{Memory};

pub mod laws;

use loom_objects::choice::Choice;
use loom_objects::choice::word::{first_word, is_space};
use std::alloc::{AllocError, Global};
use std::fmt;
use thiserror::Error;

/// The choices of a run, in order.
#[derive(Debug, PartialEq, Eq, Drop)]
pub struct Choices(pub Vec<Choice>);

/// Choices as a text: each as a word, with a space between two.
#[derive(Clone, Copy)]
pub struct ShownChoices<'a>(pub &'a [Choice]);

/// Choices that come after another: each as a word after a space.
#[derive(Clone, Copy)]
struct Others<'a>(&'a [Choice]);

/// Why a text isn't read as choices.
#[derive(Clone, Copy, Debug, PartialEq, Eq, Error)]
pub enum ChoicesError {
    /// The word of this number, from 1, is no choice.
    #[error("word {0} is no choice: a choice is `t0` to `t4` or `t-`, `l0` to `l6`, `s0` or `s1`, with a space between two")]
    NotAChoice(usize),
    /// A growth was refused.
    #[error("out of memory")]
    Memory,
}

impl From<AllocError> for ChoicesError {
    ghost from_gives = { λ _ e. e ≡ Memory };

    fn from(_e: AllocError) -> ChoicesError {
        ChoicesError::Memory
    }
}

impl fmt::Display for ShownChoices<'_> {
    ghost output = { λ shown. Some (choices_text shown.0.now) };

    fn fmt<W: fmt::Write>(&self, f: &mut fmt::Formatter<W>) -> fmt::Result {
        match self.0.split_first() {
            None => Ok(()),
            Some((first, others)) => {
                let first = *first;
                let others = Others(others);
                write!(f, "{first}{others}")
            }
        }
    }
}

impl fmt::Display for Others<'_> {
    ghost output = { λ others. Some (others_text others.0.now) };

    fn fmt<W: fmt::Write>(&self, f: &mut fmt::Formatter<W>) -> fmt::Result {
        for choice in self.0 {
            let word = *choice;
            write!(f, " {word}")?;
        }
        Ok(())
    }
}

impl fmt::Display for Choices {
    ghost output = { λ choices. Some (choices_text choices.0.items) };

    fn fmt<W: fmt::Write>(&self, f: &mut fmt::Formatter<W>) -> fmt::Result {
        let shown = ShownChoices(self.0.as_slice());
        write!(f, "{shown}")
    }
}

impl Choices {
    /// The choices that a text has, as `t0 t- l1 s0`: words `t0` to `t4` or `t-`, `l0` to `l6`, `s0` or `s1`, with spaces, tabs or
    /// ends of lines between them, and before and after. `NotAChoice` where there is another word, and `Memory` where a growth was
    /// refused.
    pub fn parse(alloc: Global, text: &str) -> Result<Choices, ChoicesError>
        ensures read { IfOk result (λ choices. choices_in text.now ≡ Some choices.0.items) }
        ensures refused { IfErr result (λ e. e ≢ Memory → choices_in text.now ≡ None) }
    {
        let mut choices = Vec::new(alloc);
        let mut rest = text.as_bytes();
        while let Some((first, after)) = rest.split_first() {
            if is_space(*first) {
                rest = after;
            } else {
                let Some(choice) = first_word(*first, after) else {
                    return Err(ChoicesError::NotAChoice(choices.len() + 1));
                };
                choices.push(choice).map_err(AllocError::from)?;
                rest = &after[1..];
            }
        }
        Ok(Choices(choices))
    }

    /// The choices, as a replay takes them.
    pub fn as_slice(&self) -> &[Choice]
        ensures { result.now ≡ self.now.0.items }
    {
        self.0.as_slice()
    }
}
