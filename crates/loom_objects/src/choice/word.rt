//! Words of a text of choices, one after another.
ghost use Rattle.std.specs.Prelude.{◌≡◌};
ghost use Rattle.loom_objects.specs.Choice.{after_word, is_space};

use crate::choice::{Choice, choice_in};

/// A space, a tab or the end of a line (own).
pub fn is_space(byte: u8) -> bool
    ensures { result ≡ is_space byte }
{
    byte == b' ' || byte == b'\t' || byte == b'\n' || byte == b'\r'
}

/// The choice of the word that begins with this letter, where a space comes after the word, or nothing (own).
pub fn first_word(letter: u8, after: &[u8]) -> Option<Choice>
    ensures { result ≡ after_word letter after.now }
{
    let (sign, rest) = after.split_first()?;
    match rest.first() {
        Some(next) if !is_space(*next) => None,
        _ => choice_in(letter, *sign),
    }
}
