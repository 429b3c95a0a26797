//! What a run chooses, and the word for it.
pub mod word;

ghost use Rattle.std.specs.Prelude.{◌≡◌, Some, None, IfOk, IfErr};
ghost use Rattle.loom_objects.specs.Choice.{choice_in, choice_of, choice_text, digit_below};

use loom_views::rt::{MAX_ATOMIC_HISTORY, MAX_THREADS};
use std::fmt;
use std::str::FromStr;
use thiserror::Error;

/// What was chosen at a node of the path.
#[derive(Clone, Copy, Debug, PartialEq, Eq)]
pub enum Choice {
    /// The thread that goes on, or none, where none can.
    Thread(Option<u8>),
    /// The slot of the store that a load reads.
    Load(u8),
    /// Whether a thread wakes without a notification.
    Spurious(bool),
}

/// A word that is no choice.
#[derive(Clone, Copy, Debug, PartialEq, Eq, Error)]
#[error("no choice: a choice is `t0` to `t4` or `t-`, `l0` to `l6`, `s0` or `s1`")]
pub struct ParseChoiceError;

/// As a word: `t0` to `t4` for a thread and `t-` for none, `l0` to `l6` for a slot, `s0` or `s1` for whether a thread wakes
/// without a notification.
impl fmt::Display for Choice {
    ghost output = { λ choice. Some (choice_text choice) };

    fn fmt<W: fmt::Write>(&self, f: &mut fmt::Formatter<W>) -> fmt::Result {
        match *self {
            Choice::Thread(None) => f.write_str("t-"),
            Choice::Thread(Some(thread)) => write!(f, "t{thread}"),
            Choice::Load(slot) => write!(f, "l{slot}"),
            Choice::Spurious(false) => f.write_str("s0"),
            Choice::Spurious(true) => f.write_str("s1"),
        }
    }
}

/// The choice of such a word. An error where the text is no word of a letter and a sign that name one.
impl FromStr for Choice {
    type Err = ParseChoiceError;

    ghost from_str_gives = { λ word r. IfOk r (λ choice. choice_of word ≡ Some choice)
        × IfErr r (λ _. choice_of word ≡ None) };

    fn from_str(word: &str) -> Result<Choice, ParseChoiceError> {
        choice_of(word.as_bytes()).ok_or(ParseChoiceError)
    }
}

/// The choice that a word of two bytes names, if it names one.
fn choice_of(word: &[u8]) -> Option<Choice>
    ensures { result ≡ choice_of word.now }
{
    match word {
        [letter, sign] => choice_in(*letter, *sign),
        _ => None,
    }
}

/// The choice that a letter and a sign name, if they do: `t0` to `t4`, `t-`, `l0` to `l6`, `s0`, `s1`.
pub fn choice_in(letter: u8, sign: u8) -> Option<Choice>
    ensures { result ≡ choice_in letter sign }
{
    match letter {
        b't' if sign == b'-' => Some(Choice::Thread(None)),
        b't' => digit_below(MAX_THREADS, sign).map(|thread| Choice::Thread(Some(thread))),
        b'l' => digit_below(MAX_ATOMIC_HISTORY, sign).map(Choice::Load),
        b's' if sign == b'0' => Some(Choice::Spurious(false)),
        b's' if sign == b'1' => Some(Choice::Spurious(true)),
        _ => None,
    }
}

/// The number below the limit of which the sign is the digit, if there is one.
fn digit_below(limit: usize, sign: u8) -> Option<u8>
    ensures { result ≡ digit_below limit sign }
{
    if sign.is_ascii_digit() && usize::from(sign - b'0') < limit {
        Some(sign - b'0')
    } else {
        None
    }
}
