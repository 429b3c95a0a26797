//! The choices of runs, one run after another: those with which two of them begin alike are made once (own).
ghost use Rattle.std.specs.Prelude.{◌≡◌, ◌≤◌, [], IfOk, length, map, take};
ghost use Rattle.loom_engine.specs.Path.Words.{choice_in};

use crate::rt::path::word;
use loom_objects::choice::Choice;
use std::alloc::{AllocError, Global};
use std::marker::Model;

/// The choices of a run, each with the word of the node at which it was made. A contract sees the list of them (own).
#[derive(Drop)]
pub struct ChoiceList {
    list: Vec<Choice>,
    words: Vec<u64>,
}

impl Model for ChoiceList {
    ghost use Rattle.std.specs.Prelude.{◌≡◌, List, map};
    ghost use Rattle.loom_objects.specs.declared.choice.Choice.{Choice};
    ghost use Rattle.loom_engine.specs.Path.Words.{choice_in};

    ghost Value = { List Choice };

    ghost view = { λ c. c.list.items };

    ghost invariant = { λ c. c.list.items ≡ map choice_in c.words.items };
}

impl ChoiceList {
    /// None yet (own).
    pub fn new(alloc: Global) -> ChoiceList
        ensures { result ≡ [] }
    {
        ChoiceList {
            list: Vec::new(alloc),
            words: Vec::new(alloc),
        }
    }

    /// The choices in order, to read (own).
    pub fn as_slice(&self) -> &[Choice]
        ensures { result.now ≡ self.now }
    {
        self.list.as_slice()
    }

    /// Those at the nodes that these words are, in the room of these. An error where memory is refused (own).
    pub fn with_words(self, words: &[u64]) -> Result<ChoiceList, AllocError>
        ensures { IfOk result (λ choices. choices ≡ map choice_in words.now) }
    {
        let ChoiceList {
            mut list,
            words: mut before,
        } = self;
        let same = count_same(before.as_slice(), words);
        list.truncate(same);
        before.truncate(same);
        before.extend_from_slice(&words[same..])?;
        for place in same..words.len() {
            list.push(choice(words[place]))?;
        }
        Ok(ChoiceList {
            list,
            words: before,
        })
    }
}

/// What was chosen at the node that a word is.
#[inline(always)]
fn choice(word: u64) -> Choice
    ensures { result ≡ choice_in word }
{
    word::choice(word)
}

/// With how many words both lists begin alike.
fn count_same(one: &[u64], other: &[u64]) -> usize
    ensures same { take result one.now ≡ take result other.now }
    ensures one { result ≤ length one.now }
    ensures other { result ≤ length other.now }
{
    let most = one.len().min(other.len());
    for place in 0..most {
        if one[place] != other[place] {
            return place;
        }
    }
    most
}
