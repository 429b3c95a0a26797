//! The list of a check's parts, as a file has it: a number for each part, which no other part of the check has ever had.
use crate::rows::shares::kind::Kind;
use loom::model::builder::Builder;
use loom::model::cover::part_texts::parts_to_text;
use loom::model::error::CheckError;
use loom_engine::rt::parts::{Part, Parts};
use loom_objects::choice::Choice;
use std::alloc::{AllocError, Global};

/// The parts, each with its number.
#[derive(Drop)]
pub(crate) struct Listed {
    /// So many parts there are to be at least.
    pub(crate) wanted: usize,
    /// The number of the next new part.
    pub(crate) next: u64,
    pub(crate) parts: Parts,
    /// How many runs were given up, of a covering check.
    pub(crate) met: Option<u64>,
    /// The number of each part, in the order of the list.
    pub(crate) numbers: Vec<u64>,
}

/// A part that is out: its number, and its base.
#[derive(Drop)]
pub(crate) struct Known {
    pub(crate) number: u64,
    pub(crate) base: Vec<Choice>,
}

/// What came back of a check's parts, and which are still out.
#[derive(Drop)]
pub(crate) struct Sorted {
    /// The parts that came back.
    pub(crate) done: Vec<Part>,
    /// How many of their runs were given up.
    pub(crate) met: u64,
    /// Their numbers.
    pub(crate) back: Vec<u64>,
    /// The other ones.
    pub(crate) out: Vec<Known>,
}

impl Sorted {
    /// None yet.
    pub(crate) fn new(alloc: Global) -> Sorted {
        Sorted {
            done: Vec::new(alloc),
            met: 0,
            back: Vec::new(alloc),
            out: Vec::new(alloc),
        }
    }

    /// One more, which has this number and this base: it came back so, with so many runs given up, or is still out.
    pub(crate) fn add(
        &mut self,
        alloc: Global,
        number: u64,
        part: Option<(Part, u64)>,
        base: &[Choice],
    ) -> Result<(), AllocError> {
        match part {
            Some((part, met)) => {
                self.met = self.met.saturating_add(met);
                self.done.push(part)?;
                self.back.push(number)?;
            }
            None => {
                let mut copy = Vec::new(alloc);
                copy.extend_from_slice(base)?;
                self.out.push(Known { number, base: copy })?;
            }
        }
        Ok(())
    }
}

/// So many cuts are made at a time at most.
const MOST_CUTS: usize = 100_000;

impl Listed {
    /// These parts, each as a new one.
    pub(crate) fn new(
        alloc: Global,
        wanted: usize,
        kind: Kind,
        parts: Parts,
    ) -> Result<Listed, AllocError> {
        let mut listed = Listed {
            wanted,
            next: 1,
            parts,
            met: kind.none_met(),
            numbers: Vec::new(alloc),
        };
        listed.number_anew(alloc, &[])?;
        Ok(listed)
    }

    /// Takes these parts back, cuts them and what they opened until there are as many parts as are wanted, and gives each of them a new
    /// number. The parts that are out keep theirs.
    pub(crate) fn take_back(
        &mut self,
        alloc: Global,
        done: Vec<Part>,
        out: &[Known],
    ) -> Result<(), AllocError> {
        for part in done {
            self.parts.give_back(alloc, part)?;
        }
        self.cut_up(alloc, out)?;
        self.number_anew(alloc, out)
    }

    // Cuts the parts that aren't out, until there are as many parts as are wanted.
    fn cut_up(&mut self, alloc: Global, out: &[Known]) -> Result<(), AllocError> {
        let mut place = 0;
        for _ in 0..MOST_CUTS {
            if self.parts.len() >= self.wanted || place >= self.parts.len() {
                break;
            }
            if number_of(out, &self.parts.list[place]).is_some() || !self.parts.cut(alloc, place)? {
                place += 1;
            }
        }
        Ok(())
    }

    /// So many more runs were given up, of a covering check.
    pub(crate) fn give_up(&mut self, more: u64) {
        self.met = self.met.map(|met| met.saturating_add(more));
    }

    /// Takes this part back, where none is out.
    pub(crate) fn take_one_back(&mut self, alloc: Global, part: Part) -> Result<(), AllocError> {
        let mut done = Vec::new(alloc);
        done.push(part)?;
        self.take_back(alloc, done, &[])
    }

    /// Each part that isn't out gets a number that none has had.
    fn number_anew(&mut self, alloc: Global, out: &[Known]) -> Result<(), AllocError> {
        let mut numbers = Vec::new(alloc);
        for part in &self.parts.list {
            match number_of(out, part) {
                Some(number) => numbers.push(number)?,
                None => {
                    numbers.push(self.next)?;
                    self.next = self.next.saturating_add(1);
                }
            }
        }
        self.numbers = numbers;
        Ok(())
    }

    /// The text: the two numbers and those of the parts in a line each, and the list of parts.
    pub(crate) fn to_text(&self, alloc: Global) -> Result<String, AllocError> {
        let wanted = self.wanted;
        let next = self.next;
        let mut text = format!(in alloc; "{wanted}\n{next}\n")?;
        for number in &self.numbers {
            let word = format!(in alloc; "{number} ")?;
            text.push_str(word.as_str())?;
        }
        text.push_str("\n")?;
        let parts = match self.met {
            Some(met) => parts_to_text(alloc, &self.parts, met)?,
            None => self.parts.to_text(alloc)?,
        };
        text.push_str(parts.as_str())?;
        Ok(text)
    }

    /// What is read back from such a text, for this check. `WrongShape` where it is none.
    pub(crate) fn from_text(
        alloc: Global,
        kind: Kind,
        builder: &Builder,
        text: &str,
    ) -> Result<Listed, CheckError> {
        let Some((wanted, rest)) = text.split_once('\n') else {
            return Err(CheckError::WrongShape);
        };
        let Some((next, rest)) = rest.split_once('\n') else {
            return Err(CheckError::WrongShape);
        };
        let Some((words, list)) = rest.split_once('\n') else {
            return Err(CheckError::WrongShape);
        };
        let (Ok(wanted), Ok(next)) = (wanted.parse::<usize>(), next.parse::<u64>()) else {
            return Err(CheckError::WrongShape);
        };
        let (parts, met) = kind.parts_from(alloc, builder, list.as_bytes())?;
        let Some(numbers) = numbers_in(alloc, words)? else {
            return Err(CheckError::WrongShape);
        };
        if numbers.len() != parts.len() {
            return Err(CheckError::WrongShape);
        }
        Ok(Listed {
            wanted,
            next,
            parts,
            met,
            numbers,
        })
    }
}

// The number of the part, if it is out.
fn number_of(out: &[Known], part: &Part) -> Option<u64> {
    out.iter()
        .find(|known| known.base.as_slice() == part.base.as_slice())
        .map(|known| known.number)
}

// The numbers of a line, or none where a word isn't one.
fn numbers_in(alloc: Global, line: &str) -> Result<Option<Vec<u64>>, AllocError> {
    let mut numbers = Vec::new(alloc);
    for word in line.split_ascii_whitespace() {
        let Ok(number) = word.parse::<u64>() else {
            return Ok(None);
        };
        numbers.push(number)?;
    }
    Ok(Some(numbers))
}
