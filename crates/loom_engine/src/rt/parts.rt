//! A search as a list of parts, which are worked on in any order and given back (own).
pub mod error;
pub mod read;
pub mod text;
pub mod value;
pub mod write;

ghost use Rattle.std.specs.Prelude.{◌≡◌, ◌↔◌, ℕ, List, [], IfOk, IfSome, IsTrue, None, length, true};
ghost use Rattle.loom_objects.specs.declared.choice.Choice.{Choice as Chosen};
ghost use Rattle.loom_engine.specs.Walk.Machine.{Machine};
ghost use Rattle.loom_engine.specs.Walk.Sound.{IsMachine};
ghost use Rattle.loom_engine.specs.Walk.Lists.{Member};
ghost use Rattle.loom_engine.specs.Path.Nodes.{stored};
ghost use Rattle.loom_engine.specs.Covering.Spread.{IsSpread, SpreadsBack, SpreadsOn, SpreadsOut, SpreadsOutEach};
ghost use Rattle.loom_engine.specs.Parts.Openings.{EachOpening, OpensAt};
ghost use Rattle.loom_engine.specs.Parts.Keeping.{keys, AddsParts, Counts, CountsNone, Cuts, GivesBack, HandsOut, HandsOutEach, HasComeTo, HasMadeAll, IsAt, IsBaseOf, IsCopy, Issues, KeepsOthers, Takes};

use crate::rt::path::opening::{Opening, tried};
use crate::rt::path::part::add_openings;
use crate::rt::path::{Path, Search};
use loom_objects::choice::Choice;
use std::alloc::{AllocError, Global};

/// A part of a search: the runs that begin with these choices, and weren't made (own).
#[derive(Drop)]
pub struct Part {
    /// The choices that are fixed.
    pub base: Vec<Choice>,
    /// The path of the run that is made next, which begins with these.
    pub path: Path,
    /// Whether no run is left. Then of the path the nodes along the base are left, for what was noted at them.
    pub is_done: bool,
    /// How many of its runs were made since it was taken.
    pub runs: u64,
}

impl Part {
    /// A copy of the part (own).
    pub fn try_clone(&self, alloc: Global) -> Result<Part, AllocError>
        ensures { IfOk result (IsCopy self.now) }
    {
        let mut base = Vec::new(alloc);
        base.extend_from_slice(&self.base)?;
        let path = self.path.try_clone(alloc)?;
        Ok(Part {
            base,
            path,
            is_done: self.is_done,
            runs: self.runs,
        })
    }
}

/// The parts of a search that are left, and what was handed out (own).
#[derive(Drop)]
pub struct Parts {
    /// What the search tries.
    pub search: Search,
    /// How many runs were made, of all parts that were given back.
    pub runs: u64,
    /// The parts. One that somebody works on stays here until it is given back.
    pub list: Vec<Part>,
    /// The options that were handed out, each with the choices before it.
    pub trunk: Vec<Vec<Choice>>,
}

impl Parts {
    /// A search from its beginning: one part, of which nothing is fixed (own).
    pub fn new(alloc: Global, search: Search) -> Result<Parts, AllocError>
        ensures begins { IfOk result (λ parts. (m : Machine) → IsAt m [] parts) }
        ensures spreads { IfOk result (λ parts. (m : Machine) → IsSpread m [] parts) }
    {
        let mut list = Vec::new(alloc);
        list.push(Part {
            base: Vec::new(alloc),
            path: Path::new(alloc, search),
            is_done: false,
            runs: 0,
        })?;
        Ok(Parts {
            search,
            runs: 0,
            list,
            trunk: Vec::new(alloc),
        })
    }

    /// A plain search that has come to this path, as one part of which nothing is fixed (own).
    pub fn from_path(alloc: Global, path: Path) -> Result<Parts, AllocError>
        ensures { IfOk result (λ parts. (m : Machine) (runs : List (List Chosen)) → IsMachine m → HasComeTo m runs (stored path.nodes) → IsAt m runs parts) }
    {
        let search = path.search();
        let mut list = Vec::new(alloc);
        list.push(Part {
            base: Vec::new(alloc),
            path,
            is_done: false,
            runs: 0,
        })?;
        Ok(Parts {
            search,
            runs: 0,
            list,
            trunk: Vec::new(alloc),
        })
    }

    /// How many parts are left (own).
    pub fn len(&self) -> usize
        ensures { result ≡ length self.now.list.items }
    {
        self.list.len()
    }

    /// Whether no part is left. Then the runs made are all that are reachable, each once (own).
    pub fn is_over(&self) -> bool
        ensures all { result ≡ true → (m : Machine) (made : List (List Chosen)) → IsMachine m → IsAt m made self.now → HasMadeAll m made }
        ensures none { result ≡ true → self.now.list.items ≡ [] }
    {
        self.list.is_empty()
    }

    /// A copy of the part of this number, to be worked on, or nothing past the last one (own).
    pub fn take(&self, alloc: Global, number: usize) -> Result<Option<Part>, AllocError>
        ensures { IfOk result (Takes self.now number) }
    {
        if number >= self.list.len() {
            return Ok(None);
        }
        let part = self.list[number].try_clone(alloc)?;
        Ok(Some(part))
    }

    /// Takes back a part that somebody has worked on, in place of the one with its base. What its runs noted along its base is
    /// handed out, and they count. False, and nothing changes, where no part has its base (own).
    pub fn give_back(&mut self, alloc: Global, mut part: Part) -> Result<bool, AllocError>
        ensures back { IfOk result (GivesBack self.old part self.new) }
        ensures spreads { IfOk result (SpreadsBack self.old part self.new) }
        ensures others { IfOk result (λ _. KeepsOthers self.old.list.items part.base.items self.new.list.items) }
        ensures counts { IfOk result (Counts self.old part self.new) }
    {
        let Some(number) = self.place_of(&part.base) else {
            return Ok(false);
        };
        self.list.remove(number);
        let notes = part.path.notes(alloc, part.base.len())?;
        self.hand_out_each(alloc, &part.path, &notes)?;
        self.runs = self.runs.saturating_add(part.runs);
        if !part.is_done {
            part.runs = 0;
            self.list.push(part)?;
        }
        Ok(true)
    }

    /// Cuts the part of this number: the next node past its base is fixed too, and what is to be tried there is handed out. False,
    /// and nothing changes, where there is no such part, or no such node (own).
    pub fn cut(&mut self, alloc: Global, number: usize) -> Result<bool, AllocError>
        ensures cuts { IfOk result (λ _. Cuts self.old self.new) }
        ensures spreads { IfOk result (λ _. SpreadsOn self.old self.new) }
        ensures counts { IfOk result (λ _. CountsNone self.old self.new) }
    {
        if number >= self.list.len() {
            return Ok(false);
        }
        let place = self.list[number].base.len();
        let Some(node) = self.list[number].path.well_node(place) else {
            return Ok(false);
        };
        let mut part = self.list.remove(number);
        let taken = tried(alloc, &node)?;
        self.issue_each(alloc, &part.base, &taken)?;
        let mut openings = Vec::new(alloc);
        add_openings(alloc, &mut openings, place, &node)?;
        self.hand_out_each(alloc, &part.path, &openings)?;
        part.base.push(node.choice())?;
        self.list.push(part)?;
        Ok(true)
    }

    /// The number of the part with this base.
    fn place_of(&self, base: &[Choice]) -> Option<usize>
        ensures some { IfSome result (IsBaseOf self.now.list.items base.now) }
        ensures none { result ≡ None → (number : ℕ) → IsBaseOf self.now.list.items base.now number → ⊥ }
    {
        for number in 0..self.list.len() {
            if self.list[number].base.as_slice() == base {
                return Some(number);
            }
        }
        None
    }

    /// Whether the option was handed out.
    fn is_issued(&self, key: &[Choice]) -> bool
        ensures { IsTrue result ↔ Member key.now (keys self.now.trunk.items) }
    {
        for place in 0..self.trunk.len() {
            if self.trunk[place].as_slice() == key {
                return true;
            }
        }
        false
    }

    /// The opening's option becomes a part, unless it was handed out.
    fn hand_out(&mut self, alloc: Global, path: &Path, opening: &Opening) -> Result<(), AllocError>
        requires { OpensAt path.now.nodes opening.now }
        ensures hands { IfOk result (λ _. HandsOut self.old self.new path.now.nodes opening.now) }
        ensures spreads { IfOk result (λ _. SpreadsOut self.old self.new path.now.nodes opening.now) }
        ensures adds { IfOk result (λ _. AddsParts self.old self.new) }
    {
        let key = path.key(alloc, opening)?;
        if self.is_issued(&key) {
            return Ok(());
        }
        let branch = path.branch_off(alloc, opening)?;
        let mut base = Vec::new(alloc);
        base.extend_from_slice(&key)?;
        self.list.push(Part {
            base,
            path: branch,
            is_done: false,
            runs: 0,
        })?;
        self.trunk.push(key)?;
        Ok(())
    }

    /// Each of these options becomes a part, unless it was handed out.
    fn hand_out_each(
        &mut self,
        alloc: Global,
        path: &Path,
        openings: &[Opening],
    ) -> Result<(), AllocError>
        requires { EachOpening (OpensAt path.now.nodes) openings.now }
        ensures hands { IfOk result (λ _. HandsOutEach self.old self.new path.now.nodes openings.now) }
        ensures spreads { IfOk result (λ _. SpreadsOutEach self.old self.new path.now.nodes openings.now) }
        ensures adds { IfOk result (λ _. AddsParts self.old self.new) }
    {
        for opening in openings {
            self.hand_out(alloc, path, opening)?;
        }
        Ok(())
    }

    /// These options past a base count as handed out.
    fn issue_each(
        &mut self,
        alloc: Global,
        base: &[Choice],
        taken: &[Choice],
    ) -> Result<(), AllocError>
        ensures { IfOk result (λ _. Issues self.old self.new base.now taken.now) }
    {
        for option in taken {
            let mut key = Vec::new(alloc);
            key.extend_from_slice(base)?;
            key.push(*option)?;
            self.trunk.push(key)?;
        }
        Ok(())
    }
}
