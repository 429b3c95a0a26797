//! A part and a list of parts as JSON values.
ghost use Rattle.std.specs.Prelude.{◌≡◌, [], IfErr, IfOk};
ghost use Rattle.serde_json.specs.View.{view};
ghost use Rattle.loom_engine.specs.declared.rt.parts.Part.{Part as Kept};
ghost use Rattle.loom_engine.specs.declared.rt.parts.Parts.{Parts as Listed};
ghost use Rattle.loom_engine.specs.Path.Route.{settings};
ghost use Rattle.loom_engine.specs.Checkpoint.Grammar.{path_data};
ghost use Rattle.loom_engine.specs.Parts.Keeping.{IsCopy};
ghost use Rattle.loom_engine.specs.Parts.Texts.Accepted.{AreTrue, IsAtToo, IsListOf, IsMemory, IsOfFormat, IsPartOf, IsRefusedHeader, IsRefusedList, IsRefusedPart, IsRefusedSearch, IsTruePart};
ghost use Rattle.loom_engine.specs.Parts.Texts.Grammar.{part_data, parts_data};

use crate::rt::parts::error::PartsError;
use crate::rt::parts::read::{
    read_format, read_item, read_items, read_keys, take_listed, take_single,
};
use crate::rt::parts::write::{write_item, write_items, write_keys};
use crate::rt::parts::{Part, Parts};
use crate::rt::path::checkpoint::VERSION;
use crate::rt::path::checkpoint::read::read_version;
use crate::rt::path::{Path, Search};
use serde_json::{Value, json};
use std::alloc::{AllocError, Global};

/// What a part that is written alone says that it is. Own.
pub const PART: &str = "part";

/// What a list of parts says that it is. Own.
pub const PARTS: &str = "parts";

impl Part {
    /// The part's JSON value (own).
    #[tactic(auto, unfolding(crate::specs::Parts::Texts::Grammar::part_shape))]
    pub fn to_value(&self, alloc: Global) -> Result<Value, AllocError>
        ensures { IfOk result (λ value. view value ≡ part_data self.now) }
    {
        let part = write_item(alloc, self)?;
        json!(in alloc; {"format": PART, "part": part, "version": VERSION})
    }

    /// The part that a JSON value is, of such a search. It is accepted exactly if it is the value of a true part: one whose path
    /// is between two runs, fits the search and begins with the part's base (own).
    pub fn from_value(alloc: Global, value: &Value, search: Search) -> Result<Part, PartsError>
        ensures ok { IfOk result (IsPartOf (settings search) search.explores (view value.now)) }
        ensures err { IfErr result (IsRefusedPart (settings search) search.explores (view value.now)) }
        ensures exact { IfErr result (λ error. ¬ IsMemory error → (part : Kept) → ¬ IsPartOf (settings search) search.explores (view value.now) part) }
    {
        if let Err(error) = test_header(value, PART) {
            return Err(error);
        }
        let single = match take_single(value) {
            Some(single) => single,
            None => return Err(PartsError::WrongShape),
        };
        read_item(alloc, single.part, search)
    }
}

impl Parts {
    /// The list's JSON value (own).
    #[tactic(auto, unfolding(crate::specs::Parts::Texts::Grammar::list_shape))]
    pub fn to_value(&self, alloc: Global) -> Result<Value, AllocError>
        ensures { IfOk result (λ value. view value ≡ parts_data self.now) }
    {
        let parts = write_items(alloc, &self.list)?;
        let search = Path::new(alloc, self.search).to_value(alloc)?;
        let trunk = write_keys(alloc, &self.trunk)?;
        json!(in alloc; {
            "format": PARTS,
            "parts": parts,
            "runs": self.runs,
            "search": search,
            "trunk": trunk,
            "version": VERSION,
        })
    }

    /// The list that a JSON value is, of such a search. It is accepted exactly if it is the value of a list of true parts (own).
    pub fn from_value(alloc: Global, value: &Value, search: Search) -> Result<Parts, PartsError>
        ensures ok { IfOk result (IsListOf (settings search) search.explores (view value.now)) }
        ensures err { IfErr result (IsRefusedList (settings search) search.explores (view value.now)) }
        ensures exact { IfErr result (λ error. ¬ IsMemory error → (parts : Listed) → ¬ IsListOf (settings search) search.explores (view value.now) parts) }
    {
        if let Err(error) = test_header(value, PARTS) {
            return Err(error);
        }
        let listed = match take_listed(value) {
            Some(listed) => listed,
            None => return Err(PartsError::WrongShape),
        };
        if let Err(error) = test_search(alloc, listed.search, search) {
            return Err(error);
        }
        let list = match read_items(alloc, listed.parts, search) {
            Ok(list) => list,
            Err(error) => return Err(error),
        };
        let trunk = match read_keys(alloc, listed.trunk) {
            Ok(trunk) => trunk,
            Err(error) => return Err(error),
        };
        Ok(Parts {
            search,
            runs: listed.runs,
            list,
            trunk,
        })
    }
}

/// Whether the value says that it is of this format and version, and else why not.
fn test_header(value: &Value, format: &str) -> Result<(), PartsError>
    ensures ok { IfOk result (λ _. IsOfFormat format.now (view value.now)) }
    ensures err { IfErr result (IsRefusedHeader format.now (view value.now)) }
{
    match read_format(value) {
        Some(found) if found == format => {}
        _ => return Err(PartsError::WrongFormat),
    }
    match read_version(value) {
        Some(VERSION) => Ok(()),
        Some(version) => Err(PartsError::WrongVersion(version)),
        None => Err(PartsError::WrongShape),
    }
}

/// Whether the value is that of a path without nodes of such a search, and else why not.
fn test_search(alloc: Global, value: &Value, search: Search) -> Result<(), PartsError>
    ensures ok { IfOk result (λ _. view value.now ≡ path_data (settings search) search.explores []) }
    ensures err { IfErr result (IsRefusedSearch (settings search) search.explores (view value.now)) }
{
    match Path::from_value(alloc, value, search) {
        Ok(path) => {
            if path.len() == 0 {
                Ok(())
            } else {
                Err(PartsError::WrongShape)
            }
        }
        Err(error) => Err(PartsError::Path(error)),
    }
}

/// A true part is read from its value as it was written (own).
pub fn reread_part(alloc: Global, part: &Part) -> Result<Part, PartsError>
    requires { IsTruePart part.now.path.search part.now.path.explores part.now }
    ensures same { IfOk result (IsCopy part.now) }
    ensures err { IfErr result IsMemory }
{
    let value = match part.to_value(alloc) {
        Ok(value) => value,
        Err(refused) => return Err(PartsError::Memory(refused)),
    };
    match Part::from_value(alloc, &value, part.path.search()) {
        Ok(read) => {
            read.path.notes_follow(&part.path);
            Ok(read)
        }
        Err(error) => Err(error),
    }
}

/// A list of true parts that was written and is read back is where it was, in any search (own).
pub fn reread(alloc: Global, parts: &Parts) -> Result<Parts, PartsError>
    requires { AreTrue (settings parts.now.search) parts.now.search.explores parts.now }
    ensures same { IfOk result (λ read. IsAtToo parts.now read × (read.runs ≡ parts.now.runs)) }
    ensures err { IfErr result IsMemory }
{
    let value = match parts.to_value(alloc) {
        Ok(value) => value,
        Err(refused) => return Err(PartsError::Memory(refused)),
    };
    Parts::from_value(alloc, &value, parts.search)
}
