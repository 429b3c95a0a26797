//! A part and a list of parts as texts.
ghost use Rattle.std.specs.Prelude.{◌≡◌, IfErr, IfOk, Some, string_bytes};
ghost use Rattle.serde_json.specs.Read.{read};
ghost use Rattle.serde_json.specs.View.{view};
ghost use Rattle.serde_json.specs.Written.{compact_text};
ghost use Rattle.loom_engine.specs.Path.Route.{settings};
ghost use Rattle.loom_engine.specs.Checkpoint.Accepted.{OfText};
ghost use Rattle.loom_engine.specs.Parts.Texts.Accepted.{IsListOf, IsNoText, IsPartOf, IsRefusedList, IsRefusedPart, IsRefusedText};
ghost use Rattle.loom_engine.specs.Parts.Texts.Grammar.{part_data, parts_data};

use crate::rt::parts::error::PartsError;
use crate::rt::parts::{Part, Parts};
use crate::rt::path::Search;
use serde_json::Value;
use std::alloc::{AllocError, Global};

impl Part {
    /// The part's text: its value in compact form (own).
    pub fn to_text(&self, alloc: Global) -> Result<String, AllocError>
        ensures text { IfOk result (λ text. string_bytes text ≡ compact_text (part_data self.now)) }
        ensures reads_back { IfOk result (λ text. read (string_bytes text) ≡ Some (part_data self.now)) }
    {
        self.to_value(alloc)?.to_string(alloc)
    }

    /// The part that a text holds, of such a search (own).
    pub fn from_text(alloc: Global, text: &[u8], search: Search) -> Result<Part, PartsError>
        ensures ok { IfOk result (λ part. OfText text.now (λ value. IsPartOf (settings search) search.explores value part)) }
        ensures err { IfErr result (IsRefusedText (IsRefusedPart (settings search) search.explores) text.now) }
    {
        match value_of(alloc, text) {
            Ok(value) => Part::from_value(alloc, &value, search),
            Err(error) => Err(error),
        }
    }
}

impl Parts {
    /// The list's text: its value in compact form (own).
    pub fn to_text(&self, alloc: Global) -> Result<String, AllocError>
        ensures text { IfOk result (λ text. string_bytes text ≡ compact_text (parts_data self.now)) }
        ensures reads_back { IfOk result (λ text. read (string_bytes text) ≡ Some (parts_data self.now)) }
    {
        self.to_value(alloc)?.to_string(alloc)
    }

    /// The list that a text holds, of such a search (own).
    pub fn from_text(alloc: Global, text: &[u8], search: Search) -> Result<Parts, PartsError>
        ensures ok { IfOk result (λ parts. OfText text.now (λ value. IsListOf (settings search) search.explores value parts)) }
        ensures err { IfErr result (IsRefusedText (IsRefusedList (settings search) search.explores) text.now) }
    {
        match value_of(alloc, text) {
            Ok(value) => Parts::from_value(alloc, &value, search),
            Err(error) => Err(error),
        }
    }
}

/// The JSON value of a text.
fn value_of(alloc: Global, text: &[u8]) -> Result<Value, PartsError>
    ensures ok { IfOk result (λ value. OfText text.now (λ found. found ≡ view value)) }
    ensures err { IfErr result (IsNoText text.now) }
{
    match Value::from_slice(alloc, text) {
        Ok(value) => Ok(value),
        Err(refused) => {
            if refused.is_memory() {
                return Err(PartsError::Memory(AllocError));
            }
            Err(PartsError::NotJson)
        }
    }
}
