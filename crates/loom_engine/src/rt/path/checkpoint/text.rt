//! A path as the text of a checkpoint.
ghost use Rattle.std.specs.Prelude.{◌≡◌, Some, IfOk, IfErr, string_bytes};
ghost use Rattle.serde_json.specs.Read.{read};
ghost use Rattle.serde_json.specs.Written.{compact_text};
ghost use Rattle.loom_engine.specs.Path.Route.{at_rest, settings};
ghost use Rattle.loom_engine.specs.Checkpoint.Grammar.{path_data};
ghost use Rattle.loom_engine.specs.Checkpoint.Accepted.{IsPathOf, OfText, IsRefusedText};

use crate::rt::path::checkpoint::error::PathError;
use crate::rt::path::{Path, Search};
use serde_json::Value;
use std::alloc::{AllocError, Global};

/// The text of a path between two runs: its value in compact form.
pub fn to_text(alloc: Global, path: &Path) -> Result<String, AllocError>
    ensures text { IfOk result (λ text. string_bytes text ≡ compact_text (path_data path.now.search path.now.explores path.now.nodes)) }
    ensures reads_back { IfOk result (λ text. read (string_bytes text) ≡ Some (path_data path.now.search path.now.explores path.now.nodes)) }
{
    path.to_value(alloc)?.to_string(alloc)
}

/// The path that a text holds, of such a search.
pub fn from_text(alloc: Global, text: &[u8], search: Search) -> Result<Path, PathError>
    ensures ok { IfOk result (λ path. (path ≡ at_rest (settings search) search.explores path.nodes)
        × OfText text.now (λ value. IsPathOf (settings search) search.explores value path.nodes)) }
    ensures err { IfErr result (IsRefusedText (settings search) search.explores text.now) }
{
    let value = match Value::from_slice(alloc, text) {
        Ok(value) => value,
        Err(refused) => {
            if refused.is_memory() {
                return Err(PathError::Memory(AllocError));
            }
            return Err(PathError::NotJson);
        }
    };
    Path::from_value(alloc, &value, search)
}
