//! The text with which a covering check goes on: that of its path, with a key of its own, `search`, which says `cover`. So a plain
//! check refuses it, and a covering check that of a plain one.
ghost use Rattle.std.specs.Prelude.{◌≡◌, ◌↔◌, IfOk, IfErr, IsTrue, string_bytes};
ghost use Rattle.serde_json.specs.View.{view};
ghost use Rattle.serde_json.specs.Written.{compact_text};
ghost use Rattle.loom_engine.specs.Path.Route.{at_rest, settings};
ghost use Rattle.loom_engine.specs.Path.WellFormed.{AreWellFormed};
ghost use Rattle.loom.specs.Model.CoverText.{ApartLaw, IsCoverTextOf, IsNoCover, IsCoverOf, IsNoCoverText, SaysCover, cover_data};

use crate::model::cover::keys::{with_key, without_key};
use loom_engine::rt::path::checkpoint::error::PathError;
use loom_engine::rt::path::{Path, Search};
use serde_json::Value;
use std::alloc::{AllocError, Global};

// The key, and what it says.
const KEY: &str = "search";

const COVER: &str = "cover";

/// The text of a covering check's path between two runs (own).
pub fn to_text(alloc: Global, path: &Path) -> Result<String, AllocError>
    ensures text { IfOk result (λ text. string_bytes text ≡ compact_text (cover_data path.now.search path.now.explores path.now.nodes)) }
    ensures reads { IfOk result (λ text. AreWellFormed path.now.nodes → IsCoverTextOf path.now.search path.now.explores (string_bytes text) path.now.nodes) }
{
    let cover = Value::try_from_str(alloc, COVER)?;
    with_key(alloc, KEY, cover, path.to_value(alloc)?)?.to_string(alloc)
}

/// The path of a covering check that a text holds, of such a search (own). The reasons to refuse one are those of a plain path's text;
/// one that doesn't say that it is of a covering check has the wrong shape.
pub fn from_text(alloc: Global, text: &[u8], search: Search) -> Result<Path, PathError>
    ensures ok { IfOk result (λ path. (path ≡ at_rest (settings search) search.explores path.nodes)
        × IsCoverTextOf (settings search) search.explores text.now path.nodes) }
    ensures err { IfErr result (IsNoCoverText (settings search) search.explores text.now) }
{
    match Value::from_slice(alloc, text) {
        Ok(value) => from_value(alloc, value, search),
        Err(refused) if refused.is_memory() => Err(PathError::Memory(AllocError)),
        Err(_) => Err(PathError::NotJson),
    }
}

fn from_value(alloc: Global, value: Value, search: Search) -> Result<Path, PathError>
    ensures ok { IfOk result (λ path. (path ≡ at_rest (settings search) search.explores path.nodes)
        × IsCoverOf (settings search) search.explores (view value) path.nodes) }
    ensures err { IfErr result (IsNoCover (settings search) search.explores (view value)) }
{
    if !says_cover(&value) {
        return Err(PathError::WrongShape);
    }
    Path::from_value(alloc, &without_key(KEY, value), search)
}

/// Whether an object says that it is of a covering check.
fn says_cover(value: &Value) -> bool
    ensures { IsTrue result ↔ SaysCover (view value.now) }
{
    match value.get(KEY).and_then(Value::as_str) {
        Some(said) => said == COVER,
        None => false,
    }
}

/// A plain check refuses the value of a covering check's path, and a covering check that of a plain one's, each as of a wrong shape
/// (own).
pub fn values_are_apart()
    ensures { ApartLaw }
{}
