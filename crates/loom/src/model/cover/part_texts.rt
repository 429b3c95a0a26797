//! A covering search's parts as texts: those of parts, with a key of their own, `met`, which says how many runs were given up. So a plain
//! check refuses them, and a covering check those of a plain one.
ghost use Rattle.std.specs.Prelude.{◌≡◌, ◌≢◌, ◌⊎◌, ℕ, Bool, Err, IfErr, IfOk, IsOk, None, Some, false, string_bytes};
ghost use Rattle.serde_json.specs.View.{view};
ghost use Rattle.serde_json.specs.Written.{compact_text};
ghost use Rattle.loom_engine.specs.Checkpoint.Accepted.{OfText};
ghost use Rattle.loom_engine.specs.Parts.Texts.Accepted.{AreTrue, IsMemory, IsNoText, IsTruePart};
ghost use Rattle.loom_engine.specs.Parts.Texts.Grammar.{part_data, parts_data};
ghost use Rattle.loom_engine.specs.Path.Route.{settings};
ghost use Rattle.loom_engine.specs.Trees.Meeting.{Settings};
ghost use Rattle.loom_engine.specs.declared.rt.parts.Part.{Part as Kept};
ghost use Rattle.loom_engine.specs.declared.rt.parts.Parts.{Parts as Listed};
ghost use Rattle.loom.specs.Model.CoverPartText.{IsListFor, IsMetList, IsMetPart, IsMetPath, IsNoListFor, IsNoMetList, IsNoMetPart, IsNoPartFor, IsPartFor, IsPathFor, PartsApartLaw, met_of, with_met};
ghost use Rattle.loom.specs.Model.Settings.{tested};

use crate::model::builder::Builder;
use crate::model::cover::keys::{with_key, without_key};
use crate::model::cover::text::from_text;
use crate::model::error::CheckError;
use crate::model::parts::refusal_of;
use loom_engine::rt::parts::error::PartsError;
use loom_engine::rt::parts::{Part, Parts};
use loom_engine::rt::path::Search;
use serde_json::Value;
use std::alloc::{AllocError, Global};

// The key.
const MET: &str = "met";

/// The text of a part of a covering search, of which so many runs were given up since it was taken (own).
pub fn part_to_text(alloc: Global, part: &Part, met: u64) -> Result<String, AllocError>
    ensures text { IfOk result (λ text. string_bytes text ≡ compact_text (with_met met (part_data part.now))) }
    ensures reads { IfOk result (λ text. (s : Settings) (explores : Bool) → IsTruePart s explores part.now → IsMetPart s explores (string_bytes text) part.now met) }
{
    with_key(alloc, MET, Value::from(met), part.to_value(alloc)?)?.to_string(alloc)
}

/// The text of a list of such parts, of which so many runs were given up (own).
pub fn parts_to_text(alloc: Global, parts: &Parts, met: u64) -> Result<String, AllocError>
    ensures text { IfOk result (λ text. string_bytes text ≡ compact_text (with_met met (parts_data parts.now))) }
    ensures reads { IfOk result (λ text. (s : Settings) (explores : Bool) → AreTrue s explores parts.now → IsMetList s explores (string_bytes text) parts.now met) }
{
    with_key(alloc, MET, Value::from(met), parts.to_value(alloc)?)?.to_string(alloc)
}

impl Builder {
    /// The part that the text holds, for a covering check by this builder, and how many of its runs were given up (own). A setting out of
    /// range is refused, and then a text that isn't of such a part, or is of a check with other settings.
    pub fn cover_part_from(&self, alloc: Global, text: &[u8]) -> Result<(Part, u64), CheckError>
        ensures refused { IfErr (tested self.now) (λ e. result ≡ Err e) }
        ensures ok { IfOk result (λ read. IsPartFor self.now text.now read.0 read.1) }
        ensures errors { IfErr result (λ e. (tested self.now ≡ Err e) ⊎ IsNoPartFor self.now text.now e) }
        ensures exact { IfErr result (λ e. IsOk (tested self.now) → e ≢ CheckError.Memory → (part : Kept) (met : ℕ) → ¬ IsPartFor self.now text.now part met) }
    {
        self.test()?;
        match part_of(alloc, text, self.cover_search()) {
            Ok(read) => Ok(read),
            Err(why) => Err(refusal_of(why)),
        }
    }

    /// The list of parts that the text holds, for a covering check by this builder, and how many of their runs were given up; or a list of
    /// one part, where it is the checkpoint of such a check that isn't cut (own). Its errors are those of `cover_part_from`.
    pub fn cover_parts_from(&self, alloc: Global, text: &[u8]) -> Result<(Parts, u64), CheckError>
        ensures refused { IfErr (tested self.now) (λ e. result ≡ Err e) }
        ensures ok { IfOk result (λ read. IsListFor self.now text.now read.0 read.1 ⊎ IsPathFor self.now text.now read.0 read.1) }
        ensures errors { IfErr result (λ e. (tested self.now ≡ Err e) ⊎ IsNoListFor self.now text.now e) }
        ensures exact { IfErr result (λ e. IsOk (tested self.now) → e ≢ CheckError.Memory → (parts : Listed) (met : ℕ) → ¬ IsListFor self.now text.now parts met) }
    {
        self.test()?;
        match parts_of(alloc, text, self.cover_search()) {
            Ok(read) => Ok(read),
            Err(why) => Err(refusal_of(why)),
        }
    }
}

/// The part that a text holds, of such a covering search, and how many of its runs were given up.
fn part_of(alloc: Global, text: &[u8], search: Search) -> Result<(Part, u64), PartsError>
    ensures ok { IfOk result (λ read. IsMetPart (settings search) search.explores text.now read.0 read.1) }
    ensures err { IfErr result (IsNoMetPart (settings search) search.explores text.now) }
    ensures exact { IfErr result (λ why. ¬ IsMemory why → (part : Kept) (met : ℕ) → ¬ IsMetPart (settings search) search.explores text.now part met) }
{
    let value = value_of(alloc, text)?;
    let met = met_in(&value)?;
    let part = Part::from_value(alloc, &without_key(MET, value), search)?;
    Ok((part, met))
}

/// The list of parts that a text holds, of such a covering search, and how many of their runs were given up; or a list of one part, where
/// the text is that of a covering check's path.
fn parts_of(alloc: Global, text: &[u8], search: Search) -> Result<(Parts, u64), PartsError>
    ensures ok { IfOk result (λ read. IsMetList (settings search) search.explores text.now read.0 read.1 ⊎ IsMetPath (settings search) search.explores text.now read.0 read.1) }
    ensures err { IfErr result (IsNoMetList (settings search) search.explores text.now) }
    ensures exact { IfErr result (λ why. ¬ IsMemory why → (parts : Listed) (met : ℕ) → ¬ IsMetList (settings search) search.explores text.now parts met) }
{
    let value = value_of(alloc, text)?;
    if !has_met(&value) {
        return path_of(alloc, text, search);
    }
    let met = met_in(&value)?;
    let parts = Parts::from_value(alloc, &without_key(MET, value), search)?;
    Ok((parts, met))
}

/// The list of one part, where the text is that of a covering check's path.
fn path_of(alloc: Global, text: &[u8], search: Search) -> Result<(Parts, u64), PartsError>
    ensures ok { IfOk result (λ read. IsMetPath (settings search) search.explores text.now read.0 read.1) }
    ensures err { IfErr result (IsNoMetList (settings search) search.explores text.now) }
{
    let path = match from_text(alloc, text, search) {
        Ok(path) => path,
        Err(why) => return Err(PartsError::Path(why)),
    };
    match Parts::from_path(alloc, path) {
        Ok(parts) => Ok((parts, 0)),
        Err(refused) => Err(PartsError::Memory(refused)),
    }
}

/// The JSON value of a text.
fn value_of(alloc: Global, text: &[u8]) -> Result<Value, PartsError>
    ensures ok { IfOk result (λ value. OfText text.now (λ found. found ≡ view value)) }
    ensures err { IfErr result (IsNoText text.now) }
{
    match Value::from_slice(alloc, text) {
        Ok(value) => Ok(value),
        Err(refused) if refused.is_memory() => Err(PartsError::Memory(AllocError)),
        Err(_) => Err(PartsError::NotJson),
    }
}

/// Whether a value has the key.
fn has_met(value: &Value) -> bool
    ensures { result ≡ false → met_of (view value.now) ≡ None }
{
    value.get(MET).is_some()
}

/// How many runs a value says were given up. The shape is wrong where it doesn't say that.
fn met_in(value: &Value) -> Result<u64, PartsError>
    ensures ok { IfOk result (λ met. met_of (view value.now) ≡ Some met) }
    ensures err { IfErr result (λ why. (why ≡ PartsError.WrongShape) × (met_of (view value.now) ≡ None)) }
{
    match value.get(MET).and_then(Value::as_u64) {
        Some(met) => Ok(met),
        None => Err(PartsError::WrongShape),
    }
}

/// A plain check refuses the values of a covering search's part and list, and a covering check those of plain ones, each as of a wrong
/// shape (own).
pub fn part_values_are_apart()
    ensures { PartsApartLaw }
{}
