//! Reading parts.
ghost use Rattle.std.specs.Prelude.{◌≡◌, ◌≢◌, ◌<◌, ◌≤◌, ◌⊎◌, IfErr, IfOk, None, Some, false, map, option_map, true};
ghost use Rattle.serde_json.specs.View.{view, members_view};
ghost use Rattle.loom_engine.specs.Path.Route.{settings};
ghost use Rattle.loom_engine.specs.Checkpoint.Reader.{each, taken};
ghost use Rattle.loom_engine.specs.Parts.Keeping.{choices_of};
ghost use Rattle.loom_engine.specs.Parts.Texts.Accepted.{AreTrueParts, IsItemOf, IsMemory, IsRefusedItem, IsRefusedThere};
ghost use Rattle.loom_engine.specs.Parts.Texts.Grammar.{item_data};
ghost use Rattle.loom_engine.specs.Parts.Texts.Reader.{as_it_is, choice_at, format_of, item_of, key_at, listed_of, number_below, single_of, slot_in};

use crate::rt::parts::Part;
use crate::rt::parts::error::PartsError;
use crate::rt::path::checkpoint::read::{
    expect_member, is_end, read_list, take_flag, take_list, take_number, take_text,
};
use crate::rt::path::{Path, Search};
use loom_objects::choice::Choice;
use loom_views::rt::{MAX_ATOMIC_HISTORY, MAX_THREADS};
use serde_json::Value;
use std::alloc::Global;
use std::collections::btree_map::Iter;

/// The text that the value has as its format.
pub(crate) fn read_format(value: &Value) -> Option<&str>
    ensures { option_map (λ s. s.now) result ≡ format_of (view value.now) }
{
    value.get("format")?.as_str()
}

/// The number, where it is below the limit.
fn read_below(limit: usize, value: Option<u64>) -> Option<u8>
    requires { limit < 256 }
    ensures { result ≡ number_below limit value }
{
    let number = value?;
    if number < limit as u64 {
        Some(number as u8)
    } else {
        None
    }
}

fn read_choice(value: &Value) -> Option<Choice>
    ensures { result ≡ choice_at (view value.now) }
{
    match value {
        Value::Null => Some(Choice::Thread(None)),
        Value::Bool(answer) => Some(Choice::Spurious(*answer)),
        Value::Number(number) => Some(Choice::Thread(Some(read_below(
            MAX_THREADS,
            number.as_u64(),
        )?))),
        Value::Array(items) => read_slot(items),
        Value::String(_) | Value::Object(_) => None,
    }
}

/// The slot whose number is alone in brackets.
fn read_slot(items: &Vec<Value>) -> Option<Choice>
    ensures { result ≡ slot_in (Some (map view items.now.items)) }
{
    match items.as_slice() {
        [slot] => Some(Choice::Load(read_below(MAX_ATOMIC_HISTORY, slot.as_u64())?)),
        _ => None,
    }
}

fn read_key(alloc: Global, value: &Value) -> Result<Vec<Choice>, PartsError>
    ensures ok { IfOk result (λ key. key_at (view value.now) ≡ Some key.items) }
    ensures err { IfErr result (λ error. IsMemory error ⊎ ((error ≡ PartsError.BadOption) × (key_at (view value.now) ≡ None))) }
{
    let items = match read_list(value) {
        Some(items) => items,
        None => return Err(PartsError::BadOption),
    };
    let mut key = Vec::new(alloc);
    for item in items {
        match read_choice(item) {
            Some(choice) => {
                if let Err(refused) = key.push(choice) {
                    return Err(PartsError::Memory(refused.into()));
                }
            }
            None => return Err(PartsError::BadOption),
        }
    }
    Ok(key)
}

/// The options that were handed out, each with the choices before it.
pub(crate) fn read_keys(alloc: Global, items: &Vec<Value>) -> Result<Vec<Vec<Choice>>, PartsError>
    ensures ok { IfOk result (λ trunk. each key_at (map view items.now.items) ≡ Some (map choices_of trunk.items)) }
    ensures err { IfErr result (λ error. IsMemory error ⊎ ((error ≡ PartsError.BadOption) × (each key_at (map view items.now.items) ≡ None))) }
{
    let mut trunk = Vec::new(alloc);
    for item in items {
        match read_key(alloc, item) {
            Ok(key) => {
                if let Err(refused) = trunk.push(key) {
                    return Err(PartsError::Memory(refused.into()));
                }
            }
            Err(error) => return Err(error),
        }
    }
    Ok(trunk)
}

#[tactic(auto, unfolding(crate::specs::Checkpoint::Reader::taken))]
fn take_value<'v>(members: &mut Iter<'v, String, Value>, key: &str) -> Option<&'v Value>
    ensures { taken as_it_is key.now (members_view members.old)
        ≡ option_map (λ v. (view v.now, members_view members.new)) result }
{
    Some(expect_member(members, key)?)
}

/// What a part has in a list, each of its kind.
#[derive(Clone, Copy, Drop)]
struct Item<'v> {
    done: bool,
    floor: u64,
    path: &'v Value,
    runs: u64,
}

#[tactic(auto, unfolding(crate::specs::Parts::Texts::Reader::item_of))]
fn take_item(value: &Value) -> Option<Item<'_>>
    ensures { item_of (view value.now) ≡ option_map (λ p. record {
      done = p.done;
      floor = p.floor;
      path = view p.path.now;
      runs = p.runs;
    }) result }
{
    let mut members = value.as_object()?.iter();
    let done = take_flag(&mut members, "done")?;
    let floor = take_number(&mut members, "floor")?;
    let path = take_value(&mut members, "path")?;
    let runs = take_number(&mut members, "runs")?;
    if !is_end(&mut members) {
        return None;
    }
    Some(Item {
        done,
        floor,
        path,
        runs,
    })
}

/// What a part has that is written alone.
#[derive(Clone, Copy, Drop)]
pub(crate) struct Single<'v> {
    pub(crate) format: &'v str,
    pub(crate) part: &'v Value,
    pub(crate) version: u64,
}

#[tactic(auto, unfolding(crate::specs::Parts::Texts::Reader::single_of))]
pub(crate) fn take_single(value: &Value) -> Option<Single<'_>>
    ensures { single_of (view value.now) ≡ option_map (λ p. record {
      format = p.format.now;
      part = view p.part.now;
      version = p.version;
    }) result }
{
    let mut members = value.as_object()?.iter();
    let format = take_text(&mut members, "format")?;
    let part = take_value(&mut members, "part")?;
    let version = take_number(&mut members, "version")?;
    if !is_end(&mut members) {
        return None;
    }
    Some(Single {
        format,
        part,
        version,
    })
}

/// What a list of parts has, each of its kind.
#[derive(Clone, Copy, Drop)]
pub(crate) struct Listed<'v> {
    pub(crate) format: &'v str,
    pub(crate) parts: &'v Vec<Value>,
    pub(crate) runs: u64,
    pub(crate) search: &'v Value,
    pub(crate) trunk: &'v Vec<Value>,
    pub(crate) version: u64,
}

#[tactic(auto, unfolding(crate::specs::Parts::Texts::Reader::listed_of))]
pub(crate) fn take_listed(value: &Value) -> Option<Listed<'_>>
    ensures { listed_of (view value.now) ≡ option_map (λ p. record {
      format = p.format.now;
      parts = map view p.parts.now.items;
      runs = p.runs;
      search = view p.search.now;
      trunk = map view p.trunk.now.items;
      version = p.version;
    }) result }
{
    let mut members = value.as_object()?.iter();
    let format = take_text(&mut members, "format")?;
    let parts = take_list(&mut members, "parts")?;
    let runs = take_number(&mut members, "runs")?;
    let search = take_value(&mut members, "search")?;
    let trunk = take_list(&mut members, "trunk")?;
    let version = take_number(&mut members, "version")?;
    if !is_end(&mut members) {
        return None;
    }
    Some(Listed {
        format,
        parts,
        runs,
        search,
        trunk,
        version,
    })
}

/// Whether a path with so many nodes may be that of a part with this floor. Of a part that is done those below it are left.
fn is_floor(done: bool, floor: u64, count: usize) -> bool
    ensures is_floor { result ≡ true → (floor ≤ count) × (done ≡ true → count ≡ floor) }
    ensures is_none { result ≡ false → (count < floor) ⊎ ((done ≡ true) × (count ≢ floor)) }
{
    if done {
        floor == count as u64
    } else {
        floor <= count as u64
    }
}

/// A part as a list has it, of such a search.
pub(crate) fn read_item(alloc: Global, value: &Value, search: Search) -> Result<Part, PartsError>
    ensures ok { IfOk result (IsItemOf (settings search) search.explores (view value.now)) }
    ensures err { IfErr result (IsRefusedItem (settings search) search.explores (view value.now)) }
{
    let item = match take_item(value) {
        Some(item) => item,
        None => return Err(PartsError::WrongShape),
    };
    let path = match Path::from_value(alloc, item.path, search) {
        Ok(path) => path,
        Err(error) => return Err(PartsError::Path(error)),
    };
    if !is_floor(item.done, item.floor, path.len()) {
        return Err(PartsError::WrongFloor(item.floor));
    }
    match path.beginning(alloc, item.floor as usize) {
        Ok(base) => Ok(Part {
            base,
            path,
            is_done: item.done,
            runs: item.runs,
        }),
        Err(refused) => Err(PartsError::Memory(refused)),
    }
}

pub(crate) fn read_items(
    alloc: Global,
    items: &Vec<Value>,
    search: Search,
) -> Result<Vec<Part>, PartsError>
    ensures ok { IfOk result (λ list. (map view items.now.items ≡ map item_data list.items) × AreTrueParts (settings search) search.explores list.items) }
    ensures err { IfErr result (λ error. IsMemory error ⊎ IsRefusedThere (settings search) search.explores (map view items.now.items) error) }
{
    let mut list = Vec::new(alloc);
    for item in items {
        match read_item(alloc, item, search) {
            Ok(part) => {
                if let Err(refused) = list.push(part) {
                    return Err(PartsError::Memory(refused.into()));
                }
            }
            Err(error) => return Err(error),
        }
    }
    Ok(list)
}
