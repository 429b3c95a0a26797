//! Writing parts.
ghost use Rattle.std.specs.Prelude.{◌≡◌, IfOk, map};
ghost use Rattle.serde_json.specs.View.{view};
ghost use Rattle.loom_engine.specs.Parts.Texts.Grammar.{choice_data, item_data, key_data};

use crate::rt::parts::Part;
use loom_objects::choice::Choice;
use serde_json::{Value, json};
use std::alloc::{AllocError, Global};

fn write_choice(alloc: Global, choice: Choice) -> Result<Value, AllocError>
    ensures { IfOk result (λ value. view value ≡ choice_data choice) }
{
    match choice {
        Choice::Thread(None) => Ok(Value::Null),
        Choice::Thread(Some(thread)) => Ok(Value::from(thread)),
        Choice::Load(slot) => json!(in alloc; [slot]),
        Choice::Spurious(answer) => Ok(Value::Bool(answer)),
    }
}

/// The value of an option that was handed out, with the choices before it.
fn write_key(alloc: Global, key: &Vec<Choice>) -> Result<Value, AllocError>
    ensures { IfOk result (λ value. view value ≡ key_data key.now) }
{
    let mut items = Vec::with_capacity(alloc, key.len())?;
    for choice in key {
        items.push(write_choice(alloc, *choice)?)?;
    }
    Ok(Value::Array(items))
}

pub(crate) fn write_keys(alloc: Global, trunk: &[Vec<Choice>]) -> Result<Vec<Value>, AllocError>
    ensures { IfOk result (λ v. map view v.items ≡ map key_data trunk.now) }
{
    let mut items = Vec::with_capacity(alloc, trunk.len())?;
    for key in trunk {
        items.push(write_key(alloc, key)?)?;
    }
    Ok(items)
}

/// The value of a part, as a list has it.
#[tactic(auto, unfolding(crate::specs::Parts::Texts::Grammar::item_shape))]
pub(crate) fn write_item(alloc: Global, part: &Part) -> Result<Value, AllocError>
    ensures { IfOk result (λ value. view value ≡ item_data part.now) }
{
    let path = part.path.to_value(alloc)?;
    json!(in alloc; {"done": part.is_done, "floor": part.base.len(), "path": path, "runs": part.runs})
}

pub(crate) fn write_items(alloc: Global, list: &[Part]) -> Result<Vec<Value>, AllocError>
    ensures { IfOk result (λ v. map view v.items ≡ map item_data list.now) }
{
    let mut items = Vec::with_capacity(alloc, list.len())?;
    for part in list {
        items.push(write_item(alloc, part)?)?;
    }
    Ok(items)
}
