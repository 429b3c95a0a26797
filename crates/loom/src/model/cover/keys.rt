//! A key that the value of a covering check's text has besides those of a plain one's.
ghost use Rattle.std.specs.Prelude.{◌≡◌, IfOk};
ghost use Rattle.serde_json.specs.View.{view};
ghost use Rattle.loom.specs.Model.CoverText.{with_key, without_key};

use serde_json::{Value, put};
use std::alloc::{AllocError, Global};

/// The object with this at the key (own). An error where memory is refused.
pub(crate) fn with_key(
    alloc: Global,
    key: &str,
    said: Value,
    value: Value,
) -> Result<Value, AllocError>
    ensures { IfOk result (λ marked. view marked ≡ with_key key.now (view said) (view value)) }
{
    match value {
        Value::Object(mut members) => {
            put(&mut members, alloc, key, said)?;
            Ok(Value::Object(members))
        }
        other => Ok(other),
    }
}

/// What an object has besides the key (own).
pub(crate) fn without_key(key: &str, value: Value) -> Value
    ensures { view result ≡ without_key key.now (view value) }
{
    match value {
        Value::Object(mut members) => {
            drop(members.remove(key));
            Value::Object(members)
        }
        other => other,
    }
}
