//! What a closure gets of a reply: a handle, a guard or a value, each taken out of the reply to the closure's operation. What the
//! operations of one kind of object reply stands beside its handle, and is named here too. `loom::runner` uses it.
pub mod answer;

pub use crate::sync::{arc, mpsc};
pub use crate::{cell, lazy_static, thread};
