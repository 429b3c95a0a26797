//! Who reads from an atomic: a load or a read-modify-write.

ghost use Rattle.std.specs.Prelude.{◌≡◌};
ghost use Rattle.loom_views.specs.Atomic.Readers.{load_order};

use std::sync::atomic::Ordering;

/// Who reads (own; loom has two functions, in `rt/atomic.rs`).
#[derive(Clone, Copy, PartialEq, Eq)]
pub enum Reader {
    /// A load of an ordering.
    Load(Ordering),
    /// A read-modify-write.
    Update,
}

impl Reader {
    /// The ordering by which a load passes stores by. A read-modify-write has none: it may read no store that is below another
    /// (own).
    pub fn load_order(self) -> Option<Ordering>
        ensures { result ≡ load_order self }
    {
        match self {
            Reader::Load(order) => Some(order),
            Reader::Update => None,
        }
    }
}
