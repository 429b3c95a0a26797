//! Where a check keeps the text of its path.
ghost use Rattle.std.specs.Prelude.{ℕ, List, Option, Some, ◌≡◌, IfOk, OnOk, OnErr};
ghost use Rattle.loom.specs.Model.Stores.{Counts, Keeps, text_in};

use std::alloc::Global;
use thiserror::Error;

/// Why a call of a store failed.
#[derive(Clone, Copy, Debug, PartialEq, Eq, Error)]
pub enum StoreError {
    /// The store met a fault, which it counts.
    #[error("the checkpoint store failed")]
    Fault,
    /// A growth was refused.
    #[error("out of memory")]
    Memory,
}

/// Keeps the text of one checkpoint.
pub trait CheckpointStore {
    /// What a load may give: the text that the store holds, or none.
    ghost gives: { Self → Option (List ℕ) → Type 0 };

    /// What the store may hold. One of which nothing is known may hold anything.
    ghost holds: { Self → Option (List ℕ) → Type 0 };

    /// How many faults its calls have met, up to the highest number of 64 bits.
    ghost fault_count: { Self → ℕ };

    /// The text that was saved last, or none. The store holds that, and what it held before.
    fn load(&mut self, alloc: Global) -> Result<Option<Vec<u8>>, StoreError>
        ensures given { IfOk result (λ text. gives self.old (text_in text)) }
        ensures held { IfOk result (λ text. holds self.new (text_in text)) }
        ensures kept { Keeps (holds self.old) (holds self.new) }
        ensures faults { Counts result (fault_count self.old) (fault_count self.new) };

    /// Keeps this text in place of what it held. After an error the store holds what it held.
    fn save(&mut self, text: &str) -> Result<(), StoreError>
        ensures held { OnOk result (holds self.new (Some text.now)) }
        ensures kept { OnErr result (Keeps (holds self.old) (holds self.new)) }
        ensures faults { Counts result (fault_count self.old) (fault_count self.new) };

    /// How many faults its calls have met.
    fn faults(&self) -> u64
        ensures { result ≡ fault_count self.now };
}

/// `None` is no store: it gives no text, and what is saved is let go.
impl<S: CheckpointStore> CheckpointStore for Option<S> {
    ghost use Rattle.std.specs.Prelude.{◌≡◌, None, MatchOption};
    ghost use Rattle.std.specs.Option.{option_map_or};

    ghost gives = { λ store text. MatchOption store (text ≡ None) (λ s. S.gives s text) };

    ghost holds = { λ store text. MatchOption store (Unit {0}) (λ s. S.holds s text) };

    ghost fault_count = { λ store. option_map_or S.fault_count store 0 };

    fn load(&mut self, alloc: Global) -> Result<Option<Vec<u8>>, StoreError> {
        match self {
            Some(store) => store.load(alloc),
            None => Ok(None),
        }
    }

    fn save(&mut self, text: &str) -> Result<(), StoreError> {
        match self {
            Some(store) => store.save(text),
            None => Ok(()),
        }
    }

    fn faults(&self) -> u64 {
        match self {
            Some(store) => store.faults(),
            None => 0,
        }
    }
}
