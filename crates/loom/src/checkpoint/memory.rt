//! A checkpoint's text in memory.
ghost use Rattle.std.specs.Prelude.{◌≡◌, None};
ghost use Rattle.loom.specs.Model.Stores.{text_in};

use crate::checkpoint::store::{CheckpointStore, StoreError};
use std::alloc::Global;

/// Holds a checkpoint's text in memory. It meets no fault.
#[derive(Drop)]
pub struct MemoryStore {
    alloc: Global,
    /// The text that was saved last.
    pub text: Option<Vec<u8>>,
}

impl MemoryStore {
    /// A store that holds no text.
    pub fn new(alloc: Global) -> MemoryStore
        ensures { result.text ≡ None }
    {
        MemoryStore { alloc, text: None }
    }
}

impl CheckpointStore for MemoryStore {
    ghost gives = { λ store text. text ≡ text_in store.text };

    ghost holds = { λ store text. text ≡ text_in store.text };

    ghost fault_count = { λ _. 0 };

    fn load(&mut self, alloc: Global) -> Result<Option<Vec<u8>>, StoreError> {
        let Some(text) = &self.text else {
            return Ok(None);
        };
        match Vec::from_slice(alloc, text.as_slice()) {
            Ok(copy) => Ok(Some(copy)),
            Err(_) => Err(StoreError::Memory),
        }
    }

    fn save(&mut self, text: &str) -> Result<(), StoreError> {
        match Vec::from_slice(self.alloc, text.as_bytes()) {
            Ok(copy) => {
                self.text = Some(copy);
                Ok(())
            }
            Err(_) => Err(StoreError::Memory),
        }
    }

    fn faults(&self) -> u64 {
        0
    }
}
