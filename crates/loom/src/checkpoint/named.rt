//! The file of a check: its name, and every other file, stay the same while the check is made.
ghost use Rattle.std.specs.Prelude.{ℕ, List, [], Option, ◌≡◌};
ghost use Rattle.loom.specs.Model.Stores.{KeepsThird, beside};

use crate::checkpoint::file::FileStore;
use crate::checkpoint::files::TextFiles;
use crate::checkpoint::store::{CheckpointStore, StoreError};
use std::alloc::Global;
use std::marker::{Brand, PhantomData};

/// Which file is a check's, for contracts alone (own).
pub trait FileOfCheck {
    /// Its name.
    ghost name: { List ℕ };

    /// What each file may hold before the check.
    ghost before: { List ℕ → Option (List ℕ) → Type 0 };
}

impl FileOfCheck for Brand {
    ghost name = { [] };

    ghost before = { λ name text. Unit {0} };
}

/// The store of that file. Of the others only the one beside it has changed (own).
#[derive(Drop)]
pub(crate) struct NamedFile<'a, N: FileOfCheck, F: TextFiles> {
    /// The file's store.
    pub store: FileStore<'a, F>,
    /// Which file it is.
    pub of: PhantomData<N>,
    ghost named: { store.path.now ≡ N.name },
    ghost others: { ∥ KeepsThird (beside N.name) N.name N.before (F.holds store.files) ∥₁ },
}

impl<'a, N: FileOfCheck, F: TextFiles> CheckpointStore for NamedFile<'a, N, F> {
    ghost gives = { λ it text. F.holds it.store.files N.name text };

    ghost holds = { λ it text. F.holds it.store.files N.name text };

    ghost fault_count = { λ it. F.fault_count it.store.files };

    fn load(&mut self, alloc: Global) -> Result<Option<Vec<u8>>, StoreError> {
        self.store.load(alloc)
    }

    fn save(&mut self, text: &str) -> Result<(), StoreError> {
        self.store.save(text)
    }

    fn faults(&self) -> u64 {
        self.store.faults()
    }
}
