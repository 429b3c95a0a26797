//! Checks whose file is one among files that are handed in.
ghost use Rattle.std.specs.Prelude.{◌≡◌, None};
ghost use Rattle.loom_engine.specs.Runs.Body.{runs as runs_of};
ghost use Rattle.loom.specs.Model.Among.{ChangesOnly, ChecksAlone, ChecksAmong};
ghost use Rattle.loom.specs.Model.Settings.{explores};
ghost use Rattle.loom.specs.Model.Stores.{KeepsThird, beside};

use crate::checkpoint::file::FileStore;
use crate::checkpoint::files::TextFiles;
use crate::checkpoint::memory::MemoryStore;
use crate::checkpoint::named::{FileOfCheck, NamedFile};
use crate::model::builder::Builder;
use crate::model::error::CheckError;
use crate::model::report::Report;
use loom_objects::body::Body;
use std::alloc::Global;
use std::marker::{Brand, PhantomData};

impl Builder {
    /// A check in which nobody is given the runs, whose `checkpoint_file`, if one is set, is one of these files; without a clock
    /// and a log. It answers the files as they are then. Errors are those of `check_with` (own).
    pub fn check_among<F: TextFiles + Drop, B: Body>(
        &self,
        alloc: Global,
        body: &B,
        files: F,
    ) -> (Result<Report, CheckError>, F)
        ensures checks { ChecksAmong self.now (runs_of B.next (explores self.now) self.now.max_threads self.now.max_steps body.now) (F.holds files) (F.holds result.1) (F.fault_count files) (F.fault_count result.1) result.0 }
        ensures changes { ∥ ChangesOnly self.now.checkpoint_file (F.holds files) (F.holds result.1) ∥₁ }
        ensures unused { self.now.checkpoint_file ≡ None → result.1 ≡ files }
    {
        match &self.checkpoint_file {
            Some(name) => {
                let store = FileStore::among(files, alloc, name.as_str());
                self.check_named::<Brand, F, B>(alloc, body, store)
            }
            None => {
                let answer = self.check_alone(alloc, body, &mut None::<MemoryStore>);
                (answer, files)
            }
        }
    }

    /// A check in which nobody is given the runs, whose file is this one.
    fn check_named<N: FileOfCheck, F: TextFiles + Drop, B: Body>(
        &self,
        alloc: Global,
        body: &B,
        store: FileStore<F>,
    ) -> (Result<Report, CheckError>, F)
        requires named { store.path.now ≡ N.name }
        requires begins { ∥ KeepsThird (beside N.name) N.name N.before (F.holds store.files) ∥₁ }
        ensures checks { ChecksAlone self.now (runs_of B.next (explores self.now) self.now.max_threads self.now.max_steps body.now) (F.holds store.entry.files N.name) (F.holds store.entry.files N.name) (F.holds result.1 N.name) (F.fault_count store.entry.files) (F.fault_count result.1) result.0 }
        ensures changes { ∥ KeepsThird (beside N.name) N.name N.before (F.holds result.1) ∥₁ }
    {
        let mut named = NamedFile::<N, F> {
            store,
            of: PhantomData,
        };
        let answer = self.check_alone(alloc, body, &mut named);
        (answer, named.store.into_files())
    }
}
