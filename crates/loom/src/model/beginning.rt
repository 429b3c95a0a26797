//! The path with which a check begins.
ghost use Rattle.std.specs.Prelude.{◌≤◌, IfOk, IfErr, OnErr, IfSome};
ghost use Rattle.loom.specs.Model.Begun.{IsBegun};
ghost use Rattle.loom.specs.Model.Refusals.{CountsFaults, IsNoBeginning};
ghost use Rattle.loom.specs.Model.Settings.{explores, search_of};
ghost use Rattle.loom.specs.Model.Stores.{Keeps};

use crate::checkpoint::store::CheckpointStore;
use crate::model::builder::Builder;
use crate::model::error::CheckError;
use crate::model::paths::path_search;
use loom_engine::rt::path::Path;
use loom_engine::rt::path::checkpoint::text::from_text;
use std::alloc::Global;

impl Builder {
    /// The path with which a check begins: that of the text in the store, or one without nodes.
    pub(crate) fn begin<S: CheckpointStore>(
        &self,
        alloc: Global,
        store: &mut S,
    ) -> Result<Path, CheckError>
        requires branches { self.now.max_branches ≤ 1000000 }
        requires bound { IfSome self.now.preemption_bound (λ bound. bound ≤ 255) }
        ensures begun { IfOk result (IsBegun (search_of self.now) (explores self.now) (S.gives store.old) (S.holds store.new)) }
        ensures errors { IfErr result (IsNoBeginning self.now (S.gives store.old)) }
        ensures left { OnErr result (Keeps (S.holds store.old) (S.holds store.new)) }
        ensures faults { CountsFaults result (S.fault_count store.old) (S.fault_count store.new) }
    {
        let search = path_search(
            self.reduce,
            self.preemption_bound,
            self.max_branches,
            self.expect_explicit_explore,
        );
        match store.load(alloc)? {
            Some(text) => Ok(from_text(alloc, text.as_slice(), search)?),
            None => Ok(Path::new(alloc, search)),
        }
    }
}
