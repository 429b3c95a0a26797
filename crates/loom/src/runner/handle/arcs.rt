//! Short forms for counted references: each makes an operation, and takes its reply apart.
ghost use Rattle.std.specs.Prelude.{◌≡◌, IfOk, IfErr, MatchOption, None};
ghost use Rattle.std.specs.Fn.{FnOnceReturnsAtMut};
ghost use Rattle.loom.specs.Runner.Asking.{Tells, Stops, alone_in, done_in, loaded_in, given_in, left_in};
ghost use Rattle.loom.specs.Runner.Forms.{IsGivenBack, StopsWithin, alone, getting, putting};
ghost use Rattle.loom_objects.specs.declared.operation.Request.TheVariants as op;
ghost use Rattle.loom_objects.specs.declared.operation.ArcOp.TheVariants as arc_op;
ghost use Rattle.loom_ops.specs.Arc.{arc_handle};

use crate::runner::exact::Exact;
use crate::runner::handle::Handle;
use crate::runner::stop::Stop;
use loom_ops::answers::answer::Loaded;
use loom_ops::answers::arc::{Alone, Left};
use loom_ops::answers::cell::Given;
use loom_ops::sync::arc::Arc;
use std::sync::Wait;

impl<D: Exact + 'static, R: Wait> Handle<D, R> {
    /// A new counted reference to this value, the only one (loom's `sync/arc.rs`).
    pub fn arc(&mut self, value: D) -> Result<Arc, Stop>
        ensures thread { self.new.thread ≡ self.old.thread }
        ensures tells { IfOk result (Tells arc_handle (op.Arc (arc_op.New value)) self.old.told self.new.told) }
        ensures stopped { IfErr result (Stops arc_handle (op.Arc (arc_op.New value)) self.old.told self.new) }
    {
        self.ask(Arc::new(value).request)
    }

    /// One reference more, by the same handle (loom's `sync/arc.rs`).
    pub fn clone_arc(&mut self, arc: &Arc) -> Result<Arc, Stop>
        ensures thread { self.new.thread ≡ self.old.thread }
        ensures same { IfOk result (λ other. other ≡ arc.now) }
        ensures tells { IfOk result (λ other. Tells done_in (op.Arc (arc_op.Clone arc.now.number)) self.old.told self.new.told tt) }
        ensures stopped { IfErr result (Stops done_in (op.Arc (arc_op.Clone arc.now.number)) self.old.told self.new) }
    {
        let arc = *arc;
        self.ask::<()>(arc.clone().request)?;
        Ok(arc)
    }

    /// One reference fewer: in loom the drop. The last one gives the value (loom's `sync/arc.rs`).
    pub fn drop_arc(&mut self, arc: Arc) -> Result<Option<D>, Stop>
        ensures thread { self.new.thread ≡ self.old.thread }
        ensures tells { IfOk result (λ answer. Tells left_in (op.Arc (arc_op.Drop arc.number)) self.old.told self.new.told (record { 0 = answer })) }
        ensures stopped { IfErr result (Stops left_in (op.Arc (arc_op.Drop arc.number)) self.old.told self.new) }
    {
        let Left(value) = self.ask(arc.drop().request)?;
        Ok(value)
    }

    /// A copy of the value: in loom the `Deref` (loom's `sync/arc.rs`).
    pub fn deref(&mut self, arc: &Arc) -> Result<D, Stop>
        ensures thread { self.new.thread ≡ self.old.thread }
        ensures tells { IfOk result (λ answer. Tells given_in (op.Arc (arc_op.Get arc.now.number)) self.old.told self.new.told (record { 0 = answer })) }
        ensures stopped { IfErr result (Stops given_in (op.Arc (arc_op.Get arc.now.number)) self.old.told self.new) }
    {
        let Given(value) = self.ask(arc.get().request)?;
        Ok(value)
    }

    /// How many references there are (loom's `sync/arc.rs`).
    pub fn strong_count(&mut self, arc: &Arc) -> Result<usize, Stop>
        ensures thread { self.new.thread ≡ self.old.thread }
        ensures tells { IfOk result (λ count. Tells (loaded_in (λ number. number)) (op.Arc (arc_op.StrongCount arc.now.number)) self.old.told self.new.told (record { 0 = count })) }
        ensures stopped { IfErr result (Stops (loaded_in (λ number. number)) (op.Arc (arc_op.StrongCount arc.now.number)) self.old.told self.new) }
    {
        let Loaded(count) = self.ask(arc.strong_count().request)?;
        Ok(count)
    }
    /// Changes the value by the closure, if there is one reference alone; else answers None, and calls nothing (loom's `sync/arc.rs`).
    pub fn get_mut_arc<T: Drop, F: FnOnce(&mut D) -> T>(
        &mut self,
        arc: &Arc,
        change: F,
    ) -> Result<Option<T>, Stop>
        requires { F.IsAlwaysCallable change }
        ensures thread { self.new.thread ≡ self.old.thread }
        ensures within { IfOk result (λ outcome. MatchOption outcome (Tells alone_in (getting arc.now) self.old.told self.new.told (record { 0 = None })) (IsGivenBack alone_in alone (getting arc.now) (putting arc.now) (FnOnceReturnsAtMut F.FnOnce change) self.old.told self.new.told)) }
        ensures stopped { IfErr result (StopsWithin alone_in alone (getting arc.now) (putting arc.now) (FnOnceReturnsAtMut F.FnOnce change) self.old.told self.new) }
    {
        let Alone(alone) = self.ask(arc.get_mut().request)?;
        let Some(mut value) = alone else {
            return Ok(None);
        };
        let answer = change(&mut value);
        self.ask::<()>(arc.put(value).request)?;
        Ok(Some(answer))
    }

    /// Drops the reference and answers the value, if there is one reference alone; else answers None, and drops nothing (loom's
    /// `sync/arc.rs`).
    pub fn try_unwrap(&mut self, arc: Arc) -> Result<Option<D>, Stop>
        ensures thread { self.new.thread ≡ self.old.thread }
        ensures tells { IfOk result (λ answer. Tells alone_in (op.Arc (arc_op.TryUnwrap arc.number)) self.old.told self.new.told (record { 0 = answer })) }
        ensures stopped { IfErr result (Stops alone_in (op.Arc (arc_op.TryUnwrap arc.number)) self.old.told self.new) }
    {
        let Alone(value) = self.ask(arc.try_unwrap().request)?;
        Ok(value)
    }
}
