//! Short forms for tracked values: each makes an operation, or the two of a change, and takes the replies apart.
ghost use Rattle.std.specs.Prelude.{◌≡◌, IfOk, IfErr};
ghost use Rattle.std.specs.Fn.{FnOnceReturnsAtMut};
ghost use Rattle.loom.specs.Runner.Asking.{Tells, Stops, given_in};
ghost use Rattle.loom.specs.Runner.Forms.{IsGivenBack, StopsWithin, given};
ghost use Rattle.loom_objects.specs.declared.operation.Request.TheVariants as op;
ghost use Rattle.loom_objects.specs.declared.operation.TrackOp.TheVariants as track_op;
ghost use Rattle.loom_ops.specs.Alloc.{track_handle};

use crate::runner::exact::Exact;
use crate::runner::handle::Handle;
use crate::runner::stop::Stop;
use loom_ops::alloc::Track;
use loom_ops::answers::cell::Given;
use std::sync::Wait;

impl<D: Exact + 'static, R: Wait> Handle<D, R> {
    /// A new tracked value, which the run must drop, or take out, before it ends (loom's `alloc.rs`).
    pub fn track(&mut self, value: D) -> Result<Track, Stop>
        ensures thread { self.new.thread ≡ self.old.thread }
        ensures tells { IfOk result (Tells track_handle (op.Track (track_op.New value)) self.old.told self.new.told) }
        ensures stopped { IfErr result (Stops track_handle (op.Track (track_op.New value)) self.old.told self.new) }
    {
        self.ask(Track::new(value).request)
    }

    /// A copy of the value (loom's `alloc.rs`).
    pub fn get_ref(&mut self, track: &Track) -> Result<D, Stop>
        ensures thread { self.new.thread ≡ self.old.thread }
        ensures tells { IfOk result (λ answer. Tells given_in (op.Track (track_op.GetRef track.now.number)) self.old.told self.new.told (record { 0 = answer })) }
        ensures stopped { IfErr result (Stops given_in (op.Track (track_op.GetRef track.now.number)) self.old.told self.new) }
    {
        let Given(value) = self.ask(track.get_ref().request)?;
        Ok(value)
    }

    /// Changes the value by the closure (loom's `alloc.rs`).
    pub fn get_mut_track<T: Drop, F: FnOnce(&mut D) -> T>(
        &mut self,
        track: &Track,
        change: F,
    ) -> Result<T, Stop>
        requires { F.IsAlwaysCallable change }
        ensures thread { self.new.thread ≡ self.old.thread }
        ensures within { IfOk result (IsGivenBack given_in given (op.Track (track_op.GetMut track.now.number)) (λ guard value. op.Track (track_op.Put track.now.number value)) (FnOnceReturnsAtMut F.FnOnce change) self.old.told self.new.told) }
        ensures stopped { IfErr result (StopsWithin given_in given (op.Track (track_op.GetMut track.now.number)) (λ guard value. op.Track (track_op.Put track.now.number value)) (FnOnceReturnsAtMut F.FnOnce change) self.old.told self.new) }
    {
        let Given(mut value) = self.ask(track.get_mut().request)?;
        let answer = change(&mut value);
        self.ask::<()>(track.put(value).request)?;
        Ok(answer)
    }

    /// The value, which isn't tracked any more: a later operation of it is a misuse (loom's `alloc.rs`).
    pub fn into_inner_track(&mut self, track: Track) -> Result<D, Stop>
        ensures thread { self.new.thread ≡ self.old.thread }
        ensures tells { IfOk result (λ answer. Tells given_in (op.Track (track_op.IntoInner track.number)) self.old.told self.new.told (record { 0 = answer })) }
        ensures stopped { IfErr result (Stops given_in (op.Track (track_op.IntoInner track.number)) self.old.told self.new) }
    {
        let Given(value) = self.ask(track.into_inner().request)?;
        Ok(value)
    }

    /// The value isn't tracked any more, and is answered: in loom the drop (loom's `alloc.rs`).
    pub fn drop_track(&mut self, track: Track) -> Result<D, Stop>
        ensures thread { self.new.thread ≡ self.old.thread }
        ensures tells { IfOk result (λ answer. Tells given_in (op.Track (track_op.Drop track.number)) self.old.told self.new.told (record { 0 = answer })) }
        ensures stopped { IfErr result (Stops given_in (op.Track (track_op.Drop track.number)) self.old.told self.new) }
    {
        let Given(value) = self.ask(track.drop().request)?;
        Ok(value)
    }
}
