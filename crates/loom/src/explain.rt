//! What happened in the run that follows given choices.
pub mod events;

ghost use Rattle.std.specs.Prelude.{◌≡◌, ◌≤◌, ◌⊎◌, [], Err, IfOk, IfErr, OnOk};
ghost use Rattle.loom_engine.specs.Trees.Meeting.{whole_search};
ghost use Rattle.loom_engine.specs.Path.Route.{at_rest};
ghost use Rattle.loom.specs.Explain.Explains.{Explains, HasLimits, IsChosenOn, IsToldAlong, IsToldBy};
ghost use Rattle.loom.specs.Explain.Places.{placed};
ghost use Rattle.loom.specs.Model.Settings.{explores, tested};

use crate::explain::events::options::options_at;
use crate::explain::events::places::placed;
use crate::explain::events::telling::{Told, tell};
use crate::model::builder::Builder;
use crate::model::error::CheckError;
use crate::model::run::Room;
use loom_engine::rt::path::Path;
pub use loom_explain::event::{End, Event};
pub use loom_explain::explanation::{Explanation, Options};
pub use loom_explain::picture::{Arrow, Form, Lane, Mark, Picture, Row, Shown, Spot, Tie};
use loom_explain::text::text_of;
pub use loom_explain::values::{Displayed, Hidden, Show, Values};
use loom_objects::body::Body;
use loom_objects::choice::Choice;
use std::alloc::{AllocError, Global};

impl Builder {
    /// The run that `replay` makes of these choices, as its events: what each thread was replied and handed over, in order, where
    /// each choice was made and of what, and how the run ended. A failure has the place of the last operation of the thread that went
    /// on last, if that named one. Errors are those of `replay`.
    pub fn explain<B: Body>(
        &self,
        alloc: Global,
        body: &B,
        choices: &[Choice],
    ) -> Result<Explanation, CheckError>
        ensures explains { IfOk result (Explains self.now B.next body.now choices.now) }
        ensures refused { IfErr (tested self.now) (λ e. result ≡ Err e) }
        ensures errors { IfErr result (λ e. (e ≡ CheckError.Memory) ⊎ (tested self.now ≡ Err e)) }
    {
        self.explain_with(alloc, body, choices, &Hidden)
    }

    /// What `explain` tells, with the data of operations and replies in its text as `show` writes them (own). `&Displayed` shows what
    /// can be printed.
    pub fn explain_with<B: Body, W: Show<B::Data>>(
        &self,
        alloc: Global,
        body: &B,
        choices: &[Choice],
        show: &W,
    ) -> Result<Explanation, CheckError>
        ensures explains { IfOk result (Explains self.now B.next body.now choices.now) }
        ensures refused { IfErr (tested self.now) (λ e. result ≡ Err e) }
        ensures errors { IfErr result (λ e. (e ≡ CheckError.Memory) ⊎ (tested self.now ≡ Err e)) }
    {
        self.test()?;
        let (told, path) = self.tell(alloc, show, body, choices)?;
        let explanation = self.explained(alloc, told, &path)?;
        Ok(explanation)
    }

    /// The explanation of a run that was made: its events, the choices of its path, what there was to choose of, its end, and the
    /// text.
    pub(crate) fn explained(
        &self,
        alloc: Global,
        told: Told,
        path: &Path,
    ) -> Result<Explanation, AllocError>
        ensures told { IfOk result (IsToldBy told) }
        ensures path { IfOk result (IsChosenOn path.now) }
        ensures limits { IfOk result (HasLimits self.now) }
    {
        let mut explanation = Explanation {
            events: told.events,
            values: told.values,
            choices: Vec::new(alloc),
            options: Vec::new(alloc),
            end: told.end,
            max_threads: self.max_threads,
            max_branches: self.max_branches,
            max_steps: self.max_steps,
            text: String::new(alloc),
        };
        fill(alloc, path, &mut explanation)?;
        Ok(explanation)
    }

    /// The events and the end of the run that follows these choices and then takes defaults, and the path after it.
    fn tell<B: Body, W: Show<B::Data>>(
        &self,
        alloc: Global,
        show: &W,
        body: &B,
        choices: &[Choice],
    ) -> Result<(Told, Path), AllocError>
        requires some { 1 ≤ self.now.max_threads }
        requires few { self.now.max_threads ≤ 5 }
        requires branches { self.now.max_branches ≤ 1000000 }
        ensures { IfOk result (λ made. IsToldAlong B.next self.now body.now (record (at_rest (whole_search self.now.max_branches) (explores self.now) []) { given = choices.now }) made.0 made.1) }
    {
        let explores = !self.expect_explicit_explore;
        let mut path = Path::following(alloc, explores, self.max_branches as u32, choices)?;
        let limits = self.limits();
        let mut room = Room::new(alloc, limits)?;
        let told = tell(alloc, show, &mut room, limits, body, &mut path);
        room.leave();
        Ok((told?, path))
    }
}

/// Puts into an explanation the choices of the path, what there was to choose of, where the run failed, and the text.
fn fill(alloc: Global, path: &Path, explanation: &mut Explanation) -> Result<(), AllocError>
    ensures path { OnOk result (IsChosenOn path.now explanation.new) }
    ensures events { explanation.new.events ≡ explanation.old.events }
    ensures end { OnOk result (explanation.new.end ≡ placed explanation.old.events.items explanation.new.choices.items explanation.old.end) }
    ensures threads { explanation.new.max_threads ≡ explanation.old.max_threads }
    ensures branches { explanation.new.max_branches ≡ explanation.old.max_branches }
    ensures steps { explanation.new.max_steps ≡ explanation.old.max_steps }
{
    explanation.choices = path.choices(alloc)?;
    explanation.options = options_at(alloc, &path.nodes(alloc)?)?;
    explanation.end = placed(explanation.end, &explanation.events, &explanation.choices);
    explanation.text = text_of(alloc, explanation)?;
    Ok(())
}
