//! The steps of a script, with the places to which they lead.
ghost use Rattle.std.specs.Prelude.{◌≡◌, ◌<◌, ◌^◌, IfOk, IfSome, OnSome, Some, map, not, option_copied, position, slice_get};
ghost use Rattle.std.specs.List.{list_all};
ghost use Rattle.std.specs.Option.{option_map};
ghost use Rattle.loom_examples.specs.Scripts.Code.{Tell};
ghost use Rattle.loom_examples.specs.Scripts.Running.{is_label, named_place, place_of};
ghost use Rattle.loom_examples.specs.Scripts.Switching.{switches};
ghost use Rattle.loom_examples.specs.Scripts.Written.{written};
ghost use Rattle.loom_objects.specs.Exploring.{is_switch};

use crate::scripts::code::bytes_of;
use crate::scripts::step::{Step, Value};
use loom_objects::operation::Request;
use std::alloc::{AllocError, Global};
use std::marker::Model;

/// The steps of a script, and where the labels are that they name.
#[derive(Drop)]
pub(crate) struct Program {
    steps: &'static [Step],
    // For each step the place of the label that it names. Where it names none, the steps' end.
    places: Vec<usize>,
    // The bytes that tell the steps, if each of them has a code.
    code: Option<Vec<u8>>,
}

impl Model for Program {
    ghost use Rattle.std.specs.Prelude.{◌≡◌, IfSome, List, Some, map};
    ghost use Rattle.loom_examples.specs.Scripts.Code.{Tell};
    ghost use Rattle.loom_examples.specs.Scripts.Running.{named_place};
    ghost use Rattle.loom_examples.specs.Scripts.Written.{Written, written};

    ghost Value = { List Written };

    ghost view = { λ program. map written program.steps.now };

    ghost invariant = { λ program. (program.places.items ≡ map (λ step. named_place (map written program.steps.now) (Some step)) (map written program.steps.now))
        × IfSome program.code (λ code. Tell code.items (map written program.steps.now)) };
}

impl Program {
    /// The program of these steps. It fails only where a growth is refused.
    pub(crate) fn new(alloc: Global, steps: &'static [Step]) -> Result<Program, AllocError>
        ensures { IfOk result (λ program. program ≡ map written steps.entry.now) }
    {
        let places = steps
            .iter()
            .map(|step| named_place(steps, step))
            .collect::<Vec<_>>(alloc)?;
        let code = bytes_of(alloc, steps)?;
        Ok(Program {
            steps,
            places,
            code,
        })
    }

    /// A copy of it. It fails only where a growth is refused.
    pub(crate) fn try_clone(&self, alloc: Global) -> Result<Program, AllocError>
        ensures { IfOk result (λ program. program ≡ self.now) }
    {
        Program::new(alloc, self.steps)
    }

    /// All steps.
    pub(crate) fn steps(&self) -> &'static [Step]
        ensures { map written result.now ≡ self.now }
    {
        self.steps
    }

    /// The bytes that tell them, if each of them has a code.
    pub(crate) fn code(&self) -> Option<&[u8]>
        ensures { IfSome result (λ code. Tell code.now self.now) }
    {
        Some(self.code.as_ref()?.as_slice())
    }

    /// The step at this place, if there is one.
    #[tactic(auto, using(crate::proofs::ScriptLemmas::Reading::reads))]
    pub(crate) fn step(&self, place: usize) -> Option<&'static Step>
        ensures read { option_map written (option_copied result) ≡ slice_get self.now place }
        ensures within { OnSome result (place < 2 ^ 63) }
    {
        if place >= self.steps.len() {
            return None;
        }
        Some(&self.steps[place])
    }

    /// Whether no step switches whether the search explores.
    #[tactic(auto, using(crate::proofs::ScriptLemmas::Switching::none_switch))]
    pub(crate) fn never_switches(&self) -> bool
        ensures { result ≡ list_all (λ step. not (switches step)) self.now }
    {
        never_switch(self.steps)
    }

    /// Where the label is that the step at this place names. Where it names none, the steps' end.
    pub(crate) fn named_at(&self, place: usize) -> usize
        ensures { result ≡ named_place self.now (slice_get self.now place) }
    {
        if place >= self.places.len() {
            return self.steps.len();
        }
        self.places[place]
    }
}

// Whether the step switches whether the search explores.
fn switches(step: &Step) -> bool
    ensures { result ≡ switches (written step.now) }
{
    match step {
        Step::Do(_, asked) | Step::Labelled(_, asked, _) => is_switch(asked),
        Step::Store(..)
        | Step::Label(_)
        | Step::JumpTo(_)
        | Step::IfTo(..)
        | Step::UnlessTo(..)
        | Step::SpawnAt(..) => false,
    }
}

// Whether what is asked for is such a switch.
fn is_switch(asked: &Request<Value, usize>) -> bool
    ensures { result ≡ is_switch asked.now }
{
    matches!(asked, Request::Explore(_))
}

// Whether none of the steps does.
fn never_switch(steps: &[Step]) -> bool
    ensures { result ≡ list_all (λ step. not (switches (written step))) steps.now }
{
    steps.iter().all(|step| !switches(step))
}

// Where the label is that the step names. Where it names none, the steps' end.
fn named_place(steps: &[Step], step: &Step) -> usize
    ensures { result ≡ named_place (map written steps.now) (Some (written step.now)) }
{
    match step {
        Step::JumpTo(name)
        | Step::IfTo(_, _, name)
        | Step::UnlessTo(_, _, name)
        | Step::SpawnAt(_, name) => place_of(steps, name),
        Step::Do(..) | Step::Labelled(..) | Step::Store(..) | Step::Label(_) => steps.len(),
    }
}

// Whether the step is the label of this name.
fn is_label(step: &Step, name: &str) -> bool
    ensures { result ≡ is_label name.now (written step.now) }
{
    match step {
        Step::Label(label) => *label == name,
        _ => false,
    }
}

// Where the first label of this name is.
fn label_at(steps: &[Step], name: &str) -> Option<usize>
    ensures { result ≡ position (λ step. is_label name.now (written step)) steps.now }
{
    steps.iter().position(|step| is_label(step, name))
}

// Where the first label of this name is; without one, the steps' end.
fn place_of(steps: &[Step], name: &str) -> usize
    ensures { result ≡ place_of (map written steps.now) name.now }
{
    match label_at(steps, name) {
        Some(place) => place,
        None => steps.len(),
    }
}
