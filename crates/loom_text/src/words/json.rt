//! Answers as JSON objects.
use crate::run::answer::{Answer, End, Found, Question, ShownQuestion, ShownTerm, flag_of};
use crate::run::summary::Summary;
use crate::run::tally::FinalState;
use loom::model::cover::Covered;
use loom::{Choice, ShownChoices};
use serde_json::{Value, json};
use std::alloc::{AllocError, Global};

/// The answer as one JSON object in a line. It fails only where a growth is refused (own).
pub fn of_answer(alloc: Global, file: &str, answer: Answer) -> Result<String, AllocError> {
    let Summary {
        positive,
        negative,
        observation,
        verdict,
    } = answer.summary();
    let question = Question(answer.test.quantifier);
    let question = format!(in alloc; "{question}")?;
    let observation = format!(in alloc; "{observation}")?;
    let verdict = format!(in alloc; "{verdict}")?;
    let asked = ShownQuestion(answer.test);
    let condition = format!(in alloc; "{asked}")?;
    let name = answer.test.name.as_str();
    let search = search_of(answer.found);
    let mut object = json!(in alloc; {
        "file": file,
        "test": name,
        "question": question,
        "condition": condition,
        "answer": verdict,
        "observation": observation,
        "positive": positive,
        "negative": negative,
        "search": search
    })?;
    put(alloc, &mut object, "states", states(alloc, answer)?)?;
    put_end(alloc, &mut object, answer.end())?;
    put_noted(alloc, &mut object, answer.found)?;
    object.to_string(alloc)
}

// A list of objects.
fn states(alloc: Global, answer: Answer) -> Result<Value, AllocError> {
    let mut states = Vec::new(alloc);
    for state in answer.counts().states.as_slice() {
        states.push(of_state(alloc, answer, state)?)?;
    }
    Ok(Value::Array(states))
}

// The numbers by their terms, and how many runs ended with them.
fn of_state(alloc: Global, answer: Answer, state: &FinalState) -> Result<Value, AllocError> {
    let mut values = json!(in alloc; {})?;
    for (place, number) in state.numbers().iter().enumerate() {
        if place < answer.layout.terms.len() {
            let term = ShownTerm {
                test: answer.test,
                term: answer.layout.terms[place],
            };
            let name = format!(in alloc; "{term}")?;
            let number = number.cast_signed();
            put(alloc, &mut values, name.as_str(), json!(in alloc; number)?)?;
        }
    }
    let runs = state.runs();
    let mut object = json!(in alloc; { "runs": runs })?;
    put(alloc, &mut object, "values", values)?;
    Ok(object)
}

// How runs were chosen.
fn search_of(found: &Found) -> &'static str {
    match found {
        Found::Whole(_) => "whole",
        Found::Reduced(_) => "reduced",
        Found::Covering(_) => "cover",
    }
}

// How the search ended.
fn put_end(alloc: Global, object: &mut Value, end: End) -> Result<(), AllocError> {
    match end {
        End::Complete { runs } => put_runs(alloc, object, "complete", runs),
        End::Livelock { runs, choices } => {
            put_runs(alloc, object, "livelock", runs)?;
            put_choices(alloc, object, choices)
        }
        End::Stopped { runs, limit, .. } => {
            put_runs(alloc, object, "stopped", runs)?;
            let limit = format!(in alloc; "{limit}")?;
            put(alloc, object, "limit", json!(in alloc; limit)?)
        }
        End::Failed {
            runs,
            failure,
            choices,
            ..
        } => {
            put_runs(alloc, object, "failed", runs)?;
            let flag = flag_of(failure.kind);
            put(alloc, object, "flag", json!(in alloc; flag)?)?;
            let cause = format!(in alloc; "{failure}")?;
            put(alloc, object, "cause", json!(in alloc; cause)?)?;
            put_choices(alloc, object, choices)
        }
    }
}

fn put_choices(alloc: Global, object: &mut Value, choices: &[Choice]) -> Result<(), AllocError> {
    let shown = ShownChoices(choices);
    let text = format!(in alloc; "{shown}")?;
    put(alloc, object, "choices", json!(in alloc; text)?)
}

// How many runs a search gave up that remembers states, and how many states it noted.
fn put_noted(alloc: Global, object: &mut Value, found: &Found) -> Result<(), AllocError> {
    let Found::Covering(covering) = found else {
        return Ok(());
    };
    let (met, noted) = match &covering.covered {
        Covered::Complete { met, states, .. }
        | Covered::Livelock { met, states, .. }
        | Covered::Stopped { met, states, .. }
        | Covered::Failed { met, states, .. } => (*met, *states),
    };
    put(alloc, object, "met", json!(in alloc; met)?)?;
    put(alloc, object, "noted", json!(in alloc; noted)?)
}

fn put_runs(alloc: Global, object: &mut Value, ends: &str, runs: u64) -> Result<(), AllocError> {
    put(alloc, object, "result", json!(in alloc; ends)?)?;
    put(alloc, object, "runs", json!(in alloc; runs)?)
}

// Puts a member behind the others.
fn put(alloc: Global, object: &mut Value, name: &str, value: Value) -> Result<(), AllocError> {
    if let Some(members) = object.as_object_mut() {
        members.insert(String::from_str(alloc, name)?, value)?;
    }
    Ok(())
}
