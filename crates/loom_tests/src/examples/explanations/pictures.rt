//! Pictures of the bodies' runs, of a run of a thousand events, and of names that want escapes: their texts are well formed. Which events
//! they have is proved (`Draws`).
use super::{
    AT_LIMITS, CHOICES, LEAKS, LIMITS, Limits, MISUSES, RACES, Row, VALUES, WAITS, builder_of,
};
use crate::asserting::holds;
use crate::examples::script;
use loom::choices::Choices;
use loom::sync::atomic::Ordering::{Acquire, Release};
use loom_examples::scripts::step::{FAIL, Step};
use loom_explain::explanation::Explanation;
use loom_objects::label::Label;
use loom_objects::location::Location;
use loom_objects::operation::{AtomicOp, Request};
use loom_objects::text_literal;
use loom_views::rt::num::Numbers;
use serde_json::Value;
use std::alloc::{AllocError, Global};
use std::process::Abort;
use std::test::Fail;

/// How many bytes a picture has at most whose run has a thousand events.
const MOST_BYTES: usize = 200_000;

const ESCAPED: Label = Label {
    name: Some(text_literal!(b"<a&b>\"'\x01\x1b]]>#;%%{--")),
    location: Some(Location {
        file: text_literal!(b"\"\"\"\"\"\"\"\"\"\"\"\"\"\"\"\"\"\"\"\"\"\"\"\""),
        line: 4_000_000_000,
    }),
};

const PLACED: Label = Label {
    name: None,
    ..ESCAPED
};

const STORED: Step = Step::Labelled(0, Request::Atomic(AtomicOp::Store(0, 1, Release)), PLACED);

const LOADED: Step = Step::Do(0, Request::Atomic(AtomicOp::Load(0, Acquire)));

// Main stores and loads up to the limit, beside a thread that does.
const THOUSAND: &[Step] = &[
    Step::Labelled(0, Request::Atomic(AtomicOp::New(Numbers::U64, 0)), ESCAPED),
    Step::SpawnAt(1, "again"),
    Step::Label("again"),
    STORED,
    LOADED,
    Step::JumpTo("again"),
];

// Main's assertion fails after a store.
const NAMED: &[Step] = &[
    Step::Labelled(0, Request::Atomic(AtomicOp::New(Numbers::U64, 0)), ESCAPED),
    STORED,
    FAIL,
];

static LONG: Row = Row {
    name: "a thousand events",
    steps: THOUSAND,
    choices: "",
    text: "",
    limits: Some(Limits {
        steps: 1000,
        branches: 10_000,
        ..LIMITS
    }),
};

static ESCAPES: Row = Row {
    name: "names that want escapes",
    steps: NAMED,
    choices: "",
    text: "",
    limits: None,
};

// The explanation of the row's run.
fn explained(rt: &(impl Abort + AllocGlobal), row: &'static Row) -> Result<Explanation, Fail> {
    let body = script(rt, row.steps);
    let choices = Choices::parse(rt.alloc(), row.choices)?;
    let told = builder_of(row).explain(rt.alloc(), &body, choices.as_slice())?;
    Ok(told)
}

// Whether each tag is closed by its own name, in order, and quotes come in pairs in it; and whether the text has no entity but five,
// and no control but ends of lines.
fn is_well_formed(alloc: Global, text: &str) -> Result<bool, AllocError> {
    let is_so = are_closed(alloc, text)?;
    Ok(is_so && text.starts_with("<svg ") && are_entities(text) && has_no_control(text))
}

fn are_closed(alloc: Global, text: &str) -> Result<bool, AllocError> {
    let mut open = Vec::new(alloc);
    for piece in text.split('<').skip(1) {
        let (tag, _) = piece.split_once('>').unwrap_or(("", ""));
        if !is_next(&mut open, tag)? {
            return Ok(false);
        }
    }
    Ok(open.is_empty())
}

// Opens what the tag opens, or closes what was opened last, if that is what the tag closes.
fn is_next<'a>(open: &mut Vec<&'a str>, tag: &'a str) -> Result<bool, AllocError> {
    if tag.split('"').count() % 2 == 0 {
        return Ok(false);
    }
    if tag.ends_with('/') {
        return Ok(true);
    }
    if let Some(name) = tag.strip_prefix('/') {
        return Ok(open.pop() == Some(name));
    }
    let (name, _) = tag.split_once(' ').unwrap_or((tag, ""));
    open.push(name)?;
    Ok(true)
}

fn are_entities(text: &str) -> bool {
    text.split('&').skip(1).all(|rest| {
        let (name, _) = rest.split_once(';').unwrap_or(("", ""));
        matches!(name, "amp" | "lt" | "gt" | "quot" | "#39")
    })
}

fn has_no_control(text: &str) -> bool {
    text.chars().all(|sign| sign == '\n' || !sign.is_control())
}

// Whether each entity of the diagram ends, and each band.
fn is_diagram(text: &str) -> bool {
    text.starts_with("sequenceDiagram\n")
        && text.split('#').count() == text.split(';').count()
        && text.split("\n  rect ").count() == text.split("\n  end\n").count()
        && has_no_control(text)
}

// Whether the run's picture is well formed in each form.
fn is_drawn(alloc: Global, explanation: &Explanation) -> Result<bool, AllocError> {
    let svg = explanation.to_svg(alloc)?;
    let mermaid = explanation.to_mermaid(alloc)?;
    let json = explanation.to_json(alloc)?;
    let is_svg = is_well_formed(alloc, svg.as_str())? && svg.len() < MOST_BYTES;
    let is_json = Value::from_str(alloc, json.as_str()).is_ok();
    Ok(is_svg && is_diagram(mermaid.as_str()) && is_json)
}

fn draws(rt: &(impl Abort + AllocGlobal), row: &'static Row) -> Result<(), Fail> {
    let explanation = explained(rt, row)?;
    let is_so = is_drawn(rt.alloc(), &explanation)?;
    holds(rt, is_so, row.name);
    Ok(())
}

fn draws_each(rt: &(impl Abort + AllocGlobal), rows: &'static [Row]) -> Result<(), Fail> {
    for row in rows {
        draws(rt, row)?;
    }
    Ok(())
}

#[test]
fn failures_are_drawn(rt: HostRuntime) -> Result<(), Fail> {
    draws_each(&rt, &RACES)?;
    draws_each(&rt, &WAITS)?;
    draws_each(&rt, &LEAKS)?;
    draws_each(&rt, &MISUSES)?;
    draws_each(&rt, &VALUES)?;
    draws_each(&rt, &CHOICES)?;
    draws_each(&rt, &AT_LIMITS)
}

#[test]
fn a_long_run_is_drawn(rt: HostRuntime) -> Result<(), Fail> {
    draws(&rt, &LONG)
}

#[test]
fn names_are_escaped(rt: HostRuntime) -> Result<(), Fail> {
    draws(&rt, &ESCAPES)?;
    let explanation = explained(&rt, &ESCAPES)?;
    let svg = explanation.to_svg(rt.alloc())?;
    let shown = "&quot;&lt;a&amp;b&gt;&quot;&#39;\\u{1}\\u{1b}]]&gt;#;%%{--&quot;";
    holds(&rt, svg.as_str().contains(shown), "SVG");
    let mermaid = explanation.to_mermaid(rt.alloc())?;
    let shown =
        "#34;#60;a#38;b#62;#34;'#92;u#123;1#125;#92;u#123;1b#125;#93;#93;#62;#35;#59;#37;#37;#123;--#34;";
    holds(&rt, mermaid.as_str().contains(shown), "Mermaid");
    Ok(())
}
