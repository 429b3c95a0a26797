//! Tests by the examples: what is told of scripts, walks of bodies and of closures, checks of closures with their logs and lines, and what
//! the documents show.
mod closures;
mod explanations;
mod first_tests;
mod guide;
mod snapshots;
mod walks;

use loom_examples::scripts::script::Script;
use loom_examples::scripts::step::Step;
use std::process::Abort;

/// The script of these steps, for which there is memory.
fn script(rt: &(impl Abort + AllocGlobal), steps: &'static [Step]) -> Script {
    Script::new(rt.alloc(), steps).expect(rt, "no memory for a script")
}
