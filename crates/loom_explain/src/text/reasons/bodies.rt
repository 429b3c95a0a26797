//! What a body says of itself, fences and switches that do nothing, and choices that don't fit.
use crate::text::page::Page;
use crate::text::reasons::{Scene, Sought};

/// What the body says of itself, with its thread between words, what this is called, and the last operation of the thread
/// before, by whose reply it came here.
pub(crate) fn put_own(out: &mut Page, scene: &Scene<'_>, words: &str, after: &str) {
    out.between(words, scene.at.thread, after);
    out.called(scene.label);
    match scene.earlier(Sought::Any(scene.at.thread)) {
        Some(number) => out.between(
            "\n  it came there by the reply to its operation at event ",
            number,
            "\n",
        ),
        None => out.words("\n  it is the thread's first operation\n"),
    }
}

pub(crate) fn put_fence(out: &mut Page, scene: &Scene<'_>) {
    out.between(
        "  thread ",
        scene.at.thread,
        " makes a fence with Relaxed, which orders nothing\n  a fence is Acquire, Release, AcqRel or SeqCst\n",
    );
}

/// Since when exploring is what it is switched to.
pub(crate) fn put_switch(out: &mut Page, scene: &Scene<'_>) {
    out.between(
        "  thread ",
        scene.at.thread,
        " switches exploring to what it is already, since ",
    );
    match scene.earlier(Sought::Explore) {
        Some(number) => out.between("event ", number, "\n"),
        None => out.words("the run's beginning (`expect_explicit_explore`)\n"),
    }
}

/// Which of the given choices wasn't met.
pub(crate) fn put_choices(out: &mut Page, scene: &Scene<'_>) {
    let met = scene.explanation.choices.len();
    out.put(
        "  the run met $ of the choices that were given: choice $ is none of those that stand there\n  the choices are another body's, or those of another form of this one\n",
        &[met, met.saturating_add(1)],
    );
}
