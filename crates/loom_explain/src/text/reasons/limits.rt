//! Limits: which one, its value, and what usually helps.
use crate::text::page::Page;
use crate::text::reasons::Scene;
use loom_objects::operation::Request;
use loom_views::rt::MAX_STORES;
use loom_views::rt::vv::MAX_VERSION;

/// More threads than a run may have.
pub(crate) fn put_threads(out: &mut Page, scene: &Scene<'_>) {
    let words =
        "  a run may have $ threads (`max_threads`), main and ended ones counted: this spawn is for one more\n  raise `max_threads`, which may be 5 at most, or spawn fewer\n";
    put_limit(out, scene, words, scene.explanation.max_threads);
}

/// More branch points than a run may come to.
pub(crate) fn put_branches(out: &mut Page, scene: &Scene<'_>) {
    let words =
        "  a run may come to $ branch points (`max_branches`): this one came to one more\n  a loop that waits wants a `yield_now` in each turn; else raise `max_branches`\n";
    put_limit(out, scene, words, scene.explanation.max_branches);
}

/// More operations than the threads of a run may hand over.
pub(crate) fn put_steps(out: &mut Page, scene: &Scene<'_>) {
    let words =
        "  the threads of a run may hand over $ operations (`max_steps`): this is one more\n  a loop that waits wants a `yield_now` in each turn; else raise `max_steps`\n";
    put_limit(out, scene, words, scene.explanation.max_steps);
}

/// More stores than an atomic may have.
pub(crate) fn put_stores(out: &mut Page, scene: &Scene<'_>) {
    let words =
        "  an atomic may have $ stores, the first value counted: this is one more\n  no setting raises this: let a run store less to one atomic\n";
    put_limit(out, scene, words, usize::from(MAX_STORES));
}

/// More versions than a thread may have.
pub(crate) fn put_versions(out: &mut Page, scene: &Scene<'_>) {
    let words =
        "  a thread may have $ versions, one for each access, fence and spawn: this is one more\n  no setting raises this: let a thread do less in a run\n";
    put_limit(out, scene, words, usize::from(MAX_VERSION));
}

/// The atomic of the operation, if it is on one; the limit that the run passed, and what helps.
fn put_limit(out: &mut Page, scene: &Scene<'_>, words: &str, limit: usize) {
    put_target(out, scene);
    out.put(words, &[limit]);
}

/// The atomic that the operation is one of.
fn put_target(out: &mut Page, scene: &Scene<'_>) {
    if let Some(Request::Atomic(op)) = scene.request {
        if let Some(number) = op.atomic() {
            out.number("  thread ", scene.at.thread);
            out.thing(" is at ", scene.world.thing(number));
            out.words("\n");
        }
    }
}
