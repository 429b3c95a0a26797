//! Covering checks whose runs go on from where earlier ones stood find the same.
use crate::asserting::holds;
use loom::model::Builder;
use loom::model::cover::Covered;
use loom_examples::rows::tables::atomics::{ACQ_REL, THREE_ADDS};
use loom_examples::rows::tables::channels::COMMUTATIVE_SENDERS;
use loom_examples::rows::tables::exploring::STOP_EXPLORING;
use loom_examples::rows::tables::first::{STORE_BUFFERING, TWO_MUTEXES_DEADLOCK};
use loom_examples::scripts::script::Script;
use loom_examples::scripts::step::Step;
use std::alloc::Global;

static SCRIPTS: [(&str, &[Step]); 6] = [
    ("three_adds", THREE_ADDS),
    ("acq_rel", ACQ_REL),
    ("commutative_senders", COMMUTATIVE_SENDERS),
    ("stop_exploring", STOP_EXPLORING),
    ("store_buffering", STORE_BUFFERING),
    ("two_mutexes_deadlock", TWO_MUTEXES_DEADLOCK),
];

// How many runs end and are met, and how many states are noted, where the script is covered.
fn covered(alloc: Global, snapshots: bool, steps: &'static [Step]) -> Option<(u64, u64, usize)> {
    let script = Script::new(alloc, steps).ok()?;
    let builder = Builder {
        max_permutations: Some(2_000),
        snapshots,
        ..Builder::new()
    };
    let found = builder.cover(alloc, &script).ok()?;
    let (Covered::Complete { runs, met, states }
    | Covered::Livelock {
        runs,
        met,
        states,
        ..
    }
    | Covered::Stopped {
        runs,
        met,
        states,
        ..
    }
    | Covered::Failed {
        runs,
        met,
        states,
        ..
    }) = &found;
    Some((*runs, *met, *states))
}

#[test]
fn covers_the_same(rt: HostRuntime) {
    for (name, steps) in &SCRIPTS {
        let found = covered(rt.alloc(), false, *steps);
        holds(
            &rt,
            found.is_some() && found == covered(rt.alloc(), true, *steps),
            *name,
        );
    }
}
