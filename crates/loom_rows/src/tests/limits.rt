//! Misuse and limits: what the rows find.
use super::finding::{Case, Shows, find};
use loom_examples::rows::settings::Settings;
use loom_examples::rows::{DEFAULTS, LONG_RUNS, THREE_NODES, WHOLE};

static MANY_FENCES: [Case; 2] = [
    case!("fences", WHOLE, 1, "complete 1; t- = 7"),
    case!("too_many_fences", DEFAULTS, 0, "failed 10 0"),
];

static MANY_STORES: [Case; 1] = [case!("many_stores", LONG_RUNS, 0, "failed 11 0 65536 choices")];

// Threads that spin reach a run's last node.
static SPINNING: [Case; 2] = [
    case!("spinners", DEFAULTS, 0, "failed 9 0 1000 choices"),
    case!("spinners_forever", WHOLE, 0, "failed 9 0 1000 choices"),
];

// Runs of three nodes at most.
const SHORT: Settings = Settings {
    max_branches: 3,
    ..WHOLE
};

static FAILURES: [Case; 12] = [
    case!("finish_twice", DEFAULTS, 0, "failed 14 0"),
    case!("exit_first", DEFAULTS, 0, "failed 14 0"),
    case!("put_absent", DEFAULTS, 0, "failed 14 0"),
    // A thread is joined once.
    case!("joined twice", DEFAULTS, 0, "failed 14 0 t1 t1 t0"),
    case!("five spawns", DEFAULTS, 0, "failed 8 0"),
    case!("lock_beside", SHORT, 0, "failed 9 0 t0 t1 t1"),
    case!("fail after a lock", DEFAULTS, 0, "failed 1 0 t0"),
    case!("guard_left", DEFAULTS, 0, "failed 2 0 t0 t1 t-"),
    case!("spin_alone", THREE_NODES, 0, "failed 9 0 t0 t0 t0"),
    case!(
        "two_mutexes_deadlock",
        DEFAULTS,
        0,
        "failed 2 3 t1 t1 t2 t2 t-"
    ),
    case!(
        "check_ordering_invalid_1",
        DEFAULTS,
        0,
        "failed 1 2 t1 t1 t1 t1 t0 l1 t0 l0"
    ),
    case!(
        "checks_fail",
        DEFAULTS,
        0,
        "failed 1 0 t1 t1 l0 t1 t1 t0 t2 t2 l0 t2 t2 t0 t0 l1"
    ),
];

#[test]
fn one_store_more_replays(rt: HostRuntime) {
    find(&rt, &MANY_STORES);
}

#[test]
fn limits_are_reached_and_failures_replay(rt: HostRuntime) {
    find(&rt, &MANY_FENCES);
    find(&rt, &SPINNING);
    find(&rt, &FAILURES);
}
