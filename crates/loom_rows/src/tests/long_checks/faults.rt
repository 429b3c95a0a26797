//! A store that meets a fault ends the check.
use super::{Case, WHOLE_CASE};
use loom_examples::rows::TWO_RUNS;

const EACH: Case = Case {
    interval: 1,
    ..WHOLE_CASE
};

pub(super) static FAULTS: [Case; 6] = [
    Case {
        fails_at: 1,
        gives: "error 13\nfaults 1\n",
        ..EACH
    },
    Case {
        fails_at: 2,
        gives: "error 13\nfaults 1\n",
        ..EACH
    },
    Case {
        fails_at: 3,
        gives: " t0 t1 t1 t-\nerror 13\nfaults 1\nsaves no nodes\n",
        ..EACH
    },
    Case {
        fails_at: 4,
        gives: " t0 t1 t1 t-\n t1 t1 t0 t-\nerror 13\nfaults 1\nsaves no nodes\nsaves one node\n",
        ..EACH
    },
    Case {
        settings: TWO_RUNS,
        fails_at: 1,
        gives: "error 13\nfaults 1\n",
        ..WHOLE_CASE
    },
    Case {
        settings: TWO_RUNS,
        fails_at: 2,
        gives: " t0 t1 t1 t-\n t1 t1 t0 t-\nerror 13\nfaults 1\n",
        ..WHOLE_CASE
    },
];
