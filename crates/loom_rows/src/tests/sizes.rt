//! Runs as large as they may be: five threads, three guards of one thread, a path of 1,000 nodes, the last of each kind.
use super::finding::{Case, Shows};
use loom_examples::rows::{DEFAULTS, WHOLE};

// The last thread is chosen twice, the ends and joins of the others take six choices in one order: 28 ways to join these.
const FIVE_THREADS_BESIDE: &str = "complete 28\
    ; t1 t2 t3 t3 t2 t2 t1 t1 t0 t4 t4 t- = 7\
    ; t1 t2 t3 t3 t2 t2 t1 t1 t4 t4 t0 t- = 7\
    ; t1 t2 t3 t3 t2 t2 t1 t1 t4 t0 t4 t- = 7\
    ; t1 t2 t3 t3 t2 t2 t1 t4 t4 t1 t0 t- = 7\
    ; t1 t2 t3 t3 t2 t2 t1 t4 t1 t0 t4 t- = 7\
    ; t1 t2 t3 t3 t2 t2 t1 t4 t1 t4 t0 t- = 7\
    ; t1 t2 t3 t3 t2 t2 t4 t4 t1 t1 t0 t- = 7\
    ; t1 t2 t3 t3 t2 t2 t4 t1 t1 t0 t4 t- = 7\
    ; t1 t2 t3 t3 t2 t2 t4 t1 t1 t4 t0 t- = 7\
    ; t1 t2 t3 t3 t2 t2 t4 t1 t4 t1 t0 t- = 7\
    ; t1 t2 t3 t3 t2 t4 t4 t2 t1 t1 t0 t- = 7\
    ; t1 t2 t3 t3 t2 t4 t2 t1 t1 t0 t4 t- = 7\
    ; t1 t2 t3 t3 t2 t4 t2 t1 t1 t4 t0 t- = 7\
    ; t1 t2 t3 t3 t2 t4 t2 t1 t4 t1 t0 t- = 7\
    ; t1 t2 t3 t3 t2 t4 t2 t4 t1 t1 t0 t- = 7\
    ; t1 t2 t3 t3 t4 t4 t2 t2 t1 t1 t0 t- = 7\
    ; t1 t2 t3 t3 t4 t2 t2 t1 t1 t0 t4 t- = 7\
    ; t1 t2 t3 t3 t4 t2 t2 t1 t1 t4 t0 t- = 7\
    ; t1 t2 t3 t3 t4 t2 t2 t1 t4 t1 t0 t- = 7\
    ; t1 t2 t3 t3 t4 t2 t2 t4 t1 t1 t0 t- = 7\
    ; t1 t2 t3 t3 t4 t2 t4 t2 t1 t1 t0 t- = 7\
    ; t1 t2 t3 t4 t4 t3 t2 t2 t1 t1 t0 t- = 7\
    ; t1 t2 t3 t4 t3 t2 t2 t1 t1 t0 t4 t- = 7\
    ; t1 t2 t3 t4 t3 t2 t2 t1 t1 t4 t0 t- = 7\
    ; t1 t2 t3 t4 t3 t2 t2 t1 t4 t1 t0 t- = 7\
    ; t1 t2 t3 t4 t3 t2 t2 t4 t1 t1 t0 t- = 7\
    ; t1 t2 t3 t4 t3 t2 t4 t2 t1 t1 t0 t- = 7\
    ; t1 t2 t3 t4 t3 t4 t2 t2 t1 t1 t0 t- = 7";

/// The rows of these.
pub static CASES: [Case; 6] = [
    case!("five threads", WHOLE, 28, FIVE_THREADS_BESIDE),
    case!("three guards", WHOLE, 1, "complete 1; t0 t0 t0 t- = 1"),
    case!(
        "a thousand nodes",
        WHOLE,
        2,
        "complete 2; 1000 choices = 497; 1000 choices = 497"
    ),
    // A run with a thousand nodes before its end has one node too many, whatever the last of them is.
    case!("a load last", WHOLE, 0, "failed 9 0 1000 choices"),
    case!("a wait last", WHOLE, 0, "failed 9 0 1000 choices"),
    results!("fifth thread", DEFAULTS, "complete; 7"),
];
