//! The results of the tests. They were found by another program, which no part of this one was written from.
use crate::tests::finding::{covered, covered_runs, found};
use crate::tests::reading::texts::TEXTS;
use std::process::Abort;

/// What is found of the test of each name: its states and whether it holds, or why it fails.
const RESULTS: [(&str, &str); 29] = [
    (
        "2+2W",
        r#"States 4
[x]=1; [y]=1;
[x]=1; [y]=2;
[x]=2; [y]=1;
[x]=2; [y]=2;
Ok"#,
    ),
    (
        "2+2W+rel",
        r#"States 4
[x]=1; [y]=1;
[x]=1; [y]=2;
[x]=2; [y]=1;
[x]=2; [y]=2;
Ok"#,
    ),
    (
        "3.LB",
        r#"States 7
0:r0=0; 1:r0=0; 2:r0=0;
0:r0=0; 1:r0=0; 2:r0=1;
0:r0=0; 1:r0=1; 2:r0=0;
0:r0=0; 1:r0=1; 2:r0=1;
0:r0=1; 1:r0=0; 2:r0=0;
0:r0=1; 1:r0=0; 2:r0=1;
0:r0=1; 1:r0=1; 2:r0=0;
No"#,
    ),
    (
        "CAS-none-wins",
        r#"States 2
0:r0=0; 1:r0=1;
0:r0=1; 1:r0=0;
No"#,
    ),
    (
        "CoRR",
        r#"States 6
1:r0=0; 1:r1=0;
1:r0=0; 1:r1=1;
1:r0=0; 1:r1=2;
1:r0=1; 1:r1=1;
1:r0=1; 1:r1=2;
1:r0=2; 1:r1=2;
No"#,
    ),
    (
        "CoRR2",
        r#"States 47
2:r0=0; 2:r1=0; 3:r0=0; 3:r1=0;
2:r0=0; 2:r1=0; 3:r0=0; 3:r1=1;
2:r0=0; 2:r1=0; 3:r0=0; 3:r1=2;
2:r0=0; 2:r1=0; 3:r0=1; 3:r1=1;
2:r0=0; 2:r1=0; 3:r0=1; 3:r1=2;
2:r0=0; 2:r1=0; 3:r0=2; 3:r1=1;
2:r0=0; 2:r1=0; 3:r0=2; 3:r1=2;
2:r0=0; 2:r1=1; 3:r0=0; 3:r1=0;
2:r0=0; 2:r1=1; 3:r0=0; 3:r1=1;
2:r0=0; 2:r1=1; 3:r0=0; 3:r1=2;
2:r0=0; 2:r1=1; 3:r0=1; 3:r1=1;
2:r0=0; 2:r1=1; 3:r0=1; 3:r1=2;
2:r0=0; 2:r1=1; 3:r0=2; 3:r1=1;
2:r0=0; 2:r1=1; 3:r0=2; 3:r1=2;
2:r0=0; 2:r1=2; 3:r0=0; 3:r1=0;
2:r0=0; 2:r1=2; 3:r0=0; 3:r1=1;
2:r0=0; 2:r1=2; 3:r0=0; 3:r1=2;
2:r0=0; 2:r1=2; 3:r0=1; 3:r1=1;
2:r0=0; 2:r1=2; 3:r0=1; 3:r1=2;
2:r0=0; 2:r1=2; 3:r0=2; 3:r1=1;
2:r0=0; 2:r1=2; 3:r0=2; 3:r1=2;
2:r0=1; 2:r1=1; 3:r0=0; 3:r1=0;
2:r0=1; 2:r1=1; 3:r0=0; 3:r1=1;
2:r0=1; 2:r1=1; 3:r0=0; 3:r1=2;
2:r0=1; 2:r1=1; 3:r0=1; 3:r1=1;
2:r0=1; 2:r1=1; 3:r0=1; 3:r1=2;
2:r0=1; 2:r1=1; 3:r0=2; 3:r1=1;
2:r0=1; 2:r1=1; 3:r0=2; 3:r1=2;
2:r0=1; 2:r1=2; 3:r0=0; 3:r1=0;
2:r0=1; 2:r1=2; 3:r0=0; 3:r1=1;
2:r0=1; 2:r1=2; 3:r0=0; 3:r1=2;
2:r0=1; 2:r1=2; 3:r0=1; 3:r1=1;
2:r0=1; 2:r1=2; 3:r0=1; 3:r1=2;
2:r0=1; 2:r1=2; 3:r0=2; 3:r1=2;
2:r0=2; 2:r1=1; 3:r0=0; 3:r1=0;
2:r0=2; 2:r1=1; 3:r0=0; 3:r1=1;
2:r0=2; 2:r1=1; 3:r0=0; 3:r1=2;
2:r0=2; 2:r1=1; 3:r0=1; 3:r1=1;
2:r0=2; 2:r1=1; 3:r0=2; 3:r1=1;
2:r0=2; 2:r1=1; 3:r0=2; 3:r1=2;
2:r0=2; 2:r1=2; 3:r0=0; 3:r1=0;
2:r0=2; 2:r1=2; 3:r0=0; 3:r1=1;
2:r0=2; 2:r1=2; 3:r0=0; 3:r1=2;
2:r0=2; 2:r1=2; 3:r0=1; 3:r1=1;
2:r0=2; 2:r1=2; 3:r0=1; 3:r1=2;
2:r0=2; 2:r1=2; 3:r0=2; 3:r1=1;
2:r0=2; 2:r1=2; 3:r0=2; 3:r1=2;
No"#,
    ),
    (
        "CoRW2",
        r#"States 3
0:r0=0; [x]=1;
0:r0=0; [x]=2;
0:r0=2; [x]=1;
No"#,
    ),
    (
        "CoWW",
        r#"States 1
[x]=2;
No"#,
    ),
    (
        "Dekker+scfences",
        r#"States 3
0:r0=0; 1:r0=1;
0:r0=1; 1:r0=0;
0:r0=1; 1:r0=1;
No"#,
    ),
    (
        "IRIW",
        r#"States 16
2:r0=0; 2:r1=0; 3:r0=0; 3:r1=0;
2:r0=0; 2:r1=0; 3:r0=0; 3:r1=1;
2:r0=0; 2:r1=0; 3:r0=1; 3:r1=0;
2:r0=0; 2:r1=0; 3:r0=1; 3:r1=1;
2:r0=0; 2:r1=1; 3:r0=0; 3:r1=0;
2:r0=0; 2:r1=1; 3:r0=0; 3:r1=1;
2:r0=0; 2:r1=1; 3:r0=1; 3:r1=0;
2:r0=0; 2:r1=1; 3:r0=1; 3:r1=1;
2:r0=1; 2:r1=0; 3:r0=0; 3:r1=0;
2:r0=1; 2:r1=0; 3:r0=0; 3:r1=1;
2:r0=1; 2:r1=0; 3:r0=1; 3:r1=0;
2:r0=1; 2:r1=0; 3:r0=1; 3:r1=1;
2:r0=1; 2:r1=1; 3:r0=0; 3:r1=0;
2:r0=1; 2:r1=1; 3:r0=0; 3:r1=1;
2:r0=1; 2:r1=1; 3:r0=1; 3:r1=0;
2:r0=1; 2:r1=1; 3:r0=1; 3:r1=1;
Ok"#,
    ),
    (
        "IRIW+sc",
        r#"States 16
2:r0=0; 2:r1=0; 3:r0=0; 3:r1=0;
2:r0=0; 2:r1=0; 3:r0=0; 3:r1=1;
2:r0=0; 2:r1=0; 3:r0=1; 3:r1=0;
2:r0=0; 2:r1=0; 3:r0=1; 3:r1=1;
2:r0=0; 2:r1=1; 3:r0=0; 3:r1=0;
2:r0=0; 2:r1=1; 3:r0=0; 3:r1=1;
2:r0=0; 2:r1=1; 3:r0=1; 3:r1=0;
2:r0=0; 2:r1=1; 3:r0=1; 3:r1=1;
2:r0=1; 2:r1=0; 3:r0=0; 3:r1=0;
2:r0=1; 2:r1=0; 3:r0=0; 3:r1=1;
2:r0=1; 2:r1=0; 3:r0=1; 3:r1=0;
2:r0=1; 2:r1=0; 3:r0=1; 3:r1=1;
2:r0=1; 2:r1=1; 3:r0=0; 3:r1=0;
2:r0=1; 2:r1=1; 3:r0=0; 3:r1=1;
2:r0=1; 2:r1=1; 3:r0=1; 3:r1=0;
2:r0=1; 2:r1=1; 3:r0=1; 3:r1=1;
Ok"#,
    ),
    (
        "ISA2+rlx",
        r#"States 8
1:r0=0; 2:r0=0; 2:r1=0;
1:r0=0; 2:r0=0; 2:r1=1;
1:r0=0; 2:r0=1; 2:r1=0;
1:r0=0; 2:r0=1; 2:r1=1;
1:r0=1; 2:r0=0; 2:r1=0;
1:r0=1; 2:r0=0; 2:r1=1;
1:r0=1; 2:r0=1; 2:r1=0;
1:r0=1; 2:r0=1; 2:r1=1;
Ok"#,
    ),
    (
        "LB",
        r#"States 3
0:r0=0; 1:r0=0;
0:r0=0; 1:r0=1;
0:r0=1; 1:r0=0;
No"#,
    ),
    ("MP+na+rlx+rlx", r#"Flag race"#),
    (
        "MP+rel+rlx",
        r#"States 4
1:r0=0; 1:r1=0;
1:r0=0; 1:r1=1;
1:r0=1; 1:r1=0;
1:r0=1; 1:r1=1;
Ok"#,
    ),
    (
        "MP+relfence+acq",
        r#"States 3
1:r0=0; 1:r1=0;
1:r0=0; 1:r1=1;
1:r0=1; 1:r1=1;
No"#,
    ),
    (
        "MP+relfence+rlx",
        r#"States 4
1:r0=0; 1:r1=0;
1:r0=0; 1:r1=1;
1:r0=1; 1:r1=0;
1:r0=1; 1:r1=1;
Ok"#,
    ),
    (
        "MP+sc+sc",
        r#"States 3
1:r0=0; 1:r1=0;
1:r0=0; 1:r1=1;
1:r0=1; 1:r1=1;
No"#,
    ),
    (
        "R+scfences",
        r#"States 3
1:r0=0; [y]=1;
1:r0=1; [y]=1;
1:r0=1; [y]=2;
No"#,
    ),
    (
        "RMW-atomicity",
        r#"States 2
0:r0=0; 1:r0=1;
0:r0=1; 1:r0=0;
No"#,
    ),
    (
        "RMW-sum",
        r#"States 1
[x]=2;
No"#,
    ),
    (
        "RWC",
        r#"States 8
1:r0=0; 1:r1=0; 2:r0=0;
1:r0=0; 1:r1=0; 2:r0=1;
1:r0=0; 1:r1=1; 2:r0=0;
1:r0=0; 1:r1=1; 2:r0=1;
1:r0=1; 1:r1=0; 2:r0=0;
1:r0=1; 1:r1=0; 2:r0=1;
1:r0=1; 1:r1=1; 2:r0=0;
1:r0=1; 1:r1=1; 2:r0=1;
Ok"#,
    ),
    (
        "S",
        r#"States 4
1:r0=0; [x]=1;
1:r0=0; [x]=2;
1:r0=1; [x]=1;
1:r0=1; [x]=2;
Ok"#,
    ),
    (
        "SB",
        r#"States 4
0:r0=0; 1:r0=0;
0:r0=0; 1:r0=1;
0:r0=1; 1:r0=0;
0:r0=1; 1:r0=1;
Ok"#,
    ),
    (
        "SB+rel+acq",
        r#"States 4
0:r0=0; 1:r0=0;
0:r0=0; 1:r0=1;
0:r0=1; 1:r0=0;
0:r0=1; 1:r0=1;
Ok"#,
    ),
    (
        "SB+scfence+acqrelfence",
        r#"States 4
0:r0=0; 1:r0=0;
0:r0=0; 1:r0=1;
0:r0=1; 1:r0=0;
0:r0=1; 1:r0=1;
Ok"#,
    ),
    (
        "WRC+rlx+rel+acq",
        r#"States 7
1:r0=0; 2:r0=0; 2:r1=0;
1:r0=0; 2:r0=0; 2:r1=1;
1:r0=0; 2:r0=1; 2:r1=0;
1:r0=0; 2:r0=1; 2:r1=1;
1:r0=1; 2:r0=0; 2:r1=0;
1:r0=1; 2:r0=0; 2:r1=1;
1:r0=1; 2:r0=1; 2:r1=1;
No"#,
    ),
    (
        "XCHG-lock",
        r#"States 2
0:r0=0; 1:r0=1;
0:r0=1; 1:r0=0;
No"#,
    ),
    (
        "store-between-rmw",
        r#"States 3
0:r0=0; [x]=1;
0:r0=0; [x]=5;
0:r0=5; [x]=6;
Ok"#,
    ),
];

// The results of the test of this name.
fn results_of(name: &str) -> &'static str {
    match RESULTS.iter().find(|known| known.0 == name) {
        Some(known) => known.1,
        None => "none",
    }
}

// The test of this name has its results.
fn has_results(rt: &(impl Abort + AllocGlobal), name: &str, text: &str) {
    let found = found(rt.alloc(), text);
    assert!(rt; found.as_str() == results_of(name), "{name}: {found}");
}

#[test]
fn tests_of_two_threads_have_their_results(rt: HostRuntime) {
    for (name, text) in &TEXTS {
        if !text.contains("\nP2 ") {
            has_results(&rt, name, text);
        }
    }
}

#[test]
fn tests_of_three_threads_have_their_results(rt: HostRuntime) {
    for (name, text) in &TEXTS {
        if text.contains("\nP2 ") && !text.contains("\nP3 ") {
            has_results(&rt, name, text);
        }
    }
}

// The text begins with this, which is something.
fn begins(text: &str, part: &str) -> bool {
    !part.is_empty() && text.starts_with(part)
}

// The test of this name has the states of its results. Its answer may be open.
fn has_states(rt: &(impl Abort + AllocGlobal), name: &str, text: &str) {
    let found = found(rt.alloc(), text);
    assert!(rt; begins(results_of(name), found.as_str()), "{name}: {found}");
}

#[test]
fn tests_of_four_threads_have_their_states(rt: HostRuntime) {
    for (name, text) in &TEXTS {
        if text.contains("\nP3 ") {
            has_states(&rt, name, text);
        }
    }
}

// A check of the test of this name that remembers states finds its results.
fn is_covered(rt: &(impl Abort + AllocGlobal), name: &str, text: &str) {
    let found = covered(rt.alloc(), text);
    assert!(rt; found.as_str() == results_of(name), "{name}: {found}");
}

#[test]
fn covered_tests_have_their_results(rt: HostRuntime) {
    for (name, text) in &TEXTS {
        is_covered(&rt, name, text);
    }
}

// The text of this name.
fn text_of(name: &str) -> &'static str {
    match TEXTS.iter().find(|test| test.0 == name) {
        Some(test) => test.1,
        None => "",
    }
}

// Of the test of this name so many runs end, and so many are given up.
fn makes_runs(rt: &(impl Abort + AllocGlobal), name: &str, runs: (u64, u64)) {
    let found = covered_runs(rt.alloc(), text_of(name));
    assert!(rt; found == Some(runs), "{name}: {found:?}");
}

#[test]
fn covered_tests_of_four_threads_make_few_runs(rt: HostRuntime) {
    makes_runs(&rt, "IRIW", (16, 3_911));
    makes_runs(&rt, "CoRR2", (94, 14_543));
}
