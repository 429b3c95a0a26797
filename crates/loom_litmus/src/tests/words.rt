//! What the program of litmus tests does with words.
use crate::tests::reading::texts::TEXTS;
use loom::runner::Host;
use loom_text::words::run_words;
use std::process::Abort;
use std::rt::Clock;
use std::{fs, io};

// Words, what they print on standard output and on standard error, and the status.
type Call = (&'static [&'static str], &'static str, &'static str, u8);

static CALLS: [Call; 30] = [
    // One file has its whole answer.
    (
        &["SB.litmus"],
        "Test SB Allowed\nStates 4\n0:r0=0; 1:r0=0;\n0:r0=0; 1:r0=1;\n0:r0=1; 1:r0=0;\n0:r0=1; 1:r0=1;\nOk\nWitnesses\nPositive: 1 Negative: 3\nThe counts are of the runs that this search made.\nCondition exists (0:r0=0 /\\ 1:r0=0)\nObservation SB Sometimes 1 3\n",
        "",
        0,
    ),
    (
        &["MP+na+rlx+rlx.litmus"],
        "Test MP+na+rlx+rlx Allowed\nStates 1\n1:r0=0; 1:r1=9;\nFlag race\nfailed in run 2: MP+na+rlx+rlx.litmus:12: an access is not ordered after one that it conflicts with: let a lock, or a release and an acquire, come between the two\nreplay: t1 t1 t1 t0 t2 t2 l1\nThe states are those found up to the failure.\nNo\nWitnesses\nPositive: 0 Negative: 1\nThe counts are of the runs that this search made.\nCondition exists (1:r0=1 /\\ 1:r1=0)\nObservation MP+na+rlx+rlx Never 0 1\n",
        "",
        1,
    ),
    // Other searches are asked for by name. Where each run is made, the counts are of all.
    (
        &["--whole", "SB.litmus"],
        "Test SB Allowed\nStates 4\n0:r0=0; 1:r0=0;\n0:r0=0; 1:r0=1;\n0:r0=1; 1:r0=0;\n0:r0=1; 1:r0=1;\nOk\nWitnesses\nPositive: 126 Negative: 246\nCondition exists (0:r0=0 /\\ 1:r0=0)\nObservation SB Sometimes 126 246\n",
        "",
        0,
    ),
    (
        &["--reduce", "SB.litmus"],
        "Test SB Allowed\nStates 4\n0:r0=0; 1:r0=0;\n0:r0=0; 1:r0=1;\n0:r0=1; 1:r0=0;\n0:r0=1; 1:r0=1;\nOk\nWitnesses\nPositive: 21 Negative: 39\nThe counts are of the runs that this search made.\nCondition exists (0:r0=0 /\\ 1:r0=0)\nObservation SB Sometimes 21 39\n",
        "",
        0,
    ),
    // By several workers they are those of one.
    (
        &["--jobs", "3", "--whole", "SB.litmus"],
        "Test SB Allowed\nStates 4\n0:r0=0; 1:r0=0;\n0:r0=0; 1:r0=1;\n0:r0=1; 1:r0=0;\n0:r0=1; 1:r0=1;\nOk\nWitnesses\nPositive: 126 Negative: 246\nCondition exists (0:r0=0 /\\ 1:r0=0)\nObservation SB Sometimes 126 246\n",
        "",
        0,
    ),
    (
        &["--jobs", "3", "SB.litmus"],
        "",
        "error: --jobs needs --whole or --reduce\n\nUsage: loom_litmus [OPTIONS] FILE..\n\nFor more information, try '--help'.\n",
        2,
    ),
    (
        &["--jobs", "3", "--replay", "", "SB.litmus"],
        "",
        "error: the argument '--jobs <N>' cannot be used with '--replay <CHOICES>'\n\nUsage: loom_litmus [OPTIONS] FILE..\n\nFor more information, try '--help'.\n",
        2,
    ),
    (
        &["--states", "3", "--whole", "SB.litmus"],
        "",
        "error: the argument '--states <N>' cannot be used with '--whole'\n\nUsage: loom_litmus [OPTIONS] FILE..\n\nFor more information, try '--help'.\n",
        2,
    ),
    (
        &["--snapshots", "--reduce", "SB.litmus"],
        "",
        "error: the argument '--snapshots' cannot be used with '--reduce'\n\nUsage: loom_litmus [OPTIONS] FILE..\n\nFor more information, try '--help'.\n",
        2,
    ),
    // A limit that was reached is named.
    (
        &["--max-permutations", "5", "SB.litmus"],
        "Test SB Allowed\nStates 2\n0:r0=0; 1:r0=0;\n0:r0=0; 1:r0=1;\nStopped: `max_permutations` was reached after 5 runs\nThe states are those found up to there.\nOk\nWitnesses\nPositive: 1 Negative: 1\nThe counts are of the runs that this search made.\nCondition exists (0:r0=0 /\\ 1:r0=0)\nObservation SB Sometimes 1 1\n",
        "",
        0,
    ),
    (
        &["--max-duration", "0", "SB.litmus"],
        "Test SB Allowed\nStates 0\nStopped: `max_duration` was reached after 0 runs\nThe states are those found up to there.\nUndecided\nWitnesses\nPositive: 0 Negative: 0\nThe counts are of the runs that this search made.\nCondition exists (0:r0=0 /\\ 1:r0=0)\nObservation SB Never 0 0\n",
        "",
        1,
    ),
    (
        &["--max-branches", "3", "SB.litmus"],
        "Test SB Allowed\nStates 0\nFlag branches\nfailed in run 1: SB.litmus:6: more branch points than `max_branches`: raise max_branches, or call yield_now in a loop that waits\nreplay: t1 t1 t1\nThe states are those found up to the failure.\nNo\nWitnesses\nPositive: 0 Negative: 0\nThe counts are of the runs that this search made.\nCondition exists (0:r0=0 /\\ 1:r0=0)\nObservation SB Never 0 0\n",
        "",
        1,
    ),
    (
        &["--states", "3", "SB.litmus"],
        "Test SB Allowed\nStates 4\n0:r0=0; 1:r0=0;\n0:r0=0; 1:r0=1;\n0:r0=1; 1:r0=0;\n0:r0=1; 1:r0=1;\nOk\nWitnesses\nPositive: 126 Negative: 246\nThe counts are of the runs that this search made.\nCondition exists (0:r0=0 /\\ 1:r0=0)\nObservation SB Sometimes 126 246\n",
        "",
        0,
    ),
    // From copies of earlier runs the search finds the same.
    (
        &["--snapshots", "SB.litmus"],
        "Test SB Allowed\nStates 4\n0:r0=0; 1:r0=0;\n0:r0=0; 1:r0=1;\n0:r0=1; 1:r0=0;\n0:r0=1; 1:r0=1;\nOk\nWitnesses\nPositive: 1 Negative: 3\nThe counts are of the runs that this search made.\nCondition exists (0:r0=0 /\\ 1:r0=0)\nObservation SB Sometimes 1 3\n",
        "",
        0,
    ),
    (
        &["--preemption-bound", "0", "SB.litmus"],
        "Test SB Allowed\nStates 2\n0:r0=0; 1:r0=0;\n0:r0=0; 1:r0=1;\nOk\nWitnesses\nPositive: 1 Negative: 1\nThe counts are of the runs that this search made.\nCondition exists (0:r0=0 /\\ 1:r0=0)\nObservation SB Sometimes 1 1\n",
        "",
        0,
    ),
    // Where no run ends from a state on, that is said.
    (
        &["spin.litmus"],
        "Test spin Allowed\nStates 0\nFlag livelock\nno run ends after these choices: \nThe states are those of the runs that end.\nNo\nWitnesses\nPositive: 0 Negative: 0\nThe counts are of the runs that this search made.\nCondition exists ([x]=0)\nObservation spin Never 0 0\n",
        "",
        1,
    ),
    // What happened in a run that failed is told, each operation of a thread with its line of the file.
    (
        &["--explain", "MP+na+rlx+rlx.litmus"],
        "Test MP+na+rlx+rlx Allowed\nStates 1\n1:r0=0; 1:r1=9;\nFlag race\nfailed in run 2: MP+na+rlx+rlx.litmus:12: an access is not ordered after one that it conflicts with: let a lock, or a release and an acquire, come between the two\nreplay: t1 t1 t1 t0 t2 t2 l1\nThe states are those found up to the failure.\nNo\nWitnesses\nPositive: 0 Negative: 1\nThe counts are of the runs that this search made.\nCondition exists (1:r0=1 /\\ 1:r1=0)\nObservation MP+na+rlx+rlx Never 0 1\nfailed: race, at event 13 (MP+na+rlx+rlx.litmus:12)\n  thread 2 reads cell #1 (\"d\") and doesn't know of one of these at least:\n    thread 0's making of cell #1 (\"d\") (event 2)\n    thread 1's write of cell #1 (\"d\") (event 6)\nreplay: t1 t1 t1 t0 t2 t2 l1\n\n      thread  operation                                                           choice\n  1   t0      AtomicI32::new(0) = #0 \"y\"\n  2   t0      UnsafeCell::new = #1 \"d\"\n  3   t0      spawn thread 1 \"P0\"\n  4   t0      spawn thread 2 \"P1\"\n  5   t0      join thread 1: waits                                                t1 of t1 t2\n  6   t1      #1.replace() at MP+na+rlx+rlx.litmus:5\n  7   t1      #0.store(1, Relaxed) at MP+na+rlx+rlx.litmus:6: store 1             t1 of t1 t2\n  8   t1      finish()                                                            t1 of t1 t2\n  9   t1      exit()\n 10   t1      end()                                                               t0 of t0 t2\n      t0        event 5: has the value\n 11   t0      join thread 2: waits                                                t2 of t2\n 12   t2      #0.load(Relaxed) at MP+na+rlx+rlx.litmus:10                         t2 of t2\n      t2        reads store 1 (event 7): 1                                        l1 of l0 l1\n 13 ! t2      #1.get() at MP+na+rlx+rlx.litmus:12: race\n",
        "",
        1,
    ),
    // Several have a line each. One that isn't there stands in no other's way.
    (
        &["nowhere.litmus", "SB.litmus", "MP+na+rlx+rlx.litmus"],
        "SB Allowed: Ok, Sometimes 1 3, 4 states\nMP+na+rlx+rlx Allowed: No, Never 0 1, 1 state, race\n",
        "nowhere.litmus: No such file or directory (os error 2)\n",
        2,
    ),
    (
        &["--table", "SB.litmus", "MP+na+rlx+rlx.litmus"],
        "| Test | Asked | States | Observation | Answer |\n|---|---|---|---|---|\n| SB | Allowed | 4 | Sometimes 1 3 | Ok |\n| MP+na+rlx+rlx | Allowed | 1 | Never 0 1 | No, race |\n",
        "",
        1,
    ),
    (
        &["--json", "MP+na+rlx+rlx.litmus"],
        "{\"answer\":\"No\",\"cause\":\"MP+na+rlx+rlx.litmus:12: an access is not ordered after one that it conflicts with: let a lock, or a release and an acquire, come between the two\",\"choices\":\"t1 t1 t1 t0 t2 t2 l1\",\"condition\":\"exists (1:r0=1 /\\\\ 1:r1=0)\",\"file\":\"MP+na+rlx+rlx.litmus\",\"flag\":\"race\",\"met\":0,\"negative\":1,\"noted\":9,\"observation\":\"Never\",\"positive\":0,\"question\":\"Allowed\",\"result\":\"failed\",\"runs\":1,\"search\":\"cover\",\"states\":[{\"runs\":1,\"values\":{\"1:r0\":0,\"1:r1\":9}}],\"test\":\"MP+na+rlx+rlx\"}\n",
        "",
        1,
    ),
    // Choices make one run. Of other ones the first that doesn't fit is a failure.
    (
        &["--replay", "", "SB.litmus"],
        "ended: 0:r0=0; 1:r0=0;\n",
        "",
        0,
    ),
    (
        &["--replay", "t1 l0", "SB.litmus"],
        "Flag choices\nfailed: SB.litmus:5: the run does not fit the choices that it was given: take those of this body and of these settings\n",
        "",
        1,
    ),
    // Runs that are drawn. What they can't decide stays open.
    (
        &["--walk", "3", "5", "one.litmus"],
        "Test one Allowed\nStates 1\n[x]=1;\nWalked: 5 runs, and 0 that were cut by their length\nDifferent: 1\nThe states are those of these runs.\nOk\nWitnesses\nPositive: 5 Negative: 0\nThe counts are of runs that were drawn.\nCondition exists ([x]=1)\nObservation one Always 5 0\n",
        "",
        0,
    ),
    (
        &["--walk", "3", "0", "--walk-depth", "2", "SB.litmus"],
        "Test SB Allowed\nStates 0\nWalked: 0 runs, and 0 that were cut by their length\nDifferent: 0\nThe states are those of these runs.\nUndecided\nWitnesses\nPositive: 0 Negative: 0\nThe counts are of runs that were drawn.\nCondition exists (0:r0=0 /\\ 1:r0=0)\nObservation SB Never 0 0\n",
        "",
        1,
    ),
    (
        &["--walk", "3", "5", "--json", "SB.litmus"],
        "",
        "error: the argument '--walk <SEED> <RUNS>' cannot be used with '--json'\n\nUsage: loom_litmus [OPTIONS] FILE..\n\nFor more information, try '--help'.\n",
        2,
    ),
    // What is wrong is told by its cause.
    (
        &["wrong.litmus"],
        "",
        "wrong.litmus:3:50: expected an order such as memory_order_acquire\nP0 (atomic_int* x) { atomic_store_explicit(x, 1, release); }\n                                                 ^^^^^^^\n",
        2,
    ),
    (
        &["--replay", "q1", "SB.litmus"],
        "",
        "error: invalid value 'q1' for '--replay <CHOICES>': word 1 is no choice: a choice is `t0` to `t4` or `t-`, `l0` to `l6`, `s0` or `s1`, with a space between two\n\nFor more information, try '--help'.\n",
        2,
    ),
    (
        &["--max-steps", "0", "SB.litmus"],
        "",
        "SB.litmus: `max_steps` is 0: set it to 1 or more, as 1000000\n",
        2,
    ),
    (
        &["--json", "--table", "SB.litmus"],
        "",
        "error: the argument '--json' cannot be used with '--table'\n\nUsage: loom_litmus [OPTIONS] FILE..\n\nFor more information, try '--help'.\n",
        2,
    ),
    (
        &[],
        "",
        "error: the following required arguments were not provided:\n  <FILE>...\n\nUsage: loom_litmus [OPTIONS] FILE..\n\nFor more information, try '--help'.\n",
        2,
    ),
];

// The files that the words name. `nowhere.litmus` isn't there.
const FILES: [&str; 5] = [
    "SB.litmus",
    "MP+na+rlx+rlx.litmus",
    "one.litmus",
    "spin.litmus",
    "wrong.litmus",
];

const ONE: &str =
    "C one\n{ }\nP0 (atomic_int* x) { atomic_store_explicit(x, 1, memory_order_relaxed); }\nexists (x=1)\n";

// Nobody stores what the thread waits for.
const SPIN: &str =
    "C spin\n{ }\nP0 (atomic_int* x) {\n  while (atomic_load_explicit(x, memory_order_relaxed) == 0) { }\n}\nexists (x=0)\n";

const WRONG: &str =
    "C wrong\n{ }\nP0 (atomic_int* x) { atomic_store_explicit(x, 1, release); }\nexists (x=1)\n";

fn prints(rt: &(impl Abort + Host + Clock + Sync), call: &Call) {
    let (words, out, err, status) = *call;
    let mut printed: Vec<u8> = Vec::new(rt.alloc());
    let mut said: Vec<u8> = Vec::new(rt.alloc());
    let answer = run_words(rt, words, &mut printed, &mut said);
    let is_so = answer == status
        && printed.as_slice() == out.as_bytes()
        && said.as_slice() == err.as_bytes();
    assert!(rt; is_so, "{out}{err}");
}

fn write_files(rt: &HostRuntime) -> io::Result<()> {
    fs::write(rt, "one.litmus", ONE)?;
    fs::write(rt, "spin.litmus", SPIN)?;
    fs::write(rt, "wrong.litmus", WRONG)?;
    for (name, text) in &TEXTS {
        match *name {
            "SB" => fs::write(rt, "SB.litmus", *text)?,
            "MP+na+rlx+rlx" => fs::write(rt, "MP+na+rlx+rlx.litmus", *text)?,
            _ => {}
        }
    }
    Ok(())
}

fn remove_files(rt: &HostRuntime) -> io::Result<()> {
    for name in &FILES {
        fs::remove_file(rt, *name)?;
    }
    Ok(())
}

#[test]
fn words_print_answers(rt: HostRuntime) -> io::Result<()> {
    write_files(&rt)?;
    for call in &CALLS {
        prints(&rt, call);
    }
    remove_files(&rt)
}

#[test]
fn the_help_tells_of_workers(rt: HostRuntime) {
    let mut printed: Vec<u8> = Vec::new(rt.alloc());
    let mut said: Vec<u8> = Vec::new(rt.alloc());
    let status = run_words(&rt, &["--help"], &mut printed, &mut said);
    let help = str::from_utf8(printed.as_slice()).unwrap_or("");
    assert!(&rt; status == 0 && help.contains("--jobs <N>"));
}
