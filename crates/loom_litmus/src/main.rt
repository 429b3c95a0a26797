//! The program: it reads litmus tests in herd's C from the files that its words name, makes their runs, and prints what herd7 would.
//! All that it does is in `loom_text`.
#![tactic(auto)]

#[cfg(test)]
mod tests;

use loom::runner::Host;
use loom_text::words::run_words;
use std::env;
use std::io::{self, Write};
use std::process::ExitCode;
use std::rt::{Clock, Env};

fn main(rt: HostRuntime) -> ExitCode {
    let status = run(&rt, &mut rt.stdout(), &mut rt.stderr());
    ExitCode::from(status.unwrap_or(2))
}

fn run<R: Host + Clock + Env + Sync, O: Write, E: Write>(
    rt: &R,
    out: &mut O,
    err: &mut E,
) -> io::Result<u8> {
    let words = env::args(rt)?.skip(1).collect::<Vec<_>>(rt.alloc())?;
    let words = words
        .iter()
        .map(|word| word.as_str())
        .collect::<Vec<_>>(rt.alloc())?;
    Ok(run_words(rt, words.as_slice(), out, err))
}
