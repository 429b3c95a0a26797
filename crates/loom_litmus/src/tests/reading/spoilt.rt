//! Spoilt copies of the tests: each gives a test or an error with a name. What is read of one comes again when it is written, and a run
//! is made of it.
use crate::tests::finding::is_run;
use crate::tests::reading::numbers::Numbers;
use crate::tests::reading::texts::TEXTS;
use crate::tests::reading::written::is_written_so;
use loom_text::error::ReadError;
use loom_text::read::read;
use loom_text::test::Test;
use loom_text::write::write;
use std::alloc::{AllocError, Global};
use std::process::Abort;

// How often each test spoils a copy once, and that copy again: 20,000 copies in all.
const TIMES: u32 = 2_500;

// The text with a part cut out, doubled, moved to the front, or overwritten.
fn spoil(alloc: Global, text: &[u8], numbers: &mut Numbers) -> Result<Vec<u8>, AllocError> {
    let start = numbers.below(text.len());
    let length = numbers.below(40);
    let (before, after) = text.split_at(start.min(text.len()));
    let (part, after) = after.split_at(length.min(after.len()));
    let mut spoilt = Vec::new(alloc);
    match numbers.below(4) {
        0 => {
            spoilt.extend_from_slice(before)?;
            spoilt.extend_from_slice(after)?;
        }
        1 => {
            spoilt.extend_from_slice(before)?;
            spoilt.extend_from_slice(part)?;
            spoilt.extend_from_slice(part)?;
            spoilt.extend_from_slice(after)?;
        }
        2 => {
            spoilt.extend_from_slice(part)?;
            spoilt.extend_from_slice(before)?;
            spoilt.extend_from_slice(after)?;
        }
        _ => {
            spoilt.extend_from_slice(before)?;
            for _ in part {
                spoilt.push(u8::try_from(numbers.below(256)).unwrap_or(0))?;
            }
            spoilt.extend_from_slice(after)?;
        }
    }
    Ok(spoilt)
}

// Whether the test comes again when it is written, and is run.
fn comes_again(alloc: Global, test: &Test) -> bool {
    match write(alloc, test) {
        Ok(first) => is_written_so(alloc, first.as_str()) && is_run(alloc, test),
        Err(_) => false,
    }
}

// Whether the bytes are refused with a name, or are those of a test that comes again and is run.
fn is_answered(alloc: Global, text: &[u8]) -> bool {
    match read(alloc, text) {
        Err(ReadError::Wrong(mistake)) => {
            mistake.place.line >= 1 && mistake.place.column >= 1 && mistake.place.end <= text.len()
        }
        Err(ReadError::Memory) => false,
        Ok(test) => comes_again(alloc, &test),
    }
}

// A text of the list, by a number.
fn one_of(number: usize) -> &'static str {
    match TEXTS.get(number % TEXTS.len()) {
        Some(text) => text.1,
        None => "",
    }
}

// Copies that begin with this number are answered.
fn are_answered(rt: &(impl Abort + AllocGlobal), seed: u32) -> Result<(), AllocError> {
    let mut numbers = Numbers(seed);
    for _ in 0..TIMES {
        let text = one_of(numbers.below(TEXTS.len())).as_bytes();
        let once = spoil(rt.alloc(), text, &mut numbers)?;
        assert!(rt; is_answered(rt.alloc(), &once), "spoilt once");
        let twice = spoil(rt.alloc(), &once, &mut numbers)?;
        assert!(rt; is_answered(rt.alloc(), &twice), "spoilt twice");
    }
    Ok(())
}

#[test]
fn spoilt_copies_are_answered(rt: HostRuntime) -> Result<(), AllocError> {
    are_answered(&rt, 2_463_534_242)
}

#[test]
fn more_spoilt_copies_are_answered(rt: HostRuntime) -> Result<(), AllocError> {
    are_answered(&rt, 1_234_567)
}

#[test]
fn spoilt_copies_are_answered_again(rt: HostRuntime) -> Result<(), AllocError> {
    are_answered(&rt, 987_654_321)
}

#[test]
fn more_spoilt_copies_are_answered_again(rt: HostRuntime) -> Result<(), AllocError> {
    are_answered(&rt, 5)
}
