//! A file of which each call fails in turn: what a save, a load and a check answer, and what the file has then.
use super::folder::{Folder, InFolder, NAME};
use super::{NAMES, lock_beside};
use crate::tests::asserting::{holds, script};
use loom::model::error::CheckError;
use loom::{CheckpointStore, FileStore, StoreError};
use loom_examples::rows::WHOLE;
use loom_examples::rows::settings::Builds;
use std::process::Abort;

const OLD: &str = "the text that the file has, and that a load gives";

const NEW: &str = "another text, which is written in pieces";

// How many calls are tried at most.
const CALLS: u64 = 199;

// Saves the new text. Where a call has failed the answer is a fault that was counted, and the file has what it had; else it has
// the new text. After one fault alone nothing is left beside it.
fn saves(rt: &(impl Abort + AllocGlobal), folder: &Folder, old: Option<&str>, fails_on: bool) {
    let files = InFolder(folder);
    let mut store = FileStore::new(&files, rt.alloc(), NAME);
    let answer = store.save(NEW);
    if folder.has_failed() {
        let is_fault = answer == Err(StoreError::Fault) && store.faults() == 1;
        holds(rt, is_fault, "a save answers a fault, which is counted");
        holds(rt, folder.has(old), "the file has what it had");
    } else {
        let is_saved = answer.is_ok() && store.faults() == 0;
        holds(rt, is_saved, "a save succeeds without a fault");
        holds(rt, folder.has(Some(NEW)), "the file has the new text");
    }
    let is_tidy = fails_on || folder.is_tidy();
    holds(rt, is_tidy, "nothing is left beside the file");
}

// Whether a call of a save has failed.
fn a_save_fails(
    rt: &(impl Abort + AllocGlobal),
    old: Option<&str>,
    fails_at: u64,
    fails_on: bool,
) -> bool {
    let folder = Folder::new(rt.alloc(), old, fails_at, fails_on);
    saves(rt, &folder, old, fails_on);
    folder.has_failed()
}

// How many of its calls failed in turn, before it was made without a fault.
fn save_calls(rt: &(impl Abort + AllocGlobal), old: Option<&str>, fails_on: bool) -> u64 {
    for fails_at in 1..CALLS {
        if !a_save_fails(rt, old, fails_at, fails_on) {
            return fails_at - 1;
        }
    }
    CALLS
}

// The file beside is made, the text written in three pieces and brought to the disk, and the file renamed.
fn saves_keep_the_file(rt: &(impl Abort + AllocGlobal), fails_on: bool) {
    for old in [Some(OLD), None] {
        let calls = save_calls(rt, old, fails_on);
        holds(rt, calls == 6, "a save makes six calls");
    }
}

#[test]
fn a_failing_save_keeps_the_file(rt: HostRuntime) {
    saves_keep_the_file(&rt, false);
    saves_keep_the_file(&rt, true);
}

// Loads the text. Where a call has failed the answer is a fault that was counted, else it is the text. The file has it anyway.
fn loads(rt: &(impl Abort + AllocGlobal), folder: &Folder, text: Option<&str>) {
    let files = InFolder(folder);
    let mut store = FileStore::new(&files, rt.alloc(), NAME);
    match store.load(rt.alloc()) {
        Ok(loaded) => {
            let is_so = has_text(&loaded, text) && !folder.has_failed();
            holds(rt, is_so, "the file's text is loaded");
        }
        Err(error) => {
            let is_fault = error == StoreError::Fault && folder.has_failed();
            holds(rt, is_fault, "a load answers a fault");
            holds(rt, store.faults() == 1, "the fault is counted");
        }
    }
    holds(rt, folder.has(text), "the file has what it had");
}

// Whether the bytes are just this text, or both are missing.
pub(super) fn has_text(bytes: &Option<Vec<u8>>, text: Option<&str>) -> bool {
    match (bytes, text) {
        (Some(bytes), Some(text)) => bytes.as_slice() == text.as_bytes(),
        (None, None) => true,
        (Some(_), None) | (None, Some(_)) => false,
    }
}

// Whether a call of a load has failed.
fn a_load_fails(rt: &(impl Abort + AllocGlobal), text: Option<&str>, fails_at: u64) -> bool {
    let folder = Folder::new(rt.alloc(), text, fails_at, false);
    loads(rt, &folder, text);
    folder.has_failed()
}

// How many of its calls failed in turn, before it was made without a fault.
fn load_calls(rt: &(impl Abort + AllocGlobal), text: Option<&str>) -> u64 {
    for fails_at in 1..CALLS {
        if !a_load_fails(rt, text, fails_at) {
            return fails_at - 1;
        }
    }
    CALLS
}

// The file is opened, and read in four pieces up to its end; one that is missing is only looked for.
#[test]
fn a_failing_load_keeps_the_file(rt: HostRuntime) {
    let calls = load_calls(&rt, Some(OLD));
    holds(&rt, calls == 6, "a load makes six calls");
    let calls = load_calls(&rt, None);
    holds(&rt, calls == 1, "a load of no file makes one call");
}

// Checks lock_beside, and saves each run in the file. Where a call has failed the answer is error 13, else the check is complete.
fn checks(rt: &(impl Abort + AllocGlobal), folder: &Folder) {
    let mut builder = WHOLE.builder();
    builder.checkpoint_interval = 1;
    let is_named = builder.checkpoint_file(rt.alloc(), NAME).is_ok();
    let found = builder.check(&InFolder(folder), rt.alloc(), &script(rt, lock_beside()));
    let is_so = match found {
        Ok(_) => !folder.has_failed(),
        Err(error) => error == CheckError::Store && folder.has_failed(),
    };
    holds(rt, is_named && is_so, "error 13 comes where a call failed");
}

// Whether the file has the text of a path that the check reaches, or is missing still.
fn is_whole(folder: &Folder) -> bool {
    for (text, _) in &NAMES {
        if folder.has(Some(*text)) {
            return true;
        }
    }
    folder.has(None)
}

// Whether a call of a check has failed.
fn a_check_fails(rt: &(impl Abort + AllocGlobal), fails_at: u64) -> bool {
    let folder = Folder::new(rt.alloc(), None, fails_at, false);
    checks(rt, &folder);
    holds(rt, is_whole(&folder), "the file has a whole text");
    holds(rt, folder.is_tidy(), "nothing is left beside the file");
    folder.has_failed()
}

// How many of its calls failed in turn, before it was made without a fault.
fn check_calls(rt: &(impl Abort + AllocGlobal)) -> u64 {
    for fails_at in 1..CALLS {
        if !a_check_fails(rt, fails_at) {
            return fails_at - 1;
        }
    }
    CALLS
}

#[test]
fn a_failing_file_ends_a_check(rt: HostRuntime) {
    let calls = check_calls(&rt);
    // The file is looked for. Three texts are written in pieces, and each takes three calls more.
    holds(&rt, calls == 46, "each call of a check has failed");
}
