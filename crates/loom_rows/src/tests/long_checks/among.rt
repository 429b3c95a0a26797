//! A check among files that are handed in: the named one is read and written, each other stays as it was, and without a name all do.
ghost use Rattle.loom.specs.Model.Stores.{Counts};

use super::failing_files::has_text;
use super::{ONE_NODE, TWO_NODES, lock_beside, put_found};
use crate::tests::asserting::{holds, script};
use loom::StoreError;
use loom::checkpoint::files::TextFiles;
use loom_examples::rows::WHOLE;
use loom_examples::rows::settings::{Builds, Settings};
use loom_tests::page::Page;
use std::alloc::Global;
use std::process::Abort;

const NAMED: &str = "search.json";

const BESIDE: &str = "search.json.new";

// What the other file holds: a text that is no path.
const OTHER: &str = "the other file's text";

const ONE_RUN: Settings = Settings {
    max_permutations: Some(1),
    ..WHOLE
};

// A file's text, if the file is there.
type Sheet = Option<Vec<u8>>;

// A drawer of three files: the one that a check names, the one beside it, and another one. A full one takes no text.
#[derive(Drop)]
struct Drawer {
    alloc: Global,
    named: Sheet,
    beside: Sheet,
    other: Sheet,
    is_full: bool,
    faults: u64,
}

impl Drawer {
    // One in which the named file has this text, if any.
    fn holding(alloc: Global, text: Option<&str>) -> Drawer {
        Drawer {
            alloc,
            named: text.and_then(|text| Vec::from_slice(alloc, text.as_bytes()).ok()),
            beside: None,
            other: Vec::from_slice(alloc, OTHER.as_bytes()).ok(),
            is_full: false,
            faults: 0,
        }
    }

    // Counts a fault, where it is full.
    fn call(&mut self) -> Result<(), StoreError>
        ensures { Counts result self.old.faults self.new.faults }
    {
        if self.is_full {
            self.faults = self.faults.saturating_add(1);
            return Err(StoreError::Fault);
        }
        Ok(())
    }

    // Whether the named file has just this text, nothing is beside it, and the other file has its own.
    fn has(&self, text: Option<&str>) -> bool {
        has_text(&self.named, text) && self.beside.is_none() && has_text(&self.other, Some(OTHER))
    }
}

impl TextFiles for Drawer {
    ghost holds = { λ _ _ _. Unit {0} };

    ghost fault_count = { λ drawer. drawer.faults };

    fn read(&mut self, alloc: Global, name: &str) -> Result<Option<Vec<u8>>, StoreError> {
        let sheet = match name {
            NAMED => &self.named,
            BESIDE => &self.beside,
            _ => &self.other,
        };
        let Some(bytes) = sheet else {
            return Ok(None);
        };
        match Vec::from_slice(alloc, bytes.as_slice()) {
            Ok(bytes) => Ok(Some(bytes)),
            Err(_) => Err(StoreError::Memory),
        }
    }

    fn write(&mut self, name: &str, text: &str) -> Result<(), StoreError> {
        self.call()?;
        let Ok(bytes) = Vec::from_slice(self.alloc, text.as_bytes()) else {
            return Err(StoreError::Memory);
        };
        match name {
            NAMED => self.named = Some(bytes),
            BESIDE => self.beside = Some(bytes),
            _ => self.other = Some(bytes),
        }
        Ok(())
    }

    fn rename(&mut self, from: &str, to: &str) -> Result<(), StoreError> {
        let is_save = from == BESIDE && to == NAMED;
        self.is_full = self.is_full || !is_save;
        self.call()?;
        self.named = self.beside.take();
        Ok(())
    }

    fn remove(&mut self, name: &str) {
        if name == BESIDE {
            self.beside = None;
        }
    }

    fn faults(&self) -> u64 {
        self.faults
    }
}

// A check of lock_beside that makes one run gives this line, where this file is named, if one is. The drawer as it is then.
fn check_among(
    rt: &(impl Abort + AllocGlobal),
    name: Option<&str>,
    drawer: Drawer,
    line: &str,
) -> Drawer {
    let mut builder = ONE_RUN.builder();
    if let Some(name) = name {
        let named = builder.checkpoint_file(rt.alloc(), name);
        holds(rt, named.is_ok(), "no memory for a file's name");
    }
    let (found, drawer) = builder.check_among(rt.alloc(), &script(rt, lock_beside()), drawer);
    let mut page = Page::new(rt.alloc());
    put_found(&found, &mut page);
    holds(rt, page.text.as_str().starts_with(line), line);
    drawer
}

#[test]
fn the_named_file_is_one_of_those_handed_in(rt: HostRuntime) {
    let drawer = Drawer::holding(rt.alloc(), None);
    let drawer = check_among(&rt, Some(NAMED), drawer, "stopped 1\n");
    holds(&rt, drawer.has(Some(ONE_NODE)), "the first run is saved");
    let drawer = check_among(&rt, Some(NAMED), drawer, "stopped 1\n");
    holds(&rt, drawer.has(Some(TWO_NODES)), "the second run is saved");
}

#[test]
fn without_a_name_the_files_stay(rt: HostRuntime) {
    let drawer = Drawer::holding(rt.alloc(), Some(TWO_NODES));
    let drawer = check_among(&rt, None, drawer, "stopped 1\n");
    holds(
        &rt,
        drawer.has(Some(TWO_NODES)),
        "the files are as they were",
    );
}

#[test]
fn files_that_take_no_text_end_the_check(rt: HostRuntime) {
    let mut drawer = Drawer::holding(rt.alloc(), Some(ONE_NODE));
    drawer.is_full = true;
    let drawer = check_among(&rt, Some(NAMED), drawer, "error 13");
    holds(&rt, drawer.faults == 1, "the fault is counted");
    holds(&rt, drawer.has(Some(ONE_NODE)), "the file has what it had");
}
