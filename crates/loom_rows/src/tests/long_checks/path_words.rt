//! Paths as words.
ghost use Rattle.std.specs.Prelude.{◌<◌};
ghost use Rattle.loom_engine.specs.Path.WellFormed.{IsWellFormed};

use super::{Shelf, check, lock_beside};
use crate::tests::asserting::holds;
use loom_engine::rt::path::checkpoint::text::from_text;
use loom_engine::rt::path::node::{Load, Node, Spurious};
use loom_engine::rt::path::{Path, Search};
use loom_examples::rows::TWO_RUNS;
use loom_examples::rows::settings::Builds;
use loom_tests::page::Page;
use std::process::Abort;

const SEARCH: Search = Search {
    reduce: false,
    bound: None,
    max_branches: 1000,
    explores: true,
};

// A load that explores, of slots 0 and 1.
fn load_at(position: u8) -> Node
    requires { position < 2 }
    ensures { IsWellFormed result }
{
    Node::Load(Load {
        exploring: true,
        readable: [true, true, false, false, false, false, false],
        position,
    })
}

// The path of this node alone is this word.
fn is_word(rt: &(impl Abort + AllocGlobal), node: Node, word: u64, name: &str)
    requires { IsWellFormed node }
{
    match &Path::from_nodes(rt.alloc(), SEARCH, &[node]) {
        Ok(path) => holds(rt, path.words() == [word].as_slice(), name),
        Err(_) => holds(rt, false, "no memory for a path"),
    }
}

// The path after two runs of `lock_beside`.
fn two_nodes_are_words(rt: &(impl Abort + AllocGlobal)) {
    let mut page = Page::new(rt.alloc());
    let mut shelf = Shelf::new(rt.alloc(), 0);
    check(
        rt,
        &TWO_RUNS.builder(),
        lock_beside(),
        &mut page,
        &mut shelf,
    );
    match &from_text(rt.alloc(), shelf.held(), SEARCH) {
        Ok(path) => {
            let is_so = path.words() == [2372, 4_294_970_124].as_slice();
            holds(rt, is_so, "the words of two schedules");
        }
        Err(_) => holds(rt, false, "the text of a path"),
    }
}

#[test]
fn path_words(rt: HostRuntime) {
    two_nodes_are_words(&rt);
    is_word(&rt, load_at(0), 29, "a load at position 0");
    is_word(&rt, load_at(1), 1053, "a load at position 1");
    let wakes = Node::Spurious(Spurious {
        exploring: true,
        answer: true,
    });
    is_word(&rt, wakes, 14, "a spurious wake-up");
}
