//! Tests of loom's own by closures, under their names: a check of each finds what loom finds, and what the row of the same name finds,
//! in as many runs and under the same choices. Objects that only share memory in loom's tests make no operation. Two of loom's tests
//! are in `turns`.
mod busy;
mod cells;
mod children;
mod integers;
mod orders;
mod others;
mod threads;

use crate::asserting::holds;
use crate::closures::finding::{Main, Wanted, find};
use loom::model::builder::Builder;
use loom::runner::{Handle, Host, Stop};
use std::process::Abort;
use std::test::Fail;

/// What main does.
#[derive(Clone, Copy)]
pub(crate) enum Scene {
    Cells(cells::Scene),
    Integers(integers::Function),
    Orders(orders::Scene),
    Others(others::Scene),
    Threads(threads::Scene),
}

impl Scene {
    pub(super) fn play<R: Host>(self, handle: &mut Handle<u64, R>) -> Result<u64, Stop> {
        match self {
            Scene::Cells(scene) => scene.play(handle),
            Scene::Integers(function) => function.play_on_each(handle),
            Scene::Orders(scene) => scene.play(handle),
            Scene::Others(scene) => scene.play(handle),
            Scene::Threads(scene) => scene.play(handle),
        }
    }
}

/// A test: its name in loom, what main does, and what its check finds.
struct Test {
    name: &'static str,
    scene: Scene,
    wanted: Wanted<'static>,
}

/// A check of the test by these settings finds what is wanted, and main ends with each of these values in some run.
fn comes_to_each<R: Abort + Host>(
    rt: &R,
    builder: &Builder,
    test: &Test,
    values: &[u64],
) -> Result<(), Fail> {
    let found = find(rt, builder, Main::Carried(test.scene))?;
    holds(rt, found.comes_to(test.wanted), test.name);
    for value in values {
        holds(rt, found.has_value(*value), test.name);
    }
    Ok(())
}

/// A check of the test by the defaults finds what is wanted.
fn is_found<R: Abort + Host>(rt: &R, test: &Test) -> Result<(), Fail> {
    comes_to_each(rt, &Builder::new(), test, &[])
}

fn are_found<R: Abort + Host>(rt: &R, tests: &'static [Test]) -> Result<(), Fail> {
    for test in tests {
        is_found(rt, test)?;
    }
    Ok(())
}
