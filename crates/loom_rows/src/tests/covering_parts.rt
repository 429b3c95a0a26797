//! Covering checks by parts, each alone and by several workers, find what a covering check finds, and their texts are their own.
use super::checking::{Keeper, found_by};
use super::covering::{MOST, are_values_same, is_cut, is_failing, is_replayed};
use super::parts::ONE_RUN;
use super::workers::Keepers;
use super::{bodies, searches, shared};
use crate::tests::asserting::{holds, script};
use loom::model::builder::Builder;
use loom::model::cover::Covered;
use loom::model::cover::part::PartCovered;
use loom::model::cover::part_texts::{part_to_text, parts_to_text};
use loom::model::error::CheckError;
use loom::runner::{Apart, Workers, cover_parallel};
use loom::{Body, NoClock};
use loom_engine::rt::parts::Parts;
use loom_engine::rt::states::States;
use loom_examples::measured::{all_bodies, body_of};
use loom_examples::rows::settings::{Builds, Settings};
use loom_examples::rows::{Checked, Row, WHOLE};
use loom_examples::scripts::script::Script;
use loom_plain::search::Found;
use loom_views::same::Same;
use std::alloc::Global;
use std::process::Abort;
use std::rt::Clock;
use std::sync::Wait;
use std::thread::Threads;

// How many states are remembered of a whole check. Some of these searches meet more, and then find the same.
const MOST_REMEMBERED: usize = 64;

// What so many workers find, each of which makes one run at a time.
fn find<R: Threads + Wait + Clock + Sync, B: Body<Data = u64> + Same + Apart + Send + Sync>(
    rt: &R,
    alloc: Global,
    builder: &Builder,
    body: &B,
    count: usize,
    keepers: &mut Keepers,
) -> Result<Covered, CheckError> {
    let workers = Workers {
        count,
        slice: ONE_RUN,
    };
    let mut states = States::new(alloc, MOST_REMEMBERED, body.never_switches())?;
    let mut parts = builder.cover_parts(alloc)?;
    let log = None::<HostRuntime>;
    cover_parallel(
        rt,
        alloc,
        builder,
        body,
        workers,
        &mut states,
        &mut parts,
        keepers,
        &mut NoClock,
        &log,
    )
}

// Whether so many workers find main's results in these runs, or fail as the whole search does.
fn is_as_whole<R: Threads + Wait + Clock + Sync, B: Body<Data = u64> + Same + Apart + Send + Sync>(
    rt: &R,
    alloc: Global,
    settings: Settings,
    body: &B,
    found: &[Found],
    count: usize,
) -> bool {
    let mut keepers = Keepers::new(alloc);
    match find(rt, alloc, &settings.builder(), body, count, &mut keepers) {
        Ok(Covered::Complete { runs, .. }) => {
            is_cut(found)
                || !is_failing(found)
                    && runs == keepers.found.len() as u64
                    && are_values_same(alloc, found, keepers.found.as_slice())
        }
        Ok(
            Covered::Failed {
                failure,
                choices,
                ..
            },
        ) => {
            is_failing(found)
                && is_replayed(alloc, settings, body, failure.kind, choices.as_slice())
        }
        Ok(Covered::Livelock { .. } | Covered::Stopped { .. }) | Err(_) => false,
    }
}

// Whether one, two and seven workers do so, or the whole search has too many runs.
fn is_covered<R: Threads + Wait + Clock + Sync>(
    rt: &R,
    alloc: Global,
    settings: Settings,
    body: &Script,
) -> bool {
    let whole = Settings {
        reduce: false,
        preemption_bound: None,
        max_permutations: Some(MOST),
        ..settings
    };
    let unlimited = Settings {
        max_permutations: None,
        ..whole
    };
    let keeper = found_by(alloc, whole, body);
    let found = keeper.found.as_slice();
    !keeper.is_counted
        || is_as_whole(rt, alloc, unlimited, body, found, 1)
            && is_as_whole(rt, alloc, unlimited, body, found, 2)
            && is_as_whole(rt, alloc, unlimited, body, found, 7)
}

fn cover_rows<R: Abort + AllocGlobal + Threads + Wait + Clock + Sync>(rt: &R, rows: &[Row]) {
    for row in rows {
        if let Checked::Script(steps) = row.checked {
            let body = script(rt, steps);
            holds(
                rt,
                is_covered(rt, rt.alloc(), row.settings, &body),
                row.name,
            );
        }
    }
}

#[test]
fn workers_cover_what_a_whole_search_finds(rt: HostRuntime) {
    cover_rows(&rt, bodies::atomic_rows());
    cover_rows(&rt, bodies::lock_rows());
    cover_rows(&rt, searches::rows());
    cover_rows(&rt, shared::channel_rows());
    cover_rows(&rt, shared::value_rows());
}

// So many parts there are to be at least, while there are as many.
const WANTED: usize = 5;

// Cuts the first part until there are as many as are wanted, or it can't be cut.
fn cut_parts(alloc: Global, parts: &mut Parts) -> Result<(), CheckError> {
    for _ in parts.len()..WANTED {
        if !parts.cut(alloc, 0)? {
            return Ok(());
        }
    }
    Ok(())
}

// Makes a run at a time of the first part, with a table that lasts for it alone, and cuts parts. Each part and the list go through their
// texts each time. Answers whether no run fails.
fn make_all<B: Body<Data = u64> + Same>(
    alloc: Global,
    builder: &Builder,
    body: &B,
    keeper: &mut Keeper,
    most: usize,
) -> Result<bool, CheckError> {
    let mut parts = builder.cover_parts(alloc)?;
    let mut given_up = 0;
    for _ in 0..most {
        if parts.is_over() {
            return Ok(true);
        }
        let text = parts_to_text(alloc, &parts, given_up)?;
        (parts, given_up) = builder.cover_parts_from(alloc, text.as_str().as_bytes())?;
        match make_one(alloc, builder, body, keeper, &mut parts)? {
            Some(met) => given_up = given_up.saturating_add(met),
            None => return Ok(false),
        }
        cut_parts(alloc, &mut parts)?;
    }
    Ok(false)
}

// A run of the first part. Answers how many were given up, or nothing where it fails.
fn make_one<B: Body<Data = u64> + Same>(
    alloc: Global,
    builder: &Builder,
    body: &B,
    keeper: &mut Keeper,
    parts: &mut Parts,
) -> Result<Option<u64>, CheckError> {
    let Some(part) = parts.take(alloc, 0)? else {
        return Ok(None);
    };
    let text = part_to_text(alloc, &part, 0)?;
    let (mut part, _) = builder.cover_part_from(alloc, text.as_str().as_bytes())?;
    let known = States::none(alloc, body.never_switches());
    let mut states = States::new(alloc, MOST_REMEMBERED, body.never_switches())?;
    let clock = &mut NoClock;
    match builder.cover_part(
        alloc,
        body,
        &mut part,
        ONE_RUN,
        &known,
        &mut states,
        keeper,
        clock,
    )? {
        PartCovered::Made { met, .. } => {
            parts.give_back(alloc, part)?;
            Ok(Some(met))
        }
        PartCovered::Failed { .. } => Ok(None),
    }
}

#[test]
fn parts_go_through_their_texts(rt: HostRuntime) {
    let alloc = rt.alloc();
    let bodies = all_bodies(alloc).expect(&rt, "no memory for the bodies");
    for name in &["store_buffering", "writers_beside_a_reader"] {
        if let Some(measured) = body_of(bodies.as_slice(), *name) {
            let body = script(&rt, measured.steps);
            let whole = found_by(alloc, WHOLE, &body);
            let mut keeper = Keeper::new(alloc);
            let most = MOST + whole.found.len();
            let made = make_all(alloc, &WHOLE.builder(), &body, &mut keeper, most);
            let is_so = made.is_ok_and(|all| all)
                && are_values_same(alloc, whole.found.as_slice(), keeper.found.as_slice());
            holds(&rt, is_so, *name);
        }
    }
}

fn is_wrong_shape<T: Drop>(read: Result<T, CheckError>) -> bool {
    matches!(read, Err(CheckError::WrongShape))
}

// Whether each kind of check refuses the other one's texts, as of a wrong shape, and takes its own.
fn are_apart(alloc: Global, builder: &Builder) -> Result<bool, CheckError> {
    let plain = builder.parts(alloc)?;
    let covering = builder.cover_parts(alloc)?;
    let text = plain.to_text(alloc)?;
    let other = parts_to_text(alloc, &covering, 3)?;
    let plain_refuses = is_wrong_shape(builder.parts_from(alloc, other.as_str().as_bytes()));
    let covering_refuses = is_wrong_shape(builder.cover_parts_from(
        alloc,
        text.as_str().as_bytes(),
    ));
    let (_, met) = builder.cover_parts_from(alloc, other.as_str().as_bytes())?;
    Ok(plain_refuses && covering_refuses && met == 3)
}

#[test]
fn lists_of_covering_checks_are_their_own(rt: HostRuntime) {
    let are = are_apart(rt.alloc(), &WHOLE.builder());
    holds(&rt, are.is_ok_and(|are| are), "lists");
}
