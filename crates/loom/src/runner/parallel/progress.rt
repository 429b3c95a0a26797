//! How far a search in parts has come.
use crate::model::progress::{WHOLE, share_above};
use crate::runner::last_run::shared_choices;
use loom_engine::rt::parts::Parts;
use loom_objects::choice::Choice;

/// Which share of a search is done where these parts are left of it, estimated as that of a path.
pub(crate) fn share_done(parts: &Parts) -> u64 {
    let mut left = 0u64;
    for part in &parts.list {
        let share = share_of(parts, &part.base);
        let done = share_above(&part.path, part.base.len(), share);
        left = left.saturating_add(share.saturating_sub(done));
    }
    WHOLE.saturating_sub(left)
}

/// Which share of a search the runs are that begin with these choices.
fn share_of(parts: &Parts, base: &[Choice]) -> u64 {
    let mut share = WHOLE;
    for place in 0..base.len() {
        share /= handed_out(parts, base, place).max(1);
    }
    share
}

/// How many options of the node at this place behind these choices were handed out.
fn handed_out(parts: &Parts, base: &[Choice], place: usize) -> u64 {
    let mut count = 0u64;
    for key in &parts.trunk {
        if key.len().checked_sub(1) == Some(place) && shared_choices(key, base) >= place {
            count = count.saturating_add(1);
        }
    }
    count
}
