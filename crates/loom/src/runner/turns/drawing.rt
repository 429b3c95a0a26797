//! What draws the choices of a run of a closure as it reaches them (own).
use crate::model::drawer::Drawer;
use crate::model::follower::Follower;
use loom_engine::rt::path::drawing::Chooser;
use loom_objects::rt::schedule::Offers;
use loom_views::rt::MAX_ATOMIC_HISTORY;

/// Draws them as a walk does, or follows those of another run with one change.
#[derive(Drop)]
pub(crate) enum Drawing {
    Walk(Drawer),
    Change(Follower),
}

impl Chooser for Drawing {
    fn thread(&mut self, offers: &Offers) -> Option<u8> {
        match self {
            Drawing::Walk(drawer) => drawer.thread(offers),
            Drawing::Change(follower) => follower.thread(offers),
        }
    }

    fn slot(&mut self, readable: &[bool; MAX_ATOMIC_HISTORY]) -> u8 {
        match self {
            Drawing::Walk(drawer) => drawer.slot(readable),
            Drawing::Change(follower) => follower.slot(readable),
        }
    }

    fn is_spurious(&mut self) -> bool {
        match self {
            Drawing::Walk(drawer) => drawer.is_spurious(),
            Drawing::Change(follower) => follower.is_spurious(),
        }
    }
}
