//! The states of bodies are compared, for checks that remember states.
ghost use Rattle.std.specs.Prelude.{◌≡◌, IsTrue};

use crate::bodies::guide::{Awaits, Counter};
use crate::bodies::spin::{self, Spin};
use crate::bodies::updates::{self, Updater};
use crate::scripts::comparing::is_order_same;
use loom::sync::atomic::FetchUpdate;
use loom_views::is_kind;
use loom_views::same::Same;

impl Same for Counter {
    fn is_same(&self, other: &Counter) -> bool {
        self.fewer_than == other.fewer_than && self.awaits.is_same(&other.awaits)
    }
}

impl Same for Awaits {
    fn is_same(&self, other: &Awaits) -> bool {
        match *self {
            Awaits::Main => matches!(*other, Awaits::Main),
            Awaits::TheMutex => matches!(*other, Awaits::TheMutex),
            Awaits::TheLock => matches!(*other, Awaits::TheLock),
            Awaits::Nothing => matches!(*other, Awaits::Nothing),
            Awaits::Counting(a) => is_kind!(*other, Awaits::Counting(x) => a.number == x.number),
            Awaits::Leaving(a, b) => is_kind!(*other, Awaits::Leaving(x, y) => a == x && b == y),
        }
    }
}

impl Same for Updater {
    fn is_same(&self, other: &Updater) -> bool {
        self.one == other.one && self.other == other.other && self.awaits.is_same(&other.awaits)
    }
}

impl Same for updates::Awaits {
    fn is_same(&self, other: &updates::Awaits) -> bool {
        match *self {
            updates::Awaits::Main => matches!(*other, updates::Awaits::Main),
            updates::Awaits::TheAtomic => matches!(*other, updates::Awaits::TheAtomic),
            updates::Awaits::First(a) =>
                is_kind!(*other, updates::Awaits::First(x) => is_update_same(a, x)),
            updates::Awaits::Second(a) =>
                is_kind!(*other, updates::Awaits::Second(x) => is_update_same(a, x)),
            updates::Awaits::TheNumber => matches!(*other, updates::Awaits::TheNumber),
            updates::Awaits::Finished => matches!(*other, updates::Awaits::Finished),
            updates::Awaits::Exited => matches!(*other, updates::Awaits::Exited),
            updates::Awaits::Nothing => matches!(*other, updates::Awaits::Nothing),
        }
    }
}

fn is_update_same(one: FetchUpdate<u64>, other: FetchUpdate<u64>) -> bool
    ensures { IsTrue result → one ≡ other }
{
    one.atomic.number == other.atomic.number
        && is_order_same(one.set_order, other.set_order)
        && is_order_same(one.fetch_order, other.fetch_order)
}

impl Same for Spin {
    fn is_same(&self, other: &Spin) -> bool {
        is_order_same(self.release, other.release) && self.awaits.is_same(&other.awaits)
    }
}

impl Same for spin::Awaits {
    fn is_same(&self, other: &spin::Awaits) -> bool {
        match *self {
            spin::Awaits::Main => matches!(*other, spin::Awaits::Main),
            spin::Awaits::TheFlag => matches!(*other, spin::Awaits::TheFlag),
            spin::Awaits::TheCell(a) =>
                is_kind!(*other, spin::Awaits::TheCell(x) => a.number == x.number),
            spin::Awaits::Trying(a, b) =>
                is_kind!(*other, spin::Awaits::Trying(x, y) => a.number == x.number && b.number == y.number),
            spin::Awaits::TheLock(a, b) =>
                is_kind!(*other, spin::Awaits::TheLock(x, y) => a.number == x.number && b.number == y.number),
            spin::Awaits::TheNumber(a) =>
                is_kind!(*other, spin::Awaits::TheNumber(x) => a.number == x.number),
            spin::Awaits::Written(a) =>
                is_kind!(*other, spin::Awaits::Written(x) => a.number == x.number),
            spin::Awaits::Leaving(a) => is_kind!(*other, spin::Awaits::Leaving(x) => a == x),
        }
    }
}
