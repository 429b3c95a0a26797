//! Loom's `tests/atomic_int.rs`: read-modify-writes of each type of integers.
use crate::closures::carried::{Scene, Test, are_found};
use crate::closures::finding::Wanted::Complete;
use loom::runner::{Handle, Stop};
use loom::sync::atomic::Ordering::SeqCst;
use loom::sync::atomic::{Atomic, Integer};
use std::sync::Wait;
use std::test::Fail;

// The numbers of loom's tests, of which a type takes the lowest bits.
const NUM_A: u64 = 11641914933775430211;

const NUM_B: u64 = 13209405719799650717;

/// What main does with an atomic of the first number, by the second one.
#[derive(Clone, Copy)]
pub(crate) enum Function {
    Xor,
    Max,
    Min,
    CompareExchange,
    CompareExchangeWeak,
    FetchUpdate,
}

/// What was there before is as it should be, and this is to be there then.
type Change<T> = (bool, T);

impl Function {
    /// Does it to an atomic of each type.
    pub(super) fn play_on_each<R: Wait>(self, handle: &mut Handle<u64, R>) -> Result<u64, Stop> {
        self.play_on::<u8, R>(handle)?;
        self.play_on::<u16, R>(handle)?;
        self.play_on::<u32, R>(handle)?;
        self.play_on::<u64, R>(handle)?;
        self.play_on::<usize, R>(handle)?;
        self.play_on::<i8, R>(handle)?;
        self.play_on::<i16, R>(handle)?;
        self.play_on::<i32, R>(handle)?;
        self.play_on::<i64, R>(handle)?;
        self.play_on::<isize, R>(handle)
    }

    /// Does it to an atomic of this type, and asserts what was there before and what is there then.
    fn play_on<T: Integer + Ord, R: Wait>(self, handle: &mut Handle<u64, R>) -> Result<u64, Stop> {
        let (a, b) = (T::from_u64(NUM_A), T::from_u64(NUM_B));
        let atomic = handle.atomic(a)?;
        let (was_so, wanted) = self.change(handle, &atomic, a, b)?;
        let now = handle.load(&atomic, SeqCst)?;
        handle.assert(was_so && now == wanted)?;
        Ok(0)
    }

    fn change<T: Integer + Ord, R: Wait>(
        self,
        handle: &mut Handle<u64, R>,
        atomic: &Atomic<T>,
        a: T,
        b: T,
    ) -> Result<Change<T>, Stop> {
        match self {
            Function::Xor => {
                let before = handle.fetch_xor(atomic, b, SeqCst)?;
                Ok((before == a, T::from_u64(NUM_A ^ NUM_B)))
            }
            Function::Max => {
                let before = handle.fetch_max(atomic, b, SeqCst)?;
                Ok((before == a, if a < b { b } else { a }))
            }
            Function::Min => {
                let before = handle.fetch_min(atomic, b, SeqCst)?;
                Ok((before == a, if a < b { a } else { b }))
            }
            Function::CompareExchange => {
                let failed = handle.compare_exchange(atomic, b, a, SeqCst, SeqCst)?;
                let done = handle.compare_exchange(atomic, a, b, SeqCst, SeqCst)?;
                Ok((failed == Err(a) && done == Ok(a), b))
            }
            Function::CompareExchangeWeak => {
                let failed = handle.compare_exchange_weak(atomic, b, a, SeqCst, SeqCst)?;
                let done = handle.compare_exchange_weak(atomic, a, b, SeqCst, SeqCst)?;
                Ok((failed == Err(a) && done == Ok(a), b))
            }
            Function::FetchUpdate => {
                let done = handle.fetch_update(atomic, SeqCst, SeqCst, |_| Some(b))?;
                let kept = handle.fetch_update(atomic, SeqCst, SeqCst, |_| None)?;
                Ok((done == Ok(a) && kept == Err(b), b))
            }
        }
    }
}

// A test of integers, of which a check makes one run.
macro_rules! test {
    ($name:ident, $function:expr) => {
        Test {
            name: stringify!($name),
            scene: Scene::Integers($function),
            wanted: Complete(1),
        }
    };
}

// Loom ignores its `compare_exchange_weak`. A weak exchange fails here only where it reads another value.
static EACH: [Test; 6] = [
    test!(xor, Function::Xor),
    test!(max, Function::Max),
    test!(min, Function::Min),
    test!(compare_exchange, Function::CompareExchange),
    test!(compare_exchange_weak, Function::CompareExchangeWeak),
    test!(fetch_update, Function::FetchUpdate),
];

#[test]
fn integers(rt: HostRuntime) -> Result<(), Fail> {
    are_found(&rt, &EACH)
}
