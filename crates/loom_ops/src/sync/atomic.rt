//! Atomics: numbers that threads load and store without waiting for one another.
ghost use Rattle.std.specs.Prelude.{◌≡◌};
ghost use Rattle.loom_objects.specs.Operation.Labelled.{bare};
ghost use Rattle.std.specs.Option.{option_map};
ghost use Rattle.loom_ops.specs.Atomic.{atomic_handle, value_in, exchange, exchanged_in, update, fetched_in};
ghost use Rattle.loom_ops.specs.Thread.{yielding};
ghost use Rattle.loom_ops.specs.Answers.{loaded_in, exchanged_in as loaded_exchange_in};

use crate::answers::answer::Answer;
use crate::thread;
use loom_objects::operation::{AtomicOp, Exchange, Op, Reply, Request};
use loom_views::rt::num::Numeric;
use loom_views::rt::num::change::Change;
use std::marker::PhantomData;
pub use std::sync::atomic::Ordering;

/// An atomic of the run, which holds a `T` (loom's `sync/atomic/atomic.rs`).
#[derive(Clone, Copy, Debug)]
pub struct Atomic<T> {
    /// Its place in the order in which objects were made.
    pub number: usize,
    /// The type of what it holds.
    pub holds: PhantomData<T>,
}

/// An atomic that holds a `bool` (loom's `sync/atomic/bool.rs`).
pub type AtomicBool = Atomic<bool>;

/// An atomic that holds a `u8` (loom's `sync/atomic/int.rs`).
pub type AtomicU8 = Atomic<u8>;

/// An atomic that holds a `u16` (loom's `sync/atomic/int.rs`).
pub type AtomicU16 = Atomic<u16>;

/// An atomic that holds a `u32` (loom's `sync/atomic/int.rs`).
pub type AtomicU32 = Atomic<u32>;

/// An atomic that holds a `u64` (loom's `sync/atomic/int.rs`).
pub type AtomicU64 = Atomic<u64>;

/// An atomic that holds a `usize` (loom's `sync/atomic/int.rs`).
pub type AtomicUsize = Atomic<usize>;

/// An atomic that holds an `i8` (loom's `sync/atomic/int.rs`).
pub type AtomicI8 = Atomic<i8>;

/// An atomic that holds an `i16` (loom's `sync/atomic/int.rs`).
pub type AtomicI16 = Atomic<i16>;

/// An atomic that holds an `i32` (loom's `sync/atomic/int.rs`).
pub type AtomicI32 = Atomic<i32>;

/// An atomic that holds an `i64` (loom's `sync/atomic/int.rs`).
pub type AtomicI64 = Atomic<i64>;

/// An atomic that holds an `isize` (loom's `sync/atomic/int.rs`).
pub type AtomicIsize = Atomic<isize>;

/// What an atomic holds, or held (own).
#[derive(Clone, Copy, Debug)]
pub struct Loaded<T>(pub T);

/// The integers among what atomics hold (own; loom's atomics of integers are types of their own).
pub trait Integer: Numeric {}

impl Integer for u8 {}

impl Integer for u16 {}

impl Integer for u32 {}

impl Integer for u64 {}

impl Integer for usize {}

impl Integer for i8 {}

impl Integer for i16 {}

impl Integer for i32 {}

impl Integer for i64 {}

impl Integer for isize {}

/// A fence, by which a thread's accesses before and after it synchronize. `Relaxed` is the failure `RelaxedFence` (loom's
/// `sync/atomic/mod.rs`).
pub fn fence<D, S>(order: Ordering) -> Op<D, S>
    ensures { result ≡ bare (Request.Fence order) }
{
    Op::new(Request::Fence(order))
}

/// The thread yields, as by `thread::yield_now` (loom's `sync/atomic/mod.rs`).
pub fn spin_loop_hint<D, S>() -> Op<D, S>
    ensures { result ≡ yielding }
{
    thread::yield_now()
}

impl<T: Numeric> Atomic<T> {
    /// A new atomic, which holds this value (loom's `sync/atomic/atomic.rs`).
    #[allow(clippy::new_ret_no_self)]
    pub fn new<D, S>(value: T) -> Op<D, S>
        ensures { result ≡ bare (Request.Atomic (AtomicOp.New T.kind (T.number value))) }
    {
        Op::new(Request::Atomic(AtomicOp::New(T::numbers(), value.into_u64())))
    }

    /// The atomic that was made, if that is what the reply says (own).
    pub fn from_reply<D>(reply: &Reply<D>) -> Option<Atomic<T>>
        ensures { result ≡ atomic_handle reply.now }
    {
        match reply {
            Reply::Atomic(number) => Some(Atomic {
                number: *number,
                holds: PhantomData,
            }),
            _ => None,
        }
    }

    /// The value that was read, if that is what the reply says (own).
    pub fn value<D>(reply: &Reply<D>) -> Option<T>
        ensures { result ≡ option_map T.value (value_in reply.now) }
    {
        match reply {
            Reply::Value(number) => Some(T::from_u64(*number)),
            _ => None,
        }
    }

    /// What a compare-exchange has read, if that is what the reply says: Ok where it has exchanged it, and else Err (own).
    pub fn exchanged<D>(reply: &Reply<D>) -> Option<Result<T, T>>
        ensures { result ≡ exchanged_in T.value reply.now }
    {
        match reply {
            Reply::Exchanged(Ok(number)) => Some(Ok(T::from_u64(*number))),
            Reply::Exchanged(Err(number)) => Some(Err(T::from_u64(*number))),
            _ => None,
        }
    }

    /// Reads one of the stores that the thread may read; which of them is a choice (loom's `sync/atomic/atomic.rs`).
    pub fn load<D, S>(self, order: Ordering) -> Op<D, S>
        ensures { result ≡ bare (Request.Atomic (AtomicOp.Load self.number order)) }
    {
        Op::new(Request::Atomic(AtomicOp::Load(self.number, order)))
    }

    /// Reads the newest store, and synchronizes nothing. Where the thread doesn't know of a store or of a mutation, that is
    /// the failure `Race`, and while a mutation is open, `OpenAccess` (loom's `sync/atomic/atomic.rs`).
    pub fn unsync_load<D, S>(self) -> Op<D, S>
        ensures { result ≡ bare (Request.Atomic (AtomicOp.UnsyncLoad self.number)) }
    {
        Op::new(Request::Atomic(AtomicOp::UnsyncLoad(self.number)))
    }

    /// Reads as `unsync_load` does, and the atomic is no more: a later operation of it is a misuse (loom's
    /// `sync/atomic/int.rs` and `bool.rs`).
    pub fn into_inner<D, S>(self) -> Op<D, S>
        ensures { result ≡ bare (Request.Atomic (AtomicOp.IntoInner self.number)) }
    {
        Op::new(Request::Atomic(AtomicOp::IntoInner(self.number)))
    }

    /// Stores the value, for loads to read (loom's `sync/atomic/atomic.rs`).
    pub fn store<D, S>(self, value: T, order: Ordering) -> Op<D, S>
        ensures { result ≡ bare (Request.Atomic (AtomicOp.Store self.number (T.number value) order)) }
    {
        Op::new(Request::Atomic(AtomicOp::Store(self.number, value.into_u64(), order)))
    }

    /// Stores the value, and replies the one that it replaces (loom's `sync/atomic/atomic.rs`).
    pub fn swap<D, S>(self, value: T, order: Ordering) -> Op<D, S>
        ensures { result ≡ bare (Request.Atomic (AtomicOp.Update self.number (Change.Swap (T.number value)) order)) }
    {
        let change = Change::Swap(value.into_u64());
        Op::new(Request::Atomic(AtomicOp::Update(self.number, change, order)))
    }

    /// Stores the new value where the current one is read, and replies the value that it reads. Where that is another, its
    /// ordering is `Relaxed` in place of `Release`, and `Acquire` in place of `AcqRel` (loom's `sync/atomic/atomic.rs`).
    pub fn compare_and_swap<D, S>(self, current: T, new: T, order: Ordering) -> Op<D, S>
        ensures { result ≡ bare (Request.Atomic (AtomicOp.CompareAndSwap self.number (T.number current) (T.number new) order)) }
    {
        let (current, new) = (current.into_u64(), new.into_u64());
        Op::new(Request::Atomic(AtomicOp::CompareAndSwap(self.number, current, new, order)))
    }

    /// Stores the new value where the current one is read, by the ordering `success`, and replies Ok of it. Else it is a load
    /// by the ordering `failure`, and replies Err of the value that it reads (loom's `sync/atomic/atomic.rs`).
    pub fn compare_exchange<D, S>(
        self,
        current: T,
        new: T,
        success: Ordering,
        failure: Ordering,
    ) -> Op<D, S>
        ensures { result ≡ exchange self.number (T.number current) (T.number new) success failure }
    {
        let exchange = Exchange {
            expected: current.into_u64(),
            new: new.into_u64(),
            success,
            failure,
        };
        Op::new(Request::Atomic(AtomicOp::CompareExchange(self.number, exchange)))
    }

    /// An exchange as by `compare_exchange`: it fails only where another value is read (loom's `sync/atomic/int.rs` and `bool.rs`).
    pub fn compare_exchange_weak<D, S>(
        self,
        current: T,
        new: T,
        success: Ordering,
        failure: Ordering,
    ) -> Op<D, S>
        ensures { result ≡ exchange self.number (T.number current) (T.number new) success failure }
    {
        self.compare_exchange(current, new, success, failure)
    }

    /// Keeps the bits that are in both, and replies the value before (loom's `sync/atomic/int.rs` and `bool.rs`).
    pub fn fetch_and<D, S>(self, value: T, order: Ordering) -> Op<D, S>
        ensures { result ≡ bare (Request.Atomic (AtomicOp.Update self.number (Change.And (T.number value)) order)) }
    {
        let change = Change::And(value.into_u64());
        Op::new(Request::Atomic(AtomicOp::Update(self.number, change, order)))
    }

    /// Leaves the bits of the type that are not in both, and replies the value before (loom's `sync/atomic/int.rs` and
    /// `bool.rs`).
    pub fn fetch_nand<D, S>(self, value: T, order: Ordering) -> Op<D, S>
        ensures { result ≡ bare (Request.Atomic (AtomicOp.Update self.number (Change.Nand (T.number value)) order)) }
    {
        let change = Change::Nand(value.into_u64());
        Op::new(Request::Atomic(AtomicOp::Update(self.number, change, order)))
    }

    /// Adds the bits of the other, and replies the value before (loom's `sync/atomic/int.rs` and `bool.rs`).
    pub fn fetch_or<D, S>(self, value: T, order: Ordering) -> Op<D, S>
        ensures { result ≡ bare (Request.Atomic (AtomicOp.Update self.number (Change.Or (T.number value)) order)) }
    {
        let change = Change::Or(value.into_u64());
        Op::new(Request::Atomic(AtomicOp::Update(self.number, change, order)))
    }

    /// Leaves the bits that are in one of the two alone, and replies the value before (loom's `sync/atomic/int.rs` and
    /// `bool.rs`).
    pub fn fetch_xor<D, S>(self, value: T, order: Ordering) -> Op<D, S>
        ensures { result ≡ bare (Request.Atomic (AtomicOp.Update self.number (Change.Xor (T.number value)) order)) }
    {
        let change = Change::Xor(value.into_u64());
        Op::new(Request::Atomic(AtomicOp::Update(self.number, change, order)))
    }

    /// An update by a function of the body's own, with these orderings for its exchanges and for its loads. It is no
    /// operation: `FetchUpdate` makes its operations, one after another (loom's `sync/atomic/atomic.rs`).
    pub fn fetch_update(self, set_order: Ordering, fetch_order: Ordering) -> FetchUpdate<T>
        ensures { result ≡ update self set_order fetch_order }
    {
        FetchUpdate {
            atomic: self,
            set_order,
            fetch_order,
        }
    }
}

impl<T: Integer> Atomic<T> {
    /// Replies the newest value, and opens a mutation, which ends with `with_mut_end`. Where the thread doesn't know of some
    /// access, that is the failure `Race`; an access while it is open is `OpenAccess` (loom's `sync/atomic/int.rs`).
    pub fn with_mut<D, S>(self) -> Op<D, S>
        ensures { result ≡ bare (Request.Atomic (AtomicOp.WithMut self.number)) }
    {
        Op::new(Request::Atomic(AtomicOp::WithMut(self.number)))
    }

    /// Ends the thread's mutation, which leaves this value: in loom the end of the closure. Without one it is a misuse
    /// (loom's `sync/atomic/int.rs`).
    pub fn with_mut_end<D, S>(self, value: T) -> Op<D, S>
        ensures { result ≡ bare (Request.Atomic (AtomicOp.WithMutEnd self.number (T.number value))) }
    {
        Op::new(Request::Atomic(AtomicOp::WithMutEnd(self.number, value.into_u64())))
    }

    /// Adds, by the lowest bits of the type, and replies the value before (loom's `sync/atomic/int.rs`).
    pub fn fetch_add<D, S>(self, value: T, order: Ordering) -> Op<D, S>
        ensures { result ≡ bare (Request.Atomic (AtomicOp.Update self.number (Change.Add (T.number value)) order)) }
    {
        let change = Change::Add(value.into_u64());
        Op::new(Request::Atomic(AtomicOp::Update(self.number, change, order)))
    }

    /// Subtracts, by the lowest bits of the type, and replies the value before (loom's `sync/atomic/int.rs`).
    pub fn fetch_sub<D, S>(self, value: T, order: Ordering) -> Op<D, S>
        ensures { result ≡ bare (Request.Atomic (AtomicOp.Update self.number (Change.Sub (T.number value)) order)) }
    {
        let change = Change::Sub(value.into_u64());
        Op::new(Request::Atomic(AtomicOp::Update(self.number, change, order)))
    }

    /// Leaves the larger of the two, and replies the value before (loom's `sync/atomic/int.rs`).
    pub fn fetch_max<D, S>(self, value: T, order: Ordering) -> Op<D, S>
        ensures { result ≡ bare (Request.Atomic (AtomicOp.Update self.number (Change.Max (T.number value)) order)) }
    {
        let change = Change::Max(value.into_u64());
        Op::new(Request::Atomic(AtomicOp::Update(self.number, change, order)))
    }

    /// Leaves the smaller of the two, and replies the value before (loom's `sync/atomic/int.rs`).
    pub fn fetch_min<D, S>(self, value: T, order: Ordering) -> Op<D, S>
        ensures { result ≡ bare (Request.Atomic (AtomicOp.Update self.number (Change.Min (T.number value)) order)) }
    {
        let change = Change::Min(value.into_u64());
        Op::new(Request::Atomic(AtomicOp::Update(self.number, change, order)))
    }
}

/// An update by a function of the body's own: it loads, and then exchanges what it read, until no other store comes between
/// (loom's `sync/atomic/atomic.rs`).
#[derive(Clone, Copy, Debug)]
pub struct FetchUpdate<T> {
    /// What is updated.
    pub atomic: Atomic<T>,
    /// The ordering of an exchange that succeeds.
    pub set_order: Ordering,
    /// The ordering of a load, and of an exchange that fails.
    pub fetch_order: Ordering,
}

/// How far an update is.
#[derive(Clone, Copy, Debug, PartialEq, Eq)]
pub enum Fetched<T> {
    /// The body's function says what comes after this value: it goes on with `exchange`, or if nothing comes, the update
    /// ends with Err of this value.
    Read(T),
    /// The value was replaced, and the update ends with Ok of it.
    Replaced(T),
}

impl<T: Numeric> FetchUpdate<T> {
    /// The first operation: a load (loom's `sync/atomic/atomic.rs`).
    pub fn begin<D, S>(self) -> Op<D, S>
        ensures { result ≡ bare (Request.Atomic (AtomicOp.Load self.atomic.number self.fetch_order)) }
    {
        self.atomic.load(self.fetch_order)
    }

    /// How far the update is, if the reply is to an operation of it (own).
    pub fn fetched<D>(reply: &Reply<D>) -> Option<Fetched<T>>
        ensures { result ≡ fetched_in T.value reply.now }
    {
        match reply {
            Reply::Value(number) => Some(Fetched::Read(T::from_u64(*number))),
            Reply::Exchanged(Err(number)) => Some(Fetched::Read(T::from_u64(*number))),
            Reply::Exchanged(Ok(number)) => Some(Fetched::Replaced(T::from_u64(*number))),
            _ => None,
        }
    }

    /// The next operation: where the value is still the one that was read, the new one takes its place (loom's
    /// `sync/atomic/atomic.rs`).
    pub fn exchange<D, S>(self, read: T, new: T) -> Op<D, S>
        ensures { result ≡ exchange self.atomic.number (T.number read) (T.number new) self.set_order self.fetch_order }
    {
        self.atomic
            .compare_exchange(read, new, self.set_order, self.fetch_order)
    }
}

impl<D: Drop, T: Numeric> Answer<D> for Atomic<T> {
    ghost held = { atomic_handle };

    fn from_reply(reply: Reply<D>) -> Option<Atomic<T>>
        ensures { result ≡ atomic_handle reply }
    {
        let atomic = Atomic::from_reply(&reply);
        reply.let_go();
        atomic
    }
}

impl<D: Drop, T: Numeric> Answer<D> for Loaded<T> {
    ghost held = { loaded_in T.value };

    fn from_reply(reply: Reply<D>) -> Option<Loaded<T>>
        ensures { result ≡ loaded_in T.value reply }
    {
        match reply {
            Reply::Value(number) => Some(Loaded(T::from_u64(number))),
            other => {
                other.let_go();
                None
            }
        }
    }
}

impl<D: Drop, T: Numeric> Answer<D> for Result<Loaded<T>, Loaded<T>> {
    ghost held = { loaded_exchange_in T.value };

    fn from_reply(reply: Reply<D>) -> Option<Result<Loaded<T>, Loaded<T>>>
        ensures { result ≡ loaded_exchange_in T.value reply }
    {
        match reply {
            Reply::Exchanged(Ok(number)) => Some(Ok(Loaded(T::from_u64(number)))),
            Reply::Exchanged(Err(number)) => Some(Err(Loaded(T::from_u64(number)))),
            other => {
                other.let_go();
                None
            }
        }
    }
}
