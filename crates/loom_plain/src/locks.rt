//! Mutexes and read-write locks.
use crate::dependence::Action;
use crate::halt::NextReply;
use crate::kinds::{Kind, Step};
use crate::machine::Machine;
use crate::state::State;
use loom_objects::operation::{MutexOp, Reply, RwLockOp};
use loom_views::rt::MAX_THREADS;
use loom_views::rt::failure::FailureKind;

/// How a mutex or a read-write lock is taken.
#[derive(Clone, Copy)]
pub enum Claim {
    Read,
    TryRead,
    Write,
    TryWrite,
    /// A mutex.
    Lock,
    TryLock,
    /// A mutex, after a wait that has a time.
    Relock,
}

impl Claim {
    // Whether who takes the lock so reads.
    fn is_read(self) -> bool {
        matches!(self, Claim::Read | Claim::TryRead)
    }

    // Whether who takes the lock so doesn't wait for it.
    fn is_try(self) -> bool {
        matches!(self, Claim::TryRead | Claim::TryWrite | Claim::TryLock)
    }

    // What taking the lock so does, as far as others depend on it.
    fn action(self) -> Action {
        match self {
            Claim::Write | Claim::TryWrite => Action::Write,
            Claim::Read | Claim::TryRead => Action::Other,
            Claim::Lock | Claim::TryLock | Claim::Relock => Action::Other,
        }
    }
}

impl Machine {
    /// An operation of a mutex is handed over.
    pub fn mutex_begins(&mut self, op: MutexOp<u64>) -> NextReply {
        match op {
            MutexOp::New(value) => Some(Reply::Mutex(self.makes(Kind::Mutex, Some(value)))),
            MutexOp::Lock(number) => self.claim_begins(number, Kind::Mutex, Claim::Lock),
            MutexOp::TryLock(number) => self.claim_begins(number, Kind::Mutex, Claim::TryLock),
            MutexOp::Release(number, value) => {
                self.unlocks(number, Kind::Mutex, value);
                Some(Reply::Done)
            }
            MutexOp::GetMut(number) => self.lends(number, Kind::Mutex, true),
            MutexOp::Put(number, value) => self.puts(number, Kind::Mutex, value),
            MutexOp::IntoInner(number) => self.lends(number, Kind::Mutex, false),
        }
    }

    /// An operation of a read-write lock is handed over.
    pub fn rwlock_begins(&mut self, op: RwLockOp<u64>) -> NextReply {
        match op {
            RwLockOp::New(value) => Some(Reply::RwLock(self.makes(Kind::RwLock, Some(value)))),
            RwLockOp::Read(number) => self.claim_begins(number, Kind::RwLock, Claim::Read),
            RwLockOp::TryRead(number) => self.claim_begins(number, Kind::RwLock, Claim::TryRead),
            RwLockOp::ReadRelease(number) => self.read_release(number),
            RwLockOp::Write(number) => self.claim_begins(number, Kind::RwLock, Claim::Write),
            RwLockOp::TryWrite(number) => self.claim_begins(number, Kind::RwLock, Claim::TryWrite),
            RwLockOp::WriteRelease(number, value) => {
                self.unlocks(number, Kind::RwLock, value);
                Some(Reply::Done)
            }
            RwLockOp::GetMut(number) => self.lends(number, Kind::RwLock, true),
            RwLockOp::Put(number, value) => self.puts(number, Kind::RwLock, value),
            RwLockOp::IntoInner(number) => self.lends(number, Kind::RwLock, false),
        }
    }

    /// The active thread is to take the lock. A call that waits is blocked while the lock refuses it.
    pub fn claim_begins(&mut self, number: usize, kind: Kind, claim: Claim) -> NextReply {
        let is_refused = self.object(number, kind).is_open(!claim.is_read());
        let is_blocked = is_refused && !claim.is_try();
        self.pends(number, claim.action(), Step::Claim(claim), is_blocked)
    }

    /// A thread that was woken is to take the mutex again. That the mutex is there is tested when it takes it.
    pub fn awakes(&mut self, number: usize, claim: Claim) -> NextReply {
        let is_blocked = self.at(number).is_open(true);
        self.pends(number, claim.action(), Step::Claim(claim), is_blocked)
    }

    /// The active thread takes the lock, or finds it taken. Who waits for a taken one isn't chosen.
    pub fn claims(&mut self, number: usize, claim: Claim) -> NextReply {
        let lock = self.at(number);
        let is_usable = lock.is_whole && lock.lent.is_none();
        let is_refused = lock.is_open(!claim.is_read());
        self.check(is_usable, FailureKind::Misuse);
        if is_refused {
            self.expect(claim.is_try());
            return Some(Reply::WouldBlock);
        }
        let value = if claim.is_read() {
            self.reads(number)
        } else {
            self.writes(number)
        };
        Some(match claim {
            Claim::Read | Claim::TryRead => Reply::ReadLocked(number, value),
            Claim::Write | Claim::TryWrite => Reply::WriteLocked(number, value),
            Claim::Lock | Claim::TryLock => Reply::Locked(number, value),
            Claim::Relock => Reply::Waited(number, value, false),
        })
    }

    // The active thread reads, and has a copy of the data.
    fn reads(&mut self, number: usize) -> u64 {
        let active = self.active;
        let lock = self.at(number);
        let value = lock.value;
        lock.opens(active);
        self.acquires_from(number);
        self.set_pending(number, Some(Action::Write), State::Blocked);
        self.required(value)
    }

    // The active thread has the lock alone, and the data.
    fn writes(&mut self, number: usize) -> u64 {
        let value = self.at(number).value.take();
        self.holds(number);
        self.required(value)
    }

    // The active thread, which has a guard for reading, ends one.
    fn read_release(&mut self, number: usize) -> NextReply {
        let active = self.active;
        let lock = self.object(number, Kind::RwLock);
        let is_reading = lock.closes(active);
        let is_free = lock.readers == [0; MAX_THREADS];
        self.check(is_reading, FailureKind::Misuse);
        self.releases_to(number);
        if is_free {
            self.set_pending(number, None, State::Runnable);
        }
        Some(Reply::Done)
    }

    /// The active thread, which holds the lock, releases it with this data.
    pub fn unlocks(&mut self, number: usize, kind: Kind, value: u64) {
        let active = self.active;
        let lock = self.object(number, kind);
        let is_held = lock.holder == Some(active);
        lock.value = Some(value);
        self.check(is_held, FailureKind::Misuse);
        self.frees(number);
    }
}
