//! The words of the language.
ghost use Rattle.std.specs.Prelude.{◌≡◌, map};
ghost use Rattle.loom_text.specs.Spelling.{listed, word_of};

use crate::test::{FetchOperator, Kind, Strength};
use std::sync::atomic::Ordering;

/// A word with a meaning of its own. Own.
#[derive(Clone, Copy, Debug, PartialEq, Eq)]
pub enum Word {
    /// `C`.
    Language,
    /// A type that a location has.
    Type(Kind),
    /// `volatile` or `const`.
    Qualifier,
    /// Another type of C.
    OtherType,
    /// `void`.
    Void,
    /// `if`.
    If,
    /// `else`.
    Else,
    /// `while`.
    While,
    /// `do`.
    Do,
    /// Another statement of C.
    OtherStatement,
    /// An order.
    Order(Ordering),
    /// `memory_order_consume`.
    Consume,
    /// A call, and whether it is written with its orders.
    Function(Function, bool),
    /// `thrd_success`, or `thrd_busy`: whether a lock is busy.
    Status(bool),
    /// `exists`.
    Exists,
    /// `forall`.
    Forall,
    /// `filter`.
    Filter,
    /// `locations`.
    Locations,
}

/// What is called. Own.
#[derive(Clone, Copy, Debug, PartialEq, Eq)]
pub enum Function {
    /// `atomic_load`.
    Load,
    /// `atomic_store`.
    Store,
    /// `atomic_exchange`.
    Exchange,
    /// `atomic_fetch_..`.
    Fetch(FetchOperator),
    /// `atomic_compare_exchange_..`.
    CompareExchange(Strength),
    /// `atomic_thread_fence`.
    Fence,
    /// `mtx_lock`.
    Lock,
    /// `mtx_unlock`.
    Unlock,
    /// `mtx_trylock`.
    TryLock,
    /// `cnd_wait`.
    Wait,
    /// `cnd_signal`.
    Signal,
    /// `cnd_broadcast`.
    Broadcast,
    /// `thrd_yield`.
    Yield,
    /// `assert`.
    Assert,
}

const WORDS: [(&[u8], Word); 76] = [
    (b"C", Word::Language),
    (b"atomic_int", Word::Type(Kind::Atomic)),
    (b"int", Word::Type(Kind::Plain)),
    (b"mtx_t", Word::Type(Kind::Mutex)),
    (b"cnd_t", Word::Type(Kind::Condvar)),
    (b"long", Word::OtherType),
    (b"short", Word::OtherType),
    (b"char", Word::OtherType),
    (b"unsigned", Word::OtherType),
    (b"signed", Word::OtherType),
    (b"float", Word::OtherType),
    (b"double", Word::OtherType),
    (b"bool", Word::OtherType),
    (b"_Bool", Word::OtherType),
    (b"_Atomic", Word::OtherType),
    (b"volatile", Word::Qualifier),
    (b"const", Word::Qualifier),
    (b"struct", Word::OtherType),
    (b"atomic_bool", Word::OtherType),
    (b"atomic_long", Word::OtherType),
    (b"atomic_uint", Word::OtherType),
    (b"size_t", Word::OtherType),
    (b"intptr_t", Word::OtherType),
    (b"thrd_t", Word::OtherType),
    (b"void", Word::Void),
    (b"if", Word::If),
    (b"else", Word::Else),
    (b"while", Word::While),
    (b"do", Word::Do),
    (b"for", Word::OtherStatement),
    (b"switch", Word::OtherStatement),
    (b"break", Word::OtherStatement),
    (b"continue", Word::OtherStatement),
    (b"goto", Word::OtherStatement),
    (b"return", Word::OtherStatement),
    (b"memory_order_relaxed", Word::Order(Ordering::Relaxed)),
    (b"memory_order_acquire", Word::Order(Ordering::Acquire)),
    (b"memory_order_release", Word::Order(Ordering::Release)),
    (b"memory_order_acq_rel", Word::Order(Ordering::AcqRel)),
    (b"memory_order_seq_cst", Word::Order(Ordering::SeqCst)),
    (b"memory_order_consume", Word::Consume),
    (b"thrd_success", Word::Status(false)),
    (b"thrd_busy", Word::Status(true)),
    (b"exists", Word::Exists),
    (b"forall", Word::Forall),
    (b"filter", Word::Filter),
    (b"locations", Word::Locations),
    (b"atomic_load", Word::Function(Function::Load, false)),
    (
        b"atomic_load_explicit",
        Word::Function(Function::Load, true),
    ),
    (b"atomic_store", Word::Function(Function::Store, false)),
    (
        b"atomic_store_explicit",
        Word::Function(Function::Store, true),
    ),
    (
        b"atomic_exchange",
        Word::Function(Function::Exchange, false),
    ),
    (
        b"atomic_exchange_explicit",
        Word::Function(Function::Exchange, true),
    ),
    (
        b"atomic_fetch_add",
        Word::Function(Function::Fetch(FetchOperator::Add), false),
    ),
    (
        b"atomic_fetch_add_explicit",
        Word::Function(Function::Fetch(FetchOperator::Add), true),
    ),
    (
        b"atomic_fetch_sub",
        Word::Function(Function::Fetch(FetchOperator::Sub), false),
    ),
    (
        b"atomic_fetch_sub_explicit",
        Word::Function(Function::Fetch(FetchOperator::Sub), true),
    ),
    (
        b"atomic_fetch_or",
        Word::Function(Function::Fetch(FetchOperator::Or), false),
    ),
    (
        b"atomic_fetch_or_explicit",
        Word::Function(Function::Fetch(FetchOperator::Or), true),
    ),
    (
        b"atomic_fetch_xor",
        Word::Function(Function::Fetch(FetchOperator::Xor), false),
    ),
    (
        b"atomic_fetch_xor_explicit",
        Word::Function(Function::Fetch(FetchOperator::Xor), true),
    ),
    (
        b"atomic_fetch_and",
        Word::Function(Function::Fetch(FetchOperator::And), false),
    ),
    (
        b"atomic_fetch_and_explicit",
        Word::Function(Function::Fetch(FetchOperator::And), true),
    ),
    (
        b"atomic_compare_exchange_strong",
        Word::Function(Function::CompareExchange(Strength::Strong), false),
    ),
    (
        b"atomic_compare_exchange_strong_explicit",
        Word::Function(Function::CompareExchange(Strength::Strong), true),
    ),
    (
        b"atomic_compare_exchange_weak",
        Word::Function(Function::CompareExchange(Strength::Weak), false),
    ),
    (
        b"atomic_compare_exchange_weak_explicit",
        Word::Function(Function::CompareExchange(Strength::Weak), true),
    ),
    (
        b"atomic_thread_fence",
        Word::Function(Function::Fence, false),
    ),
    (b"mtx_lock", Word::Function(Function::Lock, false)),
    (b"mtx_unlock", Word::Function(Function::Unlock, false)),
    (b"mtx_trylock", Word::Function(Function::TryLock, false)),
    (b"cnd_wait", Word::Function(Function::Wait, false)),
    (b"cnd_signal", Word::Function(Function::Signal, false)),
    (b"cnd_broadcast", Word::Function(Function::Broadcast, false)),
    (b"thrd_yield", Word::Function(Function::Yield, false)),
    (b"assert", Word::Function(Function::Assert, false)),
];

/// The meaning of a word, if it has one of its own.
pub fn word_of(spelling: &[u8]) -> Option<Word>
    ensures { result ≡ word_of spelling.now }
{
    listed(&WORDS, spelling)
}

// What the first row with this spelling says.
fn listed(mut table: &[(&[u8], Word)], spelling: &[u8]) -> Option<Word>
    ensures { result ≡ listed (map (λ row. (row.0.now, row.1)) table.entry.now) spelling.now }
{
    while let [row, rest @ ..] = table {
        if row.0 == spelling {
            return Some(row.1);
        }
        table = rest;
    }
    None
}
