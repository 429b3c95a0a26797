//! Tests that are read, written, and read again.
use crate::tests::reading::texts::TEXTS;
use loom_text::error::ReadError;
use loom_text::read::read;
use loom_text::test::{Condition, Kind, Quantifier, Term, Test};
use loom_text::write::write;
use std::alloc::Global;
use std::process::Abort;

/// What is written of the text, once it is read.
pub fn written(alloc: Global, text: &[u8]) -> Result<String, ReadError> {
    let test = read(alloc, text)?;
    write(alloc, &test).map_err(|_| ReadError::Memory)
}

/// Whether the text is what is written of it.
pub fn is_written_so(alloc: Global, text: &str) -> bool {
    match written(alloc, text.as_bytes()) {
        Ok(again) => again.as_str() == text,
        Err(_) => false,
    }
}

// What is written of the text is read again, and gives the same text.
fn comes_again(rt: &(impl Abort + AllocGlobal), text: &str, name: &str) {
    let comes_again = match written(rt.alloc(), text.as_bytes()) {
        Ok(first) => is_written_so(rt.alloc(), first.as_str()),
        Err(_) => false,
    };
    assert!(rt; comes_again, "{name}");
}

#[test]
fn each_comes_again(rt: HostRuntime) {
    for (name, text) in &TEXTS {
        comes_again(&rt, text, name);
    }
}

// A text with each part of the language, and what is written of it.
const ALL_PARTS: &str = r#"(* each (* part *) *)
C all+parts
"information" Key=of no meaning (* { "
{ x=1; int a; int *p; [y] = -2; atomic_int z = 3; mtx_t m; cnd_t c; const int unused = 0x4 }

P0 (atomic_int* x, volatile int* p, atomic_int *y) { // a thread
  int r0 = atomic_load(x), r1;
  r1 = -r0 + 2 * (3 - 1) - (4 - 5) << 1 >> 2;
  if (r1 == 3 || r1 != 4 && !(*p)) { *p = r1 / *p % 7; } else if (r0 < 2) r1 = 1; else { }
  while (r1 <= 1) { r1 = r1 + 1; thrd_yield(); }
  do { r1 = ~r1 & 6 ^ 5 | 3; } while (r1 > 9 || r1 >= 10);
  { atomic_store(y, r1); atomic_store_explicit(y, 1, memory_order_release); ; }
  atomic_thread_fence(memory_order_acq_rel);
  assert(r0 == 1);
  if (r0) { int r2 = 0x1F; } else { volatile int r2 = -2147483648; }
}
P1(mtx_t* m, cnd_t* c, atomic_int* z, int* a) {
  mtx_lock(m); cnd_wait(c, m); cnd_signal(c); cnd_broadcast(c); mtx_unlock(m);
  int r0 = mtx_trylock(m) == thrd_success;
  int r1 = atomic_exchange(z, 1) + atomic_exchange_explicit(z, 1 + 2, memory_order_acquire);
  int r2 = atomic_fetch_add(z, 1) + atomic_fetch_sub_explicit(z, 1, memory_order_relaxed)
    + atomic_fetch_or(z, 1) + atomic_fetch_xor(z, 1) + atomic_fetch_and(z, 1);
  int r3 = atomic_compare_exchange_strong(z, 0, 1);
  int r4 = atomic_compare_exchange_weak_explicit(z, &r3, 1, memory_order_seq_cst, memory_order_acquire);
  int r5 = atomic_compare_exchange_strong(z, a, 1);
  atomic_fetch_add(z, 1);
}
P2 (void) { }
locations [0:r0; z; [a];]
filter ~(1:r0=0) /\ (0:r1=1 \/ 0:r1=-1)
~exists 0:r2=-2147483648 /\ x=1 \/ ~[y]=2 /\ (0:r0=1 /\ (1:r3=0 \/ 1:r4=1) /\ 1:r5=0)
"#;

const ALL_PARTS_WRITTEN: &str = r#"C all+parts
{ atomic_int x = 1; int a = 0; int p = 0; atomic_int y = -2; atomic_int z = 3; mtx_t m; cnd_t c; int unused = 4; }

P0 (atomic_int* x, int* p, atomic_int* y) {
  int r0 = atomic_load_explicit(x, memory_order_seq_cst);
  int r1;
  r1 = -r0 + 2 * (3 - 1) - (4 - 5) << 1 >> 2;
  if (r1 == 3 || r1 != 4 && !*p) {
    *p = r1 / *p % 7;
  } else {
    if (r0 < 2) {
      r1 = 1;
    }
  }
  while (r1 <= 1) {
    r1 = r1 + 1;
    thrd_yield();
  }
  do {
    r1 = ~r1 & 6 ^ 5 | 3;
  } while (r1 > 9 || r1 >= 10);
  {
    atomic_store_explicit(y, r1, memory_order_seq_cst);
    atomic_store_explicit(y, 1, memory_order_release);
    ;
  }
  atomic_thread_fence(memory_order_acq_rel);
  assert (r0 == 1);
  if (r0) {
    int r2 = 31;
  } else {
    int r2 = -2147483648;
  }
}

P1 (mtx_t* m, cnd_t* c, atomic_int* z, int* a) {
  mtx_lock(m);
  cnd_wait(c, m);
  cnd_signal(c);
  cnd_broadcast(c);
  mtx_unlock(m);
  int r0 = mtx_trylock(m) == 0;
  int r1 = atomic_exchange_explicit(z, 1, memory_order_seq_cst) + atomic_exchange_explicit(z, 1 + 2, memory_order_acquire);
  int r2 = atomic_fetch_add_explicit(z, 1, memory_order_seq_cst) + atomic_fetch_sub_explicit(z, 1, memory_order_relaxed) + atomic_fetch_or_explicit(z, 1, memory_order_seq_cst) + atomic_fetch_xor_explicit(z, 1, memory_order_seq_cst) + atomic_fetch_and_explicit(z, 1, memory_order_seq_cst);
  int r3 = atomic_compare_exchange_strong_explicit(z, 0, 1, memory_order_seq_cst, memory_order_seq_cst);
  int r4 = atomic_compare_exchange_weak_explicit(z, &r3, 1, memory_order_seq_cst, memory_order_acquire);
  int r5 = atomic_compare_exchange_strong_explicit(z, a, 1, memory_order_seq_cst, memory_order_seq_cst);
  atomic_fetch_add_explicit(z, 1, memory_order_seq_cst);
}

P2 () {
}

locations [0:r0;[z];[a];]
filter ~1:r0=0 /\ (0:r1=1 \/ 0:r1=-1)
~exists 0:r2=-2147483648 /\ [x]=1 \/ ~[y]=2 /\ (0:r0=1 /\ (1:r3=0 \/ 1:r4=1) /\ 1:r5=0)
"#;

#[test]
fn each_part_is_written(rt: HostRuntime) -> Result<(), ReadError> {
    let text = written(rt.alloc(), ALL_PARTS.as_bytes())?;
    assert!(rt; text.as_str() == ALL_PARTS_WRITTEN, "{text}");
    comes_again(&rt, ALL_PARTS, "all parts");
    Ok(())
}

// What is read of SB, place by place.
fn is_store_buffering(test: &Test) -> bool {
    let kinds = test
        .locations
        .iter()
        .all(|x| x.kind == Kind::Atomic && x.value == 0);
    let lines = match test.threads.first() {
        Some(thread) => {
            thread.body.len() == 2 && thread.body.iter().all(|s| s.line == 5 || s.line == 6)
        }
        None => false,
    };
    let both = match &test.condition {
        Condition::And(first, second) => { is_zero(first, 0) && is_zero(second, 1) }
        _ => false,
    };
    let exists = test.quantifier == Quantifier::Exists;
    kinds && lines && both && exists && test.locations.len() == 2 && test.threads.len() == 2
}

// That the first register of the thread is 0.
fn is_zero(condition: &Condition, thread: usize) -> bool {
    match condition {
        Condition::Equal(term, value) => {
            *value == 0
                && *term
                    == Term::Register {
                        thread,
                        register: 0,
                    }
        }
        _ => false,
    }
}

#[test]
fn store_buffering_is_read(rt: HostRuntime) -> Result<(), ReadError> {
    let found = TEXTS.iter().find(|text| text.0 == "SB");
    let text = found.map_or("", |text| text.1);
    let test = read(rt.alloc(), text.as_bytes())?;
    assert!(rt; is_store_buffering(&test));
    Ok(())
}
