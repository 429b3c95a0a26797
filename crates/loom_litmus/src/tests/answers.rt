//! Tests of the parts of the language that the first tests don't have, with results that follow from C's rules.
use crate::tests::finding::found;

/// Texts, each with what is found of it.
const CASES: [(&str, &str); 16] = [
    // What is released is acquired, so there is no race.
    (
        r#"C MP+rel+acq
{ x = 0; }

P0 (atomic_int* x, int* data) {
  *data = 1;
  atomic_store_explicit(x, 1, memory_order_release);
}

P1 (atomic_int* x, int* data) {
  int r0 = atomic_load_explicit(x, memory_order_acquire);
  int r1 = 9;
  if (r0 == 1) { r1 = *data; }
}

exists (1:r0=1 /\ 1:r1=0)
"#,
        "States 2\n1:r0=0; 1:r1=9;\n1:r0=1; 1:r1=1;\nNo",
    ),
    // A relaxed fence orders nothing.
    (
        r#"C relaxed+fence
{ }
P0 (atomic_int* x) { atomic_thread_fence(memory_order_relaxed); atomic_store(x, 1); }
forall ([x]=1)
"#,
        "States 1\n[x]=1;\nOk",
    ),
    // Under a lock each thread finds what the other has left.
    (
        r#"C lock
{ int d; mtx_t m; }
P0 (int* d, mtx_t* m) { mtx_lock(m); int r0 = *d; *d = r0 + 1; mtx_unlock(m); }
P1 (int* d, mtx_t* m) { mtx_lock(m); int r0 = *d; *d = r0 + 1; mtx_unlock(m); }
forall ([d]=2)
"#,
        "States 1\n[d]=2;\nOk",
    ),
    // Two locks, taken in two orders.
    (
        r#"C deadlock
{ mtx_t m; mtx_t n; }
P0 (mtx_t* m, mtx_t* n) { mtx_lock(m); mtx_lock(n); mtx_unlock(n); mtx_unlock(m); }
P1 (mtx_t* m, mtx_t* n) { int r0; mtx_lock(n); mtx_lock(m); mtx_unlock(m); mtx_unlock(n); }
exists (1:r0=0)
"#,
        "Flag deadlock",
    ),
    // A lock that is held isn't waited for. Others see that it is held where the thread that holds it reaches a branch point.
    (
        r#"C trylock
{ int d; mtx_t m; }
P0 (int* d, mtx_t* m) {
  int r0 = mtx_trylock(m);
  if (r0 == 0) { *d = 1; mtx_unlock(m); }
}
P1 (int* d, mtx_t* m, atomic_int* x) { mtx_lock(m); atomic_store(x, 1); *d = 2; mtx_unlock(m); }
~exists (0:r0=1 /\ [d]=1)
"#,
        "States 3\n0:r0=0; [d]=1;\n0:r0=0; [d]=2;\n0:r0=1; [d]=2;\nOk",
    ),
    // Who waits on a condition variable goes on once it is signalled.
    (
        r#"C condvar
{ int d; mtx_t m; cnd_t c; }
P0 (int* d, mtx_t* m, cnd_t* c) {
  mtx_lock(m);
  while (*d == 0) { cnd_wait(c, m); }
  int r0 = *d;
  mtx_unlock(m);
}
P1 (int* d, mtx_t* m, cnd_t* c) { mtx_lock(m); *d = 5; cnd_signal(c); mtx_unlock(m); }
forall (0:r0=5)
"#,
        "States 1\n0:r0=5;\nOk",
    ),
    // Without a signal it waits for ever.
    (
        r#"C no+signal
{ int d; mtx_t m; cnd_t c; }
P0 (int* d, mtx_t* m, cnd_t* c) {
  mtx_lock(m);
  while (*d == 0) { cnd_wait(c, m); }
  mtx_unlock(m);
}
P1 (int* d, mtx_t* m) { mtx_lock(m); *d = 5; mtx_unlock(m); }
forall ([d]=5)
"#,
        "Flag deadlock",
    ),
    // States that the filter drops aren't shown.
    (
        r#"C filter
{ }
P0 (atomic_int* x, atomic_int* y) {
  atomic_store_explicit(x, 1, memory_order_relaxed);
  int r0 = atomic_load_explicit(y, memory_order_relaxed);
}
P1 (atomic_int* x, atomic_int* y) {
  atomic_store_explicit(y, 1, memory_order_relaxed);
  int r0 = atomic_load_explicit(x, memory_order_relaxed);
}
locations [x;]
filter (0:r0=1)
exists (1:r0=0)
"#,
        "States 2\n1:r0=0; [x]=1;\n1:r0=1; [x]=1;\nOk",
    ),
    // An assertion that fails.
    (
        r#"C assertion
{ }
P0 (atomic_int* x) { int r0 = atomic_load(x); assert(r0 == 0); }
P1 (atomic_int* x) { atomic_store(x, 1); }
forall (0:r0=0)
"#,
        "Flag assertion",
    ),
    // A loop that waits, and lets others go first.
    (
        r#"C waiting
{ int d; }
P0 (atomic_int* x, int* d) {
  while (atomic_load_explicit(x, memory_order_acquire) == 0) { thrd_yield(); }
  int r0 = *d;
}
P1 (atomic_int* x, int* d) {
  *d = 7;
  atomic_store_explicit(x, 1, memory_order_release);
}
forall (0:r0=7)
"#,
        "States 1\n0:r0=7;\nOk",
    ),
    // A loop without an operation never ends.
    (
        r#"C for+ever
{ }
P0 (atomic_int* x) { int r0; while (1) { r0 = r0 + 1; } }
exists (0:r0=0)
"#,
        "Flag steps",
    ),
    // C's arithmetic on ints of 32 bits.
    (
        r#"C arithmetic
{ }
P0 (atomic_int* x) {
  int r0 = -7 / 2;
  int r1 = -7 % 2;
  int r2 = -7 >> 1;
  int r3 = (1 << 31) < 0;
  int r4 = ~5;
  int r5 = -1 < 0;
  int r6 = 2147483647 + 1 < 0;
  int r7 = !3;
}
forall (0:r0=-3 /\ 0:r1=-1 /\ 0:r2=-4 /\ 0:r3=1 /\ 0:r4=-6 /\ 0:r5=1 /\ 0:r6=1 /\ 0:r7=0)
"#,
        "States 1\n0:r0=-3; 0:r1=-1; 0:r2=-4; 0:r3=1; 0:r4=-6; 0:r5=1; 0:r6=1; 0:r7=0;\nOk",
    ),
    // What follows `&&` and `||` is evaluated only where it is needed, and a division by 0 fails.
    (
        r#"C short
{ }
P0 (atomic_int* x) {
  int r0 = 0 && atomic_fetch_add(x, 1);
  int r1 = 2 || atomic_fetch_add(x, 1);
  int r2 = 3 && atomic_fetch_add(x, 1);
  int r3 = 0 || atomic_fetch_add(x, 1);
}
forall (0:r0=0 /\ 0:r1=1 /\ 0:r2=0 /\ 0:r3=1 /\ [x]=2)
"#,
        "States 1\n0:r0=0; 0:r1=1; 0:r2=0; 0:r3=1; [x]=2;\nOk",
    ),
    (
        r#"C division
{ }
P0 (atomic_int* x) { int r0 = 1 / atomic_load(x); }
forall (0:r0=0)
"#,
        "Flag assertion",
    ),
    // A compare-exchange that fails gives what it found.
    (
        r#"C found
{ x = 3; int e = 4; }
P0 (atomic_int* x, int* e) {
  int r0 = 5;
  int r1 = atomic_compare_exchange_strong(x, &r0, 9);
  int r2 = atomic_compare_exchange_strong(x, e, 9);
  int r3 = atomic_compare_exchange_strong(x, &r0, 9);
  int r4 = atomic_exchange(x, r0 + r1);
}
forall (0:r0=3 /\ 0:r1=0 /\ 0:r2=0 /\ 0:r3=1 /\ 0:r4=9 /\ [x]=3 /\ [e]=3)
"#,
        "States 1\n0:r0=3; 0:r1=0; 0:r2=0; 0:r3=1; 0:r4=9; [e]=3; [x]=3;\nOk",
    ),
    // A loop of the other kind.
    (
        r#"C do
{ }
P0 (atomic_int* x) {
  int r0;
  do { r0 = r0 + 1; if (r0 == 3) { atomic_fetch_or(x, 6); } else { atomic_fetch_xor(x, 1); } } while (r0 < 5);
}
exists (0:r0=5 /\ [x]=6)
"#,
        "States 1\n0:r0=5; [x]=6;\nOk",
    ),
];

#[test]
fn answers_follow_from_the_rules(rt: HostRuntime) {
    for (text, wanted) in &CASES {
        let found = found(rt.alloc(), text);
        assert!(rt; found.as_str() == *wanted, "{text}: {found}");
    }
}
