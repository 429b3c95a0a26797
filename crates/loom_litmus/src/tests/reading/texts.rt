//! Litmus tests as texts, each with its name.

/// All tests, each with its name.
pub const TEXTS: [(&str, &str); 29] = [
    (
        "2+2W+rel",
        r#"C 2+2W+rel
{  }

P0 (atomic_int* x, atomic_int* y) {
  atomic_store_explicit(x, 1, memory_order_release);
  atomic_store_explicit(y, 2, memory_order_release);
}

P1 (atomic_int* x, atomic_int* y) {
  atomic_store_explicit(y, 1, memory_order_release);
  atomic_store_explicit(x, 2, memory_order_release);
}

exists ([x]=1 /\ [y]=1)
"#,
    ),
    (
        "2+2W",
        r#"C 2+2W
{  }

P0 (atomic_int* x, atomic_int* y) {
  atomic_store_explicit(x, 1, memory_order_relaxed);
  atomic_store_explicit(y, 2, memory_order_relaxed);
}

P1 (atomic_int* x, atomic_int* y) {
  atomic_store_explicit(y, 1, memory_order_relaxed);
  atomic_store_explicit(x, 2, memory_order_relaxed);
}

exists ([x]=1 /\ [y]=1)
"#,
    ),
    (
        "3.LB",
        r#"C 3.LB
{  }

P0 (atomic_int* x, atomic_int* y) {
  int r0 = atomic_load_explicit(x, memory_order_relaxed);
  atomic_store_explicit(y, 1, memory_order_relaxed);
}

P1 (atomic_int* y, atomic_int* z) {
  int r0 = atomic_load_explicit(y, memory_order_relaxed);
  atomic_store_explicit(z, 1, memory_order_relaxed);
}

P2 (atomic_int* x, atomic_int* z) {
  int r0 = atomic_load_explicit(z, memory_order_relaxed);
  atomic_store_explicit(x, 1, memory_order_relaxed);
}

exists (0:r0=1 /\ 1:r0=1 /\ 2:r0=1)
"#,
    ),
    (
        "CAS-none-wins",
        r#"C CAS-none-wins
{  }

P0 (atomic_int* x) {
  int r0 = atomic_compare_exchange_strong_explicit(x, 0, 1, memory_order_relaxed, memory_order_relaxed);
}

P1 (atomic_int* x) {
  int r0 = atomic_compare_exchange_strong_explicit(x, 0, 2, memory_order_relaxed, memory_order_relaxed);
}

exists (0:r0=0 /\ 1:r0=0)
"#,
    ),
    (
        "CoRR",
        r#"C CoRR
{  }

P0 (atomic_int* x) {
  atomic_store_explicit(x, 1, memory_order_relaxed);
  atomic_store_explicit(x, 2, memory_order_relaxed);
}

P1 (atomic_int* x) {
  int r0 = atomic_load_explicit(x, memory_order_relaxed);
  int r1 = atomic_load_explicit(x, memory_order_relaxed);
}

exists (1:r0=2 /\ 1:r1=1)
"#,
    ),
    (
        "CoRR2",
        r#"C CoRR2
{  }

P0 (atomic_int* x) {
  atomic_store_explicit(x, 1, memory_order_relaxed);
}

P1 (atomic_int* x) {
  atomic_store_explicit(x, 2, memory_order_relaxed);
}

P2 (atomic_int* x) {
  int r0 = atomic_load_explicit(x, memory_order_relaxed);
  int r1 = atomic_load_explicit(x, memory_order_relaxed);
}

P3 (atomic_int* x) {
  int r0 = atomic_load_explicit(x, memory_order_relaxed);
  int r1 = atomic_load_explicit(x, memory_order_relaxed);
}

exists (2:r0=1 /\ 2:r1=2 /\ 3:r0=2 /\ 3:r1=1)
"#,
    ),
    (
        "CoRW2",
        r#"C CoRW2
{  }

P0 (atomic_int* x) {
  int r0 = atomic_load_explicit(x, memory_order_relaxed);
  atomic_store_explicit(x, 1, memory_order_relaxed);
}

P1 (atomic_int* x) {
  atomic_store_explicit(x, 2, memory_order_relaxed);
}

exists (0:r0=2 /\ [x]=2)
"#,
    ),
    (
        "CoWW",
        r#"C CoWW
{  }

P0 (atomic_int* x) {
  atomic_store_explicit(x, 1, memory_order_relaxed);
  atomic_store_explicit(x, 2, memory_order_relaxed);
}

exists ([x]=1)
"#,
    ),
    (
        "Dekker+scfences",
        r#"C Dekker+scfences
{  }

P0 (atomic_int* x, atomic_int* y, int* d) {
  atomic_store_explicit(x, 1, memory_order_relaxed);
  atomic_thread_fence(memory_order_seq_cst);
  int r0 = atomic_load_explicit(y, memory_order_relaxed);
  if (r0 == 0) { *d = 1; }
}

P1 (atomic_int* x, atomic_int* y, int* d) {
  atomic_store_explicit(y, 1, memory_order_relaxed);
  atomic_thread_fence(memory_order_seq_cst);
  int r0 = atomic_load_explicit(x, memory_order_relaxed);
  if (r0 == 0) { *d = 2; }
}

exists (0:r0=0 /\ 1:r0=0)
"#,
    ),
    (
        "IRIW+sc",
        r#"C IRIW+sc
{  }

P0 (atomic_int* x) {
  atomic_store_explicit(x, 1, memory_order_seq_cst);
}

P1 (atomic_int* y) {
  atomic_store_explicit(y, 1, memory_order_seq_cst);
}

P2 (atomic_int* x, atomic_int* y) {
  int r0 = atomic_load_explicit(x, memory_order_seq_cst);
  int r1 = atomic_load_explicit(y, memory_order_seq_cst);
}

P3 (atomic_int* x, atomic_int* y) {
  int r0 = atomic_load_explicit(y, memory_order_seq_cst);
  int r1 = atomic_load_explicit(x, memory_order_seq_cst);
}

exists (2:r0=1 /\ 2:r1=0 /\ 3:r0=1 /\ 3:r1=0)
"#,
    ),
    (
        "IRIW",
        r#"C IRIW
{  }

P0 (atomic_int* x) {
  atomic_store_explicit(x, 1, memory_order_relaxed);
}

P1 (atomic_int* y) {
  atomic_store_explicit(y, 1, memory_order_relaxed);
}

P2 (atomic_int* x, atomic_int* y) {
  int r0 = atomic_load_explicit(x, memory_order_relaxed);
  int r1 = atomic_load_explicit(y, memory_order_relaxed);
}

P3 (atomic_int* x, atomic_int* y) {
  int r0 = atomic_load_explicit(y, memory_order_relaxed);
  int r1 = atomic_load_explicit(x, memory_order_relaxed);
}

exists (2:r0=1 /\ 2:r1=0 /\ 3:r0=1 /\ 3:r1=0)
"#,
    ),
    (
        "ISA2+rlx",
        r#"C ISA2+rlx
{  }

P0 (atomic_int* x, atomic_int* y) {
  atomic_store_explicit(x, 1, memory_order_relaxed);
  atomic_store_explicit(y, 1, memory_order_relaxed);
}

P1 (atomic_int* y, atomic_int* z) {
  int r0 = atomic_load_explicit(y, memory_order_relaxed);
  atomic_store_explicit(z, 1, memory_order_relaxed);
}

P2 (atomic_int* x, atomic_int* z) {
  int r0 = atomic_load_explicit(z, memory_order_relaxed);
  int r1 = atomic_load_explicit(x, memory_order_relaxed);
}

exists (1:r0=1 /\ 2:r0=1 /\ 2:r1=0)
"#,
    ),
    (
        "LB",
        r#"C LB
{  }

P0 (atomic_int* x, atomic_int* y) {
  int r0 = atomic_load_explicit(x, memory_order_relaxed);
  atomic_store_explicit(y, 1, memory_order_relaxed);
}

P1 (atomic_int* x, atomic_int* y) {
  int r0 = atomic_load_explicit(y, memory_order_relaxed);
  atomic_store_explicit(x, 1, memory_order_relaxed);
}

exists (0:r0=1 /\ 1:r0=1)
"#,
    ),
    (
        "MP+na+rlx+rlx",
        r#"C MP+na+rlx+rlx
{  }

P0 (atomic_int* y, int* d) {
  *d = 1;
  atomic_store_explicit(y, 1, memory_order_relaxed);
}

P1 (atomic_int* y, int* d) {
  int r0 = atomic_load_explicit(y, memory_order_relaxed);
  int r1 = 9;
  if (r0 == 1) { r1 = *d; }
}

exists (1:r0=1 /\ 1:r1=0)
"#,
    ),
    (
        "MP+rel+rlx",
        r#"C MP+rel+rlx
{  }

P0 (atomic_int* x, atomic_int* y) {
  atomic_store_explicit(x, 1, memory_order_relaxed);
  atomic_store_explicit(y, 1, memory_order_release);
}

P1 (atomic_int* x, atomic_int* y) {
  int r0 = atomic_load_explicit(y, memory_order_relaxed);
  int r1 = atomic_load_explicit(x, memory_order_relaxed);
}

exists (1:r0=1 /\ 1:r1=0)
"#,
    ),
    (
        "MP+relfence+acq",
        r#"C MP+relfence+acq
{  }

P0 (atomic_int* x, atomic_int* y) {
  atomic_store_explicit(x, 1, memory_order_relaxed);
  atomic_thread_fence(memory_order_release);
  atomic_store_explicit(y, 1, memory_order_relaxed);
}

P1 (atomic_int* x, atomic_int* y) {
  int r0 = atomic_load_explicit(y, memory_order_acquire);
  int r1 = atomic_load_explicit(x, memory_order_relaxed);
}

exists (1:r0=1 /\ 1:r1=0)
"#,
    ),
    (
        "MP+relfence+rlx",
        r#"C MP+relfence+rlx
{  }

P0 (atomic_int* x, atomic_int* y) {
  atomic_store_explicit(x, 1, memory_order_relaxed);
  atomic_thread_fence(memory_order_release);
  atomic_store_explicit(y, 1, memory_order_relaxed);
}

P1 (atomic_int* x, atomic_int* y) {
  int r0 = atomic_load_explicit(y, memory_order_relaxed);
  int r1 = atomic_load_explicit(x, memory_order_relaxed);
}

exists (1:r0=1 /\ 1:r1=0)
"#,
    ),
    (
        "MP+sc+sc",
        r#"C MP+sc+sc
{  }

P0 (atomic_int* x, atomic_int* y) {
  atomic_store_explicit(x, 1, memory_order_seq_cst);
  atomic_store_explicit(y, 1, memory_order_seq_cst);
}

P1 (atomic_int* x, atomic_int* y) {
  int r0 = atomic_load_explicit(y, memory_order_seq_cst);
  int r1 = atomic_load_explicit(x, memory_order_seq_cst);
}

exists (1:r0=1 /\ 1:r1=0)
"#,
    ),
    (
        "R+scfences",
        r#"C R+scfences
{  }

P0 (atomic_int* x, atomic_int* y) {
  atomic_store_explicit(x, 1, memory_order_relaxed);
  atomic_thread_fence(memory_order_seq_cst);
  atomic_store_explicit(y, 1, memory_order_relaxed);
}

P1 (atomic_int* x, atomic_int* y) {
  atomic_store_explicit(y, 2, memory_order_relaxed);
  atomic_thread_fence(memory_order_seq_cst);
  int r0 = atomic_load_explicit(x, memory_order_relaxed);
}

exists (1:r0=0 /\ [y]=2)
"#,
    ),
    (
        "RMW-atomicity",
        r#"C RMW-atomicity
{  }

P0 (atomic_int* x) {
  int r0 = atomic_fetch_add_explicit(x, 1, memory_order_relaxed);
}

P1 (atomic_int* x) {
  int r0 = atomic_fetch_add_explicit(x, 1, memory_order_relaxed);
}

exists (0:r0=0 /\ 1:r0=0)
"#,
    ),
    (
        "RMW-sum",
        r#"C RMW-sum
{  }

P0 (atomic_int* x) {
  int r0 = atomic_fetch_add_explicit(x, 1, memory_order_relaxed);
}

P1 (atomic_int* x) {
  int r0 = atomic_fetch_add_explicit(x, 1, memory_order_relaxed);
}

exists ([x]=1)
"#,
    ),
    (
        "RWC",
        r#"C RWC
{  }

P0 (atomic_int* x) {
  atomic_store_explicit(x, 1, memory_order_relaxed);
}

P1 (atomic_int* x, atomic_int* y) {
  int r0 = atomic_load_explicit(x, memory_order_relaxed);
  int r1 = atomic_load_explicit(y, memory_order_relaxed);
}

P2 (atomic_int* x, atomic_int* y) {
  atomic_store_explicit(y, 1, memory_order_relaxed);
  int r0 = atomic_load_explicit(x, memory_order_relaxed);
}

exists (1:r0=1 /\ 1:r1=0 /\ 2:r0=0)
"#,
    ),
    (
        "S",
        r#"C S
{  }

P0 (atomic_int* x, atomic_int* y) {
  atomic_store_explicit(x, 2, memory_order_relaxed);
  atomic_store_explicit(y, 1, memory_order_relaxed);
}

P1 (atomic_int* x, atomic_int* y) {
  int r0 = atomic_load_explicit(y, memory_order_relaxed);
  atomic_store_explicit(x, 1, memory_order_relaxed);
}

exists (1:r0=1 /\ [x]=2)
"#,
    ),
    (
        "SB+rel+acq",
        r#"C SB+rel+acq
{  }

P0 (atomic_int* x, atomic_int* y) {
  atomic_store_explicit(x, 1, memory_order_release);
  int r0 = atomic_load_explicit(y, memory_order_acquire);
}

P1 (atomic_int* x, atomic_int* y) {
  atomic_store_explicit(y, 1, memory_order_release);
  int r0 = atomic_load_explicit(x, memory_order_acquire);
}

exists (0:r0=0 /\ 1:r0=0)
"#,
    ),
    (
        "SB+scfence+acqrelfence",
        r#"C SB+scfence+acqrelfence
{  }

P0 (atomic_int* x, atomic_int* y) {
  atomic_store_explicit(x, 1, memory_order_relaxed);
  atomic_thread_fence(memory_order_seq_cst);
  int r0 = atomic_load_explicit(y, memory_order_relaxed);
}

P1 (atomic_int* x, atomic_int* y) {
  atomic_store_explicit(y, 1, memory_order_relaxed);
  atomic_thread_fence(memory_order_acq_rel);
  int r0 = atomic_load_explicit(x, memory_order_relaxed);
}

exists (0:r0=0 /\ 1:r0=0)
"#,
    ),
    (
        "SB",
        r#"C SB
{  }

P0 (atomic_int* x, atomic_int* y) {
  atomic_store_explicit(x, 1, memory_order_relaxed);
  int r0 = atomic_load_explicit(y, memory_order_relaxed);
}

P1 (atomic_int* x, atomic_int* y) {
  atomic_store_explicit(y, 1, memory_order_relaxed);
  int r0 = atomic_load_explicit(x, memory_order_relaxed);
}

exists (0:r0=0 /\ 1:r0=0)
"#,
    ),
    (
        "WRC+rlx+rel+acq",
        r#"C WRC+rlx+rel+acq
{  }

P0 (atomic_int* x) {
  atomic_store_explicit(x, 1, memory_order_relaxed);
}

P1 (atomic_int* x, atomic_int* y) {
  int r0 = atomic_load_explicit(x, memory_order_relaxed);
  atomic_store_explicit(y, 1, memory_order_release);
}

P2 (atomic_int* x, atomic_int* y) {
  int r0 = atomic_load_explicit(y, memory_order_acquire);
  int r1 = atomic_load_explicit(x, memory_order_relaxed);
}

exists (1:r0=1 /\ 2:r0=1 /\ 2:r1=0)
"#,
    ),
    (
        "XCHG-lock",
        r#"C XCHG-lock
{  }

P0 (atomic_int* x) {
  int r0 = atomic_exchange_explicit(x, 1, memory_order_acquire);
}

P1 (atomic_int* x) {
  int r0 = atomic_exchange_explicit(x, 1, memory_order_acquire);
}

exists (0:r0=0 /\ 1:r0=0)
"#,
    ),
    (
        "store-between-rmw",
        r#"C store-between-rmw
{  }

P0 (atomic_int* x) {
  int r0 = atomic_fetch_add_explicit(x, 1, memory_order_relaxed);
}

P1 (atomic_int* x) {
  atomic_store_explicit(x, 5, memory_order_relaxed);
}

exists (0:r0=0 /\ [x]=1)
"#,
    ),
];
