//! What the program prints of `relaxed_ring_closures` with `--explain`: a ring of two slots whose producer stores by `Relaxed`.
pub(crate) const TEXT: &str = r#"failed 3 0 t0 l0 t1 t1 t1 t1 l0 t0 t0 l1
failed: race, at event 15
  thread 0 reads cell #2 ("even") and doesn't know of thread 1's write of it (event 8)
  thread 0 read store 1 of atomic #1 ("put", thread 1, Relaxed) by an Acquire load:
  the store released nothing
replay: t0 l0 t1 t1 t1 t1 l0 t0 t0 l1

      thread 0 (main)                          thread 1 ("producer")              choice
  1   AtomicU64::new(0) = #0 "taken"
  2   AtomicU64::new(0) = #1 "put"
  3   UnsafeCell::new(0) = #2 "even"
  4   UnsafeCell::new(0) = #3 "odd"
  5   spawn thread 1 "producer"
  6   #1.load(Acquire)                                                            t0 of t0 t1
        reads store 0 (initial): 0                                                l0 of l0
  7   yield_now()                                                                 t1 of t1
  8                                          ! #2.replace(11): 0
  9                                            #1.store(1, Relaxed): store 1      t1 of t0 t1
 10                                            #3.replace(12): 0
 11                                            #1.store(2, Relaxed): store 2      t1 of t0 t1
 12                                            #0.load(Acquire)                   t1 of t0 t1
                                                 reads store 0 (initial): 0       l0 of l0
 13                                            yield_now()                        t0 of t0
 14   #1.load(Acquire)                                                            t0 of t0 t1
        reads store 1 (event 9): 1                                                l1 of l1 l2
 15 ! #2.get(): race with event 8
"#;
