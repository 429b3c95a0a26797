//! The explanation of the body `race_unreleased`.
pub(crate) const TEXT: &str = r#"failed: race, at event 9
  thread 1 reads cell #1 ("count") and doesn't know of thread 0's write of it (event 4)
  thread 1 read store 1 of atomic #0 ("flag", thread 0, Relaxed) by an Acquire read-modify-write:
  the store released nothing
replay: t0 t1 t1 l1

      thread 0 (main)                          thread 1                           choice
  1   AtomicI32::new(0) = #0 "flag"
  2   UnsafeCell::new = #1 "count"
  3   spawn thread 1
  4 ! #1.get_mut() at spin.rs:87
  5   #1 ends
  6   #0.store(-1, Relaxed): store 1                                              t0 of t0 t1
  7   yield_now()                                                                 t1 of t1
  8                                            #0.fetch_add(1, Acquire)           t1 of t0 t1
                                                 reads store 1 (event 6): -1      l1 of l1
  9                                          ! #1.get(): race with event 4
"#;
