//! The explanation of the body `race`.
pub(crate) const TEXT: &str = r#"failed: race, at event 10 (spin.rs:87)
  thread 1 begins to write cell #1 ("count") and doesn't know of thread 0's write of it (event 5)
  thread 1 read store 2 of atomic #0 ("flag", thread 0, Relaxed) by a Relaxed exchange:
  nothing was acquired
replay: t0 l0 t0 t1 t1 l2

      thread 0 (main)                          thread 1                           choice
  1   AtomicBool::new(false) = #0 "flag"
  2   UnsafeCell::new = #1 "count"
  3   spawn thread 1
  4   #0.compare_exchange(false, true)                                            t0 of t0 t1
        reads store 0 (initial): Ok(false)                                        l0 of l0
  5 ! #1.get_mut() at spin.rs:87
  6   #1 ends
  7   #0.store(false, Relaxed): store 2                                           t0 of t0 t1
  8   join thread 1: waits                                                        t1 of t1
  9                                            #0.compare_exchange(false, true)   t1 of t1
                                                 reads store 2 (event 7)          l2 of l2
 10                                          ! #1.get_mut() at spin.rs:87: race with event 5
"#;
