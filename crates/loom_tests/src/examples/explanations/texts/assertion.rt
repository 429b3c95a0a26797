//! The explanation of the body `assertion`.
pub(crate) const TEXT: &str = r#"failed: assertion, at event 12
  an assertion of thread 0 failed ("the count is 2")
  it came there by the reply to its operation at event 11
replay: t0 l0 t1 t1 l0 t1 t1 t0 t0 t0 l1

      thread 0 (main)                          thread 1                           choice
  1   AtomicU64::new(0) = #0 "count"
  2   spawn thread 1
  3   #0.load(Acquire)                                                            t0 of t0 t1
        reads store 0 (initial): 0                                                l0 of l0
  4   #0.store(1, Release)                                                        t1 of t0 t1
  5                                            #0.load(Acquire)                   t1 of t0 t1
                                                 reads store 0 (initial): 0       l0 of l0
  6                                            #0.store(1, Release): store 1      t1 of t0 t1
  7                                            finish()                           t1 of t0 t1
  8                                            exit()
  9                                            end()                              t0 of t0
        event 4: store 2
 10   join thread 1                                                               t0 of t0
 11   #0.load(Acquire)                                                            t0 of t0
        reads store 1 (event 6): 1                                                l1 of l1 l2
 12 ! fail() "the count is 2": assertion
"#;
