//! The explanation of the body `too_many_branches`.
pub(crate) const TEXT: &str = r#"failed: too many branches, at event 23
  thread 1 is at atomic #0 ("locked")
  a run may come to 40 branch points (`max_branches`): this one came to one more
  a loop that waits wants a `yield_now` in each turn; else raise `max_branches`
replay: t1 t1 l0 t1 l0 t1 l0 t1 l0 t1 l0 t1 l0 t1 l0 t1 l0 t1 l0 t1 l0 t1 l0 t1 l0 t1 l0 t1 l0 t1 l0
        t1 l0 t1 l0 t1 l0 t1 l0 t1

      thread 0 (main)                          thread 1                           choice
  1   AtomicBool::new(true) = #0 "locked"
  2   spawn thread 1
  3   join thread 1: waits                                                        t1 of t1
  4                                            #0.compare_exchange(false, true)   t1 of t1
                                                 reads store 0 (initial)          l0 of l0
                                               (the same 18 times more)
 23                                          ! #0.compare_exchange(false, true): too many branches
                                                                                  t1 of t1
"#;
