//! The explanation of the body `too_many_steps`.
pub(crate) const TEXT: &str = r#"failed: too many operations, at event 31
  the threads of a run may hand over 30 operations (`max_steps`): this is one more
  a loop that waits wants a `yield_now` in each turn; else raise `max_steps`
replay: t1 t1 l0 t1 t1 l0 t1 t1 l0 t1 t1 l0 t1 t1 l0 t1 t1 l0 t1 t1 l0 t1 t1 l0 t1 t1 l0 t1 t1 l0 t1
        t1 l0 t1 t1 l0 t1 t1 l0 t1 t1 l0

      thread 0 (main)                          thread 1                           choice
  1   AtomicBool::new(true) = #0 "locked"
  2   spawn thread 1
  3   join thread 1: waits                                                        t1 of t1
  4                                            #0.compare_exchange(false, true)   t1 of t1
                                                 reads store 0 (initial)          l0 of l0
  5                                            yield_now()                        t1 of t1
                                               (these 2 events the same 12 times more)
 30                                            #0.compare_exchange(false, true)   t1 of t1
                                                 reads store 0 (initial)          l0 of l0
 31                                          ! yield_now(): too many operations
"#;
