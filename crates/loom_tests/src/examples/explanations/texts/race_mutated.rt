//! The explanation of the body `race_mutated`.
pub(crate) const TEXT: &str = r#"failed: race, at event 6
  thread 1 stores to atomic #0 ("flag") and doesn't know of thread 0's mutation of it (event 4)
  nothing orders the two: thread 1 has read nothing that thread 0 stored after it
replay: t1 t1

      thread 0 (main)                          thread 1                           choice
  1   AtomicU8::new(7) = #0 "flag"
  2   spawn thread 1
  3   #0.with_mut(): 7
  4 ! #0 ends with (9)
  5   yield_now()                                                                 t1 of t1
  6                                          ! #0.store(44, Release): race with event 4
                                                                                  t1 of t0 t1
"#;
