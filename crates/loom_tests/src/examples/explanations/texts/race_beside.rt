//! The explanation of the body `race_beside`.
pub(crate) const TEXT: &str = r#"failed: race, at event 10
  thread 1 begins to read cell #0 ("count") and doesn't know of thread 0's write of it (event 3)
  nothing orders the two: thread 1 has read nothing that thread 0 stored after it
replay: t1

      thread 0 (main)                          thread 1                           choice
  1   UnsafeCell::new = #0 "count"
  2   spawn thread 1
  3 ! #0.get_mut() at spin.rs:87
  4   #0 ends
  5   #0.get()
  6   #0 ends
  7   finish()
  8   exit()
  9   end()                                                                       t1 of t1
 10                                          ! #0.get(): race with event 3
"#;
