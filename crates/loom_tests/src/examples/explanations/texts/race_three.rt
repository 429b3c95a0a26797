//! The explanation of the body `race_three`.
pub(crate) const TEXT: &str = r#"failed: race, at event 9 (spin.rs:87)
  thread 2 begins to write cell #0 ("count") and doesn't know of one of these at least:
    thread 0's write of cell #0 ("count") (event 2)
    thread 1's read of cell #0 ("count") (event 7)
replay: t1 t2

      thread  operation                                                           choice
  1   t0      UnsafeCell::new = #0 "count"
  2   t0      #0.get_mut() at spin.rs:87
  3   t0      #0 ends
  4   t0      spawn thread 1
  5   t0      spawn thread 2
  6   t0      yield_now()                                                         t1 of t1 t2
  7   t1      #0.get()
  8   t1      yield_now()                                                         t2 of t0 t2
  9 ! t2      #0.get_mut() at spin.rs:87: race
"#;
