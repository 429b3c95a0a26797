//! The explanation of the body `open_access`.
pub(crate) const TEXT: &str = r#"failed: open access, at event 5
  thread 1 begins to read cell #0 ("count"), which thread 0 has open since event 3: #0.get_mut()
replay: t1

      thread 0 (main)                          thread 1                           choice
  1   UnsafeCell::new = #0 "count"
  2   spawn thread 1
  3   #0.get_mut() at spin.rs:87
  4   yield_now()                                                                 t1 of t1
  5                                          ! #0.get(): open access
"#;
