//! The explanation of the body `misuse`.
pub(crate) const TEXT: &str = r#"failed: misuse, at event 6
  thread 0 uses mutex #0 ("state"): the thread is to hold it
  thread 1 has it since event 4
replay: t1 t1 t0

      thread 0 (main)                          thread 1                           choice
  1   Mutex::new = #0 "state"
  2   spawn thread 1
  3   yield_now()                                                                 t1 of t1
  4                                            #0.lock()                          t1 of t0 t1
  5                                            yield_now()                        t0 of t0
  6 ! #0.release(): misuse
"#;
