//! The explanation of the body `deadlock`.
pub(crate) const TEXT: &str = r#"failed: deadlock, after event 7
  thread 0 (main): waits for mutex #1 ("right") since event 5; thread 1 holds it since event 6
  thread 1: waits for mutex #0 ("left") since event 7; thread 0 holds it since event 4
replay: t0 t1 t1 t-

      thread 0 (main)                          thread 1                           choice
  1   Mutex::new = #0 "left"
  2   Mutex::new = #1 "right"
  3   spawn thread 1
  4   #0.lock()                                                                   t0 of t0 t1
  5 ! #1.lock()                                                                   t1 of t0 t1
  6                                            #1.lock()                          t1 of t0 t1
  7                                          ! #0.lock(): waits                   t- of t-
"#;
