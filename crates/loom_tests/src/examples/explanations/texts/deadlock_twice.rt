//! The explanation of the body `deadlock_twice`.
pub(crate) const TEXT: &str = r#"failed: deadlock, after event 3
  thread 0 (main): waits for mutex #0 since event 3; it holds it itself since event 2
replay: t0 t-

      thread 0 (main)                          choice
  1   Mutex::new = #0
  2   #0.lock()                                t0 of t0
  3 ! #0.lock(): waits                         t- of t-
"#;
