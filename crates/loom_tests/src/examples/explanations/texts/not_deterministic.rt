//! The explanation of the body `not_deterministic`.
pub(crate) const TEXT: &str = r#"failed: choices that don't fit, after event 6
  the run met 2 of the choices that were given: choice 3 is none of those that stand there
  the choices are another body's, or those of another form of this one
replay: t0 t1

      thread 0 (main)                          thread 1                           choice
  1   Mutex::new = #0 "left"
  2   Mutex::new = #1 "right"
  3   spawn thread 1
  4   #0.lock()                                                                   t0 of t0 t1
  5   #1.lock()                                                                   t1 of t0 t1
  6                                            #1.lock()
"#;
