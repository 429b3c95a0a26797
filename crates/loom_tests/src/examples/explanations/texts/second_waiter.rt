//! The explanation of the body `second_waiter`.
pub(crate) const TEXT: &str = r#"failed: second waiter, at event 4
  thread 1 is to wait on notifier #0 ("state"), and one thread may at a time
  thread 0 waits on it since event 3
replay: s0 t1

      thread 0 (main)                          thread 1                           choice
  1   Notify::new = #0 "state"
  2   spawn thread 1
  3   #0.wait(): waits                                                            s0 of s0 s1
                                                                                  t1 of t1
  4                                          ! #0.wait(): second waiter
"#;
