//! The explanation of the body `lazy_shutdown`.
pub(crate) const TEXT: &str = r#"failed: lazy value is gone, at event 7
  thread 1 uses lazy value 3, and main has given these values back, when it finished at event 3
  main is to join the threads that use them before it finishes
replay: t1 t1

      thread 0 (main)                          thread 1                           choice
  1   lazy 3.init()
  2   spawn thread 1
  3   finish()
  4   exit()
  5   end()                                                                       t1 of t1
  6                                            yield_now()                        t1 of t1
  7                                          ! lazy 3.get(): lazy value is gone
"#;
