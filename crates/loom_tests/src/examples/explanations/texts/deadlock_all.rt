//! The explanation of the body `deadlock_all`.
pub(crate) const TEXT: &str = r#"failed: deadlock, after event 15
  thread 0 (main): waits for a message of channel #1 since event 11
  thread 1: waits to write RwLock #0 ("table") since event 12; thread 0 holds it since event 5
  thread 2: waits to read RwLock #3 since event 13; thread 0 holds it since event 6
  thread 3: parked, without a token, since event 14
  thread 4: waits for a notification of notifier #2 since event 15
replay: t0 t0 t1 t2 t3 t4 s0 t-

      thread  operation                                                           choice
  1   t0      RwLock::new = #0 "table"
  2   t0      channel = #1
  3   t0      Notify::new = #2
  4   t0      RwLock::new = #3
  5   t0      #0.read()                                                           t0 of t0
  6   t0      #3.write()                                                          t0 of t0
  7   t0      spawn thread 1
  8   t0      spawn thread 2
  9   t0      spawn thread 3
 10   t0      spawn thread 4
 11 ! t0      #1.recv(): waits                                                    t1 of t1 t2 t3 t4
 12 ! t1      #0.write(): waits                                                   t2 of t2 t3 t4
 13 ! t2      #3.read(): waits                                                    t3 of t3 t4
 14 ! t3      park(): waits                                                       t4 of t4
 15 ! t4      #2.wait(): waits                                                    s0 of s0 s1
                                                                                  t- of t-
"#;
