//! The explanation of the body `deadlock_asleep`.
pub(crate) const TEXT: &str = r#"failed: deadlock, after event 17
  thread 0 (main): has ended
  thread 1 ("first"): has ended
  thread 2 ("second"): asleep on condvar #1 ("not empty") since event 9
replay: t1 t1 t1 t2 t2 t2 t0 t1 t1 t1 t0 t-

      thread  operation                                                           choice
  1   t0      Mutex::new = #0 "queue"
  2   t0      Condvar::new = #1 "not empty"
  3   t0      spawn thread 1 "first"
  4   t0      spawn thread 2 "second"
  5   t0      #1.notify_one()                                                     t1 of t0 t1 t2
  6   t1      #0.lock()                                                           t1 of t0 t1 t2
  7   t1      #1.wait(#0)                                                         t1 of t0 t1 t2
      t1        sleeps, and gives the mutex free                                  t2 of t0 t2
  8   t2      #0.lock()                                                           t2 of t0 t2
  9 ! t2      #1.wait(#0)                                                         t2 of t0 t2
      t2        sleeps, and gives the mutex free                                  t0 of t0
 10   t0      join thread 1: waits                                                t1 of t1
      t1        event 7: is woken, and wants the mutex                            t1 of t1
      t1        event 7: holds it
 11   t1      #0.release()
 12   t1      finish()                                                            t1 of t1
 13   t1      exit()
 14   t1      end()                                                               t0 of t0
      t0        event 10: has the value
 15   t0      finish()
 16   t0      exit()
 17   t0      end()                                                               t- of t-
"#;
