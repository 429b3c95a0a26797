//! The explanation of the body `leak_waker`.
pub(crate) const TEXT: &str = r#"failed: leaked reference, after event 6
  future #1, made by thread 0 at event 1, has 1 waker left
  each waker wants a `drop` or a `wake`, and the future its `finish`
replay: t0 t0 t-

      thread 0 (main)                          choice
  1   BlockOn::new = #1
  2   #1.waker.clone()                         t0 of t0
  3   #1.finish()                              t0 of t0
  4   finish()
  5   exit()
  6   end()                                    t- of t-
"#;
