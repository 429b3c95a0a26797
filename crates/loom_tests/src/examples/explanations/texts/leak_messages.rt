//! The explanation of the body `leak_messages`.
pub(crate) const TEXT: &str = r#"failed: leaked messages, after event 7
  channel #0, made by thread 0 at event 1, has 1 message left
  receive what was sent, or drop the receiver
replay: t0 t0 t0 t-

      thread 0 (main)                          choice
  1   channel = #0
  2   #0.send()                                t0 of t0
  3   #0.send()                                t0 of t0
  4   #0.recv()                                t0 of t0
  5   finish()
  6   exit()
  7   end()                                    t- of t-
"#;
