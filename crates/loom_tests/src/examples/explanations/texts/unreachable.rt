//! The explanation of the body `unreachable`.
pub(crate) const TEXT: &str = r#"failed: unreachable code, at event 3 (states.rs:12)
  thread 0 came to code that is never to be reached ("the state is 0 or 1", states.rs:12)
  it came there by the reply to its operation at event 2
replay: t0

      thread 0 (main)                          choice
  1   Mutex::new = #0 "state"
  2   #0.lock()                                t0 of t0
  3 ! unreachable_unchecked() "the state is 0 or 1" at states.rs:12: unreachable code
"#;
