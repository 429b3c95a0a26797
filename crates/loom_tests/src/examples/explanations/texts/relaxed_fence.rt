//! The explanation of the body `relaxed_fence`.
pub(crate) const TEXT: &str = r#"failed: relaxed fence, at event 1
  thread 0 makes a fence with Relaxed, which orders nothing
  a fence is Acquire, Release, AcqRel or SeqCst
replay:

      thread 0 (main)                          choice
  1 ! fence(Relaxed): relaxed fence
"#;
