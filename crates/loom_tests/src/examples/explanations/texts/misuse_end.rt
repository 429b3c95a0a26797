//! The explanation of the body `misuse_end`.
pub(crate) const TEXT: &str = r#"failed: misuse, at event 1
  thread 0's end(): `finish`, `exit` and `end` come once each, in this order
replay:

      thread 0 (main)                          choice
  1 ! end(): misuse
"#;
