//! The explanation of the body `local_gone`.
pub(crate) const TEXT: &str = r#"failed: local is gone, at event 4
  thread 0 uses its local 2, and has given its own values back, by `exit` at event 3
  `try_with` tells whether the value is still there
replay:

      thread 0 (main)                          choice
  1   local 2.init()
  2   finish()
  3   exit()
  4 ! local 2.with(): local is gone
"#;
