//! The explanation of the body `key_taken`.
pub(crate) const TEXT: &str = r#"failed: key is taken, at event 3
  thread 0 makes its local 2 a second time, after event 2
  `put` gives another value to a key that has one
replay:

      thread 0 (main)                          choice
  1   local 2.with(): no value yet
  2   local 2.init()
  3 ! local 2.init(): key is taken
"#;
