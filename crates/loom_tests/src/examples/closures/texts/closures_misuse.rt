//! The explanation of closures that do what the body `misuse_apart` does, with their data.
pub(crate) const TEXT: &str = r#"failed: misuse, at event 3
  thread 0 uses mutex #0 ("state"), which was taken apart at event 2
replay:

      thread 0 (main)                          choice
  1   Mutex::new(0) = #0 "state"
  2   #0.into_inner(): 0
  3 ! #0.lock(): misuse
"#;
