//! The explanation of the body `explore_switch`.
pub(crate) const TEXT: &str = r#"failed: idle switch, at event 2
  thread 0 switches exploring to what it is already, since event 1
replay:

      thread 0 (main)                          choice
  1   stop_exploring()
  2 ! stop_exploring(): idle switch
"#;
