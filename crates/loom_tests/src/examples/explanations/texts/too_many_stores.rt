//! The explanation of the body `too_many_stores`, up to its 65,535 choices.
pub(crate) const TEXT: &str = r#"failed: too many stores, at event 145539
  thread 1 is at atomic #0 ("hits")
  an atomic may have 65535 stores, the first value counted: this is one more
  no setting raises this: let a run store less to one atomic
"#;
