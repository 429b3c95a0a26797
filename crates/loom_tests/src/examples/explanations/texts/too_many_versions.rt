//! The explanation of the body `too_many_versions`.
pub(crate) const TEXT: &str = r#"failed: too many versions, at event 65535
  a thread may have 65534 versions, one for each access, fence and spawn: this is one more
  no setting raises this: let a thread do less in a run
replay:

        thread 0 (main)                          choice
    1   fence(Release)
        (the same 65533 times more)
65535 ! fence(Release): too many versions
"#;
