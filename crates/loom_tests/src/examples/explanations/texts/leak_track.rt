//! The explanation of the body `leak_track`.
pub(crate) const TEXT: &str = r#"failed: leaked value, after event 5
  tracked value #0 ("buffer"), made by thread 0 at event 1, wasn't given back
  each `Track::new` wants an `into_inner` or a `drop`
replay: t-

      thread 0 (main)                          choice
  1   Track::new = #0 "buffer"
  2   #0.get_ref()
  3   finish()
  4   exit()
  5   end()                                    t- of t-
"#;
