//! The explanation of closures that do what the body `leak_arc` does, with their data.
pub(crate) const TEXT: &str = r#"failed: leaked reference, after event 6
  Arc #0 ("shared"), made by thread 0 at event 1, has 1 reference left
  each `Arc::new` and each `clone` wants a `drop`, before main's end
replay: t0 t0 t-

      thread 0 (main)                          choice
  1   Arc::new(5) = #0 "shared"
  2   #0.clone()                               t0 of t0
  3   #0.drop()                                t0 of t0
  4   finish(0)
  5   exit()
  6   end()                                    t- of t-
"#;
