//! The explanation of the body `too_many_threads`.
pub(crate) const TEXT: &str = r#"failed: too many threads, at event 2
  a run may have 2 threads (`max_threads`), main and ended ones counted: this spawn is for one more
  raise `max_threads`, which may be 5 at most, or spawn fewer
replay:

      thread  operation                                                           choice
  1   t0      spawn thread 1
  2 ! t0      spawn thread 2: too many threads
"#;
