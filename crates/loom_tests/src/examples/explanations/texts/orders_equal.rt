//! The explanation of the body `orders_equal`.
pub(crate) const TEXT: &str = r#"failed: choices that don't fit, after event 11
  the run met 7 of the choices that were given: choice 8 is none of those that stand there
  the choices are another body's, or those of another form of this one
replay: t0 t1 t1 t1 t0 l2 t1

      thread  operation                                                           choice
  1   t0      AtomicU64::new(0) = #0 "hits"
  2   t0      spawn thread 1
  3   t0      #0.store(3, Relaxed): store 1                                       t0 of t0 t1
  4   t0      spawn thread 2
  5   t0      #0.load(Relaxed)                                                    t1 of t0 t1 t2
  6   t1      #0.store(0, Relaxed): store 2                                       t1 of t0 t1 t2
  7   t1      #0.store(0, Relaxed): store 3                                       t1 of t0 t1 t2
  8   t1      #0.fetch_add(1, Relaxed)                                            t0 of t0 t1 t2
      t0        event 5 reads store 2 (event 6): 0                                l2 of l1 l2 l3
  9   t0      finish()
 10   t0      exit()
 11   t0      end()                                                               t1 of t1 t2
"#;
