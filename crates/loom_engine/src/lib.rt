//! The search: the path through the choices of a run (`rt::path`), its text (`rt::path::checkpoint`), and the execution of one run
//! (`rt::execution`). `laws` has what is proved of walks over all runs of a machine and of a body.
#![tactic(auto)]

pub mod laws;
pub mod rt;
