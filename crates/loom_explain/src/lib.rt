//! What happened in a run, in words: `explanation` has the run's events, its choices and its end, and `text` says why it failed and
//! lays the events out in columns, and `picture` draws them; `values` are their data as texts. It knows no rule of the machine, and promises no more of the words than tests compare.
#![tactic(auto)]

pub mod event;
pub mod explanation;
pub mod picture;
pub mod text;
pub mod values;
