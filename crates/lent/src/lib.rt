// The four calls on numbers and lent bytes, a file for each. The weights that a call works on are worked out afresh from the table, and each
// weight of the lent bytes is held against its own. They are encoded only where something was written.
#![tactic(auto)]

pub mod examine; // "The surface is examined": 6, or the weights and how many slots are used
mod counts; // the two counts of a result
mod told; // a result as the number that the host is told
pub mod check;
pub mod clear;
pub mod list;
pub mod run;
