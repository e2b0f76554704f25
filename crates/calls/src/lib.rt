// What the C host calls, a file for each call: numbers, and lent bytes. The work is done in `lent`.
#![tactic(auto)]

pub mod check;
pub mod clear;
pub mod list;
pub mod run;
