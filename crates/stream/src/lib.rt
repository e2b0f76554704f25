// The record stream of the program `freelist`: what the program keeps between records; the records and their answers are slices that it lends.
#![tactic(auto)]

pub mod size; // W and H
pub mod memory; // what is kept between records
pub mod records; // a record by itself
pub mod pieces; // the records of a piece in turn
pub mod ending; // the list, at the end
