// The surface: sizes and lengths, "a surface stands", the cleared one. A file for each part.
#![tactic(auto)]

pub mod sizes; // codes 1 to 5
pub mod slots; // the used slots; a slot is sound; an id is seen
pub mod marks; // slots taken in turn: sound, with an id and cells of their own
pub mod rows; // weights worked out from the marks
pub mod examine; // the table examined, its weights worked out
pub mod clear; // weights and slots of a cleared surface
