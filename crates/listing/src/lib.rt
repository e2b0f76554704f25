// The list: each scanned row's entries by the staircase of document 000, then the rows one behind the other.
#![tactic(auto)]

pub mod entry; // an entry of a row
pub mod heights; // what a row's weights show
pub mod stairs; // the stairs held, put in, and leaving as entries
pub mod row; // one row walked: its entries, its corners
pub mod scanned; // which rows are scanned
pub mod list; // the rows' records into the room
