// What a row's list is made of.

// An entry of a row: its left column, its right column and its height.
#[derive(Clone, Copy, Debug, PartialEq, Eq)]
pub struct Entry {
    pub left: u8,
    pub right: u8,
    pub height: u8,
}

impl Entry {
    // What stands in a place of an array that holds no entry yet.
    pub const NONE: Entry = Entry {
        left: 0,
        right: 0,
        height: 0,
    };
}
