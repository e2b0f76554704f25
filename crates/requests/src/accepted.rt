// What an accepted request does.
use super::operation::Operation;
use rules::Rect;

// What it asked for; the slot whose record it changes; and the rectangle that its answer names: of the module or block that stands there now (place,
// pin, set, exchange) or of the module that is gone (remove).
#[derive(Clone, Copy, Debug, PartialEq, Eq)]
pub struct Accepted {
    pub operation: Operation,
    pub slot: usize,
    pub rect: Rect,
}
