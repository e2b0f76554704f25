// Requests: judged, served, and run in turn.
#![tactic(auto)]

pub mod operation; // what a request asks for
pub mod fields; // the bytes of a request
pub mod sound; // codes 11 to 17 and 23
pub mod accepted; // what an accepted request does
pub mod judge; // codes 18 to 22, and what a request comes to
pub mod serve; // the change and the answer
pub mod reader; // a block and the place in it
pub mod run; // the requests of a block in turn
