// What the programs share that are held to the second program (tests/second): the numbers and strings of its case files, what stands in
// buffers before a case, what a case shows, and how many cases there were.
#![tactic(auto)]

pub mod filling;
pub mod parts;
pub mod reading;
pub mod running;
pub mod tally;
pub mod verdict;
