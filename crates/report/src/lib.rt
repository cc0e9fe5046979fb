// The printout of a text, line by line: a line for each plan as it is found, the count, and what is told of each atom.
//
// `open` loads a text, a `lister` hands out its lines, and `list` prints them all, or `stop`s at a fault.

#![tactic(auto)]

pub mod list;
pub mod lister;
pub mod open;
pub mod stop;
