// Lines, the test of their bodies, and the stack of pending entries.
//
// A line is a rule or a bar (`line`). Its body is tested against two sets of atoms (`body`).
// Whoever works through entries one by one keeps those that are still to come on a stack
// over lent memory (`stack`).

#![tactic(auto)]

pub mod body;
pub mod line;
pub mod stack;
