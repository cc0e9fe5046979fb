// Bounds on all plans of a program, and the test for a plan.
//
// A `program` is the lines in force over a bank of modules. Its bounds are a `pair` of `sets`: the sure
// atoms and the possible ones. The bank is queried at a set, or between bounds (`bank`). One round
// narrows the bounds from what the bank gives (`round`), under marks that hold atoms to a side
// (`marks`), and rounds are done until they end (`narrow`). `plan_test` tests a full set.

#![tactic(auto)]

mod bank;
mod marks;
pub mod narrow;
pub mod pair;
pub mod plan_test;
pub mod program;
mod round;
pub mod sets;
