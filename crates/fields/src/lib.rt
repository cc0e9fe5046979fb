//! The fields of a text: lines and fields as parts of the caller's bytes, what a field can say (a letter, a name,
//! a level, a literal), and the names that were declared.

#![tactic(auto)]

pub mod field;
pub mod names;
pub mod part;
