//! Records of the text format: fields read against the declared names, and the four kinds of records made of
//! them, each with the place in its line where it begins. A refusal names the first fault of a record.

#![tactic(auto)]

pub mod body;
pub mod read;
pub mod record;
pub mod refusal;
