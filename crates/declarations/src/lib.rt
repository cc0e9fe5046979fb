//! What a text declares before its lines and bars: a reader that opens one record after another, and the atoms and
//! rows that it gathers up to the first line or bar. A refusal names the first fault.

#![tactic(auto)]

pub mod preamble;
pub mod reader;
pub mod whole;
