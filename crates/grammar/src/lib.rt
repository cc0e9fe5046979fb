//! The text format: how records are written, which of them are valid, and what they describe. Here stand only
//! definitions, and the theorems that tie the reading of a text to the writing of records.

#![tactic(auto)]

pub mod theorems;
