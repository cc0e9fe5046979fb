// Deriving: what follows from the lines in force.
//
// The least model of a reduct is derived by a worklist (`derive`): the atoms that were derived
// and not yet used wait on a stack, and an index (`index`) leads from an atom to the lines in
// whose plain body it stands. The lines and their index are kept together (`ruleset`).

#![tactic(auto)]

pub mod derive;
pub mod index;
pub mod ruleset;
