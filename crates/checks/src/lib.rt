// The checks of `lay` and `enter`, apart from the sheet that they guard.
//
// Each check answers by the first fault that it finds, in the order of the fault numbers: the
// levels against the bank (`levels`), and a line against the levels (`line`).

#![tactic(auto)]

pub mod levels;
pub mod line;
