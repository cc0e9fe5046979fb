//! A whole text, and the sheet that it describes: `load` reads the declarations, lays the sheet, and enters the
//! lines and bars, each with the place in the text where it stands. A refusal names the first fault.

#![tactic(auto)]

pub mod load;
pub mod loaded;
