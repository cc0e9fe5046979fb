// The enumeration of plans, one by one and in listing order.
//
// It goes depth first (`enumerate`). A visit to a node (`visit`) marks what the open choices hold
// (`marks`), asks for the bounds on the plans under them and looks at these (`node`).
// Then the enumeration holds the lowest open atom absent (`decide`), or it steps back (`backtrack`).
// It keeps no state but the stack of the open choices, which the caller lends.

#![tactic(auto)]

pub mod backtrack;
pub mod decide;
pub mod enumerate;
pub mod marks;
pub mod node;
pub mod visit;
