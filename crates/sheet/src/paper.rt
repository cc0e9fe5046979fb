// What a sheet holds, and what its calls answer.
//
// What ties its lines to the bank's meaning is `Sound`, in specs/. As a fact of the type it would be one
// more argument of every definition that names a sheet, and the search would break it on its way.
use crate::parts::Parts;
use listing::state::Listing;
use std::alloc::Global;

// What an accepted `next` says: it wrote a plan to the buffer, or there are no more.
#[derive(Clone, Copy, PartialEq, Eq, Debug)]
pub enum Step {
    Plan,
    NoMore,
}

// How many of all plans have an atom, whether some plan has it, and whether there are plans and all of them have it.
#[derive(Clone, Copy, PartialEq, Eq, Debug)]
pub struct Told {
    pub held: u32,
    pub all: u32,
    pub brave: bool,
    pub cautious: bool,
}

#[derive(Drop)]
pub struct Sheet<M> {
    pub(crate) bank: M,
    pub(crate) heap: Global,
    pub(crate) parts: Parts,
    pub(crate) listing: Listing,
    // how many plans were handed out
    pub(crate) handed: u32,
}
