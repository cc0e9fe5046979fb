// The open choices of a listing, which lead from one plan to the next.
//
// Memory is asked for when they are made, once for a choice of each atom, so that looking for a
// plan needs none. Looking lends the room as a stack, and how many stay open is kept beside it.
ghost use Rattle.std.specs.Prelude.{◌≡◌, ◌≤◌, IfOk, vec_len};

use semantics::Literal;
use std::alloc::{AllocError, Global};

// Room for a choice of each atom; the first `depth` are open, the newest last.
#[derive(Drop)]
pub struct Choices {
    pub room: Vec<Literal>,
    pub depth: usize,
    ghost within: { depth ≤ vec_len room },
}

impl Choices {
    // No room, which needs no memory.
    pub fn empty(heap: Global) -> Choices
        ensures room { vec_len result.room ≡ 0 }
        ensures none { result.depth ≡ 0 }
    {
        Choices {
            room: Vec::new(heap),
            depth: 0,
        }
    }

    // Room for a choice of each of so many atoms.
    pub fn new(heap: Global, atoms: usize) -> Result<Choices, AllocError>
        ensures room { IfOk result (λ c. vec_len c.room ≡ atoms) }
        ensures none { IfOk result (λ c. c.depth ≡ 0) }
    {
        let room = vec![in heap; Literal::default(); atoms]?;
        Ok(Choices { room, depth: 0 })
    }

    // Leaves none open.
    pub fn close(&mut self)
        ensures room { self.new.room ≡ self.old.room }
        ensures none { self.new.depth ≡ 0 }
    {
        self.depth = 0;
    }
}
