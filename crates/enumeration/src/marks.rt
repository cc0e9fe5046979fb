// The marks that the open choices make: one byte to an atom, for the rounds of narrowing.
//
// The choices are gone through from the oldest on, so that of two choices of one atom the newer
// one would stand. An atom past the last byte is passed over.
ghost use Rattle.std.specs.Prelude.{◌≡◌, Some};
ghost use Rattle.lines.specs.Stacks.{newest_first};
ghost use Rattle.semantics.specs.Alternating.{mark_in};
ghost use Rattle.enumeration.specs.Marking.{Marked};

use lines::stack::Stack;
use semantics::{Literal, Side};

// Marks every atom that a choice holds to a side, and no other.
pub fn mark(choices: &Stack<Literal>, marks: &mut [u8])
    ensures { Marked (newest_first choices.now) marks.new }
{
    marks.fill(0);
    for choice in &choices.room()[0..choices.len()] {
        let atom = choice.atom as usize;
        if atom < marks.len() {
            marks[atom] = byte_of(choice.side);
        }
    }
}

// The byte that holds an atom to a side.
fn byte_of(side: Side) -> u8
    ensures { mark_in result ≡ Some side }
{
    match side {
        Side::Present => 1,
        Side::Absent => 2,
    }
}
