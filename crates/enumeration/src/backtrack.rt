// The step back from a node of the enumeration.
//
// The newest choice that held its atom absent now holds it present, and what was chosen after it
// is dropped. Where no choice was absent, the enumeration is at its end.
ghost use Rattle.std.specs.Prelude.{◌≡◌, length, if◌then◌else◌, Some, None};
ghost use Rattle.lines.specs.Stacks.{newest_first};
ghost use Rattle.semantics.specs.Search.{back};

use lines::stack::Stack;
use semantics::{Literal, Side};

// Whether there was a step back. Where there was none, no choice is left.
pub fn step_back(choices: &mut Stack<Literal>) -> bool
    ensures lender { choices.new.entries.ghost_name ≡ choices.old.entries.ghost_name }
    ensures size { length choices.new.entries.now ≡ length choices.old.entries.now }
    ensures back { back (newest_first choices.old) ≡ (if result then Some (newest_first choices.new) else None) }
{
    while let Some(choice) = choices.pop() {
        if choice.side == Side::Absent {
            choices.push(Literal {
                side: Side::Present,
                ..choice
            });
            return true;
        }
    }
    false
}
