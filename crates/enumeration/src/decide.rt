// The step down from a node of the enumeration: one more choice, which holds an open atom absent.
ghost use Rattle.std.specs.Prelude.{◌≡◌, ◌∷◌, length, if◌then◌else◌, nat_lt};
ghost use Rattle.lines.specs.Stacks.{newest_first};
ghost use Rattle.semantics.specs.Search.{absent};

use lines::stack::Stack;
use semantics::{Literal, Side};

// Holds the atom absent, unless there is no room for one more choice.
pub fn decide(choices: &mut Stack<Literal>, atom: u16) -> bool
    ensures lender { choices.new.entries.ghost_name ≡ choices.old.entries.ghost_name }
    ensures size { length choices.new.entries.now ≡ length choices.old.entries.now }
    ensures room { result ≡ nat_lt (length (newest_first choices.old)) (length choices.old.entries.now) }
    ensures chosen { newest_first choices.new ≡ (if result then absent atom ∷ newest_first choices.old else newest_first choices.old) }
{
    if choices.is_full() {
        return false;
    }
    choices.push(Literal {
        atom,
        side: Side::Absent,
    });
    true
}
