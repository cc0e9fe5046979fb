// A visit to the node of the open choices: its bounds are narrowed from nothing and looked at.
ghost use Rattle.std.specs.Prelude.{◌≡◌, false, length};
ghost use Rattle.lines.specs.Stacks.{newest_first};
ghost use Rattle.derivation.specs.Rulesets.{atoms_in};
ghost use Rattle.bounds.specs.Programs.{program_of};
ghost use Rattle.enumeration.specs.Visits.{Visited, is_found};

use crate::marks::mark;
use crate::node::{Node, look};
use bounds::pair::Bounds;
use bounds::program::Program;
use lines::stack::Stack;
use modules::query::Module;
use semantics::Literal;

// The node's one plan is found, or there is none under it, or the atom is the lowest open one.
#[derive(Clone, Copy, PartialEq, Eq, Debug)]
pub enum Outcome {
    Found,
    Passed,
    Opens(u16),
}

// Visits the node of the choices. A plan that is found is written out, and else nothing.
pub fn visit<M: Module>(program: &Program<M>, choices: &Stack<Literal>, plan: &mut [u8]) -> Outcome
    requires { length plan.old ≡ atoms_in program.now.rules.now }
    ensures kept { is_found result ≡ false → plan.new ≡ plan.old }
    ensures visited { Visited (program_of M.Module.meaning program.now) (newest_first choices.now) plan.new result }
{
    let atoms = plan.len();
    let mut room = [0u8; 256];
    let mut sure = [0u8; 256];
    let mut possible = [0u8; 256];
    let marks = &mut room[0..atoms];
    let mut bounds = Bounds {
        sure: &mut sure[0..atoms],
        possible: &mut possible[0..atoms],
    };
    mark(choices, marks);
    program.narrow(marks, &mut bounds);
    match look(program.rules, bounds.sure(), bounds.possible()) {
        Node::Refuted => Outcome::Passed,
        Node::Branches(atom) => Outcome::Opens(atom),
        Node::Meets => {
            let candidate = bounds.sure();
            if program.is_plan(candidate) {
                plan.copy_from_slice(candidate);
                Outcome::Found
            } else {
                Outcome::Passed
            }
        }
    }
}
