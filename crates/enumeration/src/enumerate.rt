// The enumeration: depth first from the node of the open choices, until a plan is found or there is
// no step back.
//
// `plan_from` is the main function. A plan is left where it was found, with the choices of its
// node still open, and `plan_after` steps back before it goes on. So no plan comes twice, and
// the choices are all that is kept from one plan to the next.
ghost use Rattle.std.specs.Prelude.{◌≡◌, false, length, Some};
ghost use Rattle.lines.specs.Stacks.{newest_first};
ghost use Rattle.semantics.specs.Search.{back, Seeks};
ghost use Rattle.derivation.specs.Rulesets.{atoms_in};
ghost use Rattle.bounds.specs.Programs.{program_of};

use crate::backtrack::step_back;
use crate::decide::decide;
use crate::visit::{Outcome, visit};
use bounds::program::Program;
use lines::stack::Stack;
use modules::query::Module;
use semantics::Literal;

// The first plan at the node of the open choices or after it.
pub fn plan_from<M: Module>(
    program: &Program<M>,
    choices: &mut Stack<Literal>,
    plan: &mut [u8],
) -> bool
    requires plan { length plan.old ≡ atoms_in program.now.rules.now }
    requires room { length choices.old.entries.now ≡ atoms_in program.now.rules.now }
    ensures lender { choices.new.entries.ghost_name ≡ choices.old.entries.ghost_name }
    ensures size { length choices.new.entries.now ≡ length choices.old.entries.now }
    ensures kept { result ≡ false → plan.new ≡ plan.old }
    ensures seeks { Seeks (program_of M.Module.meaning program.now) (Some (newest_first choices.old)) (newest_first choices.new) plan.new result }
{
    loop {
        let goes_on = match visit(program, choices, plan) {
            Outcome::Found => return true,
            Outcome::Passed => step_back(choices),
            Outcome::Opens(atom) => decide(choices, atom),
        };
        if !goes_on {
            return false;
        }
    }
}

// The first plan after the node of the open choices.
pub fn plan_after<M: Module>(
    program: &Program<M>,
    choices: &mut Stack<Literal>,
    plan: &mut [u8],
) -> bool
    requires plan { length plan.old ≡ atoms_in program.now.rules.now }
    requires room { length choices.old.entries.now ≡ atoms_in program.now.rules.now }
    ensures lender { choices.new.entries.ghost_name ≡ choices.old.entries.ghost_name }
    ensures size { length choices.new.entries.now ≡ length choices.old.entries.now }
    ensures kept { result ≡ false → plan.new ≡ plan.old }
    ensures seeks { Seeks (program_of M.Module.meaning program.now) (back (newest_first choices.old)) (newest_first choices.new) plan.new result }
{
    step_back(choices) && plan_from(program, choices, plan)
}
