// Narrowing: rounds from the widest bounds that the marks allow, until a round ends in a contradiction
// or changes nothing. Every plan that agrees with the marks has the sure atoms and only possible ones.
//
// A round that goes on makes an atom sure or takes one out of the possible ones, so there are never
// more than twice as many rounds as atoms, and one.
ghost use Rattle.std.specs.Prelude.{◌≡◌, length};
ghost use Rattle.semantics.specs.Alternating.{marks_in};
ghost use Rattle.derivation.specs.Rulesets.{atoms_in};
ghost use Rattle.bounds.specs.Programs.{program_of};
ghost use Rattle.bounds.specs.Pairs.{pair_of, atoms_of};
ghost use Rattle.bounds.specs.Narrowings.{NarrowedTo};

use crate::bank::query_between;
use crate::marks::widen;
use crate::pair::Bounds;
use crate::program::Program;
use crate::round::{RoundEnd, round};
use modules::query::Module;

impl<'a, M: Module> Program<'a, M> {
    // Leaves the bounds at which the rounds under the marks end. What they were before is not used.
    pub fn narrow(&self, marks: &[u8], bounds: &mut Bounds)
        requires marks { length marks.now ≡ atoms_in self.now.rules.now }
        requires bounds { atoms_of bounds.old ≡ atoms_in self.now.rules.now }
        ensures lender_sure { bounds.new.sure.ghost_name ≡ bounds.old.sure.ghost_name }
        ensures lender_possible { bounds.new.possible.ghost_name ≡ bounds.old.possible.ghost_name }
        ensures size { atoms_of bounds.new ≡ atoms_in self.now.rules.now }
        ensures narrowed { NarrowedTo (program_of M.Module.meaning self.now) (marks_in marks.now) (pair_of bounds.new) }
    {
        let mut sure = [0u8; 256];
        let mut possible = [0u8; 256];
        let mut given = Bounds {
            sure: &mut sure[0..marks.len()],
            possible: &mut possible[0..marks.len()],
        };
        widen(marks, bounds.sure, bounds.possible);
        for _turn in 0..2 * marks.len() + 1 {
            query_between(self.bank, bounds, &mut given);
            match round(self.rules, marks, bounds, &mut given) {
                RoundEnd::Contradiction | RoundEnd::Settled => return,
                RoundEnd::GoingOn => {}
            }
        }
    }
}
