// The test for a plan: a full set is one if no bar is broken and it is the least model of its own
// reduct, with the atoms that the bank gives at it.
ghost use Rattle.std.specs.Prelude.{◌≡◌, length};
ghost use Rattle.semantics.specs.Plans.{is_plan};
ghost use Rattle.semantics.specs.Rules.{least};
ghost use Rattle.semantics.specs.Sets.{same};
ghost use Rattle.semantics.specs.Banks.{gives};
ghost use Rattle.derivation.specs.Rulesets.{rules_in, atoms_in};
ghost use Rattle.bounds.specs.Programs.{program_of};

use crate::bank::query_at;
use crate::program::Program;
use crate::sets::is_same;
use modules::query::Module;

impl<'a, M: Module> Program<'a, M> {
    // Whether a set is a plan.
    pub fn is_plan(&self, set: &[u8]) -> bool
        requires { length set.now ≡ atoms_in self.now.rules.now }
        ensures { result ≡ is_plan (program_of M.Module.meaning self.now) set.now }
    {
        if self.rules.bar_holds(set, set) {
            return false;
        }
        let mut room = [0u8; 256];
        self.is_stable(set, &mut room[0..set.len()])
    }

    // Whether a set is the least model of its reduct with what the bank gives at it. The model is written into `model`.
    fn is_stable(&self, set: &[u8], model: &mut [u8]) -> bool
        requires set { length set.now ≡ atoms_in self.now.rules.now }
        requires model { length model.old ≡ atoms_in self.now.rules.now }
        ensures { result ≡ same set.now (least (rules_in self.now.rules.now) set.now (gives (M.Module.meaning self.now.bank.now) set.now) (atoms_in self.now.rules.now)) }
    {
        query_at(self.bank, set, model);
        self.rules.derive(set, model);
        is_same(set, model)
    }
}
