// One round: both sets anew from the old bounds, once the bank was queried.
//
// The new sure atoms are the least model of the reduct by the old possible ones, from what the bank
// surely gives and the atoms held present. The new possible ones are the least model of the reduct by
// the old sure ones, from what the bank possibly gives, but for the atoms held absent.
ghost use Rattle.std.specs.Prelude.{◌≡◌, length};
ghost use Rattle.semantics.specs.Sets.{Canonical};
ghost use Rattle.semantics.specs.Alternating.{marks_in};
ghost use Rattle.derivation.specs.Rulesets.{rules_in, atoms_in};
ghost use Rattle.bounds.specs.Pairs.{pair_of, atoms_of};
ghost use Rattle.bounds.specs.Rounds.{rounded};
ghost use Rattle.bounds.specs.Ends.{ending};

use crate::marks::{bar, hold};
use crate::pair::Bounds;
use crate::sets::take_over;
use derivation::ruleset::Ruleset;

// A round ends in a contradiction, an atom that is sure and not possible; or it has changed nothing;
// or more rounds are to come.
#[derive(Clone, Copy)]
pub(crate) enum RoundEnd {
    Contradiction,
    Settled,
    GoingOn,
}

// Narrows the bounds by one round. What the bank gives between them is used up.
pub(crate) fn round(
    rules: &Ruleset,
    marks: &[u8],
    bounds: &mut Bounds,
    given: &mut Bounds,
) -> RoundEnd
    requires marks { length marks.now ≡ atoms_in rules.now }
    requires bounds { atoms_of bounds.old ≡ atoms_in rules.now }
    requires given { atoms_of given.old ≡ atoms_in rules.now }
    requires canonical { Canonical (atoms_in rules.now) given.old.possible.now }
    ensures lender_sure { bounds.new.sure.ghost_name ≡ bounds.old.sure.ghost_name }
    ensures lender_possible { bounds.new.possible.ghost_name ≡ bounds.old.possible.ghost_name }
    ensures given_sure { given.new.sure.ghost_name ≡ given.old.sure.ghost_name }
    ensures given_possible { given.new.possible.ghost_name ≡ given.old.possible.ghost_name }
    ensures narrowed { pair_of bounds.new ≡ rounded (rules_in rules.now) (atoms_in rules.now) (marks_in marks.now) (pair_of given.old) (pair_of bounds.old) }
    ensures room { atoms_of given.new ≡ atoms_in rules.now }
    ensures end { result ≡ ending (atoms_in rules.now) (pair_of bounds.old) (pair_of bounds.new) }
{
    derive_pair(rules, marks, bounds, given);
    let same_sure = take_over(bounds.sure, given.sure);
    let same_possible = take_over(bounds.possible, given.possible);
    if bounds.is_contradictory() {
        RoundEnd::Contradiction
    } else if same_sure && same_possible {
        RoundEnd::Settled
    } else {
        RoundEnd::GoingOn
    }
}

// Derives the new sets in the place of what the bank gives.
fn derive_pair(rules: &Ruleset, marks: &[u8], bounds: &Bounds, given: &mut Bounds)
    requires marks { length marks.now ≡ atoms_in rules.now }
    requires bounds { atoms_of bounds.now ≡ atoms_in rules.now }
    requires given { atoms_of given.old ≡ atoms_in rules.now }
    requires canonical { Canonical (atoms_in rules.now) given.old.possible.now }
    ensures lender_sure { given.new.sure.ghost_name ≡ given.old.sure.ghost_name }
    ensures lender_possible { given.new.possible.ghost_name ≡ given.old.possible.ghost_name }
    ensures rounded { pair_of given.new ≡ rounded (rules_in rules.now) (atoms_in rules.now) (marks_in marks.now) (pair_of given.old) (pair_of bounds.now) }
{
    hold(marks, given.sure);
    rules.derive(bounds.possible, given.sure);
    rules.derive(bounds.sure, given.possible);
    bar(marks, given.possible);
}
