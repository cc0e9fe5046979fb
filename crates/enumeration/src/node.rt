// A node of the enumeration, by the bounds on the plans under it: the atoms that are sure, and those
// that are possible.
//
// A sure atom that is not possible refutes the node, and so does a bar that is surely broken.
// Bounds that meet leave one candidate. Else some atom is open, possible and not sure, and the
// enumeration branches at the lowest such atom.
ghost use Rattle.std.specs.Prelude.{◌≡◌, length};
ghost use Rattle.semantics.specs.Banks.{Meaning};
ghost use Rattle.semantics.specs.Plans.{over};
ghost use Rattle.derivation.specs.Rulesets.{atoms_in, rules_in};
ghost use Rattle.enumeration.specs.Nodes.{Tells};

use bounds::sets::first_beyond;
use derivation::ruleset::Ruleset;

#[derive(Clone, Copy, PartialEq, Eq, Debug)]
pub enum Node {
    Refuted,
    Meets,
    Branches(u16),
}

// What the bounds say of their node.
pub fn look(rules: &Ruleset, sure: &[u8], possible: &[u8]) -> Node
    requires sure { length sure.now ≡ atoms_in rules.now }
    requires possible { length possible.now ≡ atoms_in rules.now }
    ensures { (bank : Meaning) → Tells (over bank (atoms_in rules.now) (rules_in rules.now)) (record { sure = sure.now; possible = possible.now }) result }
{
    if first_beyond(sure, possible).is_some() || rules.bar_holds(sure, possible) {
        return Node::Refuted;
    }
    match first_beyond(possible, sure) {
        Some(atom) => Node::Branches(atom),
        None => Node::Meets,
    }
}
