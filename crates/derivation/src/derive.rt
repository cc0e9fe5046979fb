// Deriving the least model of a reduct, by a worklist.
//
// The model begins with the bare atoms, and grows. Every line is fired once; then each atom that
// was derived and has not been used yet wakes the lines in whose plain body it stands, and they are
// fired again. To fire a line is to put its head into the model if its body holds. Each atom comes
// on the stack at most once, so there is always room, and no memory is asked for.
ghost use Rattle.std.specs.Prelude.{◌≡◌, ◌+◌, ◌<◌, ◌≤◌, T, [], ◌++◌, length, take, slice_index_or};
ghost use Rattle.semantics.specs.Sets.{has, Canonical, ◌∈◌};
ghost use Rattle.semantics.specs.Rules.{least, rule_below};
ghost use Rattle.derivation.specs.Indexing.{lists_of};
ghost use Rattle.derivation.specs.Rulesets.{rules_in, atoms_in};
ghost use Rattle.lines.specs.Lines.{rule_of};
ghost use Rattle.derivation.specs.Worklist.{newly, joined_by, absent, Advances, From, Nothing};

use crate::ruleset::Ruleset;
use lines::body::body_holds;
use lines::line::Line;
use lines::stack::Stack;
use semantics::Head;

// Puts the head of a line whose body holds into the model and on the stack, if it is new.
fn fire(line: &Line, by: &[u8], model: &mut [u8], pending: &mut Stack<u16>)
    requires below { T (rule_below (length model.old) (rule_of line.now)) }
    requires room { pending.old.len + absent model.old ≤ length pending.old.entries.now }
    ensures size { length pending.new.entries.now ≡ length pending.old.entries.now }
    ensures model { model.new ≡ joined_by model.old (newly by.now model.old (rule_of line.now)) }
    ensures held { take pending.new.len pending.new.entries.now ≡ take pending.old.len pending.old.entries.now ++ newly by.now model.old (rule_of line.now) }
    ensures room { pending.new.len + absent model.new ≡ pending.old.len + absent model.old }
    ensures fewer { absent model.new ≤ absent model.old }
{
    if let Head::Atom(head) = line.head() {
        if model[head as usize] != 1 && body_holds(line, model, by) {
            model[head as usize] = 1;
            pending.push(head);
        }
    }
}

impl Ruleset {
    // Derives the least model of the reduct by `by`. The model holds the bare atoms at the start.
    pub fn derive(&self, by: &[u8], model: &mut [u8])
        requires { Canonical (atoms_in self.now) model.old }
        ensures { model.new ≡ least (rules_in self.now) by.now (has model.old) (atoms_in self.now) }
    {
        let mut room = [0u16; 256];
        let mut pending = Stack::new(&mut room[..]);
        self.fire_all(by, model, &mut pending);
        while let Some(atom) = pending.pop() {
            self.wake(atom, by, model, &mut pending);
        }
    }

    // Fires each line once.
    fn fire_all(&self, by: &[u8], model: &mut [u8], pending: &mut Stack<u16>)
        requires atoms { length model.old ≡ atoms_in self.now }
        requires room { pending.old.len + absent model.old ≤ length pending.old.entries.now }
        ensures size { length pending.new.entries.now ≡ length pending.old.entries.now }
        ensures room { pending.new.len + absent model.new ≡ pending.old.len + absent model.old }
        ensures fired { Advances (rules_in self.now) by.now (From 0) Nothing model.old (take pending.old.len pending.old.entries.now) model.new (take pending.new.len pending.new.entries.now) }
    {
        for line in &self.lines {
            fire(line, by, model, pending);
        }
    }

    // Fires the lines that the atom wakes.
    fn wake(&self, atom: u16, by: &[u8], model: &mut [u8], pending: &mut Stack<u16>)
        requires below { atom < atoms_in self.now }
        requires atoms { length model.old ≡ atoms_in self.now }
        requires room { pending.old.len + absent model.old ≤ length pending.old.entries.now }
        ensures size { length pending.new.entries.now ≡ length pending.old.entries.now }
        ensures room { pending.new.len + absent model.new ≡ pending.old.len + absent model.old }
        ensures fewer { absent model.new ≤ absent model.old }
        ensures fired { Advances (rules_in self.now) by.now (λ j. j ∈ slice_index_or (lists_of self.now.index) atom []) Nothing model.old (take pending.old.len pending.old.entries.now) model.new (take pending.new.len pending.new.entries.now) }
    {
        for number in &self.index.woken[atom as usize] {
            fire(&self.lines[*number as usize], by, model, pending);
        }
    }
}
