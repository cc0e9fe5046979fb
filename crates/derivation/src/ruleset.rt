// The lines in force, with the index that leads to them.
//
// The index is kept in step with the lines: a line is entered and struck in a few steps, whatever
// else there is. Only entering asks for memory, and it changes nothing where there is none.
ghost use Rattle.std.specs.Prelude.{◌≡◌, ◌<◌, ◌≤◌, T, [], ◌∷◌, ◌++◌, length, IfOk, vec_len, MatchResult};
ghost use Rattle.std.specs.Option.{option_to_list};
ghost use Rattle.semantics.specs.Sets.{all};
ghost use Rattle.semantics.specs.Rules.{bar_holds, rule_below};
ghost use Rattle.derivation.specs.Indexing.{lists_of, index_of};
ghost use Rattle.lines.specs.Lines.{rule_of, rules_of};

use crate::index::Index;
use lines::body;
use lines::line::Line;
use std::alloc::{AllocError, Global};

#[derive(Drop)]
pub struct Ruleset {
    pub(crate) lines: Vec<Line>,
    pub(crate) index: Index,
    ghost narrow: { vec_len index.woken ≤ 256 },
    ghost few: { vec_len lines ≤ 512 },
    ghost below: { T (all (rule_below (vec_len index.woken)) (rules_of lines.items)) },
    ghost indexed: { lists_of index ≡ index_of (vec_len index.woken) (rules_of lines.items) },
}

impl Ruleset {
    // No lines over no atoms, which needs no memory.
    pub fn empty(heap: Global) -> Ruleset
        ensures lines { result.lines.items ≡ [] }
        ensures atoms { vec_len result.index.woken ≡ 0 }
    {
        let index = Index {
            woken: Vec::new(heap),
        };
        let lines = Vec::new(heap);
        Ruleset { lines, index }
    }

    // No lines, over so many atoms.
    pub fn new(heap: Global, atoms: usize) -> Result<Ruleset, AllocError>
        requires { atoms ≤ 256 }
        ensures { IfOk result (λ x. (x.lines.items ≡ []) × (vec_len x.index.woken ≡ atoms)) }
    {
        let lines = Vec::new(heap);
        let index = Index::new(heap, atoms)?;
        Ok(Ruleset { lines, index })
    }

    // Adds a line after the others, or changes nothing for want of memory.
    pub fn enter(&mut self, line: Line) -> Result<(), AllocError>
        requires below { T (rule_below (vec_len self.old.index.woken) (rule_of line)) }
        requires few { vec_len self.old.lines < 512 }
        ensures lines { MatchResult result (λ _. self.new.lines.items ≡ self.old.lines.items ++ line ∷ []) (λ _. self.new.lines.items ≡ self.old.lines.items) }
        ensures atoms { vec_len self.new.index.woken ≡ vec_len self.old.index.woken }
    {
        self.lines.reserve(1)?;
        self.index.enter(self.lines.len() as u16, line.body())?;
        self.lines.push_reserved(line);
        Ok(())
    }

    // Takes the last line off, if there is one.
    pub fn strike(&mut self) -> Option<Line>
        ensures lines { self.old.lines.items ≡ self.new.lines.items ++ option_to_list result }
        ensures atoms { vec_len self.new.index.woken ≡ vec_len self.old.index.woken }
    {
        let line = self.lines.pop()?;
        self.index.strike(line.body());
        Some(line)
    }

    // The lines, oldest first.
    pub fn lines(&self) -> &[Line]
        ensures { result.now ≡ self.now.lines.items }
    {
        self.lines.as_slice()
    }

    // Whether some bar has its plain atoms in `set` and its negated ones outside `by`.
    pub fn bar_holds(&self, set: &[u8], by: &[u8]) -> bool
        ensures { result ≡ bar_holds (rules_of self.now.lines.items) set.now by.now }
    {
        body::bar_holds(self.lines.as_slice(), set, by)
    }
}
