// The index: from each atom to the lines that it wakes, those in whose plain body it stands.
//
// Each atom has a list of the numbers of its lines, the oldest first, once for each plain literal. So
// a line comes last in the lists of its plain atoms, and the last line goes by leaving them again.
ghost use Rattle.std.specs.Prelude.{◌≡◌, ℕ, ◌<◌, ◌≤◌, T, List, [], length, IfOk, vec_len, MatchResult, nat_lt, slice_index_or};
ghost use Rattle.semantics.specs.Sets.{all};
ghost use Rattle.semantics.specs.Rules.{rule_below};
ghost use Rattle.derivation.specs.Indexing.{lists_of, no_lists, put_literal, put_body, index_of};
ghost use Rattle.lines.specs.Lines.{rules_of};

use lines::line::Line;
use semantics::{Literal, Side};
use std::alloc::{AllocError, Global};

#[derive(Drop)]
pub struct Index {
    pub(crate) woken: Vec<Vec<u16>>,
}

impl Index {
    // The index of no lines.
    pub fn new(heap: Global, atoms: usize) -> Result<Index, AllocError>
        ensures { IfOk result (λ ix. lists_of ix ≡ no_lists atoms) }
    {
        let mut woken = Vec::with_capacity(heap, atoms)?;
        for _ in 0..atoms {
            woken.push_reserved(Vec::new(heap));
        }
        Ok(Index { woken })
    }

    // The index of these lines.
    pub fn of(heap: Global, atoms: usize, lines: &[Line]) -> Result<Index, AllocError>
        requires below { T (all (rule_below atoms) (rules_of lines.now)) }
        requires few { length lines.now ≤ 512 }
        ensures { IfOk result (λ ix. lists_of ix ≡ index_of atoms (rules_of lines.now)) }
    {
        let mut index = Index::new(heap, atoms)?;
        for (number, line) in lines.iter().enumerate() {
            index.enter(number as u16, line.body())?;
        }
        Ok(index)
    }

    // The numbers of the lines that an atom wakes, the oldest first.
    pub fn woken_by(&self, atom: u16) -> &[u16]
        ensures { result.now ≡ slice_index_or (lists_of self.now) atom [] }
    {
        match self.woken.get(atom as usize) {
            Some(lines) => lines.as_slice(),
            None => &[],
        }
    }

    // Enters a line by its number and its body, or changes nothing for want of memory.
    pub fn enter(&mut self, number: u16, body: &[Literal]) -> Result<(), AllocError>
        requires { T (all (λ l. nat_lt l.atom (vec_len self.old.woken)) body.now) }
        ensures atoms { vec_len self.new.woken ≡ vec_len self.old.woken }
        ensures lists { MatchResult result (λ _. lists_of self.new ≡ put_body number body.now (lists_of self.old)) (λ _. lists_of self.new ≡ lists_of self.old) }
    {
        for (place, literal) in body.iter().enumerate() {
            if let Err(full) = self.put(number, literal) {
                self.strike(&body[..place]);
                return Err(full);
            }
        }
        Ok(())
    }

    // Takes the last line off again, by its body.
    pub fn strike(&mut self, body: &[Literal])
        requires { T (all (λ l. nat_lt l.atom (vec_len self.old.woken)) body.now) }
        ensures atoms { vec_len self.new.woken ≡ vec_len self.old.woken }
        ensures lists { (number : ℕ) (before : List (List ℕ)) → lists_of self.old ≡ put_body number body.now before → lists_of self.new ≡ before }
    {
        for literal in body.iter().rev() {
            self.take(literal);
        }
    }

    // Puts the line last in the list of a plain literal's atom.
    fn put(&mut self, line: u16, literal: &Literal) -> Result<(), AllocError>
        requires { literal.now.atom < vec_len self.old.woken }
        ensures atoms { vec_len self.new.woken ≡ vec_len self.old.woken }
        ensures lists { MatchResult result (λ _. lists_of self.new ≡ put_literal line literal.now.side literal.now.atom (lists_of self.old)) (λ _. lists_of self.new ≡ lists_of self.old) }
    {
        if let Side::Present = literal.side {
            self.woken[literal.atom as usize].push(line)?;
        }
        Ok(())
    }

    // Takes the last line off the list of a plain literal's atom.
    fn take(&mut self, literal: &Literal)
        requires { literal.now.atom < vec_len self.old.woken }
        ensures atoms { vec_len self.new.woken ≡ vec_len self.old.woken }
        ensures lists { (line : ℕ) (before : List (List ℕ)) → lists_of self.old ≡ put_literal line literal.now.side literal.now.atom before → lists_of self.new ≡ before }
    {
        if let Side::Present = literal.side {
            self.woken[literal.atom as usize].pop();
        }
    }
}
