// Making a sheet, laying it, and entering a line.
//
// `lay` and `enter` check first, then make all that they need, and change the sheet last: a
// refusal, also for want of memory, leaves it as it was. Both begin a fresh listing.
ghost use Rattle.std.specs.Prelude.{◌≡◌, ◌<◌, true, length, is_ok, IfOk, nat_lt};
ghost use Rattle.semantics.specs.Sheets.{fault, enter, line};
ghost use Rattle.lines.specs.Lines.{rule_of};
ghost use Rattle.derivation.specs.Rulesets.{rules_in};
ghost use Rattle.checks.specs.Checks.{Checked};
ghost use Rattle.sheet.specs.Contents.{contents, state_of, anew};
ghost use Rattle.sheet.specs.Calls.{Made, Laid, Entered};

use crate::paper::Sheet;
use crate::parts::Parts;
use checks::levels::check_levels;
use checks::line::check_line;
use faults::Fault;
use lines::line::Line;
use listing::state::Listing;
use listing::tallies;
use modules::query::Module;
use semantics::{Head, Literal};
use std::alloc::Global;

impl<M: Module> Sheet<M> {
    // A sheet with no atoms, which needs no memory.
    pub fn blank(heap: Global, bank: M) -> Sheet<M>
        ensures same { result.bank ≡ bank }
        ensures made { Made (M.Module.meaning bank) (contents result) }
    {
        Sheet {
            bank,
            heap,
            parts: Parts::blank(heap),
            listing: Listing::Fresh,
            handed: 0,
        }
    }

    // How many atoms it has, 0 where it was never laid.
    pub fn atoms(&self) -> usize
        ensures { result ≡ length (contents self.now).levels }
    {
        self.parts.levels.len()
    }

    // Whether it was ever laid.
    pub(crate) fn is_laid(&self) -> bool
        ensures { result ≡ nat_lt 0 (length (contents self.now).levels) }
    {
        !self.parts.levels.is_empty()
    }

    // Gives the sheet an atom for each level, and takes every line off.
    pub fn lay(&mut self, levels: &[u8]) -> Result<(), Fault>
        ensures same { self.new.bank ≡ self.old.bank }
        ensures laid { Laid (M.Module.meaning self.old.bank) (contents self.old) (contents self.new) levels.now result }
    {
        check_levels(&self.bank, levels)?;
        self.parts = Parts::new(self.heap, levels)?;
        self.listing = Listing::Fresh;
        self.handed = 0;
        Ok(())
    }

    // Adds a line after the others.
    pub fn enter(&mut self, head: Head, body: &[Literal]) -> Result<(), Fault>
        ensures same { self.new.bank ≡ self.old.bank }
        ensures entered { Entered (M.Module.meaning self.old.bank) (contents self.old) (contents self.new) head body.now result }
    {
        let line = self.check_enter(head, body)?;
        self.parts.rules.enter(line)?;
        self.restart();
        Ok(())
    }

    // A fresh listing of the lines in force.
    fn restart(&mut self)
        ensures same { self.new.bank ≡ self.old.bank }
        ensures fresh { contents self.new ≡ anew self.old.parts.levels.items (rules_in self.old.parts.rules) }
    {
        self.listing = Listing::Fresh;
        self.handed = 0;
        self.parts.choices.close();
        tallies::clear(self.parts.tallies.as_mut_slice());
    }

    // The line to enter, if nothing is wrong with it.
    fn check_enter(&self, head: Head, body: &[Literal]) -> Result<Line, Fault>
        ensures checked { Checked (fault (state_of (M.Module.meaning self.now.bank) (contents self.now)) (enter head body.now)) result }
        ensures few { is_ok result ≡ true → length (contents self.now).rules < 512 }
        ensures made { IfOk result (λ l. rule_of l ≡ line head body.now) }
    {
        check_line(
            self.parts.levels.as_slice(),
            self.parts.rules.lines().len(),
            head,
            body,
        )
    }
}
