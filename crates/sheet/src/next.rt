// `next`: hands out the plans one by one, in listing order.
//
// The listing's own state is matched with the buffer and with whether there is a next plan, and
// changed in place. A refusal, and `NoMore`, leave the buffer as it was.
ghost use Rattle.std.specs.Prelude.{◌≡◌, false, length, ◌==◌};
ghost use Rattle.sheet.specs.Contents.{contents, in_force};
ghost use Rattle.sheet.specs.Steps.{Looked, reopened, Stepped, is_plan_step};

use crate::paper::{Sheet, Step};
use faults::Fault;
use listing::state::Listing;
use listing::{seek, tallies};
use modules::query::Module;

impl<M: Module> Sheet<M> {
    // Writes the next plan to the buffer, which has a byte for each atom.
    pub fn next(&mut self, buffer: &mut [u8]) -> Result<Step, Fault>
        ensures same { self.new.bank ≡ self.old.bank }
        ensures kept { is_plan_step result ≡ false → buffer.new ≡ buffer.old }
        ensures stepped { Stepped (M.Module.meaning self.old.bank) (contents self.old) (contents self.new) buffer.old buffer.new result }
    {
        if !self.is_laid() {
            return Err(Fault::NeverLaid);
        }
        let found = self.look(buffer);
        match (
            &mut self.listing,
            buffer.len() == self.parts.levels.len(),
            found,
        ) {
            (_, false, _) => Err(Fault::WrongBuffer),
            (Listing::Full, true, _) => Err(Fault::ListingFull),
            (state, true, true) => {
                tallies::count(self.parts.tallies.as_mut_slice(), buffer);
                self.handed = self.handed.saturating_add(1);
                *state = Listing::after_plan(self.handed);
                Ok(Step::Plan)
            }
            (state, true, false) => {
                *state = Listing::Ended;
                Ok(Step::NoMore)
            }
        }
    }

    // Looks for the next plan, and leaves its choices open. There is none for a buffer of another length.
    fn look(&mut self, plan: &mut [u8]) -> bool
        ensures same { self.new.bank ≡ self.old.bank }
        ensures opened { contents self.new ≡ reopened (contents self.old) (contents self.new).opened }
        ensures kept { result ≡ false → plan.new ≡ plan.old }
        ensures looked { Looked (length plan.old == length (contents self.old).levels) (contents self.old).listing (in_force (M.Module.meaning self.old.bank) (contents self.old)) (contents self.old).opened (contents self.new).opened plan.new result }
    {
        if plan.len() != self.atoms() {
            return false;
        }
        let parts = &mut self.parts;
        seek::seek(
            self.listing,
            &parts.rules,
            &self.bank,
            &mut parts.choices,
            plan,
        )
    }
}
