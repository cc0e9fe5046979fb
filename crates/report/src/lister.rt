// A lister hands out the lines of the printout one after another, so that memory does not grow with the list.
ghost use Rattle.std.specs.Prelude.{◌≡◌, ◌<◌, ℕ, length};
ghost use Rattle.sheet.specs.Contents.{contents};
ghost use Rattle.grammar.specs.Texts.{Described};
ghost use Rattle.report.specs.Progress.{PrintedSoFar, Prints, Writes};

use faults::Fault;
use fields::names::Names;
use modules::rows::PairTable;
use printout::{end_line, plan_line, tell_line};
use sheet::paper::{Sheet, Step};

// Plans come first, and then the atoms from this one on are told.
#[derive(Clone, Copy)]
pub enum Stage {
    Plans,
    Tells(u16),
}

#[derive(Drop)]
pub struct Lister<'a> {
    pub(crate) sheet: Sheet<PairTable>,
    pub(crate) names: Names<'a>,
    // room for one plan
    pub(crate) plan: Vec<u8>,
    // the line that was handed out last
    pub(crate) line: Vec<u8>,
    pub(crate) stage: Stage,
}

impl<'a> Lister<'a> {
    ghost use Rattle.std.specs.Borrow.{sem};
    ghost use Rattle.report.specs.Handing.{LendsLine};

    // The next line of the printout, or none once every atom is told.
    pub fn next_line(&mut self) -> Result<Option<&[u8]>, Fault>
        ensures line { (d : Described) (k : ℕ) → PrintedSoFar d k self.old → Prints d k result }
        ensures* moved { sem 𝓛 (LendsLine self.entry result) }
    {
        match self.stage {
            Stage::Plans => self.next_plan()?,
            Stage::Tells(atom) if usize::from(atom) < self.sheet.atoms() => self.next_tell(atom)?,
            Stage::Tells(_) => return Ok(None),
        }
        Ok(Some(self.line.as_slice()))
    }

    // A plan, or the count once there is no other.
    fn next_plan(&mut self) -> Result<(), Fault>
        ensures { (d : Described) (k : ℕ) → PrintedSoFar d k self.old → self.old.stage ≡ Stage.Plans → Writes d k self.new result }
    {
        match self.sheet.next(self.plan.as_mut_slice())? {
            Step::Plan => plan_line(&mut self.line, self.names.as_slice(), self.plan.as_slice())?,
            Step::NoMore => {
                let told = self.sheet.tell(0)?;
                end_line(&mut self.line, told.all)?;
                self.stage = Stage::Tells(0);
            }
        }
        Ok(())
    }

    // What is told of an atom.
    fn next_tell(&mut self, atom: u16) -> Result<(), Fault>
        ensures { (d : Described) (k : ℕ) → PrintedSoFar d k self.old → self.old.stage ≡ Stage.Tells atom → atom < length (contents self.old.sheet).levels → Writes d k self.new result }
    {
        let told = self.sheet.tell(atom)?;
        let name = self.names.get(usize::from(atom)).unwrap_or(&[]);
        tell_line(&mut self.line, name, told)?;
        self.stage = Stage::Tells(atom.saturating_add(1));
        Ok(())
    }
}
