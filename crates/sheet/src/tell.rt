// `tell`: how many of all plans have an atom.
//
// The tallies count the plans handed out, so it has to wait until the listing has come to its end.
ghost use Rattle.std.specs.Prelude.{◌≡◌, ◌&&◌, ◌==◌, nat_lt};
ghost use Rattle.sheet.specs.Contents.{contents};
ghost use Rattle.sheet.specs.Calls.{Tells};

use crate::paper::{Sheet, Told};
use faults::Fault;
use modules::query::Module;

impl Told {
    // What is told of an atom that so many of all plans have.
    fn of(held: u32, all: u32) -> Told
        ensures { result ≡ record { held = held; all = all; brave = nat_lt 0 held; cautious = (held == all && nat_lt 0 all) } }
    {
        Told {
            held,
            all,
            brave: held > 0,
            cautious: held == all && all > 0,
        }
    }
}

impl<M: Module> Sheet<M> {
    // Says how many of all plans have the atom, once all are handed out.
    pub fn tell(&self, atom: u16) -> Result<Told, Fault>
        ensures { Tells (M.Module.meaning self.now.bank) (contents self.now) atom result }
    {
        if !self.is_laid() {
            return Err(Fault::NeverLaid);
        }
        let tally = self
            .parts
            .tallies
            .get(atom as usize)
            .ok_or(Fault::NoSuchAtom)?;
        if !self.listing.is_ended() {
            return Err(Fault::NotEnded);
        }
        Ok(Told::of(*tally, self.handed))
    }
}
