// Bounds on plans: the atoms that are sure to be in each plan, and those that are possible in one.
ghost use Rattle.std.specs.Prelude.{◌≡◌, ◌≤◌, length};

use crate::sets::first_beyond;

// Two sets of as many atoms, in bytes that the caller lends.
#[derive(Drop)]
pub struct Bounds<'a> {
    pub sure: &'a mut [u8],
    pub possible: &'a mut [u8],
    ghost few: { length sure.now ≤ 256 },
    ghost alike: { length possible.now ≡ length sure.now },
}

impl<'a> Bounds<'a> {
    ghost use Rattle.semantics.specs.Sets.{some_below};
    ghost use Rattle.semantics.specs.Alternating.{clashes};
    ghost use Rattle.bounds.specs.Pairs.{pair_of, atoms_of};

    // The sure atoms.
    pub fn sure(&self) -> &[u8]
        ensures { result.now ≡ self.now.sure.now }
    {
        self.sure
    }

    // The possible ones.
    pub fn possible(&self) -> &[u8]
        ensures { result.now ≡ self.now.possible.now }
    {
        self.possible
    }

    // Whether some atom is sure and not possible.
    pub fn is_contradictory(&self) -> bool
        ensures { result ≡ some_below (atoms_of self.now) (clashes (pair_of self.now)) }
    {
        first_beyond(self.sure, self.possible).is_some()
    }
}
