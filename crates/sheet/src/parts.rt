// What goes by the atoms of a sheet: a level for each, the lines over them, and room for tallies and
// choices. `lay` makes it anew.
ghost use Rattle.std.specs.Prelude.{◌≡◌, ◌≤◌, [], length, IfOk, vec_len};
ghost use Rattle.derivation.specs.Rulesets.{atoms_in};

use derivation::ruleset::Ruleset;
use listing::choices::Choices;
use std::alloc::{AllocError, Global};

#[derive(Drop)]
pub(crate) struct Parts {
    pub(crate) levels: Vec<u8>,
    pub(crate) rules: Ruleset,
    // for each atom, how many of the plans handed out have it
    pub(crate) tallies: Vec<u32>,
    // room for a choice of each atom
    pub(crate) choices: Choices,
    ghost few: { vec_len levels ≤ 256 },
    ghost ruled: { atoms_in rules ≡ vec_len levels },
    ghost tallied: { vec_len tallies ≡ vec_len levels },
    ghost room: { vec_len choices.room ≡ vec_len levels },
}

impl Parts {
    ghost use Rattle.sheet.specs.Laying.{Parted};

    // No atoms, which needs no memory.
    pub(crate) fn blank(heap: Global) -> Parts
        ensures { Parted [] result }
    {
        Parts {
            levels: Vec::new(heap),
            rules: Ruleset::empty(heap),
            tallies: Vec::new(heap),
            choices: Choices::empty(heap),
        }
    }

    // An atom for each level, and no lines.
    pub(crate) fn new(heap: Global, levels: &[u8]) -> Result<Parts, AllocError>
        requires { length levels.now ≤ 256 }
        ensures { IfOk result (Parted levels.now) }
    {
        let rules = Ruleset::new(heap, levels.len())?;
        let tallies = vec![in heap; 0u32; levels.len()]?;
        let choices = Choices::new(heap, levels.len())?;
        let levels = Vec::from_slice(heap, levels)?;
        Ok(Parts {
            levels,
            rules,
            tallies,
            choices,
        })
    }
}
