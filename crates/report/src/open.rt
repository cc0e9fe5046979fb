// Opening a text: its sheet is loaded, and nothing of it is printed yet.
ghost use Rattle.std.specs.Prelude.{◌<◌, length, IfOk};
ghost use Rattle.grammar.specs.Texts.{Described};
ghost use Rattle.text.specs.Sheets.{Loads};
ghost use Rattle.report.specs.Progress.{PrintedSoFar, Opens};

use crate::lister::{Lister, Stage};
use records::refusal::Refused;
use std::alloc::{AllocError, Global};
use text::load::load;
use text::loaded::Loaded;

// A lister of the text's printout, or the text's first fault.
pub fn open<'a>(heap: Global, text: &'a [u8]) -> Result<Lister<'a>, Refused>
    ensures { Opens text.now result }
{
    let loaded = load(heap, text)?;
    Ok(Lister::new(heap, loaded)?)
}

impl<'a> Lister<'a> {
    // Makes room for one plan, and begins with the plans.
    pub fn new(heap: Global, loaded: Loaded<'a>) -> Result<Lister<'a>, AllocError>
        ensures { IfOk result (λ x. (d : Described) → Loads d loaded.entry → 0 < length d.levels → PrintedSoFar d 0 x) }
    {
        let plan = vec![in heap; 0u8; loaded.sheet.atoms()]?;
        Ok(Lister {
            sheet: loaded.sheet,
            names: loaded.names,
            plan,
            line: Vec::new(heap),
            stage: Stage::Plans,
        })
    }
}
