//! Loading a text. The sheet is laid after the declarations, at the first line or bar or at the text's end, and
//! then takes the lines and bars one by one. A fault of the sheet keeps its number; what is added is its place.
ghost use Rattle.std.specs.Prelude.{◌≡◌, ℕ, ◌^◌, ◌<◌, List, length};
ghost use Rattle.modules.specs.Tables.{rows_of};
ghost use Rattle.sheet.specs.Faults.{flaw};
ghost use Rattle.semantics.specs.Rules.{Rule};
ghost use Rattle.fields.specs.Shown.{left, declared};
ghost use Rattle.records.specs.Shown.{held};
ghost use Rattle.records.specs.Reading.{rank_of};
ghost use Rattle.declarations.specs.Declaring.{Declared};
ghost use Rattle.fields.specs.Pieces.{lines_of};
ghost use Rattle.grammar.specs.Entering.{lay_place, enter_byte, ruled};
ghost use Rattle.text.specs.Sheets.{Lays, Holds, Enters, EntersAll, Answers, Settles};
ghost use Rattle.grammar.specs.Texts.{read_lines, read_text};
ghost use Rattle.declarations.specs.Shown.{located, to_come};

use crate::loaded::Loaded;
use declarations::preamble::{Preamble, read_preamble};
use declarations::reader::Reader;
use declarations::whole::{in_line, is_whole};
use faults::Fault;
use fields::field::Letter;
use fields::names::Names;
use fields::part::Fields;
use modules::rows::PairTable;
use records::body::Body;
use records::record::read_line;
use records::refusal::{Refusal, Refused};
use sheet::paper::Sheet;
use std::alloc::Global;

// Reads a text and makes the sheet that it describes, or names the first fault. A text is accepted exactly if it
// is the rendering of valid records, unless there is no memory.
pub fn load<'a>(heap: Global, text: &'a [u8]) -> Result<Loaded<'a>, Refused>
    ensures first_fault { Answers (read_text text.now) result }
    ensures law { Settles text.now result }
{
    if !is_whole(text) {
        return Err(Refused::from(Fault::NotWhole));
    }
    load_lines(heap, text)
}

// The same of a text's lines, whether or not the last one is ended.
fn load_lines<'a>(heap: Global, text: &'a [u8]) -> Result<Loaded<'a>, Refused>
    ensures { Answers (read_lines (lines_of text.now)) result }
{
    let mut preamble = Preamble::new(heap)?;
    let mut reader = Reader::new(text);
    read_preamble(&mut reader, &mut preamble)?;
    let Preamble {
        names,
        levels,
        table,
        outs,
    } = preamble;
    let mut sheet = lay_sheet(heap, table, levels.as_slice(), outs.as_slice())?;
    reader.last = Letter::Rule;
    enter_lines(&mut sheet, &names, &mut reader)?;
    Ok(Loaded { sheet, names })
}

// A sheet with what was declared, and no lines yet.
fn lay_sheet(
    heap: Global,
    table: PairTable,
    levels: &[u8],
    outs: &[usize],
) -> Result<Sheet<PairTable>, Refused>
    requires { length levels.now < 2 ^ 63 }
    ensures { Lays (rows_of table) levels.now outs.now result }
{
    let mut sheet = Sheet::blank(heap, table);
    sheet
        .lay(levels)
        .map_err(|fault| lay_place(fault, levels.len(), outs))?;
    Ok(sheet)
}

// Where a fault of laying points to: an output that reads too high to the name of its row, whose line comes after
// those of the atoms and of the rows before it; every other to nothing.
fn lay_place(fault: Fault, atoms: usize, outs: &[usize]) -> Refused
    requires { atoms < 2 ^ 63 }
    ensures { located result ≡ lay_place atoms outs.now (flaw fault) }
{
    match fault {
        Fault::ReadsTooHigh(row) => {
            let row = row as usize;
            Refused {
                fault,
                line: atoms + row + 1,
                byte: outs.get(row).copied().unwrap_or(0),
            }
        }
        _ => Refused::from(fault),
    }
}

// Reads a line or a bar, and enters it.
fn enter_line(
    sheet: &mut Sheet<PairTable>,
    names: &Names,
    letter: Letter,
    fields: Fields,
) -> Result<(), Refusal>
    ensures { (d : Declared) (rules : List Rule) (n : ℕ) → declared names.now ≡ d.names → Holds d.rows d.levels rules sheet.old → Enters d rules n letter (left fields.entry) sheet.new result }
{
    let line = read_line(letter, names, fields)?;
    sheet
        .enter(line.head, line.body.literals().as_slice())
        .map_err(|fault| Refusal::at(fault, enter_place(fault, &line.body)))
}

// Where a fault of entering points to: one literal too many to the ninth, a literal above the head to itself, every
// other to the letter.
fn enter_place(fault: Fault, body: &Body) -> usize
    ensures { result ≡ enter_byte (held body.now) (flaw fault) }
{
    match fault {
        Fault::TooManyLiterals => body.byte(8),
        Fault::LiteralAboveHead(place) => body.byte(place as usize),
        _ => 0,
    }
}

// Enters every line and bar that is left.
fn enter_lines(
    sheet: &mut Sheet<PairTable>,
    names: &Names,
    reader: &mut Reader,
) -> Result<(), Refused>
    ensures { (d : Declared) (rules : List Rule) → declared names.now ≡ d.names → rank_of reader.old.last ≡ 2 → Holds d.rows d.levels rules sheet.old → EntersAll d (ruled d rules reader.old.line (to_come reader.old)) sheet.new result }
{
    while let Some(fields) = reader.open()? {
        if let Err(refusal) = enter_line(sheet, names, reader.last, fields) {
            return Err(in_line(refusal, reader.line));
        }
    }
    Ok(())
}
