//! The declarations of a text, which come before its lines and bars: names and levels of the atoms, and the
//! rows of the pair table.
ghost use Rattle.std.specs.Prelude.{◌≡◌, IfOk};
ghost use Rattle.declarations.specs.Declaring.{none_declared, declarations};
ghost use Rattle.fields.specs.Shown.{left};
ghost use Rattle.fields.specs.declared.field.Letter.TheVariants as letters;
ghost use Rattle.declarations.specs.Shown.{to_come, saying, Declares, DeclaresAll};

use crate::reader::Reader;
use crate::whole::in_line;
use fields::field::Letter;
use fields::names::Names;
use fields::part::Fields;
use modules::rows::PairTable;
use records::record::{read_atom, read_row};
use records::refusal::{Refusal, Refused};
use std::alloc::{AllocError, Global};

// Names, levels, rows, and for each row the byte of its line where its third name begins.
#[derive(Drop)]
pub struct Preamble<'a> {
    pub names: Names<'a>,
    pub levels: Vec<u8>,
    pub table: PairTable,
    pub outs: Vec<usize>,
}

impl<'a> Preamble<'a> {
    pub fn new(heap: Global) -> Result<Preamble<'a>, AllocError>
        ensures { IfOk result (λ preamble. saying preamble ≡ none_declared) }
    {
        let names = Names::new(heap)?;
        Ok(Preamble {
            names,
            levels: Vec::new(heap),
            table: PairTable::new(heap),
            outs: Vec::new(heap),
        })
    }

    fn declare_atom(&mut self, fields: Fields<'a>) -> Result<(), Refusal>
        ensures { Declares letters.Atom (saying self.old) (saying self.new) (left fields.entry) result }
    {
        let level = read_atom(&mut self.names, fields)?;
        self.levels.push(level)?;
        Ok(())
    }

    fn declare_row(&mut self, fields: Fields<'a>) -> Result<(), Refusal>
        ensures { Declares letters.Row (saying self.old) (saying self.new) (left fields.entry) result }
    {
        let row = read_row(&self.names, fields)?;
        self.table.push_row(row.pair)?;
        self.outs.push(row.byte)?;
        Ok(())
    }

    // An atom where the letter is `a`, else a row.
    fn declare(&mut self, letter: Letter, fields: Fields<'a>) -> Result<(), Refusal>
        ensures { Declares letter (saying self.old) (saying self.new) (left fields.entry) result }
    {
        match letter {
            Letter::Atom => self.declare_atom(fields),
            _ => self.declare_row(fields),
        }
    }
}

// Reads the declarations, and stops before the first line or bar.
pub fn read_preamble<'a>(
    reader: &mut Reader<'a>,
    preamble: &mut Preamble<'a>,
) -> Result<(), Refused>
    ensures { DeclaresAll (declarations (saying preamble.old) reader.old.last reader.old.line (to_come reader.old)) (saying preamble.new) reader.new result }
{
    while let Some(fields) = reader.open_declaration()? {
        if let Err(refusal) = preamble.declare(reader.last, fields) {
            return Err(in_line(refusal, reader.line));
        }
    }
    Ok(())
}
