//! Records: the letter that opens one, and what its other fields say. In each, the first fault is named.
ghost use Rattle.std.specs.Prelude.{◌≡◌};
ghost use Rattle.records.specs.Reading.{atom_record, row_record, line_record, bar_record, line_by, with_name, opening, ordered, rank_of, tail};
ghost use Rattle.fields.specs.Shown.{declared, left};
ghost use Rattle.records.specs.Shown.{level_said, row_said, line_said, nine_of, section_rank};

use crate::body::Body;
use crate::read::{read_body, read_known, read_level, read_unused};
use crate::refusal::Refusal;
use faults::Fault;
use fields::field::{Letter, letter_of};
use fields::names::Names;
use fields::part::Fields;
use modules::rows::Pair;
use semantics::Head;

// A row of the pair table, and the byte where the name of the atom that it gives begins.
#[derive(Clone, Copy)]
pub struct Row {
    pub pair: Pair,
    pub byte: usize,
}

// A line or a bar.
#[derive(Clone, Copy)]
pub struct Line {
    pub head: Head,
    pub body: Body,
}

// The level of an atom. Its name is declared.
pub fn read_atom<'a>(names: &mut Names<'a>, fields: Fields<'a>) -> Result<u8, Refusal>
    ensures says { result ≡ level_said (atom_record (declared names.old) (left fields.entry)) }
    ensures names { declared names.new ≡ with_name (declared names.old) (atom_record (declared names.old) (left fields.entry)) }
{
    let (name, level) = fields.two().ok_or(Fault::FieldCount)?;
    read_unused(names, name)?;
    let level = read_level(level)?;
    if !names.declare(name.bytes) {
        return Err(Refusal::from(Fault::LevelCount));
    }
    Ok(level)
}

pub fn read_row(names: &Names, fields: Fields) -> Result<Row, Refusal>
    ensures { row_said result ≡ row_record (declared names.now) (left fields.entry) }
{
    let (first, second, out) = fields.three().ok_or(Fault::FieldCount)?;
    let one = read_known(names, first)?;
    let other = read_known(names, second)?;
    let to = read_known(names, out)?;
    Ok(Row {
        pair: Pair { one, other, to },
        byte: out.at,
    })
}

// A line where the letter is `r`, else a bar.
pub fn read_line(letter: Letter, names: &Names, fields: Fields) -> Result<Line, Refusal>
    ensures { line_said result ≡ nine_of (line_by letter (declared names.now) (left fields.entry)) }
{
    match letter {
        Letter::Rule => read_rule(names, fields),
        _ => read_bar(names, fields),
    }
}

fn read_rule(names: &Names, mut fields: Fields) -> Result<Line, Refusal>
    ensures { line_said result ≡ nine_of (line_record (declared names.now) (left fields.entry)) }
{
    let head = fields.next().ok_or(Fault::FieldCount)?;
    let atom = read_known(names, head)?;
    let body = read_body(names, fields)?;
    Ok(Line {
        head: Head::Atom(atom),
        body,
    })
}

fn read_bar(names: &Names, fields: Fields) -> Result<Line, Refusal>
    ensures { line_said result ≡ nine_of (bar_record (declared names.now) (left fields.entry)) }
{
    let body = read_body(names, fields)?;
    Ok(Line {
        head: Head::Bar,
        body,
    })
}

// The letter of a record that follows one with the letter `last`; a text begins as after an atom.
pub fn open_record(last: Letter, fields: &mut Fields) -> Result<Letter, Refusal>
    ensures letter { result ≡ opening last (left fields.old) }
    ensures rest { left fields.new ≡ tail (left fields.old) }
{
    let letter = fields.next().and_then(|field| letter_of(field.bytes));
    in_order(last, letter)
}

fn in_order(last: Letter, letter: Option<Letter>) -> Result<Letter, Refusal>
    ensures { result ≡ ordered last letter }
{
    let letter = letter.ok_or(Fault::UnknownLetter)?;
    if section_of(letter) < section_of(last) {
        return Err(Refusal::from(Fault::OutOfOrder));
    }
    Ok(letter)
}

// Atoms come first, then rows, then lines and bars.
#[derive(Clone, Copy, PartialEq, Eq, PartialOrd, Ord)]
enum Section {
    Atoms,
    Rows,
    Lines,
}

fn section_of(letter: Letter) -> Section
    ensures { section_rank result ≡ rank_of letter }
{
    match letter {
        Letter::Atom => Section::Atoms,
        Letter::Row => Section::Rows,
        Letter::Rule | Letter::Bar => Section::Lines,
    }
}
