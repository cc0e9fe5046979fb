//! A text line by line: whether it is whole, the record that the next line holds, and the place of a refusal.
ghost use Rattle.std.specs.Prelude.{◌≡◌, None, Ok};
ghost use Rattle.faults.specs.declared.Fault.TheVariants.{Memory};
ghost use Rattle.fields.specs.declared.field.Letter.TheVariants as letters;
ghost use Rattle.fields.specs.Pieces.{lines_of};
ghost use Rattle.declarations.specs.Whole.{ended, is_whole};
ghost use Rattle.declarations.specs.Shown.{to_come, opened_as, opened, next_declaration, PlacedIn, no_memory};

use crate::reader::Reader;
use faults::Fault;
use fields::field::Letter;
use fields::part::{Fields, line_at};
use records::record::open_record;
use records::refusal::{Refusal, Refused};

const LONGEST: usize = 65_536;

// A text is at most 65,536 bytes long, and its last line is ended.
pub fn is_whole(text: &[u8]) -> bool
    ensures { result ≡ is_whole text.now }
{
    text.len() <= LONGEST && is_ended(text)
}

fn is_ended(text: &[u8]) -> bool
    ensures { result ≡ ended text.now }
{
    match text {
        [] => true,
        [.., last] => *last == b'\n',
    }
}

// The same refusal with its line. Want of memory has no place.
pub fn in_line(refusal: Refusal, line: usize) -> Refused
    ensures place { PlacedIn line refusal result }
    ensures memory { refusal.fault ≡ Memory → result ≡ no_memory }
{
    match refusal.fault {
        Fault::Memory => Refused::from(Fault::Memory),
        _ => refusal.with_line(line),
    }
}

impl<'a> Reader<'a> {
    pub fn new(text: &'a [u8]) -> Reader<'a>
        ensures lines { to_come result ≡ lines_of text.now }
        ensures line { result.line ≡ 0 }
        ensures last { result.last ≡ letters.Atom }
    {
        Reader {
            text,
            at: 0,
            line: 0,
            last: Letter::Atom,
        }
    }

    // Opens the record in the next line: its letter is then the last one, and its other fields are handed out.
    pub fn open(&mut self) -> Result<Option<Fields<'a>>, Refused>
        ensures { opened_as self.new result ≡ opened self.old.last self.old.line (to_come self.old) }
    {
        let Some(line) = line_at(self.text, self.at) else {
            return Ok(None);
        };
        self.at += line.bytes.len() + 1;
        self.line += 1;
        let mut fields = Fields::of(line.bytes);
        let opened = open_record(self.last, &mut fields);
        let letter = opened.map_err(|refusal| refusal.with_line(self.line))?;
        self.last = letter;
        Ok(Some(fields))
    }

    // The same where the record is a declaration; before a line or a bar the reader stays.
    pub fn open_declaration(&mut self) -> Result<Option<Fields<'a>>, Refused>
        ensures opens { opened_as self.new result ≡ next_declaration self.old.last self.old.line (to_come self.old) }
        ensures stays { result ≡ Ok None → self.new ≡ self.old }
    {
        let mut ahead = *self;
        let Some(fields) = ahead.open()? else {
            return Ok(None);
        };
        match ahead.last {
            Letter::Atom | Letter::Row => {
                *self = ahead;
                Ok(Some(fields))
            }
            Letter::Rule | Letter::Bar => Ok(None),
        }
    }
}
