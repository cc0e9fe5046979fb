// Why a call, a row or a text is refused: one list of faults for all layers.
//
// A fault has a number, which names the layer that found it, and a place: the atom, the output
// position or the literal that it was found at, and 0 where there is nothing to point to. No layer
// changes either on the way up; the text reader adds the line and the byte.

#![tactic(auto)]

ghost use Rattle.std.specs.Prelude.{◌≡◌};
ghost use Rattle.faults.specs.Faults.{number_of, place_of};
ghost use Rattle.faults.specs.declared.Fault.TheVariants.{Memory};

use std::alloc::{AllocError, AllocFailed};

#[derive(Clone, Copy, PartialEq, Eq, Debug)]
pub enum Fault {
    // the machine has no memory left
    Memory,

    // the sheet was never laid
    NeverLaid,
    // no levels, or more than 256
    LevelCount,
    // the level of this atom is above 15
    LevelTooHigh(u16),
    // the output at this position is no atom of the sheet
    OutputOutOfRange(u16),
    // the output at this position reads an atom whose level is not below its own
    ReadsTooHigh(u16),
    // 512 lines are in force
    TooManyLines,
    // the head is no atom of the sheet
    HeadOutOfRange,
    // the body has more than eight literals
    TooManyLiterals,
    // this literal's atom is none of the sheet's
    LiteralOutOfRange(u16),
    // the level of this literal's atom is above the head's
    LiteralAboveHead(u16),
    // the buffer has not one byte for each atom
    WrongBuffer,
    // 1,000,000 plans were handed out
    ListingFull,
    // no atom of the sheet has this number
    NoSuchAtom,
    // the listing has not come to its end
    NotEnded,

    // the pair table has 64 rows
    TableFull,

    // the first field is not one of the four letters
    UnknownLetter,
    // a name is malformed
    MalformedName,
    // a name is not declared
    UnknownName,
    // a name is declared twice
    NameTwice,
    // a record comes after one that it must stand before
    OutOfOrder,
    // a level is not one of the texts 0 to 15
    BadLevel,
    // a record has the wrong number of fields
    FieldCount,
    // the text is too long, or its last line is not ended
    NotWhole,
}

impl Fault {
    pub fn number(self) -> u8
        ensures { result ≡ number_of self }
    {
        match self {
            Fault::Memory => 0,
            Fault::NeverLaid => 1,
            Fault::LevelCount => 2,
            Fault::LevelTooHigh(_) => 3,
            Fault::OutputOutOfRange(_) => 4,
            Fault::ReadsTooHigh(_) => 5,
            Fault::TooManyLines => 6,
            Fault::HeadOutOfRange => 7,
            Fault::TooManyLiterals => 8,
            Fault::LiteralOutOfRange(_) => 9,
            Fault::LiteralAboveHead(_) => 10,
            Fault::WrongBuffer => 12,
            Fault::ListingFull => 13,
            Fault::NoSuchAtom => 14,
            Fault::NotEnded => 15,
            Fault::TableFull => 19,
            Fault::UnknownLetter => 20,
            Fault::MalformedName => 21,
            Fault::UnknownName => 22,
            Fault::NameTwice => 23,
            Fault::OutOfOrder => 24,
            Fault::BadLevel => 25,
            Fault::FieldCount => 26,
            Fault::NotWhole => 27,
        }
    }

    pub fn place(self) -> u16
        ensures { result ≡ place_of self }
    {
        match self {
            Fault::LevelTooHigh(place)
            | Fault::OutputOutOfRange(place)
            | Fault::ReadsTooHigh(place)
            | Fault::LiteralOutOfRange(place)
            | Fault::LiteralAboveHead(place) => place,
            _ => 0,
        }
    }
}

// Want of memory is one more fault, so that `?` carries it.
impl From<AllocError> for Fault {
    ghost from_gives = { λ e r. r ≡ Memory };

    fn from(_e: AllocError) -> Fault {
        Fault::Memory
    }
}

impl<T: Drop> From<AllocFailed<T>> for Fault {
    ghost from_gives = { λ e r. r ≡ Memory };

    fn from(_e: AllocFailed<T>) -> Fault {
        Fault::Memory
    }
}
