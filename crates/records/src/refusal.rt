//! What a record or a text is refused for, and where.
ghost use Rattle.std.specs.Prelude.{◌≡◌};
ghost use Rattle.faults.specs.declared.Fault.TheVariants.{Memory};
ghost use Rattle.records.specs.Reading.{at_byte};

use faults::Fault;
use std::alloc::{AllocError, AllocFailed as Unstored};

// A fault with the byte of its line, from 0, where the field that it points to begins.
#[derive(Clone, Copy, Debug)]
pub struct Refusal {
    pub fault: Fault,
    pub byte: usize,
}

impl Refusal {
    pub fn at(fault: Fault, byte: usize) -> Refusal
        ensures { result ≡ at_byte fault byte }
    {
        Refusal { fault, byte }
    }

    // The same with the line of its record.
    pub fn with_line(self, line: usize) -> Refused
        ensures { result ≡ record { fault = self.fault; line = line; byte = self.byte } }
    {
        Refused {
            fault: self.fault,
            line,
            byte: self.byte,
        }
    }
}

// A fault with its line, from 1, and the byte of that line; a fault of the whole text has line 0 and byte 0.
#[derive(Clone, Copy, Debug)]
pub struct Refused {
    pub fault: Fault,
    pub line: usize,
    pub byte: usize,
}

// A fault that comes from below points to the record's letter.
impl From<Fault> for Refusal {
    ghost from_gives = { λ e r. r ≡ record { fault = e; byte = 0 } };

    fn from(fault: Fault) -> Refusal {
        Refusal::at(fault, 0)
    }
}

impl<T: Drop> From<Unstored<T>> for Refusal {
    ghost from_gives = { λ e r. r ≡ record { fault = Memory; byte = 0 } };

    fn from(_e: Unstored<T>) -> Refusal {
        Refusal::from(Fault::Memory)
    }
}

// A fault of the whole text.
impl From<Fault> for Refused {
    ghost from_gives = { λ e r. r ≡ record { fault = e; line = 0; byte = 0 } };

    fn from(fault: Fault) -> Refused {
        Refused {
            fault,
            line: 0,
            byte: 0,
        }
    }
}

// Want of memory has no place in the text.
impl From<AllocError> for Refused {
    ghost from_gives = { λ e r. r ≡ record { fault = Memory; line = 0; byte = 0 } };

    fn from(_e: AllocError) -> Refused {
        Refused::from(Fault::Memory)
    }
}
