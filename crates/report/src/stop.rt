// Why a printout does not come to its end.
ghost use Rattle.std.specs.Prelude.{◌≡◌};
ghost use Rattle.report.specs.declared.stop.Stop.TheVariants as stop;

use faults::Fault;
use records::refusal::Refused;
use std::io;

#[derive(Debug, Drop)]
pub enum Stop {
    // a fault, which is the last line that is printed
    Refused(Refused),
    // the text could not be read, or the output could not be written
    Outside(io::Error),
}

impl From<Refused> for Stop {
    ghost from_gives = { λ e r. r ≡ stop.Refused e };

    fn from(refused: Refused) -> Stop {
        Stop::Refused(refused)
    }
}

// A fault of the sheet has no place in the text.
impl From<Fault> for Stop {
    ghost from_gives = { λ e r. r ≡ stop.Refused (record { fault = e; line = 0; byte = 0 }) };

    fn from(fault: Fault) -> Stop {
        Stop::Refused(Refused::from(fault))
    }
}

impl From<io::Error> for Stop {
    ghost from_gives = { λ e r. r ≡ stop.Outside e };

    fn from(error: io::Error) -> Stop {
        Stop::Outside(error)
    }
}
