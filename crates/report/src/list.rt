// Prints the whole printout of a text.
ghost use Rattle.std.specs.Prelude.{IfOk};
ghost use Rattle.report.specs.Lists.{Lists, ListsLines, PrintsFault};

use crate::open::open;
use crate::stop::Stop;
use faults::Fault;
use printout::fault_line_into;
use records::refusal::Refused;
use std::alloc::Global;
use std::io;
use std::io::Write;

// Every line of the printout; or what comes before a fault, and then the fault.
pub fn list<W: Write>(heap: Global, text: &[u8], out: &mut W) -> Result<(), Stop>
    ensures { Lists text.now (W.contents out.old) (W.contents out.new) result }
{
    match list_lines(heap, text, out) {
        Err(Stop::Refused(refused)) => {
            let printed = print_fault(heap, refused, out)?;
            Err(Stop::Refused(printed))
        }
        listed => listed,
    }
}

// The same without the line of the fault.
fn list_lines<W: Write>(heap: Global, text: &[u8], out: &mut W) -> Result<(), Stop>
    ensures { ListsLines text.now (W.contents out.old) (W.contents out.new) result }
{
    let mut lister = open(heap, text)?;
    while let Some(line) = lister.next_line()? {
        out.write_all(line)?;
    }
    Ok(())
}

// Writes the line of the fault at once, or that of want of memory where there is none for it. Which it was.
fn print_fault<W: Write>(heap: Global, refused: Refused, out: &mut W) -> io::Result<Refused>
    ensures { IfOk result (PrintsFault refused (W.contents out.old) (W.contents out.new)) }
{
    let mut line = Vec::new(heap);
    match fault_line_into(
        &mut line,
        refused.fault.number(),
        refused.line,
        refused.byte,
    ) {
        Ok(()) => {
            out.write_all(line.as_slice())?;
            Ok(refused)
        }
        Err(_) => {
            out.write_all(b"fault,0,0,0\n")?;
            Ok(Refused::from(Fault::Memory))
        }
    }
}
