// Lists every plan of the sheet that standard input describes, as docs/FORMAT.md has it. A fault ends with status 1.

#![tactic(auto)]

use report::list::list;
use report::stop::Stop;
use std::io::{BufWriter, Read, Write};
use std::process::ExitCode;

// One byte more than a text may have, so that one too long is told from one that is not.
const MOST: u64 = 65_537;

fn read_text(rt: &HostRuntime) -> Result<Vec<u8>, Stop> {
    let mut text = Vec::new(rt.alloc());
    rt.stdin().take(MOST).read_to_end(&mut text)?;
    Ok(text)
}

fn print_list(rt: &HostRuntime) -> Result<(), Stop> {
    let text = read_text(rt)?;
    let mut out = BufWriter::new(rt.alloc(), rt.stdout())?;
    match list(rt.alloc(), &text, &mut out) {
        Err(Stop::Outside(error)) => Err(Stop::Outside(error)),
        listed => {
            out.flush()?;
            listed
        }
    }
}

// Quiet on standard error: a refusal was printed, and a failed read or write, or want of memory, shows by the status.
fn main(rt: HostRuntime) -> ExitCode {
    match print_list(&rt) {
        Ok(()) => ExitCode::SUCCESS,
        Err(_) => ExitCode::FAILURE,
    }
}
