// Prints what is printed for each text that is named as an argument, after a line with its name. The texts are in data/,
// and what must be printed for them was made by another implementation, tools/reference.py.

#![tactic(auto)]

use report::list::list;
use report::stop::Stop;
use std::io::{BufWriter, Write};
use std::{env, fs};

fn try_text(rt: &HostRuntime, name: &str, out: &mut impl Write) -> anyhow::Result<()> {
    let text = fs::read(rt, name)?;
    writeln!(out, "# {name}")?;
    match list(rt.alloc(), &text, out) {
        Err(Stop::Outside(error)) => Err(error.into()),
        // the fault of a refused text is printed
        Err(Stop::Refused(_)) | Ok(()) => Ok(()),
    }
}

fn main(rt: HostRuntime) -> anyhow::Result<()> {
    let mut out = BufWriter::new(rt.alloc(), rt.stdout())?;
    for name in env::args(&rt)?.skip(1) {
        try_text(&rt, name.as_str(), &mut out)?;
    }
    out.flush()?;
    Ok(())
}
