// The printout: a line for each plan, the count under them, and what is told of each atom; or a fault.
//
// Each line ends with the byte 10, and takes the place of what `line` held, so that one buffer serves for all lines;
// `fault_line` alone adds its line to an output. docs/FORMAT.md has the format.

#![tactic(auto)]

ghost use Rattle.std.specs.Prelude.{◌≡◌, OnOk};
ghost use Rattle.std.specs.Io.KnownBytes.{Appends};
ghost use Rattle.printout.specs.Printed.{plan_line, end_line, tell_line, fault_line, texts};

use sheet::paper::Told;
use std::alloc::AllocError;
use std::io;
use std::io::Write;

// The line of a plan: the names of its atoms in the order of their numbers.
pub fn plan_line(line: &mut Vec<u8>, names: &[&[u8]], plan: &[u8]) -> Result<(), AllocError>
    ensures { OnOk result (line.new.items ≡ plan_line (texts names.now) plan.now) }
{
    line.clear();
    line.extend_from_slice(b"plan")?;
    for (name, byte) in names.iter().zip(plan) {
        if *byte == 1 {
            line.push(b',')?;
            line.extend_from_slice(name)?;
        }
    }
    line.push(b'\n')?;
    Ok(())
}

// The line under the plans, with their number.
pub fn end_line(line: &mut Vec<u8>, count: u32) -> Result<(), AllocError>
    ensures { OnOk result (line.new.items ≡ end_line count) }
{
    let text = format!(in *line.allocator(); "end,{count}\n")?;
    line.clear();
    line.extend_from_slice(text.as_bytes())
}

// What is told of an atom: its name, how many plans hold it, whether some do, and whether all do.
pub fn tell_line(line: &mut Vec<u8>, name: &[u8], told: Told) -> Result<(), AllocError>
    ensures { OnOk result (line.new.items ≡ tell_line name.now told.held told.brave told.cautious) }
{
    let held = told.held;
    let some = u8::from(told.brave);
    let all = u8::from(told.cautious);
    let rest = format!(in *line.allocator(); ",{held},{some},{all}\n")?;
    line.clear();
    line.extend_from_slice(b"tell,")?;
    line.extend_from_slice(name)?;
    line.extend_from_slice(rest.as_bytes())
}

// A fault, by its number and its place in the text.
pub fn fault_line_into(
    line: &mut Vec<u8>,
    number: u8,
    place: usize,
    byte: usize,
) -> Result<(), AllocError>
    ensures { OnOk result (line.new.items ≡ fault_line number place byte) }
{
    let text = format!(in *line.allocator(); "fault,{number},{place},{byte}\n")?;
    line.clear();
    line.extend_from_slice(text.as_bytes())
}

// The same line added to any output. It asks for no heap of its own, and goes out in pieces: where a write fails, part
// of it may stand.
pub fn fault_line<W: Write>(out: &mut W, number: u8, line: usize, byte: usize) -> io::Result<()>
    ensures { OnOk result (Appends (W.contents out.old) (W.contents out.new) (fault_line number line byte)) }
{
    writeln!(out, "fault,{number},{line},{byte}")
}

#[cfg(test)]
mod tests {
    use super::*;
    use std::test::Fail;

    #[test]
    fn fault_line_adds_to_an_output(rt: HostRuntime) -> Result<(), Fail> {
        let mut out = Vec::new(rt.alloc());
        out.extend_from_slice(b"plan,gauge,bare\n")?;
        fault_line(&mut out, 22, 3, 6)?;
        fault_line(&mut out, 13, 0, 0)?;
        let want: &[u8] = b"plan,gauge,bare\nfault,22,3,6\nfault,13,0,0\n";
        assert_eq!(rt; out.as_slice(), want);
        Ok(())
    }
}
