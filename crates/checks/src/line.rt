// What `enter` checks: that the sheet is laid, the number of lines, the head and the body.
//
// A literal is an atom of the sheet whose level is not above the head's; a bar has no head, and so
// is free of the second test. The place of a fault is the first literal that has it.
ghost use Rattle.std.specs.Prelude.{◌≡◌, ◌<◌, ◌≤◌, true, length, is_ok, IfOk};
ghost use Rattle.semantics.specs.Rules.{head_below};
ghost use Rattle.semantics.specs.Sheets.{above_head, literal_fault, line};
ghost use Rattle.lines.specs.Lines.{rule_of};
ghost use Rattle.checks.specs.Checks.{Checked, enter_fault, one_literal_fault};

use crate::levels::level_of;
use faults::Fault;
use lines::line::Line;
use semantics::{Head, Literal};

// The most lines in force.
pub const LINES: usize = 512;

// The line with this head and these literals, after so many others.
pub fn check_line(levels: &[u8], count: usize, head: Head, body: &[Literal]) -> Result<Line, Fault>
    ensures checked { Checked (enter_fault levels.now count head body.now) result }
    ensures few { is_ok result ≡ true → count < 512 }
    ensures made { IfOk result (λ l. rule_of l ≡ line head body.now) }
{
    if levels.is_empty() {
        return Err(Fault::NeverLaid);
    }
    if count >= LINES {
        return Err(Fault::TooManyLines);
    }
    if !is_below(head, levels.len()) {
        return Err(Fault::HeadOutOfRange);
    }
    let Some(line) = Line::new(head, body) else {
        return Err(Fault::TooManyLiterals);
    };
    check_body(levels, head, body)?;
    Ok(line)
}

// Each literal in order.
fn check_body(levels: &[u8], head: Head, body: &[Literal]) -> Result<(), Fault>
    requires { length body.now ≤ 8 }
    ensures { Checked (literal_fault levels.now head 0 body.now) result }
{
    for (place, literal) in body.iter().enumerate() {
        check_literal(levels, head, *literal, place as u16)?;
    }
    Ok(())
}

fn check_literal(levels: &[u8], head: Head, literal: Literal, place: u16) -> Result<(), Fault>
    ensures { Checked (one_literal_fault levels.now head place literal) result }
{
    if literal.atom as usize >= levels.len() {
        return Err(Fault::LiteralOutOfRange(place));
    }
    if is_above(levels, head, literal.atom) {
        return Err(Fault::LiteralAboveHead(place));
    }
    Ok(())
}

fn is_below(head: Head, atoms: usize) -> bool
    ensures { result ≡ head_below atoms head }
{
    match head {
        Head::Bar => true,
        Head::Atom(atom) => (atom as usize) < atoms,
    }
}

fn is_above(levels: &[u8], head: Head, atom: u16) -> bool
    ensures { result ≡ above_head levels.now head atom }
{
    match head {
        Head::Bar => false,
        Head::Atom(own) => level_of(levels, own) < level_of(levels, atom),
    }
}
