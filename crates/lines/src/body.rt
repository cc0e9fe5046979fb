// The body test, and what it decides: whether some bar forbids what a set has.
ghost use Rattle.std.specs.Prelude.{◌≡◌, ◌<◌, ◌&&◌, T, length};
ghost use Rattle.semantics.specs.Sets.{all};
ghost use Rattle.semantics.specs.Rules.{body_holds, literal_holds, bar_holds, is_bar, rule_below};
ghost use Rattle.lines.specs.Lines.{rule_of, rules_of};

use crate::line::Line;
use semantics::sets::is_present;
use semantics::{Head, Literal, Side};

// Whether a plain literal's atom is in `set`, or a negated one's outside `by`.
fn literal_holds(literal: &Literal, set: &[u8], by: &[u8]) -> bool
    ensures { result ≡ literal_holds set.now by.now literal.now.side literal.now.atom }
{
    match literal.side {
        Side::Present => is_present(set, literal.atom),
        Side::Absent => !is_present(by, literal.atom),
    }
}

// Whether the plain atoms of the body are in `set` and the negated ones outside `by`.
pub fn body_holds(line: &Line, set: &[u8], by: &[u8]) -> bool
    ensures { result ≡ body_holds set.now by.now (rule_of line.now).body }
{
    line.body()
        .iter()
        .all(|literal| literal_holds(literal, set, by))
}

// Whether the line is a bar whose body holds.
fn is_broken(line: &Line, set: &[u8], by: &[u8]) -> bool
    ensures { result ≡ (is_bar (rule_of line.now).head && body_holds set.now by.now (rule_of line.now).body) }
{
    match line.head() {
        Head::Bar => body_holds(line, set, by),
        Head::Atom(_) => false,
    }
}

// Whether some bar has its plain atoms in `set` and its negated ones outside `by`.
pub fn bar_holds(lines: &[Line], set: &[u8], by: &[u8]) -> bool
    ensures { result ≡ bar_holds (rules_of lines.now) set.now by.now }
{
    lines.iter().any(|line| is_broken(line, set, by))
}
