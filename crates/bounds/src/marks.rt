// Marks: an atom whose byte is 1 is held present, one whose byte is 2 is held absent, and any other
// byte says nothing of its atom.
ghost use Rattle.std.specs.Prelude.{◌≡◌, ◌≤◌, not, ◌&&◌, ◌||◌, length};
ghost use Rattle.semantics.specs.Sets.{has, tabled};
ghost use Rattle.semantics.specs.Alternating.{marks_in, is_present, is_absent};

// Begins with the atoms held present as sure and those not held absent as possible.
pub(crate) fn widen(marks: &[u8], sure: &mut [u8], possible: &mut [u8])
    requires sure { length sure.old ≡ length marks.now }
    requires possible { length possible.old ≡ length marks.now }
    ensures sure { sure.new ≡ tabled (λ a. is_present (marks_in marks.now a)) 0 (length marks.now) }
    ensures possible { possible.new ≡ tabled (λ a. not (is_absent (marks_in marks.now a))) 0 (length marks.now) }
{
    for (atom, mark) in marks.iter().enumerate() {
        sure[atom] = (*mark == 1) as u8;
        possible[atom] = (*mark != 2) as u8;
    }
}

// Puts the atoms held present into a set.
pub(crate) fn hold(marks: &[u8], set: &mut [u8])
    requires { length set.old ≡ length marks.now }
    ensures { set.new ≡ tabled (λ a. has set.old a || is_present (marks_in marks.now a)) 0 (length marks.now) }
{
    for (atom, mark) in marks.iter().enumerate() {
        set[atom] = ((set[atom] == 1) | (*mark == 1)) as u8;
    }
}

// Takes the atoms held absent out of a set.
pub(crate) fn bar(marks: &[u8], set: &mut [u8])
    requires { length set.old ≡ length marks.now }
    ensures { set.new ≡ tabled (λ a. has set.old a && not (is_absent (marks_in marks.now a))) 0 (length marks.now) }
{
    for (atom, mark) in marks.iter().enumerate() {
        set[atom] = ((set[atom] == 1) & (*mark != 2)) as u8;
    }
}
