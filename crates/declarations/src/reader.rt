//! How far the reading of a text has come.
ghost use Rattle.std.specs.Prelude.{◌≤◌};

use fields::field::Letter;

// The text, where its next line begins, how many lines came before, and the letter of the last record.
#[derive(Clone, Copy)]
pub struct Reader<'a> {
    pub(crate) text: &'a [u8],
    pub(crate) at: usize,
    pub line: usize,
    pub last: Letter,
    ghost counted: { line ≤ at },
}
