//! The sheet that a text describes, with the names of its atoms, which are parts of that text.
use fields::names::Names;
use modules::rows::PairTable;
use sheet::paper::Sheet;

// The name at a place is that of the atom with that number.
#[derive(Drop)]
pub struct Loaded<'a> {
    pub sheet: Sheet<PairTable>,
    pub names: Names<'a>,
}
