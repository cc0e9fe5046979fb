// Rows of a pair table.
ghost use Rattle.std.specs.Prelude.{◌≡◌, ◌≤◌, true, vec_len};
ghost use Rattle.modules.specs.Pairs.{atoms_fit};

// Where the atoms `one` and `other` are both present, the row gives the atom `to`.
#[derive(Clone, Copy, PartialEq, Eq, Debug)]
pub struct Pair {
    pub one: u16,
    pub other: u16,
    pub to: u16,
}

// At most 64 rows, each a position.
#[derive(Drop)]
pub struct PairTable {
    pub(crate) rows: Vec<Pair>,
    ghost few: { vec_len rows ≤ 64 },
    ghost within: { atoms_fit rows.items ≡ true },
}
