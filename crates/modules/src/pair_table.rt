// A pair table: up to 64 rows, each of which gives an atom where two others are both present.
ghost use Rattle.std.specs.Prelude.{◌≡◌, ◌&&◌, ◌||◌, [], ◌==◌};
ghost use Rattle.semantics.specs.Sets.{has};
ghost use Rattle.semantics.specs.Modules.{pair_table};
ghost use Rattle.modules.specs.Tables.{row_of, rows_of, RowPushed, RowAt};
ghost use Rattle.modules.specs.TableLaw.{pair_table_lawful};

use crate::query::Module;
use crate::rows::{Pair, PairTable};
use faults::Fault;
use semantics::sets::is_present;
use std::alloc::Global;

// The most rows that a table has.
const ROWS: usize = 64;

impl PairTable {
    pub fn new(heap: Global) -> PairTable
        ensures { rows_of result ≡ [] }
    {
        PairTable {
            rows: Vec::new(heap),
        }
    }

    // Refused with fault 19 at 64 rows, and for want of memory with none lost.
    pub fn push_row(&mut self, row: Pair) -> Result<(), Fault>
        ensures { RowPushed (rows_of self.old) (rows_of self.new) (row_of row) result }
    {
        if self.rows.len() >= ROWS {
            return Err(Fault::TableFull);
        }
        self.rows.push(row)?;
        Ok(())
    }
}

impl Pair {
    fn reads(self, atom: u16) -> bool
        ensures { result ≡ (self.one == atom || self.other == atom) }
    {
        self.one == atom || self.other == atom
    }

    fn given(self, set: &[u8]) -> bool
        ensures { result ≡ (has set.now self.one && has set.now self.other) }
    {
        is_present(set, self.one) && is_present(set, self.other)
    }
}

// The row at a position, if there is one.
fn row_at(table: &PairTable, position: u16) -> Option<Pair>
    ensures { RowAt table.now.rows.items position result }
{
    table.rows.get(position as usize).copied()
}

impl Module for PairTable {
    ghost meaning = { λ t. pair_table (rows_of t) };

    ghost lawful = { pair_table_lawful };

    fn outputs(&self) -> u16 {
        self.rows.len() as u16
    }

    fn atom(&self, position: u16) -> u16 {
        row_at(self, position).map_or(65535, |row| row.to)
    }

    fn reads(&self, position: u16, atom: u16) -> bool {
        row_at(self, position).is_some_and(|row| row.reads(atom))
    }

    fn given(&self, position: u16, set: &[u8]) -> bool {
        row_at(self, position).is_some_and(|row| row.given(set))
    }
}
