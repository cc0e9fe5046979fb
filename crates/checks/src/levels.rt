// What `lay` checks: the number of levels, each level, and each output of the bank.
//
// An output is an atom of the sheet, and each atom of the sheet that it reads has a level below
// its own. The place of a fault is the lowest atom or position that has it.
ghost use Rattle.std.specs.Prelude.{◌≡◌, ◌≤◌, true, not, length, is_ok, nat_lt};
ghost use Rattle.semantics.specs.Sheets.{lowest, level, reads_too_high};
ghost use Rattle.checks.specs.Checks.{Checked, lay_fault};

use faults::Fault;
use modules::query::Module;

// The most atoms of a sheet.
pub const ATOMS: usize = 256;

pub fn check_levels<M: Module>(bank: &M, levels: &[u8]) -> Result<(), Fault>
    ensures checked { Checked (lay_fault (M.Module.meaning bank.now) levels.now) result }
    ensures few { is_ok result ≡ true → length levels.now ≤ 256 }
{
    if levels.is_empty() || levels.len() > ATOMS {
        return Err(Fault::LevelCount);
    }
    if let Some(atom) = high_level(levels) {
        return Err(Fault::LevelTooHigh(atom));
    }
    if let Some(position) = stray_output(bank, levels.len()) {
        return Err(Fault::OutputOutOfRange(position));
    }
    if let Some(position) = high_reader(bank, levels) {
        return Err(Fault::ReadsTooHigh(position));
    }
    Ok(())
}

// The level of an atom, 0 for one that is none of the sheet's.
pub(crate) fn level_of(levels: &[u8], atom: u16) -> u8
    ensures { result ≡ level levels.now atom }
{
    levels.get(atom as usize).copied().unwrap_or(0)
}

// The lowest atom whose level is above 15.
fn high_level(levels: &[u8]) -> Option<u16>
    requires { length levels.now ≤ 256 }
    ensures { result ≡ lowest (λ a. nat_lt 15 (level levels.now a)) (length levels.now) }
{
    levels
        .iter()
        .position(|level| *level > 15)
        .map(|atom| atom as u16)
}

// The lowest position whose atom is none of the sheet's.
fn stray_output<M: Module>(bank: &M, atoms: usize) -> Option<u16>
    ensures { result ≡ lowest (λ k. not (nat_lt ((M.Module.meaning bank.now).atom k) atoms)) (M.Module.meaning bank.now).outputs }
{
    (0..bank.outputs()).find(|position| bank.atom(*position) as usize >= atoms)
}

// The lowest position that reads an atom of the sheet whose level is not below that of its output.
fn high_reader<M: Module>(bank: &M, levels: &[u8]) -> Option<u16>
    requires { length levels.now ≤ 256 }
    ensures { result ≡ lowest (reads_too_high levels.now (M.Module.meaning bank.now)) (M.Module.meaning bank.now).outputs }
{
    (0..bank.outputs()).find(|position| is_high_reader(bank, levels, *position))
}

// Whether a position reads such an atom.
fn is_high_reader<M: Module>(bank: &M, levels: &[u8], position: u16) -> bool
    requires { length levels.now ≤ 256 }
    ensures { result ≡ reads_too_high levels.now (M.Module.meaning bank.now) position }
{
    let own = level_of(levels, bank.atom(position));
    (0..levels.len()).any(|atom| bank.reads(position, atom as u16) && levels[atom] >= own)
}
