// Querying the bank: which atoms its positions give at a full set, and which they surely or possibly
// give at the sets between two bounds. A position is settled if it reads no atom that is possible and
// not sure: it is then given at all of these sets or at none.
ghost use Rattle.std.specs.Prelude.{◌≡◌, ◌≤◌, not, ◌&&◌, ◌||◌, length, take};
ghost use Rattle.semantics.specs.Sets.{tabled};
ghost use Rattle.semantics.specs.Banks.{gives, some_output};
ghost use Rattle.semantics.specs.Alternating.{surely, possibly};
ghost use Rattle.bounds.specs.Pairs.{pair_of, atoms_of};
ghost use Rattle.bounds.specs.Rounds.{bank_alone};
ghost use Rattle.bounds.specs.Unknown.{unknown_atoms, reads_none};
ghost use Rattle.bounds.specs.Ends.{standing_of};

use crate::pair::Bounds;
use crate::sets::{clear, put};
use modules::query::Module;

// The atoms that the bank gives at a full set.
pub(crate) fn query_at<M: Module>(bank: &M, set: &[u8], outputs: &mut [u8])
    ensures { outputs.new ≡ tabled (gives (M.Module.meaning bank.now) set.now) 0 (length outputs.old) }
{
    clear(outputs);
    for position in 0..bank.outputs() {
        if bank.given(position, set) {
            put(outputs, bank.atom(position));
        }
    }
}

// How a position stands between the bounds: given at every set, at some perhaps, or at none.
#[derive(Clone, Copy)]
pub(crate) enum Standing {
    Sure,
    Open,
    Never,
}

// The atoms that the bank surely and possibly gives at the sets between the bounds.
pub(crate) fn query_between<M: Module>(bank: &M, bounds: &Bounds, given: &mut Bounds)
    requires { atoms_of given.old ≡ atoms_of bounds.now }
    ensures lender_sure { given.new.sure.ghost_name ≡ given.old.sure.ghost_name }
    ensures lender_possible { given.new.possible.ghost_name ≡ given.old.possible.ghost_name }
    ensures sure { given.new.sure.now ≡ tabled (surely (bank_alone (M.Module.meaning bank.now) (atoms_of bounds.now)) (pair_of bounds.now)) 0 (atoms_of bounds.now) }
    ensures possible { given.new.possible.now ≡ tabled (possibly (bank_alone (M.Module.meaning bank.now) (atoms_of bounds.now)) (pair_of bounds.now)) 0 (atoms_of bounds.now) }
{
    if bank.outputs() == 0 {
        clear(given.sure);
        clear(given.possible);
        return;
    }
    let mut room = [0u16; 256];
    let count = list_unknown(bounds, &mut room[..]);
    query_positions(bank, bounds.sure, &room[0..count], given);
}

// Queries each position once, where these atoms are possible and not sure. One whose atom no set has is passed over.
fn query_positions<M: Module>(bank: &M, sure: &[u8], unknown: &[u16], given: &mut Bounds)
    ensures lender_sure { given.new.sure.ghost_name ≡ given.old.sure.ghost_name }
    ensures lender_possible { given.new.possible.ghost_name ≡ given.old.possible.ghost_name }
    ensures sure { given.new.sure.now ≡ tabled (some_output (M.Module.meaning bank.now) (λ k. reads_none (M.Module.meaning bank.now) unknown.now k && (M.Module.meaning bank.now).given k sure.now)) 0 (atoms_of given.old) }
    ensures possible { given.new.possible.now ≡ tabled (some_output (M.Module.meaning bank.now) (λ k. not (reads_none (M.Module.meaning bank.now) unknown.now k) || (M.Module.meaning bank.now).given k sure.now)) 0 (atoms_of given.old) }
{
    clear(given.sure);
    clear(given.possible);
    for position in 0..bank.outputs() {
        let atom = bank.atom(position);
        if (atom as usize) < given.sure.len() {
            match find_standing(bank, position, sure, unknown) {
                Standing::Sure => {
                    put(given.sure, atom);
                    put(given.possible, atom);
                }
                Standing::Open => put(given.possible, atom),
                Standing::Never => {}
            }
        }
    }
}

fn find_standing<M: Module>(bank: &M, position: u16, sure: &[u8], unknown: &[u16]) -> Standing
    ensures { result ≡ standing_of (reads_none (M.Module.meaning bank.now) unknown.now position) ((M.Module.meaning bank.now).given position sure.now) }
{
    if !is_settled(bank, position, unknown) {
        Standing::Open
    } else if bank.given(position, sure) {
        Standing::Sure
    } else {
        Standing::Never
    }
}

// Whether the position reads none of these atoms.
fn is_settled<M: Module>(bank: &M, position: u16, unknown: &[u16]) -> bool
    ensures { result ≡ reads_none (M.Module.meaning bank.now) unknown.now position }
{
    unknown.iter().all(|atom| !bank.reads(position, *atom))
}

// Writes down the atoms that are possible and not sure, and says how many there are.
fn list_unknown(bounds: &Bounds, unknown: &mut [u16]) -> usize
    requires { atoms_of bounds.now ≤ length unknown.old }
    ensures few { result ≤ atoms_of bounds.now }
    ensures atoms { take result unknown.new ≡ unknown_atoms (pair_of bounds.now) (atoms_of bounds.now) }
{
    let mut count = 0;
    for (atom, sure) in bounds.sure.iter().enumerate() {
        if *sure != 1 && bounds.possible[atom] == 1 {
            unknown[count] = atom as u16;
            count += 1;
        }
    }
    count
}
