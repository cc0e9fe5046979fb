// Sets of atoms as bytes, 1 for present and 0 for absent: made empty, added to, taken over, and compared.
ghost use Rattle.std.specs.Prelude.{◌≡◌, ◌≤◌, false, length, slice_set};
ghost use Rattle.semantics.specs.Sets.{same, tabled};
ghost use Rattle.bounds.specs.Beyond.{FirstBeyond};

// Takes every atom out.
pub(crate) fn clear(set: &mut [u8])
    ensures { set.new ≡ tabled (λ _. false) 0 (length set.old) }
{
    set.fill(0);
}

// Puts an atom in, or nothing where the set has no byte for it.
pub(crate) fn put(set: &mut [u8], atom: u16)
    ensures { set.new ≡ slice_set set.old atom 1 }
{
    let atom = atom as usize;
    if atom < set.len() {
        set[atom] = 1;
    }
}

// Takes over the bytes of another set, and says whether they were the same before.
pub(crate) fn take_over(set: &mut [u8], other: &[u8]) -> bool
    requires { length set.old ≡ length other.now }
    ensures set { set.new ≡ other.now }
    ensures test { result ≡ same set.old other.now }
{
    if is_same(set, other) {
        return true;
    }
    set.copy_from_slice(other);
    false
}

// Whether two sets are the same.
pub(crate) fn is_same(first: &[u8], second: &[u8]) -> bool
    ensures { result ≡ same first.now second.now }
{
    first == second
}

// The lowest atom of a set that is not in another, if there is one.
pub fn first_beyond(set: &[u8], other: &[u8]) -> Option<u16>
    requires few { length set.now ≤ 256 }
    requires alike { length other.now ≡ length set.now }
    ensures { FirstBeyond set.now other.now result }
{
    set.iter()
        .zip(other)
        .position(|(byte, beyond)| *byte == 1 && *beyond != 1)
        .map(|atom| atom as u16)
}
