// Sets of atoms as bytes: an atom is present where its byte is 1, and absent where it is another or there is none.
ghost use Rattle.std.specs.Prelude.{◌≡◌};
ghost use Rattle.semantics.specs.Sets.{has};

pub fn is_present(set: &[u8], atom: u16) -> bool
    ensures { result ≡ has set.now atom }
{
    set.get(atom as usize) == Some(&1)
}
