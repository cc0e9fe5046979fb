//! The names that a text has declared so far, each a part of that text: the name at a place is that of the
//! atom with that number. There is room for all 256 from the start, so that declaring never wants memory.
ghost use Rattle.std.specs.Prelude.{◌≡◌, ◌≤◌, [], ◌∷◌, ◌++◌, length, IfOk, if◌then◌else◌, vec_len, vec_capacity, nat_lt};
ghost use Rattle.fields.specs.Places.{place_of, parts, NameAt};

use std::alloc::{AllocError, Global};

// How many atoms there can be.
const ATOMS: usize = 256;

#[derive(Drop)]
pub struct Names<'a> {
    list: Vec<&'a [u8]>,
    ghost room: { 256 ≤ vec_capacity list },
    ghost few: { vec_len list ≤ 256 },
}

impl<'a> Names<'a> {
    pub fn new(heap: Global) -> Result<Names<'a>, AllocError>
        ensures { IfOk result (λ names. parts names.list.items ≡ []) }
    {
        let list = Vec::with_capacity(heap, ATOMS)?;
        Ok(Names { list })
    }

    // The atom that has this name.
    pub fn find(&self, name: &[u8]) -> Option<u16>
        ensures { result ≡ place_of (parts self.now.list.items) name.now }
    {
        self.list
            .iter()
            .position(|known| *known == name)
            .map(|atom| atom as u16)
    }

    // How many names there are.
    pub fn len(&self) -> usize
        ensures { result ≡ length (parts self.now.list.items) }
    {
        self.list.len()
    }

    // The name of an atom.
    pub fn get(&self, atom: usize) -> Option<&'a [u8]>
        ensures { NameAt (parts self.now.list.items) atom result }
    {
        self.list.get(atom).copied()
    }

    // All names, in the order of their atoms' numbers.
    pub fn as_slice(&self) -> &[&'a [u8]]
        ensures { parts result.now ≡ parts self.now.list.items }
    {
        self.list.as_slice()
    }

    // Gives the next atom this name, unless there are 256 already.
    pub fn declare(&mut self, name: &'a [u8]) -> bool
        ensures test { result ≡ nat_lt (length (parts self.old.list.items)) 256 }
        ensures after { parts self.new.list.items ≡ (if result then parts self.old.list.items ++ name.now ∷ [] else parts self.old.list.items) }
    {
        if self.list.len() < ATOMS {
            self.list.push_reserved(name);
            true
        } else {
            false
        }
    }
}
