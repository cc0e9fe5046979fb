// A stack of pending entries over a slice that the caller lends.
//
// The slice is the room; the entries on the stack are its first `len` elements, the newest last.
ghost use Rattle.std.specs.Prelude.{◌≡◌, ◌+◌, ◌<◌, ◌≤◌, [], ◌∷◌, ◌++◌, length, take, is_some, nat_le, nat_lt};
ghost use Rattle.std.specs.Option.{option_to_list};

#[derive(Drop)]
pub struct Stack<'a, E> {
    entries: &'a mut [E],
    len: usize,
    ghost within: { len ≤ length entries.now },
}

impl<'a, E: Copy> Stack<'a, E> {
    // An empty stack.
    pub fn new(entries: &'a mut [E]) -> Stack<'a, E>
        ensures lender { result.entries.ghost_name ≡ entries.entry.ghost_name }
        ensures len { result.len ≡ 0 }
        ensures room { result.entries.now ≡ entries.old }
    {
        Stack { entries, len: 0 }
    }

    // A stack that holds the first `len` entries already.
    pub fn resume(entries: &'a mut [E], len: usize) -> Stack<'a, E>
        requires { len ≤ length entries.old }
        ensures lender { result.entries.ghost_name ≡ entries.entry.ghost_name }
        ensures len { result.len ≡ len }
        ensures room { result.entries.now ≡ entries.old }
    {
        Stack { entries, len }
    }

    // How many entries it holds.
    pub fn len(&self) -> usize
        ensures { result ≡ self.now.len }
    {
        self.len
    }

    pub fn is_full(&self) -> bool
        ensures { result ≡ nat_le (length self.now.entries.now) self.now.len }
    {
        self.len >= self.entries.len()
    }

    // The lent slice: the first `len` of it are the entries, the oldest first.
    pub fn room(&self) -> &[E]
        ensures { result.now ≡ self.now.entries.now }
    {
        self.entries
    }

    // Puts an entry on top. The caller shows that there is room.
    pub fn push(&mut self, entry: E)
        requires { self.old.len < length self.old.entries.now }
        ensures lender { self.new.entries.ghost_name ≡ self.old.entries.ghost_name }
        ensures size { length self.new.entries.now ≡ length self.old.entries.now }
        ensures len { self.new.len ≡ self.old.len + 1 }
        ensures held { take self.new.len self.new.entries.now ≡ take self.old.len self.old.entries.now ++ entry ∷ [] }
    {
        self.entries[self.len] = entry;
        self.len += 1;
    }

    // Takes the newest entry off, if there is one.
    pub fn pop(&mut self) -> Option<E>
        ensures lender { self.new.entries.ghost_name ≡ self.old.entries.ghost_name }
        ensures size { length self.new.entries.now ≡ length self.old.entries.now }
        ensures test { is_some result ≡ nat_lt 0 self.old.len }
        ensures len { self.new.len + length (option_to_list result) ≡ self.old.len }
        ensures held { take self.old.len self.old.entries.now ≡ take self.new.len self.new.entries.now ++ option_to_list result }
    {
        if self.len == 0 {
            return None;
        }
        self.len -= 1;
        Some(self.entries[self.len])
    }
}
