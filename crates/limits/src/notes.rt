// Numbers noted one after another, up to 32 of them.
ghost use Rattle.std.specs.Prelude.{◌≡◌, ◌<◌, ◌≤◌, [], ◌∷◌, ◌++◌, length};
ghost use Rattle.few.specs.Listed.{listed};

use few::Few;

#[derive(Clone, Copy)]
pub struct Notes {
    list: Few<u32, 32>,
}

impl Notes {
    pub fn new() -> Notes
        ensures { listed result.list ≡ [] }
    {
        Notes { list: Few::new() }
    }

    // One more number; past 32 it is let go.
    pub fn add(&mut self, number: u32)
        ensures added { length (listed self.old.list) < 32 → listed self.new.list ≡ listed self.old.list ++ number ∷ [] }
        ensures full { 32 ≤ length (listed self.old.list) → self.new ≡ self.old }
    {
        self.list.push(number);
    }

    pub fn numbers(&self) -> &[u32]
        ensures { result.now ≡ listed self.now.list }
    {
        self.list.as_slice()
    }
}
