//! The body of a line as it was read. A line has at most eight literals, so the ninth is the last that matters:
//! it shows that there are too many, and where the first one too many begins.
ghost use Rattle.std.specs.Prelude.{◌≡◌, [], ◌∷◌, ◌++◌, map, take, slice_index};
ghost use Rattle.few.specs.Listed.{listed};

use few::Few;
use semantics::Literal;

// A literal with the byte of its line where its field begins.
#[derive(Clone, Copy, Default)]
pub struct Placed {
    pub literal: Literal,
    pub byte: usize,
}

// One literal more than a line can have.
const NINE: usize = 9;

#[derive(Clone, Copy)]
pub struct Body {
    placed: Few<Placed, NINE>,
}

impl Body {
    pub fn empty() -> Body
        ensures { listed result.placed ≡ [] }
    {
        Body { placed: Few::new() }
    }

    // Keeps one more literal, unless there are nine.
    pub fn push(&mut self, placed: Placed)
        ensures { listed self.new.placed ≡ take 9 (listed self.old.placed ++ placed ∷ []) }
    {
        self.placed.push(placed);
    }

    pub fn literals(&self) -> Few<Literal, NINE>
        ensures { listed result ≡ map (λ l. l.literal) (listed self.now.placed) }
    {
        let mut literals = Few::new();
        for placed in self.placed.as_slice() {
            literals.push(placed.literal);
        }
        literals
    }

    // Where the literal at this place begins, and 0 where there is none.
    pub fn byte(&self, place: usize) -> usize
        ensures { result ≡ slice_index (map (λ l. l.byte) (listed self.now.placed)) place }
    {
        self.placed
            .as_slice()
            .get(place)
            .map_or(0, |placed| placed.byte)
    }
}
