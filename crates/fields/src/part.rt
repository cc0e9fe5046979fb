//! Lines of a text and fields of a line, as parts of the caller's bytes with their offset.
ghost use Rattle.std.specs.Prelude.{◌≡◌, ◌+◌, ◌≤◌, [], ◌∷◌, length, take, drop, MatchOption, IfSome, ◌≢◌};
ghost use Rattle.std.specs.Iterator.{YieldsFirstBy, item_count};
ghost use Rattle.fields.specs.Pieces.{run, lines_of, fields_from};
ghost use Rattle.fields.specs.Shown.{shown, left};

// A part of some bytes, and the offset at which it begins there.
#[derive(Clone, Copy)]
pub struct Part<'a> {
    pub bytes: &'a [u8],
    pub at: usize,
}

// The part that begins at `at` and ends before the next `separator`, or with the bytes.
pub fn part_at<'a>(bytes: &'a [u8], at: usize, separator: u8) -> Part<'a>
    requires { at ≤ length bytes.now }
    ensures starts { result.at ≡ at }
    ensures part { result.bytes.now ≡ take (run separator (drop at bytes.now)) (drop at bytes.now) }
    ensures long { length result.bytes.now ≡ run separator (drop at bytes.now) }
    ensures within { at + length result.bytes.now ≤ length bytes.now }
{
    let rest = &bytes[at..];
    let len = rest
        .iter()
        .position(|byte| *byte == separator)
        .unwrap_or(rest.len());
    Part {
        bytes: &rest[..len],
        at,
    }
}

// The line that begins at `at`, without the byte 10 that ends it.
pub fn line_at<'a>(text: &'a [u8], at: usize) -> Option<Part<'a>>
    ensures lines { MatchOption result (lines_of (drop at text.now) ≡ []) (λ p. lines_of (drop at text.now) ≡ p.bytes.now ∷ lines_of (drop (at + length p.bytes.now + 1) text.now)) }
    ensures starts { IfSome result (λ p. p.at ≡ at) }
    ensures part { IfSome result (λ p. p.bytes.now ≡ take (length p.bytes.now) (drop at text.now)) }
    ensures within { IfSome result (λ p. at + length p.bytes.now ≤ length text.now) }
{
    if at < text.len() {
        Some(part_at(text, at, b'\n'))
    } else {
        None
    }
}

// The fields of a line that are still to come: those from `at` on, and none where `at` is past the line's end.
#[derive(Clone, Copy)]
pub struct Fields<'a> {
    line: &'a [u8],
    at: usize,
}

impl<'a> Fields<'a> {
    pub fn of(line: &'a [u8]) -> Fields<'a>
        ensures line { result.line.now ≡ line.now }
        ensures left { left result ≡ fields_from 0 line.now }
    {
        Fields { line, at: 0 }
    }

    // The fields that are left, where there are exactly two of them.
    pub fn two(mut self) -> Option<(Part<'a>, Part<'a>)>
        ensures { MatchOption result (length (left self.entry) ≢ 2) (λ p. left self.entry ≡ shown p.0 ∷ shown p.1 ∷ []) }
    {
        let first = self.next()?;
        let second = self.next()?;
        match self.next() {
            None => Some((first, second)),
            Some(_) => None,
        }
    }

    // The fields that are left, where there are exactly three of them.
    pub fn three(mut self) -> Option<(Part<'a>, Part<'a>, Part<'a>)>
        ensures { MatchOption result (length (left self.entry) ≢ 3) (λ p. left self.entry ≡ shown p.0 ∷ shown p.1 ∷ shown p.2 ∷ []) }
    {
        let first = self.next()?;
        let (second, third) = self.two()?;
        Some((first, second, third))
    }
}

impl<'a> Iterator for Fields<'a> {
    type Item = Part<'a>;

    ghost next_gives = { YieldsFirstBy shown left };

    ghost remaining = { item_count left };

    fn next(&mut self) -> Option<Part<'a>> {
        if self.at > self.line.len() {
            return None;
        }
        let field = part_at(self.line, self.at, b',');
        self.at += field.bytes.len() + 1;
        Some(field)
    }
}
