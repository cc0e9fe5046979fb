//! What a field says: a record's letter, a name, a level, a literal.
ghost use Rattle.std.specs.Prelude.{◌≡◌, ◌≤◌};
ghost use Rattle.fields.specs.Words.{letter_in, letter_of, digit_up_to, is_small, is_inner, all_inner, is_name, level_of, side_of, name_of};

use semantics::Side;

// The four kinds of records, by their first field.
#[derive(Clone, Copy, PartialEq, Eq, Debug)]
pub enum Letter {
    Atom,
    Row,
    Rule,
    Bar,
}

pub fn letter_of(field: &[u8]) -> Option<Letter>
    ensures { result ≡ letter_of field.now }
{
    match field {
        [byte] => letter_in(*byte),
        _ => None,
    }
}

fn letter_in(byte: u8) -> Option<Letter>
    ensures { result ≡ letter_in byte }
{
    match byte as char {
        'a' => Some(Letter::Atom),
        'p' => Some(Letter::Row),
        'r' => Some(Letter::Rule),
        'b' => Some(Letter::Bar),
        _ => None,
    }
}

// A name: a small letter, and then at most 15 letters, digits and underscores.
pub fn is_name(field: &[u8]) -> bool
    ensures { result ≡ is_name field.now }
{
    match field {
        [first, rest @ ..] => is_small(*first) && rest.len() < 16 && all_inner(rest),
        [] => false,
    }
}

fn is_small(byte: u8) -> bool
    ensures { result ≡ is_small byte }
{
    matches!(byte as char, 'a'..='z')
}

fn is_inner(byte: u8) -> bool
    ensures { result ≡ is_inner byte }
{
    matches!(byte as char, 'a'..='z' | 'A'..='Z' | '0'..='9' | '_')
}

fn all_inner(rest: &[u8]) -> bool
    ensures { result ≡ all_inner rest.now }
{
    rest.iter().all(|byte| is_inner(*byte))
}

// A level: one of the texts 0 to 15.
pub fn level_of(field: &[u8]) -> Option<u8>
    ensures { result ≡ level_of field.now }
{
    match field {
        [digit] => last_digit(*digit, b'9', 0),
        [b'1', digit] => last_digit(*digit, b'5', 10),
        _ => None,
    }
}

// The digit's value and what stands before it, where the digit is not above `top`.
fn last_digit(digit: u8, top: u8, tens: u8) -> Option<u8>
    requires top { top ≤ 57 }
    requires tens { tens ≤ 10 }
    ensures { result ≡ digit_up_to top tens digit }
{
    if b'0' <= digit && digit <= top {
        Some(digit - b'0' + tens)
    } else {
        None
    }
}

// The side of a literal, and the part of its field that is the name.
pub fn literal_of(field: &[u8]) -> (Side, &[u8])
    ensures side { result.0 ≡ side_of field.now }
    ensures name { result.1.now ≡ name_of field.now }
{
    match field {
        [b'-', name @ ..] => (Side::Absent, name),
        _ => (Side::Present, field),
    }
}
