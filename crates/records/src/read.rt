//! Fields read against the names declared so far. The first fault of a field is named with the field's place.
ghost use Rattle.std.specs.Prelude.{◌≡◌};
ghost use Rattle.records.specs.Reading.{known, unused, leveled, literal_in, literals};
ghost use Rattle.fields.specs.Shown.{declared, shown, left};
ghost use Rattle.records.specs.Shown.{held_in, up_to_nine};

use crate::body::{Body, Placed};
use crate::refusal::Refusal;
use faults::Fault;
use fields::field::{is_name, level_of, literal_of};
use fields::names::Names;
use fields::part::{Fields, Part};
use semantics::Literal;

// The atom that a declared name stands for.
pub fn read_known(names: &Names, field: Part) -> Result<u16, Refusal>
    ensures { result ≡ known (declared names.now) (shown field.entry) }
{
    if !is_name(field.bytes) {
        return Err(Refusal::at(Fault::MalformedName, field.at));
    }
    names
        .find(field.bytes)
        .ok_or(Refusal::at(Fault::UnknownName, field.at))
}

// That a name is well formed and not declared yet.
pub fn read_unused(names: &Names, field: Part) -> Result<(), Refusal>
    ensures { result ≡ unused (declared names.now) (shown field.entry) }
{
    if !is_name(field.bytes) {
        return Err(Refusal::at(Fault::MalformedName, field.at));
    }
    if names.find(field.bytes).is_some() {
        return Err(Refusal::at(Fault::NameTwice, field.at));
    }
    Ok(())
}

pub fn read_level(field: Part) -> Result<u8, Refusal>
    ensures { result ≡ leveled (shown field.entry) }
{
    level_of(field.bytes).ok_or(Refusal::at(Fault::BadLevel, field.at))
}

pub fn read_literal(names: &Names, field: Part) -> Result<Placed, Refusal>
    ensures { result ≡ literal_in (declared names.now) (shown field.entry) }
{
    let byte = field.at;
    let (side, name) = literal_of(field.bytes);
    let atom = read_known(
        names,
        Part {
            bytes: name,
            at: byte,
        },
    )?;
    Ok(Placed {
        literal: Literal { atom, side },
        byte,
    })
}

// The literals of all fields that are left. Every one is read, and the first nine are kept.
pub fn read_body(names: &Names, fields: Fields) -> Result<Body, Refusal>
    ensures { held_in result ≡ up_to_nine (literals (declared names.now) (left fields.entry)) }
{
    let mut body = Body::empty();
    for field in fields {
        let literal = read_literal(names, field)?;
        body.push(literal);
    }
    Ok(body)
}
