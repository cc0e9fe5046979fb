//! What the format's definitions come to, as theorems that the check asks for.
ghost use Rattle.grammar.specs.Format.{AcceptedIsRendered, RenderedIsAccepted, ReadingsAreOne};

pub fn accepted_is_rendered()
    ensures { AcceptedIsRendered }
{}

pub fn rendered_is_accepted()
    ensures { RenderedIsAccepted }
{}

pub fn readings_are_one()
    ensures { ReadingsAreOne }
{}
