//! A law of the definitions, the contract of a call that does nothing.

ghost use Rattle.line_fields.specs.Spelling.{HasItsFields, IsOfItsFields};

/// A line has the fields that it is put together from, and no others.
pub fn line_is_its_fields()
    ensures has { HasItsFields }
    ensures is { IsOfItsFields }
{}
