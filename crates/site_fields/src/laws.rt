//! The numbers of fields, each said once more: the law is the contract of a function that does nothing.
ghost use Rattle.std.specs.Prelude.{◌≡◌, pos};
ghost use Rattle.site_types.specs.Limits.{from_to};
ghost use Rattle.site_fields.specs.declared.ranges.TheConstants.{NAME_LENGTH, OCTET};

/// The ranges of an octet, and of the length of an entry's name.
pub fn numbers()
    ensures octet { OCTET ≡ from_to (pos 0) (pos 255) }
    ensures name { NAME_LENGTH ≡ from_to (pos 1) (pos 64) }
{}
