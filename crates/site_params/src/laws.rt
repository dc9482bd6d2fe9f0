//! The numbers of a site file, each said once more: the law is the contract of a function that does nothing.
ghost use Rattle.std.specs.Prelude.{◌≡◌, pos};
ghost use Rattle.site_types.specs.Limits.{from_to};
ghost use Rattle.site_params.specs.declared.fields.TheConstants.{VERSION};
ghost use Rattle.site_params.specs.declared.read.TheConstants.{SITE_ROOM};

/// The room of a site file, and its version.
pub fn numbers()
    ensures room { SITE_ROOM ≡ 4194304 }
    ensures version { VERSION ≡ from_to (pos 1) (pos 1) }
{}
