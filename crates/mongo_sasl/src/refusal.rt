ghost use Rattle.std.specs.Prelude.{◌≡◌};
ghost use Rattle.mongo_wire.specs.declared.error.ErrorKind.TheVariants.{Authentication};

use mongo_wire::{AuthFault, Error, ErrorKind};

/// A login that is refused for this fault.
pub fn refused(fault: AuthFault) -> Error
    ensures { result.kind ≡ Authentication fault }
{
    Error {
        kind: ErrorKind::Authentication(fault),
    }
}
