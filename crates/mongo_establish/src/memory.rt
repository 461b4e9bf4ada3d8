ghost use Rattle.std.specs.Prelude.{◌≡◌};
ghost use Rattle.mongo_wire.specs.declared.error.ErrorKind.TheVariants.{OutOfMemory};

use mongo_wire::Error;
use std::alloc::AllocError;

/// A refusal for want of memory, as the standard library says it: for callers that can be refused for nothing else.
pub fn want_of_memory(_error: Error) -> AllocError
    requires { _error.kind ≡ OutOfMemory }
{
    AllocError
}
