ghost use Rattle.std.specs.Prelude.{◌≡◌};

use std::alloc::AllocError;

/// Why the text of settings wasn't read.
#[derive(Clone, Copy, Debug, PartialEq, Eq)]
pub enum InputError {
    /// The source failed. Its count of read faults rose.
    Fault,
    /// Memory ran out.
    OutOfMemory,
}

impl From<AllocError> for InputError {
    ghost use Rattle.mongo_settings.specs.declared.input_error.InputError.TheVariants.{OutOfMemory};

    ghost from_gives = { λ _ e. e ≡ OutOfMemory };

    fn from(_error: AllocError) -> InputError {
        InputError::OutOfMemory
    }
}
