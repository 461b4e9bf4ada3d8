use thiserror::Error;

/// Why a checked number could not be handed out.
#[derive(Debug, Drop, Error, Clone, Copy, PartialEq, Eq)]
pub enum NumFault {
    /// No number is held: an operation before this one failed.
    #[error("a checked operation failed")]
    Failed,
    /// The number is not one of the type that was asked for.
    #[error("the number does not fit the type")]
    DoesNotFit,
}
