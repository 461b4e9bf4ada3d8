//! Whole numbers that cannot go wrong unseen: checked arithmetic, and the whole numbers that doubles stand for.
//!
//! - [`Checked`] holds a number of an integer type, or none once an operation has failed. Each operator gives
//!   the exact value or none, as `specs/Exact.antt` says over whole numbers, at every type that is an [`Int`].
//! - [`int_of_bits`], [`u64_of_bits`] and [`round_clamp`] read the 64 bits of a double (binary64 of
//!   IEEE 754-2019, section 3.4) as a whole number, as `specs/DoubleBits.antt` says by its sign, exponent and
//!   fraction. No floating-point number is made on the way.
//! - [`num_decimal_digits`] counts the digits of a number.
//!
//! Every call returns, takes no memory and asks nothing of its caller.
#![tactic(auto)]

mod checked;
mod digits;
mod double;
mod fault;
mod int;

pub use checked::Checked;
pub use digits::num_decimal_digits;
pub use double::{RoundClampTarget, int_of_bits, round_clamp, u64_of_bits};
pub use fault::NumFault;
pub use int::Int;
