// A whole number that remembers whether an operation on the way to it failed.
ghost use Rattle.std.specs.Prelude.{◌≡◌, ◌↔◌, IsOk, IfOk, IfErr, IsNone, IsSomeAnd, ok_or};
ghost use Rattle.mongo_num.specs.Exact.{IsWithin};

mod arithmetic;
mod bits;
mod conversions;
mod division;
mod laws;
mod shifts;
mod text;

use crate::fault::NumFault;
use crate::int::Int;

/// A number of the type `T`, or none where an operation failed.
///
/// Its operators never overflow: each gives the exact value where `T` has it, and none where `T` does not
/// or a side is none. So a failure anywhere in an expression is seen at its end, by [`Checked::get`].
#[derive(PartialEq, Eq, Clone, Copy)]
pub struct Checked<T>(pub Option<T>);

impl<T> Checked<T> {
    /// Holds `x`.
    pub fn new(x: T) -> Checked<T>
        ensures { result ≡ record { 0 = Some x } }
    {
        Checked(Some(x))
    }

    /// The number that is held. `Failed` exactly where none is.
    pub fn get(self) -> Result<T, NumFault>
        ensures { result ≡ ok_or self.0 NumFault.Failed }
    {
        match self.0 {
            Some(x) => Ok(x),
            None => Err(NumFault::Failed),
        }
    }
}

impl<T: Int> Checked<T> {
    /// Holds the number of `value`. `DoesNotFit` exactly where that is no number of `T`.
    pub fn try_from<F: Int>(value: F) -> Result<Checked<T>, NumFault>
        ensures fits { IsOk result ↔ IsWithin T.LEAST T.GREATEST (F.number value) }
        ensures value { IfOk result (λ c. IsSomeAnd c.0 (λ x. T.number x ≡ F.number value)) }
        ensures does_not_fit { IfErr result (λ e. e ≡ NumFault.DoesNotFit) }
    {
        match T::of_i128(value.to_i128()) {
            Some(x) => Ok(Checked(Some(x))),
            None => Err(NumFault::DoesNotFit),
        }
    }

    /// The number that is held, as a value of `F`. `Failed` exactly where none is held, and else `DoesNotFit`
    /// exactly where it is no number of `F`.
    pub fn try_into<F: Int>(self) -> Result<F, NumFault>
        ensures fits { IsOk result ↔ IsSomeAnd self.0 (λ x. IsWithin F.LEAST F.GREATEST (T.number x)) }
        ensures value { IfOk result (λ y. IsSomeAnd self.0 (λ x. F.number y ≡ T.number x)) }
        ensures failed { (result ≡ Err NumFault.Failed) ↔ IsNone self.0 }
        ensures does_not_fit { (result ≡ Err NumFault.DoesNotFit) ↔
            IsSomeAnd self.0 (λ x. ¬ (IsWithin F.LEAST F.GREATEST (T.number x))) }
    {
        match self.0 {
            Some(x) => match F::of_i128(x.to_i128()) {
                Some(y) => Ok(y),
                None => Err(NumFault::DoesNotFit),
            },
            None => Err(NumFault::Failed),
        }
    }
}
