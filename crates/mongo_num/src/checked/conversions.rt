// A checked number and the `Option` inside it.
ghost use Rattle.std.specs.Prelude.{◌≡◌, Some, None};
ghost use Rattle.std.specs.Borrow.{sem, Lends};
ghost use Rattle.std.specs.contracts.option.Option.{the_row as option_row};
ghost use Rattle.mongo_num.specs.contracts.checked.Checked.{the_row};

use crate::checked::Checked;
use std::ops::{Deref, DerefMut};

/// Holds the value.
impl<T> From<T> for Checked<T> {
    ghost from_gives = { λ x c. c ≡ record { 0 = Some x } };

    fn from(value: T) -> Checked<T> {
        Checked(Some(value))
    }
}

/// Holds what the `Option` holds.
impl<T> From<Option<T>> for Checked<T> {
    ghost from_gives = { λ o c. c ≡ record { 0 = o } };

    fn from(value: Option<T>) -> Checked<T> {
        Checked(value)
    }
}

/// No number.
impl<T> Default for Checked<T> {
    ghost is_default = { λ c. c ≡ record { 0 = None } };

    fn default() -> Checked<T> {
        Checked(None)
    }
}

/// To the `Option`.
impl<T> Deref for Checked<T> {
    type Target = Option<T>;

    ghost deref_gives = { λ c o. o ≡ c.0 };

    fn deref(&self) -> &Option<T> {
        &self.0
    }
}

/// To the `Option`: what is written there is what is held afterwards.
impl<T> DerefMut for Checked<T> {
    ghost deref_mut_gives = { λ c o. o ≡ c.0 };

    fn deref_mut(&mut self) -> &mut Option<T>
        ensures* writes_back { sem 𝓛
            (Lends (the_row T.row) (option_row T.row) self.entry result (λ o. record { 0 = o })) }
        ensures shows { result.now ≡ self.old.0 }
    {
        &mut self.0
    }
}
