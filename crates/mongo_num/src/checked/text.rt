// What a checked number prints.
ghost use Rattle.std.specs.Prelude.{Some, codes};
ghost use Rattle.mongo_num.specs.Checked.{shown_text};

use crate::checked::Checked;
use std::fmt;
use std::fmt::{Debug, Display, Formatter, Write};

/// The number, or `overflow`.
impl<T: Display> Display for Checked<T> {
    ghost output = { λ c. shown_text T.output (codes "overflow") c.0 };

    fn fmt<W: Write>(&self, f: &mut Formatter<W>) -> fmt::Result {
        match &self.0 {
            Some(x) => Display::fmt(x, f),
            None => Display::fmt(&"overflow", f),
        }
    }
}

/// The number, or `"overflow"` with its quotation marks.
impl<T: Debug> Debug for Checked<T> {
    ghost debug_output = { λ c. shown_text T.debug_output (codes "\"overflow\"") c.0 };

    fn fmt<W: Write>(&self, f: &mut Formatter<W>) -> fmt::Result {
        match &self.0 {
            Some(x) => Debug::fmt(x, f),
            None => f.write_str("\"overflow\""),
        }
    }
}
