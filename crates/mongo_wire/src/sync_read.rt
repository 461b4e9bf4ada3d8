ghost use Rattle.std.specs.Prelude.{[], ◌∷◌, IfOk, IfErr, OnOk};
ghost use Rattle.std.specs.Io.KnownBytes.{Consumes};
ghost use Rattle.mongo_wire.specs.Outside.{ReadsOn, Unstopped};
ghost use Rattle.mongo_wire.specs.Small.{FillStops, TakesSigned, TakesUnsigned};

use crate::reading::fill;
use crate::{Error, Source};

/// Reads of single numbers, with the low byte first, from any [`Source`].
///
/// Each refuses with `ReadFault` where the source failed and `EndOfInput` where it ended before the number did, and has
/// taken no byte past it.
pub trait SyncLittleEndianRead: Source {
    /// The next four bytes as a signed number.
    fn read_i32_sync(&mut self) -> Result<i32, Error>
        ensures read { IfOk result (TakesSigned (Self.state self.old) (Self.state self.new)) }
        ensures refused { IfErr result (λ e. FillStops e.kind (Self.state self.old) (Self.state self.new) 4) }
        ensures on { ReadsOn (Self.state self.old) (Self.state self.new) };

    /// The next four bytes as an unsigned number.
    fn read_u32_sync(&mut self) -> Result<u32, Error>
        ensures read { IfOk result (TakesUnsigned (Self.state self.old) (Self.state self.new)) }
        ensures refused { IfErr result (λ e. FillStops e.kind (Self.state self.old) (Self.state self.new) 4) }
        ensures on { ReadsOn (Self.state self.old) (Self.state self.new) };

    /// The next byte.
    fn read_u8_sync(&mut self) -> Result<u8, Error>
        ensures read { IfOk result (λ byte. Consumes (Self.state self.old).left (Self.state self.new).left (byte ∷ [])) }
        ensures unstopped { OnOk result (Unstopped (Self.state self.old) (Self.state self.new)) }
        ensures refused { IfErr result (λ e. FillStops e.kind (Self.state self.old) (Self.state self.new) 1) }
        ensures on { ReadsOn (Self.state self.old) (Self.state self.new) };
}

impl<S: Source> SyncLittleEndianRead for S {
    fn read_i32_sync(&mut self) -> Result<i32, Error> {
        let mut bytes = [0u8; 4];
        fill(self, &mut bytes)?;
        Ok(i32::from_le_bytes(bytes))
    }

    fn read_u32_sync(&mut self) -> Result<u32, Error> {
        let mut bytes = [0u8; 4];
        fill(self, &mut bytes)?;
        Ok(u32::from_le_bytes(bytes))
    }

    fn read_u8_sync(&mut self) -> Result<u8, Error> {
        let mut bytes = [0u8; 1];
        fill(self, &mut bytes)?;
        Ok(bytes[0])
    }
}
