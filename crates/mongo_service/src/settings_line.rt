//! The first line of a stream: the settings.

ghost use Rattle.std.specs.Prelude.{◌≡◌, [], ◌∷◌, IfOk, OnOk, IsErrOf};
ghost use Rattle.std.specs.Io.KnownBytes.{Consumes};
ghost use Rattle.mongo_wire.specs.Outside.{ConsumesAtMost, FailsToRead, ReadsOn, Unstopped, MeetsEnd, RanOut};
ghost use Rattle.mongo_service.specs.Line.{IsAfterLine, HasNoLine, HasNoSettings, LineFails, LineRunsOut, StopsReading, TakesLine, line_error_of};

use mongo_session::{ServeSettings, ServeSettingsError, serve_settings_of};
use mongo_wire::{Error, ErrorKind, Source, SyncLittleEndianRead};
use std::alloc::{AllocError, Global};

/// The greatest length of a line of settings, in bytes, without its end.
pub const MAXIMUM_LINE_LENGTH: usize = 4_194_304;

/// Why no settings were read.
#[derive(Clone, Copy, Debug, PartialEq, Eq)]
pub enum LineError {
    /// The line is no settings, or is longer than 4194304 bytes, or the stream ended before its end.
    BadSettings,
    /// The link failed.
    Fault,
    /// Memory ran out.
    OutOfMemory,
}

impl From<AllocError> for LineError {
    ghost use Rattle.std.specs.Prelude.{◌≡◌};
    ghost use Rattle.mongo_service.specs.declared.settings_line.LineError.TheVariants.{OutOfMemory};

    ghost from_gives = { λ _ error. error ≡ OutOfMemory };

    fn from(_error: AllocError) -> LineError {
        LineError::OutOfMemory
    }
}

/// Reads the settings that the stream's first line is. Nothing after the line's end is read.
pub fn read_serve_settings<S: Source>(
    alloc: Global,
    source: &mut S,
) -> Result<ServeSettings, LineError>
    ensures line { IfOk result (IsAfterLine (S.state source.old) (S.state source.new)) }
    ensures none { IsErrOf result LineError.BadSettings → HasNoSettings (S.state source.old) (S.state source.new) }
    ensures failed { IsErrOf result LineError.Fault → LineFails (S.state source.old) (S.state source.new) }
    ensures memory { IsErrOf result LineError.OutOfMemory → LineRunsOut (S.state source.old) (S.state source.new) }
    ensures on { ReadsOn (S.state source.old) (S.state source.new) }
{
    let line = read_settings_line(alloc, source)?;
    match serve_settings_of(alloc, line.as_slice()) {
        Ok(settings) => Ok(settings),
        Err(ServeSettingsError::BadSettings) => Err(LineError::BadSettings),
        Err(ServeSettingsError::OutOfMemory) => Err(LineError::OutOfMemory),
    }
}

// The bytes before the first line feed, which is taken too. It reads byte by byte, so that nothing after it is taken.
fn read_settings_line<S: Source>(alloc: Global, source: &mut S) -> Result<Vec<u8>, LineError>
    ensures line { IfOk result (λ line. TakesLine (S.state source.old) (S.state source.new) line.items) }
    ensures none { IsErrOf result LineError.BadSettings → HasNoLine (S.state source.old) (S.state source.new) }
    ensures failed { IsErrOf result LineError.Fault → LineFails (S.state source.old) (S.state source.new) }
    ensures memory { IsErrOf result LineError.OutOfMemory → LineRunsOut (S.state source.old) (S.state source.new) }
    ensures on { ReadsOn (S.state source.old) (S.state source.new) }
{
    let mut line = Vec::new(alloc);
    'reading: while line.len() <= MAXIMUM_LINE_LENGTH {
        let byte = next_byte(source)?;
        if byte == b'\n' {
            return Ok(line);
        }
        match line.push(byte) {
            Ok(()) => {}
            Err(_) => return Err(LineError::OutOfMemory),
        }
    }
    Err(LineError::BadSettings)
}

// The next byte, or why there is none.
fn next_byte<S: Source>(source: &mut S) -> Result<u8, LineError>
    ensures byte { IfOk result (λ byte. Consumes (S.state source.old).left (S.state source.new).left (byte ∷ [])) }
    ensures unstopped { OnOk result (Unstopped (S.state source.old) (S.state source.new)) }
    ensures ended { IsErrOf result LineError.BadSettings →
        MeetsEnd (S.state source.old) (S.state source.new) × RanOut (S.state source.old).left (S.state source.new).left 1 }
    ensures failed { IsErrOf result LineError.Fault → FailsToRead (S.state source.old) (S.state source.new) }
    ensures within { IsErrOf result LineError.Fault → ConsumesAtMost (S.state source.old).left (S.state source.new).left 1 }
    ensures no_memory { IsErrOf result LineError.OutOfMemory → ⊥ }
    ensures on { ReadsOn (S.state source.old) (S.state source.new) }
{
    match source.read_u8_sync() {
        Ok(byte) => Ok(byte),
        Err(error) => Err(line_error_of(&error)),
    }
}

// What it is to the line that the bytes ended or the link failed.
fn line_error_of(error: &Error) -> LineError
    requires { StopsReading error.now.kind }
    ensures { result ≡ line_error_of error.now.kind }
{
    match &error.kind {
        ErrorKind::EndOfInput => LineError::BadSettings,
        ErrorKind::ReadFault => LineError::Fault,
        _ => unreachable!(),
    }
}
