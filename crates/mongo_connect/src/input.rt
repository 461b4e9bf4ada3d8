//! Reading the line of settings from a source.
ghost use Rattle.std.specs.Prelude.{◌≡◌, None, IfOk, OnOk, OnErr, IsErrOf, option_to_list};
ghost use Rattle.std.specs.Io.KnownBytes.{Consumes, IsAtEnd, Keeps};
ghost use Rattle.mongo_wire.specs.Outside.{ReadsOn, Rose, NoReadFailed, NoReadEnded};
ghost use Rattle.mongo_connect.specs.Input.{LineRead, TakesOfLine, TakesNoLineFeed, MeetsEndUnless};

use mongo_settings::{InputError, MAXIMUM_SETTINGS_LENGTH};
use mongo_wire::{Failed, Source};
use std::alloc::Global;

/// Reads the first line of a source, without its line feed, a byte at a time.
///
/// An end before a line feed ends the line too. Of a line that is longer than settings may be, 4194304 bytes, one byte more than
/// that is read and handed on. `Fault` where the source failed; where it answers anything else, no read failed, so none that failed
/// was tried again. Whatever comes of it, nothing past the first line feed is read, and a refusal comes before that.
pub fn read_line<S: Source>(alloc: Global, source: &mut S) -> Result<Vec<u8>, InputError>
    ensures line { IfOk result (λ line. LineRead line.items (S.state source.old) (S.state source.new)) }
    ensures failed { IsErrOf result InputError.Fault → Rose (S.state source.old).read_faults (S.state source.new).read_faults }
    ensures memory { IsErrOf result InputError.OutOfMemory → NoReadFailed (S.state source.old) (S.state source.new) }
    ensures unended { OnErr result (NoReadEnded (S.state source.old) (S.state source.new)) }
    ensures within { TakesOfLine (S.state source.old).left (S.state source.new).left }
    ensures stopped { OnErr result (TakesNoLineFeed (S.state source.old).left (S.state source.new).left) }
    ensures on { ReadsOn (S.state source.old) (S.state source.new) }
{
    let mut held = Vec::new(alloc);
    'reading: while held.len() <= MAXIMUM_SETTINGS_LENGTH {
        match read_byte(source) {
            Ok(Some(b'\n')) => return Ok(held),
            Ok(Some(byte)) => {
                if held.push(byte).is_err() {
                    return Err(InputError::OutOfMemory);
                }
            }
            Ok(None) => return Ok(held),
            Err(_) => return Err(InputError::Fault),
        }
    }
    Ok(held)
}

// Reads the next byte of a source. None at its end.
fn read_byte<S: Source>(source: &mut S) -> Result<Option<u8>, Failed>
    ensures byte { IfOk result (λ next. Consumes (S.state source.old).left (S.state source.new).left (option_to_list next)) }
    ensures end { IfOk result (λ next. next ≡ None → IsAtEnd (S.state source.new).left) }
    ensures failed { OnErr result (Rose (S.state source.old).read_faults (S.state source.new).read_faults) }
    ensures unfailed { OnOk result (NoReadFailed (S.state source.old) (S.state source.new)) }
    ensures ended { IfOk result (λ next. MeetsEndUnless next (S.state source.old) (S.state source.new)) }
    ensures unended { OnErr result (NoReadEnded (S.state source.old) (S.state source.new)) }
    ensures kept { OnErr result (Keeps (S.state source.old).left (S.state source.new).left) }
    ensures on { ReadsOn (S.state source.old) (S.state source.new) }
{
    let mut byte = [0u8; 1];
    match source.read(&mut byte) {
        Ok(0) => Ok(None),
        Ok(_) => Ok(Some(byte[0])),
        Err(failed) => Err(failed),
    }
}
