//! Reading the text of settings from a source.
ghost use Rattle.std.specs.Prelude.{◌≡◌, ℕ, List, Some, ◌+◌, IfOk, OnOk, OnErr, IsErrOf};
ghost use Rattle.std.specs.Io.KnownBytes.{Consumes};
ghost use Rattle.mongo_wire.specs.Outside.{ReadsOn, Rose, ConsumesAtMost, NoReadFailed, NoReadEnded};
ghost use Rattle.mongo_settings.specs.Settings.{maximum_settings_length};
ghost use Rattle.mongo_login.specs.Job.{judged_as};
ghost use Rattle.mongo_login.specs.declared.job.Job.{Job};
ghost use Rattle.mongo_login.specs.Input.{ReadsInput, MeetsEndWithin};

#[cfg(test)]
mod tests;

use mongo_settings::{InputError, MAXIMUM_SETTINGS_LENGTH};
use mongo_wire::Source;
use std::alloc::Global;

// How many bytes are read ahead of the memory for them at most.
const READ_AHEAD: usize = 4096;

/// Reads a source to its end, or until it has given one byte more than settings may have, 4194305 of them.
///
/// `Fault` where the source failed; where it answers anything else, no read failed, so none that failed was tried again. No more
/// than that is consumed.
pub fn read_input<S: Source>(alloc: Global, source: &mut S) -> Result<Vec<u8>, InputError>
    ensures read { (input : List ℕ) → (S.state source.old).left ≡ Some input → IfOk result (λ held. ReadsInput input held.items (S.state source.new).left) }
    ensures judged_alike { (job : Job) (input : List ℕ) → (S.state source.old).left ≡ Some input → IfOk result (λ held. judged_as job held.items ≡ judged_as job input) }
    ensures consumed { IfOk result (λ held. Consumes (S.state source.old).left (S.state source.new).left held.items) }
    ensures ended { IfOk result (λ held. MeetsEndWithin held.items (S.state source.old) (S.state source.new)) }
    ensures failed { IsErrOf result InputError.Fault → Rose (S.state source.old).read_faults (S.state source.new).read_faults }
    ensures at_most { ConsumesAtMost (S.state source.old).left (S.state source.new).left (maximum_settings_length + 1) }
    ensures unfailed { OnOk result (NoReadFailed (S.state source.old) (S.state source.new)) }
    ensures unended { OnErr result (NoReadEnded (S.state source.old) (S.state source.new)) }
    ensures memory { IsErrOf result InputError.OutOfMemory → NoReadFailed (S.state source.old) (S.state source.new) }
    ensures on { ReadsOn (S.state source.old) (S.state source.new) }
{
    let mut held = Vec::new(alloc);
    'reading: while held.len() <= MAXIMUM_SETTINGS_LENGTH {
        let mut piece = [0u8; READ_AHEAD];
        let room = (MAXIMUM_SETTINGS_LENGTH + 1 - held.len()).min(READ_AHEAD);
        match source.read(&mut piece[..room]) {
            Ok(0) => return Ok(held),
            Ok(count) => held.extend_from_slice(&piece[..count])?,
            Err(_) => return Err(InputError::Fault),
        }
    }
    Ok(held)
}
