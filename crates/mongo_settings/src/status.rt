//! How the programs over settings end.
use crate::rehearsal::RehearsalStatus;
use std::process::ExitCode;

/// How a program ended that reads settings, makes the connections that they ask for and writes the report of them.
///
/// `mongo_login` reads the text of the settings from its source to the end, and writes the report to its sink. `mongo_connect` reads
/// it from its link as the first line, makes the connection over what follows, and writes the report to a sink of its own.
#[derive(Clone, Copy, Debug, PartialEq, Eq)]
pub enum Status {
    /// 0: the report was written and flushed, and no login was refused.
    Done = 0,
    /// 1: the report was written and flushed, and a login was refused for another cause than memory.
    Refused = 1,
    /// 2: the text was read, or one byte past the 4194304 that it may have, and is no settings; of `mongo_connect` also settings
    /// that bring reply bytes.
    BadSettings = 2,
    /// 3: the words after the program's name are no command; of `mongo_connect` any words. Nothing was read or written.
    Usage = 3,
    /// 4: the source of the settings failed, of `mongo_connect` the link before the line was read; its count of read faults rose.
    SourceFault = 4,
    /// 5: the sink of the report failed; its count of write faults rose.
    SinkFault = 5,
    /// 6: memory ran out.
    NoMemory = 6,
    /// 7: the settings have a key or name a mechanism that isn't built yet.
    NotBuilt = 7,
}

impl Status {
    ghost use Rattle.std.specs.Prelude.{◌≡◌};
    ghost use Rattle.mongo_settings.specs.Status.{status_after};

    /// How a run ends that has written and flushed the report of logins that came out so.
    pub fn after(status: RehearsalStatus) -> Status
        ensures { result ≡ status_after status }
    {
        match status {
            RehearsalStatus::Accepted => Status::Done,
            RehearsalStatus::Refused => Status::Refused,
        }
    }
}

/// The number that the process ends with.
impl From<Status> for ExitCode {
    ghost use Rattle.std.specs.Prelude.{◌≡◌};
    ghost use Rattle.std.specs.Process.{exit_status};
    ghost use Rattle.mongo_settings.specs.Status.{code_of_status};

    ghost from_gives = { λ status code. exit_status code ≡ code_of_status status };

    fn from(status: Status) -> ExitCode {
        ExitCode::from(status as u8)
    }
}
