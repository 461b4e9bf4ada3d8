use std::process::ExitCode;

/// How the program ended.
#[derive(Clone, Copy, Debug, PartialEq, Eq)]
pub enum ServeStatus {
    /// 0: the client ended its stream between two frames.
    Ended = 0,
    /// 1: the client broke the protocol, the link failed, a reply would be too long, or too many requests came.
    Broken = 1,
    /// 2: the first line is no settings.
    BadSettings = 2,
    /// 3: there are words after the program's name; nothing was read or written.
    Usage = 3,
    /// 6: memory ran out, be it for the report alone.
    NoMemory = 6,
}

/// The number that the process ends with.
impl From<ServeStatus> for ExitCode {
    ghost use Rattle.std.specs.Prelude.{◌≡◌};
    ghost use Rattle.std.specs.Process.{exit_status};
    ghost use Rattle.mongo_service.specs.Run.{serve_code};

    ghost from_gives = { λ status code. exit_status code ≡ serve_code status };

    fn from(status: ServeStatus) -> ExitCode {
        ExitCode::from(status as u8)
    }
}
