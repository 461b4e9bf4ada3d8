ghost use Rattle.std.specs.Prelude.{◌≡◌, IfOk, IfErr};
ghost use Rattle.mongo_wire.specs.declared.error.ErrorKind.TheVariants.{OutOfMemory};
ghost use Rattle.mongo_command.specs.Command.{command_of};

use mongo_bson::RawDocumentBuf;
use mongo_command::{Command, ServerApi};
use mongo_wire::Error;
use std::alloc::Global;

/// What every login command carries besides its own: the server API, where one is asked for.
#[derive(Clone, Copy, Debug, Default, PartialEq, Drop)]
pub struct AuthOptions {
    /// The server API.
    pub server_api: Option<ServerApi>,
}

// The command of this name and body on the user's source, with the server API where there is one.
pub(crate) fn login_command(
    alloc: Global,
    name: &str,
    source: &str,
    body: RawDocumentBuf,
    server_api: Option<ServerApi>,
) -> Result<Command, Error>
    ensures command { IfOk result (λ command. command ≡ command_of name.now source.now body server_api) }
    ensures refused { IfErr result (λ e. e.kind ≡ OutOfMemory) }
{
    let mut command = Command::new_raw(alloc, name, source, body)?;
    match &server_api {
        Some(server_api) => {
            command.set_server_api(server_api);
            Ok(command)
        }
        None => Ok(command),
    }
}
