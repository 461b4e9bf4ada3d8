ghost use Rattle.std.specs.Prelude.{◌≡◌, ◌⊎◌, None, Some, IfErr, OnOk};
ghost use Rattle.mongo_wire.specs.declared.error.ErrorKind.TheVariants.{OutOfMemory};
ghost use Rattle.mongo_command.specs.Connection.{kept_fault};
ghost use Rattle.mongo_command.specs.EndsExchange.{footing};
ghost use Rattle.mongo_command.specs.CommandReply.{IsCommandBody, CommandRefused};
ghost use Rattle.mongo_cursor.specs.Batch.{next_batch, IsBatch, BatchRefused};
ghost use Rattle.mongo_cursor.specs.Commands.{get_more_command, kill_cursors_command};
ghost use Rattle.mongo_cursor.specs.Call.{EndsCall};

use crate::batch::{Batch, NEXT_BATCH, read_batch};
use crate::commands::{get_more, kill_cursors};
use crate::namespace::Namespace;
use mongo_command::{Command, Connection, command_body};
use mongo_wire::{Error, Link, RequestIds};
use std::alloc::Global;

// Sends a command and reads the batch that its reply holds under the key.
pub(crate) fn batch_of<L: Link>(
    alloc: Global,
    connection: &mut Connection,
    link: &mut L,
    ids: &mut RequestIds,
    command: Command,
    key: &str,
) -> Result<Batch, Error>
    ensures ends { EndsCall L.state command (IsBatch key.now) (BatchRefused key.now) result (footing connection.old link.old ids.old) (footing connection.new link.new ids.new) }
{
    let response = connection.send_message(alloc, link, ids, command)?;
    read_batch(alloc, &response, key)
}

// Asks for the next batch of the cursor of this id.
pub(crate) fn next_batch<L: Link>(
    alloc: Global,
    connection: &mut Connection,
    link: &mut L,
    ids: &mut RequestIds,
    namespace: &Namespace,
    id: i64,
) -> Result<Batch, Error>
    ensures ends { EndsCall L.state (get_more_command namespace.now id) (IsBatch next_batch) (BatchRefused next_batch) result (footing connection.old link.old ids.old) (footing connection.new link.new ids.new) }
{
    without_fault(alloc, connection)?;
    let command = get_more(alloc, namespace, id)?;
    batch_of(alloc, connection, link, ids, command, NEXT_BATCH)
}

// Has the server close the cursor of this id.
pub(crate) fn kill<L: Link>(
    alloc: Global,
    connection: &mut Connection,
    link: &mut L,
    ids: &mut RequestIds,
    namespace: &Namespace,
    id: i64,
) -> Result<(), Error>
    ensures ends { EndsCall L.state (kill_cursors_command namespace.now id) (λ reply _. IsCommandBody reply) CommandRefused result (footing connection.old link.old ids.old) (footing connection.new link.new ids.new) }
{
    without_fault(alloc, connection)?;
    let command = kill_cursors(alloc, namespace, id)?;
    succeed(alloc, connection, link, ids, command)
}

// Sends a command, and judges whether its reply says that it succeeded.
fn succeed<L: Link>(
    alloc: Global,
    connection: &mut Connection,
    link: &mut L,
    ids: &mut RequestIds,
    command: Command,
) -> Result<(), Error>
    ensures ends { EndsCall L.state command (λ reply _. IsCommandBody reply) CommandRefused result (footing connection.old link.old ids.old) (footing connection.new link.new ids.new) }
{
    let response = connection.send_message(alloc, link, ids, command)?;
    command_body(alloc, &response)?;
    Ok(())
}

// Answers the fault that the connection keeps, if any, before a command is made.
fn without_fault(alloc: Global, connection: &Connection) -> Result<(), Error>
    ensures none { OnOk result (kept_fault connection.now ≡ None) }
    ensures kept { IfErr result (λ e. (kept_fault connection.now ≡ Some e.kind) ⊎ (e.kind ≡ OutOfMemory)) }
{
    match connection.fault() {
        Some(kind) => Err(Error {
            kind: kind.try_clone(alloc)?,
        }),
        None => Ok(()),
    }
}
