// The exchanges of a login, each a command of the client and the server's reply to it: two, or the last alone where the first messages
// went with the hello.

ghost use Rattle.std.specs.Prelude.{◌≡◌, ◌⊎◌, [], IfOk, IfErr, OnOk};
ghost use Rattle.mongo_wire.specs.declared.error.ErrorKind.TheVariants.{OutOfMemory};
ghost use Rattle.mongo_command.specs.Exchange.{frame_maximum};
ghost use Rattle.mongo_sasl.specs.EndsByScript.{standing, DrawsOnce, StopsBy};
ghost use Rattle.mongo_scram.specs.Client.{auth_message_of, final_conversation};
ghost use Rattle.mongo_scram.specs.Messages.{verifier};
ghost use Rattle.mongo_scram.specs.Plan.{Challenge, last_exchange};
ghost use Rattle.mongo_scram.specs.Replies.{CarriesFirst, FirstReplyRow};
ghost use Rattle.mongo_scram.specs.Costs.{CarriesValidFinal};
ghost use Rattle.mongo_scram.specs.Login.{final_said, LastRefusal, LeavesOneExchange, EndsLastExchange};
ghost use Rattle.mongo_scram.specs.Version.{digest_of};

use crate::auth_info::ClientAuthInfo;
use crate::first_round::FirstRound;
use crate::messages::{ClientFinal, ClientFirst};
use crate::salted_password::SaltedPassword;
use crate::scram_version::ScramVersion;
use crate::server_final::ServerFinal;
use crate::server_first::ServerFirst;
use mongo_bson::RawDocument;
use mongo_command::{Connection, ServerApi, held_reply};
use mongo_sasl::{Credential, refused};
use mongo_wire::{AuthFault, Error, FrameBuffer, Link, RequestIds};
use std::alloc::Global;

/// What a login is handed, beside its connection.
#[derive(Clone, Copy)]
pub struct ScramLogin<'a> {
    /// The version of SCRAM.
    pub version: ScramVersion,
    /// Who logs in.
    pub credential: &'a Credential,
    /// The server API that each command declares, if any.
    pub server_api: Option<&'a ServerApi>,
    /// The nonce of a first message of its own.
    pub nonce: &'a [u8; 32],
    /// The most iterations that it derives by.
    pub max_iterations: u32,
}

/// The first messages of both sides.
pub struct Opened {
    /// The client's.
    pub client_first: ClientFirst,
    /// The server's.
    pub server_first: ServerFirst,
}

// Dropped by a call, so that the proofs of its owners don't walk through its parts.
impl Drop for Opened {
    fn drop(self) {
        let Opened {
            client_first: _,
            server_first: _,
        } = self;
    }
}

impl<'a> ScramLogin<'a> {
    ghost use Rattle.std.specs.Prelude.{◌≡◌, None, Some, [], IsSome, IfOk, OnOk};
    ghost use Rattle.mongo_wire.specs.declared.error.ErrorKind.{ErrorKind};
    ghost use Rattle.mongo_wire.specs.Buffer.{frames_taken};
    ghost use Rattle.mongo_command.specs.Connection.{kept_fault};
    ghost use Rattle.mongo_command.specs.Exchange.{frame_maximum, point};
    ghost use Rattle.mongo_sasl.specs.EndsByScript.{standing, DrawsOnce, StopsBy};
    ghost use Rattle.mongo_scram.specs.Client.{speculated_of, user_of};
    ghost use Rattle.mongo_scram.specs.Plan.{opened};
    ghost use Rattle.mongo_scram.specs.Login.{handed_by, Opens, frames_opened, LeavesOneExchange};

    /// The first messages of both sides: those of a round that went with the hello, or of an exchange, by the nonce.
    pub fn open<L: Link>(
        self,
        alloc: Global,
        connection: &mut Connection,
        link: &mut L,
        ids: &mut RequestIds,
        buffer: &mut FrameBuffer,
        user: &ClientAuthInfo<'_>,
        first_round: Option<FirstRound>,
    ) -> Result<Opened, Error>
        ensures opened { IfOk result (λ o. Opens (handed_by self.entry first_round (frame_maximum connection.old.stream_description)) (user_of user.now) o
            (point (L.state link.old) ids.old) (point (L.state link.new) ids.new)) }
        ensures stops { StopsBy [] L.state (opened (speculated_of first_round) (handed_by self.entry first_round (frame_maximum connection.old.stream_description)) (user_of user.now)) result
            (standing connection.old link.old ids.old buffer.old) (standing connection.new link.new ids.new buffer.new) }
        ensures drawn { DrawsOnce (standing connection.old link.old ids.old buffer.old) (standing connection.new link.new ids.new buffer.new) }
        // Over a connection that keeps a fault, only a round that went with the hello opens.
        ensures alone { (kind : ErrorKind) → kept_fault connection.old ≡ Some kind → OnOk result (IsSome (speculated_of first_round)) }
        ensures frames { OnOk result (frames_taken buffer.new ≡ frames_opened first_round (frames_taken buffer.old)) }
        ensures faultless { kept_fault connection.old ≡ None → OnOk result (kept_fault connection.new ≡ None) }
    {
        match first_round {
            Some(round) => go_on(alloc, round),
            None => self.say_first(alloc, connection, link, ids, buffer, user),
        }
    }

    // Says the client's first message, and takes the server's.
    fn say_first<L: Link>(
        self,
        alloc: Global,
        connection: &mut Connection,
        link: &mut L,
        ids: &mut RequestIds,
        buffer: &mut FrameBuffer,
        user: &ClientAuthInfo<'_>,
    ) -> Result<Opened, Error>
        ensures opened { IfOk result (λ o. Opens (handed_by self.entry None (frame_maximum connection.old.stream_description)) (user_of user.now) o
            (point (L.state link.old) ids.old) (point (L.state link.new) ids.new)) }
        ensures stops { StopsBy [] L.state (opened None (handed_by self.entry None (frame_maximum connection.old.stream_description)) (user_of user.now)) result
            (standing connection.old link.old ids.old buffer.old) (standing connection.new link.new ids.new buffer.new) }
        ensures drawn { DrawsOnce (standing connection.old link.old ids.old buffer.old) (standing connection.new link.new ids.new buffer.new) }
        ensures once { OnOk result (LeavesOneExchange connection.old connection.new buffer.old buffer.new) }
    {
        let client_first = ClientFirst::new(
            alloc,
            user.source,
            user.username,
            false,
            self.server_api.copied(),
            self.nonce,
        )?;
        let command = client_first.to_command(alloc, &self.version)?;
        connection.exchange_into(alloc, link, ids, command, buffer)?;
        let server_first = ServerFirst::parse(alloc, held_reply(buffer))?;
        Ok(Opened {
            client_first,
            server_first,
        })
    }
}

// The first messages of a round that went with the hello.
fn go_on(alloc: Global, round: FirstRound) -> Result<Opened, Error>
    ensures client { IfOk result (λ o. o.client_first ≡ round.client_first) }
    ensures server { IfOk result (λ o. CarriesFirst round.server_first o.server_first) }
    ensures refused { IfErr result (λ e. FirstReplyRow round.server_first e.kind ⊎ (e.kind ≡ OutOfMemory)) }
{
    let FirstRound {
        client_first,
        server_first,
    } = round;
    let server_first = ServerFirst::parse(alloc, server_first.borrow())?;
    Ok(Opened {
        client_first,
        server_first,
    })
}

/// The last exchange: says the client's last message, and takes the server's, by the salted password. It ends the login.
pub fn close<L: Link>(
    alloc: Global,
    connection: &mut Connection,
    link: &mut L,
    ids: &mut RequestIds,
    buffer: &mut FrameBuffer,
    version: ScramVersion,
    salted: &SaltedPassword,
    client_final: &ClientFinal,
) -> Result<(), Error>
    // By one exchange, whose frame the buffer holds.
    ensures closed { OnOk result (EndsLastExchange L.state (final_said client_final.now (frame_maximum connection.old.stream_description)) (final_conversation client_final.now) (verifier (digest_of version) salted.now (auth_message_of client_final.now))
        (standing connection.old link.old ids.old buffer.old) (standing connection.new link.new ids.new buffer.new)) }
    ensures stops { (c : Challenge) → StopsBy [] L.state (last_exchange (final_said client_final.now (frame_maximum connection.old.stream_description)) (final_conversation client_final.now) (verifier (digest_of version) salted.now (auth_message_of client_final.now)) c) result
        (standing connection.old link.old ids.old buffer.old) (standing connection.new link.new ids.new buffer.new) }
    ensures drawn { DrawsOnce (standing connection.old link.old ids.old buffer.old) (standing connection.new link.new ids.new buffer.new) }
    ensures once { OnOk result (LeavesOneExchange connection.old connection.new buffer.old buffer.new) }
{
    let command = client_final.to_command(alloc)?;
    connection.exchange_into(alloc, link, ids, command, buffer)?;
    take_last(alloc, held_reply(buffer), version, salted, client_final)
}

// Takes the server's last message where it proves that the server knows the key, and ends the conversation.
fn take_last(
    alloc: Global,
    reply: RawDocument<'_>,
    version: ScramVersion,
    salted: &SaltedPassword,
    client_final: &ClientFinal,
) -> Result<(), Error>
    ensures taken { OnOk result (CarriesValidFinal (final_conversation client_final.now) (verifier (digest_of version) salted.now (auth_message_of client_final.now)) reply.entry.bytes.now) }
    ensures refused { IfErr result (λ e. LastRefusal (final_conversation client_final.now) (verifier (digest_of version) salted.now (auth_message_of client_final.now)) reply.entry.bytes.now e.kind ⊎ (e.kind ≡ OutOfMemory)) }
{
    let last = ServerFinal::parse(alloc, reply)?;
    let done = last.done;
    last.validate_by(salted, client_final, &version)?;
    if done {
        Ok(())
    } else {
        Err(refused(AuthFault::NotCompleted))
    }
}
