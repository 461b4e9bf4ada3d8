ghost use Rattle.std.specs.Prelude.{◌≡◌, option_copied, IfOk, IfErr, OnOk, OnErr};
ghost use Rattle.mongo_wire.specs.declared.error.ErrorKind.{ErrorKind};
ghost use Rattle.mongo_command.specs.Conversation.{or_else};
ghost use Rattle.mongo_command.specs.Hello.{DescriptionRefused};
ghost use Rattle.mongo_establish.specs.Client.{common_hello};
ghost use Rattle.mongo_establish.specs.First.{IsFirstMessage, IsUnmade};
ghost use Rattle.mongo_establish.specs.Reply.{IsDescribedBy};
ghost use Rattle.mongo_establish.specs.Speculation.{HelloRow, speculation};

use crate::answered_round::answered_round;
use crate::hello::{ask_mechanisms, common_hello, introduce_client, speculate};
use crate::login::log_in;
use crate::{
    ClientFirst, HandshakerOptions, LoginInputs, LoginState, Nonces, build_speculative_client_first,
};
use mongo_command::{Command, Connection, HelloReply, ServerAddress, StreamDescription, run_hello};
use mongo_mac::Steps;
use mongo_sasl::{AuthMechanism, Credential};
use mongo_wire::{Error, Link, RequestIds};
use std::alloc::Global;
use std::sync::ledger::Ledger;

// How many bytes memory is taken for behind the common hello: most logins and metadata fit.
const LOGIN_ROOM: usize = 448;

/// Says hello and logs in.
#[derive(Debug)]
pub struct Handshaker {
    hello: Command,
    options: HandshakerOptions,
    pub ghost hello_is: { hello ≡ common_hello options },
}

// Dropped by a call, so that the proofs of its owners don't walk through its parts.
impl Drop for Handshaker {
    fn drop(self) {
        let Handshaker {
            hello: _,
            options: _,
        } = self;
    }
}

impl Handshaker {
    ghost use Rattle.std.specs.Prelude.{◌≡◌, ◌⊎◌, List, [], ℕ, None, Some, option_copied, option_map, IfOk, IfErr, OnErr};
    ghost use Rattle.mongo_wire.specs.declared.error.ErrorKind.TheVariants.{OutOfMemory};
    ghost use Rattle.mongo_wire.specs.Outside.{Unfailed};
    ghost use Rattle.mongo_command.specs.Connection.{kept_fault};
    ghost use Rattle.mongo_command.specs.Helper.{Given};
    ghost use Rattle.mongo_command.specs.Conversation.{Said, Turn, refuses, LeadsGiven, LeftBy};
    ghost use Rattle.mongo_command.specs.EndsExchange.{footing};
    ghost use Rattle.mongo_command.specs.Exchange.{CountsStay, DocumentRefused, point};
    ghost use Rattle.mongo_scram.specs.Cache.{entries_of};
    ghost use Rattle.mongo_scram.specs.Costs.{ledgers};
    ghost use Rattle.mongo_establish.specs.Setup.{setup_over, checkpoint_with};
    ghost use Rattle.mongo_establish.specs.Client.{common_hello, hello_with};
    ghost use Rattle.mongo_establish.specs.Established.{GreetedBy, UngreetedBy, ShookHands, StoppedHandshake};
    ghost use Rattle.mongo_establish.specs.First.{first_document};
    ghost use Rattle.mongo_establish.specs.Greeting.{Greeting};
    ghost use Rattle.mongo_establish.specs.Options.{options_in};
    ghost use Rattle.mongo_establish.specs.Plan.{handshake_plan};
    ghost use Rattle.mongo_establish.specs.Script.{HasScript};
    ghost use Rattle.mongo_establish.specs.Speculation.{SpeaksFor};

    /// A handshaker with these options. What the hellos of all logins have in common is built once.
    pub fn new(alloc: Global, options: HandshakerOptions) -> Result<Handshaker, Error>
        ensures options { IfOk result (λ handshaker. options_in handshaker ≡ options) }
        ensures refused { IfErr result (λ e. e.kind ≡ OutOfMemory) }
    {
        let hello = common_hello(alloc, &options)?;
        Ok(Handshaker { hello, options })
    }

    /// A copy. It builds no hello anew.
    pub fn try_clone(&self, alloc: Global) -> Result<Handshaker, Error>
        ensures copied { IfOk result (λ handshaker. handshaker ≡ self.now) }
        ensures refused { IfErr result (λ e. e.kind ≡ OutOfMemory) }
    {
        let options = self.options.try_clone(alloc)?;
        Ok(Handshaker {
            hello: self.hello.try_clone(alloc)?,
            options,
        })
    }

    /// Says hello over a fresh connection, describes the server by the reply, and logs in where there is a credential and
    /// the server holds users.
    ///
    /// Refusals, in this order. Nothing is written at those of [`build_speculative_client_first`], at `Bson(TooLong)` where the
    /// hello is longer than 2147483647 bytes and at `TooLong` where its frame is longer than 50331648. `WriteFault` where the
    /// link failed to take it; those of [`mongo_wire::FrameBuffer::read`]; `Command`, `Hello`, `SessionTimeout`. Up to here
    /// the connection has no description; then it has that of the reply, and the refusals of the mechanism follow. A
    /// connection on which a fault of the link was met, bytes that are no frame among them, or on which want of memory cut an
    /// exchange, keeps that, and answers it from then on.
    pub fn handshake<L: Link, G: Ledger>(
        &self,
        alloc: Global,
        connection: &mut Connection,
        link: &mut L,
        credential: Option<&Credential>,
        state: &mut LoginState,
        inputs: &LoginInputs,
        steps: &mut Steps<G>,
    ) -> Result<HelloReply, Error>
        requires spoken { SpeaksFor (option_copied credential) }
        requires undescribed { connection.old.stream_description ≡ None }
        requires faultless { kept_fault connection.old ≡ None }

        // What was written and read is exactly a script, the connection and the reply are what its replies say, and so is what was
        // derived.
        ensures shook { IfOk result (ShookHands [] (setup_over connection.old (options_in self.now) (option_copied credential.entry) inputs.now.nonces state.old.ids) connection.old connection.new
            (checkpoint_with (L.state link.old) state.old steps.old) (checkpoint_with (L.state link.new) state.new steps.new)) }

        // A refusal says why it comes, how far the handshake had come, what it left and what was derived: the connection keeps the
        // fault of an exchange that failed, where that left one, and else none.
        ensures refused { IfErr result (λ e. StoppedHandshake [] (setup_over connection.old (options_in self.now) (option_copied credential.entry) inputs.now.nonces state.old.ids) connection.old connection.new e.kind
            (checkpoint_with (L.state link.old) state.old steps.old) (checkpoint_with (L.state link.new) state.new steps.new)) }

        // A script's replies at the front of the bytes left are answered by Ok, unless the link fails or memory runs out.
        ensures complete { (bytes : List ℕ) → (L.state link.old).left ≡ Some bytes → HasScript (setup_over connection.old (options_in self.now) (option_copied credential.entry) inputs.now.nonces state.old.ids) bytes →
            Unfailed (L.state link.old) (L.state link.new) →
            IfErr result (λ e. e.kind ≡ OutOfMemory) }

        // Bytes left that call for a refusal get just that one, and the link is left as it says; those that lead to an end get none.
        ensures exact { (granted : List Given) (bytes taken unread : List ℕ) (outcome : Turn Greeting) (commands : List Said) → (L.state link.old).left ≡ Some bytes →
            LeadsGiven granted (handshake_plan (setup_over connection.old (options_in self.now) (option_copied credential.entry) inputs.now.nonces state.old.ids)) bytes outcome commands taken unread →
            Unfailed (L.state link.old) (L.state link.new) →
            IfErr result (λ e. (e.kind ≡ OutOfMemory) ⊎ ((granted ≡ []) × (outcome ≡ refuses e.kind) × LeftBy commands unread
            (point (L.state link.old) state.old.ids) (point (L.state link.new) state.new.ids))) }

        ensures entries { OnErr result (entries_of state.new.salted ≡ entries_of state.old.salted) }
        ensures counts { CountsStay (L.state link.old) (L.state link.new) }
    {
        let first = speculative_first(alloc, credential, &connection.address, &inputs.nonces)?;
        let mut reply = self.say_hello(
            alloc,
            connection,
            link,
            &mut state.ids,
            credential,
            &first,
        )?;
        let round = answered_round(first, &mut reply);
        let options = &self.options;
        log_in(
            alloc, options, connection, link, credential, state, round, inputs, steps,
        )?;
        Ok(reply)
    }

    // Says hello, with the first message of a login where there is one, and has the connection hold what the reply says.
    pub(crate) fn say_hello<L: Link>(
        &self,
        alloc: Global,
        connection: &mut Connection,
        link: &mut L,
        ids: &mut RequestIds,
        credential: Option<&Credential>,
        first: &Option<ClientFirst>,
    ) -> Result<HelloReply, Error>
        requires undescribed { connection.old.stream_description ≡ None }
        requires faultless { kept_fault connection.old ≡ None }
        ensures greeted { IfOk result (GreetedBy (options_in self.now) (option_copied credential.entry) (option_map first_document first.now)
            (footing connection.old (L.state link.old) ids.old) (footing connection.new (L.state link.new) ids.new)) }
        ensures refused { IfErr result (λ e. UngreetedBy (options_in self.now) (option_copied credential.entry) (option_map first_document first.now) e.kind
            (footing connection.old (L.state link.old) ids.old) (footing connection.new (L.state link.new) ids.new)) }
        ensures counts { CountsStay (L.state link.old) (L.state link.new) }
    {
        let hello = self.login_hello(alloc, credential, first)?;
        let reply = run_hello(alloc, connection, link, ids, hello)?;
        describe(alloc, connection, &reply)?;
        Ok(reply)
    }

    // The hello of a login.
    fn login_hello(
        &self,
        alloc: Global,
        credential: Option<&Credential>,
        first: &Option<ClientFirst>,
    ) -> Result<Command, Error>
        ensures hello { IfOk result (λ hello. hello ≡ hello_with (options_in self.now) (option_copied credential.entry) (option_map first_document first.now)) }
        ensures refused { IfErr result (λ e. DocumentRefused e.kind (hello_with (options_in self.now) (option_copied credential.entry) (option_map first_document first.now)).body) }
    {
        let mut hello = self.hello.try_clone_with_room(alloc, LOGIN_ROOM)?;
        ask_mechanisms(alloc, credential, &mut hello.body)?;
        speculate(alloc, first, &mut hello.body)?;
        introduce_client(alloc, &self.options.metadata, &mut hello.body)?;
        Ok(hello)
    }
}

// The first message of a login that goes with the hello, where there is a credential.
fn speculative_first(
    alloc: Global,
    credential: Option<&Credential>,
    address: &ServerAddress,
    nonces: &Nonces,
) -> Result<Option<ClientFirst>, Error>
    ensures first { IfOk result (IsFirstMessage (option_copied credential.entry) nonces.now.first) }
    ensures made { OnOk result ((kind : ErrorKind) → HelloRow (option_copied credential.entry) kind → ⊥) }
    ensures refused { IfErr result (λ e. or_else (HelloRow (option_copied credential.entry)) (IsUnmade (speculation (option_copied credential.entry) nonces.now.first)) e.kind) }
{
    let Some(credential) = credential else {
        return Ok(None);
    };
    let mechanism = credential.mechanism.unwrap_or(AuthMechanism::ScramSha256);
    build_speculative_client_first(alloc, &mechanism, credential, address, &nonces.first)
}

// Has the connection hold what the reply to its hello says.
fn describe(alloc: Global, connection: &mut Connection, reply: &HelloReply) -> Result<(), Error>
    ensures described { OnOk result (IsDescribedBy connection.old connection.new reply.now) }
    ensures undescribed { OnErr result (connection.new ≡ connection.old) }
    ensures refused { IfErr result (λ e. DescriptionRefused e.kind reply.now.command_response) }
{
    connection.stream_description = Some(StreamDescription::from_hello_reply(alloc, reply)?);
    connection.server_id = reply.command_response.connection_id;
    Ok(())
}
