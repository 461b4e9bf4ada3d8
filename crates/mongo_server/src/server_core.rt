ghost use Rattle.std.specs.Prelude.{◌≡◌};
ghost use Rattle.std.specs.Option.{ForSome};
ghost use Rattle.mongo_scram.specs.Keys.{verifier_under};
ghost use Rattle.mongo_server.specs.ClientMessages.{IsNonce};

use crate::fault::ServerFault;
use crate::messages::{joined_nonce, server_final_text, server_first_text};
use crate::parse::{ClientFirstParts, read_client_final, read_client_first};
use crate::user::ServerUser;
use mongo_bson::{BsonFault, Text, TryClone, copy_of};
use mongo_command::both;
use mongo_mac::{Tag, are_same_bytes};
use mongo_scram::transcript_text;
use std::alloc::Global;
use std::fmt;

/// A conversation that has begun.
pub(crate) struct ServerConversation {
    // The client's nonce with the suffix behind it.
    nonce: Text,
    // What the client and the server sign (RFC 5802, `AuthMessage`).
    auth_message: Text,
}

// Dropped by a call, so that the proofs of its owners don't walk through its parts.
impl Drop for ServerConversation {
    fn drop(self) {
        let ServerConversation {
            nonce: _,
            auth_message: _,
        } = self;
    }
}

impl TryClone for ServerConversation {
    fn try_clone(&self, alloc: Global) -> Result<ServerConversation, BsonFault> {
        let (nonce, auth_message) = both(
            self.nonce.try_clone(alloc),
            self.auth_message.try_clone(alloc),
        )?;
        Ok(ServerConversation {
            nonce,
            auth_message,
        })
    }
}

// A conversation, and the server's first message in it.
#[derive(Drop)]
pub(crate) struct Opening {
    conversation: ServerConversation,
    server_first: Text,
}

/// A server that knows one user, and holds the conversation that was begun last.
pub struct ServerCore {
    user: ServerUser,
    suffix: Text,
    conversation: Option<ServerConversation>,
    // What the server owes in that conversation, signed once.
    verifier: Tag,
    pub ghost printable: { IsNonce suffix },
    pub ghost signed: { ForSome conversation (λ held. verifier ≡ verifier_under user.keys held.auth_message) },
}

// Dropped by a call, so that the proofs of its owners don't walk through its parts.
impl Drop for ServerCore {
    fn drop(self) {
        let ServerCore {
            user: _,
            suffix: _,
            conversation: _,
            verifier: _,
        } = self;
    }
}

impl ServerCore {
    ghost use Rattle.std.specs.Prelude.{◌≡◌, ◌⊎◌, ◌↔◌, ℕ, List, None, Err, IfOk, IfErr, OnOk, OnErr, MatchResult};
    ghost use Rattle.base64.specs.GeneralPurpose.{IsBytes};
    ghost use Rattle.mongo_scram.specs.Messages.{bare_message};
    ghost use Rattle.mongo_server.specs.Acceptance.{Accepts};
    ghost use Rattle.mongo_server.specs.ClientMessages.{IsNonce, IsClientFirst};
    ghost use Rattle.mongo_server.specs.Authentication.{Authentication, open_of, close_of, server_final_of, IsReadAs};
    ghost use Rattle.mongo_server.specs.Server.{server_user, salt_of, suffix_of, username_of, held_conversation, conversation_by, first_by, BeginsConversation, HearsClientFirst, ClientFirstRow, IsOwed, IsValidClientFinal, ClientFinalRow, ClientFinalRefused, Serves, HasBegun};
    ghost use Rattle.mongo_server.specs.declared.fault.ServerFault.{ServerFault as Fault};
    ghost use Rattle.mongo_server.specs.declared.fault.ServerFault.TheVariants.{NotStarted, OutOfMemory};

    /// A server of this user, which adds the suffix to a client's nonce; [`is_nonce`] tests a suffix. No conversation has
    /// begun.
    ///
    /// [`is_nonce`]: crate::is_nonce
    pub fn new(user: ServerUser, suffix: Text) -> ServerCore
        requires { IsNonce suffix }
        ensures user { server_user result ≡ user }
        ensures suffix { suffix_of result ≡ suffix }
        ensures not_started { held_conversation result ≡ None }
    {
        ServerCore {
            user,
            suffix,
            conversation: None,
            verifier: Tag::from_slice(&[]),
        }
    }

    /// Reads a client's first message, `n,,n=` user name `,r=` nonce, and answers the server's: `r=` the nonce with the
    /// suffix behind it, `,s=` the salt in base64, `,i=` the iteration count. The conversation of that nonce has begun, in
    /// place of one that was held.
    ///
    /// In this order: `Malformed` where the bytes aren't such a message of a UTF-8 user name and a nonce of printable ASCII
    /// without a comma; `UnknownUser` where it names another user; want of memory. A refusal leaves the server as it was.
    pub fn first(&mut self, alloc: Global, client_first: &[u8]) -> Result<Text, ServerFault>
        ensures answered { IfOk result (λ text. (nonce : List ℕ) × IsClientFirst client_first.now (username_of self.old) nonce × BeginsConversation self.old nonce text self.new) }
        ensures refused { IfErr result (λ fault. ClientFirstRow self.old client_first.now fault ⊎ (fault ≡ OutOfMemory)) }
        ensures exact { (fault : Fault) → ClientFirstRow self.old client_first.now fault → result ≡ Err fault }
        ensures unchanged { OnErr result (self.new ≡ self.old) }

        // The client of any authentication with this server is answered, and reads the answer.
        ensures accepts { (x : Authentication) → Serves self.old x → IsNonce x.nonce → client_first.now ≡ open_of x →
            MatchResult result (λ text. IsReadAs text x × HasBegun self.new x) (λ fault. fault ≡ OutOfMemory) }
    {
        let message = match self.hear(client_first) {
            Ok(message) => message,
            Err(fault) => return Err(fault),
        };
        match self.open(alloc, message) {
            Ok(
                Opening {
                    conversation,
                    server_first,
                },
            ) => {
                let auth_message = conversation.auth_message.as_bytes();
                self.verifier = self.user.keys.verifier(auth_message);
                self.conversation = Some(conversation);
                Ok(server_first)
            }
            Err(fault) => Err(fault),
        }
    }

    /// The server's last message in the conversation that was begun: `v=` the verifier in base64.
    ///
    /// `NotStarted` exactly where no `first` has succeeded; want of memory.
    pub fn expected_final(&self, alloc: Global) -> Result<Text, ServerFault>
        ensures owed { IfOk result (IsOwed self.now) }
        ensures not_started { (result ≡ Err NotStarted) ↔ (held_conversation self.now ≡ None) }
        ensures refused { IfErr result (λ fault. (fault ≡ NotStarted) ⊎ (fault ≡ OutOfMemory)) }

        // The client of any authentication with this server demands that message, and accepts it.
        ensures accepts { (x : Authentication) → HasBegun self.now x →
            MatchResult result (λ text. (text ≡ server_final_of x) × Accepts x text) (λ fault. fault ≡ OutOfMemory) }
    {
        match &self.conversation {
            Some(_conversation) => server_final_text(alloc, &self.verifier),
            None => Err(ServerFault::NotStarted),
        }
    }

    /// Reads a client's last message, `c=biws,r=` joined nonce `,p=` proof in base64, and answers as
    /// [`ServerCore::expected_final`] does. The proof is compared as a whole, over every byte.
    ///
    /// In this order: `NotStarted` where no `first` has succeeded; `Malformed` where the bytes aren't such a message of any
    /// nonce and proof; `Nonce` where the nonce isn't that of the conversation; `Proof` where the proof isn't the one that
    /// the client owes. Want of memory may stand in the place of each but the first. The server is left as it was, and holds
    /// the conversation still.
    pub fn last(&mut self, alloc: Global, client_final: &[u8]) -> Result<Text, ServerFault>
        ensures taken { OnOk result (IsValidClientFinal self.old client_final.now) }
        ensures answered { IfOk result (IsOwed self.old) }
        ensures refused { IfErr result (λ fault. ClientFinalRow self.old client_final.now fault ⊎ (fault ≡ OutOfMemory)) }
        ensures not_started { held_conversation self.old ≡ None → result ≡ Err NotStarted }
        ensures exact { (fault : Fault) → ClientFinalRow self.old client_final.now fault → (result ≡ Err fault) ⊎ (result ≡ Err OutOfMemory) }
        ensures unchanged { self.new ≡ self.old }

        // In any authentication that has begun, only the client's last message is taken, byte for byte.
        ensures only { (x : Authentication) → HasBegun self.old x → OnOk result (client_final.now ≡ close_of x) }

        // That message is taken, and the client accepts the answer.
        ensures accepts { (x : Authentication) → HasBegun self.old x → client_final.now ≡ close_of x →
            MatchResult result (λ text. (text ≡ server_final_of x) × Accepts x text) (λ fault. fault ≡ OutOfMemory) }
    {
        match self.check(alloc, client_final) {
            Ok(()) => self.expected_final(alloc),
            Err(fault) => Err(fault),
        }
    }

    /// A copy of the server, with the conversation that it holds: either goes on in it by itself. It signs nothing.
    pub fn try_clone(&self, alloc: Global) -> Result<ServerCore, BsonFault>
        ensures copied { IfOk result (λ server. server ≡ self.now) }
        ensures refused { IfErr result (λ fault. fault ≡ BsonFault.OutOfMemory) }
    {
        let known = both(self.user.try_clone(alloc), self.suffix.try_clone(alloc));
        let ((user, suffix), conversation) = both(known, copy_of(alloc, &self.conversation))?;
        Ok(ServerCore {
            user,
            suffix,
            conversation,
            verifier: self.verifier,
        })
    }

    // What a client's first message says, where it is one of the user. It takes no memory.
    fn hear<'a>(&self, client_first: &'a [u8]) -> Result<ClientFirstParts<'a>, ServerFault>
        ensures heard { IfOk result (HearsClientFirst self.now client_first.now) }
        ensures refused { IfErr result (ClientFirstRow self.now client_first.now) }
    {
        let Some(message) = read_client_first(client_first) else {
            return Err(ServerFault::Malformed);
        };
        if message.saslname != self.user.saslname.as_str() {
            return Err(ServerFault::UnknownUser);
        }
        Ok(message)
    }

    // The conversation that a client's first message opens, and the answer to it.
    fn open(&self, alloc: Global, message: ClientFirstParts<'_>) -> Result<Opening, ServerFault>
        requires { message.bare.now ≡ bare_message (username_of self.now) message.nonce.now }
        ensures conversation { IfOk result (λ opening. opening.conversation ≡ conversation_by self.now message.entry.nonce.now) }
        ensures server_first { IfOk result (λ opening. opening.server_first ≡ first_by self.now message.entry.nonce.now) }
        ensures bytes { OnOk result (IsBytes (salt_of self.now)) }
        ensures refused { IfErr result (λ fault. fault ≡ OutOfMemory) }
    {
        let nonce = joined_nonce(alloc, message.nonce, self.suffix.as_str())?;
        let salt = self.user.salt.as_bytes();
        let server_first = server_first_text(alloc, nonce.as_str(), salt, self.user.count)?;
        let auth_message = transcript_text(
            alloc,
            message.bare,
            server_first.as_str(),
            nonce.as_str(),
        )?;
        Ok(Opening {
            conversation: ServerConversation {
                nonce,
                auth_message: Text::from_string(auth_message),
            },
            server_first,
        })
    }

    // Whether a client's last message proves the key in the conversation.
    fn check(&self, alloc: Global, client_final: &[u8]) -> Result<(), ServerFault>
        ensures taken { OnOk result (IsValidClientFinal self.now client_final.now) }
        ensures refused { IfErr result (ClientFinalRefused self.now client_final.now) }
    {
        let Some(conversation) = &self.conversation else {
            return Err(ServerFault::NotStarted);
        };
        let message = read_client_final(alloc, client_final)?;
        if message.nonce != conversation.nonce.as_bytes() {
            return Err(ServerFault::Nonce);
        }
        let owed = self.user.keys.proof(conversation.auth_message.as_bytes());
        if are_same_bytes(message.proof.as_bytes(), owed.as_bytes()) {
            Ok(())
        } else {
            Err(ServerFault::Proof)
        }
    }
}

// Keys are never shown.
impl fmt::Debug for ServerCore {
    ghost use Rattle.std.specs.Prelude.{Some, codes};

    ghost debug_output = { λ _. Some (codes "ServerCore { .. }") };

    fn fmt<W: fmt::Write>(&self, f: &mut fmt::Formatter<W>) -> fmt::Result {
        f.write_str("ServerCore { .. }")
    }
}
