use crate::derivation::{answer, keep};
use crate::login::{ScramLogin, close};
use crate::{ClientFinal, FirstRound, SaltedCache, ScramVersion};
use mongo_command::{Connection, ServerApi};
use mongo_mac::Steps;
use mongo_sasl::Credential;
use mongo_wire::{Error, FrameBuffer, Link, RequestIds};
use std::alloc::Global;
use std::sync::ledger::Ledger;

impl ScramVersion {
    ghost use Rattle.std.specs.Prelude.{◌≡◌, OnOk, option_copied};
    ghost use Rattle.mongo_wire.specs.Buffer.{frames_taken};
    ghost use Rattle.mongo_command.specs.Exchange.{frame_maximum};
    ghost use Rattle.mongo_sasl.specs.EndsByScript.{standing};
    ghost use Rattle.mongo_scram.specs.Base64.{base64_of};
    ghost use Rattle.mongo_scram.specs.Client.{handed_to, frames_after};
    ghost use Rattle.mongo_scram.specs.Costs.{ledgers};
    ghost use Rattle.mongo_scram.specs.EndsByScram.{EndsByScram};

    /// Logs a connection in as the credential's user: `nonce` is for the client's first message, where none went with the hello;
    /// `max_iterations` is the most that it derives by.
    ///
    /// With a first round that went with the hello, the login goes on from the server's answer in it. Else the client's
    /// first message is sent with the nonce. The salted password is looked up by its whole key, derived where it has no
    /// entry, and put in once the server has proved that it knows it.
    ///
    /// Refusals, in this order: those of [`ScramVersion::client_auth_info`]; without a first round those of
    /// [`Connection::exchange`]; those of [`ServerFirst::parse`], of [`ServerFirst::validate`] and of
    /// [`ScramVersion::compute_salted_password`]; those of the second exchange, of [`ServerFinal::parse`] and of
    /// [`ServerFinal::validate`]; `NotCompleted` where the server says that the conversation isn't done.
    /// A connection that keeps a fault answers it in place of an exchange. A refused login leaves the entries of the cache as
    /// they were.
    ///
    /// [`ServerFirst::parse`]: crate::ServerFirst::parse
    /// [`ServerFirst::validate`]: crate::ServerFirst::validate
    /// [`ServerFinal::parse`]: crate::ServerFinal::parse
    /// [`ServerFinal::validate`]: crate::ServerFinal::validate
    pub fn authenticate_stream<L: Link, G: Ledger>(
        &self,
        alloc: Global,
        connection: &mut Connection,
        link: &mut L,
        ids: &mut RequestIds,
        buffer: &mut FrameBuffer,
        credential: &Credential,
        server_api: Option<&ServerApi>,
        first_round: Option<FirstRound>,
        nonce: &[u8; 32],
        max_iterations: u32,
        salted: &mut SaltedCache,
        steps: &mut Steps<G>,
    ) -> Result<(), Error>
        // It ends by its script, and takes so much of the counter and of the cache; the verifier of an accepted login was equal
        // as a whole, and the buffer holds the frame of its last reply.
        ensures login { EndsByScram L.state (handed_to self.now credential.now (option_copied server_api.entry) first_round (base64_of nonce.now) max_iterations (frame_maximum connection.old.stream_description)) result
            (standing connection.old link.old ids.old buffer.old) (standing connection.new link.new ids.new buffer.new) (ledgers steps.old salted.old) (ledgers steps.new salted.new) }

        // The replies passed through the buffer.
        ensures buffer { OnOk result (frames_taken buffer.new ≡ frames_after first_round (frames_taken buffer.old)) }
    {
        let login = ScramLogin {
            version: *self,
            credential,
            server_api,
            nonce,
            max_iterations,
        };
        let user = self.client_auth_info(credential)?;
        let opened = login.open(alloc, connection, link, ids, buffer, &user, first_round)?;
        let derived = answer(
            alloc,
            *self,
            &user,
            opened.client_first.nonce(),
            max_iterations,
            &opened.server_first,
            salted,
            steps,
        )?;
        let client_final = ClientFinal::signed_by(
            alloc,
            user.source,
            &derived.salted,
            &opened.client_first,
            &opened.server_first,
            self,
            server_api.copied(),
        )?;
        close(
            alloc,
            connection,
            link,
            ids,
            buffer,
            *self,
            &derived.salted,
            &client_final,
        )?;
        keep(salted, derived)
    }
}
