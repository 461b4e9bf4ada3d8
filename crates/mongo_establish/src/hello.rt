// The hello of a login: what is the same for all, and what the login adds.

ghost use Rattle.std.specs.Prelude.{◌≡◌, Contains, option_map, option_copied, IfOk, IfErr, OnOk};
ghost use Rattle.mongo_wire.specs.declared.error.ErrorKind.TheVariants.{OutOfMemory};
ghost use Rattle.mongo_command.specs.Exchange.{DocumentRefused};
ghost use Rattle.mongo_command.specs.Keys.{speculative_authenticate_key};
ghost use Rattle.mongo_establish.specs.Client.{common_hello, asking_mechanisms, speculating, with_document, introducing};
ghost use Rattle.mongo_establish.specs.First.{first_document};

use crate::{ClientFirst, HandshakerOptions};
use mongo_bson::{RawDocumentBuf, RawValue};
use mongo_command::keys::SPECULATIVE_AUTHENTICATE;
use mongo_command::{Command, hello_command};
use mongo_meta::ClientMetadata;
use mongo_sasl::Credential;
use mongo_wire::Error;
use std::alloc::Global;

// What the hellos of all logins have in common.
pub(crate) fn common_hello(alloc: Global, options: &HandshakerOptions) -> Result<Command, Error>
    ensures hello { IfOk result (λ hello. hello ≡ common_hello options.now) }
    ensures refused { IfErr result (λ e. e.kind ≡ OutOfMemory) }
{
    let mut hello = hello_command(
        alloc,
        options.server_api.as_ref(),
        Some(options.load_balanced),
        None,
        None,
    )?;
    if options.load_balanced {
        hello.body.append("loadBalanced", RawValue::Bool(true))?;
    }
    Ok(hello)
}

// Asks which mechanisms the user has, where there are a user name and no mechanism.
pub(crate) fn ask_mechanisms(
    alloc: Global,
    credential: Option<&Credential>,
    body: &mut RawDocumentBuf,
) -> Result<(), Error>
    ensures setup { OnOk result (body.new ≡ asking_mechanisms (option_copied credential.entry) body.old) }
    ensures refused { IfErr result (λ e. DocumentRefused e.kind (asking_mechanisms (option_copied credential.entry) body.old)) }
{
    match credential {
        Some(credential) => credential.append_needed_mechanism_negotiation(alloc, body),
        None => Ok(()),
    }
}

// Puts the first message of a login into the hello.
pub(crate) fn speculate(
    alloc: Global,
    first: &Option<ClientFirst>,
    body: &mut RawDocumentBuf,
) -> Result<(), Error>
    ensures speculates { OnOk result (body.new ≡ speculating (option_map first_document first.now) body.old) }
    ensures refused { IfErr result (λ e. DocumentRefused e.kind (speculating (option_map first_document first.now) body.old)) }
{
    match first {
        Some(first) => put_first(alloc, first, body),
        None => Ok(()),
    }
}

fn put_first(alloc: Global, first: &ClientFirst, body: &mut RawDocumentBuf) -> Result<(), Error>
    ensures put { OnOk result (body.new ≡ with_document speculative_authenticate_key (first_document first.now) body.old) }
    ensures refused { IfErr result (λ e. DocumentRefused e.kind (with_document speculative_authenticate_key (first_document first.now) body.old)) }
{
    let login = first.to_document(alloc)?;
    put(body, SPECULATIVE_AUTHENTICATE, &login)
}

// Puts the client's metadata into the hello, in the least form that fits.
pub(crate) fn introduce_client(
    alloc: Global,
    metadata: &ClientMetadata,
    body: &mut RawDocumentBuf,
) -> Result<(), Error>
    ensures introduced { OnOk result (body.new ≡ introducing metadata.now body.old) }
    ensures refused { IfErr result (λ e. DocumentRefused e.kind (introducing metadata.now body.old)) }
{
    let client = metadata.client_document(alloc, body.as_bytes().len())?;
    put(body, "client", &client)
}

// Puts a document at the end of a hello's body.
fn put(body: &mut RawDocumentBuf, key: &str, document: &RawDocumentBuf) -> Result<(), Error>
    requires { Contains key.now 0 → ⊥ }
    ensures put { OnOk result (body.new ≡ with_document key.now document.now body.old) }
    ensures refused { IfErr result (λ e. DocumentRefused e.kind (with_document key.now document.now body.old)) }
{
    match body.append(key, RawValue::Document(document.borrow())) {
        Ok(()) => Ok(()),
        Err(fault) => Err(Error::from(fault)),
    }
}
