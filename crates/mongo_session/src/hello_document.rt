//! The document that says what a server is.

ghost use Rattle.std.specs.Prelude.{◌≡◌, ◌∷◌, [], option_map, Contains, IfOk, IfErr};
ghost use Rattle.mongo_bson.specs.declared.fault.BsonFault.TheVariants.{OutOfMemory};
ghost use Rattle.mongo_command.specs.Arguments.{field_elements, IsNamed, TooLongFor};
ghost use Rattle.mongo_command.specs.Command.{present};
ghost use Rattle.mongo_command.specs.Keys.{sasl_supported_mechs_key};
ghost use Rattle.mongo_command.specs.Literal.{array_element, document_of, text_element};
ghost use Rattle.mongo_scram.specs.Version.{version_name};
ghost use Rattle.mongo_session.specs.Replies.{hello_reply_elements, names_document, sasl_document, writable_key};

use crate::reply::{HelloAnswer, Mechanisms};
use crate::reply_document::sasl_document;
use mongo_bson::{BsonFault, RawDocumentBuf, RawValue};
use mongo_command::keys::{
    CONNECTION_ID, HELLO_OK, IS_MASTER, IS_WRITABLE_PRIMARY, LOGICAL_SESSION_TIMEOUT_MINUTES,
    MAX_BSON_OBJECT_SIZE, MAX_MESSAGE_SIZE_BYTES, MAX_WIRE_VERSION, MAX_WRITE_BATCH_SIZE,
    MIN_WIRE_VERSION, SASL_SUPPORTED_MECHS, SPECULATIVE_AUTHENTICATE,
};
use mongo_command::{ArgumentField, document_of, ok_field, optional_document_field};
use mongo_scram::ScramVersion;
use mongo_server::{MAXIMUM_DOCUMENT_LENGTH, MAXIMUM_MESSAGE_LENGTH};
use std::alloc::Global;

/// The document of a hello's reply.
///
/// `TooLong` where it would pass 2147483647 bytes.
pub fn hello_reply_document(alloc: Global, hello: &HelloAnswer) -> Result<RawDocumentBuf, BsonFault>
    ensures document { IfOk result (λ document. document ≡ document_of (hello_reply_elements hello.now)) }
    ensures refused { IfErr result (λ fault. TooLongFor fault (document_of (hello_reply_elements hello.now))) }
{
    let mechanisms = match hello.mechanisms {
        Some(mechanisms) => Some(names_document(alloc, mechanisms)?),
        None => None,
    };
    let speculation = match &hello.speculation {
        Some(message) => Some(sasl_document(alloc, message)?),
        None => None,
    };
    document_around(alloc, hello, &mechanisms, &speculation)
}

// The document of a hello's reply, around the names of the mechanisms that it lists, and the answer to the login that came with the hello.
fn document_around<'x>(
    alloc: Global,
    hello: &HelloAnswer,
    mechanisms: &'x Option<RawDocumentBuf>,
    speculation: &'x Option<RawDocumentBuf>,
) -> Result<RawDocumentBuf, BsonFault>
    requires mechanisms { mechanisms.now ≡ option_map names_document hello.now.mechanisms }
    requires speculation { speculation.now ≡ option_map sasl_document hello.now.speculation }
    ensures document { IfOk result (λ document. document ≡ document_of (hello_reply_elements hello.now)) }
    ensures refused { IfErr result (λ fault. TooLongFor fault (document_of (hello_reply_elements hello.now))) }
{
    document_of(
        alloc,
        &[
            Some((HELLO_OK, RawValue::Bool(true))),
            Some((
                MAX_BSON_OBJECT_SIZE,
                RawValue::Int32(MAXIMUM_DOCUMENT_LENGTH),
            )),
            Some((
                MAX_MESSAGE_SIZE_BYTES,
                RawValue::Int32(MAXIMUM_MESSAGE_LENGTH),
            )),
            Some((MAX_WRITE_BATCH_SIZE, RawValue::Int32(100_000))),
            Some(("localTime", RawValue::DateTime(0))),
            Some((LOGICAL_SESSION_TIMEOUT_MINUTES, RawValue::Int32(30))),
            Some((CONNECTION_ID, RawValue::Int32(1))),
            Some((MIN_WIRE_VERSION, RawValue::Int32(0))),
            Some((MAX_WIRE_VERSION, RawValue::Int32(21))),
            Some(("readOnly", RawValue::Bool(false))),
            Some((writable_key(hello.is_legacy), RawValue::Bool(true))),
            mechanisms_field(mechanisms),
            optional_document_field(SPECULATIVE_AUTHENTICATE, speculation),
            ok_field(),
        ],
    )
}

// The key that says that writes are taken.
fn writable_key(is_legacy: bool) -> &'static str
    ensures { result.now ≡ writable_key is_legacy }
{
    if is_legacy {
        IS_MASTER
    } else {
        IS_WRITABLE_PRIMARY
    }
}

// The mechanisms of a user, where they are asked for.
fn mechanisms_field<'a>(names: &'a Option<RawDocumentBuf>) -> ArgumentField<'a>
    ensures elements { field_elements result ≡ present (array_element sasl_supported_mechs_key) names.now }
    ensures named { IsNamed result }
{
    match names {
        Some(names) => Some((SASL_SUPPORTED_MECHS, RawValue::Array(names.borrow()))),
        None => None,
    }
}

// The array of the mechanisms' names. It is short, so that want of memory is its one refusal.
fn names_document(alloc: Global, mechanisms: Mechanisms) -> Result<RawDocumentBuf, BsonFault>
    ensures document { IfOk result (λ document. document ≡ names_document mechanisms) }
    ensures refused { IfErr result (λ fault. fault ≡ OutOfMemory) }
{
    match mechanisms {
        Mechanisms::Sha1 => document_of(alloc, &[mechanism_field("0", ScramVersion::Sha1)]),
        Mechanisms::Sha256 => document_of(alloc, &[mechanism_field("0", ScramVersion::Sha256)]),
        Mechanisms::Both => document_of(
            alloc,
            &[
                mechanism_field("0", ScramVersion::Sha1),
                mechanism_field("1", ScramVersion::Sha256),
            ],
        ),
    }
}

// The name of a mechanism, at its place in the array.
fn mechanism_field(place: &'static str, version: ScramVersion) -> ArgumentField<'static>
    requires { ¬ Contains place.now 0 }
    ensures elements { field_elements result ≡ text_element place.now (version_name version) ∷ [] }
    ensures named { IsNamed result }
{
    Some((place, RawValue::Str(version.mechanism().as_str())))
}
