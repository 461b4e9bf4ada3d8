ghost use Rattle.std.specs.Prelude.{◌≡◌, ◌^◌, ◌<◌, ◌||◌, false, option_map, flat_map, length, unwrap_or, Contains, IfSome, IfOk, IfErr, OnOk};
ghost use Rattle.std.specs.List.{AllByRecursion};
ghost use Rattle.mongo_command.specs.Literal.{document_of};
ghost use Rattle.mongo_command.specs.Arguments.{field_elements, IsNamed};
ghost use Rattle.mongo_command.specs.HelloCommand.{hello_name, asked_hello_ok, topology_version_elements, topology_version_document, await_time, named_elements};

use crate::argument_field::{
    ArgumentField, int32_field, int64_field, optional_boolean_field, optional_document_field,
    optional_int64_field, text_field,
};
use crate::arguments::document_of;
use crate::keys::{COUNTER, HELLO_OK, PROCESS_ID, TOPOLOGY_VERSION};
use crate::{
    AwaitableHelloOptions, HELLO_COMMAND_NAME, LEGACY_HELLO_COMMAND_NAME, TopologyVersion,
};
use mongo_bson::{BsonFault, RawDocumentBuf, RawValue};
use std::alloc::Global;

// Whether the new command is sent, in place of the legacy one.
pub(crate) fn is_modern(
    server_api_given: bool,
    load_balanced: Option<bool>,
    hello_ok: Option<bool>,
) -> bool
    ensures { result ≡ (server_api_given || unwrap_or load_balanced false || unwrap_or hello_ok false) }
{
    server_api_given || load_balanced.unwrap_or(false) || hello_ok.unwrap_or(false)
}

// The name of the command.
pub(crate) fn hello_name(modern: bool) -> &'static str
    ensures name { result.now ≡ hello_name modern }
    ensures named { ¬ Contains result.now 0 }
{
    if modern {
        HELLO_COMMAND_NAME
    } else {
        LEGACY_HELLO_COMMAND_NAME
    }
}

// The body of a hello.
pub(crate) fn hello_body(
    alloc: Global,
    modern: bool,
    hello_ok: Option<bool>,
    awaitable: Option<AwaitableHelloOptions>,
) -> Result<RawDocumentBuf, BsonFault>
    ensures body { IfOk result (λ body. body ≡ document_of (named_elements modern hello_ok awaitable)) }
    ensures refused { IfErr result (λ fault. fault ≡ BsonFault.OutOfMemory) }
{
    let topology_version = topology_version_document(alloc, awaitable)?;
    let fields = hello_fields(modern, hello_ok, awaitable, &topology_version);
    document_of(alloc, &fields)
}

// The fields of a hello in their order.
fn hello_fields<'a>(
    modern: bool,
    hello_ok: Option<bool>,
    awaitable: Option<AwaitableHelloOptions>,
    topology_version: &'a Option<RawDocumentBuf>,
) -> [ArgumentField<'a>; 5]
    requires { topology_version.now ≡ option_map topology_version_document awaitable }
    ensures elements { flat_map field_elements result ≡ named_elements modern hello_ok awaitable }
    ensures named { AllByRecursion IsNamed result }
{
    [
        int32_field(hello_name(modern), 1),
        optional_boolean_field(HELLO_OK, asked_hello_ok(modern, hello_ok)),
        text_field("backpressure", "2"),
        optional_document_field(TOPOLOGY_VERSION, topology_version),
        optional_int64_field("maxAwaitTimeMS", await_time(awaitable)),
    ]
}

// What a hello says of `helloOk`.
fn asked_hello_ok(modern: bool, hello_ok: Option<bool>) -> Option<bool>
    ensures { result ≡ asked_hello_ok modern hello_ok }
{
    if !modern && hello_ok.is_none() {
        Some(true)
    } else {
        None
    }
}

// How long the server may wait, in milliseconds, where it is to wait.
fn await_time(awaitable: Option<AwaitableHelloOptions>) -> Option<i64>
    ensures { result ≡ option_map await_time awaitable }
{
    let options = awaitable?;
    match i64::try_from(options.max_await_time_ms) {
        Ok(milliseconds) => Some(milliseconds),
        Err(_) => Some(i64::MAX),
    }
}

// The document of the state that the server is to go past, where it is to wait.
fn topology_version_document(
    alloc: Global,
    awaitable: Option<AwaitableHelloOptions>,
) -> Result<Option<RawDocumentBuf>, BsonFault>
    ensures document { IfOk result (λ document. document ≡ option_map topology_version_document awaitable) }
    ensures short { OnOk result (IfSome awaitable (λ options. length (topology_version_document options) < 2 ^ 8)) }
    ensures refused { IfErr result (λ fault. fault ≡ BsonFault.OutOfMemory) }
{
    match awaitable {
        Some(options) => Ok(Some(document_of_version(alloc, options.topology_version)?)),
        None => Ok(None),
    }
}

// The document of a state: the id of the server's process and the counter of its changes.
fn document_of_version(alloc: Global, version: TopologyVersion) -> Result<RawDocumentBuf, BsonFault>
    ensures document { IfOk result (λ document. document ≡ document_of (topology_version_elements version)) }
    ensures short { IfOk result (λ document. length document < 2 ^ 8) }
    ensures refused { IfErr result (λ fault. fault ≡ BsonFault.OutOfMemory) }
{
    let fields = version_fields(version);
    document_of(alloc, &fields)
}

// The fields of a state in their order.
fn version_fields(version: TopologyVersion) -> [ArgumentField<'static>; 2]
    ensures elements { flat_map field_elements result ≡ topology_version_elements version }
    ensures named { AllByRecursion IsNamed result }
{
    [
        Some((PROCESS_ID, RawValue::ObjectId(version.process_id))),
        int64_field(COUNTER, version.counter),
    ]
}
