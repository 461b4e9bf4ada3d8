//! What a client asks for: a command, by the first key of its document.

ghost use Rattle.std.specs.Prelude.{◌≡◌, ◌↔◌, ℕ, List, MatchOption, IsTrue};
ghost use Rattle.mongo_sasl.specs.Keys.{conversation_id_key, sasl_start_key};
ghost use Rattle.mongo_server.specs.Announced.{conversation_id};
ghost use Rattle.mongo_session.specs.ServeSettings.{scram_version_of, version_named};
ghost use Rattle.mongo_session.specs.Requests.{AsksMechanismsOf, CarriesLogin, HasPayload, IsCommandName, IsCommandNamed, name_without_database, SaysRequest, SaysStart, SaysVersion, SkipsEmptyExchange};
ghost use Rattle.mongo_session.specs.Values.{binary_bytes, HasInside, HasInt32, HasText, HasTrue, HoldsIfAny, inner_of, IsInt32, IsTrueBoolean, StandsAt, string_of};

use crate::command_names::{BUILD_INFO, BUILD_INFO_LOWERCASE, END_SESSIONS, PING};
use mongo_bson::{RawDocument, RawValue, first_key};
use mongo_command::keys::{SASL_SUPPORTED_MECHS, SPECULATIVE_AUTHENTICATE};
use mongo_command::{
    HELLO_COMMAND_NAME, LEGACY_HELLO_COMMAND_NAME, LEGACY_HELLO_COMMAND_NAME_LOWERCASE,
};
use mongo_sasl::AuthMechanism;
use mongo_sasl::keys::{
    CONVERSATION_ID, MECHANISM, OPTIONS, PAYLOAD, SASL_CONTINUE, SASL_START, SKIP_EMPTY_EXCHANGE,
};
use mongo_scram::ScramVersion;
use mongo_server::CONVERSATION_NUMBER;

/// A command that a client asks for. What is borrowed lies in its document.
#[derive(Clone, Copy)]
pub enum Request<'a> {
    /// `hello`, and `isMaster` or `ismaster`, its legacy names.
    Hello(Hello<'a>),
    /// `saslStart`: a login begins.
    SaslStart(StartRequest<'a>),
    /// `saslContinue`: a login goes on.
    SaslContinue(ContinueRequest<'a>),
    /// `ping`.
    Ping,
    /// `buildInfo` or `buildinfo`.
    BuildInfo,
    /// `endSessions`.
    EndSessions,
    /// Another command, by its name; no name where the document has no first key.
    Other(&'a str),
}

/// What a hello asks for.
#[derive(Clone, Copy)]
pub struct Hello<'a> {
    /// Whether it is asked for by a legacy name.
    pub is_legacy: bool,
    /// The user whose mechanisms are asked for, without the database before it.
    pub mechanisms_of: Option<&'a str>,
    /// The login that begins with it.
    pub speculation: Option<StartRequest<'a>>,
}

/// What a `saslStart` asks for.
#[derive(Clone, Copy)]
pub struct StartRequest<'a> {
    /// The mechanism, where it is one that is spoken here.
    pub version: Option<ScramVersion>,
    /// The client's first message.
    pub payload: Option<&'a [u8]>,
    /// Whether the login ends with the server's last message, with no empty exchange after it.
    pub skips_empty_exchange: bool,
}

/// What a `saslContinue` asks for.
#[derive(Clone, Copy)]
pub struct ContinueRequest<'a> {
    /// Whether it goes on with the conversation that this server numbers 1.
    pub is_of_conversation: bool,
    /// The client's next message.
    pub payload: Option<&'a [u8]>,
}

/// What a document asks for. It takes no memory.
pub fn request_of<'a>(document: RawDocument<'a>) -> Request<'a>
    ensures { SaysRequest document.entry.bytes.now result }
{
    match command_name(document) {
        HELLO_COMMAND_NAME => Request::Hello(hello_request_of(document, false)),
        LEGACY_HELLO_COMMAND_NAME => Request::Hello(hello_request_of(document, true)),
        LEGACY_HELLO_COMMAND_NAME_LOWERCASE => Request::Hello(hello_request_of(document, true)),
        SASL_START => Request::SaslStart(start_request_of(document)),
        SASL_CONTINUE => Request::SaslContinue(continue_request_of(document)),
        PING => Request::Ping,
        BUILD_INFO => Request::BuildInfo,
        BUILD_INFO_LOWERCASE => Request::BuildInfo,
        END_SESSIONS => Request::EndSessions,
        name => Request::Other(name),
    }
}

/// The key of the document's first element; empty where there is none.
pub fn command_name<'a>(document: RawDocument<'a>) -> &'a str
    ensures { IsCommandName document.entry.bytes.now result.now }
{
    match first_key(document) {
        Ok(Some(name)) => name,
        _ => "",
    }
}

fn hello_request_of<'a>(document: RawDocument<'a>, is_legacy: bool) -> Hello<'a>
    ensures legacy { result.is_legacy ≡ is_legacy }
    ensures mechanisms { HoldsIfAny (AsksMechanismsOf document.entry.bytes.now) result.mechanisms_of }
    ensures speculation { CarriesLogin document.entry.bytes.now result.speculation }
{
    Hello {
        is_legacy,
        mechanisms_of: user_asked_of(document),
        speculation: carried_start(document),
    }
}

// The user whose mechanisms are asked for.
fn user_asked_of<'a>(document: RawDocument<'a>) -> Option<&'a str>
    ensures { HoldsIfAny (AsksMechanismsOf document.entry.bytes.now) result }
{
    match text_value(document, SASL_SUPPORTED_MECHS) {
        Some(user) => Some(name_without_database(user)),
        None => None,
    }
}

// The login that a hello carries.
fn carried_start<'a>(document: RawDocument<'a>) -> Option<StartRequest<'a>>
    ensures { CarriesLogin document.entry.bytes.now result }
{
    match inner_document(document, SPECULATIVE_AUTHENTICATE) {
        Some(inner) => speculation_of(inner),
        None => None,
    }
}

// The login that a document begins, where it is a `saslStart`.
fn speculation_of<'a>(document: RawDocument<'a>) -> Option<StartRequest<'a>>
    ensures { MatchOption result (IsCommandNamed document.entry.bytes.now sasl_start_key → ⊥) (SaysStart document.entry.bytes.now) }
{
    match command_name(document) {
        SASL_START => Some(start_request_of(document)),
        _ => None,
    }
}

// What stands behind the first dot, or the whole name where there is none.
fn name_without_database(user: &str) -> &str
    ensures { result.now ≡ name_without_database user.now }
{
    match user.split_once('.') {
        Some((_database, name)) => name,
        None => user,
    }
}

fn start_request_of<'a>(document: RawDocument<'a>) -> StartRequest<'a>
    ensures version { SaysVersion document.entry.bytes.now result.version }
    ensures message { HoldsIfAny (HasPayload document.entry.bytes.now) result.payload }
    ensures skips { IsTrue result.skips_empty_exchange ↔ SkipsEmptyExchange document.entry.bytes.now }
{
    StartRequest {
        version: requested_version(document),
        payload: payload_of(document),
        skips_empty_exchange: skips_empty_exchange(document),
    }
}

// The version of SCRAM that the mechanism names.
fn requested_version(document: RawDocument<'_>) -> Option<ScramVersion>
    ensures { SaysVersion document.entry.bytes.now result }
{
    match text_value(document, MECHANISM) {
        Some(name) => version_named(name),
        None => None,
    }
}

// Whether the options ask for no empty exchange at the end.
fn skips_empty_exchange(document: RawDocument<'_>) -> bool
    ensures { IsTrue result ↔ SkipsEmptyExchange document.entry.bytes.now }
{
    match inner_document(document, OPTIONS) {
        Some(options) => is_true_in(options, SKIP_EMPTY_EXCHANGE),
        None => false,
    }
}

fn continue_request_of<'a>(document: RawDocument<'a>) -> ContinueRequest<'a>
    ensures conversation { IsTrue result.is_of_conversation ↔ HasInt32 document.entry.bytes.now conversation_id_key conversation_id }
    ensures message { HoldsIfAny (HasPayload document.entry.bytes.now) result.payload }
{
    ContinueRequest {
        is_of_conversation: is_int32_in(document, CONVERSATION_ID, CONVERSATION_NUMBER),
        payload: payload_of(document),
    }
}

/// The version of SCRAM that a mechanism names.
pub fn version_named(name: &str) -> Option<ScramVersion>
    ensures { result ≡ version_named name.now }
{
    match name.parse::<AuthMechanism>() {
        Ok(mechanism) => scram_version_of(mechanism),
        Err(_) => None,
    }
}

// The version of SCRAM by which the mechanism logs in.
fn scram_version_of(mechanism: AuthMechanism) -> Option<ScramVersion>
    ensures { result ≡ scram_version_of mechanism }
{
    match mechanism {
        AuthMechanism::ScramSha1 => Some(ScramVersion::Sha1),
        AuthMechanism::ScramSha256 => Some(ScramVersion::Sha256),
        _ => None,
    }
}

// The bytes of the binary that is the document's `payload`.
fn payload_of<'a>(document: RawDocument<'a>) -> Option<&'a [u8]>
    ensures { HoldsIfAny (HasPayload document.entry.bytes.now) result }
{
    match value_at(document, PAYLOAD) {
        Some(value) => binary_bytes(value),
        None => None,
    }
}

/// The document of a key.
pub fn inner_document<'a>(document: RawDocument<'a>, key: &str) -> Option<RawDocument<'a>>
    ensures { MatchOption result ((inner : List ℕ) → HasInside document.entry.bytes.now key.now inner → ⊥) (λ inner. HasInside document.entry.bytes.now key.now inner.bytes.now) }
{
    match value_at(document, key) {
        Some(value) => inner_of(value),
        None => None,
    }
}

fn text_value<'a>(document: RawDocument<'a>, key: &str) -> Option<&'a str>
    ensures { HoldsIfAny (HasText document.entry.bytes.now key.now) result }
{
    match value_at(document, key) {
        Some(value) => string_of(value),
        None => None,
    }
}

fn is_true_in(document: RawDocument<'_>, key: &str) -> bool
    ensures { IsTrue result ↔ HasTrue document.entry.bytes.now key.now }
{
    match value_at(document, key) {
        Some(value) => is_true_boolean(value),
        None => false,
    }
}

// Whether the value of a key is the int32 of this number.
fn is_int32_in(document: RawDocument<'_>, key: &str, number: i32) -> bool
    ensures { IsTrue result ↔ HasInt32 document.entry.bytes.now key.now number }
{
    match value_at(document, key) {
        Some(value) => is_int32(value, number),
        None => false,
    }
}

// The value of a key; none where the document has none, or breaks off before it.
fn value_at<'a>(document: RawDocument<'a>, key: &str) -> Option<RawValue<'a>>
    ensures { StandsAt document.entry.bytes.now key.now result }
{
    match document.get(key) {
        Ok(found) => found,
        Err(_) => None,
    }
}

fn string_of<'a>(value: RawValue<'a>) -> Option<&'a str>
    ensures { result ≡ string_of value.entry }
{
    match value {
        RawValue::Str(text) => Some(text),
        _ => None,
    }
}

fn binary_bytes<'a>(value: RawValue<'a>) -> Option<&'a [u8]>
    ensures { result ≡ binary_bytes value.entry }
{
    match value {
        RawValue::Binary(_subtype, bytes) => Some(bytes),
        _ => None,
    }
}

fn inner_of<'a>(value: RawValue<'a>) -> Option<RawDocument<'a>>
    ensures { result ≡ inner_of value.entry }
{
    match value {
        RawValue::Document(inner) => Some(inner),
        _ => None,
    }
}

fn is_true_boolean(value: RawValue<'_>) -> bool
    ensures { IsTrue result ↔ IsTrueBoolean value.entry }
{
    match value {
        RawValue::Bool(boolean) => boolean,
        _ => false,
    }
}

fn is_int32(value: RawValue<'_>, number: i32) -> bool
    ensures { IsTrue result ↔ IsInt32 number value.entry }
{
    match value {
        RawValue::Int32(given) => given == number,
        _ => false,
    }
}
