ghost use Rattle.std.specs.Prelude.{◌≡◌, ℕ, List, option_copied, IfOk, IfErr, OnOk};
ghost use Rattle.std.specs.Str.{IsAscii};
ghost use Rattle.mongo_command.specs.Exchange.{DocumentRefused};
ghost use Rattle.mongo_aws.specs.Base64.{base64_of};
ghost use Rattle.mongo_sasl.specs.Moment.{milliseconds_of};
ghost use Rattle.mongo_aws.specs.SigV4.{Signed, CanSign, SigningRow, SigningRefused, signed_document, message};

use crate::ascii::ascii;
use crate::authorization::{Signer, authorization};
use crate::base64_text::encoded;
use crate::canonical_request::Request;
use crate::credentials::are_visible;
use crate::date::{DAY_LENGTH, date_of};
use crate::keys::{AUTHORIZATION, DATE, TOKEN};
use crate::sts_host::{has_host_characters, region_of};
use mongo_bson::{RawDocumentBuf, Text};
use mongo_command::{document_of, optional_text_field, text_field};
use mongo_sasl::{AwsCredentials, Moment, refused};
use mongo_wire::{AuthFault, Error};
use std::alloc::Global;

/// The client's second message, `{a, d}`, and `t` with a session token: the header `Authorization` of the request to STS at `host`
/// that asks who its sender is, with the server's nonce among its signed headers; the request's date, the second of `date` in UTC; the
/// session token.
///
/// Refusals, in this order: `AwsHostCharacter` where the host has another character than letters and digits of ASCII, `-`, `_` and
/// `.`; `AwsCredentialCharacter` where the access key, the secret key or the session token is empty or has another character than
/// visible ones of ASCII (33 to 126); `Bson(TooLong)` where the message would pass 2147483647 bytes.
pub fn compute_aws_sigv4_payload(
    alloc: Global,
    creds: &AwsCredentials,
    date: Moment,
    host: &str,
    server_nonce: &[u8],
) -> Result<RawDocumentBuf, Error>
    ensures signed { IfOk result (Signed creds.now (milliseconds_of date) host.now server_nonce.now) }
    ensures signable { OnOk result (CanSign creds.now host.now) }
    ensures refused { IfErr result (λ e. SigningRefused creds.now (milliseconds_of date) host.now server_nonce.now e.kind) }
{
    check_signable(creds, host)?;
    let date = date_of(date);
    let nonce = encoded(alloc, server_nonce)?;
    signed_payload(alloc, creds, &date, host, nonce.as_str())
}

// Whether the host and the credentials can be signed with.
fn check_signable(credentials: &AwsCredentials, host: &str) -> Result<(), Error>
    ensures signable { OnOk result (CanSign credentials.now host.now) }
    ensures refused { IfErr result (λ e. SigningRow credentials.now host.now e.kind) }
{
    if !has_host_characters(host) {
        return Err(refused(AuthFault::AwsHostCharacter));
    }
    if !are_visible(credentials) {
        return Err(refused(AuthFault::AwsCredentialCharacter));
    }
    Ok(())
}

// The message of a date and of the base64 text of the server's nonce.
fn signed_payload<'x>(
    alloc: Global,
    credentials: &'x AwsCredentials,
    date: &'x [u8; 16],
    host: &'x str,
    nonce: &'x str,
) -> Result<RawDocumentBuf, Error>
    requires { IsAscii date.now }
    ensures signed { (server_nonce : List ℕ) → nonce.now ≡ base64_of server_nonce → IfOk result (λ payload. payload ≡ signed_document credentials.now date.now host.now server_nonce) }
    ensures refused { (server_nonce : List ℕ) → nonce.now ≡ base64_of server_nonce → IfErr result (λ e. DocumentRefused e.kind (signed_document credentials.now date.now host.now server_nonce)) }
{
    let request = Request {
        host,
        date: ascii(date),
        token: token_of(credentials),
        nonce,
    };
    let signer = Signer {
        access_key: credentials.access_key.as_str(),
        secret_key: credentials.secret_key.as_str(),
        day: ascii(&date[..DAY_LENGTH]),
        region: region_of(host),
    };
    let header = authorization(alloc, &signer, &request)?;
    payload_of(alloc, &header, request.date, &credentials.session_token)
}

// The session token, where there is one.
fn token_of(credentials: &AwsCredentials) -> Option<&str>
    ensures { option_copied result ≡ credentials.now.session_token }
{
    match &credentials.session_token {
        Some(token) => Some(token.as_str()),
        None => None,
    }
}

// The message of a header, a date, and a session token where there is one.
fn payload_of<'x>(
    alloc: Global,
    header: &'x Text,
    date: &'x str,
    token: &'x Option<Text>,
) -> Result<RawDocumentBuf, Error>
    ensures message { IfOk result (λ payload. payload ≡ message header.now date.now token.now) }
    ensures refused { IfErr result (λ e. DocumentRefused e.kind (message header.now date.now token.now)) }
{
    let header = text_field(AUTHORIZATION, header.as_str());
    let date = text_field(DATE, date);
    let token = optional_text_field(TOKEN, token);
    let payload = document_of(alloc, &[header, date, token])?;
    Ok(payload)
}
