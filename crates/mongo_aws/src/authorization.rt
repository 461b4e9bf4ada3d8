// The signature, and the header that it goes in (AWS Signature Version 4, "Create a string to sign", "Calculate the signature" and "Add
// the signature to the request").

ghost use Rattle.std.specs.Prelude.{◌≡◌, IfOk, IfErr, option_copied, string_bytes};
ghost use Rattle.mongo_wire.specs.declared.error.ErrorKind.TheVariants.{OutOfMemory};
ghost use Rattle.mongo_aws.specs.CanonicalRequest.{headers_in};
ghost use Rattle.mongo_aws.specs.Date.{day_of};
ghost use Rattle.mongo_aws.specs.Scope.{scope};
ghost use Rattle.mongo_aws.specs.SigV4.{authorization, header_text, signature, string_to_sign};

use crate::ascii::ascii;
use crate::canonical_request::{Request, canonical_request_hash, signed_headers};
use crate::key::{SCOPE_END, hmac_sha256, signing_key};
use mongo_bson::Text;
use mongo_wire::Error;
use std::alloc::Global;

// The algorithm.
const ALGORITHM: &str = "AWS4-HMAC-SHA256";

// The Security Token Service.
const SERVICE: &str = "sts";

/// What a request is signed with and for.
#[derive(Clone, Copy, Drop)]
pub(crate) struct Signer<'a> {
    /// The access key.
    pub access_key: &'a str,
    /// The secret key.
    pub secret_key: &'a str,
    /// The day of the request's date.
    pub day: &'a str,
    /// The region of the request's host.
    pub region: &'a str,
}

/// The header `Authorization` of a request.
pub(crate) fn authorization(
    alloc: Global,
    signer: &Signer<'_>,
    request: &Request<'_>,
) -> Result<Text, Error>
    requires { signer.now.day.now ≡ day_of request.now.date.now }
    ensures header { IfOk result (λ text. text ≡ authorization signer.now.access_key.now signer.now.secret_key.now request.now.date.now signer.now.region.now (headers_in request.now)) }
    ensures refused { IfErr result (λ e. e.kind ≡ OutOfMemory) }
{
    let scope = scope_of(alloc, signer)?;
    let signature = signature(alloc, signer, &scope, request)?;
    header_text(
        alloc,
        signer.access_key,
        scope.as_str(),
        signed_headers(request.token),
        signature.as_str(),
    )
}

// The header of its values.
fn header_text(
    alloc: Global,
    access_key: &str,
    credential_scope: &str,
    names: &str,
    signature: &str,
) -> Result<Text, Error>
    ensures text { IfOk result (λ text. text ≡ header_text access_key.now credential_scope.now names.now signature.now) }
    ensures refused { IfErr result (λ e. e.kind ≡ OutOfMemory) }
{
    let mut header = Text::from_slice(alloc, ALGORITHM)?;
    header.push_str(" Credential=")?;
    header.push_str(access_key)?;
    header.push_str("/")?;
    header.push_str(credential_scope)?;
    header.push_str(", SignedHeaders=")?;
    header.push_str(names)?;
    header.push_str(", Signature=")?;
    header.push_str(signature)?;
    Ok(header)
}

// What the signature holds for.
fn scope_of(alloc: Global, signer: &Signer<'_>) -> Result<Text, Error>
    ensures scope { IfOk result (λ text. text ≡ scope signer.now.day.now signer.now.region.now) }
    ensures refused { IfErr result (λ e. e.kind ≡ OutOfMemory) }
{
    let mut scope = Text::from_slice(alloc, signer.day)?;
    scope.push_str("/")?;
    scope.push_str(signer.region)?;
    scope.push_str("/")?;
    scope.push_str(SERVICE)?;
    scope.push_str("/")?;
    scope.push_str(SCOPE_END)?;
    Ok(scope)
}

// The signature, in lower-case hex.
#[tactic(auto, unfolding(crate::specs::SigV4::signature))]
fn signature(
    alloc: Global,
    signer: &Signer<'_>,
    credential_scope: &Text,
    request: &Request<'_>,
) -> Result<String, Error>
    requires day { signer.now.day.now ≡ day_of request.now.date.now }
    requires scope { credential_scope.now ≡ scope signer.now.day.now signer.now.region.now }
    ensures signature { IfOk result (λ text. string_bytes text ≡ signature signer.now.secret_key.now request.now.date.now signer.now.region.now (headers_in request.now)) }
    ensures refused { IfErr result (λ e. e.kind ≡ OutOfMemory) }
{
    let text = string_to_sign(alloc, credential_scope, request)?;
    let key = signing_key(alloc, signer.secret_key, signer.day, signer.region, SERVICE)?;
    let signature = hmac_sha256(key.as_bytes(), text.as_str());
    let hex = hex::encode(alloc, signature.as_bytes())?;
    Ok(hex)
}

// StringToSign.
fn string_to_sign(
    alloc: Global,
    credential_scope: &Text,
    request: &Request<'_>,
) -> Result<Text, Error>
    ensures text { IfOk result (λ text. text ≡ string_to_sign credential_scope.now request.now.date.now (headers_in request.now)) }
    ensures refused { IfErr result (λ e. e.kind ≡ OutOfMemory) }
{
    let hash = canonical_request_hash(request);
    let mut text = Text::from_slice(alloc, ALGORITHM)?;
    text.push_str("\n")?;
    text.push_str(request.date)?;
    text.push_str("\n")?;
    text.push_str(credential_scope.as_str())?;
    text.push_str("\n")?;
    text.push_str(ascii(&hash))?;
    Ok(text)
}
