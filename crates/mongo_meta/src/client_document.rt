ghost use Rattle.std.specs.Prelude.{◌≡◌, ◌≤◌, [], ◌∷◌, length, option_map, IsSomeAnd, IfOk, IfErr, OnOk};
ghost use Rattle.mongo_bson.specs.Framed.{maximum_length};
ghost use Rattle.mongo_command.specs.Arguments.{TooLongFor};
ghost use Rattle.mongo_meta.specs.Metadata.{metadata_document, document_of_parts, application_document, os_document, environment_document};
ghost use Rattle.mongo_meta.specs.Client.{fits, fitting, in_form};

use crate::ClientMetadata;
use crate::form::Form;
use crate::text_fields::owned_text_field;
use mongo_bson::{BsonFault, RawDocumentBuf, Text};
use mongo_command::{document_field, document_of, optional_document_field};
use mongo_wire::Error;
use std::alloc::Global;

// The maximum of a hello's body, the key and the metadata together, in bytes. It is stricter than the handshake specification, which
// bounds the document under `client` alone by 512 bytes.
const MAX_HELLO_SIZE: usize = 512;

// What an element of the key `client` has beside its document: a kind byte, the key and its zero.
const KEY_SIZE: usize = 8;

impl ClientMetadata {
    ghost use Rattle.mongo_command.specs.Exchange.{DocumentRefused};
    ghost use Rattle.mongo_meta.specs.Client.{client_of};

    /// The document of all that there is.
    ///
    /// `Bson(TooLong)` where it would pass 2147483647 bytes.
    pub fn to_document(&self, alloc: Global) -> Result<RawDocumentBuf, Error>
        ensures document { IfOk result (λ document. document ≡ metadata_document self.now) }
        ensures fits { OnOk result (length (metadata_document self.now) ≤ maximum_length) }
        ensures refused { IfErr result (λ e. DocumentRefused e.kind (metadata_document self.now)) }
    {
        Ok(self.document_in(alloc, Form::Whole)?)
    }

    /// The document that a hello carries whose body has so many bytes before it: the first of five forms with which body,
    /// key and document have 512 bytes at most, or else the last. The forms are the whole; `env` with its name alone; `os`
    /// with its type alone too; no `env`; and with all that the short text of the platform.
    ///
    /// `Bson(TooLong)` where that document would pass 2147483647 bytes. Each form is built once at most.
    #[tactic(auto, unfolding(crate::specs::Client::client_of))]
    pub fn client_document(&self, alloc: Global, body_len: usize) -> Result<RawDocumentBuf, Error>
        ensures document { IfOk result (λ document. document ≡ client_of self.now body_len) }
        ensures fits { OnOk result (length (client_of self.now body_len) ≤ maximum_length) }
        ensures refused { IfErr result (λ e. DocumentRefused e.kind (client_of self.now body_len)) }
    {
        let longer = [
            Form::Whole,
            Form::EnvironmentName,
            Form::OsType,
            Form::NoEnvironment,
        ];
        match first_fitting(alloc, self, &longer, body_len)? {
            Some(document) => Ok(document),
            None => Ok(self.document_in(alloc, Form::ShortPlatform)?),
        }
    }

    // The document of a form.
    fn document_in(&self, alloc: Global, form: Form) -> Result<RawDocumentBuf, BsonFault>
        ensures document { IfOk result (λ document. document ≡ metadata_document (in_form form self.now)) }
        ensures refused { IfErr result (λ fault. TooLongFor fault (metadata_document (in_form form self.now))) }
    {
        let application = self.application_document(alloc)?;
        let driver = self.driver.document(alloc)?;
        let os = self.os_in(alloc, form)?;
        let env = self.environment_in(alloc, form)?;
        joined(
            alloc,
            &application,
            &driver,
            &os,
            self.platform_in(form),
            &env,
        )
    }

    // The document of the application, where there is one.
    fn application_document(&self, alloc: Global) -> Result<Option<RawDocumentBuf>, BsonFault>
        ensures document { IfOk result (λ document. document ≡ option_map application_document self.now.application) }
        ensures refused { IfErr result (λ fault. IsSomeAnd (option_map application_document self.now.application) (TooLongFor fault)) }
    {
        match &self.application {
            Some(application) => Ok(Some(application.document(alloc)?)),
            None => Ok(None),
        }
    }

    // The document of a form's operating system.
    fn os_in(&self, alloc: Global, form: Form) -> Result<RawDocumentBuf, BsonFault>
        ensures document { IfOk result (λ document. document ≡ os_document (in_form form self.now).os) }
        ensures refused { IfErr result (λ fault. TooLongFor fault (os_document (in_form form self.now).os)) }
    {
        match form {
            Form::Whole | Form::EnvironmentName => self.os.document(alloc),
            Form::OsType | Form::NoEnvironment | Form::ShortPlatform => {
                self.os.type_document(alloc)
            }
        }
    }

    // The document of a form's environment, where there is one.
    fn environment_in(&self, alloc: Global, form: Form) -> Result<Option<RawDocumentBuf>, BsonFault>
        ensures document { IfOk result (λ document. document ≡ option_map environment_document (in_form form self.now).env) }
        ensures refused { IfErr result (λ fault. IsSomeAnd (option_map environment_document (in_form form self.now).env) (TooLongFor fault)) }
    {
        let Some(env) = &self.env else {
            return Ok(None);
        };
        match form {
            Form::Whole => Ok(Some(env.document(alloc)?)),
            Form::EnvironmentName | Form::OsType => Ok(Some(env.name_document(alloc)?)),
            Form::NoEnvironment | Form::ShortPlatform => Ok(None),
        }
    }

    // A form's platform.
    fn platform_in(&self, form: Form) -> &Text
        ensures { result.now ≡ (in_form form self.now).platform }
    {
        match form {
            Form::ShortPlatform => &self.platform_short,
            _ => &self.platform,
        }
    }
}

// The document of metadata whose parts these are.
fn joined<'a>(
    alloc: Global,
    application: &'a Option<RawDocumentBuf>,
    driver: &'a RawDocumentBuf,
    os: &'a RawDocumentBuf,
    platform: &'a Text,
    env: &'a Option<RawDocumentBuf>,
) -> Result<RawDocumentBuf, BsonFault>
    ensures document { IfOk result (λ document. document ≡ document_of_parts application.now driver.now os.now platform.now env.now) }
    ensures refused { IfErr result (λ fault. TooLongFor fault (document_of_parts application.now driver.now os.now platform.now env.now)) }
{
    document_of(
        alloc,
        &[
            optional_document_field("application", application),
            document_field("driver", driver),
            document_field("os", os),
            owned_text_field("platform", platform),
            optional_document_field("env", env),
        ],
    )
}

// The first of these forms that fits, or None where none does.
fn first_fitting(
    alloc: Global,
    metadata: &ClientMetadata,
    forms: &[Form],
    body_len: usize,
) -> Result<Option<RawDocumentBuf>, BsonFault>
    ensures found { IfOk result (λ found. found ≡ fitting metadata.now body_len forms.now) }
    ensures refused { IfErr result (λ fault. fault ≡ BsonFault.OutOfMemory) }
{
    for form in forms {
        if let Some(document) = fitting(alloc, metadata, *form, body_len)? {
            return Ok(Some(document));
        }
    }
    Ok(None)
}

// A form, where it fits. One that is too long to be a document doesn't.
fn fitting(
    alloc: Global,
    metadata: &ClientMetadata,
    form: Form,
    body_len: usize,
) -> Result<Option<RawDocumentBuf>, BsonFault>
    ensures found { IfOk result (λ found. found ≡ fitting metadata.now body_len (form ∷ [])) }
    ensures refused { IfErr result (λ fault. fault ≡ BsonFault.OutOfMemory) }
{
    match metadata.document_in(alloc, form) {
        Ok(document) if is_within(body_len, &document) => Ok(Some(document)),
        Ok(_) | Err(BsonFault::TooLong) => Ok(None),
        Err(fault) => Err(fault),
    }
}

// Whether a body, the key and a document have 512 bytes at most.
fn is_within(body_len: usize, document: &RawDocumentBuf) -> bool
    ensures { result ≡ fits body_len document.now }
{
    body_len <= MAX_HELLO_SIZE && body_len + KEY_SIZE + document.as_bytes().len() <= MAX_HELLO_SIZE
}
