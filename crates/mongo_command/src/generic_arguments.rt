ghost use Rattle.std.specs.Prelude.{◌≡◌, ◌++◌, flat_map, option_map, option_and_then, IfOk, IfErr, OnOk};
ghost use Rattle.std.specs.List.{AllByRecursion};
ghost use Rattle.mongo_bson.specs.Framed.{IsFramed, element_bytes, enclosed};
ghost use Rattle.mongo_bson.specs.Document.{spell};
ghost use Rattle.mongo_command.specs.Command.{carried_elements, argument_elements, read_concern_document};
ghost use Rattle.mongo_command.specs.Arguments.{field_elements, IsNamed, TooLongFor};

use crate::ServerApi;
use crate::argument_field::{
    ArgumentField, optional_boolean_field, optional_document_field, optional_int64_field,
    optional_version_field, optional_write_concern_field,
};
use crate::arguments::{append_arguments, copy_with_room, size_of_arguments};
use crate::copies::{both, copies_of};
use crate::keys::CLUSTER_TIME;
use crate::read_concern::ReadConcern;
use mongo_bson::{BsonFault, RawDocumentBuf};
use std::alloc::Global;

// The fields that a command of any name can carry beside its body, in the order in which they are sent.
#[derive(Debug, Default)]
pub(crate) struct GenericArguments {
    // the session (`lsid`)
    pub(crate) lsid: Option<RawDocumentBuf>,
    // the newest cluster time that is known (`$clusterTime`)
    pub(crate) cluster_time: Option<RawDocumentBuf>,
    // `apiVersion`, `apiStrict`, `apiDeprecationErrors`
    pub(crate) server_api: Option<ServerApi>,
    // `$readPreference`
    pub(crate) read_preference: Option<RawDocumentBuf>,
    // the number of the transaction, or of the write that may be sent again (`txnNumber`)
    pub(crate) txn_number: Option<i64>,
    // `startTransaction`
    pub(crate) start_transaction: Option<bool>,
    // `autocommit`
    pub(crate) autocommit: Option<bool>,
    // `readConcern`
    pub(crate) read_concern: Option<ReadConcern>,
    // `writeConcern`
    pub(crate) write_concern: Option<RawDocumentBuf>,
    // what a router needs to find a transaction again (`recoveryToken`)
    pub(crate) recovery_token: Option<RawDocumentBuf>,
}

// Dropped by a call, so that the proofs of its owners don't walk through its parts.
impl Drop for GenericArguments {
    fn drop(self) {
        let GenericArguments {
            lsid: _,
            cluster_time: _,
            server_api: _,
            read_preference: _,
            txn_number: _,
            start_transaction: _,
            autocommit: _,
            read_concern: _,
            write_concern: _,
            recovery_token: _,
        } = self;
    }
}

impl GenericArguments {
    // The document of a command: the elements of its body, `$db` and the arguments that are there. Its memory is taken at
    // once.
    pub(crate) fn document_with(
        &self,
        alloc: Global,
        target_db: &str,
        body: &RawDocumentBuf,
    ) -> Result<RawDocumentBuf, BsonFault>
        ensures document { IfOk result (λ document. document ≡ enclosed (element_bytes body.now ++ flat_map spell (argument_elements target_db.now self.now))) }
        ensures framed { IfOk result (λ document. IsFramed document) }
        ensures refused { IfErr result (λ fault. TooLongFor fault (enclosed (element_bytes body.now ++ flat_map spell (argument_elements target_db.now self.now)))) }
    {
        let read_concern = self.read_concern_document(alloc)?;
        let fields = self.fields(&read_concern);
        let room = size_of_arguments(target_db, &fields);
        let mut document = copy_with_room(alloc, body, room)?;
        append_arguments(&mut document, target_db, &fields)?;
        Ok(document)
    }

    // Puts `$db` and the arguments that are there at the end of a body, which takes memory for all of them at once.
    pub(crate) fn append_to(
        &self,
        alloc: Global,
        target_db: &str,
        body: &mut RawDocumentBuf,
    ) -> Result<(), BsonFault>
        ensures document { OnOk result (body.new ≡ enclosed (element_bytes body.old ++ flat_map spell (argument_elements target_db.now self.now))) }
        ensures framed { OnOk result (IsFramed body.new) }
        ensures refused { IfErr result (λ fault. TooLongFor fault (enclosed (element_bytes body.old ++ flat_map spell (argument_elements target_db.now self.now)))) }
    {
        let read_concern = self.read_concern_document(alloc)?;
        let fields = self.fields(&read_concern);
        let room = size_of_arguments(target_db, &fields);
        body.reserve_exact(room)?;
        append_arguments(body, target_db, &fields)
    }

    // The arguments but `$db`, in their order. `$db` comes before them: it is always there, and as it is put in, any body
    // becomes a document that fields can be put behind.
    fn fields<'a>(&'a self, read_concern: &'a Option<RawDocumentBuf>) -> [ArgumentField<'a>; 12]
        requires { read_concern.now ≡ option_map read_concern_document self.now.read_concern }
        ensures elements { flat_map field_elements result ≡ carried_elements self.now }
        ensures named { AllByRecursion IsNamed result }
    {
        [
            optional_document_field("lsid", &self.lsid),
            optional_document_field(CLUSTER_TIME, &self.cluster_time),
            optional_version_field(self.server_api),
            optional_boolean_field("apiStrict", strict_of(self.server_api)),
            optional_boolean_field(
                "apiDeprecationErrors",
                deprecation_errors_of(self.server_api),
            ),
            optional_document_field("$readPreference", &self.read_preference),
            optional_int64_field("txnNumber", self.txn_number),
            optional_boolean_field("startTransaction", self.start_transaction),
            optional_boolean_field("autocommit", self.autocommit),
            optional_document_field("readConcern", read_concern),
            optional_write_concern_field(&self.write_concern),
            optional_document_field("recoveryToken", &self.recovery_token),
        ]
    }

    // The document of the read concern, where there is one.
    fn read_concern_document(&self, alloc: Global) -> Result<Option<RawDocumentBuf>, BsonFault>
        ensures document { IfOk result (λ document. document ≡ option_map read_concern_document self.now.read_concern) }
        ensures refused { IfErr result (λ fault. TooLongFor fault (flat_map spell (carried_elements self.now))) }
    {
        match &self.read_concern {
            Some(concern) => Ok(Some(concern.to_document(alloc)?)),
            None => Ok(None),
        }
    }
}

impl GenericArguments {
    // A copy of the arguments.
    pub(crate) fn try_clone(&self, alloc: Global) -> Result<GenericArguments, BsonFault>
        ensures copied { IfOk result (λ arguments. arguments ≡ self.now) }
        ensures refused { IfErr result (λ fault. fault ≡ BsonFault.OutOfMemory) }
    {
        let session = copies_of(alloc, &self.lsid, &self.cluster_time, &self.read_preference);
        let concerns = copies_of(
            alloc,
            &self.read_concern,
            &self.write_concern,
            &self.recovery_token,
        );
        let (session, concerns) = both(session, concerns)?;
        let (lsid, cluster_time, read_preference) = session;
        let (read_concern, write_concern, recovery_token) = concerns;
        Ok(GenericArguments {
            lsid,
            cluster_time,
            server_api: self.server_api,
            read_preference,
            txn_number: self.txn_number,
            start_transaction: self.start_transaction,
            autocommit: self.autocommit,
            read_concern,
            write_concern,
            recovery_token,
        })
    }
}

// What a server API says of `apiStrict`.
fn strict_of(server_api: Option<ServerApi>) -> Option<bool>
    ensures { result ≡ option_and_then (λ api. api.strict) server_api }
{
    match server_api {
        Some(api) => api.strict,
        None => None,
    }
}

// What a server API says of `apiDeprecationErrors`.
fn deprecation_errors_of(server_api: Option<ServerApi>) -> Option<bool>
    ensures { result ≡ option_and_then (λ api. api.deprecation_errors) server_api }
{
    match server_api {
        Some(api) => api.deprecation_errors,
        None => None,
    }
}
