// An insert as a row of a table writes it.
//
// A row's words are KEY=VALUE: `count`, `object` and `frame` are the server's limits, and without them the connection has no
// description; `docs` are the documents' sizes, apart by commas, where a document of a size is its length and zeros; `doc` is a
// document and `reply` a reply's document, in hex; `fails` is the number of the link's call that fails; `first` is the first id. `unordered` stands
// alone.
ghost use Rattle.std.specs.Prelude.{◌<◌};

use mongo_bson::{Bytes, Documents, RawDocumentBuf, Text};
use mongo_command::{Connection, ServerAddress, ServerType, StreamDescription};
use mongo_exec::{InsertFault, InsertOutcome, insert_many};
use mongo_wire::{FailingLink, RequestIds};
use std::alloc::Global;
use std::test::Fail;

// What stands between a reply's length and its document, by the OP_MSG specification: a request id, a response-to, the op code
// 2013, no flags and the kind of a body.
const AFTER_LENGTH: &[u8] = b"\x01\0\0\0\0\0\0\0\xdd\x07\0\0\0\0\0\0\0";

// How many bytes a frame has before its document.
const DOCUMENT_START: usize = 21;

// What an insert is made of.
#[derive(Drop)]
pub(crate) struct Job {
    described: bool,
    count: i64,
    object: i64,
    frame: i32,
    documents: Documents,
    ordered: bool,
    replies: Bytes,
    failing: Bytes,
    first_id: i32,
}

// An insert that was made: its answer, and what it left.
#[derive(Drop)]
pub(crate) struct Made {
    pub(crate) answer: Result<InsertOutcome, InsertFault>,
    pub(crate) connection: Connection,
    pub(crate) link: FailingLink,
    pub(crate) ids: RequestIds,
}

impl Made {
    // Inserts a document more over the same connection.
    pub(crate) fn repeat(&mut self, alloc: Global) -> Result<(), Fail> {
        let mut documents = Documents::new(alloc);
        documents.push(document(alloc, 5)?)?;
        self.answer = insert_many(
            alloc,
            &mut self.connection,
            &mut self.link,
            &mut self.ids,
            "d",
            "c",
            &documents,
            true,
        );
        Ok(())
    }
}

impl Job {
    // The insert of a row's words.
    pub(crate) fn of_words(alloc: Global, words: &str) -> Result<Job, Fail> {
        let mut job = Job {
            described: false,
            count: 100_000,
            object: 16_777_216,
            frame: 48_000_000,
            documents: Documents::new(alloc),
            ordered: true,
            replies: Bytes::new(alloc),
            failing: Bytes::new(alloc),
            first_id: 1,
        };
        for word in words.split_whitespace() {
            job.read(alloc, word)?;
        }
        Ok(job)
    }

    // Reads a word of a row.
    fn read(&mut self, alloc: Global, word: &str) -> Result<(), Fail> {
        let (key, value) = word.split_once('=').unwrap_or((word, ""));
        match key {
            "count" => self.count = limit(&mut self.described, value)?,
            "object" => self.object = limit(&mut self.described, value)?,
            "frame" => self.frame = i32::try_from(limit(&mut self.described, value)?)?,
            "docs" => push_documents(alloc, &mut self.documents, value)?,
            "doc" => self.documents.push(spelled(alloc, value)?)?,
            "unordered" => self.ordered = false,
            "reply" => push_reply(alloc, &mut self.replies, value)?,
            "fails" => self.failing = failing_call(alloc, u32::from_str_radix(value, 10)?)?,
            "first" => self.first_id = i32::from_str_radix(value, 10)?,
            _ => return Err(Fail::new(format_args!("no word {word}"))),
        }
        Ok(())
    }

    // Makes the insert, into the collection `c` of the database `d`, over a link that moves so many bytes a call.
    pub(crate) fn make(self, alloc: Global, most: usize) -> Result<Made, Fail>
        requires { 0 < most }
    {
        let mut connection = self.connection(alloc)?;
        let Job {
            documents,
            ordered,
            replies,
            failing,
            first_id,
            ..
        } = self;
        if documents.len() > 1_000 {
            return Err(Fail::new(format_args!("too many documents")));
        }
        let mut link = FailingLink::new(alloc, replies, failing, most);
        let mut ids = RequestIds::new(first_id);
        let answer = insert_many(
            alloc,
            &mut connection,
            &mut link,
            &mut ids,
            "d",
            "c",
            &documents,
            ordered,
        );
        Ok(Made {
            answer,
            connection,
            link,
            ids,
        })
    }

    // A connection to a server of these limits.
    fn connection(&self, alloc: Global) -> Result<Connection, Fail> {
        let mut connection = Connection::new(address(alloc)?, 5);
        if self.described {
            connection.stream_description = Some(StreamDescription {
                server_address: address(alloc)?,
                initial_server_type: ServerType::Standalone,
                max_wire_version: None,
                min_wire_version: None,
                sasl_supported_mechs: None,
                logical_session_timeout: None,
                max_bson_object_size: self.object,
                max_write_batch_size: self.count,
                hello_ok: false,
                max_message_size_bytes: self.frame,
                service_id: None,
            });
        }
        Ok(connection)
    }
}

fn address(alloc: Global) -> Result<ServerAddress, Fail> {
    Ok(ServerAddress::Unix {
        path: Text::from_slice(alloc, "/server.sock")?,
    })
}

// A limit of the server, which is described then.
fn limit(described: &mut bool, value: &str) -> Result<i64, Fail> {
    *described = true;
    Ok(i64::from_str_radix(value, 10)?)
}

// Puts documents of these sizes at the end of a list.
fn push_documents(alloc: Global, documents: &mut Documents, sizes: &str) -> Result<(), Fail> {
    for size in sizes.split(',') {
        documents.push(document(alloc, u32::from_str_radix(size, 10)?)?)?;
    }
    Ok(())
}

// A document of this size: its length and zeros.
fn document(alloc: Global, size: u32) -> Result<RawDocumentBuf, Fail> {
    let mut bytes = Bytes::new(alloc);
    bytes.extend_from_slice(&size.to_le_bytes())?;
    for _ in 4..size {
        bytes.extend_from_slice(&[0])?;
    }
    Ok(RawDocumentBuf::from_bytes(bytes)?)
}

// A document in hex.
fn spelled(alloc: Global, document: &str) -> Result<RawDocumentBuf, Fail> {
    Ok(RawDocumentBuf::from_bytes(Bytes::from_vec(hex::decode(alloc, document)?))?)
}

// Puts the frame of a document at the end of the replies.
fn push_reply(alloc: Global, replies: &mut Bytes, document: &str) -> Result<(), Fail> {
    let document = hex::decode(alloc, document)?;
    let length = u32::try_from(document.len().saturating_add(DOCUMENT_START))?;
    replies.extend_from_slice(&length.to_le_bytes())?;
    replies.extend_from_slice(AFTER_LENGTH)?;
    Ok(replies.extend_from_slice(document.as_slice())?)
}

// A schedule under which just this call fails.
fn failing_call(alloc: Global, call: u32) -> Result<Bytes, Fail> {
    let mut schedule = Bytes::new(alloc);
    for _ in 0..call {
        schedule.extend_from_slice(&[0])?;
    }
    schedule.extend_from_slice(&[1])?;
    Ok(schedule)
}
