// A cursor as a row of a table writes it.
//
// A row's words are KEY=VALUE: `frame` is the greatest frame that the server takes, and without it the connection has no
// description; `reply` is a reply's document, in hex; `fails` is the number of the link's call that fails; `first` is the first id;
// `calls` are the calls that are made after `new`, apart by commas.
ghost use Rattle.std.specs.Prelude.{◌<◌};

use mongo_bson::{Bytes, RawDocumentBuf, Text};
use mongo_command::{
    Command, Connection, ServerAddress, ServerType, StreamDescription, document_field, document_of,
    text_field,
};
use mongo_wire::{FailingLink, RequestIds};
use std::alloc::Global;
use std::test::Fail;

// What stands between a reply's length and its document, by the OP_MSG specification: a request id, a response-to, the op code
// 2013, no flags and the kind of a body.
const AFTER_LENGTH: &[u8] = b"\x01\0\0\0\0\0\0\0\xdd\x07\0\0\0\0\0\0\0";

// How many bytes a frame has before its document.
const DOCUMENT_START: usize = 21;

// What a cursor is made of.
#[derive(Drop)]
pub(crate) struct Job<'a> {
    frame: Option<i32>,
    replies: Bytes,
    failing: Bytes,
    first_id: i32,
    pub(crate) calls: &'a str,
}

// What its calls go over.
#[derive(Drop)]
pub(crate) struct Line {
    pub(crate) connection: Connection,
    pub(crate) link: FailingLink,
    pub(crate) ids: RequestIds,
}

impl<'a> Job<'a> {
    // The cursor of a row's words.
    pub(crate) fn of_words(alloc: Global, words: &'a str) -> Result<Job<'a>, Fail> {
        let mut job = Job {
            frame: None,
            replies: Bytes::new(alloc),
            failing: Bytes::new(alloc),
            first_id: 1,
            calls: "",
        };
        for word in words.split_whitespace() {
            let (key, value) = word.split_once('=').unwrap_or((word, ""));
            match key {
                "frame" => job.frame = Some(i32::from_str_radix(value, 10)?),
                "reply" => push_reply(alloc, &mut job.replies, value)?,
                "fails" => job.failing = failing_call(alloc, u32::from_str_radix(value, 10)?)?,
                "first" => job.first_id = i32::from_str_radix(value, 10)?,
                "calls" => job.calls = value,
                _ => return Err(Fail::new(format_args!("no word {word}"))),
            }
        }
        Ok(job)
    }

    // A line over which so many bytes pass a call.
    pub(crate) fn line(self, alloc: Global, most: usize) -> Result<Line, Fail>
        requires { 0 < most }
    {
        let connection = connection_to(alloc, self.frame)?;
        Ok(Line {
            connection,
            link: FailingLink::new(alloc, self.replies, self.failing, most),
            ids: RequestIds::new(self.first_id),
        })
    }
}

// The command that makes the cursor: all documents of the collection `c` of the database `d`.
pub(crate) fn find(alloc: Global) -> Result<Command, Fail> {
    let filter = RawDocumentBuf::new(alloc)?;
    let body = document_of(
        alloc,
        &[text_field("find", "c"), document_field("filter", &filter)],
    )?;
    Ok(Command::new_raw(alloc, "find", "d", body)?)
}

// A connection to a server that takes frames of this length.
fn connection_to(alloc: Global, frame: Option<i32>) -> Result<Connection, Fail> {
    let mut connection = Connection::new(address(alloc)?, 5);
    if let Some(max_message_size_bytes) = frame {
        connection.stream_description = Some(StreamDescription {
            server_address: address(alloc)?,
            initial_server_type: ServerType::Standalone,
            max_wire_version: None,
            min_wire_version: None,
            sasl_supported_mechs: None,
            logical_session_timeout: None,
            max_bson_object_size: 16_777_216,
            max_write_batch_size: 100_000,
            hello_ok: false,
            max_message_size_bytes,
            service_id: None,
        });
    }
    Ok(connection)
}

fn address(alloc: Global) -> Result<ServerAddress, Fail> {
    Ok(ServerAddress::Unix {
        path: Text::from_slice(alloc, "/server.sock")?,
    })
}

// Puts the frame of a document at the end of the replies.
fn push_reply(alloc: Global, replies: &mut Bytes, document: &str) -> Result<(), Fail> {
    let document = hex::decode(alloc, document)?;
    let length = u32::try_from(document.len().saturating_add(DOCUMENT_START))?;
    replies.extend_from_slice(&length.to_le_bytes())?;
    replies.extend_from_slice(AFTER_LENGTH)?;
    Ok(replies.extend_from_slice(document.as_slice())?)
}

// A schedule under which just this call fails.
fn failing_call(alloc: Global, call: u32) -> Result<Bytes, Fail> {
    let mut schedule = Bytes::new(alloc);
    for _ in 0..call {
        schedule.extend_from_slice(&[0])?;
    }
    schedule.extend_from_slice(&[1])?;
    Ok(schedule)
}
