ghost use Rattle.std.specs.Prelude.{◌<◌};

use super::{Answered, given};
use mongo_bson::{Bytes, RawDocument, Text};
use mongo_command::{
    Command, Connection, HelloReply, RawCommandResponse, ServerAddress, ServerType,
    StreamDescription, hello_command, run_hello,
};
use mongo_wire::{
    ArgumentFault, Error, ErrorKind, FailingLink, FrameBuffer, Link, RequestIds, Sink, Source,
};
use std::alloc::Global;
use std::test::Fail;

// The hello `{isMaster: 1, helloOk: true, backpressure: "2", $db: "admin"}` under the id 0, laid out by the OP_MSG
// specification: a header of 16 bytes, flags and the kind byte in 5, a document of 64.
const HELLO: &[u8] =
    b"\x55\0\0\0\0\0\0\0\0\0\0\0\xdd\x07\0\0\0\0\0\0\0\x40\0\0\0\x10isMaster\0\x01\0\0\0\x08helloOk\0\x01\x02backpressure\0\x02\0\0\x002\0\x02$db\0\x06\0\0\0admin\0\0";

const HELLO_LEN: usize = 85;

// A reply to it: a header of 16 bytes, and 70 more of `{ok: 1.0, maxBsonObjectSize: 16777216, maxMessageSizeBytes:
// 48000000}`.
const REPLY: &[u8] =
    b"\x56\0\0\0\x01\0\0\0\0\0\0\0\xdd\x07\0\0\0\0\0\0\0\x41\0\0\0\x01ok\0\0\0\0\0\0\0\xf0\x3f\x10maxBsonObjectSize\0\0\0\0\x01\x10maxMessageSizeBytes\0\0\x6c\xdc\x02\0";

const REPLY_LEN: usize = 86;

// Where a reply's document begins: after its header, its flags and the kind byte.
const DOCUMENT_START: usize = 21;

// One of the calls that exchange a hello and its reply.
#[derive(Clone, Copy, Debug)]
enum Asked {
    SendMessage,
    Exchange,
    ExchangeInto,
    RunHello,
}

const EACH: [Asked; 4] = [
    Asked::SendMessage,
    Asked::Exchange,
    Asked::ExchangeInto,
    Asked::RunHello,
];

// How a call ended: with the reply, or with this fault. A connection's fault, too, where Done is none.
#[derive(Clone, Copy, Debug, PartialEq)]
pub(crate) enum Told {
    Done,
    ReadFault,
    WriteFault,
    EndOfInput,
    TooLong,
    Other,
}

// What is seen after a call: how it ended and what the connection keeps, how many bytes were written and how many of the
// replies taken, how often a read and a write failed, and the next id.
#[derive(Clone, Copy, Debug, PartialEq)]
struct Seen {
    told: Told,
    kept: Told,
    written: usize,
    taken: usize,
    read_faults: u64,
    write_faults: u64,
    next_id: i32,
}

// What is seen after a call that ended so and moved so many bytes, the first that was made.
fn seen_first(told: Told, written: usize, taken: usize) -> Seen {
    Seen {
        told,
        kept: told,
        written,
        taken,
        read_faults: u64::from(told == Told::ReadFault),
        write_faults: u64::from(told == Told::WriteFault),
        next_id: 1,
    }
}

// What is seen after one more call. A fault is told again, and nothing is done; else the connection goes on, with one more
// frame and its reply.
fn seen_next(seen: Seen) -> Seen {
    match seen.told {
        Told::Done => Seen {
            written: seen.written.saturating_add(HELLO_LEN),
            taken: seen.taken.saturating_add(REPLY_LEN),
            next_id: seen.next_id.saturating_add(1),
            ..seen
        },
        _ => seen,
    }
}

// What is seen after each of four calls of which the first is seen so.
fn seen_of_four(first: Seen) -> [Seen; 4] {
    let second = seen_next(first);
    let third = seen_next(second);
    [first, second, third, seen_next(third)]
}

// A connection beside its link, its ids and the buffer that replies are taken into.
#[derive(Drop)]
struct Talk {
    connection: Connection,
    link: FailingLink,
    ids: RequestIds,
    buffer: FrameBuffer,
}

fn told_by(kind: &ErrorKind) -> Told {
    match kind {
        ErrorKind::ReadFault => Told::ReadFault,
        ErrorKind::WriteFault => Told::WriteFault,
        ErrorKind::EndOfInput => Told::EndOfInput,
        ErrorKind::InvalidArgument(ArgumentFault::TooLong) => Told::TooLong,
        _ => Told::Other,
    }
}

// How a call ended that gave these bytes as the reply's document.
fn told_of(document: &[u8]) -> Told {
    if REPLY.get(DOCUMENT_START..) == Some(document) {
        Told::Done
    } else {
        Told::Other
    }
}

// What a call gives that takes a reply, or the error that refuses it: how the call ended by it.
trait TellsEnd {
    fn told(&self) -> Told;
}

impl TellsEnd for Error {
    fn told(&self) -> Told {
        told_by(&self.kind)
    }
}

impl TellsEnd for RawCommandResponse {
    fn told(&self) -> Told {
        told_of(self.as_bytes())
    }
}

impl TellsEnd for RawDocument<'_> {
    fn told(&self) -> Told {
        told_of(self.as_bytes())
    }
}

impl TellsEnd for HelloReply {
    fn told(&self) -> Told {
        told_of(self.raw_command_response.as_bytes())
    }
}

// How a call ended.
fn ended<R: TellsEnd + Drop, E: TellsEnd + Drop>(answer: Result<R, E>) -> Told {
    let call = Answered { answer };
    match &call.answer {
        Ok(reply) => reply.told(),
        Err(error) => error.told(),
    }
}

// How a call ended that puts its reply into a buffer.
fn ended_into<E: TellsEnd + Drop>(answer: Result<(), E>, buffer: &FrameBuffer) -> Told {
    let call = Answered { answer };
    match &call.answer {
        Ok(()) => told_message(buffer),
        Err(error) => error.told(),
    }
}

fn told_message(buffer: &FrameBuffer) -> Told {
    match buffer.message() {
        Some(message) => told_of(message.document_payload.as_bytes()),
        None => Told::Other,
    }
}

pub(crate) fn send_message<L: Link>(
    alloc: Global,
    connection: &mut Connection,
    link: &mut L,
    ids: &mut RequestIds,
    command: Command,
) -> Told {
    ended(connection.send_message(alloc, link, ids, command))
}

fn exchange<L: Link>(
    alloc: Global,
    connection: &mut Connection,
    link: &mut L,
    ids: &mut RequestIds,
    command: Command,
    buffer: &mut FrameBuffer,
) -> Told {
    ended(connection.exchange(alloc, link, ids, command, buffer))
}

fn exchange_into<L: Link>(
    alloc: Global,
    connection: &mut Connection,
    link: &mut L,
    ids: &mut RequestIds,
    command: Command,
    buffer: &mut FrameBuffer,
) -> Told {
    let answer = connection.exchange_into(alloc, link, ids, command, buffer);
    ended_into(answer, buffer)
}

fn hello<L: Link>(
    alloc: Global,
    connection: &mut Connection,
    link: &mut L,
    ids: &mut RequestIds,
    command: Command,
) -> Told {
    ended(run_hello(alloc, connection, link, ids, command))
}

// A connection that hasn't been used.
pub(crate) fn new_connection(alloc: Global) -> Result<Connection, Fail> {
    let path = Text::from_slice(alloc, "/server.sock")?;
    Ok(Connection::new(ServerAddress::Unix { path }, 5))
}

// The reply four times.
fn four_replies(alloc: Global) -> Result<Bytes, Fail> {
    let mut replies = Bytes::new(alloc);
    for _ in 0..4 {
        replies.extend_from_slice(REPLY)?;
    }
    Ok(replies)
}

// A schedule under which just this call fails.
fn failing_call(alloc: Global, call: usize) -> Result<Bytes, Fail> {
    let mut schedule = Vec::new(alloc);
    for _ in 0..call {
        schedule.push(0)?;
    }
    schedule.push(1)?;
    Ok(Bytes::from_vec(schedule))
}

// A new connection over a link. Its ids begin with 0.
fn talk_over(alloc: Global, link: FailingLink) -> Result<Talk, Fail> {
    Ok(Talk {
        connection: new_connection(alloc)?,
        link,
        ids: RequestIds::new(0),
        buffer: FrameBuffer::new(alloc),
    })
}

impl Talk {
    // A new connection over a link that has four replies, moves so many bytes a call, and fails at just this call.
    fn failing_at(alloc: Global, call: usize, most: usize) -> Result<Talk, Fail>
        requires { 0 < most }
    {
        let replies = four_replies(alloc)?;
        let schedule = failing_call(alloc, call)?;
        talk_over(alloc, FailingLink::new(alloc, replies, schedule, most))
    }

    // Makes a call, and gives how it ended.
    fn tell(&mut self, alloc: Global, asked: Asked) -> Result<Told, Fail> {
        let command = given(hello_command(alloc, None, Some(false), None, None))?;
        let (connection, link, ids) = (&mut self.connection, &mut self.link, &mut self.ids);
        let buffer = &mut self.buffer;
        Ok(match asked {
            Asked::SendMessage => send_message(alloc, connection, link, ids, command),
            Asked::Exchange => exchange(alloc, connection, link, ids, command, buffer),
            Asked::ExchangeInto => exchange_into(alloc, connection, link, ids, command, buffer),
            Asked::RunHello => hello(alloc, connection, link, ids, command),
        })
    }

    // Makes a call over a copy of the connection, and gives what is seen after it.
    fn ask(&mut self, alloc: Global, asked: Asked) -> Result<Seen, Fail> {
        self.connection = given(self.connection.try_clone(alloc))?;
        let told = self.tell(alloc, asked)?;
        Ok(self.seen(told))
    }

    // Whether the buffer took so many frames, and shows the last one's bytes behind its header, or nothing.
    fn shows(&self, frames: u64, bytes: Option<&[u8]>) -> bool {
        let held = self.buffer.as_bytes();
        self.buffer.frames() == frames
            && self.buffer.message().is_some() == bytes.is_some()
            && held == bytes.unwrap_or(&[])
    }

    // What is seen after a call that ended so.
    fn seen(&self, told: Told) -> Seen {
        Seen {
            told: if self.has_written_hellos() {
                told
            } else {
                Told::Other
            },
            kept: match self.connection.fault() {
                Some(kind) => told_by(kind),
                None => Told::Done,
            },
            written: self.link.written().len(),
            taken: REPLY_LEN
                .saturating_mul(4)
                .saturating_sub(self.link.left().len()),
            read_faults: self.link.read_faults(),
            write_faults: self.link.write_faults(),
            next_id: self.ids.next(),
        }
    }

    // Whether what was written is the front of hellos under the ids 0, 1, 2 and 3.
    fn has_written_hellos(&self) -> bool {
        self.link.written().iter().enumerate().all(|(at, byte)| {
            if at % HELLO_LEN == 4 {
                usize::from(*byte) == at / HELLO_LEN
            } else {
                HELLO.get(at % HELLO_LEN) == Some(byte)
            }
        })
    }
}

// What is seen after each of four calls, of which the first is this one and then each is made.
fn ask_each(alloc: Global, talk: &mut Talk, first: Asked) -> Result<[Seen; 4], Fail> {
    let first = talk.ask(alloc, first)?;
    let second = talk.ask(alloc, Asked::SendMessage)?;
    let third = talk.ask(alloc, Asked::Exchange)?;
    Ok([first, second, third, talk.ask(alloc, Asked::RunHello)?])
}

// The same where just this call of the link fails, and a call moves so many bytes.
fn four_calls(alloc: Global, first: Asked, failing: usize, most: usize) -> Result<[Seen; 4], Fail>
    requires { 0 < most }
{
    seen_over(alloc, Talk::failing_at(alloc, failing, most), first)
}

// What is asked of a talk, in functions that are generic over it, so that no other proof holds one.
trait Talks {
    fn ask_each(&mut self, alloc: Global, first: Asked) -> Result<[Seen; 4], Fail>;

    fn holds(&mut self, alloc: Global, asked: Asked) -> Result<bool, Fail>;
}

impl Talks for Talk {
    fn ask_each(&mut self, alloc: Global, first: Asked) -> Result<[Seen; 4], Fail> {
        ask_each(alloc, self, first)
    }

    fn holds(&mut self, alloc: Global, asked: Asked) -> Result<bool, Fail> {
        Ok(holds_each(alloc, asked, self)? && holds_what_came(alloc, asked, self)?)
    }
}

fn seen_over<T: Talks + Drop>(
    alloc: Global,
    talk: Result<T, Fail>,
    first: Asked,
) -> Result<[Seen; 4], Fail> {
    let mut talk = talk?;
    talk.ask_each(alloc, first)
}

fn holds_over<T: Talks + Drop>(
    alloc: Global,
    talk: Result<T, Fail>,
    asked: Asked,
) -> Result<bool, Fail> {
    let mut talk = talk?;
    talk.holds(alloc, asked)
}

// Fails where something else is seen than this, of four calls of which the first is made in each way.
fn each_is_seen(alloc: Global, failing: usize, most: usize, wanted: [Seen; 4]) -> Result<(), Fail>
    requires { 0 < most }
{
    for first in EACH {
        let seen = four_calls(alloc, first, failing, most)?;
        if seen != wanted {
            return Err(Fail::new(format_args!("{first:?} {failing}: {seen:?}, not {wanted:?}")));
        }
    }
    Ok(())
}

#[test]
fn a_fault_in_any_piece_is_told_and_kept(rt: HostRuntime) -> Result<(), Fail> {
    // the header, the flags and the kind byte, the document; the flush; the reply's header and its rest; and no failure
    for (call, told, written, taken) in [
        (0, Told::WriteFault, 0, 0),
        (1, Told::WriteFault, 16, 0),
        (2, Told::WriteFault, 21, 0),
        (3, Told::WriteFault, 85, 0),
        (4, Told::ReadFault, 85, 0),
        (5, Told::ReadFault, 85, 16),
        (24, Told::Done, 85, 86),
    ] {
        let wanted = seen_of_four(seen_first(told, written, taken));
        each_is_seen(rt.alloc(), call, 4096, wanted)?;
    }
    Ok(())
}

// What is seen after a call of which each byte is written or read by a call of the link's own, and this one fails.
fn seen_byte_by_byte(call: usize) -> Seen {
    if call <= HELLO_LEN {
        // the flush is the last of these
        seen_first(Told::WriteFault, call, 0)
    } else {
        seen_first(Told::ReadFault, HELLO_LEN, call - HELLO_LEN - 1)
    }
}

#[test]
fn a_fault_at_any_byte_is_told_and_kept(rt: HostRuntime) -> Result<(), Fail> {
    // 85 writes, the flush and 86 reads
    for call in 0..172 {
        each_is_seen(rt.alloc(), call, 1, seen_of_four(seen_byte_by_byte(call)))?;
    }
    Ok(())
}

#[test]
fn a_connection_without_a_fault_goes_on_byte_by_byte(rt: HostRuntime) -> Result<(), Fail> {
    let wanted = seen_of_four(seen_first(Told::Done, HELLO_LEN, REPLY_LEN));
    // the fifth exchange would begin with this call
    each_is_seen(rt.alloc(), 688, 1, wanted)
}

// The reply with a sequence without documents under the identifier `a` behind its body, by the OP_MSG specification: 7 bytes
// more, the kind byte, the size 6 and a text.
const LONGER: &[u8] =
    b"\x5d\0\0\0\x01\0\0\0\0\0\0\0\xdd\x07\0\0\0\0\0\0\0\x41\0\0\0\x01ok\0\0\0\0\0\0\0\xf0\x3f\x10maxBsonObjectSize\0\0\0\0\x01\x10maxMessageSizeBytes\0\0\x6c\xdc\x02\0\x01\x06\0\0\0a\0";

// A new connection over a link that has the longer reply and then the other.
fn talk_of_two(alloc: Global) -> Result<Talk, Fail> {
    let mut replies = Bytes::from_slice(alloc, LONGER)?;
    replies.extend_from_slice(REPLY)?;
    let link = FailingLink::new(alloc, replies, Bytes::new(alloc), 4096);
    talk_over(alloc, link)
}

// The description of a server that takes frames of one byte less than a hello's.
fn narrow(alloc: Global) -> Result<StreamDescription, Fail> {
    Ok(StreamDescription {
        server_address: ServerAddress::Unix {
            path: Text::from_slice(alloc, "/server.sock")?,
        },
        initial_server_type: ServerType::Standalone,
        max_wire_version: None,
        min_wire_version: None,
        sasl_supported_mechs: None,
        logical_session_timeout: None,
        max_bson_object_size: 16_777_216,
        max_write_batch_size: 100_000,
        hello_ok: false,
        max_message_size_bytes: 84,
        service_id: None,
    })
}

// Has the connection know its server so, or not at all.
fn describe(connection: &mut Connection, description: StreamDescription) {
    connection.stream_description = Some(description);
}

fn forget(connection: &mut Connection) {
    connection.stream_description = None;
}

// Whether the buffer holds each reply in its turn.
fn holds_each(alloc: Global, asked: Asked, talk: &mut Talk) -> Result<bool, Fail> {
    let first = talk.tell(alloc, asked)? == Told::Done && talk.shows(1, LONGER.get(16..));
    let second = talk.tell(alloc, asked)? == Told::Done && talk.shows(2, REPLY.get(16..));
    Ok(first && second)
}

// Whether a command that is too long leaves the buffer as it was, and a reply that doesn't come leaves it empty.
fn holds_what_came(alloc: Global, asked: Asked, talk: &mut Talk) -> Result<bool, Fail> {
    describe(&mut talk.connection, narrow(alloc)?);
    let too_long = talk.tell(alloc, asked)? == Told::TooLong && talk.shows(2, REPLY.get(16..));
    forget(&mut talk.connection);
    Ok(too_long && talk.tell(alloc, asked)? == Told::EndOfInput && talk.shows(2, None))
}

/// A buffer shows the last reply until another command was sent, and nothing where that one had no reply.
#[test]
fn a_buffer_holds_the_last_reply(rt: HostRuntime) -> Result<(), Fail> {
    for asked in [Asked::Exchange, Asked::ExchangeInto] {
        let talk = talk_of_two(rt.alloc());
        assert!(rt; holds_over(rt.alloc(), talk, asked)?, "{asked:?}");
    }
    Ok(())
}
