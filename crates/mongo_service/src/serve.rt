//! The server: requests are read one after another, and each is answered before the next is read.

ghost use Rattle.std.specs.Prelude.{◌≡◌, ℕ, pos, ◌+◌, ◌<ℤ◌, ◌≤ℤ◌, ◌⊎◌, List, [], ◌∷◌, ◌++◌, IsNone, IfSome, IfOk, IfErr, OnOk, OnErr};
ghost use Rattle.mongo_wire.specs.Header.{header_bytes};
ghost use Rattle.mongo_wire.specs.Outside.{State};
ghost use Rattle.mongo_session.specs.Answers.{IsDocumentAnswered};
ghost use Rattle.mongo_session.specs.Costs.{DocumentRounds, CostsAtMost, CostsRounds};
ghost use Rattle.mongo_session.specs.Login.{Remembers};
ghost use Rattle.mongo_server.specs.Announced.{maximum_message_length};
ghost use Rattle.mongo_session.specs.Requests.{IsHello};
ghost use Rattle.mongo_service.specs.Juncture.{basis_of, juncture};
ghost use Rattle.mongo_service.specs.Served.{FollowsHead, RequestEnds, PartEnds, IsServed};
ghost use Rattle.mongo_service.specs.declared.fault.ServeFault.TheVariants.{NoHello, OutOfMemory};
ghost use Rattle.mongo_wire.specs.declared.op_code.OpCode.TheVariants.{Message, Query};

use crate::fault::ServeFault;
use crate::query::command_of_query;
use crate::reading::take_bytes;
use crate::respond::{respond, respond_to_query};
use mongo_bson::{RawDocument, Text};
use mongo_mac::Steps;
use mongo_server::MAXIMUM_MESSAGE_LENGTH;
use mongo_session::{
    Reply, Request, ServeSettings, Session, answer_hello, answer_request, request_of,
};
use mongo_wire::{FrameBuffer, Header, Link, OpCode, RequestIds, fill_or_end};
use std::alloc::Global;
use std::sync::ledger::Ledger;

/// How a stream ended, and who was logged in then.
#[derive(Drop)]
pub struct Served {
    /// Why the server left the stream; None where the client ended it between two frames.
    pub fault: Option<ServeFault>,
    /// The user that was logged in.
    pub user: Option<Text>,
}

/// What a server keeps from one request to the next.
#[derive(Drop)]
pub struct Serving {
    session: Session,
    buffer: FrameBuffer,
    ids: RequestIds,
}

/// Answers the requests of a client until it ends its stream or a fault comes. It reads nothing past the last frame.
pub fn serve<L: Link, G: Ledger>(
    alloc: Global,
    settings: &ServeSettings,
    link: &mut L,
    steps: &mut Steps<G>,
) -> Served
    ensures served { IsServed settings.now (L.state link.old) (L.state link.new) steps.old steps.new result }
{
    let mut serving = Serving {
        session: Session::new(),
        buffer: FrameBuffer::new(alloc),
        ids: RequestIds::new(1),
    };
    'serving: for _request in 0..u64::MAX {
        match serve_request(alloc, settings, link, &mut serving, steps) {
            Ok(true) => {}
            Ok(false) => {
                return Served {
                    fault: None,
                    user: serving.session.user,
                };
            }
            Err(fault) => {
                return Served {
                    fault: Some(fault),
                    user: serving.session.user,
                };
            }
        }
    }
    Served {
        fault: Some(ServeFault::TooManyRequests),
        user: serving.session.user,
    }
}

// Takes a request and answers it; says whether there was one.
fn serve_request<L: Link, G: Ledger>(
    alloc: Global,
    settings: &ServeSettings,
    link: &mut L,
    serving: &mut Serving,
    steps: &mut Steps<G>,
) -> Result<bool, ServeFault>
    ensures request { (requests : List (List ℕ)) → Remembers settings.now requests serving.old.session →
        RequestEnds settings.now requests (juncture (L.state link.old) steps.old (basis_of serving.old)) (juncture (L.state link.new) steps.new (basis_of serving.new)) result }
{
    let mut head = [0u8; Header::LENGTH];
    match fill_or_end(link, &mut head) {
        Ok(true) => match take_request(alloc, settings, link, serving, &head, steps) {
            Ok(()) => Ok(true),
            Err(fault) => Err(fault),
        },
        Ok(false) => Ok(false),
        Err(fault) => Err(fault.into()),
    }
}

// Takes what follows a header, and answers it.
fn take_request<L: Link, G: Ledger>(
    alloc: Global,
    settings: &ServeSettings,
    link: &mut L,
    serving: &mut Serving,
    head: &[u8; 16],
    steps: &mut Steps<G>,
) -> Result<(), ServeFault>
    ensures request { (requests : List (List ℕ)) (before : State) → Remembers settings.now requests serving.old.session → FollowsHead before (L.state link.old) head.now →
        PartEnds settings.now requests (juncture before steps.old (basis_of serving.old)) (juncture (L.state link.new) steps.new (basis_of serving.new)) result }
{
    match Header::decode(head) {
        Ok(header) => match header.op_code {
            OpCode::Message => take_message(alloc, settings, link, serving, header, steps),
            OpCode::Query => take_query(alloc, settings, link, serving, header, steps),
            _ => Err(ServeFault::NoFrame),
        },
        Err(_) => Err(ServeFault::NoFrame),
    }
}

// Takes the rest of an OP_MSG, and answers it.
fn take_message<L: Link, G: Ledger>(
    alloc: Global,
    settings: &ServeSettings,
    link: &mut L,
    serving: &mut Serving,
    header: Header,
    steps: &mut Steps<G>,
) -> Result<(), ServeFault>
    requires { header.op_code ≡ Message }
    ensures request { (requests : List (List ℕ)) (before : State) → Remembers settings.now requests serving.old.session → FollowsHead before (L.state link.old) (header_bytes header) →
        PartEnds settings.now requests (juncture before steps.old (basis_of serving.old)) (juncture (L.state link.new) steps.new (basis_of serving.new)) result }
{
    let maximum = Some(MAXIMUM_MESSAGE_LENGTH);
    match serving.buffer.take_after(link, header, maximum) {
        Ok(()) => {}
        Err(fault) => return Err(fault.into()),
    }
    let Some(message) = serving.buffer.message() else {
        unreachable!()
    };
    let document = message.document_payload;
    match answer_document(alloc, settings, &mut serving.session, document, steps) {
        Ok(reply) => {
            let id = message.header.request_id;
            respond(alloc, link, id, message.flags, &reply, &mut serving.ids)
        }
        Err(fault) => Err(fault),
    }
}

// Answers what a document asks for. Want of memory is the one refusal.
fn answer_document<G: Ledger>(
    alloc: Global,
    settings: &ServeSettings,
    session: &mut Session,
    document: RawDocument<'_>,
    steps: &mut Steps<G>,
) -> Result<Reply, ServeFault>
    ensures remembers { (requests : List (List ℕ)) → Remembers settings.now requests session.old → OnOk result (Remembers settings.now (requests ++ document.entry.bytes.now ∷ []) session.new) }
    ensures answered { IfOk result (IsDocumentAnswered settings.now session.old document.entry.bytes.now session.new) }
    ensures kept { OnErr result (session.new.user ≡ session.old.user) }
    ensures refused { IfErr result (λ fault. fault ≡ OutOfMemory) }
    ensures cost { OnOk result (CostsRounds (DocumentRounds settings.now document.entry.bytes.now) steps.old steps.new) }
    ensures at_most { OnErr result (CostsAtMost (DocumentRounds settings.now document.entry.bytes.now) steps.old steps.new) }
{
    match answer_request(alloc, settings, session, request_of(document), steps) {
        Ok(reply) => Ok(reply),
        Err(_) => Err(ServeFault::OutOfMemory),
    }
}

// Takes the rest of an OP_QUERY, and answers it.
fn take_query<L: Link, G: Ledger>(
    alloc: Global,
    settings: &ServeSettings,
    link: &mut L,
    serving: &mut Serving,
    header: Header,
    steps: &mut Steps<G>,
) -> Result<(), ServeFault>
    requires { header.op_code ≡ Query }
    ensures request { (requests : List (List ℕ)) (before : State) → Remembers settings.now requests serving.old.session → FollowsHead before (L.state link.old) (header_bytes header) →
        PartEnds settings.now requests (juncture before steps.old (basis_of serving.old)) (juncture (L.state link.new) steps.new (basis_of serving.new)) result }
{
    let Some(rest) = length_after(header.length) else {
        return Err(ServeFault::NoFrame);
    };
    let body = match take_bytes(alloc, link, rest) {
        Ok(body) => body,
        Err(fault) => return Err(fault.into()),
    };
    let Some(command) = command_of_query(body.as_slice()) else {
        return Err(ServeFault::NoFrame);
    };
    match answer_query(alloc, settings, &mut serving.session, command, steps) {
        Ok(reply) => { respond_to_query(alloc, link, header.request_id, &reply, &mut serving.ids) }
        Err(fault) => Err(fault),
    }
}

// How many bytes follow the header of a frame of this length, which is 16 to the maximum.
fn length_after(length: i32) -> Option<usize>
    ensures counted { IfSome result (λ rest. pos (16 + rest) ≡ length) }
    ensures within { IfSome result (λ rest. pos (16 + rest) ≤ℤ maximum_message_length) }
    ensures outside { IsNone result → (length <ℤ pos 16) ⊎ (maximum_message_length <ℤ length) }
{
    if length < Header::LENGTH as i32 || length > MAXIMUM_MESSAGE_LENGTH {
        None
    } else {
        Some(length as usize - Header::LENGTH)
    }
}

// Answers a query's document, which has to ask for a hello.
fn answer_query<G: Ledger>(
    alloc: Global,
    settings: &ServeSettings,
    session: &mut Session,
    document: RawDocument<'_>,
    steps: &mut Steps<G>,
) -> Result<Reply, ServeFault>
    ensures remembers { (requests : List (List ℕ)) → Remembers settings.now requests session.old → OnOk result (Remembers settings.now (requests ++ document.entry.bytes.now ∷ []) session.new) }
    ensures answered { IfOk result (IsDocumentAnswered settings.now session.old document.entry.bytes.now session.new) }
    ensures is_hello { OnOk result (IsHello document.entry.bytes.now) }
    ensures kept { OnErr result (session.new.user ≡ session.old.user) }
    ensures refused { IfErr result (λ fault. (fault ≡ OutOfMemory) ⊎ ((fault ≡ NoHello) × (IsHello document.entry.bytes.now → ⊥))) }
    ensures cost { OnOk result (CostsRounds (DocumentRounds settings.now document.entry.bytes.now) steps.old steps.new) }
    ensures at_most { OnErr result (CostsAtMost (DocumentRounds settings.now document.entry.bytes.now) steps.old steps.new) }
    ensures no_cost { IfErr result (λ fault. fault ≡ NoHello → steps.new ≡ steps.old) }
{
    match request_of(document) {
        Request::Hello(hello) => match answer_hello(alloc, settings, session, hello, steps) {
            Ok(reply) => Ok(Reply::Hello(reply)),
            Err(_) => Err(ServeFault::OutOfMemory),
        },
        _ => Err(ServeFault::NoHello),
    }
}
