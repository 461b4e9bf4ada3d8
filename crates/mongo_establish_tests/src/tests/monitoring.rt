use super::causes::cause_of;
use super::frames::{COMMAND_ERROR, HELLO, NUMBERED, OK_TWICE, STANDALONE};
use super::{Tells, ended, establisher, link_of};
use mongo_establish::{
    Connection, ConnectionEstablisher, Error, HelloReply, MemoryLink, RequestIds, ServerAddress,
    ServerType, Sink, Source, Text,
};
use std::alloc::Global;
use std::test::Fail;

/// What a monitor learns: a cause by name and number, or the server's type, and its number for the connection.
type Learned = (&'static str, i32, Option<ServerType>, Option<i64>);

// What a connection and the reply to its hello say, where they agree.
fn learned_of(connection: &Connection, reply: &HelloReply) -> Learned {
    if !is_third(connection) {
        return ("another connection", 0, None, None);
    }
    let server_type = reply.command_response.server_type();
    match &connection.stream_description {
        Some(description) if description.initial_server_type == server_type => {
            ("none", 0, Some(server_type), connection.server_id)
        }
        _ => ("another type", 0, None, None),
    }
}

// Whether it is the connection that was asked for.
fn is_third(connection: &Connection) -> bool {
    match &connection.address {
        ServerAddress::Unix { path } => connection.id == 3 && path.as_str() == SOCKET,
        ServerAddress::Tcp { .. } => false,
    }
}

const SOCKET: &str = "/tmp/mongodb-27017.sock";

impl Tells<Learned> for (Connection, HelloReply) {
    fn told(&self) -> Learned {
        learned_of(&self.0, &self.1)
    }
}

impl Tells<Learned> for Error {
    fn told(&self) -> Learned {
        let (name, number) = cause_of(self);
        (name, number, None, None)
    }
}

fn address(alloc: Global) -> Result<ServerAddress, Fail> {
    let path = Text::from_slice(alloc, SOCKET)?;
    Ok(ServerAddress::Unix { path })
}

// What a monitor learns over its connection, the third.
fn learned_by(
    alloc: Global,
    establisher: &ConnectionEstablisher,
    link: &mut MemoryLink,
    ids: &mut RequestIds,
) -> Result<Learned, Fail> {
    let address = address(alloc)?;
    Ok(ended(establisher.establish_monitoring_connection(alloc, address, 3, link, ids)))
}

// What a monitor learns over the link.
fn learned_over(
    alloc: Global,
    link: &mut MemoryLink,
    ids: &mut RequestIds,
) -> Result<Learned, Fail> {
    let establisher = establisher(alloc)?;
    learned_by(alloc, &establisher, link, ids)
}

// Whether a monitor learns this of a reply, hears all of it, and says just the hello, under the first id.
fn learns(alloc: Global, reply: &[u8], wanted: Learned) -> Result<bool, Fail> {
    let mut ids = RequestIds::new(0);
    let mut link = link_of(alloc, reply)?;
    let learned = learned_over(alloc, &mut link, &mut ids)?;
    Ok(
        learned == wanted
            && link.left().is_empty()
            && ids.next() == 1
            && link.written() == HELLO.as_slice(),
    )
}

// The standalone server's reply with these elements after its own, by BSON 1.1.
fn reply_with(alloc: Global, elements: &[u8]) -> Result<Vec<u8>, Fail> {
    let [frame, ..] = elements.len().saturating_add(86).to_le_bytes();
    let [document, ..] = elements.len().saturating_add(65).to_le_bytes();
    let mut reply = Vec::new(alloc);
    reply.extend_from_slice(&[frame, 0, 0, 0])?;
    reply.extend_from_slice(&STANDALONE[4..21])?;
    reply.extend_from_slice(&[document, 0, 0, 0])?;
    reply.extend_from_slice(&STANDALONE[25..85])?;
    reply.extend_from_slice(elements)?;
    reply.push(0)?;
    Ok(reply)
}

// Elements of a hello's reply, and the type of the server that says them, by Server Discovery and Monitoring.
fn server_at(place: u8) -> (&'static [u8], ServerType) {
    match place {
        0 => (b"", ServerType::Standalone),
        1 => (b"\x08isWritablePrimary\0\x01", ServerType::Standalone),
        2 => (b"\x02msg\0\x09\0\0\0isdbgrid\0", ServerType::Mongos),
        3 => (
            b"\x02setName\0\x04\0\0\0rs0\0\x08isWritablePrimary\0\x01",
            ServerType::RsPrimary,
        ),
        4 => (
            b"\x02setName\0\x04\0\0\0rs0\0\x08secondary\0\x01",
            ServerType::RsSecondary,
        ),
        5 => (
            b"\x02setName\0\x04\0\0\0rs0\0\x08arbiterOnly\0\x01",
            ServerType::RsArbiter,
        ),
        6 => (
            b"\x02setName\0\x04\0\0\0rs0\0\x08hidden\0\x01\x08secondary\0\x01",
            ServerType::RsOther,
        ),
        7 => (b"\x02setName\0\x04\0\0\0rs0\0", ServerType::RsOther),
        _ => (b"\x08isreplicaset\0\x01", ServerType::RsGhost),
    }
}

#[test]
fn a_monitor_learns_each_servers_type(rt: HostRuntime) -> Result<(), Fail> {
    for place in 0..9 {
        let (elements, server) = server_at(place);
        let reply = reply_with(rt.alloc(), elements)?;
        assert!(rt;
            learns(
                rt.alloc(),
                reply.as_slice(),
                ("none", 0, Some(server), None)
            )?,
            "{place}"
        );
    }
    let numbered = ("none", 0, Some(ServerType::Standalone), Some(42));
    assert!(rt; learns(rt.alloc(), &NUMBERED, numbered)?);
    Ok(())
}

#[test]
fn a_monitor_is_told_what_it_is_refused_for(rt: HostRuntime) -> Result<(), Fail> {
    assert!(rt; learns(rt.alloc(), &COMMAND_ERROR, ("Command", 18, None, None))?);
    assert!(rt; learns(rt.alloc(), &OK_TWICE, ("Hello", 0, None, None))?);
    assert!(rt; learns(rt.alloc(), &STANDALONE[..85], ("EndOfInput", 0, None, None))?);
    Ok(())
}
