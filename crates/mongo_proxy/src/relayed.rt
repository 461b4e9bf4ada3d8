use mongo_wire::Error;

/// The side of a proxy whose link was read or written.
#[derive(Clone, Copy, Debug, PartialEq, Eq)]
pub enum Side {
    /// Who sends commands.
    Client,
    /// Who sends replies.
    Server,
}

/// What was relayed: frames count once they are passed on whole and flushed.
#[derive(Clone, Copy, Debug, PartialEq, Eq)]
pub struct Relayed {
    /// How many commands were passed on to the server.
    pub commands: u64,
    /// How many replies were passed on to the client.
    pub replies: u64,
    /// Whether the client ended its stream between two frames.
    pub ended: bool,
}

/// Why a relay ended before the client did.
#[derive(Debug, Drop)]
pub struct RelayFault {
    /// The side whose link was read or written.
    pub side: Side,
    /// The cause.
    pub error: Error,
    /// What was relayed before.
    pub done: Relayed,
}
