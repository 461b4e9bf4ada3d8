//! What the server answers.

use mongo_bson::Text;

/// What is answered to a request.
#[derive(Drop)]
pub enum Reply {
    /// The server's description.
    Hello(HelloAnswer),
    /// A message of a login.
    Sasl(SaslReply),
    /// The server's version.
    BuildInfo,
    /// It is done; there is nothing to say.
    Done,
    /// It isn't done.
    Refused(RefusedCommand),
}

/// What a hello's reply says beside the server's description.
#[derive(Drop)]
pub struct HelloAnswer {
    /// Whether it was asked for by a legacy name.
    pub is_legacy: bool,
    /// The mechanisms of the user that was asked for, where it is known.
    pub mechanisms: Option<Mechanisms>,
    /// The answer to the login that begins with it, where that can be gone on from.
    pub speculation: Option<SaslReply>,
}

/// By which mechanisms a user may log in.
#[derive(Clone, Copy, Debug, PartialEq, Eq)]
pub enum Mechanisms {
    /// By SCRAM-SHA-1 alone.
    Sha1,
    /// By SCRAM-SHA-256 alone.
    Sha256,
    /// By either.
    Both,
}

/// A message of the server in a login.
#[derive(Drop)]
pub struct SaslReply {
    /// Whether the login has ended.
    pub is_done: bool,
    /// The message.
    pub payload: Text,
}

/// Why a command isn't done.
#[derive(Drop)]
pub enum RefusedCommand {
    /// A login failed. It is the same whatever the cause.
    AuthenticationFailed,
    /// Nobody is logged in.
    Unauthorized,
    /// There is no command of this name.
    CommandNotFound(Text),
}
