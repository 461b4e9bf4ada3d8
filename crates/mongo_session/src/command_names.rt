//! The names of the commands that a server alone knows.

/// Whether the server answers.
pub const PING: &str = "ping";

/// What the server was built from.
pub const BUILD_INFO: &str = "buildInfo";

/// The same, as servers take it too.
pub const BUILD_INFO_LOWERCASE: &str = "buildinfo";

/// The client is done with its sessions.
pub const END_SESSIONS: &str = "endSessions";
