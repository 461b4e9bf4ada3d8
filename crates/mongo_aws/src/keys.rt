//! The keys of the conversation's documents, by the authentication specification's section on MONGODB-AWS.

/// The client's nonce, of its first message.
pub const CLIENT_NONCE: &str = "r";

/// The client's channel binding flag, of its first message.
pub const BINDING: &str = "p";

/// The server's nonce, of its first message.
pub const SERVER_NONCE: &str = "s";

/// The host of STS, of the server's first message.
pub const STS_HOST: &str = "h";

/// The authorization header, of the client's second message.
pub const AUTHORIZATION: &str = "a";

/// The date, of the client's second message.
pub const DATE: &str = "d";

/// The session token, of the client's second message.
pub const TOKEN: &str = "t";
