//! What a server of this workspace tells every client.

/// The number of a conversation (`conversationId`): 1, since a connection has one login at a time.
pub const CONVERSATION_NUMBER: i32 = 1;

/// The greatest frame that is read or sent, in bytes (`maxMessageSizeBytes`): 48 MB, as servers of MongoDB announce it.
pub const MAXIMUM_MESSAGE_LENGTH: i32 = 48_000_000;

/// The greatest document, in bytes (`maxBsonObjectSize`): 16 MiB, as servers of MongoDB announce it.
pub const MAXIMUM_DOCUMENT_LENGTH: i32 = 16_777_216;
