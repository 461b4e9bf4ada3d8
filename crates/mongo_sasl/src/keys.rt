//! Keys of the commands of a login and of their replies, by the authentication specification.

/// The command that begins a login.
pub const SASL_START: &str = "saslStart";

/// The command that carries each later message of a login.
pub const SASL_CONTINUE: &str = "saslContinue";

/// The command of a login by X.509.
pub const AUTHENTICATE: &str = "authenticate";

/// The name of the mechanism.
pub const MECHANISM: &str = "mechanism";

/// The message of the client, or of the server.
pub const PAYLOAD: &str = "payload";

/// What a `saslStart` asks for beside its mechanism.
pub const OPTIONS: &str = "options";

/// Whether SCRAM ends with the server's last message, with no empty exchange after it: one of the options.
pub const SKIP_EMPTY_EXCHANGE: &str = "skipEmptyExchange";

/// The id of the conversation, which the server gives.
pub const CONVERSATION_ID: &str = "conversationId";

/// Whether the conversation is done.
pub const DONE: &str = "done";
