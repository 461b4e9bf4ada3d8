//! Keys that stand in more than one document of the protocol: in a command and its reply, or in several replies.

/// Whether a command succeeded: 1 where it did.
pub const OK: &str = "ok";

/// The number of an error.
pub const CODE: &str = "code";

/// The name of an error's number.
pub const CODE_NAME: &str = "codeName";

/// The message of an error.
pub const ERRMSG: &str = "errmsg";

/// The labels of an error.
pub const ERROR_LABELS: &str = "errorLabels";

/// What a server tells of a refused write beside the message.
pub const ERR_INFO: &str = "errInfo";

/// The count of a write.
pub const N: &str = "n";

/// The newest cluster time that is known, in a command and in its reply.
pub const CLUSTER_TIME: &str = "$clusterTime";

/// The database that a command is for.
pub const DB: &str = "$db";

/// The version of the server API that a command asks for.
pub const API_VERSION: &str = "apiVersion";

/// The write concern of a command.
pub const WRITE_CONCERN: &str = "writeConcern";

/// Whether `hello` is understood: asked by a hello and answered by its reply.
pub const HELLO_OK: &str = "helloOk";

/// Which state of the server a hello waits past, and which its reply speaks of.
pub const TOPOLOGY_VERSION: &str = "topologyVersion";

/// The id of the server's process, in a topology version.
pub const PROCESS_ID: &str = "processId";

/// The counter of the server's changes, in a topology version.
pub const COUNTER: &str = "counter";

/// The user whose login mechanisms a hello asks for; in its reply, these mechanisms.
pub const SASL_SUPPORTED_MECHS: &str = "saslSupportedMechs";

/// The login that a hello begins; in its reply, the answer to it.
pub const SPECULATIVE_AUTHENTICATE: &str = "speculativeAuthenticate";

/// Whether writes are taken.
pub const IS_WRITABLE_PRIMARY: &str = "isWritablePrimary";

/// The same, as servers spell it that know no `hello`.
pub const IS_MASTER: &str = "ismaster";

/// How long a session lives unused, in minutes.
pub const LOGICAL_SESSION_TIMEOUT_MINUTES: &str = "logicalSessionTimeoutMinutes";

/// The least wire version.
pub const MIN_WIRE_VERSION: &str = "minWireVersion";

/// The greatest wire version.
pub const MAX_WIRE_VERSION: &str = "maxWireVersion";

/// The greatest document, in bytes.
pub const MAX_BSON_OBJECT_SIZE: &str = "maxBsonObjectSize";

/// The greatest frame, in bytes.
pub const MAX_MESSAGE_SIZE_BYTES: &str = "maxMessageSizeBytes";

/// The greatest number of writes in a batch.
pub const MAX_WRITE_BATCH_SIZE: &str = "maxWriteBatchSize";

/// The server's number for the connection.
pub const CONNECTION_ID: &str = "connectionId";
