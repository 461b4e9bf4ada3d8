use mongo_bson::BsonFault;

/// What is wrong with what a caller handed in.
#[derive(Clone, Copy, Debug, PartialEq, Eq)]
pub enum ArgumentFault {
    /// A header length below 16, a document length below 4, or an entry's size that doesn't fit.
    CheckedFailure,
    /// The maximum of a message is negative.
    MaximumNegative,
    /// A frame is longer than the maximum.
    TooLong,
    /// The size of a document sequence passes 2147483647 bytes.
    SequenceTooLong,
    /// The identifier of a document sequence holds a zero byte.
    IdentifierHasZero,
    /// A document was refused: `TooLong` or `KeyHasZero`.
    Bson(BsonFault),
    /// A text names no mechanism.
    MechanismUnknown,
    /// GSSAPI is no mechanism here.
    MechanismGssapi,
    /// The mechanism properties aren't a readable document.
    PropertiesMalformed,
    /// SCRAM without a user name.
    ScramUsername,
    /// MONGODB-X509 with a password.
    X509Password,
    /// MONGODB-X509 with a source other than `$external`.
    X509Source,
    /// PLAIN without a user name.
    PlainUsername,
    /// PLAIN with an empty user name.
    PlainUsernameEmpty,
    /// PLAIN without a password.
    PlainPassword,
    /// MONGODB-AWS with credentials of its own: they belong to the helper.
    AwsUriCredentials,
    /// MONGODB-OIDC with a property that isn't its own.
    OidcProperty,
    /// MONGODB-OIDC with a callback and an environment.
    OidcCallbackWithEnvironment,
    /// MONGODB-OIDC for `azure` or `gcp` without a token resource.
    OidcResourceMissing,
    /// MONGODB-OIDC with a token resource that its environment doesn't take.
    OidcResourceGiven,
    /// MONGODB-OIDC with a source other than `$external`.
    OidcSource,
    /// MONGODB-OIDC with a password.
    OidcPassword,
    /// MONGODB-OIDC with an unknown environment.
    OidcEnvironment,
    /// MONGODB-OIDC whose allowed hosts are no array.
    OidcHostsNotArray,
}

/// Why nothing was read.
///
/// It owns no memory, so that a call which lends its buffer on can still say what the buffer holds.
#[derive(Clone, Copy, Debug, PartialEq, Eq)]
pub enum FrameFault {
    /// The source failed; its count of read faults rose.
    ReadFault,
    /// The source ended before the bytes that were awaited; its count of ends rose.
    EndOfInput,
    /// Memory ran out.
    OutOfMemory,
    /// The length in a header is below 16, or that of a document below 4.
    InvalidArgument(ArgumentFault),
    /// The header or what follows it isn't an OP_MSG within the maximum.
    InvalidResponse(ResponseFault),
}

/// What is wrong with a server's reply.
#[derive(Clone, Copy, Debug, PartialEq, Eq)]
pub enum ResponseFault {
    /// The op code is none of OP_REPLY, OP_QUERY, OP_MSG and OP_COMPRESSED.
    OpCode(i32),
    /// The frame is longer than the maximum.
    OverMaximum,
    /// The frame is an OP_COMPRESSED, which isn't read.
    Compressed,
    /// The frame is an OP_REPLY or an OP_QUERY.
    NotMessage,
    /// What follows the header isn't in the grammar of OP_MSG.
    Sections,
    /// The document isn't what the reply to this command has to be.
    Body,
    /// The document is no reply to a hello.
    Hello,
    /// The session timeout in seconds passes 18446744073709551615.
    SessionTimeout,
    /// The reply has no `n`.
    NoN,
    /// `n` is no whole number.
    NNotNumber,
}
