//! Two users: what each is told of itself, and the login of the second.
//!
//! The bytes were computed with Python's `hashlib` and `hmac`, by RFC 5802 and RFC 7677.

// The line of settings, with its end. The second user has one mechanism, a salt and a count of its own.
pub(super) const TWO: &[u8] =
    b"{\"users\": [{\"name\": \"user\", \"password\": \"pencil\", \"mechanisms\": [\"SCRAM-SHA-1\", \"SCRAM-SHA-256\"], \"salts\": [\"ad0f59637337b4178ebf71354c3542e3\", \"5b6d99689d12358eeca04b141236fa81\"], \"count\": 4096}, {\"name\": \"second\", \"password\": \"quill\", \"mechanisms\": [\"SCRAM-SHA-256\"], \"salts\": [\"00112233445566778899aabbccddeeff\"], \"count\": 4097}], \"nonce\": \"3rfcNHYJY1ZVvWVs7j\"}\n";

// What the client sends: hello for the second user, the first one and one that isn't there; then the second user's login by
// SCRAM-SHA-256, without an empty exchange, and a ping.
pub(super) const ASKED: [&[u8]; 6] = [
    b"Y\0\0\0\x01\0\0\0\0\0\0\0\xdd\x07\0\0\0\0\0\0\0D\0\0\0\x10hello\0\x01\0\0\0\x02saslSupportedMechs\0\x0d\0\0\0admin.second\0\x02$db\0\x06\0\0\0admin\0\0",
    b"W\0\0\0\x02\0\0\0\0\0\0\0\xdd\x07\0\0\0\0\0\0\0B\0\0\0\x10hello\0\x01\0\0\0\x02saslSupportedMechs\0\x0b\0\0\0admin.user\0\x02$db\0\x06\0\0\0admin\0\0",
    b"X\0\0\0\x03\0\0\0\0\0\0\0\xdd\x07\0\0\0\0\0\0\0C\0\0\0\x10hello\0\x01\0\0\0\x02saslSupportedMechs\0\x0c\0\0\0admin.other\0\x02$db\0\x06\0\0\0admin\0\0",
    b"\xa7\0\0\0\x04\0\0\0\0\0\0\0\xdd\x07\0\0\0\0\0\0\0\x92\0\0\0\x10saslStart\0\x01\0\0\0\x02mechanism\0\x0e\0\0\0SCRAM-SHA-256\0\x05payload\0\"\0\0\0\0n,,n=second,r=rOprNGfwEbeRWgbNEkqO\x03options\0\x19\0\0\0\x08skipEmptyExchange\0\x01\0\x02$db\0\x06\0\0\0admin\0\0",
    b"\xbb\0\0\0\x05\0\0\0\0\0\0\0\xdd\x07\0\0\0\0\0\0\0\xa6\0\0\0\x10saslContinue\0\x01\0\0\0\x10conversationId\0\x01\0\0\0\x05payload\0^\0\0\0\0c=biws,r=rOprNGfwEbeRWgbNEkqO3rfcNHYJY1ZVvWVs7j,p=Y/o3emhKGCo5nKZQvs553QoFpuy/t2XfQF58vHgzgSI=\x02$db\0\x06\0\0\0admin\0\0",
    b"3\0\0\0\x06\0\0\0\0\0\0\0\xdd\x07\0\0\0\0\0\0\0\x1e\0\0\0\x10ping\0\x01\0\0\0\x02$db\0\x06\0\0\0admin\0\0",
];

// The replies, numbered from 1.
pub(super) const ANSWERED: [&[u8]; 6] = [
    b"3\x01\0\0\x01\0\0\0\x01\0\0\0\xdd\x07\0\0\0\0\0\0\0\x1e\x01\0\0\x08helloOk\0\x01\x10maxBsonObjectSize\0\0\0\0\x01\x10maxMessageSizeBytes\0\0l\xdc\x02\x10maxWriteBatchSize\0\xa0\x86\x01\0\x09localTime\0\0\0\0\0\0\0\0\0\x10logicalSessionTimeoutMinutes\0\x1e\0\0\0\x10connectionId\0\x01\0\0\0\x10minWireVersion\0\0\0\0\0\x10maxWireVersion\0\x15\0\0\0\x08readOnly\0\0\x08isWritablePrimary\0\x01\x04saslSupportedMechs\0\x1a\0\0\0\x020\0\x0e\0\0\0SCRAM-SHA-256\0\0\x01ok\0\0\0\0\0\0\0\xf0?\0",
    b"F\x01\0\0\x02\0\0\0\x02\0\0\0\xdd\x07\0\0\0\0\0\0\01\x01\0\0\x08helloOk\0\x01\x10maxBsonObjectSize\0\0\0\0\x01\x10maxMessageSizeBytes\0\0l\xdc\x02\x10maxWriteBatchSize\0\xa0\x86\x01\0\x09localTime\0\0\0\0\0\0\0\0\0\x10logicalSessionTimeoutMinutes\0\x1e\0\0\0\x10connectionId\0\x01\0\0\0\x10minWireVersion\0\0\0\0\0\x10maxWireVersion\0\x15\0\0\0\x08readOnly\0\0\x08isWritablePrimary\0\x01\x04saslSupportedMechs\0-\0\0\0\x020\0\x0c\0\0\0SCRAM-SHA-1\0\x021\0\x0e\0\0\0SCRAM-SHA-256\0\0\x01ok\0\0\0\0\0\0\0\xf0?\0",
    b"\x05\x01\0\0\x03\0\0\0\x03\0\0\0\xdd\x07\0\0\0\0\0\0\0\xf0\0\0\0\x08helloOk\0\x01\x10maxBsonObjectSize\0\0\0\0\x01\x10maxMessageSizeBytes\0\0l\xdc\x02\x10maxWriteBatchSize\0\xa0\x86\x01\0\x09localTime\0\0\0\0\0\0\0\0\0\x10logicalSessionTimeoutMinutes\0\x1e\0\0\0\x10connectionId\0\x01\0\0\0\x10minWireVersion\0\0\0\0\0\x10maxWireVersion\0\x15\0\0\0\x08readOnly\0\0\x08isWritablePrimary\0\x01\x01ok\0\0\0\0\0\0\0\xf0?\0",
    b"\x99\0\0\0\x04\0\0\0\x04\0\0\0\xdd\x07\0\0\0\0\0\0\0\x84\0\0\0\x10conversationId\0\x01\0\0\0\x08done\0\0\x05payload\0J\0\0\0\0r=rOprNGfwEbeRWgbNEkqO3rfcNHYJY1ZVvWVs7j,s=ABEiM0RVZneImaq7zN3u/w==,i=4097\x01ok\0\0\0\0\0\0\0\xf0?\0",
    b"}\0\0\0\x05\0\0\0\x05\0\0\0\xdd\x07\0\0\0\0\0\0\0h\0\0\0\x10conversationId\0\x01\0\0\0\x08done\0\x01\x05payload\0.\0\0\0\0v=WUyKGLR6jLSqEAIu0Dx7mO1YBbXbCh/pn1hT5BWIRbY=\x01ok\0\0\0\0\0\0\0\xf0?\0",
    b"&\0\0\0\x06\0\0\0\x06\0\0\0\xdd\x07\0\0\0\0\0\0\0\x11\0\0\0\x01ok\0\0\0\0\0\0\0\xf0?\0",
];

// What is told of a client that sent the first so many of these: the mechanisms of the second user, the first one's, and none where
// there is no such user; the login begins, is proved, and a ping is answered.
pub(super) fn report_of_two(pieces: usize) -> [&'static str; 2] {
    let user = if pieces < 5 {
        "nobody was logged in\n"
    } else {
        "logged in: \"second\"\n"
    };
    [user, "the client ended its stream\n"]
}
