use mongo_establish::{LoginInputs, Nonces};

/// What a server answered to one connection, and what was drawn for that.
#[derive(Clone, Copy)]
pub struct Recorded {
    /// The frames of its replies.
    pub replies: &'static [u8],
    /// The nonces of the login, and its time.
    pub inputs: LoginInputs,
}

/// What was recorded of two connections, in the order in which they were made.
pub fn recordings() -> [Recorded; 2] {
    [recording_of(FIRST, 0), recording_of(SECOND, 2)]
}

// The replies to a login whose nonces are 32 times this byte, and 32 times the byte after it.
fn recording_of(replies: &'static [u8], byte: u8) -> Recorded {
    let nonces = Nonces {
        first: [byte; 32],
        second: [byte | 1; 32],
    };
    Recorded {
        replies,
        inputs: LoginInputs::of_nonces(nonces),
    }
}

// A primary's replies to the hello of `user`, whose password is `pencil`, and to the last message of the login by
// SCRAM-SHA-256 that the hello began.
const FIRST: &[u8] =
    b"\xa0\x01\0\0\x01\0\0\0\0\0\0\0\xdd\x07\0\0\0\0\0\0\0\x8b\x01\0\0\x01ok\0\0\0\0\0\0\0\xf0?\x10maxBsonObjectSize\0\0\0\0\x01\x10maxMessageSizeBytes\0\0l\xdc\x02\x08isWritablePrimary\0\x01\x02setName\0\x04\0\0\0rs0\0\x10minWireVersion\0\0\0\0\0\x10maxWireVersion\0\x19\0\0\0\x10logicalSessionTimeoutMinutes\0\x1e\0\0\0\x04saslSupportedMechs\0-\0\0\0\x020\0\x0c\0\0\0SCRAM-SHA-1\0\x021\0\x0e\0\0\0SCRAM-SHA-256\0\0\x03speculativeAuthenticate\0\x81\0\0\0\x10conversationId\0\x01\0\0\0\x08done\0\0\x05payload\0S\0\0\0\0r=AAAAAAAAAAAAAAAAAAAAAAAAAAAAAAAAAAAAAAAAAAA=srv,s=W22ZaJ0SNY7soEsUEjb6gQ==,i=4096\0\0}\0\0\0\x01\0\0\0\0\0\0\0\xdd\x07\0\0\0\0\0\0\0h\0\0\0\x01ok\0\0\0\0\0\0\0\xf0?\x10conversationId\0\x01\0\0\0\x08done\0\x01\x05payload\0.\0\0\0\0v=GU1A69Cdt0AqzGlp0kUmRIJxcJmERkI8U5Lse1KUKhk=\0";

const SECOND: &[u8] =
    b"\xa0\x01\0\0\x01\0\0\0\0\0\0\0\xdd\x07\0\0\0\0\0\0\0\x8b\x01\0\0\x01ok\0\0\0\0\0\0\0\xf0?\x10maxBsonObjectSize\0\0\0\0\x01\x10maxMessageSizeBytes\0\0l\xdc\x02\x08isWritablePrimary\0\x01\x02setName\0\x04\0\0\0rs0\0\x10minWireVersion\0\0\0\0\0\x10maxWireVersion\0\x19\0\0\0\x10logicalSessionTimeoutMinutes\0\x1e\0\0\0\x04saslSupportedMechs\0-\0\0\0\x020\0\x0c\0\0\0SCRAM-SHA-1\0\x021\0\x0e\0\0\0SCRAM-SHA-256\0\0\x03speculativeAuthenticate\0\x81\0\0\0\x10conversationId\0\x01\0\0\0\x08done\0\0\x05payload\0S\0\0\0\0r=AgICAgICAgICAgICAgICAgICAgICAgICAgICAgICAgI=srv,s=W22ZaJ0SNY7soEsUEjb6gQ==,i=4096\0\0}\0\0\0\x01\0\0\0\0\0\0\0\xdd\x07\0\0\0\0\0\0\0h\0\0\0\x01ok\0\0\0\0\0\0\0\xf0?\x10conversationId\0\x01\0\0\0\x08done\0\x01\x05payload\0.\0\0\0\0v=Ne7KM1FrRYce1eHXel3xd4WNdS4atCsVT/yOd+C45g0=\0";
