use mongo_bson::{Bytes, Text};

/// The last messages of a login that both sides accepted (RFC 5802, section 7).
#[derive(Debug, Drop)]
pub struct Acceptance {
    /// The client's, `c=biws,r=` nonce `,p=` proof in base64.
    pub client_final: Bytes,
    /// The server's, `v=` verifier in base64.
    pub server_final: Text,
}
