//! The letters of SCRAM's messages (RFC 5802, section 7): an attribute is a letter and its equals sign. `NEXT_` stands before one
//! that follows another, behind a comma.

/// What the client says of channel binding: it has none, and names no other user (`gs2-header`).
pub const GS2_HEADER: &str = "n,,";

/// The user's name, as the client says it.
pub const USER_NAME: &str = "n=";

/// What stands behind an `=` in a user's name in place of an equals sign.
pub const EQUALS_CODE: &str = "3D";

/// What stands behind an `=` in a user's name in place of a comma.
pub const COMMA_CODE: &str = "2C";

/// The nonce: the client's own, and joined with the server's from then on.
pub const NONCE: &str = "r=";

/// The nonce where it follows the user's name.
pub const NEXT_NONCE: &str = ",r=";

/// The nonce in the client's last message, behind its channel binding: that is none, for `biws` is `n,,` in base64.
pub const BOUND_NONCE: &str = "c=biws,r=";

/// The salt, in base64.
pub const SALT: &str = "s=";

/// The salt behind the joined nonce.
pub const NEXT_SALT: &str = ",s=";

/// The iteration count.
pub const ITERATION_COUNT: &str = "i=";

/// The iteration count behind the salt.
pub const NEXT_ITERATION_COUNT: &str = ",i=";

/// The client's proof, in base64.
pub const PROOF: &str = "p=";

/// The client's proof behind the rest of its last message.
pub const NEXT_PROOF: &str = ",p=";

/// The server's verifier, in base64.
pub const VERIFIER: &str = "v=";

/// Why the server refuses the client.
pub const ERROR: &str = "e=";
