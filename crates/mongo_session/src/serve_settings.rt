//! What the server is told: who may log in, and what it adds to a client's nonce.

ghost use Rattle.std.specs.Prelude.{◌≤◌};
ghost use Rattle.mongo_scram.specs.Validity.{least_count};
ghost use Rattle.mongo_server.specs.ClientMessages.{IsNonce};

mod reading;

use mongo_bson::{Bytes, Items, Text};
use mongo_scram::ScramVersion;
pub use reading::{ServeSettingsError, serve_settings_of};

/// A user that may log in by one mechanism.
#[derive(Drop)]
pub struct Account {
    /// The user's name.
    pub name: Text,
    /// The user's password.
    pub password: Text,
    /// The mechanism, SCRAM-SHA-1 or SCRAM-SHA-256.
    pub version: ScramVersion,
    /// The salt of the user's key by this mechanism.
    pub salt: Bytes,
    /// The iteration count of the key.
    pub count: u32,
    // as many as RFC 7677 asks for at least
    pub ghost enough: { least_count ≤ count },
}

/// Accounts, in the order of the text that says them.
pub type Accounts = Items<Account>;

/// Who may log in, and what the server adds to a client's nonce.
#[derive(Drop)]
pub struct ServeSettings {
    /// The users in the order of the text, once for each mechanism of theirs.
    pub accounts: Accounts,
    /// What is put behind a client's nonce: printable ASCII without a comma.
    pub suffix: Text,
    pub ghost printable: { IsNonce suffix },
}
