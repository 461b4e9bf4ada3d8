ghost use Rattle.std.specs.Prelude.{◌≡◌, ◌↔◌, IsTrue};
ghost use Rattle.mongo_aws.specs.Credentials.{IsVisible, AreVisible, is_visible};

use mongo_sasl::AwsCredentials;

/// Whether the access key, the secret key, and the session token where there is one, are of visible characters of ASCII, and none is
/// empty.
pub(crate) fn are_visible(credentials: &AwsCredentials) -> bool
    ensures { IsTrue result ↔ AreVisible credentials.now }
{
    is_visible_text(credentials.access_key.as_str())
        && is_visible_text(credentials.secret_key.as_str())
        && match &credentials.session_token {
            Some(token) => is_visible_text(token.as_str()),
            None => true,
        }
}

// Whether a text is of visible characters of ASCII, of which there is one at least.
fn is_visible_text(text: &str) -> bool
    ensures { IsTrue result ↔ IsVisible text.now }
{
    !text.is_empty() && text.as_bytes().iter().all(|byte| is_visible(*byte))
}

fn is_visible(byte: u8) -> bool
    ensures { result ≡ is_visible byte }
{
    33 <= byte && byte <= 126
}
