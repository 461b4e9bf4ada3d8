// The host of STS that the server names.

ghost use Rattle.std.specs.Prelude.{◌≡◌, ◌↔◌, IsTrue, Some, slice_get};
ghost use Rattle.mongo_aws.specs.Host.{HasHostCharacters, HasNoEmptyLabel, is_host_character, labels, region_of};

/// The greatest length of a host in bytes.
pub(crate) const LONGEST_HOST: usize = 255;

// The host of STS that is in no region by its name.
const GLOBAL_HOST: &str = "sts.amazonaws.com";

// The region of that host, and of one that has a single label.
const DEFAULT_REGION: &str = "us-east-1";

/// Whether a host is of letters and digits of ASCII, `-`, `_` and `.` alone.
pub(crate) fn has_host_characters(host: &str) -> bool
    ensures { IsTrue result ↔ HasHostCharacters host.now }
{
    host.as_bytes().iter().all(|byte| is_host_character(*byte))
}

fn is_host_character(byte: u8) -> bool
    ensures { result ≡ is_host_character byte }
{
    byte.is_ascii_alphanumeric() || byte == b'-' || byte == b'_' || byte == b'.'
}

/// Whether no label of a host is empty; full stops part its labels.
pub(crate) fn has_no_empty_label(host: &str) -> bool
    ensures { IsTrue result ↔ HasNoEmptyLabel host.now }
{
    host.split('.').all(|label| !label.is_empty())
}

/// The region of a host: `us-east-1` for `sts.amazonaws.com`, else the second label, or `us-east-1` without one.
pub(crate) fn region_of(host: &str) -> &str
    ensures { result.now ≡ region_of host.now }
{
    if host == GLOBAL_HOST {
        return DEFAULT_REGION;
    }
    match host.split_once('.') {
        Some((_first, rest)) => first_label(rest),
        None => DEFAULT_REGION,
    }
}

// The first label of a host.
fn first_label(host: &str) -> &str
    ensures { slice_get (labels host.now) 0 ≡ Some result.now }
{
    match host.split_once('.') {
        Some((first, _rest)) => first,
        None => host,
    }
}
