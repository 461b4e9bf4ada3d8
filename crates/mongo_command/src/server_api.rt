/// A version of the stable API.
#[derive(Clone, Copy, Debug, PartialEq, Eq)]
pub enum ServerApiVersion {
    /// Version `1`.
    V1,
}

impl ServerApiVersion {
    ghost use Rattle.std.specs.Prelude.{◌≡◌};
    ghost use Rattle.mongo_command.specs.Command.{version_text};

    /// The version's text, as commands carry it.
    pub fn as_str(&self) -> &'static str
        ensures { result.now ≡ version_text self.now }
    {
        match self {
            ServerApiVersion::V1 => "1",
        }
    }
}

/// The stable API that commands declare, by the versioned API specification.
#[derive(Clone, Copy, Debug, PartialEq, Eq)]
pub struct ServerApi {
    /// The version (`apiVersion`).
    pub version: ServerApiVersion,
    /// Whether commands outside the API are refused (`apiStrict`).
    pub strict: Option<bool>,
    /// Whether what the API deprecates is refused (`apiDeprecationErrors`).
    pub deprecation_errors: Option<bool>,
}
