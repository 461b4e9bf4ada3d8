// The forms that metadata take in a hello, from the longest to the shortest. Each is shorter by what it names, on top of the
// one before it.
#[derive(Clone, Copy, Drop)]
pub(crate) enum Form {
    // all that there is
    Whole,
    // of `env` the name alone
    EnvironmentName,
    // of `os` the type alone
    OsType,
    // no `env`
    NoEnvironment,
    // the short text of the platform
    ShortPlatform,
}
