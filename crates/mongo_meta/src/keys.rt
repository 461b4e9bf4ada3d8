//! Keys that stand in more than one document of a client's metadata.

// What the application, the driver, the operating system or the provider is called.
pub(crate) const NAME: &str = "name";

// The version of the driver, or of the operating system.
pub(crate) const VERSION: &str = "version";

// The family of the operating system, in its whole document and in the one of the type alone.
pub(crate) const TYPE: &str = "type";

// What the provider runs functions on; what runs a container.
pub(crate) const RUNTIME: &str = "runtime";
