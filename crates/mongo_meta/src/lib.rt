//! What a client tells a server of itself, by the handshake specification: the client's metadata, which a hello carries.
//!
//! A [`ClientMetadata`] is made once of [`ClientOptions`], which hold all that it says: the application's name, the operating
//! system, the platform, and the variables by which the provider of a function ([`FaasEnvironmentName`]) and a container
//! are found. Libraries that stand on the driver add themselves ([`ClientMetadata::append`]).
//!
//! A hello carries the first of five forms with which its body, the key and the metadata have 512 bytes together at most, or else
//! the last ([`ClientMetadata::client_document`]): the whole; `env` with its name alone; `os` with its type alone too; no `env`;
//! and with all that the short text of the platform.
//!
//! Nothing here asks the outside: variables and the rest are handed in. Want of memory may stand in place of any answer of
//! a call that is handed an allocator, and of [`ClientMetadata::append`].
#![tactic(auto)]

mod client_document;
mod client_metadata;
mod client_options;
mod container;
mod driver_info;
mod environment;
mod faas;
mod form;
mod keys;
mod os_metadata;
mod runtime_environment;
mod text_fields;

pub use client_metadata::{AppMetadata, ClientMetadata, DriverMetadata};
pub use client_options::{ClientOptions, DEFAULT_PLATFORM, DEFAULT_PLATFORM_SHORT};
pub use driver_info::{DriverInfo, DriverInfos};
pub use environment::{Environment, Variable, Variables};
pub use faas::FaasEnvironmentName;
pub use os_metadata::OsMetadata;
pub use runtime_environment::RuntimeEnvironment;
