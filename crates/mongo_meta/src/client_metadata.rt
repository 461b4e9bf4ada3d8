ghost use Rattle.std.specs.Prelude.{◌≡◌, ◌++◌, IfOk, IfErr, OnErr, OnOk};
ghost use Rattle.mongo_command.specs.Arguments.{TooLongFor};
ghost use Rattle.mongo_meta.specs.Options.{with_part, bar};

use crate::driver_info::holds;
use crate::keys::{NAME, VERSION};
use crate::text_fields::owned_text_field;
use crate::{ClientOptions, DriverInfo, DriverInfos, OsMetadata, RuntimeEnvironment};
use mongo_bson::{BsonFault, RawDocumentBuf, Text, TryClone, copy_of};
use mongo_command::{both, document_of};
use mongo_wire::Error;
use std::alloc::Global;

/// The application that the client serves.
#[derive(Debug, Drop, PartialEq)]
pub struct AppMetadata {
    /// Its name.
    pub name: Text,
}

impl AppMetadata {
    ghost use Rattle.mongo_meta.specs.Metadata.{application_document};

    /// A copy.
    pub fn try_clone(&self, alloc: Global) -> Result<AppMetadata, BsonFault>
        ensures copied { IfOk result (λ application. application ≡ self.now) }
        ensures refused { IfErr result (λ fault. fault ≡ BsonFault.OutOfMemory) }
    {
        Ok(AppMetadata {
            name: self.name.try_clone(alloc)?,
        })
    }

    // The document `{name}`.
    pub(crate) fn document(&self, alloc: Global) -> Result<RawDocumentBuf, BsonFault>
        ensures document { IfOk result (λ document. document ≡ application_document self.now) }
        ensures refused { IfErr result (λ fault. TooLongFor fault (application_document self.now)) }
    {
        document_of(alloc, &[owned_text_field(NAME, &self.name)])
    }
}

impl TryClone for AppMetadata {
    fn try_clone(&self, alloc: Global) -> Result<AppMetadata, BsonFault> {
        AppMetadata::try_clone(self, alloc)
    }
}

/// The driver, and the libraries that added themselves to it.
#[derive(Debug, PartialEq)]
pub struct DriverMetadata {
    /// Its name.
    pub name: Text,
    /// Its version.
    pub version: Text,
}

// Dropped by a call, so that the proofs of its owners don't walk through its parts.
impl Drop for DriverMetadata {
    fn drop(self) {
        let DriverMetadata {
            name: _,
            version: _,
        } = self;
    }
}

impl DriverMetadata {
    ghost use Rattle.mongo_meta.specs.Metadata.{driver_document};
    ghost use Rattle.mongo_meta.specs.Options.{this_driver};

    /// A copy.
    pub fn try_clone(&self, alloc: Global) -> Result<DriverMetadata, BsonFault>
        ensures copied { IfOk result (λ driver. driver ≡ self.now) }
        ensures refused { IfErr result (λ fault. fault ≡ BsonFault.OutOfMemory) }
    {
        Ok(DriverMetadata {
            name: self.name.try_clone(alloc)?,
            version: self.version.try_clone(alloc)?,
        })
    }

    // The driver itself.
    fn of_driver(alloc: Global) -> Result<DriverMetadata, BsonFault>
        ensures driver { IfOk result (λ driver. driver ≡ this_driver) }
        ensures refused { IfErr result (λ fault. fault ≡ BsonFault.OutOfMemory) }
    {
        Ok(DriverMetadata {
            name: Text::from_slice(alloc, "mongo-rust-driver")?,
            version: Text::from_slice(alloc, "3.9.1")?,
        })
    }

    // The document `{name, version}`.
    pub(crate) fn document(&self, alloc: Global) -> Result<RawDocumentBuf, BsonFault>
        ensures document { IfOk result (λ document. document ≡ driver_document self.now) }
        ensures refused { IfErr result (λ fault. TooLongFor fault (driver_document self.now)) }
    {
        document_of(
            alloc,
            &[
                owned_text_field(NAME, &self.name),
                owned_text_field(VERSION, &self.version),
            ],
        )
    }
}

/// What a client tells a server of itself.
#[derive(Debug, PartialEq)]
pub struct ClientMetadata {
    /// The application.
    pub application: Option<AppMetadata>,
    /// The driver.
    pub driver: DriverMetadata,
    /// The operating system.
    pub os: OsMetadata,
    /// What the driver runs on.
    pub platform: Text,
    /// The same in short.
    pub platform_short: Text,
    /// Where the client runs, where that is seen.
    pub env: Option<RuntimeEnvironment>,
    /// The libraries that added themselves.
    pub appended: DriverInfos,
}

// Dropped by a call, so that the proofs of its owners don't walk through its parts.
impl Drop for ClientMetadata {
    fn drop(self) {
        let ClientMetadata {
            application: _,
            driver: _,
            os: _,
            platform: _,
            platform_short: _,
            env: _,
            appended: _,
        } = self;
    }
}

impl ClientMetadata {
    ghost use Rattle.mongo_meta.specs.declared.client_metadata.ClientMetadata.{ClientMetadata};
    ghost use Rattle.mongo_meta.specs.Options.{metadata_of, client_metadata_of, with_library, Appends};
    ghost use Rattle.mongo_wire.specs.declared.error.ErrorKind.TheVariants.{OutOfMemory};

    /// The metadata of a client with these options: the application, the driver `mongo-rust-driver` of version 3.9.1,
    /// the operating system, the platform, what the environment shows, and the library that the options name.
    #[tactic(auto, unfolding(crate::specs::Options::metadata_of))]
    pub fn from_options(alloc: Global, options: &ClientOptions) -> Result<ClientMetadata, Error>
        ensures metadata { IfOk result (λ metadata. metadata ≡ metadata_of options.now) }
        ensures refused { IfErr result (λ e. e.kind ≡ OutOfMemory) }
    {
        let library = copy_of(alloc, &options.driver_info)?;
        let mut metadata = ClientMetadata::of_client(alloc, options)?;
        if let Some(info) = library {
            metadata.append(info)?;
        }
        Ok(metadata)
    }

    // The metadata without the library that the options name.
    fn of_client(alloc: Global, options: &ClientOptions) -> Result<ClientMetadata, Error>
        ensures metadata { IfOk result (λ metadata. metadata ≡ client_metadata_of options.now) }
        ensures refused { IfErr result (λ e. e.kind ≡ OutOfMemory) }
    {
        let driver = DriverMetadata::of_driver(alloc)?;
        let application = match &options.app_name {
            Some(name) => Some(AppMetadata {
                name: name.try_clone(alloc)?,
            }),
            None => None,
        };
        let env = RuntimeEnvironment::from_environment(alloc, &options.environment)?;
        let (os, platform, platform_short) = options
            .os
            .copy_with(alloc, &options.platform, &options.platform_short)?;
        Ok(ClientMetadata {
            application,
            driver,
            os,
            platform,
            platform_short,
            env,
            appended: DriverInfos::new(alloc),
        })
    }

    /// Adds a library: its name to the driver's behind a bar, and its version and platform to the driver's version and the
    /// platform, behind a bar each, where they are there and not empty. A library that added itself before adds nothing
    /// more.
    ///
    /// A refusal leaves the metadata as they were.
    pub fn append(&mut self, info: DriverInfo) -> Result<(), Error>
        ensures appended { OnOk result (Appends self.old info self.new) }
        ensures once { OnOk result ((again : ClientMetadata) → Appends self.new info again → again ≡ self.new) }
        ensures unchanged { OnErr result (self.new ≡ self.old) }
        ensures refused { IfErr result (λ e. e.kind ≡ OutOfMemory) }
    {
        if holds(self.appended.as_slice(), &info) {
            return Ok(());
        }
        let (driver, platform) = self.grown_by(&info)?;
        self.appended.push(info)?;
        self.driver = driver;
        self.platform = platform;
        Ok(())
    }

    // The driver and the platform with what a library adds to them.
    fn grown_by(&self, info: &DriverInfo) -> Result<(DriverMetadata, Text), BsonFault>
        ensures driver { IfOk result (λ grown. grown.0 ≡ (with_library self.now info.now).driver) }
        ensures platform { IfOk result (λ grown. grown.1 ≡ (with_library self.now info.now).platform) }
        ensures refused { IfErr result (λ fault. fault ≡ BsonFault.OutOfMemory) }
    {
        let name = with_name(&self.driver.name, &info.name)?;
        let version = with_part(&self.driver.version, &info.version)?;
        let platform = with_part(&self.platform, &info.platform)?;
        Ok((DriverMetadata { name, version }, platform))
    }

    /// A copy.
    pub fn try_clone(&self, alloc: Global) -> Result<ClientMetadata, BsonFault>
        ensures copied { IfOk result (λ metadata. metadata ≡ self.now) }
        ensures refused { IfErr result (λ fault. fault ≡ BsonFault.OutOfMemory) }
    {
        let driver = both(self.appended.try_clone(alloc), self.driver.try_clone(alloc));
        let client = both(copy_of(alloc, &self.application), copy_of(alloc, &self.env));
        let system = self
            .os
            .copy_with(alloc, &self.platform, &self.platform_short);
        let ((driver, client), system) = both(both(driver, client), system)?;
        let (appended, driver) = driver;
        let (application, env) = client;
        let (os, platform, platform_short) = system;
        Ok(ClientMetadata {
            application,
            driver,
            os,
            platform,
            platform_short,
            env,
            appended,
        })
    }
}

// A text, a bar and a name.
fn with_name(text: &Text, name: &Text) -> Result<Text, BsonFault>
    ensures text { IfOk result (λ grown. grown ≡ text.now ++ (bar ++ name.now)) }
    ensures refused { IfErr result (λ fault. fault ≡ BsonFault.OutOfMemory) }
{
    let mut grown = text.try_clone(text.allocator())?;
    grown.push_str("|")?;
    grown.push_str(name.as_str())?;
    Ok(grown)
}

// A text, and a bar and a part where that is there and not empty.
fn with_part(text: &Text, part: &Option<Text>) -> Result<Text, BsonFault>
    ensures text { IfOk result (λ grown. grown ≡ with_part text.now part.now) }
    ensures refused { IfErr result (λ fault. fault ≡ BsonFault.OutOfMemory) }
{
    match part {
        Some(part) if !part.as_str().is_empty() => with_name(text, part),
        _ => text.try_clone(text.allocator()),
    }
}
