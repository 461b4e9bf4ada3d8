ghost use Rattle.std.specs.Prelude.{◌≡◌, IfOk, IfErr};
ghost use Rattle.mongo_meta.specs.Options.{default_options};

use crate::{DriverInfo, Environment, OsMetadata, Variables};
use mongo_bson::{BsonFault, Text, copy_of};
use mongo_command::{ServerApi, both};
use std::alloc::Global;

/// What a client runs on where nothing is said of it.
pub const DEFAULT_PLATFORM: &str = "rattle / sync";

/// The same in short.
pub const DEFAULT_PLATFORM_SHORT: &str = "rattle";

/// What a client is made of, as far as a connection needs it.
#[derive(Debug, Drop, PartialEq)]
pub struct ClientOptions {
    /// The application's name.
    pub app_name: Option<Text>,
    /// A library that stands on the driver.
    pub driver_info: Option<DriverInfo>,
    /// The stable API that commands declare.
    pub server_api: Option<ServerApi>,
    /// Whether the servers stand behind a load balancer.
    pub load_balanced: bool,
    /// The operating system.
    pub os: OsMetadata,
    /// What the driver runs on.
    pub platform: Text,
    /// The same in short, for metadata that have to be short.
    pub platform_short: Text,
    /// The variables and the files by which a provider and a container are found.
    pub environment: Environment,
}

impl ClientOptions {
    /// The options of a client of which nothing is said: on the default system and platform, without a name, a library, a
    /// stable API, a load balancer and an environment.
    pub fn new(alloc: Global) -> Result<ClientOptions, BsonFault>
        ensures options { IfOk result (λ options. options ≡ default_options) }
        ensures refused { IfErr result (λ fault. fault ≡ BsonFault.OutOfMemory) }
    {
        let platform = Text::from_slice(alloc, DEFAULT_PLATFORM)?;
        let platform_short = Text::from_slice(alloc, DEFAULT_PLATFORM_SHORT)?;
        // It is made last, so that fewer texts are dropped at a refusal.
        let os = OsMetadata::new(alloc)?;
        Ok(ClientOptions {
            app_name: None,
            driver_info: None,
            server_api: None,
            load_balanced: false,
            os,
            platform,
            platform_short,
            environment: Environment {
                variables: Variables::new(alloc),
                dockerenv: false,
            },
        })
    }

    /// A copy.
    pub fn try_clone(&self, alloc: Global) -> Result<ClientOptions, BsonFault>
        ensures copied { IfOk result (λ options. options ≡ self.now) }
        ensures refused { IfErr result (λ fault. fault ≡ BsonFault.OutOfMemory) }
    {
        let client = both(
            self.environment.try_clone(alloc),
            copy_of(alloc, &self.app_name),
        );
        let system = self
            .os
            .copy_with(alloc, &self.platform, &self.platform_short);
        let library = both(copy_of(alloc, &self.driver_info), system);
        let ((environment, app_name), (driver_info, system)) = both(client, library)?;
        let (os, platform, platform_short) = system;
        Ok(ClientOptions {
            app_name,
            driver_info,
            server_api: self.server_api,
            load_balanced: self.load_balanced,
            os,
            platform,
            platform_short,
            environment,
        })
    }
}
