ghost use Rattle.std.specs.Prelude.{◌≡◌, IfOk, IfErr};
ghost use Rattle.mongo_command.specs.Arguments.{TooLongFor};

use crate::keys::{NAME, TYPE, VERSION};
use crate::text_fields::owned_text_field;
use mongo_bson::{BsonFault, RawDocumentBuf, Text, copy_of};
use mongo_command::{both, document_of, optional_text_field};
use std::alloc::Global;

/// The operating system that the client runs on.
#[derive(Debug, Drop, PartialEq)]
pub struct OsMetadata {
    /// Its family (`type`), as `linux`.
    pub os_type: Text,
    /// Its name.
    pub name: Option<Text>,
    /// The machine's architecture.
    pub architecture: Option<Text>,
    /// Its version.
    pub version: Option<Text>,
}

impl OsMetadata {
    ghost use Rattle.mongo_meta.specs.Metadata.{os_document};
    ghost use Rattle.mongo_meta.specs.Client.{type_alone};
    ghost use Rattle.mongo_meta.specs.Options.{default_os};

    /// A `linux` on an `x86_64`, whose name and version aren't said.
    pub fn new(alloc: Global) -> Result<OsMetadata, BsonFault>
        ensures os { IfOk result (λ os. os ≡ default_os) }
        ensures refused { IfErr result (λ fault. fault ≡ BsonFault.OutOfMemory) }
    {
        let os_type = Text::from_slice(alloc, "linux")?;
        let architecture = Text::from_slice(alloc, "x86_64")?;
        Ok(OsMetadata {
            os_type,
            name: None,
            architecture: Some(architecture),
            version: None,
        })
    }

    /// A copy.
    pub fn try_clone(&self, alloc: Global) -> Result<OsMetadata, BsonFault>
        ensures copied { IfOk result (λ os. os ≡ self.now) }
        ensures refused { IfErr result (λ fault. fault ≡ BsonFault.OutOfMemory) }
    {
        let system = both(self.os_type.try_clone(alloc), copy_of(alloc, &self.name));
        let machine = both(
            copy_of(alloc, &self.architecture),
            copy_of(alloc, &self.version),
        );
        let ((os_type, name), (architecture, version)) = both(system, machine)?;
        Ok(OsMetadata {
            os_type,
            name,
            architecture,
            version,
        })
    }

    // A copy, and one of the long and of the short text of a platform: what the options of a client hand on to its metadata
    // as it is.
    pub(crate) fn copy_with(
        &self,
        alloc: Global,
        platform: &Text,
        platform_short: &Text,
    ) -> Result<(OsMetadata, Text, Text), BsonFault>
        ensures copied { IfOk result (λ copies. (copies.0 ≡ self.now) × (copies.1 ≡ platform.now) × (copies.2 ≡ platform_short.now)) }
        ensures refused { IfErr result (λ fault. fault ≡ BsonFault.OutOfMemory) }
    {
        let platforms = both(platform.try_clone(alloc), platform_short.try_clone(alloc));
        let (os, (platform, platform_short)) = both(self.try_clone(alloc), platforms)?;
        Ok((os, platform, platform_short))
    }

    // The document of what is there.
    pub(crate) fn document(&self, alloc: Global) -> Result<RawDocumentBuf, BsonFault>
        ensures document { IfOk result (λ document. document ≡ os_document self.now) }
        ensures refused { IfErr result (λ fault. TooLongFor fault (os_document self.now)) }
    {
        document_of(
            alloc,
            &[
                owned_text_field(TYPE, &self.os_type),
                optional_text_field(NAME, &self.name),
                optional_text_field("architecture", &self.architecture),
                optional_text_field(VERSION, &self.version),
            ],
        )
    }

    // The document of the type alone.
    pub(crate) fn type_document(&self, alloc: Global) -> Result<RawDocumentBuf, BsonFault>
        ensures document { IfOk result (λ document. document ≡ os_document (type_alone self.now)) }
        ensures refused { IfErr result (λ fault. TooLongFor fault (os_document (type_alone self.now))) }
    {
        document_of(alloc, &[owned_text_field(TYPE, &self.os_type)])
    }
}
