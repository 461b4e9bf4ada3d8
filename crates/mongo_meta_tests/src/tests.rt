mod appending;
mod environments;
mod forms;

use mongo_bson::{BsonFault, RawDocumentBuf, Text};
use mongo_command::both;
use mongo_meta::{
    ClientMetadata, ClientOptions, DEFAULT_PLATFORM, DEFAULT_PLATFORM_SHORT, DriverInfo,
    Environment, OsMetadata, Variable, Variables,
};
use mongo_wire::Error;
use std::alloc::Global;
use std::fmt::Debug;
use std::test::Fail;

/// What a client gives of its own: the name of its application, the version of the library `mapper` that stands on the
/// driver, the name and the version of its operating system, and the variables of its environment as a row.
#[derive(Clone, Copy)]
struct Given<'a> {
    app_name: Option<&'a str>,
    library: Option<&'a str>,
    os_name: Option<&'a str>,
    os_version: Option<&'a str>,
    row: &'a str,
}

const NOTHING: Given<'static> = Given {
    app_name: None,
    library: None,
    os_name: None,
    os_version: None,
    row: "",
};

// What a call gives, or its error as why the test fails. An `Error` is large where a proof holds it, so it is held here alone.
fn outcome<T: Drop, E: Debug + Drop>(answer: Result<T, E>) -> Result<T, Fail> {
    Ok(answer?)
}

// A copy of this variable.
fn variable(alloc: Global, name: &str, value: &str) -> Result<Variable, BsonFault> {
    let made = Variable {
        name: Text::from_slice(alloc, name)?,
        value: Text::from_slice(alloc, value)?,
    };
    made.try_clone(alloc)
}

// The variables of a row: each NAME=VALUE, apart by semicolons.
fn variables(alloc: Global, row: &str) -> Result<Variables, BsonFault> {
    let mut held = Variables::new(alloc);
    for word in row.split(';') {
        if let Some((name, value)) = word.split_once('=') {
            held.push(variable(alloc, name, value)?)?;
        }
    }
    Ok(held)
}

// A copy of the environment of a row's variables. The word docker among them stands for a container.
fn environment(alloc: Global, row: &str) -> Result<Environment, BsonFault> {
    let made = Environment {
        dockerenv: row.split(';').any(|word| word == "docker"),
        variables: variables(alloc, row)?,
    };
    made.try_clone(alloc)
}

fn text(alloc: Global, given: Option<&str>) -> Result<Option<Text>, BsonFault> {
    match given {
        Some(given) => Ok(Some(Text::from_slice(alloc, given)?)),
        None => Ok(None),
    }
}

fn os(alloc: Global, given: &Given<'_>) -> Result<OsMetadata, BsonFault> {
    Ok(OsMetadata {
        os_type: Text::from_slice(alloc, "linux")?,
        architecture: Some(Text::from_slice(alloc, "x86_64")?),
        name: text(alloc, given.os_name)?,
        version: text(alloc, given.os_version)?,
    })
}

// The library of this version, which names what it runs on, or doesn't.
fn library(alloc: Global, version: &str, platform: Option<&str>) -> Result<DriverInfo, BsonFault> {
    Ok(DriverInfo {
        name: Text::from_slice(alloc, "mapper")?,
        version: Some(Text::from_slice(alloc, version)?),
        platform: text(alloc, platform)?,
    })
}

fn driver_info(alloc: Global, given: &Given<'_>) -> Result<Option<DriverInfo>, BsonFault> {
    match given.library {
        Some(version) => Ok(Some(library(alloc, version, None)?)),
        None => Ok(None),
    }
}

fn options(alloc: Global, given: &Given<'_>) -> Result<ClientOptions, BsonFault> {
    let platforms = both(
        Text::from_slice(alloc, DEFAULT_PLATFORM),
        Text::from_slice(alloc, DEFAULT_PLATFORM_SHORT),
    );
    let system = both(os(alloc, given), environment(alloc, given.row));
    let client = both(text(alloc, given.app_name), driver_info(alloc, given));
    let ((platforms, system), (app_name, driver_info)) = both(both(platforms, system), client)?;
    let ((platform, platform_short), (os, environment)) = (platforms, system);
    Ok(ClientOptions {
        server_api: None,
        load_balanced: false,
        platform,
        platform_short,
        os,
        environment,
        app_name,
        driver_info,
    })
}

// A copy of them.
fn copied_options(alloc: Global, given: &Given<'_>) -> Result<ClientOptions, BsonFault> {
    options(alloc, given)?.try_clone(alloc)
}

// What a client says of itself, by a copy of its options.
fn metadata(alloc: Global, given: &Given<'_>) -> Result<ClientMetadata, Error> {
    let options = copied_options(alloc, given)?;
    ClientMetadata::from_options(alloc, &options)
}

// The document of a client in a hello of which so many bytes stand before it.
fn sent(alloc: Global, given: &Given<'_>, before: usize) -> Result<RawDocumentBuf, Error> {
    let metadata = metadata(alloc, given)?;
    metadata.client_document(alloc, before)
}
