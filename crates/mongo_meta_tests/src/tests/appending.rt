use super::{Given, NOTHING, library, metadata, outcome};
use mongo_meta::ClientMetadata;
use std::alloc::Global;
use std::test::Fail;

// A client of the library `mapper` 2, for an application in a container.
const MAPPED: Given<'static> = Given {
    app_name: Some("shop"),
    library: Some("2"),
    row: "AWS_EXECUTION_ENV=AWS_Lambda_java8;AWS_REGION=us-east-2;docker",
    ..NOTHING
};

// Adds the library of this version and platform, and says whether the metadata is another than its copy then.
fn changes(
    alloc: Global,
    metadata: &mut ClientMetadata,
    version: &str,
    platform: Option<&str>,
) -> Result<bool, Fail> {
    let made = metadata.try_clone(alloc)?;
    outcome(metadata.append(library(alloc, version, platform)?))?;
    Ok(*metadata != made)
}

// Whether the driver has this name and version, and this is the platform.
fn is_driver(metadata: &ClientMetadata, name: &str, version: &str, platform: &str) -> bool {
    metadata.driver.name.as_str() == name
        && metadata.driver.version.as_str() == version
        && metadata.platform.as_str() == platform
}

// Whether the application has this name, in a copy of it.
fn is_application(alloc: Global, metadata: &ClientMetadata, name: &str) -> Result<bool, Fail> {
    match &metadata.application {
        Some(application) => Ok(application.try_clone(alloc)?.name.as_str() == name),
        None => Ok(false),
    }
}

// What is asked of metadata, in a function that is generic over them, so that no other proof holds them.
trait Grows {
    fn grows_once(&mut self, alloc: Global) -> Result<bool, Fail>;
}

// Whether a library that added itself before adds nothing, and one of another version its name, its version and what it runs on: each
// goes behind the driver's own, after a bar.
impl Grows for ClientMetadata {
    fn grows_once(&mut self, alloc: Global) -> Result<bool, Fail> {
        let again = changes(alloc, self, "2", None)?;
        let is_once = is_driver(self, "mongo-rust-driver|mapper", "3.9.1|2", "rattle / sync");
        let other = changes(alloc, self, "3", Some("web"))?;
        let name = "mongo-rust-driver|mapper|mapper";
        let is_twice = is_driver(self, name, "3.9.1|2|3", "rattle / sync|web");
        Ok(!again && is_once && other && is_twice && is_application(alloc, self, "shop")?)
    }
}

fn grows_once<G: Grows + Drop>(alloc: Global, metadata: Result<G, Fail>) -> Result<bool, Fail> {
    let mut metadata = metadata?;
    metadata.grows_once(alloc)
}

#[test]
fn a_library_adds_itself_once(rt: HostRuntime) -> Result<(), Fail> {
    let mapped = outcome(metadata(rt.alloc(), &MAPPED));
    assert!(rt; grows_once(rt.alloc(), mapped)?);
    Ok(())
}
