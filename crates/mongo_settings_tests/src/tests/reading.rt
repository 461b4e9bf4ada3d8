use mongo_establish::{
    AuthMechanism, Credential, Generations, ObjectId, PoolGeneration, ServerAddress, Text,
};
use mongo_settings::{Settings, SettingsError, read_settings};
use std::alloc::Global;
use std::test::Fail;

/// What settings say.
#[derive(Clone, Copy)]
enum Wanted {
    /// The reply bytes, joined.
    Replies(&'static [u8]),
    /// The place, the port, the id and the generation of the connection.
    Connection(&'static str, Option<u16>, u32, u32),
    /// The pool's number for each of the two services.
    Services(Option<u32>, Option<u32>),
    /// Every key that is built but `unix`, which can't stand beside `host`: each with another value than that of its absence.
    Whole,
    /// The values of keys that are absent.
    Defaults,
}

const FIRST: ObjectId = ObjectId([0, 1, 2, 3, 4, 5, 6, 7, 8, 9, 10, 11]);

const SECOND: ObjectId = ObjectId([255, 1, 2, 3, 4, 5, 6, 7, 8, 9, 10, 11]);

// The document {a: [-1, "y"], b: "x"} of BSON 1.1, whose number is an int64.
const PROPERTIES: &[u8] =
    b"*\0\0\0\x04a\0\x19\0\0\0\x120\0\xff\xff\xff\xff\xff\xff\xff\xff\x021\0\x02\0\0\0y\0\0\x02b\0\x02\0\0\0x\0\0";

fn is_connection(
    settings: &Settings,
    place: &str,
    port: Option<u16>,
    id: u32,
    number: u32,
) -> bool {
    let (its_place, its_port) = match &settings.pending.address {
        ServerAddress::Tcp { host, port } => (host, *port),
        ServerAddress::Unix { path } => (path, None),
    };
    let PoolGeneration::Normal(its_number) = settings.pending.generation else {
        return false;
    };
    its_place.as_str() == place
        && its_port == port
        && settings.pending.id == id
        && its_number == number
}

fn are_numbers(numbers: &Generations, first: Option<u32>, second: Option<u32>) -> bool {
    numbers.get(FIRST) == first && numbers.get(SECOND) == second
}

fn is_text(part: &Option<Text>, text: &str) -> bool {
    match part {
        Some(part) => part.as_str() == text,
        None => false,
    }
}

fn is_whole_credential(credential: &Credential) -> bool {
    let Some(properties) = &credential.mechanism_properties else {
        return false;
    };
    is_text(&credential.username, "u")
        && is_text(&credential.source, "s")
        && is_text(&credential.password, "p")
        && credential.mechanism == Some(AuthMechanism::ScramSha1)
        && properties.as_bytes() == PROPERTIES
}

fn are_numbered(settings: &Settings, first_id: i32, max_iterations: u32, nonce: u8) -> bool {
    settings.nonces.first == [nonce; 32]
        && settings.nonces.second == [nonce.wrapping_add(1); 32]
        && settings.first_id == first_id
        && settings.max_iterations == max_iterations
}

// Where the connection goes, its id and what the client is made of, as they are printed: where every key is given, and where none
// is but `host`.
const WHOLE: &str =
    r#"Tcp { host: Text { text: "h" }, port: Some(3) } 2 ClientOptions { app_name: Some(Text { text: "a" }), driver_info: Some(DriverInfo { name: Text { text: "n" }, version: Some(Text { text: "v" }), platform: Some(Text { text: "l" }) }), server_api: Some(ServerApi { version: V1, strict: Some(true), deprecation_errors: Some(false) }), load_balanced: true, os: OsMetadata { os_type: Text { text: "t" }, name: Some(Text { text: "o" }), architecture: Some(Text { text: "c" }), version: Some(Text { text: "w" }) }, platform: Text { text: "f" }, platform_short: Text { text: "g" }, environment: Environment { variables: Items { held: [Variable { name: Text { text: "E" }, value: Text { text: "e" } }] }, dockerenv: true } }"#;

const DEFAULTS: &str =
    r#"Tcp { host: Text { text: "h" }, port: None } 1 ClientOptions { app_name: None, driver_info: None, server_api: None, load_balanced: false, os: OsMetadata { os_type: Text { text: "linux" }, name: None, architecture: Some(Text { text: "x86_64" }), version: None }, platform: Text { text: "rattle / sync" }, platform_short: Text { text: "rattle" }, environment: Environment { variables: Items { held: [] }, dockerenv: false } }"#;

fn is_printed_as(alloc: Global, settings: &Settings, text: &str) -> bool {
    let pending = &settings.pending;
    match format!(in alloc;
        "{:?} {} {:?}",
        pending.address, pending.id, settings.options
    ) {
        Ok(printed) => printed.as_str() == text,
        Err(_) => false,
    }
}

fn are_services(settings: &Settings, first: Option<u32>, second: Option<u32>) -> bool {
    match &settings.pending.generation {
        PoolGeneration::LoadBalanced(numbers) => are_numbers(numbers, first, second),
        PoolGeneration::Normal(_) => false,
    }
}

fn is_whole(settings: &Settings) -> bool {
    let Some(credential) = &settings.credential else {
        return false;
    };
    is_whole_credential(credential)
        && are_numbered(settings, i32::MIN, 4096, 2)
        && are_services(settings, Some(4), None)
        && settings.replies.as_bytes() == [5].as_slice()
}

fn say(alloc: Global, settings: &Settings, wanted: Wanted) -> bool {
    match wanted {
        Wanted::Replies(replies) => settings.replies.as_bytes() == replies,
        Wanted::Connection(place, port, id, number) => is_connection(
            settings, place, port, id, number,
        ),
        Wanted::Services(first, second) => {
            settings.options.load_balanced && are_services(settings, first, second)
        }
        Wanted::Whole => is_whole(settings) && is_printed_as(alloc, settings, WHOLE),
        Wanted::Defaults => {
            settings.credential.is_none()
                && settings.replies.as_bytes().is_empty()
                && are_numbered(settings, 0, 10_000_000, 0)
                && is_printed_as(alloc, settings, DEFAULTS)
        }
    }
}

// What can say something, as settings do.
trait Says {
    fn says(&self, alloc: Global, wanted: Wanted) -> bool;
}

impl Says for Settings {
    fn says(&self, alloc: Global, wanted: Wanted) -> bool {
        say(alloc, self, wanted)
    }
}

// Whether something was read that says this. Over any type, so that its proof doesn't walk through the parts of settings.
fn is_said<T: Says + Drop>(alloc: Global, read: Result<T, SettingsError>, wanted: Wanted) -> bool {
    match read {
        Ok(settings) => settings.says(alloc, wanted),
        Err(_) => false,
    }
}

// Whether a text is settings that say this.
fn reads(alloc: Global, text: &str, wanted: Wanted) -> bool {
    is_said(alloc, read_settings(alloc, text.as_bytes()), wanted)
}

// Settings, and what they say: a port beside a path says nothing, and of two keys that name one service the later in byte
// order counts; a float that a later key of its name takes the place of isn't there.
fn settings_at(place: u8) -> (&'static str, Wanted) {
    match place {
        0 => (
            "{\"host\": \"h\", \"replies\": [\"00fF\", \"\", \"Ab\"]} \n",
            Wanted::Replies(&[0, 255, 171]),
        ),
        1 => ("{\"host\":\"h\"}", Wanted::Connection("h", None, 1, 0)),
        2 => (
            "{\"host\":\"h\",\"port\":0,\"id\":0}",
            Wanted::Connection("h", Some(0), 0, 0),
        ),
        3 => (
            "{\"host\":\"\",\"port\":65535,\"id\":4294967295}",
            Wanted::Connection("", Some(65535), u32::MAX, 0),
        ),
        4 => (
            "{\"unix\":\"/s\",\"port\":1,\"generation\":4294967295}",
            Wanted::Connection("/s", None, 1, u32::MAX),
        ),
        5 => (
            "{\"host\":\"h\",\"load_balanced\":true,\"generations\":{}}",
            Wanted::Services(None, None),
        ),
        6 => (
            "{\"host\":\"h\",\"load_balanced\":true,\"generations\":{\"000102030405060708090a0b\":7}}",
            Wanted::Services(Some(7), None),
        ),
        7 => (
            "{\"host\":\"h\",\"load_balanced\":true,\"generations\":{\"000102030405060708090a0b\":8,\"000102030405060708090A0B\":7,\"ff0102030405060708090a0b\":0}}",
            Wanted::Services(Some(8), Some(0)),
        ),
        8 => (
            "{\"host\":\"h\",\"port\":3,\"id\":2,\"generation\":6,\"load_balanced\":true,\"generations\":{\"000102030405060708090a0b\":4},\"app_name\":\"a\",\"driver_info\":{\"name\":\"n\",\"version\":\"v\",\"platform\":\"l\"},\"server_api\":{\"version\":\"1\",\"strict\":true,\"deprecation_errors\":false},\"os\":{\"type\":\"t\",\"name\":\"o\",\"architecture\":\"c\",\"version\":\"w\"},\"platform\":\"f\",\"platform_short\":\"g\",\"environment\":[[\"E\",\"e\"]],\"dockerenv\":true,\"replies\":[\"05\"],\"first_id\":-2147483648,\"max_iterations\":4096,\"nonces\":[\"0202020202020202020202020202020202020202020202020202020202020202\",\"0303030303030303030303030303030303030303030303030303030303030303\"],\"credential\":{\"username\":\"u\",\"source\":\"s\",\"password\":\"p\",\"mechanism\":\"SCRAM-SHA-1\",\"properties\":{\"b\":\"x\",\"a\":[-1,\"y\"]}}}",
            Wanted::Whole,
        ),
        9 => (
            "{\"host\":\"h\",\"port\":1.5,\"port\":1}",
            Wanted::Connection("h", Some(1), 1, 0),
        ),
        _ => ("{\"host\":\"h\"}", Wanted::Defaults),
    }
}

#[test]
fn settings_are_read(rt: HostRuntime) {
    for place in 0..11 {
        let (text, wanted) = settings_at(place);
        assert!(rt; reads(rt.alloc(), text, wanted), "{place}");
    }
}

// Texts that are no settings, and why.
const REFUSED: &str = " => Some(BadSettings)
[] => Some(BadSettings)
{} => Some(BadSettings)
{\"host\":null} => Some(BadSettings)
{\"port\":1} => Some(BadSettings)
{\"hosts\":\"a\",\"credential\":{\"mechanism\":\"MONGODB-AWS\"}} => Some(BadSettings)
{\"host\":\"a\",\"credential\":1} => Some(BadSettings)
{\"host\":\"a\",\"credential\":{\"username\":1}} => Some(BadSettings)
{\"host\":\"a\",\"credential\":{\"user\":\"u\"}} => Some(BadSettings)
{\"host\":\"a\",\"os\":{\"type\":\"linux\",\"kernel\":\"6\"}} => Some(BadSettings)
{\"host\":\"a\",\"credential\":{\"mechanism\":\"GSSAPI\"}} => Some(BadSettings)
{\"host\":\"a\",\"credential\":{\"mechanism\":\"scram-sha-1\"}} => Some(BadSettings)
{\"host\":\"a\",\"credential\":{\"properties\":[]}} => Some(BadSettings)
{\"host\":\"a\",\"credential\":{\"properties\":{\"a\":true}}} => Some(BadSettings)
{\"host\":\"a\",\"credential\":{\"properties\":{\"a\":[[]]}}} => Some(BadSettings)
{\"host\":\"a\",\"credential\":{\"properties\":{\"a\":9223372036854775808}}} => Some(BadSettings)
{\"host\":\"a\",\"credential\":{\"properties\":{\"a\\u0000\":\"b\"}}} => Some(BadSettings)
{\"host\":\"a\",\"port\":65536} => Some(BadSettings)
{\"host\":\"a\",\"port\":-1} => Some(BadSettings)
{\"host\":\"a\",\"port\":1.5} => Some(BadSettings)
{\"host\":\"a\",\"port\":80.0} => Some(BadSettings)
{\"host\":\"a\",\"port\":-0} => Some(BadSettings)
{\"host\":\"a\",\"id\":4294967296} => Some(BadSettings)
{\"host\":\"a\",\"id\":18446744073709551616} => Some(BadSettings)
{\"host\":\"a\",\"generation\":true} => Some(BadSettings)
{\"host\":\"a\",\"load_balanced\":0} => Some(BadSettings)
{\"host\":\"a\",\"generations\":[]} => Some(BadSettings)
{\"host\":\"a\",\"generations\":{\"00\":1}} => Some(BadSettings)
{\"host\":\"a\",\"generations\":{\"000102030405060708090a0b\":-1}} => Some(BadSettings)
{\"host\":\"a\",\"nonces\":[]} => Some(BadSettings)
{\"host\":\"a\",\"nonces\":[\"00\",\"00\"]} => Some(BadSettings)
{\"host\":\"a\",\"first_id\":2147483648} => Some(BadSettings)
{\"host\":\"a\",\"first_id\":-2147483649} => Some(BadSettings)
{\"host\":\"a\",\"first_id\":null} => Some(BadSettings)
{\"host\":\"a\",\"max_iterations\":4095} => Some(BadSettings)
{\"host\":\"a\",\"max_iterations\":4294967296} => Some(BadSettings)
{\"host\":\"a\",\"replies\":[\"0\"]} => Some(BadSettings)
{\"host\":\"a\",\"replies\":[\"0g\"]} => Some(BadSettings)
{\"host\":\"a\",\"unix\":\"b\"} => Some(BadSettings)
{\"host\":\"a\",\"unix\":\"b\",\"port\":1} => Some(BadSettings)
{\"host\":\"a\",\"moment\":1,\"ports\":1} => Some(BadSettings)
{\"host\":\"a\",\"moment\":1} => Some(NotBuilt)
{\"host\":1,\"moment\":1} => Some(NotBuilt)
{\"moment\":1} => Some(NotBuilt)
{\"host\":1,\"credential\":{\"mechanism\":\"MONGODB-AWS\"}} => Some(NotBuilt)
{\"host\":\"a\",\"credential\":{\"mechanism\":\"MONGODB-AWS\",\"bogus\":1}} => Some(NotBuilt)
{\"first_id\":\"0\",\"credential\":{\"mechanism\":\"MONGODB-OIDC\",\"user\":1}} => Some(NotBuilt)";

// Why a text is no settings; None where it is settings.
fn cause_of(alloc: Global, text: &str) -> Option<SettingsError> {
    read_settings(alloc, text.as_bytes()).err()
}

// Whether the text of a row is refused for the cause behind the arrow.
fn is_refused(alloc: Global, row: &str) -> Result<bool, Fail> {
    let (text, wanted) = row.split_once(" => ").unwrap_or((row, "no arrow"));
    let cause = cause_of(alloc, text);
    Ok(format!(in alloc; "{cause:?}")?.as_str() == wanted)
}

#[test]
fn each_refusal_has_its_cause(rt: HostRuntime) -> Result<(), Fail> {
    for row in REFUSED.lines() {
        assert!(rt; is_refused(rt.alloc(), row)?, "{row}");
    }
    Ok(())
}
