use super::{Given, NOTHING, metadata, sent};
use mongo_bson::{RawDocumentBuf, Text};
use mongo_wire::Error;
use std::alloc::Global;

// The hello document before `client`, by the handshake specification, has 49 bytes.
const HELLO: usize = 49;

// The five forms of one client's metadata, by BSON 1.1 and the handshake specification.
const WHOLE: &[u8; 343] =
    b"W\x01\0\0\x03application\0\x14\0\0\0\x02name\0\x05\0\0\0shop\0\0\x03driver\04\0\0\0\x02name\0\x12\0\0\0mongo-rust-driver\0\x02version\0\x06\0\0\03.9.1\0\0\x03os\0O\0\0\0\x02type\0\x06\0\0\0linux\0\x02name\0\x07\0\0\0Debian\0\x02architecture\0\x07\0\0\0x86_64\0\x02version\0\x03\0\0\012\0\0\x02platform\0\x0e\0\0\0rattle / sync\0\x03env\0\x81\0\0\0\x02name\0\x0b\0\0\0aws.lambda\0\x02runtime\0\x11\0\0\0AWS_Lambda_java8\0\x10memory_mb\0\0\x04\0\0\x02region\0\x0a\0\0\0us-east-2\0\x03container\0\x19\0\0\0\x02runtime\0\x07\0\0\0docker\0\0\0\0";

const ENVIRONMENT_NAME: &[u8; 240] =
    b"\xf0\0\0\0\x03application\0\x14\0\0\0\x02name\0\x05\0\0\0shop\0\0\x03driver\04\0\0\0\x02name\0\x12\0\0\0mongo-rust-driver\0\x02version\0\x06\0\0\03.9.1\0\0\x03os\0O\0\0\0\x02type\0\x06\0\0\0linux\0\x02name\0\x07\0\0\0Debian\0\x02architecture\0\x07\0\0\0x86_64\0\x02version\0\x03\0\0\012\0\0\x02platform\0\x0e\0\0\0rattle / sync\0\x03env\0\x1a\0\0\0\x02name\0\x0b\0\0\0aws.lambda\0\0\0";

const OS_TYPE: &[u8; 182] =
    b"\xb6\0\0\0\x03application\0\x14\0\0\0\x02name\0\x05\0\0\0shop\0\0\x03driver\04\0\0\0\x02name\0\x12\0\0\0mongo-rust-driver\0\x02version\0\x06\0\0\03.9.1\0\0\x03os\0\x15\0\0\0\x02type\0\x06\0\0\0linux\0\0\x02platform\0\x0e\0\0\0rattle / sync\0\x03env\0\x1a\0\0\0\x02name\0\x0b\0\0\0aws.lambda\0\0\0";

const NO_ENVIRONMENT: &[u8; 151] =
    b"\x97\0\0\0\x03application\0\x14\0\0\0\x02name\0\x05\0\0\0shop\0\0\x03driver\04\0\0\0\x02name\0\x12\0\0\0mongo-rust-driver\0\x02version\0\x06\0\0\03.9.1\0\0\x03os\0\x15\0\0\0\x02type\0\x06\0\0\0linux\0\0\x02platform\0\x0e\0\0\0rattle / sync\0\0";

const SHORT_PLATFORM: &[u8; 144] =
    b"\x90\0\0\0\x03application\0\x14\0\0\0\x02name\0\x05\0\0\0shop\0\0\x03driver\04\0\0\0\x02name\0\x12\0\0\0mongo-rust-driver\0\x02version\0\x06\0\0\03.9.1\0\0\x03os\0\x15\0\0\0\x02type\0\x06\0\0\0linux\0\0\x02platform\0\x07\0\0\0rattle\0\0";

// The document of a client that gives nothing, by the handshake specification and BSON 1.1.
const BARE: &[u8] =
    b"\x8f\0\0\0\x03driver\04\0\0\0\x02name\0\x12\0\0\0mongo-rust-driver\0\x02version\0\x06\0\0\03.9.1\0\0\x03os\0.\0\0\0\x02type\0\x06\0\0\0linux\0\x02architecture\0\x07\0\0\0x86_64\0\0\x02platform\0\x0e\0\0\0rattle / sync\0\0";

// The form of this number.
fn form(number: u32) -> &'static [u8] {
    match number {
        1 => WHOLE,
        2 => ENVIRONMENT_NAME,
        3 => OS_TYPE,
        4 => NO_ENVIRONMENT,
        _ => SHORT_PLATFORM,
    }
}

// That client.
const SHOP: Given<'static> = Given {
    app_name: Some("shop"),
    os_name: Some("Debian"),
    os_version: Some("12"),
    row: "AWS_EXECUTION_ENV=AWS_Lambda_java8;AWS_REGION=us-east-2;AWS_LAMBDA_FUNCTION_MEMORY_SIZE=1024;docker",
    ..NOTHING
};

// Whether this is what is sent of a client in a hello of which so many bytes stand before it.
fn is_sent(alloc: Global, given: &Given<'_>, before: usize, document: &[u8]) -> bool {
    match sent(alloc, given, before) {
        Ok(sent) => sent.as_bytes() == document,
        Err(_) => false,
    }
}

fn document_of(alloc: Global, given: &Given<'_>) -> Result<RawDocumentBuf, Error> {
    metadata(alloc, given)?.to_document(alloc)
}

// Whether this is the client's whole document.
fn is_whole(alloc: Global, given: &Given<'_>, document: &[u8]) -> bool {
    match document_of(alloc, given) {
        Ok(whole) => whole.as_bytes() == document,
        Err(_) => false,
    }
}

// How many bytes stand before the client's document, and the number of its form then.
fn form_at(place: u8) -> (usize, u32) {
    match place {
        0 => (0, 1),
        1 => (161, 1),
        2 => (162, 2),
        3 => (264, 2),
        4 => (265, 3),
        5 => (322, 3),
        6 => (323, 4),
        7 => (353, 4),
        8 => (354, 5),
        9 => (360, 5),
        10 => (361, 5),
        11 => (512, 5),
        12 => (513, 5),
        _ => (usize::MAX, 5),
    }
}

#[test]
fn the_longest_form_that_fits_is_sent(rt: HostRuntime) {
    for place in 0..14 {
        let (before, number) = form_at(place);
        assert!(rt;
            is_sent(rt.alloc(), &SHOP, before, form(number)),
            "{before}"
        );
    }
    assert!(rt; is_whole(rt.alloc(), &SHOP, WHOLE));
    assert!(rt; is_sent(rt.alloc(), &NOTHING, HELLO, BARE));
}

// A text of so many letters.
fn repeated(alloc: Global, letter: &str, count: u32) -> Result<Text, Error> {
    let mut name = Text::from_slice(alloc, "")?;
    for _ in 0..count {
        name.push_str(letter)?;
    }
    Ok(name)
}

// Of a client in a container whose application has a name of so many letters: how many bytes its document has, and whether
// it ends with the empty environment.
fn end_with_name(alloc: Global, letter: &str, count: u32) -> Result<(usize, bool), Error> {
    let name = repeated(alloc, letter, count)?;
    let given = Given {
        app_name: Some(name.as_str()),
        row: "KUBERNETES_SERVICE_HOST=x;docker",
        ..NOTHING
    };
    let document = sent(alloc, &given, HELLO)?;
    let bytes = document.as_bytes();
    Ok((bytes.len(), bytes.ends_with(b"\x03env\0\x05\0\0\0\0\0")))
}

fn ends_so(alloc: Global, letter: &str, count: u32, wanted: (usize, bool)) -> bool {
    match end_with_name(alloc, letter, count) {
        Ok(end) => end == wanted,
        Err(_) => false,
    }
}

// A letter with an accent has two bytes.
#[test]
fn an_environment_without_a_name_stays_and_is_empty(rt: HostRuntime) {
    assert!(rt; ends_so(rt.alloc(), "a", 208, (455, false)));
    assert!(rt; ends_so(rt.alloc(), "a", 209, (391, true)));
    assert!(rt; ends_so(rt.alloc(), "é", 104, (455, false)));
    assert!(rt; ends_so(rt.alloc(), "é", 105, (392, true)));
}
