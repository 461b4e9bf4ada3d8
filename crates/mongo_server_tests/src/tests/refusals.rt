use super::{ESCAPED, first_is, last_is, server_of};
use mongo_server::ServerFault;
use std::test::Fail;

// The first message of the user `a=b`, its last, and what answers that.
const OPEN: &[u8] = b"n,,n=a=3Db,r=x";

const CLOSE: &[u8] = b"c=biws,r=xserver,p=MzZOhIdkgzT8Rl/7ccpIKwLmie4VqB+ddpX40FNiEDU=";

const FINAL: &str = "v=++8PBfLEieXroiRA3jvZIFZPt2BQRj2gElurZOyl+H0=";

// A first message, and its fault. Where two apply, the first of them comes.
fn first_at(place: u8) -> (&'static [u8], ServerFault) {
    match place {
        0 => (b"", ServerFault::Malformed),
        1 => (b"n,,n=a=b,r=x", ServerFault::Malformed),
        2 => (b"n,,n=a=3db,r=x", ServerFault::Malformed),
        3 => (b"n,,n=a=3,r=x", ServerFault::Malformed),
        4 => (b"y,,n=a=3Db,r=x", ServerFault::Malformed),
        5 => (b"n,,n=a=3Db", ServerFault::Malformed),
        6 => (b"n,,n=a=3Db,i=x", ServerFault::Malformed),
        7 => (b"n,,n=a=3Db,r=x,more=y", ServerFault::Malformed),
        8 => (b"n,,n=other,r=x\x7Fy", ServerFault::Malformed),
        9 => (b"n,,n=\xFF,r=x", ServerFault::Malformed),
        10 => (b"n,,n=other,r=x", ServerFault::UnknownUser),
        _ => (b"n,,n=a=3Db=2C,r=x", ServerFault::UnknownUser),
    }
}

#[test]
fn first_messages_that_are_refused(rt: HostRuntime) -> Result<(), Fail> {
    let alloc = rt.alloc();
    let mut server = server_of(alloc, &ESCAPED)?;
    for place in 0..12 {
        let (message, fault) = first_at(place);
        assert!(rt;
            first_is(alloc, &mut server, message, Err(fault)),
            "{place}"
        );
    }
    // Nothing was begun.
    for message in [CLOSE, b"malformed"] {
        assert!(rt; last_is(alloc, &mut server, message, Err(ServerFault::NotStarted)));
    }
    let expected = server.expected_final(alloc);
    assert!(rt; matches!(expected, Err(ServerFault::NotStarted)));
    Ok(())
}

// A last message, and its fault. Where two apply, the first of them comes.
fn last_at(place: u8) -> (&'static [u8], ServerFault) {
    match place {
        0 => (b"", ServerFault::Malformed),
        1 => (b"c=biws,r=xserver", ServerFault::Malformed),
        2 => (b"c=biws,r=other,p=*", ServerFault::Malformed),
        3 => (b"c=biws,r=other,p=AAA", ServerFault::Malformed),
        4 => (b"c=eSws,r=xserver,p=AAAA", ServerFault::Malformed),
        5 => (b"c=biws,r=xserver,v=AAAA", ServerFault::Malformed),
        6 => (
            b"c=biws,r=other,p=MzZOhIdkgzT8Rl/7ccpIKwLmie4VqB+ddpX40FNiEDU=",
            ServerFault::Nonce,
        ),
        7 => (b"c=biws,r=x,p=AAAA", ServerFault::Nonce),
        8 => (b"c=biws,r=xserver,p=,p=AAAA", ServerFault::Nonce),
        9 => (
            b"c=biws,r=xserver,p=AAAAAAAAAAAAAAAAAAAAAAAAAAAAAAAAAAAAAAAAAAA=",
            ServerFault::Proof,
        ),
        10 => (
            b"c=biws,r=xserver,p=MzZOhIdkgzT8Rl/7ccpIKwLmie4VqB+ddpX40FNi",
            ServerFault::Proof,
        ),
        _ => (b"c=biws,r=xserver,p=", ServerFault::Proof),
    }
}

#[test]
fn last_messages_that_are_refused(rt: HostRuntime) -> Result<(), Fail> {
    let alloc = rt.alloc();
    let mut server = server_of(alloc, &ESCAPED)?;
    let first = "r=xserver,s=W22ZaJ0SNY7soEsUEjb6gQ==,i=4096";
    assert!(rt; first_is(alloc, &mut server, OPEN, Ok(first)));
    for place in 0..12 {
        let (message, fault) = last_at(place);
        assert!(rt; last_is(alloc, &mut server, message, Err(fault)), "{place}");
    }
    // The conversation is held still, also after a first message that is refused.
    let other = first_is(
        alloc,
        &mut server,
        b"n,,n=other,r=y",
        Err(ServerFault::UnknownUser),
    );
    assert!(rt; other);
    assert!(rt; last_is(alloc, &mut server, CLOSE, Ok(FINAL)));
    Ok(())
}
