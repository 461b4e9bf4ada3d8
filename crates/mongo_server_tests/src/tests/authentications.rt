use super::{ESCAPED, Known, first_is, last_is, server_of};
use mongo_scram::ScramVersion;
use mongo_server::ServerCore;
use std::alloc::Global;
use std::test::Fail;

/// A whole authentication.
#[derive(Clone, Copy)]
struct Row {
    known: Known,
    open: &'static str,
    server_first: &'static str,
    close: &'static str,
    server_final: &'static str,
}

// The authentications of RFC 7677, section 3, of SCRAM-SHA-1 in the MongoDB authentication specification, and, by Python's hashlib
// and hmac, one whose user name is escaped.
fn row_at(place: u8) -> Row {
    match place {
        0 => Row {
            known: Known {
                version: ScramVersion::Sha256,
                username: "user",
                password: "pencil",
                salt: "W22ZaJ0SNY7soEsUEjb6gQ==",
                count: 4096,
                suffix: "%hvYDpWUa2RaTCAfuxFIlj)hNlF$k0",
            },
            open: "n,,n=user,r=rOprNGfwEbeRWgbNEkqO",
            server_first: "r=rOprNGfwEbeRWgbNEkqO%hvYDpWUa2RaTCAfuxFIlj)hNlF$k0,s=W22ZaJ0SNY7soEsUEjb6gQ==,i=4096",
            close: "c=biws,r=rOprNGfwEbeRWgbNEkqO%hvYDpWUa2RaTCAfuxFIlj)hNlF$k0,p=dHzbZapWIk4jUhN+Ute9ytag9zjfMHgsqmmiz7AndVQ=",
            server_final: "v=6rriTRBi23WpRR/wtup+mMhUZUn/dB5nLTJRsjl95G4=",
        },
        1 => Row {
            known: Known {
                version: ScramVersion::Sha1,
                username: "user",
                password: "pencil",
                salt: "rQ9ZY3MntBeuP3E1TDVC4w==",
                count: 10_000,
                suffix: "Ho+Vgk7qvUOKUwuWLIWg4l/9SraGMHEE",
            },
            open: "n,,n=user,r=fyko+d2lbbFgONRv9qkxdawL",
            server_first: "r=fyko+d2lbbFgONRv9qkxdawLHo+Vgk7qvUOKUwuWLIWg4l/9SraGMHEE,s=rQ9ZY3MntBeuP3E1TDVC4w==,i=10000",
            close: "c=biws,r=fyko+d2lbbFgONRv9qkxdawLHo+Vgk7qvUOKUwuWLIWg4l/9SraGMHEE,p=MC2T8BvbmWRckDw8oWl5IVghwCY=",
            server_final: "v=UMWeI25JD1yNYZRMpZ4VHvhZ9e0=",
        },
        _ => Row {
            known: ESCAPED,
            open: "n,,n=a=3Db,r=x",
            server_first: "r=xserver,s=W22ZaJ0SNY7soEsUEjb6gQ==,i=4096",
            close: "c=biws,r=xserver,p=MzZOhIdkgzT8Rl/7ccpIKwLmie4VqB+ddpX40FNiEDU=",
            server_final: "v=++8PBfLEieXroiRA3jvZIFZPt2BQRj2gElurZOyl+H0=",
        },
    }
}

fn owes(alloc: Global, server: &ServerCore, text: &str) -> bool {
    match server.expected_final(alloc) {
        Ok(expected) => expected.as_str() == text,
        Err(_) => false,
    }
}

// Whether a copy of the server owes that too.
fn copy_owes(alloc: Global, server: &ServerCore, text: &str) -> bool {
    match server.try_clone(alloc) {
        Ok(copy) => owes(alloc, &copy, text),
        Err(_) => false,
    }
}

#[test]
fn authentications_of_the_standards(rt: HostRuntime) -> Result<(), Fail> {
    let alloc = rt.alloc();
    for place in 0..3 {
        let row = row_at(place);
        let mut server = server_of(alloc, &row.known)?;
        assert!(rt;
            first_is(
                alloc,
                &mut server,
                row.open.as_bytes(),
                Ok(row.server_first)
            ),
            "{place}"
        );
        assert!(rt; owes(alloc, &server, row.server_final), "{place}");
        assert!(rt; copy_owes(alloc, &server, row.server_final), "{place}");
        assert!(rt;
            last_is(
                alloc,
                &mut server,
                row.close.as_bytes(),
                Ok(row.server_final)
            ),
            "{place}"
        );
    }
    Ok(())
}
