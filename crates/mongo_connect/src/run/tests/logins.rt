//! Two logins, and what a fault at each call of them comes to.

use mongo_settings::Status;

// A login: the line of its settings, the replies that follow it, and the report of it in three parts. An independent model made them.
#[derive(Clone, Copy)]
pub(super) struct RecordedLogin {
    pub(super) line: &'static str,
    pub(super) replies: &'static [u8],
    // The report's lines of the frame of hello and of the frame of the login, and the rest of it.
    pub(super) sent_hello: &'static str,
    pub(super) sent_login: &'static str,
    pub(super) told: &'static str,
    // How a report ends where the exchange of the login fails: a write or the flush, the read of a header, the read of the rest.
    pub(super) unwritten: &'static str,
    pub(super) unread: &'static str,
    pub(super) cut: &'static str,
    // How many bytes of the replies are left after hello's header, after its reply, and after the header of the last one.
    pub(super) after_header: usize,
    pub(super) after_hello: usize,
    pub(super) after_last_header: usize,
}

// What a login is by: PLAIN, or SCRAM-SHA-256, begun with hello, and done with the server's last message.
#[derive(Clone, Copy, Debug)]
pub(super) enum By {
    Plain,
    Scram,
}

pub(super) fn recorded(by: By) -> RecordedLogin {
    match by {
        By::Plain => PLAIN,
        By::Scram => SCRAM,
    }
}

const PLAIN: RecordedLogin = RecordedLogin {
    line: PLAIN_LINE,
    replies: PLAIN_REPLIES,
    sent_hello: PLAIN_SENT_HELLO,
    sent_login: PLAIN_SENT_LOGIN,
    told: PLAIN_TOLD,
    unwritten: "read 86\nrefused\nphase PostHello\nkind WriteFault\nreason -\ncode -\ntext -\n",
    unread: "read 86\nrefused\nphase PostHello\nkind ReadFault\nreason -\ncode -\ntext -\n",
    cut: "read 102\nrefused\nphase PostHello\nkind ReadFault\nreason -\ncode -\ntext -\n",
    after_header: 149,
    after_hello: 79,
    after_last_header: 63,
};

const PLAIN_LINE: &str =
    "{\"host\": \"localhost\", \"credential\": {\"username\": \"user\", \"password\": \"pencil\", \"mechanism\": \"PLAIN\"}}";

const PLAIN_REPLIES: &[u8] =
    b"V\0\0\0\x01\0\0\0\0\0\0\0\xdd\x07\0\0\0\0\0\0\0A\0\0\0\x01ok\0\0\0\0\0\0\0\xf0?\x10maxBsonObjectSize\0\0\0\0\x01\x10maxMessageSizeBytes\0\0l\xdc\x02\0O\0\0\0\x01\0\0\0\0\0\0\0\xdd\x07\0\0\0\0\0\0\0:\0\0\0\x01ok\0\0\0\0\0\0\0\xf0?\x10conversationId\0\x01\0\0\0\x08done\0\x01\x05payload\0\0\0\0\0\0\0";

const PLAIN_SENT_HELLO: &str =
    "sent ec0000000000000000000000dd0700000000000000d70000001069734d617374657200010000000868656c6c6f4f6b0001026261636b70726573737572650002000000320003636c69656e74008f000000036472697665720034000000026e616d6500120000006d6f6e676f2d727573742d647269766572000276657273696f6e0006000000332e392e310000036f73002e000000027479706500060000006c696e7578000261726368697465637475726500070000007838365f3634000002706c6174666f726d000e000000726174746c65202f2073796e63000002246462000600000061646d696e0000\n";

const PLAIN_SENT_LOGIN: &str =
    "sent 6b0000000100000000000000dd070000000000000056000000107361736c53746172740001000000026d656368616e69736d0006000000504c41494e00057061796c6f6164000c0000000000757365720070656e63696c02246462000a0000002465787465726e616c0000\n";

const PLAIN_TOLD: &str =
    "read 165\nok\ntype Standalone\nwire - -\nmechs -\nsession -\nsizes 16777216 100000 48000000\nhello-ok false\nservice -\ngeneration normal 0\nserver-id -\n";

const SCRAM: RecordedLogin = RecordedLogin {
    line: SCRAM_LINE,
    replies: SCRAM_REPLIES,
    sent_hello: SCRAM_SENT_HELLO,
    sent_login: SCRAM_SENT_LOGIN,
    told: SCRAM_TOLD,
    unwritten: "read 416\nrefused\nphase PostHello\nkind WriteFault\nreason -\ncode -\ntext -\n",
    unread: "read 416\nrefused\nphase PostHello\nkind ReadFault\nreason -\ncode -\ntext -\n",
    cut: "read 432\nrefused\nphase PostHello\nkind ReadFault\nreason -\ncode -\ntext -\n",
    after_header: 525,
    after_hello: 125,
    after_last_header: 109,
};

const SCRAM_LINE: &str =
    "{\"host\": \"localhost\", \"credential\": {\"username\": \"user\", \"password\": \"pencil\"}}";

const SCRAM_REPLIES: &[u8] =
    b"\xa0\x01\0\0\x01\0\0\0\0\0\0\0\xdd\x07\0\0\0\0\0\0\0\x8b\x01\0\0\x01ok\0\0\0\0\0\0\0\xf0?\x10maxBsonObjectSize\0\0\0\0\x01\x10maxMessageSizeBytes\0\0l\xdc\x02\x08isWritablePrimary\0\x01\x02setName\0\x04\0\0\0rs0\0\x10minWireVersion\0\0\0\0\0\x10maxWireVersion\0\x19\0\0\0\x10logicalSessionTimeoutMinutes\0\x1e\0\0\0\x04saslSupportedMechs\0-\0\0\0\x020\0\x0c\0\0\0SCRAM-SHA-1\0\x021\0\x0e\0\0\0SCRAM-SHA-256\0\0\x03speculativeAuthenticate\0\x81\0\0\0\x10conversationId\0\x01\0\0\0\x08done\0\0\x05payload\0S\0\0\0\0r=AAAAAAAAAAAAAAAAAAAAAAAAAAAAAAAAAAAAAAAAAAA=srv,s=W22ZaJ0SNY7soEsUEjb6gQ==,i=4096\0\0}\0\0\0\x01\0\0\0\0\0\0\0\xdd\x07\0\0\0\0\0\0\0h\0\0\0\x01ok\0\0\0\0\0\0\0\xf0?\x10conversationId\0\x01\0\0\0\x08done\0\x01\x05payload\0.\0\0\0\0v=GU1A69Cdt0AqzGlp0kUmRIJxcJmERkI8U5Lse1KUKhk=\0";

const SCRAM_SENT_HELLO: &str =
    "sent cf0100000000000000000000dd0700000000000000ba0100001069734d617374657200010000000868656c6c6f4f6b0001026261636b707265737375726500020000003200027361736c537570706f727465644d65636873000b00000061646d696e2e75736572000373706563756c617469766541757468656e74696361746500a7000000107361736c53746172740001000000026d656368616e69736d000e000000534352414d2d5348412d32353600057061796c6f61640038000000006e2c2c6e3d757365722c723d414141414141414141414141414141414141414141414141414141414141414141414141414141414141413d036f7074696f6e73001900000008736b6970456d70747945786368616e6765000100026462000600000061646d696e000003636c69656e74008f000000036472697665720034000000026e616d6500120000006d6f6e676f2d727573742d647269766572000276657273696f6e0006000000332e392e310000036f73002e000000027479706500060000006c696e7578000261726368697465637475726500070000007838365f3634000002706c6174666f726d000e000000726174746c65202f2073796e63000002246462000600000061646d696e0000\n";

const SCRAM_SENT_LOGIN: &str =
    "sent c40000000100000000000000dd0700000000000000af000000107361736c436f6e74696e7565000100000010636f6e766572736174696f6e49640001000000057061796c6f6164006700000000633d626977732c723d414141414141414141414141414141414141414141414141414141414141414141414141414141414141413d7372762c703d4f55324c3278656c4269726d6f566d3477506d6834626e6148446b7661776a6759355668736663655564513d02246462000600000061646d696e0000\n";

const SCRAM_TOLD: &str =
    "read 541\nok\ntype RsPrimary\nwire 0 25\nmechs 2 534352414d2d5348412d31 534352414d2d5348412d323536\nsession 1800\nsizes 16777216 100000 48000000\nhello-ok false\nservice -\ngeneration normal 0\nserver-id -\n";

// What a login comes to: the status, the report's parts, and how many bytes are unread.
#[derive(Clone, Copy)]
pub(super) struct WantedEnd {
    pub(super) status: Status,
    pub(super) report: [&'static str; 3],
    pub(super) unread: usize,
}

// What a fault at the call of this number comes to. Calls are a read for each byte of the line and its end, and then for each of two
// exchanges three writes of a frame's pieces (its header, its flags and section kind, its document), a flush, and a read of the
// reply's header and one of its rest. After these there is none that could fail.
pub(super) fn fault_at(login: RecordedLogin, call: usize) -> WantedEnd {
    let reads = login.line.len() + 1;
    let replies = login.replies.len();
    if call < reads {
        return WantedEnd {
            status: Status::SourceFault,
            report: ["", "", ""],
            unread: reads - call + replies,
        };
    }
    let hello = login.sent_hello;
    let last = login.sent_login;
    match call - reads {
        0 | 1 | 2 => refused(["", "", UNWRITTEN_HELLO], replies),
        3 => refused([hello, "", UNWRITTEN_HELLO], replies),
        4 => refused([hello, "", UNREAD_HELLO], replies),
        5 => refused([hello, "", CUT_HELLO], login.after_header),
        6 | 7 | 8 => refused([hello, "", login.unwritten], login.after_hello),
        9 => refused([hello, last, login.unwritten], login.after_hello),
        10 => refused([hello, last, login.unread], login.after_hello),
        11 => refused([hello, last, login.cut], login.after_last_header),
        _ => WantedEnd {
            status: Status::Done,
            report: [hello, last, login.told],
            unread: 0,
        },
    }
}

fn refused(report: [&'static str; 3], unread: usize) -> WantedEnd {
    WantedEnd {
        status: Status::Refused,
        report,
        unread,
    }
}

const UNWRITTEN_HELLO: &str =
    "read 0\nrefused\nphase PreHello\nkind WriteFault\nreason -\ncode -\ntext -\n";

const UNREAD_HELLO: &str =
    "read 0\nrefused\nphase PreHello\nkind ReadFault\nreason -\ncode -\ntext -\n";

const CUT_HELLO: &str =
    "read 16\nrefused\nphase PreHello\nkind ReadFault\nreason -\ncode -\ntext -\n";
