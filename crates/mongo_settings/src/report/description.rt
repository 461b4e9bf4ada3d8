//! The lines of a server's description.
ghost use Rattle.std.specs.Prelude.{◌≡◌, ◌++◌, ◌∷◌, OnOk, option_map};
ghost use Rattle.hex.specs.Hex.{encode_lower};
ghost use Rattle.mongo_settings.specs.Line.{spaced, spelled_or_dash};
ghost use Rattle.mongo_settings.specs.Report.{wire_line, mechanism_words, mechanisms_line, session_line, sizes_line, boolean_word, hello_ok_line, service_line, server_id_line};

use crate::report::line::{
    begin_line, end_line, push_hex, push_number, push_optional_number, push_text, push_word,
};
use mongo_bson::{ObjectId, Texts};
use std::alloc::AllocError;

/// Appends the least and the greatest version of the wire protocol, each `-` where it is absent.
#[tactic(auto, unfolding(crate::specs::Report::wire_line))]
pub fn push_wire(
    out: &mut Vec<u8>,
    minimum: Option<i32>,
    maximum: Option<i32>,
) -> Result<(), AllocError>
    ensures { OnOk result (out.new.items ≡ out.old.items ++ wire_line minimum maximum) }
{
    begin_line(out, "wire")?;
    push_optional_number(out, minimum)?;
    push_optional_number(out, maximum)?;
    end_line(out)
}

/// Appends how many login mechanisms there are, and the hex of each, or `-` where they are absent.
#[tactic(auto, unfolding(crate::specs::Report::mechanisms_line))]
pub fn push_mechanisms(out: &mut Vec<u8>, names: Option<&Texts>) -> Result<(), AllocError>
    ensures { OnOk result (out.new.items ≡ out.old.items ++ mechanisms_line (option_map (λ n. n.now) names.entry)) }
{
    begin_line(out, "mechs")?;
    push_mechanism_words(out, names)?;
    end_line(out)
}

fn push_mechanism_words(out: &mut Vec<u8>, names: Option<&Texts>) -> Result<(), AllocError>
    ensures { OnOk result (out.new.items ≡ out.old.items ++ spaced (mechanism_words (option_map (λ n. n.now) names.entry))) }
{
    match names {
        Some(names) => push_names(out, names),
        None => push_word(out, "-"),
    }
}

fn push_names(out: &mut Vec<u8>, names: &Texts) -> Result<(), AllocError>
    ensures { OnOk result (out.new.items ≡ out.old.items ++ spaced (mechanism_words (Some names.now))) }
{
    push_number(out, names.len())?;
    let mut index = 0;
    'names: while let Some(name) = names.get(index) {
        push_text(out, name.as_bytes())?;
        index += 1;
    }
    Ok(())
}

/// Appends how long a session lives unused, in seconds, or `-` where it is absent.
#[tactic(auto, unfolding(crate::specs::Report::session_line))]
pub fn push_session(out: &mut Vec<u8>, seconds: Option<u64>) -> Result<(), AllocError>
    ensures { OnOk result (out.new.items ≡ out.old.items ++ session_line seconds) }
{
    begin_line(out, "session")?;
    push_optional_number(out, seconds)?;
    end_line(out)
}

/// Appends the greatest document in bytes, the greatest number of writes in a batch, and the greatest frame in bytes.
#[tactic(auto, unfolding(crate::specs::Report::sizes_line))]
pub fn push_sizes(
    out: &mut Vec<u8>,
    document: i64,
    batch: i64,
    frame: i32,
) -> Result<(), AllocError>
    ensures { OnOk result (out.new.items ≡ out.old.items ++ sizes_line document batch frame) }
{
    begin_line(out, "sizes")?;
    push_number(out, document)?;
    push_number(out, batch)?;
    push_number(out, frame)?;
    end_line(out)
}

/// Appends whether the server understands `hello`.
#[tactic(auto, unfolding(crate::specs::Report::hello_ok_line))]
pub fn push_hello_ok(out: &mut Vec<u8>, hello_ok: bool) -> Result<(), AllocError>
    ensures { OnOk result (out.new.items ≡ out.old.items ++ hello_ok_line hello_ok) }
{
    begin_line(out, "hello-ok")?;
    push_word(out, boolean_word(hello_ok))?;
    end_line(out)
}

fn boolean_word(boolean: bool) -> &'static str
    ensures { result.now ≡ boolean_word boolean }
{
    if boolean { "true" } else { "false" }
}

/// Appends the service behind a load balancer in hex, or `-` where it is absent.
#[tactic(auto, unfolding(crate::specs::Report::service_line))]
pub fn push_service(out: &mut Vec<u8>, service: Option<ObjectId>) -> Result<(), AllocError>
    ensures { OnOk result (out.new.items ≡ out.old.items ++ service_line service) }
{
    begin_line(out, "service")?;
    push_optional_id(out, service)?;
    end_line(out)
}

fn push_optional_id(out: &mut Vec<u8>, id: Option<ObjectId>) -> Result<(), AllocError>
    ensures { OnOk result (out.new.items ≡ out.old.items ++ 32 ∷ spelled_or_dash (λ i. encode_lower i.0) id) }
{
    match id {
        Some(id) => push_hex(out, &id.0),
        None => push_word(out, "-"),
    }
}

/// Appends the server's number for the connection, or `-` where it is absent.
#[tactic(auto, unfolding(crate::specs::Report::server_id_line))]
pub fn push_server_id(out: &mut Vec<u8>, number: Option<i64>) -> Result<(), AllocError>
    ensures { OnOk result (out.new.items ≡ out.old.items ++ server_id_line number) }
{
    begin_line(out, "server-id")?;
    push_optional_number(out, number)?;
    end_line(out)
}
