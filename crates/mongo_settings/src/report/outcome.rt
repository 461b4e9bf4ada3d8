//! The lines that say how an establishment ended.
ghost use Rattle.std.specs.Prelude.{◌≡◌, ◌++◌, OnOk};
ghost use Rattle.mongo_settings.specs.Report.{type_line, generation_line, numbered_generation_line, phase_name, server_lines, limit_lines, description_lines, phase_line, accepted_lines, refused_lines};
ghost use Rattle.mongo_settings.specs.Names.{type_name};

use crate::report::description::{
    push_hello_ok, push_mechanisms, push_server_id, push_service, push_session, push_sizes,
    push_wire,
};
use crate::report::line::{begin_line, end_line, push_number, push_word};
use crate::report::refusal::push_cause;
use mongo_establish::{
    ConnectionGeneration, ErrorKind, HandshakePhase, ServerType, StreamDescription,
};
use std::alloc::AllocError;

/// Appends the lines of a connection that was made: `ok`, what the server says of itself, the connection's generation and
/// the server's number for it.
pub fn push_accepted(
    out: &mut Vec<u8>,
    description: &StreamDescription,
    generation: ConnectionGeneration,
    connection_id: Option<i64>,
) -> Result<(), AllocError>
    ensures { OnOk result (out.new.items ≡ out.old.items ++ accepted_lines description.now generation connection_id) }
{
    begin_line(out, "ok")?;
    end_line(out)?;
    push_description(out, description)?;
    push_generation(out, generation)?;
    push_server_id(out, connection_id)
}

/// Appends the lines of an establishment that was refused: `refused`, how far it had come, and the cause.
pub fn push_refused(
    out: &mut Vec<u8>,
    phase: &HandshakePhase,
    kind: &ErrorKind,
) -> Result<(), AllocError>
    ensures { OnOk result (out.new.items ≡ out.old.items ++ refused_lines phase.now kind.now) }
{
    begin_line(out, "refused")?;
    end_line(out)?;
    push_phase(out, phase)?;
    push_cause(out, kind)
}

fn push_description(out: &mut Vec<u8>, description: &StreamDescription) -> Result<(), AllocError>
    ensures { OnOk result (out.new.items ≡ out.old.items ++ description_lines description.now) }
{
    push_server(out, description)?;
    push_limits(out, description)
}

fn push_server(out: &mut Vec<u8>, description: &StreamDescription) -> Result<(), AllocError>
    ensures { OnOk result (out.new.items ≡ out.old.items ++ server_lines description.now) }
{
    push_type(out, description.initial_server_type)?;
    push_wire(
        out,
        description.min_wire_version,
        description.max_wire_version,
    )?;
    push_mechanisms(out, description.sasl_supported_mechs.as_ref())?;
    push_session(out, description.logical_session_timeout)
}

fn push_limits(out: &mut Vec<u8>, description: &StreamDescription) -> Result<(), AllocError>
    ensures { OnOk result (out.new.items ≡ out.old.items ++ limit_lines description.now) }
{
    push_sizes(
        out,
        description.max_bson_object_size,
        description.max_write_batch_size,
        description.max_message_size_bytes,
    )?;
    push_hello_ok(out, description.hello_ok)?;
    push_service(out, description.service_id)
}

#[tactic(auto, unfolding(crate::specs::Report::type_line))]
fn push_type(out: &mut Vec<u8>, server_type: ServerType) -> Result<(), AllocError>
    ensures { OnOk result (out.new.items ≡ out.old.items ++ type_line server_type) }
{
    begin_line(out, "type")?;
    push_word(out, type_name(server_type))?;
    end_line(out)
}

fn type_name(server_type: ServerType) -> &'static str
    ensures { result.now ≡ type_name server_type }
{
    match server_type {
        ServerType::Standalone => "Standalone",
        ServerType::Mongos => "Mongos",
        ServerType::RsPrimary => "RsPrimary",
        ServerType::RsSecondary => "RsSecondary",
        ServerType::RsArbiter => "RsArbiter",
        ServerType::RsOther => "RsOther",
        ServerType::RsGhost => "RsGhost",
        ServerType::LoadBalancer => "LoadBalancer",
        ServerType::Unknown => "Unknown",
    }
}

fn push_generation(out: &mut Vec<u8>, generation: ConnectionGeneration) -> Result<(), AllocError>
    ensures { OnOk result (out.new.items ≡ out.old.items ++ generation_line generation) }
{
    match generation {
        ConnectionGeneration::Normal(number) => push_numbered_generation(out, "normal", number),
        ConnectionGeneration::LoadBalanced { generation, .. } => push_numbered_generation(
            out, "service", generation,
        ),
    }
}

#[tactic(auto, unfolding(crate::specs::Report::numbered_generation_line))]
fn push_numbered_generation(out: &mut Vec<u8>, whose: &str, number: u32) -> Result<(), AllocError>
    ensures { OnOk result (out.new.items ≡ out.old.items ++ numbered_generation_line whose.now number) }
{
    begin_line(out, "generation")?;
    push_word(out, whose)?;
    push_number(out, number)?;
    end_line(out)
}

#[tactic(auto, unfolding(crate::specs::Report::phase_line))]
fn push_phase(out: &mut Vec<u8>, phase: &HandshakePhase) -> Result<(), AllocError>
    ensures { OnOk result (out.new.items ≡ out.old.items ++ phase_line phase.now) }
{
    begin_line(out, "phase")?;
    push_word(out, phase_name(phase))?;
    end_line(out)
}

fn phase_name(phase: &HandshakePhase) -> &'static str
    ensures { result.now ≡ phase_name phase.now }
{
    match phase {
        HandshakePhase::PreHello { .. } => "PreHello",
        HandshakePhase::PostHello { .. } => "PostHello",
    }
}
