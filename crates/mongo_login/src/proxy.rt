//! `proxy`: a client's frames and a server's are relayed between two links in memory.
ghost use Rattle.std.specs.Prelude.{◌≡◌, ◌++◌, ℕ, List, IfOk, OnOk};
ghost use Rattle.std.specs.List.{AllByRecursion, concat};
ghost use Rattle.mongo_settings.specs.Kinds.{Means};
ghost use Rattle.mongo_settings.specs.Report.{CountsItself};
ghost use Rattle.mongo_settings.specs.Settings.{Gives};
ghost use Rattle.mongo_login.specs.Proxy.{proxy_in, proxy_judged, most_of, TellsRelay, traffic_lines, count_lines, fault_lines, side_name};
ghost use Rattle.serde_json.specs.View.{view};

use crate::cause::push_cause;
use crate::lines::{push_count, push_frames, push_word};
use crate::object::{int32_or, joined_hex_in, judge_keys, value_of};
use mongo_bson::Bytes;
use mongo_proxy::{RelayFault, Relayed, Side, relay};
use mongo_settings::{Rehearsal, RehearsalStatus, SettingsError, begin_line, end_line};
use mongo_wire::{ErrorKind, MemoryLink, RequestIds};
use serde_json::Value;
use std::alloc::{AllocError, Global};

/// What a relay is told.
#[derive(Debug, Drop)]
pub struct ProxySettings {
    /// What the client sends.
    pub commands: Bytes,
    /// What the server answers.
    pub replies: Bytes,
    /// The id of the first command that goes on.
    pub first_id: i32,
}

// ---- the object

const COMMANDS: &str = "commands";

const REPLIES: &str = "replies";

const FIRST_ID: &str = "first_id";

/// Reads the object of a relay: the text of one JSON object in UTF-8, whose keys are `commands` and `replies`, arrays of hex texts, and
/// `first_id`, an int32 that is 0 where absent.
///
/// `BadSettings` where the text is longer than 4194304 bytes, isn't JSON, holds a float, or is no such object.
#[tactic(auto, unfolding(crate::specs::Proxy::proxy_judged))]
pub fn read_proxy(alloc: Global, text: &[u8]) -> Result<ProxySettings, SettingsError>
    ensures { Gives (λ s. s) result (proxy_judged text.now) }
{
    let value = value_of(alloc, text)?;
    settings_of(alloc, &value)
}

#[tactic(auto, unfolding(crate::specs::Proxy::proxy_in))]
fn settings_of(alloc: Global, value: &Value) -> Result<ProxySettings, SettingsError>
    ensures { Means (λ s. s) result (proxy_in (view value.now)) }
{
    judge_keys(value, &[COMMANDS, REPLIES, FIRST_ID])?;
    let first_id = int32_or(value, FIRST_ID, 0)?;
    let commands = joined_hex_in(alloc, value, COMMANDS)?;
    let replies = joined_hex_in(alloc, value, REPLIES)?;
    Ok(ProxySettings {
        commands,
        replies,
        first_id,
    })
}

// ---- the job

/// Relays the frames between two links in memory, until the client ends or a fault is met, and reports what each side was sent. Want of
/// memory has no report.
pub fn relay_in_memory(alloc: Global, settings: ProxySettings) -> Result<Rehearsal, AllocError>
    ensures { IfOk result (λ made. TellsRelay settings made.status made.report.items) }
{
    let most = most_of(&settings);
    let mut client = MemoryLink::new(alloc, settings.commands);
    let mut server = MemoryLink::new(alloc, settings.replies);
    let mut ids = RequestIds::new(settings.first_id);
    match relay(alloc, &mut client, &mut server, &mut ids, None, most) {
        Ok(done) => whole_report(alloc, server.written(), client.written(), done),
        Err(fault) => cut_report(alloc, server.written(), client.written(), &fault),
    }
}

// One frame more than the bytes of both sides could hold.
fn most_of(settings: &ProxySettings) -> u64
    ensures { result ≡ most_of settings.now }
{
    let commands = settings.commands.as_bytes().len() as u64;
    let replies = settings.replies.as_bytes().len() as u64;
    commands + replies + 1
}

// ---- the lines

// The report of a relay that the client ended.
fn whole_report(
    alloc: Global,
    to_server: &[u8],
    to_client: &[u8],
    done: Relayed,
) -> Result<Rehearsal, AllocError>
    ensures accepted { IfOk result (λ made. made.status ≡ RehearsalStatus.Accepted) }
    ensures lines { IfOk result (λ made. (sent answered : List (List ℕ)) → AllByRecursion CountsItself sent → AllByRecursion CountsItself answered → to_server.now ≡ concat sent → to_client.now ≡ concat answered
        → made.report.items ≡ traffic_lines sent answered ++ count_lines done) }
{
    let mut report = traffic_of(alloc, to_server, to_client)?;
    push_counts(&mut report, done)?;
    Ok(Rehearsal {
        status: RehearsalStatus::Accepted,
        report,
    })
}

// The report of a relay that was refused, where there is one.
fn cut_report(
    alloc: Global,
    to_server: &[u8],
    to_client: &[u8],
    fault: &RelayFault,
) -> Result<Rehearsal, AllocError>
    ensures refused { IfOk result (λ made. made.status ≡ RehearsalStatus.Refused) }
    ensures cause { IfOk result (λ made. fault.now.error.kind ≡ ErrorKind.OutOfMemory → ⊥) }
    ensures lines { IfOk result (λ made. (sent answered : List (List ℕ)) → AllByRecursion CountsItself sent → AllByRecursion CountsItself answered → to_server.now ≡ concat sent → to_client.now ≡ concat answered
        → made.report.items ≡ traffic_lines sent answered ++ (count_lines fault.now.done ++ fault_lines fault.now)) }
{
    if matches!(fault.error.kind, ErrorKind::OutOfMemory) {
        return Err(AllocError);
    }
    let mut report = traffic_of(alloc, to_server, to_client)?;
    push_counts(&mut report, fault.done)?;
    push_fault(&mut report, fault)?;
    Ok(Rehearsal {
        status: RehearsalStatus::Refused,
        report,
    })
}

// The lines of what each side was sent.
fn traffic_of(alloc: Global, to_server: &[u8], to_client: &[u8]) -> Result<Vec<u8>, AllocError>
    ensures { IfOk result (λ out. (sent answered : List (List ℕ)) → AllByRecursion CountsItself sent → AllByRecursion CountsItself answered → to_server.now ≡ concat sent → to_client.now ≡ concat answered
        → out.items ≡ traffic_lines sent answered) }
{
    let mut out = Vec::new(alloc);
    push_frames(&mut out, "to-server", to_server)?;
    push_frames(&mut out, "to-client", to_client)?;
    Ok(out)
}

#[tactic(auto, unfolding(crate::specs::Proxy::count_lines))]
fn push_counts(out: &mut Vec<u8>, done: Relayed) -> Result<(), AllocError>
    ensures { OnOk result (out.new.items ≡ out.old.items ++ count_lines done) }
{
    push_count(out, "commands", done.commands)?;
    push_count(out, "replies", done.replies)
}

#[tactic(auto, unfolding(crate::specs::Proxy::fault_lines))]
fn push_fault(out: &mut Vec<u8>, fault: &RelayFault) -> Result<(), AllocError>
    ensures { OnOk result (out.new.items ≡ out.old.items ++ fault_lines fault.now) }
{
    begin_line(out, "refused")?;
    end_line(out)?;
    push_word(out, "side", side_name(fault.side))?;
    push_cause(out, &fault.error.kind)
}

fn side_name(side: Side) -> &'static str
    ensures { result.now ≡ side_name side }
{
    match side {
        Side::Client => "Client",
        Side::Server => "Server",
    }
}
