//! The report of an establishment over a link.
ghost use Rattle.std.specs.Prelude.{IsSome, IfOk};
ghost use Rattle.mongo_settings.specs.Reporting.{AreTrafficLines, ReportsMade, ReportsRefused, ReportsOutcome};

use crate::rehearsal::{Rehearsal, RehearsalStatus};
use crate::report::outcome::{push_accepted, push_refused};
use crate::report::sent::{push_read, push_sent};
use mongo_establish::{ErrorKind, EstablishError, PooledConnection};
use std::alloc::{AllocError, Global};

/// Reports how an establishment ended, by all that it wrote to its link and how many bytes it took of it. A refusal for want
/// of memory has no report.
pub fn report_outcome(
    alloc: Global,
    written: &[u8],
    taken: usize,
    ended: Result<PooledConnection, EstablishError>,
) -> Result<Rehearsal, AllocError>
    requires described { IfOk ended (λ pooled. IsSome pooled.connection.stream_description) }
    ensures told { IfOk result (ReportsOutcome written.now taken ended) }
{
    report_ended(alloc, written, taken, &ended)
}

// The same by reference: what owns the end lets all of its parts go once.
fn report_ended(
    alloc: Global,
    written: &[u8],
    taken: usize,
    ended: &Result<PooledConnection, EstablishError>,
) -> Result<Rehearsal, AllocError>
    requires described { IfOk ended.now (λ pooled. IsSome pooled.connection.stream_description) }
    ensures told { IfOk result (ReportsOutcome written.now taken ended.now) }
{
    match ended {
        Ok(pooled) => accepted_report(alloc, written, taken, pooled),
        Err(refusal) => refused_report(alloc, written, taken, refusal),
    }
}

// The lines of what was written and how many bytes were taken.
fn traffic_lines(alloc: Global, written: &[u8], taken: usize) -> Result<Vec<u8>, AllocError>
    ensures { IfOk result (λ out. AreTrafficLines written.now taken out.items) }
{
    let mut out = Vec::new(alloc);
    push_sent(&mut out, written)?;
    push_read(&mut out, taken)?;
    Ok(out)
}

// The report of a connection that was made.
fn accepted_report(
    alloc: Global,
    written: &[u8],
    taken: usize,
    pooled: &PooledConnection,
) -> Result<Rehearsal, AllocError>
    requires described { IsSome pooled.now.connection.stream_description }
    ensures { IfOk result (ReportsMade written.now taken pooled.now) }
{
    let Some(description) = &pooled.connection.stream_description else {
        unreachable!()
    };
    let mut report = traffic_lines(alloc, written, taken)?;
    push_accepted(
        &mut report,
        description,
        pooled.generation,
        pooled.connection.server_id,
    )?;
    Ok(Rehearsal {
        status: RehearsalStatus::Accepted,
        report,
    })
}

// The report of a refusal, where there is one.
fn refused_report(
    alloc: Global,
    written: &[u8],
    taken: usize,
    refusal: &EstablishError,
) -> Result<Rehearsal, AllocError>
    ensures { IfOk result (ReportsRefused written.now taken refusal.now) }
{
    if matches!(refusal.cause.kind, ErrorKind::OutOfMemory) {
        return Err(AllocError);
    }
    let mut report = traffic_lines(alloc, written, taken)?;
    push_refused(&mut report, &refusal.handshake_phase, &refusal.cause.kind)?;
    Ok(Rehearsal {
        status: RehearsalStatus::Refused,
        report,
    })
}
