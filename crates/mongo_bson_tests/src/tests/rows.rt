use super::building::{appended, checked, extended};
use super::comparing::agreement;
use super::reading::{said, told_uncut};
use super::spelling::{bytes_of, wants};
use std::alloc::Global;
use std::test::Fail;

// What is asked of the bytes of a row.
#[derive(Clone, Copy)]
pub(crate) enum Asked {
    Meaning,
    Frame,
    Appending,
    Extending,
    Checks,
    Agreement,
}

fn told(alloc: Global, asked: Asked, bytes: &[u8]) -> Result<String, Fail> {
    match asked {
        Asked::Meaning => told_uncut(alloc, bytes),
        Asked::Frame => said(alloc, bytes),
        Asked::Appending => appended(alloc, bytes),
        Asked::Extending => extended(alloc, bytes),
        Asked::Checks => checked(alloc, bytes),
        Asked::Agreement => agreement(alloc, bytes),
    }
}

// What stands before the arrow of a row and behind it.
fn parts<'a>(row: &'a str) -> (&'a str, &'a str) {
    row.split_once(" => ").unwrap_or((row, "no arrow"))
}

fn row_tells(alloc: Global, asked: Asked, row: &str) -> Result<(), Fail> {
    let (spelled, wanted) = parts(row);
    let bytes = bytes_of(alloc, spelled)?;
    wants(row, wanted, told(alloc, asked, bytes.as_slice())?)
}

// Fails where of the bytes of a row something else is told than what stands behind its arrow.
pub(crate) fn each_row_tells(alloc: Global, asked: Asked, rows: &str) -> Result<(), Fail> {
    for row in rows.lines() {
        row_tells(alloc, asked, row)?;
    }
    Ok(())
}
