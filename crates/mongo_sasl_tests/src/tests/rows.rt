//! Rows of texts, and what they are made of.
use std::alloc::Global;
use std::fmt::Debug;
use std::test::Fail;

// What has to hold of each row of a table.
pub(crate) trait RowCheck {
    // What is told of a row.
    fn told(self, alloc: Global, row: &str) -> Result<String, Fail>;
}

// Fails at a row of which something else is told than what stands behind its last arrow.
pub(crate) fn check_rows<C: RowCheck + Copy>(
    alloc: Global,
    check: C,
    rows: &str,
) -> Result<(), Fail> {
    for row in rows.lines() {
        wants(row, check.told(alloc, row)?)?;
    }
    Ok(())
}

fn wants(row: &str, told: String) -> Result<(), Fail> {
    let (_, wanted) = row.rsplit_once(" => ").unwrap_or((row, "no arrow"));
    if told.as_str() == wanted {
        Ok(())
    } else {
        Err(Fail::new(format_args!("{row}: told {told}")))
    }
}

// What stands before the first arrow of a row and behind it.
pub(crate) fn parts<'a>(row: &'a str) -> (&'a str, &'a str) {
    row.split_once(" => ").unwrap_or((row, ""))
}

// What stands before the first blank and behind it.
pub(crate) fn words<'a>(text: &'a str) -> (&'a str, &'a str) {
    text.split_once(' ').unwrap_or((text, ""))
}

// A text of a row: `-` where there is none, and two quotes where it is empty.
pub(crate) fn given_text<'a>(word: &'a str) -> Option<&'a str> {
    match word {
        "-" => None,
        "''" => Some(""),
        _ => Some(word),
    }
}

// A value as it is printed. It is generic, so that no proof of a text holds the value.
pub(crate) fn printed<T: Debug>(alloc: Global, value: &T) -> Result<String, Fail> {
    Ok(format!(in alloc; "{value:?}")?)
}

// The bytes that a row spells: `\0`, `\xHH`, and characters that stand for themselves.
pub(crate) fn spelled(alloc: Global, text: &str) -> Result<Vec<u8>, Fail> {
    let mut bytes = Vec::new(alloc);
    let mut pieces = text.split('\\');
    bytes.extend_from_slice(pieces.next().unwrap_or("").as_bytes())?;
    for piece in pieces {
        spell(&mut bytes, piece)?;
    }
    Ok(bytes)
}

// Writes what stands behind a backslash.
fn spell(bytes: &mut Vec<u8>, piece: &str) -> Result<(), Fail> {
    let (digits, rest) = match piece.strip_prefix('x') {
        Some(rest) => rest.split_at_checked(2).unwrap_or(("", rest)),
        None => piece.split_at_checked(1).unwrap_or(("", piece)),
    };
    bytes.push(u8::from_str_radix(digits, 16)?)?;
    Ok(bytes.extend_from_slice(rest.as_bytes())?)
}
