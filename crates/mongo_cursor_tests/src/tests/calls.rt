// The calls of a cursor, and what is seen of each as a text.
ghost use Rattle.std.specs.Prelude.{◌<◌};

use super::job::{Job, Line, find};
use mongo_bson::Documents;
use mongo_cursor::{Advance, Cursor, CursorError};
use std::alloc::Global;
use std::test::Fail;

// What each call of a row answers, how many bytes are written and left then, and the next id.
pub(crate) fn seen(alloc: Global, words: &str, most: usize) -> Result<String, Fail>
    requires { 0 < most }
{
    let (mut told, line) = run(alloc, words, most)?;
    let (written, left) = (line.link.written().len(), line.link.left().len());
    let mut ids = line.ids;
    let next = ids.next();
    told.push_str(format!(in alloc; " written {written} left {left} next {next}")?.as_str())?;
    Ok(told)
}

// All that the calls of a row write, in hex.
pub(crate) fn written(alloc: Global, words: &str, most: usize) -> Result<String, Fail>
    requires { 0 < most }
{
    let (_told, line) = run(alloc, words, most)?;
    Ok(hex::encode(alloc, line.link.written())?)
}

// Makes the cursor and the calls of a row.
fn run(alloc: Global, words: &str, most: usize) -> Result<(String, Line), Fail>
    requires { 0 < most }
{
    let job = Job::of_words(alloc, words)?;
    let calls = job.calls;
    let mut line = job.line(alloc, most)?;
    let command = find(alloc)?;
    match Cursor::new(
        alloc,
        &mut line.connection,
        &mut line.link,
        &mut line.ids,
        command,
    ) {
        Ok(cursor) => {
            let mut told = format!(in alloc; "id {}", cursor.id())?;
            make(alloc, cursor, calls, &mut line, &mut told)?;
            Ok((told, line))
        }
        Err(error) => Ok((format!(in alloc; "{error:?}")?, line)),
    }
}

// Makes calls of a cursor.
fn make(
    alloc: Global,
    cursor: Cursor,
    calls: &str,
    line: &mut Line,
    told: &mut String,
) -> Result<(), Fail> {
    let mut cursor = cursor;
    for call in calls.split(',') {
        told.push_str(" | ")?;
        let (name, most) = call.split_once(':').unwrap_or((call, ""));
        match name {
            "" => {}
            "advance" => told.push_str(advanced(alloc, &mut cursor, line)?.as_str())?,
            "all" => {
                let most = u64::from_str_radix(most, 10)?;
                told.push_str(read(alloc, &mut cursor, most, line)?.as_str())?;
            }
            "id" => told.push_str(format!(in alloc; "id {}", cursor.id())?.as_str())?,
            "close" => {
                told.push_str(closed(alloc, cursor, line)?.as_str())?;
                return Ok(());
            }
            _ => return Err(Fail::new(format_args!("no call {call}"))),
        }
    }
    Ok(())
}

fn advanced(alloc: Global, cursor: &mut Cursor, line: &mut Line) -> Result<String, Fail> {
    let answer = cursor.advance(alloc, &mut line.connection, &mut line.link, &mut line.ids);
    Ok(match answer {
        Ok(Advance::Document(document)) => hex::encode(alloc, document.as_bytes())?,
        Ok(Advance::Empty) => String::from_str(alloc, "empty")?,
        Ok(Advance::End) => String::from_str(alloc, "end")?,
        Err(error) => error_text(alloc, &error)?,
    })
}

fn read(alloc: Global, cursor: &mut Cursor, most: u64, line: &mut Line) -> Result<String, Fail> {
    let mut out = Documents::new(alloc);
    let answer = cursor.read_all(
        alloc,
        &mut line.connection,
        &mut line.link,
        &mut line.ids,
        most,
        &mut out,
    );
    let mut told = match answer {
        Ok(true) => String::from_str(alloc, "true")?,
        Ok(false) => String::from_str(alloc, "false")?,
        Err(error) => error_text(alloc, &error)?,
    };
    for document in out.as_slice() {
        told.push_str(" ")?;
        told.push_str(hex::encode(alloc, document.as_bytes())?.as_str())?;
    }
    Ok(told)
}

fn closed(alloc: Global, cursor: Cursor, line: &mut Line) -> Result<String, Fail> {
    let answer = cursor.close(alloc, &mut line.connection, &mut line.link, &mut line.ids);
    match answer {
        Ok(()) => Ok(String::from_str(alloc, "closed")?),
        Err(error) => error_text(alloc, &error),
    }
}

fn error_text(alloc: Global, error: &CursorError) -> Result<String, Fail> {
    Ok(format!(in alloc; "{error:?}")?)
}
