// What is seen of an insert, as a text.
use super::job::Made;
use mongo_exec::InsertOutcome;
use std::alloc::Global;
use std::test::Fail;

// The outcome and the fault, how many bytes are written and left, and the next id.
pub(crate) fn seen(alloc: Global, made: &Made) -> Result<String, Fail> {
    let mut text = match &made.answer {
        Ok(outcome) => told(alloc, outcome, "done")?,
        Err(fault) => {
            let error = format!(in alloc; "{:?}", fault.error)?;
            told(alloc, &fault.done, error.as_str())?
        }
    };
    let (written, left) = (made.link.written().len(), made.link.left().len());
    let next = made.ids.next();
    text.push_str(format!(in alloc; " written {written} left {left} next {next}")?.as_str())?;
    Ok(text)
}

// An outcome and how it ended.
fn told(alloc: Global, outcome: &InsertOutcome, end: &str) -> Result<String, Fail> {
    let (inserted, batches) = (outcome.inserted, outcome.batches);
    let mut text = format!(in alloc; "inserted {inserted} batches {batches} errors")?;
    for error in outcome.write_errors.as_slice() {
        text.push_str(format!(in alloc; " {}:{}", error.index, error.error.code)?.as_str())?;
    }
    text.push_str(" concerns")?;
    for concern in outcome.write_concern_errors.as_slice() {
        text.push_str(format!(in alloc; " {}", concern.code)?.as_str())?;
    }
    text.push_str(format!(in alloc; " {end}")?.as_str())?;
    Ok(text)
}
