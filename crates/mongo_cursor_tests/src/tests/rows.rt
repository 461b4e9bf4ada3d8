use std::alloc::Global;
use std::test::Fail;

// What has to hold of each row of a table.
pub(crate) trait RowCheck {
    // Fails where it doesn't hold of a row, with a text that names the row.
    fn check(self, alloc: Global, row: &str) -> Result<(), Fail>;
}

pub(crate) fn check_rows<C: RowCheck + Copy>(
    alloc: Global,
    check: C,
    rows: &str,
) -> Result<(), Fail> {
    for row in rows.lines() {
        check.check(alloc, row)?;
    }
    Ok(())
}

// What stands before the first arrow of a row and behind it.
pub(crate) fn parts<'a>(row: &'a str) -> (&'a str, &'a str) {
    row.split_once(" => ").unwrap_or((row, "no arrow"))
}

// Fails where what was told of a row isn't so.
pub(crate) fn wants(row: &str, is_so: bool, told: &str) -> Result<(), Fail> {
    if is_so {
        Ok(())
    } else {
        Err(Fail::new(format_args!("{row}: told {told}")))
    }
}

// Fails where what was told of a row isn't this whole text.
pub(crate) fn wants_whole(row: &str, whole: &str, told: String) -> Result<(), Fail> {
    wants(row, told.as_str() == whole, told.as_str())
}
