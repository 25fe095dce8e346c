//! A table is read back.
use csv::{Reader, StringRecord};
use std::alloc::{AllocError, Global};

/// A word, and these fields of a row, each behind a blank, as a line behind another.
fn line_of(
    alloc: Global,
    word: &str,
    row: &StringRecord,
    fields: &[usize],
) -> Result<String, AllocError> {
    let mut line = String::from_str(alloc, "\n")?;
    line.push_str(word)?;
    for field in fields {
        line.push_str(" ")?;
        line.push_str(row.get(*field).unwrap_or("none"))?;
    }
    line.push_str("\n")?;
    Ok(line)
}

/// Whether the trace releases a job as the row says, and ends it so.
fn is_told(alloc: Global, trace: &str, row: &StringRecord) -> Result<bool, AllocError> {
    let released = line_of(alloc, "job", row, &[0, 1, 2, 3, 4])?;
    let ended = line_of(alloc, row.get(5).unwrap_or("none"), row, &[6, 0])?;
    Ok(trace.contains(released.as_str()) && trace.contains(ended.as_str()))
}

/// Whether the rows are as many, and the trace says of each job what its row does.
fn are_told(
    alloc: Global,
    rows: &mut Reader<&[u8]>,
    row: &mut StringRecord,
    trace: &str,
    jobs: usize,
) -> Result<bool, AllocError> {
    for _ in 0..jobs {
        if !rows.read_record(row).unwrap_or(false) || !is_told(alloc, trace, row)? {
            return Ok(false);
        }
    }
    Ok(matches!(rows.read_record(row), Ok(false)))
}

/// Whether the table has a row for each job of the trace, and no other.
pub(crate) fn reads_back(alloc: Global, trace: &[u8], table: &[u8]) -> Result<bool, AllocError> {
    let trace = str::from_utf8(trace).unwrap_or("");
    let mut rows = Reader::from_reader(alloc, table);
    let mut row = StringRecord::new(alloc);
    are_told(
        alloc,
        &mut rows,
        &mut row,
        trace,
        trace.matches("\njob ").count(),
    )
}
