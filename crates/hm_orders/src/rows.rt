//! The rows of an order file: the records of its bytes.
ghost use Rattle.std.specs.Prelude.{◌≡◌, true, IfOk, OnErr};
ghost use Rattle.csv.specs.Reading.{has_failed};
ghost use Rattle.csv.specs.Records.{fields_of};
ghost use Rattle.hm_orders.specs.Rows.{rows_of};
ghost use Rattle.hm_orders.specs.RowReader.{FindsRow, TakesRows, rows_left};

use csv::{ByteRecord, ErrorKind, Reader, ReaderBuilder};
use hm_edge::Memory;
use std::alloc::Global;

/// A reader of the rows that the bytes hold.
pub fn row_reader(alloc: Global, bytes: &[u8]) -> Reader<&[u8]>
    ensures takes { TakesRows result }
    ensures rows { rows_left result ≡ rows_of bytes.now }
{
    ReaderBuilder::new()
        .has_headers(false)
        // A row of another length is refused by its number and part, not by the reader.
        .flexible(true)
        .from_reader(alloc, bytes)
}

/// Reads the next row into `row`, and says whether there was one.
pub fn next_row(reader: &mut Reader<&[u8]>, row: &mut ByteRecord) -> Result<bool, Memory>
    requires { TakesRows reader.old }
    ensures finds { IfOk result
        (λ found. FindsRow found (fields_of row.new) (rows_left reader.old) (rows_left reader.new)) }
    ensures goes_on { IfOk result (λ found. found ≡ true → TakesRows reader.new) }
    ensures failed { OnErr result (has_failed reader.new ≡ true) }
{
    match reader.read_byte_record(row) {
        Ok(found) => Ok(found),
        Err(error) => match error.into_kind() {
            // Bytes in memory can always be read; but `csv` speaks of any reader underneath, so no clause of it rules
            // out `Io`. It stands with want of memory, the one answer that may come whatever the bytes are.
            ErrorKind::OutOfMemory | ErrorKind::Io(_) => Err(Memory),
            _ => unreachable!(),
        },
    }
}
