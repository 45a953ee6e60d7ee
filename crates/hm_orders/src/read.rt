//! Reading order files.
ghost use Rattle.std.specs.Prelude.{◌≡◌, ◌≤◌, length, Ok, IfOk, IfErr};
ghost use Rattle.csv.specs.Records.{fields_of};
ghost use Rattle.hm_orders.specs.Orders.{AreRowsOf};
ghost use Rattle.hm_orders.specs.Rows.{RefusesBy, at_row, most_rows, order_of_row, orders_held};

use crate::order::Order;
use crate::row::order_of_row;
use crate::rows::{next_row, row_reader};
use csv::ByteRecord;
use std::alloc::{AllocFailed, Global};

/// What is tested of a row, in the order of testing, but for `TooMany`, which comes first.
#[derive(Clone, Copy, Debug, PartialEq, Eq)]
pub enum Part {
    /// A row has exactly five fields.
    Fields,
    /// `L`, `I`, `M` or `C`.
    Kind,
    /// A number: 1 to 10 digits with a value of at most 4294967295.
    Id,
    /// `B` or `S`; empty for a cancel.
    Side,
    /// A number of at least 1; empty for a market order and a cancel.
    Price,
    /// A number of at least 1; empty for a cancel.
    Quantity,
    /// A file has at most 1,000,000 rows.
    TooMany,
}

/// The first row that is refused, and its first part that is.
#[derive(Clone, Copy, Debug, PartialEq, Eq)]
pub struct TextRefused {
    /// From 1; blank lines are not counted, and a quoted end of line ends no row.
    pub row: u64,
    pub part: Part,
}

/// Why an order file was refused.
#[derive(Clone, Copy, Debug, PartialEq, Eq)]
pub enum ReadRefused {
    /// A row is refused.
    Text(TextRefused),
    /// Memory ran out.
    Memory,
}

impl From<TextRefused> for ReadRefused {
    ghost use Rattle.std.specs.Prelude.{◌≡◌};
    ghost use Rattle.hm_orders.specs.declared.read.ReadRefused.TheVariants.{Text};

    ghost from_gives = { λ refusal refused. refused ≡ Text refusal };

    fn from(refusal: TextRefused) -> ReadRefused {
        ReadRefused::Text(refusal)
    }
}

impl From<hm_edge::Memory> for ReadRefused {
    ghost use Rattle.std.specs.Prelude.{◌≡◌};
    ghost use Rattle.hm_orders.specs.declared.read.ReadRefused.TheVariants.{Memory};

    ghost from_gives = { λ _ refused. refused ≡ Memory };

    fn from(_memory: hm_edge::Memory) -> ReadRefused {
        ReadRefused::Memory
    }
}

impl<T: Drop> From<AllocFailed<T>> for ReadRefused {
    ghost use Rattle.std.specs.Prelude.{◌≡◌};
    ghost use Rattle.hm_orders.specs.declared.read.ReadRefused.TheVariants.{Memory};

    ghost from_gives = { λ _ refused. refused ≡ Memory };

    fn from(_failed: AllocFailed<T>) -> ReadRefused {
        ReadRefused::Memory
    }
}

/// Reads the orders that the bytes hold, as those of this file. At most 1,000,000 rows are read.
///
/// # Errors
///
/// [`ReadRefused::Text`] with the first row that is refused and its first part that is; [`ReadRefused::Memory`] where
/// it ran out.
pub fn read_orders(alloc: Global, file: u32, bytes: &[u8]) -> Result<Vec<Order>, ReadRefused>
    ensures orders { IfOk result (λ orders. orders_held file bytes.now ≡ Ok orders.items) }
    ensures text { IfErr result (RefusesBy (orders_held file bytes.now)) }
    ensures rows { IfOk result (λ orders. AreRowsOf file orders.items) }
    ensures most { IfOk result (λ orders. length orders.items ≤ most_rows) }
{
    let mut reader = row_reader(alloc, bytes);
    let mut fields = ByteRecord::new(alloc);
    let mut orders = Vec::new(alloc);
    while next_row(&mut reader, &mut fields)? {
        let row = orders.len() as u64 + 1;
        orders.push(order_at(file, row, &fields)?)?;
    }
    Ok(orders)
}

/// The order of a row, or its refusal with the row.
fn order_at(file: u32, row: u64, fields: &ByteRecord) -> Result<Order, TextRefused>
    ensures { result ≡ at_row row (order_of_row file row (fields_of fields.now)) }
{
    order_of_row(file, row, fields).map_err(|part| TextRefused { row, part })
}
