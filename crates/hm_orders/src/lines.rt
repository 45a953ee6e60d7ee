//! The lines of a report, each written into a buffer that is used again.
ghost use Rattle.std.specs.Prelude.{◌≡◌, [], ◌∷◌, OnOk, string_bytes, codes};
ghost use Rattle.hm_orders.specs.ReportText.{fill_line, line_of, order_line};

use crate::report::{Done, Fill};
use std::alloc::AllocError;

/// Replaces the buffer by the line of an order.
pub fn write_order(line: &mut String, done: &Done) -> Result<(), AllocError>
    ensures { OnOk result (string_bytes line.new ≡ order_line done.now) }
{
    let Done {
        root,
        file,
        row,
        fate,
        ..
    } = done;
    line.clear();
    writeln!(line, "order {root} {file} {row} {fate}")
}

/// Replaces the buffer by the line of a fill.
pub fn write_fill(line: &mut String, fill: &Fill) -> Result<(), AllocError>
    ensures { OnOk result (string_bytes line.new ≡ fill_line fill.now) }
{
    let Fill {
        number,
        taker,
        maker,
        price,
        quantity,
    } = fill;
    line.clear();
    writeln!(line, "fill {number} {taker} {maker} {price} {quantity}")
}

/// Replaces the buffer by the first line of a summary: from which number its orders were made, and how many.
pub fn write_generated(line: &mut String, number: u64, count: u64) -> Result<(), AllocError>
    ensures { OnOk result
        (string_bytes line.new ≡ line_of (codes "generated") (number ∷ count ∷ [])) }
{
    line.clear();
    writeln!(line, "generated {number} {count}")
}

/// Replaces the buffer by the line of the board, which has a number for each file.
pub fn write_board(line: &mut String, numbers: &[u64]) -> Result<(), AllocError>
    ensures { OnOk result (string_bytes line.new ≡ line_of (codes "board") numbers.now) }
{
    line.clear();
    line.push_str("board")?;
    for number in numbers {
        write!(line, " {number}")?;
    }
    line.push('\n')
}

/// Replaces the buffer by the last line: how many orders and fills there were, and how many rest.
pub fn write_end(
    line: &mut String,
    orders: usize,
    fills: u128,
    resting: u64,
) -> Result<(), AllocError>
    ensures { OnOk result
        (string_bytes line.new ≡ line_of (codes "end") (orders ∷ fills ∷ resting ∷ [])) }
{
    line.clear();
    writeln!(line, "end {orders} {fills} {resting}")
}
