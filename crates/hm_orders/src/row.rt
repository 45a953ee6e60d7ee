//! A row of an order file.
ghost use Rattle.std.specs.Prelude.{◌≡◌, ◌≢◌, [], ◌∷◌, length, IfSome, IfNone};
ghost use Rattle.csv.specs.Records.{fields_of};
ghost use Rattle.hm_orders.specs.Rows.{order_of_fields, order_of_row};

use crate::field::{kind_of, number, price_of, quantity_of, side_of};
use crate::order::Order;
use crate::read::Part;
use csv::ByteRecord;

/// How many rows a file may have.
const MOST_ROWS: u64 = 1_000_000;

/// The fields of a row, by their meaning.
#[derive(Clone, Copy)]
struct Fields<'a> {
    kind: &'a [u8],
    id: &'a [u8],
    side: &'a [u8],
    price: &'a [u8],
    quantity: &'a [u8],
}

/// The order that a row spells, or the first part that is refused.
pub fn order_of_row(file: u32, row: u64, fields: &ByteRecord) -> Result<Order, Part>
    ensures { result ≡ order_of_row file row (fields_of fields.now) }
{
    if row > MOST_ROWS {
        return Err(Part::TooMany);
    }
    let five = five_fields(fields).ok_or(Part::Fields)?;
    order_of_fields(file, row, &five)
}

/// The fields of a row, if they are five.
fn five_fields(fields: &ByteRecord) -> Option<Fields<'_>>
    ensures five { IfSome result (λ five.
        fields_of fields.now ≡ five.kind.now ∷ five.id.now ∷ five.side.now
        ∷ five.price.now ∷ five.quantity.now ∷ []) }
    ensures none { IfNone result (length (fields_of fields.now) ≢ 5) }
{
    if fields.len() != 5 {
        return None;
    }
    Some(Fields {
        kind: fields.get(0)?,
        id: fields.get(1)?,
        side: fields.get(2)?,
        price: fields.get(3)?,
        quantity: fields.get(4)?,
    })
}

/// The order that five fields spell, or the first part that is refused.
fn order_of_fields(file: u32, row: u64, fields: &Fields<'_>) -> Result<Order, Part>
    ensures { result ≡ order_of_fields file row
        (fields.now.kind.now ∷ fields.now.id.now ∷ fields.now.side.now
        ∷ fields.now.price.now ∷ fields.now.quantity.now ∷ []) }
{
    let kind = kind_of(fields.kind).ok_or(Part::Kind)?;
    Ok(Order {
        file,
        row,
        kind,
        id: number(fields.id, 0).ok_or(Part::Id)?,
        side: side_of(kind, fields.side).ok_or(Part::Side)?,
        price: price_of(kind, fields.price).ok_or(Part::Price)?,
        quantity: quantity_of(kind, fields.quantity).ok_or(Part::Quantity)?,
    })
}
