//! The fields of a row.
ghost use Rattle.std.specs.Prelude.{◌≡◌, ◌≤◌, length, if◌then◌else◌};
ghost use Rattle.std.specs.Str.{all_ascii_digits};
ghost use Rattle.std.specs.Str.Parse.{digits_value};
ghost use Rattle.hm_orders.specs.Rows.{absent, kind_of, number_of, price_of, quantity_of, side_of, trading_side};

use crate::order::{Kind, Side};

/// How many digits a number may have, which are those of the greatest one, 4294967295.
const MOST_DIGITS: usize = 10;

/// The kind that a field names.
pub fn kind_of(field: &[u8]) -> Option<Kind>
    ensures { result ≡ kind_of field.now }
{
    match field {
        b"L" => Some(Kind::Limit),
        b"I" => Some(Kind::Immediate),
        b"M" => Some(Kind::Market),
        b"C" => Some(Kind::Cancel),
        _ => None,
    }
}

/// The side that a field names, for a kind of order.
pub fn side_of(kind: Kind, field: &[u8]) -> Option<Side>
    ensures { result ≡ side_of kind field.now }
{
    match kind {
        Kind::Limit | Kind::Immediate | Kind::Market => trading_side(field),
        Kind::Cancel => absent(field, Side::Neither),
    }
}

/// The price that a field spells, for a kind of order.
pub fn price_of(kind: Kind, field: &[u8]) -> Option<u32>
    ensures { result ≡ price_of kind field.now }
{
    match kind {
        Kind::Limit | Kind::Immediate => number(field, 1),
        Kind::Market | Kind::Cancel => absent(field, 0),
    }
}

/// The quantity that a field spells, for a kind of order.
pub fn quantity_of(kind: Kind, field: &[u8]) -> Option<u32>
    ensures { result ≡ quantity_of kind field.now }
{
    match kind {
        Kind::Limit | Kind::Immediate | Kind::Market => number(field, 1),
        Kind::Cancel => absent(field, 0),
    }
}

/// The side of an order that trades.
fn trading_side(field: &[u8]) -> Option<Side>
    ensures { result ≡ trading_side field.now }
{
    match field {
        b"B" => Some(Side::Buy),
        b"S" => Some(Side::Sell),
        _ => None,
    }
}

/// What a field that has to be empty stands for.
fn absent<T: Copy>(field: &[u8], value: T) -> Option<T>
    ensures { result ≡ absent value field.now }
{
    if field.is_empty() { Some(value) } else { None }
}

/// The number that a field spells, if it is at least `least`.
pub fn number(field: &[u8], least: u32) -> Option<u32>
    ensures { result ≡ number_of least field.now }
{
    if field.is_empty() || field.len() > MOST_DIGITS {
        return None;
    }
    let value = digits(field)?;
    u32::try_from(value).ok().filter(|number| least <= *number)
}

/// The number that a few digits spell, at most `MOST_DIGITS`, so that it fits.
fn digits(field: &[u8]) -> Option<u64>
    requires { length field.now ≤ MOST_DIGITS }
    ensures { result
        ≡ (if all_ascii_digits field.now then Some (digits_value 10 field.now) else None) }
{
    let mut value: u64 = 0;
    for byte in field {
        if !byte.is_ascii_digit() {
            return None;
        }
        value = 10 * value + u64::from(*byte - b'0');
    }
    Some(value)
}
