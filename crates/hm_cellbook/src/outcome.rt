//! What becomes of an order, by the first row that fits it:
//!
//! | Order | Fate |
//! |---|---|
//! | the limits do not admit it | denied |
//! | a cancel whose order rests | cancelled |
//! | any other cancel | unknown |
//! | an order of its file with its id rests | repeated |
//! | trading leaves nothing of it | filled |
//! | a limit order, of which the rest rests | rested |
//! | any other, of which the rest is thrown away | dropped |
ghost use Rattle.std.specs.Prelude.{◌≡◌, ◌≢◌, ◌+◌, ◌*◌, ◌<◌, [], ◌∷◌, ◌++◌, List, Err, IfOk, IfSome, IsOk, OnOk, is_some, length};
ghost use Rattle.hm_orders.specs.declared.order.Kind.TheVariants.{Cancel};
ghost use Rattle.hm_orders.specs.Orders.{IsTradingSide, IsWellFormed};
ghost use Rattle.hm_model.specs.Building.{Builds};
ghost use Rattle.hm_list.specs.Places.{AreUnset, SameOutside};
ghost use Rattle.hm_book.specs.declared.book.Resting.{Resting};
ghost use Rattle.hm_book.specs.Limits.{admits};
ghost use Rattle.hm_book.specs.Effect.{cancel_effect, effect_of, keeps_rest, rests, trade_effect};
ghost use Rattle.hm_cellbook.specs.Cost.{cells_of, ChangesNothing, LeavesBook};
ghost use Rattle.hm_cellbook.specs.Fetched.{book_allowed, book_lawful};
ghost use Rattle.hm_cellbook.specs.Sides.{IsListable};
ghost use Rattle.hm_cellbook.specs.Working.{Begins, BeginsOn, HasEffect, IsNamed, IsSpotOf, IsWorking, WorksOn};

use crate::attempt::AttemptRefused;
use crate::fills::{take_out, trade};
use crate::pairs::{END, Spot, TOP, id_key, id_of, ids_place, pair_on, place_of, spot_in};
use crate::usage::BookUsage;
use hm_book::{Resting, rest_of};
use hm_list::{clear_places, find, put};
use hm_model::Caller;
use hm_orders::{Fate, Fill, Kind, Order};
use std::alloc::Global;

/// What became of an order.
#[derive(Drop)]
pub(crate) struct Outcome {
    pub fate: Fate,
    pub fills: Vec<Fill>,
    /// How many orders rest.
    pub resting: u64,
}

/// The outcome of an order that makes no fill.
fn no_fill(alloc: Global, fate: Fate, resting: u64) -> Outcome
    ensures fate { result.fate ≡ fate }
    ensures fills { result.fills.items ≡ [] }
    ensures resting { result.resting ≡ resting }
{
    Outcome {
        fate,
        fills: Vec::new(alloc),
        resting,
    }
}

/// Where the order of this file with this id rests, if one does.
fn find_spot<C: Caller<BookUsage>>(c: &mut C, file: u32, id: u32) -> Option<Spot>
    requires { IsWorking (C.sight c.old) }
    ensures rests { (book : List Resting) → WorksOn (C.sight c.old) book
        → is_some result ≡ rests file id book }
    ensures spot { (book : List Resting) → WorksOn (C.sight c.old) book
        → IfSome result (λ spot. (r : Resting) × IsNamed file id book r × IsSpotOf spot r) }
    ensures works { (book : List Resting) → WorksOn (C.sight c.old) book
        → WorksOn (C.sight c.new) book }
    ensures builds { Builds book_lawful book_allowed (C.sight c.old) (C.sight c.new) 0 }
    ensures others { SameOutside (C.sight c.old) (C.sight c.new) 11 17 }
    ensures unset { AreUnset (C.sight c.new) 11 17 }
{
    let load = find(c, ids_place(), id_key(file, id), TOP)?;
    Some(spot_in(load))
}

/// Whether an order of this file with this id rests already.
fn is_repeated<C: Caller<BookUsage>>(c: &mut C, file: u32, id: u32) -> bool
    requires { IsWorking (C.sight c.old) }
    ensures repeated { (book : List Resting) → WorksOn (C.sight c.old) book
        → result ≡ rests file id book }
    ensures works { (book : List Resting) → WorksOn (C.sight c.old) book
        → WorksOn (C.sight c.new) book }
    ensures builds { Builds book_lawful book_allowed (C.sight c.old) (C.sight c.new) 0 }
    ensures others { SameOutside (C.sight c.old) (C.sight c.new) 11 17 }
    ensures unset { AreUnset (C.sight c.new) 11 17 }
{
    find_spot(c, file, id).is_some()
}

/// Lets an order rest.
fn rest<C: Caller<BookUsage>>(
    alloc: Global,
    c: &mut C,
    resting: &Resting,
) -> Result<(), AttemptRefused>
    requires working { IsWorking (C.sight c.old) }
    requires trading { IsTradingSide resting.now.side }
    ensures rests { (book : List Resting) → WorksOn (C.sight c.old) book
        → IsListable (book ++ resting.now ∷ [])
        → OnOk result (WorksOn (C.sight c.new) (book ++ resting.now ∷ [])) }
    ensures builds { (book : List Resting) → WorksOn (C.sight c.old) book
        → Builds book_lawful book_allowed (C.sight c.old) (C.sight c.new) (2 * (length book + 9)) }
    ensures others { SameOutside (C.sight c.old) (C.sight c.new) 8 17 }
    ensures unset { AreUnset (C.sight c.new) 11 17 }
    ensures full { result ≡ Err AttemptRefused.Full → (C.sight c.new).room ≡ 0 }
{
    put(alloc, c, place_of(resting.side), pair_on(resting), TOP)?;
    put(alloc, c, ids_place(), id_of(resting), TOP)?;
    Ok(())
}

/// Whether what is left of an order of this kind rests.
fn keeps_rest(kind: Kind) -> bool
    ensures { result ≡ keeps_rest kind }
{
    match kind {
        Kind::Limit => true,
        Kind::Immediate | Kind::Market | Kind::Cancel => false,
    }
}

/// Trades an order, unless an order of its file with its id rests already; what is left of it rests or is thrown away.
/// So many fills were made before, and so many orders rest.
fn trade_order<C: Caller<BookUsage>>(
    alloc: Global,
    c: &mut C,
    order: &Order,
    root: u64,
    made: u64,
    resting: u64,
) -> Result<Outcome, AttemptRefused>
    requires begins { Begins (C.sight c.old) root resting }
    requires trades { order.now.kind ≢ Cancel }
    requires well_formed { IsWellFormed order.now }
    requires numbers { made + resting < 18446744073709551615 }
    ensures effect { IfOk result (λ t. (book : List Resting)
        → BeginsOn (C.sight c.old) root resting book → HasEffect (C.sight c.new)
        (trade_effect order.now root made book) t.fate t.fills.items t.resting) }
    ensures builds { (book : List Resting) → BeginsOn (C.sight c.old) root resting book
        → Builds book_lawful book_allowed (C.sight c.old) (C.sight c.new)
        (cells_of (trade_effect order.now root made book) (length book)) }
    ensures answered { (book : List Resting) → BeginsOn (C.sight c.old) root resting book
        → LeavesBook (trade_effect order.now root made book) → IsOk result }
    ensures same { IfOk result (λ t. ChangesNothing t.fate t.fills.items
        → SameOutside (C.sight c.old) (C.sight c.new) 11 17) }
    ensures others { SameOutside (C.sight c.old) (C.sight c.new) 8 17 }
    ensures unset { AreUnset (C.sight c.new) 11 17 }
    ensures full { result ≡ Err AttemptRefused.Full → (C.sight c.new).room ≡ 0 }
{
    if is_repeated(c, order.file, order.id) {
        return Ok(no_fill(alloc, Fate::Repeated, resting));
    }
    let trading = trade(alloc, c, order, root, made, resting)?;
    if trading.left == 0 {
        return Ok(Outcome {
            fate: Fate::Filled,
            fills: trading.fills,
            resting: trading.resting,
        });
    }
    if !keeps_rest(order.kind) {
        return Ok(Outcome {
            fate: Fate::Dropped,
            fills: trading.fills,
            resting: trading.resting,
        });
    }
    rest(alloc, c, &rest_of(order, root, trading.left))?;
    Ok(Outcome {
        fate: Fate::Rested,
        fills: trading.fills,
        resting: trading.resting + 1,
    })
}

/// Takes the order that a cancel names out of the book, if it rests. So many orders rest.
fn cancel<C: Caller<BookUsage>>(
    alloc: Global,
    c: &mut C,
    order: &Order,
    resting: u64,
) -> Result<Outcome, AttemptRefused>
    requires working { (book : List Resting) × WorksOn (C.sight c.old) book
        × (length book ≡ resting) }
    ensures effect { IfOk result (λ t. (book : List Resting) → WorksOn (C.sight c.old) book
        → length book ≡ resting → HasEffect (C.sight c.new)
        (cancel_effect order.now book) t.fate t.fills.items t.resting) }
    ensures builds { (book : List Resting) → WorksOn (C.sight c.old) book
        → Builds book_lawful book_allowed (C.sight c.old) (C.sight c.new)
        (cells_of (cancel_effect order.now book) (length book)) }
    ensures answered { (book : List Resting) → WorksOn (C.sight c.old) book
        → LeavesBook (cancel_effect order.now book) → IsOk result }
    ensures same { IfOk result (λ t. ChangesNothing t.fate t.fills.items
        → SameOutside (C.sight c.old) (C.sight c.new) 11 17) }
    ensures others { SameOutside (C.sight c.old) (C.sight c.new) 8 17 }
    ensures unset { AreUnset (C.sight c.new) 11 17 }
    ensures full { result ≡ Err AttemptRefused.Full → (C.sight c.new).room ≡ 0 }
{
    let Some(spot) = find_spot(c, order.file, order.id) else {
        return Ok(no_fill(alloc, Fate::Unknown, resting));
    };
    take_out(alloc, c, spot, id_key(order.file, order.id))?;
    Ok(no_fill(alloc, Fate::Cancelled, resting - 1))
}

/// Applies an order. So many fills were made before, and so many orders rest.
pub(crate) fn apply<C: Caller<BookUsage>>(
    alloc: Global,
    c: &mut C,
    order: &Order,
    admitted: bool,
    root: u64,
    made: u64,
    resting: u64,
) -> Result<Outcome, AttemptRefused>
    requires begins { Begins (C.sight c.old) root resting }
    requires admits { admitted ≡ admits (C.sight c.old).usage.limits order.now }
    requires well_formed { IsWellFormed order.now }
    requires numbers { made + resting < 18446744073709551615 }
    ensures effect { IfOk result (λ t. (book : List Resting)
        → BeginsOn (C.sight c.old) root resting book → HasEffect (C.sight c.new)
        (effect_of (C.sight c.old).usage.limits order.now root made book)
        t.fate t.fills.items t.resting) }
    ensures builds { (book : List Resting) → BeginsOn (C.sight c.old) root resting book
        → Builds book_lawful book_allowed (C.sight c.old) (C.sight c.new) (cells_of
        (effect_of (C.sight c.old).usage.limits order.now root made book) (length book)) }
    ensures answered { (book : List Resting) → BeginsOn (C.sight c.old) root resting book
        → LeavesBook (effect_of (C.sight c.old).usage.limits order.now root made book)
        → IsOk result }
    ensures same { IfOk result (λ t. ChangesNothing t.fate t.fills.items
        → SameOutside (C.sight c.old) (C.sight c.new) 11 17) }
    ensures others { SameOutside (C.sight c.old) (C.sight c.new) 8 17 }
    ensures unset { AreUnset (C.sight c.new) 11 17 }
    ensures full { result ≡ Err AttemptRefused.Full → (C.sight c.new).room ≡ 0 }
{
    if !admitted {
        clear_places(c, TOP, END);
        return Ok(no_fill(alloc, Fate::Denied, resting));
    }
    match order.kind {
        Kind::Limit | Kind::Immediate | Kind::Market => {
            trade_order(alloc, c, order, root, made, resting)
        }
        Kind::Cancel => cancel(alloc, c, order, resting),
    }
}
