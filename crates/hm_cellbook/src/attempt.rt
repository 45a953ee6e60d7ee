//! An attempt at an order: the next lists are built, and no object is stored to.
ghost use Rattle.std.specs.Prelude.{◌≡◌, ◌+◌, ◌-◌, ◌<◌, ◌≤◌, [], ◌∷◌, ℕ, List, Some, IfOk, IsOk, OnErr, Err, length, slice_index};
ghost use Rattle.hm_orders.specs.Orders.{IsWellFormed};
ghost use Rattle.hm_model.specs.declared.root.Root.{Root};
ghost use Rattle.hm_model.specs.Sight.{AreSet, Rests, name_at, names_of, present};
ghost use Rattle.hm_model.specs.Building.{Builds};
ghost use Rattle.hm_model.specs.Calls.{MayStoreIf};
ghost use Rattle.hm_list.specs.Places.{AreUnset, SameOutside};
ghost use Rattle.hm_book.specs.declared.book.Resting.{Resting};
ghost use Rattle.hm_book.specs.Limits.{admits};
ghost use Rattle.hm_book.specs.Run.{next_effect};
ghost use Rattle.hm_agreement.specs.Agreed.{HasBook};
ghost use Rattle.hm_agreement.specs.Cells.{HoldsOrder, kind_number};
ghost use Rattle.hm_cellbook.specs.Cost.{cost};
ghost use Rattle.hm_cellbook.specs.Fetched.{book_allowed, book_lawful, fetched_contents, WasFetched};
ghost use Rattle.hm_cellbook.specs.Attempted.{state_at, Applies, LeavesFetched, LeavesPlaces, TellsOrder};

use crate::outcome::apply;
use crate::pairs::side_number;
use crate::usage::BookUsage;
use hm_list::{Refused, clear_places, set_place};
use hm_model::{Caller, Root, Snapshot};
use hm_orders::{Done, Fills, Kind, Order};
use std::alloc::{AllocError, AllocFailed, Global};

/// What an order makes of a book: the next contents of the common object, and what becomes of the order.
#[derive(Debug, Drop)]
pub struct Attempt {
    /// The places of the bids, the asks, the resting ids and the board. A list without cells has none.
    pub refs: [Option<Root>; 4],
    pub numbers: [u64; 10],
    pub done: Done,
}

/// Why an attempt was given up.
#[derive(Clone, Copy, Debug, PartialEq, Eq)]
pub enum AttemptRefused {
    /// The caller's room is 0.
    Full,
    /// There was no memory for the fills, or for what a walk passed.
    Memory,
}

impl From<Refused> for AttemptRefused {
    ghost use Rattle.hm_cellbook.specs.Attempted.{attempt_refused};

    ghost from_gives = { λ refused e. e ≡ attempt_refused refused };

    fn from(refused: Refused) -> AttemptRefused {
        match refused {
            Refused::Full => AttemptRefused::Full,
            Refused::Memory => AttemptRefused::Memory,
        }
    }
}

impl<T: Drop> From<AllocFailed<T>> for AttemptRefused {
    ghost use Rattle.hm_cellbook.specs.declared.attempt.AttemptRefused.TheVariants.{Memory};

    ghost from_gives = { λ _ e. e ≡ Memory };

    fn from(_failed: AllocFailed<T>) -> AttemptRefused {
        AttemptRefused::Memory
    }
}

/// Copies the names of the three lists to the places where an attempt works on them.
fn copy_lists<C: Caller<BookUsage>>(c: &mut C)
    ensures rests { Rests (C.sight c.old) (C.sight c.new) }
    ensures bids { name_at (C.sight c.new).roots 8 ≡ name_at (C.sight c.old).roots 4 }
    ensures asks { name_at (C.sight c.new).roots 9 ≡ name_at (C.sight c.old).roots 5 }
    ensures ids { name_at (C.sight c.new).roots 10 ≡ name_at (C.sight c.old).roots 6 }
    ensures others { SameOutside (C.sight c.old) (C.sight c.new) 8 17 }
{
    c.copy_root(Root(4), Root(8));
    c.copy_root(Root(5), Root(9));
    c.copy_root(Root(6), Root(10));
}

/// The places of the three lists and of the board.
fn refs_of<C: Caller<BookUsage>>(c: &C) -> [Option<Root>; 4]
    ensures names { names_of (C.sight c.now) result
        ≡ name_at (C.sight c.now).roots 8 ∷ name_at (C.sight c.now).roots 9
        ∷ name_at (C.sight c.now).roots 10 ∷ name_at (C.sight c.now).roots 7 ∷ [] }
    ensures set { AreSet (C.sight c.now) result }
{
    [
        set_place(c, Root(8)),
        set_place(c, Root(9)),
        set_place(c, Root(10)),
        set_place(c, Root(7)),
    ]
}

/// The number of a kind of order.
fn kind_number(kind: Kind) -> u64
    ensures { result ≡ kind_number kind }
{
    match kind {
        Kind::Limit => 1,
        Kind::Immediate => 2,
        Kind::Market => 3,
        Kind::Cancel => 4,
    }
}

/// The numbers of the common object after an order with this root number.
fn numbers_of(order: &Order, root: u64, resting: u64, fills: u64) -> [u64; 10]
    ensures root { slice_index result 0 ≡ root }
    ensures holds { HoldsOrder result order.now }
    ensures resting { slice_index result 8 ≡ resting }
    ensures fills { slice_index result 9 ≡ fills }
{
    [
        root,
        u64::from(order.file),
        order.row,
        kind_number(order.kind),
        u64::from(order.id),
        side_number(order.side),
        u64::from(order.price),
        u64::from(order.quantity),
        resting,
        fills,
    ]
}

/// The same, but for the places after a refusal.
fn build_next<C: Caller<BookUsage>>(
    alloc: Global,
    c: &mut C,
    at: &Snapshot,
    o: &Order,
    admitted: bool,
) -> Result<Attempt, AttemptRefused>
    requires fetched { WasFetched (C.sight c.old) at.now }
    requires admits { admitted ≡ admits (C.sight c.old).usage.limits o.now }
    requires well_formed { IsWellFormed o.now }
    requires stamp { at.now.stamp < 18446744073709551615 }
    ensures shown { (book : List Resting)
        × HasBook (present (C.sight c.old)) (fetched_contents (C.sight c.old) at.now) book }
    ensures applies { IfOk result (λ a. (book : List Resting)
        → HasBook (present (C.sight c.old)) (fetched_contents (C.sight c.old) at.now) book
        → Applies (C.sight c.new) at.now o.now book a) }
    ensures tells { IfOk result (TellsOrder (C.sight c.new) at.now o.now) }
    ensures set { IfOk result (λ a. AreSet (C.sight c.new) a.refs) }
    ensures places { IfOk result (LeavesPlaces (C.sight c.old) (C.sight c.new)) }
    ensures allowed { IfOk result (λ a. o.now.file ≡ (C.sight c.new).number + 1
        → MayStoreIf book_lawful book_allowed (C.sight c.new) (record { 0 = 0 })
        at.now.stamp a.refs a.numbers) }
    ensures builds { (book : List Resting)
        → HasBook (present (C.sight c.old)) (fetched_contents (C.sight c.old) at.now) book
        → Builds book_lawful book_allowed (C.sight c.old) (C.sight c.new) (cost
        (length (next_effect (C.sight c.old).usage.limits (state_at at.now book) o.now).fills)
        (length book) - 2) }
    ensures needless { LeavesFetched (C.sight c.old) at.now o.now
        → Builds book_lawful book_allowed (C.sight c.old) (C.sight c.new) 0 }
    ensures answered { LeavesFetched (C.sight c.old) at.now o.now → IsOk result }
    ensures same { IfOk result (λ a. LeavesFetched (C.sight c.old) at.now o.now
        → names_of (C.sight c.new) a.refs ≡ (fetched_contents (C.sight c.old) at.now).refs) }
    ensures others { SameOutside (C.sight c.old) (C.sight c.new) 8 17 }
    ensures full { result ≡ Err AttemptRefused.Full → (C.sight c.new).room ≡ 0 }
{
    copy_lists(c);
    let root = at.stamp + 1;
    let made = at.numbers[9];
    let outcome = apply(alloc, c, o, admitted, root, made, at.numbers[8])?;
    let fills = made + outcome.fills.len() as u64;
    let numbers = numbers_of(o, root, outcome.resting, fills);
    Ok(Attempt {
        refs: refs_of(c),
        numbers,
        done: Done {
            root,
            file: o.file,
            row: o.row,
            fate: outcome.fate,
            fills: Fills::new(outcome.fills),
        },
    })
}

/// Builds what an order of any kind makes of the book that the fetch of root place 0, which names the common object,
/// into places 4 to 7 answered. There was one: what was fetched has just one book. The caller tells whether the limits
/// admit the order; one that they do not admit is denied.
///
/// It makes cells and stores to no object. An order that leaves the book as it is makes no cell and is not refused, and
/// its attempt names the lists that were fetched. Places below 8 name what they named. Where it answers an attempt, its
/// lists are named at places 8, 9 and 10, places 11 to 16 are unset, and those from 17 on name what they named; after a
/// refusal all places from 8 on are unset. [`AttemptRefused::Full`] comes only where the caller's room is 0 as the call
/// answers. A conditional store of the attempt at place 0 with the snapshot's stamp is allowed to the caller whose file
/// the order is of.
pub fn cell_apply<C: Caller<BookUsage>>(
    alloc: Global,
    c: &mut C,
    at: &Snapshot,
    o: &Order,
    admitted: bool,
) -> Result<Attempt, AttemptRefused>
    requires fetched { WasFetched (C.sight c.old) at.now }
    requires admits { admitted ≡ admits (C.sight c.old).usage.limits o.now }
    requires well_formed { IsWellFormed o.now }
    requires stamp { at.now.stamp < 18446744073709551615 }
    ensures shown { (book : List Resting)
        × HasBook (present (C.sight c.old)) (fetched_contents (C.sight c.old) at.now) book }
    ensures applies { IfOk result (λ a. (book : List Resting)
        → HasBook (present (C.sight c.old)) (fetched_contents (C.sight c.old) at.now) book
        → Applies (C.sight c.new) at.now o.now book a) }
    ensures tells { IfOk result (TellsOrder (C.sight c.new) at.now o.now) }
    ensures set { IfOk result (λ a. AreSet (C.sight c.new) a.refs) }
    ensures places { IfOk result (LeavesPlaces (C.sight c.old) (C.sight c.new)) }
    ensures allowed { IfOk result (λ a. o.now.file ≡ (C.sight c.new).number + 1
        → MayStoreIf book_lawful book_allowed (C.sight c.new) (record { 0 = 0 })
        at.now.stamp a.refs a.numbers) }
    ensures builds { (book : List Resting)
        → HasBook (present (C.sight c.old)) (fetched_contents (C.sight c.old) at.now) book
        → Builds book_lawful book_allowed (C.sight c.old) (C.sight c.new) (cost
        (length (next_effect (C.sight c.old).usage.limits (state_at at.now book) o.now).fills)
        (length book) - 2) }
    ensures needless { LeavesFetched (C.sight c.old) at.now o.now
        → Builds book_lawful book_allowed (C.sight c.old) (C.sight c.new) 0 }
    ensures answered { LeavesFetched (C.sight c.old) at.now o.now → IsOk result }
    ensures same { IfOk result (λ a. LeavesFetched (C.sight c.old) at.now o.now
        → names_of (C.sight c.new) a.refs ≡ (fetched_contents (C.sight c.old) at.now).refs) }
    ensures names { (k : ℕ) → k < 8
        → name_at (C.sight c.new).roots k ≡ name_at (C.sight c.old).roots k }
    ensures beyond { (k : ℕ) → 256 ≤ k
        → name_at (C.sight c.new).roots k ≡ name_at (C.sight c.old).roots k }
    ensures unset { OnErr result (AreUnset (C.sight c.new) 8 256) }
    ensures full { result ≡ Err AttemptRefused.Full → (C.sight c.new).room ≡ 0 }
{
    match build_next(alloc, c, at, o, admitted) {
        Ok(attempt) => Ok(attempt),
        Err(refused) => {
            clear_places(c, Root(8), Root(256));
            Err(refused)
        }
    }
}
