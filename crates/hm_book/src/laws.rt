//! Laws of the definitions that the contracts cite.
ghost use Rattle.std.specs.Prelude.{◌≡◌, ◌↔◌, ◌<◌, ℕ, List, length, map, AllPairs, IfSome, IsNone, IsTrue};
ghost use Rattle.std.specs.List.{range_with_len};
ghost use Rattle.hm_orders.specs.declared.order.Order.{Order};
ghost use Rattle.hm_orders.specs.declared.order.Side.{Side};
ghost use Rattle.hm_orders.specs.Orders.{IsWellFormed};
ghost use Rattle.hm_orders.specs.Interleaving.{Interleaves};
ghost use Rattle.hm_book.specs.declared.book.Resting.{Resting};
ghost use Rattle.hm_book.specs.declared.limits.Limits.{Limits};
ghost use Rattle.hm_book.specs.Limits.{admits, no_limits};
ghost use Rattle.hm_book.specs.Trading.{best_opposite, trades};
ghost use Rattle.hm_book.specs.Best.{IsBest, NoneOpposes};
ghost use Rattle.hm_book.specs.Queue.{can_trade, traded_along, IsQueue};
ghost use Rattle.hm_book.specs.Run.{empty_state, report_of, state_after, BookState};
ghost use Rattle.hm_book.specs.Sound.{IsSound};

use crate::limits::Limits;

/// The best opposite order is in the book and opposes the side, and no other that does goes before it. There is none
/// exactly where no order of the book opposes the side.
pub fn best_opposite_is_best()
    ensures best { (side : Side) (book : List Resting) →
        IfSome (best_opposite side book) (IsBest side book) }
    ensures none { (side : Side) (book : List Resting) →
        IsNone (best_opposite side book) ↔ NoneOpposes side book }
{}

/// An order trades with one resting order after another of those that it can trade with, best first.
pub fn an_order_trades_along_its_queue()
    ensures { (order : Order) (taker number left : ℕ) (book queue : List Resting)
        → AllPairs (λ a b. a.root < b.root) book
        → IsQueue order.side (can_trade order) book queue
        → trades (length book) order taker number left book
        ≡ traded_along number taker left queue book }
{}

/// What holds of the empty book and its numbers holds after each order.
pub fn a_book_stays_sound()
    ensures empty { IsSound empty_state }
    ensures next { (limits : Limits) (state : BookState) (order : Order)
        → IsSound state → IsSound (state_after limits state order) }
{}

/// [`Limits::NONE`] are the widest limits: they admit every order that a row of an order file can give.
pub fn no_limits_admit_every_order()
    ensures widest { Limits.NONE ≡ no_limits }
    ensures admits { (order : Order) → IsWellFormed order → IsTrue (admits no_limits order) }
{}

/// A report tells of each order once, in order: by its file, by its row, and by a root number, counted from 1.
pub fn a_report_tells_of_each_order()
    ensures roots { (limits : Limits) (files : ℕ) (orders : List Order)
        → map (λ done. done.root) (report_of limits files orders).done
        ≡ range_with_len 1 (length orders) }
    ensures files { (limits : Limits) (files : ℕ) (orders : List Order)
        → map (λ done. done.file) (report_of limits files orders).done
        ≡ map (λ order. order.file) orders }
    ensures rows { (limits : Limits) (files : ℕ) (orders : List Order)
        → map (λ done. done.row) (report_of limits files orders).done
        ≡ map (λ order. order.row) orders }
{}

/// The board of a report of orders that interleave files tells how many orders each file has.
pub fn a_report_of_an_interleaving_counts_its_files()
    ensures { (limits : Limits) (files : List (List Order)) (orders : List Order)
        → Interleaves files orders
        → (report_of limits (length files) orders).board ≡ map length files }
{}
