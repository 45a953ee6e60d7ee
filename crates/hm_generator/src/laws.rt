//! What follows from the rule by which orders are made.
ghost use Rattle.std.specs.Prelude.{◌≡◌, ◌≤◌, ◌+◌, ℕ, take};
ghost use Rattle.hm_orders.specs.declared.order.Kind.TheVariants.{Limit};
ghost use Rattle.hm_generator.specs.Generated.{cancel_at, order_at, orders_made};

/// The order of a row depends on the row and the number alone, so a shorter file is the front of a longer one.
pub fn a_shorter_file_is_the_front_of_a_longer()
    ensures front { (number count shorter : ℕ) → shorter ≤ count
        → take shorter (orders_made number count) ≡ orders_made number shorter }
{}

/// 63 rows below a limit order stands a cancel, and it has the limit order's id, which is its row.
pub fn a_limit_order_is_cancelled_63_rows_below()
    ensures cancel { (number row : ℕ) → (order_at number row).kind ≡ Limit
        → order_at number (row + 63) ≡ cancel_at (row + 63) }
    ensures id { (row : ℕ) → (cancel_at (row + 63)).id ≡ row }
{}
