//! The usage of a heap with a book in cells.
ghost use Rattle.std.specs.Prelude.{◌≡◌};

use hm_book::Limits;
use hm_model::{NodeUsage, Usage};
use std::marker::Model;

/// How many rows each file of a replay has, in order of the files.
#[derive(Debug, Drop)]
pub struct Lengths {
    items: Vec<u64>,
}

impl Model for Lengths {
    ghost use Rattle.std.specs.Prelude.{List, ℕ};

    ghost Value = { List ℕ };

    ghost view = { λ l. l.items.items };
}

impl Lengths {
    pub fn new(items: Vec<u64>) -> Lengths
        ensures { result ≡ items.items }
    {
        Lengths { items }
    }

    pub fn items(&self) -> &[u64]
        ensures { result.now ≡ self.now }
    {
        self.items.as_slice()
    }

    pub fn into_items(self) -> Vec<u64>
        ensures { result.items ≡ self }
    {
        self.items
    }
}

/// The usage of a heap that keeps a book in cells: the limits of its orders, and the number of rows of each caller's
/// file.
#[derive(Debug, Drop)]
pub struct BookUsage {
    pub limits: Limits,
    pub lengths: Lengths,
}

impl Usage for BookUsage {
    ghost use Rattle.hm_agreement.specs.Agreed.{IsLawfulBook, IsAllowedBook};
    ghost use Rattle.hm_agreement.proofs.Agreeing.{book_laws};

    ghost lawful = { λ _. IsLawfulBook };

    ghost allowed = { λ usage. IsAllowedBook usage.limits usage.lengths };

    ghost laws = { λ usage. book_laws usage.limits usage.lengths };
}

impl NodeUsage for BookUsage {
    ghost use Rattle.hm_agreement.specs.Cells.{IsNode};
    ghost use Rattle.hm_agreement.proofs.Agreeing.{book_node_laws};

    ghost node = { λ _. IsNode };

    ghost node_laws = { λ usage. book_node_laws usage.limits usage.lengths };
}
