//! What became of the orders of a replay.
ghost use Rattle.std.specs.Prelude.{◌≡◌, [], ◌∷◌, ◌++◌, None, IfSome, OnOk, OnErr};

use std::alloc::AllocError;
use std::fmt;
use std::marker::Model;

/// What became of an order.
#[derive(Clone, Copy, Debug, PartialEq, Eq)]
pub enum Fate {
    /// It, or what was left of it, rests in the book.
    Rested,
    /// All of it was traded.
    Filled,
    /// What was left of it was thrown away.
    Dropped,
    /// It took out the order that it names.
    Cancelled,
    /// No order of its file with its id rests.
    Unknown,
    /// An order of its file with its id rests already.
    Repeated,
    /// The limits do not admit it.
    Denied,
}

impl fmt::Display for Fate {
    ghost use Rattle.std.specs.Prelude.{Some};
    ghost use Rattle.hm_orders.specs.ReportText.{fate_name};

    ghost output = { λ fate. Some (fate_name fate) };

    fn fmt<W: fmt::Write>(&self, f: &mut fmt::Formatter<W>) -> fmt::Result {
        f.write_str(match self {
            Fate::Rested => "rested",
            Fate::Filled => "filled",
            Fate::Dropped => "dropped",
            Fate::Cancelled => "cancelled",
            Fate::Unknown => "unknown",
            Fate::Repeated => "repeated",
            Fate::Denied => "denied",
        })
    }
}

/// One trade between two orders, at the resting order's price.
#[derive(Clone, Copy, Debug, PartialEq, Eq)]
pub struct Fill {
    /// Its place among all fills of the replay, from 1.
    pub number: u64,
    /// The root number of the order that came.
    pub taker: u64,
    /// The root number of the order that rested.
    pub maker: u64,
    pub price: u32,
    pub quantity: u32,
}

/// The fills of one order, in order of their numbers.
#[derive(Debug, Drop)]
pub struct Fills {
    items: Vec<Fill>,
}

impl Model for Fills {
    ghost use Rattle.std.specs.Prelude.{List};
    ghost use Rattle.hm_orders.specs.declared.report.Fill.{Fill};

    ghost Value = { List Fill };

    ghost view = { λ f. f.items.items };
}

impl Fills {
    pub fn new(items: Vec<Fill>) -> Fills
        ensures { result ≡ items.items }
    {
        Fills { items }
    }

    pub fn items(&self) -> &[Fill]
        ensures { result.now ≡ self.now }
    {
        self.items.as_slice()
    }

    pub fn into_items(self) -> Vec<Fill>
        ensures { result.items ≡ self }
    {
        self.items
    }
}

/// What became of one order.
#[derive(Debug, Drop)]
pub struct Done {
    /// Its place among all orders of the replay, from 1.
    pub root: u64,
    pub file: u32,
    pub row: u64,
    pub fate: Fate,
    pub fills: Fills,
}

/// What became of each order, in order of root numbers.
#[derive(Debug, Drop)]
pub struct DoneList {
    items: Vec<Done>,
}

impl Model for DoneList {
    ghost use Rattle.std.specs.Prelude.{List};
    ghost use Rattle.hm_orders.specs.declared.report.Done.{Done};

    ghost Value = { List Done };

    ghost view = { λ d. d.items.items };
}

impl DoneList {
    pub fn new(items: Vec<Done>) -> DoneList
        ensures { result ≡ items.items }
    {
        DoneList { items }
    }

    /// Notes one more at the end, unless there is no memory.
    pub fn push(&mut self, done: Done) -> Result<(), AllocError>
        ensures noted { OnOk result (self.new ≡ self.old ++ done ∷ []) }
        ensures unchanged { OnErr result (self.new ≡ self.old) }
    {
        self.items.push(done)?;
        Ok(())
    }

    /// Takes the last away again.
    pub fn pop(&mut self) -> Option<Done>
        ensures none { result ≡ None → self.old ≡ [] }
        ensures empty { result ≡ None → self.new ≡ [] }
        ensures last { IfSome result (λ done. self.old ≡ self.new ++ done ∷ []) }
    {
        self.items.pop()
    }

    pub fn items(&self) -> &[Done]
        ensures { result.now ≡ self.now }
    {
        self.items.as_slice()
    }

    pub fn into_items(self) -> Vec<Done>
        ensures { result.items ≡ self }
    {
        self.items
    }
}

/// How many orders of each file were applied, in order of files.
#[derive(Debug, Drop)]
pub struct Board {
    items: Vec<u64>,
}

impl Model for Board {
    ghost use Rattle.std.specs.Prelude.{List, ℕ};

    ghost Value = { List ℕ };

    ghost view = { λ b. b.items.items };
}

impl Board {
    pub fn new(items: Vec<u64>) -> Board
        ensures { result ≡ items.items }
    {
        Board { items }
    }

    pub fn items(&self) -> &[u64]
        ensures { result.now ≡ self.now }
    {
        self.items.as_slice()
    }

    pub fn into_items(self) -> Vec<u64>
        ensures { result.items ≡ self }
    {
        self.items
    }
}

/// All that the report of a replay tells.
#[derive(Debug, Drop)]
pub struct Report {
    pub done: DoneList,
    pub board: Board,
    /// How many orders rest in the end.
    pub resting: u64,
}
