//! How far a caller has come with its orders.
ghost use Rattle.std.specs.Prelude.{◌≡◌, []};

use hm_orders::DoneList;
use std::alloc::Global;

/// What a caller's work has come to so far.
#[derive(Debug, Drop)]
pub struct Progress {
    /// How many of the orders are applied, which is the index of the next.
    pub next: u64,
    /// How many the board was told: all that are applied, or all but the last.
    pub told: u64,
    /// What became of those that are applied.
    pub done: DoneList,
    /// How many orders rested after the last of them.
    pub resting: u64,
}

impl Progress {
    /// Nothing applied yet. It takes no memory.
    pub fn new(alloc: Global) -> Progress
        ensures { result ≡ record { next = 0; told = 0; done = []; resting = 0 } }
    {
        Progress {
            next: 0,
            told: 0,
            done: DoneList::new(Vec::new(alloc)),
            resting: 0,
        }
    }
}
