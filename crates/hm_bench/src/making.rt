//! Runs of one call: as many calls in a row as are asked for.
ghost use Rattle.std.specs.Prelude.{◌≡◌, ◌<◌, ◌≤◌};
ghost use Rattle.hm_model.specs.Sight.{IsSet};
ghost use Rattle.hm_cells.specs.Facts.{sight_of};
ghost use Rattle.hm_ops.specs.Resting.{IsResting};
ghost use Rattle.hm_bench.specs.Runs.{Makes};

use crate::call::Call;
use hm_cells::{Cells, Pass};
use hm_model::{AnyUsage, Root, Snapshot};
use hm_ops::{create, fetch, store_number};

/// What a run came to: how many calls were made, and a word of all that was read.
#[derive(Clone, Copy)]
pub(crate) struct Run {
    pub made: u32,
    pub read: u64,
}

/// Makes so many calls, or fewer where there is no more room. Place 0 names the object that is fetched or stored to.
pub(crate) fn make(
    cells: &Cells<AnyUsage>,
    pass: &mut Pass<AnyUsage>,
    call: Call,
    count: u32,
) -> Run
    requires rests { IsResting pass.old cells.now }
    requires set { IsSet (sight_of pass.old) record { 0 = 0 } }
    ensures made { Makes call result.made (sight_of pass.old) (sight_of pass.new) }
    ensures most { result.made ≤ count }
    ensures full { result.made < count → (sight_of pass.new).room ≡ 0 }
    ensures rests { IsResting pass.new cells.now }
{
    match call {
        Call::Create => Run {
            made: creates(cells, pass, count),
            read: 0,
        },
        Call::Fetch => Run {
            read: fetches(cells, pass, count),
            made: count,
        },
        Call::Store => Run {
            made: stores(cells, pass, count),
            read: 0,
        },
    }
}

// Creates objects one after another at place 1, and answers how many.
fn creates(cells: &Cells<AnyUsage>, pass: &mut Pass<AnyUsage>, count: u32) -> u32
    requires rests { IsResting pass.old cells.now }
    ensures made { Makes Call.Create result (sight_of pass.old) (sight_of pass.new) }
    ensures most { result ≤ count }
    ensures full { result < count → (sight_of pass.new).room ≡ 0 }
    ensures rests { IsResting pass.new cells.now }
{
    for i in 0..count {
        let Ok(()) = create(cells, pass, Root(1), [None; 4], [u64::from(i); 10]) else {
            return i;
        };
    }
    count
}

// Fetches the object at place 0, and answers a word of all that was read.
fn fetches(cells: &Cells<AnyUsage>, pass: &mut Pass<AnyUsage>, count: u32) -> u64
    requires rests { IsResting pass.old cells.now }
    requires set { IsSet (sight_of pass.old) record { 0 = 0 } }
    ensures made { Makes Call.Fetch count (sight_of pass.old) (sight_of pass.new) }
    ensures rests { IsResting pass.new cells.now }
{
    let mut read = 0;
    for _ in 0..count {
        read ^= word_of(fetch(cells, pass, Root(0), Root(4)));
    }
    read
}

// Stores into number 4 of the object at place 0, and answers how often.
fn stores(cells: &Cells<AnyUsage>, pass: &mut Pass<AnyUsage>, count: u32) -> u32
    requires rests { IsResting pass.old cells.now }
    requires set { IsSet (sight_of pass.old) record { 0 = 0 } }
    ensures made { Makes Call.Store result (sight_of pass.old) (sight_of pass.new) }
    ensures most { result ≤ count }
    ensures full { result < count → (sight_of pass.new).room ≡ 0 }
    ensures rests { IsResting pass.new cells.now }
{
    for i in 0..count {
        let Ok(()) = store_number(cells, pass, Root(0), 4, u64::from(i)) else {
            return i;
        };
    }
    count
}

// A word to which each field of an object adds, so that none is read in vain.
fn word_of(object: Snapshot) -> u64 {
    let references = object
        .set
        .iter()
        .fold(0, |word, set| word ^ u64::from(*set));
    object
        .numbers
        .iter()
        .fold(object.stamp ^ references, |word, number| word ^ *number)
}
