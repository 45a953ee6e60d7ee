//! Plain heaps, and how they are made.
ghost use Rattle.std.specs.Prelude.{◌≡◌, ◌+◌, ◌≤◌, IfOk};
ghost use Rattle.hm_model.specs.History.{store_of, opening_of, starting_count};
ghost use Rattle.hm_model.specs.Sight.{IsFresh};
ghost use Rattle.hm_plain.specs.Stocks.{most_versions};
ghost use Rattle.hm_plain.specs.Sights.{IsPlain};

use crate::caller::PlainCaller;
use crate::diary::Diary;
use crate::objects::Objects;
use hm_model::{Start, Usage};
use std::alloc::{AllocError, Global};

/// There was no memory.
#[derive(Clone, Copy, Debug, PartialEq, Eq)]
pub struct Memory;

impl From<AllocError> for Memory {
    fn from(_error: AllocError) -> Memory {
        Memory
    }
}

/// The heap of one thread. It has one caller, which owns it.
pub struct PlainHeap;

impl PlainHeap {
    /// Makes a heap with its starting objects, and answers its caller. `room` is how many versions it has, of which
    /// the starting objects take one each. All memory is taken here.
    pub fn make<U: Usage>(
        alloc: Global,
        usage: U,
        start: Start,
        room: u64,
    ) -> Result<PlainCaller<U>, Memory>
        requires objects { starting_count start ≤ room }
        requires versions { room ≤ most_versions }
        requires lawful { U.lawful usage (store_of (opening_of start)) }
        ensures fresh { IfOk result IsFresh }
        ensures plain { IfOk result IsPlain }
        ensures usage { IfOk result (λ c. c.usage ≡ usage) }
        ensures start { IfOk result (λ c. c.start ≡ start) }
        ensures used { IfOk result (λ c. c.used ≡ starting_count start) }
        ensures span { IfOk result (λ c. c.span ≡ room) }
        ensures room { IfOk result (λ c. c.room + starting_count start ≡ room) }
    {
        let mut objects = Objects::reserve(alloc, room as u32)?;
        objects.open(start);
        let common = start.objects() - 1;
        let diary = Diary::open(alloc, usage, start, room)?;
        Ok(PlainCaller::fresh(diary, objects, common))
    }
}
