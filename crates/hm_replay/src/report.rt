//! The report of callers that have all finished.
ghost use Rattle.std.specs.Prelude.{◌≡◌, ◌+◌, ◌<◌, ◌≤◌, ℕ, List, All, Some, IfOk, IfErr, map, length, slice_get};
ghost use Rattle.hm_orders.specs.declared.order.Order.{Order};
ghost use Rattle.hm_orders.specs.declared.report.Done.{Done};
ghost use Rattle.hm_model.specs.declared.entry.Entry.{Entry};
ghost use Rattle.hm_words.specs.declared.asked.Settings.{Settings};
ghost use Rattle.hm_replay.specs.Concluding.{CameTo, HasFinished, HaveCome, TellsAll};

use crate::conclusion::{Came, Stopped};
use hm_orders::{Board, Done, DoneList, Report, merge};
use std::alloc::Global;

/// The report of callers that have finished.
pub(crate) fn report_of(alloc: Global, came: Vec<Came>) -> Result<Report, Stopped>
    requires come { HaveCome came.items }
    requires finished { All HasFinished came.items }
    ensures report { IfOk result (λ report. (settings : Settings) (files : List (List Order))
        (history : List Entry) → CameTo settings files history came.items
        → TellsAll settings.limits files history report) }
    ensures memory { IfErr result (λ stopped. stopped ≡ Stopped.Memory) }
{
    let notes = Notes::of(alloc, came)?;
    let done = merge(alloc, notes.done)?;
    let resting = last_resting(done.items(), notes.resting.as_slice());
    Ok(Report {
        done,
        board: Board::new(notes.told),
        resting,
    })
}

/// What callers have noted, each list in order of callers.
#[derive(Drop)]
struct Notes {
    told: Vec<u64>,
    resting: Vec<u64>,
    done: Vec<DoneList>,
}

impl Notes {
    fn of(alloc: Global, came: Vec<Came>) -> Result<Notes, Stopped>
        ensures told { IfOk result (λ notes.
            notes.told.items ≡ map (λ c. c.progress.told) came.items) }
        ensures resting { IfOk result (λ notes.
            notes.resting.items ≡ map (λ c. c.progress.resting) came.items) }
        ensures done { IfOk result (λ notes.
            notes.done.items ≡ map (λ c. c.progress.done) came.items) }
        ensures memory { IfErr result (λ stopped. stopped ≡ Stopped.Memory) }
    {
        let mut notes = Notes {
            told: Vec::new(alloc),
            resting: Vec::new(alloc),
            done: Vec::new(alloc),
        };
        for c in came {
            notes.told.push(c.progress.told)?;
            notes.resting.push(c.progress.resting)?;
            notes.done.push(c.progress.done)?;
        }
        Ok(notes)
    }
}

/// How many orders rest behind the last of these, as its file's caller has noted.
fn last_resting(dones: &[Done], resting: &[u64]) -> u64
    requires files { All (λ done. (0 < done.file) × (done.file ≤ length resting.now)) dones.now }
    ensures none { length dones.now ≡ 0 → result ≡ 0 }
    ensures last { (n k rest : ℕ) (last : Done) → length dones.now ≡ n + 1
        → slice_get dones.now n ≡ Some last → k + 1 ≡ last.file
        → slice_get resting.now k ≡ Some rest → result ≡ rest }
{
    match dones.last() {
        Some(last) => resting[last.file as usize - 1],
        None => 0,
    }
}
