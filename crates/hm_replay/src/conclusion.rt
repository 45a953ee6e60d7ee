//! What the callers of a replay come to together: a report, or why there is none.
ghost use Rattle.std.specs.Prelude.{◌≡◌, ◌+◌, ℕ, List, All, IfOk, IfErr, OnOk, sum_by, length};
ghost use Rattle.hm_orders.specs.declared.order.Order.{Order};
ghost use Rattle.hm_model.specs.declared.entry.Entry.{Entry};
ghost use Rattle.hm_agreement.specs.Spelled.{spelled};
ghost use Rattle.hm_words.specs.declared.asked.Settings.{Settings};
ghost use Rattle.hm_replay.specs.Concluding.{CameTo, HasFinished, HasStalled, HaveCome, IfFull, TellsAll, WasFullAt};

use crate::report::report_of;
use hm_desk::{Progress, Worked};
use hm_orders::Report;
use std::alloc::{AllocError, AllocFailed, Global};

/// What a caller's work came to. Before it has worked, it has applied nothing, and stands as if memory had run out.
#[derive(Drop)]
pub(crate) struct Came {
    pub progress: Progress,
    pub worked: Worked,
}

/// For whom the heap of a replay was full.
#[derive(Clone, Copy, Debug, PartialEq, Eq)]
pub struct FullAt {
    /// The caller that stalled, numbered from 0. Those before it have finished.
    pub caller: u32,
    /// Whether the heap was being settled: never yet.
    pub settling: bool,
    /// The common object's stamp when the heap was settled last: nothing is settled yet, so it is the stamp at the end.
    pub settled: u64,
    /// The common object's stamp at the end, which is the number of orders that were applied.
    pub root: u64,
    /// How many places were used of the caller's To region when it last had no room.
    pub used: u32,
    /// How many of its regions were free then.
    pub free: u32,
}

/// Why a replay ended without a report.
#[derive(Clone, Copy, Debug, PartialEq, Eq)]
pub(crate) enum Stopped {
    /// There was no memory.
    Memory,
    /// The heap had no room for a caller.
    Full(FullAt),
}

impl From<AllocError> for Stopped {
    ghost use Rattle.hm_replay.specs.declared.conclusion.Stopped.TheVariants.{Memory};

    ghost from_gives = { λ _ stopped. stopped ≡ Memory };

    fn from(_error: AllocError) -> Stopped {
        Stopped::Memory
    }
}

impl<T: Drop> From<AllocFailed<T>> for Stopped {
    ghost use Rattle.hm_replay.specs.declared.conclusion.Stopped.TheVariants.{Memory};

    ghost from_gives = { λ _ stopped. stopped ≡ Memory };

    fn from(_failed: AllocFailed<T>) -> Stopped {
        Stopped::Memory
    }
}

impl From<hm_edge::Memory> for Stopped {
    ghost use Rattle.hm_replay.specs.declared.conclusion.Stopped.TheVariants.{Memory};

    ghost from_gives = { λ _ stopped. stopped ≡ Memory };

    fn from(_memory: hm_edge::Memory) -> Stopped {
        Stopped::Memory
    }
}

impl From<hm_cells::Memory> for Stopped {
    ghost use Rattle.hm_replay.specs.declared.conclusion.Stopped.TheVariants.{Memory};

    ghost from_gives = { λ _ stopped. stopped ≡ Memory };

    fn from(_memory: hm_cells::Memory) -> Stopped {
        Stopped::Memory
    }
}

/// The report, where all callers have finished. Else the first that has not says why there is none.
pub(crate) fn conclude(alloc: Global, came: Vec<Came>) -> Result<Report, Stopped>
    requires come { HaveCome came.items }
    ensures report { IfOk result (λ report. (settings : Settings) (files : List (List Order))
        (history : List Entry) → CameTo settings files history came.items
        → TellsAll settings.limits files history report) }
    ensures full { IfErr result (IfFull (λ at. (settings : Settings) (files : List (List Order))
        (history : List Entry) → CameTo settings files history came.items
        → WasFullAt settings.versions files history at)) }
    ensures stalled { IfErr result (IfFull (HasStalled came.items)) }
{
    if let Err(stopped) = all_finished(came.as_slice()) {
        return Err(stopped);
    }
    report_of(alloc, came)
}

/// Whether all callers have finished. Else the first that has not says why: memory ran out for it, or it stalled.
pub(crate) fn all_finished(came: &[Came]) -> Result<(), Stopped>
    requires come { HaveCome came.now }
    ensures finished { OnOk result (All HasFinished came.now) }
    ensures full { IfErr result (IfFull (λ at. (settings : Settings) (files : List (List Order))
        (history : List Entry) → CameTo settings files history came.now
        → WasFullAt settings.versions files history at)) }
    ensures stalled { IfErr result (IfFull (HasStalled came.now)) }
{
    let root = orders_applied(came);
    for (caller, c) in came.iter().enumerate() {
        match c.worked {
            Worked::Finished => {}
            Worked::Memory => return Err(Stopped::Memory),
            Worked::Stalled { used, free, .. } => {
                return Err(Stopped::Full(FullAt {
                    caller: caller as u32,
                    settling: false,
                    settled: root,
                    root,
                    used,
                    free,
                }));
            }
        }
    }
    Ok(())
}

/// How many orders all callers have applied.
fn orders_applied(came: &[Came]) -> u64
    requires come { HaveCome came.now }
    ensures { (settings : Settings) (files : List (List Order)) (history : List Entry)
        → CameTo settings files history came.now → result ≡ length (spelled history) }
{
    let mut applied = 0;
    for c in came {
        applied += c.progress.next;
    }
    applied
}
