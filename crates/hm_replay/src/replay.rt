//! From the orders of several files to their report.
ghost use Rattle.std.specs.Prelude.{◌≡◌, ◌<◌, ◌≤◌, [], vec_capacity, slice_index_or, ℕ, All, IfOk, IfErr, IfSome, IsSome, List, map, length, Some, None, Err};
ghost use Rattle.hm_orders.specs.declared.order.Order.{Order};
ghost use Rattle.hm_book.specs.declared.limits.Limits.{Limits};
ghost use Rattle.hm_cells.specs.Closing.{AreAll};
ghost use Rattle.hm_cells.specs.Facts.{IsAtRest};
ghost use Rattle.hm_replay.specs.Loading.{AreOfFiles};
ghost use Rattle.hm_replay.specs.Headline.{IsBookHeap, IsReplay};
ghost use Rattle.hm_replay.specs.Concluding.{IfFull, IsFirstFull, TellsAll, WasFullAt};
ghost use Rattle.hm_replay.specs.Working.{AreJobs, AreReady, HaveWorked, IsAtWork, IsUnder, Working, Works};

use crate::conclusion::{Came, Stopped, conclude};
use crate::job::Job;
use hm_cellbook::{BookUsage, Lengths};
use hm_cells::{Closed, Pass};
use hm_desk::{Admission, Desk, Gate};
use hm_heap::{Heap, close};
use hm_model::Start;
use hm_orders::{Order, Report};
use hm_shape::Shape;
use hm_words::Settings;
use std::alloc::Global;
use std::thread::{self, Threads};

/// What a replay came to, and what is left of its heap, where one was made.
#[derive(Drop)]
pub(crate) struct Replayed {
    pub closed: Option<Closed<BookUsage>>,
    pub ended: Result<Report, Stopped>,
}

/// Applies the orders of the files, each file's by a caller of its own, to an empty book on a shared heap.
pub(crate) fn replay<R: Threads + Sync, F: Admission + Sync, G: Gate + Sync>(
    rt: &R,
    alloc: Global,
    settings: &Settings,
    files: Vec<Vec<Order>>,
    admit: F,
    gate: &G,
) -> Replayed
    requires versions { (4 ≤ settings.now.versions) × (settings.now.versions ≤ 65536) }
    requires tells { F.tells settings.now.limits admit }
    requires files { AreOfFiles (map (λ orders. orders.items) files.items) }
    ensures heap { IfSome result.closed (IsReplay settings.now (length files.items)) }
    ensures unmade { result.closed ≡ None → result.ended ≡ Err Stopped.Memory }
    ensures report { IfSome result.closed (λ e. IfOk result.ended
        (TellsAll settings.now.limits (map (λ orders. orders.items) files.items) e.history)) }
    ensures full { IfSome result.closed (λ e. IfErr result.ended
        (IfFull (WasFullAt settings.now.versions (map (λ orders. orders.items) files.items)
        e.history))) }
    ensures first { IfSome result.closed (λ e. IfErr result.ended
        (IfFull (IsFirstFull (map (λ orders. orders.items) files.items) e))) }
{
    let Ok((heap, passes)) = open(alloc, settings, files.as_slice()) else {
        return Replayed {
            closed: None,
            ended: Err(Stopped::Memory),
        };
    };
    let desk = Desk::new(settings.limits, admit);
    let (passes, came) = work_all(rt, alloc, &heap, passes, files.as_slice(), &desk, gate);
    let closed = Some(close(heap, passes));
    match came {
        Some(came) => Replayed {
            closed,
            ended: conclude(alloc, came),
        },
        None => Replayed {
            closed,
            ended: Err(Stopped::Memory),
        },
    }
}

/// A heap with an empty book, and its passes, one for each file.
fn open(
    alloc: Global,
    settings: &Settings,
    files: &[Vec<Order>],
) -> Result<(Heap<BookUsage>, Vec<Pass<BookUsage>>), Stopped>
    requires versions { (4 ≤ settings.now.versions) × (settings.now.versions ≤ 65536) }
    requires files { AreOfFiles (map (λ orders. orders.items) files.now) }
    ensures heap { IfOk result (λ r. IsBookHeap settings.now (length files.now) r.0.site) }
    ensures all { IfOk result (λ r. AreAll r.0 r.1.items) }
    ensures rest { IfOk result (λ r. All IsAtRest r.1.items) }
    ensures ready { IfOk result (λ r.
        AreReady settings.now.limits r.1.items (map (λ orders. orders.items) files.now)) }
    ensures memory { IfErr result (λ stopped. stopped ≡ Stopped.Memory) }
{
    let mut lengths = Vec::new(alloc);
    for orders in files {
        lengths.push(orders.len() as u64)?;
    }
    let usage = BookUsage {
        limits: settings.limits,
        lengths: Lengths::new(lengths),
    };
    let start = Start {
        numbers: [0; 10],
        sides: [None, None, None, Some([0; 10])],
    };
    let shape = Shape::new(files.len() as u32, 4, settings.versions).unwrap();
    Ok(Heap::make(alloc, shape, usage, start)?)
}

/// Lets all callers work side by side, each on the orders of its file, and gives their passes back. There is nothing
/// beside them where there was no memory for that, and then no caller has worked.
fn work_all<R: Threads + Sync, F: Admission + Sync, G: Gate + Sync>(
    rt: &R,
    alloc: Global,
    heap: &Heap<BookUsage>,
    passes: Vec<Pass<BookUsage>>,
    files: &[Vec<Order>],
    desk: &Desk<F>,
    gate: &G,
) -> (Vec<Pass<BookUsage>>, Option<Vec<Came>>)
    requires all { AreAll heap.now passes.items }
    requires rest { All IsAtRest passes.items }
    requires some { 0 < length passes.items }
    requires ready { AreReady desk.now passes.items (map (λ orders. orders.items) files.now) }
    ensures all { AreAll heap.now result.0.items }
    ensures worked { IfSome result.1 (λ came. HaveWorked passes.items result.0.items
        (map (λ orders. orders.items) files.now) came.items) }
{
    let count = passes.len();
    let Ok(jobs) = Vec::with_capacity(alloc, count) else {
        return (passes, None);
    };
    let Ok(back) = Vec::with_capacity(alloc, count) else {
        return (passes, None);
    };
    let Ok(came) = Vec::with_capacity(alloc, count) else {
        return (passes, None);
    };
    let mut jobs = jobs_of(alloc, heap, passes, files, jobs);
    work_side_by_side(rt, alloc, jobs.as_mut_slice(), desk, gate);
    let (back, came) = ends_of(jobs, back, came);
    (back, Some(came))
}

/// Lets the callers of all jobs work, on as many threads as there are callers.
fn work_side_by_side<R: Threads + Sync, F: Admission + Sync, G: Gate + Sync>(
    rt: &R,
    alloc: Global,
    jobs: &mut [Job<'_>],
    desk: &Desk<F>,
    gate: &G,
)
    requires some { 0 < length jobs.old }
    requires under { All (IsUnder desk.now) jobs.old }
    ensures count { length jobs.new ≡ length jobs.old }
    ensures works { (k : ℕ) (d : Working) → k < length jobs.old
        → Works (slice_index_or jobs.old k d) (slice_index_or jobs.new k d) }
{
    thread::for_each_mut(rt, jobs, jobs.len(), &|_, job| job.work(alloc, desk, gate));
}

/// A job for each pass, in the same order, with the orders of its file. There is room for all of them.
fn jobs_of<'h>(
    alloc: Global,
    heap: &'h Heap<BookUsage>,
    passes: Vec<Pass<BookUsage>>,
    files: &'h [Vec<Order>],
    mut jobs: Vec<Job<'h>>,
) -> Vec<Job<'h>>
    requires all { AreAll heap.now passes.items }
    requires rest { All IsAtRest passes.items }
    requires ready { (limits : Limits)
        × AreReady limits passes.items (map (λ orders. orders.items) files.now) }
    requires none { jobs.items ≡ [] }
    requires room { length passes.items ≤ vec_capacity jobs }
    ensures count { length result.items ≡ length passes.items }
    ensures jobs { AreJobs passes.items (map (λ orders. orders.items) files.now) result.items }
{
    for pass in passes {
        let orders = files[jobs.len()].as_slice();
        jobs.push_reserved(Job::new(alloc, heap, pass, orders));
    }
    jobs
}

/// The passes of all jobs, and what the work came to, in the same order. There is room for all of them.
fn ends_of(
    jobs: Vec<Job<'_>>,
    mut passes: Vec<Pass<BookUsage>>,
    mut came: Vec<Came>,
) -> (Vec<Pass<BookUsage>>, Vec<Came>)
    requires none { (passes.items ≡ []) × (came.items ≡ []) }
    requires room { length jobs.items ≤ vec_capacity passes }
    requires more { length jobs.items ≤ vec_capacity came }
    ensures passes { result.0.items ≡ map (λ job. job.pass) jobs.entry.items }
    ensures came { result.1.items ≡ map (λ job. job.came) jobs.entry.items }
    ensures at_work { All IsAtWork jobs.entry.items }
{
    for job in jobs {
        let (pass, ended) = job.end();
        passes.push_reserved(pass);
        came.push_reserved(ended);
    }
    (passes, came)
}
