//! A run: callers of a fresh heap make their calls side by side.
use crate::call::Call;
use crate::runner::Runner;
use anyhow::{Context, Result, anyhow};
use hm_cells::Cells;
use hm_model::{AnyUsage, Start};
use hm_shape::{MOST_VERSIONS, REGIONS, Shape};
use std::rt::Clock;
use std::sync::{Barrier, Wait};
use std::thread;
use std::thread::Threads;
use std::time::Duration;

/// The time from the first caller's start to the last one's end, where each made all its calls.
pub(crate) fn measure<R: Threads + Wait + Clock + AllocGlobal + Sync>(
    rt: &R,
    call: Call,
    callers: u32,
) -> Result<Duration> {
    let shape = Shape::new(callers, REGIONS, MOST_VERSIONS)
        .ok()
        .context("no heap has so many callers")?;
    let start = Start {
        numbers: [5; 10],
        sides: [None; 4],
    };
    let Ok((cells, passes)) = Cells::make(rt.alloc(), shape, AnyUsage, start) else {
        return Err(anyhow!("memory"));
    };
    let mut runners = Vec::new(rt.alloc());
    for pass in passes {
        runners.push(Runner::new(&cells, pass, call))?;
    }
    let gate = Barrier::new(callers as usize);
    thread::for_each_mut(
        rt,
        runners.as_mut_slice(),
        callers as usize,
        &|_, runner| runner.run(rt, &gate),
    );
    let mut spans = Vec::with_capacity(rt.alloc(), runners.len())?;
    for runner in &runners {
        spans.push(
            runner
                .span()
                .context("a call was not made, or the clock failed")?,
        )?;
    }
    let from = spans.iter().map(|span| span.from).min();
    let to = spans.iter().map(|span| span.to).max();
    let (Some(from), Some(to)) = (from, to) else {
        return Err(anyhow!("no caller"));
    };
    Ok(to.duration_since(from))
}
