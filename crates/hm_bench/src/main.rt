//! The program `hm_bench`: it measures the object calls of callers side by side on a fresh shared heap.
//!
//! ```text
//! hm_bench                    nothing
//! hm_bench ops                a line for each call, by 1, 2 and 4 callers
//! hm_bench CALL CALLERS       the line of one call (create, fetch, store) by so many callers, from 1 to 8
//! ```
//!
//! A line is `ops hm CALL CALLERS NS MOPS`: the nanoseconds of a call, which are the wall time times the callers over
//! the calls, and the million calls of all callers in a second.
#![tactic(auto)]

mod call;
mod making;
mod measure;
mod runner;
mod words;

use anyhow::{Context, Result};
use call::Call;
use measure::measure;
use std::env;
use std::rt::Clock;
use std::sync::Wait;
use std::thread::Threads;
use words::{Plan, plan_of};

fn main(rt: HostRuntime) -> Result<()> {
    let words = env::args(&rt)?.skip(1).collect::<Vec<String>>(rt.alloc())?;
    match plan_of(words.as_slice()).context(
        "the words are none, ops, or a call and a number of callers",
    )? {
        Plan::Nothing => Ok(()),
        Plan::One { call, callers } => tell(&rt, call, callers),
        Plan::All => {
            for callers in [1, 2, 4] {
                for call in [Call::Create, Call::Fetch, Call::Store] {
                    tell(&rt, call, callers)?;
                }
            }
            Ok(())
        }
    }
}

/// Measures a call, and prints its line.
fn tell<R: Threads + Wait + Clock + Print + AllocGlobal + Sync>(
    rt: &R,
    call: Call,
    callers: u32,
) -> Result<()> {
    let wall = measure(rt, call, callers)?.as_secs_f64();
    let ns = wall * 1e9 / f64::from(call.count());
    let mops = f64::from(callers) * f64::from(call.count()) / wall / 1e6;
    println!(rt; "ops hm {} {callers} {ns:.1} {mops:.3}", call.name())?;
    Ok(())
}
