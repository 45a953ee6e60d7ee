//! The program `hm`: it hands its words, the files and its two streams to `program`, and ends with the status.
#![tactic(auto)]

mod program;
mod words;

use hm_edge::{FileShelf, StreamSink};
use program::program;
use std::process::ExitCode;
use words::words_behind_name;

fn main(rt: HostRuntime) -> ExitCode {
    let mut shelf = FileShelf::new(&rt);
    let mut out = StreamSink::new(rt.stdout());
    let mut err = StreamSink::new(rt.stderr());
    let words = words_behind_name(&rt);
    let outcome = program(&rt, rt.alloc(), words, &mut shelf, &mut out, &mut err);
    ExitCode::from(outcome.status)
}
