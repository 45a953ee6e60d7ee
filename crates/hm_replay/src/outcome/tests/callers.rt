//! Callers that work side by side.
use super::{NAMES, Ran, run_into, shelf_of};
use hm_desk::{Gate, NoGate};
use std::alloc::{AllocError, Global};
use std::collections::VecDeque;
use std::process::Abort;
use std::sync::atomic::AtomicBool;
use std::sync::atomic::Ordering::SeqCst;
use std::test::Fail;
use std::thread::Threads;

/// How often a caller looks for the other one at most.
const LOOKS: u32 = 200_000_000;

/// A gate at which each of two callers waits before its first order, until the other has come there.
#[derive(Drop)]
struct Meeting {
    first: AtomicBool,
    second: AtomicBool,
    missed: AtomicBool,
}

impl Gate for Meeting {
    fn pass(&self, caller: u32, number: u64) {
        if number != 1 {
            return;
        }
        let (own, other) = if caller == 0 {
            (&self.first, &self.second)
        } else {
            (&self.second, &self.first)
        };
        own.store(true, SeqCst);
        for _ in 0..LOOKS {
            if other.load(SeqCst) {
                return;
            }
        }
        self.missed.store(true, SeqCst);
    }
}

#[test]
fn callers_work_side_by_side(rt: HostRuntime) -> Result<(), Fail> {
    let alloc = rt.alloc();
    let meeting = Meeting {
        first: AtomicBool::new(false),
        second: AtomicBool::new(false),
        missed: AtomicBool::new(false),
    };
    let shelf = shelf_of(alloc, &["L,1,B,10,5\n", "L,1,S,9,5\n"])?;
    let words = ["replay", "a", "b"];
    let ran = run_into(&rt, alloc, &words, shelf, Vec::new(alloc), &meeting)?;
    assert_eq!(rt; ran.outcome.status, 0);
    assert!(rt; meeting.first.load(SeqCst) && meeting.second.load(SeqCst));
    assert!(rt; !meeting.missed.load(SeqCst));
    Ok(())
}

/// So many rows, each second of which sells what the one before it buys.
fn buys_and_sells(alloc: Global, rows: u32) -> Result<String, AllocError> {
    let mut text = String::new(alloc);
    for row in 1..=rows {
        let side = if row % 2 == 1 { 'B' } else { 'S' };
        let line = format!(in alloc; "L,{row},{side},10,1\n")?;
        text.push_str(line.as_str())?;
    }
    Ok(text)
}

/// A plain book of such rows: the numbers of the orders that rest, which are all buys or all sells.
#[derive(Drop)]
struct Told {
    text: String,
    resting: VecDeque<u64>,
    buys: bool,
    orders: u64,
    fills: u64,
    rows: [u64; 8],
}

impl Told {
    fn new(alloc: Global) -> Told {
        Told {
            text: String::new(alloc),
            resting: VecDeque::new(alloc),
            buys: true,
            orders: 0,
            fills: 0,
            rows: [0; 8],
        }
    }

    /// Tells of the next order of a file.
    fn apply(&mut self, file: u32) -> Result<(), AllocError> {
        let Some(row) = self.rows.get_mut((file as usize).wrapping_sub(1)) else {
            return Ok(());
        };
        *row = row.saturating_add(1);
        let row = *row;
        let root = self.orders.saturating_add(1);
        self.orders = root;
        let buys = row % 2 == 1;
        if buys == self.buys || self.resting.is_empty() {
            self.buys = buys;
            self.resting.push_back(root)?;
            return writeln!(self.text, "order {root} {file} {row} rested");
        }
        let Some(maker) = self.resting.pop_front() else {
            return Ok(());
        };
        self.fills = self.fills.saturating_add(1);
        let number = self.fills;
        writeln!(self.text, "order {root} {file} {row} filled")?;
        writeln!(self.text, "fill {number} {root} {maker} 10 1")
    }

    /// Tells of the board of so many files, and the last line.
    fn end(&mut self, files: usize) -> Result<(), AllocError> {
        self.text.push_str("board")?;
        for row in self.rows.iter().take(files) {
            write!(self.text, " {row}")?;
        }
        let (orders, fills, resting) = (self.orders, self.fills, self.resting.len());
        writeln!(self.text, "\nend {orders} {fills} {resting}")
    }
}

/// The file of the order of which a line of a report tells.
fn file_of(line: &str) -> Option<u32> {
    let mut fields = line.strip_prefix("order ")?.split(' ');
    let _ = fields.next();
    fields.next()?.parse::<u32>().ok()
}

/// The report of so many files where their orders come in the order of a report.
fn retold(alloc: Global, report: &str, files: usize) -> Result<String, AllocError> {
    let mut told = Told::new(alloc);
    for line in report.split('\n') {
        if let Some(file) = file_of(line) {
            told.apply(file)?;
        }
    }
    told.end(files)?;
    Ok(told.text)
}

/// Replays so many files with so many rows each.
fn replay_many<R: Threads + Sync>(
    rt: &R,
    alloc: Global,
    files: usize,
    rows: u32,
) -> Result<Ran, Fail> {
    let text = buys_and_sells(alloc, rows)?;
    let mut words = vec![in alloc; "replay"]?;
    let mut texts = Vec::new(alloc);
    for name in NAMES.iter().take(files) {
        words.push(*name)?;
        texts.push(text.as_str())?;
    }
    let shelf = shelf_of(alloc, texts.as_slice())?;
    run_into(rt, alloc, words.as_slice(), shelf, Vec::new(alloc), &NoGate)
}

/// Replays files often: each report is what a plain book tells, and each heap that was full was used up. At least one
/// report is written.
fn replays_often<R: Threads + Sync + Abort>(
    rt: &R,
    alloc: Global,
    runs: u32,
    files: usize,
    rows: u32,
) -> Result<(), Fail> {
    let mut reports = 0u32;
    for _ in 0..runs {
        let ran = replay_many(rt, alloc, files, rows)?;
        if let Some(at) = ran.outcome.full {
            assert_eq!(rt; (ran.outcome.status, at.used), (6, 4096));
            continue;
        }
        assert_eq!(rt; ran.outcome.status, 0);
        let report = str::from_utf8(ran.out.bytes())?;
        let again = retold(alloc, report, files)?;
        assert_eq!(rt; report, again.as_str());
        let orders = u64::from(rows).saturating_mul(files as u64);
        let end = format!(in alloc; "\nend {orders} ")?;
        assert!(rt; report.contains(end.as_str()));
        reports = reports.saturating_add(1);
    }
    assert!(rt; reports > 0);
    Ok(())
}

#[test]
fn reports_of_several_files_are_those_of_a_plain_book(rt: HostRuntime) -> Result<(), Fail> {
    replays_often(&rt, rt.alloc(), 50, 2, 300)?;
    replays_often(&rt, rt.alloc(), 10, 8, 100)
}
