//! Writing reports.
ghost use Rattle.std.specs.Prelude.{◌≡◌, ◌≢◌, ◌<◌, ◌≤◌, [], ◌∷◌, length, map, Err, OnOk, OnErr};
ghost use Rattle.std.specs.List.{flat_map};
ghost use Rattle.hm_edge.specs.Faults.{Rose};
ghost use Rattle.hm_edge.specs.Sinks.{bytes_after};
ghost use Rattle.hm_orders.specs.ReportText.{AddsFront, board_line, done_lines, end_line, fill_count, fill_line, report_lines, report_text, summary_lines, summary_text};
ghost use Rattle.hm_orders.specs.Putting.{Puts, PutsLines};

use crate::lines::{write_board, write_end, write_fill, write_generated, write_order};
use crate::report::{Done, Fill, Report};
use hm_edge::{Sink, SinkFailed};
use std::alloc::{AllocError, Global};

/// Why a report was not written whole.
#[derive(Clone, Copy, Debug, PartialEq, Eq)]
pub enum WriteRefused {
    /// The sink failed.
    Failed,
    /// Memory ran out.
    Memory,
}

impl From<SinkFailed> for WriteRefused {
    ghost use Rattle.std.specs.Prelude.{◌≡◌};
    ghost use Rattle.hm_orders.specs.declared.write.WriteRefused.TheVariants.{Failed};

    ghost from_gives = { λ _ refused. refused ≡ Failed };

    fn from(_failed: SinkFailed) -> WriteRefused {
        WriteRefused::Failed
    }
}

impl From<AllocError> for WriteRefused {
    ghost use Rattle.std.specs.Prelude.{◌≡◌};
    ghost use Rattle.hm_orders.specs.declared.write.WriteRefused.TheVariants.{Memory};

    ghost from_gives = { λ _ refused. refused ≡ Memory };

    fn from(_failed: AllocError) -> WriteRefused {
        WriteRefused::Memory
    }
}

/// Writes the report, one `put` a line. After an `Err` a front of its text is written.
pub fn write_report<K: Sink>(
    alloc: Global,
    report: &Report,
    out: &mut K,
) -> Result<(), WriteRefused>
    ensures written { OnOk result
        (K.written out.new ≡ bytes_after (report_text report.now) (K.written out.old)) }
    ensures front { OnErr result
        (AddsFront (report_text report.now) (K.written out.old) (K.written out.new)) }
    ensures lines { PutsLines (report_lines report.now) result (K.puts out.old) (K.puts out.new)
        (K.written out.old) (K.written out.new) }
    ensures failed { result ≡ Err WriteRefused.Failed
        → Rose (K.faults out.old) (K.faults out.new) }
    ensures unfailed { result ≢ Err WriteRefused.Failed → K.faults out.new ≡ K.faults out.old }
    ensures faults { K.faults out.old ≤ K.faults out.new }
{
    let mut line = String::new(alloc);
    put_report(&mut line, report, out)
}

/// Writes the summary of a report of orders that were made from a number, so many as were asked for: that number and
/// their count, the board and the last line, one `put` a line. After an `Err` a front of its text is written.
pub fn write_summary<K: Sink>(
    alloc: Global,
    number: u64,
    count: u64,
    report: &Report,
    out: &mut K,
) -> Result<(), WriteRefused>
    ensures written { OnOk result (K.written out.new
        ≡ bytes_after (summary_text number count report.now) (K.written out.old)) }
    ensures front { OnErr result (AddsFront (summary_text number count report.now)
        (K.written out.old) (K.written out.new)) }
    ensures lines { PutsLines (summary_lines number count report.now) result
        (K.puts out.old) (K.puts out.new) (K.written out.old) (K.written out.new) }
    ensures failed { result ≡ Err WriteRefused.Failed
        → Rose (K.faults out.old) (K.faults out.new) }
    ensures unfailed { result ≢ Err WriteRefused.Failed → K.faults out.new ≡ K.faults out.old }
    ensures faults { K.faults out.old ≤ K.faults out.new }
{
    let mut line = String::new(alloc);
    put_summary(&mut line, number, count, report, out)
}

/// Puts the lines of a report, each written into `line` first.
fn put_report<K: Sink>(line: &mut String, report: &Report, out: &mut K) -> Result<(), WriteRefused>
    ensures { Puts K.written K.faults K.puts (report_lines report.now) result out.old out.new }
{
    put_dones(line, report.done.items(), out)?;
    put_last(line, report, out)
}

/// Puts the lines of a summary, each written into `line` first.
fn put_summary<K: Sink>(
    line: &mut String,
    number: u64,
    count: u64,
    report: &Report,
    out: &mut K,
) -> Result<(), WriteRefused>
    ensures { Puts K.written K.faults K.puts (summary_lines number count report.now) result
        out.old out.new }
{
    write_generated(line, number, count)?;
    put(line.as_str(), out)?;
    put_last(line, report, out)
}

/// Puts the board's line and the last.
fn put_last<K: Sink>(line: &mut String, report: &Report, out: &mut K) -> Result<(), WriteRefused>
    ensures { Puts K.written K.faults K.puts (board_line report.now ∷ end_line report.now ∷ [])
        result out.old out.new }
{
    write_board(line, report.board.items())?;
    put(line.as_str(), out)?;
    let dones = report.done.items();
    write_end(line, dones.len(), count_fills(dones), report.resting)?;
    put(line.as_str(), out)
}

/// Puts the lines of the orders and of their fills.
fn put_dones<K: Sink>(line: &mut String, dones: &[Done], out: &mut K) -> Result<(), WriteRefused>
    ensures { Puts K.written K.faults K.puts (flat_map done_lines dones.now) result
        out.old out.new }
{
    for done in dones {
        put_done(line, done, out)?;
    }
    Ok(())
}

/// Puts the line of an order and those of its fills.
fn put_done<K: Sink>(line: &mut String, done: &Done, out: &mut K) -> Result<(), WriteRefused>
    ensures { Puts K.written K.faults K.puts (done_lines done.now) result out.old out.new }
{
    write_order(line, done)?;
    put(line.as_str(), out)?;
    put_fills(line, done.fills.items(), out)
}

/// Puts the lines of the fills of one order.
fn put_fills<K: Sink>(line: &mut String, fills: &[Fill], out: &mut K) -> Result<(), WriteRefused>
    ensures { Puts K.written K.faults K.puts (map fill_line fills.now) result out.old out.new }
{
    for fill in fills {
        write_fill(line, fill)?;
        put(line.as_str(), out)?;
    }
    Ok(())
}

/// Puts one line.
fn put<K: Sink>(line: &str, out: &mut K) -> Result<(), WriteRefused>
    requires { 0 < length line.now }
    ensures { Puts K.written K.faults K.puts (line.now ∷ []) result out.old out.new }
{
    out.put(line.as_bytes())?;
    Ok(())
}

/// How many fills the orders had together, which may pass a `u64` as far as the types tell.
fn count_fills(dones: &[Done]) -> u128
    ensures { result ≡ fill_count dones.now }
{
    dones
        .iter()
        .map(|done| done.fills.items().len() as u128)
        .sum()
}
