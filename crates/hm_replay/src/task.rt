//! What is replayed, and what is written of it.
ghost use Rattle.std.specs.Prelude.{◌≡◌, ◌≢◌, ◌≤◌, Err, OnOk, OnErr};
ghost use Rattle.hm_edge.specs.Faults.{Rose};
ghost use Rattle.hm_edge.specs.Sinks.{bytes_after};
ghost use Rattle.hm_orders.specs.ReportText.{joined, AddsFront};
ghost use Rattle.hm_orders.specs.Putting.{PutsLines};
ghost use Rattle.hm_replay.specs.Wishes.{lines_in};

use hm_edge::Sink;
use hm_orders::{Order, Report, WriteRefused, write_report, write_summary};
use hm_words::Settings;
use std::alloc::Global;

/// What is written of a replay.
#[derive(Clone, Copy, Debug, PartialEq, Eq)]
pub(crate) enum Form {
    /// The whole report.
    Report,
    /// The summary of so many orders that were made from a number.
    Summary { number: u64, count: u64 },
}

/// The lists of orders to replay, the settings of that, and what is written of it.
#[derive(Drop)]
pub(crate) struct Task {
    pub settings: Settings,
    pub files: Vec<Vec<Order>>,
    pub form: Form,
}

/// Writes a report in this form, one `put` a line. After an `Err` a front of its text is written.
pub(crate) fn write_as<K: Sink>(
    alloc: Global,
    form: Form,
    report: &Report,
    out: &mut K,
) -> Result<(), WriteRefused>
    ensures written { OnOk result
        (K.written out.new ≡ bytes_after (joined (lines_in form report.now)) (K.written out.old)) }
    ensures front { OnErr result
        (AddsFront (joined (lines_in form report.now)) (K.written out.old) (K.written out.new)) }
    ensures lines { PutsLines (lines_in form report.now) result (K.puts out.old) (K.puts out.new)
        (K.written out.old) (K.written out.new) }
    ensures failed { result ≡ Err WriteRefused.Failed
        → Rose (K.faults out.old) (K.faults out.new) }
    ensures unfailed { result ≢ Err WriteRefused.Failed → K.faults out.new ≡ K.faults out.old }
    ensures faults { K.faults out.old ≤ K.faults out.new }
{
    match form {
        Form::Report => write_report(alloc, report, out),
        Form::Summary { number, count } => write_summary(alloc, number, count, report, out),
    }
}
