//! The report.
ghost use Rattle.std.specs.Prelude.{◌≤◌};
ghost use Rattle.ldm_pqstats.specs.Reporting.{WritesReport, WritesText};

use crate::end::ReportFault;
use ldm_outside::{Sink, write_all};
use ldm_stats::Stats;
use ldm_types::OutOfMemory;
use std::alloc::Global;

/// Writes the report of a table: its lines, once all are made.
pub(crate) fn write_report<K: Sink>(
    alloc: Global,
    stats: &Stats,
    sink: &mut K,
) -> Result<(), ReportFault>
    ensures writes { WritesReport result stats.now (K.tells sink.old) (K.tells sink.new) }
    ensures faults_kept { (K.tells sink.old).faults ≤ (K.tells sink.new).faults }
{
    let mut text = Vec::new(alloc);
    match stats.report(&mut text) {
        Ok(()) => write_text(text.as_slice(), sink),
        Err(OutOfMemory) => Err(ReportFault::OutOfMemory),
    }
}

fn write_text<K: Sink>(text: &[u8], sink: &mut K) -> Result<(), ReportFault>
    ensures writes { WritesText result text.now (K.tells sink.old) (K.tells sink.new) }
    ensures faults_kept { (K.tells sink.old).faults ≤ (K.tells sink.new).faults }
{
    match write_all(sink, text) {
        Ok(()) => Ok(()),
        Err(_) => Err(ReportFault::SinkFault),
    }
}
