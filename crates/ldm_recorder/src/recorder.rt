//! Recorders, which follow a queue.

use crate::known::lasts_of;
use crate::line::{Line, MOST_LINES};
use ldm_journal::Journal;
use ldm_model::Start;
use ldm_shared::{Opening, Pass, Reader, Shared, Turn};
use ldm_types::Feed;
use std::alloc::Global;
use std::sync::Wait;

/// All feedtypes.
pub const EVERY_FEEDTYPE: u32 = u32::MAX;

/// Writes what is inserted into a queue into a journal.
///
/// Each call has to be lent the pass with which it was opened, and the disk of the journal.
#[derive(Drop)]
pub struct Recorder {
    pub(crate) journal: Journal,
    pub(crate) reader: Reader,
    // A product has the number of the queue and this one.
    pub(crate) base: u64,
    // A body, as it was read.
    pub(crate) buffer: Vec<u8>,
    // The REQUEST lines, as the recorder began with them.
    pub(crate) lines: Vec<Line>,
    // What is known of each now.
    pub(crate) lasts: [u64; MOST_LINES],
    // So many products of the queue were put back: these have other numbers in the journal.
    pub(crate) from: u64,
}

/// What opening a recorder led to.
#[derive(Drop)]
pub enum Opened {
    Ready(Recorder),
    /// All 64 cursor places are taken.
    AllBusy,
    /// The queue has had all the calls that it can have.
    Worn,
}

impl Recorder {
    ghost use Rattle.ldm_shared.specs.Passes.{IsPassOf, IsSamePass};
    ghost use Rattle.ldm_recorder.specs.Opening.{OpensBy};

    /// Follows the queue from its end on: what is inserted from now on will be written.
    ///
    /// The numbers of a queue begin at 0 again. What is written has that number and the least that the journal may have
    /// next, so that the journal's numbers go on to rise.
    ///
    /// What is committed has of each of the first [`MOST_LINES`] lines which product it had last. `from` is how many
    /// products were put back: of these a line is told nothing new.
    pub fn open<H: Wait>(
        rt: &H,
        alloc: Global,
        shared: &Shared,
        pass: &mut Pass,
        journal: Journal,
        lines: Vec<Line>,
        from: u64,
    ) -> Opened
        requires { IsPassOf shared.now pass.old }
        ensures kept { IsSamePass pass.old pass.new }
        ensures opened { OpensBy result journal lines.items pass.old pass.new }
    {
        match Reader::open(shared, rt, pass, Feed(EVERY_FEEDTYPE), Start::Next) {
            Turn::Done(Opening::Opened(reader)) => {
                let base = journal.next_number();
                let lasts = lasts_of(&lines);
                Opened::Ready(Recorder {
                    journal,
                    reader,
                    base,
                    buffer: Vec::new(alloc),
                    lines,
                    lasts,
                    from,
                })
            }
            Turn::Done(Opening::AllBusy) => Opened::AllBusy,
            Turn::Done(Opening::NotQueued) => unreachable!(),
            Turn::Worn { .. } => Opened::Worn,
        }
    }
}
