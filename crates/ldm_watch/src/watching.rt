//! Where a watching stands, and what a record changes of that.
ghost use Rattle.std.specs.Prelude.{◌≡◌, ℕ, IfOk, Some};
ghost use Rattle.std.specs.Global.{Vec};
ghost use Rattle.ldm_watch.specs.Step.{answered, asks_again as asks_again_step, by_answer};
ghost use Rattle.ldm_watch.specs.Step.{by_reply, number_of_request, reclassed, watch_step};
ghost use Rattle.ldm_relay.specs.declared.procedure.Procedure.TheVariants as procedure;
ghost use Rattle.ldm_relay.specs.Procedure.{number_of};
ghost use Rattle.ldm_relay.specs.Reading.{reply_of};
ghost use Rattle.ldm_watch.specs.Taking.{Counts, Finds, Moves, standing};
ghost use Rattle.ldm_watch.specs.Watched.{Watched};
ghost use Rattle.ldm_watch.specs.declared.step.Step.TheVariants as said;

use crate::end::WatchEnd;
use crate::form::NoticeForm;
use crate::notices::{put_notice, put_notifyme};
use crate::reading::{read_answer, read_notice};
use crate::step::Step;
use crate::stop::Stop;
use ldm_class::{Class, ClassFault, is_same_class};
use ldm_relay::ClassAnswer;
use ldm_types::{ClassSpec, Info, OutOfMemory};
use std::alloc::Global;

/// What one who watches waits for.
#[derive(Clone, Copy, Debug, PartialEq, Eq)]
pub enum Phase {
    /// The reply to a NOTIFYME, the first or the second one.
    Asked { again: bool },
    /// Notices.
    Told,
}

/// Where a watching stands between two records.
#[derive(Drop)]
pub struct Watching {
    /// The class that was asked for last.
    pub class: ClassSpec,
    pub phase: Phase,
    /// How many notices are left to come, where they are counted.
    pub left: Option<u64>,
    /// How their lines are written.
    pub form: NoticeForm,
}

// The number of the first or of the second NOTIFYME.
pub(crate) fn number_of_request(again: bool) -> u32
    ensures { result ≡ number_of_request again }
{
    if again { 2 } else { 1 }
}

impl Watching {
    /// Takes the record with that content, which begins at byte `at`. Appends what the peer is owed to `out`, and the
    /// line of a notice to `lines`. Answers why it is the last, where it is.
    pub(crate) fn take_record(
        &mut self,
        alloc: Global,
        content: &[u8],
        at: u64,
        out: &mut Vec<u8>,
        lines: &mut Vec<u8>,
    ) -> Option<Stop>
        ensures { Finds result at (Some content.now) (standing self.old out.old lines.old)
            (standing self.new out.new lines.new) }
    {
        match self.step(alloc, content) {
            Ok(step) => self.go(step, at, out, lines),
            Err(_) => Some(Stop::OutOfMemory),
        }
    }

    // What a record with that content says.
    fn step(&self, alloc: Global, content: &[u8]) -> Result<Step, OutOfMemory>
        ensures { IfOk result (λ step. step ≡ watch_step self.now content.now) }
    {
        match self.phase {
            Phase::Asked { again } => self.by_reply(alloc, again, content),
            Phase::Told => Ok(read_notice(content)),
        }
    }

    // What the reply to a NOTIFYME says.
    fn by_reply(&self, alloc: Global, again: bool, content: &[u8]) -> Result<Step, OutOfMemory>
        ensures { IfOk result
            (λ step. step ≡ by_reply self.now.class again (reply_of (number_of procedure.Notifyme) content.now)) }
    {
        match read_answer(content) {
            Some(reply) => {
                if reply.xid == number_of_request(again) {
                    self.by_answer(alloc, again, reply.answer)
                } else {
                    Ok(Step::Bad)
                }
            }
            None => Ok(Step::Bad),
        }
    }

    fn by_answer(
        &self,
        alloc: Global,
        again: bool,
        answer: ClassAnswer,
    ) -> Result<Step, OutOfMemory>
        ensures { IfOk result (λ step. step ≡ by_answer self.now.class again answer) }
    {
        match answer {
            ClassAnswer::Ok => Ok(Step::Begins),
            ClassAnswer::Reclass(class) => self.reclassed(alloc, again, class),
            other => Ok(Step::Declined(other)),
        }
    }

    // A narrower class is offered: it is asked for, at most once, and where it is another than the one that was asked
    // for.
    fn reclassed(&self, alloc: Global, again: bool, class: ClassSpec) -> Result<Step, OutOfMemory>
        ensures { IfOk result (λ step. step ≡ reclassed self.now.class again class) }
    {
        if again || is_same_class(&class, &self.class) {
            Ok(Step::Declined(ClassAnswer::Reclass(class)))
        } else {
            asks_again(alloc, class)
        }
    }

    // Goes on by what a record that begins at byte `at` says.
    fn go(&mut self, step: Step, at: u64, out: &mut Vec<u8>, lines: &mut Vec<u8>) -> Option<Stop>
        ensures { Moves result step at (standing self.old out.old lines.old) (standing self.new out.new lines.new) }
    {
        match step {
            Step::Alive => None,
            Step::Begins => {
                self.phase = Phase::Told;
                None
            }
            Step::AsksAgain(class) => self.ask_again(class, out),
            Step::Notice(info) => self.notice(&info, lines),
            Step::Bad => Some(Stop::Over(WatchEnd::BadFrame { at })),
            Step::Declined(answer) => Some(Stop::Over(WatchEnd::Refused { answer })),
        }
    }

    // Asks for a class in place of the one that was asked for.
    fn ask_again(&mut self, class: ClassSpec, out: &mut Vec<u8>) -> Option<Stop>
        ensures { (at : ℕ) (lines : Vec ℕ)
            → Moves result (said.AsksAgain class) at (standing self.old out.old lines)
            (standing self.new out.new lines) }
    {
        if put_notifyme(out, number_of_request(true), &class).is_err() {
            return Some(Stop::OutOfMemory);
        }
        self.class = class;
        self.phase = Phase::Asked { again: true };
        None
    }

    // Tells of a product, and counts it.
    fn notice(&mut self, info: &Info, lines: &mut Vec<u8>) -> Option<Stop>
        ensures { (at : ℕ) (out : Vec ℕ)
            → Moves result (said.Notice info.now) at (standing self.old out lines.old)
            (standing self.new out lines.new) }
    {
        match put_notice(lines, self.form, info) {
            Ok(()) => self.count(),
            Err(_) => Some(Stop::OutOfMemory),
        }
    }

    // One notice came.
    fn count(&mut self) -> Option<Stop>
        ensures { (t : Watched) → self.old ≡ t.watching → Counts result t self.new }
    {
        match self.left {
            None => None,
            Some(left) => {
                if left <= 1 {
                    return Some(Stop::Over(WatchEnd::Counted));
                }
                self.left = Some(left - 1);
                None
            }
        }
    }
}

// A class is asked for where each of its patterns means something.
fn asks_again(alloc: Global, class: ClassSpec) -> Result<Step, OutOfMemory>
    ensures { IfOk result (λ step. step ≡ asks_again_step class) }
{
    match Class::build(alloc, &class) {
        Ok(_) => Ok(Step::AsksAgain(class)),
        Err(ClassFault::BadPattern { .. }) => Ok(Step::Bad),
        Err(ClassFault::OutOfMemory) => Err(OutOfMemory),
    }
}
