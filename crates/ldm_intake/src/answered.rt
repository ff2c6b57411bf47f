//! The reply to a FEEDME.
ghost use Rattle.std.specs.Prelude.{◌≡◌, ℕ, List, false};
ghost use Rattle.ldm_shared.specs.Passes.{PassView};
ghost use Rattle.ldm_intake.specs.Answered.{number_of_request, answered, by_answer, reclassed, asks_again};
ghost use Rattle.ldm_intake.specs.Course.{Comes};
ghost use Rattle.ldm_intake.specs.Record.{record_course, reply_course};
ghost use Rattle.ldm_intake.specs.Settled.{is_feeding};
ghost use Rattle.ldm_intake.specs.TakesRecord.{TakesAnswer, stands};
ghost use Rattle.ldm_relay.specs.declared.procedure.Procedure.TheVariants as procedure;
ghost use Rattle.ldm_relay.specs.Procedure.{number_of};
ghost use Rattle.ldm_relay.specs.Reading.{reply_of};

use crate::intake::Intake;
use crate::reading::read_answer;
use crate::record_end::AnswerEnd;
use crate::replies::put_feedme;
use ldm_class::{Class, ClassFault, is_same_class};
use ldm_relay::ClassAnswer;
use ldm_types::ClassSpec;

// The number of the first or of the second FEEDME among the receiver's calls.
pub(crate) fn number_of_request(again: bool) -> u32
    ensures { result ≡ number_of_request again }
{
    if again { 2 } else { 1 }
}

// None of these calls the queue or logs: what they do is the same whatever the pass has seen and whatever stands in the
// log.
impl Intake<'_> {
    /// Takes one record while the reply to a request is owed: asks for a narrower class where one is offered, by a
    /// message that it appends to `out`. It makes no call of the queue, and logs nothing.
    pub fn take_answer(&mut self, content: &[u8], out: &mut Vec<u8>) -> AnswerEnd
        requires { is_feeding self.old.phase ≡ false }
        ensures took { (now : ℕ) (pass : PassView) (notes : List ℕ)
            → TakesAnswer result (record_course self.old now content.now)
            (stands self.old pass out.old.items notes) (stands self.new pass out.new.items notes) }
    {
        match self.request_owed() {
            Some((class, again)) => self.take_reply(content, &class, again, out),
            None => unreachable!(),
        }
    }

    // Takes the record of a reply to the FEEDME that asked for the class.
    fn take_reply(
        &mut self,
        content: &[u8],
        asked: &ClassSpec,
        again: bool,
        out: &mut Vec<u8>,
    ) -> AnswerEnd
        ensures { (pass : PassView) (notes : List ℕ)
            → TakesAnswer result (reply_course self.old asked.now again
            (reply_of (number_of procedure.Feedme) content.now))
            (stands self.old pass out.old.items notes) (stands self.new pass out.new.items notes) }
    {
        match read_answer(content) {
            Some(reply) => {
                if reply.xid == number_of_request(again) {
                    self.answered(asked, again, reply.answer, out)
                } else {
                    AnswerEnd::Bad
                }
            }
            None => AnswerEnd::Bad,
        }
    }

    // Takes the answer to the FEEDME that asked for the class.
    fn answered(
        &mut self,
        asked: &ClassSpec,
        again: bool,
        answer: ClassAnswer,
        out: &mut Vec<u8>,
    ) -> AnswerEnd
        ensures { (pass : PassView) (notes : List ℕ)
            → TakesAnswer result (Comes (by_answer self.old asked.now again answer))
            (stands self.old pass out.old.items notes) (stands self.new pass out.new.items notes) }
    {
        match answer {
            ClassAnswer::Ok => {
                self.feed();
                AnswerEnd::Goes
            }
            ClassAnswer::Reclass(class) => self.reclassed(asked, again, class, out),
            other => AnswerEnd::Declined(other),
        }
    }

    // A narrower class is offered: it is asked for, at most once, and where it is another than the one that was asked
    // for.
    fn reclassed(
        &mut self,
        asked: &ClassSpec,
        again: bool,
        class: ClassSpec,
        out: &mut Vec<u8>,
    ) -> AnswerEnd
        ensures { (pass : PassView) (notes : List ℕ)
            → TakesAnswer result (Comes (reclassed self.old asked.now again class))
            (stands self.old pass out.old.items notes) (stands self.new pass out.new.items notes) }
    {
        if again || is_same_class(&class, asked) {
            AnswerEnd::Declined(ClassAnswer::Reclass(class))
        } else {
            self.ask_again(&class, out)
        }
    }

    // Asks for a narrower class, and puts it in force.
    fn ask_again(&mut self, class: &ClassSpec, out: &mut Vec<u8>) -> AnswerEnd
        ensures { (pass : PassView) (notes : List ℕ) → TakesAnswer result (Comes (asks_again self.old class.now))
            (stands self.old pass out.old.items notes) (stands self.new pass out.new.items notes) }
    {
        match Class::build(self.alloc, class) {
            Ok(built) => {
                if put_feedme(out, number_of_request(true), class, self.max_hereis).is_err() {
                    return AnswerEnd::OutOfMemory;
                }
                self.narrow(built);
                AnswerEnd::Goes
            }
            Err(ClassFault::BadPattern { .. }) => AnswerEnd::Bad,
            Err(ClassFault::OutOfMemory) => AnswerEnd::OutOfMemory,
        }
    }
}
