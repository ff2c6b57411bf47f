//! The last line of a node: how full its queue is.
ghost use Rattle.std.specs.Prelude.{◌≡◌, ◌≤◌, Some};
ghost use Rattle.ldm_outside.specs.Io.{WritesAll};
ghost use Rattle.ldm_model.specs.State.{State};
ghost use Rattle.ldm_model.specs.Stat.{stat as stat_of};
ghost use Rattle.ldm_book.specs.Stands.{StandsFor};
ghost use Rattle.ldm_answers.specs.Answer.{answer_line};
ghost use Rattle.ldm_node_command.specs.declared.progress.Step.TheVariants as step;

use crate::progress::{Step, Steps};
use ldm_answers::{Answer, Text, write_answer};
use ldm_book::Book;
use ldm_outside::{Sink, SinkFailed, write_all};
use ldm_types::Actor;

/// Writes how full the queue is: `stat ADMITTED QUEUED HELD USED LARGEST`. It is the last step.
pub(crate) fn write_stat<K: Sink>(
    book: &mut Book,
    sink: &mut K,
    steps: &mut Steps,
) -> Result<(), SinkFailed>
    requires before { steps.old ≡ Some step.Waiting }
    ensures written { (s : State) → StandsFor book.old s
        → WritesAll result (answer_line (stat_of s).reply) (K.tells sink.old) (K.tells sink.new) }
    ensures noted { steps.new ≡ Some step.Line }
    ensures faults_kept { (K.tells sink.old).faults ≤ (K.tells sink.new).faults }
{
    let Some(actor) = Actor::new(0) else {
        unreachable!()
    };
    let mut line = Text::new();
    write_answer(&Answer::from(book.stat(actor)), &mut line);
    steps.make(Step::Line);
    write_all(sink, line.as_slice())
}
