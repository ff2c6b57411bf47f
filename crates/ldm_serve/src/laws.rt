//! What holds of all connections: what the rules keep from a host, and that none gives up. These functions do nothing:
//! their contracts are the laws.
ghost use Rattle.std.specs.Prelude.{◌≡◌, ◌⊎◌, ◌<◌, ℕ, List, [], length, Some, All};
ghost use Rattle.ldm_model.specs.declared.event.Entry.{Entry};
ghost use Rattle.ldm_shared.specs.Passes.{Calls};
ghost use Rattle.ldm_serve.specs.declared.end.ServeEnd.{ServeEnd};
ghost use Rattle.ldm_serve.specs.Client.{Client};
ghost use Rattle.ldm_serve.specs.Steps.{AreSteps};
ghost use Rattle.ldm_serve.specs.Outlived.{AreOutlived};
ghost use Rattle.ldm_serve.specs.Connection.{Answers, ServingMoment, messages_in};
ghost use Rattle.ldm_rpc.specs.Streams.{records_in};
ghost use Rattle.ldm_relay.specs.Sent.{Sent};
ghost use Rattle.ldm_session.specs.declared.limits.TheConstants.{LONGEST_STREAM};
ghost use Rattle.ldm_relay.specs.Spelling.{records_of};
ghost use Rattle.ldm_serve.specs.Serve.{ServesAll};
ghost use Rattle.ldm_serve.specs.ServingView.{beginning};
ghost use Rattle.ldm_serve.specs.Complete.{BecomesBy, IsCall, IsLawful, LacksMemory, Meets, NothingHinders, last_response};
ghost use Rattle.ldm_serve.specs.Kept.{AllPutIn, AllTellNone, SendsOnly};

use crate::end::ServeEnd;
use crate::response_laws::rules_are_kept;
use ldm_relay::what_is_written_is_read;
use ldm_rpc::records_are_read;

/// Whatever a host sends, the rules decide what it hands in, what it asks and what it is told, from the first byte of
/// its connection to the last. It does nothing.
pub fn serving_keeps_the_rules()
    // What the calls of the connection put into the queue are products for which the ACCEPT verdict of the host is Yes.
    // The queue is asked for its figures only where an ALLOW rule is about the host.
    ensures puts_in { (end : ServeEnd) (client : Client) (old new : ServingMoment) (made : List Entry)
        → ServesAll end client old new →
        Calls old.pass new.pass made → AllPutIn client [] made }
    // Each product that is sent, in part or whole, and each that is told of, is one for which the ALLOW verdict of the
    // host is Yes. Figures are told only where an ALLOW rule is about the host.
    ensures sends { (end : ServeEnd) (client : Client) (old new : ServingMoment) → ServesAll end client old new →
        SendsOnly client old.outside.link new.outside.link }
    // Before the connection becomes a feeding or a session of notices, nothing of any product is sent.
    ensures answers { (client : Client) (answers : Answers) → AreOutlived client answers.outlived
        → AreSteps client answers.last →
        AllTellNone (messages_in client answers) }
{
    // What is known of responses.
    rules_are_kept();
}

/// No connection gives up: where no count of faults rose, the queue can have a call more, and what the peer sends is
/// lawful, the first record behind which none is read decides what the connection becomes, and that ends by the rules,
/// the gate or the peer; where there is none such, the peer ends it. Or there is no memory.
pub fn lawful_connections_are_served()
    ensures served { (end : ServeEnd) (client : Client) (old new : ServingMoment) (stream : List ℕ) → ServesAll end client old new →
        old.outside.link.left ≡ Some stream → IsLawful client stream → NothingHinders new.pass old.outside new.outside
        → BecomesBy client (last_response client (records_in beginning stream)) end old.outside new.outside
        ⊎ LacksMemory end }
    // A peer sends what is lawful that sends calls that are not refused, each as it is spelled.
    ensures spelled { (client : Client) (calls : List Sent) → All (IsCall client) calls
        → length (records_of calls) < LONGEST_STREAM → IsLawful client (records_of calls) }
    // There is a connection of each client that meets all this: its peer sent nothing, and ended the stream.
    ensures met { (client : Client) → Meets ServeEnd.Ended client [] }
{
    what_is_written_is_read();
    records_are_read();
}
