//! What holds of all sessions of notices. The function does nothing: its contract is the law.
ghost use Rattle.ldm_outside.specs.Session.{SessionRecord};
ghost use Rattle.ldm_shared.specs.Passes.{PassView};
ghost use Rattle.ldm_sender.specs.Asked.{Asked};
ghost use Rattle.ldm_notify.specs.declared.end.NoteEnd.{NoteEnd};
ghost use Rattle.ldm_notify.specs.Notifies.{Notifies};
ghost use Rattle.ldm_notify.specs.Complete.{HasCallsLeft, IsEndFor, NoneFailed};

/// No session of notices gives up: where no count of faults rose and the queue can have a call more, the answer to the
/// request decides the end, or there is no memory. So a session whose cursor was opened goes on until the gate says to
/// stop.
pub fn notices_are_completed()
    ensures { (why : NoteEnd) (asked : Asked) (old new : PassView) (before after : SessionRecord)
        → (notified : Notifies why asked old new before after) → NoneFailed before after → HasCallsLeft new
        → IsEndFor notified.notifying.answered why }
{}
