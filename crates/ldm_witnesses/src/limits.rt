//! The limits of the program, each with its number. This function does nothing: its contract is the table.
ghost use Rattle.ldm_witnesses.specs.Limits.{QueueLimits, ScriptLimits, MessageLimits, SessionLimits};
ghost use Rattle.ldm_witnesses.specs.Limits.{FileLimits, CommandLimits, JournalLimits, StatusNumbers};

/// Each limit that a clause or a definition names has this number, and so has each status.
pub fn limits_are()
    ensures queue { QueueLimits }
    ensures scripts { ScriptLimits }
    ensures messages { MessageLimits }
    ensures sessions { SessionLimits }
    ensures files { FileLimits }
    ensures commands { CommandLimits }
    ensures journal { JournalLimits }
    ensures statuses { StatusNumbers }
{}
